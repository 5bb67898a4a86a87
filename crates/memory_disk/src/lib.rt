//! Disks for tests, tools and figures: one in memory, which can list what a crash may leave of it, and one whose syncs
//! wait at a gate.
#![tactic(auto)]

mod gate;
mod images;
mod memory;
mod plan;

pub use gate::{Gate, GateDisk};
pub use images::ImagesFault;
pub use memory::MemDisk;
