//! A disk, and what a crash may leave of it.
//!
//! Between two syncs each written range, and all bytes past the old end, may hold anything after a crash. Bytes outside
//! stay. The length is at least that at the last sync, and at most the greatest since. After a sync a crash leaves what
//! a read gives.
#![tactic(auto)]

mod calls;
mod cause;
mod device;
mod file;
mod laws;

pub use cause::Cause;
pub use device::{DeviceFault, Disk, failed};
pub use file::{FileDisk, FileFault, LockedFile};
pub use laws::failed_writes_leave_any;
