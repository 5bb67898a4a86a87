//! The logs of shards, opened side by side: what stood in their slots, or which shard is the first that is refused.
#![tactic(auto)]

mod fault;
mod observer;
mod place;
mod returning;
mod side_by_side;

pub use fault::LogsFault;
pub use observer::{Observer, Unobserved};
pub use returning::give_back;
pub use side_by_side::open_logs;
