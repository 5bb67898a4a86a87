//! The streams of shards under another number of shards: they are read from the slots of the old shards, and written
//! into empty slots of new ones.
#![tactic(auto)]

mod dealing;
mod fault;
mod laws;
mod moving;
mod reading;
mod splitting;
mod starting;
mod testing;

pub use fault::SplitFault;
pub use laws::split_keeps_streams;
pub use splitting::{Slots, split};
