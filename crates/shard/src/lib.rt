//! One shard: the states of its streams, its log over two slots, and its book, in which each call is one step.
//!
//! A change is written to the log before its step is added to the book, so that nothing is seen that a crash could
//! take.
#![tactic(auto)]

mod fault;
mod first_jobs;
mod group;
mod judging;
mod keeping;
mod parts;
mod ready;
mod refusing;
mod shard;
mod starting;
mod turn;
mod writing;

pub use fault::ApplyFault;
pub use first_jobs::{GroupEnd, Job, MAX_TURN};
pub use group::Settled;
pub use shard::Shard;
