//! A shard alone, without an ingester: its calls from announcement to answer, one by one or as a group.
#![tactic(auto)]

mod apart;
mod busy_shard;
mod grouped;
mod lone;

pub use grouped::{Grouped, TurnReport};
pub use lone::LoneShard;
