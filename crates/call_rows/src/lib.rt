//! A shard alone and its slots in memory, as rows of calls say them.
#![tactic(auto)]

mod alone;
mod calls;
mod contents;
mod counted;
mod crashes;
mod gathered;
mod left;
mod lone_stage;
mod pieces;
mod replies;
mod settings;
mod shards;
mod slots;

pub use calls::{call_of, number_of};
pub use counted::Counted;
pub use gathered::Gathered;
pub use left::FinalState;
pub use lone_stage::LoneStage;
pub use replies::write_told;
pub use settings::CaseSettings;
pub use shards::Shards;
