//! Calls over many shards: up to 64 shards, each owned by a thread, called by up to 64 passes; how they are opened, and
//! what closing hands out.
#![tactic(auto)]

mod announcing;
mod batches;
mod building;
mod calls;
mod closing;
mod collecting;
mod fault;
mod made_shards;
mod opened;
mod passes;
mod refusal;
mod settings;
mod sizes;

pub use closing::Closed;
pub use opened::Ingester;
pub use passes::Pass;
pub use refusal::OpenFault;
pub use settings::Settings;
