//! Calls on shards over slots in memory, alone or of an ingester, as rows say them; and calls of an ingester that request
//! no memory.
#![tactic(auto)]

mod quiet;
mod stage;
mod together;

pub use quiet::make_quiet_calls;
pub use stage::take_row;
