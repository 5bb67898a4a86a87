//! From the bytes of all connections to the disk: as a law, and one connection served so.
#![tactic(auto)]

mod by_turns;
mod laws;
mod serving;

pub use by_turns::ByTurns;
pub use laws::whole;
pub use serving::{Beginning, serve_once};
