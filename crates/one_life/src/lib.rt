//! A small life of an ingester and a turn of a shard, by their public calls: they promise what the headline asks for.
#![tactic(auto)]

mod called;
mod cut;
mod laws;
mod once;
mod opening;
mod seen;
mod turned;

pub use called::{Tray, call_once, empty_tray};
pub use cut::{cut_once, cut_turn};
pub use laws::cut_turn_ends_a_life;
pub use once::live_once;
pub use opening::{Two, open_two};
pub use seen::{close_once, look_once, meet_once};
pub use turned::turn_once;
