//! One growing history for each shard, which every pass knows. It exists only in the proofs: the program keeps a
//! counter for each shard and a number for each pass.
#![tactic(auto)]

mod book;
mod handles;
mod history;
mod laws;
mod new_table;
mod table;
mod views;

pub use book::{Book, Kept};
pub use handles::{Pass, PassSpent, Receipt, Ticket};
pub use history::{Ended, History};
pub use laws::{refuse_beside, refuse_both};
pub use views::{About, Caller};
