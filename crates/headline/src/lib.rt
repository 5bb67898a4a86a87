//! The headline as laws, over what the public calls of an ingester promise.
#![tactic(auto)]

mod laws;

pub use laws::{calls_happen_in_order, headline, headline_of_openings, opening_writes_nothing};
