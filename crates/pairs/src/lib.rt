//! Names with their values: as they were given, in any order, or as the structured metadata of a line, whose names
//! rise. Labels of a stream are such pairs too, with limits of their own.
#![tactic(auto)]

mod meta;
mod names;
mod pairs;

pub use meta::{Meta, MetaFault};
pub use names::{names_rise, sort};
pub use pairs::LabelPairs;
