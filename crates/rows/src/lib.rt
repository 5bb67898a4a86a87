//! Cases as rows of a text: what is done, and the lines that must be said.
//!
//! A row is a line `row NAME`, lines that say what is done, lines `= TEXT` that must be said, and a line `end`.
//! Blank lines and lines that begin with `#` are skipped. A line `of SUBJECT` outside a row says what the rows after it are
//! about.
#![tactic(auto)]

mod hex;
mod pairs;
mod row;
mod said;
mod tally;
mod text;

pub use hex::{read_hex, write_hex};
pub use pairs::{split_pairs, write_pairs};
pub use row::{Row, rows_of, word_of};
pub use said::Said;
pub use tally::Tally;
pub use text::{escape, only_character, text_of, text_times, unescape};
