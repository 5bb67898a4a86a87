//! Bodies of push, query and trim requests, from JSON bytes to batches.
#![tactic(auto)]

mod fault;
mod laws;
mod parts;
mod push;
mod query;
mod shape;
mod time;

pub use fault::PushFault;
pub use laws::one_answer;
pub use push::{RawBatch, read_push};
pub use query::{RawRead, RawTrim, read_query, read_trim};
pub use time::time_of;
