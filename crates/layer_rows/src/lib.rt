//! Labels, streams, disks, and logs over slots in memory, as rows say them; and calls on streams and logs that request
//! no memory.
#![tactic(auto)]

mod bytes;
mod crash;
mod drive;
mod entry_words;
mod fixture;
mod log_rows;
mod numbers;
mod quiet;
mod records;
mod slots;
mod stream_rows;
mod texts;

pub use log_rows::take_row as take_log_row;
pub use quiet::make_quiet_calls;
pub use stream_rows::take_row as take_stream_row;
