//! Requests and answers of HTTP/1.1 as bytes: which request is at the front of a connection's bytes, what it is, and
//! the text of an answer. No call is made here.
//!
//! A head is what `httparse` reads, of at most `MAX_FIELDS` fields and `MAX_HEAD` bytes. A body is as long as its
//! Content-Length says, at most `MAX_BODY` bytes.
#![tactic(auto)]

mod answer;
mod failure;
mod fault;
mod fields;
mod fixed;
mod framing;
mod incoming;
mod laws;
mod outbox;
mod outgoing;
mod reading;
mod route;
mod status;
mod verdict;
mod writing;

pub use answer::{Answer, Content};
pub use failure::{LONGEST_FAILURE, failure_body, failure_text};
pub use fault::{ServeFault, Served};
pub use fixed::{FixedAnswer, Method};
pub use framing::MAX_BODY;
pub use incoming::{Incoming, MAX_FIELDS, MAX_HEAD, Message, Next};
pub use laws::{one_request, one_split};
pub use outbox::Outbox;
pub use outgoing::{Outgoing, ROOM_FOR_HEAD, push_number};
pub use route::Route;
pub use status::Status;
pub use verdict::Verdict;
pub use writing::write_text;
