//! Connections between their sockets and their sessions: what comes is taken in, sessions are visited together, and
//! what they have to say is sent. Without threads, and without an ingester, HTTP and a disk.
#![tactic(auto)]

mod batch;
mod peer;
mod serve;
mod session;
mod socket;
mod talk;

pub use batch::{Batch, Returned, VisitedBatch};
pub use peer::{IDLE_SECONDS, Left, Peer, REQUEST_SECONDS};
pub use serve::{BATCH, Serve};
pub use session::Session;
pub use socket::NewSocket;
pub use talk::Talk;
