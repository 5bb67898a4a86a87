//! HTTP/1.1 over what makes calls: from the bytes of a connection to calls, and from their replies to bytes.
#![tactic(auto)]

mod calling;
mod calls;
mod clock;
mod connection;
mod demands;
mod ends;
mod gathering;
mod laws;
mod lines;
mod putting;
mod replies;
mod responding;
mod serving;
mod visiting;
mod windows;

pub use calls::Calls;
pub use clock::Clock;
pub use connection::Connection;
pub use ends::Ends;
pub use gathering::{KeepsConnection, Workspace, answer_connections};
pub use laws::visits_join;
pub use replies::answer_of_read;
pub use requests::{Answer, Route, ServeFault, Served, Status};
pub use responding::{RequestBody, answer};
pub use serving::serve;
pub use visiting::Visited;
