//! HTTP/1.1 over an ingester: from the bytes of a connection to calls, and from their replies to bytes. The server, as
//! a call with its words and writers, so that tests can run it. And what programs over shards share: their clock,
//! shards that they open and close, what the environment sets and the system allows, what they say at their start, and
//! what stops them.
#![tactic(auto)]

mod busy_lines;
mod clock;
mod connections;
mod full;
mod full_lines;
mod laws;
mod program_fault;
mod program_shards;
mod reading;
mod replayed;
mod server;
mod serving;
mod setting;
mod system_limits;

pub use answering::{
    Answer, Clock, Connection, KeepsConnection, Route, ServeFault, Served, Status, Workspace,
    answer_of_read,
};
pub use clock::SystemClock;
pub use connections::{Connections, KeptConnection};
pub use full::{FullShards, Untold};
pub use laws::{answers_after_steps, one_step_a_call, sockets_say_what_visits_put};
pub use program_fault::ProgramFault;
pub use program_shards::{ClosedShards, close_shards, open_shards};
pub use programs::{Environment, environment_of, tell_about, words_of};
pub use server::run_server;
pub use serving::{Service, answer, serve};
pub use setting::{capacity_by, limits_by};
