//! Connections in memory, as rows of a text say them: the bytes that come, how they come, and how what is written is
//! taken; what comes of their calls, where a list says it; and what each run comes to.
#![tactic(auto)]

mod connection;
mod each;
mod groups;
mod listed;
mod manner;
mod plan;
mod script;
mod sink;
mod source;
mod together;
mod visits;

pub use connection::ConnectionInput;
pub use each::Each;
pub use groups::Groups;
pub use listed::{STORED, run_alone, run_listed};
pub use manner::Manner;
pub use plan::{CasePlan, ConnectionCase};
pub use script::{Script, Told};
pub use sink::Sink;
pub use source::Source;
pub use together::run_together;
pub use visits::{Came, Ticking};
