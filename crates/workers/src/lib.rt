//! The threads that serve a listener: one accepts its connections, and workers with a pass and many connections each
//! serve them.
#![tactic(auto)]

mod accepting;
mod clerk;
mod event_loop;
mod fault;
mod inbox;
mod serving;
mod shared;
mod worker;

pub use accepting::{AcceptEnd, Bounds, Watch};
pub use fault::WorkersFault;
pub use inbox::NobodySends;
pub use serving::serve_listener;
pub use worker::Why;
