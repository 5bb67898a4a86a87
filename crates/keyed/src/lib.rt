//! Queues between threads, and values that are set aside. Both have a key: what a message of the queue with number `k`,
//! or the value, satisfies may speak of the key and of `k`.
#![tactic(auto)]

mod aside;
mod binding;
mod ends;
mod queues;
mod rule;
mod waiters;

pub use aside::{Aside, Lies};
pub use binding::{Binding, Binds, EndView, Received};
pub use ends::{Gone, QueueReceiver, QueueSender};
pub use queues::queue;
pub use rule::Fits;
pub use waiters::Waiters;
