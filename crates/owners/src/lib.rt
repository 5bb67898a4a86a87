//! The threads that own an opening's shards, one for each, and the queues by which the calls of passes reach them.
//!
//! A pass puts its calls on a shard into a message and sends it to the owner. The owner makes the calls of the messages
//! that have come by groups, and sends each message back with what became of its calls.
#![tactic(auto)]

mod handing;
mod mailbox;
mod making;
mod messages;
mod owning;
mod places;
mod plan;
mod routes;
mod rows;
mod sending;
mod several;
mod taking;
mod team;

pub use handing::{hand_all, take_shard};
pub use messages::{
    AnswerReceiver, AnswerSender, ExitReason, ForPass, ForShard, LastOrder, Order, OrderReceiver,
    OrderSender, ShardMessage,
};
pub use owning::{OwnerEnds, OwnerThread, ShardReceiver, ShardSender, own};
pub use places::{Home, OfOpening, OpeningSnapshot};
pub use plan::{Closer, Closing, OfClosing, Plan, make_plan};
pub use routes::ShardRoute;
pub use several::{clear_messages, end_owners, next_full, receive_messages, send_messages};
pub use team::{StartFault, Team};
