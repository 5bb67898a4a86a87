//! The routes of a pass to the shards.
ghost use Rattle.owners.specs.Routes.{IsBlank};

use crate::messages::{AnswerReceiver, OrderSender, ShardMessage};
use std::alloc::Global;
use std::collections::VecDeque;
use std::sync::atomic::AtomicBool;

/// The route of a pass to a shard and back. Its message is empty while no call is under way. While the message is out,
/// an empty one that takes no memory stands here.
#[derive(Drop)]
pub struct ShardRoute {
    /// The message.
    pub message: ShardMessage,
    /// Whether the message was sent, and has not been waited for yet.
    pub is_out: bool,
    /// Whether a call by this route has found no room since `next_full` was asked last.
    pub is_full: AtomicBool,
    /// How orders reach the owner.
    pub orders: OrderSender,
    /// How answers come back.
    pub answers: AnswerReceiver,
}

// A message without a call, which takes no memory.
pub(crate) fn blank(alloc: Global, pass: usize) -> ShardMessage
    ensures { IsBlank pass result }
{
    ShardMessage {
        pass,
        jobs: VecDeque::new(alloc),
        settled: VecDeque::new(alloc),
    }
}
