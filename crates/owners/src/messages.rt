//! What goes through the queues.
ghost use Rattle.std.specs.Prelude.{◌≡◌, ◌<◌, true};
ghost use Rattle.std.specs.VecDeque.{deque_len, deque_capacity};

use crate::places::Home;
use keyed::{Fits, Gone, QueueReceiver, QueueSender};
use shard::{Job, Settled};
use std::collections::VecDeque;

/// Calls of a pass on one shard, in their order; on the way back, what became of them. It goes to and fro, and keeps
/// its memory.
#[derive(Drop)]
pub struct ShardMessage {
    /// The number of the pass.
    pub pass: usize,
    /// Calls that are to be made.
    pub jobs: VecDeque<Job>,
    /// What became of calls.
    pub settled: VecDeque<Settled>,
}

impl ShardMessage {
    /// Makes room for a further call, and for what becomes of all its calls. Says whether there is memory for both.
    pub fn make_room(&mut self) -> bool
        ensures pass { self.new.pass ≡ self.old.pass }
        ensures jobs { self.new.jobs.items ≡ self.old.jobs.items }
        ensures settled { self.new.settled.items ≡ self.old.settled.items }
        ensures room { result ≡ true → deque_len self.new.jobs < deque_capacity self.new.jobs }
        ensures answers { result ≡ true
            → deque_len self.new.jobs < deque_capacity self.new.settled }
    {
        let Some(calls) = self.jobs.len().checked_add(1) else {
            return false;
        };
        self.settled.reserve(calls).is_ok() && self.jobs.reserve(1).is_ok()
    }
}

/// What an owner is sent.
#[derive(Drop)]
pub enum Order {
    /// Calls to make.
    Make(ShardMessage),
    /// The last order.
    End(LastOrder),
}

/// That a pass wants the owners to end. Only `end_owners` makes one.
#[derive(Drop)]
pub struct LastOrder {
    asked: (),
}

impl LastOrder {
    pub(crate) fn new() -> LastOrder {
        LastOrder { asked: () }
    }
}

/// Why an owner ends: its last order has come, or nobody can send it any more.
#[derive(Drop)]
pub enum ExitReason {
    /// The last order has come.
    Ordered(LastOrder),
    /// All who could send orders are gone.
    Alone(Gone),
}

/// Each order is for the shard of its queue.
pub struct ForShard;

impl Fits<Order, Home> for ForShard {
    ghost use Rattle.owners.specs.Messages.{IsOrderFor};

    ghost fits = { λ home k order. IsOrderFor home k order };
}

/// Each message that comes back is for the pass of its queue.
pub struct ForPass;

impl Fits<ShardMessage, Home> for ForPass {
    ghost use Rattle.owners.specs.Messages.{IsAnswerTo};

    ghost fits = { λ home p message. IsAnswerTo home p message };
}

/// How orders reach an owner.
pub type OrderSender = QueueSender<Order, Home, ForShard>;

/// How an owner gets them.
pub type OrderReceiver = QueueReceiver<Order, Home, ForShard>;

/// How answers leave an owner.
pub type AnswerSender = QueueSender<ShardMessage, Home, ForPass>;

/// How a pass gets them.
pub type AnswerReceiver = QueueReceiver<ShardMessage, Home, ForPass>;
