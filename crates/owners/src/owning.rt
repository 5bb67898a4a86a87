//! A thread that owns a shard.
ghost use Rattle.std.specs.Prelude.{ℕ};
ghost use Rattle.owners.specs.Owners.{IsOwner};

use crate::mailbox::Mailbox;
use crate::making::make_all;
use crate::messages::{AnswerSender, ExitReason, OrderReceiver};
use crate::places::{OfOpening, OpeningSnapshot};
use crate::sending::send_all;
use crate::taking::take_group;
use disk::Disk;
use keyed::{QueueReceiver, QueueSender};
use shard::Shard;
use std::alloc::Global;
use std::marker::Model;
use std::sync::Wait;

/// How a shard comes back from its owner.
pub type ShardSender<D> = QueueSender<Shard<D>, OpeningSnapshot<D>, OfOpening>;

/// The end at which whoever closes receives the shard.
pub type ShardReceiver<D> = QueueReceiver<Shard<D>, OpeningSnapshot<D>, OfOpening>;

/// What an owner works by: the ends of its queues, and its mailbox.
#[derive(Drop)]
pub struct OwnerEnds<D: Disk + Drop> {
    pub(crate) origin: OpeningSnapshot<D>,
    pub(crate) orders: OrderReceiver,
    pub(crate) answers: Vec<AnswerSender>,
    pub(crate) back: ShardSender<D>,
    pub(crate) mailbox: Mailbox,
}

/// What the thread of a shard has: the shard, and what it works by. Contracts see the shard's number.
#[derive(Drop)]
pub struct OwnerThread<D: Disk + Drop> {
    pub(crate) alloc: Global,
    pub(crate) number: usize,
    pub(crate) state: Shard<D>,
    pub(crate) ends: OwnerEnds<D>,
}

impl<D: Disk + Drop> Model for OwnerThread<D> {
    ghost use Rattle.std.specs.Prelude.{ℕ};
    ghost use Rattle.owners.specs.Owners.{IsOwner};

    ghost Value = { ℕ };

    ghost view = { λ o. o.number };

    ghost invariant = { λ o. IsOwner D.sight D.follows o.number o.state o.ends };
}

// Makes the calls that come, by groups, and sends the messages back, until the last order comes or nobody can send any
// more. Says which of both has come.
fn answer_orders<D: Disk + Drop, R: Wait>(
    rt: &R,
    alloc: Global,
    state: &mut Shard<D>,
    ends: &mut OwnerEnds<D>,
) -> ExitReason
    requires { (k : ℕ) × IsOwner D.sight D.follows k state.old ends.old }
    ensures { (k : ℕ) → IsOwner D.sight D.follows k state.old ends.old
        → IsOwner D.sight D.follows k state.new ends.new }
{
    for _ in rt.forever() {
        let ending = take_group(rt, &mut ends.orders, &mut ends.mailbox);
        make_all(alloc, state, &mut ends.mailbox);
        send_all(rt, &mut ends.mailbox.messages, &mut ends.answers);
        if let Some(ending) = ending {
            return ending;
        }
    }
    unreachable!()
}

/// Makes the calls that come, by groups, and sends the messages back, until the last order comes or nobody can send any
/// more. Then it gives the shard back, and says which of both has come.
pub fn own<D: Disk + Drop, R: Wait>(rt: &R, owner: OwnerThread<D>) -> ExitReason {
    let OwnerThread {
        alloc,
        number: _,
        mut state,
        mut ends,
    } = owner;
    let ending = answer_orders(rt, alloc, &mut state, &mut ends);
    drop(ends.back.send(rt, state));
    ending
}
