//! How an owner takes in the calls that have come.
ghost use Rattle.std.specs.Prelude.{◌≡◌, ◌≤◌, ℕ};
ghost use Rattle.std.specs.VecDeque.{deque_len, deque_capacity};
ghost use Rattle.keyed.specs.Queues.{receives_as, received_by};
ghost use Rattle.keyed.specs.declared.binding.Binding.TheVariants.{Bound};
ghost use Rattle.history.specs.Histories.{max_open};
ghost use Rattle.shard.specs.Jobs.{max_turn};
ghost use Rattle.owners.specs.Homes.{Homed};
ghost use Rattle.owners.specs.Messages.{IsMessageTo, IsOrderFor};
ghost use Rattle.owners.specs.Mailboxes.{max_mailbox, IsMailbox};
ghost use Rattle.owners.specs.Taken.{IsPutInMailbox, IsTakenIn, IsTakenGroup};

use crate::mailbox::{Mailbox, move_jobs, put_at};
use crate::messages::{ExitReason, Order, OrderReceiver, ShardMessage};
use shard::MAX_TURN;
use std::sync::Wait;

// Puts the calls of a message after those of the mailbox, and the message at the place of its pass.
fn take_message(mailbox: &mut Mailbox, mut message: ShardMessage)
    requires room { max_mailbox ≤ deque_capacity mailbox.old.jobs }
    requires few { deque_len mailbox.old.jobs ≤ max_turn }
    requires message { deque_len message.jobs ≤ max_open }
    ensures mailbox { (home : Homed) (k : ℕ) → IsMailbox home k mailbox.old → IsMessageTo home k message
        → IsMailbox home k mailbox.new }
    ensures few { deque_len mailbox.new.jobs ≤ max_mailbox }
    ensures put { IsPutInMailbox message mailbox.old mailbox.new }
{
    move_jobs(&mut message.jobs, &mut mailbox.jobs);
    let pass = message.pass;
    if pass < mailbox.messages.len() {
        put_at(&mut mailbox.messages, pass, message);
    }
}

// Takes in an order. The last one says why the owner ends.
fn take_order(mailbox: &mut Mailbox, order: Order) -> Option<ExitReason>
    requires order { (home : Homed) × (k : ℕ) × IsMailbox home k mailbox.old × IsOrderFor home k order }
    requires few { deque_len mailbox.old.jobs ≤ max_turn }
    ensures mailbox { (home : Homed) (k : ℕ) → IsMailbox home k mailbox.old → IsOrderFor home k order
        → IsMailbox home k mailbox.new }
    ensures few { deque_len mailbox.new.jobs ≤ max_mailbox }
    ensures taken { IsTakenIn order mailbox.old mailbox.new result }
{
    match order {
        Order::Make(message) => {
            take_message(mailbox, message);
            None
        }
        Order::End(last) => Some(ExitReason::Ordered(last)),
    }
}

/// Waits for an order, and takes in those that are there, until the calls of a turn or more are to be made. All that it
/// takes from the queue are in the mailbox then. After the last order, or where nobody can send any more, it says why
/// the owner ends.
pub(crate) fn take_group<R: Wait>(
    rt: &R,
    orders: &mut OrderReceiver,
    mailbox: &mut Mailbox,
) -> Option<ExitReason>
    requires mailbox { (home : Homed) × (k : ℕ) × (receives_as orders.old ≡ Bound home k)
        × IsMailbox home k mailbox.old }
    requires idle { deque_len mailbox.old.jobs ≡ 0 }
    ensures same { receives_as orders.new ≡ receives_as orders.old }
    ensures mailbox { (home : Homed) (k : ℕ) → receives_as orders.old ≡ Bound home k
        → IsMailbox home k mailbox.old → IsMailbox home k mailbox.new }
    ensures few { deque_len mailbox.new.jobs ≤ max_mailbox }
    ensures taken { IsTakenGroup (received_by orders.old) (received_by orders.new) mailbox.old mailbox.new
        result }
{
    let first = match orders.receive(rt) {
        Ok(first) => first,
        Err(gone) => return Some(ExitReason::Alone(gone)),
    };
    let mut ending = take_order(mailbox, first);
    for _ in 0..MAX_TURN {
        if ending.is_some() || mailbox.jobs.len() >= MAX_TURN {
            break;
        }
        let Some(next) = orders.try_receive(rt) else {
            break;
        };
        ending = take_order(mailbox, next);
    }
    ending
}
