//! How all calls of a mailbox are made at their shard.
ghost use Rattle.std.specs.Prelude.{◌≡◌, ◌≤◌, [], vec_capacity};
ghost use Rattle.std.specs.VecDeque.{deque_len};
ghost use Rattle.owners.specs.Homes.{Homed};
ghost use Rattle.owners.specs.Calls.{AreOfCalls, with_memory};
ghost use Rattle.owners.specs.Places.{IsOf};
ghost use Rattle.owners.specs.Mailboxes.{max_mailbox, ArePlaces, IsMailbox};
ghost use Rattle.owners.specs.Openings.{Opening, home_of};

use crate::mailbox::{Mailbox, put};
use crate::messages::ShardMessage;
use disk::Disk;
use shard::{ApplyFault, Settled, Shard};
use std::alloc::Global;
use std::collections::VecDeque;
use std::mem;

// What is told of a call that came back after another one of its pass: that there was no memory. It is known of the
// first alone that it needs another generation.
fn after_another(settled: Settled) -> Settled
    ensures { result ≡ with_memory settled }
{
    match settled {
        Settled::GivenBack(_, ticket) => Settled::GivenBack(ApplyFault::Memory, ticket),
        answered => answered,
    }
}

// Puts what a turn made of calls into the messages of their passes, and gives the list back.
fn hand_out(settled: Vec<Settled>, places: &mut Vec<Option<ShardMessage>>) -> Vec<Settled>
    ensures places { (home : Homed) → AreOfCalls home.table settled.items → ArePlaces home places.old.items
        → ArePlaces home places.new.items }
    ensures none { result.items ≡ [] }
    ensures capacity { vec_capacity result ≡ vec_capacity settled }
{
    let mut came = VecDeque::from_vec(settled);
    let Some(first) = came.pop_front() else {
        return came.into_vec();
    };
    put(places, first);
    while let Some(next) = came.pop_front() {
        put(places, after_another(next));
    }
    came.into_vec()
}

/// Makes all calls of the mailbox by turns, and puts what became of them into the messages of their passes.
pub(crate) fn make_all<D: Disk + Drop>(alloc: Global, state: &mut Shard<D>, mailbox: &mut Mailbox)
    requires opening { (opening : Opening D)
        × IsOf D.sight D.follows opening state.old.book.shard state.old
        × IsMailbox (home_of opening) state.old.book.shard mailbox.old }
    requires few { deque_len mailbox.old.jobs ≤ max_mailbox }
    ensures state { (opening : Opening D)
        → IsOf D.sight D.follows opening state.old.book.shard state.old
        → IsMailbox (home_of opening) state.old.book.shard mailbox.old
        → IsOf D.sight D.follows opening state.old.book.shard state.new }
    ensures mailbox { (opening : Opening D)
        → IsOf D.sight D.follows opening state.old.book.shard state.old
        → IsMailbox (home_of opening) state.old.book.shard mailbox.old
        → IsMailbox (home_of opening) state.old.book.shard mailbox.new }
    ensures made { (mailbox.new.jobs.items ≡ []) × (deque_len mailbox.new.jobs ≡ 0) }
{
    while !mailbox.jobs.is_empty() {
        state.apply_group(alloc, &mut mailbox.jobs, &mut mailbox.settled);
        let settled = mem::replace(&mut mailbox.settled, Vec::new(alloc));
        mailbox.settled = hand_out(settled, &mut mailbox.messages);
    }
}
