//! What an owner works with.
ghost use Rattle.std.specs.Prelude.{◌≡◌, ◌+◌, ◌≤◌, ◌<◌, [], ◌++◌, Some, None, vec_len, slice_index_or, slice_set};
ghost use Rattle.std.specs.VecDeque.{deque_len, deque_capacity};
ghost use Rattle.owners.specs.Homes.{Homed};
ghost use Rattle.owners.specs.Mailboxes.{ArePlaces};
ghost use Rattle.owners.specs.Calls.{IsOfCall, pass_in};

use crate::messages::ShardMessage;
use shard::{Job, Settled};
use std::collections::VecDeque;
use std::mem;

/// The messages of the passes whose calls are made, each at the place of its pass; the calls; and what became of them.
/// It keeps its memory from group to group.
#[derive(Drop)]
pub struct Mailbox {
    /// A place for the message of each pass.
    pub messages: Vec<Option<ShardMessage>>,
    /// The calls of all messages.
    pub jobs: VecDeque<Job>,
    /// What became of calls.
    pub settled: Vec<Settled>,
}

// The number of the pass whose call it was.
pub(crate) fn pass_of(settled: &Settled) -> usize
    ensures { result ≡ pass_in settled.now }
{
    match settled {
        Settled::Answered(_, receipt) => receipt.pass(),
        Settled::GivenBack(_, ticket) => ticket.pass(),
    }
}

// Takes out what lies at a place.
pub(crate) fn take_at(places: &mut Vec<Option<ShardMessage>>, at: usize) -> Option<ShardMessage>
    requires { at < vec_len places.old }
    ensures value { result ≡ slice_index_or places.old.items at None }
    ensures after { places.new.items ≡ slice_set places.old.items at None }
    ensures len { vec_len places.new ≡ vec_len places.old }
{
    mem::replace(&mut places[at], None)
}

// Puts a message at its place.
pub(crate) fn put_at(places: &mut Vec<Option<ShardMessage>>, at: usize, message: ShardMessage)
    requires { at < vec_len places.old }
    ensures { places.new.items ≡ slice_set places.old.items at (Some message) }
{
    places[at] = Some(message);
}

// Puts what became of a call into the message of its pass. Where that is not there, or has no room, it is dropped.
pub(crate) fn put(places: &mut Vec<Option<ShardMessage>>, came: Settled)
    ensures { (home : Homed) → ArePlaces home places.old.items → IsOfCall home.table came
        → ArePlaces home places.new.items }
{
    let pass = pass_of(&came);
    if pass >= places.len() {
        return;
    }
    let Some(mut message) = take_at(places, pass) else {
        return;
    };
    drop(message.settled.push_back(came));
    put_at(places, pass, message);
}

// Moves all calls of one list to the end of another.
pub(crate) fn move_jobs(from: &mut VecDeque<Job>, to: &mut VecDeque<Job>)
    requires { deque_len to.old + deque_len from.old ≤ deque_capacity to.old }
    ensures items { to.new.items ≡ to.old.items ++ from.old.items }
    ensures len { deque_len to.new ≡ deque_len to.old + deque_len from.old }
    ensures capacity { deque_capacity to.new ≡ deque_capacity to.old }
    ensures none { from.new.items ≡ [] }
{
    while let Some(job) = from.pop_front() {
        to.push_back_reserved(job);
    }
}
