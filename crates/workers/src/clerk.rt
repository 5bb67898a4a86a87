//! A worker's turns: it visits each connection whose turn comes.
ghost use Rattle.std.specs.Prelude.{◌≡◌, false, IfOk};
ghost use Rattle.talks.specs.Talks.{Visits};

use crate::event_loop::EventLoop;
use std::alloc::Global;
use std::sync::Wait;
use talks::{Batch, Left, Peer, Returned, Serve, Session, Talk, VisitedBatch};

/// What a worker answers by: the service, a pass of it, and its server.
#[derive(Drop)]
pub(crate) struct Clerk<'a, I, P, S> {
    pub(crate) service: &'a I,
    pub(crate) pass: P,
    pub(crate) server: S,
}

impl<'a, I, P, S: Serve<I, P>> Clerk<'a, I, P, S> {
    /// Visits each connection whose turn has come, once, while the pass is not closed: as many together as fit into a
    /// batch. Gives the batch back.
    pub(crate) fn visit_ready<R: Wait>(
        &mut self,
        rt: &R,
        alloc: Global,
        event_loop: &mut EventLoop<'_, S::Session>,
        mut batch: Batch<S::Session>,
        now: u64,
    ) -> Batch<S::Session>
        requires { S.is_pass_of self.old.service.now self.old.pass }
        ensures pass { S.is_pass_of self.new.service.now self.new.pass }
        ensures same { self.new.service.now ≡ self.old.service.now }
        ensures visits { Visits S.visits self.old.service.now self.old.server self.old.pass
            self.new.server self.new.pass }
    {
        let mut turns = event_loop.ready.len();
        for _batch in 0..turns {
            if turns == 0 || !self.server.may_go_on(&self.pass) {
                return batch;
            }
            turns = fill(event_loop, &mut batch, turns, now);
            batch = self.visit(rt, alloc, event_loop, batch, now);
        }
        batch
    }

    // Visits the sessions of a batch, and ends their turns.
    fn visit<R: Wait>(
        &mut self,
        rt: &R,
        alloc: Global,
        event_loop: &mut EventLoop<'_, S::Session>,
        batch: Batch<S::Session>,
        now: u64,
    ) -> Batch<S::Session>
        requires { S.is_pass_of self.old.service.now self.old.pass }
        ensures pass { S.is_pass_of self.new.service.now self.new.pass }
        ensures same { self.new.service.now ≡ self.old.service.now }
        ensures visits { Visits S.visits self.old.service.now self.old.server self.old.pass
            self.new.server self.new.pass }
    {
        if batch.is_empty() {
            return batch;
        }
        let visited = batch.visit(rt, alloc, self.service, &mut self.pass, &mut self.server);
        give_back(event_loop, visited, now)
    }
}

// Begins at most this many turns, until no more sessions fit into the batch. How many turns are left.
fn fill<T: Session + Drop>(
    event_loop: &mut EventLoop<'_, T>,
    batch: &mut Batch<T>,
    turns: usize,
    now: u64,
) -> usize {
    for begun in 0..turns {
        if !batch.has_room() {
            return turns - begun;
        }
        let Some(key) = event_loop.ready.pop_front() else {
            return 0;
        };
        let Some(peer) = event_loop.peers.get_mut(key) else {
            continue;
        };
        match begin_turn(peer, &mut event_loop.space, now) {
            Ok(talk) => batch.lend(key, talk),
            Err(left) => event_loop.put_back(key, left, now),
        }
    }
    0
}

// Begins a turn: what is to be sent is sent, and what has come is read once. Gives the talk where there may be
// something to answer, and else what is left to do.
fn begin_turn<T: Session + Drop>(
    peer: &mut Peer<T>,
    space: &mut [u8],
    now: u64,
) -> Result<Talk<T>, Left>
    ensures { IfOk result (λ talk. (T.seen talk.session).closes ≡ false) }
{
    peer.begin();
    if peer.is_leaving() {
        return Err(peer.drop_some(space));
    }
    if !peer.send(now) {
        return Err(Left::Over);
    }
    if peer.is_open() {
        match peer.receive(space, now) {
            Some(true) => {
                if let Some(talk) = peer.lend() {
                    return Ok(talk);
                }
                peer.visited(false, now);
            }
            Some(false) => {}
            None => return Err(Left::Over),
        }
        if !peer.send(now) {
            return Err(Left::Over);
        }
    }
    Err(peer.left(now))
}

// Gives sessions back after their visit, in their order. Ends each turn: the answer is sent.
fn give_back<T: Session + Drop>(
    event_loop: &mut EventLoop<'_, T>,
    mut visited: VisitedBatch<T>,
    now: u64,
) -> Batch<T> {
    while let Some(returned) = visited.next() {
        let Returned {
            key,
            talk,
            answered,
        } = returned;
        let Some(peer) = event_loop.peers.get_mut(key) else {
            continue;
        };
        peer.take_back(talk, answered, now);
        let left = if peer.send(now) {
            peer.left(now)
        } else {
            Left::Over
        };
        event_loop.put_back(key, left, now);
    }
    visited.into_batch()
}

/// Sends what is left of each connection whose turn has come, and drops what still comes.
pub(crate) fn send_ready<T: Session + Drop>(event_loop: &mut EventLoop<'_, T>, now: u64) {
    for _visit in 0..event_loop.ready.len() {
        let Some(key) = event_loop.ready.pop_front() else {
            return;
        };
        let Some(peer) = event_loop.peers.get_mut(key) else {
            continue;
        };
        let left = send_last(peer, &mut event_loop.space, now);
        event_loop.put_back(key, left, now);
    }
}

fn send_last<T: Session + Drop>(peer: &mut Peer<T>, space: &mut [u8], now: u64) -> Left {
    peer.begin();
    if peer.is_leaving() {
        return peer.drop_some(space);
    }
    if !peer.send(now) {
        return Left::Over;
    }
    peer.left(now)
}
