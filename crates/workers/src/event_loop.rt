//! The connections of a worker, and whose turn it is.

use crate::inbox::{Arrived, Inbox, NobodySends};
use crate::shared::{Shared, WorkerLoad};
use mio::{Events, Poll, Token};
use slab::Slab;
use std::alloc::{AllocError, Global};
use std::collections::VecDeque;
use std::rt::Clock;
use std::sync::Wait;
use std::sync::atomic::Ordering;
use std::time::Duration;
use talks::{Left, NewSocket, Peer, Session, Talk};

/// The token of the worker's waker.
pub(crate) const WAKER: Token = Token(usize::MAX);

/// The most events that are taken at once.
const EVENTS: usize = 256;

/// How many bytes are read at once, at most.
const SPACE: usize = 65_536;

/// For how many seconds a worker waits at most, so that connections that are idle are seen.
const LONGEST_WAIT: u64 = 1;

/// The connections of a worker.
#[derive(Drop)]
pub(crate) struct EventLoop<'s, T: Session + Drop> {
    poll: Poll,
    events: Events,
    inbox: Inbox,
    /// Whether connections may have arrived, or the worker was asked to close one.
    woken: bool,
    /// That no more can arrive, where that was told.
    over: Option<NobodySends>,
    pub(crate) peers: Slab<Peer<T>>,
    /// Those whose turn comes, one after another.
    pub(crate) ready: VecDeque<usize>,
    /// Where bytes are read.
    pub(crate) space: Vec<u8>,
    load: &'s WorkerLoad,
    shared: &'s Shared,
    /// The second in which it looked after all connections last.
    ticked: u64,
}

impl<'s, T: Session + Drop> EventLoop<'s, T> {
    /// No connections.
    pub(crate) fn new(
        alloc: Global,
        poll: Poll,
        inbox: Inbox,
        load: &'s WorkerLoad,
        shared: &'s Shared,
    ) -> Result<EventLoop<'s, T>, AllocError> {
        Ok(EventLoop {
            poll,
            events: Events::with_capacity(alloc, EVENTS)?,
            inbox,
            woken: true,
            over: None,
            peers: Slab::new(alloc),
            ready: VecDeque::new(alloc),
            space: Vec::from_elem(alloc, 0, SPACE)?,
            load,
            shared,
            ticked: 0,
        })
    }

    /// Ends a connection.
    pub(crate) fn end(&mut self, key: usize) {
        if let Some(peer) = self.peers.try_remove(key) {
            self.shared.held.fetch_sub(peer.held, Ordering::SeqCst);
            self.load.end();
        }
    }

    /// Waits until a socket is ready, or a second has passed, and notes the connections whose turn comes. Gives the
    /// second in which that is.
    pub(crate) fn wait<R: Clock>(&mut self, rt: &R) -> u64 {
        let timeout = if self.ready.is_empty() {
            Duration::from_secs(LONGEST_WAIT)
        } else {
            Duration::ZERO
        };
        self.load.rest();
        let _ = self.poll.poll(&mut self.events, Some(timeout));
        let now = self.shared.seconds(rt, self.ticked);
        self.load.begin(now);
        for event in self.events.iter() {
            let token = event.token();
            if token == WAKER {
                self.woken = true;
            } else if let Some(peer) = self.peers.get_mut(token.0)
                && peer.note(event.is_readable(), event.is_read_closed())
            {
                let _ = self.ready.push_back(token.0);
            }
        }
        now
    }

    // Takes a connection.
    fn admit(&mut self, alloc: Global, socket: NewSocket, now: u64) {
        let room = self.peers.len().saturating_add(1);
        if self.ready.reserve(room).is_err() {
            self.load.end();
            return;
        }
        let talk = Talk::new(socket, T::open(alloc));
        let Ok(key) = self.peers.insert(Peer::new(talk, now)) else {
            self.load.end();
            return;
        };
        let Some(peer) = self.peers.get_mut(key) else {
            return;
        };
        let Some(talk) = &mut peer.talk else {
            return;
        };
        if !talk.register(&self.poll, key) {
            self.end(key);
        }
    }

    /// Takes the connections that have arrived, and closes the slowest where another worker asked for it.
    pub(crate) fn admit_arrived<R: Wait>(&mut self, rt: &R, alloc: Global, now: u64) {
        if !self.woken {
            return;
        }
        self.woken = false;
        if self.load.was_asked() {
            self.shed(now);
        }
        for _arrival in 0..u64::MAX {
            match self.inbox.next(rt) {
                Arrived::One(socket) => self.admit(alloc, socket, now),
                Arrived::None => return,
                Arrived::Over(told) => {
                    self.over = Some(told);
                    return;
                }
            }
        }
    }

    /// Notes what a turn left of a connection, and how many bytes of a request it holds.
    pub(crate) fn put_back(&mut self, key: usize, left: Left, now: u64) {
        let is_over = self.hold(key);
        match left {
            Left::Over => self.end(key),
            Left::More => {
                if let Some(peer) = self.peers.get_mut(key)
                    && peer.note(false, false)
                {
                    let _ = self.ready.push_back(key);
                }
            }
            Left::Nothing => {}
        }
        if is_over {
            self.shed(now);
        }
    }

    // Counts the bytes of a request that a connection holds. Whether all hold more than they may.
    fn hold(&mut self, key: usize) -> bool {
        let Some(peer) = self.peers.get_mut(key) else {
            return false;
        };
        let (before, held) = (peer.held, peer.holds());
        peer.held = held;
        if held < before {
            self.shared.held.fetch_sub(before - held, Ordering::SeqCst);
        }
        if held <= before {
            return false;
        }
        self.shared.held.fetch_add(held - before, Ordering::SeqCst);
        self.shared.is_over()
    }

    // While all workers hold more than they may: ends the connection whose request comes slowest, or asks the worker
    // that has it.
    fn shed(&mut self, now: u64) {
        for _shed in 0..self.peers.capacity() {
            if !self.shared.is_over() {
                return;
            }
            let slowest = self.slowest(now);
            let pace = slowest.map(|(pace, _)| pace);
            self.load.say_pace(pace);
            if self.shared.ask_slower(pace) {
                return;
            }
            let Some((_, key)) = slowest else {
                return;
            };
            self.end(key);
        }
    }

    // The connection whose request comes slowest, with its pace.
    fn slowest(&self, now: u64) -> Option<(u64, usize)> {
        let mut slowest = None;
        for (key, peer) in self.peers.iter() {
            if let Some(pace) = peer.pace(now) {
                slowest = match slowest {
                    Some((least, other)) if least <= pace => Some((least, other)),
                    _ => Some((pace, key)),
                };
            }
        }
        slowest
    }

    /// Once a second: ends the connections whose time is up, and lets those rest that are idle.
    pub(crate) fn tick(&mut self, alloc: Global, now: u64) {
        if now == self.ticked {
            return;
        }
        self.ticked = now;
        self.woken = true;
        for key in 0..self.peers.capacity() {
            let Some(peer) = self.peers.get_mut(key) else {
                continue;
            };
            if peer.is_late(now) {
                self.end(key);
            } else {
                peer.rest(alloc, now);
            }
        }
        let pace = self.slowest(now).map(|(pace, _)| pace);
        self.load.say_pace(pace);
    }

    /// Takes no more connections, and answers no more requests: what was answered is still sent.
    pub(crate) fn leave(&mut self) {
        self.load.leave();
        for key in 0..self.peers.capacity() {
            if let Some(peer) = self.peers.get_mut(key) {
                peer.end();
                if peer.note(false, false) {
                    let _ = self.ready.push_back(key);
                }
            }
        }
    }

    /// That nobody sends any more, where no connection is left.
    pub(crate) fn done(&mut self) -> Option<NobodySends> {
        if self.peers.is_empty() {
            self.over.take()
        } else {
            None
        }
    }
}
