//! Where a worker's connections arrive.

use crossbeam_channel::{Receiver, TryRecvError};
use std::sync::Wait;
use talks::NewSocket;

/// The channel has told that nobody can send any more. Only this file makes one.
#[derive(Drop)]
pub struct NobodySends {
    _told: (),
}

/// What has arrived.
pub(crate) enum Arrived {
    One(NewSocket),
    /// None for now.
    None,
    /// None, and no more will.
    Over(NobodySends),
}

/// The worker's end of the channel from the acceptor.
#[derive(Drop)]
pub(crate) struct Inbox {
    arrivals: Receiver<NewSocket>,
}

impl Inbox {
    pub(crate) fn new(arrivals: Receiver<NewSocket>) -> Inbox {
        Inbox { arrivals }
    }

    /// The next connection that has arrived.
    pub(crate) fn next<R: Wait>(&self, rt: &R) -> Arrived {
        match self.arrivals.try_recv(rt) {
            Ok(socket) => Arrived::One(socket),
            Err(TryRecvError::Empty) => Arrived::None,
            Err(TryRecvError::Disconnected) => Arrived::Over(NobodySends { _told: () }),
        }
    }
}
