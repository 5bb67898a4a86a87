//! The acceptor: it hands each connection that comes to the worker with the fewest.
ghost use Rattle.std.specs.Prelude.{◌≡◌, IfOk};
ghost use Rattle.workers.specs.Workers.{IsServedFor};

use crate::fault::WorkersFault;
use crate::shared::{Shared, WorkerLoad};
use crossbeam_channel::{Sender, TrySendError};
use mio::{Events, Interest, Poll, Token, net};
use std::alloc::Global;
use std::io::{Error, ErrorKind};
use std::net::{Net, TcpListener};
use std::rt::Clock;
use std::sync::Wait;
use std::thread;
use std::time::Duration;
use talks::NewSocket;

/// For how many milliseconds the acceptor waits when it could not accept a connection, or there is no room for one.
const PAUSE_MILLIS: u64 = 10;

/// For how many seconds the acceptor waits for a connection at most, before it looks after the workers.
const LONGEST_WAIT: u64 = 1;

/// Who is told that connections are not accepted, or not served, for now.
pub trait Watch {
    /// As many connections are open as may be. It is told each time that another one would have been accepted.
    fn no_room(&self);

    /// Each worker has been at one turn for ten seconds, waiting for shards. It is told each second.
    fn all_busy(&self);

    /// The system does not let a connection be accepted, for example for want of file descriptors. It is told each time
    /// that one was to be.
    fn not_accepted(&self, cause: &Error);
}

/// What is served, and what it may cost.
#[derive(Drop)]
pub struct Bounds<'a, W> {
    /// How many connections are served in all.
    pub connections: u64,
    /// How many may be open. Others wait in the system's backlog.
    pub open: usize,
    /// How many bytes of requests that have not come whole may be held, for all of them. Past that those that come
    /// slowest are closed.
    pub half_sent: usize,
    /// Who is told that connections are not accepted, or not served, for now.
    pub watch: &'a W,
}

/// The acceptor's side of a worker.
#[derive(Drop)]
pub(crate) struct Link<'s> {
    /// Where connections are put for it, until no more come.
    pub(crate) arrivals: Option<Sender<NewSocket>>,
    pub(crate) load: &'s WorkerLoad,
}

// What became of a connection that was handed over.
enum Handed {
    Taken,
    Full(NewSocket),
    Gone(NewSocket),
}

impl<'s> Link<'s> {
    fn hand<R: Wait>(&self, rt: &R, socket: NewSocket) -> Handed {
        let Some(arrivals) = &self.arrivals else {
            return Handed::Gone(socket);
        };
        self.load.add();
        match arrivals.try_send(rt, socket) {
            Ok(()) => {
                self.load.wake();
                Handed::Taken
            }
            Err(TrySendError::Disconnected(socket)) => {
                self.load.leave();
                Handed::Gone(socket)
            }
            Err(error) => {
                self.load.end();
                Handed::Full(error.into_inner())
            }
        }
    }
}

// How many connections are open: `None` where no worker is left.
fn open_in(links: &[Link<'_>]) -> Option<usize> {
    let mut open = None;
    for link in links {
        if !link.load.is_gone() {
            open = Some(link.load.open().saturating_add(open.unwrap_or(0)));
        }
    }
    open
}

// The worker with the fewest connections, of those that are left.
fn least_in<'a, 's>(links: &'a [Link<'s>]) -> Option<&'a Link<'s>> {
    let mut least = None;
    let mut fewest = usize::MAX;
    for link in links {
        let open = link.load.open();
        if !link.load.is_gone() && (least.is_none() || open < fewest) {
            least = Some(link);
            fewest = open;
        }
    }
    least
}

/// Why no more connections are accepted.
#[derive(Clone, Copy)]
pub enum AcceptEnd {
    /// As many were accepted as were to be.
    All(u64),
    /// No worker is left.
    NoWorker,
}

/// The listener, with where to wait for connections to it.
#[derive(Drop)]
struct Door<'a> {
    listener: &'a TcpListener,
    poll: Poll,
    events: Events,
    // (it stays registered as long as this lives)
    _registered: net::TcpListener,
}

impl<'a> Door<'a> {
    fn new<R: Net>(
        rt: &R,
        alloc: Global,
        listener: &'a TcpListener,
    ) -> Result<Door<'a>, WorkersFault> {
        if listener.set_nonblocking(true).is_err() {
            return Err(WorkersFault::Thread);
        }
        let Ok(poll) = Poll::new(rt) else {
            return Err(WorkersFault::Thread);
        };
        let Ok(own) = listener.try_clone() else {
            return Err(WorkersFault::Thread);
        };
        let mut registered = net::TcpListener::from_std(own);
        let registry = poll.registry();
        if registry
            .register(&mut registered, Token(0), Interest::READABLE)
            .is_err()
        {
            return Err(WorkersFault::Thread);
        }
        Ok(Door {
            listener,
            poll,
            events: Events::with_capacity(alloc, 1)?,
            _registered: registered,
        })
    }

    // Accepts a connection. Where none has come, it waits for a second at most. Where none can be accepted, for example
    // for want of file descriptors, it waits a little.
    fn accept_one<R: Clock + Wait, W: Watch>(&mut self, rt: &R, watch: &W) -> Option<NewSocket> {
        match self.listener.accept() {
            Ok((stream, _)) => {
                if let Some(socket) = NewSocket::of(stream) {
                    return Some(socket);
                }
            }
            Err(error) if error.kind() == ErrorKind::WouldBlock => {
                let longest = Duration::from_secs(LONGEST_WAIT);
                let _ = self.poll.poll(&mut self.events, Some(longest));
                return None;
            }
            // (the client left, or a signal came)
            Err(error) if is_passing(error.kind()) => {}
            Err(error) => watch.not_accepted(&error),
        }
        thread::sleep(rt, Duration::from_millis(PAUSE_MILLIS));
        None
    }
}

// Whether a failure to accept says nothing of the next connection.
fn is_passing(kind: ErrorKind) -> bool {
    matches!(kind, ErrorKind::ConnectionAborted | ErrorKind::Interrupted)
}

/// What the acceptor works with.
#[derive(Drop)]
pub(crate) struct Acceptor<'a, W> {
    door: Door<'a>,
    links: &'a [Link<'a>],
    shared: &'a Shared,
    bounds: &'a Bounds<'a, W>,
    /// The second in which it last looked after the workers.
    looked: u64,
}

impl<'a, W: Watch> Acceptor<'a, W> {
    /// Nothing is accepted yet.
    pub(crate) fn new<R: Net>(
        rt: &R,
        alloc: Global,
        listener: &'a TcpListener,
        links: &'a [Link<'a>],
        shared: &'a Shared,
        bounds: &'a Bounds<'a, W>,
    ) -> Result<Acceptor<'a, W>, WorkersFault>
        ensures { IfOk result (λ it. it.bounds.now ≡ bounds.now) }
    {
        Ok(Acceptor {
            door: Door::new(rt, alloc, listener)?,
            links,
            shared,
            bounds,
            looked: 0,
        })
    }

    /// Hands each connection that comes to the workers, until as many have come as are to be served, or no
    /// worker is left.
    pub(crate) fn accept<R: Clock + Wait>(&mut self, rt: &R) -> AcceptEnd
        ensures { IsServedFor self.old.bounds.now.connections result }
    {
        let connections = self.bounds.connections;
        for _connection in 0..connections {
            if !self.serve_next(rt) {
                return AcceptEnd::NoWorker;
            }
        }
        AcceptEnd::All(connections)
    }

    // Accepts a connection and hands it over. Whether a worker is left.
    fn serve_next<R: Clock + Wait>(&mut self, rt: &R) -> bool {
        for _turn in rt.forever() {
            if !self.wait_for_room(rt) {
                return false;
            }
            if let Some(socket) = self.door.accept_one(rt, self.bounds.watch) {
                return self.hand_over(rt, socket);
            }
            self.look(rt);
        }
        unreachable!()
    }

    // Waits until another connection may be open. Whether a worker is left.
    fn wait_for_room<R: Clock + Wait>(&mut self, rt: &R) -> bool {
        for _turn in rt.forever() {
            match open_in(self.links) {
                None => return false,
                Some(open) if open < self.bounds.open => return true,
                Some(_) => {
                    self.bounds.watch.no_room();
                    self.pause(rt);
                }
            }
        }
        unreachable!()
    }

    // Hands a connection to the worker with the fewest, and waits where its queue is full. Whether a worker is left.
    fn hand_over<R: Clock + Wait>(&mut self, rt: &R, socket: NewSocket) -> bool {
        let mut held = socket;
        for _turn in rt.forever() {
            let Some(link) = least_in(self.links) else {
                return false;
            };
            match link.hand(rt, held) {
                Handed::Taken => return true,
                Handed::Full(socket) => {
                    held = socket;
                    self.pause(rt);
                }
                Handed::Gone(socket) => held = socket,
            }
        }
        unreachable!()
    }

    fn pause<R: Clock + Wait>(&mut self, rt: &R) {
        thread::sleep(rt, Duration::from_millis(PAUSE_MILLIS));
        self.look(rt);
    }

    // Once a second: tells whether all workers are busy.
    fn look<R: Clock>(&mut self, rt: &R) {
        let now = self.shared.seconds(rt, self.looked);
        if now != self.looked {
            self.looked = now;
            if self.shared.are_all_busy(now) {
                self.bounds.watch.all_busy();
            }
        }
    }
}

/// Tells each worker that no more connections come.
pub(crate) fn close(links: &mut [Link<'_>]) {
    for link in links.iter_mut() {
        link.arrivals = None;
        link.load.wake();
    }
}
