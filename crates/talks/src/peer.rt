//! A connection of a worker, with its times.
ghost use Rattle.std.specs.Prelude.{◌≡◌, false, IfSome};

use crate::session::Session;
use crate::socket::Stalled;
use crate::talk::Talk;
use std::alloc::Global;

/// The most bytes that may wait to be sent while more is read.
const UNSENT: usize = 1 << 20;

/// For how many seconds a connection may send nothing, or take nothing, before it is closed.
pub const IDLE_SECONDS: u64 = 60;

/// How many seconds there may be between a request's first byte and its last.
pub const REQUEST_SECONDS: u64 = 300;

/// For how many seconds what still comes is dropped, so that the last answer arrives.
const LEAVING_SECONDS: u64 = 2;

/// After how many idle seconds a connection lets go of memory.
const REST_SECONDS: u64 = 2;

/// What is left of a connection after a turn.
#[derive(Clone, Copy, PartialEq, Eq)]
pub enum Left {
    /// Nothing, until its socket says so.
    Nothing,
    /// There is more to do now.
    More,
    /// The connection ends.
    Over,
}

/// How far a connection is.
#[derive(Clone, Copy, PartialEq, Eq)]
enum Phase {
    /// Requests are read and answered.
    Open,
    /// No more is read. It ends once all is sent.
    Ending,
    /// All is sent since this second, and what still comes is dropped.
    Leaving(u64),
}

/// A connection of a worker. Times are in seconds since the worker began.
#[derive(Drop)]
pub struct Peer<T: Session + Drop> {
    /// `None` while its session is visited.
    pub talk: Option<Talk<T>>,
    phase: Phase,
    /// When its last byte came or went.
    heard: u64,
    /// When the first byte came of a request that has not come whole.
    began: Option<u64>,
    /// How many bytes have come of it.
    pub held: usize,
    /// Whether it is among those whose turn comes.
    queued: bool,
    /// Whether bytes may be there to be read.
    readable: bool,
    /// Whether the other end may have ended: then it is read until it has.
    hung_up: bool,
    /// Whether whole requests may stand in the session.
    more: bool,
    /// Whether the session may keep memory.
    warm: bool,
}

impl<T: Session + Drop> Peer<T> {
    /// Nothing has come yet.
    pub fn new(talk: Talk<T>, now: u64) -> Peer<T> {
        Peer {
            talk: Some(talk),
            phase: Phase::Open,
            heard: now,
            began: None,
            held: 0,
            queued: false,
            readable: false,
            hung_up: false,
            more: false,
            warm: false,
        }
    }

    /// Notes what its socket says. Whether it was not among those whose turn comes.
    pub fn note(&mut self, readable: bool, hung_up: bool) -> bool {
        self.readable |= readable || hung_up;
        self.hung_up |= hung_up;
        let first = !self.queued;
        self.queued = true;
        first
    }

    /// Begins a turn.
    pub fn begin(&mut self) {
        self.queued = false;
    }

    /// Whether what still comes is dropped.
    pub fn is_leaving(&self) -> bool {
        matches!(self.phase, Phase::Leaving(_))
    }

    /// Whether requests may be read and answered now.
    pub fn is_open(&self) -> bool {
        self.phase == Phase::Open && self.unsent() <= UNSENT
    }

    // How many bytes are to be sent.
    fn unsent(&self) -> usize {
        match &self.talk {
            Some(talk) => talk.session.text().len(),
            None => 0,
        }
    }

    /// Reads no more.
    pub fn end(&mut self) {
        if self.phase == Phase::Open {
            self.phase = Phase::Ending;
        }
    }

    /// Takes in what has come, by one read at most. Whether there may be something to answer; `None` where the
    /// connection ends at once.
    pub fn receive(&mut self, space: &mut [u8], now: u64) -> Option<bool> {
        if self.more {
            return Some(true);
        }
        if !self.readable {
            return Some(false);
        }
        let Some(talk) = &mut self.talk else {
            return Some(false);
        };
        let room = talk.session.room().min(space.len());
        match talk.receive(space) {
            Ok(0) => {
                self.phase = Phase::Ending;
                Some(false)
            }
            Ok(count) => {
                self.heard = now;
                self.warm = true;
                self.readable = count == room || self.hung_up;
                Some(true)
            }
            Err(Stalled::Blocked) => {
                self.readable = false;
                Some(false)
            }
            Err(Stalled::Interrupted) => Some(false),
            Err(Stalled::Failed) => None,
        }
    }

    /// Its talk, for a visit, where its session goes on.
    pub fn lend(&mut self) -> Option<Talk<T>>
        ensures { IfSome result (λ talk. (T.seen talk.session).closes ≡ false) }
    {
        let talk = self.talk.take()?;
        if talk.session.closes() {
            self.talk = Some(talk);
            return None;
        }
        Some(talk)
    }

    /// Takes its talk back after a visit.
    pub fn take_back(&mut self, talk: Talk<T>, answered: bool, now: u64) {
        self.talk = Some(talk);
        self.visited(answered, now);
    }

    /// Notes what a visit left. There may be more to answer where there is no room for more to come.
    pub fn visited(&mut self, answered: bool, now: u64) {
        let Some(talk) = &self.talk else {
            return;
        };
        let (closes, held) = (talk.session.closes(), talk.session.held());
        self.more = talk.session.room() == 0 && !closes;
        if closes {
            self.phase = Phase::Ending;
        }
        if held == 0 || self.more {
            self.began = None;
        } else if answered || self.began.is_none() {
            self.began = Some(now);
        }
    }

    /// Sends what is to be sent, as far as that goes without waiting. Whether the connection goes on.
    pub fn send(&mut self, now: u64) -> bool {
        let Some(talk) = &mut self.talk else {
            return true;
        };
        for _turn in 0..u64::MAX {
            if talk.session.text().is_empty() {
                return true;
            }
            match talk.send_some() {
                Ok(0) => return false,
                Ok(_) => self.heard = now,
                Err(Stalled::Blocked) => return true,
                Err(Stalled::Interrupted) => {}
                Err(Stalled::Failed) => return false,
            }
        }
        false
    }

    /// What is left to do. A connection that ends hangs up once all is sent, and what still comes is dropped.
    pub fn left(&mut self, now: u64) -> Left {
        let Some(talk) = &self.talk else {
            return Left::Nothing;
        };
        let unsent = !talk.session.text().is_empty();
        match self.phase {
            Phase::Open if self.is_open() && (self.more || self.readable) => Left::More,
            Phase::Ending if !unsent && !talk.session.closes() => Left::Over,
            Phase::Ending if !unsent => {
                talk.hang_up();
                self.phase = Phase::Leaving(now);
                Left::More
            }
            _ => Left::Nothing,
        }
    }

    /// Drops what still comes, by one read.
    pub fn drop_some(&mut self, space: &mut [u8]) -> Left {
        let Some(talk) = &mut self.talk else {
            return Left::Nothing;
        };
        match talk.drop_some(space) {
            Ok(0) => Left::Over,
            Ok(count) if count < space.len() && !self.hung_up => Left::Nothing,
            Ok(_) => Left::More,
            Err(Stalled::Blocked) => Left::Nothing,
            Err(Stalled::Interrupted) => Left::More,
            Err(Stalled::Failed) => Left::Over,
        }
    }

    /// Whether its time is up.
    pub fn is_late(&self, now: u64) -> bool {
        let is_slow = match self.began {
            Some(began) => now.saturating_sub(began) >= REQUEST_SECONDS,
            None => false,
        };
        let has_left = match self.phase {
            Phase::Leaving(since) => now.saturating_sub(since) >= LEAVING_SECONDS,
            _ => false,
        };
        is_slow || has_left || now.saturating_sub(self.heard) >= IDLE_SECONDS
    }

    /// Lets go of memory where it is idle.
    pub fn rest(&mut self, alloc: Global, now: u64) {
        if self.warm && now.saturating_sub(self.heard) >= REST_SECONDS {
            self.warm = false;
            if let Some(talk) = &mut self.talk {
                talk.rest(alloc);
            }
        }
    }

    /// How many bytes of a request it holds.
    pub fn holds(&self) -> usize {
        match &self.talk {
            Some(talk) => talk.session.held(),
            None => self.held,
        }
    }

    /// How many bytes a second its request comes, in thousandths: `None` where no request has begun to come, and while
    /// it is visited, when it must not end.
    pub fn pace(&self, now: u64) -> Option<u64> {
        if self.talk.is_none() {
            return None;
        }
        let began = self.began?;
        let seconds = now.saturating_sub(began).saturating_add(1);
        Some((self.held as u64).saturating_mul(1_000) / seconds)
    }
}
