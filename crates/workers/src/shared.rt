//! What the workers and the acceptor share.

use mio::Waker;
use std::rt::Clock;
use std::sync::atomic::{AtomicBool, AtomicU64, AtomicUsize, Ordering};
use std::time::Instant;

/// For how many seconds a worker is at one turn before it counts as busy.
const BUSY_SECONDS: u64 = 10;

/// No request is on its way.
const NO_PACE: u64 = u64::MAX;

/// What a worker tells the acceptor and the other workers.
#[derive(Drop)]
pub(crate) struct WorkerLoad {
    /// Ends the worker's wait. It lives until all workers have ended: a wake that has not come yet would go with it.
    waker: Waker,
    /// How many connections it has, with those that are on their way to it.
    open: AtomicUsize,
    /// Whether it takes no more.
    gone: AtomicBool,
    /// The second in which it began the turn that it is at, and one more; 0 while it waits.
    turn: AtomicU64,
    /// The pace of the request that comes slowest to it.
    slowest: AtomicU64,
    /// Whether it is to close that request's connection.
    asked: AtomicBool,
}

impl WorkerLoad {
    /// No connection yet.
    pub(crate) fn new(waker: Waker) -> WorkerLoad {
        WorkerLoad {
            waker,
            open: AtomicUsize::new(0),
            gone: AtomicBool::new(false),
            turn: AtomicU64::new(0),
            slowest: AtomicU64::new(NO_PACE),
            asked: AtomicBool::new(false),
        }
    }

    /// How many connections it has.
    pub(crate) fn open(&self) -> usize {
        self.open.load(Ordering::SeqCst)
    }

    /// One more is on its way.
    pub(crate) fn add(&self) {
        self.open.fetch_add(1, Ordering::SeqCst);
    }

    /// One has ended.
    pub(crate) fn end(&self) {
        self.open.fetch_sub(1, Ordering::SeqCst);
    }

    /// It takes no more.
    pub(crate) fn leave(&self) {
        self.gone.store(true, Ordering::SeqCst);
    }

    /// Whether it takes no more.
    pub(crate) fn is_gone(&self) -> bool {
        self.gone.load(Ordering::SeqCst)
    }

    /// Ends its wait.
    pub(crate) fn wake(&self) {
        let _ = self.waker.wake();
    }

    /// It begins a turn in this second.
    pub(crate) fn begin(&self, now: u64) {
        self.turn.store(now.saturating_add(1), Ordering::SeqCst);
    }

    /// It waits.
    pub(crate) fn rest(&self) {
        self.turn.store(0, Ordering::SeqCst);
    }

    // Whether it has been at one turn for ten seconds.
    fn is_busy(&self, now: u64) -> bool {
        let turn = self.turn.load(Ordering::SeqCst);
        turn != 0 && now.saturating_add(1).saturating_sub(turn) >= BUSY_SECONDS
    }

    /// The request that comes slowest to it has this pace.
    pub(crate) fn say_pace(&self, pace: Option<u64>) {
        self.slowest
            .store(pace.unwrap_or(NO_PACE), Ordering::SeqCst);
    }

    fn slowest(&self) -> u64 {
        self.slowest.load(Ordering::SeqCst)
    }

    // Asks it to close the connection whose request comes slowest.
    fn ask(&self) {
        self.asked.store(true, Ordering::SeqCst);
        self.wake();
    }

    /// Whether it was asked to since it was last looked at.
    pub(crate) fn was_asked(&self) -> bool {
        self.asked.swap(false, Ordering::SeqCst)
    }
}

/// What all workers share.
#[derive(Drop)]
pub(crate) struct Shared {
    pub(crate) loads: Vec<WorkerLoad>,
    /// How many bytes of requests that have not come whole they hold.
    pub(crate) held: AtomicUsize,
    /// How many they may.
    most_held: usize,
    start: Option<Instant>,
}

impl Shared {
    /// Nothing is held yet, and the time begins.
    pub(crate) fn new<R: Clock>(rt: &R, loads: Vec<WorkerLoad>, most_held: usize) -> Shared {
        Shared {
            loads,
            held: AtomicUsize::new(0),
            most_held,
            start: Instant::now(rt).ok(),
        }
    }

    /// The seconds since the start, or the last ones where the clock cannot be read.
    pub(crate) fn seconds<R: Clock>(&self, rt: &R, last: u64) -> u64 {
        match (self.start, Instant::now(rt)) {
            (Some(start), Ok(now)) => now.saturating_duration_since(start).as_secs(),
            _ => last,
        }
    }

    /// Whether more is held than may be.
    pub(crate) fn is_over(&self) -> bool {
        self.held.load(Ordering::SeqCst) > self.most_held
    }

    /// Asks the worker to which a request comes slowest to close its connection, where it comes slower than at this
    /// pace. Whether there is one.
    pub(crate) fn ask_slower(&self, pace: Option<u64>) -> bool {
        let mut least = pace.unwrap_or(NO_PACE);
        let mut slowest = None;
        for load in self.loads.iter() {
            let other = load.slowest();
            if !load.is_gone() && other < least {
                least = other;
                slowest = Some(load);
            }
        }
        match slowest {
            Some(load) => {
                load.ask();
                true
            }
            None => false,
        }
    }

    /// Whether there are workers, and each has been at one turn for ten seconds.
    pub(crate) fn are_all_busy(&self, now: u64) -> bool {
        let mut all = false;
        for load in self.loads.iter() {
            if !load.is_gone() {
                if !load.is_busy(now) {
                    return false;
                }
                all = true;
            }
        }
        all
    }
}
