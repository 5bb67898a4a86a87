//! What the server says when connections have to wait.

use programs::say_line;
use std::fmt::Display;
use std::io::{Error, Stderr};
use std::rt::Clock;
use std::sync::atomic::{AtomicU64, Ordering};
use std::time::Instant;
use workers::Watch;

/// For this many seconds after a line of a kind no other one of it is written.
const QUIET: u64 = 60;

/// Says on standard error, where that is given, that no more connections are accepted, that the system refuses one, or
/// that all workers wait for shards: of each once a minute at most.
#[derive(Drop)]
pub struct BusyLines<'a, R: Clock> {
    rt: &'a R,
    errors: Option<Stderr>,
    open: usize,
    start: Option<Instant>,
    no_room: SaidAt,
    all_busy: SaidAt,
    not_accepted: SaidAt,
}

// The second after the start in which the last line of a kind was written, and one more; 0 where none was.
#[derive(Drop)]
struct SaidAt {
    second: AtomicU64,
}

impl SaidAt {
    fn new() -> SaidAt {
        SaidAt {
            second: AtomicU64::new(0),
        }
    }

    // Whether a line is due in this second. Then it counts as written.
    fn is_due(&self, now: u64) -> bool {
        let said = self.second.load(Ordering::SeqCst);
        if said != 0 && now.saturating_sub(said) < QUIET {
            return false;
        }
        self.second.store(now.saturating_add(1), Ordering::SeqCst);
        true
    }
}

impl<'a, R: Clock> BusyLines<'a, R> {
    /// Nothing was said yet. `open` is how many connections may be open.
    pub fn new(rt: &'a R, errors: Option<Stderr>, open: usize) -> BusyLines<'a, R> {
        BusyLines {
            rt,
            errors,
            open,
            start: Instant::now(rt).ok(),
            no_room: SaidAt::new(),
            all_busy: SaidAt::new(),
            not_accepted: SaidAt::new(),
        }
    }

    /// How many connections may be open.
    pub(crate) fn open(&self) -> usize {
        self.open
    }

    // Writes a line, where one of its kind is due.
    fn say<L: Display + Drop>(&self, kind: &SaidAt, line: L) {
        let (Some(errors), Some(start), Ok(now)) = (self.errors, self.start, Instant::now(self.rt))
        else {
            return;
        };
        if kind.is_due(now.saturating_duration_since(start).as_secs()) {
            say_line(errors, line);
        }
    }
}

impl<'a, R: Clock> Watch for BusyLines<'a, R> {
    fn no_room(&self) {
        self.say(
            &self.no_room,
            format_args!(
                "{} connections are open: others wait until one ends. docs/OPERATING.md says under \
\"Connections\" what bounds them.",
                self.open
            ),
        );
    }

    fn all_busy(&self) {
        self.say(
            &self.all_busy,
            format_args!(
                "all workers have waited for shards for 10 seconds: the disk is slow, or hangs. docs/OPERATING.md says \
under \"Connections\" what to look at."
            ),
        );
    }

    fn not_accepted(&self, cause: &Error) {
        self.say(
            &self.not_accepted,
            format_args!(
                "cannot accept a connection: {cause}. Others wait until it can. docs/OPERATING.md says under \
\"Connections\" what bounds them."
            ),
        );
    }
}
