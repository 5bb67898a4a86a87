//! The system's clock, with a record of its readings. What a reader has to trust stands here: that `read_once` reads
//! the system's clock once, and returns what it gave. That it notes just this is proved, and so is what is told by it.
ghost use Rattle.std.specs.Prelude.{◌≡◌, ℕ, List, [], ◌∷◌, Option, option_map};
ghost use Rattle.std.specs.Borrow.{ftrue};
ghost use Rattle.std.specs.Time.{system_time_nanos};
ghost use Rattle.front.specs.Readings.{reading_of};

use std::marker::{Model, PhantomData};
use std::rt;
use std::time::{SystemTime, UNIX_EPOCH};

/// What the clock gave at each reading so far, the last first: nanoseconds since 1970, or no time. It holds no byte:
/// only clauses read it.
#[derive(Drop)]
pub struct Readings {
    marker: PhantomData<u8>,
    pub ghost given: { List (Option ℕ) },
}

impl Model for Readings {
    ghost also_owns = { λ _. ftrue };
}

// It owns nothing.
unsafe impl Send for Readings {}

impl Readings {
    // None so far.
    fn new() -> Readings
        ensures { result.given ≡ [] }
    {
        Readings {
            marker: PhantomData,
        }
    }

    // Notes a reading: its nanoseconds, or no number.
    fn note(&mut self, _nanos: &[u128])
        ensures { self.new.given ≡ reading_of _nanos.now ∷ self.old.given }
    {}
}

/// A time in nanoseconds since 1970.
pub fn nanos_of(time: SystemTime) -> u128
    ensures { result ≡ system_time_nanos time }
{
    match time.duration_since(UNIX_EPOCH) {
        Ok(since) => since.as_nanos(),
        Err(_) => unreachable!(),
    }
}

/// The system's clock with the record of its readings.
#[derive(Drop)]
pub struct NotedClock<'a, R: rt::Clock> {
    rt: &'a R,
    pub noted: Readings,
}

impl<'a, R: rt::Clock> NotedClock<'a, R> {
    /// A clock that was not read.
    pub fn new(rt: &'a R) -> NotedClock<'a, R>
        ensures { result.noted.given ≡ [] }
    {
        NotedClock {
            rt,
            noted: Readings::new(),
        }
    }

    /// Reads the clock once; `None` where it gives no time.
    pub fn read_once(&mut self) -> Option<SystemTime>
        ensures { self.new.noted.given
            ≡ option_map system_time_nanos result ∷ self.old.noted.given }
    {
        match SystemTime::now(self.rt) {
            Ok(time) => {
                self.noted.note(&[nanos_of(time)]);
                Some(time)
            }
            Err(_) => {
                self.noted.note(&[]);
                None
            }
        }
    }
}
