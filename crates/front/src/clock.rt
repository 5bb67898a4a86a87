//! The programs' clock.
ghost use Rattle.std.specs.Prelude.{◌≡◌, ◌<◌, option_map};
ghost use Rattle.std.specs.Time.{system_time_nanos};
ghost use Rattle.accept.specs.OneStream.{end_of_time};
ghost use Rattle.front.specs.Readings.{time_by};

use crate::reading::{NotedClock, nanos_of};
use accept::END_OF_TIME;
use std::rt;
use std::time::SystemTime;

/// The system's nanoseconds since 1970. Where the system gives no such number below 2^63, its last value, at first 0.
#[derive(Drop)]
pub struct SystemClock<'a, R: rt::Clock> {
    system: NotedClock<'a, R>,
    last: u64,
    ghost small: { last < end_of_time },
}

impl<'a, R: rt::Clock> SystemClock<'a, R> {
    ghost use Rattle.front.specs.Clocks.{IsUnread};

    /// A clock that has given nothing yet.
    pub fn new(rt: &'a R) -> SystemClock<'a, R>
        ensures { IsUnread result }
    {
        SystemClock {
            system: NotedClock::new(rt),
            last: 0,
        }
    }
}

impl<'a, R: rt::Clock> answering::Clock for SystemClock<'a, R> {
    ghost use Rattle.front.specs.Clocks.{IsTick};

    ghost ticks = { IsTick };

    fn now(&mut self) -> u64 {
        let reading = self.system.read_once();
        self.last = time_by(reading, self.last);
        self.last
    }
}

// The time by a reading of the system's clock, where this was told last.
fn time_by(reading: Option<SystemTime>, last: u64) -> u64
    requires { last < end_of_time }
    ensures told { result ≡ time_by (option_map system_time_nanos reading) last }
    ensures range { result < end_of_time }
{
    let Some(time) = reading else {
        return last;
    };
    let nanos = nanos_of(time);
    if nanos < u128::from(END_OF_TIME) {
        nanos as u64
    } else {
        last
    }
}
