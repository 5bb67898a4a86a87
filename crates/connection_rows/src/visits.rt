//! What one run of a connection comes to.
ghost use Rattle.std.specs.Prelude.{◌≡◌};

use crate::plan::ConnectionCase;
use crate::sink::Sink;
use accept::END_OF_TIME;
use answering::{Clock, ServeFault, Served};
use anyhow::Result;
use rows::Said;
use std::alloc::Global;

/// A clock that goes on by the same amount each time that it is asked.
#[derive(Drop)]
pub struct Ticking {
    time: u64,
    tick: u64,
}

impl Ticking {
    /// The clock of a connection.
    pub fn of(visit: &ConnectionCase) -> Ticking {
        Ticking {
            time: visit.time,
            tick: visit.tick,
        }
    }
}

impl Clock for Ticking {
    ghost ticks = { λ old time new. new.tick ≡ old.tick };

    fn now(&mut self) -> u64 {
        let now = self.time.min(END_OF_TIME - 1);
        self.time = self.time.saturating_add(self.tick);
        now
    }
}

/// What a run came to.
#[derive(Drop)]
pub struct Came {
    /// What was written.
    pub sink: Sink,
    /// How the connection ended.
    pub end: Result<Served, ServeFault>,
    /// How many steps all shards have, or how many calls a list has made.
    pub count: u64,
    /// How many of them the run has made.
    pub gained: u64,
    /// `steps` or `calls`.
    pub counted: &'static str,
}

impl Came {
    /// Says what was written, how the connection ended, and how many steps or calls there are.
    pub fn say(&self, said: &mut Said) {
        self.sink.say(said);
        self.say_count(said);
        said.put("\n");
    }

    /// How much of the whole text was written, how the connection ended, and how many steps or calls the run has made.
    ///
    /// # Errors
    /// Want of memory.
    pub fn beside(&self, alloc: Global, whole: &Came) -> Result<String> {
        let mut came = Said::new(alloc);
        self.sink.say_beginning_of(whole.sink.text(), &mut came);
        came.put(", ");
        say_end(&self.end, &mut came);
        let (gained, counted) = (self.gained, self.counted);
        came.tell(format_args!(", {gained} {counted} more"));
        Ok(came.end()?)
    }

    /// The last line that was written, how the connection ended, and how many steps or calls there are.
    ///
    /// # Errors
    /// Want of memory.
    pub fn last_line(&self, alloc: Global) -> Result<String> {
        let mut line = Said::new(alloc);
        let text = self.sink.text();
        let last = text.rsplit(|byte| *byte == b'\n').next();
        line.escape(last.unwrap_or(text));
        line.put(", ");
        self.say_count(&mut line);
        Ok(line.end()?)
    }

    fn say_count(&self, into: &mut Said) {
        say_end(&self.end, into);
        let (count, counted) = (self.count, self.counted);
        into.tell(format_args!(", {counted} {count}"));
    }
}

/// Says how a connection ended.
pub(crate) fn say_end(end: &Result<Served, ServeFault>, into: &mut Said) {
    match end {
        Ok(Served::Ended) => into.put("ended"),
        Ok(Served::Closed) => into.put("closed"),
        Err(fault) => into.tell(format_args!("{fault}")),
    }
}
