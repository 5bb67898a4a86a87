ghost use Rattle.std.specs.Prelude.{◌↔◌, ◌<◌, IsTrue};
ghost use Rattle.accept.specs.OneStream.{end_of_time};

use crate::outcome::OutcomeList;
use entries::EntryList;
use labels::StreamKey;
use std::alloc::{AllocError, Global};

/// The most entries of a push: this project's profile.
pub const MAX_ENTRIES: usize = 10_000;

/// The first time that is too late for an entry and for a clock, in nanoseconds since 1970: this project's profile.
pub const END_OF_TIME: u64 = 1 << 63;

/// A call on the stream of a key. Times are in nanoseconds.
#[derive(Drop)]
pub enum Call {
    /// Judges the entries in order, and stores the accepted ones.
    Push {
        key: StreamKey,
        /// What the clock says: below `END_OF_TIME`.
        now: u64,
        /// At most `MAX_ENTRIES`, with times below `END_OF_TIME` and lines of any length.
        entries: EntryList,
    },
    /// Reads the kept entries with `from <= time < to`.
    Read {
        key: StreamKey,
        from: u64,
        to: u64,
    },
    /// Removes the kept entries with `time < bound`.
    Trim {
        key: StreamKey,
        bound: u64,
    },
}

/// What is answered to a call.
#[derive(Debug, Drop)]
pub enum Reply {
    /// To a push: what became of each entry.
    Verdict(OutcomeList),
    /// To a read: the entries in rising time, those of equal time in the order of storing.
    Entries(EntryList),
    /// To a trim: how many entries were removed.
    Trimmed(u64),
    /// To a trim whose bound is above the oldest time that the stream accepts: nothing was removed.
    TrimTooNew,
    /// To a trim of a key that never had an entry.
    NoStream,
    /// The state after the call would not fit into the log's capacity: nothing changed.
    NoRoom,
    /// The shard's log failed: nothing is answered until it is opened again.
    Unavailable,
}

impl Call {
    ghost use Rattle.std.specs.Prelude.{◌≡◌, ◌↔◌, IsTrue, IfOk};
    ghost use Rattle.accept.specs.Histories.{key_of};
    ghost use Rattle.accept.specs.Calls.{AreNumbers};

    /// The key of the stream that the call is on.
    pub fn key(&self) -> &StreamKey
        ensures { result.now ≡ key_of self.now }
    {
        match self {
            Call::Push { key, .. } | Call::Read { key, .. } | Call::Trim { key, .. } => key,
        }
    }

    /// A copy, for one that keeps the call.
    pub fn copy(&self, alloc: Global) -> Result<Call, AllocError>
        ensures { IfOk result (λ call. call ≡ self.now) }
    {
        Ok(match self {
            Call::Push { key, now, entries } => Call::Push {
                key: key.clone()?,
                now: *now,
                entries: EntryList::copy_of(alloc, entries.as_slice())?,
            },
            Call::Read { key, from, to } => Call::Read {
                key: key.clone()?,
                from: *from,
                to: *to,
            },
            Call::Trim { key, bound } => Call::Trim {
                key: key.clone()?,
                bound: *bound,
            },
        })
    }

    /// Whether the clock and the times of a push are below `END_OF_TIME`, and its entries are at most `MAX_ENTRIES`.
    pub fn has_lawful_numbers(&self) -> bool
        ensures { IsTrue result ↔ AreNumbers self.now }
    {
        match self {
            Call::Push { now, entries, .. } => {
                let entries = entries.as_slice();
                is_time(*now)
                    && entries.iter().all(|entry| is_time(entry.time))
                    && entries.len() <= MAX_ENTRIES
            }
            Call::Read { .. } | Call::Trim { .. } => true,
        }
    }
}

fn is_time(time: u64) -> bool
    ensures { IsTrue result ↔ (time < end_of_time) }
{
    time < END_OF_TIME
}
