//! Slots that write a line where their shard stops answering, and before a long read.

use crate::terminal::{say_line, terminal_in};
use disk::{Cause, DeviceFault, Disk};
use std::fmt;
use std::io::{self, Stderr};

/// A read of more bytes than this has a line before it.
const LONG: usize = 100_000_000;

/// A slot that writes a line where a device call on it fails after it was written to. From then on its shard answers
/// nothing and makes no call on its slots, so there is one such line for each shard. Where a terminal is given, the
/// slot also writes a line there before a read of more than 100,000,000 bytes: a slot is replayed in pieces, and one is
/// that long where a block is.
#[derive(Drop)]
pub struct Watched<D: Disk> {
    inner: D,
    shard: u32,
    errors: Option<Stderr>,
    is_written: bool,
}

impl<D: Disk> Watched<D> {
    ghost use Rattle.std.specs.Prelude.{◌≡◌};

    /// This slot of a shard. Its lines go to `errors`, where that is given.
    pub fn new(inner: D, shard: u32, errors: Option<Stderr>) -> Watched<D>
        ensures { result.inner ≡ inner }
    {
        Watched {
            inner,
            shard,
            errors,
            is_written: false,
        }
    }
}

// Says that a shard stops answering, and why as the system says it, in one write, since several shards may stop at
// once.
fn say_unavailable(errors: Option<Stderr>, shard: u32, cause: Option<io::Error>) {
    let Some(errors) = errors else {
        return;
    };
    match cause {
        Some(cause) => say_line(errors, Unavailable { shard, cause }),
        None => say_line(
            errors,
            Unavailable {
                shard,
                cause: "no byte was taken",
            },
        ),
    }
}

// The line of a shard that stops answering.
#[derive(Drop)]
struct Unavailable<C> {
    shard: u32,
    cause: C,
}

impl<C: fmt::Display> fmt::Display for Unavailable<C> {
    fn fmt<W: fmt::Write>(&self, f: &mut fmt::Formatter<W>) -> fmt::Result {
        let Unavailable { shard, cause } = self;
        write!(
            f,
            "shard {shard:02} is unavailable: a call on its disk failed: {cause}. Its requests are answered 503 \
from now on. Fix the disk, then start the server again as docs/OPERATING.md says under \"After a failed disk\"."
        )
    }
}

impl<D: Disk + Cause> Disk for Watched<D> {
    ghost follows = { λ w. D.follows w.inner };

    ghost sight = { λ w. D.sight w.inner };

    ghost counts_now = { λ w t c follows le image. D.counts_now w.inner t c follows le image };

    ghost only_now = { λ w c follows left. D.only_now w.inner c follows left };

    ghost seen_may_stay = { λ w follows. D.seen_may_stay w.inner follows };

    fn read(&mut self, at: u64, buf: &mut [u8]) -> Result<usize, DeviceFault> {
        if buf.len() > LONG
            && let Some(terminal) = terminal_in(self.errors)
        {
            let (shard, bytes) = (self.shard, buf.len());
            say_line(
                terminal,
                format_args!("shard {shard:02}: reading {bytes} bytes"),
            );
        }
        self.inner.read(at, buf)
    }

    fn write_at(&mut self, at: u64, bytes: &[u8]) -> Result<(), DeviceFault> {
        self.is_written = true;
        let made = self.inner.write_at(at, bytes);
        if made.is_err() {
            say_unavailable(self.errors, self.shard, self.inner.cause());
        }
        made
    }

    fn sync(&mut self) -> Result<(), DeviceFault> {
        let made = self.inner.sync();
        if made.is_err() && self.is_written {
            say_unavailable(self.errors, self.shard, self.inner.cause());
        }
        made
    }

    fn len(&mut self) -> Result<u64, DeviceFault> {
        self.inner.len()
    }
}
