//! Slots that say when they are first read or written.
ghost use Rattle.std.specs.Prelude.{◌≡◌, map, IfOk, vec_len};
ghost use Rattle.walsplit.specs.Announced.{slots_within};

use disk::{DeviceFault, Disk};
use std::alloc::{AllocError, Global};
use std::io::{Stderr, Write};

/// A slot that writes a line to a terminal before its first read, and another before its first write, where lines are
/// given for that.
#[derive(Drop)]
pub struct Announced<D: Disk> {
    inner: D,
    shard: usize,
    reading: Option<Stderr>,
    writing: Option<Stderr>,
}

/// Whether slots are of old or of new shards.
#[derive(Clone, Copy)]
pub enum Side {
    /// Of old shards. Slot 0 says that they are read: the log reads it before slot 1.
    Old,
    /// Of new shards. Slot 1 says that they are written: slot 0 stays empty.
    New,
}

/// These slots, in their order, which say at a terminal, where one is given, which shard is being worked on: one line
/// for each shard.
pub fn announce<D: Disk + Drop>(
    alloc: Global,
    slots: Vec<[D; 2]>,
    side: Side,
    terminal: Option<Stderr>,
) -> Result<Vec<[Announced<D>; 2]>, AllocError>
    ensures count { IfOk result (λ announced. vec_len announced ≡ vec_len slots) }
    ensures slots { IfOk result (λ announced. slots_within announced.items ≡ slots.items) }
{
    let mut announced = Vec::new(alloc);
    for (shard, pair) in slots.into_iter().enumerate() {
        let pair = pair_of(pair, shard, side, terminal);
        if announced.push(pair).is_err() {
            return Err(AllocError);
        }
    }
    Ok(announced)
}

fn pair_of<D: Disk>(
    pair: [D; 2],
    shard: usize,
    side: Side,
    terminal: Option<Stderr>,
) -> [Announced<D>; 2]
    ensures { map (λ slot. slot.inner) result ≡ pair }
{
    let [first, second] = pair;
    let (reading, writing) = match side {
        Side::Old => (terminal, None),
        Side::New => (None, terminal),
    };
    [
        Announced {
            inner: first,
            shard,
            reading,
            writing: None,
        },
        Announced {
            inner: second,
            shard,
            reading: None,
            writing,
        },
    ]
}

impl<D: Disk> Disk for Announced<D> {
    ghost follows = { λ it. D.follows it.inner };

    ghost sight = { λ it. D.sight it.inner };

    ghost counts_now = { λ it t c follows le image. D.counts_now it.inner t c follows le image };

    ghost only_now = { λ it c follows left. D.only_now it.inner c follows left };

    ghost seen_may_stay = { λ it follows. D.seen_may_stay it.inner follows };

    fn read(&mut self, at: u64, buf: &mut [u8]) -> Result<usize, DeviceFault> {
        if let Some(mut terminal) = self.reading.take() {
            let shard = self.shard;
            let _ = writeln!(terminal, "shard {shard:02}: reading");
        }
        self.inner.read(at, buf)
    }

    fn write_at(&mut self, at: u64, bytes: &[u8]) -> Result<(), DeviceFault> {
        if let Some(mut terminal) = self.writing.take() {
            let shard = self.shard;
            let _ = writeln!(terminal, "new shard {shard:02}: writing");
        }
        self.inner.write_at(at, bytes)
    }

    fn sync(&mut self) -> Result<(), DeviceFault> {
        self.inner.sync()
    }

    fn len(&mut self) -> Result<u64, DeviceFault> {
        self.inner.len()
    }
}
