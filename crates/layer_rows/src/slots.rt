//! The two slots of a log.
use crate::entry_words::write_image;
use crate::numbers::{number_of, place_of};
use anyhow::{Result, bail};
use disk::Disk;
use memory_disk::MemDisk;
use rows::Said;
use std::alloc::Global;
use wal::{Capacity, Wal};

/// The shard, the number of shards and the capacity with which rows open a log, where they say nothing else.
pub const EXAMPLE: &str = "0 1 200";

/// Slot 0 and slot 1 of a log that is not open.
#[derive(Drop)]
pub struct SlotPair {
    pub first: MemDisk,
    pub second: MemDisk,
}

impl SlotPair {
    /// Two disks on which nothing was ever written.
    pub fn empty(alloc: Global) -> Result<SlotPair> {
        SlotPair::synced(alloc, &[], &[])
    }

    /// Two disks on which these bytes are synced.
    pub fn synced(alloc: Global, first: &[u8], second: &[u8]) -> Result<SlotPair> {
        let first = synced(alloc, first)?;
        let second = synced(alloc, second)?;
        Ok(SlotPair { first, second })
    }

    pub fn of(slots: [MemDisk; 2]) -> SlotPair {
        let [first, second] = slots;
        SlotPair { first, second }
    }

    /// The slot of this number.
    pub fn at(&mut self, slot: &str) -> Result<&mut MemDisk> {
        match slot {
            "0" => Ok(&mut self.first),
            "1" => Ok(&mut self.second),
            _ => bail!("no slot"),
        }
    }

    /// Another disk for this slot.
    pub fn put(&mut self, slot: &str, disk: MemDisk) -> Result<()> {
        *self.at(slot)? = disk;
        Ok(())
    }
}

/// A disk on which these bytes are synced, or nothing was ever written.
pub fn synced(alloc: Global, bytes: &[u8]) -> Result<MemDisk> {
    let mut disk = MemDisk::new(alloc, 1000, 100, 4000)?;
    if !bytes.is_empty() {
        disk.write_at(0, bytes)?;
        disk.sync()?;
    }
    Ok(disk)
}

/// Opens the log in two slots, of `SHARD COUNT CAPACITY`. Appends its generation and streams, or why it cannot be
/// opened.
pub fn open(
    alloc: Global,
    slots: SlotPair,
    words: &str,
    said: &mut Said,
) -> Result<Result<Wal<MemDisk>, SlotPair>> {
    let words = if words.is_empty() { EXAMPLE } else { words };
    let Some((owner, capacity)) = words.rsplit_once(' ') else {
        bail!("no capacity")
    };
    let (shard, count) = place_of(owner)?;
    let Some(capacity) = Capacity::new(number_of(capacity)?.min(Capacity::MAX_BYTES)) else {
        bail!("no capacity")
    };
    let SlotPair { first, second } = slots;
    match Wal::open(alloc, [first, second], shard, count, capacity) {
        Ok((log, image)) => {
            said.tell(format_args!("generation {}\n", log.generation()));
            write_image(alloc, &image, said)?;
            Ok(Ok(log))
        }
        Err(refusal) => {
            said.tell(format_args!("{}\n", refusal.0));
            let left = refusal.1;
            Ok(Err(SlotPair::of(left)))
        }
    }
}
