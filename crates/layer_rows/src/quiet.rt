//! Calls on a stream and on a log, each kind between two lines, for whoever counts their requests for memory.

use crate::bytes::bytes_of;
use crate::slots::{SlotPair, open};
use crate::stream_rows::stream_of;
use accept::{Limits, StreamState};
use anyhow::{Result, bail};
use memory_disk::MemDisk;
use rows::Said;
use std::alloc::Global;
use wal::Wal;

/// A push of ten entries.
const PUSH: &str = "20 10:x 11:x 12:x 13:x 14:x 15:x 16:x 17:x 18:x 19:x";

/// The bounds of the trims that follow it. Each removes some of them.
const BOUNDS: [u64; 3] = [13, 16, 19];

/// The shard, the number of shards and the capacity of the log.
const PLACE: &str = "0 1 400";

/// How many blocks are appended.
const APPENDS: u32 = 5;

/// Makes calls that request no memory, each kind between two lines: trims of a stream, rolls of a log, and appends.
///
/// # Errors
/// A failing output, or want of memory.
pub fn make_quiet_calls<R: Print + AllocGlobal>(rt: &R) -> Result<()> {
    trim(rt)?;
    write(rt)
}

fn trim<R: Print + AllocGlobal>(rt: &R) -> Result<()> {
    let mut stream = stream_of(rt.alloc(), PUSH)?;
    rt.println("trim begins")?;
    let removed = trim_all(&mut stream);
    rt.println("trim ends")?;
    if !removed {
        bail!("a trim removed nothing");
    }
    Ok(())
}

/// Trims the stream up to each bound: whether each trim removed something.
fn trim_all(stream: &mut StreamState) -> bool {
    let limits = Limits {
        half_age: 0,
        ..Limits::PROFILE
    };
    let mut removed = true;
    for bound in BOUNDS {
        removed &= matches!(stream.trim(bound, &limits), Ok(1..));
    }
    removed
}

/// Rolls a log in empty slots twice, and appends to it.
fn write<R: Print + AllocGlobal>(rt: &R) -> Result<()> {
    let alloc = rt.alloc();
    let first = bytes_of(alloc, "segment from:1")?;
    let second = bytes_of(alloc, "segment at:5=02 from:1")?;
    let frame = bytes_of(alloc, "frame")?;
    let mut log = empty_log(alloc)?;
    rt.println("roll begins")?;
    let rolled = roll_both(&mut log, &first, &second);
    rt.println("roll ends")?;
    rolled?;
    rt.println("append begins")?;
    let appended = append_all(&mut log, &frame);
    rt.println("append ends")?;
    appended
}

/// A log over slots on which nothing was ever written.
fn empty_log(alloc: Global) -> Result<Wal<MemDisk>> {
    let slots = SlotPair::empty(alloc)?;
    match open(alloc, slots, PLACE, &mut Said::new(alloc))? {
        Ok(log) => Ok(log),
        Err(_slots) => bail!("the log is not opened"),
    }
}

/// Begins the segments of two generations.
fn roll_both(log: &mut Wal<MemDisk>, first: &[u8], second: &[u8]) -> Result<()> {
    for segment in [first, second] {
        if segment.len() as u64 >= log.capacity() {
            bail!("above the capacity");
        }
        log.roll(segment)?;
    }
    Ok(())
}

/// Appends the block several times.
fn append_all(log: &mut Wal<MemDisk>, frame: &[u8]) -> Result<()> {
    for _ in 0..APPENDS {
        if !log.fits(frame.len() as u64) {
            bail!("the segment is full");
        }
        log.append(frame)?;
    }
    Ok(())
}
