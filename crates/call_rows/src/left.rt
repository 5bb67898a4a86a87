//! The state of a shard, as rows say it.

use crate::slots::{calls_on, copy_of};
use anyhow::{Result, bail};
use disk::Disk;
use memory_disk::MemDisk;
use rows::Said;
use std::alloc::Global;
use wal::{Capacity, OpenFault, Wal};

/// The capacity of a segment, in bytes, where slots are opened only to be looked at.
const CAPACITY: u64 = 16_384;

/// What became of a shard that was opened.
#[derive(Clone, Copy)]
pub struct FinalState {
    /// How long its history is.
    pub steps: u64,
    /// Whether its history has a failure mark.
    pub is_marked: bool,
}

/// The state of a shard, by its number and that of all shards: how many steps it has, the segment in use, how many
/// writes and syncs were made on both slots since the counts `before`, how long the slots are, and whether its history
/// has a failure mark.
pub(crate) fn state_of(
    alloc: Global,
    slots: &mut [MemDisk; 2],
    place: (u32, u32),
    ended: Option<FinalState>,
    before: (u64, u64),
) -> Result<String> {
    let mut state = Said::new(alloc);
    let mut mark = "";
    match ended {
        Some(FinalState { steps, is_marked }) => {
            state.tell(format_args!("steps {steps}"));
            mark = if is_marked { " marked" } else { "" };
        }
        None => state.put("unopened"),
    }
    say_segment(alloc, slots, place, &mut state)?;
    say_slots(slots, before, &mut state)?;
    state.put(mark);
    Ok(state.end()?)
}

fn say_slots(slots: &mut [MemDisk; 2], before: (u64, u64), into: &mut Said) -> Result<()> {
    let after = calls_on(slots);
    let first = after.0.saturating_sub(before.0);
    let second = after.1.saturating_sub(before.1);
    into.tell(format_args!(" calls {first} {second}"));
    let (first, second) = (slots[0].len()?, slots[1].len()?);
    into.tell(format_args!(" slots {first} {second}"));
    Ok(())
}

/// Appends ` segment GENERATION LENGTH` of the segment in use, and its version where that is 1; or ` no segment`; or
/// why no segment can be used.
fn say_segment(
    alloc: Global,
    slots: &mut [MemDisk; 2],
    place: (u32, u32),
    into: &mut Said,
) -> Result<()> {
    match segment_in(alloc, slots, place)? {
        Ok((0, _)) => into.put(" no segment"),
        Ok((generation, length)) => {
            into.tell(format_args!(" segment {generation} {length}"));
            let mut front = [0; 5];
            let slot = if generation % 2 == 0 { 0 } else { 1 };
            slots[slot].read(0, &mut front)?;
            let is_old = front[4] == b'1';
            into.put(if is_old { " of version 1" } else { "" });
        }
        Err(fault) => into.tell(format_args!(" {fault}")),
    }
    Ok(())
}

/// The generation of the segment in use, 0 where there is none, and its length.
fn segment_in(
    alloc: Global,
    slots: &mut [MemDisk; 2],
    place: (u32, u32),
) -> Result<Result<(u64, u64), OpenFault>> {
    let (shard, count) = place;
    if count == 0 || count > 64 {
        bail!("there are 1 to 64 shards");
    }
    let Some(capacity) = Capacity::new(CAPACITY) else {
        unreachable!()
    };
    match Wal::open(alloc, copy_of(alloc, slots)?, shard, count, capacity) {
        Ok((log, _image)) => Ok(Ok((log.generation(), log.end().saturating_add(1)))),
        Err(refusal) => Ok(Err(refusal.0)),
    }
}
