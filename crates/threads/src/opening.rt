//! An ingester over slots in memory, some with a gate for their syncs, and what it leaves once it is closed.
ghost use Rattle.std.specs.Prelude.{◌≡◌, ℕ, Some, slice_get, IfOk};
ghost use Rattle.history.specs.Handles.{Passed};
ghost use Rattle.ingester.specs.Calls.{IsPassOf};

use crate::context::GatedSlot;
use accept::Limits;
use disk::Disk;
use ingester::{Ingester, Pass, Settings};
use memory_disk::{Gate, GateDisk, MemDisk};
use std::alloc::Global;
use std::sync::Wait;
use std::test::Fail;
use std::thread::Threads;
use wal::Capacity;

/// How many bytes a segment may have.
const CAPACITY: u64 = 4_096;

/// An empty slot with this gate for its syncs.
fn slot(alloc: Global, gate: &Gate) -> Result<GatedSlot, Fail> {
    let disk = MemDisk::new(alloc, 8_192, 1_000, 65_536)?;
    Ok(GateDisk::new(disk, gate.try_clone()?))
}

/// The empty slots of a shard, with this gate for their syncs.
fn slots_of(alloc: Global, gate: &Gate) -> Result<[GatedSlot; 2], Fail> {
    Ok([slot(alloc, gate)?, slot(alloc, gate)?])
}

/// The empty slots of a shard for each of these. The gate is for the syncs of those that it holds.
fn all_slots(alloc: Global, gate: &Gate, held: &[bool]) -> Result<Vec<[GatedSlot; 2]>, Fail> {
    let free = Gate::new(alloc)?;
    let mut slots = Vec::new(alloc);
    for is_held in held {
        if *is_held {
            slots.push(slots_of(alloc, gate)?)?;
        } else {
            slots.push(slots_of(alloc, &free)?)?;
        }
    }
    Ok(slots)
}

/// An ingester over empty slots, with a shard for each of `held`, and its passes.
pub(crate) fn open<R>(
    rt: &R,
    alloc: Global,
    gate: &Gate,
    held: &[bool],
    passes: u32,
) -> Result<(Ingester<GatedSlot>, Vec<Pass>), Fail>
where
    R: Threads + Wait + Copy + Send + Sync + 'static,
    ensures { IfOk result (λ it. (p : ℕ) (pass : Passed) → slice_get it.1.items p ≡ Some pass
        → IsPassOf it.0 pass) }
{
    let slots = all_slots(alloc, gate, held)?;
    if slots.is_empty() || slots.len() > 64 || passes == 0 || passes > 64 {
        return Err("there are 1 to 64 shards and passes".into());
    }
    let Some(capacity) = Capacity::new(CAPACITY) else {
        unreachable!()
    };
    let settings = Settings {
        passes,
        limits: Limits::PROFILE,
        capacity,
    };
    match Ingester::open(rt, *rt, alloc, slots, settings) {
        Ok(opened) => Ok(opened),
        Err(_) => Err("slots are refused".into()),
    }
}

/// The last of these passes.
pub(crate) fn last_of(ingester: &Ingester<GatedSlot>, passes: &mut Vec<Pass>) -> Result<Pass, Fail>
    requires { (p : ℕ) (pass : Passed) → slice_get passes.old.items p ≡ Some pass
        → IsPassOf ingester.now pass }
    ensures pass { IfOk result (IsPassOf ingester.now) }
    ensures passes { (p : ℕ) (pass : Passed) → slice_get passes.new.items p ≡ Some pass
        → IsPassOf ingester.now pass }
{
    match passes.pop() {
        Some(pass) => Ok(pass),
        None => Err("there is no pass".into()),
    }
}

/// How many bytes a slot has.
fn length_of(slot: GatedSlot) -> Result<u64, Fail> {
    let mut slot = slot;
    Ok(slot.len()?)
}

/// How many bytes each of a shard's slots has.
fn lengths_of(slots: [GatedSlot; 2]) -> Result<[u64; 2], Fail> {
    let [first, second] = slots;
    Ok([length_of(first)?, length_of(second)?])
}

/// The lengths of the slots of the last shard that an ingester leaves.
pub(crate) fn slot_lengths<R: Wait>(
    rt: &R,
    alloc: Global,
    ingester: Ingester<GatedSlot>,
    pass: Pass,
) -> Result<[u64; 2], Fail>
    requires { IsPassOf ingester pass }
{
    let passes = vec![in alloc; pass]?;
    let mut closed = ingester.close(rt, passes);
    let Some(shard) = closed.take() else {
        return Err("there is no shard".into());
    };
    lengths_of(shard.0)
}
