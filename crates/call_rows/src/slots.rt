//! The slots under calls, in memory.

ghost use Rattle.std.specs.Prelude.{◌≡◌, IfOk, OnOk};
ghost use Rattle.call_rows.specs.Slots.{FailsAsPlanned, IsWritten, bytes_in};

use anyhow::Result;
use disk::Disk;
use memory_disk::MemDisk;
use std::alloc::Global;

/// What a device does at a call that is to fail.
#[derive(Clone, Copy)]
pub enum FailureMode {
    /// It fails that call, and no other.
    Fails,
    /// It fails that call and all later ones.
    Stops,
}

/// Slot 0 and slot 1 of a shard in memory, on which these bytes are synced. Without bytes nothing was ever written.
///
/// # Errors
/// Want of memory, or more bytes than a slot takes.
pub fn slots_of(alloc: Global, first: &[u8], second: &[u8]) -> Result<[MemDisk; 2]> {
    Ok([slot_of(alloc, first)?, slot_of(alloc, second)?])
}

/// Other slots. What a read of these slots gives is synced on them.
///
/// # Errors
/// A read that fails, or want of memory.
pub fn copy_of(alloc: Global, slots: &mut [MemDisk; 2]) -> Result<[MemDisk; 2]> {
    let first = copy_of_slot(alloc, &mut slots[0])?;
    Ok([first, copy_of_slot(alloc, &mut slots[1])?])
}

fn copy_of_slot(alloc: Global, slot: &mut MemDisk) -> Result<MemDisk>
    ensures { IfOk result (λ copy. bytes_in copy ≡ bytes_in slot.old) }
{
    let bytes = bytes_of(alloc, slot)?;
    slot_of(alloc, &bytes)
}

/// How many writes and syncs were ever made on slot 0 and on slot 1.
pub fn calls_on(slots: &[MemDisk; 2]) -> (u64, u64) {
    (slots[0].calls(), slots[1].calls())
}

/// A slot on which these bytes are synced.
pub(crate) fn slot_of(alloc: Global, bytes: &[u8]) -> Result<MemDisk>
    ensures { IfOk result (λ slot. bytes_in slot ≡ bytes.now) }
{
    let mut slot = MemDisk::new(alloc, 8_192, 64, 16_384)?;
    if !bytes.is_empty() {
        write_through(&mut slot, 0, bytes)?;
    }
    Ok(slot)
}

/// Writes bytes to a slot, and syncs them.
pub(crate) fn write_through(slot: &mut MemDisk, at: u64, bytes: &[u8]) -> Result<()>
    ensures { OnOk result (IsWritten at bytes.now slot.old slot.new) }
{
    slot.write_at(at, bytes)?;
    slot.sync()?;
    Ok(())
}

/// Makes a slot fail at its call with this number, where the next is 1. With 0 it works.
pub fn fail_as_planned(slot: &mut MemDisk, mode: FailureMode, call: u64)
    ensures { FailsAsPlanned mode call slot.new }
{
    match mode {
        FailureMode::Stops if call > 0 => slot.stop_at(call),
        FailureMode::Fails | FailureMode::Stops => slot.fail_at(call),
    }
}

/// What a read of a slot gives.
pub(crate) fn bytes_of(alloc: Global, slot: &mut MemDisk) -> Result<Vec<u8>>
    ensures { IfOk result (λ bytes. bytes.items ≡ bytes_in slot.old) }
{
    let size = slot.len()? as usize;
    let mut bytes = vec![in alloc; 0; size]?;
    let len = slot.read(0, &mut bytes)?;
    bytes.truncate(len);
    Ok(bytes)
}
