ghost use Rattle.std.specs.Prelude.{◌≡◌, ◌≢◌, ◌≤◌, ◌<◌, ◌↔◌, ◌+◌, ◌++◌, ◌⊎◌, [], ◌∷◌, ℕ, length, take, drop, OnOk, OnErr, List, IfOk, IsOk, IsErr, IsErrOf};
ghost use Rattle.std.specs.Vec.{vec_capacity};
ghost use Rattle.disk.specs.Sight.{Holds, Reads, Writes, Looks, IsSynced, Counts};
ghost use Rattle.disk.specs.State.{Write, Sync};
ghost use Rattle.memory_disk.specs.Memory.{acts, bytes_written, replayed, ranges_after};
ghost use Rattle.memory_disk.specs.declared.memory.RecordedCall.TheVariants.{Wrote, Synced};

use crate::ImagesFault;
use crate::images::{all_contents, number_of, unique, unsynced, within_cap};
use crate::plan::FaultPlan;
use disk::{DeviceFault, Disk, failed};
use std::alloc::{AllocError, Global};

/// A call that a disk in memory recorded.
#[derive(Clone, Copy)]
pub(crate) enum RecordedCall {
    Wrote { at: usize, len: usize },
    Synced,
}

/// A disk in memory that always follows the model. It records each write and sync, and can list what a crash may leave.
#[derive(Drop)]
pub struct MemDisk {
    steps: Vec<RecordedCall>,
    written: Vec<u8>,
    bytes: Vec<u8>,
    // How many steps there were up to the last sync, and how long the disk was then.
    synced_steps: usize,
    synced_len: usize,
    calls: u64,
    failures: u64,
    plan: FaultPlan,
    ghost whole: { bytes_written steps.items ≡ length written.items },
    ghost same: { (replayed steps.items written.items).now ≡ bytes.items },
    ghost synced: { length (replayed steps.items written.items).base ≡ synced_len },
    ghost within: { synced_steps ≤ length steps.items },
    ghost since: { (replayed steps.items written.items).ranges
        ≡ ranges_after [] (drop synced_steps steps.items) },
}

// Puts bytes over those from a place on, and past the end.
fn overwrite(all: &mut Vec<u8>, at: usize, bytes: &[u8]) -> Result<(), AllocError>
    requires { at ≤ length all.old.items }
    ensures ok { OnOk result (all.new.items
        ≡ take at all.old.items ++ bytes.now ++ drop (at + length bytes.now) all.old.items) }
    ensures err { OnErr result (all.new.items ≡ all.old.items) }
    ensures capacity { vec_capacity all.old ≤ vec_capacity all.new }
    ensures fits { at + length bytes.now ≤ vec_capacity all.old → IsOk result }
{
    let inside = bytes.len().min(all.len() - at);
    all.extend_from_slice(&bytes[inside..])?;
    all[at..at + inside].copy_from_slice(&bytes[..inside]);
    Ok(())
}

impl MemDisk {
    ghost use Rattle.memory_disk.specs.Images.{IsImageOf, Lists, contents};
    ghost use Rattle.memory_disk.specs.MemDisk.{HasRoom, KeepsRoom, SameOthers, recorded, Records, RecordsNothing, state_of, IsSameDisk, WillFail, sight_at, memory_sight, calls_of};

    /// An empty disk with room for `room` bytes, and for a record of `calls` writes and syncs and of `written` bytes in
    /// all. Within these limits its trait calls take no memory. Beyond them a growth that the allocator refuses is a
    /// counted failure.
    ///
    /// # Errors
    /// `AllocError` where that room was refused.
    pub fn new(alloc: Global, room: u64, calls: u64, written: u64) -> Result<MemDisk, AllocError>
        ensures empty { IfOk result (λ disk. (memory_sight disk).seen ≡ []) }
        ensures records { IfOk result (λ disk. recorded disk ≡ []) }
        ensures synced { IfOk result (λ disk. IsSynced (memory_sight disk)) }
        ensures room { IfOk result (λ disk. HasRoom disk room calls written) }
        ensures calls { IfOk result (λ disk. calls_of disk ≡ 0) }
        ensures works { IfOk result (λ disk. (k : ℕ) → ¬ WillFail disk k) }
    {
        Ok(MemDisk {
            steps: Vec::with_capacity(alloc, calls as usize)?,
            written: Vec::with_capacity(alloc, written as usize)?,
            bytes: Vec::with_capacity(alloc, room as usize)?,
            synced_steps: 0,
            synced_len: 0,
            calls: 0,
            failures: 0,
            plan: FaultPlan::Works,
        })
    }

    /// How many calls of `write_at` and `sync` were made, failed ones included, up to `u64::MAX`.
    pub fn calls(&self) -> u64
        ensures { result ≡ calls_of self.now }
    {
        self.calls
    }

    /// Makes the `n`th trait call from now fail, where the next is 1. With 0 none will fail. An earlier request is
    /// forgotten. A write that fails so is made all the same; a sync that fails so does nothing.
    pub fn fail_at(&mut self, n: u64)
        ensures plan { (k : ℕ) → (WillFail self.new k) ↔ (k ≡ n) }
        ensures same { IsSameDisk self.old self.new }
    {
        self.plan = FaultPlan::FailsIn(n);
    }

    /// Makes the `n`th trait call from now and all later ones fail, where the next is 1. An earlier request is
    /// forgotten. They fail as those of `fail_at` do.
    pub fn stop_at(&mut self, n: u64)
        ensures plan { (k : ℕ) → (WillFail self.new k) ↔ (n ≤ k) }
        ensures same { IsSameDisk self.old self.new }
    {
        self.plan = FaultPlan::StopsIn(n);
    }

    /// Lists each content that a crash may leave now, once, with unsynced bytes drawn from `values`. A byte is unsynced
    /// where it was written since the last sync, or is past the length at that sync. Takes memory for the list, and for
    /// a flag for each byte of the disk.
    ///
    /// # Errors
    /// `TooMany` where there are more than `cap`; `Memory` where memory was refused.
    pub fn images(
        &self,
        alloc: Global,
        values: &[u8],
        cap: usize,
    ) -> Result<Vec<Vec<u8>>, ImagesFault>
        ensures listed { IfOk result (λ found.
            Lists (IsImageOf (state_of self.now) values.now) (contents found.items)) }
        ensures within_cap { IfOk result (λ found. length found.items ≤ cap) }
        ensures too_many { IsErrOf result ImagesFault.TooMany
            → (all : List (List ℕ)) × Lists (IsImageOf (state_of self.now) values.now) all
            × (cap < length all) }
    {
        let values = unique(alloc, values)?;
        let len = self.bytes.len();
        let mask = unsynced(
            alloc,
            len,
            self.synced_len,
            &self.steps[self.synced_steps..],
        )?;
        let number = within_cap(number_of(&mask, self.synced_len, &values), cap)?;
        let found = all_contents(alloc, &self.bytes, &mask, &values, self.synced_len, number)?;
        Ok(found)
    }

    // Makes a write, and records it.
    fn make_write(&mut self, at: usize, bytes: &[u8]) -> Result<(), AllocError>
        requires { at ≤ length self.old.bytes.items }
        ensures records { OnOk result (Records (Write at bytes.now) self.old self.new) }
        ensures refused { OnErr result (RecordsNothing self.old self.new) }
        ensures written { OnOk result (Holds (sight_at self.old 0).seen at bytes.now
            (sight_at self.new 0).seen) }
        ensures writes { (old new : ℕ) → Writes at (length bytes.now)
            (sight_at self.old old) (sight_at self.new new) }
        ensures others { SameOthers self.old self.new }
        ensures room { KeepsRoom 1 (length bytes.now) self.old self.new }
        ensures fits { HasRoom self.old (at + length bytes.now) 1 (length bytes.now) → IsOk result }
    {
        let len = bytes.len();
        self.steps.reserve(1)?;
        self.written.reserve(len)?;
        overwrite(&mut self.bytes, at, bytes)?;
        self.written.extend_from_slice(bytes).unwrap();
        self.steps.push(RecordedCall::Wrote { at, len }).unwrap();
        Ok(())
    }

    // Records a sync.
    fn make_sync(&mut self) -> Result<(), AllocError>
        ensures records { OnOk result (Records Sync self.old self.new) }
        ensures refused { OnErr result (RecordsNothing self.old self.new) }
        ensures synced { OnOk result ((failures : ℕ) → IsSynced (sight_at self.new failures)) }
        ensures looks { (old new : ℕ) → Looks (sight_at self.old old) (sight_at self.new new) }
        ensures others { SameOthers self.old self.new }
        ensures room { KeepsRoom 1 0 self.old self.new }
        ensures fits { HasRoom self.old 0 1 0 → IsOk result }
    {
        self.steps.push(RecordedCall::Synced)?;
        self.synced_steps = self.steps.len();
        self.synced_len = self.bytes.len();
        Ok(())
    }
}

impl Disk for MemDisk {
    ghost use Rattle.memory_disk.specs.MemDisk.{HasRoom, KeepsRoom, GoesOn, IsOneCall, Records, RecordsNothing, RecordsWrite, FailsAsAsked, WillFail, calls_of, memory_sight, memory_counts_now, memory_only_now, memory_seen_may_stay};

    ghost follows = { λ _. Unit {0} };

    ghost sight = { memory_sight };

    ghost counts_now = { λ m t c follows le image. memory_counts_now m t c le image };

    ghost only_now = { λ m c follows left. memory_only_now m c left };

    ghost seen_may_stay = { λ m follows. memory_seen_may_stay m };

    fn read(&mut self, at: u64, buf: &mut [u8]) -> Result<usize, DeviceFault>
        ensures bytes { IfOk result (λ n. Reads (memory_sight self.old).seen at n buf.old buf.new) }
        ensures looks { Looks (memory_sight self.old) (memory_sight self.new) }
        ensures counts { Counts result (memory_sight self.old).failures
            (memory_sight self.new).failures }

        // It fails exactly where that was asked for.
        ensures fails { IsErr result ↔ WillFail self.old 1 }
        ensures records { RecordsNothing self.old self.new }
        ensures goes_on { GoesOn self.old self.new }
        ensures calls { calls_of self.new ≡ calls_of self.old }
        ensures room { KeepsRoom 0 0 self.old self.new }
    {
        if self.plan.next_fails() {
            return Err(failed(&mut self.failures));
        }
        let len = self.bytes.len();
        if at >= len as u64 {
            return Ok(0);
        }
        let at = at as usize;
        let n = buf.len().min(len - at);
        buf[..n].copy_from_slice(&self.bytes[at..at + n]);
        Ok(n)
    }

    fn write_at(&mut self, at: u64, bytes: &[u8]) -> Result<(), DeviceFault>
        ensures written { OnOk result (at ≤ length (memory_sight self.old).seen
            → Holds (memory_sight self.old).seen at bytes.now (memory_sight self.new).seen) }
        ensures writes { at ≤ length (memory_sight self.old).seen
            → Writes at (length bytes.now) (memory_sight self.old) (memory_sight self.new) }
        ensures counts { Counts result (memory_sight self.old).failures
            (memory_sight self.new).failures }
        ensures records { RecordsWrite at bytes.now result self.old self.new }
        ensures fails { FailsAsAsked at (length bytes.now) result self.old }
        ensures one_call { IsOneCall (length bytes.now) self.old self.new }
    {
        self.calls = self.calls.saturating_add(1);
        let fails = self.plan.next_fails();
        if at > self.bytes.len() as u64 || self.make_write(at as usize, bytes).is_err() || fails {
            return Err(failed(&mut self.failures));
        }
        Ok(())
    }

    fn sync(&mut self) -> Result<(), DeviceFault>
        ensures synced { OnOk result (IsSynced (memory_sight self.new)) }
        ensures looks { Looks (memory_sight self.old) (memory_sight self.new) }
        ensures counts { Counts result (memory_sight self.old).failures
            (memory_sight self.new).failures }

        // It is recorded exactly where it does not fail.
        ensures records { OnOk result (Records Sync self.old self.new) }
        ensures refused { OnErr result (RecordsNothing self.old self.new) }

        // It fails where that was asked for, otherwise only for want of memory.
        ensures asked { WillFail self.old 1 → IsErr result }
        ensures works { ¬ WillFail self.old 1 → HasRoom self.old 0 1 0 → IsOk result }
        ensures one_call { IsOneCall 0 self.old self.new }
    {
        self.calls = self.calls.saturating_add(1);
        if self.plan.next_fails() || self.make_sync().is_err() {
            return Err(failed(&mut self.failures));
        }
        Ok(())
    }

    fn len(&mut self) -> Result<u64, DeviceFault>
        ensures length { IfOk result (λ n. n ≡ length (memory_sight self.old).seen) }
        ensures looks { Looks (memory_sight self.old) (memory_sight self.new) }
        ensures counts { Counts result (memory_sight self.old).failures
            (memory_sight self.new).failures }

        // It fails exactly where that was asked for.
        ensures fails { IsErr result ↔ WillFail self.old 1 }
        ensures records { RecordsNothing self.old self.new }
        ensures goes_on { GoesOn self.old self.new }
        ensures calls { calls_of self.new ≡ calls_of self.old }
        ensures room { KeepsRoom 0 0 self.old self.new }
    {
        if self.plan.next_fails() {
            return Err(failed(&mut self.failures));
        }
        Ok(self.bytes.len() as u64)
    }
}
