//! Shards that programs open and close.
ghost use Rattle.std.specs.Prelude.{◌≡◌, ◌<◌, ◌≤◌, ℕ, List, Some, slice_get, vec_len, IfOk, IfErr};
ghost use Rattle.labels.specs.Shards.{max_shards};
ghost use Rattle.accept.specs.OneStream.{AreLimits};
ghost use Rattle.history.specs.Handles.{Passed};
ghost use Rattle.ingester.specs.Calls.{IsPassOf};
ghost use Rattle.ingester.specs.declared.refusal.OpenFault.{OpenFault};
ghost use Rattle.openings.specs.Findings.{AreOpenedFrom};
ghost use Rattle.history.specs.Histories.{max_passes};
ghost use Rattle.ingester.specs.Findings.{IsUnmade};
ghost use Rattle.front.specs.Openings.{IsOpenedUnder, IsLeftByClosing};

use crate::program_fault::ProgramFault;
use accept::Limits;
use disk::Disk;
use ingester::{Closed, Ingester, Pass, Settings};
use openings::Observer;
use std::alloc::Global;
use std::sync::Wait;
use std::thread::Threads;
use wal::Capacity;

/// Opens shards over these slots under these limits, with 1 to 64 passes, and starts a thread for each shard that owns
/// it. `capacity` is how many bytes a segment may have. `observer` is told of each shard as soon as it is replayed.
pub fn open_shards<D, R, O>(
    rt: &R,
    alloc: Global,
    slots: Vec<[D; 2]>,
    passes: u32,
    limits: Limits,
    capacity: Capacity,
    observer: &O,
) -> Result<(Ingester<D>, Vec<Pass>), ProgramFault>
where
    D: Disk + Drop + Send + 'static,
    R: Threads + Wait + Copy + Send + Sync + 'static,
    O: Observer + Sync,
    requires slots { (0 < vec_len slots) × (vec_len slots ≤ max_shards) }
    requires passes { (0 < passes) × (passes ≤ max_passes) }
    requires limits { AreLimits limits }
    ensures opened { IfOk result
        (λ it. IsOpenedUnder limits (vec_len slots) passes capacity it.0 it.1.items) }
    ensures found { IfOk result (λ it.
        AreOpenedFrom D.sight D.follows
        (vec_len slots) capacity 0 slots.items it.0.logs it.0.about.bases) }
    ensures refused { IfErr result (λ stop. (fault : OpenFault) × (backs : List (List D))
        × (stop ≡ ProgramFault.Opening fault)
        × IsUnmade D.sight D.follows (vec_len slots) slots.items backs fault) }
    ensures passes { IfOk result (λ it. (p : ℕ) (pass : Passed) → slice_get it.1.items p ≡ Some pass
        → IsPassOf it.0 pass) }
{
    let settings = Settings {
        passes,
        limits,
        capacity,
    };
    match Ingester::open_observed(rt, *rt, alloc, slots, settings, observer) {
        Ok(opened) => Ok(opened),
        Err(refusal) => Err(ProgramFault::Opening(refusal.0)),
    }
}

/// What closing left of shards. Nobody takes a slot out: each stays as its log left it, until it is closed with this.
#[derive(Drop)]
pub struct ClosedShards<D: Disk + Drop> {
    left: Option<Closed<D>>,
}

/// Closes shards by the passes that are left: their slots are those that their logs left. Where no pass is left, the
/// threads of the shards end by themselves, a little later.
pub fn close_shards<D: Disk + Drop, R: Wait>(
    rt: &R,
    ingester: Ingester<D>,
    passes: Vec<Pass>,
) -> ClosedShards<D>
    requires passes { (p : ℕ) (pass : Passed) → slice_get passes.items p ≡ Some pass
        → IsPassOf ingester pass }
    ensures { IsLeftByClosing ingester passes.items result.left }
{
    if passes.is_empty() {
        return ClosedShards { left: None };
    }
    ClosedShards {
        left: Some(ingester.close(rt, passes)),
    }
}
