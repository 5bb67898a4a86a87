//! Shards that are opened and closed by one pass.
ghost use Rattle.std.specs.Prelude.{◌≡◌, ◌<◌, ◌≤◌, ◌∷◌, [], List, vec_len, IfOk, IfErr};
ghost use Rattle.labels.specs.Shards.{max_shards};
ghost use Rattle.accept.specs.OneStream.{AreLimits};
ghost use Rattle.openings.specs.Findings.{AreOpenedFrom};
ghost use Rattle.ingester.specs.Calls.{IsPassOf};
ghost use Rattle.ingester.specs.declared.refusal.OpenFault.{OpenFault};
ghost use Rattle.ingester.specs.Findings.{IsUnmade};
ghost use Rattle.front.specs.Openings.{IsOpenedUnder};

use accept::Limits;
use disk::Disk;
use front::{ProgramFault, close_shards, open_shards};
use ingester::{Ingester, Pass};
use openings::Unobserved;
use std::alloc::Global;
use std::sync::Wait;
use std::thread::Threads;
use wal::Capacity;

/// Opens shards over these slots under these limits, with one pass.
pub fn open_for_one<D, R>(
    rt: &R,
    alloc: Global,
    slots: Vec<[D; 2]>,
    limits: Limits,
    capacity: Capacity,
) -> Result<(Ingester<D>, Pass), ProgramFault>
where
    D: Disk + Drop + Send + 'static,
    R: Threads + Wait + Copy + Send + Sync + 'static,
    requires slots { (0 < vec_len slots) × (vec_len slots ≤ max_shards) }
    requires limits { AreLimits limits }
    ensures opened { IfOk result
        (λ it. IsOpenedUnder limits (vec_len slots) 1 capacity it.0 (it.1 ∷ [])) }
    ensures found { IfOk result (λ it.
        AreOpenedFrom D.sight D.follows
        (vec_len slots) capacity 0 slots.items it.0.logs it.0.about.bases) }
    ensures refused { IfErr result (λ stop. (fault : OpenFault) × (backs : List (List D))
        × (stop ≡ ProgramFault.Opening fault)
        × IsUnmade D.sight D.follows (vec_len slots) slots.items backs fault) }
    ensures pass { IfOk result (λ it. IsPassOf it.0 it.1) }
{
    let (ingester, mut passes) = open_shards(rt, alloc, slots, 1, limits, capacity, &Unobserved)?;
    let Some(pass) = passes.pop() else {
        unreachable!();
    };
    Ok((ingester, pass))
}

/// Closes shards and their slots by their one pass. Where there is no memory for that, the threads of the shards end by
/// themselves, a little later.
pub fn close_for_one<D: Disk + Drop, R: Wait>(
    rt: &R,
    alloc: Global,
    ingester: Ingester<D>,
    pass: Pass,
)
    requires pass { IsPassOf ingester pass }
{
    let mut passes = Vec::new(alloc);
    if passes.push(pass).is_ok() {
        drop(close_shards(rt, ingester, passes));
    }
}
