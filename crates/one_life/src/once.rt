//! One opening, one call, and the end.
ghost use Rattle.std.specs.Prelude.{◌≡◌, vec_len, IfSome};
ghost use Rattle.accept.specs.OneStream.{AreLimits};
ghost use Rattle.accept.specs.Calls.{AreNumbers};
ghost use Rattle.one_life.specs.Once.{IsLivedOnce};

use accept::{Call, CallFault, Limits, Reply};
use disk::Disk;
use ingester::{Ingester, Settings};
use std::alloc::Global;
use std::sync::Wait;
use std::thread::Threads;
use wal::Capacity;

/// Opens one shard, makes one call, and closes: what comes out, with what came of the call, is the life of an opening.
///
/// # Errors
///
/// None where the opening is refused; its slots are then dropped.
pub fn live_once<D: Disk + Drop, R, H>(
    rt: &R,
    handle: H,
    alloc: Global,
    slots: Vec<[D; 2]>,
    limits: Limits,
    capacity: Capacity,
    call: Call,
) -> Option<(([D; 2], bool), Result<Reply, CallFault>)>
where
    D: Send + 'static,
    R: Threads + Wait + Sync,
    H: Wait + Copy + Send + 'static,
    requires slots { vec_len slots ≡ 1 }
    requires limits { AreLimits limits }
    requires numbers { AreNumbers call }
    ensures { IfSome result (λ it. IsLivedOnce D.sight D.follows slots.items call it.1 it.0) }
{
    let settings = Settings {
        passes: 1,
        limits,
        capacity,
    };
    let Ok((ingester, mut passes)) = Ingester::open(rt, handle, alloc, slots, settings) else {
        return None;
    };
    let outcome = ingester.call(rt, alloc, &mut passes[0], call);
    let mut closed = ingester.close(rt, passes);
    match closed.take() {
        Some(handed) => Some((handed, outcome)),
        None => None,
    }
}
