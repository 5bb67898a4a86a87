//! One call of a pass, by a turn of its shard.
ghost use Rattle.std.specs.Prelude.{◌≡◌, ◌≤◌, ◌+◌, [], IfSome, vec_len, vec_capacity};
ghost use Rattle.std.specs.VecDeque.{deque_len, deque_capacity};
ghost use Rattle.accept.specs.Calls.{AreNumbers};
ghost use Rattle.ingester.specs.Calls.{shard_for};
ghost use Rattle.one_life.specs.Cut.{IsMadeBy};

use accept::{Call, Reply};
use disk::Disk;
use history::{History, Pass};
use shard::{Job, Settled, Shard};
use std::alloc::Global;
use std::collections::VecDeque;

/// The lists of a turn, with room for one job.
#[derive(Drop)]
pub struct Tray {
    /// The jobs.
    pub jobs: VecDeque<Job>,
    /// What became of them.
    pub settled: Vec<Settled>,
}

/// Empty lists, with room for one job. `None` where there was no memory.
pub fn empty_tray(alloc: Global) -> Option<Tray>
    ensures jobs { IfSome result (λ tray. (tray.jobs.items ≡ [])
        × (deque_len tray.jobs + 1 ≤ deque_capacity tray.jobs)) }
    ensures settled { IfSome result (λ tray. (tray.settled.items ≡ [])
        × (vec_len tray.settled + 1 ≤ vec_capacity tray.settled)) }
{
    let Ok(jobs) = VecDeque::with_capacity(alloc, 1) else {
        return None;
    };
    match Vec::with_capacity(alloc, 1) {
        Ok(settled) => Some(Tray { jobs, settled }),
        Err(_) => None,
    }
}

/// Makes a call of a pass by a turn of its shard, and takes the answer in. Without a reply nothing is known.
pub fn call_once<D: Disk>(
    alloc: Global,
    history: &History,
    shard: &mut Shard<D>,
    pass: &mut Pass,
    call: Call,
    tray: &mut Tray,
) -> Option<Reply>
    requires tables { (pass.old.table ≡ history.now) × (shard.old.book.table ≡ history.now) }
    requires pass { (pass.old.caller.about ≡ shard.old.book.about)
        × (pass.old.caller.pending ≡ []) }
    requires here { shard_for pass.old.caller call ≡ shard.old.book.shard }
    requires numbers { AreNumbers call }
    requires jobs { (tray.old.jobs.items ≡ []) × (deque_len tray.old.jobs + 1 ≤ deque_capacity tray.old.jobs) }
    requires settled { (tray.old.settled.items ≡ [])
        × (vec_len tray.old.settled + 1 ≤ vec_capacity tray.old.settled) }
    ensures { IfSome result (λ reply.
        IsMadeBy D.sight D.follows shard.old shard.new pass.old call reply pass.new) }
{
    let Ok(ticket) = history.announce(pass, &call) else {
        return None;
    };
    tray.jobs.push_back_reserved(Job { ticket, call });
    shard.apply_group(alloc, &mut tray.jobs, &mut tray.settled);
    let Some(Settled::Answered(reply, receipt)) = tray.settled.pop() else {
        return None;
    };
    history.collect(pass, receipt);
    Some(reply)
}
