//! One turn of a shard.
ghost use Rattle.std.specs.Prelude.{◌≡◌, ◌<◌, ◌≤◌, ◌+◌, [], ◌∷◌, vec_len, vec_capacity, IfOk};
ghost use Rattle.std.specs.VecDeque.{deque_len};
ghost use Rattle.shard.specs.Shards.{IsGround};
ghost use Rattle.shard.specs.Turns.{AreReady};
ghost use Rattle.owners.specs.Openings.{opening_of};
ghost use Rattle.one_life.specs.Turned.{IsTurnedOnce};

use accept::{Image, Limits};
use disk::Disk;
use history::{Book, Pass};
use shard::{GroupEnd, Job, Settled, Shard};
use std::alloc::Global;
use std::collections::VecDeque;
use wal::Wal;

/// Opens the only shard of an opening over its log, takes one turn at some jobs, and compares the shard with a pass
/// before the turn and after it.
///
/// # Errors
///
/// The log as it was, where there was no memory.
pub fn turn_once<D: Disk>(
    alloc: Global,
    log: Wal<D>,
    image: Image,
    book: Book,
    limits: Limits,
    pass: &mut Pass,
    jobs: &mut VecDeque<Job>,
    settled: &mut Vec<Settled>,
) -> Result<(Shard<D>, GroupEnd), Wal<D>>
    requires ground { IsGround D.sight D.follows limits log image book }
    requires only { book.shard ≡ 0 }
    requires pass { pass.old.table ≡ book.table }
    requires some { 0 < deque_len jobs.old }
    requires ready { AreReady book jobs.old.items }
    requires room { vec_len settled.old + deque_len jobs.old ≤ vec_capacity settled.old }
    ensures { IfOk result (λ it.
        IsTurnedOnce D.sight D.follows (opening_of book (log ∷ [])) (record {
          old = record { log = log; book = book; opened = log };
          new = it.0;
          jobs = jobs.old.items;
          rest = jobs.new.items;
          was = settled.old.items;
          now = settled.new.items;
          ended = it.1;
        }) pass.new) }
{
    let mut shard = match Shard::open(alloc, log, image, book, limits) {
        Ok(shard) => shard,
        Err(log) => return Err(log),
    };
    shard.settle(pass);
    let ended = shard.apply_group(alloc, jobs, settled);
    shard.settle(pass);
    Ok((shard, ended))
}
