//! How shards are made of opened logs, one by one, and how their slots are given back.
ghost use Rattle.std.specs.Prelude.{◌≡◌, ◌+◌, ◌<◌, ◌≤◌, ◌∷◌, ◌++◌, map, vec_len, IfErr, OnOk, Some};
ghost use Rattle.std.specs.VecDeque.{deque_len, deque_capacity};
ghost use Rattle.wal.specs.Opening.{disks};
ghost use Rattle.shard.specs.Shards.{IsGround};
ghost use Rattle.ingester.specs.Makings.{AreShardsIn, logs_of_shards};

use accept::{Image, Limits};
use disk::Disk;
use history::{Book, Ended};
use shard::Shard;
use std::alloc::Global;
use std::collections::VecDeque;
use wal::Wal;

// Puts the slots of shards in front of others, in their order.
pub(crate) fn return_shards<D: Disk + Drop>(
    slots: &mut VecDeque<[D; 2]>,
    mut shards: Vec<Option<Shard<D>>>,
    ended: &Ended,
)
    requires room { vec_len shards + deque_len slots.old ≤ deque_capacity slots.old }
    requires shards { AreShardsIn ended.now shards.items }
    ensures items { slots.new.items ≡ map disks (logs_of_shards shards.items) ++ slots.old.items }
    ensures capacity { deque_capacity slots.new ≡ deque_capacity slots.old }
    ensures len { deque_len slots.new ≡ vec_len shards + deque_len slots.old }
{
    while let Some(last) = shards.pop() {
        let Some(shard) = last else { unreachable!() };
        slots.push_front_reserved(shard.into_slots(ended));
    }
}

// Makes a shard, and puts it in front of others. Without memory its log comes back.
pub(crate) fn make_one<D: Disk + Drop>(
    alloc: Global,
    log: Wal<D>,
    image: Image,
    book: Book,
    limits: Limits,
    shards: &mut VecDeque<Option<Shard<D>>>,
) -> Result<(), Wal<D>>
    requires ground { IsGround D.sight D.follows limits log image book }
    requires room { deque_len shards.old < deque_capacity shards.old }
    ensures made { OnOk result (shards.new.items
        ≡ Some (record { log = log; book = book; opened = log }) ∷ shards.old.items) }
    ensures err { IfErr result (λ back. (back ≡ log) × (shards.new ≡ shards.old)) }
    ensures capacity { deque_capacity shards.new ≡ deque_capacity shards.old }
    ensures len { OnOk result (deque_len shards.new ≡ deque_len shards.old + 1) }
{
    let shard = Shard::open(alloc, log, image, book, limits)?;
    shards.push_front_reserved(Some(shard));
    Ok(())
}
