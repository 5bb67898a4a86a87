//! How shards are handed to their owners, and given back.
ghost use Rattle.std.specs.Prelude.{◌≡◌, ◌+◌, ◌<◌, ℕ, vec_len};
ghost use Rattle.std.specs.VecDeque.{deque_len};
ghost use Rattle.keyed.specs.Queues.{receives_as};
ghost use Rattle.keyed.specs.declared.binding.Binding.TheVariants.{Bound};
ghost use Rattle.owners.specs.Openings.{Opening};
ghost use Rattle.owners.specs.Lists.{AreEach};
ghost use Rattle.owners.specs.Owners.{AreEnds, HasEndsOf};
ghost use Rattle.owners.specs.Places.{IsOf, IsShardAt, AreShardsOf};

use crate::owning::{OwnerEnds, OwnerThread, ShardReceiver};
use crate::team::Team;
use disk::Disk;
use shard::Shard;
use std::alloc::Global;
use std::collections::VecDeque;
use std::sync::Wait;

// The owner of the next shard, which has this number.
fn next_owner<D: Disk + Drop>(
    alloc: Global,
    number: usize,
    shards: &mut VecDeque<Option<Shard<D>>>,
    all_ends: &mut VecDeque<OwnerEnds<D>>,
) -> OwnerThread<D>
    requires opening { (opening : Opening D)
        × AreEach (IsShardAt D.sight D.follows opening) number shards.old.items
        × AreEach (HasEndsOf opening) number all_ends.old.items }
    requires some { 0 < deque_len all_ends.old }
    requires same { deque_len shards.old ≡ deque_len all_ends.old }
    ensures shards { (opening : Opening D)
        → AreEach (IsShardAt D.sight D.follows opening) number shards.old.items
        → AreEach (IsShardAt D.sight D.follows opening) (number + 1) shards.new.items }
    ensures ends { (opening : Opening D)
        → AreEach (HasEndsOf opening) number all_ends.old.items
        → AreEach (HasEndsOf opening) (number + 1) all_ends.new.items }
    ensures len { deque_len all_ends.new + 1 ≡ deque_len all_ends.old }
    ensures same { deque_len shards.new ≡ deque_len all_ends.new }
{
    let Some(ends) = all_ends.pop_front() else {
        unreachable!()
    };
    let Some(place) = shards.pop_front() else {
        unreachable!()
    };
    let Some(state) = place else { unreachable!() };
    OwnerThread {
        alloc,
        number,
        state,
        ends,
    }
}

/// Hands each shard of an opening to a thread of the team, with what it works by.
pub fn hand_all<D: Disk + Drop, R: Wait>(
    rt: &R,
    alloc: Global,
    mut team: Team<D>,
    shards: Vec<Option<Shard<D>>>,
    mut all_ends: VecDeque<OwnerEnds<D>>,
)
    requires opening { (opening : Opening D) × AreShardsOf D.sight D.follows opening shards.items
        × AreEnds opening all_ends.items }
    requires count { deque_len all_ends ≡ vec_len shards }
{
    let mut shards = VecDeque::from_vec(shards);
    for number in 0..all_ends.len() {
        let owner = next_owner(alloc, number, &mut shards, &mut all_ends);
        team.hand_over(rt, owner);
    }
}

/// Waits until the shard comes back by this end.
pub fn take_shard<D: Disk + Drop, R: Wait>(rt: &R, back: &mut ShardReceiver<D>) -> Shard<D>
    ensures shard { (opening : Opening D) (k : ℕ) → receives_as back.old ≡ Bound opening k
        → IsOf D.sight D.follows opening k result }
    ensures same { receives_as back.new ≡ receives_as back.old }
{
    for _ in rt.forever() {
        if let Ok(shard) = back.receive(rt) {
            return shard;
        }
    }
    unreachable!()
}
