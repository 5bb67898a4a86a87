//! The streams that the slots of old shards hold.
ghost use Rattle.std.specs.Prelude.{◌≡◌, ◌<◌, ◌≤◌, ◌+◌, ◌^◌, List, set, IfOk, IfErr, vec_len};
ghost use Rattle.labels.specs.Shards.{max_shards};
ghost use Rattle.accept.specs.Rooms.{segment_bytes};
ghost use Rattle.segment.specs.ShardPlaces.{place_of};
ghost use Rattle.split.specs.Maps.{map_at, AreFit, HaveRoomWithin};
ghost use Rattle.split.specs.Splits.{pair_at, EachPair, IsAtRest, IsOldShardRead, IsOldShardRefused, IsCause};
ghost use Rattle.split.specs.Stages.{IsOldShardOpened};

use crate::fault::SplitFault;
use crate::moving::{put, take};
use accept::Image;
use disk::Disk;
use segment::ShardPlace;
use std::alloc::Global;
use wal::{Capacity, OpenFault, Wal};

/// Opens the log of a shard, and gives its slots back with what they hold.
fn read_pair<D: Disk>(
    alloc: Global,
    given: [D; 2],
    owner: ShardPlace,
    cap: Capacity,
) -> (Result<Image, OpenFault>, [D; 2])
    ensures rests { IsAtRest D.sight D.follows given result.1 }
    ensures read { IfOk result.0
        (λ m. IsOldShardOpened D.sight D.follows owner given result.1 m) }
    ensures refused { IfErr result.0 (λ fault.
        IsOldShardRefused D.sight D.follows owner given result.1 fault) }
{
    match Wal::open_at(alloc, given, owner, cap) {
        Ok((log, image)) => {
            let back = log.into_slots();
            (Ok(image), back)
        }
        Err(refusal) => {
            let back = refusal.1;
            (Err(refusal.0), back)
        }
    }
}

/// Reads the slots of a shard, which stay in their place.
fn read_at<D: Disk>(
    alloc: Global,
    old: &mut Vec<[D; 2]>,
    shard: u32,
    cap: Capacity,
) -> Result<Image, OpenFault>
    requires shard { (shard < vec_len old.old) × (vec_len old.old ≤ max_shards) }
    ensures set { old.new.items ≡ set old.old.items shard (pair_at old.new.items shard) }
    ensures len { vec_len old.new ≡ vec_len old.old }
    ensures rests { IsAtRest D.sight D.follows (pair_at old.old.items shard)
        (pair_at old.new.items shard) }
    ensures read { IfOk result (λ m.
        IsOldShardOpened D.sight D.follows (place_of shard (vec_len old.old))
        (pair_at old.old.items shard)
        (pair_at old.new.items shard) m) }
    ensures refused { IfErr result (λ fault.
        IsOldShardRefused D.sight D.follows (place_of shard (vec_len old.old))
        (pair_at old.old.items shard)
        (pair_at old.new.items shard) fault) }
{
    let owner = ShardPlace::of(shard, old.len() as u32);
    let given = take(old, shard as usize);
    let (read, back) = read_pair(alloc, given, owner, cap);
    put(old, shard as usize, back);
    read
}

/// The streams that each pair of slots holds, shard 0 first. Writes nothing.
///
/// # Errors
///
/// `Old`: the first shard whose slots are refused; `Memory`.
pub(crate) fn read_all<D: Disk>(
    alloc: Global,
    old: &mut Vec<[D; 2]>,
    cap: Capacity,
) -> Result<Vec<Image>, SplitFault>
    requires few { vec_len old.old ≤ max_shards }
    ensures len { vec_len old.new ≡ vec_len old.old }
    ensures rests { EachPair (λ _. IsAtRest D.sight D.follows) old.old.items old.new.items }
    ensures images { IfOk result (λ maps. vec_len maps ≡ vec_len old.old) }
    ensures read { IfOk result (λ maps. EachPair
        (λ s given back. IsOldShardRead D.sight D.follows (place_of s (vec_len old.old)) given back
        (map_at maps.items s))
        old.old.items old.new.items) }
    ensures fit { IfOk result (λ maps. AreFit (vec_len old.old) maps.items) }
    ensures small { IfOk result
        (λ maps. HaveRoomWithin (2 ^ 31 + segment_bytes) (vec_len old.old) maps.items) }
    ensures refused { IfErr result (λ fault. (new : List (List D))
        → IsCause D.sight D.follows fault cap old.old.items old.new.items new new) }
{
    let count = old.len();
    let mut images = Vec::with_capacity(alloc, count)?;
    for shard in 0..count as u32 {
        match read_at(alloc, old, shard, cap) {
            Ok(image) => images.push_reserved(image),
            Err(fault) => return Err(SplitFault::Old { shard, fault }),
        }
    }
    Ok(images)
}
