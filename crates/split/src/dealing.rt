//! Streams dealt to the shards of their keys.
ghost use Rattle.std.specs.Prelude.{◌≡◌, ◌≤◌, ◌<◌, ◌+◌, ◌^◌, ℕ, IsSome, IfOk, OnOk, IfErr, length, replicate, set, vec_len};
ghost use Rattle.std.specs.FinMap as finite;
ghost use Rattle.labels.specs.Shards.{max_shards, shard};
ghost use Rattle.accept.specs.Rooms.{segment_bytes, room};
ghost use Rattle.accept.specs.Histories.{set_stream};
ghost use Rattle.split.specs.Maps.{map_at, IsSplit, dealt, AreFit, HaveRoomWithin, IsFirstAbove};

use crate::fault::SplitFault;
use accept::{Image, StreamState};
use labels::{StreamKey, shard_of};
use segment::state_size;
use std::alloc::{AllocError, Global};
use wal::Capacity;

/// `count` maps without a stream.
fn empty_maps(alloc: Global, count: u32) -> Result<Vec<Image>, AllocError>
    ensures items { IfOk result (λ maps. maps.items ≡ replicate count finite.empty) }
    ensures len { IfOk result (λ maps. vec_len maps ≡ count) }
{
    let mut maps = Vec::with_capacity(alloc, count as usize)?;
    for _ in 0..count {
        maps.push_reserved(Image::new(alloc));
    }
    Ok(maps)
}

/// Moves a stream to the map of its key's shard.
fn put_stream(
    news: &mut Vec<Image>,
    key: StreamKey,
    state: StreamState,
    count: u32,
) -> Result<(), AllocError>
    requires count { (1 ≤ count) × (count ≤ max_shards) }
    requires len { vec_len news.old ≡ count }
    requires some { IsSome state.stream }
    ensures len { vec_len news.new ≡ count }
    ensures put { OnOk result (news.new.items ≡ set news.old.items (shard key count)
        (set_stream (map_at news.old.items (shard key count)) key state.stream)) }
{
    let shard = shard_of(&key, count) as usize;
    news[shard].insert_state(key, state)
}

/// Moves each stream of a map to the map of its key's shard.
fn deal(old: Image, news: &mut Vec<Image>, count: u32) -> Result<(), AllocError>
    requires count { (1 ≤ count) × (count ≤ max_shards) }
    requires len { vec_len news.old ≡ count }
    ensures len { vec_len news.new ≡ count }
    ensures dealt { OnOk result (news.new.items ≡ dealt count news.old.items old) }
{
    for (key, state) in old.into_states() {
        put_stream(news, key, state, count)?;
    }
    Ok(())
}

/// The streams of old shards, moved to the maps of `count` new shards. No entry is copied.
pub(crate) fn deal_all(
    alloc: Global,
    olds: Vec<Image>,
    count: u32,
) -> Result<Vec<Image>, AllocError>
    requires olds { (0 < vec_len olds) × (vec_len olds ≤ max_shards) }
    requires count { (1 ≤ count) × (count ≤ max_shards) }
    requires fit { AreFit (vec_len olds) olds.items }
    requires small { HaveRoomWithin (2 ^ 31 + segment_bytes) (vec_len olds) olds.items }
    ensures len { IfOk result (λ news. vec_len news ≡ count) }
    ensures split { IfOk result
        (λ news. IsSplit (vec_len olds) count (map_at olds.items) (map_at news.items)) }
    ensures fit { IfOk result (λ news. AreFit count news.items) }
    ensures small { IfOk result (λ news. HaveRoomWithin (2 ^ 40) count news.items) }
{
    let mut news = empty_maps(alloc, count)?;
    for old in olds {
        deal(old, &mut news, count)?;
    }
    Ok(news)
}

/// Whether each map has room.
///
/// # Errors
///
/// `NoRoom`: the first map that needs more.
pub(crate) fn test_rooms(news: &[Image], cap: Capacity) -> Result<(), SplitFault>
    requires few { length news.now ≤ max_shards }
    requires small { HaveRoomWithin (2 ^ 40) (length news.now) news.now }
    ensures ok { OnOk result (HaveRoomWithin cap (length news.now) news.now) }
    ensures full { IfErr result (λ fault. (s : ℕ) × (fault ≡ SplitFault.NoRoom s)
        × IsFirstAbove cap s news.now) }
{
    for shard in 0..news.len() {
        if state_size(&news[shard]) > cap.bytes() {
            return Err(SplitFault::NoRoom {
                shard: shard as u32,
            });
        }
    }
    Ok(())
}
