//! Who is told of shards that have no room.

use std::sync::Wait;

/// Is told of each call that found no room in its shard.
pub trait FullShards {
    /// A call found no room in this shard.
    fn found_no_room<R: Wait>(&self, rt: &R, shard: u32);
}

/// Nobody is told.
#[derive(Clone, Copy)]
pub struct Untold;

impl FullShards for Untold {
    fn found_no_room<R: Wait>(&self, _rt: &R, _shard: u32) {}
}
