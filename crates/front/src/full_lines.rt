//! What the server says of shards that have no room.

use crate::full::FullShards;
use programs::say_line;
use std::io::Stderr;
use std::rt::Clock;
use std::sync::{Mutex, Wait};
use std::time::Instant;

/// For this many seconds after a line of a shard no other line of it is written.
const QUIET: u64 = 60;

/// The most shards.
const SHARDS: usize = 64;

/// Says on standard error, where that is given, that a shard has no room: of each shard once a minute at most.
#[derive(Drop)]
pub struct FullShardLines<'a, R: Clock> {
    rt: &'a R,
    errors: Option<Stderr>,
    said: Mutex<[Option<Instant>; SHARDS]>,
}

impl<'a, R: Clock> FullShardLines<'a, R> {
    /// Nothing was said yet.
    pub fn new(rt: &'a R, errors: Option<Stderr>) -> FullShardLines<'a, R> {
        FullShardLines {
            rt,
            errors,
            said: Mutex::new([None; SHARDS]),
        }
    }

    // Whether a line of this shard is due. Then it counts as written.
    fn is_due<W: Wait>(&self, waits: &W, shard: u32) -> bool {
        let Ok(now) = Instant::now(self.rt) else {
            return true;
        };
        let mut said = self.said.lock(waits);
        let times = &mut *said;
        if shard as usize >= SHARDS {
            return false;
        }
        if let Some(last) = times[shard as usize]
            && now.saturating_duration_since(last).as_secs() < QUIET
        {
            return false;
        }
        times[shard as usize] = Some(now);
        true
    }
}

impl<'a, R: Clock> FullShards for FullShardLines<'a, R> {
    fn found_no_room<W: Wait>(&self, rt: &W, shard: u32) {
        if let Some(errors) = self.errors
            && self.is_due(rt, shard)
        {
            say_line(
                errors,
                format_args!(
                    "shard {shard:02} has no room: pushes to it are answered 507. Take lines out of it, as \
docs/OPERATING.md says under \"A full shard\"."
                ),
            );
        }
    }
}
