//! What the server says at its start to people at a terminal.

use disk::Disk;
use ingester::Ingester;
use openings::Observer;
use programs::say_line;
use std::io::Stderr;
use std::rt::Clock;
use std::time::{Duration, Instant};

/// Says of each shard at the moment it has been replayed how many streams it has, and from how many bytes: those of the
/// segment in use, without the bytes after it in its slot. Without a terminal it says nothing.
#[derive(Clone, Copy)]
pub struct Replaying {
    terminal: Option<Stderr>,
}

impl Replaying {
    /// Says it at this terminal, where there is one.
    pub fn new(terminal: Option<Stderr>) -> Replaying {
        Replaying { terminal }
    }
}

impl Observer for Replaying {
    fn opened(&self, shard: u32, streams: usize, bytes: u64) {
        if let Some(terminal) = self.terminal {
            say_line(
                terminal,
                format_args!("shard {shard:02}: {streams} streams, {bytes} bytes"),
            );
        }
    }
}

/// Says how many shards were replayed, how long the start took, 0 where the system has no clock that never goes back,
/// and what all shards have together.
pub fn say_replayed<D: Disk + Drop, R: Clock>(
    rt: &R,
    ingester: &Ingester<D>,
    start: Option<Instant>,
    terminal: Stderr,
) {
    let took = match start {
        Some(start) => start.elapsed(rt).unwrap_or(Duration::ZERO),
        None => Duration::ZERO,
    };
    let shards = ingester.shards();
    let (mut streams, mut bytes) = (0usize, 0u64);
    for shard in 0..shards {
        streams = streams.saturating_add(ingester.stream_count(shard));
        bytes = bytes.saturating_add(ingester.segment_size(shard));
    }
    let (seconds, millis) = (took.as_secs(), took.subsec_millis());
    say_line(
        terminal,
        format_args!(
            "{shards} shards replayed in {seconds}.{millis:03} s: {streams} streams, {bytes} bytes"
        ),
    );
}
