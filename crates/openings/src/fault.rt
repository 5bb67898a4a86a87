//! Why the logs of shards are not opened.
ghost use Rattle.std.specs.Prelude.{◌≡◌};
ghost use Rattle.openings.specs.declared.fault.LogsFault.TheVariants as faults;

use std::alloc::AllocError;

/// Why the logs of shards are not opened. Nothing was written.
#[derive(Clone, Copy, Drop)]
pub enum LogsFault {
    /// The log of this shard was refused, the first by number that was.
    Refused {
        /// Which shard, counted from 0.
        shard: u32,
        /// Why.
        fault: wal::OpenFault,
    },
    /// The allocator gave no memory for what is opened. No slot was touched.
    Memory,
}

impl From<AllocError> for LogsFault {
    ghost from_gives = { λ _ fault. fault ≡ faults.Memory };

    fn from(_refused: AllocError) -> LogsFault {
        LogsFault::Memory
    }
}
