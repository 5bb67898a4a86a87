//! Why shards are not split.
ghost use Rattle.std.specs.Prelude.{◌≡◌};
ghost use Rattle.split.specs.declared.fault.SplitFault.TheVariants as faults;

use std::alloc::AllocError;
use thiserror::Error;

/// Why shards cannot be split. Shards are counted from 0, and slots are numbered 0 and 1.
#[derive(Clone, Copy, Debug, Drop, PartialEq, Eq, Error)]
pub enum SplitFault {
    /// The log of this old shard was refused. It is the first that was. No new slot was touched.
    #[error("shard {shard}: {fault}")]
    Old {
        /// Which old shard.
        shard: u32,
        /// Why.
        fault: wal::OpenFault,
    },
    /// This slot of a new shard is not empty. If the new slots followed the disk model, it is the first such slot. If
    /// those of this shard did, nothing was written; otherwise shards before it may have been begun.
    #[error("new shard {shard} is not empty")]
    NotEmpty {
        /// Which new shard.
        shard: u32,
        /// Which of its slots.
        slot: u32,
    },
    /// The streams of this new shard need more room than there is. It is the first such shard. Nothing was written.
    #[error("new shard {shard}: no room")]
    NoRoom {
        /// Which new shard.
        shard: u32,
    },
    /// A device of this new shard failed. The new slots must be given up.
    #[error("new shard {shard}: device failed")]
    Device {
        /// Which new shard.
        shard: u32,
    },
    /// The allocator gave no memory. The new slots must be given up.
    #[error("out of memory")]
    Memory,
}

impl From<AllocError> for SplitFault {
    ghost from_gives = { λ _ fault. fault ≡ faults.Memory };

    fn from(_refused: AllocError) -> SplitFault {
        SplitFault::Memory
    }
}
