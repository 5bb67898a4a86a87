//! Why slots are not opened.
ghost use Rattle.std.specs.Prelude.{◌≡◌};
ghost use Rattle.ingester.specs.declared.refusal.OpenFault.TheVariants as faults;
ghost use Rattle.ingester.specs.Faults.{cause_of};
ghost use Rattle.ingester.specs.Findings.{refusal_of};

use openings::LogsFault;
use owners::StartFault;
use std::alloc::AllocError;
use thiserror::Error;

/// Why an ingester is not opened. Nothing was written.
#[derive(Clone, Copy, Debug, Drop, PartialEq, Eq, Error)]
pub enum OpenFault {
    /// The log of this shard was refused, the first that was.
    #[error("shard {shard}: {fault}")]
    Refused {
        /// Which shard, counted from 0.
        shard: u32,
        /// Why.
        fault: wal::OpenFault,
    },
    /// The allocator gave no memory.
    #[error("out of memory")]
    Memory,
    /// A thread that owns a shard could not be started.
    #[error("thread not started")]
    Thread,
}

impl From<AllocError> for OpenFault {
    ghost from_gives = { λ _ fault. fault ≡ faults.Memory };

    fn from(_refused: AllocError) -> OpenFault {
        OpenFault::Memory
    }
}

impl From<LogsFault> for OpenFault {
    ghost from_gives = { λ cause fault. fault ≡ refusal_of cause };

    fn from(cause: LogsFault) -> OpenFault {
        match cause {
            LogsFault::Refused { shard, fault } => OpenFault::Refused { shard, fault },
            LogsFault::Memory => OpenFault::Memory,
        }
    }
}

impl From<StartFault> for OpenFault {
    ghost from_gives = { λ cause fault. fault ≡ cause_of cause };

    fn from(cause: StartFault) -> OpenFault {
        match cause {
            StartFault::Memory => OpenFault::Memory,
            StartFault::Thread => OpenFault::Thread,
        }
    }
}
