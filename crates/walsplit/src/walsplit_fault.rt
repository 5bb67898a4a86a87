//! What stops the program.
ghost use Rattle.std.specs.Prelude.{◌≡◌, ◌≢◌, ◌≤◌};

use programs::{SlotName, SlotsFault};
use split::SplitFault;
use std::alloc::AllocError;
use thiserror::Error;

/// What stops the program, as its line of standard error says.
#[derive(Debug, Drop, Error)]
pub enum WalsplitFault {
    /// The folder to split has no slots of shard 0, or those of more shards than there may be.
    #[error("no shards")]
    NoShards,
    /// The folder to split lacks this slot.
    #[error("missing {0}")]
    Missing(SlotName),
    /// The folder to split into, at this path, has a slot already.
    #[error("{0} has slots: give a folder without slots as NEW")]
    HasSlots(String),
    #[error(transparent)]
    Slots(#[from] SlotsFault),
    #[error(transparent)]
    Split(#[from] SplitFault),
    #[error("cannot write")]
    Output,
}

impl WalsplitFault {
    ghost use Rattle.walsplit.specs.Endings.{split_status};

    /// The exit status: 3 for refused old slots, else 1.
    pub fn status(&self) -> u8
        ensures cause { result ≡ split_status self.now }
        ensures some { result ≢ 2 }
        ensures few { result ≤ 3 }
    {
        match self {
            WalsplitFault::Split(SplitFault::Old { .. }) => 3,
            _ => 1,
        }
    }
}

impl From<AllocError> for WalsplitFault {
    fn from(_refused: AllocError) -> WalsplitFault {
        WalsplitFault::Slots(SlotsFault::Memory)
    }
}
