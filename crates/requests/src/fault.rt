ghost use Rattle.std.specs.Prelude.{◌≡◌};
ghost use Rattle.requests.specs.declared.fault.ServeFault.TheVariants.{Memory};

use std::alloc::AllocError;
use thiserror::Error;

/// How a connection ended in good order.
#[derive(Clone, Copy, PartialEq, Eq)]
pub enum Served {
    /// The stream ended, with no byte after the last request.
    Ended,
    /// An answer closed it.
    Closed,
}

/// Why a connection ended in the middle.
#[derive(Clone, Copy, Debug, Error)]
pub enum ServeFault {
    /// The reader failed.
    #[error("cannot read")]
    Read,
    /// The writer failed, or took no byte.
    #[error("cannot write")]
    Write,
    /// The allocator gave no memory.
    #[error("out of memory")]
    Memory,
    /// The stream ended inside a request.
    #[error("request cut short")]
    CutShort,
}

impl From<AllocError> for ServeFault {
    ghost from_gives = { λ _ e. e ≡ Memory };

    fn from(_refused: AllocError) -> ServeFault {
        ServeFault::Memory
    }
}
