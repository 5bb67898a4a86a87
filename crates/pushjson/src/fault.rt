ghost use Rattle.std.specs.Prelude.{◌≡◌};
ghost use Rattle.pushjson.specs.declared.fault.PushFault.TheVariants.{Memory};

use std::alloc::{AllocError, AllocFailed};
use thiserror::Error;

/// Why a body is refused. Too many parts are answered before anything else that is told of JSON. A wrong shape anywhere is
/// answered before a bad time, and a bad time before too many entries. `Memory` may come at any point.
#[derive(Clone, Copy, Debug, Error)]
pub enum PushFault {
    /// The bytes are not UTF-8, are no JSON text, or nest arrays and objects deeper than 127.
    #[error("body is not JSON")]
    NotJson,
    /// A JSON text that is not a body of the kind asked for.
    #[error("wrong shape")]
    WrongShape,
    /// A text that is no time, at this stream of the body and this entry of the stream, both counted from 0. It is the
    /// first such text in the body's order.
    #[error("bad time at stream {stream} entry {entry}")]
    BadTime { stream: usize, entry: usize },
    /// The streams have more than `MAX_ENTRIES` entries together.
    #[error("more than 10000 entries")]
    TooManyEntries,
    /// The body is long, and has more objects or more elements of arrays than a push of 10,000 streams and 10,000
    /// entries with metadata.
    #[error("more than 10000 streams or entries")]
    TooManyParts,
    /// The allocator gave no memory.
    #[error("out of memory")]
    Memory,
}

impl From<AllocError> for PushFault {
    ghost from_gives = { λ _ fault. fault ≡ Memory };

    fn from(_refused: AllocError) -> PushFault {
        PushFault::Memory
    }
}

impl<T: Drop> From<AllocFailed<T>> for PushFault {
    ghost from_gives = { λ _ fault. fault ≡ Memory };

    fn from(_refused: AllocFailed<T>) -> PushFault {
        PushFault::Memory
    }
}
