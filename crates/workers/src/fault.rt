//! What stops the workers.

use std::alloc::AllocError;
use thiserror::Error;

/// Why the connections of a listener cannot be served.
#[derive(Clone, Copy, Debug, Drop, Error)]
pub enum WorkersFault {
    /// A thread could not be started.
    #[error("thread not started")]
    Thread,
    /// The allocator gave no memory.
    #[error("out of memory")]
    Memory,
}

impl From<AllocError> for WorkersFault {
    fn from(_refused: AllocError) -> WorkersFault {
        WorkersFault::Memory
    }
}
