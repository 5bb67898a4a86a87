use thiserror::Error;

/// Why a call has no step. History, streams and slots are then as they were, and no device call was made.
#[derive(Clone, Copy, Debug, Drop, Error)]
pub enum ApplyFault {
    /// The allocator gave no memory.
    #[error("out of memory")]
    Memory,
    /// The generations are used up: the change does not fit after the segment in use, which has generation 2^63 - 1.
    #[error("generation spent")]
    GenerationSpent,
}
