/// Why a call has no reply. An answer of status 500 says it.
#[derive(Clone, Copy, Debug, Drop, PartialEq, Eq)]
pub enum CallFault {
    /// The allocator gave no memory. The call has no step.
    Memory,
    /// The pass announces no call any more. The call has no step.
    PassClosed,
    /// The shard's log has used its last generation, 2^63 - 1, and the call needs another. The call has no step.
    LogSpent,
    /// The owner of the shard has ended. The call may have its step or not, and the pass is closed.
    InDoubt,
}
