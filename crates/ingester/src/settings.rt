//! What an opening is set up with.

use accept::Limits;
use wal::Capacity;

/// What an opening is set up with.
#[derive(Clone, Copy)]
pub struct Settings {
    /// How many passes it has: 1 to 64.
    pub passes: u32,
    /// The limits by which entries are judged.
    pub limits: Limits,
    /// How many bytes a segment may have.
    pub capacity: Capacity,
}
