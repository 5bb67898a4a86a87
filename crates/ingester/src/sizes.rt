//! What a shard had when it was opened.

/// What a shard had when it was opened.
#[derive(Clone, Copy, Debug)]
pub(crate) struct Size {
    pub(crate) streams: usize,
    pub(crate) bytes: u64,
}
