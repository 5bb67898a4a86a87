//! Who is told of logs as they are opened.

/// Who is told of each log at the moment it is opened, by the thread that opened it: in no order of shards, and of
/// several at once.
pub trait Observer {
    /// The log of this shard is opened: it has this many streams, and its segment in use this many bytes, 0 where there
    /// is none. For people: nothing is claimed of these numbers.
    fn opened(&self, shard: u32, streams: usize, bytes: u64);
}

/// An observer that does nothing.
#[derive(Clone, Copy)]
pub struct Unobserved;

impl Observer for Unobserved {
    fn opened(&self, _shard: u32, _streams: usize, _bytes: u64) {}
}
