use std::fmt;

/// The name of a slot's file: `shard-SS-N.wal`, with the shard's number in two digits.
#[derive(Clone, Copy, Debug)]
pub struct SlotName {
    /// The shard's number, from 0 on.
    pub shard: u32,
    /// Which of its slots it is: 0 or 1.
    pub slot: u32,
}

impl fmt::Display for SlotName {
    fn fmt<W: fmt::Write>(&self, f: &mut fmt::Formatter<W>) -> fmt::Result {
        let SlotName { shard, slot } = *self;
        write!(f, "shard-{shard:02}-{slot}.wal")
    }
}
