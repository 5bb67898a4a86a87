ghost use Rattle.std.specs.Prelude.{◌<◌, IfOk};
ghost use Rattle.accept.specs.OneStream.{end_of_time};
ghost use Rattle.pushjson.specs.Bodies.{HaveRisingNames};
ghost use Rattle.pushjson.specs.Queries.{ReadsQuery, ReadsTrim};

use crate::fault::PushFault;
use crate::shape::{query_texts, read_tree, trim_texts};
use crate::time::time_of;
use pairs::LabelPairs;
use std::alloc::Global;

/// A query body: it asks for the entries of a stream with `from <= time < to`.
#[derive(Drop)]
pub struct RawRead {
    /// Names and values of the stream's labels, not yet tested, in rising byte order of the names.
    pub pairs: LabelPairs,
    /// The first time, in nanoseconds since 1970: below 2^63.
    pub from: u64,
    /// The first time after those asked for, in nanoseconds since 1970: below 2^63.
    pub to: u64,
}

/// A trim body: the entries of a stream with `time < bound` are to be removed.
#[derive(Drop)]
pub struct RawTrim {
    /// Names and values of the stream's labels, not yet tested, in rising byte order of the names.
    pub pairs: LabelPairs,
    /// The first time that stays, in nanoseconds since 1970: below 2^63.
    pub bound: u64,
}

const BAD_TIME: PushFault = PushFault::BadTime {
    stream: 0,
    entry: 0,
};

/// What a query body asks for: a JSON object with exactly the keys `stream`, an object of texts, and `from` and `to`,
/// texts of times as in a push body.
///
/// # Errors
///
/// See `PushFault`. A bad time is `BadTime` at stream 0 and entry 0, and there is no `TooManyEntries`.
pub fn read_query(alloc: Global, bytes: &[u8]) -> Result<RawRead, PushFault>
    ensures reads { ReadsQuery bytes.now result }
    ensures sorted { IfOk result (λ r. HaveRisingNames r.pairs) }
    ensures range { IfOk result (λ r. (r.from < end_of_time) × (r.to < end_of_time)) }
{
    let texts = query_texts(alloc, read_tree(alloc, bytes)?)?;
    let Some(from) = time_of(texts.from.as_str()) else {
        return Err(BAD_TIME);
    };
    let Some(to) = time_of(texts.to.as_str()) else {
        return Err(BAD_TIME);
    };
    let pairs = LabelPairs::new(texts.pairs);
    Ok(RawRead { pairs, from, to })
}

/// What a trim body asks for: a JSON object with exactly the keys `stream`, an object of texts, and `bound`, the text
/// of a time as in a push body.
///
/// # Errors
///
/// See `PushFault`. A bad time is `BadTime` at stream 0 and entry 0, and there is no `TooManyEntries`.
pub fn read_trim(alloc: Global, bytes: &[u8]) -> Result<RawTrim, PushFault>
    ensures reads { ReadsTrim bytes.now result }
    ensures sorted { IfOk result (λ r. HaveRisingNames r.pairs) }
    ensures range { IfOk result (λ r. r.bound < end_of_time) }
{
    let texts = trim_texts(alloc, read_tree(alloc, bytes)?)?;
    let Some(bound) = time_of(texts.bound.as_str()) else {
        return Err(BAD_TIME);
    };
    let pairs = LabelPairs::new(texts.pairs);
    Ok(RawTrim { pairs, bound })
}
