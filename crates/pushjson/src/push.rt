ghost use Rattle.std.specs.Prelude.{◌≡◌, ◌↔◌, ◌<◌, IsTrue, IfOk, All, map, length, sum_by};
ghost use Rattle.accept.specs.OneStream.{AreTimes};
ghost use Rattle.accept.specs.Calls.{max_entries};
ghost use Rattle.pushjson.specs.Bodies.{HaveRisingNames};
ghost use Rattle.pushjson.specs.Reads.{ReadsPush, GivesEntries, GivesBatches};
ghost use Rattle.pushjson.specs.Shape.{stream_texts_of, value_texts_of};

use crate::fault::PushFault;
use crate::shape::{StreamTexts, ValueTexts, body_texts, read_tree};
use crate::time::time_of;
use accept::{Entry, EntryList, Line, MAX_ENTRIES};
use pairs::{LabelPairs, Meta};
use std::alloc::Global;

/// A stream of a push body: its labels, not yet tested, and its entries.
#[derive(Drop)]
pub struct RawBatch {
    /// Names and values of the labels, in rising byte order of the names.
    pub pairs: LabelPairs,
    /// The entries in the order of the body.
    pub entries: EntryList,
}

/// The batches of a push body, as Loki's push API writes it in JSON. The body is an object with the one key `streams`,
/// an array of objects. Each of these has exactly the keys `stream`, an object of texts, and `values`, an array of
/// arrays. Each of those has two texts, a time and a line, and at most one more element: an object of texts, the line's
/// structured metadata. An empty object is the same as none. A key that is given twice counts once, with its last
/// value. A time is 1 to 19 decimal digits of at most 2^63 - 1, in nanoseconds since 1970.
///
/// From Loki's documentation: structured metadata are names with values that come with a line, the third element of a
/// value. Their number and lengths are judged later, with the line's length.
///
/// # Errors
///
/// See `PushFault`.
pub fn read_push(alloc: Global, bytes: &[u8]) -> Result<Vec<RawBatch>, PushFault>
    ensures reads { ReadsPush bytes.now result }
    ensures sorted { IfOk result (λ batches. All (λ b. HaveRisingNames b.pairs) batches.items) }
    ensures range { IfOk result (λ batches. All (λ b. AreTimes b.entries) batches.items) }
{
    let streams = body_texts(alloc, read_tree(alloc, bytes)?)?;
    let batches = batches_of(alloc, streams)?;
    if is_too_many(&batches) {
        return Err(PushFault::TooManyEntries);
    }
    Ok(batches)
}

fn batches_of(alloc: Global, streams: Vec<StreamTexts>) -> Result<Vec<RawBatch>, PushFault>
    ensures { GivesBatches (map stream_texts_of streams.items) result }
{
    let mut batches = Vec::with_capacity(alloc, streams.len())?;
    for StreamTexts { pairs, values } in streams {
        let entries = entries_of(alloc, batches.len(), values)?;
        let batch = RawBatch {
            pairs: LabelPairs::new(pairs),
            entries: EntryList::new(entries),
        };
        batches.push(batch)?;
    }
    Ok(batches)
}

// The entries of the stream at this place of the body.
fn entries_of(
    alloc: Global,
    stream: usize,
    values: Vec<ValueTexts>,
) -> Result<Vec<Entry>, PushFault>
    ensures { GivesEntries stream (map value_texts_of values.items) result }
{
    let mut entries = Vec::with_capacity(alloc, values.len())?;
    for ValueTexts { time, line, third } in values {
        let Some(time) = time_of(time.as_str()) else {
            let entry = entries.len();
            return Err(PushFault::BadTime { stream, entry });
        };
        let line = Line::new(line);
        let meta = third.unwrap_or_else(Meta::none);
        entries.push(Entry { time, line, meta })?;
    }
    Ok(entries)
}

fn is_too_many(batches: &[RawBatch]) -> bool
    ensures { IsTrue result ↔ (max_entries < sum_by (λ b. length b.entries) batches.now) }
{
    let mut room = MAX_ENTRIES;
    for batch in batches {
        let count = batch.entries.as_slice().len();
        if count > room {
            return true;
        }
        room -= count;
    }
    false
}
