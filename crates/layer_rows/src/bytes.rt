use crate::numbers::number_of;
use anyhow::{Context, Result, bail};
use rows::{Said, read_hex};
use std::alloc::Global;

/// The example: a segment of generation 1 of the only shard, whose one stream has the entry 10 x. Its closing gate is
/// at 81.
const SEGMENT: [u8; 82] = *b"\x01LWL2\x01\0\0\0\0\0\0\0\0\0\0\0\x01\0\0\0\x01\x37\0\0\0\
\x03\x01\0t\x07\0\0\0{a=\"1\"}\x0a\0\0\0\0\0\0\0\
\x0a\0\0\0\0\0\0\0\x01\0\0\0x\0\x01\0\0\0\
\x0a\0\0\0\0\0\0\0\x01\0\0\0x\0\0";

/// What an append of the entry 11 y writes after that gate: a block without its own gate, and a closed gate.
const FRAME: [u8; 38] = *b"\x21\0\0\0\x01\x01\0t\x07\0\0\0{a=\"1\"}\x01\0\0\0\
\x0b\0\0\0\0\0\0\0\x01\0\0\0y\0\0";

/// The example with an entry that has the metadata k=v. Its closing gate is at 93.
const SEGMENT_WITH_PAIR: [u8; 94] = *b"\x01LWL2\x01\0\0\0\0\0\0\0\0\0\0\0\x01\0\0\0\x01\x43\0\0\0\
\x03\x01\0t\x07\0\0\0{a=\"1\"}\x0a\0\0\0\0\0\0\0\
\x0a\0\0\0\0\0\0\0\x01\0\0\0x\x01\x01\0k\x01\0v\x01\0\0\0\
\x0a\0\0\0\0\0\0\0\x01\0\0\0x\x01\x01\0k\x01\0v\0";

/// What an append of that entry writes after a gate.
const FRAME_WITH_PAIR: [u8; 44] = *b"\x27\0\0\0\x01\x01\0t\x07\0\0\0{a=\"1\"}\x01\0\0\0\
\x0a\0\0\0\0\0\0\0\x01\0\0\0x\x01\x01\0k\x01\0v\0";

/// The example in version 1 of the layout, where an entry ends with its line. Its closing gate is at 79.
const SEGMENT_OF_1: [u8; 80] = *b"\x01LWL1\x01\0\0\0\0\0\0\0\0\0\0\0\x01\0\0\0\x01\x35\0\0\0\
\x03\x01\0t\x07\0\0\0{a=\"1\"}\x0a\0\0\0\0\0\0\0\
\x0a\0\0\0\0\0\0\0\x01\0\0\0x\x01\0\0\0\
\x0a\0\0\0\0\0\0\0\x01\0\0\0x\0";

/// What an append of the entry 11 y wrote after that gate.
const FRAME_OF_1: [u8; 37] = *b"\x20\0\0\0\x01\x01\0t\x07\0\0\0{a=\"1\"}\x01\0\0\0\
\x0b\0\0\0\0\0\0\0\x01\0\0\0y\0";

/// How many bytes of a slot a line has.
const LINE: usize = 32;

/// The bytes that words stand for, one after another.
///
/// Pairs of digits are bytes. `segment` and `frame` are those of the example, `segment_with_pair` and `frame_with_pair`
/// those of the one with metadata, `segment_of_1` and `frame_of_1` those of the example in version 1. `-` is no bytes,
/// and `COUNT*HEX` the same bytes COUNT times. `cut:COUNT` keeps the first COUNT bytes so far, `from:COUNT` drops them,
/// and `at:PLACE=HEX` writes over bytes.
///
/// # Errors
/// Another word, a place that does not exist, or want of memory.
pub fn bytes_of(alloc: Global, words: &str) -> Result<Vec<u8>> {
    let mut bytes = Vec::new(alloc);
    for word in words.split(' ') {
        take_word(alloc, &mut bytes, word).context(format_args!("in {word}"))?;
    }
    Ok(bytes)
}

fn take_word(alloc: Global, bytes: &mut Vec<u8>, word: &str) -> Result<()> {
    match example_of(word) {
        Some(example) => Ok(bytes.extend_from_slice(example)?),
        None => match word.split_once(':') {
            Some((change, rest)) => change_bytes(alloc, bytes, change, rest),
            None => append_often(alloc, bytes, word),
        },
    }
}

/// The bytes of an example.
fn example_of(word: &str) -> Option<&'static [u8]> {
    match word {
        "" | "-" => Some(&[]),
        "segment" => Some(&SEGMENT),
        "frame" => Some(&FRAME),
        "segment_with_pair" => Some(&SEGMENT_WITH_PAIR),
        "frame_with_pair" => Some(&FRAME_WITH_PAIR),
        "segment_of_1" => Some(&SEGMENT_OF_1),
        "frame_of_1" => Some(&FRAME_OF_1),
        _ => None,
    }
}

fn change_bytes(alloc: Global, bytes: &mut Vec<u8>, change: &str, rest: &str) -> Result<()> {
    match change {
        "cut" => {
            bytes.truncate(place_of(rest)?);
            Ok(())
        }
        "from" => drop_front(alloc, bytes, place_of(rest)?),
        "at" => change_at(alloc, bytes, rest),
        _ => bail!("no such change"),
    }
}

fn place_of(word: &str) -> Result<usize> {
    Ok(usize::try_from(number_of(word)?)?)
}

fn drop_front(alloc: Global, bytes: &mut Vec<u8>, count: usize) -> Result<()> {
    let left = bytes.get(count..).context("past the end")?;
    *bytes = Vec::from_slice(alloc, left)?;
    Ok(())
}

/// The bytes of pairs of digits.
fn pairs_of(alloc: Global, digits: &str) -> Result<Vec<u8>> {
    let mut bytes = Vec::new(alloc);
    read_hex(digits, &mut bytes)?;
    Ok(bytes)
}

/// `PLACE=HEX`.
fn change_at(alloc: Global, bytes: &mut [u8], words: &str) -> Result<()> {
    let (place, digits) = words.split_once('=').context("no bytes")?;
    let at = place_of(place)?;
    write_over(bytes, at, &pairs_of(alloc, digits)?)
}

fn write_over(bytes: &mut [u8], at: usize, new: &[u8]) -> Result<()> {
    for (index, byte) in new.iter().enumerate() {
        match bytes.get_mut(at.saturating_add(index)) {
            Some(place) => *place = *byte,
            None => bail!("past the end"),
        }
    }
    Ok(())
}

fn append_often(alloc: Global, bytes: &mut Vec<u8>, word: &str) -> Result<()> {
    let (count, digits) = match word.split_once('*') {
        Some((count, digits)) => (number_of(count)?, digits),
        None => (1, word),
    };
    let new = pairs_of(alloc, digits)?;
    for _ in 0..count {
        bytes.extend_from_slice(&new)?;
    }
    Ok(())
}

/// Says how many bytes there are, and lines of their digits.
pub fn write_bytes(bytes: &[u8], into: &mut Said) {
    let count = bytes.len();
    into.tell(format_args!("{count} bytes\n"));
    for line in bytes.chunks(LINE) {
        into.hex(line);
        into.put("\n");
    }
}
