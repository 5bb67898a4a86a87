use accept::{Entry, Image};
use labels::StreamKey;
use rows::{Said, only_character};
use std::alloc::{AllocError, Global};

/// A line of at least this many bytes that repeats one character is written as that character and a count.
const LONG: usize = 64;

/// Says a key, `TENANT LABELS`.
pub fn write_key(key: &StreamKey, into: &mut Said) {
    let (tenant, labels) = (key.tenant.as_str(), key.labels.as_str());
    into.tell(format_args!("{tenant} {labels}"));
}

/// Says an entry, `TIME:LINE`, or `TIME*COUNT:CHARACTER` for a long line that repeats one character.
/// `{NAME=VALUE,..}` follows where the entry has metadata.
pub fn write_entry(entry: &Entry, into: &mut Said) {
    let (time, line) = (entry.time, entry.line.as_str());
    let length = line.len();
    match only_character(line) {
        Some(character) if length >= LONG => {
            into.tell(format_args!("{time}*{length}:{character}"));
        }
        _ => {
            into.tell(format_args!("{time}:"));
            into.escape(line.as_bytes());
        }
    }
    into.pairs(entry.meta.as_slice());
}

/// Says what a stream has: `highest TIME last ENTRY kept ENTRY ..`.
pub fn write_stream(highest: u64, last: &Entry, kept: &[&Entry], into: &mut Said) {
    into.tell(format_args!("highest {highest} last "));
    write_entry(last, into);
    into.put(" kept");
    for entry in kept {
        into.put(" ");
        write_entry(entry, into);
    }
}

/// Says a line for each stream, in rising order of their keys.
pub fn write_image(alloc: Global, image: &Image, into: &mut Said) -> Result<(), AllocError> {
    for (key, state) in image.iter() {
        if let Some(last) = state.last() {
            let kept = state.kept(alloc)?;
            write_key(key, into);
            into.put(" ");
            write_stream(state.highest(), last, &kept, into);
            into.put("\n");
        }
    }
    Ok(())
}
