//! The records of a segment, read and written anew, and what all streams have after them.

use crate::entry_words::write_image;
use anyhow::{Result, bail};
use rows::Said;
use segment::put_block;
use std::alloc::Global;
use whole_segments::{read_records, read_segment};

/// The greatest length of a slot, in bytes. A block of its records, in the latest version, is shorter than 2^32 bytes.
const LONGEST: usize = 1 << 30;

/// Reads the records in a slot of the only shard, and writes one block of them all. Says the segment's generation, how
/// many records it has, and the offset of its closing gate; or why there is no block.
///
/// # Errors
/// A slot that is too long, or want of memory.
pub fn written_anew(alloc: Global, slot: &[u8], said: &mut Said) -> Result<Option<Vec<u8>>> {
    if slot.len() > LONGEST {
        bail!("too long");
    }
    match read_records(alloc, slot, 0, 1) {
        Ok(Some((header, records, end))) => {
            let (generation, count) = (header.generation, records.len());
            said.tell(format_args!("generation {generation} records {count} end {end}\n"));
            let mut block = Vec::new(alloc);
            put_block(&records, &mut block)?;
            Ok(Some(block))
        }
        Ok(None) => {
            said.put("closed\n");
            Ok(None)
        }
        Err(fault) => {
            said.tell(format_args!("{fault}\n"));
            Ok(None)
        }
    }
}

/// Says what the segment in a slot of the only shard comes to: its generation, the offset of its closing gate, and what
/// each stream has; or why there is none.
///
/// # Errors
/// Want of memory.
pub fn say_streams(alloc: Global, slot: &[u8], said: &mut Said) -> Result<()> {
    match read_segment(alloc, slot, 0, 1) {
        Ok(Some((header, image, end))) => {
            let generation = header.generation;
            said.tell(format_args!("generation {generation} end {end}\n"));
            write_image(alloc, &image, said)?;
        }
        Ok(None) => said.put("closed\n"),
        Err(fault) => said.tell(format_args!("{fault}\n")),
    }
    Ok(())
}
