//! What a crash may leave in slots, and what becomes of calls there.

use crate::slots::bytes_of;
use anyhow::Result;
use memory_disk::{ImagesFault, MemDisk};
use std::alloc::Global;

/// The most contents of a slot that are looked at.
const MOST: usize = 8_192;

/// Contents of slot 0, and contents of slot 1.
#[derive(Drop)]
pub struct Contents {
    pub firsts: Vec<Vec<u8>>,
    pub seconds: Vec<Vec<u8>>,
}

impl Contents {
    /// Each content that a crash may leave in slots, with these values for unsynced bytes: numbers with blanks between
    /// them.
    ///
    /// # Errors
    /// No such numbers, too many contents, or want of memory.
    pub fn with(alloc: Global, slots: &[MemDisk; 2], values: &str) -> Result<Contents> {
        let mut bytes = Vec::new(alloc);
        for word in values.split(' ') {
            bytes.push(word.parse::<u8>()?)?;
        }
        let firsts = slots[0].images(alloc, &bytes, MOST)?;
        let seconds = slots[1].images(alloc, &bytes, MOST)?;
        Ok(Contents { firsts, seconds })
    }

    /// What a crash may leave in slots: with each of four values for an unsynced byte where those are few contents, as
    /// after a write of one byte, otherwise with each of three values for all unsynced bytes.
    ///
    /// # Errors
    /// Too many contents, or want of memory.
    pub fn of(alloc: Global, slots: &[MemDisk; 2]) -> Result<Contents> {
        let firsts = contents_of(alloc, &slots[0])?;
        let seconds = contents_of(alloc, &slots[1])?;
        Ok(Contents { firsts, seconds })
    }
}

fn contents_of(alloc: Global, slot: &MemDisk) -> Result<Vec<Vec<u8>>> {
    match slot.images(alloc, &[0, 1, 127, 255], 8) {
        Err(ImagesFault::TooMany) => long_contents_of(alloc, slot),
        found => Ok(found?),
    }
}

fn long_contents_of(alloc: Global, slot: &MemDisk) -> Result<Vec<Vec<u8>>> {
    let mut all = Vec::new(alloc);
    for value in [0, 1, 255] {
        let mut found = slot.images(alloc, &[value], MOST)?;
        all.append(&mut found)?;
    }
    Ok(all)
}

/// Whether slots whose opening failed hold the same bytes as before it.
///
/// # Errors
/// A slot that fails, or want of memory.
pub fn hold_the_same(
    alloc: Global,
    after: &mut [MemDisk; 2],
    before: &mut [MemDisk; 2],
) -> Result<bool> {
    for slot in 0..2 {
        after[slot].fail_at(0);
        if bytes_of(alloc, &mut after[slot])? != bytes_of(alloc, &mut before[slot])? {
            return Ok(false);
        }
    }
    Ok(true)
}

/// Whether all answers are that the shard is unavailable.
pub fn are_unavailable(answers: &str) -> bool {
    answers.lines().all(|line| line == "Unavailable")
}

/// Which streams were found after calls, by what was read before the calls and after them.
pub fn streams_found(found: &[String], before: &str, after: &str) -> &'static str {
    let (mut is_before, mut is_after) = (false, false);
    for text in found {
        if text.as_str() == before {
            is_before = true;
        } else if text.as_str() == after {
            is_after = true;
        } else {
            return "another state";
        }
    }
    match (is_before, is_after) {
        (true, true) => "before or after",
        (true, false) => "before",
        (false, true) => "after",
        (false, false) => "nothing",
    }
}
