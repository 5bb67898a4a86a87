//! How the contents that a crash may leave are listed.
ghost use Rattle.std.specs.Prelude.{◌≡◌, ◌≢◌, ◌≤◌, ◌<◌, ◌⊎◌, ◌+◌, ◌-◌, ◌↔◌, ◌^◌, [], ◌∷◌, ◌++◌, ℕ, List, length, slice_index_or, true, false, Contains, AllPairs, IfOk, OnOk, OnErr, Some, IfSome, IfNone, IsNone};
ghost use Rattle.memory_disk.specs.Memory.{ranges_after, AreWithin};
ghost use Rattle.memory_disk.specs.Images.{contents};
ghost use Rattle.memory_disk.specs.Beginnings.{IsMarked, open_bytes, each_longer, of_lengths};
ghost use Rattle.memory_disk.specs.declared.images.ImagesFault.TheVariants.{Memory};

use crate::memory::RecordedCall;
use std::alloc::{AllocError, Global};
use thiserror::Error;

/// Why the contents that a crash may leave are not listed.
#[derive(Clone, Copy, Debug, Error)]
pub enum ImagesFault {
    #[error("too many contents")]
    TooMany,
    #[error("out of memory")]
    Memory,
}

impl From<AllocError> for ImagesFault {
    ghost from_gives = { λ _ e. e ≡ Memory };

    fn from(_: AllocError) -> ImagesFault {
        ImagesFault::Memory
    }
}

// Adds a value to the end of these, unless it is among them.
fn add(found: &mut Vec<u8>, value: u8) -> Result<(), AllocError>
    ensures same { OnOk result ((v : ℕ)
        → (Contains found.new.items v) ↔ ((Contains found.old.items v) ⊎ (value ≡ v))) }
    ensures once { OnOk result (AllPairs (λ x y. x ≢ y) found.old.items
        → AllPairs (λ x y. x ≢ y) found.new.items) }
{
    if !found.contains(&value) {
        found.push(value)?;
    }
    Ok(())
}

// Each of the values once.
pub(crate) fn unique(alloc: Global, values: &[u8]) -> Result<Vec<u8>, AllocError>
    ensures same { IfOk result (λ found. (v : ℕ)
        → (Contains found.items v) ↔ (Contains values.now v)) }
    ensures once { IfOk result (λ found. AllPairs (λ x y. x ≢ y) found.items) }
{
    let mut found = Vec::new(alloc);
    for &value in values {
        add(&mut found, value)?;
    }
    Ok(found)
}

// Sets a range.
fn mark(mask: &mut [bool], at: usize, len: usize)
    requires { at + len ≤ length mask.old }
    ensures within { (i : ℕ) → at ≤ i → i < at + len → slice_index_or mask.new i false ≡ true }
    ensures outside { (i : ℕ) → (i < at) ⊎ (at + len ≤ i)
        → slice_index_or mask.new i false ≡ slice_index_or mask.old i false }
{
    mask[at..at + len].fill(true);
}

// For each byte, whether it is unsynced: past the length at the last sync, or written since.
pub(crate) fn unsynced(
    alloc: Global,
    len: usize,
    synced_len: usize,
    since: &[RecordedCall],
) -> Result<Vec<bool>, AllocError>
    requires synced { synced_len ≤ len }
    requires within { AreWithin (ranges_after [] since.now) len }
    ensures { IfOk result (λ mask. (length mask.items ≡ len)
        × IsMarked synced_len (ranges_after [] since.now) mask.items) }
{
    let mut mask = vec![in alloc; false; len]?;
    mark(&mut mask, synced_len, len - synced_len);
    for step in since {
        match *step {
            RecordedCall::Wrote { at, len } => mark(&mut mask, at, len),
            RecordedCall::Synced => {}
        }
    }
    Ok(mask)
}

// How many contents there are, of all lengths from `low` on: `None` where the number does not fit.
pub(crate) fn number_of(mask: &[bool], low: usize, values: &[u8]) -> Option<usize>
    requires { low ≤ length mask.now }
    ensures exact { IfSome result (λ n. (now : List ℕ)
        → n ≡ length (of_lengths (open_bytes mask.now now values.now) low
        (length mask.now - low + 1))) }
    ensures none { IsNone result → (now : List ℕ)
        → 2 ^ 64 ≤ length (of_lengths (open_bytes mask.now now values.now) low
        (length mask.now - low + 1)) }
{
    let mut fronts: usize = 1;
    let mut all: usize = 0;
    for (i, &is_unsynced) in mask.iter().enumerate() {
        if i >= low {
            all = all.checked_add(fronts)?;
        }
        if is_unsynced {
            fronts = fronts.checked_mul(values.len())?;
        }
    }
    all.checked_add(fronts)
}

// The number, unless it is above the cap.
pub(crate) fn within_cap(number: Option<usize>, cap: usize) -> Result<usize, ImagesFault>
    ensures ok { IfOk result (λ n. (number ≡ Some n) × (n ≤ cap)) }
    ensures err { OnErr result (IfSome number (λ n. cap < n)) }
{
    match number {
        Some(number) if number <= cap => Ok(number),
        _ => Err(ImagesFault::TooMany),
    }
}

// Each of these, followed by each of the values.
fn with_each(alloc: Global, fronts: &[Vec<u8>], values: &[u8]) -> Result<Vec<Vec<u8>>, AllocError>
    ensures { IfOk result (λ all. contents all.items
        ≡ each_longer (contents fronts.now) values.now) }
{
    let mut all = Vec::new(alloc);
    for front in fronts {
        for &value in values {
            let mut next = front.clone()?;
            next.push(value)?;
            all.push(next)?;
        }
    }
    Ok(all)
}

// What may stand at a place: each of the values where the byte is unsynced, and otherwise the byte alone.
fn endings<'a>(now: &'a [u8], mask: &[bool], values: &'a [u8], i: usize) -> &'a [u8]
    requires now { i < length now.now }
    requires mask { i < length mask.now }
    ensures { result.now ≡ open_bytes mask.now now.now values.now i }
{
    if mask[i] { values } else { &now[i..i + 1] }
}

// All contents of the lengths from `low` on, with these values where the mask says so. There are `number` of them.
pub(crate) fn all_contents(
    alloc: Global,
    now: &[u8],
    mask: &[bool],
    values: &[u8],
    low: usize,
    number: usize,
) -> Result<Vec<Vec<u8>>, AllocError>
    requires low { low ≤ length now.now }
    requires mask { length mask.now ≡ length now.now }
    ensures { IfOk result (λ found. contents found.items
        ≡ of_lengths (open_bytes mask.now now.now values.now) low (length now.now - low + 1)) }
{
    let mut found = Vec::with_capacity(alloc, number)?;
    let mut fronts = Vec::new(alloc);
    fronts.push(Vec::new(alloc))?;
    for i in 0..now.len() {
        let longer = with_each(alloc, &fronts, endings(now, mask, values, i))?;
        if i >= low {
            found.append(&mut fronts)?;
        }
        fronts = longer;
    }
    found.append(&mut fronts)?;
    Ok(found)
}
