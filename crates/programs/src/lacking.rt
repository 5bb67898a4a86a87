//! What is wrong with the files of a folder before any is opened: a slot that is missing, or that would be left out.

use crate::MAX_SHARDS;
use crate::slot_name::SlotName;
use crate::slots::SlotsFault;
use std::alloc::Global;
use std::fs::{self, File, Files};
use std::io::{self, Read};

/// Refuses a folder that is no log of `shards` shards, or not a whole one. A shard of which both files are missing is a
/// new one. One of which one file is missing is taken where the other holds no segment: a first start may have died
/// between the two.
///
/// # Errors
///
/// `Missing`: a slot is missing, and the shard's other one holds a segment. `LeftOut`: a later shard has a slot.
/// `Path`: it cannot be found out whether a file is there, or what a lone one holds.
pub(crate) fn refuse_lacking<R: Files<File = File>>(
    rt: &R,
    alloc: Global,
    folder: &str,
    shards: u32,
) -> Result<(), SlotsFault> {
    for shard in 0..shards {
        refuse_missing(rt, alloc, folder, shard)?;
    }
    for shard in shards..MAX_SHARDS as u32 {
        for slot in 0..2 {
            let name = SlotName { shard, slot };
            if has_slot(rt, alloc, folder, name)? {
                let path = path_of(alloc, folder, name)?;
                return Err(SlotsFault::LeftOut { path, shards });
            }
        }
    }
    Ok(())
}

fn refuse_missing<R: Files<File = File>>(
    rt: &R,
    alloc: Global,
    folder: &str,
    shard: u32,
) -> Result<(), SlotsFault> {
    let (first, second) = (SlotName { shard, slot: 0 }, SlotName { shard, slot: 1 });
    let has_first = has_slot(rt, alloc, folder, first)?;
    let has_second = has_slot(rt, alloc, folder, second)?;
    if has_first == has_second {
        return Ok(());
    }
    let (there, missing) = if has_first {
        (first, second)
    } else {
        (second, first)
    };
    let path = path_of(alloc, folder, there)?;
    match is_closed(rt, path.as_str()) {
        Ok(true) => Ok(()),
        Ok(false) => Err(SlotsFault::Missing(path_of(alloc, folder, missing)?)),
        Err(_) => Err(SlotsFault::Path(path)),
    }
}

/// Whether a folder has a file of this name.
///
/// # Errors
///
/// `Path`: it cannot be found out. `Memory`.
pub fn has_slot<R: Files>(
    rt: &R,
    alloc: Global,
    folder: &str,
    name: SlotName,
) -> Result<bool, SlotsFault> {
    let path = path_of(alloc, folder, name)?;
    match fs::exists(rt, path.as_str()) {
        Ok(is_there) => Ok(is_there),
        Err(_) => Err(SlotsFault::Path(path)),
    }
}

/// The path of a slot in a folder.
pub(crate) fn path_of(alloc: Global, folder: &str, name: SlotName) -> Result<String, SlotsFault> {
    Ok(format!(in alloc; "{folder}/{name}")?)
}

// Whether a file holds no segment: it has at most one byte, or its first, the gate, is not open. A file that is not
// regular is refused when it is opened; a pipe would block here.
fn is_closed<R: Files<File = File>>(rt: &R, path: &str) -> io::Result<bool> {
    let metadata = fs::metadata(rt, path)?;
    if !metadata.is_file() || metadata.len() <= 1 {
        return Ok(true);
    }
    let mut gate = [0u8; 1];
    let read = File::open(rt, path)?.read(&mut gate)?;
    Ok(read == 0 || gate[0] != 1)
}
