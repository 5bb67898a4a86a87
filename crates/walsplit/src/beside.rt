//! A folder that gets its name once it is whole.

use crate::walsplit_fault::WalsplitFault;
use programs::SlotsFault;
use std::alloc::Global;
use std::fs::{self, File, Files};
use std::path::Path;

/// How many folders of unfinished splits there may be for one name.
const MAX_UNFINISHED: u32 = 99;

/// For a folder that does not exist, the path of another one next to it that does not exist either:
/// `<folder>.unfinished-1` and so on. `None` where the folder exists, or has no name of its own.
///
/// # Errors
///
/// It cannot be found out whether a folder exists, there are 99 unfinished splits, or memory is wanting.
pub fn unfinished<R: Files>(
    rt: &R,
    alloc: Global,
    folder: &str,
) -> Result<Option<String>, WalsplitFault> {
    if is_there(rt, alloc, folder)? || !has_name(folder) {
        return Ok(None);
    }
    let name = folder.trim_end_matches('/');
    for number in 1..=MAX_UNFINISHED {
        let path = format!(in alloc; "{name}.unfinished-{number}")?;
        if !is_there(rt, alloc, path.as_str())? {
            return Ok(Some(path));
        }
    }
    Err(refused(alloc, folder)?)
}

/// Gives a folder its name, which survives a crash.
///
/// # Errors
///
/// The name was taken meanwhile, the system refuses it, or memory is wanting.
pub fn give_name<R: Files<File = File>>(
    rt: &R,
    alloc: Global,
    unfinished: &str,
    folder: &str,
) -> Result<(), WalsplitFault> {
    let name = folder.trim_end_matches('/');
    let above = match Path::new(name).parent() {
        Some(path) if !path.as_str().is_empty() => path,
        _ => Path::new("."),
    };
    let named = fs::rename(rt, unfinished, name)
        .and_then(|()| File::open(rt, above.as_str()))
        .and_then(|above| above.sync_all());
    match named {
        Ok(()) => Ok(()),
        Err(_) => Err(refused(alloc, folder)?),
    }
}

/// Why the slots of an unfinished folder cannot be opened. Where the folder itself cannot be made, the fault names the
/// folder whose name it is to get.
///
/// # Errors
///
/// Want of memory.
pub fn unopened(
    alloc: Global,
    fault: SlotsFault,
    unfinished: &str,
    folder: &str,
) -> Result<WalsplitFault, WalsplitFault> {
    let is_folder = match &fault {
        SlotsFault::Path(path) => path.as_str() == unfinished,
        _ => false,
    };
    if is_folder {
        refused(alloc, folder)
    } else {
        Ok(WalsplitFault::Slots(fault))
    }
}

// Whether a path ends in a name that a folder may be given.
fn has_name(folder: &str) -> bool {
    let name = folder.trim_end_matches('/');
    !name.is_empty() && !name.ends_with("/.") && !name.ends_with("/..")
}

fn is_there<R: Files>(rt: &R, alloc: Global, path: &str) -> Result<bool, WalsplitFault> {
    match fs::exists(rt, path) {
        Ok(is_there) => Ok(is_there),
        Err(_) => Err(refused(alloc, path)?),
    }
}

fn refused(alloc: Global, path: &str) -> Result<WalsplitFault, WalsplitFault> {
    let path = path.to_string(alloc)?;
    Ok(WalsplitFault::Slots(SlotsFault::Path(path)))
}
