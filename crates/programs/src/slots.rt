//! The slots of a folder.
ghost use Rattle.std.specs.Prelude.{◌≡◌, ◌≤◌, IfOk, vec_len};
ghost use Rattle.programs.specs.Slots.{HasNoCall, AreUntouched};

use crate::lacking::{path_of, refuse_lacking};
use crate::slot_name::SlotName;
use crate::watched::Watched;
use disk::{FileDisk, LockedFile};
use std::alloc::{AllocError, Global};
use std::fs::{self, File, Files};
use std::io::{self, Stderr};
use std::path::Path;
use thiserror::Error;

/// Why the files of slots cannot be opened.
#[derive(Debug, Drop, Error)]
pub enum SlotsFault {
    /// The file or folder at this path cannot be opened.
    #[error("cannot open {0}")]
    Path(String),
    /// There is no file at this path, and the shard's other slot holds a segment, which may be the older one.
    #[error("{0} is missing: put it back, or, to go on without what it held, make it as an empty file")]
    Missing(String),
    /// The slot at this path is of a shard that this number of shards leaves out.
    #[error("number of shards {shards} leaves out {path}: give the log's own number, or move away slots without lines")]
    LeftOut { path: String, shards: u32 },
    /// The allocator gave no memory.
    #[error("out of memory")]
    Memory,
}

impl From<AllocError> for SlotsFault {
    fn from(_refused: AllocError) -> SlotsFault {
        SlotsFault::Memory
    }
}

/// Opens the slots of `shards` shards: the files `shard-SS-0.wal` and `shard-SS-1.wal` of a folder. Missing files are
/// made empty, and so is a missing folder. Each file is locked against other processes. What was made survives a crash.
/// No call was made on a slot yet. A shard that stops answering writes a line to `errors`, where that is given.
///
/// # Errors
///
/// `Missing` and `LeftOut`: the folder is no log of so many shards, or not a whole one; then no file was made.
pub fn open_slots<R: Files<File = File>>(
    rt: &R,
    alloc: Global,
    folder: &str,
    shards: u32,
    errors: Option<Stderr>,
) -> Result<Vec<[Watched<FileDisk>; 2]>, SlotsFault>
    ensures count { IfOk result (λ slots. vec_len slots ≡ shards) }
    ensures untouched { IfOk result (λ slots. AreUntouched slots.items) }
{
    if make_folder(rt, folder).is_err() {
        return Err(SlotsFault::Path(folder.to_string(alloc)?));
    }
    refuse_lacking(rt, alloc, folder, shards)?;
    let mut slots = Vec::new(alloc);
    for shard in 0..shards {
        let first = open_slot(rt, alloc, folder, SlotName { shard, slot: 0 }, errors)?;
        let second = open_slot(rt, alloc, folder, SlotName { shard, slot: 1 }, errors)?;
        if slots.push([first, second]).is_err() {
            return Err(SlotsFault::Memory);
        }
    }
    Ok(slots)
}

// Makes a folder and those above it, where they are missing, and syncs the folders that hold them. It syncs even where
// all are there, since a start that was killed may have made them. It need not be possible to open a folder that was
// there before.
fn make_folder<R: Files<File = File>>(rt: &R, folder: &str) -> io::Result<()> {
    if folder.is_empty() {
        return Err(io::ErrorKind::NotFound.into());
    }
    let mut missing = missing_folders(rt, folder);
    fs::create_dir_all(rt, folder)?;
    for path in Path::new(folder).ancestors().skip(1) {
        let synced = sync_folder(rt, name_of(path));
        if missing > 0 {
            synced?;
            missing -= 1;
        }
    }
    Ok(())
}

// How many folders are missing: a folder, and those above it up to the first that is there.
fn missing_folders<R: Files>(rt: &R, folder: &str) -> usize {
    let mut missing: usize = 0;
    for path in Path::new(folder).ancestors() {
        if is_folder(rt, name_of(path)) {
            break;
        }
        missing = missing.saturating_add(1);
    }
    missing
}

fn sync_folder<R: Files<File = File>>(rt: &R, path: &str) -> io::Result<()> {
    File::open(rt, path)?.sync_all()
}

fn is_folder<R: Files>(rt: &R, path: &str) -> bool {
    match fs::metadata(rt, path) {
        Ok(metadata) => metadata.is_dir(),
        Err(_) => false,
    }
}

// A path as the system reads it: the folder of a bare name is the folder where the program runs.
fn name_of<'a>(path: Path<'a>) -> &'a str {
    match path.as_str() {
        "" => ".",
        name => name,
    }
}

// Opens one slot, and makes no call on it.
fn open_slot<R: Files<File = File>>(
    rt: &R,
    alloc: Global,
    folder: &str,
    name: SlotName,
    errors: Option<Stderr>,
) -> Result<Watched<FileDisk>, SlotsFault>
    ensures { IfOk result HasNoCall }
{
    let path = path_of(alloc, folder, name)?;
    match LockedFile::open(rt, path.as_str()) {
        Ok(file) => Ok(Watched::new(FileDisk::new(file), name.shard, errors)),
        Err(_) => Err(SlotsFault::Path(path)),
    }
}
