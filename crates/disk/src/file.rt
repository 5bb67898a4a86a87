ghost use Rattle.std.specs.Prelude.{◌≡◌, ◌≤◌, ◌∷◌, length, IfOk, OnOk, OnErr};
ghost use Rattle.disk.specs.Sight.{Holds, Reads, IsSynced, Looks, Writes, Counts};
ghost use Rattle.disk.specs.Calls.{Start, Synced, Measured, Refused, IsServedByCalls};

use crate::calls::{NoTransfer, NotedFile};
use crate::cause::Cause;
use crate::device::failed;
use crate::{DeviceFault, Disk};
use std::fs::{File, OpenOptions, TryLockError};
use std::io;
use std::os::fd::AsRawFd;
use std::path::Path;
use std::rt::Files;
use thiserror::Error;

/// Why a file cannot be opened as a disk.
#[derive(Debug, Drop, Error)]
pub enum FileFault {
    /// Another process has the file, or another disk of this process.
    #[error("the file is in use")]
    InUse,
    /// The path names a folder, a device or the like.
    #[error("not a regular file")]
    NotAFile,
    #[error(transparent)]
    Io(#[from] io::Error),
}

/// A disk over a file. A short read or write is finished, and an interrupted one is tried again. Every other error of
/// the system is a `DeviceFault`. So are, without an error, a write of which the system takes no byte, a range that
/// ends at 2^64 or later, and a read or a write that 2^64 - 1 calls did not finish. After a failed sync nothing is
/// assumed of what was written.
///
/// It has a record of its calls. The record takes no memory, and only contracts see it. What `Disk` promises holds as
/// long as each recorded call answered what the model gives.
#[derive(Drop)]
pub struct FileDisk {
    calls: NotedFile,
    failures: u64,
}

impl FileDisk {
    ghost use Rattle.disk.specs.FileDisk.{IsFresh};

    /// A disk over a file, for each state that the file may be in, and all that failed writes may leave.
    pub fn new(file: LockedFile) -> FileDisk
        ghost start: { Start }
        ensures { IsFresh start result }
    {
        let LockedFile { file } = file;
        FileDisk {
            calls: NotedFile::new(file),
            failures: 0,
        }
    }
}

impl Cause for FileDisk {
    fn cause(&self) -> Option<io::Error> {
        self.calls.cause()
    }
}

/// A file that is open for reading and writing, and whose advisory lock is held.
#[derive(Drop)]
pub struct LockedFile {
    file: File,
}

impl LockedFile {
    /// Opens the file at a path, and makes an empty one where there is none. The file and its folder are synced, so
    /// that a new file survives a crash. The lock is held until the file is dropped. It keeps out other programs that
    /// ask for the lock, and other calls of this function, in this process too.
    pub fn open<R: Files<File = File>>(rt: &R, path: &str) -> Result<LockedFile, FileFault> {
        let file = open_file(rt, path)?;
        lock(&file)?;
        file.sync_all()?;
        File::open(rt, folder_of(path))?.sync_all()?;
        Ok(LockedFile { file })
    }
}

// Opens a file for reading and writing, and makes an empty one where there is none.
fn open_file<R: Files<File = File>>(rt: &R, path: &str) -> io::Result<File> {
    let file = OpenOptions::new()
        .read(true)
        .write(true)
        .create(true)
        .truncate(false)
        .open(rt, path)?;
    // What is meant for a closed standard stream must not land in the file.
    if file.as_raw_fd() <= 2 {
        return file.try_clone();
    }
    Ok(file)
}

// Locks a regular file that no other process and no other disk of this one has.
fn lock(file: &File) -> Result<(), FileFault> {
    if !file.metadata()?.is_file() {
        return Err(FileFault::NotAFile);
    }
    match file.try_lock() {
        Ok(()) => Ok(()),
        Err(TryLockError::WouldBlock) => Err(FileFault::InUse),
        Err(TryLockError::Error(error)) => Err(FileFault::Io(error)),
    }
}

// The folder of a path's last name.
fn folder_of(path: &str) -> &str {
    match Path::new(path).parent() {
        Some(parent) if !parent.as_str().is_empty() => parent.as_str(),
        _ => ".",
    }
}

impl Disk for FileDisk {
    ghost use Rattle.disk.specs.FileDisk.{FileFollows, calls_on, file_sight, file_counts_now, file_only_now, file_seen_may_stay};

    ghost follows = { FileFollows };

    ghost sight = { file_sight };

    ghost counts_now = { file_counts_now };

    ghost only_now = { file_only_now };

    ghost seen_may_stay = { file_seen_may_stay };

    fn read(&mut self, at: u64, buf: &mut [u8]) -> Result<usize, DeviceFault>
        ensures before { FileFollows self.new → FileFollows self.old }
        ensures bytes { IfOk result (λ n. FileFollows self.new
            → Reads (file_sight self.old).seen at n buf.old buf.new) }
        ensures looks { FileFollows self.new → Looks (file_sight self.old) (file_sight self.new) }
        ensures counts { Counts result (file_sight self.old).failures
            (file_sight self.new).failures }

        // It is some calls of the system. It fails where one of them failed, and where its end or their number would
        // pass 2^64 - 1.
        ensures calls { IsServedByCalls at (length buf.old) result
            (calls_on self.old) (calls_on self.new) }
    {
        if at > u64::MAX - buf.len() as u64 {
            return Err(failed(&mut self.failures));
        }
        let mut from = 0;
        for _ in 0..u64::MAX {
            if from == buf.len() {
                return Ok(from);
            }
            match self.calls.read_some(at + from as u64, &mut buf[from..]) {
                Ok(0) => return Ok(from),
                Ok(n) => from += n,
                Err(NoTransfer::Interrupted) => {}
                Err(NoTransfer::Failed) => return Err(failed(&mut self.failures)),
            }
        }
        Err(failed(&mut self.failures))
    }

    fn write_at(&mut self, at: u64, bytes: &[u8]) -> Result<(), DeviceFault>
        ensures before { FileFollows self.new → FileFollows self.old }
        ensures written { OnOk result (FileFollows self.new → at ≤ length (file_sight self.old).seen
            → Holds (file_sight self.old).seen at bytes.now (file_sight self.new).seen) }
        ensures writes { FileFollows self.new → at ≤ length (file_sight self.old).seen
            → Writes at (length bytes.now) (file_sight self.old) (file_sight self.new) }
        ensures counts { Counts result (file_sight self.old).failures
            (file_sight self.new).failures }

        // It is some calls of the system. It fails where one of them failed, and where its end or their number would
        // pass 2^64 - 1.
        ensures calls { IsServedByCalls at (length bytes.now) result
            (calls_on self.old) (calls_on self.new) }
    {
        if at > u64::MAX - bytes.len() as u64 {
            return Err(failed(&mut self.failures));
        }
        let mut from = 0;
        for _ in 0..u64::MAX {
            if from == bytes.len() {
                return Ok(());
            }
            match self.calls.write_some(at + from as u64, &bytes[from..]) {
                Ok(0) => return Err(failed(&mut self.failures)),
                Ok(n) => from += n,
                Err(NoTransfer::Interrupted) => {}
                Err(NoTransfer::Failed) => return Err(failed(&mut self.failures)),
            }
        }
        Err(failed(&mut self.failures))
    }

    fn sync(&mut self) -> Result<(), DeviceFault>
        ensures before { FileFollows self.new → FileFollows self.old }
        ensures synced { OnOk result (FileFollows self.new → IsSynced (file_sight self.new)) }
        ensures looks { FileFollows self.new → Looks (file_sight self.old) (file_sight self.new) }
        ensures counts { Counts result (file_sight self.old).failures
            (file_sight self.new).failures }

        // It is one call of the system, and answers as that call did.
        ensures ok { OnOk result (calls_on self.new ≡ Synced ∷ calls_on self.old) }
        ensures err { OnErr result (calls_on self.new ≡ Refused ∷ calls_on self.old) }
    {
        match self.calls.sync_once() {
            Ok(()) => Ok(()),
            Err(_) => Err(failed(&mut self.failures)),
        }
    }

    fn len(&mut self) -> Result<u64, DeviceFault>
        ensures before { FileFollows self.new → FileFollows self.old }
        ensures length { IfOk result (λ n. FileFollows self.new
            → n ≡ length (file_sight self.old).seen) }
        ensures looks { FileFollows self.new → Looks (file_sight self.old) (file_sight self.new) }
        ensures counts { Counts result (file_sight self.old).failures
            (file_sight self.new).failures }

        // It is one call of the system, and answers as that call did.
        ensures ok { IfOk result (λ n. calls_on self.new ≡ Measured n ∷ calls_on self.old) }
        ensures err { OnErr result (calls_on self.new ≡ Refused ∷ calls_on self.old) }
    {
        match self.calls.measure() {
            Ok(len) => Ok(len),
            Err(_) => Err(failed(&mut self.failures)),
        }
    }
}
