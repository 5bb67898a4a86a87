//! Disks with a gate for their syncs, and disks that move from thread to thread.
use disk::{DeviceFault, Disk, FileDisk, LockedFile};
use memory_disk::{Gate, GateDisk, MemDisk};
use std::alloc::Global;
use std::fs::{self, File, Files};
use std::test::*;
use std::thread::{self, Threads};

/// A call on a disk, and what it must give.
#[derive(Clone, Copy)]
enum ExpectedCall {
    Len(u64),
    Write(u64, &'static [u8]),
    Sync,
    /// Reads from a place: how many bytes are read, and what the four bytes of the buffer then are.
    Read(u64, usize, [u8; 4]),
    /// Reads from a place, and must fail or read nothing.
    ReadNothing(u64),
}

/// What every disk does, from empty on.
const STEPS: [ExpectedCall; 15] = [
    ExpectedCall::Len(0),
    ExpectedCall::Read(0, 0, [9; 4]),
    ExpectedCall::Write(0, b"hello"),
    ExpectedCall::Write(5, b", disk"),
    ExpectedCall::Write(0, b"H"),
    ExpectedCall::Write(11, b""),
    ExpectedCall::Sync,
    ExpectedCall::Len(11),
    ExpectedCall::Read(0, 4, *b"Hell"),
    ExpectedCall::Read(9, 2, *b"skll"),
    ExpectedCall::Read(11, 0, *b"skll"),
    ExpectedCall::ReadNothing(u64::MAX - 8),
    ExpectedCall::Write(10, b"cs"),
    ExpectedCall::Len(12),
    ExpectedCall::Read(8, 4, *b"iscs"),
];

fn empty(alloc: Global, gate: &Gate) -> Result<GateDisk<MemDisk>, Fail> {
    let disk = MemDisk::new(alloc, 256, 16, 256)?;
    Ok(GateDisk::new(disk, gate.try_clone()?))
}

// Makes a call, and says whether it gives what it must.
fn is_given<D: Disk>(
    disk: &mut D,
    buf: &mut [u8; 4],
    step: ExpectedCall,
) -> Result<bool, DeviceFault> {
    match step {
        ExpectedCall::Len(wanted) => Ok(disk.len()? == wanted),
        ExpectedCall::Write(at, bytes) => disk.write_at(at, bytes).map(|()| true),
        ExpectedCall::Sync => disk.sync().map(|()| true),
        ExpectedCall::Read(at, count, wanted) => {
            let found = disk.read(at, buf)?;
            Ok(found == count && *buf == wanted)
        }
        ExpectedCall::ReadNothing(at) => Ok(disk.read(at, buf).unwrap_or(0) == 0),
    }
}

// Makes all calls on an empty disk, and says whether each gives what it must.
fn are_given<D: Disk>(disk: &mut D) -> Result<bool, DeviceFault> {
    let mut buf = [9; 4];
    let mut right = true;
    for step in STEPS {
        right &= is_given(disk, &mut buf, step)?;
    }
    Ok(right)
}

// What a crash may leave of the first byte.
fn images_of(alloc: Global, disk: GateDisk<MemDisk>) -> Result<Vec<Vec<u8>>, Fail> {
    Ok(disk.into_inner().images(alloc, &[0], 10)?)
}

fn are(found: &[Vec<u8>], wanted: &[&[u8]]) -> bool {
    found.len() == wanted.len()
        && found
            .iter()
            .zip(wanted)
            .all(|(bytes, it)| bytes.as_slice() == *it)
}

// A sync waits until another thread opens the gate: what a crash may then leave.
fn images_behind_opened<R: Threads>(rt: &R, alloc: Global) -> Result<Vec<Vec<u8>>, Fail> {
    let gate = Gate::new(alloc)?;
    let mut disk = empty(alloc, &gate)?;
    disk.write_at(0, &[1])?;
    disk.sync()?;
    gate.close();
    let opener = thread::spawn(rt, move || gate.open())?;
    disk.write_at(0, &[2])?;
    disk.sync()?;
    opener.join(rt);
    images_of(alloc, disk)
}

// A sync fails whose gate stays closed: what a crash may then leave.
fn images_behind_closed(alloc: Global) -> Result<Vec<Vec<u8>>, Fail> {
    let gate = Gate::new(alloc)?;
    let mut disk = empty(alloc, &gate)?;
    disk.write_at(0, &[2])?;
    gate.close();
    match disk.sync() {
        Err(DeviceFault) => images_of(alloc, disk),
        Ok(()) => Err("a sync did not wait for its gate".into()),
    }
}

fn moves_between_threads<D: Disk + Send>(_disk: &D) {}

// That disks move between threads shows when this is proved.
fn move_disks<R: Files<File = File> + AllocGlobal>(rt: &R, alloc: Global) -> Result<(), Fail> {
    moves_between_threads(&empty(alloc, &Gate::new(alloc)?)?);
    let folder = "disk_test_moves";
    let _ = fs::remove_dir_all(rt, folder);
    fs::create_dir(rt, folder)?;
    let disk = FileDisk::new(LockedFile::open(rt, "disk_test_moves/slot")?);
    moves_between_threads(&disk);
    drop(disk);
    fs::remove_dir_all(rt, folder)?;
    Ok(())
}

#[test]
fn gates_hold_syncs(rt: HostRuntime) -> Result<(), Fail> {
    let alloc = rt.alloc();
    let gate = Gate::new(alloc)?;
    assert!(rt; are_given(&mut empty(alloc, &gate)?)?, "an open gate");
    let opened = images_behind_opened(&rt, alloc)?;
    assert!(rt; are(&opened, &[&[2]]), "a gate that is opened");
    let closed = images_behind_closed(alloc)?;
    assert!(rt; are(&closed, &[&[], &[0]]), "a gate that stays closed");
    move_disks(&rt, alloc)
}
