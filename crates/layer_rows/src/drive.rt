//! Calls on a disk.
use crate::bytes::{bytes_of, write_bytes};
use crate::numbers::number_of;
use anyhow::{Context, Result, bail};
use disk::{DeviceFault, Disk, FileDisk};
use memory_disk::MemDisk;
use rows::{Said, word_of};
use std::alloc::Global;

/// What the buffer of a read holds before it.
const UNREAD: u8 = 9;

/// A disk in memory or over a file.
#[derive(Drop)]
pub enum Drive {
    Memory(MemDisk),
    File(FileDisk),
}

impl Drive {
    /// Makes a call, and appends what is answered.
    pub fn take_word(
        &mut self,
        alloc: Global,
        word: &str,
        rest: &str,
        said: &mut Said,
    ) -> Result<()> {
        match self {
            Drive::Memory(disk) => take_memory_word(alloc, disk, word, rest, said),
            Drive::File(disk) => take_disk_word(alloc, disk, word, rest, said),
        }
    }
}

/// What is done with a disk in memory only, or with any disk.
pub fn take_memory_word(
    alloc: Global,
    disk: &mut MemDisk,
    word: &str,
    rest: &str,
    said: &mut Said,
) -> Result<()> {
    match word {
        "fail" => disk.fail_at(number_of(rest)?),
        "stop" => disk.stop_at(number_of(rest)?),
        "calls" => said.tell(format_args!("{}\n", disk.calls())),
        "images" => say_images(alloc, disk, rest, said)?,
        _ => take_disk_word(alloc, disk, word, rest, said)?,
    }
    Ok(())
}

fn take_disk_word<D: Disk>(
    alloc: Global,
    disk: &mut D,
    word: &str,
    rest: &str,
    said: &mut Said,
) -> Result<()> {
    match word {
        "write" => say_write(alloc, disk, rest, said),
        "read" => say_read(alloc, disk, rest, said),
        "is" => {
            say_whether(&read_all(alloc, disk)?, &bytes_of(alloc, rest)?, said);
            Ok(())
        }
        _ => take_lone_word(disk, word, said),
    }
}

fn take_lone_word<D: Disk>(disk: &mut D, word: &str, said: &mut Said) -> Result<()> {
    match word {
        "sync" => say_done(disk.sync(), said),
        "len" => match disk.len() {
            Ok(len) => said.tell(format_args!("{len}\n")),
            Err(fault) => say_fault(fault, said),
        },
        "six" => say_six(disk, said),
        _ => bail!("no such word"),
    }
    Ok(())
}

fn say_write<D: Disk>(alloc: Global, disk: &mut D, words: &str, said: &mut Said) -> Result<()> {
    let (at, bytes) = word_of(words);
    let at = number_of(at)?;
    let bytes = bytes_of(alloc, bytes)?;
    say_done(disk.write_at(at, &bytes), said);
    Ok(())
}

/// Whether the bytes are these, and if not what they are.
fn say_whether(found: &[u8], wanted: &[u8], said: &mut Said) {
    if found == wanted {
        said.tell(format_args!("the same {} bytes\n", found.len()));
    } else {
        write_bytes(found, said);
    }
}

fn say_done(answer: Result<(), DeviceFault>, said: &mut Said) {
    match answer {
        Ok(()) => said.put("ok\n"),
        Err(fault) => say_fault(fault, said),
    }
}

fn say_fault(fault: DeviceFault, said: &mut Said) {
    said.tell(format_args!("{fault}\n"));
}

/// `AT LENGTH`: how many bytes were read into a buffer of this length, and what it then holds.
fn say_read<D: Disk>(alloc: Global, disk: &mut D, words: &str, said: &mut Said) -> Result<()> {
    let (at, length) = word_of(words);
    let length = usize::try_from(number_of(length)?)?;
    let at = number_of(at)?;
    let mut buffer = vec![in alloc; UNREAD; length]?;
    match disk.read(at, &mut buffer) {
        Ok(count) => say_buffer(count, &buffer, said),
        Err(fault) => say_fault(fault, said),
    }
    Ok(())
}

fn say_buffer(count: usize, buffer: &[u8], said: &mut Said) {
    said.tell(format_args!("{count}: "));
    said.hex(buffer);
    said.put("\n");
}

/// Six calls, and for each whether it failed: a write, a sync, the length, a read, a write, a sync.
fn say_six<D: Disk>(disk: &mut D, said: &mut Said) {
    let mut buffer = [0];
    for (place, failed) in [
        disk.write_at(0, &[1]).is_err(),
        disk.sync().is_err(),
        disk.len().is_err(),
        disk.read(0, &mut buffer).is_err(),
        disk.write_at(0, &[2]).is_err(),
        disk.sync().is_err(),
    ]
    .iter()
    .enumerate()
    {
        said.put(if place == 0 { "" } else { " " });
        said.put(if *failed { "fails" } else { "ok" });
    }
    said.put("\n");
}

/// All bytes of a disk.
pub fn read_all<D: Disk>(alloc: Global, disk: &mut D) -> Result<Vec<u8>> {
    let length = usize::try_from(disk.len()?)?;
    let mut bytes = vec![in alloc; 0; length]?;
    let count = disk.read(0, &mut bytes)?;
    bytes.truncate(count);
    Ok(bytes)
}

/// `VALUES MAX` or `VALUES MAX FROM`: what a crash may leave, with unsynced bytes of these values. For each content it
/// says the bytes from that place on, where all bytes before it are as a read gives.
fn say_images(alloc: Global, disk: &mut MemDisk, words: &str, said: &mut Said) -> Result<()> {
    let (values, rest) = word_of(words);
    let (max, from) = word_of(rest);
    let max = usize::try_from(number_of(max)?)?;
    let values = bytes_of(alloc, values)?;
    match disk.images(alloc, &values, max) {
        Ok(found) => say_contents(&found, front_of(&read_all(alloc, disk)?, from)?, said),
        Err(fault) => said.tell(format_args!("{fault}\n")),
    }
    Ok(())
}

fn front_of<'a>(bytes: &'a [u8], count: &str) -> Result<&'a [u8]> {
    let count = match count {
        "" => 0,
        _ => usize::try_from(number_of(count)?)?,
    };
    bytes.get(..count).context("past the end")
}

/// Says of each content what follows this front.
fn say_contents(found: &[Vec<u8>], front: &[u8], said: &mut Said) {
    said.tell(format_args!("{} contents\n", found.len()));
    for content in found {
        match content.strip_prefix(front) {
            Some(left) => write_short(left, said),
            None => said.put("another front"),
        }
        said.put("\n");
    }
}

/// Digits of bytes: `-` where there are none, `COUNT*HEX` for a byte that is repeated.
fn write_short(bytes: &[u8], said: &mut Said) {
    match bytes.first() {
        None => said.put("-"),
        Some(first) if bytes.len() > 8 && bytes.iter().all(|byte| byte == first) => {
            said.tell(format_args!("{}*{first:02x}", bytes.len()));
        }
        Some(_) => said.hex(bytes),
    }
}
