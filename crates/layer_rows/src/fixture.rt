use crate::bytes::bytes_of;
use crate::crash::say_crash;
use crate::drive::{Drive, take_memory_word};
use crate::numbers::number_of;
use crate::records::{say_streams, written_anew};
use crate::slots::{SlotPair, open, synced};
use anyhow::{Context, Result, bail};
use disk::{DeviceFault, FileDisk, FileFault, LockedFile};
use memory_disk::{ImagesFault, MemDisk};
use rows::{Said, word_of};
use std::alloc::Global;
use std::fmt::Display;
use std::fs::{self, File};
use std::rt::Files;
use wal::{OpenFault, Wal, WalFault};

/// What a row has so far: a disk; or two slots of a log; or the log over them.
#[derive(Drop)]
pub struct Fixture {
    drive: Option<Drive>,
    slots: Option<SlotPair>,
    log: Option<Wal<MemDisk>>,
}

impl Fixture {
    pub fn new() -> Fixture {
        Fixture {
            drive: None,
            slots: None,
            log: None,
        }
    }

    /// Does what a line says, and appends what is answered.
    pub fn take_line<R: Files<File = File> + AllocGlobal>(
        &mut self,
        rt: &R,
        line: &str,
        said: &mut Said,
    ) -> Result<()> {
        let (word, rest) = word_of(line);
        match word {
            "memory" => self.drive = Some(Drive::Memory(memory_of(rt.alloc(), rest)?)),
            "file" => self.open_file(rt, rest, said),
            "drop" => self.drive = None,
            "folder" => {
                let _ = fs::remove_dir_all(rt, rest);
                fs::create_dir(rt, rest)?;
            }
            "remove" => fs::remove_dir_all(rt, rest)?,
            "faults" => say_faults(said),
            _ => self.take_log_word(rt.alloc(), word, rest, said)?,
        }
        Ok(())
    }

    /// Keeps the disk over a file where the file can be opened, otherwise what was kept.
    fn open_file<R: Files<File = File>>(&mut self, rt: &R, path: &str, said: &mut Said) {
        match LockedFile::open(rt, path) {
            Ok(file) => {
                self.drive = Some(Drive::File(FileDisk::new(file)));
                said.put("open\n");
            }
            Err(FileFault::Io(_)) => said.put("refused by the system\n"),
            Err(fault) => say_fault(fault, said),
        }
    }

    fn take_log_word(
        &mut self,
        alloc: Global,
        word: &str,
        rest: &str,
        said: &mut Said,
    ) -> Result<()> {
        match word {
            "slot" => self.fill(alloc, rest),
            "on" => self.take_slot_word(alloc, rest, said),
            "open" => self.open(alloc, rest, said),
            "close" => self.close(),
            "crash" => self.crash(alloc, rest, said),
            "append" => self.append(&bytes_of(alloc, rest)?, said),
            "roll" => self.roll(&bytes_of(alloc, rest)?, said),
            "fits" | "log" => self.look(word, rest, said),
            "records" => self.write_records(alloc, &bytes_of(alloc, rest)?, said),
            "streams" => say_streams(alloc, &bytes_of(alloc, rest)?, said),
            _ => match &mut self.drive {
                Some(drive) => drive.take_word(alloc, word, rest, said),
                None => bail!("no such word, or no disk"),
            },
        }
    }

    /// The slots of a log that is not open: two disks on which nothing was ever written, where none were made.
    fn closed(&mut self, alloc: Global) -> Result<&mut SlotPair> {
        if self.log.is_some() {
            bail!("the log is open");
        }
        if self.slots.is_none() {
            self.slots = Some(SlotPair::empty(alloc)?);
        }
        self.slots.as_mut().context("no slots")
    }

    /// `SLOT BYTES`: another disk for this slot, on which these bytes are synced.
    fn fill(&mut self, alloc: Global, words: &str) -> Result<()> {
        let (slot, bytes) = word_of(words);
        let bytes = bytes_of(alloc, bytes)?;
        self.closed(alloc)?.put(slot, synced(alloc, &bytes)?)
    }

    /// `SLOT WORDS`: what is done with one slot.
    fn take_slot_word(&mut self, alloc: Global, words: &str, said: &mut Said) -> Result<()> {
        let (slot, words) = word_of(words);
        let (word, rest) = word_of(words);
        let slots = self.closed(alloc)?;
        take_memory_word(alloc, slots.at(slot)?, word, rest, said)
    }

    fn open(&mut self, alloc: Global, words: &str, said: &mut Said) -> Result<()> {
        self.closed(alloc)?;
        let Some(slots) = self.slots.take() else {
            bail!("no slots");
        };
        match open(alloc, slots, words, said)? {
            Ok(log) => self.log = Some(log),
            Err(slots) => self.slots = Some(slots),
        }
        Ok(())
    }

    fn close(&mut self) -> Result<()> {
        match self.log.take() {
            Some(log) => self.slots = Some(SlotPair::of(log.into_slots())),
            None => bail!("no log"),
        }
        Ok(())
    }

    fn crash(&mut self, alloc: Global, words: &str, said: &mut Said) -> Result<()> {
        say_crash(alloc, self.closed(alloc)?, words, said)
    }

    fn append(&mut self, frame: &[u8], said: &mut Said) -> Result<()> {
        let Some(log) = &mut self.log else {
            bail!("no log")
        };
        if log.fits(frame.len() as u64) {
            say_call(log.append(frame), said);
        } else {
            said.put("does not fit\n");
        }
        Ok(())
    }

    fn roll(&mut self, segment: &[u8], said: &mut Said) -> Result<()> {
        let Some(log) = &mut self.log else {
            bail!("no log")
        };
        if segment.len() as u64 >= log.capacity() {
            said.put("above the capacity\n");
        } else {
            say_call(log.roll(segment), said);
        }
        Ok(())
    }

    /// Keeps a disk with one block of the records in a slot of these bytes, where they are a segment.
    fn write_records(&mut self, alloc: Global, slot: &[u8], said: &mut Said) -> Result<()> {
        if let Some(block) = written_anew(alloc, slot, said)? {
            self.drive = Some(Drive::Memory(synced(alloc, &block)?));
        }
        Ok(())
    }

    /// Answers whether this many bytes fit, or which log it is.
    fn look(&self, word: &str, rest: &str, said: &mut Said) -> Result<()> {
        let Some(log) = &self.log else {
            bail!("no log")
        };
        if word == "fits" {
            let fits = log.fits(number_of(rest)?);
            said.put(if fits { "yes\n" } else { "no\n" });
        } else {
            say_log(log, said);
        }
        Ok(())
    }
}

fn say_log(log: &Wal<MemDisk>, said: &mut Said) {
    let (generation, shard) = (log.generation(), log.shard());
    said.tell(format_args!("generation {generation} shard {shard}"));
    let (count, capacity) = (log.count(), log.capacity());
    said.tell(format_args!(" of {count} capacity {capacity}\n"));
}

/// `ROOM CALLS WRITTEN`: an empty disk with this room.
fn memory_of(alloc: Global, words: &str) -> Result<MemDisk> {
    let (room, rest) = word_of(words);
    let (calls, written) = word_of(rest);
    Ok(MemDisk::new(
        alloc,
        number_of(room)?,
        number_of(calls)?,
        number_of(written)?,
    )?)
}

fn say_call(answer: Result<(), WalFault>, said: &mut Said) {
    match answer {
        Ok(()) => said.put("ok\n"),
        Err(fault) => say_fault(fault, said),
    }
}

fn say_fault<F: Display + Drop>(fault: F, said: &mut Said) {
    said.tell(format_args!("{fault}\n"));
}

/// The text of each fault.
fn say_faults(said: &mut Said) {
    say_fault(DeviceFault, said);
    for fault in [ImagesFault::TooMany, ImagesFault::Memory] {
        say_fault(fault, said);
    }
    for fault in [FileFault::InUse, FileFault::NotAFile] {
        say_fault(fault, said);
    }
    for fault in [
        OpenFault::Device,
        OpenFault::Damaged {
            slot: 1,
            offset: 79,
        },
        OpenFault::OtherShard { slot: 0 },
        OpenFault::OtherCount { slot: 1 },
        OpenFault::Memory,
        OpenFault::UnknownVersion { slot: 0 },
    ] {
        say_fault(fault, said);
    }
    for fault in [WalFault::Device, WalFault::GenerationSpent] {
        say_fault(fault, said);
    }
}
