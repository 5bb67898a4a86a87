//! The slots of the shards of a row, while nothing is opened over them.

use crate::calls::number_of;
use crate::counted::Counted;
use crate::left::{FinalState, state_of};
use crate::pieces::{bytes_in_pieces, say_from};
use crate::slots::{
    FailureMode, bytes_of, calls_on, fail_as_planned, slot_of, slots_of, write_through,
};
use anyhow::{Result, bail};
use memory_disk::MemDisk;
use rows::Said;
use std::alloc::Global;
use std::mem;

/// The slots of each shard, and how many writes and syncs had been made on them before they were taken out.
#[derive(Drop)]
pub struct Shards {
    alloc: Global,
    /// The slots of each shard, shard 0 first.
    pub slots: Vec<[MemDisk; 2]>,
    before: Vec<(u64, u64)>,
}

impl Shards {
    /// Empty slots of this many shards.
    ///
    /// # Errors
    /// Want of memory.
    pub fn new(alloc: Global, count: u64) -> Result<Shards> {
        let mut slots = Vec::new(alloc);
        for _ in 0..count {
            slots.push(slots_of(alloc, &[], &[])?)?;
        }
        Ok(Shards {
            alloc,
            slots,
            before: Vec::new(alloc),
        })
    }

    /// Takes a word on a slot: `slot SHARD SLOT TEXT`, `write SHARD SLOT AT TEXT`, `fail SHARD SLOT N`,
    /// `stop SHARD SLOT N` or `bytes SHARD SLOT FROM`.
    ///
    /// # Errors
    /// No such slot, no number where one must be, a slot that fails, or want of memory.
    pub fn take_line(&mut self, word: &str, text: &str, said: &mut Said) -> Result<()> {
        let alloc = self.alloc;
        let (shard, text) = number_of(text)?;
        let (slot, text) = number_of(text)?;
        let Some(slots) = self.slots.get_mut(shard as usize) else {
            bail!("no such shard, or it is open");
        };
        let Some(slot) = slots.get_mut(slot as usize) else {
            bail!("a shard has slot 0 and slot 1");
        };
        take_slot(alloc, slot, word, text, said)
    }

    /// Takes out the slots of all shards.
    ///
    /// # Errors
    /// Want of memory.
    pub fn take_all(&mut self) -> Result<Vec<[MemDisk; 2]>> {
        self.note_calls()?;
        let none = Vec::new(self.alloc);
        Ok(mem::replace(&mut self.slots, none))
    }

    /// Takes out the slots of the only shard.
    ///
    /// # Errors
    /// There is not one shard alone, or want of memory.
    pub fn take_only(&mut self) -> Result<[MemDisk; 2]> {
        self.note_calls()?;
        match (self.slots.pop(), self.slots.pop()) {
            (Some(slots), None) => Ok(slots),
            _ => bail!("there is not one shard alone"),
        }
    }

    fn note_calls(&mut self) -> Result<()> {
        self.before.clear();
        for slots in self.slots.iter() {
            self.before.push(calls_on(slots))?;
        }
        Ok(())
    }

    /// Puts back the slots of all shards, which all work from now on, and says the state of each shard. What became of
    /// a shard is not given where it was not opened.
    ///
    /// # Errors
    /// More than 64 shards, or want of memory.
    pub fn put_back(
        &mut self,
        slots: Vec<[MemDisk; 2]>,
        ended: &[FinalState],
        said: &mut Said,
    ) -> Result<()> {
        let count = u32::try_from(slots.len())?;
        self.slots = slots;
        let mut states = Counted::new(self.alloc, "\n");
        for shard in 0..count {
            let ended = ended.get(shard as usize).copied();
            states.add(self.state(shard, count, ended)?);
        }
        states.say(said);
        Ok(())
    }

    fn state(&mut self, shard: u32, count: u32, ended: Option<FinalState>) -> Result<String> {
        let (alloc, at) = (self.alloc, shard as usize);
        let before = self.before.get(at).copied().unwrap_or((0, 0));
        let Some(slots) = self.slots.get_mut(at) else {
            bail!("no such shard");
        };
        slots[0].fail_at(0);
        slots[1].fail_at(0);
        state_of(alloc, slots, (shard, count), ended, before)
    }
}

fn take_slot(
    alloc: Global,
    slot: &mut MemDisk,
    word: &str,
    text: &str,
    said: &mut Said,
) -> Result<()> {
    if word == "slot" {
        *slot = slot_of(alloc, &bytes_in_pieces(alloc, text)?)?;
        return Ok(());
    }
    let (number, text) = number_of(text)?;
    match word {
        "write" => write_through(slot, number, &bytes_in_pieces(alloc, text)?)?,
        "fail" => fail_as_planned(slot, FailureMode::Fails, number),
        "stop" => fail_as_planned(slot, FailureMode::Stops, number),
        _ => say_from(number, &bytes_of(alloc, slot)?, said),
    }
    Ok(())
}
