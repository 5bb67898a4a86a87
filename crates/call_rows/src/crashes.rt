//! What a crash leaves of a shard, and what becomes of a call where a device fails.

use crate::alone::{Alone, open_alone, say_call, say_calls, say_group};
use crate::contents::{Contents, are_unavailable, hold_the_same, streams_found};
use crate::counted::Counted;
use crate::gathered::Gathered;
use crate::settings::CaseSettings;
use crate::slots::{FailureMode, calls_on, copy_of, fail_as_planned, slots_of};
use anyhow::{Result, bail};
use lone_shard::LoneShard;
use memory_disk::MemDisk;
use rows::Said;
use std::alloc::Global;
use wal::OpenFault;

/// More device calls than an opening with one call makes on a slot.
const CALLS: u64 = 20;

/// Calls that are made one after another, or as a group.
#[derive(Drop)]
pub struct Doing {
    calls: Gathered,
    is_group: bool,
    /// The reads that show the streams before and after.
    reads: Gathered,
}

impl Doing {
    /// These calls, one after another or as a group.
    ///
    /// # Errors
    /// Want of memory.
    pub fn of(alloc: Global, calls: Gathered, is_group: bool) -> Result<Doing> {
        let reads = calls.reads(alloc)?;
        Ok(Doing {
            calls,
            is_group,
            reads,
        })
    }

    /// Makes the calls, and says their answers, and for a group its turns. Gives the shard back.
    fn make(&self, alloc: Global, shard: Alone, said: &mut Said) -> Result<Alone> {
        if self.is_group {
            return say_group(alloc, shard, &self.calls, said);
        }
        let mut shard = shard;
        say_calls(&mut shard, alloc, &self.calls, said)?;
        said.put("\n");
        Ok(shard)
    }

    /// Says the answers to the same calls after these, to the reads, and to a trim.
    fn say_later(
        &self,
        alloc: Global,
        shard: &mut LoneShard<MemDisk>,
        later: &mut Said,
    ) -> Result<()> {
        say_calls(shard, alloc, &self.calls, later)?;
        later.put("\n");
        say_calls(shard, alloc, &self.reads, later)?;
        later.put("\n");
        say_call(shard, alloc, "trim 1 0", later)
    }
}

/// What a run of calls left.
#[derive(Drop)]
struct Ran {
    /// Why the opening was refused.
    fault: Option<OpenFault>,
    /// The answers, and those to later calls.
    said: String,
    later: String,
    slots: [MemDisk; 2],
    is_marked: bool,
}

/// Calls that are tried, and how a slot fails.
#[derive(Clone, Copy)]
pub struct Tries<'a> {
    pub alloc: Global,
    pub settings: CaseSettings,
    pub mode: FailureMode,
    pub doing: &'a Doing,
}

impl Tries<'_> {
    /// Makes the calls in these slots, and where it goes on, the same calls, their reads and a trim after them.
    fn run(self, slots: [MemDisk; 2], goes_on: bool) -> Result<Ran> {
        match open_alone(self.alloc, slots, self.settings)? {
            Ok(shard) => self.run_on(shard, goes_on),
            Err(refusal) => {
                let slots = refusal.1;
                Ok(Ran {
                    fault: Some(refusal.0),
                    said: String::new(self.alloc),
                    later: String::new(self.alloc),
                    slots,
                    is_marked: false,
                })
            }
        }
    }

    fn run_on(self, shard: Alone, goes_on: bool) -> Result<Ran> {
        let (mut said, mut later) = (Said::new(self.alloc), Said::new(self.alloc));
        let mut shard = self.doing.make(self.alloc, shard, &mut said)?;
        if goes_on {
            self.doing.say_later(self.alloc, &mut shard, &mut later)?;
        }
        let (said, later, is_marked) = (said.end()?, later.end()?, shard.is_marked());
        let slots = Box::into_inner(shard).into_slots();
        Ok(Ran {
            fault: None,
            said,
            later,
            slots,
            is_marked,
        })
    }

    /// Makes the calls in a copy of these slots, of which this one fails at its call with this number.
    fn run_failing(
        self,
        slots: &mut [MemDisk; 2],
        slot: usize,
        call: u64,
        goes_on: bool,
    ) -> Result<Ran> {
        let mut copy = copy_of(self.alloc, slots)?;
        if slot < 2 {
            fail_as_planned(&mut copy[slot], self.mode, call);
        }
        self.run(copy, goes_on)
    }

    /// Makes the calls on a copy of these slots, and says their answers. Gives the slots after them.
    fn say_made(self, slots: &mut [MemDisk; 2], said: &mut Said) -> Result<[MemDisk; 2]> {
        let ran = self.run(copy_of(self.alloc, slots)?, false)?;
        let Ran {
            fault,
            said: answers,
            later: _,
            slots,
            is_marked: _,
        } = ran;
        match fault {
            Some(fault) => Err(fault.into()),
            None => {
                said.put(answers.as_str());
                Ok(slots)
            }
        }
    }

    /// What the reads give of a copy of these slots.
    fn found_in_copy(self, slots: &mut [MemDisk; 2]) -> Result<String> {
        let copy = copy_of(self.alloc, slots)?;
        found_in(self.alloc, copy, self.settings, &self.doing.reads)
    }
}

/// What reads give of the only shard in these slots, or why the slots are refused.
fn found_in(
    alloc: Global,
    slots: [MemDisk; 2],
    settings: CaseSettings,
    reads: &Gathered,
) -> Result<String> {
    let mut found = Said::new(alloc);
    match open_alone(alloc, slots, settings)? {
        Ok(mut shard) => say_calls(&mut shard, alloc, reads, &mut found)?,
        Err(refusal) => found.tell(format_args!("{}", refusal.0)),
    }
    Ok(found.end()?)
}

/// What reads give of each pair of contents.
fn found_in_each(
    alloc: Global,
    contents: &Contents,
    settings: CaseSettings,
    reads: &Gathered,
) -> Result<Vec<String>> {
    let mut found = Vec::new(alloc);
    for first in contents.firsts.iter() {
        for second in contents.seconds.iter() {
            let slots = slots_of(alloc, first, second)?;
            found.push(found_in(alloc, slots, settings, reads)?)?;
        }
    }
    Ok(found)
}

/// Says what reads give of each pair of contents.
///
/// # Errors
/// Those of `open_alone` and of the reads.
pub fn say_contents(
    alloc: Global,
    contents: &Contents,
    settings: CaseSettings,
    reads: &Gathered,
    said: &mut Said,
) -> Result<()> {
    let mut all = Counted::new(alloc, "\n");
    for found in found_in_each(alloc, contents, settings, reads)? {
        all.add(found);
    }
    all.say(said);
    Ok(())
}

/// Calls that are tried on copies of slots.
#[derive(Drop)]
struct Trial<'a> {
    tries: Tries<'a>,
    /// What the reads give before the calls, and after them.
    before: String,
    after: String,
    /// How many contents of slots were opened.
    contents: u64,
}

impl Trial<'_> {
    /// What becomes of the calls in a copy of these slots, of which this one fails at its call with this number.
    fn attempt(
        &mut self,
        slots: &mut [MemDisk; 2],
        slot: usize,
        call: u64,
    ) -> Result<&'static str> {
        let mut ran = self.tries.run_failing(slots, slot, call, false)?;
        match ran.fault {
            Some(OpenFault::Device) => {
                let are_same = hold_the_same(self.tries.alloc, &mut ran.slots, slots)?;
                Ok(if are_same { "unopened" } else { "changed" })
            }
            Some(fault) => Err(fault.into()),
            None if ran.said.contains("Unavailable") => self.judge(&ran, slots, slot, call),
            None => Ok("answered"),
        }
    }

    /// What becomes of calls of which one is unavailable: which streams a crash may leave, if nothing goes on.
    fn judge(
        &mut self,
        ran: &Ran,
        slots: &mut [MemDisk; 2],
        slot: usize,
        call: u64,
    ) -> Result<&'static str> {
        if self.is_over(ran, slots, slot, call)? {
            self.left_in(&ran.slots)
        } else {
            Ok("goes on")
        }
    }

    /// Whether no change of these calls is answered, all calls after them in such slots are unavailable, the history
    /// has a mark, and the slots see no more than the calls that they have seen without them.
    fn is_over(&self, ran: &Ran, slots: &mut [MemDisk; 2], slot: usize, call: u64) -> Result<bool> {
        if ran.said.contains("Stored") || ran.said.contains("Trimmed") {
            return Ok(false);
        }
        let again = self.tries.run_failing(slots, slot, call, true)?;
        let is_over = again.is_marked && are_unavailable(again.later.as_str());
        Ok(is_over && calls_on(&again.slots) == calls_on(&ran.slots))
    }

    /// Which streams a crash may leave in these slots.
    fn left_in(&mut self, slots: &[MemDisk; 2]) -> Result<&'static str> {
        let tries = self.tries;
        let contents = Contents::of(tries.alloc, slots)?;
        let reads = &tries.doing.reads;
        let found = found_in_each(tries.alloc, &contents, tries.settings, reads)?;
        self.contents = self.contents.saturating_add(found.len() as u64);
        Ok(streams_found(&found, self.before.as_str(), self.after.as_str()))
    }

    /// What becomes of the calls where the first call on a slot fails, where the second does, and so on, until they are
    /// answered.
    fn attempt_each(&mut self, slots: &mut [MemDisk; 2], slot: usize) -> Result<Counted> {
        let mut all = Counted::new(self.tries.alloc, ", ");
        for call in 1..CALLS {
            let tried = self.attempt(slots, slot, call)?;
            all.add(tried.to_string(self.tries.alloc)?);
            if tried == "answered" {
                return Ok(all);
            }
        }
        bail!("the call is never answered");
    }
}

/// Tries calls on copies of these slots, of which one fails. Says their answers, and for each slot what becomes of
/// them; the slots are then as after the calls. Gives how many contents were opened.
///
/// # Errors
/// Slots that are refused where none fails, calls that are never answered, those of `open_alone` and of the calls.
pub fn say_trials(tries: Tries<'_>, slots: &mut [MemDisk; 2], said: &mut Said) -> Result<u64> {
    let before = tries.found_in_copy(slots)?;
    let mut next = tries.say_made(slots, said)?;
    let after = tries.found_in_copy(&mut next)?;
    let mut trial = Trial {
        tries,
        before,
        after,
        contents: 0,
    };
    for slot in 0..2 {
        said.tell(format_args!("slot {slot}: "));
        trial.attempt_each(slots, slot)?.say(said);
    }
    *slots = next;
    Ok(trial.contents)
}
