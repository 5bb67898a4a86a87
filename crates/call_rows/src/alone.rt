//! A shard alone over its slots, and its answers as text.

use crate::calls::call_of;
use crate::counted::Counted;
use crate::gathered::Gathered;
use crate::replies::write_outcome;
use crate::settings::CaseSettings;
use accept::Call;
use anyhow::Result;
use lone_shard::{Grouped, LoneShard, TurnReport};
use memory_disk::MemDisk;
use rows::Said;
use shard::GroupEnd;
use std::alloc::Global;
use std::collections::VecDeque;
use wal::OpenFault;

/// The shard.
pub type Alone = Box<LoneShard<MemDisk>>;

/// The shard that was opened, or why it was refused, and its slots.
pub type OpenResult = Result<Alone, (OpenFault, [MemDisk; 2])>;

/// Opens the shard in these slots.
///
/// # Errors
/// Limits that aren't lawful, a capacity of more than 2^30 bytes, or want of memory.
pub fn open_alone(
    alloc: Global,
    slots: [MemDisk; 2],
    settings: CaseSettings,
) -> Result<OpenResult> {
    let capacity = settings.lawful_capacity()?;
    match LoneShard::open(alloc, slots, settings.limits, capacity)? {
        Ok(shard) => Ok(Ok(Box::new(alloc, shard)?)),
        Err(refusal) => Ok(Err(refusal)),
    }
}

/// The shard with a group of calls that it has made, or why it was refused, and its slots.
pub type Apart = Result<(Alone, Grouped), (OpenFault, [MemDisk; 2])>;

/// Opens the shard in these slots, and makes the calls as a group, each by a pass of its own.
///
/// # Errors
/// Those of `open_alone`, more than 63 calls, a line that is no call, or a number that no call may have.
pub fn open_apart(
    alloc: Global,
    slots: [MemDisk; 2],
    settings: CaseSettings,
    calls: &Gathered,
) -> Result<Apart> {
    let mut calls = calls.calls(alloc)?;
    let capacity = settings.lawful_capacity()?;
    match LoneShard::open_apart(alloc, slots, settings.limits, capacity, &mut calls)? {
        Ok((shard, grouped)) => Ok(Ok((Box::new(alloc, shard)?, grouped))),
        Err(refusal) => Ok(Err(refusal)),
    }
}

/// `look`: says how long the history is, and whether it has a failure mark. Any other line is a call, whose answer it
/// says.
///
/// # Errors
/// A line that is no call, a number that no call may have, or want of memory.
pub fn say_line(
    shard: &mut LoneShard<MemDisk>,
    alloc: Global,
    line: &str,
    said: &mut Said,
) -> Result<()> {
    if !line.starts_with("look") {
        say_call(shard, alloc, line, said)?;
        said.put("\n");
        return Ok(());
    }
    let steps = shard.steps();
    let mark = if shard.is_marked() { " marked" } else { "" };
    said.tell(format_args!("steps {steps}{mark}\n"));
    Ok(())
}

/// Makes the call of a line, and says its answer, or why it was refused.
pub fn say_call(
    shard: &mut LoneShard<MemDisk>,
    alloc: Global,
    line: &str,
    into: &mut Said,
) -> Result<()> {
    let call = call_of(alloc, line)?;
    write_outcome(&shard.call(alloc, &call), into);
    Ok(())
}

/// Makes the calls one after another, and says their answers, with a line feed between them.
pub fn say_calls(
    shard: &mut LoneShard<MemDisk>,
    alloc: Global,
    calls: &Gathered,
    into: &mut Said,
) -> Result<()> {
    for (index, line) in calls.lines.iter().enumerate() {
        into.put(if index > 0 { "\n" } else { "" });
        say_call(shard, alloc, line.as_str(), into)?;
    }
    Ok(())
}

/// Makes the calls as a group, and says their answers and the turns, a line each. Gives the shard back.
///
/// # Errors
/// A line that is no call, a number that no call may have, or want of memory. The shard is then lost.
pub fn say_group(alloc: Global, shard: Alone, calls: &Gathered, said: &mut Said) -> Result<Alone> {
    let mut jobs = calls.calls(alloc)?;
    let (shard, grouped) = group(alloc, shard, &mut jobs)?;
    say_grouped(alloc, &grouped, said)?;
    Ok(shard)
}

fn group(alloc: Global, shard: Alone, jobs: &mut VecDeque<Call>) -> Result<(Alone, Grouped)> {
    let (shard, grouped) = Box::into_inner(shard).group(alloc, jobs)?;
    Ok((Box::new(alloc, shard)?, grouped))
}

/// Says the answers of a group and its turns, a line each.
///
/// # Errors
/// Want of memory.
pub fn say_grouped(alloc: Global, grouped: &Grouped, said: &mut Said) -> Result<()> {
    let mut lines = Counted::new(alloc, "\n");
    for answer in grouped.answers.iter() {
        let mut text = Said::new(alloc);
        write_outcome(answer, &mut text);
        lines.add(text.end()?);
    }
    for turn in grouped.turns.iter() {
        lines.add(text_of_turn(alloc, turn)?);
    }
    lines.say(said);
    Ok(())
}

fn text_of_turn(alloc: Global, turn: &TurnReport) -> Result<String> {
    let TurnReport { calls, ended } = turn;
    let why = match ended {
        GroupEnd::Most => "most",
        GroupEnd::Last => "last",
        GroupEnd::Full => "full",
        GroupEnd::Memory => "memory",
    };
    let plural = if *calls == 1 { "" } else { "s" };
    Ok(format!(in alloc; "turn of {calls} call{plural}: {why}")?)
}
