//! Calls of an ingester, each kind between two lines, for whoever counts their requests for memory.
ghost use Rattle.std.specs.Prelude.{◌≡◌, ℕ, Some, slice_get, IfOk, OnOk};
ghost use Rattle.accept.specs.Calls.{AreNumbers};
ghost use Rattle.history.specs.Handles.{Passed};
ghost use Rattle.ingester.specs.Calls.{IsPassOf};

use accept::{Call, Limits, Outcome, Reply};
use anyhow::{Result, bail};
use call_rows::call_of;
use ingester::{Closed, Ingester, Pass, Settings};
use memory_disk::MemDisk;
use std::alloc::Global;
use std::sync::Wait;
use std::thread::Threads;
use wal::Capacity;

/// How many shards the ingester has.
const SHARDS: u32 = 2;

/// How many passes it has.
const PASSES: u32 = 2;

/// How many streams are pushed to: enough that each shard has some.
const STREAMS: u64 = 8;

/// How many bytes a slot has room for, more than are written, and how many calls.
const ROOM: (u64, u64) = (65_536, 256);

/// How often a pass looks, and how often two passes meet.
const TIMES: u32 = 10;

/// Makes calls of an ingester over empty slots, each kind between two lines, and closes it: pushes, which request memory,
/// and looks, meetings and the end, which don't.
///
/// # Errors
/// A failing output, or want of memory.
pub fn make_quiet_calls<R>(rt: &R) -> Result<()>
where
    R: Print + Threads + Wait + AllocGlobal + Copy + Send + Sync + 'static,
{
    let (ingester, mut passes) = open(rt, rt.alloc())?;
    let mut one = next(&ingester, &mut passes)?;
    let mut two = next(&ingester, &mut passes)?;
    push_look_meet(rt, &ingester, &mut one, &mut two)?;
    let passes = vec![in rt.alloc(); one]?;
    take(rt, &mut ingester.close(rt, passes))
}

/// An ingester over empty slots, and its passes.
fn open<R>(rt: &R, alloc: Global) -> Result<(Ingester<MemDisk>, Vec<Pass>)>
where
    R: Threads + Wait + Copy + Send + Sync + 'static,
    ensures { IfOk result (λ it. (p : ℕ) (pass : Passed) → slice_get it.1.items p ≡ Some pass
        → IsPassOf it.0 pass) }
{
    let slots = slots_of(alloc)?;
    let Some(capacity) = Capacity::new(ROOM.0) else {
        unreachable!()
    };
    if slots.is_empty() || slots.len() > 64 {
        bail!("there are 1 to 64 shards");
    }
    let settings = Settings {
        passes: PASSES,
        limits: Limits::PROFILE,
        capacity,
    };
    match Ingester::open(rt, *rt, alloc, slots, settings) {
        Ok(opened) => Ok(opened),
        Err(refusal) => Err(refusal.0.into()),
    }
}

fn slots_of(alloc: Global) -> Result<Vec<[MemDisk; 2]>> {
    let mut slots = Vec::new(alloc);
    for _ in 0..SHARDS {
        slots.push([slot(alloc)?, slot(alloc)?])?;
    }
    Ok(slots)
}

fn slot(alloc: Global) -> Result<MemDisk> {
    Ok(MemDisk::new(alloc, ROOM.0, ROOM.1, ROOM.0)?)
}

/// A push of a line to a stream.
fn push_of(alloc: Global, stream: u64, time: u64) -> Result<Call>
    ensures { IfOk result AreNumbers }
{
    let line = format!(in alloc; "push {stream} 20 {time}:x")?;
    call_of(alloc, line.as_str())
}

/// Makes a push: whether its line was stored.
fn make<R: Wait>(
    rt: &R,
    alloc: Global,
    ingester: &Ingester<MemDisk>,
    pass: &mut Pass,
    call: Call,
) -> bool
    requires pass { IsPassOf ingester.now pass.old }
    requires call { AreNumbers call }
    ensures { IsPassOf ingester.now pass.new }
{
    match ingester.call(rt, alloc, pass, call) {
        Ok(Reply::Verdict(outcomes)) => matches!(outcomes.as_slice(), [Outcome::Stored]),
        _ => false,
    }
}

fn next(ingester: &Ingester<MemDisk>, passes: &mut Vec<Pass>) -> Result<Pass>
    requires passes { (p : ℕ) (pass : Passed) → slice_get passes.old.items p ≡ Some pass
        → IsPassOf ingester.now pass }
    ensures pass { IfOk result (λ pass. IsPassOf ingester.now pass) }
    ensures passes { OnOk result ((p : ℕ) (pass : Passed) → slice_get passes.new.items p ≡ Some pass
        → IsPassOf ingester.now pass) }
{
    match passes.pop() {
        Some(pass) => Ok(pass),
        None => bail!("there is no pass"),
    }
}

/// One pass pushes, another looks, and they meet.
fn push_look_meet<R: Print + Wait + AllocGlobal>(
    rt: &R,
    ingester: &Ingester<MemDisk>,
    one: &mut Pass,
    two: &mut Pass,
) -> Result<()>
    requires one { IsPassOf ingester.now one.old }
    requires two { IsPassOf ingester.now two.old }
    ensures one { IsPassOf ingester.now one.new }
{
    if !push(rt, ingester, one)? {
        bail!("a line was not stored");
    }
    rt.println("look begins")?;
    let seen = look_often(ingester, two);
    rt.println("look ends")?;
    if seen == 0 {
        bail!("a look saw nothing");
    }
    rt.println("meet begins")?;
    meet_often(ingester, one, two);
    Ok(rt.println("meet ends")?)
}

/// Pushes to each stream, and then once more to the first one, which requests memory: whether all lines were stored.
fn push<R: Print + Wait + AllocGlobal>(
    rt: &R,
    ingester: &Ingester<MemDisk>,
    pass: &mut Pass,
) -> Result<bool>
    requires { IsPassOf ingester.now pass.old }
    ensures { IsPassOf ingester.now pass.new }
{
    let alloc = rt.alloc();
    let mut stored = true;
    for stream in 0..STREAMS {
        let call = push_of(alloc, stream, 10)?;
        stored &= make(rt, alloc, ingester, pass, call);
    }
    let call = push_of(alloc, 0, 11)?;
    rt.println("call begins")?;
    stored &= make(rt, alloc, ingester, pass, call);
    rt.println("call ends")?;
    Ok(stored)
}

/// Looks at each shard in turn: the shortest history that was seen.
fn look_often(ingester: &Ingester<MemDisk>, pass: &mut Pass) -> u64
    requires { IsPassOf ingester.now pass.old }
    ensures { IsPassOf ingester.now pass.new }
{
    let mut least = u64::MAX;
    for turn in 0..TIMES {
        let shard = turn % SHARDS;
        if shard < ingester.shards() {
            least = least.min(ingester.look(pass, shard));
        }
    }
    least
}

fn meet_often(ingester: &Ingester<MemDisk>, one: &mut Pass, two: &mut Pass)
    requires one { IsPassOf ingester.now one.old }
    requires two { IsPassOf ingester.now two.old }
    ensures one { IsPassOf ingester.now one.new }
    ensures two { IsPassOf ingester.now two.new }
{
    for _ in 0..TIMES {
        ingester.meet(one, two);
    }
}

fn take<R: Print>(rt: &R, closed: &mut Closed<MemDisk>) -> Result<()> {
    rt.println("take begins")?;
    let taken = take_all(closed);
    rt.println("take ends")?;
    if taken != SHARDS {
        bail!("a shard is lost");
    }
    Ok(())
}

/// Takes shards until none is left: how many there were.
fn take_all(closed: &mut Closed<MemDisk>) -> u32 {
    let mut taken: u32 = 0;
    while let Some(slots) = closed.take() {
        drop(slots);
        taken = taken.saturating_add(1);
    }
    taken
}
