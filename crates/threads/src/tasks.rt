//! What a thread does with its pass.
ghost use Rattle.std.specs.Prelude.{◌<◌, All, IfSome};
ghost use Rattle.accept.specs.Calls.{AreNumbers};
ghost use Rattle.ingester.specs.Calls.{IsPassOf};

use crate::context::{Pushes, Task, ThreadContext};
use accept::{Call, CallFault, Entry, EntryList, Line, Meta, Outcome, Reply};
use ingester::Pass;
use labels::{LabelSet, StreamKey, Tenant};
use pairs::LabelPairs;
use std::alloc::Global;
use std::collections::VecDeque;
use std::sync::Wait;
use std::thread;
use std::time::{Clock, Duration};

/// What the clock says: two hours.
const NOW: u64 = 7_200_000_000_000;

/// The key of `{a=VALUE}` for the tenant `t`.
fn key(alloc: Global, value: &str) -> Option<StreamKey> {
    let mut pairs = Vec::new(alloc);
    pairs
        .push(("a".to_string(alloc).ok()?, value.to_string(alloc).ok()?))
        .ok()?;
    Some(StreamKey {
        tenant: Tenant::new(alloc, "t").ok()?,
        labels: LabelSet::new(alloc, LabelPairs::new(pairs)).ok()?,
    })
}

/// A push of one entry.
fn push_of(alloc: Global, value: &str, time: u64) -> Option<Call> {
    let line = Line::new(value.to_string(alloc).ok()?);
    let mut entries = Vec::new(alloc);
    let meta = Meta::none();
    entries.push(Entry { time, line, meta }).ok()?;
    Some(Call::Push {
        key: key(alloc, value)?,
        now: NOW,
        entries: EntryList::new(entries),
    })
}

/// What comes of a call, if it has lawful numbers.
fn outcome_of<R: Wait>(
    context: &ThreadContext<R>,
    pass: &mut Pass,
    call: Call,
) -> Option<Result<Reply, CallFault>>
    requires { IsPassOf context.now.ingester.now pass.old }
    ensures { IsPassOf context.now.ingester.now pass.new }
{
    if !call.has_lawful_numbers() {
        return None;
    }
    Some(context.ingester.call(context.rt, context.alloc, pass, call))
}

/// What comes of a push of one entry.
fn push<R: Wait>(
    context: &ThreadContext<R>,
    pass: &mut Pass,
    value: &str,
    time: u64,
) -> Option<Result<Reply, CallFault>>
    requires { IsPassOf context.now.ingester.now pass.old }
    ensures { IsPassOf context.now.ingester.now pass.new }
{
    outcome_of(context, pass, push_of(context.alloc, value, time)?)
}

/// Whether a push of one entry was stored.
fn is_stored(came: &Result<Reply, CallFault>) -> bool {
    match came {
        Ok(Reply::Verdict(outcomes)) => outcomes.as_slice() == [Outcome::Stored].as_slice(),
        _ => false,
    }
}

/// Makes these pushes: whether each is stored.
fn push_all<R: Wait>(context: &ThreadContext<R>, pass: &mut Pass, pushes: Pushes) -> bool
    requires { IsPassOf context.now.ingester.now pass.old }
    ensures { IsPassOf context.now.ingester.now pass.new }
{
    let Pushes(value, first, count) = pushes;
    let mut stored = true;
    for k in 0..count {
        let came = push(context, pass, value, first.wrapping_add(k));
        stored &= came.is_some_and(|came| is_stored(&came));
    }
    stored
}

/// Two pushes.
fn two_pushes(alloc: Global, one: Pushes, two: Pushes) -> Option<VecDeque<Call>>
    ensures { IfSome result (λ calls. All AreNumbers calls.items) }
{
    let first = push_of(alloc, one.0, one.1)?;
    let second = push_of(alloc, two.0, two.1)?;
    if !first.has_lawful_numbers() || !second.has_lawful_numbers() {
        return None;
    }
    let mut calls = VecDeque::new(alloc);
    calls.push_back(first).ok()?;
    calls.push_back(second).ok()?;
    Some(calls)
}

/// Makes two pushes together: whether both are stored.
fn push_both<R: Wait>(context: &ThreadContext<R>, pass: &mut Pass, one: Pushes, two: Pushes) -> bool
    requires { IsPassOf context.now.ingester.now pass.old }
    ensures { IsPassOf context.now.ingester.now pass.new }
{
    let Some(mut calls) = two_pushes(context.alloc, one, two) else {
        return false;
    };
    let Ok(mut outcomes) = VecDeque::with_capacity(context.alloc, calls.len()) else {
        return false;
    };
    if calls.len() != 2 {
        return false;
    }
    context
        .ingester
        .call_all(context.rt, context.alloc, pass, &mut calls, &mut outcomes);
    outcomes.len() == 2 && outcomes.iter().all(|came| is_stored(came))
}

/// Reads all times of the stream of these pushes: whether these are its entries.
fn read<R: Wait>(context: &ThreadContext<R>, pass: &mut Pass, pushes: Pushes) -> bool
    requires { IsPassOf context.now.ingester.now pass.old }
    ensures { IsPassOf context.now.ingester.now pass.new }
{
    let Some(key) = key(context.alloc, pushes.0) else {
        return false;
    };
    let read = Call::Read {
        key,
        from: 0,
        to: 1 << 63,
    };
    match outcome_of(context, pass, read) {
        Some(Ok(Reply::Entries(entries))) => are_of(entries.as_slice(), pushes),
        _ => false,
    }
}

/// Whether these are the entries of these pushes.
fn are_of(entries: &[Entry], pushes: Pushes) -> bool {
    let Pushes(value, first, count) = pushes;
    let times = first..first.saturating_add(count);
    entries.len() as u64 == count
        && entries.iter().zip(times).all(|(entry, time)| entry.time == time
            && entry.line.as_str() == value)
}

/// How many steps a shard has, as the pass sees it now.
fn look<R>(context: &ThreadContext<R>, pass: &mut Pass, shard: u32) -> Option<u64>
    requires { IsPassOf context.now.ingester.now pass.old }
    ensures { IsPassOf context.now.ingester.now pass.new }
{
    if shard < context.ingester.shards() {
        Some(context.ingester.look(pass, shard))
    } else {
        None
    }
}

/// Looks at a shard until there is a step, for at most two seconds: whether there is one.
fn see<R: Wait + Clock>(context: &ThreadContext<R>, pass: &mut Pass, shard: u32) -> bool
    requires { IsPassOf context.now.ingester.now pass.old }
    ensures { IsPassOf context.now.ingester.now pass.new }
{
    let mut steps = Some(0);
    for _ in 0..200 {
        if steps != Some(0) {
            break;
        }
        thread::sleep(context.rt, Duration::from_millis(10));
        steps = look(context, pass, shard);
    }
    matches!(steps, Some(1..))
}

/// Makes the first of these pushes twice: whether the first is in doubt, and the second finds the pass closed.
fn doubt<R: Wait>(context: &ThreadContext<R>, pass: &mut Pass, pushes: Pushes) -> bool
    requires { IsPassOf context.now.ingester.now pass.old }
    ensures { IsPassOf context.now.ingester.now pass.new }
{
    let first = push(context, pass, pushes.0, pushes.1);
    let second = push(context, pass, pushes.0, pushes.1);
    matches!(first, Some(Err(CallFault::InDoubt)))
        && matches!(second, Some(Err(CallFault::PassClosed)))
}

/// Does a task: whether all is right.
fn do_task<R: Wait + Clock>(context: &ThreadContext<R>, pass: &mut Pass, task: Task) -> bool
    requires { IsPassOf context.now.ingester.now pass.old }
    ensures { IsPassOf context.now.ingester.now pass.new }
{
    match task {
        Task::Push(pushes) => push_all(context, pass, pushes),
        Task::PushBoth(one, two) => push_both(context, pass, one, two),
        Task::Read(pushes) => read(context, pass, pushes),
        Task::Look(shard, steps) => look(context, pass, shard) == Some(steps),
        Task::See(shard) => see(context, pass, shard),
        Task::Doubt(pushes) => doubt(context, pass, pushes),
        Task::EndOwners => {
            context.ingester.end_owners(context.rt, pass);
            true
        }
        other => {
            wait_or_open(context, other);
            true
        }
    }
}

/// Does a task that needs no pass.
fn wait_or_open<R: Wait + Clock>(context: &ThreadContext<R>, task: Task) {
    match task {
        Task::Open => context.gate.open(),
        Task::Gather => drop(context.all.wait(context.rt)),
        Task::Rest(times) => {
            let time = context.time.saturating_mul(times);
            thread::sleep(context.rt, Duration::from_millis(time));
        }
        _ => {}
    }
}

/// Does tasks one after another: whether all is right.
fn do_all<R: Wait + Clock>(context: &ThreadContext<R>, pass: &mut Pass, tasks: &[Task]) -> bool
    requires { IsPassOf context.now.ingester.now pass.old }
    ensures { IsPassOf context.now.ingester.now pass.new }
{
    let mut right = true;
    for task in tasks {
        right &= do_task(context, pass, *task);
    }
    right
}

/// Does all tasks of a pass: whether all is right.
pub(crate) fn play<R: Wait + Clock>(context: &ThreadContext<R>, mut pass: Pass) -> bool
    requires { IsPassOf context.now.ingester.now pass }
{
    match context.roles.get(pass.number()) {
        Some(tasks) => do_all(context, &mut pass, tasks),
        None => false,
    }
}
