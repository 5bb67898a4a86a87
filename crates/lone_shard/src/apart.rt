//! Calls that are made as a group, each by a pass of its own.
ghost use Rattle.std.specs.Prelude.{◌≡◌, ◌≤◌, IfOk, All};
ghost use Rattle.lone_shard.specs.Passes.{IsIdlePass, IsSameBook};
ghost use Rattle.shard.specs.Turns.{AreReady};

use crate::grouped::{Grouped, TurnReport};
use crate::lone::{LoneShard, opened};
use accept::{Call, Limits};
use anyhow::{Result, bail};
use disk::Disk;
use history::Pass;
use shard::{Job, Settled, Shard};
use std::alloc::Global;
use std::collections::VecDeque;
use wal::{Capacity, OpenFault};

/// The most calls of such a group: there are at most 64 passes, and the shard keeps one.
const MOST_APART: usize = 63;

impl Grouped {
    fn of_settled(alloc: Global, settled: Vec<Settled>, turns: Vec<TurnReport>) -> Result<Grouped> {
        let mut answers = Vec::with_capacity(alloc, settled.len())?;
        for it in settled {
            answers.push(match it {
                Settled::Answered(reply, _) => Ok(reply),
                Settled::GivenBack(fault, _) => Err(fault),
            })?;
        }
        Ok(Grouped { answers, turns })
    }
}

/// Makes the jobs by turns, until none is left.
fn take_turns<D: Disk>(alloc: Global, shard: &mut Shard<D>, jobs: VecDeque<Job>) -> Result<Grouped>
    requires { AreReady shard.old.book jobs.items }
    ensures { IsSameBook shard.old.book shard.new.book }
{
    let mut jobs = jobs;
    let count = jobs.len();
    let mut settled = Vec::with_capacity(alloc, count)?;
    let mut turns = Vec::new(alloc);
    for _ in 0..count {
        if jobs.is_empty() {
            break;
        }
        let before = settled.len();
        let ended = shard.apply_group(alloc, &mut jobs, &mut settled);
        let calls = settled.len().saturating_sub(before);
        turns.push(TurnReport { calls, ended })?;
    }
    Grouped::of_settled(alloc, settled, turns)
}

impl<D: Disk + Drop> LoneShard<D> {
    /// Announces each call by the last of the passes that is left.
    fn announce_each(
        &self,
        alloc: Global,
        passes: Vec<Pass>,
        calls: &mut VecDeque<Call>,
    ) -> Result<VecDeque<Job>>
        requires { All (IsIdlePass self.now.history) passes.items }
        ensures { IfOk result (λ jobs. AreReady self.now.shard.book jobs.items) }
    {
        let mut passes = passes;
        let mut jobs = VecDeque::new(alloc);
        while let Some(call) = calls.pop_front() {
            let Some(mut pass) = passes.pop() else {
                bail!("there is no pass for the call");
            };
            if !call.has_lawful_numbers() {
                bail!("the call may not be announced");
            }
            let ticket = self.history.announce(&mut pass, &call)?;
            jobs.push_back(Job { ticket, call })?;
        }
        Ok(jobs)
    }

    /// Opens the shard as `open` does, and makes these calls as a group, each by a pass of its own. Turns are taken
    /// until none is left. Those passes make no other call.
    ///
    /// # Errors
    /// Limits that aren't lawful, more than 63 calls, a number that no call may have, or want of memory.
    pub fn open_apart(
        alloc: Global,
        slots: [D; 2],
        limits: Limits,
        capacity: Capacity,
        calls: &mut VecDeque<Call>,
    ) -> Result<Result<(LoneShard<D>, Grouped), (OpenFault, [D; 2])>> {
        if calls.len() > MOST_APART {
            bail!("such a group has at most 63 calls");
        }
        let passes = (calls.len() as u32).wrapping_add(1);
        let (mut lone, others) = match opened(alloc, slots, limits, capacity, passes)? {
            Ok(opened) => opened,
            Err(refusal) => return Ok(Err(refusal)),
        };
        let jobs = lone.announce_each(alloc, others, calls)?;
        let grouped = take_turns(alloc, &mut lone.shard, jobs)?;
        Ok(Ok((lone, grouped)))
    }
}
