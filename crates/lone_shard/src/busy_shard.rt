//! Calls of the pass on their way: announced, made by turns, and collected.

ghost use Rattle.std.specs.Prelude.{◌≡◌, ◌≤◌, ◌+◌, ◌↔◌, IsTrue, IsOk, IsErr, IfOk, OnOk, OnErr};
ghost use Rattle.history.specs.Histories.{max_open};

use crate::lone::LoneShard;
use accept::{Call, Reply};
use anyhow::{Result, bail};
use disk::Disk;
use history::{History, Pass};
use shard::{ApplyFault, GroupEnd, Job, Settled, Shard};
use std::alloc::Global;
use std::collections::VecDeque;
use std::marker::Model;

/// How many open calls a pass may have.
pub const MOST: usize = Pass::MAX_OPEN;

/// The shard while calls of its pass are open. An announced call is a job, a turn makes it a settled call, and then its
/// answer is collected. Contracts see how many of the calls are jobs.
#[derive(Drop)]
pub struct BusyShard<D: Disk> {
    history: History,
    shard: Shard<D>,
    pass: Pass,
    jobs: VecDeque<Job>,
    settled: VecDeque<Settled>,
}

impl<D: Disk> Model for BusyShard<D> {
    ghost use Rattle.std.specs.Prelude.{ℕ, length};
    ghost use Rattle.lone_shard.specs.Rounds.{IsOpenRound};

    ghost Value = { ℕ };

    ghost view = { λ r. length r.jobs.items };

    ghost invariant = { λ r. IsOpenRound r.history r.shard.book r.pass r.jobs.items
        r.settled.items };
}

impl<D: Disk + Drop> BusyShard<D> {
    /// Begins without a call.
    ///
    /// # Errors
    /// Want of memory. The shard is then lost.
    pub fn of(alloc: Global, lone: LoneShard<D>) -> Result<BusyShard<D>>
        ensures { IfOk result (λ busy_shard. busy_shard ≡ 0) }
    {
        let jobs = VecDeque::with_capacity(alloc, MOST)?;
        let settled = VecDeque::new(alloc);
        let LoneShard {
            history,
            shard,
            pass,
        } = lone;
        Ok(BusyShard {
            history,
            shard,
            pass,
            jobs,
            settled,
        })
    }

    /// Whether no call is a job.
    pub fn is_empty(&self) -> bool
        ensures { IsTrue result ↔ (self.now ≡ 0) }
    {
        self.jobs.is_empty()
    }

    /// Announces a call, as the last of the jobs.
    ///
    /// # Errors
    /// There are 64 jobs, a settled call is not collected yet, a number that no call may have, or a closed pass.
    pub fn announce(&mut self, call: Call) -> Result<()>
        ensures ok { OnOk result (self.new ≡ self.old + 1) }
        ensures err { OnErr result (self.new ≡ self.old) }
        ensures full { max_open ≤ self.old → IsErr result }
    {
        let jobs = self.jobs.len();
        if jobs >= MOST || jobs >= self.jobs.capacity() {
            bail!("too many calls are open");
        }
        if !self.settled.is_empty() || !call.has_lawful_numbers() {
            bail!("the call may not be announced");
        }
        let ticket = self.history.announce(&mut self.pass, &call)?;
        self.jobs.push_back_reserved(Job { ticket, call });
        Ok(())
    }

    /// Announces the first of these calls, until there are this many jobs, or 64.
    ///
    /// # Errors
    /// Those of `announce`. The call is then lost.
    pub fn announce_all(&mut self, calls: &mut VecDeque<Call>, most: usize) -> Result<()> {
        for _ in self.jobs.len()..most.min(MOST) {
            let Some(call) = calls.pop_front() else {
                return Ok(());
            };
            self.announce(call)?;
        }
        Ok(())
    }

    /// Makes the first of the jobs, by a turn of the shard, and says why it ends.
    ///
    /// # Errors
    /// There is no job, a settled call is not collected yet, or want of memory. Nothing has then changed.
    pub fn turn(&mut self, alloc: Global) -> Result<GroupEnd> {
        if self.jobs.is_empty() || !self.settled.is_empty() {
            bail!("there is no call, or an answer that was not taken in");
        }
        let mut settled = Vec::with_capacity(alloc, self.jobs.len())?;
        let ended = self.shard.apply_group(alloc, &mut self.jobs, &mut settled);
        self.settled = VecDeque::from(settled);
        Ok(ended)
    }

    /// Collects the first settled call: its reply, or why it has no step.
    pub fn take_in(&mut self) -> Option<Result<Reply, ApplyFault>>
        ensures { self.new ≡ self.old }
    {
        let Some(settled) = self.settled.pop_front() else {
            return None;
        };
        match settled {
            Settled::Answered(reply, receipt) => {
                self.history.collect(&mut self.pass, receipt);
                Some(Ok(reply))
            }
            Settled::GivenBack(fault, ticket) => {
                self.history.withdraw(&mut self.pass, ticket);
                Some(Err(fault))
            }
        }
    }

    /// The shard again, once all calls are collected.
    ///
    /// # Errors
    /// A call is open. The shard is then lost.
    pub fn end(self) -> Result<LoneShard<D>>
        ensures { IsOk result → self ≡ 0 }
    {
        if !self.jobs.is_empty() || !self.settled.is_empty() {
            bail!("a call is open");
        }
        let BusyShard {
            history,
            shard,
            pass,
            jobs: _,
            settled: _,
        } = self;
        Ok(LoneShard {
            history,
            shard,
            pass,
        })
    }
}
