//! All shards of an ingester, and its passes.
ghost use Rattle.std.specs.Prelude.{◌≡◌, ℕ, Some, slice_get};
ghost use Rattle.std.specs.Coded.{codes};
ghost use Rattle.accept.specs.contracts.image.Image as image;
ghost use Rattle.history.specs.Handles.{Passed};
ghost use Rattle.ingester.specs.Calls.{IsPassOf};

use accept::{CallFault, Reply};
use anyhow::{Result, bail};
use call_rows::{CaseSettings, Counted, FinalState, Gathered, call_of, number_of, write_told};
use ingester::{Closed, Ingester, OpenFault, Pass};
use memory_disk::MemDisk;
use rows::{Said, word_of};
use std::alloc::Global;
use std::collections::VecDeque;
use std::mem;
use std::sync::Wait;
use std::thread::Threads;

/// An ingester, the pass that makes the calls, and all other passes.
#[derive(Drop)]
pub struct Together {
    ingester: Ingester<MemDisk>,
    pass: Pass,
    others: Vec<Pass>,
    count: u32,
    ghost of_pass: { IsPassOf ingester pass } by { Prim.hlevel (codes, image.the_row.coded) },
    ghost of_others: { (p : ℕ) (other : Passed) → slice_get others.items p ≡ Some other
        → IsPassOf ingester other } by { Prim.hlevel (codes, image.the_row.coded) },
    ghost shards: { ingester.about.shards ≡ count },
}

/// The slots of each shard.
pub type AllSlots = Vec<[MemDisk; 2]>;

impl Together {
    /// Opens a shard over each pair of slots. A refusal says why, and gives the slots back in their order.
    ///
    /// # Errors
    /// Settings or a number of shards out of bounds, or want of memory.
    pub fn open<R>(
        rt: &R,
        alloc: Global,
        slots: AllSlots,
        settings: CaseSettings,
    ) -> Result<Result<Together, (OpenFault, AllSlots)>>
    where
        R: Threads + Wait + Copy + Send + Sync + 'static,
    {
        let CaseSettings { limits, passes, .. } = settings;
        if slots.is_empty() || slots.len() > 64 || passes == 0 || passes > 64 {
            bail!("there are 1 to 64 shards and passes");
        }
        if !limits.are_lawful() {
            bail!("a limit is out of its bounds");
        }
        let capacity = settings.lawful_capacity()?;
        let count = slots.len() as u32;
        let settings = ingester::Settings {
            passes,
            limits,
            capacity,
        };
        match Ingester::open(rt, *rt, alloc, slots, settings) {
            Ok((ingester, mut others)) => {
                let Some(pass) = others.pop() else {
                    bail!("there is no pass");
                };
                Ok(Ok(Together {
                    ingester,
                    pass,
                    others,
                    count,
                }))
            }
            Err(refusal) => Ok(Err(refusal)),
        }
    }

    /// Does what a line asks for: a call; `each` and a call, which each pass makes in its turn; `look [SHARD]`; `turn`,
    /// so that the next pass makes the calls; `end_owners`.
    pub fn take_line<R: Wait>(
        &mut self,
        rt: &R,
        alloc: Global,
        line: &str,
        said: &mut Said,
    ) -> Result<()> {
        let (word, rest) = word_of(line);
        match word {
            "each" => self.call_each(rt, alloc, rest, said),
            "look" => self.say_steps(rest, said),
            "turn" => self.turn(),
            "end_owners" => {
                self.ingester.end_owners(rt, &mut self.pass);
                Ok(())
            }
            _ => {
                self.call(rt, alloc, line, said)?;
                said.put("\n");
                Ok(())
            }
        }
    }

    /// Makes the call of a line, and says its answer, or why it was refused.
    fn call<R: Wait>(&mut self, rt: &R, alloc: Global, line: &str, into: &mut Said) -> Result<()> {
        let call = call_of(alloc, line)?;
        write_told(&self.ingester.call(rt, alloc, &mut self.pass, call), into);
        Ok(())
    }

    /// Makes the call of a line with each pass in turn, and says their answers.
    fn call_each<R: Wait>(
        &mut self,
        rt: &R,
        alloc: Global,
        line: &str,
        said: &mut Said,
    ) -> Result<()> {
        let mut answers = Counted::new(alloc, "\n");
        for _ in 0..self.others.len().saturating_add(1) {
            let mut answer = Said::new(alloc);
            self.call(rt, alloc, line, &mut answer)?;
            answers.add(answer.end()?);
            self.turn()?;
        }
        answers.say(said);
        Ok(())
    }

    /// Makes calls of the pass together, at most 64, and says what came of each, in their order.
    pub fn call_all<R: Wait>(
        &mut self,
        rt: &R,
        alloc: Global,
        calls: &Gathered,
        said: &mut Said,
    ) -> Result<()> {
        let mut calls = calls.calls(alloc)?;
        if calls.len() > 64 {
            bail!("a pass makes at most 64 calls together");
        }
        let mut outcomes = VecDeque::with_capacity(alloc, calls.len())?;
        self.ingester
            .call_all(rt, alloc, &mut self.pass, &mut calls, &mut outcomes);
        say_outcomes(alloc, &outcomes, said)
    }

    /// Lets the next pass make the calls, each in its turn.
    fn turn(&mut self) -> Result<()> {
        if let Some(next) = self.others.pop() {
            let last = mem::replace(&mut self.pass, next);
            self.others.insert(0, last)?;
        }
        Ok(())
    }

    /// `[SHARD]`: says how long its history is, as the pass sees it now.
    fn say_steps(&mut self, text: &str, said: &mut Said) -> Result<()> {
        let (shard, _) = number_of(if text.is_empty() { "0" } else { text })?;
        let steps = self.steps(u32::try_from(shard)?)?;
        said.tell(format_args!("steps {steps}\n"));
        Ok(())
    }

    /// How long the history of a shard is, as the pass sees it now.
    fn steps(&mut self, shard: u32) -> Result<u64> {
        if shard >= self.count {
            bail!("no such shard");
        }
        Ok(self.ingester.look(&mut self.pass, shard))
    }

    /// The slots of each shard, shard 0 first, and what became of it.
    pub fn close<R: Wait>(self, rt: &R, alloc: Global) -> Result<(AllSlots, Vec<FinalState>)> {
        let mut open = self;
        let steps = open.all_steps(alloc)?;
        take_apart(alloc, open.end(rt)?, &steps)
    }

    fn all_steps(&mut self, alloc: Global) -> Result<Vec<u64>> {
        let mut all = Vec::new(alloc);
        for shard in 0..self.count {
            all.push(self.steps(shard)?)?;
        }
        Ok(all)
    }

    fn end<R: Wait>(self, rt: &R) -> Result<Closed<MemDisk>> {
        let Together {
            ingester,
            pass,
            mut others,
            count: _,
        } = self;
        others.push(pass)?;
        Ok(ingester.close(rt, others))
    }
}

/// Says what came of calls, in their order.
fn say_outcomes(
    alloc: Global,
    outcomes: &VecDeque<Result<Reply, CallFault>>,
    said: &mut Said,
) -> Result<()> {
    let mut answers = Counted::new(alloc, "\n");
    for outcome in outcomes.iter() {
        let mut answer = Said::new(alloc);
        write_told(outcome, &mut answer);
        answers.add(answer.end()?);
    }
    answers.say(said);
    Ok(())
}

/// The slots of each shard, and what became of it, with these numbers of steps.
fn take_apart(
    alloc: Global,
    closed: Closed<MemDisk>,
    steps: &[u64],
) -> Result<(AllSlots, Vec<FinalState>)> {
    let mut closed = closed;
    let (mut slots, mut ended) = (Vec::new(alloc), Vec::new(alloc));
    for steps in steps.iter().rev() {
        let Some(shard) = closed.take() else {
            bail!("a shard is lost");
        };
        ended.push(FinalState {
            steps: *steps,
            is_marked: shard.1,
        })?;
        slots.push(shard.0)?;
    }
    slots.reverse();
    ended.reverse();
    Ok((slots, ended))
}
