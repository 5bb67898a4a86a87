//! Calls that are made as a group.

use crate::busy_shard::{BusyShard, MOST};
use crate::lone::LoneShard;
use accept::{Call, Reply};
use anyhow::Result;
use disk::Disk;
use shard::{ApplyFault, GroupEnd};
use std::alloc::Global;
use std::collections::VecDeque;

/// A turn: how many calls it made, and why it ended.
#[derive(Clone, Copy)]
pub struct TurnReport {
    /// How many calls were made, or came back.
    pub calls: usize,
    /// Why the turn ended.
    pub ended: GroupEnd,
}

/// What became of a group of calls.
#[derive(Drop)]
pub struct Grouped {
    /// The reply of each call in order, or why it has no step.
    pub answers: Vec<Result<Reply, ApplyFault>>,
    /// The turns in order.
    pub turns: Vec<TurnReport>,
}

impl Grouped {
    fn new(alloc: Global) -> Grouped {
        Grouped {
            answers: Vec::new(alloc),
            turns: Vec::new(alloc),
        }
    }

    fn take_turn<D: Disk + Drop>(
        &mut self,
        alloc: Global,
        busy_shard: &mut BusyShard<D>,
    ) -> Result<()> {
        let before = self.answers.len();
        let ended = busy_shard.turn(alloc)?;
        for _ in 0..MOST {
            let Some(answer) = busy_shard.take_in() else {
                break;
            };
            self.answers.push(answer)?;
        }
        let calls = self.answers.len().saturating_sub(before);
        self.turns.push(TurnReport { calls, ended })?;
        Ok(())
    }

    fn take_turns<D: Disk + Drop>(
        &mut self,
        alloc: Global,
        busy_shard: &mut BusyShard<D>,
        calls: &mut VecDeque<Call>,
    ) -> Result<()> {
        for _ in 0..calls.len() {
            busy_shard.announce_all(calls, MOST)?;
            if busy_shard.is_empty() {
                return Ok(());
            }
            self.take_turn(alloc, busy_shard)?;
        }
        Ok(())
    }
}

impl<D: Disk + Drop> LoneShard<D> {
    /// Makes the calls as a group. All are jobs of the one pass, in their order, as many as may be open at a time.
    /// Turns are taken until none is left.
    ///
    /// # Errors
    /// A number that no call may have, a closed pass, or want of memory for the group itself.
    pub fn group(
        self,
        alloc: Global,
        calls: &mut VecDeque<Call>,
    ) -> Result<(LoneShard<D>, Grouped)> {
        let mut grouped = Grouped::new(alloc);
        let mut busy_shard = BusyShard::of(alloc, self)?;
        grouped.take_turns(alloc, &mut busy_shard, calls)?;
        Ok((busy_shard.end()?, grouped))
    }
}
