//! Shards over empty slots in memory, and the one pass that makes calls on them.
ghost use Rattle.std.specs.Prelude.{◌≡◌};
ghost use Rattle.std.specs.Coded.{codes};
ghost use Rattle.accept.specs.contracts.image.Image as image;
ghost use Rattle.ingester.specs.Calls.{IsPassOf};

use accept::Limits;
use anyhow::{Result, bail};
use connection_rows::{Came, CasePlan, ConnectionCase, Manner, Sink, Ticking};
use front::serve;
use ingester::{Ingester, Pass, Settings};
use memory_disk::MemDisk;
use std::alloc::{AllocError, Global};
use std::sync::Wait;
use std::thread::Threads;
use wal::Capacity;

/// The bytes for which the slots of a shard have room together. Their records have room for twice as many.
const ROOM: u64 = 1 << 22;

/// The writes and syncs that a slot has room for.
const CALLS: u64 = 1_000;

/// An ingester and its one pass.
#[derive(Drop)]
pub struct OnePassIngester {
    ingester: Ingester<MemDisk>,
    pass: Pass,
    count: u32,
    ghost of_pass: { IsPassOf ingester pass } by { Prim.hlevel (codes, image.the_row.coded) },
    ghost shards: { ingester.about.shards ≡ count },
}

/// An empty slot whose calls fail from this one on: none fails at 0.
fn slot(alloc: Global, room: u64, stops: u64) -> Result<MemDisk, AllocError> {
    let mut disk = MemDisk::new(alloc, room, CALLS, room.saturating_mul(2))?;
    if stops > 0 {
        disk.stop_at(stops);
    }
    Ok(disk)
}

/// Empty slots of `shards` shards. Slot 1 of the first fails from this device call on: never at 0.
fn slots_of(alloc: Global, shards: u32, stops: u64) -> Result<Vec<[MemDisk; 2]>> {
    let room = ROOM / 2 / u64::from(shards.max(1));
    let mut slots = Vec::new(alloc);
    for shard in 0..shards {
        let stops = if shard == 0 { stops } else { 0 };
        slots.push([slot(alloc, room, 0)?, slot(alloc, room, stops)?])?;
    }
    Ok(slots)
}

/// The capacity of a plan, at most 2^30 bytes.
fn capacity_of(plan: &CasePlan) -> Result<Capacity> {
    let Some(capacity) = Capacity::new(plan.capacity.min(Capacity::MAX_BYTES)) else {
        bail!("a capacity is at most 2^30");
    };
    Ok(capacity)
}

impl OnePassIngester {
    /// Opens the shards, slots and capacity of a plan.
    ///
    /// # Errors
    /// Fewer than 1 or more than 64 shards; want of memory; a thread that could not be started.
    pub fn open<R>(rt: &R, alloc: Global, plan: &CasePlan) -> Result<OnePassIngester>
    where
        R: Threads + Wait + Copy + Send + Sync + 'static,
    {
        let slots = slots_of(alloc, plan.shards, plan.stops)?;
        if slots.is_empty() || slots.len() > 64 {
            bail!("there are 1 to 64 shards");
        }
        let count = slots.len() as u32;
        let settings = Settings {
            passes: 1,
            limits: Limits::PROFILE,
            capacity: capacity_of(plan)?,
        };
        match Ingester::open(rt, *rt, alloc, slots, settings) {
            Ok((ingester, mut passes)) => {
                let Some(pass) = passes.pop() else {
                    bail!("there is no pass");
                };
                Ok(OnePassIngester {
                    ingester,
                    pass,
                    count,
                })
            }
            Err(refusal) => Err(refusal.0.into()),
        }
    }

    /// How many steps all shards have.
    pub fn steps(&mut self) -> u64 {
        let mut steps: u64 = 0;
        for shard in 0..self.count {
            steps = steps.saturating_add(self.ingester.look(&mut self.pass, shard));
        }
        steps
    }

    /// Ends the owner of each shard.
    pub fn end_owners<R: Wait>(&mut self, rt: &R) {
        self.ingester.end_owners(rt, &mut self.pass);
    }

    /// Serves a connection whose bytes come in this manner.
    pub fn run_visit<R: Wait>(
        &mut self,
        rt: &R,
        alloc: Global,
        visit: &ConnectionCase,
        manner: Manner,
    ) -> Came {
        let before = self.steps();
        let mut clock = Ticking::of(visit);
        let mut source = visit.connection.source(manner);
        let mut sink = Sink::new(alloc, manner);
        let (ingester, pass) = (&self.ingester, &mut self.pass);
        let end = serve(
            rt,
            alloc,
            ingester,
            pass,
            &mut clock,
            &mut source,
            &mut sink,
        );
        let count = self.steps();
        Came {
            sink,
            end,
            count,
            gained: count.saturating_sub(before),
            counted: "steps",
        }
    }

    /// Ends the threads of the shards.
    ///
    /// # Errors
    /// Want of memory.
    pub fn close<R: Wait>(self, rt: &R, alloc: Global) -> Result<()> {
        let OnePassIngester {
            ingester,
            pass,
            count: _,
        } = self;
        let mut passes = Vec::new(alloc);
        passes.push(pass)?;
        drop(ingester.close(rt, passes));
        Ok(())
    }
}
