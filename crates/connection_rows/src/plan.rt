//! What a row asks for.

use crate::connection::ConnectionInput;
use crate::each::Each;
use crate::script::Told;
use anyhow::{Result, anyhow};
use rows::word_of;
use std::alloc::Global;
use std::mem;

/// The bytes that a segment may have where a row does not say.
const WIDE: u64 = 1 << 21;

/// The time where a row does not say.
const TIME: u64 = 20;

/// One connection.
#[derive(Drop)]
pub struct ConnectionCase {
    /// What the clock tells to its first request.
    pub time: u64,
    /// How much later each further request comes.
    pub tick: u64,
    /// What comes of it.
    pub connection: ConnectionInput,
    /// The places at which it is run again.
    pub each: Option<Each>,
    /// Whether the owners of the shards end before it.
    pub ends_owners: bool,
    /// What comes of its first calls, where a list makes them. Later ones are stored.
    pub list: Vec<Told>,
    /// What comes of one call and all later ones. The connection is served again for each of its calls.
    pub at_each: Option<Told>,
}

impl ConnectionCase {
    fn new(alloc: Global, time: u64) -> ConnectionCase {
        ConnectionCase {
            time,
            tick: 0,
            connection: ConnectionInput::new(alloc),
            each: None,
            ends_owners: false,
            list: Vec::new(alloc),
            at_each: None,
        }
    }

    /// Whether a list makes its calls, and not the shards.
    pub fn is_listed(&self) -> bool {
        !self.list.is_empty() || self.at_each.is_some()
    }

    fn take_line(&mut self, line: &str) -> Result<()> {
        match word_of(line) {
            ("time", time) => self.time = time.parse::<u64>()?,
            ("tick", tick) => self.tick = tick.parse::<u64>()?,
            ("each", name) => self.each = Some(Each::find(name)?),
            ("end_owners", _) => self.ends_owners = true,
            ("comes", names) => self.take_list(names)?,
            ("at_each", name) => self.at_each = Some(Told::find(name)?),
            _ => self.connection.take_line(line)?,
        }
        Ok(())
    }

    fn take_list(&mut self, names: &str) -> Result<()> {
        for name in names.split(' ') {
            self.list.push(Told::find(name)?)?;
        }
        Ok(())
    }
}

/// What a row asks for: connections, and shards over empty slots for their calls.
#[derive(Drop)]
pub struct CasePlan {
    alloc: Global,
    /// Whether it says that no connection without a list makes a call.
    is_alone: bool,
    /// Whether its connections are visited together.
    pub is_together: bool,
    /// How many bytes a segment may have. More than 2^30 count as 2^30.
    pub capacity: u64,
    /// How many shards there are.
    pub shards: u32,
    /// The device call of slot 1 of the first shard from which on all fail, or 0.
    pub stops: u64,
    /// The connections before the last one.
    pub visits: Vec<ConnectionCase>,
    /// The last one.
    pub last: ConnectionCase,
}

impl CasePlan {
    /// Reads the lines of a row.
    ///
    /// # Errors
    /// A line that no row has; want of memory.
    pub fn read(alloc: Global, lines: &[&str]) -> Result<CasePlan> {
        let mut plan = CasePlan {
            alloc,
            is_alone: false,
            is_together: false,
            capacity: WIDE,
            shards: 1,
            stops: 0,
            visits: Vec::new(alloc),
            last: ConnectionCase::new(alloc, TIME),
        };
        for line in lines {
            plan.take_line(line)
                .map_err(|error| anyhow!("{line}: {error}"))?;
        }
        Ok(plan)
    }

    /// Whether shards make calls of its connections.
    pub fn has_shards(&self) -> bool {
        if self.is_alone {
            return false;
        }
        !self.last.is_listed() || self.visits.iter().any(|visit| !visit.is_listed())
    }

    fn take_line(&mut self, line: &str) -> Result<()> {
        match word_of(line) {
            ("alone", _) => self.is_alone = true,
            ("together", _) => self.is_together = true,
            ("capacity", bytes) => self.capacity = bytes.parse::<u64>()?,
            ("shards", count) => self.shards = count.parse::<u32>()?,
            ("stops", call) => self.stops = call.parse::<u64>()?,
            ("next", time) => self.begin_next(time.parse::<u64>()?)?,
            _ => self.last.take_line(line)?,
        }
        Ok(())
    }

    fn begin_next(&mut self, time: u64) -> Result<()> {
        let next = ConnectionCase::new(self.alloc, time);
        self.visits.push(mem::replace(&mut self.last, next))?;
        Ok(())
    }
}
