//! What comes of calls, as a list says.
use accept::{Call, CallFault, EntryList, Outcome, OutcomeList, Reply};
use anyhow::{Result, bail};
use std::alloc::{AllocError, Global};

/// What comes of a call.
#[derive(Clone, Copy)]
pub enum Told {
    /// Each entry of a push has this outcome. A read finds nothing, and a trim removes nothing.
    Each(Outcome),
    NoRoom,
    Unavailable,
    NoStream,
    TrimTooNew,
    /// It fails.
    Fails(CallFault),
}

impl Told {
    /// The one of this name.
    ///
    /// # Errors
    /// Another name.
    pub fn find(name: &str) -> Result<Told> {
        Ok(match name {
            "stored" => Told::Each(Outcome::Stored),
            "repeat" => Told::Each(Outcome::Repeat),
            "old" => Told::Each(Outcome::TooOld),
            "no_room" => Told::NoRoom,
            "unavailable" => Told::Unavailable,
            "no_stream" => Told::NoStream,
            "trim_too_new" => Told::TrimTooNew,
            "memory" => Told::Fails(CallFault::Memory),
            "closed" => Told::Fails(CallFault::PassClosed),
            "doubt" => Told::Fails(CallFault::InDoubt),
            "spent" => Told::Fails(CallFault::LogSpent),
            _ => bail!("nothing of this name comes of a call"),
        })
    }

    fn reply(self, alloc: Global, call: &Call) -> Result<Reply, CallFault> {
        match self {
            Told::Each(outcome) => {
                reply_of_each(alloc, call, outcome).map_err(|_| CallFault::Memory)
            }
            Told::NoRoom => Ok(Reply::NoRoom),
            Told::Unavailable => Ok(Reply::Unavailable),
            Told::NoStream => Ok(Reply::NoStream),
            Told::TrimTooNew => Ok(Reply::TrimTooNew),
            Told::Fails(failure) => Err(failure),
        }
    }
}

fn reply_of_each(alloc: Global, call: &Call, outcome: Outcome) -> Result<Reply, AllocError> {
    let entries = match call {
        Call::Push { entries, .. } => entries.as_slice(),
        Call::Read { .. } => return Ok(Reply::Entries(EntryList::new(Vec::new(alloc)))),
        Call::Trim { .. } => return Ok(Reply::Trimmed(0)),
    };
    let mut outcomes = Vec::with_capacity(alloc, entries.len())?;
    for _ in 0..entries.len() {
        outcomes.push(outcome)?;
    }
    Ok(Reply::Verdict(OutcomeList::new(outcomes)))
}

/// What comes of the calls of a connection, one after another.
#[derive(Drop)]
pub struct Script {
    list: Vec<Told>,
    /// What comes of the calls after the list.
    after: Told,
    made: usize,
}

impl Script {
    /// No call was made yet.
    pub fn new(list: Vec<Told>, after: Told) -> Script {
        Script {
            list,
            after,
            made: 0,
        }
    }

    /// How many calls were made.
    pub fn made(&self) -> u64 {
        self.made as u64
    }

    /// Makes a call.
    ///
    /// # Errors
    /// It fails.
    pub fn make(&mut self, alloc: Global, call: Call) -> Result<Reply, CallFault> {
        let told = self.list.get(self.made).copied().unwrap_or(self.after);
        self.made = self.made.saturating_add(1);
        told.reply(alloc, &call)
    }
}
