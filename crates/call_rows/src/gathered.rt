//! Calls of a row that wait for their group.

ghost use Rattle.std.specs.Prelude.{◌≡◌, All, IfOk, length, vec_len};
ghost use Rattle.accept.specs.Calls.{AreNumbers};

use crate::calls::{call_of, number_of};
use accept::Call;
use anyhow::Result;
use rows::word_of;
use std::alloc::Global;
use std::collections::VecDeque;

/// Lines of calls that are made one after another, or as a group.
#[derive(Drop)]
pub struct Gathered {
    /// The lines, in order.
    pub lines: Vec<String>,
}

impl Gathered {
    /// No calls.
    pub fn new(alloc: Global) -> Gathered {
        Gathered {
            lines: Vec::new(alloc),
        }
    }

    /// The call of a line.
    ///
    /// # Errors
    /// Want of memory.
    pub fn one(alloc: Global, line: &str) -> Result<Gathered> {
        let mut gathered = Gathered::new(alloc);
        gathered.add(alloc, line)?;
        Ok(gathered)
    }

    /// Adds the call of a line after the others.
    ///
    /// # Errors
    /// Want of memory.
    pub fn add(&mut self, alloc: Global, line: &str) -> Result<()> {
        Ok(self.lines.push(format!(in alloc; "{line}")?)?)
    }

    /// `FROM TO CALL`: adds the call once for each number from the first to the second. The number replaces each `#`.
    ///
    /// # Errors
    /// No numbers, or want of memory.
    pub fn add_each(&mut self, alloc: Global, text: &str) -> Result<()> {
        let (from, text) = number_of(text)?;
        let (to, line) = number_of(text)?;
        for number in from..=to {
            let number = format!(in alloc; "{number}")?;
            self.lines.push(line.replace(alloc, '#', number.as_str())?)?;
        }
        Ok(())
    }

    /// The calls.
    ///
    /// # Errors
    /// A line that is no call, a number that no call may have, or want of memory.
    pub fn calls(&self, alloc: Global) -> Result<VecDeque<Call>>
        ensures numbers { IfOk result (λ calls. All AreNumbers calls.items) }
        ensures each { IfOk result (λ calls. length calls.items ≡ vec_len self.now.lines) }
    {
        let mut calls = VecDeque::new(alloc);
        for line in self.lines.iter() {
            calls.push_back(call_of(alloc, line.as_str())?)?;
        }
        Ok(calls)
    }

    /// A read of the stream of each call.
    ///
    /// # Errors
    /// Want of memory.
    pub fn reads(&self, alloc: Global) -> Result<Gathered> {
        let mut reads = Gathered::new(alloc);
        for line in self.lines.iter() {
            let (_, rest) = word_of(line.as_str());
            let (stream, _) = word_of(rest);
            reads.lines.push(format!(in alloc; "read {stream}")?)?;
        }
        Ok(reads)
    }
}
