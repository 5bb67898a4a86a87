//! The bytes of a connection, put together from lines.

use crate::manner::Manner;
use crate::source::Source;
use anyhow::Result;
use rows::{unescape, word_of};
use std::alloc::Global;
use std::io::Write;

/// The bytes of a connection and the manner in which they come, put together from lines.
#[derive(Drop)]
pub struct ConnectionInput {
    bytes: Vec<u8>,
    /// The body of the next `post` so far.
    body: Vec<u8>,
    /// How they come.
    pub manner: Manner,
}

impl ConnectionInput {
    /// No bytes.
    pub fn new(alloc: Global) -> ConnectionInput {
        ConnectionInput {
            bytes: Vec::new(alloc),
            body: Vec::new(alloc),
            manner: Manner::PLAIN,
        }
    }

    /// How many bytes there are.
    pub fn len(&self) -> usize {
        self.bytes.len()
    }

    /// Whether there are none.
    pub fn is_empty(&self) -> bool {
        self.bytes.is_empty()
    }

    /// The reader that gives them in this manner.
    pub fn source(&self, manner: Manner) -> Source<'_> {
        Source::new(self.bytes.as_slice(), manner)
    }

    /// Takes a line: `in TEXT`, `in* COUNT TEXT`, `body TEXT`, `body* COUNT TEXT`, `body# FROM TO TEXT`,
    /// `post PATH TEXT`, `step N`, `fails`, `room N`, `takes N`, `stalls` or `interrupts`.
    ///
    /// # Errors
    /// Another word, a text that [`unescape`] refuses, or no number where one must be; want of memory.
    pub fn take_line(&mut self, line: &str) -> Result<()> {
        let (word, rest) = word_of(line);
        match word {
            "in" => unescape(rest, &mut self.bytes),
            "in*" => push_many(rest, &mut self.bytes),
            "body" => unescape(rest, &mut self.body),
            "body*" => push_many(rest, &mut self.body),
            "body#" => push_numbered(rest, &mut self.body),
            "post" => self.post(rest),
            _ => self.manner.set(word, rest),
        }
    }

    /// Adds a lawful request to a path. Its body is the body so far, followed by this text.
    fn post(&mut self, line: &str) -> Result<()> {
        let (path, text) = word_of(line);
        unescape(text, &mut self.body)?;
        let length = self.body.len();
        write!(
            self.bytes,
            "POST {path} HTTP/1.1\r\nX-Scope-OrgID: t\r\nContent-Type: application/json\r\n\
Content-Length: {length}\r\n\r\n"
        )?;
        self.bytes.extend_from_slice(&self.body)?;
        self.body.clear();
        Ok(())
    }
}

/// Appends a text a number of times.
fn push_many(line: &str, into: &mut Vec<u8>) -> Result<()> {
    let (count, text) = word_of(line);
    for _ in 0..count.parse::<usize>()? {
        unescape(text, into)?;
    }
    Ok(())
}

/// Appends a text once for each number from the first to the second. The number replaces each `#`.
fn push_numbered(line: &str, into: &mut Vec<u8>) -> Result<()> {
    let (from, line) = word_of(line);
    let (to, text) = word_of(line);
    for number in from.parse::<u64>()?..=to.parse::<u64>()? {
        for (index, part) in text.split('#').enumerate() {
            if index > 0 {
                write!(into, "{number}")?;
            }
            unescape(part, into)?;
        }
    }
    Ok(())
}
