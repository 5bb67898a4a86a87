//! What comes of a connection.

use crate::manner::Manner;
use std::io::{self, ErrorKind, Read};

/// A reader of bytes in memory.
#[derive(Drop)]
pub struct Source<'a> {
    rest: &'a [u8],
    manner: Manner,
    /// Whether the next read was interrupted already.
    interrupted: bool,
}

impl<'a> Source<'a> {
    /// Gives these bytes in this manner.
    pub fn new(bytes: &'a [u8], manner: Manner) -> Source<'a> {
        Source {
            rest: &bytes[..manner.length.min(bytes.len())],
            manner,
            interrupted: false,
        }
    }
}

impl<'a> Read for Source<'a> {
    fn read(&mut self, buf: &mut [u8]) -> io::Result<usize> {
        if self.manner.interrupts && !self.interrupted {
            self.interrupted = true;
            return Err(io::Error::from(ErrorKind::Interrupted));
        }
        self.interrupted = false;
        let count = self.manner.step.min(self.rest.len()).min(buf.len());
        if count == 0 && self.manner.fails {
            return Err(io::Error::from(ErrorKind::BrokenPipe));
        }
        let (piece, rest) = self.rest.split_at(count);
        buf[..count].copy_from_slice(piece);
        self.rest = rest;
        Ok(count)
    }
}
