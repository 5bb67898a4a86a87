//! What is written to a connection.

use crate::manner::Manner;
use rows::Said;
use std::alloc::Global;
use std::io::{self, ErrorKind, Write};

/// A writer that keeps what it takes.
#[derive(Drop)]
pub struct Sink {
    text: Vec<u8>,
    said: Said,
    manner: Manner,
    /// Whether the next write was interrupted already.
    interrupted: bool,
}

impl Sink {
    /// Takes bytes in this manner.
    pub fn new(alloc: Global, manner: Manner) -> Sink {
        Sink {
            text: Vec::new(alloc),
            said: Said::new(alloc),
            manner,
            interrupted: false,
        }
    }

    /// What was taken.
    pub fn text(&self) -> &[u8] {
        self.text.as_slice()
    }

    /// Says what was taken in each write, with escapes: a line for each of its lines, and one for what follows the last
    /// line feed.
    pub fn say(&self, into: &mut Said) {
        into.put_all(&self.said);
    }

    /// Says how much of the whole text was taken: `a full writer` where a beginning of it fills the room, otherwise its
    /// number of `bytes` where it is a beginning, otherwise `other bytes`.
    pub fn say_beginning_of(&self, whole: &[u8], into: &mut Said) {
        let length = self.text.len();
        if !whole.starts_with(&self.text) {
            into.put("other bytes");
        } else if length == self.manner.room {
            into.put("a full writer");
        } else {
            into.tell(format_args!("{length} bytes"));
        }
    }
}

impl Write for Sink {
    fn write(&mut self, buf: &[u8]) -> io::Result<usize> {
        if self.manner.interrupts && !self.interrupted {
            self.interrupted = true;
            return Err(io::Error::from(ErrorKind::Interrupted));
        }
        self.interrupted = false;
        let room = self.manner.room.saturating_sub(self.text.len());
        let piece = &buf[..room.min(self.manner.takes).min(buf.len())];
        if piece.is_empty() && !self.manner.stalls {
            return Err(io::Error::from(ErrorKind::BrokenPipe));
        }
        self.text.extend_from_slice(piece)?;
        say_lines(piece, &mut self.said);
        Ok(piece.len())
    }

    fn flush(&mut self) -> io::Result<()> {
        Ok(())
    }
}

/// Says bytes with escapes: a line for each of their lines, and one for what follows the last line feed.
fn say_lines(bytes: &[u8], into: &mut Said) {
    for line in bytes.split_inclusive(|byte| *byte == b'\n') {
        into.escape(line);
        into.put("\n");
    }
}
