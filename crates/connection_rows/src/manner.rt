//! How a connection comes and is taken.

use anyhow::{Result, bail};

/// How the bytes of a connection come, and how what is written is taken.
#[derive(Clone, Copy)]
pub struct Manner {
    /// How many of the bytes come.
    pub length: usize,
    /// How many bytes a read gives at most.
    pub step: usize,
    /// Whether the reader fails after them, in place of ending.
    pub fails: bool,
    /// How many bytes the writer takes in all.
    pub room: usize,
    /// How many bytes it takes in one write.
    pub takes: usize,
    /// Whether the writer, after them, answers that it took no byte, in place of failing.
    pub stalls: bool,
    /// Whether each read and each write is interrupted once before it is made.
    pub interrupts: bool,
}

impl Manner {
    /// All bytes come in large pieces, and all that is written is taken.
    pub const PLAIN: Manner = Manner {
        length: usize::MAX,
        step: 10_000,
        fails: false,
        room: usize::MAX,
        takes: usize::MAX,
        stalls: false,
        interrupts: false,
    };

    /// Takes a word, and the number after it if it has one.
    pub(crate) fn set(&mut self, word: &str, rest: &str) -> Result<()> {
        match word {
            "fails" => self.fails = true,
            "stalls" => self.stalls = true,
            "interrupts" => self.interrupts = true,
            _ => return self.set_number(word, rest.parse()?),
        }
        Ok(())
    }

    fn set_number(&mut self, word: &str, number: usize) -> Result<()> {
        match word {
            "step" => self.step = number.max(1),
            "room" => self.room = number,
            "takes" => self.takes = number.max(1),
            _ => bail!("no such word: {word}"),
        }
        Ok(())
    }
}
