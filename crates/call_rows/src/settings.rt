//! The settings with which slots are opened, as words of rows.

use crate::calls::number_of;
use accept::Limits;
use anyhow::{Result, bail};
use wal::Capacity;

/// The settings with which slots are opened.
#[derive(Clone, Copy)]
pub struct CaseSettings {
    /// The limits of all calls.
    pub limits: Limits,
    /// The greatest length of a segment, in bytes.
    pub capacity: u64,
    /// How many passes there are.
    pub passes: u32,
}

impl CaseSettings {
    /// The limits of the profile, a small capacity, and one pass.
    pub const USUAL: CaseSettings = CaseSettings {
        limits: Limits::PROFILE,
        capacity: 4_096,
        passes: 1,
    };

    /// The greatest length of a segment.
    ///
    /// # Errors
    /// More than 2^30 bytes.
    pub fn lawful_capacity(&self) -> Result<Capacity> {
        match Capacity::new(self.capacity) {
            Some(capacity) => Ok(capacity),
            None => bail!("a limit is out of its bounds"),
        }
    }

    /// Takes one of the settings from a line: its word, and the number after it.
    ///
    /// # Errors
    /// Another word, or no number.
    pub fn set(&mut self, word: &str, text: &str) -> Result<()> {
        let (number, _) = number_of(text)?;
        match word {
            "line" => self.limits.line = number,
            "half_age" => self.limits.half_age = number,
            "max_old" => self.limits.max_old = number,
            "max_ahead" => self.limits.max_ahead = number,
            "capacity" => self.capacity = number,
            "passes" => self.passes = u32::try_from(number)?,
            _ => bail!("no such word: {word}"),
        }
        Ok(())
    }
}
