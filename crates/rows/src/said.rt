use crate::hex::write_hex;
use crate::pairs::write_pairs;
use crate::text::{escape, escape_character};
use std::alloc::{AllocError, Global};
use std::fmt::{Display, Write};

/// What a row says. Where memory is wanting it goes on, and [`Said::end`] fails.
#[derive(Drop)]
pub struct Said {
    text: String,
    is_whole: bool,
}

impl Said {
    pub fn new(alloc: Global) -> Said {
        Said {
            text: String::new(alloc),
            is_whole: true,
        }
    }

    /// Says a text.
    pub fn put(&mut self, text: &str) {
        let is_said = self.text.push_str(text).is_ok();
        self.is_whole &= is_said;
    }

    /// Says what another one says. Where memory was wanting to it, it is wanting here.
    pub fn put_all(&mut self, other: &Said) {
        self.put(other.text.as_str());
        self.is_whole &= other.is_whole;
    }

    /// Says what words print.
    pub fn tell<T: Display + Drop>(&mut self, words: T) {
        let is_said = write!(self.text, "{words}").is_ok();
        self.is_whole &= is_said;
    }

    /// Says bytes as [`escape`] writes them.
    pub fn escape(&mut self, bytes: &[u8]) {
        let is_said = escape(bytes, &mut self.text).is_ok();
        self.is_whole &= is_said;
    }

    /// Says a character as [`escape`] writes it.
    pub fn escape_character(&mut self, character: char) {
        let is_said = escape_character(character, &mut self.text).is_ok();
        self.is_whole &= is_said;
    }

    /// Says bytes as two digits each.
    pub fn hex(&mut self, bytes: &[u8]) {
        let is_said = write_hex(bytes, &mut self.text).is_ok();
        self.is_whole &= is_said;
    }

    /// Says pairs as [`write_pairs`] writes them.
    pub fn pairs(&mut self, pairs: &[(String, String)]) {
        let is_said = write_pairs(pairs, &mut self.text).is_ok();
        self.is_whole &= is_said;
    }

    /// All that was said.
    ///
    /// # Errors
    /// Want of memory since it was new.
    pub fn end(self) -> Result<String, AllocError> {
        if self.is_whole {
            Ok(self.text)
        } else {
            Err(AllocError)
        }
    }
}
