//! A text that is to be sent.
ghost use Rattle.std.specs.Prelude.{◌≡◌, ◌≢◌, ◌≤◌, ◌++◌, [], Some, length, drop, IfErr, OnOk, OnErr};
ghost use Rattle.requests.specs.Writing.{WritesBeginning};

use crate::fault::ServeFault;
use crate::outgoing::{Outgoing, rest};
use std::alloc::Global;
use std::marker::Model;
use std::mem;

/// A text that is to be sent: answers are put there, and whoever has the connection sends it from its front. Contracts
/// see the text.
#[derive(Drop)]
pub struct Outbox {
    text: Vec<u8>,
    /// How many bytes of it were sent.
    gone: usize,
    /// The answer of a failure, which takes no memory, where nothing else is to be sent.
    last: &'static [u8],
}

impl Model for Outbox {
    ghost use Rattle.std.specs.Prelude.{◌≡◌, ◌<◌, ◌≤◌, ◌⊎◌, ◌++◌, [], List, ℕ, drop, length};

    ghost Value = { List ℕ };

    ghost view = { λ o. drop o.gone o.text.items ++ o.last.now };

    ghost invariant = { λ o. (o.gone ≤ length o.text.items)
        × ((o.text.items ≡ []) ⊎ ((o.gone < length o.text.items) × (o.last.now ≡ []))) };
}

fn push_text(all: &mut Vec<u8>, text: &[u8]) -> Result<(), ServeFault>
    ensures ok { OnOk result (all.new.items ≡ all.old.items ++ text.now) }
    ensures err { OnErr result (all.new.items ≡ all.old.items) }
    ensures cause { IfErr result (λ e. e ≡ ServeFault.Write) }
{
    match all.extend_from_slice(text) {
        Ok(()) => Ok(()),
        Err(_) => Err(ServeFault::Write),
    }
}

impl Outbox {
    /// Nothing is to be sent. Takes no memory.
    pub fn new(alloc: Global) -> Outbox
        ensures { result ≡ [] }
    {
        Outbox {
            text: Vec::new(alloc),
            gone: 0,
            last: b"",
        }
    }

    /// The text that is to be sent.
    pub fn text(&self) -> &[u8]
        ensures { result.now ≡ self.now }
    {
        if self.text.is_empty() {
            return self.last;
        }
        &self.text[self.gone..]
    }

    /// So many bytes of it were sent. Once all are, the memory of a long text is let go of.
    pub fn sent(&mut self, count: usize)
        requires { count ≤ length self.old }
        ensures { self.new ≡ drop count self.old }
    {
        if self.text.is_empty() {
            self.last = &self.last[count..];
            return;
        }
        self.gone += count;
        if self.gone < self.text.len() - self.gone {
            return;
        }
        // (no more bytes are moved than were sent)
        self.text.drain(..self.gone);
        self.gone = 0;
        if self.text.is_empty() {
            rest(&mut self.text);
        }
    }

    /// Adds a text that needs no memory where nothing else is to be sent.
    ///
    /// # Errors
    ///
    /// `Write`: there was no memory for it behind another, and none of it was added.
    pub fn say(&mut self, text: &'static [u8]) -> Result<(), ServeFault>
        ensures writes { WritesBeginning (Some self.old) (Some self.new) text.now result }
        ensures fault { IfErr result (λ e. (e ≡ ServeFault.Write) × (self.old ≢ [])) }
    {
        if self.text.is_empty() {
            if self.last.is_empty() {
                self.last = text;
                return Ok(());
            }
            return Err(ServeFault::Write);
        }
        push_text(&mut self.text, text)
    }

    /// Adds an answer that was put together. Its memory goes there with it where nothing else is to be sent.
    ///
    /// # Errors
    ///
    /// `Write`: there was no memory for it behind another, and none of it was added.
    pub fn say_answer(&mut self, outgoing: &mut Outgoing) -> Result<(), ServeFault>
        ensures writes { WritesBeginning (Some self.old) (Some self.new) outgoing.old result }
        ensures fault { IfErr result (λ e. (e ≡ ServeFault.Write) × (self.old ≢ [])) }
    {
        if self.text.is_empty() {
            if self.last.is_empty() {
                mem::swap(&mut self.text, &mut outgoing.text);
                return Ok(());
            }
            return Err(ServeFault::Write);
        }
        let said = push_text(&mut self.text, outgoing.text());
        outgoing.rest();
        said
    }
}
