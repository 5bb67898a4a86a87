//! What threads hold: tickets, receipts and passes.
ghost use Rattle.std.specs.Prelude.{◌≡◌, ◌+◌, ◌<◌, ◌==◌, true, false, length};
ghost use Rattle.std.specs.Coded.{codes};
ghost use Rattle.accept.specs.contracts.image.Image as image;
ghost use Rattle.history.specs.Histories.{behind_first, bound, max_open};
ghost use Rattle.history.specs.Rule.{number_of};
ghost use Rattle.history.specs.Handles.{Announced, Received, Passed, announced, received, passed, IsTicket, IsReceipt, IsPass, is_closed_pass};

use crate::table::ViewSeat;
use std::marker::Model;
use thiserror::Error;

/// A pass announces no more calls: it was closed, or it has used the last call number, 2^56 - 1.
#[derive(Clone, Copy, Debug, Error)]
#[error("the pass is closed")]
pub struct PassSpent;

/// An announced call that has no step yet.
#[derive(Drop)]
pub struct Ticket {
    pub(crate) number: u64,
    pub(crate) pass: usize,
    pub(crate) seat: ViewSeat,
}

impl Model for Ticket {
    ghost Value = { Announced };

    ghost coded = { Prim.hlevel (codes, image.the_row.coded) };

    ghost view = { λ t. announced t.seat };

    ghost invariant = { λ t. IsTicket t.seat t.number t.pass };
}

impl Ticket {
    /// The number of its call.
    pub fn number(&self) -> u64
        ensures { result ≡ self.now.ask.number }
    {
        self.number
    }

    /// The number of its pass, from 0.
    pub fn pass(&self) -> usize
        ensures { result ≡ self.now.ask.pass }
    {
        self.pass
    }
}

/// A call's place in the history of its shard.
#[derive(Drop)]
pub struct Receipt {
    pub(crate) number: u64,
    pub(crate) pass: usize,
    pub(crate) seat: ViewSeat,
}

impl Model for Receipt {
    ghost Value = { Received };

    ghost coded = { Prim.hlevel (codes, image.the_row.coded) };

    ghost view = { λ r. received r.seat };

    ghost invariant = { λ r. IsReceipt r.seat r.number r.pass };
}

impl Receipt {
    /// The number of its call.
    pub fn number(&self) -> u64
        ensures { result ≡ self.now.step.ask.number }
    {
        self.number
    }

    /// The number of its pass, from 0.
    pub fn pass(&self) -> usize
        ensures { result ≡ self.now.step.ask.pass }
    {
        self.pass
    }
}

/// A caller's place at the histories of all shards. It may have up to `MAX_OPEN` open calls at a time.
#[derive(Drop)]
pub struct Pass {
    pub(crate) shards: usize,
    pub(crate) word: usize,
    pub(crate) last: u64,
    // How many calls are open.
    pub(crate) calls: u64,
    pub(crate) closed: bool,
    pub(crate) seat: ViewSeat,
}

impl Model for Pass {
    ghost Value = { Passed };

    ghost coded = { Prim.hlevel (codes, image.the_row.coded) };

    ghost view = { λ p. passed p.seat p.closed };

    ghost invariant = { λ p. IsPass p.seat p.shards p.word p.last p.calls };
}

impl Pass {
    /// The last number of a call.
    pub(crate) const LAST: u64 = (1 << 56) - 1;

    /// The most passes of an opening.
    pub const MAX: usize = 64;

    /// The most open calls of a pass.
    pub const MAX_OPEN: usize = 64;

    /// Whether it announces no more calls: it was closed, or has used the last call number, 2^56 - 1.
    pub fn is_closed(&self) -> bool
        ensures { result ≡ is_closed_pass self.now }
    {
        self.closed || self.last == Pass::LAST
    }

    /// Whether `MAX_OPEN` calls are open.
    pub fn is_full(&self) -> bool
        ensures { result ≡ (length self.now.caller.pending == max_open) }
    {
        self.calls == Pass::MAX_OPEN as u64
    }

    /// Its number: from 0, below the number of passes of its opening.
    pub fn number(&self) -> usize
        ensures { (result ≡ self.now.caller.pass) × (result < self.now.caller.about.passes) }
    {
        // (the words of the passes come after those of the shards)
        self.word - self.shards
    }

    // Its word after its first open call ends: its last number, if other calls are open.
    pub(crate) fn word_behind_first(&self) -> u64
        ensures { result ≡ number_of self.now.caller.last (behind_first self.now.caller.pending) }
    {
        if self.calls > 1 { self.last } else { 0 }
    }

    // The number of its next call.
    pub(crate) fn next_number(&self) -> u64
        requires { is_closed_pass self.now ≡ false }
        ensures { (result ≡ self.now.caller.last + 1) × (result < bound) }
    {
        self.last + 1
    }

    /// From now on it announces no calls.
    pub fn close(&mut self)
        ensures { self.new ≡ record self.old { closed = true } }
    {
        self.closed = true;
    }
}
