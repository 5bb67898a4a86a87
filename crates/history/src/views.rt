//! What seats of the table know. Only contracts and proofs read it: the program makes no value of a view.

use accept::{Ask, Image, Item, Limits, Step};
use std::collections::LinkedList;
use std::marker::Model;

/// What an opening is. It is the same for each book and each pass of a table.
pub struct About {
    /// How many shards it has: 1 to `MAX_SHARDS` of `labels`.
    pub shards: u64,
    /// How many passes it has: at most `Pass::MAX`.
    pub passes: u64,
    /// What it accepts.
    pub limits: Limits,
    /// How many bytes a segment may have.
    pub capacity: u64,
    /// What the opening found: a base for each shard.
    pub bases: LinkedList<Image>,
}

/// What a pass knows.
pub struct Caller {
    /// The opening that it belongs to.
    pub about: About,
    /// Which pass it is.
    pub pass: u64,
    /// The greatest number that it used for a call: 0 before the first.
    pub last: u64,
    /// For each shard, the beginning of its history that the pass has seen.
    pub seen: LinkedList<LinkedList<Item>>,
    /// The calls that were answered to it, with number and reply, in order.
    pub made: LinkedList<Step>,
    /// The numbers of the calls that it withdrew.
    pub withdrawn: LinkedList<u64>,
    /// Its announced calls that were neither collected nor withdrawn, in order.
    pub pending: LinkedList<Ask>,
}

/// What a book knows.
pub struct Shelf {
    /// The opening that it belongs to.
    pub about: About,
    /// Which shard it keeps.
    pub shard: u64,
    /// The shard's history.
    pub items: LinkedList<Item>,
    /// The calls that the next failure mark will have.
    pub doubt: LinkedList<Ask>,
}

/// What a seat is for.
pub enum Role {
    /// Nothing.
    Nobody,
    /// The opening: it has still to give out the books and the passes from these numbers on.
    Opener(About, u64, u64),
    /// A shard's book.
    Keeps(Shelf),
    /// A pass.
    Calls(Caller),
}

/// A call on its way.
pub enum Token {
    /// There is none.
    Nothing,
    /// An announced call that has no step, whether it is in doubt, and the calls of its pass on the same shard that
    /// were open when it was announced.
    Open(Ask, bool, LinkedList<Ask>),
    /// A call with its step, the history up to that step, and what the clocks of the shard's two slots said.
    Done(Step, LinkedList<Item>, (u64, u64)),
}

/// What a seat knows.
pub struct Knowledge {
    /// What it is for.
    pub role: Role,
    /// A pass that sits with it for a look.
    pub guest: Role,
    /// The call that it has in hand.
    pub hand: Token,
}

/// A seat's view of the table, as contracts see it: what the seat knows. It has no bytes.
pub struct View;

impl Model for View {
    ghost use Rattle.std.specs.Coded.{codes};
    ghost use Rattle.accept.specs.contracts.image.Image as image;
    ghost use Rattle.history.specs.declared.views.Knowledge.{Knowledge};
    ghost use Rattle.history.specs.declared.views.Role.TheVariants.{Nobody};
    ghost use Rattle.history.specs.declared.views.Token.TheVariants.{Nothing};

    ghost Value = { Knowledge };

    ghost coded = { Prim.hlevel (codes, image.the_row.coded) };

    ghost view = { λ _. record { role = Nobody; guest = Nobody; hand = Nothing } };
}

/// How many words the table has: one for each shard, and after them one for each pass.
#[derive(Clone, Copy)]
pub struct Sizes {
    /// How many shards.
    pub shards: usize,
    /// How many passes.
    pub passes: usize,
}
