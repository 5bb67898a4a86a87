//! The table that all threads share, its rule, and what its steps tell. Word k is the length of shard k's history.
//! After the shards' words comes one for each pass: 0, or, while calls of it are open, the last number that it used.
ghost use Rattle.std.specs.Prelude.{ℕ};
ghost use Rattle.history.specs.Types.{Call, About};
ghost use Rattle.history.specs.Rule.{KeepsRule, opener, unnamed};
ghost use Rattle.history.specs.Plays.{named, announced_as, committed_at, marked, withdrew, collected, looked, met, settled, items_counted, after_book, next_book, after_pass, next_pass, kept_back, seat_alone, host, visitor, taken, loose, seated, in_doubt};
ghost use Rattle.history.specs.Handles.{no_about, no_ask};

use crate::views::{Sizes, View};
use atomic_table::{Join, Play, Seat, Shared, Split, Table, TableRule};
use std::alloc::Global;
use std::marker::{Brand, PhantomData};

/// The rule of the table.
pub struct Rules;

impl TableRule<(), View, Sizes> for Rules {
    ghost holds = { λ _. KeepsRule };

    ghost first = { λ key. opener (unnamed key) 0 0 };
}

pub(crate) type Board = Table<(), View, Sizes, Rules, Global>;

pub(crate) type Steps = Shared<(), View, Sizes, Rules>;

pub(crate) type ViewSeat = Seat<(), View>;

/// What an opening is for. The call that opens chooses it.
pub trait Naming {
    ghost about: { About };
}

impl Naming for Brand {
    ghost about = { no_about };
}

/// The call that is announced. The call that announces chooses it.
pub trait Saying {
    ghost call: { Call };
}

impl Saying for Brand {
    ghost call = { no_ask.call };
}

/// When a step is committed: what the clocks of the shard's two slots say. The call that commits chooses it.
pub trait At {
    ghost moment: { ℕ × ℕ };
}

impl At for Brand {
    ghost moment = { (0, 0) };
}

/// The opening learns what it is for.
pub struct NamesOpening<J> {
    of: PhantomData<J>,
}

impl<J: Naming> Play<(), View> for NamesOpening<J> {
    ghost then = { named J.about };
}

/// A pass announces a call.
pub struct Announces<J> {
    of: PhantomData<J>,
}

impl<J: Saying> Play<(), View> for Announces<J> {
    ghost then = { announced_as J.call };
}

/// A book adds a step.
pub struct Commits<J> {
    of: PhantomData<J>,
}

impl<J: At> Play<(), View> for Commits<J> {
    ghost then = { committed_at J.moment };
}

/// A book adds a failure mark.
pub struct Marks;

impl Play<(), View> for Marks {
    ghost then = { marked };
}

/// A pass withdraws its first open call.
pub struct Withdraws;

impl Play<(), View> for Withdraws {
    ghost then = { withdrew };
}

/// A pass collects the answer to its first open call.
pub struct Collects;

impl Play<(), View> for Collects {
    ghost then = { collected };
}

/// A pass sees a shard's history.
pub struct Looks;

impl Play<(), View> for Looks {
    ghost then = { looked };
}

/// Two passes see a shard's history.
pub struct Meets;

impl Play<(), View> for Meets {
    ghost then = { met };
}

/// A book and a pass compare what they know.
pub struct Settles;

impl Play<(), View> for Settles {
    ghost then = { settled };
}

/// A book counts its items.
pub struct Counts;

impl Play<(), View> for Counts {
    ghost then = { items_counted };
}

/// The opening gives out the next book.
pub struct NextBook;

impl Split<View> for NextBook {
    ghost left = { λ v. after_book v.role };

    ghost right = { λ v. next_book v.role };
}

/// The opening gives out the next pass.
pub struct NextPass;

impl Split<View> for NextPass {
    ghost left = { λ v. after_pass v.role };

    ghost right = { λ v. next_pass v.role };
}

/// The call in hand goes to its own seat.
pub struct Gives;

impl Split<View> for Gives {
    ghost left = { kept_back };

    ghost right = { seat_alone };
}

/// A guest leaves.
pub struct Leaves;

impl Split<View> for Leaves {
    ghost left = { host };

    ghost right = { visitor };
}

/// Another seat's call comes into the hand.
pub struct Takes;

impl Join<View> for Takes {
    ghost both = { taken };

    ghost spent = { loose };
}

/// A pass sits with a book or with another pass.
pub struct Sits;

impl Join<View> for Sits {
    ghost both = { seated };

    ghost spent = { loose };
}

/// A book puts a call in doubt.
pub struct Doubts;

impl Join<View> for Doubts {
    ghost both = { in_doubt };

    ghost spent = { loose };
}
