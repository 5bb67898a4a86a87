//! What several open calls of a pass mean.
ghost use Rattle.std.specs.Prelude.{◌≡◌, ◌≢◌, ◌+◌, [], List, true, IfOk, OnOk};
ghost use Rattle.history.specs.Types.{Unavailable, Ask, Item};
ghost use Rattle.accept.specs.Histories.{is_marked};
ghost use Rattle.history.specs.Histories.{shard_in, step_of};
ghost use Rattle.history.specs.Plays.{ask_of, announce_to, collect_at, call_to};
ghost use Rattle.history.specs.Handles.{refused_by, ticket_for};

use crate::book::{Book, Kept};
use crate::handles::{Pass, PassSpent, Ticket};
use crate::history::History;
use accept::Call;

/// Two calls on a shard with a failure mark, both open at once: each is refused in its turn, and the pass is as if the
/// second had been made after the first was answered.
///
/// # Errors
///
/// The pass announces no call, or no call after the first, which is then withdrawn.
pub fn refuse_both<K: Kept>(
    history: &History,
    book: &mut Book,
    kept: &K,
    pass: &mut Pass,
    one: &Call,
    two: &Call,
) -> Result<(), PassSpent>
    requires table { (pass.old.table ≡ history.now) × (book.old.table ≡ history.now) }
    requires about { book.old.about ≡ pass.old.caller.about }
    requires idle { pass.old.caller.pending ≡ [] }
    requires one { shard_in book.old.about
        (ask_of pass.old.caller (pass.old.caller.last + 1) one.now)
        ≡ book.old.shard }
    requires two { shard_in book.old.about
        (ask_of pass.old.caller (pass.old.caller.last + 1 + 1) two.now)
        ≡ book.old.shard }
    requires marked { is_marked book.old.items ≡ true }
    requires kept { (items : List Item) (doubt : List Ask)
        → K.kept kept.now (record book.old { items = items }) doubt }
    ensures pass { OnOk result (pass.new.caller
        ≡ call_to (call_to pass.old.caller one.now Unavailable
        (refused_by book.old.items pass.old.caller one.now)) two.now Unavailable book.new.items) }
    ensures book { OnOk result (book.new
        ≡ record book.old {
          items = refused_by (refused_by book.old.items pass.old.caller one.now)
              (call_to pass.old.caller one.now Unavailable
              (refused_by book.old.items pass.old.caller one.now)) two.now;
        }) }
{
    let first = history.announce(pass, one)?;
    let Ok(second) = history.announce(pass, two) else {
        history.withdraw(pass, first);
        return Err(PassSpent);
    };
    let (_, answer_one) = book.refuse(kept, first);
    let (_, answer_two) = book.refuse(kept, second);
    history.collect(pass, answer_one);
    history.collect(pass, answer_two);
    Ok(())
}

/// Two calls on two shards, both open at once, the second on a shard with a failure mark: it is refused and collected
/// while the first stays open.
///
/// # Errors
///
/// The pass announces no call, or no call after the first, which is then withdrawn.
pub fn refuse_beside<K: Kept>(
    history: &History,
    book: &mut Book,
    kept: &K,
    pass: &mut Pass,
    one: &Call,
    two: &Call,
) -> Result<Ticket, PassSpent>
    requires table { (pass.old.table ≡ history.now) × (book.old.table ≡ history.now) }
    requires about { book.old.about ≡ pass.old.caller.about }
    requires idle { pass.old.caller.pending ≡ [] }
    requires one { shard_in pass.old.caller.about
        (ask_of pass.old.caller (pass.old.caller.last + 1) one.now)
        ≢ book.old.shard }
    requires two { shard_in pass.old.caller.about
        (ask_of pass.old.caller (pass.old.caller.last + 1 + 1) two.now)
        ≡ book.old.shard }
    requires marked { is_marked book.old.items ≡ true }
    requires kept { (items : List Item) (doubt : List Ask)
        → K.kept kept.now (record book.old { items = items }) doubt }
    ensures open { IfOk result (λ first. first
        ≡ ticket_for history.now pass.old.caller (pass.old.caller.last + 1) one.now) }
    ensures pass { OnOk result (pass.new.caller
        ≡ collect_at (announce_to
        (announce_to pass.old.caller (pass.old.caller.last + 1) one.now)
        (pass.old.caller.last + 1 + 1) two.now)
        (step_of (ask_of pass.old.caller (pass.old.caller.last + 1 + 1) two.now) Unavailable)
        book.new.items) }
{
    let first = history.announce(pass, one)?;
    let Ok(other) = history.announce(pass, two) else {
        history.withdraw(pass, first);
        return Err(PassSpent);
    };
    let (_, answer) = book.refuse(kept, other);
    history.collect_there(pass, answer);
    Ok(first)
}
