//! The headline. The functions do nothing: each contract is a law.
ghost use Rattle.std.specs.Prelude.{◌≡◌, ℕ, List, false, map, Result};
ghost use Rattle.headline.specs.Types.{Limits, Item, Passed, Opening};
ghost use Rattle.disk.specs.Sight.{IsSynced};
ghost use Rattle.ingester.specs.Calls.{AreGiven};
ghost use Rattle.headline.specs.Threads.{Happening, HappenAfter, calls_with};
ghost use Rattle.headline.specs.Headline.{IsHeadline};
ghost use Rattle.headline.specs.Lives.{Life, IsLeftBy, IsLife, WereRead, HasFailedSince, MayBeReplayed, MayBeRefused, WritesNothingBefore, writing_in};
ghost use Rattle.headline.specs.Chains.{AreLives, IsHeadlineOfLives};
ghost use Rattle.headline.specs.Events.{Event, Lived, AreEvents, IsHeadlineOfEvents};

use accept::{Call, CallFault, Reply};
use disk::Disk;

/// The headline: of any opening, whatever happened to its passes, whether it was closed or cut at any moment, and
/// whatever a crash then left of its slots.
pub fn headline<D: Disk>()
    ensures says { (life : Life D) → IsLife D.sight D.follows life
        → (history : ℕ → List Item)
        × IsHeadline life.opening.about life.threads history (writing_in life.ends history)
        (WereRead D.sight D.follows life)
        (HasFailedSince D.sight D.follows life)
        (MayBeReplayed D.sight D.follows life.ends)
        (MayBeRefused D.sight D.follows life.ends) }
    ensures cut { (old new : D) → (D.sight old).may_leave (D.sight new).seen
        → IsSynced (D.sight new)
        → IsLeftBy (D.sight old) (D.sight new) }
    ensures whole { (disk : D) → IsLeftBy (D.sight disk) (D.sight disk) }
{}

/// Until its first turn a shard writes nothing: from the first moment of the call that opens it, a crash leaves of its
/// slots only what it could have left when that call began.
pub fn opening_writes_nothing<D: Disk>()
    ensures { (life : Life D) (is : IsLife D.sight D.follows life)
        → WritesNothingBefore D.sight D.follows life is }
{}

/// The same over any number of openings and crashes: each has its history, and what is found in the end is what a
/// one-thread ingester has that got the answered calls of all of them, one after another, and after those of each
/// opening a beginning of the calls that were being written when it ended.
pub fn headline_of_openings<D: Disk>()
    ensures { (n : ℕ) (limits : Limits) (lives : List (Life D))
        → AreLives D.sight D.follows n limits lives
        → IsHeadlineOfLives D.sight D.follows n limits lives }
{}

/// The same over any events: openings under any limits, of any capacity, that live, are refused, or are killed before
/// they are made; and splits into another number of shards, done or given up. What is found in the end is what a
/// one-thread ingester has that went through them, and nothing that a crash left is refused.
pub fn headline_of_events<D: Disk>()
    ensures { (first : Life D) (events : List (Event D))
        → AreEvents D.sight D.follows (Lived first) events
        → IsHeadlineOfEvents D.sight D.follows first events }
{}

/// What comes of calls that a pass makes together (`call_all`) happens to it one after another.
pub fn calls_happen_in_order<D: Disk>()
    ensures { (opening : Opening D) (old new : Passed) (calls : List Call)
        (outcomes : List (Result Reply CallFault))
        → AreGiven old calls outcomes new → (happened : List Happening)
        × HappenAfter false opening old happened new
        × (map (λ h. h.what) happened ≡ calls_with calls outcomes) }
{}
