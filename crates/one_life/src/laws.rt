//! A law of calls over two shards. The function does nothing: its contract is the law.
ghost use Rattle.std.specs.Prelude.{ℕ, List};
ghost use Rattle.headline.specs.Types.{Limits, Passed, Opening};
ghost use Rattle.one_life.specs.declared.opening.Two.{Two};
ghost use Rattle.one_life.specs.Cut.{AreOpened, IsMadeBy, HaveMetIn, IsCutTurn, IsCutOnce};

use accept::{Call, Reply};
use disk::Disk;

/// Two shards are opened, with two passes. Each pass has a call answered, by a turn of a shard of its own, and they
/// meet. Then a crash comes at any moment of a turn of the first shard, for a further call of the first pass. What
/// contracts promise of all this is a life.
pub fn cut_turn_ends_a_life<D: Disk>()
    ensures { (limits : Limits) (capacity : ℕ) (slots : List (List D)) (opening : Opening D)
        (start before end : Two D) (called answered : Passed) (first second last : Call)
        (reply other : Reply)
        → AreOpened D.sight D.follows limits capacity slots opening start
        → IsMadeBy D.sight D.follows start.first before.first start.one first reply called
        → IsMadeBy D.sight D.follows start.second before.second start.two second other answered
        → HaveMetIn D.sight D.follows opening called answered before
        → IsCutTurn D.sight D.follows before end last
        → IsCutOnce D.sight D.follows slots first second last (reply, other) end }
{}
