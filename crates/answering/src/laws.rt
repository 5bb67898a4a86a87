ghost use Rattle.std.specs.Prelude.{ℕ, List};
ghost use Rattle.answering.specs.Serving.{Exchange, World};
ghost use Rattle.answering.specs.Joining.{Stay, AreOneConnection, IsOneText, IsApart, HaveSameRequests};

use crate::calls::Calls;
use crate::clock::Clock;

/// The laws of visits: where a connection is kept from visit to visit, whatever its worker did between them, the texts
/// of its visits one after another are the responses to the requests in all its bytes, in their order, as those of a
/// connection that is served in one; and these requests are the same.
pub fn visits_join<S: Calls, C: Clock>()
    ensures joined { (service : S) (old : List ℕ) (visits : List (Stay S.Pass C))
        (rest : List ℕ) → AreOneConnection (S.gives service) C.ticks old visits rest }
    ensures texts { (visits : List (Stay S.Pass C)) → IsOneText visits }
    ensures in_one { (service : S) (bytes : List ℕ) (w : World S.Pass C)
        (es : List Exchange) (rest : List ℕ) (w' : World S.Pass C)
        → IsApart (S.gives service) C.ticks bytes w es rest w' }
    ensures same { (service : S) (bytes : List ℕ) (es ds : List Exchange)
        (x y : List ℕ) → HaveSameRequests (S.gives service) C.ticks bytes es ds x y }
{}
