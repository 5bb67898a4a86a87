//! The function does nothing: its contract is the law.
ghost use Rattle.std.specs.Prelude.{List};
ghost use Rattle.owners.specs.Openings.{Opening};
ghost use Rattle.headline.specs.Threads.{Thread, IsThread};
ghost use Rattle.headline.specs.Headline.{IsOneOf};
ghost use Rattle.headline.specs.Lives.{ShardEnd, IsLife};
ghost use Rattle.front.specs.Visits.{Line};
ghost use Rattle.whole.specs.Visits.{Worker, IsWorker, IsLine, AreThreadsOf};
ghost use Rattle.whole.specs.Whole.{IsWhole};

use disk::Disk;
use front::Clock;

/// What the front page says, of the bytes of all connections: whatever visits the workers of an opening made, each by
/// its pass, of whatever connections, and however the opening ended, closed or cut at any moment. `given` are the slots
/// over which it was opened. Each worker's pass is a thread of the opening, so a life is asked for with these threads.
pub fn whole<D: Disk, C: Clock>()
    ensures { (given : List (List D)) (opening : Opening D) (ends : List (ShardEnd D))
        (workers : List (Worker C)) (lines : List (Line C))
        → ((w : Worker C) → IsOneOf w workers → IsWorker C.ticks opening w)
        → ((line : Line C) → IsOneOf line lines → IsLine workers line)
        → (threads : List Thread) × AreThreadsOf workers threads
        × ((t : Thread) → IsOneOf t threads → IsThread opening t)
        × (IsLife D.sight D.follows
        (record { given = given; opening = opening; threads = threads; ends = ends })
        → IsWhole D.sight D.follows C.ticks
        (record { given = given; opening = opening; threads = threads; ends = ends })
        workers lines) }
{}
