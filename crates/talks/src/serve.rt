//! What serves the connections of a worker.
ghost use Rattle.std.specs.Prelude.{◌≡◌, ◌≤◌, zip};
ghost use Rattle.std.specs.VecDeque.{deque_len};
ghost use Rattle.talks.specs.Talks.{EachWasVisited};

use crate::session::Session;
use std::alloc::Global;
use std::collections::VecDeque;
use std::sync::Wait;

/// The most sessions that are visited together.
pub const BATCH: usize = 64;

/// How a worker serves connections: over the service `I`, which all workers share, and by a pass `P` of its own. A
/// higher crate implements it and says what the two are: this crate needs no more of them.
pub trait Serve<I, P> {
    /// What is kept of a connection between visits.
    type Session: Session + Drop;

    ghost use Rattle.std.specs.Prelude.{Bool, List};

    /// The pass is one of this service's.
    ghost is_pass_of: { I → P → Type 0 };

    /// Whether a worker with this pass may go on.
    ghost may_go_on: { P → Bool };

    /// Visits of these sessions, each with what it was and what it is then: from a server and its pass to what the two
    /// are then.
    ghost visits: { I → Self → P → List (Self.Session × Self.Session) → Self → P → Type 0 };

    /// Answers a request of each of these sessions, where one has come. There may be more to answer of a session that
    /// has no room left and does not close.
    fn visit_all<R: Wait>(
        &mut self,
        rt: &R,
        alloc: Global,
        service: &I,
        pass: &mut P,
        sessions: &mut VecDeque<Self::Session>,
    )
        requires pass { is_pass_of service.now pass.old }
        requires few { deque_len sessions.old ≤ BATCH }
        ensures pass { is_pass_of service.now pass.new }
        ensures visited { EachWasVisited Self.Session.visited sessions.old.items sessions.new.items }
        ensures visits { visits service.now self.old pass.old
            (zip sessions.old.items sessions.new.items) self.new pass.new };

    /// Whether a worker with this pass may go on.
    fn may_go_on(&self, pass: &P) -> bool
        ensures { result ≡ may_go_on pass.now };
}
