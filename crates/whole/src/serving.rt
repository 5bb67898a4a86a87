//! One connection, served without threads, until a crash cuts a turn.
ghost use Rattle.std.specs.Prelude.{◌≡◌, [], ◌∷◌, Bool, false, IfSome};
ghost use Rattle.accept.specs.OneStream.{AreLimits};
ghost use Rattle.accept.specs.Calls.{AreNumbers};
ghost use Rattle.answering.specs.Gathering.{known};
ghost use Rattle.answering.specs.Serving.{world};
ghost use Rattle.one_life.specs.Cut.{IsOn, opening_with};
ghost use Rattle.whole.specs.ServedOnce.{AreServing, IsFirstVisited, IsServedOnce};

use crate::by_turns::ByTurns;
use accept::{Call, Limits};
use answering::{Connection, KeepsConnection, Workspace, answer_connections};
use disk::Disk;
use front::Clock;
use one_life::{Two, cut_turn, open_two};
use std::alloc::Global;
use std::collections::VecDeque;
use std::snapshot::Snapshot;
use std::sync::Wait;
use wal::Capacity;

/// What two shards are opened over, and how.
#[derive(Drop)]
pub struct Beginning<D: Disk> {
    /// The slots of each shard.
    pub slots: ([D; 2], [D; 2]),
    /// What streams take.
    pub limits: Limits,
    /// How many bytes a segment has at most.
    pub capacity: Capacity,
}

// A connection that is served for itself.
#[derive(Drop)]
struct LoneConnection {
    connection: Connection,
}

impl KeepsConnection for LoneConnection {
    ghost kept = { λ alone. alone.connection };

    fn into_connection(self) -> Connection {
        self.connection
    }

    fn of_connection(connection: Connection) -> LoneConnection
        ensures { result.connection ≡ connection }
    {
        LoneConnection { connection }
    }
}

impl<'a, D: Disk + Drop> ByTurns<'a, D> {
    /// Takes in what has come of a new connection, and answers a request in it. `None` if that is more than may come
    /// before a first visit, or there was no memory for it.
    pub fn visit<R: Wait, C: Clock>(
        &self,
        rt: &R,
        alloc: Global,
        it: &mut Two<D>,
        clock: &mut C,
        bytes: &[u8],
    ) -> Option<Connection>
        requires { AreServing D.sight D.follows self.now.history.now
            (opening_with self.now.start.value) it.old }
        ensures serving { IfSome result (λ _. AreServing D.sight D.follows self.now.history.now
            (opening_with self.now.start.value) it.new) }
        ensures visited { IfSome result (λ connection. (doubt : Bool)
            × IsFirstVisited C.ticks bytes.now connection
            (world (known it.old.one false) clock.old) (world (known it.new.one doubt) clock.new)) }
    {
        let mut connection = Connection::new(alloc);
        if bytes.len() > connection.room() {
            return None;
        }
        let Ok(()) = connection.take_in(bytes) else {
            return None;
        };
        let mut connections = VecDeque::new(alloc);
        let Ok(()) = connections.push_back(LoneConnection { connection }) else {
            return None;
        };
        let mut workspace = Workspace::new(alloc);
        answer_connections(rt, alloc, self, it, clock, &mut connections, &mut workspace);
        match connections.pop_front() {
            Some(alone) => Some(alone.connection),
            None => None,
        }
    }
}

/// Opens two shards with two passes, without threads, and serves a connection by the first pass: these bytes come of
/// it, and a request in them is answered, each call by a turn of its shard. Then the passes meet. Then the first pass
/// announces a further call, and the first shard makes a turn at it, at any moment of which a crash may come. Whatever
/// beginning of the text of the connection was sent by then, this is what the law `whole` asks for, and so what it
/// says.
///
/// `None` if the slots are refused, if memory ran out, if more bytes came than may come before a first visit, or if the
/// pass was closed.
pub fn serve_once<D: Disk + Drop, R: Wait, C: Clock>(
    rt: &R,
    alloc: Global,
    beginning: Beginning<D>,
    clock: &mut C,
    bytes: &[u8],
    last: Call,
) -> Option<(Two<D>, Connection)>
    requires limits { AreLimits beginning.limits }
    requires shard { IsOn 0 last }
    requires numbers { AreNumbers last }
    ensures { IfSome result (λ it. IsServedOnce D.sight D.follows C.ticks
        (beginning.slots.0 ∷ beginning.slots.1 ∷ []) bytes.now (clock.old, clock.new) it.1.text last it.0) }
{
    let Beginning {
        slots,
        limits,
        capacity,
    } = beginning;
    let (history, mut it) = open_two(alloc, slots, limits, capacity)?;
    let service = ByTurns {
        history: &history,
        start: Snapshot::of(&it),
    };
    let connection = service.visit(rt, alloc, &mut it, clock, bytes)?;
    history.meet(&mut it.one, &mut it.two);
    match cut_turn(alloc, &history, &mut it, last) {
        Some(_) => Some((it, connection)),
        None => None,
    }
}
