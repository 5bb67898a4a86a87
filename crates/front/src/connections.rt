//! How the server's workers serve connections.
ghost use Rattle.std.specs.Prelude.{◌≡◌, ◌≤◌, length, map, not};
ghost use Rattle.history.specs.Handles.{is_closed_pass};
ghost use Rattle.ingester.specs.Calls.{IsPassOf};
ghost use Rattle.answering.specs.Serving.{world};
ghost use Rattle.front.specs.Sessions.{session_seen, WasVisited, WereVisited};

use crate::full::FullShards;
use crate::serving::Service;
use answering::{Clock, Connection, KeepsConnection, Workspace};
use disk::Disk;
use ingester::{Ingester, Pass};
use std::alloc::Global;
use std::collections::VecDeque;
use std::marker::PhantomData;
use std::sync::Wait;
use talks::{Serve, Session};

/// A connection as its worker keeps it. `C` is the clock by which it is served.
#[derive(Drop)]
pub struct KeptConnection<C> {
    connection: Connection,
    of: PhantomData<C>,
}

impl<C: Clock> Session for KeptConnection<C> {
    ghost seen = { λ kept. session_seen kept.connection };

    ghost visited = { λ old new. WasVisited C.ticks old.connection new.connection };

    fn open(alloc: Global) -> KeptConnection<C> {
        KeptConnection {
            connection: Connection::new(alloc),
            of: PhantomData,
        }
    }

    fn room(&self) -> usize {
        self.connection.room()
    }

    fn held(&self) -> usize {
        self.connection.held()
    }

    fn text(&self) -> &[u8] {
        self.connection.text()
    }

    fn closes(&self) -> bool {
        self.connection.closes()
    }

    fn take_in(&mut self, bytes: &[u8]) -> bool {
        self.connection.take_in(bytes).is_ok()
    }

    fn sent(&mut self, count: usize) {
        self.connection.sent(count);
    }
}

impl<C> KeepsConnection for KeptConnection<C> {
    ghost kept = { λ kept. kept.connection };

    fn into_connection(self) -> Connection {
        self.connection
    }

    fn of_connection(connection: Connection) -> KeptConnection<C>
        ensures { result.connection ≡ connection }
    {
        KeptConnection {
            connection,
            of: PhantomData,
        }
    }
}

/// Serves connections by the calls of an ingester and a clock. What a connection was answered stands when it fails. A
/// pass is closed when its numbers are used up or a call of it is in doubt, and its worker then ends. It tells `full`
/// of calls that find no room.
#[derive(Drop)]
pub struct Connections<'a, C: Clock, F: FullShards> {
    clock: C,
    full: &'a F,
    workspace: Workspace,
}

impl<'a, C: Clock, F: FullShards> Connections<'a, C, F> {
    /// Serves connections by this clock, and tells `full` of shards that have no room.
    pub fn new(alloc: Global, clock: C, full: &'a F) -> Connections<'a, C, F> {
        Connections {
            clock,
            full,
            workspace: Workspace::new(alloc),
        }
    }
}

impl<'a, D: Disk + Drop, C: Clock, F: FullShards> Serve<Ingester<D>, Pass>
    for Connections<'a, C, F> {
    type Session = KeptConnection<C>;

    ghost is_pass_of = { IsPassOf };

    ghost may_go_on = { λ pass. not (is_closed_pass pass) };

    ghost visits = { λ ingester server pass pairs server' pass'. WereVisited C.ticks
        (world pass server.clock) (map (λ both. both.0.connection) pairs)
        (world pass' server'.clock) (map (λ both. both.1.connection) pairs) };

    fn visit_all<R: Wait>(
        &mut self,
        rt: &R,
        alloc: Global,
        ingester: &Ingester<D>,
        pass: &mut Pass,
        sessions: &mut VecDeque<KeptConnection<C>>,
    ) {
        let service = Service {
            ingester,
            full: self.full,
        };
        service.visit_all(
            rt,
            alloc,
            pass,
            &mut self.clock,
            sessions,
            &mut self.workspace,
        );
    }

    fn may_go_on(&self, pass: &Pass) -> bool {
        !pass.is_closed()
    }
}
