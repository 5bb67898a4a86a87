//! An ingester as what makes the calls of requests.
ghost use Rattle.std.specs.Prelude.{◌≡◌, ◌<◌, Bool, false, map};
ghost use Rattle.accept.specs.OneStream.{end_of_time};
ghost use Rattle.ingester.specs.Calls.{IsPassOf};
ghost use Rattle.answering.specs.Gathering.{AreVisitedSo, known};
ghost use Rattle.answering.specs.Responses.{RequestIsAnswered};
ghost use Rattle.answering.specs.Serving.{ConnectionIsServed, world, io};
ghost use Rattle.front.specs.Calls.{CallGives};

use crate::full::{FullShards, Untold};
use accept::{Call, CallFault, Reply};
use answering::{
    Answer, Calls, Clock, Ends, KeepsConnection, RequestBody, Route, ServeFault, Served, Workspace,
    answer_connections,
};
use disk::Disk;
use ingester::{Ingester, Pass};
use labels::Tenant;
use std::alloc::Global;
use std::collections::VecDeque;
use std::io::{Read, Write};
use std::sync::Wait;

/// An ingester, by which the calls of requests are made, and who is told of full shards.
#[derive(Drop)]
pub struct Service<'a, D: Disk + Drop, F> {
    pub ingester: &'a Ingester<D>,
    pub full: &'a F,
}

// Where a call of this pass found no room: tells of its shard.
fn tell_if_full<R: Wait, F: FullShards>(
    rt: &R,
    full: &F,
    pass: &Pass,
    outcome: &Result<Reply, CallFault>,
) {
    if let Ok(Reply::NoRoom) = outcome
        && let Some(shard) = pass.next_full()
        && let Ok(shard) = u32::try_from(shard)
    {
        full.found_no_room(rt, shard);
    }
}

impl<'a, D: Disk + Drop, F: FullShards> Calls for Service<'a, D, F> {
    type Pass = Pass;

    ghost is_ready = { λ service. IsPassOf service.ingester.now };

    ghost gives = { λ _. CallGives };

    fn call<R: Wait>(
        &self,
        rt: &R,
        alloc: Global,
        pass: &mut Pass,
        call: Call,
    ) -> Result<Reply, CallFault> {
        let outcome = self.ingester.call(rt, alloc, pass, call);
        tell_if_full(rt, self.full, pass, &outcome);
        outcome
    }

    fn call_all<R: Wait>(
        &self,
        rt: &R,
        alloc: Global,
        pass: &mut Pass,
        calls: &mut VecDeque<Call>,
        outcomes: &mut VecDeque<Result<Reply, CallFault>>,
    ) {
        self.ingester.call_all(rt, alloc, pass, calls, outcomes);
        for outcome in outcomes.iter() {
            tell_if_full(rt, self.full, pass, outcome);
        }
    }
}

impl<'a, D: Disk + Drop, F: FullShards> Service<'a, D, F> {
    /// Answers a request of each connection: `answering::answer_connections` by the calls of this ingester.
    pub fn visit_all<R: Wait, C: Clock, T: KeepsConnection + Drop>(
        &self,
        rt: &R,
        alloc: Global,
        pass: &mut Pass,
        clock: &mut C,
        connections: &mut VecDeque<T>,
        workspace: &mut Workspace,
    )
        requires pass { IsPassOf self.now.ingester.now pass.old }
        ensures pass { IsPassOf self.now.ingester.now pass.new }
        ensures visits { (doubt : Bool) × AreVisitedSo CallGives C.ticks
            (world (known pass.old false) clock.old) (map T.kept connections.old.items)
            (world (known pass.new doubt) clock.new) (map T.kept connections.new.items) }
    {
        answer_connections(rt, alloc, self, pass, clock, connections, workspace);
    }
}

/// Makes the calls that a request asks for, in the order of its body, and gives status and body of its
/// answer. The labels of all streams of a push are read first, and then their calls are made in windows of up
/// to 64 streams. A refused stream does not stop the rest of a push. `now` is the clock in nanoseconds, below
/// 2^63. After an answer of status 500 no call is made after the window in which one failed; calls that were
/// made stand. Where a call is in doubt, each that comes after it in its window is in doubt too or was not made.
///
/// # Errors
///
/// `Memory`, where there was none before any call, and none to say so; or none for an answer of another status
/// than 500, and calls made before stand.
pub fn answer<D: Disk + Drop, R: Wait>(
    rt: &R,
    alloc: Global,
    ingester: &Ingester<D>,
    pass: &mut Pass,
    now: u64,
    route: Route,
    tenant: &Tenant,
    body: &[u8],
) -> Result<Answer, ServeFault>
    requires pass { IsPassOf ingester.now pass.old }
    requires clock { now < end_of_time }
    ensures pass { IsPassOf ingester.now pass.new }
    ensures answers { RequestIsAnswered
        CallGives route now tenant.now body.now pass.old result
        pass.new }
{
    let service = Service {
        ingester,
        full: &Untold,
    };
    let request = RequestBody {
        time: now,
        route,
        tenant,
        body,
    };
    answering::answer(rt, alloc, &service, pass, &request)
}

/// Answers the requests of a connection, one after another, until its stream ends between two or an
/// answer closes it. The clock is read once for each whole request. No call is made of a request that was
/// cut. Each answer is one write, where the writer takes it whole.
///
/// # Errors
///
/// `Read`, `Memory` and `CutShort`: what is written are whole answers of a beginning of the requests.
/// `Memory` never comes in place of an answer of status 500.
/// `Write`: a beginning of the answers is written. Calls made before stand.
pub fn serve<D: Disk + Drop, R: Wait, C: Clock, I: Read, O: Write>(
    rt: &R,
    alloc: Global,
    ingester: &Ingester<D>,
    pass: &mut Pass,
    clock: &mut C,
    reader: &mut I,
    writer: &mut O,
) -> Result<Served, ServeFault>
    requires pass { IsPassOf ingester.now pass.old }
    ensures pass { IsPassOf ingester.now pass.new }
    ensures serves { ConnectionIsServed CallGives C.ticks
        (io (I.remaining reader.old) (O.contents writer.old)) (world pass.old clock.old)
        (io (I.remaining reader.new) (O.contents writer.new)) (world pass.new clock.new) result }
{
    let service = Service {
        ingester,
        full: &Untold,
    };
    let mut ends = Ends::new(reader, writer);
    answering::serve(rt, alloc, &service, pass, clock, &mut ends)
}
