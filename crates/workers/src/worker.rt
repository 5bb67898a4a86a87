//! What a worker's thread does.
ghost use Rattle.std.specs.Prelude.{◌≡◌};
ghost use Rattle.talks.specs.Talks.{Visits};
ghost use Rattle.workers.specs.Workers.{HasEnded, WasServed};

use crate::clerk::{Clerk, send_ready};
use crate::event_loop::EventLoop;
use crate::inbox::NobodySends;
use std::alloc::Global;
use std::marker::PhantomData;
use std::rt::Clock;
use std::snapshot::Snapshot;
use std::sync::Wait;
use std::thread::Promise;
use talks::{Batch, Serve, Session};

/// What a worker's thread is given.
#[derive(Drop)]
pub(crate) struct Worker<'a, I, P, S: Serve<I, P>, R> {
    pub(crate) rt: &'a R,
    pub(crate) alloc: Global,
    pub(crate) clerk: Clerk<'a, I, P, S>,
    pub(crate) event_loop: Box<EventLoop<'a, S::Session>>,
    pub(crate) batch: Batch<S::Session>,
}

/// Why a worker has ended.
#[derive(Drop)]
pub enum Why {
    /// Nobody sends it connections any more, and each that it had has ended.
    NoMore(NobodySends),
    /// Its pass is closed.
    PassClosed,
}

/// What a worker hands back.
#[derive(Drop)]
pub(crate) struct WorkerEnd<P> {
    pub(crate) pass: P,
    pub(crate) why: Why,
}

/// What a worker hands back is a pass of its service, as its visits left it, and it had a reason to end.
#[derive(Drop)]
pub(crate) struct OfService<I, P, S: Serve<I, P>> {
    service: Snapshot<I>,
    server: Snapshot<S>,
    start: Snapshot<P>,
    of: PhantomData<(P, S)>,
}

impl<I, P, S: Serve<I, P>> OfService<I, P, S> {
    /// Of what this worker is given.
    pub(crate) fn of<R>(worker: &Worker<'_, I, P, S, R>) -> OfService<I, P, S>
        ensures service { result.service.value ≡ worker.now.clerk.service.now }
        ensures server { result.server.value ≡ worker.now.clerk.server }
        ensures start { result.start.value ≡ worker.now.clerk.pass }
    {
        OfService {
            service: Snapshot::of(worker.clerk.service),
            server: Snapshot::of(&worker.clerk.server),
            start: Snapshot::of(&worker.clerk.pass),
            of: PhantomData,
        }
    }
}

impl<I, P, S: Serve<I, P>> Promise<WorkerEnd<P>> for OfService<I, P, S> {
    ghost kept_by = { λ promise ended. S.is_pass_of promise.service.value ended.pass
        × HasEnded S.may_go_on ended.why ended.pass
        × WasServed S.visits promise.service.value promise.server.value promise.start.value ended.pass };
}

/// Serves connections until no more come and each has ended, or the pass is closed. Then what was answered is still
/// sent. Gives the pass back.
pub(crate) fn work<I, P, S: Serve<I, P> + Drop, R: Wait + Clock>(
    worker: Worker<'_, I, P, S, R>,
) -> WorkerEnd<P>
    requires { S.is_pass_of worker.clerk.service.now worker.clerk.pass }
    ensures pass { S.is_pass_of worker.entry.clerk.service.now result.pass }
    ensures why { HasEnded S.may_go_on result.why result.pass }
    ensures served { WasServed S.visits worker.entry.clerk.service.now worker.entry.clerk.server
        worker.entry.clerk.pass result.pass }
{
    let Worker {
        rt,
        alloc,
        mut clerk,
        mut event_loop,
        batch,
    } = worker;
    let why = serve_all(rt, alloc, &mut clerk, &mut *event_loop, batch);
    leave(rt, alloc, event_loop);
    WorkerEnd {
        pass: clerk.pass,
        why,
    }
}

// Visits connections, and those that arrive, until no more come and each has ended, or the pass is closed.
fn serve_all<I, P, S: Serve<I, P>, R: Wait + Clock>(
    rt: &R,
    alloc: Global,
    clerk: &mut Clerk<'_, I, P, S>,
    event_loop: &mut EventLoop<'_, S::Session>,
    mut batch: Batch<S::Session>,
) -> Why
    requires { S.is_pass_of clerk.old.service.now clerk.old.pass }
    ensures pass { S.is_pass_of clerk.new.service.now clerk.new.pass }
    ensures same { clerk.new.service.now ≡ clerk.old.service.now }
    ensures why { HasEnded S.may_go_on result clerk.new.pass }
    ensures visits { Visits S.visits clerk.old.service.now clerk.old.server clerk.old.pass
        clerk.new.server clerk.new.pass }
{
    for _turn in rt.forever() {
        let now = event_loop.wait(rt);
        event_loop.admit_arrived(rt, alloc, now);
        batch = clerk.visit_ready(rt, alloc, event_loop, batch, now);
        event_loop.tick(alloc, now);
        if let Some(told) = event_loop.done() {
            return Why::NoMore(told);
        }
        if !clerk.server.may_go_on(&clerk.pass) {
            return Why::PassClosed;
        }
    }
    unreachable!()
}

// Sends what was answered, and ends each connection.
fn leave<T: Session + Drop, R: Wait + Clock>(
    rt: &R,
    alloc: Global,
    mut event_loop: Box<EventLoop<'_, T>>,
) {
    event_loop.leave();
    for _turn in rt.forever() {
        if event_loop.peers.is_empty() {
            return;
        }
        let now = event_loop.wait(rt);
        send_ready(&mut *event_loop, now);
        event_loop.tick(alloc, now);
    }
}
