//! The threads of the workers.
ghost use Rattle.std.specs.Prelude.{◌≡◌, ℕ, Some, All, slice_get, IfOk, OnOk};
ghost use Rattle.workers.specs.Workers.{ArePassesLeft, HasEnded, IsServedFor, WasServed, with_starts};

use crate::accepting::{AcceptEnd, Acceptor, Bounds, Link, Watch, close};
use crate::clerk::Clerk;
use crate::event_loop::{EventLoop, WAKER};
use crate::fault::WorkersFault;
use crate::inbox::Inbox;
use crate::shared::{Shared, WorkerLoad};
use crate::worker::{OfService, Worker, WorkerEnd, work};
use crossbeam_channel::{Sender, bounded};
use mio::{Poll, Waker};
use std::alloc::Global;
use std::net::{Net, TcpListener};
use std::rt::Clock;
use std::sync::Wait;
use std::thread::{self, PromisedHandle, Scope, Threads};
use talks::{Batch, NewSocket, Serve, Session};

/// How many connections may wait for a worker.
const WAITING: usize = 64;

// A worker's thread.
type Thread<I, P, S> = PromisedHandle<WorkerEnd<P>, OfService<I, P, S>>;

// The passes that no worker has, the workers' threads, and the acceptor's sides of the workers.
#[derive(Drop)]
struct Crew<'s, I, P: Drop, S: Serve<I, P>> {
    passes: Vec<P>,
    threads: Vec<Thread<I, P, S>>,
    links: Vec<Link<'s>>,
}

// What all workers and the acceptor share.
#[derive(Drop)]
struct Site<'s, I, R> {
    rt: &'s R,
    alloc: Global,
    service: &'s I,
    listener: &'s TcpListener,
    shared: &'s Shared,
}

// What a worker is given for itself, beside its pass.
#[derive(Drop)]
struct Post<S> {
    server: S,
    /// Where it waits.
    poll: Poll,
}

// A post for each of these servers, at most `count`, and what the worker there tells the others.
fn make_posts<S: Drop, R: Net>(
    rt: &R,
    alloc: Global,
    servers: Vec<S>,
    count: usize,
) -> Result<(Vec<Post<S>>, Vec<WorkerLoad>), WorkersFault> {
    let mut posts = Vec::with_capacity(alloc, count)?;
    let mut loads = Vec::with_capacity(alloc, count)?;
    for server in servers {
        if posts.len() == count {
            break;
        }
        let Ok(poll) = Poll::new(rt) else {
            return Err(WorkersFault::Thread);
        };
        let Ok(waker) = Waker::new(poll.registry(), WAKER) else {
            return Err(WorkersFault::Thread);
        };
        let load = WorkerLoad::new(waker);
        if posts.push(Post { server, poll }).is_err() || loads.push(load).is_err() {
            return Err(WorkersFault::Memory);
        }
    }
    Ok((posts, loads))
}

// The connections of a worker, and where the acceptor puts them.
fn make<'s, T: Session + Drop>(
    alloc: Global,
    poll: Poll,
    load: &'s WorkerLoad,
    shared: &'s Shared,
) -> Result<(Box<EventLoop<'s, T>>, Sender<NewSocket>), WorkersFault> {
    let (sender, receiver) = bounded(alloc, WAITING)?;
    let event_loop = EventLoop::new(alloc, poll, Inbox::new(receiver), load, shared)?;
    let Ok(event_loop) = Box::new(alloc, event_loop) else {
        return Err(WorkersFault::Memory);
    };
    Ok((event_loop, sender))
}

// Starts a worker.
fn start<'s, E, I, P, S, R>(
    scope: &'s Scope<'s, E>,
    worker: Worker<'s, I, P, S, R>,
) -> Result<Thread<I, P, S>, WorkersFault>
where
    I: Sync + 's,
    P: Drop + Send + 's,
    S: Serve<I, P> + Drop + Send + 's,
    S::Session: Send,
    R: Threads + Wait + Clock + Net + Sync,
    requires pass { S.is_pass_of worker.clerk.service.now worker.clerk.pass }
    ensures service { IfOk result (λ thread. thread.promise.service.value ≡ worker.entry.clerk.service.now) }
    ensures start { IfOk result (λ thread. thread.promise.start.value ≡ worker.entry.clerk.pass) }
{
    let promise = OfService::of(&worker);
    let run = move || -> WorkerEnd<P>
        requires { S.is_pass_of worker.clerk.service.now worker.clerk.pass }
        ensures { S.is_pass_of worker.entry.clerk.service.now result.pass × HasEnded S.may_go_on result.why result.pass
            × WasServed S.visits worker.entry.clerk.service.now worker.entry.clerk.server
            worker.entry.clerk.pass result.pass }
    { work(worker) };
    match scope.spawn_with(promise, run) {
        Ok(thread) => Ok(thread),
        Err(_) => Err(WorkersFault::Thread),
    }
}

// Starts a worker for the next pass, and adds its thread to the others. Tells whether a pass was left for it.
fn start_next<'s, E, I, P, S, R>(
    scope: &'s Scope<'s, E>,
    site: &Site<'s, I, R>,
    crew: &mut Crew<'s, I, P, S>,
    post: Post<S>,
    load: &'s WorkerLoad,
) -> Result<bool, WorkersFault>
where
    I: Sync + 's,
    P: Drop + Send + 's,
    S: Serve<I, P> + Drop + Send + 's,
    S::Session: Send,
    R: Threads + Wait + Clock + Net + Sync,
    requires passes { All (S.is_pass_of site.now.service.now) crew.old.passes.items }
    requires threads { All (λ thread. thread.promise.service.value ≡ site.now.service.now) crew.old.threads.items }
    ensures passes { All (S.is_pass_of site.now.service.now) crew.new.passes.items }
    ensures threads { All (λ thread. thread.promise.service.value ≡ site.now.service.now) crew.new.threads.items }
    ensures order { OnOk result (with_starts (λ thread. thread.promise.start.value) crew.new.passes.items
        crew.new.threads.items ≡ with_starts (λ thread. thread.promise.start.value)
        crew.old.passes.items crew.old.threads.items) }
{
    let Post { server, poll } = post;
    let (event_loop, sender) = make(site.alloc, poll, load, site.shared)?;
    let batch = Batch::new(site.alloc)?;
    let Some(pass) = crew.passes.pop() else {
        return Ok(false);
    };
    let clerk = Clerk {
        service: site.service,
        pass,
        server,
    };
    let worker = Worker {
        rt: site.rt,
        alloc: site.alloc,
        clerk,
        event_loop,
        batch,
    };
    let thread = start(scope, worker)?;
    if crew.threads.push(thread).is_err() {
        return Err(WorkersFault::Memory);
    }
    let link = Link {
        arrivals: Some(sender),
        load,
    };
    if crew.links.push(link).is_err() {
        return Err(WorkersFault::Memory);
    }
    Ok(true)
}

// Starts a worker for each pass, and adds its thread to the others. Leaves the passes for which no worker was started.
fn start_all<'s, E, I, P, S, R>(
    scope: &'s Scope<'s, E>,
    site: &Site<'s, I, R>,
    crew: &mut Crew<'s, I, P, S>,
    mut posts: Vec<Post<S>>,
) -> Result<(), WorkersFault>
where
    I: Sync + 's,
    P: Drop + Send + 's,
    S: Serve<I, P> + Drop + Send + 's,
    S::Session: Send,
    R: Threads + Wait + Clock + Net + Sync,
    requires passes { All (S.is_pass_of site.now.service.now) crew.old.passes.items }
    requires threads { All (λ thread. thread.promise.service.value ≡ site.now.service.now) crew.old.threads.items }
    ensures passes { All (S.is_pass_of site.now.service.now) crew.new.passes.items }
    ensures threads { All (λ thread. thread.promise.service.value ≡ site.now.service.now) crew.new.threads.items }
    ensures order { OnOk result (with_starts (λ thread. thread.promise.start.value) crew.new.passes.items
        crew.new.threads.items ≡ with_starts (λ thread. thread.promise.start.value)
        crew.old.passes.items crew.old.threads.items) }
{
    while let Some(post) = posts.pop() {
        let Some(load) = site.shared.loads.get(posts.len()) else {
            break;
        };
        if !start_next(scope, site, crew, post, load)? {
            break;
        }
    }
    Ok(())
}

// Waits until all workers have ended. Gives all passes, in the order in which they were before the workers were
// started, or says that there was no memory for one.
fn join_all<I, P: Drop, S: Serve<I, P>, R: Threads>(
    rt: &R,
    service: &I,
    crew: Crew<'_, I, P, S>,
) -> (Vec<P>, Result<(), WorkersFault>)
    requires passes { All (S.is_pass_of service.now) crew.passes.items }
    requires threads { All (λ thread. thread.promise.service.value ≡ service.now) crew.threads.items }
    ensures passes { All (S.is_pass_of service.now) result.0.items }
    ensures left { OnOk result.1 (ArePassesLeft S.visits service.now
        (with_starts (λ thread. thread.promise.start.value) crew.entry.passes.items crew.entry.threads.items)
        result.0.items) }
{
    let _ = service;
    let Crew {
        mut passes,
        mut threads,
        links: _links,
    } = crew;
    let mut joined = Ok(());
    while let Some(thread) = threads.pop() {
        let WorkerEnd { pass, .. } = thread.join(rt);
        if passes.push(pass).is_err() {
            joined = Err(WorkersFault::Memory);
        }
    }
    (passes, joined)
}

// Starts the workers, hands them the connections that come, and waits until all have ended.
fn serve_in<'s, E, I, P, S, R, W: Watch>(
    scope: &'s Scope<'s, E>,
    site: &Site<'s, I, R>,
    crew: Crew<'s, I, P, S>,
    posts: Vec<Post<S>>,
    bounds: &Bounds<'_, W>,
) -> (Vec<P>, Result<AcceptEnd, WorkersFault>)
where
    I: Sync + 's,
    P: Drop + Send + 's,
    S: Serve<I, P> + Drop + Send + 's,
    S::Session: Send,
    R: Threads + Wait + Clock + Net + Sync,
    requires passes { All (S.is_pass_of site.now.service.now) crew.passes.items }
    requires threads { All (λ thread. thread.promise.service.value ≡ site.now.service.now) crew.threads.items }
    ensures passes { All (S.is_pass_of site.now.service.now) result.0.items }
    ensures left { OnOk result.1 (ArePassesLeft S.visits site.now.service.now
        (with_starts (λ thread. thread.promise.start.value) crew.entry.passes.items crew.entry.threads.items)
        result.0.items) }
    ensures served { IfOk result.1 (IsServedFor bounds.now.connections) }
{
    let mut crew = crew;
    let served = match start_all(scope, site, &mut crew, posts) {
        Ok(()) => accept(site, crew.links.as_slice(), bounds),
        Err(fault) => Err(fault),
    };
    close(crew.links.as_mut_slice());
    let (passes, joined) = join_all(site.rt, site.service, crew);
    match (served, joined) {
        (Ok(end), Ok(())) => (passes, Ok(end)),
        (Err(fault), _) | (Ok(_), Err(fault)) => (passes, Err(fault)),
    }
}

// Hands the connections that come to the workers.
fn accept<I, R: Wait + Clock + Net, W: Watch>(
    site: &Site<'_, I, R>,
    links: &[Link<'_>],
    bounds: &Bounds<'_, W>,
) -> Result<AcceptEnd, WorkersFault>
    ensures { IfOk result (IsServedFor bounds.now.connections) }
{
    let mut acceptor = Acceptor::new(
        site.rt,
        site.alloc,
        site.listener,
        links,
        site.shared,
        bounds,
    )?;
    Ok(acceptor.accept(site.rt))
}

/// Serves the connections that come to a listener, at most as many as its bounds say. One thread accepts them, and
/// hands each to the worker with the fewest. For each pass a worker serves many connections, with its server: a
/// connection stays with its worker from its first byte to its last, and costs memory and no worker while it is idle.
/// Gives the passes back once all workers have ended, in their order, each as the visits by it left it; after an error
/// one of them may be missing.
///
/// It ends when this many connections have come and each has ended. A worker ends once its server tells that it may
/// not go on: what it has answered is still sent, and its other connections are closed. Where no worker is left, all
/// ends within a second. It ends at once, with an error, where there is no memory or a thread cannot be started. A
/// connection is closed after `IDLE_SECONDS` without a byte either way, and `REQUEST_SECONDS` after the first byte of a
/// request that has not come whole. A connection that could not be accepted is not counted, and costs 10 milliseconds.
pub fn serve_listener<'a, I, P, S, R, W: Watch>(
    rt: &'a R,
    alloc: Global,
    service: &'a I,
    passes: Vec<P>,
    servers: Vec<S>,
    listener: &'a TcpListener,
    bounds: &Bounds<'_, W>,
) -> (Vec<P>, Result<AcceptEnd, WorkersFault>)
where
    I: Sync,
    P: Drop + Send,
    S: Serve<I, P> + Drop + Send,
    S::Session: Send,
    R: Threads + Wait + Clock + Net + Sync,
    requires passes { (i : ℕ) (pass : P) → slice_get passes.items i ≡ Some pass
        → S.is_pass_of service.now pass }
    ensures passes { (i : ℕ) (pass : P) → slice_get result.0.items i ≡ Some pass
        → S.is_pass_of service.now pass }
    ensures left { OnOk result.1 (ArePassesLeft S.visits service.now passes.items result.0.items) }
    ensures served { IfOk result.1 (IsServedFor bounds.now.connections) }
{
    let count = passes.len().min(servers.len());
    let (posts, loads) = match make_posts(rt, alloc, servers, count) {
        Ok(made) => made,
        Err(fault) => return (passes, Err(fault)),
    };
    let shared = Shared::new(rt, loads, bounds.half_sent);
    let site = Site {
        rt,
        alloc,
        service,
        listener,
        shared: &shared,
    };
    thread::scope(
        thread::scope_env(),
        rt,
        |scope| -> (Vec<P>, Result<AcceptEnd, WorkersFault>)
            requires { All (S.is_pass_of site.service.now) passes.items }
            ensures { All (S.is_pass_of site.entry.service.now) result.0.items
                × OnOk result.1 (ArePassesLeft S.visits site.entry.service.now passes.items result.0.items)
                × IfOk result.1 (IsServedFor bounds.entry.now.connections) }
        {
            let crew = Crew {
                passes,
                threads: Vec::new(alloc),
                links: Vec::new(alloc),
            };
            serve_in(scope, &site, crew, posts, bounds)
        },
    )
}
