//! The program `ingesterd`: the server.
ghost use Rattle.std.specs.Prelude.{◌≡◌, ◌≢◌, ◌↔◌, ◌≤◌, ℕ, Some, IfErr, IfOk, IsSome, OnOk, slice_get, option_map, string_bytes};
ghost use Rattle.history.specs.Handles.{Passed};
ghost use Rattle.ingester.specs.Calls.{IsPassOf};
ghost use Rattle.accept.specs.OneStream.{AreLimits};
ghost use Rattle.programs.specs.Words.{GiveServer, GivesCapacity, capacity_of, GivesOpen, GivesHalfSent};
ghost use Rattle.programs.specs.Environments.{limits_of};
ghost use Rattle.front.specs.Openings.{IsOpenedUnder, IsOverUntouched};
ghost use Rattle.front.specs.Stops.{stop_status};
ghost use Rattle.front.specs.Clocks.{IsTick};
ghost use Rattle.front.specs.Endings.{ServesUntil, ServerEnds, HasServedAsAsked, HasSaidReady, HasSaidUntil};

use crate::busy_lines::BusyLines;
use crate::clock::SystemClock;
use crate::connections::Connections;
use crate::full_lines::FullShardLines;
use crate::program_fault::ProgramFault;
use crate::program_shards::{close_shards, open_shards};
use crate::replayed::{Replaying, say_replayed};
use crate::setting::{capacity_by, half_sent_by, limits_by, open_connections_by};
use crate::system_limits::open_files;
use accept::Limits;
use disk::Disk;
use ingester::{Ingester, Pass};
use mio::net;
use programs::{Environment, ServerWords, open_slots, server_in, terminal_in};
use std::alloc::Global;
use std::fs::{File, Files};
use std::io::{Stderr, Write};
use std::net::{IpAddr, Ipv4Addr, Net, SocketAddr, TcpListener, TcpStream};
use std::rt::Clock;
use std::sync::Wait;
use std::thread::Threads;
use std::time::Instant;
use wal::Capacity;
use workers::{AcceptEnd, Bounds, serve_listener};

/// Runs `ingesterd DIR PORT SHARDS WORKERS [CONNECTIONS]`, and gives its exit status.
///
/// Opens and replays the slots of DIR, listens on the port of 127.0.0.1 (0: any that is free), and writes `ready` and
/// the port. Each connection is served by one of WORKERS threads, which serves many, and each shard is owned by another
/// thread. The server closes its shards and ends with status 0 after CONNECTIONS connections, where that is given, or
/// when no worker is left. A connection that fails costs no more than itself (`Connections`). As many connections are
/// open as the environment says, and as the limit of open files allows.
///
/// Status 1: a fault while running. 2: wrong words, or a wrong setting of the environment. 3: the opening was refused,
/// or the thread of a shard could not be started. A fault is one line of `errors`. A shard that stops answering writes
/// one line to `marks`, where they are given. Where `marks` are a terminal, lines there say what is replayed, before
/// `ready` is written: one for each shard as it ends, and one for all.
pub fn run_server<R, W: Write, E: Write>(
    rt: &R,
    alloc: Global,
    words: &[String],
    environment: &Environment,
    output: &mut W,
    errors: &mut E,
    marks: Option<Stderr>,
) -> u8
where
    R: Files<File = File> + Net<Listener = TcpListener, Stream = TcpStream>,
    R: Clock + Threads + Wait + Copy + Send + Sync + 'static,
    ensures status { result ≤ 3 }
    ensures usage { (result ≡ 2) ↔ (¬ (GiveServer words.now
        × GivesCapacity (option_map string_bytes environment.now.capacity)
        × IsSome (limits_of environment.now)
        × GivesOpen (option_map string_bytes environment.now.open_connections)
        × GivesHalfSent (option_map string_bytes environment.now.half_sent))) }
    ensures ends { ServerEnds (IsTick {R = R}) words.now environment.now
        (W.contents output.old) (W.contents output.new) result }
{
    let Some(words) = server_in(words) else {
        let _ = writeln!(
            errors,
            "usage: ingesterd DIR PORT SHARDS WORKERS [CONNECTIONS]"
        );
        return 2;
    };
    let Some(capacity) = capacity_by(environment, errors) else {
        return 2;
    };
    let Some(limits) = limits_by(environment, errors) else {
        return 2;
    };
    let Some(open) = open_connections_by(environment, errors) else {
        return 2;
    };
    let Some(half_sent) = half_sent_by(environment, errors) else {
        return 2;
    };
    let asked = Asked {
        words,
        environment,
        limits,
        capacity,
        open,
        half_sent,
    };
    match serve_folder(rt, alloc, &asked, output, marks) {
        Ok(_served) => 0,
        Err(stopped) => {
            let _ = writeln!(errors, "{stopped}");
            stopped.status()
        }
    }
}

// What the server is asked for: its words, and what the environment gives.
#[derive(Clone, Copy)]
struct Asked<'a> {
    words: ServerWords<'a>,
    environment: &'a Environment,
    limits: Limits,
    capacity: Capacity,
    open: u64,
    half_sent: u64,
    ghost given: { limits_of environment.now ≡ Some limits },
    ghost lawful: { AreLimits limits },
    ghost room: { capacity ≡ capacity_of (option_map string_bytes environment.now.capacity) },
}

// Opens the folder, serves, and closes it.
fn serve_folder<R, W: Write>(
    rt: &R,
    alloc: Global,
    asked: &Asked<'_>,
    output: &mut W,
    marks: Option<Stderr>,
) -> Result<AcceptEnd, ProgramFault>
where
    R: Files<File = File> + Net<Listener = TcpListener, Stream = TcpStream>,
    R: Clock + Threads + Wait + Copy + Send + Sync + 'static,
    ensures served { OnOk result
        (HasSaidReady asked.now.words.port (W.contents output.old) (W.contents output.new)) }
    ensures ends { IfOk result (ServesUntil asked.now.words.connections) }
    ensures over { OnOk result (HasServedAsAsked (IsTick {R = R}) asked.now.environment.now
        asked.now.words) }
    ensures stopped { IfErr result
        (HasSaidUntil asked.now.words.port (W.contents output.old) (W.contents output.new)) }
{
    let words = asked.words;
    let slots = match open_slots(rt, alloc, words.folder, words.shards, marks) {
        Ok(slots) => slots,
        Err(fault) => return Err(ProgramFault::Slots(fault)),
    };
    let start = Instant::now(rt).ok();
    let terminal = terminal_in(marks);
    let observer = Replaying::new(terminal);
    let (ingester, passes) = open_shards(
        rt,
        alloc,
        slots,
        words.workers,
        asked.limits,
        asked.capacity,
        &observer,
    )?;
    if let Some(terminal) = terminal {
        say_replayed(rt, &ingester, start, terminal);
    }
    let lines = Lines {
        shards: FullShardLines::new(rt, marks),
        busy: BusyLines::new(rt, marks, open_by(rt, alloc, asked)),
    };
    let (passes, served) = serve_port(rt, alloc, asked, &ingester, passes, &lines, output);
    drop(close_shards(rt, ingester, passes));
    served
}

// What is said while connections are served.
#[derive(Drop)]
struct Lines<'a, R: Clock> {
    shards: FullShardLines<'a, R>,
    busy: BusyLines<'a, R>,
}

/// How many files the server has open beside its connections and those of its shards and workers.
const OTHER_FILES: u64 = 32;

// How many connections may be open: as many as the environment says, and as the limit of open files allows.
fn open_by<R: Files<File = File>>(rt: &R, alloc: Global, asked: &Asked<'_>) -> usize {
    let words = asked.words;
    let Some(files) = open_files(rt, alloc) else {
        return asked.open as usize;
    };
    let others = 2 * words.shards as u64 + 2 * words.workers as u64 + OTHER_FILES;
    asked.open.min(files.saturating_sub(others).max(1)) as usize
}

// Opens the port, says which it is, and serves over what was opened as it was asked for. Gives passes that are left.
fn serve_port<'a, D, R, W: Write>(
    rt: &'a R,
    alloc: Global,
    asked: &Asked<'_>,
    ingester: &Ingester<D>,
    passes: Vec<Pass>,
    lines: &'a Lines<'a, R>,
    output: &mut W,
) -> (Vec<Pass>, Result<AcceptEnd, ProgramFault>)
where
    D: Disk + Drop + Send,
    R: Net<Listener = TcpListener, Stream = TcpStream> + Clock + Threads + Wait + Sync,
    requires opened { IsOpenedUnder asked.now.limits asked.now.words.shards asked.now.words.workers
        asked.now.capacity ingester.now passes.items }
    requires over { IsOverUntouched asked.now.words.shards asked.now.capacity
        ingester.now.about.bases }
    requires passes { (i : ℕ) (pass : Passed) → slice_get passes.items i ≡ Some pass
        → IsPassOf ingester.now pass }
    ensures passes { (i : ℕ) (pass : Passed) → slice_get result.0.items i ≡ Some pass
        → IsPassOf ingester.now pass }
    ensures over { OnOk result.1 (HasServedAsAsked (IsTick {R = R}) asked.now.environment.now
        asked.now.words) }
    ensures served { OnOk result.1
        (HasSaidReady asked.now.words.port (W.contents output.old) (W.contents output.new)) }
    ensures ends { IfOk result.1 (ServesUntil asked.now.words.connections) }
    ensures stopped { IfErr result.1
        (HasSaidUntil asked.now.words.port (W.contents output.old) (W.contents output.new)) }
    ensures running { IfErr result.1 (λ stop. stop_status stop ≡ 1) }
{
    let words = asked.words;
    let servers = match make_servers(rt, alloc, passes.len(), &lines.shards) {
        Ok(servers) => servers,
        Err(stopped) => return (passes, Err(stopped)),
    };
    let listener = match listen(rt, words.port, output) {
        Ok(listener) => listener,
        Err(stopped) => return (passes, Err(stopped)),
    };
    let connections = words.connections.unwrap_or(u64::MAX);
    let bounds = Bounds {
        connections,
        open: lines.busy.open(),
        half_sent: asked.half_sent as usize,
        watch: &lines.busy,
    };
    let (passes, served) = serve_listener(rt, alloc, ingester, passes, servers, &listener, &bounds);
    let served = match served {
        Ok(served) => Ok(served),
        Err(fault) => Err(ProgramFault::Serving(fault)),
    };
    (passes, served)
}

// What each of `count` workers serves connections with.
fn make_servers<'a, R: Clock>(
    rt: &'a R,
    alloc: Global,
    count: usize,
    full: &'a FullShardLines<'a, R>,
) -> Result<Vec<Connections<'a, SystemClock<'a, R>, FullShardLines<'a, R>>>, ProgramFault>
    ensures { IfErr result (λ stop. stop ≡ ProgramFault.Memory) }
{
    let mut servers = Vec::with_capacity(alloc, count)?;
    for _ in 0..count {
        let server = Connections::new(alloc, SystemClock::new(rt), full);
        if servers.push(server).is_err() {
            return Err(ProgramFault::Memory);
        }
    }
    Ok(servers)
}

// Opens the port, and says which it is.
fn listen<R: Net<Listener = TcpListener, Stream = TcpStream>, W: Write>(
    rt: &R,
    port: u16,
    output: &mut W,
) -> Result<TcpListener, ProgramFault>
    ensures said { OnOk result
        (HasSaidReady port (W.contents output.old) (W.contents output.new)) }
    ensures stopped { IfErr result
        (HasSaidUntil port (W.contents output.old) (W.contents output.new)) }
    ensures running { IfErr result (λ stop. stop_status stop ≡ 1) }
{
    let address = SocketAddr::new(IpAddr::V4(Ipv4Addr::LOCALHOST), port);
    // (as many may wait as the system allows; std's own would let 128 wait)
    let Ok(listener) = net::TcpListener::bind(rt, address) else {
        return Err(ProgramFault::Listen);
    };
    let listener = TcpListener::from(listener);
    let Ok(bound) = listener.local_addr() else {
        return Err(ProgramFault::Listen);
    };
    let said = port_said(port, bound.port());
    let Ok(()) = writeln!(output, "ready {said}") else {
        return Err(ProgramFault::Output);
    };
    let Ok(()) = output.flush() else {
        return Err(ProgramFault::Output);
    };
    Ok(listener)
}

// The port that is said: the one that was asked for, and where that is 0 the one that was bound.
fn port_said(asked: u16, bound: u16) -> u16
    ensures same { asked ≢ 0 → result ≡ asked }
    ensures any { asked ≡ 0 → result ≡ bound }
{
    if asked == 0 { bound } else { asked }
}
