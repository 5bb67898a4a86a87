//! The threads of an opening's owners.
ghost use Rattle.std.specs.Prelude.{◌≡◌, ◌≤◌, ◌<◌, vec_len, vec_capacity, IfOk};
ghost use Rattle.std.specs.VecDeque.{deque_len, deque_capacity};

use crate::owning::{OwnerThread, own};
use crossbeam_channel::{Receiver, Sender, bounded};
use disk::Disk;
use std::alloc::{AllocError, Global};
use std::collections::VecDeque;
use std::sync::Wait;
use std::thread::{self, JoinHandle, Threads};

/// Why the threads of an opening could not all be started.
#[derive(Clone, Copy, Drop)]
pub enum StartFault {
    /// The allocator gave no memory.
    Memory,
    /// A thread could not be started.
    Thread,
}

impl From<AllocError> for StartFault {
    fn from(_refused: AllocError) -> StartFault {
        StartFault::Memory
    }
}

// What a thread is given: its handle, and where it gets what it is to own.
#[derive(Drop)]
struct Start<D: Disk + Drop, R> {
    rt: R,
    comes: Receiver<OwnerThread<D>>,
}

/// The threads of an opening, each of which waits for what it is to own.
#[derive(Drop)]
pub struct Team<D: Disk + Drop> {
    starts: VecDeque<Sender<OwnerThread<D>>>,
    threads: Vec<JoinHandle<()>>,
}

// Owns what comes, if anything does.
fn run<D: Disk + Drop, R: Wait + Drop>(start: Start<D, R>) {
    let Start { rt, comes } = start;
    if let Ok(owner) = comes.recv(&rt) {
        drop(own(&rt, owner));
    }
}

// Starts a thread.
fn start_one<D, R, H>(
    rt: &R,
    handle: H,
    comes: Receiver<OwnerThread<D>>,
) -> Result<JoinHandle<()>, StartFault>
where
    D: Disk + Drop + Send + 'static,
    R: Threads,
    H: Wait + Drop + Send + 'static,
{
    let start = Start { rt: handle, comes };
    let go = move || -> () { run(start) };
    match thread::spawn(rt, go) {
        Ok(thread) => Ok(thread),
        Err(_) => Err(StartFault::Thread),
    }
}

impl<D: Disk + Drop> Team<D> {
    /// Starts `count` threads, one for each shard.
    ///
    /// # Errors
    ///
    /// Want of memory, or a thread that could not be started. The threads that were started have ended by then.
    pub fn start<R, H>(
        rt: &R,
        handle: H,
        alloc: Global,
        count: usize,
    ) -> Result<Team<D>, StartFault>
    where
        D: Send + 'static,
        R: Threads + Wait,
        H: Wait + Copy + Send + 'static,
    {
        let mut team = Team {
            starts: VecDeque::with_capacity(alloc, count)?,
            threads: Vec::with_capacity(alloc, count)?,
        };
        match team.start_all(rt, handle, alloc, count) {
            Ok(()) => Ok(team),
            Err(fault) => {
                team.end(rt);
                Err(fault)
            }
        }
    }

    fn start_all<R, H>(
        &mut self,
        rt: &R,
        handle: H,
        alloc: Global,
        count: usize,
    ) -> Result<(), StartFault>
    where
        D: Send + 'static,
        R: Threads + Wait,
        H: Wait + Copy + Send + 'static,
    {
        for _ in 0..count {
            let (start, comes) = bounded(alloc, 1)?;
            if self.starts.push_back(start).is_err() {
                return Err(StartFault::Memory);
            }
            let thread = start_one(rt, handle, comes)?;
            if self.threads.push(thread).is_err() {
                return Err(StartFault::Memory);
            }
        }
        Ok(())
    }

    /// Ends all threads that own nothing yet, and waits for them.
    pub fn end<R: Threads + Wait>(self, rt: &R) {
        let Team {
            starts,
            mut threads,
        } = self;
        drop(starts);
        while let Some(thread) = threads.pop() {
            thread.join(rt);
        }
    }

    /// Gives the next thread what it is to own.
    pub(crate) fn hand_over<R: Wait>(&mut self, rt: &R, owner: OwnerThread<D>) {
        match self.starts.pop_front() {
            Some(start) => drop(start.send(rt, owner)),
            None => drop(owner),
        }
    }
}
