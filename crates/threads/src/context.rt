//! What threads share, and what each of them does. It stands outside the tests, since a file of `proofs` names it.

use ingester::Ingester;
use memory_disk::{Gate, GateDisk, MemDisk};
use std::alloc::Global;
use std::sync::Barrier;

/// A slot in memory. A gate can hold its syncs.
pub(crate) type GatedSlot = GateDisk<MemDisk>;

/// Pushes of one entry each to the stream `{a=VALUE}`, at rising times. Each line is the label's value. It has that
/// value, the first time, and how many pushes there are.
#[derive(Clone, Copy)]
pub(crate) struct Pushes(pub(crate) &'static str, pub(crate) u64, pub(crate) u64);

/// What a thread does.
#[derive(Clone, Copy)]
pub(crate) enum Task {
    /// It makes these pushes, and each must be stored.
    Push(Pushes),
    /// It makes the first of these pushes and of those together, and both must be stored.
    PushBoth(Pushes, Pushes),
    /// It reads all, and must find these.
    Read(Pushes),
    /// It looks at a shard, and must see this many steps.
    Look(u32, u64),
    /// It looks at a shard until there is a step, for at most two seconds.
    See(u32),
    /// The first of these pushes must be in doubt, and once more it must find its pass closed.
    Doubt(Pushes),
    /// It ends the owner of each shard.
    EndOwners,
    /// It opens the gate.
    Open,
    /// It waits until all threads have come to such a task.
    Gather,
    /// It waits this many times as long as the plan is tried with.
    Rest(u64),
}

/// What the threads share.
#[derive(Drop)]
pub(crate) struct ThreadContext<'a, R> {
    pub(crate) rt: &'a R,
    pub(crate) alloc: Global,
    pub(crate) ingester: &'a Ingester<GatedSlot>,
    pub(crate) gate: &'a Gate,
    pub(crate) all: Barrier,
    /// The tasks of each pass, by its number.
    pub(crate) roles: &'static [&'static [Task]],
    /// How long a rest is, in milliseconds.
    pub(crate) time: u64,
}
