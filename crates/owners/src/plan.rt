//! What an opening's owners and passes need beside threads and shards. All memory for it is taken before any shard is
//! handed over.
ghost use Rattle.std.specs.Prelude.{◌≡◌, ◌+◌, ◌≤◌, ◌<◌, ℕ, vec_len, length, IfOk};
ghost use Rattle.std.specs.VecDeque.{deque_len};
ghost use Rattle.owners.specs.Homes.{Homed, home_with};
ghost use Rattle.owners.specs.Openings.{opening_of, home_of};
ghost use Rattle.owners.specs.Bonds.{ReceiveFrom};
ghost use Rattle.owners.specs.Owners.{HasEndsOf, AreEnds};
ghost use Rattle.owners.specs.Mailboxes.{IsMailbox};
ghost use Rattle.owners.specs.Plans.{IsPlan};
ghost use Rattle.owners.specs.QueueEnds.{IsShardQueues, AreShardQueues};
ghost use Rattle.keyed.specs.Queues.{receives_as};
ghost use Rattle.keyed.specs.declared.binding.Binding.TheVariants.{Bound};

use crate::mailbox::Mailbox;
use crate::owning::{OwnerEnds, ShardReceiver};
use crate::places::{Home, OpeningSnapshot};
use crate::routes::ShardRoute;
use crate::rows::{ShardQueues, make_rows};
use disk::Disk;
use history::{Book, Pass};
use keyed::{Aside, Fits, queue};
use shard::{MAX_TURN, Shard};
use std::alloc::{AllocError, Global};
use std::collections::VecDeque;
use std::snapshot::Snapshot;
use wal::Wal;

/// What closing needs: the ends by which the shards come back, in the order of their numbers, and room for the shards.
#[derive(Drop)]
pub struct Closer<D: Disk + Drop> {
    /// The ends.
    pub backs: Vec<ShardReceiver<D>>,
    /// The room.
    pub room: Vec<Shard<D>>,
}

/// It is that of the opening.
pub struct OfClosing;

impl<D: Disk + Drop> Fits<Closer<D>, OpeningSnapshot<D>> for OfClosing {
    ghost use Rattle.owners.specs.Plans.{IsCloser};

    ghost fits = { λ opening _ closer. IsCloser opening closer };
}

/// What closing needs, set aside until then.
pub type Closing<D> = Aside<Closer<D>, OpeningSnapshot<D>, OfClosing>;

/// What an opening's owners and passes need apart from threads and shards.
#[derive(Drop)]
pub struct Plan<D: Disk + Drop> {
    /// What was opened.
    pub origin: OpeningSnapshot<D>,
    /// The routes of each pass to all shards.
    pub rows: Vec<Vec<ShardRoute>>,
    /// What closing needs.
    pub closing: Closing<D>,
    /// What the owners work by, in the order of their shards.
    pub ends: VecDeque<OwnerEnds<D>>,
}

/// How many calls a mailbox has at most: those of one message, and of all that came before it.
const MAX_MAILBOX: usize = MAX_TURN + Pass::MAX_OPEN;

impl<D: Disk + Drop> OpeningSnapshot<D> {
    // The opening with this first book and these logs.
    fn of(first: &Book, logs: &Vec<Wal<D>>) -> OpeningSnapshot<D>
        ensures { result ≡ opening_of first.now logs.now.items }
    {
        OpeningSnapshot {
            first: Snapshot::of(first),
            logs: Snapshot::of(logs),
        }
    }
}

impl Home {
    // The opening with this first book.
    fn of(first: &Book) -> Home
        ensures { result ≡ home_with first.now }
    {
        Home {
            first: Snapshot::of(first),
        }
    }
}

// A mailbox with a place for each of `passes` passes, and nothing in it.
fn make_mailbox(alloc: Global, passes: usize) -> Result<Mailbox, AllocError>
    ensures mailbox { IfOk result (λ mailbox. (home : Homed) (k : ℕ) → IsMailbox home k mailbox) }
    ensures idle { IfOk result (λ mailbox. deque_len mailbox.jobs ≡ 0) }
{
    let mut messages = Vec::with_capacity(alloc, passes)?;
    for _ in 0..passes {
        messages.push_reserved(None);
    }
    Ok(Mailbox {
        messages,
        jobs: VecDeque::with_capacity(alloc, MAX_MAILBOX)?,
        settled: Vec::with_capacity(alloc, MAX_MAILBOX)?,
    })
}

// What the owner of a shard works by, and the end by which the shard comes back.
fn make_ends<D: Disk + Drop>(
    alloc: Global,
    origin: OpeningSnapshot<D>,
    queues: ShardQueues,
    shard: usize,
    passes: usize,
) -> Result<(OwnerEnds<D>, ShardReceiver<D>), AllocError>
    requires queues { IsShardQueues (home_of origin) passes shard queues }
    ensures ends { IfOk result (λ made. HasEndsOf origin shard made.0) }
    ensures back { IfOk result (λ made. receives_as made.1 ≡ Bound origin shard) }
{
    let mailbox = make_mailbox(alloc, passes)?;
    let (back, comes) = queue(alloc, 1, &origin, shard)?;
    let ShardQueues {
        orders: _,
        gets,
        answers,
    } = queues;
    let ends = OwnerEnds {
        origin,
        orders: gets,
        answers,
        back,
        mailbox,
    };
    Ok((ends, comes))
}

// What each owner works by, and the ends by which the shards come back, in the order of their numbers.
fn make_all_ends<D: Disk + Drop>(
    alloc: Global,
    first: &Book,
    logs: &Vec<Wal<D>>,
    mut all_queues: VecDeque<ShardQueues>,
    passes: usize,
) -> Result<(VecDeque<OwnerEnds<D>>, Vec<ShardReceiver<D>>), AllocError>
    requires all_queues { AreShardQueues (home_with first.now) passes all_queues.items
        × (deque_len all_queues ≡ vec_len logs.now) }
    ensures ends { IfOk result (λ made. AreEnds (opening_of first.now logs.now.items) made.0.items
        × (deque_len made.0 ≡ vec_len logs.now)) }
    ensures backs { IfOk result
        (λ made. ReceiveFrom (opening_of first.now logs.now.items) made.1.items
        × (length made.1.items ≡ vec_len logs.now)) }
{
    let mut backs = Vec::with_capacity(alloc, logs.len())?;
    let mut all_ends = VecDeque::with_capacity(alloc, logs.len())?;
    for shard in 0..logs.len() {
        let Some(queues) = all_queues.pop_front() else {
            unreachable!()
        };
        let (ends, back) = make_ends(
            alloc,
            OpeningSnapshot::of(first, logs),
            queues,
            shard,
            passes,
        )?;
        all_ends.push_back_reserved(ends);
        backs.push_reserved(back);
    }
    Ok((all_ends, backs))
}

/// The plan of an opening with this first book, these logs and `passes` passes.
///
/// # Errors
///
/// Want of memory.
pub fn make_plan<D: Disk + Drop>(
    alloc: Global,
    first: &Book,
    logs: &Vec<Wal<D>>,
    passes: usize,
) -> Result<Plan<D>, AllocError>
    requires shards { first.now.about.shards ≡ vec_len logs.now }
    requires passes { first.now.about.passes ≡ passes }
    ensures { IfOk result (IsPlan (opening_of first.now logs.now.items)) }
{
    let home = Home::of(first);
    let (rows, all_queues) = make_rows(alloc, &home, logs.len(), passes)?;
    let (ends, backs) = make_all_ends(alloc, first, logs, all_queues, passes)?;
    let room = Vec::with_capacity(alloc, logs.len())?;
    let origin = OpeningSnapshot::of(first, logs);
    let closing = Aside::new(alloc, Closer { backs, room }, &origin)?;
    Ok(Plan {
        origin,
        rows,
        closing,
        ends,
    })
}
