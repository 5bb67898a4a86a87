//! An ingester, and how it is opened.
ghost use Rattle.std.specs.Prelude.{◌≡◌, ◌<◌, ◌≤◌, vec_len, vec_capacity, IfOk, IfErr};
ghost use Rattle.std.specs.VecDeque.{deque_len, deque_capacity};
ghost use Rattle.labels.specs.Shards.{max_shards};
ghost use Rattle.owners.specs.Lists.{AreEach};
ghost use Rattle.owners.specs.Openings.{home_of};
ghost use Rattle.owners.specs.Owners.{AreEnds};
ghost use Rattle.owners.specs.Places.{AreShardsOf};
ghost use Rattle.owners.specs.QueueEnds.{AreRows, IsSeatAt};
ghost use Rattle.ingester.specs.Openings.{AreSettings, IsOpenedAs};
ghost use Rattle.ingester.specs.Parts.{HasParts};
ghost use Rattle.ingester.specs.Findings.{IsUnmade};
ghost use Rattle.ingester.specs.Planning.{IsPlannedOpening};

use crate::building::{Ground, make_shards, sizes_of};
use crate::passes::{Pass, seat_passes};
use crate::refusal::OpenFault;
use crate::settings::Settings;
use crate::sizes::Size;
use accept::Image;
use disk::Disk;
use history::{Book, History, Pass as Seat};
use keyed::Waiters;
use openings::{Observer, Unobserved, give_back, open_logs};
use owners::{Closing, OpeningSnapshot, OwnerEnds, Plan, Team, hand_all, make_plan};
use shard::Shard;
use std::alloc::{AllocError, Global};
use std::collections::VecDeque;
use std::marker::Model;
use std::sync::Wait;
use std::thread::Threads;
use wal::Wal;

/// Up to 64 shards, each with its streams, its log and its history in a thread of its own. Contracts see the table of
/// the histories, what was opened, and each shard's log as it was then.
#[derive(Drop)]
pub struct Ingester<D: Disk + Drop> {
    pub(crate) history: History,
    pub(crate) closing: Closing<D>,
    pub(crate) sizes: Vec<Size>,
    pub(crate) waiters: Waiters,
    pub(crate) count: u32,
    pub(crate) origin: OpeningSnapshot<D>,
}

impl<D: Disk + Drop> Model for Ingester<D> {
    ghost use Rattle.std.specs.Coded.{codes};
    ghost use Rattle.accept.specs.contracts.image.Image as image;
    ghost use Rattle.owners.specs.Openings.{Opening};

    ghost Value = { Opening D };

    ghost coded = { Prim.hlevel (codes, image.the_row.coded) };

    ghost use Rattle.ingester.specs.Parts.{HasParts};

    ghost view = { λ i. i.origin };

    ghost invariant = { λ i. HasParts i.history i.closing i.count i.origin };
}

// What was opened, before its shards have owners.
pub(crate) struct Opened<D: Disk + Drop> {
    pub(crate) ingester: Ingester<D>,
    pub(crate) passes: Vec<Pass>,
    pub(crate) shards: Vec<Option<Shard<D>>>,
    pub(crate) ends: VecDeque<OwnerEnds<D>>,
}

impl<D: Disk + Drop> Ingester<D> {
    /// Opens a shard over each pair of slots, and starts a thread for each shard that owns it. `handle` is what these
    /// threads wait by. What the slots hold is the base of the shard's history; nothing is written. The slots of
    /// several shards are read side by side, by as many threads as there are processors at most.
    ///
    /// # Errors
    ///
    /// The first shard that is refused, and why; want of memory; or a thread that could not be started, before any slot
    /// was read. All slots come back in their order, and the threads that were started have ended.
    pub fn open<R, H>(
        rt: &R,
        handle: H,
        alloc: Global,
        slots: Vec<[D; 2]>,
        settings: Settings,
    ) -> Result<(Ingester<D>, Vec<Pass>), (OpenFault, Vec<[D; 2]>)>
    where
        D: Send + 'static,
        R: Threads + Wait + Sync,
        H: Wait + Copy + Send + 'static,
        requires slots { (0 < vec_len slots) × (vec_len slots ≤ max_shards) }
        requires settings { AreSettings settings }
        ensures opened { IfOk result (λ it.
            IsOpenedAs D.sight D.follows settings (vec_len slots) slots.items it.0 it.1.items) }
        ensures unmade { IfErr result
            (λ e. IsUnmade D.sight D.follows (vec_len slots) slots.items e.1.items e.0) }
    {
        Ingester::open_observed(rt, handle, alloc, slots, settings, &Unobserved)
    }

    /// Opens as `open` does, and tells `observer` of each shard as soon as it is replayed. The thread that replayed it
    /// does so: in no order, of several at once, and also where another shard is refused.
    ///
    /// # Errors
    ///
    /// Those of `open`.
    pub fn open_observed<R, H, O>(
        rt: &R,
        handle: H,
        alloc: Global,
        slots: Vec<[D; 2]>,
        settings: Settings,
        observer: &O,
    ) -> Result<(Ingester<D>, Vec<Pass>), (OpenFault, Vec<[D; 2]>)>
    where
        D: Send + 'static,
        R: Threads + Wait + Sync,
        H: Wait + Copy + Send + 'static,
        O: Observer + Sync,
        requires slots { (0 < vec_len slots) × (vec_len slots ≤ max_shards) }
        requires settings { AreSettings settings }
        ensures opened { IfOk result (λ it.
            IsOpenedAs D.sight D.follows settings (vec_len slots) slots.items it.0 it.1.items) }
        ensures unmade { IfErr result
            (λ e. IsUnmade D.sight D.follows (vec_len slots) slots.items e.1.items e.0) }
    {
        let team = match Team::start(rt, handle, alloc, slots.len()) {
            Ok(team) => team,
            Err(fault) => return Err((OpenFault::from(fault), slots)),
        };
        let mut slots = VecDeque::from_vec(slots);
        match open_all(rt, alloc, &mut slots, &settings, observer) {
            Ok(opened) => Ok(begin(rt, alloc, opened, team)),
            Err(fault) => {
                team.end(rt);
                Err((fault, slots.into_vec()))
            }
        }
    }
}

// Hands the shards to the threads that own them from then on.
fn begin<D: Disk + Drop, R: Wait>(
    rt: &R,
    alloc: Global,
    opened: Opened<D>,
    team: Team<D>,
) -> (Ingester<D>, Vec<Pass>)
    requires shards { AreShardsOf D.sight D.follows opened.ingester opened.shards.items }
    requires ends { AreEnds opened.ingester opened.ends.items }
    requires count { deque_len opened.ends ≡ vec_len opened.shards }
    ensures ingester { result.0 ≡ opened.ingester }
    ensures passes { result.1.items ≡ opened.passes.items }
{
    let Opened {
        ingester,
        passes,
        shards,
        ends,
    } = opened;
    hand_all(rt, alloc, team, shards, ends);
    (ingester, passes)
}

// What an opening has of its logs before its shards are made.
pub(crate) struct PlannedOpening<D: Disk + Drop> {
    pub(crate) history: History,
    pub(crate) books: Vec<Book>,
    pub(crate) seats: Vec<Seat>,
    pub(crate) plan: Plan<D>,
}

// Makes the histories over what was found, and plans their owners.
fn plan_opening<D: Disk + Drop>(
    alloc: Global,
    images: &Vec<Image>,
    logs: &Vec<Wal<D>>,
    settings: &Settings,
) -> Result<PlannedOpening<D>, AllocError>
    requires some { (0 < vec_len logs.now) × (vec_len logs.now ≤ max_shards) }
    requires same { vec_len images.now ≡ vec_len logs.now }
    requires settings { AreSettings settings.now }
    ensures { IfOk result (IsPlannedOpening settings.now images.now.items logs.now.items) }
{
    let Settings {
        passes,
        limits,
        capacity,
    } = *settings;
    let (history, books, seats) = History::new(alloc, images, passes, limits, capacity.bytes())?;
    let plan = make_plan(alloc, &books[0], logs, passes as usize)?;
    Ok(PlannedOpening {
        history,
        books,
        seats,
        plan,
    })
}

// Opens all slots. Where that is refused, they are put back.
fn open_all<D: Disk + Drop + Send, R: Threads + Sync, O: Observer + Sync>(
    rt: &R,
    alloc: Global,
    slots: &mut VecDeque<[D; 2]>,
    settings: &Settings,
    observer: &O,
) -> Result<Opened<D>, OpenFault>
    requires slots { (0 < deque_len slots.old) × (deque_len slots.old ≤ max_shards)
        × (deque_len slots.old ≤ deque_capacity slots.old) }
    requires settings { AreSettings settings.now }
    ensures opened { IfOk result (λ it.
        IsOpenedAs D.sight D.follows settings.now (deque_len slots.old) slots.old.items it.ingester
        it.passes.items) }
    ensures ready { IfOk result (λ it. AreShardsOf D.sight D.follows it.ingester it.shards.items
        × AreEnds it.ingester it.ends.items × (deque_len it.ends ≡ vec_len it.shards)) }
    ensures unmade { IfErr result (λ fault.
        IsUnmade D.sight D.follows (deque_len slots.old) slots.old.items slots.new.items fault) }
{
    let count = slots.len();
    let shards = VecDeque::with_capacity(alloc, count)?;
    let sizes = Vec::with_capacity(alloc, count)?;
    let list = Vec::with_capacity(alloc, settings.passes as usize)?;
    let (mut logs, images) = open_logs(rt, alloc, slots, settings.capacity, observer)?;
    let Ok(planned) = plan_opening(alloc, &images, &logs, settings) else {
        give_back(slots, &mut logs);
        return Err(OpenFault::Memory);
    };
    let PlannedOpening {
        history,
        books,
        seats,
        plan,
    } = planned;
    let ground = Ground {
        logs,
        images,
        books,
        limits: settings.limits,
    };
    let Ok((history, shards)) = make_shards(alloc, history, slots, shards, ground) else {
        return Err(OpenFault::Memory);
    };
    let kept = IngesterParts {
        sizes: sizes_of(sizes, &shards),
        count: count as u32,
        list,
        seats,
    };
    Ok(opened_with(plan, history, shards, kept))
}

// What an ingester keeps of its shards beside what is planned, and the seats of its passes with a list for them.
struct IngesterParts {
    sizes: Vec<Size>,
    count: u32,
    list: Vec<Pass>,
    seats: Vec<Seat>,
}

// What was opened by this plan.
fn opened_with<D: Disk + Drop>(
    plan: Plan<D>,
    history: History,
    shards: Vec<Option<Shard<D>>>,
    kept: IngesterParts,
) -> Opened<D>
    requires parts { HasParts history plan.closing kept.count plan.origin }
    requires room { (vec_len kept.list ≡ 0) × (vec_len kept.seats ≤ vec_capacity kept.list) }
    requires seats { AreEach (IsSeatAt (home_of plan.origin)) 0 kept.seats.items }
    requires rows { AreRows (home_of plan.origin) plan.origin.about.shards plan.rows.items
        × (vec_len plan.rows ≡ vec_len kept.seats) }
    ensures ingester { result.ingester ≡ plan.origin }
    ensures passes { result.passes.items ≡ kept.seats.items }
    ensures shards { result.shards ≡ shards }
    ensures ends { result.ends ≡ plan.ends }
{
    let Plan {
        origin,
        rows,
        closing,
        ends,
    } = plan;
    let IngesterParts {
        sizes,
        count,
        list,
        seats,
    } = kept;
    let passes = seat_passes(list, seats, rows);
    let ingester = Ingester {
        history,
        closing,
        sizes,
        waiters: Waiters::new(),
        count,
        origin,
    };
    Opened {
        ingester,
        passes,
        shards,
        ends,
    }
}
