//! How the logs of shards are opened side by side.
ghost use denote.Param.Send.{IsSync};
ghost use Rattle.std.specs.Prelude.{◌≡◌, ◌<◌, ◌≤◌, ◌+◌, ◌*◌, ◌^◌, ◌∷◌, ◌++◌, [], All, map, vec_len, IfOk, IfErr};
ghost use Rattle.std.specs.Mem.{type_size};
ghost use Rattle.std.specs.Vec.{vec_capacity};
ghost use Rattle.std.specs.VecDeque.{deque_len, deque_capacity};
ghost use Rattle.labels.specs.Shards.{max_shards};
ghost use Rattle.segment.specs.ShardPlaces.{place_of};
ghost use Rattle.openings.specs.Findings.{AreOpenedFrom, AreRefused};
ghost use Rattle.openings.specs.Places.{IsNotLookedAt, IsOpened, AreSlotsThere, IsTried, AreTried};
ghost use Rattle.openings.specs.Places.{slots_in, logs_in, images_in, first_refused};

use crate::fault::LogsFault;
use crate::observer::Observer;
use crate::place::{Place, given_place, open_place, refusal_of, take_slots};
use accept::Image;
use disk::Disk;
use segment::ShardPlace;
use segment_reader::ReadAhead;
use std::alloc::Global;
use std::collections::VecDeque;
use std::thread::{Threads, available_parallelism, for_each_mut};
use wal::{Capacity, OpenFault, Wal};

/// Opens the logs of all shards, up to 64, and gives them with the streams that stood in them. `capacity` is how many
/// bytes a segment may have. They are opened side by side, by as many threads as there are processors at most; where no
/// thread can be made, the caller's own does its work. `observer` is told of each log as it is opened, also where
/// another shard is refused. Nothing is written.
///
/// # Errors
///
/// The first shard by number that is refused, and why, whichever ended first; or want of memory before any slot was
/// read. All slots come back in their order.
pub fn open_logs<D: Disk + Drop + Send, R: Threads + Sync, O: Observer + Sync>(
    rt: &R,
    alloc: Global,
    slots: &mut VecDeque<[D; 2]>,
    capacity: Capacity,
    observer: &O,
) -> Result<(Vec<Wal<D>>, Vec<Image>), LogsFault>
    requires few { deque_len slots.old ≤ max_shards }
    requires room { deque_len slots.old ≤ deque_capacity slots.old }
    ensures opened { IfOk result
        (λ it. AreOpenedFrom D.sight D.follows (deque_len slots.old) capacity 0 slots.old.items
        it.0.items it.1.items × (slots.new.items ≡ [])) }
    ensures refused { IfErr result (λ fault.
        AreRefused D.sight D.follows (deque_len slots.old) slots.old.items slots.new.items fault) }
    ensures room { deque_capacity slots.new ≡ deque_capacity slots.old }
    ensures lens { IfOk result (λ it. (vec_len it.0 ≡ deque_len slots.old)
        × (vec_len it.1 ≡ deque_len slots.old)
        × (deque_len slots.new ≡ 0)) }
{
    let count = slots.len();
    let mut logs = Vec::with_capacity(alloc, count)?;
    let mut images = Vec::with_capacity(alloc, count)?;
    let mut places = Vec::with_capacity(alloc, count)?;
    fill_places(slots, &mut places);
    try_each(rt, alloc, &mut places, capacity, observer);
    match find_refused(&places) {
        Some((shard, fault)) => {
            put_back(slots, places);
            Err(LogsFault::Refused { shard, fault })
        }
        None => {
            take_opened(places, &mut logs, &mut images);
            Ok((logs, images))
        }
    }
}

// Moves the slots of each shard to a place.
fn fill_places<D: Disk + Drop>(slots: &mut VecDeque<[D; 2]>, places: &mut Vec<Place<D>>)
    requires none { (places.old.items ≡ []) × (vec_len places.old ≡ 0) }
    requires room { deque_len slots.old ≤ vec_capacity places.old }
    ensures given { All IsNotLookedAt places.new.items }
    ensures slots { map slots_in places.new.items ≡ slots.old.items }
    ensures none { (slots.new.items ≡ []) × (deque_len slots.new ≡ 0) }
    ensures len { vec_len places.new ≡ deque_len slots.old }
    ensures capacity { deque_capacity slots.new ≡ deque_capacity slots.old }
{
    while let Some(given) = slots.pop_front() {
        places.push_reserved(given_place(given));
    }
}

// How many threads are to open logs: one for each processor.
fn processors<R: Threads>(rt: &R) -> usize
    ensures { 0 < result }
{
    match available_parallelism(rt) {
        Ok(count) => count.get(),
        Err(_) => 1,
    }
}

// Opens the log in each place, or finds why it is refused.
fn try_each<D: Disk + Drop + Send, R: Threads + Sync, O: Observer + Sync>(
    rt: &R,
    alloc: Global,
    places: &mut Vec<Place<D>>,
    capacity: Capacity,
    observer: &O,
)
    requires fits { 2 * type_size D.row < 2 ^ 63 }
    requires given { All IsNotLookedAt places.old.items }
    requires few { vec_len places.old ≤ max_shards }
    ensures tried { AreTried D.sight D.follows (vec_len places.old) capacity 0
        (map slots_in places.old.items)
        places.new.items }
    ensures len { vec_len places.new ≡ vec_len places.old }
{
    let count = places.len() as u32;
    let threads = processors(rt);
    // With two processors a shard or more, several threads read each segment.
    let by = ReadAhead::new(rt, threads / places.len().max(1));
    let try_one = |shard: usize, place: &mut Place<D>|
        requires { IsSync R.row × (2 * type_size D.row < 2 ^ 63) × IsNotLookedAt place.old
            × (shard < count)
            × (count ≤ max_shards) }
        ensures { IsTried D.sight D.follows (place_of shard count) capacity
            (slots_in place.old) place.new }
    {
        let owner = ShardPlace::of(shard as u32, count);
        open_place(&by, alloc, place, owner, capacity, observer)
    };
    for_each_mut(rt, places.as_mut_slice(), threads, &try_one);
}

// The first place that is refused, and why.
fn find_refused<D: Disk + Drop>(places: &Vec<Place<D>>) -> Option<(u32, OpenFault)>
    requires { vec_len places.now ≤ max_shards }
    ensures { result ≡ first_refused 0 places.now.items }
{
    for shard in 0..places.len() {
        if let Some(fault) = refusal_of(&places[shard]) {
            return Some((shard as u32, fault));
        }
    }
    None
}

// Puts the slots of a place after others, where there is room.
fn put_behind<D: Disk + Drop>(slots: &mut VecDeque<[D; 2]>, place: Place<D>)
    requires here { AreSlotsThere place }
    requires room { deque_len slots.old < deque_capacity slots.old }
    ensures items { slots.new.items ≡ slots.old.items ++ slots_in place ∷ [] }
    ensures len { deque_len slots.new ≡ deque_len slots.old + 1 }
    ensures capacity { deque_capacity slots.new ≡ deque_capacity slots.old }
{
    slots.push_back_reserved(take_slots(place));
}

// Puts the slots of all places back, in their order.
fn put_back<D: Disk + Drop>(slots: &mut VecDeque<[D; 2]>, places: Vec<Place<D>>)
    requires here { All AreSlotsThere places.items }
    requires none { (slots.old.items ≡ []) × (deque_len slots.old ≡ 0) }
    requires room { vec_len places ≤ deque_capacity slots.old }
    ensures items { slots.new.items ≡ map slots_in places.items }
    ensures capacity { deque_capacity slots.new ≡ deque_capacity slots.old }
{
    let mut places = VecDeque::from_vec(places);
    while let Some(place) = places.pop_front() {
        put_behind(slots, place);
    }
}

// Takes the logs and the streams out of places that are all opened.
fn take_opened<D: Disk + Drop>(
    places: Vec<Place<D>>,
    logs: &mut Vec<Wal<D>>,
    images: &mut Vec<Image>,
)
    requires opened { All IsOpened places.items }
    requires none { (logs.old.items ≡ []) × (images.old.items ≡ []) }
    requires room { (vec_len places ≤ vec_capacity logs.old)
        × (vec_len places ≤ vec_capacity images.old) }
    ensures logs { logs.new.items ≡ logs_in places.items }
    ensures images { images.new.items ≡ images_in places.items }
{
    let mut places = VecDeque::from_vec(places);
    while let Some(place) = places.pop_front() {
        let Place::Opened(log, image) = place else {
            unreachable!();
        };
        logs.push_reserved(log);
        images.push_reserved(image);
    }
}
