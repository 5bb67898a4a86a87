//! What becomes of a shard's slots.
ghost use Rattle.std.specs.Prelude.{◌≡◌, ◌<◌, ◌*◌, ◌^◌};
ghost use Rattle.std.specs.Mem.{type_size};
ghost use Rattle.openings.specs.Places.{IsNotLookedAt, AreSlotsThere, IsTried, slots_in, refusal_in};

use crate::observer::Observer;
use accept::Image;
use disk::Disk;
use segment::ShardPlace;
use segment_reader::ReadBlocks;
use std::alloc::Global;
use std::mem;
use wal::{Capacity, OpenFault, Wal, both};

// The slots of a shard, and what became of them. While a thread opens them they are out.
#[derive(Drop)]
pub(crate) enum Place<D: Disk + Drop> {
    Given(D, D),
    Out,
    Opened(Wal<D>, Image),
    Refused(OpenFault, D, D),
}

// A place for the slots of a shard.
pub(crate) fn given_place<D: Disk + Drop>(slots: [D; 2]) -> Place<D>
    ensures given { IsNotLookedAt result }
    ensures slots { slots_in result ≡ slots }
{
    let (first, second) = both(slots);
    Place::Given(first, second)
}

// Opens the log over these slots of a shard.
fn open_slots<D: Disk + Drop, B: ReadBlocks>(
    by: &B,
    alloc: Global,
    given: [D; 2],
    owner: ShardPlace,
    capacity: Capacity,
) -> Place<D>
    requires reader { B.can_read }
    ensures { IsTried D.sight D.follows owner capacity given result }
{
    match Wal::open_by(by, alloc, given, owner, capacity) {
        Ok((log, image)) => Place::Opened(log, image),
        Err(refusal) => {
            let fault = refusal.0;
            let back = refusal.1;
            let (first, second) = both(back);
            Place::Refused(fault, first, second)
        }
    }
}

// How many bytes the segment in use has: 0 where there is none.
fn segment_size<D: Disk>(log: &Wal<D>) -> u64 {
    match log.generation() {
        0 => 0,
        _ => log.end().saturating_add(1),
    }
}

// Tells of the log in a place, where it was opened.
fn tell_opened<D: Disk + Drop, O: Observer>(observer: &O, shard: u32, place: &Place<D>) {
    if let Place::Opened(log, image) = place {
        observer.opened(shard, image.iter().count(), segment_size(log));
    }
}

// Opens the log over the slots in this place, and tells the observer of it.
pub(crate) fn open_place<D: Disk + Drop, B: ReadBlocks, O: Observer>(
    by: &B,
    alloc: Global,
    place: &mut Place<D>,
    owner: ShardPlace,
    capacity: Capacity,
    observer: &O,
)
    requires reader { B.can_read }
    requires fits { 2 * type_size D.row < 2 ^ 63 }
    requires given { IsNotLookedAt place.old }
    ensures { IsTried D.sight D.follows owner capacity (slots_in place.old) place.new }
{
    let Place::Given(first, second) = mem::replace(place, Place::Out) else {
        unreachable!();
    };
    let tried = open_slots(by, alloc, [first, second], owner, capacity);
    tell_opened(observer, owner.shard(), &tried);
    *place = tried;
}

// Why the slots are refused, where they are.
pub(crate) fn refusal_of<D: Disk + Drop>(place: &Place<D>) -> Option<OpenFault>
    ensures { result ≡ refusal_in place.now }
{
    match place {
        Place::Refused(fault, _, _) => Some(*fault),
        _ => None,
    }
}

// The slots that are in a place, or under its log.
pub(crate) fn take_slots<D: Disk + Drop>(place: Place<D>) -> [D; 2]
    requires { AreSlotsThere place }
    ensures { result ≡ slots_in place }
{
    match place {
        Place::Given(first, second) => [first, second],
        Place::Out => unreachable!(),
        Place::Opened(log, _) => log.into_slots(),
        Place::Refused(_, first, second) => [first, second],
    }
}
