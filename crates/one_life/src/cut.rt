//! Two shards and two passes, and a turn that a crash may cut.
ghost use Rattle.std.specs.Prelude.{[], ◌∷◌, IfSome};
ghost use Rattle.accept.specs.OneStream.{AreLimits};
ghost use Rattle.accept.specs.Calls.{AreNumbers};
ghost use Rattle.one_life.specs.Cut.{IsOn, AreOfOpening, HaveCalled, IsCutTurn, IsCutOnce};

use crate::called::{call_once, empty_tray};
use crate::opening::{Two, open_two};
use accept::{Call, Limits, Reply};
use disk::Disk;
use history::History;
use shard::{GroupEnd, Job};
use std::alloc::Global;
use wal::Capacity;

// Each pass makes a call, by a turn of a shard of its own.
fn call_both<D: Disk>(
    alloc: Global,
    history: &History,
    it: &mut Two<D>,
    first: Call,
    second: Call,
) -> Option<(Reply, Reply)>
    requires of { AreOfOpening history.now it.old.first.book.about it.old }
    requires shards { IsOn 0 first × IsOn 1 second }
    requires numbers { AreNumbers first × AreNumbers second }
    ensures { IfSome result (λ replies.
        HaveCalled D.sight D.follows it.old first second replies it.new) }
{
    let mut tray = empty_tray(alloc)?;
    let mut other_tray = empty_tray(alloc)?;
    let reply = call_once(alloc, history, &mut it.first, &mut it.one, first, &mut tray)?;
    let other = call_once(
        alloc,
        history,
        &mut it.second,
        &mut it.two,
        second,
        &mut other_tray,
    )?;
    Some((reply, other))
}

/// The first pass announces a call, and each shard is compared with each pass. Then the first shard makes a turn at the
/// call; the result says why it ends. `None` where the pass is closed, or there was no memory.
pub fn cut_turn<D: Disk>(
    alloc: Global,
    history: &History,
    it: &mut Two<D>,
    call: Call,
) -> Option<GroupEnd>
    requires of { AreOfOpening history.now it.old.first.book.about it.old }
    requires shard { IsOn 0 call }
    requires numbers { AreNumbers call }
    ensures { IfSome result (λ _. IsCutTurn D.sight D.follows it.old it.new call) }
{
    let mut tray = empty_tray(alloc)?;
    let Ok(ticket) = history.announce(&mut it.one, &call) else {
        return None;
    };
    it.first.settle(&mut it.one);
    it.first.settle(&mut it.two);
    it.second.settle(&mut it.one);
    it.second.settle(&mut it.two);
    tray.jobs.push_back_reserved(Job { ticket, call });
    Some(
        it.first
            .apply_group(alloc, &mut tray.jobs, &mut tray.settled),
    )
}

/// Opens two shards with two passes. Each pass has a call answered, by a turn of a shard of its own, and they meet.
/// Then the first pass announces a further call, and the first shard makes a turn at it, at any moment of which a
/// crash may come. The first call and the last are of the first shard, and the other one is of the second. What is
/// left then is a life of an opening.
///
/// `None` if a device failed or memory ran out, or if the slots are refused.
pub fn cut_once<D: Disk + Drop>(
    alloc: Global,
    slots: ([D; 2], [D; 2]),
    limits: Limits,
    capacity: Capacity,
    calls: (Call, Call, Call),
) -> Option<(Two<D>, (Reply, Reply))>
    requires limits { AreLimits limits }
    requires shards { IsOn 0 calls.0 × IsOn 1 calls.1 × IsOn 0 calls.2 }
    requires numbers { AreNumbers calls.0 × AreNumbers calls.1 × AreNumbers calls.2 }
    ensures { IfSome result (λ it. IsCutOnce D.sight D.follows (slots.0 ∷ slots.1 ∷ [])
        calls.0 calls.1 calls.2 it.1 it.0) }
{
    let (first, second, last) = calls;
    let (history, mut it) = open_two(alloc, slots, limits, capacity)?;
    let replies = call_both(alloc, &history, &mut it, first, second)?;
    history.meet(&mut it.one, &mut it.two);
    match cut_turn(alloc, &history, &mut it, last) {
        Some(_) => Some((it, replies)),
        None => None,
    }
}
