//! Shards split into another number of shards.
ghost use Rattle.std.specs.Prelude.{◌≡◌, ◌<◌, ◌≤◌, IfOk, IfErr, OnOk, vec_len};
ghost use Rattle.labels.specs.Shards.{max_shards};
ghost use Rattle.split.specs.Splits.{back, EachPair, HaveFollowed, IsAtRest, AreSplit, IsCause};

use crate::dealing::{deal_all, test_rooms};
use crate::fault::SplitFault;
use crate::reading::read_all;
use crate::starting::start_all;
use crate::testing::test_all;
use disk::Disk;
use std::alloc::Global;
use wal::Capacity;

/// Pairs of slots, one for each shard in order, slot 0 first.
#[derive(Drop)]
pub struct Slots<D> {
    /// Those of the old shards.
    pub old: Vec<[D; 2]>,
    /// Those of the new shards.
    pub new: Vec<[D; 2]>,
}

/// Splits the streams of old shards among new shards: each goes to the shard of its key under the new number. There are
/// 1 to `MAX_SHARDS` of `labels` old shards, and 1 to as many new ones. A segment may have `cap` bytes.
///
/// The old slots are synced and read, shard 0 first, and never written. The new slots have to be empty. Once the
/// streams of each new shard are known to have room, generation 1 is started in slot 1 of each, shard 0 first, even for
/// a shard without streams. All maps are in memory at once. All slots come back.
///
/// # Errors
///
/// `Old`: the first old shard whose slots are refused. `NotEmpty`: all were read, and this is the first slot of a new
/// shard that holds something. `NoRoom`: all new slots are empty, and this is the first new shard whose streams need
/// more room than `cap`. Up to there nothing was written. `Device`: a device of this new shard failed, and no other.
/// `Memory`: want of memory, but for the opening of an old shard. After any fault what the new slots hold is to be
/// given up. What is said here of slots holds of those that follow the disk model: if those of a new shard do not,
/// `NotEmpty` may also come after new shards were begun.
pub fn split<D: Disk>(
    alloc: Global,
    old: Vec<[D; 2]>,
    new: Vec<[D; 2]>,
    cap: Capacity,
) -> Result<Slots<D>, (SplitFault, Slots<D>)>
    requires old { (0 < vec_len old) × (vec_len old ≤ max_shards) }
    requires new { (0 < vec_len new) × (vec_len new ≤ max_shards) }
    ensures lengths { (vec_len (back result).old ≡ vec_len old)
        × (vec_len (back result).new ≡ vec_len new) }
    // A crash at any moment leaves of the old slots only what it could have left at the start.
    ensures old_rests { EachPair (λ _. IsAtRest D.sight D.follows) old.items
        (back result).old.items }
    ensures new_before { EachPair (λ _. HaveFollowed D.sight D.follows) new.items
        (back result).new.items }
    ensures split { IfOk result (λ it.
        AreSplit D.sight D.follows cap old.items it.old.items new.items it.new.items) }
    ensures cause { IfErr result (λ e.
        IsCause D.sight D.follows e.0 cap old.items e.1.old.items new.items e.1.new.items) }
{
    let mut old = old;
    let mut new = new;
    let made = split_over(alloc, &mut old, &mut new, cap);
    let slots = Slots { old, new };
    match made {
        Ok(()) => Ok(slots),
        Err(fault) => Err((fault, slots)),
    }
}

fn split_over<D: Disk>(
    alloc: Global,
    old: &mut Vec<[D; 2]>,
    new: &mut Vec<[D; 2]>,
    cap: Capacity,
) -> Result<(), SplitFault>
    requires old { (0 < vec_len old.old) × (vec_len old.old ≤ max_shards) }
    requires new { (0 < vec_len new.old) × (vec_len new.old ≤ max_shards) }
    ensures lengths { (vec_len old.new ≡ vec_len old.old) × (vec_len new.new ≡ vec_len new.old) }
    ensures old_rests { EachPair (λ _. IsAtRest D.sight D.follows) old.old.items old.new.items }
    ensures new_before { EachPair
        (λ _. HaveFollowed D.sight D.follows) new.old.items new.new.items }
    ensures split { OnOk result
        (AreSplit D.sight D.follows cap old.old.items old.new.items new.old.items new.new.items) }
    ensures cause { IfErr result (λ fault.
        IsCause D.sight D.follows fault cap old.old.items old.new.items new.old.items
        new.new.items) }
{
    let count = new.len() as u32;
    let olds = read_all(alloc, old, cap)?;
    test_all(new)?;
    let news = deal_all(alloc, olds, count)?;
    test_rooms(&news, cap)?;
    start_all(alloc, new, &news, cap)
}
