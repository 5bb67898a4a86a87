//! Which slots a folder has.
ghost use Rattle.std.specs.Prelude.{◌≤◌, IfOk};
ghost use Rattle.labels.specs.Shards.{max_shards};

use crate::walsplit_fault::WalsplitFault;
use programs::{SlotName, SlotsFault, has_slot};
use std::alloc::Global;
use std::fs::{self, Files};

/// The greatest number of shards.
const MAX_SHARDS: u32 = programs::MAX_SHARDS as u32;

/// The number of shards of which a folder has slots: those of shard 0, shard 1 and so on without a gap.
///
/// # Errors
///
/// `NoShards`: there are none, or more than `MAX_SHARDS`. `Missing`: a shard has no slot 1, or a shard after the last
/// has a slot; it names the first missing slot. `Slots`: it cannot be found out whether a file exists, or memory is
/// wanting.
pub fn shards_in<R: Files>(rt: &R, alloc: Global, folder: &str) -> Result<u32, WalsplitFault>
    ensures { IfOk result (λ shards. (1 ≤ shards) × (shards ≤ max_shards)) }
{
    if folder.is_empty() {
        return Err(WalsplitFault::Slots(SlotsFault::Path(String::new(alloc))));
    }
    let shards = first_slots(rt, alloc, folder)?;
    if shards < 1 || shards > MAX_SHARDS {
        return Err(WalsplitFault::NoShards);
    }
    for shard in 0..shards {
        if !has_slot(rt, alloc, folder, SlotName { shard, slot: 1 })? {
            return Err(WalsplitFault::Missing(SlotName { shard, slot: 1 }));
        }
    }
    if has_slots(rt, alloc, folder, shards)? {
        return Err(WalsplitFault::Missing(SlotName {
            shard: shards,
            slot: 0,
        }));
    }
    Ok(shards)
}

/// Whether a folder has a slot of this shard or of a later one, up to shard `MAX_SHARDS`.
pub fn has_slots<R: Files>(
    rt: &R,
    alloc: Global,
    folder: &str,
    from: u32,
) -> Result<bool, WalsplitFault> {
    for shard in from..=MAX_SHARDS {
        if has_slot(rt, alloc, folder, SlotName { shard, slot: 0 })?
            || has_slot(rt, alloc, folder, SlotName { shard, slot: 1 })?
        {
            return Ok(true);
        }
    }
    Ok(false)
}

// How many slots 0 there are without a gap: `MAX_SHARDS` + 1 where there are more.
fn first_slots<R: Files>(rt: &R, alloc: Global, folder: &str) -> Result<u32, WalsplitFault> {
    for shard in 0..=MAX_SHARDS {
        if !has_slot(rt, alloc, folder, SlotName { shard, slot: 0 })? {
            return Ok(shard);
        }
    }
    Ok(MAX_SHARDS + 1)
}
