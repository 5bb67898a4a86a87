//! Whether the slots of new shards are empty.
ghost use Rattle.std.specs.Prelude.{◌≡◌, ◌≢◌, ◌⊎◌, ◌<◌, ◌≤◌, ℕ, List, [], ◌∷◌, set, OnOk, IfErr, vec_len};
ghost use Rattle.labels.specs.Shards.{max_shards};
ghost use Rattle.wal.specs.Opening.{IsRestedDisk};
ghost use Rattle.split.specs.Splits.{pair_at, EachPair, IsAtRest, AreOldRead, IsCause};
ghost use Rattle.split.specs.Stages.{IsTested, IsTestFault};

use crate::fault::SplitFault;
use crate::moving::{put, take};
use disk::Disk;

fn test_slot<D: Disk>(disk: &mut D, shard: u32, slot: u32) -> Result<(), SplitFault>
    ensures rested { IsRestedDisk D.follows D.sight disk.old disk.new }
    ensures empty { OnOk result (D.follows disk.new → (D.sight disk.old).seen ≡ []) }
    ensures not_failed { OnOk result ((D.sight disk.new).failures ≡ (D.sight disk.old).failures) }
    ensures fault { IfErr result (λ e.
        ((e ≡ SplitFault.NotEmpty shard slot) × (D.follows disk.new → (D.sight disk.old).seen ≢ []))
        ⊎ ((e ≡ SplitFault.Device shard)
        × ((D.sight disk.new).failures ≢ (D.sight disk.old).failures))) }
{
    match disk.len() {
        Ok(0) => Ok(()),
        Ok(_) => Err(SplitFault::NotEmpty { shard, slot }),
        Err(_) => Err(SplitFault::Device { shard }),
    }
}

/// Slot 0, then slot 1.
fn test_both<D: Disk>(first: &mut D, second: &mut D, shard: u32) -> Result<(), SplitFault>
    ensures rests { IsAtRest D.sight D.follows (first.old ∷ second.old ∷ [])
        (first.new ∷ second.new ∷ []) }
    ensures tested { OnOk result
        (IsTested D.sight D.follows (first.old ∷ second.old ∷ []) (first.new ∷ second.new ∷ [])) }
    ensures fault { IfErr result (λ e.
        IsTestFault D.sight D.follows shard (first.old ∷ second.old ∷ [])
        (first.new ∷ second.new ∷ []) e) }
{
    test_slot(first, shard, 0)?;
    test_slot(second, shard, 1)
}

fn test_pair<D: Disk>(given: [D; 2], shard: u32) -> (Result<(), SplitFault>, [D; 2])
    ensures rests { IsAtRest D.sight D.follows given result.1 }
    ensures tested { OnOk result.0 (IsTested D.sight D.follows given result.1) }
    ensures fault { IfErr result.0 (λ e. IsTestFault D.sight D.follows shard given result.1 e) }
{
    let [mut first, mut second] = given;
    let tested = test_both(&mut first, &mut second, shard);
    (tested, [first, second])
}

/// Tests the slots of a shard, which stay in their place.
fn test_at<D: Disk>(new: &mut Vec<[D; 2]>, shard: u32) -> Result<(), SplitFault>
    requires { shard < vec_len new.old }
    ensures set { new.new.items ≡ set new.old.items shard (pair_at new.new.items shard) }
    ensures len { vec_len new.new ≡ vec_len new.old }
    ensures rests { IsAtRest D.sight D.follows (pair_at new.old.items shard)
        (pair_at new.new.items shard) }
    ensures tested { OnOk result
        (IsTested D.sight D.follows (pair_at new.old.items shard) (pair_at new.new.items shard)) }
    ensures fault { IfErr result (λ e.
        IsTestFault D.sight D.follows shard (pair_at new.old.items shard)
        (pair_at new.new.items shard) e) }
{
    let given = take(new, shard as usize);
    let (tested, back) = test_pair(given, shard);
    put(new, shard as usize, back);
    tested
}

/// Whether all slots are empty, shard 0 first, slot 0 first. Writes nothing.
///
/// # Errors
///
/// `NotEmpty`: the first slot that is not empty; `Device`.
pub(crate) fn test_all<D: Disk>(new: &mut Vec<[D; 2]>) -> Result<(), SplitFault>
    requires few { vec_len new.old ≤ max_shards }
    ensures len { vec_len new.new ≡ vec_len new.old }
    ensures rests { EachPair (λ _. IsAtRest D.sight D.follows) new.old.items new.new.items }
    ensures tested { OnOk result
        (EachPair (λ _. IsTested D.sight D.follows) new.old.items new.new.items) }
    ensures cause { IfErr result (λ fault. (cap : ℕ) (old old_back : List (List D))
        → AreOldRead D.sight D.follows old old_back
        → IsCause D.sight D.follows fault cap old old_back new.old.items new.new.items) }
{
    for shard in 0..new.len() as u32 {
        test_at(new, shard)?;
    }
    Ok(())
}
