ghost use Rattle.std.specs.Prelude.{◌≡◌, ℕ, List, None};
ghost use Rattle.std.specs.List.Sorted.{IsPermutation};
ghost use Rattle.pairs.specs.Labels.{Label};
ghost use Rattle.labels.specs.Canonical.{AreTexts, IsCanonical, IsTextOf};
ghost use Rattle.labels.specs.Faults.{first_fault};
ghost use Rattle.labels.specs.Keys.{key_cmp};

use crate::key::StreamKey;
use std::cmp::Ordering;

/// The law that labels have one canonical text, in any order in which they are given.
pub fn one_text()
    ensures list { (t u : List ℕ) (ps : List Label) → IsCanonical t ps → IsCanonical u ps → t ≡ u }
    ensures set { (t u : List ℕ) (pairs others : List Label) → IsPermutation pairs others
        → IsTextOf t pairs
        → IsTextOf u others → t ≡ u }
{}

/// The law that labels whose values are texts have a canonical text exactly where they have no fault.
pub fn some_text()
    ensures faultless { (pairs : List Label) → AreTexts pairs → first_fault pairs ≡ None
        → (text : List ℕ)
        × IsTextOf text pairs }
    ensures only { (text : List ℕ) (pairs : List Label) → IsTextOf text pairs → AreTexts pairs
        × (first_fault pairs ≡ None) }
{}

/// The law that no two label sets share a canonical text.
#[tactic(auto, using(crate::proofs::Unique::one_set))]
pub fn one_set()
    ensures list { (t : List ℕ) (ps qs : List Label) → IsCanonical t ps → IsCanonical t qs
        → ps ≡ qs }
    ensures set { (t : List ℕ) (pairs others : List Label) → IsTextOf t pairs → IsTextOf t others
        → IsPermutation pairs others }
{}

/// The order of keys: by the tenant's bytes, then by those of the labels' canonical text.
pub fn order_of_keys(one: &StreamKey, other: &StreamKey) -> Ordering
    ensures { result ≡ key_cmp one.now other.now }
{
    one.cmp(other)
}
