ghost use Rattle.std.specs.Prelude.{◌≡◌, string_bytes, ◌==◌, ◌⊎◌, ◌↔◌, List, None, Some, refl, IfOk, IfErr, IsErrOf};
ghost use Rattle.std.specs.Cmp as order;
ghost use Rattle.std.specs.Cmp.Lexicographic.{pointwise, slice_cmp, nat_list_eq_equiv, nat_list_cmp_total, texts_ties, texts_po};
ghost use Rattle.std.specs.Ordering.{nat_cmp};
ghost use Rattle.labels.specs.Faults.{first_fault};
ghost use Rattle.labels.specs.Canonical.{IsTextOf, IsCanonical, IsCanonicalText};
ghost use Rattle.pairs.specs.Labels.{Label};

use crate::fault::LabelFault;
use crate::parsing::is_canonical;
use crate::writing::canonical_text;
use pairs::LabelPairs;
use std::alloc::{AllocError, Global};
use std::cmp::Ordering;
use std::marker::Model;

/// The labels of a stream, kept as their canonical text, which contracts see: `{a="1", b="2"}`, the names in rising
/// byte order. A label set has one such text, and no two sets share one.
#[derive(Debug, Drop)]
pub struct LabelSet {
    text: String,
}

impl Model for LabelSet {
    ghost use Rattle.std.specs.Prelude.{List, ℕ, string_bytes};
    ghost use Rattle.labels.specs.Canonical.{IsCanonicalText};

    ghost Value = { List ℕ };

    ghost view = { λ t. string_bytes t.text };

    ghost invariant = { λ t. IsCanonicalText (string_bytes t.text) };
}

impl LabelSet {
    /// The set of these labels, given in any order.
    ///
    /// A stream has 1 to `MAX_LABELS` labels. A name is `[A-Za-z_][A-Za-z0-9_]*` of at most 1,024 bytes. A value is any
    /// text of 1 to 2,048 bytes. No name is given twice. `LabelFault` gives the order of the faults.
    pub fn new(alloc: Global, pairs: LabelPairs) -> Result<LabelSet, LabelFault>
        ensures ok { IfOk result (λ set. (first_fault pairs ≡ None) × IsTextOf set pairs) }
        ensures cause { IfErr result (λ e. (e ≡ LabelFault.Memory) ⊎ (first_fault pairs ≡ Some e)) }
    {
        let text = canonical_text(alloc, pairs.into_vec())?;
        Ok(LabelSet { text })
    }

    /// The label set with this canonical text: `NotCanonical` exactly where there is none.
    pub fn parse_text(alloc: Global, text: &str) -> Result<LabelSet, LabelFault>
        ensures ok { IfOk result (λ set. (set ≡ text.now) × IsCanonicalText text.now) }
        ensures none { IsErrOf result LabelFault.NotCanonical
            ↔ ((ps : List Label) → ¬ (IsCanonical text.now ps)) }
        ensures cause { IfErr result (λ e. (e ≡ LabelFault.Memory)
            ⊎ (e ≡ LabelFault.NotCanonical)) }
    {
        if !is_canonical(text) {
            return Err(LabelFault::NotCanonical);
        }
        let text = String::from_str(alloc, text)?;
        Ok(LabelSet { text })
    }

    /// A copy of the canonical text, or `Memory`.
    pub fn text(&self, alloc: Global) -> Result<String, LabelFault>
        ensures ok { IfOk result (λ text. string_bytes text ≡ self.now) }
        ensures cause { IfErr result (λ e. e ≡ LabelFault.Memory) }
    {
        Ok(String::from_str(alloc, self.as_str())?)
    }

    /// The canonical text.
    pub fn as_str(&self) -> &str
        ensures text { result.now ≡ self.now }
        ensures canonical { IsCanonicalText self.now }
    {
        self.text.as_str()
    }
}

impl Clone for LabelSet {
    ghost is_clone = { λ a b. b ≡ a };

    fn clone(&self) -> Result<LabelSet, AllocError> {
        let text = self.text.clone()?;
        Ok(LabelSet { text })
    }
}

impl PartialEq for LabelSet {
    ghost eq = { pointwise ◌==◌ };

    ghost laws = { order.partial_equiv_from_equiv nat_list_eq_equiv };

    fn eq(&self, other: &LabelSet) -> bool {
        self.as_str() == other.as_str()
    }
}

impl Eq for LabelSet {
    ghost laws = { nat_list_eq_equiv };
}

impl PartialOrd for LabelSet {
    ghost partial_cmp = { λ x y. Some (slice_cmp nat_cmp x y) };

    ghost laws = { texts_po };

    fn partial_cmp(&self, other: &LabelSet) -> Option<Ordering> {
        Some(self.cmp(other))
    }
}

impl Ord for LabelSet {
    ghost cmp = { slice_cmp nat_cmp };

    ghost total = { nat_list_cmp_total };

    ghost matches_partial_cmp = { λ x y. refl };

    ghost matches_eq = { texts_ties };

    fn cmp(&self, other: &LabelSet) -> Ordering {
        self.as_str().cmp(other.as_str())
    }
}
