ghost use Rattle.std.specs.Prelude.{◌≡◌, map};
ghost use Rattle.pairs.specs.Labels.{label_of};

use std::marker::Model;

/// Names with their values, as they were given: not yet tested, in any order. Contracts see the list of pairs of byte
/// lists.
#[derive(Debug, Drop)]
pub struct LabelPairs {
    pairs: Vec<(String, String)>,
}

impl Model for LabelPairs {
    ghost use Rattle.std.specs.Prelude.{List, map};
    ghost use Rattle.pairs.specs.Labels.{Label, label_of};

    ghost Value = { List Label };

    ghost view = { λ l. map label_of l.pairs.items };
}

impl LabelPairs {
    /// The list of these pairs.
    pub fn new(pairs: Vec<(String, String)>) -> LabelPairs
        ensures { result ≡ map label_of pairs.items }
    {
        LabelPairs { pairs }
    }

    /// The pairs, in order.
    pub fn as_slice(&self) -> &[(String, String)]
        ensures { map label_of result.now ≡ self.now }
    {
        &self.pairs
    }

    /// The pairs, moved out.
    pub fn into_vec(self) -> Vec<(String, String)>
        ensures { map label_of result.items ≡ self }
    {
        self.pairs
    }
}
