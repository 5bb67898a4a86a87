ghost use Rattle.std.specs.Prelude.{ℕ, List};
ghost use Rattle.pushjson.specs.Queries.{ReadsQuery, ReadsTrim};
ghost use Rattle.pushjson.specs.Reads.{IsPushAnswer, HasOne};

/// A law: while memory lasts, bytes have exactly one answer from each of `read_push`, `read_query` and `read_trim`. So
/// exactly one of the cases of these contracts holds.
pub fn one_answer()
    ensures push { (bytes : List ℕ) → HasOne (IsPushAnswer bytes) }
    ensures query { (bytes : List ℕ) → HasOne (ReadsQuery bytes) }
    ensures trim { (bytes : List ℕ) → HasOne (ReadsTrim bytes) }
{}
