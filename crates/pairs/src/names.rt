//! The order of names.
ghost use Rattle.std.specs.Prelude.{◌≡◌, string_bytes, vec_len};
ghost use Rattle.std.specs.List.{IsAllAdjacentAnswer};
ghost use Rattle.std.specs.Cmp.Lexicographic.{slice_cmp};
ghost use Rattle.std.specs.Ordering.{nat_cmp, is_lt, ordering_then};
ghost use Rattle.std.specs.List.Sorted.{IsPermutation, IsSorted};

/// Sorts by name in place, and pairs of one name by their values.
pub fn sort(pairs: &mut Vec<(String, String)>)
    ensures permutation { IsPermutation pairs.old.items pairs.new.items }
    ensures len { vec_len pairs.new ≡ vec_len pairs.old }
    ensures sorted { IsSorted (λ x y. ordering_then
        (slice_cmp nat_cmp (string_bytes x.0) (string_bytes y.0))
        (slice_cmp nat_cmp (string_bytes x.1) (string_bytes y.1))) pairs.new.items }
{
    pairs.sort_unstable();
}

/// Whether each name is below the next, so that none is given twice.
pub fn names_rise(pairs: &[(String, String)]) -> bool
    ensures { IsAllAdjacentAnswer (λ x y b. b
        ≡ is_lt (slice_cmp nat_cmp (string_bytes x.0) (string_bytes y.0))) pairs.now result }
{
    pairs.is_sorted_by(|one, next| one.0.as_str() < next.0.as_str())
}
