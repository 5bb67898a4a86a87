//! Values that are taken out of a list and put back in their places.
ghost use Rattle.std.specs.Prelude.{◌≡◌, ◌<◌, ◌+◌, ℕ, List, length, set, slice_index_or, vec_len};
ghost use Rattle.std.specs.List.{swap_remove};
ghost use Rattle.std.specs.Vec.{vec_capacity};

/// Takes a value out of a list. Until it is put back, the last value is in its place.
pub(crate) fn take<T>(list: &mut Vec<T>, place: usize) -> T
    requires { place < vec_len list.old }
    ensures value { (d : T) → result ≡ slice_index_or list.old.items place d }
    ensures items { list.new.items ≡ swap_remove list.old.items place result }
    ensures len { vec_len list.new + 1 ≡ vec_len list.old }
    ensures room { vec_len list.new < vec_capacity list.new }
{
    list.swap_remove(place)
}

/// Puts a value back in the place from which it, or another value, was taken.
pub(crate) fn put<T>(list: &mut Vec<T>, place: usize, value: T)
    requires place { place < vec_len list.old + 1 }
    requires room { vec_len list.old < vec_capacity list.old }
    ensures items { (all : List T) (taken : T) → place < length all
        → list.old.items ≡ swap_remove all place taken
        → list.new.items ≡ set all place value }
    ensures len { vec_len list.new ≡ vec_len list.old + 1 }
{
    let last = list.len();
    list.push_reserved(value);
    list.as_mut_slice().swap(place, last);
}
