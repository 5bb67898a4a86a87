//! A law of the disk model: the function's contract is the law, and it does nothing.
ghost use Rattle.std.specs.Prelude.{◌≡◌, ◌≤◌, ℕ, List, length};
ghost use Rattle.disk.specs.Sight.{Torn};
ghost use Rattle.disk.specs.State.{State, Break, act};

/// A write that failed may have left anything that a torn write leaves.
pub fn failed_writes_leave_any()
    ensures { (s : State) (at n : ℕ) (c : List ℕ) → at ≤ length s.now → Torn at n s.now c
        → (left : List ℕ) × ((act s (Break at n left)).now ≡ c) }
{}
