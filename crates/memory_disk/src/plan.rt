ghost use Rattle.std.specs.Prelude.{ℕ, ◌<◌, ◌+◌, ◌↔◌, IsTrue};

/// Which of the next calls are to fail.
#[derive(Clone, Copy)]
pub(crate) enum FaultPlan {
    Works,
    /// The one with this number, where the next is 1.
    FailsIn(u64),
    /// The one with this number and all later ones.
    StopsIn(u64),
}

impl FaultPlan {
    ghost use Rattle.memory_disk.specs.FaultPlan.{IsAsked};

    /// Goes on to the next call, and says whether it is to fail.
    pub(crate) fn next_fails(&mut self) -> bool
        ensures now { IsTrue result ↔ IsAsked self.old 1 }
        ensures later { (k : ℕ) → 0 < k → (IsAsked self.new k ↔ IsAsked self.old (k + 1)) }
    {
        match *self {
            FaultPlan::Works => false,
            FaultPlan::FailsIn(n) => {
                *self = if n > 1 {
                    FaultPlan::FailsIn(n - 1)
                } else {
                    FaultPlan::Works
                };
                n == 1
            }
            FaultPlan::StopsIn(n) => {
                if n > 1 {
                    *self = FaultPlan::StopsIn(n - 1);
                }
                n <= 1
            }
        }
    }
}
