ghost use Rattle.std.specs.Prelude.{◌<◌, ℕ};
ghost use Rattle.accept.specs.OneStream.{end_of_time};

/// What tells the time of each request.
pub trait Clock {
    /// From the clock, the time that it tells, to the clock afterwards.
    ghost ticks: { Self → ℕ → Self → Type 0 };

    /// The time in nanoseconds: below 2^63.
    fn now(&mut self) -> u64
        ensures ticks { ticks self.old result self.new }
        ensures range { result < end_of_time };
}
