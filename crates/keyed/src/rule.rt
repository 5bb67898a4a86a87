//! What values and messages satisfy.

/// What the messages of a queue satisfy, or a value that is set aside.
pub trait Fits<T, K> {
    ghost use Rattle.std.specs.Prelude.{ℕ};

    /// What it satisfies, for a key and a number.
    ghost fits: { K → ℕ → T → Type 0 };
}
