//! What the words of `walsplit` say.
ghost use Rattle.std.specs.Prelude.{◌≤◌};
ghost use Rattle.labels.specs.Shards.{max_shards};

/// The words of `walsplit OLD NEW COUNT`.
#[derive(Clone, Copy, Debug)]
pub struct SplitWords<'a> {
    /// The folder of the old slots.
    pub old_folder: &'a str,
    /// The folder of the new ones.
    pub new_folder: &'a str,
    /// The new number of shards, 1 to `MAX_SHARDS` of `words`.
    pub shards: u32,
    ghost some: { 1 ≤ shards },
    ghost few: { shards ≤ max_shards },
}
