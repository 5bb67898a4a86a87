ghost use Rattle.std.specs.Prelude.{◌≡◌, IfOk};
ghost use Rattle.std.specs.Str.Parse.{digits_value, without_leading_plus};
ghost use Rattle.segment.specs.ShardPlaces.{IsLawfulShard, place_of};

use anyhow::{Context, Result, bail};
use rows::word_of;

/// The number that a word writes.
///
/// # Errors
/// A word that is no number.
pub fn number_of(word: &str) -> Result<u64>
    ensures { IfOk result (λ n. n ≡ digits_value 10 (without_leading_plus word.now)) }
{
    word.parse::<u64>()
        .context(format_args!("no number: {word}"))
}

/// A shard's number and how many shards there are, `SHARD COUNT`.
///
/// # Errors
/// Other words, or a count that is not 1 to 64.
pub fn place_of(words: &str) -> Result<(u32, u32)>
    ensures { IfOk result (λ it. IsLawfulShard (place_of it.0 it.1)) }
{
    let (shard, count) = word_of(words);
    let shard = u32::try_from(number_of(shard)?)?;
    let count = u32::try_from(number_of(count)?)?;
    if count < 1 || count > 64 {
        bail!("no count of shards: {count}");
    }
    Ok((shard, count))
}
