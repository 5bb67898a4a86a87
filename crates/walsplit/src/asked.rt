//! The words of `walsplit`.
ghost use Rattle.std.specs.Prelude.{IfSome, MatchOption};
ghost use Rattle.labels.specs.Shards.{max_shards};
ghost use Rattle.programs.specs.Words.{IsNumberIn};
ghost use Rattle.walsplit.specs.Words.{GiveSplit, SaysSplit, SaysOfSplit};

use crate::said::SplitWords;
use programs::MAX_SHARDS;
use pushjson::time_of;

/// What the words of `walsplit` say: `None` where they are not such words.
pub fn split_in(words: &[String]) -> Option<SplitWords<'_>>
    ensures given { MatchOption result (¬ GiveSplit words.now) (λ _. GiveSplit words.now) }
    ensures says { IfSome result (SaysSplit words.now) }
{
    match words {
        [old, new, count] => split_of(old.as_str(), new.as_str(), count.as_str()),
        _ => None,
    }
}

fn split_of<'a>(old: &'a str, new: &'a str, count: &str) -> Option<SplitWords<'a>>
    ensures named { MatchOption result
        (¬ IsNumberIn 1 max_shards count.now) (λ _. IsNumberIn 1 max_shards count.now) }
    ensures says { IfSome result (SaysOfSplit old.now new.now count.now) }
{
    let shards = time_of(count)?;
    if shards < 1 || shards > MAX_SHARDS {
        return None;
    }
    Some(SplitWords {
        old_folder: old,
        new_folder: new,
        shards: shards as u32,
    })
}
