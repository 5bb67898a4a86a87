ghost use Rattle.std.specs.Prelude.{◌≡◌, ◌<◌, MatchOption};
ghost use Rattle.std.specs.Str.Parse.{digits_value};
ghost use Rattle.accept.specs.OneStream.{end_of_time};
ghost use Rattle.pushjson.specs.Times.{IsTime};

use accept::END_OF_TIME;

// The most digits that a time has.
const MAX_TIME_DIGITS: usize = 19;

/// The time that a text writes, in nanoseconds: 1 to 19 decimal digits, leading zeros included, of a value below
/// `END_OF_TIME`. `None` where it writes none.
#[tactic(auto, unfolding(crate::specs::Times::IsTime))]
pub fn time_of(text: &str) -> Option<u64>
    ensures { MatchOption result (¬ IsTime text.now) (λ time. IsTime text.now × (time ≡ digits_value 10 text.now)
        × (time < end_of_time)) }
{
    if text.len() > MAX_TIME_DIGITS {
        return None;
    }
    if text.starts_with('+') {
        return None;
    }
    match text.parse::<u64>() {
        Ok(time) if time < END_OF_TIME => Some(time),
        _ => None,
    }
}
