//! What the environment says of a server.
ghost use Rattle.std.specs.Prelude.{◌≡◌, ◌≢◌, ◌≤◌, ◌<◌, Some, None, IfOk, IfSome, MatchResult, MatchOption, option_map, string_bytes};
ghost use Rattle.accept.specs.OneStream.{AreLimits, end_of_time};
ghost use Rattle.programs.specs.Environments.{least_of, unset_of, text_of, limit_of, limits_of};

use crate::durations::duration_in;
use accept::Limits;

/// The texts of the variables that programs read: `None` where a variable is not set. By default none is set.
#[derive(Default, Drop)]
pub struct Environment {
    /// `NEEDLEAZURE_CAPACITY`: how many bytes a slot may have.
    pub capacity: Option<String>,
    /// `NEEDLEAZURE_MAX_CHUNK_AGE`: twice as far as a line may be behind the newest one of its stream.
    pub max_chunk_age: Option<String>,
    /// `NEEDLEAZURE_REJECT_OLD_SAMPLES_MAX_AGE`: how far before the clock a line may be.
    pub reject_old_samples_max_age: Option<String>,
    /// `NEEDLEAZURE_CREATION_GRACE_PERIOD`: how far after the clock a line may be.
    pub creation_grace_period: Option<String>,
    /// `NEEDLEAZURE_OPEN_CONNECTIONS`: how many connections may be open.
    pub open_connections: Option<String>,
    /// `NEEDLEAZURE_HALF_SENT`: how many bytes of requests that have not come whole may be held.
    pub half_sent: Option<String>,
}

/// A variable that sets a limit.
#[derive(Clone, Copy)]
pub enum LimitSetting {
    /// `NEEDLEAZURE_MAX_CHUNK_AGE`.
    MaxChunkAge,
    /// `NEEDLEAZURE_REJECT_OLD_SAMPLES_MAX_AGE`.
    RejectOldSamplesMaxAge,
    /// `NEEDLEAZURE_CREATION_GRACE_PERIOD`.
    CreationGracePeriod,
}

/// The limits that the environment gives: those of the profile, where a variable is not set.
///
/// # Errors
///
/// A variable that gives no limit: the first in the order of `LimitSetting`.
pub fn limits_in(environment: &Environment) -> Result<Limits, LimitSetting>
    ensures given { MatchResult result (λ limits. limits_of environment.now ≡ Some limits)
        (λ setting. (limits_of environment.now ≡ None)
        × (limit_of environment.now setting ≡ None)) }
    ensures lawful { IfOk result AreLimits }
{
    let max_chunk_age = limit_in(environment, LimitSetting::MaxChunkAge)?;
    let max_old = limit_in(environment, LimitSetting::RejectOldSamplesMaxAge)?;
    let max_ahead = limit_in(environment, LimitSetting::CreationGracePeriod)?;
    Ok(Limits {
        line: Limits::LINE,
        half_age: max_chunk_age / 2,
        max_old,
        max_ahead,
    })
}

// What a variable gives, in nanoseconds.
fn limit_in(environment: &Environment, setting: LimitSetting) -> Result<u64, LimitSetting>
    ensures given { MatchResult result
        (λ nanos. (limit_of environment.now setting ≡ Some nanos) × (nanos < end_of_time))
        (λ wrong. (wrong ≡ setting) × (limit_of environment.now setting ≡ None)) }
{
    let (text, unset, least) = match setting {
        LimitSetting::MaxChunkAge => (&environment.max_chunk_age, 2 * Limits::HALF_AGE, 0),
        LimitSetting::RejectOldSamplesMaxAge => (
            &environment.reject_old_samples_max_age,
            Limits::MAX_OLD,
            1,
        ),
        LimitSetting::CreationGracePeriod => (
            &environment.creation_grace_period,
            Limits::MAX_AHEAD,
            1,
        ),
    };
    let Some(text) = text else {
        return Ok(unset);
    };
    match duration_in(text.as_str()) {
        Some(nanos) if nanos >= least => Ok(nanos),
        _ => Err(setting),
    }
}
