//! What the environment sets.
ghost use Rattle.std.specs.Prelude.{◌≡◌, IfSome, MatchOption, option_map, string_bytes};
ghost use Rattle.accept.specs.OneStream.{AreLimits};
ghost use Rattle.programs.specs.Words.{GivesCapacity, capacity_of, GivesOpen, open_of, GivesHalfSent, half_sent_of};
ghost use Rattle.programs.specs.Environments.{limits_of};

use accept::Limits;
use programs::{
    Environment, LimitSetting, capacity_in, half_sent_in, limits_in, open_connections_in,
};
use std::io::Write;
use wal::Capacity;

/// How many bytes a slot may have by the environment. `None` where it gives no such number; a line of `errors` then
/// says which it may give.
pub fn capacity_by<E: Write>(environment: &Environment, errors: &mut E) -> Option<Capacity>
    ensures given { MatchOption result
        (¬ GivesCapacity (option_map string_bytes environment.now.capacity))
        (λ _. GivesCapacity (option_map string_bytes environment.now.capacity)) }
    ensures says { IfSome result (λ capacity. capacity
        ≡ capacity_of (option_map string_bytes environment.now.capacity)) }
{
    let capacity = capacity_in(environment.capacity.as_deref());
    if capacity.is_none() {
        let _ = writeln!(
            errors,
            "NEEDLEAZURE_CAPACITY is not a number of bytes from 4096 to 1073741824"
        );
    }
    capacity
}

/// How many connections may be open by the environment. `None` where it gives no such number; a line of `errors` then
/// says which it may give.
pub fn open_connections_by<E: Write>(environment: &Environment, errors: &mut E) -> Option<u64>
    ensures given { MatchOption result
        (¬ GivesOpen (option_map string_bytes environment.now.open_connections))
        (λ _. GivesOpen (option_map string_bytes environment.now.open_connections)) }
    ensures says { IfSome result (λ number. number
        ≡ open_of (option_map string_bytes environment.now.open_connections)) }
{
    let open = open_connections_in(environment.open_connections.as_deref());
    if open.is_none() {
        let _ = writeln!(
            errors,
            "NEEDLEAZURE_OPEN_CONNECTIONS is not a number of connections from 1 to 1000000"
        );
    }
    open
}

/// How many bytes of requests that have not come whole may be held by the environment. `None` where it gives no such
/// number; a line of `errors` then says which it may give.
pub fn half_sent_by<E: Write>(environment: &Environment, errors: &mut E) -> Option<u64>
    ensures given { MatchOption result
        (¬ GivesHalfSent (option_map string_bytes environment.now.half_sent))
        (λ _. GivesHalfSent (option_map string_bytes environment.now.half_sent)) }
    ensures says { IfSome result (λ bytes. bytes
        ≡ half_sent_of (option_map string_bytes environment.now.half_sent)) }
{
    let bytes = half_sent_in(environment.half_sent.as_deref());
    if bytes.is_none() {
        let _ = writeln!(
            errors,
            "NEEDLEAZURE_HALF_SENT is not a number of bytes from 4210688 to 1099511627776"
        );
    }
    bytes
}

/// The limits that the environment gives. `None` where a variable gives none; a line of `errors` then names the first
/// such variable, and says what it may be.
pub fn limits_by<E: Write>(environment: &Environment, errors: &mut E) -> Option<Limits>
    ensures given { result ≡ limits_of environment.now }
    ensures lawful { IfSome result AreLimits }
{
    match limits_in(environment) {
        Ok(limits) => Some(limits),
        Err(setting) => {
            let _ = writeln!(errors, "{}", fault_of(setting));
            None
        }
    }
}

// What is said of a variable that gives no limit.
fn fault_of(setting: LimitSetting) -> &'static str {
    match setting {
        LimitSetting::MaxChunkAge => {
            "NEEDLEAZURE_MAX_CHUNK_AGE is not 0 or a duration in w, d, h, m and s, such as 90s, 2h or 1h30m"
        }
        LimitSetting::RejectOldSamplesMaxAge => {
            "NEEDLEAZURE_REJECT_OLD_SAMPLES_MAX_AGE is not a duration above 0 in w, d, h, m and s, such as 168h or 7d"
        }
        LimitSetting::CreationGracePeriod => {
            "NEEDLEAZURE_CREATION_GRACE_PERIOD is not a duration above 0 in w, d, h, m and s, such as 90s or 10m"
        }
    }
}
