//! Laws: functions that do nothing, and whose contracts say what holds.
ghost use Rattle.std.specs.Prelude.{◌≡◌, ◌∷◌, List, Some, None};
ghost use Rattle.accept.specs.OneStream.{profile_limits};
ghost use Rattle.programs.specs.Durations.{NumberWithUnit, text_of_parts, nanos_of_parts, nanos_with, duration_of};
ghost use Rattle.programs.specs.Environments.{limits_of};

use crate::environment::Environment;

/// Where no limit is set, the limits are the profile's.
pub fn unset_limits(_environment: &Environment)
    requires age { _environment.now.max_chunk_age ≡ None }
    requires old { _environment.now.reject_old_samples_max_age ≡ None }
    requires ahead { _environment.now.creation_grace_period ≡ None }
    ensures { limits_of _environment.now ≡ Some profile_limits }
{}

/// What numbers with their units write, one after another, is read as the sum of their nanoseconds, where that is below
/// 2^63.
pub fn written_durations_are_read()
    ensures { (part : NumberWithUnit) (parts : List NumberWithUnit) → duration_of (text_of_parts (part ∷ parts))
        ≡ nanos_with (nanos_of_parts (part ∷ parts)) None }
{}
