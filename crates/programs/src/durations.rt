//! Durations, as Loki's settings write them.
ghost use Rattle.std.specs.Prelude.{◌≡◌, ◌≤◌, ◌<◌, Some, IfSome, MatchOption};
ghost use Rattle.accept.specs.OneStream.{end_of_time};
ghost use Rattle.programs.specs.Durations.{unit_nanos, read_byte, read_bytes, duration_after, duration_of, nothing_read, IsNoDuration};

use accept::END_OF_TIME;

/// What is read of a duration so far.
#[derive(Clone, Copy)]
struct PartialDuration {
    /// The nanoseconds of the numbers whose units have come.
    nanos: u64,
    /// The number whose unit has not come yet, where there is one.
    number: Option<u64>,
}

/// The nanoseconds that a text writes: `0`, or whole numbers in decimal digits, each with its unit after it, as in
/// `90s` or `1h30m`. The units are `w`, `d`, `h`, `m` and `s`. `None` where it writes none below `END_OF_TIME`.
pub fn duration_in(text: &str) -> Option<u64>
    ensures reads { result ≡ duration_of text.now }
    ensures range { IfSome result (λ nanos. nanos < end_of_time) }
{
    match text.as_bytes() {
        [] => None,
        [byte] => { if *byte == b'0' { Some(0) } else { None } }
        bytes => nanos_in(bytes),
    }
}

fn nanos_in(bytes: &[u8]) -> Option<u64>
    ensures reads { result ≡ duration_after (read_bytes (Some nothing_read) bytes.now) }
    ensures range { IfSome result (λ nanos. nanos < end_of_time) }
{
    let mut parts = PartialDuration {
        nanos: 0,
        number: None,
    };
    for byte in bytes {
        parts = match parts_with(parts, *byte) {
            Some(more) => more,
            None => return None,
        };
    }
    if parts.number.is_some() || parts.nanos >= END_OF_TIME {
        return None;
    }
    Some(parts.nanos)
}

// What is read with one more byte. `None` where that is no duration, or one that is too long.
fn parts_with(parts: PartialDuration, byte: u8) -> Option<PartialDuration>
    ensures { MatchOption result (IsNoDuration (read_byte parts byte)) (λ more. read_byte parts byte
        ≡ Some more) }
{
    if byte >= b'0' && byte <= b'9' {
        let number = parts
            .number
            .unwrap_or(0)
            .checked_mul(10)?
            .checked_add(u64::from(byte - b'0'))?;
        return Some(PartialDuration {
            nanos: parts.nanos,
            number: Some(number),
        });
    }
    let unit = unit_of(byte)?;
    let nanos = parts.number?.checked_mul(unit)?.checked_add(parts.nanos)?;
    Some(PartialDuration {
        nanos,
        number: None,
    })
}

// The nanoseconds of a unit.
fn unit_of(letter: u8) -> Option<u64>
    ensures { result ≡ unit_nanos letter }
{
    match letter {
        b's' => Some(1_000_000_000),
        b'm' => Some(60_000_000_000),
        b'h' => Some(3_600_000_000_000),
        b'd' => Some(86_400_000_000_000),
        b'w' => Some(604_800_000_000_000),
        _ => None,
    }
}
