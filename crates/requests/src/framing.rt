ghost use Rattle.std.specs.Prelude.{◌≡◌, ◌≤◌, length, map, All, IsTrue};
ghost use Rattle.std.specs.List.{list_all};
ghost use Rattle.std.specs.Char.{is_ascii_digit};
ghost use Rattle.std.specs.Str.Parse.{digits_value};
ghost use Rattle.httparse.specs.Spans.{IsHeaderWithin, header_bytes};
ghost use Rattle.requests.specs.Framings.{is_length, framing_of_value, framing_of};

use crate::fields::{Found, find, has_field};
use crate::fixed::FixedAnswer;
use httparse::spans::HeaderSpan;

/// The longest body, in bytes: this project's profile.
pub const MAX_BODY: usize = 4_194_304;

/// The most digits of a Content-Length.
const MAX_LENGTH_DIGITS: usize = 19;

/// How long a body is, or why the request is refused before its body.
#[derive(Clone, Copy)]
pub(crate) enum Framing {
    /// This many bytes, at most `MAX_BODY`.
    Length(usize),
    Refused(FixedAnswer),
}

fn are_digits(bytes: &[u8]) -> bool
    ensures { result ≡ list_all is_ascii_digit bytes.now }
{
    bytes.iter().all(|byte| byte.is_ascii_digit())
}

/// The number that at most 19 digits write.
fn value_of(digits: &[u8]) -> u64
    requires digits { IsTrue (list_all is_ascii_digit digits.now) }
    requires few { length digits.now ≤ MAX_LENGTH_DIGITS }
    ensures { result ≡ digits_value 10 digits.now }
{
    let mut number: u64 = 0;
    for digit in digits {
        number = number * 10 + u64::from(*digit - b'0');
    }
    number
}

#[tactic(auto, unfolding(crate::specs::Framings::is_length))]
fn is_length(value: &[u8]) -> bool
    ensures known { result ≡ is_length value.now }
    ensures digits { IsTrue result → IsTrue (list_all is_ascii_digit value.now)
        × (length value.now ≤ MAX_LENGTH_DIGITS) }
{
    !value.is_empty() && value.len() <= MAX_LENGTH_DIGITS && are_digits(value)
}

fn framing_of_value(value: &[u8]) -> Framing
    ensures { result ≡ framing_of_value value.now }
{
    if !is_length(value) {
        return Framing::Refused(FixedAnswer::BadLength);
    }
    let length = value_of(value);
    if length > MAX_BODY as u64 {
        return Framing::Refused(FixedAnswer::BodyTooLarge);
    }
    Framing::Length(length as usize)
}

/// The framing of a request with this method and these fields of the head in `bytes`.
pub(crate) fn framing_of(bytes: &[u8], fields: &[HeaderSpan], method: &[u8]) -> Framing
    requires { All (IsHeaderWithin (length bytes.now)) fields.now }
    ensures { result ≡ framing_of method.now (map (header_bytes bytes.now) fields.now) }
{
    if has_field(bytes, fields, b"transfer-encoding") {
        return Framing::Refused(FixedAnswer::TransferEncoding);
    }
    match find(bytes, fields, b"content-length") {
        Found::One(value) => framing_of_value(value),
        Found::Many => Framing::Refused(FixedAnswer::BadLength),
        Found::Nothing => {
            if method == b"POST".as_slice() {
                Framing::Refused(FixedAnswer::LengthRequired)
            } else {
                Framing::Length(0)
            }
        }
    }
}
