use crate::hex::digit_of;
use anyhow::{Result, anyhow, bail};
use std::alloc::{AllocError, Global};
use std::fmt::Write;

/// Where in a text the reader is.
#[derive(Clone, Copy, Drop)]
enum EscapeState {
    /// Among characters that stand for themselves.
    Plain,
    /// After a backslash.
    Escape,
    /// After `\x`.
    High,
    /// After `\x` and this digit.
    Low(u8),
}

/// Appends the bytes that a text stands for: `\r`, `\n`, `\t`, `\\` and `\x` with two digits are one byte each.
///
/// # Errors
/// Another escape, or one that is cut short; want of memory.
pub fn unescape(text: &str, into: &mut Vec<u8>) -> Result<()> {
    let mut place = EscapeState::Plain;
    for byte in text.bytes() {
        place = take_byte(place, byte, into)?;
    }
    match place {
        EscapeState::Plain => Ok(()),
        _ => bail!("an escape is cut short"),
    }
}

fn take_byte(place: EscapeState, byte: u8, into: &mut Vec<u8>) -> Result<EscapeState> {
    let (byte, next) = match (place, byte) {
        (EscapeState::Plain, b'\\') => return Ok(EscapeState::Escape),
        (EscapeState::Plain, byte) => (byte, EscapeState::Plain),
        (EscapeState::Escape, b'r') => (b'\r', EscapeState::Plain),
        (EscapeState::Escape, b'n') => (b'\n', EscapeState::Plain),
        (EscapeState::Escape, b't') => (b'\t', EscapeState::Plain),
        (EscapeState::Escape, b'\\') => (b'\\', EscapeState::Plain),
        (EscapeState::Escape, b'x') => return Ok(EscapeState::High),
        (EscapeState::Escape, _) => bail!("no such escape"),
        (EscapeState::High, digit) => return Ok(EscapeState::Low(digit_of(digit)?)),
        (EscapeState::Low(high), digit) => (
            high.wrapping_mul(16).wrapping_add(digit_of(digit)?),
            EscapeState::Plain,
        ),
    };
    into.push(byte)?;
    Ok(next)
}

/// The text that a text with escapes stands for.
///
/// # Errors
/// Those of [`unescape`], and bytes that are not UTF-8.
pub fn text_of(alloc: Global, text: &str) -> Result<String> {
    let mut bytes = Vec::new(alloc);
    unescape(text, &mut bytes)?;
    String::from_utf8(bytes).map_err(|_| anyhow!("no UTF-8"))
}

/// The text that a text with escapes stands for, `count` times.
///
/// # Errors
/// Those of [`text_of`].
pub fn text_times(alloc: Global, text: &str, count: u64) -> Result<String> {
    let part = text_of(alloc, text)?;
    let mut whole = String::new(alloc);
    for _ in 0..count {
        whole.push_str(part.as_str())?;
    }
    Ok(whole)
}

/// The character that a text repeats, if it has no other.
pub fn only_character(text: &str) -> Option<char> {
    let first = text.chars().next()?;
    text.chars()
        .all(|character| character == first)
        .then_some(first)
}

/// Appends a text for these bytes that [`unescape`] reads. Where all bytes are UTF-8, printable characters stand for
/// themselves; otherwise only those of ASCII do.
///
/// # Errors
/// Want of memory.
pub fn escape(bytes: &[u8], into: &mut String) -> Result<(), AllocError> {
    match str::from_utf8(bytes) {
        Ok(text) => {
            for character in text.chars() {
                escape_character(character, into)?;
            }
        }
        Err(_) => {
            for byte in bytes {
                escape_byte(*byte, into)?;
            }
        }
    }
    Ok(())
}

pub(crate) fn escape_character(character: char, into: &mut String) -> Result<(), AllocError> {
    match u8::try_from(character) {
        Ok(byte) if byte < 128 => escape_byte(byte, into),
        _ => into.push(character),
    }
}

fn escape_byte(byte: u8, into: &mut String) -> Result<(), AllocError> {
    match byte {
        b'\r' => into.push_str("\\r"),
        b'\n' => into.push_str("\\n"),
        b'\t' => into.push_str("\\t"),
        b'\\' => into.push_str("\\\\"),
        b' '..=b'~' => into.push(char::from(byte)),
        _ => write!(into, "\\x{byte:02x}"),
    }
}
