use anyhow::{Result, bail};
use std::alloc::AllocError;
use std::fmt::Write;

/// The value of a digit.
pub(crate) fn digit_of(digit: u8) -> Result<u8> {
    match digit {
        b'0'..=b'9' => Ok(digit.wrapping_sub(b'0')),
        b'a'..=b'f' => Ok(digit.wrapping_sub(b'a').wrapping_add(10)),
        _ => bail!("no digit of 0 to 9 and a to f"),
    }
}

/// Appends the bytes of pairs of digits. Blanks between them are skipped.
///
/// # Errors
/// Another character, or a digit without its second one; want of memory.
pub fn read_hex(text: &str, into: &mut Vec<u8>) -> Result<()> {
    let mut high = None;
    for byte in text.bytes().filter(|byte| *byte != b' ') {
        let digit = digit_of(byte)?;
        high = match high {
            None => Some(digit),
            Some(first) => {
                let first: u8 = first;
                into.push(first.wrapping_mul(16).wrapping_add(digit))?;
                None
            }
        };
    }
    if high.is_some() {
        bail!("a digit without its second one");
    }
    Ok(())
}

/// Appends two digits for each byte.
///
/// # Errors
/// Want of memory.
pub fn write_hex(bytes: &[u8], into: &mut String) -> Result<(), AllocError> {
    for byte in bytes {
        write!(into, "{byte:02x}")?;
    }
    Ok(())
}
