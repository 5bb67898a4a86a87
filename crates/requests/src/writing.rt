//! A text to a writer.
ghost use Rattle.std.specs.Prelude.{◌≡◌, IfErr};
ghost use Rattle.requests.specs.Writing.{WritesBeginning};

use crate::fault::ServeFault;
use std::io::{ErrorKind, Write};

/// Writes all the bytes, in one write where the writer takes them all.
///
/// # Errors
///
/// `Write`: a beginning of them was taken.
pub fn write_text<W: Write>(writer: &mut W, text: &[u8]) -> Result<(), ServeFault>
    ensures writes { WritesBeginning (W.contents writer.old)
        (W.contents writer.new) text.now result }
    ensures fault { IfErr result (λ e. e ≡ ServeFault.Write) }
{
    let mut done = 0;
    for _turn in 0..u64::MAX {
        if done >= text.len() {
            return Ok(());
        }
        match writer.write(&text[done..]) {
            Ok(0) => return Err(ServeFault::Write),
            Ok(count) => done += count,
            Err(error) => {
                if error.kind() != ErrorKind::Interrupted {
                    return Err(ServeFault::Write);
                }
            }
        }
    }
    Err(ServeFault::Write)
}
