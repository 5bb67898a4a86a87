//! Bytes from a reader into the buffer.
ghost use Rattle.std.specs.Prelude.{◌≡◌, ◌⊎◌, ◌+◌, ◌<◌, ◌≤◌, vec_len, IfOk, OnErr, IfErr};
ghost use Rattle.std.specs.Io.{ReadsAtMost};
ghost use Rattle.std.specs.Io.KnownBytes.{IsAtEnd, ReadConsumes};
ghost use Rattle.requests.specs.Streams.{Grows};

use crate::fault::ServeFault;
use std::io::{ErrorKind, Read};

/// The most bytes that are read at once.
pub(crate) const CHUNK: usize = 16_384;

/// One read, tried again where it is interrupted.
fn read_some<R: Read>(reader: &mut R, space: &mut [u8]) -> Result<usize, ServeFault>
    ensures bound { ReadsAtMost result space.new }
    ensures bytes { ReadConsumes (R.remaining reader.old)
        (R.remaining reader.new) result space.new }
    ensures cause { IfErr result (λ e. e ≡ ServeFault.Read) }
{
    for _turn in 0..u64::MAX {
        match reader.read(space) {
            Ok(count) => return Ok(count),
            Err(error) => {
                if error.kind() != ErrorKind::Interrupted {
                    return Err(ServeFault::Read);
                }
            }
        }
    }
    Err(ServeFault::Read)
}

/// One read of at most this many bytes, added to the end of the buffer. It gives none only at the end of the stream.
pub(crate) fn fill<R: Read>(
    buffer: &mut Vec<u8>,
    reader: &mut R,
    most: usize,
) -> Result<usize, ServeFault>
    requires some { 0 < most }
    requires chunk { most ≤ CHUNK }
    ensures grows { Grows (R.remaining reader.old)
        (R.remaining reader.new) buffer.old.items buffer.new.items }
    ensures len { IfOk result (λ n. (vec_len buffer.new ≡ vec_len buffer.old + n) × (n ≤ most)) }
    ensures none { IfOk result (λ n. n ≡ 0 → IsAtEnd (R.remaining reader.new)) }
    ensures err { OnErr result (buffer.new.items ≡ buffer.old.items) }
    ensures cause { IfErr result (λ e. (e ≡ ServeFault.Read) ⊎ (e ≡ ServeFault.Memory)) }
{
    buffer.reserve(most)?;
    let mut chunk = [0u8; CHUNK];
    let count = read_some(reader, &mut chunk[..most])?;
    buffer.extend_from_slice(&chunk[..count])?;
    Ok(count)
}
