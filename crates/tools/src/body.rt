//! Bodies that programs read, and answers that they write.
ghost use Rattle.std.specs.Prelude.{◌≡◌, ◌⊎◌, ◌≤◌, length, OnOk, IfOk, IfErr, IfSome};
ghost use Rattle.std.specs.Io.KnownBytes.{Appends};
ghost use Rattle.requests.specs.Framings.{max_body};
ghost use Rattle.tools.specs.Endings.{answer_lines};

use front::{Answer, ProgramFault};
use requests::MAX_BODY;
use std::alloc::Global;
use std::io::{ErrorKind, Read, Write};

/// The whole input, where it is no longer than a body may be.
pub fn read_body<I: Read>(alloc: Global, input: &mut I) -> Result<Vec<u8>, ProgramFault>
    ensures whole { IfOk result
        (λ body. IfSome (I.remaining input.old) (λ bytes. body.items ≡ bytes)) }
    ensures short { IfOk result (λ body. length body.items ≤ max_body) }
    ensures cause { IfErr result (λ stop. (stop ≡ ProgramFault.Body) ⊎ (stop ≡ ProgramFault.Memory)) }
{
    let mut body = Vec::new(alloc);
    if let Err(error) = input.take(MAX_BODY as u64 + 1).read_to_end(&mut body) {
        return Err(match error.kind() {
            ErrorKind::OutOfMemory => ProgramFault::Memory,
            _ => ProgramFault::Body,
        });
    }
    if body.len() > MAX_BODY {
        return Err(ProgramFault::Body);
    }
    Ok(body)
}

/// Writes all of these bytes.
pub fn write_bytes<W: Write>(output: &mut W, bytes: &[u8]) -> Result<(), ProgramFault>
    ensures written { OnOk result
        (Appends (W.contents output.old) (W.contents output.new) bytes.now) }
    ensures cause { IfErr result (λ stop. stop ≡ ProgramFault.Output) }
{
    match output.write_all(bytes) {
        Ok(()) => Ok(()),
        Err(_) => Err(ProgramFault::Output),
    }
}

/// Writes an answer's status, a newline and its body.
pub fn write_answer<W: Write>(
    alloc: Global,
    output: &mut W,
    answer: &Answer,
) -> Result<(), ProgramFault>
    ensures written { OnOk result
        (Appends (W.contents output.old) (W.contents output.new) (answer_lines answer.now)) }
    ensures cause { IfErr result (λ stop. (stop ≡ ProgramFault.Output)
        ⊎ ((stop ≡ ProgramFault.Memory) × (W.contents output.new ≡ W.contents output.old))) }
{
    let code = answer.status.code();
    write_bytes(output, format!(in alloc; "{code}\n")?.as_bytes())?;
    write_bytes(output, answer.body.as_slice())
}
