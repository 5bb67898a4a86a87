//! The program `ingestctl`: one request on the slots of a folder.
ghost use Rattle.std.specs.Prelude.{◌≡◌, ◌⊎◌, ◌↔◌, ◌≤◌, ℕ, List, IfOk, IfErr, IsSome, option_map, string_bytes};
ghost use Rattle.std.specs.Io.KnownBytes.{Appends};
ghost use Rattle.requests.specs.declared.answer.Answer.{Answer};
ghost use Rattle.disk.specs.declared.file.FileDisk.{FileDisk};
ghost use Rattle.programs.specs.declared.watched.Watched.{Watched};
ghost use Rattle.accept.specs.OneStream.{AreLimits};
ghost use Rattle.programs.specs.Words.{GiveCall, GivesCapacity};
ghost use Rattle.programs.specs.Environments.{limits_of};
ghost use Rattle.front.specs.Stops.{stop_status};
ghost use Rattle.tools.specs.Endings.{CallEnds, IsBodyOf, IsDueToCall, answer_lines, answer_status};

use crate::body::{read_body, write_answer};
use crate::one_pass::{close_for_one, open_for_one};
use accept::Limits;
use front::{Answer, ProgramFault, Status, answer, capacity_by, limits_by};
use programs::{CallWords, Environment, call_in, open_slots};
use std::alloc::Global;
use std::fs::{File, Files};
use std::io::{Read, Write};
use std::sync::Wait;
use std::thread::Threads;
use wal::Capacity;

/// Runs `ingestctl push|read|trim DIR SHARDS TENANT NOW` on the body that is read from `input`, and gives its exit
/// status.
///
/// Opens the slots of DIR, which no server may have open meanwhile, and writes the answer's status, a line feed and its
/// body. Status 0: the answer was 200 or 204. 1: it was another, or a fault while running. 2: wrong words, or a wrong
/// setting of the environment. 3: the opening was refused. A fault is one line of `errors`.
pub fn run_ctl<R, I: Read, W: Write, E: Write>(
    rt: &R,
    alloc: Global,
    words: &[String],
    environment: &Environment,
    input: &mut I,
    output: &mut W,
    errors: &mut E,
) -> u8
where
    R: Files<File = File> + Threads + Wait + Copy + Send + Sync + 'static,
    ensures status { result ≤ 3 }
    ensures usage { (result ≡ 2) ↔ (¬ (GiveCall words.now
        × GivesCapacity (option_map string_bytes environment.now.capacity)
        × IsSome (limits_of environment.now))) }
    ensures ends { CallEnds (Watched FileDisk) words.now environment.now (I.remaining input.old)
        (W.contents output.old) (W.contents output.new) result }
{
    let Some(words) = call_in(alloc, words) else {
        let _ = writeln!(
            errors,
            "usage: ingestctl push|read|trim DIR SHARDS TENANT NOW"
        );
        return 2;
    };
    let Some(capacity) = capacity_by(environment, errors) else {
        return 2;
    };
    let Some(limits) = limits_by(environment, errors) else {
        return 2;
    };
    match call_and_print(rt, alloc, words, limits, capacity, input, output) {
        Ok(status) => status,
        Err(stopped) => {
            let _ = writeln!(errors, "{stopped}");
            stopped.status()
        }
    }
}

// The exit status of an answer that was written.
fn call_and_print<R, I: Read, W: Write>(
    rt: &R,
    alloc: Global,
    words: CallWords<'_>,
    limits: Limits,
    capacity: Capacity,
    input: &mut I,
    output: &mut W,
) -> Result<u8, ProgramFault>
where
    R: Files<File = File> + Threads + Wait + Copy + Send + Sync + 'static,
    requires limits { AreLimits limits }
    ensures few { IfOk result (λ status. status ≤ 1) }
    ensures answered { IfOk result (λ status. (answer : Answer) × (body : List ℕ)
        × IsBodyOf (I.remaining input.old) body
        × IsDueToCall (Watched FileDisk) words.entry limits capacity body answer
        × Appends (W.contents output.old) (W.contents output.new) (answer_lines answer)
        × (status ≡ answer_status answer.status)) }
    ensures stopped { IfErr result (λ stop. (stop ≡ ProgramFault.Output)
        ⊎ (W.contents output.new ≡ W.contents output.old)) }
{
    let answer = call_folder(rt, alloc, words, limits, capacity, input)?;
    write_answer(alloc, output, &answer)?;
    Ok(status_of(answer.status))
}

// The exit status after this answer: 0 for 200 and 204, else 1.
fn status_of(status: Status) -> u8
    ensures cause { result ≡ answer_status status }
    ensures few { result ≤ 1 }
{
    match status {
        Status::Ok | Status::NoContent => 0,
        _ => 1,
    }
}

// Opens the slots of the folder, makes the calls of the body, and closes the slots.
fn call_folder<R, I: Read>(
    rt: &R,
    alloc: Global,
    words: CallWords<'_>,
    limits: Limits,
    capacity: Capacity,
    input: &mut I,
) -> Result<Answer, ProgramFault>
where
    R: Files<File = File> + Threads + Wait + Copy + Send + Sync + 'static,
    requires limits { AreLimits limits }
    ensures { IfOk result (λ answer. (body : List ℕ) × IsBodyOf (I.remaining input.old) body
        × IsDueToCall (Watched FileDisk) words.entry limits capacity body answer) }
{
    let CallWords {
        route,
        folder,
        shards,
        tenant,
        now,
    } = words;
    let tenant = tenant?;
    let body = read_body(alloc, input)?;
    let slots = open_slots(rt, alloc, folder, shards, None)?;
    let (ingester, mut pass) = open_for_one(rt, alloc, slots, limits, capacity)?;
    let answered = answer(rt, alloc, &ingester, &mut pass, now, route, &tenant, &body);
    close_for_one(rt, alloc, ingester, pass);
    match answered {
        Ok(answer) => Ok(answer),
        Err(_) => Err(ProgramFault::Memory),
    }
}
