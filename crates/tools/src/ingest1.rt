//! The program `ingest1`: a push body, judged on an empty shard in memory and read back.
ghost use Rattle.std.specs.Prelude.{◌≡◌, ◌↔◌, ◌<◌, ◌≤◌, ◌++◌, ◌∷◌, [], ℕ, List, None, Ok, IfOk, IfErr, OnOk, Some, IsSome, codes, vec_len};
ghost use Rattle.std.specs.Io.KnownBytes.{Appends};
ghost use Rattle.accept.specs.OneStream.{AreLimits, end_of_time};
ghost use Rattle.memory_disk.specs.MemDisk.{memory_sight};
ghost use Rattle.memory_disk.specs.declared.memory.MemDisk.{MemDisk};
ghost use Rattle.requests.specs.declared.answer.Answer.{Answer};
ghost use Rattle.answering.specs.Responses.{RequestIsAnswered};
ghost use Rattle.ingester.specs.Calls.{IsPassOf};
ghost use Rattle.programs.specs.Words.{GiveClock, capacity_of};
ghost use Rattle.programs.specs.Environments.{limits_of};
ghost use Rattle.front.specs.Calls.{CallGives};
ghost use Rattle.front.specs.Openings.{IsOpenedUnder};
ghost use Rattle.front.specs.Stops.{stop_status};
ghost use Rattle.tools.specs.EmptySlots.{AreEmptySlots};
ghost use Rattle.tools.specs.Endings.{PushEnds, IsAnswerDue, IsBodyOf, IsDueToPush, answer_lines};

use crate::body::{read_body, write_answer, write_bytes};
use crate::one_pass::{close_for_one, open_for_one};
use accept::{Call, END_OF_TIME, Limits};
use disk::Disk;
use front::{Answer, ProgramFault, Route, Status, answer, answer_of_read, limits_by};
use ingester::{Ingester, Pass};
use labels::{LabelFault, LabelSet, StreamKey, Tenant};
use memory_disk::MemDisk;
use programs::{Environment, clock_in, unset_capacity};
use pushjson::{PushFault, RawBatch, read_push};
use std::alloc::Global;
use std::io::{Read, Write};
use std::sync::Wait;
use std::thread::Threads;

/// The tenant of the streams.
const TENANT: &str = "t";

/// The bytes that a disk has room for: more than the log of any body needs.
const ROOM: u64 = 8_388_608;

/// The device calls that a disk has room for: more than the log of any body needs.
const CALLS: u64 = 65_536;

/// Runs `ingest1 NOW` for the tenant `t` on an empty shard in memory, and gives its exit status.
///
/// NOW is the clock in nanoseconds, 1 to 19 decimal digits below 2^63. The input is a push body of at most 4,194,304
/// bytes. The program writes the push's status, a line feed and its body. Then, for each stream with lawful labels, in
/// the order of the body, it writes the body of a read of all its entries and a line feed. For a body that is refused
/// for its form it writes status, line feed and text, and no more. Status 0: an answer was written, whatever its own
/// status. 1: a fault while running. 2: a wrong word, or a wrong setting of the environment. 3: the opening was
/// refused. A fault is one line of `errors`.
pub fn run_ingest1<R, I: Read, W: Write, E: Write>(
    rt: &R,
    alloc: Global,
    words: &[String],
    environment: &Environment,
    input: &mut I,
    output: &mut W,
    errors: &mut E,
) -> u8
where
    R: Threads + Wait + Copy + Send + Sync + 'static,
    ensures status { result ≤ 3 }
    ensures usage { (result ≡ 2)
        ↔ (¬ (GiveClock words.now × IsSome (limits_of environment.now))) }
    ensures ends { PushEnds words.now environment.now (I.remaining input.old)
        (W.contents output.old) (W.contents output.new) result }
{
    let Some(now) = clock_in(words) else {
        let _ = writeln!(errors, "usage: ingest1 NOW");
        return 2;
    };
    let Some(limits) = limits_by(environment, errors) else {
        return 2;
    };
    if let Err(stopped) = push_and_read(rt, alloc, limits, now, input, output) {
        let _ = writeln!(errors, "{stopped}");
        return stopped.status();
    }
    0
}

// Opens an empty shard, pushes the input to it, reads it back, and closes the shard.
fn push_and_read<R, I: Read, W: Write>(
    rt: &R,
    alloc: Global,
    limits: Limits,
    now: u64,
    input: &mut I,
    output: &mut W,
) -> Result<(), ProgramFault>
where
    R: Threads + Wait + Copy + Send + Sync + 'static,
    requires limits { AreLimits limits }
    requires clock { now < end_of_time }
    ensures pushed { OnOk result ((answer : Answer) × (body : List ℕ) × (back : List ℕ)
        × IsBodyOf (I.remaining input.old) body × IsDueToPush MemDisk limits now body answer
        × Appends (W.contents output.old) (W.contents output.new) (answer_lines answer ++ back)) }
    ensures refused { IfErr result (λ stop. stop_status stop ≡ 3
        → W.contents output.new ≡ W.contents output.old) }
{
    let body = read_body(alloc, input)?;
    let capacity = unset_capacity();
    let (ingester, mut pass) = open_for_one(rt, alloc, empty_slots(alloc)?, limits, capacity)?;
    let done = push_body(rt, alloc, &ingester, &mut pass, now, &body, output);
    close_for_one(rt, alloc, ingester, pass);
    done
}

// Pushes a body, and reads it back.
fn push_body<D: Disk + Drop, R: Wait, W: Write>(
    rt: &R,
    alloc: Global,
    ingester: &Ingester<D>,
    pass: &mut Pass,
    now: u64,
    body: &[u8],
    output: &mut W,
) -> Result<(), ProgramFault>
    requires opened { IsOpenedUnder ingester.now.about.limits 1 1 (capacity_of None)
        ingester.now (pass.old ∷ []) }
    requires pass { IsPassOf ingester.now pass.old }
    requires clock { now < end_of_time }
    ensures pass { IsPassOf ingester.now pass.new }
    ensures pushed { OnOk result ((answer : Answer) × (back : List ℕ)
        × IsAnswerDue ingester.now ingester.now.about.limits 1 (capacity_of None) Route.Push now
        (codes "t") body.now answer
        × Appends (W.contents output.old) (W.contents output.new) (answer_lines answer ++ back)) }
    ensures stopped { IfErr result (λ stop. stop_status stop ≡ 1) }
{
    let pushed = answer_push(rt, alloc, ingester, pass, now, body)?;
    write_answer(alloc, output, &pushed)?;
    if pushed.status == Status::InternalServerError {
        return Ok(());
    }
    read_back(rt, alloc, ingester, pass, body, output)
}

// The answer to a push of this body.
fn answer_push<D: Disk + Drop, R: Wait>(
    rt: &R,
    alloc: Global,
    ingester: &Ingester<D>,
    pass: &mut Pass,
    now: u64,
    body: &[u8],
) -> Result<Answer, ProgramFault>
    requires pass { IsPassOf ingester.now pass.old }
    requires clock { now < end_of_time }
    ensures pass { IsPassOf ingester.now pass.new }
    ensures answers { IfOk result (λ pushed. RequestIsAnswered
        CallGives Route.Push now (codes "t") body.now pass.old (Ok pushed)
        pass.new) }
    ensures stopped { IfErr result (λ stop. stop ≡ ProgramFault.Memory) }
{
    let Ok(tenant) = Tenant::new(alloc, TENANT) else {
        return Err(ProgramFault::Memory);
    };
    match answer(rt, alloc, ingester, pass, now, Route::Push, &tenant, body) {
        Ok(pushed) => Ok(pushed),
        Err(_) => Err(ProgramFault::Memory),
    }
}

// The two empty slots of one shard.
fn empty_slots(alloc: Global) -> Result<Vec<[MemDisk; 2]>, ProgramFault>
    ensures one { IfOk result (λ slots. vec_len slots ≡ 1) }
    ensures empty { IfOk result (λ slots. AreEmptySlots memory_sight slots.items) }
    ensures stopped { IfErr result (λ stop. stop ≡ ProgramFault.Memory) }
{
    let first = MemDisk::new(alloc, ROOM, CALLS, ROOM)?;
    let second = MemDisk::new(alloc, ROOM, CALLS, ROOM)?;
    let mut slots = Vec::with_capacity(alloc, 1)?;
    slots.push_reserved([first, second]);
    Ok(slots)
}

// Reads each stream of a body that was pushed, and writes the answers, a line each.
fn read_back<D: Disk + Drop, R: Wait, W: Write>(
    rt: &R,
    alloc: Global,
    ingester: &Ingester<D>,
    pass: &mut Pass,
    body: &[u8],
    output: &mut W,
) -> Result<(), ProgramFault>
    requires { IsPassOf ingester.now pass.old }
    ensures pass { IsPassOf ingester.now pass.new }
    ensures written { OnOk result ((back : List ℕ)
        × Appends (W.contents output.old) (W.contents output.new) back) }
    ensures stopped { IfErr result (λ stop. stop_status stop ≡ 1) }
{
    let batches = match read_push(alloc, body) {
        Ok(batches) => batches,
        Err(PushFault::Memory) => return Err(ProgramFault::Memory),
        Err(_) => return Ok(()),
    };
    for batch in batches {
        read_stream(rt, alloc, ingester, pass, batch, output)?;
    }
    Ok(())
}

// Reads all entries of a stream, where its labels are lawful.
fn read_stream<D: Disk + Drop, R: Wait, W: Write>(
    rt: &R,
    alloc: Global,
    ingester: &Ingester<D>,
    pass: &mut Pass,
    batch: RawBatch,
    output: &mut W,
) -> Result<(), ProgramFault>
    requires { IsPassOf ingester.now pass.old }
    ensures pass { IsPassOf ingester.now pass.new }
    ensures written { OnOk result ((back : List ℕ)
        × Appends (W.contents output.old) (W.contents output.new) back) }
    ensures stopped { IfErr result (λ stop. stop_status stop ≡ 1) }
{
    let labels = match LabelSet::new(alloc, batch.pairs) {
        Ok(labels) => labels,
        Err(LabelFault::Memory) => return Err(ProgramFault::Memory),
        Err(_) => return Ok(()),
    };
    let Ok(tenant) = Tenant::new(alloc, TENANT) else {
        return Err(ProgramFault::Memory);
    };
    let call = Call::Read {
        key: StreamKey { tenant, labels },
        from: 0,
        to: END_OF_TIME,
    };
    let reply = match ingester.call(rt, alloc, pass, call) {
        Ok(reply) => reply,
        Err(fault) => return Err(ProgramFault::Call(fault)),
    };
    let Ok(read) = answer_of_read(alloc, reply) else {
        return Err(ProgramFault::Memory);
    };
    write_bytes(output, read.body.as_slice())?;
    write_bytes(output, b"\n")
}
