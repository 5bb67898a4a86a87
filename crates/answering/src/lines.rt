//! The lines of the answer to a push.
ghost use Rattle.std.specs.Prelude.{◌≡◌, ◌≢◌, ◌<◌, ◌+◌, ◌^◌, ◌++◌, [], List, decimal, OnOk, OnErr, codes};
ghost use Rattle.std.specs.List.{list_all};
ghost use Rattle.answering.specs.Calls.{Came, Refused, Replied};
ghost use Rattle.answering.specs.Lines.{stream_line, entry_front, entry_line, newline, outcome_line, outcome_lines, came_lines, severity, worse_of, is_taken, came_status, push_status, lines_from};
ghost use Rattle.answering.specs.Showing.{IsShown};
ghost use Rattle.answering.specs.Telling.{Tells, NotesNext};

use accept::{Outcome, Reply};
use labels::LabelFault;
use requests::{Answer, Status, push_number};
use std::alloc::{AllocError, Global};

/// What is answered to a push while its streams are taken: a line for each refusal, in the order of the
/// body, with streams and entries counted from 0.
#[derive(Drop)]
pub(crate) struct PushLines {
    /// How many streams were taken in.
    streams: usize,
    text: Vec<u8>,
    /// The worst of theirs.
    status: Status,
}

#[tactic(auto, unfolding(crate::specs::Lines::stream_line))]
fn push_stream_line(text: &mut Vec<u8>, stream: usize, words: &[u8]) -> Result<(), AllocError>
    ensures text { OnOk result (text.new.items ≡ text.old.items ++ stream_line stream words.now) }
    ensures said { OnErr result (stream_line stream words.now ≢ []) }
{
    text.extend_from_slice(b"stream ")?;
    push_number(text, stream as u64)?;
    text.extend_from_slice(b": ")?;
    text.extend_from_slice(words)?;
    text.extend_from_slice(b"\n")
}

#[tactic(auto, unfolding(crate::specs::Lines::entry_front))]
fn push_entry_front(text: &mut Vec<u8>, stream: usize, entry: usize) -> Result<(), AllocError>
    ensures { OnOk result (text.new.items ≡ text.old.items ++ entry_front stream entry) }
{
    text.extend_from_slice(b"stream ")?;
    push_number(text, stream as u64)?;
    text.extend_from_slice(b" entry ")?;
    push_number(text, entry as u64)?;
    text.extend_from_slice(b": ")
}

fn push_entry_line(
    text: &mut Vec<u8>,
    stream: usize,
    entry: usize,
    words: &[u8],
) -> Result<(), AllocError>
    ensures { OnOk result (text.new.items ≡ text.old.items ++ entry_line stream entry words.now) }
{
    push_entry_front(text, stream, entry)?;
    text.extend_from_slice(words)?;
    text.extend_from_slice(b"\n")
}

fn push_far_behind(
    text: &mut Vec<u8>,
    stream: usize,
    entry: usize,
    oldest: u64,
) -> Result<(), AllocError>
    ensures { OnOk result (text.new.items ≡ text.old.items ++ entry_front stream entry
        ++ codes "too far behind, oldest accepted is " ++ decimal oldest ++ newline) }
{
    push_entry_front(text, stream, entry)?;
    text.extend_from_slice(b"too far behind, oldest accepted is ")?;
    push_number(text, oldest)?;
    text.extend_from_slice(b"\n")
}

fn push_outcome(
    text: &mut Vec<u8>,
    stream: usize,
    entry: usize,
    outcome: Outcome,
) -> Result<(), AllocError>
    ensures text { OnOk result
        (text.new.items ≡ text.old.items ++ outcome_line stream entry outcome) }
    ensures said { OnErr result (outcome_line stream entry outcome ≢ []) }
{
    match outcome {
        Outcome::TooLong => push_entry_line(text, stream, entry, b"line too long"),
        Outcome::BadMetadata => push_entry_line(text, stream, entry, b"bad metadata"),
        Outcome::TooOld => push_entry_line(text, stream, entry, b"too old"),
        Outcome::TooNew => push_entry_line(text, stream, entry, b"too new"),
        Outcome::TooFarBehind { oldest } => push_far_behind(text, stream, entry, oldest),
        Outcome::Repeat | Outcome::Stored => Ok(()),
    }
}

fn push_outcomes(text: &mut Vec<u8>, stream: usize, outcomes: &[Outcome]) -> Result<(), AllocError>
    ensures text { OnOk result
        (text.new.items ≡ text.old.items ++ outcome_lines stream 0 outcomes.now) }
    ensures said { OnErr result (outcome_lines stream 0 outcomes.now ≢ []) }
{
    let mut entry = 0;
    for outcome in outcomes {
        push_outcome(text, stream, entry, *outcome)?;
        entry += 1;
    }
    Ok(())
}

fn push_reply(text: &mut Vec<u8>, stream: usize, reply: &Reply) -> Result<(), AllocError>
    ensures text { OnOk result
        (text.new.items ≡ text.old.items ++ came_lines stream (Replied reply.now)) }
    ensures said { OnErr result (came_lines stream (Replied reply.now) ≢ []) }
{
    match reply {
        Reply::Verdict(outcomes) => push_outcomes(text, stream, outcomes.as_slice()),
        Reply::NoRoom => push_stream_line(text, stream, b"no room"),
        Reply::Unavailable => push_stream_line(text, stream, b"unavailable"),
        Reply::Entries(_) | Reply::Trimmed(_) | Reply::TrimTooNew | Reply::NoStream => Ok(()),
    }
}

/// How bad a status of a push is beside its others.
fn severity(status: Status) -> u8
    ensures { result ≡ severity status }
{
    match status {
        Status::NoContent => 0,
        Status::BadRequest => 1,
        Status::InsufficientStorage => 2,
        Status::ServiceUnavailable => 3,
        _ => 4,
    }
}

fn worse_of(first: Status, second: Status) -> Status
    ensures { result ≡ worse_of first second }
{
    if severity(first) < severity(second) {
        second
    } else {
        first
    }
}

/// Whether the entry was stored, now or before.
fn is_taken(outcome: Outcome) -> bool
    ensures { result ≡ is_taken outcome }
{
    matches!(outcome, Outcome::Repeat | Outcome::Stored)
}

fn are_all_taken(outcomes: &[Outcome]) -> bool
    ensures { result ≡ list_all is_taken outcomes.now }
{
    outcomes.iter().all(|outcome| is_taken(*outcome))
}

/// The status of a push of one stream with this reply.
fn status_of_reply(reply: &Reply) -> Status
    ensures { result ≡ came_status (Replied reply.now) }
{
    match reply {
        Reply::Verdict(outcomes) => {
            if are_all_taken(outcomes.as_slice()) {
                Status::NoContent
            } else {
                Status::BadRequest
            }
        }
        Reply::NoRoom => Status::InsufficientStorage,
        Reply::Unavailable => Status::ServiceUnavailable,
        _ => Status::NoContent,
    }
}

impl PushLines {
    /// The answer before the first stream. It takes no memory.
    pub(crate) fn new(alloc: Global) -> PushLines
        ensures { Tells [] result }
    {
        PushLines {
            streams: 0,
            text: Vec::new(alloc),
            status: Status::NoContent,
        }
    }

    /// Takes in that the labels of the next stream are refused.
    pub(crate) fn note_refusal(&mut self, fault: LabelFault) -> Result<(), AllocError>
        requires few { self.old.streams + 1 < 2 ^ 64 }
        ensures next { NotesNext (Refused fault) self.old self.new result }
        ensures said { OnErr result (came_lines self.old.streams (Refused fault) ≢ []) }
        ensures count { self.new.streams ≡ self.old.streams + 1 }
    {
        let stream = self.streams;
        self.streams += 1;
        self.status = worse_of(self.status, Status::BadRequest);
        push_stream_line(&mut self.text, stream, fault.words().as_bytes())
    }

    /// Takes in the reply to the call on the next stream.
    pub(crate) fn note_reply(&mut self, reply: &Reply) -> Result<(), AllocError>
        requires few { self.old.streams + 1 < 2 ^ 64 }
        ensures next { NotesNext (Replied reply.now) self.old self.new result }
        ensures said { OnErr result (came_lines self.old.streams (Replied reply.now) ≢ []) }
        ensures count { self.new.streams ≡ self.old.streams + 1 }
    {
        let stream = self.streams;
        self.streams += 1;
        self.status = worse_of(self.status, status_of_reply(reply));
        push_reply(&mut self.text, stream, reply)
    }

    /// The answer after the last stream.
    pub(crate) fn into_answer(self) -> Answer
        ensures { (cames : List Came) → Tells cames self
            → IsShown (push_status cames) (lines_from 0 cames) result }
    {
        let PushLines {
            streams: _,
            text,
            status,
        } = self;
        Answer { status, body: text }
    }
}
