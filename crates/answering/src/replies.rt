//! The answers to reads and trims, and what a reply to any call is answered by.
ghost use Rattle.std.specs.Prelude.{◌≡◌, ◌≢◌, ◌∷◌, ◌++◌, [], IfOk, IfErr, OnOk, OnErr, map};
ghost use Rattle.json.specs.Token.{Token as SpecToken};
ghost use Rattle.json.specs.Tree.{json_tokens, items_tokens, members_tokens};
ghost use Rattle.serde_json.specs.View.{items_of};
ghost use Rattle.serde_json.specs.Written.{compact_text, outline, items_outline, members_outline};
ghost use Rattle.pairs.specs.Labels.{label_of};
ghost use Rattle.pushjson.specs.Bodies.{labels_tree};
ghost use Rattle.answering.specs.Calls.{Refused, Replied};
ghost use Rattle.answering.specs.Lines.{push_status, lines_from};
ghost use Rattle.answering.specs.Replies.{meta_tree, entry_tree, read_tree, trimmed_text, one_status, one_text};
ghost use Rattle.answering.specs.Showing.{IsShown};

use crate::lines::PushLines;
use accept::{Entry, EntryList, Reply};
use json::Writer;
use labels::LabelFault;
use requests::{Answer, ROOM_FOR_HEAD, ServeFault, Status, push_number};
use std::alloc::{AllocError, Global};

/// `["TIME","LINE"],` has at most so many bytes beside the line, and the brackets and the comma of metadata.
const ENTRY_ROOM: usize = 32;

/// `"NAME":"VALUE",` has so many bytes beside the two.
const PAIR_ROOM: usize = 6;

/// Status and body of the answer to a read that got this reply, as `answer` gives them. A value is a time and a line,
/// and where the line has structured metadata a third element, the object of its pairs.
///
/// # Errors
///
/// `Memory`.
pub fn answer_of_read(alloc: Global, reply: Reply) -> Result<Answer, ServeFault>
    ensures shows { IfOk result (λ answer.
        IsShown (one_status (Replied reply)) (one_text (Replied reply)) answer) }
    ensures fault { IfErr result (λ e. e ≡ ServeFault.Memory) }
{
    Ok(answer_of_reply(alloc, reply)?)
}

/// The answer to a read or a trim that got this reply.
pub(crate) fn answer_of_reply(alloc: Global, reply: Reply) -> Result<Answer, AllocError>
    ensures shows { IfOk result (λ answer.
        IsShown (one_status (Replied reply)) (one_text (Replied reply)) answer) }
    ensures said { OnErr result (one_text (Replied reply) ≢ []) }
{
    match reply {
        Reply::Entries(entries) => answer_of_entries(alloc, entries),
        Reply::Trimmed(count) => answer_of_trimmed(alloc, count),
        Reply::TrimTooNew => answer_of_text(
            alloc,
            Status::BadRequest,
            b"trim bound is above the oldest accepted time",
        ),
        Reply::NoStream => answer_of_text(alloc, Status::NotFound, b"no such stream"),
        Reply::Verdict(outcomes) => answer_of_lines(alloc, &Reply::Verdict(outcomes)),
        Reply::NoRoom => answer_of_lines(alloc, &Reply::NoRoom),
        Reply::Unavailable => answer_of_lines(alloc, &Reply::Unavailable),
    }
}

/// The answer to a read or a trim of whose stream the labels are refused.
pub(crate) fn answer_of_refusal(alloc: Global, fault: LabelFault) -> Result<Answer, AllocError>
    ensures shows { IfOk result (λ answer.
        IsShown (push_status (Refused fault ∷ [])) (lines_from 0 (Refused fault ∷ [])) answer) }
    ensures said { OnErr result (lines_from 0 (Refused fault ∷ []) ≢ []) }
{
    let mut lines = PushLines::new(alloc);
    lines.note_refusal(fault)?;
    Ok(lines.into_answer())
}

fn answer_of_lines(alloc: Global, reply: &Reply) -> Result<Answer, AllocError>
    ensures shows { IfOk result (λ answer.
        IsShown (push_status (Replied reply.now ∷ []))
        (lines_from 0 (Replied reply.now ∷ [])) answer) }
    ensures said { OnErr result (lines_from 0 (Replied reply.now ∷ []) ≢ []) }
{
    let mut lines = PushLines::new(alloc);
    lines.note_reply(reply)?;
    Ok(lines.into_answer())
}

#[tactic(auto, unfolding(crate::specs::Replies::trimmed_text))]
fn answer_of_trimmed(alloc: Global, count: u64) -> Result<Answer, AllocError>
    ensures shows { IfOk result (λ answer. IsShown Status.Ok (trimmed_text count) answer) }
    ensures said { OnErr result (trimmed_text count ≢ []) }
{
    let mut body = Vec::new(alloc);
    body.extend_from_slice(b"{\"trimmed\":")?;
    push_number(&mut body, count)?;
    body.extend_from_slice(b"}")?;
    Ok(Answer {
        status: Status::Ok,
        body,
    })
}

fn answer_of_entries(alloc: Global, entries: EntryList) -> Result<Answer, AllocError>
    ensures { IfOk result (λ answer. IsShown Status.Ok (compact_text (read_tree entries)) answer) }
{
    Ok(Answer {
        status: Status::Ok,
        body: body_of_entries(alloc, entries)?,
    })
}

/// Each entry is let go of once it is written.
fn body_of_entries(alloc: Global, entries: EntryList) -> Result<Vec<u8>, AllocError>
    ensures { IfOk result (λ body. body.items ≡ compact_text (read_tree entries)) }
{
    let entries = entries.into_vec();
    let room = room_for(entries.as_slice());
    let mut out = Writer::new(Vec::with_capacity(alloc, room)?);
    write_read(&mut out, entries)?;
    Ok(out.into_inner())
}

/// About how many bytes the answer has: more only by the bytes of lines that are escaped.
fn room_for(entries: &[Entry]) -> usize {
    let mut room = ROOM_FOR_HEAD;
    for entry in entries {
        let mut length = entry.line.as_str().len().saturating_add(ENTRY_ROOM);
        for (name, value) in entry.meta.as_slice() {
            length = length.saturating_add(
                name.len()
                    .saturating_add(value.len())
                    .saturating_add(PAIR_ROOM),
            );
        }
        room = room.saturating_add(length);
    }
    room
}

fn write_read(out: &mut Writer, entries: Vec<Entry>) -> Result<(), AllocError>
    ensures before { out.new.before ≡ out.old.before }
    ensures tokens { OnOk result (out.new.tokens
        ≡ out.old.tokens ++ json_tokens (outline (read_tree entries.items))) }
{
    out.begin_object()?;
    out.key("values")?;
    out.begin_array()?;
    write_entries(out, entries)?;
    out.end_object()
}

/// The entries, and the bracket behind them.
fn write_entries(out: &mut Writer, entries: Vec<Entry>) -> Result<(), AllocError>
    ensures before { out.new.before ≡ out.old.before }
    ensures tokens { OnOk result (out.new.tokens
        ≡ out.old.tokens ++ items_tokens (items_outline (items_of (map entry_tree entries.items)))) }
{
    for entry in entries {
        write_entry(out, &entry)?;
    }
    out.end_array()
}

/// A time, a line, and metadata where there is some.
fn write_entry(out: &mut Writer, entry: &Entry) -> Result<(), AllocError>
    ensures before { out.new.before ≡ out.old.before }
    ensures tokens { OnOk result (out.new.tokens
        ≡ out.old.tokens ++ json_tokens (outline (entry_tree entry.now))) }
{
    out.begin_array()?;
    out.quoted_u64(entry.time)?;
    out.string(entry.line.as_str())?;
    write_meta(out, entry.meta.as_slice())?;
    out.end_array()
}

fn write_meta(out: &mut Writer, pairs: &[(String, String)]) -> Result<(), AllocError>
    ensures before { out.new.before ≡ out.old.before }
    ensures tokens { OnOk result (out.new.tokens ++ SpecToken.end_array ∷ [] ≡ out.old.tokens
        ++ items_tokens (items_outline (items_of (meta_tree (map label_of pairs.now))))) }
{
    if pairs.is_empty() {
        return Ok(());
    }
    out.begin_object()?;
    write_pairs(out, pairs)
}

/// The pairs, and the bracket behind them.
fn write_pairs(out: &mut Writer, pairs: &[(String, String)]) -> Result<(), AllocError>
    ensures before { out.new.before ≡ out.old.before }
    ensures tokens { OnOk result (out.new.tokens ≡ out.old.tokens
        ++ members_tokens (members_outline (labels_tree (map label_of pairs.now)))) }
{
    for (name, value) in pairs {
        write_pair(out, name.as_str(), value.as_str())?;
    }
    out.end_object()
}

fn write_pair(out: &mut Writer, name: &str, value: &str) -> Result<(), AllocError>
    ensures before { out.new.before ≡ out.old.before }
    ensures tokens { OnOk result (out.new.tokens
        ≡ out.old.tokens ++ SpecToken.key name.now ∷ SpecToken.string value.now ∷ []) }
{
    out.key(name)?;
    out.string(value)
}

/// An answer of this text.
pub(crate) fn answer_of_text(
    alloc: Global,
    status: Status,
    text: &[u8],
) -> Result<Answer, AllocError>
    ensures { IfOk result (λ answer. IsShown status text.now answer) }
{
    Ok(Answer {
        status,
        body: Vec::from_slice(alloc, text)?,
    })
}
