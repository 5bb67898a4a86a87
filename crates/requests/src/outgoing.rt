//! Answers as bytes.
ghost use Rattle.std.specs.Prelude.{◌≡◌, ◌++◌, [], length, decimal, None, IfOk, OnOk, IfErr};
ghost use Rattle.requests.specs.Answers.{status_line, type_line, length_line, allow_line, last_lines};
ghost use Rattle.requests.specs.Answers.{answer_text, sent_body, fixed_text};

use crate::answer::{Answer, Content};
use crate::fault::ServeFault;
use crate::fixed::{FixedAnswer, Method};
use crate::status::Status;
use std::alloc::{AllocError, Global};
use std::io::Write;
use std::marker::Model;

/// A body of more than 65,536 bytes is long: it is moved and not copied, and memory of more is not kept.
const LONG: usize = 1 << 16;

/// So much room after a long body keeps it from being copied: the head of an answer is shorter.
pub const ROOM_FOR_HEAD: usize = 256;

/// Appends a number in decimal digits.
///
/// # Errors
///
/// Want of memory: nothing is then known of the text.
pub fn push_number(text: &mut Vec<u8>, number: u64) -> Result<(), AllocError>
    ensures { OnOk result (text.new.items ≡ text.old.items ++ decimal number) }
{
    write!(text, "{number}").map_err(|_| AllocError)
}

#[tactic(auto, unfolding(crate::specs::Answers::status_line))]
fn push_status(text: &mut Vec<u8>, status: Status) -> Result<(), AllocError>
    ensures { OnOk result (text.new.items ≡ text.old.items ++ status_line status) }
{
    text.extend_from_slice(b"HTTP/1.1 ")?;
    push_number(text, u64::from(status.code()))?;
    text.extend_from_slice(b" ")?;
    text.extend_from_slice(status.reason())?;
    text.extend_from_slice(b"\r\n")
}

#[tactic(auto, unfolding(crate::specs::Answers::type_line))]
fn push_type(text: &mut Vec<u8>, content: Content) -> Result<(), AllocError>
    ensures { OnOk result (text.new.items ≡ text.old.items ++ type_line content) }
{
    match content {
        Content::Text => text.extend_from_slice(b"Content-Type: text/plain; charset=utf-8\r\n"),
        Content::Json => text.extend_from_slice(b"Content-Type: application/json\r\n"),
    }
}

#[tactic(auto, unfolding(crate::specs::Answers::length_line))]
fn push_length(text: &mut Vec<u8>, length: usize) -> Result<(), AllocError>
    ensures { OnOk result (text.new.items ≡ text.old.items ++ length_line length) }
{
    text.extend_from_slice(b"Content-Length: ")?;
    push_number(text, length as u64)?;
    text.extend_from_slice(b"\r\n")
}

#[tactic(auto, unfolding(crate::specs::Answers::allow_line))]
fn push_allow(text: &mut Vec<u8>, allow: Option<Method>) -> Result<(), AllocError>
    ensures { OnOk result (text.new.items ≡ text.old.items ++ allow_line allow) }
{
    let Some(method) = allow else {
        return Ok(());
    };
    text.extend_from_slice(b"Allow: ")?;
    text.extend_from_slice(method.text())?;
    text.extend_from_slice(b"\r\n")
}

#[tactic(auto, unfolding(crate::specs::Answers::last_lines))]
fn push_last(text: &mut Vec<u8>, closes: bool) -> Result<(), AllocError>
    ensures { OnOk result (text.new.items ≡ text.old.items ++ last_lines closes) }
{
    if closes {
        text.extend_from_slice(b"Connection: close\r\n")?;
    }
    text.extend_from_slice(b"\r\n")
}

/// What is told of an answer before its body.
#[derive(Clone, Copy)]
struct Head {
    status: Status,
    content: Content,
    allow: Option<Method>,
    closes: bool,
}

/// All that stands before this body.
fn push_head(text: &mut Vec<u8>, head: Head, body: &[u8]) -> Result<(), AllocError>
    ensures { OnOk result (text.new.items ++ sent_body head.status body.now
        ≡ text.old.items ++ answer_text head.status head.content head.allow head.closes body.now) }
{
    push_status(text, head.status)?;
    if head.status == Status::NoContent {
        return push_last(text, head.closes);
    }
    push_type(text, head.content)?;
    push_length(text, body.len())?;
    push_allow(text, head.allow)?;
    push_last(text, head.closes)
}

fn push_answer(text: &mut Vec<u8>, head: Head, body: &[u8]) -> Result<(), AllocError>
    ensures { OnOk result (text.new.items
        ≡ text.old.items ++ answer_text head.status head.content head.allow head.closes body.now) }
{
    push_head(text, head, body)?;
    if head.status == Status::NoContent {
        return Ok(());
    }
    text.extend_from_slice(body)
}

/// The body with this head before it, in the body's memory where it has room.
fn with_head(mut body: Vec<u8>, head: &[u8]) -> Result<Vec<u8>, AllocError>
    ensures { IfOk result (λ text. text.items ≡ head.now ++ body.items) }
{
    body.extend_from_slice(head)?;
    body.rotate_right(head.len());
    Ok(body)
}

/// Lets go of the text, and of its memory where that is much.
pub(crate) fn rest(text: &mut Vec<u8>)
    ensures { text.new.items ≡ [] }
{
    text.clear();
    if text.capacity() > LONG {
        text.shrink_to_fit();
    }
}

/// Where an answer is put together, so that it is sent in one write. It keeps its memory from answer to answer, but not
/// that of a long one. Contracts see its text.
#[derive(Drop)]
pub struct Outgoing {
    pub(crate) text: Vec<u8>,
}

impl Model for Outgoing {
    ghost use Rattle.std.specs.Prelude.{List, ℕ};

    ghost Value = { List ℕ };

    ghost view = { λ o. o.text.items };
}

impl Outgoing {
    /// Takes no memory.
    pub fn new(alloc: Global) -> Outgoing {
        Outgoing {
            text: Vec::new(alloc),
        }
    }

    /// The text that was put together last.
    pub fn text(&self) -> &[u8]
        ensures { result.now ≡ self.now }
    {
        self.text.as_slice()
    }

    /// Puts an answer together: its head and its body, or with status 204 its head alone. A long body is not copied
    /// where it has room for `ROOM_FOR_HEAD` more bytes.
    ///
    /// # Errors
    ///
    /// `Memory`.
    pub fn answer(
        &mut self,
        answer: Answer,
        content: Content,
        closes: bool,
    ) -> Result<(), ServeFault>
        ensures text { OnOk result (self.new
            ≡ answer_text answer.status content None closes answer.body.items) }
        ensures fault { IfErr result (λ e. e ≡ ServeFault.Memory) }
    {
        let Answer { status, body } = answer;
        let head = Head {
            status,
            content,
            allow: None,
            closes,
        };
        self.text.clear();
        if status == Status::NoContent || body.len() <= LONG {
            push_answer(&mut self.text, head, body.as_slice())?;
            return Ok(());
        }
        push_head(&mut self.text, head, body.as_slice())?;
        self.text = with_head(body, self.text.as_slice())?;
        Ok(())
    }

    /// Puts a fixed answer together, to a request that asks that the connection ends or to one that does not.
    ///
    /// # Errors
    ///
    /// `Memory`.
    pub fn fixed(&mut self, answer: FixedAnswer, closes: bool) -> Result<(), ServeFault>
        ensures text { OnOk result (self.new ≡ fixed_text answer closes) }
        ensures fault { IfErr result (λ e. e ≡ ServeFault.Memory) }
    {
        let head = Head {
            status: answer.status(),
            content: Content::Text,
            allow: answer.allow(),
            closes: answer.always_closes() || closes,
        };
        self.text.clear();
        push_answer(&mut self.text, head, answer.body())?;
        Ok(())
    }

    /// Lets go of the text, and of its memory where that is much.
    pub(crate) fn rest(&mut self)
        ensures { self.new ≡ [] }
    {
        rest(&mut self.text);
    }
}
