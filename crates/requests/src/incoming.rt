//! The bytes that have come of a connection, as requests.
ghost use Rattle.std.specs.Prelude.{◌≡◌, ◌⊎◌, ◌+◌, ◌<◌, ◌≤◌, ◌++◌, [], length, drop, slice_range, All, take, IfOk, OnOk, OnErr, IfErr};
ghost use Rattle.std.specs.Io.KnownBytes.{IsAtEnd};
ghost use Rattle.httparse.specs.Grammar.{RequestHead};
ghost use Rattle.httparse.specs.Spans.{IsRequestAt, IsRequestOf, IsRequestWithin};
ghost use Rattle.requests.specs.Judging.{IsJudged};
ghost use Rattle.requests.specs.Streams.{Grows, IsNext, Fits, HoldsHead, IsUnfinished, MayStand, MayGrow};

use crate::fault::ServeFault;
use crate::fixed::FixedAnswer;
use crate::framing::{Framing, framing_of};
use crate::reading::{CHUNK, fill};
use crate::verdict::{Verdict, asks_close, verdict_of};
use httparse::Status;
use httparse::spans::{EMPTY_HEADER_SPAN, HeaderSpan, RequestSpans, parse_request};
use std::alloc::Global;
use std::io::Read;
use std::marker::Model;

/// The longest head, in bytes: this project's profile.
pub const MAX_HEAD: usize = 16_384;

/// The most fields of a head: this project's profile.
pub const MAX_FIELDS: usize = 64;

/// A whole request at the front of the buffer.
#[derive(Drop)]
pub struct Message {
    /// What it is.
    pub verdict: Verdict,
    /// Whether it asks that the connection ends after its answer: HTTP/1.0, or a field `Connection` that lists `close`.
    pub closes: bool,
    /// Where its body begins in the buffer.
    pub start: usize,
    /// Where its body ends, and the next request begins.
    pub end: usize,
}

/// What is at the front of the bytes that have come.
#[derive(Drop)]
pub enum Next {
    /// A whole request.
    Whole(Message),
    /// A request that is refused before its body is read, by an answer that closes.
    Refused(FixedAnswer),
    /// Nothing, or a request that has not come whole. At most this many bytes may be taken in before the next look, at
    /// least one.
    Unfinished(usize),
}

/// What a head says of its request.
fn judge(
    alloc: Global,
    bytes: &[u8],
    fields: &[HeaderSpan],
    spans: RequestSpans,
) -> Result<Message, FixedAnswer>
    requires within { IsRequestWithin bytes.now fields.now spans }
    requires short { spans.len ≤ MAX_HEAD }
    ensures { (h : RequestHead) → IsRequestAt bytes.now fields.now spans h
        → IsJudged h spans.len result }
{
    let fields = &fields[..spans.headers];
    let method = spans.method.of(bytes);
    match framing_of(bytes, fields, method) {
        Framing::Refused(why) => Err(why),
        Framing::Length(length) => Ok(Message {
            verdict: verdict_of(alloc, bytes, fields, method, spans.path.of(bytes)),
            closes: asks_close(bytes, fields, spans.version),
            start: spans.len,
            end: spans.len + length,
        }),
    }
}

/// The request whose head is at the front of the bytes.
fn request_of(alloc: Global, bytes: &[u8], fields: &[HeaderSpan], spans: RequestSpans) -> Next
    requires head { IsRequestOf bytes.now fields.now spans }
    requires within { IsRequestWithin bytes.now fields.now spans }
    requires room { length fields.now ≡ MAX_FIELDS }
    requires short { spans.len ≤ MAX_HEAD }
    requires unread { MayStand bytes.now }
    ensures next { IsNext bytes.now result }
    ensures fits { Fits bytes.now result }
{
    let message = match judge(alloc, bytes, fields, spans) {
        Ok(message) => message,
        Err(why) => return Next::Refused(why),
    };
    let length = bytes.len();
    if length < message.end {
        return Next::Unfinished(message.end.max(MAX_HEAD) - length);
    }
    Next::Whole(message)
}

/// The head that is at the front of the bytes, which is whole.
fn head_of(bytes: &[u8], fields: &mut [HeaderSpan]) -> RequestSpans
    requires held { HoldsHead bytes.now }
    requires room { length fields.old ≡ MAX_FIELDS }
    ensures head { IsRequestOf bytes.now fields.new result }
    ensures within { IsRequestWithin bytes.now fields.new result }
    ensures room { length fields.new ≡ MAX_FIELDS }
    ensures short { result.len ≤ MAX_HEAD }
{
    match parse_request(bytes, fields) {
        Ok(Status::Complete(spans)) => spans,
        Ok(Status::Partial) => unreachable!(),
        Err(_) => unreachable!(),
    }
}

/// What is at the front of bytes of which no head is whole yet.
fn begun(bytes: &[u8]) -> Next
    requires few { length bytes.now ≤ MAX_HEAD }
    requires unfinished { IsUnfinished bytes.now }
    ensures next { IsNext bytes.now result }
    ensures fits { Fits bytes.now result }
{
    let length = bytes.len();
    if length == MAX_HEAD {
        return Next::Refused(FixedAnswer::HeadTooLarge);
    }
    Next::Unfinished(MAX_HEAD - length)
}

/// What is at the front of these bytes.
fn next_of(alloc: Global, bytes: &[u8]) -> Next
    requires { MayStand bytes.now }
    ensures next { IsNext bytes.now result }
    ensures fits { Fits bytes.now result }
{
    let mut fields = [EMPTY_HEADER_SPAN; MAX_FIELDS];
    if bytes.len() > MAX_HEAD {
        let spans = head_of(bytes, &mut fields);
        return request_of(alloc, bytes, &fields, spans);
    }
    match parse_request(bytes, &mut fields) {
        Ok(Status::Complete(spans)) => request_of(alloc, bytes, &fields, spans),
        Ok(Status::Partial) => begun(bytes),
        Err(_) => Next::Refused(FixedAnswer::BadRequest),
    }
}

/// The bytes that have come of a connection and are not yet answered. It keeps its memory from request to request.
/// Contracts see the bytes.
#[derive(Drop)]
pub struct Incoming {
    buffer: Vec<u8>,
}

impl Model for Incoming {
    ghost use Rattle.std.specs.Prelude.{List, ℕ};

    ghost Value = { List ℕ };

    ghost view = { λ i. i.buffer.items };
}

impl Incoming {
    /// Nothing yet. Takes no memory.
    pub fn new(alloc: Global) -> Incoming
        ensures { result ≡ [] }
    {
        Incoming {
            buffer: Vec::new(alloc),
        }
    }

    /// How many bytes have come and are not yet answered.
    pub fn len(&self) -> usize
        ensures { result ≡ length self.now }
    {
        self.buffer.len()
    }

    /// Takes in bytes that have come, after those that are there.
    ///
    /// # Errors
    ///
    /// `Memory`: nothing was taken in.
    pub fn take_in(&mut self, bytes: &[u8]) -> Result<(), ServeFault>
        ensures ok { OnOk result (self.new ≡ self.old ++ bytes.now) }
        ensures err { OnErr result (self.new ≡ self.old) }
        ensures cause { IfErr result (λ e. e ≡ ServeFault.Memory) }
    {
        self.buffer.extend_from_slice(bytes)?;
        Ok(())
    }

    /// Takes in what one read gives, of at most this many bytes. Returns how many came: none only at the end of the
    /// stream. It grows by what comes, and not by what is announced.
    ///
    /// # Errors
    ///
    /// `Read` where the reader fails, `Memory`. In both cases nothing was read.
    pub fn fill<R: Read>(&mut self, reader: &mut R, most: usize) -> Result<usize, ServeFault>
        requires some { 0 < most }
        requires room { MayGrow self.old most }
        ensures grows { Grows (R.remaining reader.old) (R.remaining reader.new) self.old self.new }
        ensures unread { MayStand self.new }
        ensures len { IfOk result (λ n. (length self.new ≡ length self.old + n) × (n ≤ most)) }
        ensures none { IfOk result (λ n. n ≡ 0 → IsAtEnd (R.remaining reader.new)
            × (self.new ≡ self.old)) }
        ensures err { OnErr result (self.new ≡ self.old) }
        ensures cause { IfErr result (λ e. (e ≡ ServeFault.Read) ⊎ (e ≡ ServeFault.Memory)) }
    {
        fill(&mut self.buffer, reader, most.min(CHUNK))
    }

    /// What is at the front of what has come.
    pub fn next(&self, alloc: Global) -> Next
        requires { MayStand self.now }
        ensures next { IsNext self.now result }
        ensures fits { Fits self.now result }
    {
        next_of(alloc, self.buffer.as_slice())
    }

    /// The body of a request that is at the front.
    pub fn body(&self, message: &Message) -> &[u8]
        requires ordered { message.now.start ≤ message.now.end }
        requires within { message.now.end ≤ length self.now }
        ensures { result.now ≡ slice_range self.now message.now.start message.now.end }
    {
        &self.buffer.as_slice()[message.start..message.end]
    }

    /// Drops the request at the front, which was answered.
    pub fn finish(&mut self, message: &Message)
        requires { message.now.end ≤ length self.old }
        ensures { self.new ≡ drop message.now.end self.old }
    {
        // (a drain takes each byte in turn, and mostly nothing has come after the request)
        if message.end == self.buffer.len() {
            self.buffer.clear();
        } else {
            self.buffer.drain(..message.end);
        }
    }
}
