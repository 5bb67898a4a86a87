//! The answer to a request after its head: its body, its calls in body order, status and body of its answer.
ghost use Rattle.std.specs.Prelude.{◌≡◌, ◌<◌, ◌≤◌, [], ℕ, List, All, IfOk, min, vec_capacity};
ghost use Rattle.requests.specs.declared.route.Route.{Route};
ghost use Rattle.std.specs.VecDeque.{deque_len};
ghost use Rattle.accept.specs.OneStream.{end_of_time};
ghost use Rattle.accept.specs.Calls.{AreNumbers};
ghost use Rattle.requests.specs.Answers.{failure_body};
ghost use Rattle.answering.specs.Calls.{max_window};
ghost use Rattle.answering.specs.Asking.{Asked};
ghost use Rattle.answering.specs.Demands.{IsDemand, calls_asked};
ghost use Rattle.answering.specs.Parts.{BodyIsRefused, UncalledIsAnswered, BodyIsAnswered};
ghost use Rattle.answering.specs.Responses.{RequestIsAnswered, RequestEnds, bad_time_text};
ghost use Rattle.answering.specs.Showing.{IsShown};
ghost use Rattle.answering.specs.Windows.{AreStreams, AsksForStreams, IsEmptyWindow, called};
ghost use Rattle.answering.specs.declared.responding.NoAnswer.TheVariants.{Failed, GivenUp};

use crate::calling::Uncalled;
use crate::calls::Calls;
use crate::demands::{Demand, answer_of_one, demand_of};
use crate::lines::PushLines;
use crate::replies::{answer_of_refusal, answer_of_text};
use crate::windows::{MAX_WINDOW, Streams, Windows};
use accept::CallFault;
use labels::{LabelFault, Tenant};
use pushjson::PushFault;
use requests::{Answer, LONGEST_FAILURE, Route, ServeFault, Status, failure_body, push_number};
use std::alloc::{AllocError, Global};
use std::sync::Wait;

/// Why a request has no answer of its own.
#[derive(Clone, Copy)]
pub(crate) enum NoAnswer {
    /// Its calls ended at a failure, which is answered by a status 500.
    Failed(CallFault),
    /// There was no memory for its answer.
    GivenUp,
}

impl From<CallFault> for NoAnswer {
    ghost from_gives = { λ failure no_answer. no_answer ≡ Failed failure };

    fn from(failure: CallFault) -> NoAnswer {
        NoAnswer::Failed(failure)
    }
}

impl From<AllocError> for NoAnswer {
    ghost from_gives = { λ _ no_answer. no_answer ≡ GivenUp };

    fn from(_refused: AllocError) -> NoAnswer {
        NoAnswer::GivenUp
    }
}

/// A request after its head.
#[derive(Clone, Copy)]
pub struct RequestBody<'a> {
    /// What the clock told for it, in nanoseconds: below 2^63.
    pub time: u64,
    pub route: Route,
    pub tenant: &'a Tenant,
    pub body: &'a [u8],
}

fn answer_of_bad_time(alloc: Global, stream: usize, entry: usize) -> Result<Answer, AllocError>
    ensures { IfOk result (λ answer. IsShown Status.BadRequest
        (bad_time_text stream entry) answer) }
{
    let mut body = Vec::new(alloc);
    body.extend_from_slice(b"bad time at stream ")?;
    push_number(&mut body, stream as u64)?;
    body.extend_from_slice(b" entry ")?;
    push_number(&mut body, entry as u64)?;
    Ok(Answer {
        status: Status::BadRequest,
        body,
    })
}

/// The answer to a body that is refused at its form.
fn refuse(alloc: Global, fault: PushFault) -> Result<Answer, NoAnswer>
    ensures { BodyIsRefused fault result }
{
    let answer = match fault {
        PushFault::NotJson => answer_of_text(alloc, Status::BadRequest, b"body is not JSON"),
        PushFault::WrongShape => answer_of_text(alloc, Status::BadRequest, b"wrong shape"),
        PushFault::BadTime { stream, entry } => answer_of_bad_time(alloc, stream, entry),
        PushFault::TooManyEntries => answer_of_text(
            alloc,
            Status::BadRequest,
            b"more than 10000 entries",
        ),
        PushFault::TooManyParts => answer_of_text(
            alloc,
            Status::BadRequest,
            b"more than 10000 streams or entries",
        ),
        PushFault::Memory => return Err(NoAnswer::Failed(CallFault::Memory)),
    };
    Ok(answer?)
}

/// Makes the calls of the streams of a push in windows, in body order.
fn take_windows<S: Calls, R: Wait>(
    rt: &R,
    alloc: Global,
    service: &S,
    pass: &mut S::Pass,
    places: &[Option<LabelFault>],
    windows: Windows,
) -> Result<Answer, NoAnswer>
    requires pass { S.is_ready service.now pass.old }
    requires fresh { IsEmptyWindow windows.calls.items windows.outcomes.items }
    requires numbers { All AreNumbers windows.left.items }
    requires size { windows.size ≡ min max_window (deque_len windows.left) }
    requires enough { called places.now ≤ deque_len windows.left }
    ensures pass { S.is_ready service.now pass.new }
    ensures goes { (tenant : List ℕ) (all : List Asked)
        → AreStreams tenant all places.now windows.left.items
        → BodyIsAnswered (S.gives service.now) tenant pass.old all result pass.new }
{
    let mut windows = windows;
    let mut lines = PushLines::new(alloc);
    let mut rest = places;
    while !rest.is_empty() {
        let (window, more) = rest.split_at(MAX_WINDOW.min(rest.len()));
        windows.take(rt, alloc, service, pass, window, &mut lines)?;
        rest = more;
    }
    Ok(lines.into_answer())
}

// Makes the calls of the streams of a push.
fn push<S: Calls, R: Wait>(
    rt: &R,
    alloc: Global,
    service: &S,
    pass: &mut S::Pass,
    streams: Streams,
) -> Result<Answer, NoAnswer>
    requires pass { S.is_ready service.now pass.old }
    requires numbers { All AreNumbers streams.calls.items }
    ensures pass { S.is_ready service.now pass.new }
    ensures responds { (now : ℕ) (tenant body : List ℕ)
        → AsksForStreams now tenant body streams.places.items streams.calls.items
        → RequestEnds (S.gives service.now) Route.Push now tenant body pass.old result pass.new }
{
    let Streams { places, calls } = streams;
    match Windows::new(alloc, calls) {
        Ok(windows) => take_windows(rt, alloc, service, pass, places.as_slice(), windows),
        Err(AllocError) => Err(NoAnswer::Failed(CallFault::Memory)),
    }
}

/// The answer to a body of which no call is made.
pub(crate) fn answer_of_uncalled(alloc: Global, why: Uncalled) -> Result<Answer, NoAnswer>
    ensures { UncalledIsAnswered why result }
{
    match why {
        Uncalled::Body(fault) => refuse(alloc, fault),
        Uncalled::Labels(fault) => Ok(answer_of_refusal(alloc, fault)?),
    }
}

/// Makes the calls that a request asks for, and gives its answer, unless it failed.
pub(crate) fn make_calls<S: Calls, R: Wait>(
    rt: &R,
    alloc: Global,
    service: &S,
    pass: &mut S::Pass,
    demand: Demand,
) -> Result<Answer, NoAnswer>
    requires pass { S.is_ready service.now pass.old }
    requires numbers { All AreNumbers (calls_asked demand) }
    ensures pass { S.is_ready service.now pass.new }
    ensures responds { (route : Route) (now : ℕ) (tenant body : List ℕ)
        → IsDemand route now tenant body demand
        → RequestEnds (S.gives service.now) route now tenant body pass.old result pass.new }
{
    match demand {
        Demand::Nothing(why) => answer_of_uncalled(alloc, why),
        Demand::One(call) => {
            let outcome = service.call(rt, alloc, pass, call);
            answer_of_one(alloc, outcome)
        }
        Demand::Streams(streams) => push(rt, alloc, service, pass, streams),
    }
}

/// The answer of a failure. Its text has room already.
fn answer_of_failure(mut text: Vec<u8>, failure: CallFault) -> Answer
    requires empty { text.items ≡ [] }
    requires room { LONGEST_FAILURE ≤ vec_capacity text }
    ensures { IsShown Status.InternalServerError (failure_body failure) result }
{
    text.extend_from_slice(failure_body(failure).as_bytes())
        .unwrap();
    Answer {
        status: Status::InternalServerError,
        body: text,
    }
}

/// Makes the calls that a request asks for, in the order of its body, and gives status and body of its
/// answer. The labels of all streams of a push are read first, and then their calls are made in windows of up
/// to 64 streams. A refused stream does not stop the rest of a push. After an answer of status 500 no call is
/// made after the window in which one failed; calls that were made stand.
///
/// # Errors
///
/// `Memory`: before any call there was no memory, not even for the text of a status 500; or there was none for an
/// answer of another status. Calls that were made stand.
pub fn answer<S: Calls, R: Wait>(
    rt: &R,
    alloc: Global,
    service: &S,
    pass: &mut S::Pass,
    request: &RequestBody<'_>,
) -> Result<Answer, ServeFault>
    requires pass { S.is_ready service.now pass.old }
    requires clock { request.now.time < end_of_time }
    ensures pass { S.is_ready service.now pass.new }
    ensures answers { RequestIsAnswered (S.gives service.now) request.now.route request.now.time
        request.now.tenant.now request.now.body.now pass.old result pass.new }
{
    let text = Vec::with_capacity(alloc, LONGEST_FAILURE)?;
    let demand = demand_of(alloc, request);
    match make_calls(rt, alloc, service, pass, demand) {
        Ok(answer) => Ok(answer),
        Err(NoAnswer::Failed(failure)) => Ok(answer_of_failure(text, failure)),
        Err(NoAnswer::GivenUp) => Err(ServeFault::Memory),
    }
}
