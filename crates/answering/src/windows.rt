//! The streams of a push by their places in its body, and their calls, made window by window.
ghost use Rattle.std.specs.Prelude.{◌≡◌, ◌≤◌, ◌<◌, ◌+◌, ◌^◌, ◌++◌, [], ℕ, List, Option, None, Err, All, IfOk, IfErr, map, min, length, drop};
ghost use Rattle.std.specs.VecDeque.{deque_len, deque_capacity};
ghost use Rattle.labels.specs.declared.fault.LabelFault.{LabelFault};
ghost use Rattle.accept.specs.OneStream.{end_of_time};
ghost use Rattle.accept.specs.Calls.{AreNumbers};
ghost use Rattle.requests.specs.declared.route.Route.TheVariants.{Push};
ghost use Rattle.answering.specs.Asking.{Asked, AsksFor, HasNumbers, asked_push};
ghost use Rattle.answering.specs.Calls.{Came, max_window};
ghost use Rattle.answering.specs.Courses.{first_failure};
ghost use Rattle.answering.specs.Telling.{Tells, CameIsNoted};
ghost use Rattle.answering.specs.Windows.{AreStreams, AsksForStreams, IsEmptyWindow, IsWindowOver, FitWindow, StreamsAreTaken, WindowIsTaken, AreNoted, AreNotedUpTo, called, came_of, no_answer_by, merged};

use crate::calling::{Uncalled, key_of};
use crate::calls::Calls;
use crate::lines::PushLines;
use crate::responding::{NoAnswer, RequestBody};
use accept::{Call, CallFault, Reply};
use labels::{LabelFault, Tenant};
use pushjson::{PushFault, RawBatch, read_push};
use std::alloc::{AllocError, Global};
use std::collections::VecDeque;
use std::sync::Wait;

/// How many places a window has at most.
pub(crate) const MAX_WINDOW: usize = 64;

/// The streams of a push, no call of which was made.
#[derive(Drop)]
pub(crate) struct Streams {
    /// At each place of the body, why the labels are refused; or nothing, where there is a call.
    pub(crate) places: Vec<Option<LabelFault>>,
    /// The calls, in their order.
    pub(crate) calls: VecDeque<Call>,
    ghost counted: { called places.items ≡ deque_len calls },
}

/// The streams of a push whose calls stand in a window.
#[derive(Drop)]
pub(crate) struct TakenStreams {
    /// At each place of the body, why the labels are refused; or nothing, where there is a call.
    pub(crate) places: Vec<Option<LabelFault>>,
    /// How many calls there are.
    pub(crate) calls: usize,
    ghost counted: { called places.items ≡ calls },
}

/// The calls of a push that were not made yet, in their order, with room for those of a window and for their outcomes.
#[derive(Drop)]
pub(crate) struct Windows {
    pub(crate) size: usize,
    pub(crate) left: VecDeque<Call>,
    pub(crate) calls: VecDeque<Call>,
    pub(crate) outcomes: VecDeque<Result<Reply, CallFault>>,
    ghost few: { size ≤ max_window },
    ghost calls_fit: { size ≤ deque_capacity calls },
    ghost outcomes_fit: { size ≤ deque_capacity outcomes },
}

/// The streams that the body of a push asks for.
///
/// # Errors
///
/// Why the body is refused, or `Memory`.
pub(crate) fn streams_of(alloc: Global, request: &RequestBody<'_>) -> Result<Streams, PushFault>
    requires clock { request.now.time < end_of_time }
    ensures ok { IfOk result (λ streams. AsksForStreams request.now.time request.now.tenant.now
        request.now.body.now streams.places.items streams.calls.items) }
    ensures cause { IfErr result (λ fault.
        AsksFor Push request.now.time request.now.body.now (Err fault)) }
    ensures numbers { IfOk result (λ streams. All AreNumbers streams.calls.items) }
{
    let batches = read_push(alloc, request.body)?;
    let (places, calls) = places_of(alloc, request.tenant, request.time, batches)?;
    Ok(Streams { places, calls })
}

// Reads the labels of all streams of a push: why those of each place are refused, and the calls of the others.
fn places_of(
    alloc: Global,
    tenant: &Tenant,
    now: u64,
    batches: Vec<RawBatch>,
) -> Result<(Vec<Option<LabelFault>>, VecDeque<Call>), PushFault>
    requires { All (λ b. HasNumbers (asked_push now b)) batches.items }
    ensures ok { IfOk result (λ p.
        AreStreams tenant.now (map (asked_push now) batches.items) p.0.items p.1.items) }
    ensures cause { IfErr result (λ fault. fault ≡ PushFault.Memory) }
    ensures numbers { IfOk result (λ p. All AreNumbers p.1.items) }
{
    let Ok(mut places) = Vec::with_capacity(alloc, batches.len()) else {
        return Err(PushFault::Memory);
    };
    let Ok(mut calls) = VecDeque::with_capacity(alloc, batches.len()) else {
        return Err(PushFault::Memory);
    };
    for RawBatch { pairs, entries } in batches {
        match key_of(alloc, tenant, pairs) {
            Ok(key) => {
                places.push_reserved(None);
                calls.push_back_reserved(Call::Push { key, now, entries });
            }
            Err(Uncalled::Labels(fault)) => places.push_reserved(Some(fault)),
            Err(Uncalled::Body(fault)) => return Err(fault),
        }
    }
    Ok((places, calls))
}

impl Windows {
    /// Of these calls none was made.
    pub(crate) fn new(alloc: Global, left: VecDeque<Call>) -> Result<Windows, AllocError>
        ensures left { IfOk result (λ windows. windows.left ≡ left) }
        ensures fresh { IfOk result (λ windows.
            IsEmptyWindow windows.calls.items windows.outcomes.items) }
        ensures size { IfOk result (λ windows. windows.size ≡ min max_window (deque_len left)) }
    {
        let size = MAX_WINDOW.min(left.len());
        let calls = VecDeque::with_capacity(alloc, size)?;
        let outcomes = VecDeque::with_capacity(alloc, size)?;
        Ok(Windows {
            size,
            left,
            calls,
            outcomes,
        })
    }

    // Takes the calls of the next places out of those that are left.
    fn fill(&mut self, places: &[Option<LabelFault>])
        requires fresh { self.old.calls.items ≡ [] }
        requires enough { called places.now ≤ deque_len self.old.left }
        requires room { called places.now ≤ self.old.size }
        ensures split { self.old.left.items ≡ self.new.calls.items ++ self.new.left.items }
        ensures count { deque_len self.new.calls ≡ called places.now }
        ensures left { deque_len self.new.left + called places.now ≡ deque_len self.old.left }
        ensures outcomes { self.new.outcomes ≡ self.old.outcomes }
        ensures size { self.new.size ≡ self.old.size }
    {
        for place in places {
            if place.is_none() {
                let Some(call) = self.left.pop_front() else {
                    unreachable!()
                };
                self.calls.push_back_reserved(call);
            }
        }
    }

    /// Makes the calls of the next places, and takes what came of their streams into the lines.
    pub(crate) fn take<S: Calls, R: Wait>(
        &mut self,
        rt: &R,
        alloc: Global,
        service: &S,
        pass: &mut S::Pass,
        places: &[Option<LabelFault>],
        lines: &mut PushLines,
    ) -> Result<(), NoAnswer>
        requires pass { S.is_ready service.now pass.old }
        requires fresh { IsEmptyWindow self.old.calls.items self.old.outcomes.items }
        requires numbers { All AreNumbers self.old.left.items }
        requires next { FitWindow places.now self.old.size (deque_len self.old.left)
            lines.old.streams }
        ensures pass { S.is_ready service.now pass.new }
        ensures goes { (h : S.Pass) (tenant : List ℕ) (all : List Asked)
            (more : List (Option LabelFault))
            → StreamsAreTaken (S.gives service.now) tenant h all pass.old (places.now ++ more)
            self.old.left.items lines.old
            → WindowIsTaken (S.gives service.now) tenant h all result pass.new more
            self.new.left.items lines.new }
        ensures over { IfOk result (λ _.
            IsWindowOver self.new.calls.items self.new.outcomes.items (length places.now)
            lines.old.streams
            lines.new.streams) }
        ensures numbers { All AreNumbers self.new.left.items }
        ensures left { (deque_len self.new.left + called places.now ≡ deque_len self.old.left)
            × (self.new.size ≡ self.old.size) }
    {
        self.fill(places);
        service.call_all(rt, alloc, pass, &mut self.calls, &mut self.outcomes);
        let noted = note_streams(places, &self.outcomes, 0, lines);
        self.outcomes.clear();
        noted
    }
}

/// Takes what came of the streams at these places into the lines, where the outcomes of their calls stand from `first`
/// on.
///
/// # Errors
///
/// The first failure of a call; or `GivenUp`, where there was no memory for a line.
pub(crate) fn note_streams(
    places: &[Option<LabelFault>],
    outcomes: &VecDeque<Result<Reply, CallFault>>,
    first: usize,
    lines: &mut PushLines,
) -> Result<(), NoAnswer>
    requires due { first + called places.now ≡ deque_len outcomes.now }
    requires few { lines.old.streams + length places.now < 2 ^ 64 }
    ensures noted { (before : List Came) → Tells before lines.old → first_failure before ≡ None
        → AreNoted before (merged places.now (drop first outcomes.now.items)) result lines.new }
    ensures count { IfOk result (λ _.
        lines.new.streams ≡ lines.old.streams + length places.now) }
{
    match note_places(places, outcomes, first, lines) {
        Err(NoAnswer::GivenUp) => Err(no_answer_of(outcomes, first)),
        noted => noted,
    }
}

// The same up to a call that failed, or a stream for which there is no memory.
fn note_places(
    places: &[Option<LabelFault>],
    outcomes: &VecDeque<Result<Reply, CallFault>>,
    first: usize,
    lines: &mut PushLines,
) -> Result<(), NoAnswer>
    requires due { first + called places.now ≡ deque_len outcomes.now }
    requires few { lines.old.streams + length places.now < 2 ^ 64 }
    ensures noted { (before : List Came) → Tells before lines.old → first_failure before ≡ None
        → AreNotedUpTo before (merged places.now (drop first outcomes.now.items)) result lines.new }
    ensures count { IfOk result (λ _.
        lines.new.streams ≡ lines.old.streams + length places.now) }
{
    let mut next = first;
    for place in places {
        match *place {
            Some(fault) => lines.note_refusal(fault)?,
            None => {
                let Some(outcome) = outcomes.get(next) else {
                    unreachable!()
                };
                next += 1;
                note_outcome(lines, outcome)?;
            }
        }
    }
    Ok(())
}

// Takes what came of a call into the lines, unless it failed.
fn note_outcome(lines: &mut PushLines, outcome: &Result<Reply, CallFault>) -> Result<(), NoAnswer>
    requires few { lines.old.streams + 1 < 2 ^ 64 }
    ensures noted { CameIsNoted (came_of outcome.now) lines.old result lines.new }
    ensures count { IfOk result (λ _. lines.new.streams ≡ lines.old.streams + 1) }
{
    match outcome {
        Ok(reply) => {
            lines.note_reply(reply)?;
            Ok(())
        }
        Err(failure) => Err(NoAnswer::Failed(*failure)),
    }
}

// Why a push ends that has no memory for its lines: for the first failure among these outcomes.
fn no_answer_of(outcomes: &VecDeque<Result<Reply, CallFault>>, first: usize) -> NoAnswer
    ensures { result ≡ no_answer_by (first_failure (map came_of (drop first outcomes.now.items))) }
{
    for place in first..outcomes.len() {
        if let Some(Err(failure)) = outcomes.get(place) {
            return NoAnswer::Failed(*failure);
        }
    }
    NoAnswer::GivenUp
}
