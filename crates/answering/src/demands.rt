//! What a request asks for, what it waits for, and what it is told.
ghost use Rattle.std.specs.Prelude.{◌≡◌, ◌<◌, ◌+◌, ℕ, List, All, IfOk, drop};
ghost use Rattle.std.specs.VecDeque.{deque_len};
ghost use Rattle.accept.specs.OneStream.{end_of_time};
ghost use Rattle.accept.specs.Calls.{AreNumbers};
ghost use Rattle.requests.specs.declared.route.Route.{Route};
ghost use Rattle.answering.specs.Demands.{IsDemand, IsDemandOfOne, StreamsAreTold, calls_asked};
ghost use Rattle.answering.specs.Parts.{AsksForCall, CameIsTold};
ghost use Rattle.answering.specs.Windows.{called, came_of};

use crate::calling::{Uncalled, call_of_read, call_of_trim};
use crate::lines::PushLines;
use crate::replies::answer_of_reply;
use crate::responding::{NoAnswer, RequestBody};
use crate::windows::{Streams, TakenStreams, note_streams, streams_of};
use accept::{Call, CallFault, Reply};
use labels::LabelFault;
use requests::{Answer, Route};
use std::alloc::Global;
use std::collections::VecDeque;

/// What a request asks for.
#[derive(Drop)]
pub(crate) enum Demand {
    /// No call, and why.
    Nothing(Uncalled),
    /// The call of a read or a trim.
    One(Call),
    /// The streams of a push.
    Streams(Streams),
}

/// What a request waits for, whose calls stand in a window.
#[derive(Drop)]
pub(crate) enum Waiting {
    /// No call, and why.
    Nothing(Uncalled),
    /// The call of a read or a trim.
    One,
    /// The streams of a push.
    Streams(TakenStreams),
}

/// What a request asks for.
pub(crate) fn demand_of(alloc: Global, request: &RequestBody<'_>) -> Demand
    requires clock { request.now.time < end_of_time }
    ensures asks { IsDemand request.now.route request.now.time request.now.tenant.now
        request.now.body.now result }
    ensures numbers { All AreNumbers (calls_asked result) }
{
    match request.route {
        Route::Push => match streams_of(alloc, request) {
            Ok(streams) => Demand::Streams(streams),
            Err(fault) => Demand::Nothing(Uncalled::Body(fault)),
        },
        Route::Read => demand_of_one(call_of_read(alloc, request.tenant, request.body)),
        Route::Trim => demand_of_one(call_of_trim(alloc, request.tenant, request.body)),
    }
}

fn demand_of_one(asked: Result<Call, Uncalled>) -> Demand
    requires numbers { IfOk asked (λ call. AreNumbers call) }
    ensures asks { (route : Route) (tenant body : List ℕ) → AsksForCall route tenant body asked
        → IsDemandOfOne route tenant body result }
    ensures numbers { All AreNumbers (calls_asked result) }
{
    match asked {
        Ok(call) => Demand::One(call),
        Err(why) => Demand::Nothing(why),
    }
}

/// The answer to a read or a trim, of whose call this came.
pub(crate) fn answer_of_one(
    alloc: Global,
    outcome: Result<Reply, CallFault>,
) -> Result<Answer, NoAnswer>
    ensures { CameIsTold (came_of outcome) result }
{
    match outcome {
        Ok(reply) => Ok(answer_of_reply(alloc, reply)?),
        Err(failure) => Err(NoAnswer::Failed(failure)),
    }
}

/// The answer to a push with streams at these places, where the outcomes of their calls stand from `first` on.
pub(crate) fn answer_of_streams(
    alloc: Global,
    places: &[Option<LabelFault>],
    outcomes: &VecDeque<Result<Reply, CallFault>>,
    first: usize,
) -> Result<Answer, NoAnswer>
    requires due { first + called places.now ≡ deque_len outcomes.now }
    ensures { StreamsAreTold places.now (drop first outcomes.now.items) result }
{
    let mut lines = PushLines::new(alloc);
    note_streams(places, outcomes, first, &mut lines)?;
    Ok(lines.into_answer())
}
