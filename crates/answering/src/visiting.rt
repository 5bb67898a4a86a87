//! The request at the front of a connection: what it asks for, or its answer where that needs no call.
ghost use Rattle.std.specs.Prelude.{◌≡◌, ◌≤◌, Some, length, drop, IfErr, IfOk};
ghost use Rattle.requests.specs.Streams.{Request, IsMessage, MayStand, ReadsMessage};
ghost use Rattle.answering.specs.Beginning.{HasNumbersBegun, MayComeAfterBegun, IsTurnBegun, turn_after};
ghost use Rattle.answering.specs.Turns.{HasText};

use crate::clock::Clock;
use crate::demands::{Demand, demand_of};
use crate::putting::{put_failure, put_fixed};
use crate::responding::RequestBody;
use accept::CallFault;
use requests::{Incoming, MAX_HEAD, Message, Next, Outbox, Outgoing, ServeFault, Verdict};
use std::alloc::Global;

/// What came of a turn.
#[derive(Clone, Copy)]
pub(crate) enum TurnOutcome {
    /// A request was answered, and the connection goes on.
    Answered,
    /// An answer closed it.
    Closed,
    /// No whole request has come. At most this many bytes may be taken in before the next turn, at least one.
    Unfinished(usize),
}

/// How a turn begins.
#[derive(Drop)]
pub(crate) enum TurnBegun {
    /// No call was needed, and it is over.
    Over(TurnOutcome),
    /// This request waits for its calls.
    Waits(Message, Demand),
}

/// What came of a visit of a connection.
#[derive(Clone, Copy, PartialEq, Eq)]
pub enum Visited {
    /// A request was answered. There may be more.
    More,
    /// No whole request is left. At most this many bytes may be taken in before the next visit, at least one.
    Unfinished(usize),
    /// An answer closed the connection.
    Closed,
}

/// What is left after a request that was answered.
pub(crate) fn turn_after(closes: bool) -> TurnOutcome
    ensures { result ≡ turn_after closes }
{
    if closes {
        TurnOutcome::Closed
    } else {
        TurnOutcome::Answered
    }
}

// Begins to answer a whole request that stands at the front. One that needs no call is answered, and dropped.
fn begin_message<C: Clock>(
    alloc: Global,
    clock: &mut C,
    outbox: &mut Outbox,
    incoming: &mut Incoming,
    outgoing: &mut Outgoing,
    message: Message,
) -> Result<TurnBegun, ServeFault>
    requires ordered { message.start ≤ message.end }
    requires within { message.end ≤ length incoming.old }
    requires little { length (drop message.end incoming.old) ≤ MAX_HEAD }
    ensures text { IfErr result (HasText outbox.old) }
    ensures numbers { HasNumbersBegun result }
    ensures room { IfOk result (λ begun. MayComeAfterBegun begun incoming.new) }
    ensures begins { (r : Request) → IsMessage incoming.old r message
        → ReadsMessage incoming.old r (drop message.end incoming.old)
        → IsTurnBegun C.ticks (Some outbox.old) (Some outbox.new)
        incoming.old clock.old incoming.new clock.new result }
{
    let now = clock.now();
    let closes = match &message.verdict {
        Verdict::Call(route, tenant) => {
            let request = RequestBody {
                time: now,
                route: *route,
                tenant,
                body: incoming.body(&message),
            };
            let demand = demand_of(alloc, &request);
            return Ok(TurnBegun::Waits(message, demand));
        }
        Verdict::Fixed(answer) => {
            put_fixed(outbox, outgoing, *answer, message.closes)?;
            answer.always_closes() | message.closes
        }
        Verdict::NoMemory => {
            put_failure(outbox, CallFault::Memory)?;
            true
        }
    };
    incoming.finish(&message);
    Ok(TurnBegun::Over(turn_after(closes)))
}

/// Looks at what stands at the front, and answers it where that needs no call.
pub(crate) fn begin_turn<C: Clock>(
    alloc: Global,
    clock: &mut C,
    outbox: &mut Outbox,
    incoming: &mut Incoming,
    outgoing: &mut Outgoing,
) -> Result<TurnBegun, ServeFault>
    requires unread { MayStand incoming.old }
    ensures text { IfErr result (HasText outbox.old) }
    ensures numbers { HasNumbersBegun result }
    ensures room { IfOk result (λ begun. MayComeAfterBegun begun incoming.new) }
    ensures begins { IsTurnBegun C.ticks (Some outbox.old) (Some outbox.new)
        incoming.old clock.old incoming.new clock.new result }
{
    match incoming.next(alloc) {
        Next::Unfinished(most) => Ok(TurnBegun::Over(TurnOutcome::Unfinished(most))),
        Next::Refused(why) => {
            put_fixed(outbox, outgoing, why, true)?;
            Ok(TurnBegun::Over(TurnOutcome::Closed))
        }
        Next::Whole(message) => { begin_message(alloc, clock, outbox, incoming, outgoing, message) }
    }
}
