//! A connection as a value: bytes come in, answers go out, and nothing is written.
ghost use Rattle.std.specs.Prelude.{◌≡◌, ◌⊎◌, ◌<◌, ◌≤◌, [], All, false, drop, length, OnOk, OnErr, IfErr, IfOk, IfSome};
ghost use Rattle.std.specs.Io.KnownBytes.{IsAtEnd};
ghost use Rattle.std.specs.Option.{IfNone};
ghost use Rattle.accept.specs.Calls.{AreNumbers};
ghost use Rattle.requests.specs.Streams.{Grows, MayGrow};
ghost use Rattle.answering.specs.Beginning.{IsAnsweredSo, IsRoomAfter, IsVisitedWithoutCalls, WaitsForCalls};
ghost use Rattle.answering.specs.Connections.{with_bytes, without_bytes};
ghost use Rattle.answering.specs.Demands.{calls_asked};
ghost use Rattle.answering.specs.Ends.{IsSameBut};
ghost use Rattle.answering.specs.Turns.{MayComeAfter};

use crate::clock::Clock;
use crate::demands::Demand;
use crate::putting::put_reply;
use crate::responding::NoAnswer;
use crate::visiting::{TurnBegun, TurnOutcome, begin_turn, turn_after};
use requests::{Answer, Incoming, MAX_HEAD, Message, Outbox, Outgoing, ServeFault};
use std::alloc::Global;
use std::io::Read;
use std::marker::Model;

/// A connection without its ends: what has come of it and is not yet answered, what is to be sent, and whether it ends
/// once that is sent. Between two visits the same pass may serve others.
#[derive(Drop)]
pub struct Connection {
    incoming: Incoming,
    room: usize,
    outbox: Outbox,
    closes: bool,
    unanswered: bool,
}

impl Model for Connection {
    ghost use Rattle.requests.specs.Streams.{MayGrow};
    ghost use Rattle.answering.specs.Connections.{Unended};

    ghost Value = { Unended };

    ghost view = { λ c. record {
      came = c.incoming;
      room = c.room;
      text = c.outbox;
      closes = c.closes;
      unanswered = c.unanswered;
    } };

    ghost invariant = { λ c. MayGrow c.incoming c.room };
}

impl Connection {
    /// Nothing has come. Takes no memory.
    pub fn new(alloc: Global) -> Connection
        ensures { result ≡ record { came = []; room = MAX_HEAD; text = []; closes = false; unanswered = false } }
    {
        Connection {
            incoming: Incoming::new(alloc),
            room: MAX_HEAD,
            outbox: Outbox::new(alloc),
            closes: false,
            unanswered: false,
        }
    }

    /// At most this many bytes may be taken in before the next visit.
    pub fn room(&self) -> usize
        ensures { result ≡ self.now.room }
    {
        self.room
    }

    /// How many bytes have come and are not yet answered.
    pub fn held(&self) -> usize
        ensures { result ≡ length self.now.came }
    {
        self.incoming.len()
    }

    /// What is to be sent.
    pub fn text(&self) -> &[u8]
        ensures { result.now ≡ self.now.text }
    {
        self.outbox.text()
    }

    /// Whether the connection ends once that is sent.
    pub fn closes(&self) -> bool
        ensures { result ≡ self.now.closes }
    {
        self.closes
    }

    /// Whether it ends without the answer to a request, for which there was no memory.
    pub fn unanswered(&self) -> bool
        ensures { result ≡ self.now.unanswered }
    {
        self.unanswered
    }

    /// The first `count` bytes of what is to be sent were sent.
    pub fn sent(&mut self, count: usize)
        requires { count ≤ length self.old.text }
        ensures { self.new ≡ without_bytes count self.old }
    {
        self.outbox.sent(count);
    }

    /// Takes in bytes that have come.
    ///
    /// # Errors
    ///
    /// `Memory`: nothing was taken in.
    pub fn take_in(&mut self, bytes: &[u8]) -> Result<(), ServeFault>
        requires { length bytes.now ≤ self.old.room }
        ensures ok { OnOk result (self.new ≡ with_bytes bytes.now self.old) }
        ensures err { OnErr result (self.new ≡ self.old) }
        ensures cause { IfErr result (λ e. e ≡ ServeFault.Memory) }
    {
        self.incoming.take_in(bytes)?;
        self.room -= bytes.len();
        Ok(())
    }

    /// Takes in what one read gives, of as much as may come. Returns how many bytes came: none only at the end of the
    /// stream.
    ///
    /// # Errors
    ///
    /// `Read` where the reader fails, `Memory`. In both cases nothing was read.
    pub(crate) fn take_from<I: Read>(&mut self, reader: &mut I) -> Result<usize, ServeFault>
        requires some { 0 < self.old.room }
        ensures grows { Grows (I.remaining reader.old) (I.remaining reader.new) self.old.came self.new.came }
        ensures kept { IsSameBut self.old self.new }
        ensures none { IfOk result (λ n. n ≡ 0 → IsAtEnd (I.remaining reader.new)
            × (self.new.came ≡ self.old.came)) }
        ensures err { OnErr result (self.new.came ≡ self.old.came) }
        ensures cause { IfErr result (λ e. (e ≡ ServeFault.Read) ⊎ (e ≡ ServeFault.Memory)) }
    {
        let count = self.incoming.fill(reader, self.room)?;
        self.room -= count;
        Ok(count)
    }

    /// Looks at what stands at the front, and answers it where that needs no call. Otherwise gives the request, and
    /// what it asks for: nothing has changed then, and `end` is due once its calls have come back.
    pub(crate) fn begin<C: Clock>(
        &mut self,
        alloc: Global,
        clock: &mut C,
        outgoing: &mut Outgoing,
    ) -> Option<(Message, Demand)>
        ensures over { IfNone result (IsVisitedWithoutCalls C.ticks self.old clock.old self.new clock.new) }
        ensures waits { IfSome result (λ p. WaitsForCalls C.ticks self.old.came clock.old clock.new p.0 p.1
            × (self.new ≡ self.old)) }
        ensures fits { IfSome result (λ p. (p.0.end ≤ length self.old.came)
            × (length (drop p.0.end self.old.came) ≤ MAX_HEAD)) }
        ensures numbers { IfSome result (λ p. All AreNumbers (calls_asked p.1)) }
    {
        let turn = match begin_turn(alloc, clock, &mut self.outbox, &mut self.incoming, outgoing) {
            Ok(TurnBegun::Waits(message, demand)) => return Some((message, demand)),
            Ok(TurnBegun::Over(turn)) => Ok(turn),
            Err(fault) => Err(fault),
        };
        let failed = turn.is_err();
        match settle(alloc, &mut self.incoming, turn) {
            Some(room) => self.room = room,
            None => {
                self.room = 0;
                self.closes = true;
                self.unanswered |= failed;
            }
        }
        None
    }

    /// Adds the answer to a request, whose calls have come back, to what is to be sent, and drops the request.
    pub(crate) fn end(
        &mut self,
        alloc: Global,
        outgoing: &mut Outgoing,
        message: Message,
        answered: Result<Answer, NoAnswer>,
    )
        requires within { message.end ≤ length self.old.came }
        requires little { length (drop message.end self.old.came) ≤ MAX_HEAD }
        ensures { IsAnsweredSo message answered self.old self.new }
    {
        let turn = match put_reply(&mut self.outbox, outgoing, answered, message.closes) {
            Ok(closes) => Ok(turn_after(closes)),
            Err(fault) => Err(fault),
        };
        self.incoming.finish(&message);
        let failed = turn.is_err();
        match settle(alloc, &mut self.incoming, turn) {
            Some(room) => self.room = room,
            None => {
                self.room = 0;
                self.closes = true;
                self.unanswered |= failed;
            }
        }
    }
}

// How many bytes may come after a turn: none, and what came is dropped, where the connection ends.
fn settle(
    alloc: Global,
    incoming: &mut Incoming,
    turn: Result<TurnOutcome, ServeFault>,
) -> Option<usize>
    requires { IfOk turn (λ turn. MayComeAfter turn incoming.old) }
    ensures settled { IsRoomAfter turn incoming.old incoming.new result }
    ensures grows { IfSome result (λ room. MayGrow incoming.new room) }
{
    match turn {
        Ok(TurnOutcome::Unfinished(room)) => Some(room),
        Ok(TurnOutcome::Answered) if incoming.len() == 0 => Some(MAX_HEAD),
        Ok(TurnOutcome::Answered) => Some(0),
        Ok(TurnOutcome::Closed) | Err(_) => {
            *incoming = Incoming::new(alloc);
            None
        }
    }
}
