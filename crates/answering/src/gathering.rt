//! Connections whose requests make their calls together.
ghost use Rattle.std.specs.Prelude.{◌≡◌, ◌≤◌, ◌-◌, ◌+◌, ◌++◌, ◌∷◌, [], Bool, false, true, All, IfOk, IfErr, drop, map, take};
ghost use Rattle.std.specs.VecDeque.{deque_capacity, deque_len};
ghost use Rattle.accept.specs.Calls.{AreNumbers};
ghost use Rattle.answering.specs.Calls.{CallsGive, max_window};
ghost use Rattle.answering.specs.Demands.{IsAnsweredBy, SameCalls, WaitsFor, awaited, calls_asked};
ghost use Rattle.answering.specs.Gathering.{AreGathered, AreVisitedSo, known};
ghost use Rattle.answering.specs.Serving.{world};

use crate::calls::Calls;
use crate::clock::Clock;
use crate::connection::Connection;
use crate::demands::{Demand, Waiting, answer_of_one, answer_of_streams};
use crate::responding::{NoAnswer, answer_of_uncalled, make_calls};
use crate::windows::{MAX_WINDOW, Streams, TakenStreams};
use accept::{Call, CallFault, Reply};
use requests::{Answer, Outgoing};
use std::alloc::Global;
use std::collections::VecDeque;
use std::mem;
use std::sync::Wait;

/// What is kept of a connection by those that serve it.
pub trait KeepsConnection: Sized {
    ghost use Rattle.std.specs.Prelude.{◌≡◌};
    ghost use Rattle.answering.specs.Connections.{Unended};

    /// The connection in it.
    ghost kept: { Self → Unended };

    /// The connection in it.
    fn into_connection(self) -> Connection
        ensures { result ≡ kept self };

    /// Keeps a connection.
    fn of_connection(connection: Connection) -> Self
        ensures { kept result ≡ connection };
}

impl KeepsConnection for Connection {
    ghost kept = { λ connection. connection };

    fn into_connection(self) -> Connection {
        self
    }

    fn of_connection(connection: Connection) -> Connection {
        connection
    }
}

/// Where answers are put together, and calls. It keeps its memory from use to use.
#[derive(Drop)]
pub struct Workspace {
    pub(crate) outgoing: Outgoing,
    pub(crate) window: Window,
}

impl Workspace {
    /// Nothing is put there yet. Takes no memory.
    pub fn new(alloc: Global) -> Workspace {
        Workspace {
            outgoing: Outgoing::new(alloc),
            window: Window::new(alloc),
        }
    }
}

/// Calls that are made together, and what came of them.
#[derive(Drop)]
pub(crate) struct Window {
    pub(crate) calls: VecDeque<Call>,
    pub(crate) outcomes: VecDeque<Result<Reply, CallFault>>,
    ghost few: { deque_len calls ≤ max_window },
    ghost room: { deque_len calls ≤ deque_capacity outcomes },
}

impl Window {
    /// No calls. Takes no memory.
    pub(crate) fn new(alloc: Global) -> Window
        ensures { (result.calls.items ≡ []) × (result.outcomes.items ≡ []) }
    {
        Window {
            calls: VecDeque::new(alloc),
            outcomes: VecDeque::new(alloc),
        }
    }

    // Forgets all calls.
    fn clear(&mut self)
        ensures { (self.new.calls.items ≡ []) × (self.new.outcomes.items ≡ []) }
    {
        self.calls.clear();
        self.outcomes.clear();
    }

    // Makes the calls.
    fn make<S: Calls, R: Wait>(&mut self, rt: &R, alloc: Global, service: &S, pass: &mut S::Pass)
        requires pass { S.is_ready service.now pass.old }
        requires fresh { self.old.outcomes.items ≡ [] }
        requires numbers { All AreNumbers self.old.calls.items }
        ensures pass { S.is_ready service.now pass.new }
        ensures given { CallsGive (S.gives service.now) pass.old self.old.calls.items
            self.new.outcomes.items pass.new }
        ensures made { self.new.calls.items ≡ [] }
    {
        service.call_all(rt, alloc, pass, &mut self.calls, &mut self.outcomes);
    }

    // Whether a window has room for as many places more, and there is memory for what comes of them.
    fn has_room(&mut self, places: usize) -> bool
        ensures room { result ≡ true → (deque_len self.new.calls + places ≤ max_window)
            × (deque_len self.new.calls + places ≤ deque_capacity self.new.outcomes) }
        ensures calls { self.new.calls ≡ self.old.calls }
        ensures outcomes { self.new.outcomes.items ≡ self.old.outcomes.items }
    {
        let count = self.calls.len();
        places <= MAX_WINDOW - count && self.outcomes.reserve(count + places).is_ok()
    }

    // Takes in the call of a read or a trim after the others. One for which there is no room comes back.
    fn take_call(&mut self, call: Call) -> Result<Waiting, Demand>
        ensures ok { IfOk result (λ waiting. WaitsFor (Demand.One call) waiting
            × (self.new.calls.items ≡ self.old.calls.items ++ call ∷ [])) }
        ensures err { IfErr result (λ back. (back ≡ Demand.One call)
            × (self.new.calls.items ≡ self.old.calls.items)) }
        ensures outcomes { self.new.outcomes.items ≡ self.old.outcomes.items }
    {
        if !self.has_room(1) {
            return Err(Demand::One(call));
        }
        match self.calls.push_back(call) {
            Ok(()) => Ok(Waiting::One),
            Err(refused) => Err(Demand::One(refused.value)),
        }
    }

    // Takes in the calls of a push after the others. One for which there is no room comes back.
    fn take_streams(&mut self, streams: Streams) -> Result<Waiting, Demand>
        ensures ok { IfOk result (λ waiting. WaitsFor (Demand.Streams streams) waiting
            × (self.new.calls.items ≡ self.old.calls.items ++ streams.calls.items)) }
        ensures err { IfErr result (λ back. SameCalls (Demand.Streams streams) back
            × (self.new.calls.items ≡ self.old.calls.items)) }
        ensures outcomes { self.new.outcomes.items ≡ self.old.outcomes.items }
    {
        let Streams { places, mut calls } = streams;
        let count = calls.len();
        if self.has_room(places.len()) && self.calls.append(&mut calls).is_ok() {
            Ok(Waiting::Streams(TakenStreams {
                places,
                calls: count,
            }))
        } else {
            Err(Demand::Streams(Streams { places, calls }))
        }
    }

    // Takes in the calls of a request after the others. One for which there is no room comes back.
    fn take_in(&mut self, demand: Demand) -> Result<Waiting, Demand>
        requires numbers { All AreNumbers self.old.calls.items }
        requires more { All AreNumbers (calls_asked demand) }
        ensures numbers { All AreNumbers self.new.calls.items }
        ensures ok { IfOk result (λ waiting. WaitsFor demand waiting
            × (self.new.calls.items ≡ self.old.calls.items ++ calls_asked demand)) }
        ensures err { IfErr result (λ back. SameCalls demand back
            × (self.new.calls.items ≡ self.old.calls.items)) }
        ensures outcomes { self.new.outcomes.items ≡ self.old.outcomes.items }
    {
        match demand {
            Demand::Nothing(why) => Ok(Waiting::Nothing(why)),
            Demand::One(call) => self.take_call(call),
            Demand::Streams(streams) => self.take_streams(streams),
        }
    }

    // The answer to the request whose calls stand last, by what came of them, which goes with it.
    fn tell(&mut self, alloc: Global, waiting: Waiting) -> Result<Answer, NoAnswer>
        requires there { awaited waiting ≤ deque_len self.old.outcomes }
        ensures told { IsAnsweredBy waiting
            (drop (deque_len self.old.outcomes - awaited waiting) self.old.outcomes.items) result }
        ensures left { self.new.outcomes.items
            ≡ take (deque_len self.old.outcomes - awaited waiting) self.old.outcomes.items }
        ensures calls { self.new.calls ≡ self.old.calls }
    {
        match waiting {
            Waiting::Nothing(why) => answer_of_uncalled(alloc, why),
            Waiting::One => {
                let Some(outcome) = self.outcomes.pop_back() else {
                    unreachable!()
                };
                answer_of_one(alloc, outcome)
            }
            Waiting::Streams(TakenStreams { places, calls }) => {
                let first = self.outcomes.len() - calls;
                let answered = answer_of_streams(alloc, places.as_slice(), &self.outcomes, first);
                self.outcomes.truncate(first);
                answered
            }
        }
    }
}

// Answers a request of each connection, after the calls that stand in the window: all are made together. What came of
// those that stood there is left in the window.
fn answer_each<S: Calls, R: Wait, C: Clock, T: KeepsConnection + Drop>(
    rt: &R,
    alloc: Global,
    service: &S,
    pass: &mut S::Pass,
    clock: &mut C,
    connections: &mut VecDeque<T>,
    workspace: &mut Workspace,
)
    requires pass { S.is_ready service.now pass.old }
    requires fresh { workspace.old.window.outcomes.items ≡ [] }
    requires numbers { All AreNumbers workspace.old.window.calls.items }
    ensures pass { S.is_ready service.now pass.new }
    ensures gathered { AreGathered (S.gives service.now) C.ticks (world pass.old clock.old)
        workspace.old.window.calls.items (map T.kept connections.old.items)
        workspace.new.window.outcomes.items (world pass.new clock.new)
        (map T.kept connections.new.items) }
    ensures made { workspace.new.window.calls.items ≡ [] }
    ensures room { (deque_len connections.new ≡ deque_len connections.old)
        × (deque_capacity connections.new ≡ deque_capacity connections.old) }
{
    let Some(first) = connections.pop_front() else {
        workspace.window.make(rt, alloc, service, pass);
        return;
    };
    let mut connection = first.into_connection();
    match connection.begin(alloc, clock, &mut workspace.outgoing) {
        None => answer_each(rt, alloc, service, pass, clock, connections, workspace),
        Some((message, demand)) => match workspace.window.take_in(demand) {
            Ok(waiting) => {
                answer_each(rt, alloc, service, pass, clock, connections, workspace);
                let answered = workspace.window.tell(alloc, waiting);
                connection.end(alloc, &mut workspace.outgoing, message, answered);
            }
            Err(demand) => {
                workspace.window.make(rt, alloc, service, pass);
                let answered = make_calls(rt, alloc, service, pass, demand);
                connection.end(alloc, &mut workspace.outgoing, message, answered);
                let made = mem::replace(&mut workspace.window, Window::new(alloc));
                answer_each(rt, alloc, service, pass, clock, connections, workspace);
                workspace.window = made;
            }
        },
    }
    connections.push_front_reserved(T::of_connection(connection));
}

/// Visits each connection once, in their order: answers the request that stands at its front, where one has come whole.
/// The calls of all these requests are made together, up to 64 at once, in the order of the connections; a request that
/// finds no room among those before it is made after them. Each answer is put to be sent once the calls of its own
/// request have come back: a failure is told to the requests whose calls failed, and to no other. Where a call is in
/// doubt, those made together with it that come after it may be, too.
///
/// A connection whose answer closes it, or for whose answer there was no memory, ends once its text is sent. The answer
/// of a failure needs no memory where nothing else waits to be sent.
pub fn answer_connections<S: Calls, R: Wait, C: Clock, T: KeepsConnection + Drop>(
    rt: &R,
    alloc: Global,
    service: &S,
    pass: &mut S::Pass,
    clock: &mut C,
    connections: &mut VecDeque<T>,
    workspace: &mut Workspace,
)
    requires pass { S.is_ready service.now pass.old }
    ensures pass { S.is_ready service.now pass.new }
    ensures visits { (doubt : Bool) × AreVisitedSo (S.gives service.now) C.ticks
        (world (known pass.old false) clock.old) (map T.kept connections.old.items)
        (world (known pass.new doubt) clock.new) (map T.kept connections.new.items) }
    ensures room { (deque_len connections.new ≡ deque_len connections.old)
        × (deque_capacity connections.new ≡ deque_capacity connections.old) }
{
    workspace.window.clear();
    answer_each(rt, alloc, service, pass, clock, connections, workspace);
}
