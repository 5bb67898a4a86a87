//! Each function does nothing: its contract is a law.
ghost use Rattle.std.specs.Prelude.{◌≡◌, ◌++◌, ℕ, Bool, List, OnOk};
ghost use Rattle.history.specs.Handles.{Passed};
ghost use Rattle.answering.specs.Serving.{Exchange, World};
ghost use Rattle.talks.specs.Sockets.{SocketCall, heard_in, said_in};
ghost use Rattle.talks.specs.Talks.{IsOfTalk};
ghost use Rattle.front.specs.Laws.{MakesItsCalls, MakesItsFirstCalls, MakesTheirCalls, AnswersAfterSteps};
ghost use Rattle.front.specs.Sessions.{session_seen, WasVisited};
ghost use Rattle.front.specs.Visits.{Line, Visit, IsVisited, IsVisitedLine, bytes_of};
ghost use Rattle.front.specs.declared.connections.KeptConnection.{KeptConnection};

use answering::Clock;

/// The law of steps: what a pass has made once requests were served is what it had made, and then a step
/// for each of their calls that got a reply, in their order, with the reply that the answer was made of; of
/// a request in which a call failed, or that was given up for want of memory, a step for each of its first
/// streams that got one.
pub fn one_step_a_call<C: Clock>()
    ensures each { (bytes : List ℕ) (w : World Passed C) (e : Exchange)
        (rest : List ℕ)
        (w' : World Passed C) → MakesItsCalls C.ticks bytes w e rest w' }
    ensures left { (bytes : List ℕ) (w w' : World Passed C)
        → MakesItsFirstCalls C.ticks bytes w w' }
    ensures all { (bytes : List ℕ) (w : World Passed C) (es : List Exchange)
        (rest : List ℕ)
        (w' : World Passed C) → MakesTheirCalls C.ticks bytes w es rest w' }
{}

/// The law of order: what a visit puts to be sent are the responses to requests that have come, and the pass has made a
/// step for each of their calls that got a reply, and no other. So when it is sent, these steps are there.
pub fn answers_after_steps<C: Clock>()
    ensures { (v : Visit C) → IsVisited C.ticks v
        → OnOk v.result (AnswersAfterSteps v.before.knows.knows v.after.knows.knows v.text) }
{}

/// What a socket of the server took of a connection is a beginning of what visits of it put to be sent. Each visit
/// began with what the one before it left of the bytes that had come, and with all that came since. After one that ends
/// the connection, what came was dropped.
pub fn sockets_say_what_visits_put<C: Clock>()
    ensures { (kept : KeptConnection C) (over : Bool) (calls : List SocketCall)
        → IsOfTalk (λ k. session_seen k.connection)
        (λ old new. WasVisited C.ticks old.connection new.connection) kept over calls
        → (line : Line C) × IsVisitedLine C.ticks line × (line.sent ≡ said_in calls)
        × ((dropped : List ℕ) × (heard_in calls ≡ bytes_of line ++ dropped)) }
{}
