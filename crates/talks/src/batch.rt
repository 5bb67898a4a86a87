//! Sessions that are visited together.
ghost use Rattle.std.specs.Prelude.{◌≡◌, ◌+◌, ◌<◌, ◌≤◌, false, [], MatchOption, IsTrue};
ghost use Rattle.std.specs.List.{AllZip};
ghost use Rattle.std.specs.VecDeque.{deque_len, deque_capacity};
ghost use Rattle.talks.specs.Batches.{IsSessionOf, MayBeVisited};
ghost use Rattle.talks.specs.Talks.{Visits};
ghost use Rattle.talks.specs.declared.serve.TheConstants.{BATCH};

use crate::serve::{BATCH, Serve};
use crate::session::Session;
use crate::socket::Socket;
use crate::talk::Talk;
use std::alloc::{AllocError, Global};
use std::collections::VecDeque;
use std::sync::Wait;

/// How many bytes may have come of the sessions in a batch before one more is added. So a worker answers long requests
/// one at a time, and has the memory of one.
const MOST_HELD: usize = 262_144;

/// What is left of a talk while its session is visited.
#[derive(Drop)]
pub(crate) struct Lent {
    /// Which connection it is.
    key: usize,
    /// How many bytes were to be sent before.
    unsent: usize,
    socket: Socket,
    over: bool,
}

/// Sessions that are to be visited together, and beside each what is left of its talk.
#[derive(Drop)]
pub struct Batch<T: Session + Drop> {
    sessions: VecDeque<T>,
    lent: VecDeque<Lent>,
    /// How many bytes have come of them that are not answered.
    held: usize,
    ghost few: { deque_len sessions ≤ BATCH },
    ghost talked: { ∥ AllZip (MayBeVisited T.seen T.visited) sessions.items lent.items ∥₁ },
}

/// The sessions of a batch after their visit, and beside each what is left of its talk.
#[derive(Drop)]
pub struct VisitedBatch<T: Session + Drop> {
    sessions: VecDeque<T>,
    lent: VecDeque<Lent>,
    ghost talked: { ∥ AllZip (IsSessionOf T.seen T.visited) sessions.items lent.items ∥₁ },
}

/// A talk whose session was visited.
#[derive(Drop)]
pub struct Returned<T: Session + Drop> {
    /// Which connection it is.
    pub key: usize,
    pub talk: Talk<T>,
    /// Whether there is more to be sent than before.
    pub answered: bool,
}

impl<T: Session + Drop> Batch<T> {
    /// No sessions, and memory for one: so each can be visited, alone where there is no memory for more.
    ///
    /// # Errors
    /// Want of memory.
    pub fn new(alloc: Global) -> Result<Batch<T>, AllocError> {
        let sessions = VecDeque::with_capacity(alloc, 1)?;
        let lent = VecDeque::with_capacity(alloc, 1)?;
        Ok(Batch {
            sessions,
            lent,
            held: 0,
        })
    }

    /// Whether it has no session.
    pub fn is_empty(&self) -> bool {
        self.sessions.is_empty()
    }

    /// Whether one more may be added. Makes room for it.
    pub fn has_room(&mut self) -> bool
        ensures few { IsTrue result → deque_len self.new.sessions < BATCH }
        ensures room { IsTrue result → deque_len self.new.sessions < deque_capacity self.new.sessions }
        ensures beside { IsTrue result → deque_len self.new.lent < deque_capacity self.new.lent }
    {
        self.held < MOST_HELD
            && self.sessions.len() < BATCH
            && self.sessions.reserve(1).is_ok()
            && self.lent.reserve(1).is_ok()
    }

    /// Takes the session of a connection that goes on.
    pub fn lend(&mut self, key: usize, talk: Talk<T>)
        requires few { deque_len self.old.sessions < BATCH }
        requires room { deque_len self.old.sessions < deque_capacity self.old.sessions }
        requires beside { deque_len self.old.lent < deque_capacity self.old.lent }
        requires goes_on { (T.seen talk.session).closes ≡ false }
    {
        let Talk {
            socket,
            session,
            over,
        } = talk;
        let unsent = session.text().len();
        self.held = self.held.saturating_add(session.held());
        let lent = Lent {
            key,
            unsent,
            socket,
            over,
        };
        self.sessions.push_back_reserved(session);
        self.lent.push_back_reserved(lent);
    }

    /// Answers a request of each, where one has come.
    pub fn visit<I, P, S: Serve<I, P, Session = T>, R: Wait>(
        self,
        rt: &R,
        alloc: Global,
        service: &I,
        pass: &mut P,
        server: &mut S,
    ) -> VisitedBatch<T>
        requires { S.is_pass_of service.now pass.old }
        ensures pass { S.is_pass_of service.now pass.new }
        ensures visits { Visits S.visits service.now server.old pass.old server.new pass.new }
    {
        let Batch {
            mut sessions,
            lent,
            ..
        } = self;
        server.visit_all(rt, alloc, service, pass, &mut sessions);
        VisitedBatch { sessions, lent }
    }
}

impl<T: Session + Drop> VisitedBatch<T> {
    /// The first talk, with its session again.
    pub fn next(&mut self) -> Option<Returned<T>>
        ensures { MatchOption result (self.new.sessions.items ≡ [])
            (λ _. deque_len self.new.sessions + 1 ≡ deque_len self.old.sessions) }
    {
        let session = self.sessions.pop_front()?;
        let Some(lent) = self.lent.pop_front() else {
            unreachable!()
        };
        let Lent {
            key,
            unsent,
            socket,
            over,
        } = lent;
        let answered = session.text().len() > unsent;
        let talk = Talk {
            socket,
            session,
            over,
        };
        Some(Returned {
            key,
            talk,
            answered,
        })
    }

    /// No sessions, and the memory of these, where each was given back.
    pub fn into_batch(self) -> Batch<T>
        requires { self.sessions.items ≡ [] }
    {
        let VisitedBatch { sessions, lent } = self;
        Batch {
            sessions,
            lent,
            held: 0,
        }
    }
}
