//! A socket with the session that answers it.
ghost use Rattle.std.specs.Prelude.{◌≡◌};
ghost use Rattle.talks.specs.Talks.{HasNothing, IsOfTalk};

use crate::session::Session;
use crate::socket::{NewSocket, Socket, Stalled};
use mio::{Interest, Poll, Token};
use std::alloc::Global;
use std::net::Shutdown;

/// A socket, and the session of all that came from it. What it took is what the session had to say, in its order, and
/// nothing twice; what the session had to say is what visits of it put there. Once it is over, what comes is dropped.
#[derive(Drop)]
pub struct Talk<T: Session + Drop> {
    pub(crate) socket: Socket,
    pub(crate) session: T,
    pub(crate) over: bool,
    ghost talked: { ∥ IsOfTalk T.seen T.visited session over socket.noted.calls ∥₁ },
}

impl<T: Session + Drop> Talk<T> {
    /// Nothing has come yet.
    pub fn new(new: NewSocket, session: T) -> Talk<T>
        requires { HasNothing (T.seen session) }
    {
        Talk {
            socket: new.socket,
            session,
            over: false,
        }
    }

    /// Takes in what has come, as much as may come before the next visit and there is space for. It gives 0 only at the
    /// end.
    pub(crate) fn receive(&mut self, space: &mut [u8]) -> Result<usize, Stalled> {
        let most = self.session.room().min(space.len());
        if most == 0 || self.over {
            return Err(Stalled::Failed);
        }
        let space = &mut space[..most];
        let count = self.socket.read_some(space)?;
        if self.session.take_in(&space[..count]) {
            return Ok(count);
        }
        self.over = true;
        Err(Stalled::Failed)
    }

    /// Reads what still comes, and drops it.
    pub(crate) fn drop_some(&mut self, space: &mut [u8]) -> Result<usize, Stalled> {
        self.over = true;
        self.socket.read_some(space)
    }

    /// Sends a beginning of what is to be sent.
    pub(crate) fn send_some(&mut self) -> Result<usize, Stalled> {
        let count = self.socket.write_some(self.session.text())?;
        self.session.sent(count);
        Ok(count)
    }

    /// Has a poll tell, under this number, when bytes may have come or may be sent. Whether it will.
    pub fn register(&mut self, poll: &Poll, number: usize) -> bool
        ensures session { self.new.session ≡ self.old.session }
        ensures over { self.new.over ≡ self.old.over }
        ensures noted { self.new.socket.noted ≡ self.old.socket.noted }
    {
        let stream = &mut self.socket.stream;
        let both = Interest::READABLE | Interest::WRITABLE;
        poll.registry()
            .register(stream, Token(number), both)
            .is_ok()
    }

    /// Tells the other end that nothing more is sent.
    pub(crate) fn hang_up(&self) {
        let _ = self.socket.stream.shutdown(Shutdown::Write);
    }

    /// Lets go of memory, where nothing has come that is not answered, and nothing is to be sent.
    pub(crate) fn rest(&mut self, alloc: Global) {
        let session = &self.session;
        if session.held() == 0 && session.text().is_empty() && !session.closes() {
            self.session = T::open(alloc);
        }
    }
}
