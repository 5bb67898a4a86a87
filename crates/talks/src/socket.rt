//! A connection's socket, with a record of what the system did with it. What a reader has to trust is this: `read_some`
//! and `write_some` each make one call of the system, and `of` two, and each notes what the system answered. How much the
//! system may hold of what is sent, which `of` sets too, is not noted: no clause depends on it.
ghost use Rattle.std.specs.Prelude.{◌≡◌, ◌≤◌, List, [], ◌∷◌, length, take, IfOk, OnErr};
ghost use Rattle.std.specs.Borrow.{ftrue};
ghost use Rattle.talks.specs.Sockets.{SocketCall, Heard, Said, NoDelay, NoWaiting, socket_call_of};

use libc::net as c;
use mio::net::TcpStream;
use std::io::{Error, ErrorKind, Read, Write};
use std::marker::{Model, PhantomData};
use std::net;
use std::os::fd::AsRawFd;

const HEARD: u64 = 0;

const SAID: u64 = 1;

const NO_DELAY: u64 = 2;

const NO_WAITING: u64 = 3;

/// How many bytes of answers the system may hold for a client; it takes twice as many for its own needs. By itself it
/// would hold megabytes, and a client that takes them slowly would seem silent for minutes.
const SEND_BUFFER: i32 = 262_144;

/// What the system did with a socket, the last first. It holds no byte: only clauses read it.
#[derive(Drop)]
pub struct SocketRecord {
    marker: PhantomData<u8>,
    pub ghost calls: { List SocketCall },
}

impl Model for SocketRecord {
    ghost also_owns = { λ _. ftrue };
}

// It owns nothing.
unsafe impl Send for SocketRecord {}

impl SocketRecord {
    // Nothing yet.
    fn new() -> SocketRecord
        ensures { result.calls ≡ [] }
    {
        SocketRecord {
            marker: PhantomData,
        }
    }

    // Notes what the system did. The number is its kind.
    fn note(&mut self, _numbers: &[u64], _bytes: &[u8])
        ensures { self.new.calls ≡ socket_call_of _numbers.now _bytes.now ∷ self.old.calls }
    {}
}

/// Why a read or a write moved nothing.
#[derive(Clone, Copy, PartialEq, Eq)]
pub enum Stalled {
    /// It would have to wait.
    Blocked,
    /// It did nothing, and may be tried again.
    Interrupted,
    Failed,
}

// Why the system moved nothing.
fn stop_of(error: &Error) -> Stalled {
    match error.kind() {
        ErrorKind::WouldBlock => Stalled::Blocked,
        ErrorKind::Interrupted => Stalled::Interrupted,
        _ => Stalled::Failed,
    }
}

/// A socket that sends at once and never waits.
#[derive(Drop)]
pub struct Socket {
    pub(crate) stream: TcpStream,
    pub noted: SocketRecord,
}

/// The socket of a connection of which nothing was read, and to which nothing was sent.
#[derive(Drop)]
pub struct NewSocket {
    pub(crate) socket: Socket,
    ghost set: { ∥ socket.noted.calls ≡ NoWaiting ∷ NoDelay ∷ [] ∥₁ },
}

impl NewSocket {
    /// The socket of a connection that was accepted. `None` where the system does not let it be such a socket.
    pub fn of(stream: net::TcpStream) -> Option<NewSocket> {
        let mut noted = SocketRecord::new();
        if stream.set_nodelay(true).is_err() {
            return None;
        }
        noted.note(&[NO_DELAY], &[]);
        if stream.set_nonblocking(true).is_err() {
            return None;
        }
        noted.note(&[NO_WAITING], &[]);
        let stream = TcpStream::from_std(stream);
        bound_sending(&stream);
        let socket = Socket { stream, noted };
        Some(NewSocket { socket })
    }
}

// Has the system hold no more than `SEND_BUFFER`. Where it doesn't, a client that takes its answers slowly may be closed
// as silent.
fn bound_sending(stream: &TcpStream) {
    let mut size = [0u8; 16];
    size[..4].copy_from_slice(&SEND_BUFFER.to_ne_bytes());
    let _ = unsafe { c::setsockopt(stream.as_raw_fd(), c::SOL_SOCKET, c::SO_SNDBUF, &size, 4) };
}

impl Socket {
    /// Reads what has come, as much as there is space for. It gives nothing only at the end.
    pub(crate) fn read_some(&mut self, space: &mut [u8]) -> Result<usize, Stalled>
        ensures within { IfOk result (λ n. n ≤ length space.new) }
        ensures heard { IfOk result (λ n. self.new.noted.calls ≡ Heard (take n space.new) ∷ self.old.noted.calls) }
        ensures err { OnErr result (self.new.noted.calls ≡ self.old.noted.calls) }
        ensures len { length space.new ≡ length space.old }
    {
        match self.stream.read(space) {
            Ok(count) => {
                self.noted.note(&[HEARD], &space[..count]);
                Ok(count)
            }
            Err(error) => Err(stop_of(&error)),
        }
    }

    /// Sends a beginning of a text.
    pub(crate) fn write_some(&mut self, text: &[u8]) -> Result<usize, Stalled>
        ensures within { IfOk result (λ n. n ≤ length text.now) }
        ensures said { IfOk result (λ n. self.new.noted.calls ≡ Said (take n text.now) ∷ self.old.noted.calls) }
        ensures err { OnErr result (self.new.noted.calls ≡ self.old.noted.calls) }
    {
        match self.stream.write(text) {
            Ok(count) => {
                self.noted.note(&[SAID], &text[..count]);
                Ok(count)
            }
            Err(error) => Err(stop_of(&error)),
        }
    }
}
