//! What is kept of a connection.
ghost use Rattle.std.specs.Prelude.{◌≡◌, ◌≤◌, length, if◌then◌else◌};
ghost use Rattle.talks.specs.Talks.{HasNothing, with_heard, with_said};

use std::alloc::Global;

/// What is kept of a connection between visits. It does no input or output.
pub trait Session: Sized {
    ghost use Rattle.talks.specs.Talks.{Seen};

    /// What a worker sees of it.
    ghost seen: { Self → Seen };

    /// It was visited: some of the requests that had come were answered, and their answers are to be sent.
    ghost visited: { Self → Self → Type 0 };

    /// The session of a connection of which nothing has come.
    fn open(alloc: Global) -> Self
        ensures { HasNothing (seen result) };

    /// At most this many bytes may be taken in before the next visit.
    fn room(&self) -> usize
        ensures { result ≡ (seen self.now).room };

    /// How many bytes have come and are not yet answered.
    fn held(&self) -> usize
        ensures { result ≡ length (seen self.now).came };

    /// What is to be sent.
    fn text(&self) -> &[u8]
        ensures { result.now ≡ (seen self.now).text };

    /// Whether the connection ends once that is sent.
    fn closes(&self) -> bool
        ensures { result ≡ (seen self.now).closes };

    /// Takes in bytes that have come, or none where there is no memory. Tells which.
    fn take_in(&mut self, bytes: &[u8]) -> bool
        requires { length bytes.now ≤ (seen self.old).room }
        ensures { seen self.new ≡ (if result then with_heard bytes.now (seen self.old) else seen self.old) };

    /// The first `count` bytes of what is to be sent were sent.
    fn sent(&mut self, count: usize)
        requires { count ≤ length (seen self.old).text }
        ensures { seen self.new ≡ with_said count (seen self.old) };
}
