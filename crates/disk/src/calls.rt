//! The four calls of the system on a file, each with its note. What a reader has to trust is this: `read_some`,
//! `write_some`, `sync_once` and `measure` each make one call of the system, and return what it answered. It is proved
//! that they note exactly this, and what that means for the file.
ghost use Rattle.std.specs.Prelude.{◌≡◌, ◌≤◌, ◌<◌, ◌+◌, ℕ, List, [], ◌∷◌, length, take, IfOk, OnOk, OnErr, IsErrOf};
ghost use Rattle.std.specs.Borrow.{ftrue};
ghost use Rattle.disk.specs.Calls.{Call, Start, Read, Wrote, Broke, Synced, Measured, Interrupted, Refused};
ghost use Rattle.disk.specs.Calls.{call_of, IsRead};

use std::fs::File;
use std::io;
use std::io::ErrorKind;
use std::marker::{Model, PhantomData};
use std::os::unix::fs::FileExt;

const READ: u64 = 0;

const WROTE: u64 = 1;

const BROKE: u64 = 2;

const SYNCED: u64 = 3;

const MEASURED: u64 = 4;

const INTERRUPTED: u64 = 5;

const REFUSED: u64 = 6;

/// The calls that were made on a file, the last first; the state that the file was in before them; and what each failed
/// write leaves. It holds no byte: only clauses read it.
#[derive(Drop)]
pub struct CallRecord {
    marker: PhantomData<u8>,
    pub ghost start: { Start },
    pub ghost calls: { List Call },
}

impl Model for CallRecord {
    ghost also_owns = { λ _. ftrue };
}

// It owns nothing.
unsafe impl Send for CallRecord {}

impl CallRecord {
    // A record with no call, from any start.
    fn new() -> CallRecord
        ghost start: { Start }
        ensures { (result.start ≡ start) × (result.calls ≡ []) }
    {
        CallRecord {
            marker: PhantomData,
        }
    }

    // Notes a call. The numbers are its kind, its place and a count.
    fn note(&mut self, _numbers: &[u64], _bytes: &[u8])
        ensures { (self.new.start ≡ self.old.start)
            × (self.new.calls ≡ call_of _numbers.now _bytes.now ∷ self.old.calls) }
    {}
}

/// Why a read or a write transferred nothing.
#[derive(Clone, Copy)]
pub enum NoTransfer {
    /// It did nothing, and will be tried again.
    Interrupted,
    Failed,
}

/// A file with the record of its calls, and why the last one failed that the system refused.
#[derive(Drop)]
pub struct NotedFile {
    file: File,
    cause: Option<io::Error>,
    pub noted: CallRecord,
}

impl NotedFile {
    ghost use Rattle.disk.specs.CallRecord.{HasFollowed, OnlyAsks, Goes, WritesSoFar, sight_by};
    ghost use Rattle.disk.specs.Sight.{IsSynced, Looks};

    /// A file in any state. No call was made on it yet.
    pub fn new(file: File) -> NotedFile
        ghost start: { Start }
        ensures { (result.noted.start ≡ start) × (result.noted.calls ≡ []) }
    {
        NotedFile {
            file,
            cause: None,
            noted: CallRecord::new(),
        }
    }

    /// The system's error at the last call that it refused, where it refused one.
    pub fn cause(&self) -> Option<io::Error> {
        self.cause
    }

    /// Reads at a place. The system may give fewer bytes than fit. It gives none only at the end.
    pub fn read_some(&mut self, at: u64, buf: &mut [u8]) -> Result<usize, NoTransfer>
        ensures noted { length self.new.noted.calls ≡ length self.old.noted.calls + 1 }
        ensures ok { IfOk result (λ n.
            self.new.noted.calls ≡ Read at (length buf.old)
            (take n buf.new) ∷ self.old.noted.calls) }
        ensures interrupted { IsErrOf result NoTransfer.Interrupted
            → self.new.noted.calls ≡ Interrupted ∷ self.old.noted.calls }
        ensures failed { IsErrOf result NoTransfer.Failed
            → self.new.noted.calls ≡ Refused ∷ self.old.noted.calls }
        ensures within { IfOk result (λ n. n ≤ length buf.old) }
        ensures bytes { IfOk result (λ n. HasFollowed self.new.noted
            → IsRead (sight_by self.old.noted 0).seen at (length buf.old) (take n buf.new)) }
        ensures asks { OnlyAsks self.old.noted self.new.noted }
    {
        match self.file.read_at(buf, at) {
            Ok(n) => {
                self.noted.note(&[READ, at, buf.len() as u64], &buf[..n]);
                Ok(n)
            }
            Err(error) if error.kind() == ErrorKind::Interrupted => {
                self.noted.note(&[INTERRUPTED, 0, 0], &[]);
                Err(NoTransfer::Interrupted)
            }
            Err(error) => {
                self.cause = Some(error);
                self.noted.note(&[REFUSED, 0, 0], &[]);
                Err(NoTransfer::Failed)
            }
        }
    }

    /// Writes at a place. The system may take fewer bytes than there are, or none.
    pub fn write_some(&mut self, at: u64, bytes: &[u8]) -> Result<usize, NoTransfer>
        ensures noted { length self.new.noted.calls ≡ length self.old.noted.calls + 1 }
        ensures ok { IfOk result (λ n. self.new.noted.calls
            ≡ Wrote at n bytes.now ∷ self.old.noted.calls) }
        ensures interrupted { IsErrOf result NoTransfer.Interrupted
            → self.new.noted.calls ≡ Interrupted ∷ self.old.noted.calls }
        ensures failed { IsErrOf result NoTransfer.Failed
            → self.new.noted.calls ≡ Broke at bytes.now ∷ self.old.noted.calls }
        ensures before { HasFollowed self.new.noted → HasFollowed self.old.noted }
        ensures within { IfOk result (λ n. n ≤ length bytes.now) }
        ensures written { IfOk result (λ n. (old new : ℕ) → HasFollowed self.new.noted
            → at ≤ length (sight_by self.old.noted 0).seen
            → WritesSoFar at n bytes.now (sight_by self.old.noted old)
            (sight_by self.new.noted new)) }
        ensures asks { IsErrOf result NoTransfer.Interrupted → OnlyAsks self.old.noted self.new.noted }
        ensures broke { OnErr result ((old new : ℕ) → HasFollowed self.new.noted
            → at ≤ length (sight_by self.old.noted 0).seen
            → Goes at (length bytes.now) (sight_by self.old.noted old)
            (sight_by self.new.noted new)) }
    {
        match self.file.write_at(bytes, at) {
            Ok(n) => {
                self.noted.note(&[WROTE, at, n as u64], bytes);
                Ok(n)
            }
            Err(error) if error.kind() == ErrorKind::Interrupted => {
                self.noted.note(&[INTERRUPTED, 0, 0], &[]);
                Err(NoTransfer::Interrupted)
            }
            Err(error) => {
                self.cause = Some(error);
                self.noted.note(&[BROKE, at, 0], bytes);
                Err(NoTransfer::Failed)
            }
        }
    }

    /// Syncs the file's bytes and its length.
    pub fn sync_once(&mut self) -> io::Result<()>
        ensures noted { length self.new.noted.calls ≡ length self.old.noted.calls + 1 }
        ensures ok { OnOk result (self.new.noted.calls ≡ Synced ∷ self.old.noted.calls) }
        ensures err { OnErr result (self.new.noted.calls ≡ Refused ∷ self.old.noted.calls) }
        ensures before { HasFollowed self.new.noted → HasFollowed self.old.noted }
        ensures synced { OnOk result ((failures : ℕ)
            → IsSynced (sight_by self.new.noted failures)) }
        ensures looks { (old new : ℕ) → HasFollowed self.new.noted
            → Looks (sight_by self.old.noted old) (sight_by self.new.noted new) }
    {
        match self.file.sync_data() {
            Ok(()) => {
                self.noted.note(&[SYNCED, 0, 0], &[]);
                Ok(())
            }
            Err(error) => {
                self.cause = Some(error);
                self.noted.note(&[REFUSED, 0, 0], &[]);
                Err(error)
            }
        }
    }

    /// Asks for the length.
    pub fn measure(&mut self) -> io::Result<u64>
        ensures noted { length self.new.noted.calls ≡ length self.old.noted.calls + 1 }
        ensures ok { IfOk result (λ n. self.new.noted.calls ≡ Measured n ∷ self.old.noted.calls) }
        ensures err { OnErr result (self.new.noted.calls ≡ Refused ∷ self.old.noted.calls) }
        ensures length { IfOk result (λ n. HasFollowed self.new.noted
            → n ≡ length (sight_by self.old.noted 0).seen) }
        ensures asks { OnlyAsks self.old.noted self.new.noted }
    {
        match self.file.metadata() {
            Ok(metadata) => {
                let len = metadata.len();
                self.noted.note(&[MEASURED, len, 0], &[]);
                Ok(len)
            }
            Err(error) => {
                self.cause = Some(error);
                self.noted.note(&[REFUSED, 0, 0], &[]);
                Err(error)
            }
        }
    }
}
