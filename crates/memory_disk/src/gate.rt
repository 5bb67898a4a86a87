ghost use Rattle.std.specs.Prelude.{◌≡◌, IfOk};
ghost use Rattle.disk.specs.Sight.{Sight};
ghost use Rattle.memory_disk.specs.GateDisk.{more_failures};

use disk::{DeviceFault, Disk, failed};
use std::alloc::{AllocError, Global};
use std::sync::Arc;
use std::sync::atomic::{AtomicBool, Ordering};

/// How many turns a sync waits at a closed gate before it fails. Each turn is a fixed number of loads.
const TURNS: u32 = 10_000;

const LOADS: u32 = 100_000;

/// A gate that holds the syncs of a `GateDisk` while it is closed. Threads share it by `try_clone`.
#[derive(Drop)]
pub struct Gate {
    is_open: Arc<AtomicBool, Global>,
}

impl Gate {
    /// An open gate.
    pub fn new(alloc: Global) -> Result<Gate, AllocError> {
        Ok(Gate {
            is_open: Arc::new(alloc, AtomicBool::new(true))?,
        })
    }

    /// Another handle on the same gate.
    pub fn try_clone(&self) -> Result<Gate, AllocError> {
        Ok(Gate {
            is_open: Arc::try_clone(&self.is_open)?,
        })
    }

    /// Lets syncs go on, the waiting ones too.
    pub fn open(&self) {
        self.is_open.store(true, Ordering::SeqCst);
    }

    /// Holds each later sync.
    pub fn close(&self) {
        self.is_open.store(false, Ordering::SeqCst);
    }

    // Waits for the gate for some turns, and says whether it opened.
    fn opens_in_time(&self) -> bool {
        for _ in 0..TURNS {
            for _ in 0..LOADS {
                if self.is_open.load(Ordering::SeqCst) {
                    return true;
                }
            }
        }
        false
    }
}

/// A disk whose syncs wait while a gate is closed, for tests of what other threads do meanwhile. A sync that waits for
/// 10,000 turns, each of 100,000 loads of the gate, fails without a call on the inner disk.
#[derive(Drop)]
pub struct GateDisk<D: Disk> {
    inner: D,
    gate: Gate,
    failures: u64,
}

impl<D: Disk> GateDisk<D> {
    ghost use Rattle.memory_disk.specs.GateDisk.{inner_of, own_failures};

    /// This disk with a gate for its syncs.
    pub fn new(inner: D, gate: Gate) -> GateDisk<D>
        ensures inner { inner_of result ≡ inner }
        ensures failures { own_failures result ≡ 0 }
    {
        GateDisk {
            inner,
            gate,
            failures: 0,
        }
    }

    /// The disk without its gate.
    pub fn into_inner(self) -> D
        ensures { result ≡ inner_of self }
    {
        let GateDisk {
            inner,
            gate: _,
            failures: _,
        } = self;
        inner
    }
}

impl<D: Disk> Disk for GateDisk<D> {
    ghost follows = { λ g. D.follows g.inner };

    ghost sight = { λ g. more_failures (D.sight g.inner) g.failures };

    ghost counts_now = { λ g t c follows le image. D.counts_now g.inner t c follows le image };

    ghost only_now = { λ g c follows left. D.only_now g.inner c follows left };

    ghost seen_may_stay = { λ g follows. D.seen_may_stay g.inner follows };

    fn read(&mut self, at: u64, buf: &mut [u8]) -> Result<usize, DeviceFault> {
        self.inner.read(at, buf)
    }

    fn write_at(&mut self, at: u64, bytes: &[u8]) -> Result<(), DeviceFault> {
        self.inner.write_at(at, bytes)
    }

    fn sync(&mut self) -> Result<(), DeviceFault> {
        if !self.gate.opens_in_time() {
            return Err(failed(&mut self.failures));
        }
        self.inner.sync()
    }

    fn len(&mut self) -> Result<u64, DeviceFault> {
        self.inner.len()
    }
}
