ghost use Rattle.std.specs.Prelude.{◌≡◌, ◌≤◌, [], IfOk, All};
ghost use Rattle.accept.specs.Calls.{AreNumbers};
ghost use Rattle.accept.specs.Histories.{is_marked};
ghost use Rattle.wal.specs.Opening.{disks};
ghost use Rattle.history.specs.Histories.{max_passes};
ghost use Rattle.lone_shard.specs.Passes.{IsIdlePass};

use accept::{Call, Limits, Reply};
use anyhow::{Result, bail};
use disk::Disk;
use history::{History, Pass};
use shard::Shard;
use std::alloc::Global;
use wal::{Capacity, OpenFault, Wal};

/// The only shard of an opening over two slots, its history, and the one pass that makes its calls.
#[derive(Drop)]
pub struct LoneShard<D: Disk> {
    pub(crate) history: History,
    pub(crate) shard: Shard<D>,
    pub(crate) pass: Pass,
    ghost table: { (shard.book.table ≡ history) × (pass.table ≡ history) },
    ghost only: { (shard.book.about.shards ≡ 1) × (shard.book.shard ≡ 0)
        × (pass.caller.about.shards ≡ 1) },
    ghost idle: { pass.caller.pending ≡ [] },
}

/// Opens the shard, with this many passes: the last is its own, and the others come beside it.
pub(crate) fn opened<D: Disk + Drop>(
    alloc: Global,
    slots: [D; 2],
    limits: Limits,
    capacity: Capacity,
    passes: u32,
) -> Result<Result<(LoneShard<D>, Vec<Pass>), (OpenFault, [D; 2])>>
    requires passes { passes ≤ max_passes }
    ensures idle { IfOk result
        (λ opened. IfOk opened (λ it. All (IsIdlePass it.0.history) it.1.items)) }
{
    if !limits.are_lawful() {
        bail!("a limit is out of its bounds");
    }
    let (log, image) = match Wal::open(alloc, slots, 0, 1, capacity) {
        Ok(opened) => opened,
        Err(refusal) => return Ok(Err(refusal)),
    };
    let mut bases = vec![in alloc; image]?;
    let (history, mut books, mut others) = History::new(
        alloc,
        &bases,
        passes,
        limits,
        capacity.bytes(),
    )?;
    let (Some(book), Some(pass), Some(image)) = (books.pop(), others.pop(), bases.pop()) else {
        bail!("an opening of one shard has a book and a pass");
    };
    match Shard::open(alloc, log, image, book, limits) {
        Ok(shard) => {
            let lone = LoneShard {
                history,
                shard,
                pass,
            };
            Ok(Ok((lone, others)))
        }
        Err(_log) => bail!("out of memory"),
    }
}

impl<D: Disk + Drop> LoneShard<D> {
    /// Opens the shard in slot 0 and slot 1, with segments of at most this many bytes. A refusal says why, and gives
    /// the slots back.
    ///
    /// # Errors
    /// Limits that aren't lawful, or want of memory.
    pub fn open(
        alloc: Global,
        slots: [D; 2],
        limits: Limits,
        capacity: Capacity,
    ) -> Result<Result<LoneShard<D>, (OpenFault, [D; 2])>> {
        match opened(alloc, slots, limits, capacity, 1)? {
            Ok((lone, _)) => Ok(Ok(lone)),
            Err(refusal) => Ok(Err(refusal)),
        }
    }

    /// Makes a call from its announcement to its answer.
    ///
    /// # Errors
    /// Why it has no step.
    pub fn call(&mut self, alloc: Global, call: &Call) -> Result<Reply>
        requires numbers { AreNumbers call.now }
    {
        let ticket = self.history.announce(&mut self.pass, call)?;
        match self.shard.apply(alloc, ticket, call) {
            Ok((reply, receipt)) => {
                self.history.collect(&mut self.pass, receipt);
                Ok(reply)
            }
            Err((fault, ticket)) => {
                self.history.withdraw(&mut self.pass, ticket);
                Err(fault.into())
            }
        }
    }

    /// How many steps the history has. First it is compared with what the pass has seen.
    pub fn steps(&mut self) -> u64 {
        self.shard.settle(&mut self.pass);
        self.history.observe(&mut self.pass, 0)
    }

    /// Whether the history has a failure mark.
    pub fn is_marked(&self) -> bool
        ensures { result ≡ is_marked self.now.shard.book.items }
    {
        self.shard.is_marked()
    }

    /// Slot 0 and slot 1, as the calls left them.
    pub fn into_slots(self) -> [D; 2]
        ensures { result ≡ disks self.shard.log }
    {
        let LoneShard {
            history,
            shard,
            pass: _,
        } = self;
        shard.into_slots(&history.end())
    }
}
