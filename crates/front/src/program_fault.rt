//! What stops a program.
ghost use Rattle.std.specs.Prelude.{◌≡◌, ◌≢◌, ◌≤◌};
ghost use Rattle.front.specs.declared.program_fault.ProgramFault.TheVariants as stops;

use accept::CallFault;
use ingester::OpenFault;
use programs::SlotsFault;
use requests::failure_body;
use std::alloc::AllocError;
use thiserror::Error;
use workers::WorkersFault;

/// What stops a program, as its line of standard error says.
#[derive(Debug, Drop, Error)]
pub enum ProgramFault {
    #[error("cannot read body")]
    Body,
    #[error(transparent)]
    Slots(#[from] SlotsFault),
    #[error("{0}")]
    Opening(OpenFault),
    #[error("cannot listen")]
    Listen,
    #[error(transparent)]
    Serving(#[from] WorkersFault),
    #[error("{}", failure_body(*.0))]
    Call(CallFault),
    #[error("out of memory")]
    Memory,
    #[error("cannot write")]
    Output,
}

impl ProgramFault {
    ghost use Rattle.front.specs.Stops.{stop_status};

    /// The exit status: 3 for a refused opening or a folder that is no whole log of the number of shards, else 1.
    pub fn status(&self) -> u8
        ensures cause { result ≡ stop_status self.now }
        ensures some { result ≢ 2 }
        ensures few { result ≤ 3 }
    {
        match self {
            ProgramFault::Opening(_) => 3,
            ProgramFault::Slots(SlotsFault::Missing(_) | SlotsFault::LeftOut { .. }) => 3,
            _ => 1,
        }
    }
}

impl From<AllocError> for ProgramFault {
    ghost from_gives = { λ _ stop. stop ≡ stops.Memory };

    fn from(_refused: AllocError) -> ProgramFault {
        ProgramFault::Memory
    }
}
