ghost use Rattle.std.specs.Prelude.{◌≡◌};
ghost use Rattle.ingester.specs.Faults.{fault_of};

use accept::CallFault;
use shard::ApplyFault;

// Why a call has no reply that a shard gave back.
pub(crate) fn fault_of(cause: ApplyFault) -> CallFault
    ensures { result ≡ fault_of cause }
{
    match cause {
        ApplyFault::Memory => CallFault::Memory,
        ApplyFault::GenerationSpent => CallFault::LogSpent,
    }
}
