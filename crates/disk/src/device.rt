ghost use Rattle.std.specs.Prelude.{◌≡◌, ◌≢◌, ◌≤◌, ℕ, List, length, IfOk, OnOk};
ghost use Rattle.disk.specs.Sight.{Sight, Holds, Reads, IsSynced, Looks, Writes, Counts};

use thiserror::Error;

/// The device failed. A write that failed may have done any part of its work.
#[derive(Clone, Copy, Debug, Error)]
#[error("device failed")]
pub struct DeviceFault;

/// Counts a failure of a disk, for the call that answers with this fault.
pub fn failed(failures: &mut u64) -> DeviceFault
    ensures { failures.new ≢ failures.old }
{
    *failures = failures.wrapping_add(1);
    DeviceFault
}

/// A device that holds bytes, from place 0 on without a gap.
///
/// What its calls promise of the bytes holds as long as the disk has followed the model so far. That an error comes
/// exactly where the count of failures changes holds without that premise. The count changes, and need not rise: a
/// number that a machine holds cannot rise for ever.
pub trait Disk {
    /// This disk has followed the model so far.
    ghost follows: { Self → Type 0 };

    /// What the disk is at this moment.
    ghost sight: { Self → Sight };

    /// Reads the bytes from place `at` on that fit into `buf`, and returns how many there were: fewer only at the end.
    fn read(&mut self, at: u64, buf: &mut [u8]) -> Result<usize, DeviceFault>
        ensures before { follows self.new → follows self.old }
        ensures bytes { IfOk result (λ n. follows self.new
            → Reads (sight self.old).seen at n buf.old buf.new) }
        ensures looks { follows self.new → Looks (sight self.old) (sight self.new) }
        ensures counts { Counts result (sight self.old).failures (sight self.new).failures };

    /// Writes over what is there, and past the end. A write that fails may have done any part of it. Of a write that
    /// begins past the end nothing is promised.
    fn write_at(&mut self, at: u64, bytes: &[u8]) -> Result<(), DeviceFault>
        ensures before { follows self.new → follows self.old }
        ensures written { OnOk result (follows self.new → at ≤ length (sight self.old).seen
            → Holds (sight self.old).seen at bytes.now (sight self.new).seen) }
        ensures writes { follows self.new → at ≤ length (sight self.old).seen
            → Writes at (length bytes.now) (sight self.old) (sight self.new) }
        ensures counts { Counts result (sight self.old).failures (sight self.new).failures };

    /// After a sync, a crash leaves what a read gives. After a sync that fails, it leaves what it could leave before.
    fn sync(&mut self) -> Result<(), DeviceFault>
        ensures before { follows self.new → follows self.old }
        ensures synced { OnOk result (follows self.new → IsSynced (sight self.new)) }
        ensures looks { follows self.new → Looks (sight self.old) (sight self.new) }
        ensures counts { Counts result (sight self.old).failures (sight self.new).failures };

    /// How many bytes there are.
    fn len(&mut self) -> Result<u64, DeviceFault>
        ensures before { follows self.new → follows self.old }
        ensures length { IfOk result (λ n. follows self.new → n ≡ length (sight self.old).seen) }
        ensures looks { follows self.new → Looks (sight self.old) (sight self.new) }
        ensures counts { Counts result (sight self.old).failures (sight self.new).failures };

    /// What a crash may leave now, it might have left since any earlier moment.
    ghost counts_now: { (disk : Self) (t : ℕ) (c : List ℕ) → follows disk
        → t ≤ (sight disk).moment → (sight disk).may_leave c → (sight disk).left_since t c };

    /// Since this moment it leaves nothing else.
    ghost only_now: { (disk : Self) (c : List ℕ) → follows disk
        → (sight disk).left_since (sight disk).moment c → (sight disk).may_leave c };

    /// What a read gives is one of the contents that a crash may leave.
    ghost seen_may_stay: { (disk : Self) → follows disk
        → (sight disk).may_leave (sight disk).seen };
}
