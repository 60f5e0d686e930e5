//! Files that may lose what was written since their last sync.
ghost use Rattle.std.specs.Prelude.{◌≡◌, ◌<◌, ◌≤◌, ◌+◌, ◌^◌, ℕ, Bool, IsTrue, length, take, drop, IfOk, OnOk, OnErr};
ghost use Rattle.outside_traits.specs.Disks.{OpensRange, Wrote, Synced, Unsynced};
ghost use Rattle.outside_traits.specs.CrashImages.{IsImage};
ghost use Rattle.outside_traits.specs.Moments.{History, TakesStep, Fails};
ghost use Rattle.outside_traits.specs.Faults.{HasCause, failed};

use crate::failed::Failed;

/// A file that may lose what was written since its last sync.
///
/// `is_known` is whether the states of disks of this type are known; where they are, `history` is the state now and those before it; `faults` is how many calls have failed.
/// What a crash may leave is `IsImage` of a state, the same for every disk.
pub trait Disk {
    ghost is_known: { Bool };

    ghost history: { Self → History };

    ghost faults: { Self → ℕ };

    /// How many bytes the file has.
    fn len(&mut self) -> Result<u64, Failed>
        ensures value { IfOk result (λ count. IsTrue is_known → count ≡ length (history self.old).now.reads) }
        ensures same { IsTrue is_known → history self.new ≡ history self.old }
        ensures cause { HasCause failed (faults self.old) (faults self.new) result };

    /// Fills `buf` with the bytes from `at` on.
    fn read_at(&mut self, at: u64, buf: &mut [u8]) -> Result<(), Failed>
        requires within { IsTrue is_known → at + length buf.old ≤ length (history self.old).now.reads }
        ensures value { OnOk result (IsTrue is_known → buf.new ≡ take (length buf.old) (drop at (history self.old).now.reads)) }
        ensures same { IsTrue is_known → history self.new ≡ history self.old }
        ensures cause { HasCause failed (faults self.old) (faults self.new) result };

    /// Puts these bytes at `at`, over what stands there and past the end. Until the next sync a crash may leave any bytes there.
    /// A write that would end past the greatest `u64` fails. After one that failed, the range may hold anything.
    fn write_at(&mut self, at: u64, bytes: &[u8]) -> Result<(), Failed>
        requires within { IsTrue is_known → at ≤ length (history self.old).now.reads }
        ensures fits { OnOk result (at + length bytes.now < 2 ^ 64) }
        ensures ok { OnOk result (IsTrue is_known → TakesStep (Wrote at bytes.now) (history self.old) (history self.new)) }
        ensures err { OnErr result (IsTrue is_known → Fails (OpensRange at (length bytes.now)) (history self.old) (history self.new)) }
        ensures cause { HasCause failed (faults self.old) (faults self.new) result };

    /// Makes all that was written last over a crash. After a sync that failed, all that was open is so still.
    fn sync(&mut self) -> Result<(), Failed>
        ensures ok { OnOk result (IsTrue is_known → TakesStep Synced (history self.old) (history self.new)) }
        ensures err { OnErr result (IsTrue is_known → Fails Unsynced (history self.old) (history self.new)) }
        ensures cause { HasCause failed (faults self.old) (faults self.new) result };

    /// How many calls have failed. The count stays at the greatest `u64`.
    /// What a read gives is among what a crash may leave, after a failed write or sync too.
    fn faults(&self) -> u64
        ensures count { result ≡ faults self.now }
        ensures reads_an_image { IsTrue is_known → IsImage (history self.now).now (history self.now).now.reads };
}
