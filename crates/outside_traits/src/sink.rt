//! Where bytes go.
ghost use Rattle.std.specs.Prelude.{◌≡◌, ℕ, ◌<◌, ◌≤◌, List, length, take, Option, IfOk, OnErr};
ghost use Rattle.outside_traits.specs.Bytes.{Took};
ghost use Rattle.outside_traits.specs.Faults.{HasCause, failed};

use crate::failed::Failed;

/// Where bytes go.
///
/// `held` is what the sink has taken, where that is known; `faults` is how many of its calls have failed.
pub trait Sink {
    ghost held: { Self → Option (List ℕ) };

    ghost faults: { Self → ℕ };

    /// Takes the first bytes of `piece` and answers how many, at least one.
    fn write(&mut self, piece: &[u8]) -> Result<usize, Failed>
        requires { 0 < length piece.now }
        ensures bound { IfOk result (λ count. (0 < count) × (count ≤ length piece.now)) }
        ensures bytes { IfOk result (λ count. Took (held self.old) (held self.new) (take count piece.now)) }
        ensures err { OnErr result (held self.new ≡ held self.old) }
        ensures cause { HasCause failed (faults self.old) (faults self.new) result };

    /// How many calls have failed. The count stays at the greatest `u64`.
    fn faults(&self) -> u64
        ensures { result ≡ faults self.now };
}
