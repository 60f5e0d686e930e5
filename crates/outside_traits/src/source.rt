//! Where bytes come from.
ghost use Rattle.std.specs.Prelude.{◌≡◌, ℕ, ◌+◌, ◌<◌, ◌≤◌, List, [], length, take, Option, Ok, IfOk, IfSome, OnErr, MatchResult};
ghost use Rattle.outside_traits.specs.Bytes.{Gave};
ghost use Rattle.outside_traits.specs.Faults.{HasCause, failed};

use crate::failed::Failed;

/// Where bytes come from.
///
/// `left` is what is still to come, where that is known; `given` is how many bytes it has given; `asked` is how many it had given when its last read that succeeded was asked for; `faults` is how many of its calls have failed.
pub trait Source {
    ghost left: { Self → Option (List ℕ) };

    ghost given: { Self → ℕ };

    ghost asked: { Self → ℕ };

    ghost faults: { Self → ℕ };

    /// Puts the next bytes at the start of `buf` and answers how many; 0 is the end of the input.
    fn read(&mut self, buf: &mut [u8]) -> Result<usize, Failed>
        requires { 0 < length buf.old }
        ensures bound { IfOk result (λ count. count ≤ length buf.old) }
        ensures bytes { IfOk result (λ count. Gave (left self.old) (left self.new) (take count buf.new)) }
        ensures count { IfOk result (λ count. given self.new ≡ given self.old + count) }
        ensures end { result ≡ Ok 0 → IfSome (left self.old) (λ bytes. bytes ≡ []) }
        ensures asked { MatchResult result (λ _. asked self.new ≡ given self.old) (λ _. asked self.new ≡ asked self.old) }
        ensures err { OnErr result ((left self.new ≡ left self.old) × (given self.new ≡ given self.old)) }
        ensures cause { HasCause failed (faults self.old) (faults self.new) result };

    /// How many calls have failed. The count stays at the greatest `u64`.
    fn faults(&self) -> u64
        ensures { result ≡ faults self.now };
}
