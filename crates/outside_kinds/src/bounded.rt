//! A source that is read up to a limit, so that a script without an end has one.
ghost use Rattle.std.specs.Prelude.{◌≡◌, ◌⊎◌, ℕ, ◌+◌, ◌<◌, ◌≤◌, [], length, take, Ok, IfOk, IfSome, OnErr};
ghost use Rattle.outside_traits.specs.Bytes.{Gave};
ghost use Rattle.outside_traits.specs.Faults.{HasCause, failed};
ghost use Rattle.outside_kinds.specs.Bounds.{AskedBehind, BelowCause, input_limit};

use outside_traits::{Failed, Source};

/// The most bytes that one run takes from its source: `input_limit` of the definitions.
pub const INPUT_LIMIT: u64 = 1_099_511_627_776;

/// A source over another one that gives at most `INPUT_LIMIT` bytes; the read after them fails and is counted here.
#[derive(Drop)]
pub struct Bounded<'a, S> {
    pub inner: &'a mut S,
    /// How many bytes may still be given.
    pub room: u64,
    faults: u64,
}

impl<'a, S: Source> Bounded<'a, S> {
    pub fn new(inner: &'a mut S) -> Bounded<'a, S>
        ensures same_reference { result.inner.ghost_name ≡ inner.entry.ghost_name }
        ensures same_source { result.inner.now ≡ inner.old }
        ensures room { result.room ≡ input_limit }
        ensures faults { result.faults ≡ 0 }
    {
        Bounded {
            inner,
            room: INPUT_LIMIT,
            faults: 0,
        }
    }
}

impl<'a, S: Source> Source for Bounded<'a, S> {
    ghost left = { λ b. S.left b.inner.now };

    ghost given = { λ b. S.given b.inner.now };

    ghost asked = { λ b. S.asked b.inner.now };

    ghost faults = { λ b. b.faults };

    fn read(&mut self, buf: &mut [u8]) -> Result<usize, Failed>
        requires { 0 < length buf.old }
        ensures bound { IfOk result (λ count. count ≤ length buf.old) }
        ensures bytes { IfOk result (λ count. Gave (S.left self.old.inner.now) (S.left self.new.inner.now) (take count buf.new)) }
        ensures count { IfOk result (λ count. S.given self.new.inner.now ≡ S.given self.old.inner.now + count) }
        ensures end { result ≡ Ok 0 → IfSome (S.left self.old.inner.now) (λ bytes. bytes ≡ []) }
        ensures asked { AskedBehind (S.given self.old.inner.now) (S.asked self.old.inner.now) (S.asked self.new.inner.now) result }
        ensures err { OnErr result ((S.left self.new.inner.now ≡ S.left self.old.inner.now) × (S.given self.new.inner.now ≡ S.given self.old.inner.now)) }
        ensures cause { HasCause failed (self.old.faults) (self.new.faults) result }

        // Of the source below.
        ensures same_reference { self.new.inner.ghost_name ≡ self.old.inner.ghost_name }
        ensures room { S.given self.new.inner.now + self.new.room ≡ S.given self.old.inner.now + self.old.room }
        ensures below { BelowCause self.old.room (S.faults self.old.inner.now) (S.faults self.new.inner.now) result }
    {
        let want = buf.len().min(self.room as usize);
        if want > 0 {
            if let Ok(count) = self.inner.read(&mut buf[..want]) {
                self.room -= count as u64;
                return Ok(count);
            }
        }
        self.faults = self.faults.saturating_add(1);
        Err(Failed)
    }

    fn faults(&self) -> u64 {
        self.faults
    }
}
