//! A source in memory that never fails.
ghost use Rattle.std.specs.Prelude.{◌≡◌, ◌+◌, ◌<◌, ◌≤◌, [], min, length, take, Some, Ok, IsOk, IfOk, IfSome, OnErr, MatchResult};
ghost use Rattle.outside_traits.specs.Bytes.{Gave};
ghost use Rattle.outside_traits.specs.Faults.{HasCause, failed};

use dewey_labels::List;
use outside_traits::{Failed, Source};
use std::marker::Model;

/// A source of bytes in memory that never fails. A read gives as many as fit.
#[derive(Drop)]
pub struct SureSource {
    bytes: List<u8>,
    at: usize,
    asked: usize,
}

impl Model for SureSource {
    ghost use Rattle.std.specs.Prelude.{◌≤◌, length, drop};
    ghost use Rattle.outside_kinds.specs.Memory.{SureBytes};

    ghost Value = { SureBytes };

    ghost view = { λ s. record { left = drop s.at s.bytes; given = s.at; asked = s.asked } };

    ghost invariant = { λ s. s.at ≤ length s.bytes };
}

impl SureSource {
    /// It takes no memory.
    pub fn new(bytes: List<u8>) -> SureSource
        ensures { result ≡ record { left = bytes; given = 0; asked = 0 } }
    {
        SureSource {
            bytes,
            at: 0,
            asked: 0,
        }
    }
}

impl Source for SureSource {
    ghost left = { λ s. Some s.left };

    ghost given = { λ s. s.given };

    ghost asked = { λ s. s.asked };

    ghost faults = { λ _. 0 };

    fn read(&mut self, buf: &mut [u8]) -> Result<usize, Failed>
        requires { 0 < length buf.old }
        ensures bound { IfOk result (λ count. count ≤ length buf.old) }
        ensures bytes { IfOk result (λ count. Gave (Some self.old.left) (Some self.new.left) (take count buf.new)) }
        ensures count { IfOk result (λ count. self.new.given ≡ self.old.given + count) }
        ensures end { result ≡ Ok 0 → IfSome (Some self.old.left) (λ bytes. bytes ≡ []) }
        ensures asked { MatchResult result (λ _. self.new.asked ≡ self.old.given) (λ _. self.new.asked ≡ self.old.asked) }
        ensures err { OnErr result ((Some self.new.left ≡ Some self.old.left) × (self.new.given ≡ self.old.given)) }
        ensures cause { HasCause failed 0 0 result }

        ensures sure { IsOk result }
        ensures most { IfOk result (λ count. count ≡ min (length self.old.left) (length buf.old)) }
    {
        let (_, rest) = self.bytes.as_slice().split_at(self.at);
        let count = rest.len().min(buf.len());
        let (prefix, _) = rest.split_at(count);
        buf[..count].copy_from_slice(prefix);
        self.asked = self.at;
        self.at += count;
        Ok(count)
    }

    fn faults(&self) -> u64 {
        0
    }
}
