//! A source in memory that fails at chosen calls.
ghost use Rattle.std.specs.Prelude.{◌≡◌, ◌↔◌, ◌+◌, ◌<◌, ◌≤◌, [], min, length, take, Some, Ok, IfOk, IfSome, OnErr, MatchResult};
ghost use Rattle.outside_traits.specs.Bytes.{Gave};
ghost use Rattle.outside_traits.specs.Faults.{HasCause, failed};
ghost use Rattle.outside_kinds.specs.CallCounts.{FailsAsListed};

use crate::call_counter::CallCounter;
use dewey_labels::List;
use outside_traits::{Failed, Source};
use std::marker::Model;

/// A source of bytes in memory. A read gives as many as fit. The calls in its list, counted from 1, fail, and no others.
#[derive(Drop)]
pub struct MemSource {
    bytes: List<u8>,
    at: usize,
    asked: usize,
    counter: CallCounter,
}

impl Model for MemSource {
    ghost use Rattle.std.specs.Prelude.{◌≤◌, length, drop};
    ghost use Rattle.outside_kinds.specs.Memory.{SourceInMemory};

    ghost Value = { SourceInMemory };

    ghost view = { λ s. record { left = drop s.at s.bytes; given = s.at; asked = s.asked; count = s.counter } };

    ghost invariant = { λ s. s.at ≤ length s.bytes };
}

impl MemSource {
    /// It takes no memory.
    pub fn new(bytes: List<u8>, fails: List<u64>) -> MemSource
        ensures { result ≡ record { left = bytes; given = 0; asked = 0; count = record { calls = 0; fails = fails; faults = 0; refused = 0 } } }
    {
        MemSource {
            bytes,
            at: 0,
            asked: 0,
            counter: CallCounter::new(fails),
        }
    }
}

impl Source for MemSource {
    ghost left = { λ s. Some s.left };

    ghost given = { λ s. s.given };

    ghost asked = { λ s. s.asked };

    ghost faults = { λ s. s.count.faults };

    fn read(&mut self, buf: &mut [u8]) -> Result<usize, Failed>
        requires { 0 < length buf.old }
        ensures bound { IfOk result (λ count. count ≤ length buf.old) }
        ensures bytes { IfOk result (λ count. Gave (Some self.old.left) (Some self.new.left) (take count buf.new)) }
        ensures count { IfOk result (λ count. self.new.given ≡ self.old.given + count) }
        ensures end { result ≡ Ok 0 → IfSome (Some self.old.left) (λ bytes. bytes ≡ []) }
        ensures asked { MatchResult result (λ _. self.new.asked ≡ self.old.given) (λ _. self.new.asked ≡ self.old.asked) }
        ensures err { OnErr result ((Some self.new.left ≡ Some self.old.left) × (self.new.given ≡ self.old.given)) }
        ensures cause { HasCause failed self.old.count.faults self.new.count.faults result }

        ensures most { IfOk result (λ count. count ≡ min (length self.old.left) (length buf.old)) }
        ensures listed { FailsAsListed self.old.count self.new.count result }
    {
        if self.counter.fails_now() {
            return Err(Failed);
        }
        let (_, rest) = self.bytes.as_slice().split_at(self.at);
        let count = rest.len().min(buf.len());
        let (prefix, _) = rest.split_at(count);
        buf[..count].copy_from_slice(prefix);
        self.asked = self.at;
        self.at += count;
        Ok(count)
    }

    fn faults(&self) -> u64 {
        self.counter.faults()
    }
}
