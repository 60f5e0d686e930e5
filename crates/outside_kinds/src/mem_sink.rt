//! A sink in memory.
ghost use Rattle.std.specs.Prelude.{◌≡◌, ◌<◌, ◌≤◌, [], length, take, Some, IfOk, OnErr};
ghost use Rattle.outside_traits.specs.Bytes.{Took};
ghost use Rattle.outside_traits.specs.Faults.{HasCause, failed};
ghost use Rattle.outside_kinds.specs.CallCounts.{FailsAsListedOrRefused};

use crate::call_counter::CallCounter;
use dewey_labels::List;
use outside_traits::{Failed, Sink};
use std::alloc::Global;
use std::marker::Model;

/// A sink in memory that takes a whole piece at each call. The calls in its list, counted from 1, fail, and one may fail for running out of memory.
#[derive(Drop)]
pub struct MemSink {
    bytes: Vec<u8>,
    counter: CallCounter,
}

impl Model for MemSink {
    ghost use Rattle.outside_kinds.specs.Memory.{SinkInMemory};

    ghost Value = { SinkInMemory };

    ghost view = { λ s. record { held = s.bytes.items; count = s.counter } };
}

impl MemSink {
    /// It takes no memory yet; writes take theirs from `alloc`.
    pub fn new(alloc: Global, fails: List<u64>) -> MemSink
        ensures { result ≡ record { held = []; count = record { calls = 0; fails = fails; faults = 0; refused = 0 } } }
    {
        MemSink {
            bytes: Vec::new(alloc),
            counter: CallCounter::new(fails),
        }
    }

    /// What it has taken.
    pub fn bytes(&self) -> &[u8]
        ensures { result.now ≡ self.now.held }
    {
        &self.bytes
    }

    /// How many calls failed for running out of memory; they are among the faults.
    pub fn refused(&self) -> u64
        ensures { result ≡ self.now.count.refused }
    {
        self.counter.refused()
    }
}

impl Sink for MemSink {
    ghost held = { λ s. Some s.held };

    ghost faults = { λ s. s.count.faults };

    fn write(&mut self, piece: &[u8]) -> Result<usize, Failed>
        requires { 0 < length piece.now }
        ensures bound { IfOk result (λ count. (0 < count) × (count ≤ length piece.now)) }
        ensures bytes { IfOk result (λ count. Took (Some self.old.held) (Some self.new.held) (take count piece.now)) }
        ensures err { OnErr result (Some self.new.held ≡ Some self.old.held) }
        ensures cause { HasCause failed self.old.count.faults self.new.count.faults result }

        ensures whole { IfOk result (λ count. count ≡ length piece.now) }
        ensures listed { FailsAsListedOrRefused self.old.count self.new.count result }
    {
        if self.counter.fails_now() {
            return Err(Failed);
        }
        if self.bytes.extend_from_slice(piece).is_err() {
            self.counter.refuse();
            return Err(Failed);
        }
        Ok(piece.len())
    }

    fn faults(&self) -> u64 {
        self.counter.faults()
    }
}
