//! The count of calls that each kind in memory keeps, and which of them are to fail.
ghost use Rattle.std.specs.Prelude.{◌≡◌, ◌≤◌, true, false, if◌then◌else◌};
ghost use Rattle.outside_kinds.specs.CallCounts.{CallCount, counted, fails_next, done, failed, refused};

use dewey_labels::List;
use std::marker::Model;

/// Counts calls from 1; those in a list are to fail.
#[derive(Drop)]
pub struct CallCounter {
    calls: u64,
    fails: List<u64>,
    faults: u64,
    refused: u64,
}

impl Model for CallCounter {
    ghost use Rattle.outside_kinds.specs.CallCounts.{CallCount};

    ghost Value = { CallCount };

    ghost view = { λ c. record { calls = c.calls; fails = c.fails; faults = c.faults; refused = c.refused } };
}

impl CallCounter {
    pub fn new(fails: List<u64>) -> CallCounter
        ensures { result ≡ record { calls = 0; fails = fails; faults = 0; refused = 0 } }
    {
        CallCounter {
            calls: 0,
            fails,
            faults: 0,
            refused: 0,
        }
    }

    pub fn calls(&self) -> u64
        ensures { result ≡ self.now.calls }
    {
        self.calls
    }

    pub fn faults(&self) -> u64
        ensures { result ≡ self.now.faults }
    {
        self.faults
    }

    pub fn refused(&self) -> u64
        ensures { result ≡ self.now.refused }
    {
        self.refused
    }

    /// Counts a call, and a fault where it is to fail.
    pub fn fails_now(&mut self) -> bool
        ensures listed { result ≡ fails_next self.old }
        ensures count { self.new ≡ (if result then failed self.old else done self.old) }
        ensures later { self.old.faults ≤ self.new.faults }
    {
        self.calls = self.calls.saturating_add(1);
        let fails = self.fails.as_slice().contains(&self.calls);
        if fails {
            self.faults = self.faults.saturating_add(1);
        }
        fails
    }

    /// Counts a fault for running out of memory in the last call.
    pub fn refuse(&mut self)
        ensures count { self.new
            ≡ record { calls = self.old.calls; fails = self.old.fails; faults = counted self.old.faults; refused = counted self.old.refused } }
        ensures later { self.old.faults ≤ self.new.faults }
    {
        self.faults = self.faults.saturating_add(1);
        self.refused = self.refused.saturating_add(1);
    }
}
