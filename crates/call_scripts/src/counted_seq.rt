//! A map in memory that counts its reads, and fails at one that is chosen.
ghost use Rattle.std.specs.Prelude.{◌≡◌};
ghost use Rattle.node_seq.specs.declared.node_read.SeqError.TheVariants.{DiskFault};
ghost use Rattle.outside_traits.specs.Faults.{HasCause};

use dewey_labels::NoMemory;
use node_seq::{NodeRead, SeqError, SortedSeq};
use std::alloc::Global;
use tree_model::{Change, Changes, Key, Record};

/// A map with the number of its reads since they were counted anew, and the one of them that fails, 0 where none does.
#[derive(Debug, Drop)]
pub struct CountedSeq {
    entries: SortedSeq,
    reads: u64,
    fails: u64,
    faults: u64,
}

impl CountedSeq {
    pub fn new(alloc: Global) -> CountedSeq {
        CountedSeq {
            entries: SortedSeq::new(alloc),
            reads: 0,
            fails: 0,
            faults: 0,
        }
    }

    /// Counts the reads anew, of which this one fails.
    pub fn count_anew(&mut self, fails: u64) {
        self.reads = 0;
        self.fails = fails;
    }

    pub fn reads(&self) -> u64 {
        self.reads
    }

    pub fn entries(&self) -> &[(Key, Record)] {
        self.entries.entries()
    }

    /// Makes the changes in the map.
    pub fn change(&mut self, alloc: Global, changes: Changes) -> Result<(), NoMemory> {
        for change in changes.into_vec() {
            let Change { key, now } = change;
            match now {
                Some(record) => {
                    self.entries.put(alloc, key, record)?;
                }
                None => {
                    self.entries.del(&key);
                }
            }
        }
        Ok(())
    }

    /// Counts a read, which may be the one that fails.
    fn count_read(&mut self) -> Result<(), SeqError>
        ensures entries { self.new.entries ≡ self.old.entries }
        ensures cause { HasCause DiskFault self.old.faults self.new.faults result }
    {
        self.reads = self.reads.saturating_add(1);
        if self.reads == self.fails {
            self.faults = self.faults.saturating_add(1);
            return Err(SeqError::DiskFault);
        }
        Ok(())
    }
}

impl NodeRead for CountedSeq {
    ghost use Rattle.std.specs.Prelude.{◌≡◌, ◌≤◌, Some, refl};
    ghost use Rattle.std.proofs.Common.{ap, ◌∙◌, le_refl, le_trans};

    ghost contents = { λ s. Some s.entries };

    ghost count = { λ s. s.faults };

    ghost unchanged = { λ s t. (t.entries ≡ s.entries) × (s.faults ≤ t.faults) };

    fn get(&mut self, alloc: Global, key: &Key) -> Result<Option<Record>, SeqError> {
        self.count_read()?;
        self.entries.get(alloc, key)
    }

    fn next_from(&mut self, alloc: Global, key: &Key) -> Result<Option<(Key, Record)>, SeqError> {
        self.count_read()?;
        self.entries.next_from(alloc, key)
    }

    fn prev_from(&mut self, alloc: Global, key: &Key) -> Result<Option<(Key, Record)>, SeqError> {
        self.count_read()?;
        self.entries.prev_from(alloc, key)
    }

    fn faults(&self) -> u64 {
        let _faults = self.entries.faults();
        self.faults
    }

    ghost unchanged_itself = { λ s. (refl, le_refl s.faults) };

    ghost unchanged_onward = { λ s t u a b. (b.0 ∙ a.0, le_trans a.1 b.1) };

    ghost unchanged_contents = { λ s t a. ap Some a.0 };

    ghost unchanged_count = { λ s t a. a.1 };
}
