//! A map in memory whose reads fail now and then.
ghost use Rattle.std.specs.Prelude.{◌≡◌};
ghost use Rattle.node_seq.specs.declared.node_read.SeqError.TheVariants.{DiskFault};
ghost use Rattle.outside_traits.specs.Faults.{HasCause};

use node_seq::{NodeRead, SeqError, SortedSeq};
use std::alloc::Global;
use tree_model::{Key, Record};

/// A map without entries. After each fault so many reads succeed, one more than before the fault, up to `most`; then it begins anew. With 0 none fails.
#[derive(Debug, Drop)]
pub struct FailingSeq {
    entries: SortedSeq,
    most: u64,
    allowed: u64,
    made: u64,
    faults: u64,
}

impl FailingSeq {
    pub fn new(alloc: Global, most: u64) -> FailingSeq {
        FailingSeq {
            entries: SortedSeq::new(alloc),
            most,
            allowed: 0,
            made: 0,
            faults: 0,
        }
    }

    /// Counts a read, which may be one that fails.
    fn count_read(&mut self) -> Result<(), SeqError>
        ensures entries { self.new.entries ≡ self.old.entries }
        ensures cause { HasCause DiskFault self.old.faults self.new.faults result }
    {
        if self.most > 0 && self.made >= self.allowed {
            self.made = 0;
            self.allowed = if self.allowed < self.most {
                self.allowed + 1
            } else {
                0
            };
            self.faults = self.faults.saturating_add(1);
            return Err(SeqError::DiskFault);
        }
        self.made = self.made.saturating_add(1);
        Ok(())
    }
}

impl NodeRead for FailingSeq {
    ghost use Rattle.std.specs.Prelude.{◌≡◌, ◌≤◌, Some, refl};
    ghost use Rattle.std.proofs.Common.{ap, ◌∙◌, le_refl, le_trans};

    ghost contents = { λ s. Some s.entries };

    ghost count = { λ s. s.faults };

    ghost unchanged = { λ s t. (t.entries ≡ s.entries) × (s.faults ≤ t.faults) };

    fn get(&mut self, alloc: Global, key: &Key) -> Result<Option<Record>, SeqError> {
        self.count_read()?;
        self.entries.get(alloc, key)
    }

    fn next_from(&mut self, alloc: Global, key: &Key) -> Result<Option<(Key, Record)>, SeqError> {
        self.count_read()?;
        self.entries.next_from(alloc, key)
    }

    fn prev_from(&mut self, alloc: Global, key: &Key) -> Result<Option<(Key, Record)>, SeqError> {
        self.count_read()?;
        self.entries.prev_from(alloc, key)
    }

    fn faults(&self) -> u64 {
        let _faults = self.entries.faults();
        self.faults
    }

    ghost unchanged_itself = { λ s. (refl, le_refl s.faults) };

    ghost unchanged_onward = { λ s t u a b. (b.0 ∙ a.0, le_trans a.1 b.1) };

    ghost unchanged_contents = { λ s t a. ap Some a.0 };

    ghost unchanged_count = { λ s t a. a.1 };
}
