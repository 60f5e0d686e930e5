//! A map that isn't known, for tests of what stands on maps: it fails at chosen reads, and answers whatever such a map may answer.
ghost use Rattle.std.specs.Prelude.{◌≡◌, ◌≤◌, IfOk};
ghost use Rattle.node_seq.specs.Reads.{IsEntryOfTrees, LiesAbove, LiesBelow};
ghost use Rattle.node_seq.specs.declared.node_read.SeqError.TheVariants.{DiskFault};
ghost use Rattle.outside_traits.specs.Faults.{HasCause};

use crate::{NodeRead, SeqError};
use std::alloc::Global;
use std::cmp::Ordering;
use tree_model::{Key, Record};

/// What one read is to answer.
#[derive(Debug, Drop)]
pub enum Answer {
    /// This entry, where a map that isn't known may answer it; else nothing.
    Found(Key, Record),
    Nothing,
    /// A fault, which is counted.
    Fault,
}

/// A map that isn't known. Each read takes the next answer, whatever it asks, so what it says may be of another map each time;
/// behind the last answer nothing is found.
#[derive(Debug, Drop)]
pub struct UnknownSeq {
    /// The answers of the reads to come.
    pub answers: Vec<Answer>,
    /// The count of faults.
    pub faults: u64,
}

impl UnknownSeq {
    /// The next answer, if a tree may have it.
    fn take(&mut self) -> Result<Option<(Key, Record)>, SeqError>
        ensures valid { IfOk result IsEntryOfTrees }
        ensures cause { HasCause DiskFault self.old.faults self.new.faults result }
    {
        if self.answers.is_empty() {
            return Ok(None);
        }
        match self.answers.remove(0) {
            Answer::Found(key, record) => {
                if key.is_valid() && record.fits() {
                    Ok(Some((key, record)))
                } else {
                    Ok(None)
                }
            }
            Answer::Nothing => Ok(None),
            Answer::Fault => {
                self.faults = self.faults.saturating_add(1);
                Err(SeqError::DiskFault)
            }
        }
    }
}

impl NodeRead for UnknownSeq {
    ghost use Rattle.std.specs.Prelude.{◌≡◌, ◌≤◌, None, refl};
    ghost use Rattle.std.proofs.Common.{le_refl, le_trans};

    ghost contents = { λ _. None };

    ghost count = { λ s. s.faults };

    ghost unchanged = { λ s t. s.faults ≤ t.faults };

    fn get(&mut self, _alloc: Global, _key: &Key) -> Result<Option<Record>, SeqError> {
        match self.take()? {
            Some((_, record)) => Ok(Some(record)),
            None => Ok(None),
        }
    }

    fn next_from(&mut self, _alloc: Global, key: &Key) -> Result<Option<(Key, Record)>, SeqError> {
        match self.take()? {
            Some((at, record)) => match key.cmp(&at) {
                Ordering::Less => Ok(Some((at, record))),
                _ => Ok(None),
            },
            None => Ok(None),
        }
    }

    fn prev_from(&mut self, _alloc: Global, key: &Key) -> Result<Option<(Key, Record)>, SeqError> {
        match self.take()? {
            Some((at, record)) => match at.cmp(key) {
                Ordering::Less => Ok(Some((at, record))),
                _ => Ok(None),
            },
            None => Ok(None),
        }
    }

    fn faults(&self) -> u64 {
        self.faults
    }

    ghost unchanged_itself = { λ s. le_refl s.faults };

    ghost unchanged_onward = { λ s t u a b. le_trans a b };

    ghost unchanged_contents = { λ s t a. refl };

    ghost unchanged_count = { λ s t a. a };
}
