//! Changes of keys, which a call makes and a commit keeps.
ghost use Rattle.std.specs.Prelude.{◌≡◌, IfOk};

use crate::{Key, Record};
use dewey_labels::{Copied, List, NoMemory};
use std::alloc::Global;

/// A change of one key: the record that stands there now, or none.
#[derive(Debug, Drop)]
pub struct Change {
    pub key: Key,
    pub now: Option<Record>,
}

/// Changes with rising keys, so at most one of each key.
pub type Changes = List<Change>;

impl Change {
    pub fn copy(&self, alloc: Global) -> Result<Change, NoMemory>
        ensures { IfOk result (λ c. c ≡ self.entry.now) }
    {
        Ok(Change {
            key: self.key.copy(alloc)?,
            now: self.now.copy(alloc)?,
        })
    }
}

impl Copied for Change {
    fn copy(&self, alloc: Global) -> Result<Change, NoMemory> {
        Change::copy(self, alloc)
    }
}
