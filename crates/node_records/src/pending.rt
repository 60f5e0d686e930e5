//! What a commit leaves to be made durable.
ghost use Rattle.std.specs.Prelude.{◌≡◌, IfOk};

use dewey_labels::{Copied, List, NoMemory};
use std::alloc::Global;

/// A commit that waits for its place in a journal: its number, and the bytes of its changes.
#[derive(Debug, Drop)]
pub struct Pending {
    pub number: u32,
    pub body: List<u8>,
}

impl Pending {
    pub fn copy(&self, alloc: Global) -> Result<Pending, NoMemory>
        ensures { IfOk result (λ copy. copy ≡ self.now) }
    {
        Ok(Pending {
            number: self.number,
            body: List::from_vec(Vec::from_slice(alloc, self.body.as_slice())?),
        })
    }
}

impl Copied for Pending {
    fn copy(&self, alloc: Global) -> Result<Pending, NoMemory> {
        Pending::copy(self, alloc)
    }
}
