//! A mode that is asked at a resource.
ghost use Rattle.std.specs.Prelude.{◌≡◌, IfOk};

use crate::Resource;
use dewey_labels::{Copied, NoMemory};
use lock_modes::Ask;
use std::alloc::Global;

/// A mode that is asked at a resource. It fits where an edge is asked a mode of edges, and every other resource a mode of nodes.
#[derive(Debug, Drop, PartialEq, Eq)]
pub struct Request {
    pub resource: Resource,
    pub ask: Ask,
}

impl Request {
    pub fn copy(&self, alloc: Global) -> Result<Request, NoMemory>
        ensures { IfOk result (λ copy. copy ≡ self.now) }
    {
        Ok(Request {
            resource: self.resource.copy(alloc)?,
            ask: self.ask,
        })
    }
}

impl Copied for Request {
    fn copy(&self, alloc: Global) -> Result<Request, NoMemory> {
        Request::copy(self, alloc)
    }
}
