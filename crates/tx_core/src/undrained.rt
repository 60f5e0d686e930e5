//! The bodies of commits that weren't handed out yet.

ghost use Rattle.std.specs.Prelude.{◌≡◌, ◌<◌, ◌≤◌, [], ◌∷◌, ◌++◌, length, vec_capacity, OnOk};

use dewey_labels::{List, NoMemory};
use node_records::Pending;
use std::alloc::Global;
use std::mem;

/// What commits have left to be made durable.
#[derive(Drop)]
pub struct Bodies {
    /// The number of the last commit that was handed out.
    pub after: u32,
    /// The commits behind it, with room for the one that is prepared.
    pub waiting: Vec<Pending>,
}

impl Bodies {
    /// Makes room for one more.
    pub fn make_room(&mut self) -> Result<(), NoMemory>
        ensures room { OnOk result (length self.new.waiting.items < vec_capacity self.new.waiting) }
        ensures kept { vec_capacity self.old.waiting ≤ vec_capacity self.new.waiting }
        ensures same { (self.new.waiting.items ≡ self.old.waiting.items) × (self.new.after ≡ self.old.after) }
    {
        self.waiting.reserve(1)?;
        Ok(())
    }

    /// Keeps one for which there is room.
    pub fn keep(&mut self, pending: Pending)
        requires { length self.old.waiting.items < vec_capacity self.old.waiting }
        ensures waiting { self.new.waiting.items ≡ self.old.waiting.items ++ pending ∷ [] }
        ensures after { self.new.after ≡ self.old.after }
    {
        if self.waiting.push(pending).is_err() {
            unreachable!();
        }
    }

    /// Hands all out, up to the commit of this number.
    pub fn hand_out(&mut self, alloc: Global, last: u32) -> List<Pending>
        ensures all { result ≡ self.old.waiting.items }
        ensures none_waits { (self.new.waiting.items ≡ []) × (self.new.after ≡ last) }
    {
        self.after = last;
        List::from_vec(mem::replace(&mut self.waiting, Vec::new(alloc)))
    }
}
