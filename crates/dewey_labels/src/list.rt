//! Lists of items that a type may hold of itself, and that are copied item by item.
ghost use Rattle.std.specs.Prelude.{◌≡◌, ◌↔◌, [], ◌∷◌, ◌++◌, length, take, IsTrue, IfOk, OnOk, OnErr, MatchOption};
ghost use Rattle.std.specs.Cmp.Lexicographic.{pointwise, lists_per, lists_equiv};

use crate::{Copied, NoMemory};
use std::alloc::Global;
use std::marker::Model;

/// A list, seen as the list of its items. A type may hold a list of itself.
#[derive(Debug, Drop)]
pub struct List<T> {
    cells: Vec<T>,
}

impl<T> Model for List<T> {
    ghost use Rattle.std.specs.Prelude as p;
    ghost use Rattle.std.specs.Coded.{coded_list};

    ghost Value = { p.List T };

    ghost coded = { coded_list T.code };

    ghost view = { λ l. l.cells.items };
}

impl<T> List<T> {
    /// The empty list. It takes no memory.
    pub fn new(alloc: Global) -> List<T>
        ensures { result ≡ [] }
    {
        List {
            cells: Vec::new(alloc),
        }
    }

    /// The list of a vector's items. It takes no memory.
    pub fn from_vec(items: Vec<T>) -> List<T>
        ensures { result ≡ items.items }
    {
        List { cells: items }
    }

    /// The vector of the list's items. It takes no memory.
    pub fn into_vec(self) -> Vec<T>
        ensures { result.items ≡ self }
    {
        let List { cells } = self;
        cells
    }

    pub fn as_slice(&self) -> &[T]
        ensures { result.now ≡ self.now }
    {
        self.cells.as_slice()
    }

    pub fn len(&self) -> usize
        ensures { result ≡ length self.now }
    {
        self.cells.len()
    }

    pub fn is_empty(&self) -> bool
        ensures { IsTrue result ↔ (self.now ≡ []) }
    {
        self.cells.is_empty()
    }

    /// Takes the last item off, if there is one.
    pub fn pop(&mut self) -> Option<T>
        ensures { MatchOption result ((self.old ≡ []) × (self.new ≡ [])) (λ last. self.old ≡ self.new ++ last ∷ []) }
    {
        self.cells.pop()
    }
}

impl<T: Drop> List<T> {
    /// Lets go of the items behind the first `len`. It takes no memory.
    pub fn truncate(&mut self, len: usize)
        ensures { self.new ≡ take len self.old }
    {
        self.cells.truncate(len);
    }

    /// Puts an item at the end. It takes its memory from the allocator that the list was made with.
    pub fn push(&mut self, item: T) -> Result<(), NoMemory>
        ensures ok { OnOk result (self.new ≡ self.old ++ item ∷ []) }
        ensures err { OnErr result (self.new ≡ self.old) }
    {
        self.cells.push(item)?;
        Ok(())
    }
}

impl<T: Copy> List<T> {
    /// Puts items at the end, all of them or none. Their memory comes from the allocator that the list was made with, of which there is one.
    pub fn extend_from_slice(&mut self, _alloc: Global, items: &[T]) -> Result<(), NoMemory>
        ensures ok { OnOk result (self.new ≡ self.old ++ items.now) }
        ensures err { OnErr result (self.new ≡ self.old) }
    {
        self.cells.extend_from_slice(items)?;
        Ok(())
    }
}

impl<T: Copied> List<T> {
    pub fn copy(&self, alloc: Global) -> Result<List<T>, NoMemory>
        ensures { IfOk result (λ copy. copy ≡ self.now) }
    {
        let mut cells = Vec::with_capacity(alloc, self.cells.len())?;
        for cell in self.as_slice() {
            cells.push(cell.copy(alloc)?)?;
        }
        Ok(List { cells })
    }
}

impl<T: Copied> Copied for List<T> {
    fn copy(&self, alloc: Global) -> Result<List<T>, NoMemory> {
        List::copy(self, alloc)
    }
}

impl<T: PartialEq> PartialEq for List<T> {
    ghost eq = { pointwise T.eq };

    ghost laws = { lists_per T.laws };

    fn eq(&self, other: &List<T>) -> bool {
        self.as_slice() == other.as_slice()
    }
}

impl<T: Eq> Eq for List<T> {
    ghost laws = { lists_equiv T.Eq.laws };
}
