//! Reading a finite map from keys to records, whatever keeps it.
ghost use Rattle.std.specs.Prelude.{◌≡◌, ◌+◌, ◌≤◌, ℕ, Option, Some, None, IfOk};
ghost use Rattle.tree_model.specs.Entries.{Entries, Sorted, get, first_above, last_below};
ghost use Rattle.node_seq.specs.Reads.{Finds, LiesAbove, LiesBelow, IsEntryOfTrees, IsRecordOfTrees, key_above, key_below, IsKeyAbove, IsKeyBelow, IsKeyOfTrees};
ghost use Rattle.node_seq.specs.declared.node_read.SeqError.TheVariants.{DiskFault};
ghost use Rattle.outside_traits.specs.Faults.{HasCause};

use dewey_labels::NoMemory;
use std::alloc::{AllocError, AllocFailed, Global};
use tree_model::{Key, Record};

/// Why a map couldn't be read. A fault of the disk comes only where the map's count of faults rose.
#[derive(Debug, Drop, Clone, Copy, PartialEq, Eq)]
pub enum SeqError {
    DiskFault,
    NoMemory,
}

impl From<NoMemory> for SeqError {
    ghost use Rattle.std.specs.Prelude.{◌≡◌};
    ghost use Rattle.node_seq.specs.declared.node_read.SeqError.TheVariants.{NoMemory};

    ghost from_gives = { λ _ e. e ≡ NoMemory };

    fn from(_error: NoMemory) -> SeqError {
        SeqError::NoMemory
    }
}

impl From<AllocError> for SeqError {
    ghost use Rattle.std.specs.Prelude.{◌≡◌};
    ghost use Rattle.node_seq.specs.declared.node_read.SeqError.TheVariants.{NoMemory};

    ghost from_gives = { λ _ e. e ≡ NoMemory };

    fn from(_error: AllocError) -> SeqError {
        SeqError::NoMemory
    }
}

impl<T: Drop> From<AllocFailed<T>> for SeqError {
    ghost use Rattle.std.specs.Prelude.{◌≡◌};
    ghost use Rattle.node_seq.specs.declared.node_read.SeqError.TheVariants.{NoMemory};

    ghost from_gives = { λ _ e. e ≡ NoMemory };

    fn from(_refused: AllocFailed<T>) -> SeqError {
        SeqError::NoMemory
    }
}

/// A finite map from keys to records, in the order of the keys.
///
/// `contents` is the map where it is known. `count` is the count of faults. `reads` is that of its reads, where it keeps one as `Counted` does; else it stays 0.
/// A map that isn't known answers only what a valid tree may have, so every walk by reads ends, known or not; what it answers may be another map's from read to read.
/// `unchanged` holds of a value and the same value after reads: it has the same map, and its count isn't lower.
/// A value that reads through others says of these that they are unchanged, so that who lent them learns it.
pub trait NodeRead {
    ghost contents: { Self → Option Entries };

    ghost count: { Self → ℕ };

    ghost reads: { Self → ℕ } = { λ _. 0 };

    ghost unchanged: { Self → Self → Type 0 };

    /// The record at a key.
    fn get(&mut self, alloc: Global, key: &Key) -> Result<Option<Record>, SeqError>
        ensures value { Finds (contents self.old) result (get key.now) }
        ensures valid { contents self.old ≡ None → IfOk result IsRecordOfTrees }
        ensures unchanged { unchanged self.old self.new }
        ensures reads { reads self.new ≤ reads self.old + 1 }
        ensures cause { HasCause DiskFault (count self.old) (count self.new) result };

    /// The entry with the least key above a key.
    fn next_from(&mut self, alloc: Global, key: &Key) -> Result<Option<(Key, Record)>, SeqError>
        ensures value { Finds (contents self.old) result (first_above key.now) }
        ensures above { IfOk result (LiesAbove key.now) }
        ensures valid { contents self.old ≡ None → IfOk result IsEntryOfTrees }
        ensures unchanged { unchanged self.old self.new }
        ensures reads { reads self.new ≤ reads self.old + 1 }
        ensures cause { HasCause DiskFault (count self.old) (count self.new) result };

    /// The entry with the greatest key below a key.
    fn prev_from(&mut self, alloc: Global, key: &Key) -> Result<Option<(Key, Record)>, SeqError>
        ensures value { Finds (contents self.old) result (last_below key.now) }
        ensures below { IfOk result (LiesBelow key.now) }
        ensures valid { contents self.old ≡ None → IfOk result IsEntryOfTrees }
        ensures unchanged { unchanged self.old self.new }
        ensures reads { reads self.new ≤ reads self.old + 1 }
        ensures cause { HasCause DiskFault (count self.old) (count self.new) result };

    /// The least key above a key. A map that can find it without its record copies none; here it is that of `next_from`.
    fn key_above(&mut self, alloc: Global, key: &Key) -> Result<Option<Key>, SeqError>
        ensures value { Finds (contents self.old) result (key_above key.now) }
        ensures above { IfOk result (IsKeyAbove key.now) }
        ensures valid { contents self.old ≡ None → IfOk result IsKeyOfTrees }
        ensures unchanged { unchanged self.old self.new }
        ensures reads { reads self.new ≤ reads self.old + 1 }
        ensures cause { HasCause DiskFault (count self.old) (count self.new) result }
    {
        match self.next_from(alloc, key)? {
            Some((at, _)) => Ok(Some(at)),
            None => Ok(None),
        }
    }

    /// The greatest key below a key. A map that can find it without its record copies none; here it is that of `prev_from`.
    fn key_below(&mut self, alloc: Global, key: &Key) -> Result<Option<Key>, SeqError>
        ensures value { Finds (contents self.old) result (key_below key.now) }
        ensures below { IfOk result (IsKeyBelow key.now) }
        ensures valid { contents self.old ≡ None → IfOk result IsKeyOfTrees }
        ensures unchanged { unchanged self.old self.new }
        ensures reads { reads self.new ≤ reads self.old + 1 }
        ensures cause { HasCause DiskFault (count self.old) (count self.new) result }
    {
        match self.prev_from(alloc, key)? {
            Some((at, _)) => Ok(Some(at)),
            None => Ok(None),
        }
    }

    /// The count of faults. It reads nothing, and tells that a known map is in the order of its keys.
    fn faults(&self) -> u64
        ensures count { result ≡ count self.now }
        ensures in_order { (es : Entries) → contents self.now ≡ Some es → Sorted es };

    ghost unchanged_itself: { (x : Self) → unchanged x x };

    ghost unchanged_onward: { (x y z : Self) → unchanged x y → unchanged y z → unchanged x z };

    ghost unchanged_contents: { (x y : Self) → unchanged x y → contents y ≡ contents x };

    ghost unchanged_count: { (x y : Self) → unchanged x y → count x ≤ count y };
}
