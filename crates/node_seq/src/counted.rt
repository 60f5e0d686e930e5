//! A map that counts its reads.
ghost use Rattle.std.specs.Prelude.{◌≡◌, ◌≤◌, ◌+◌, None, IfOk};
ghost use Rattle.tree_model.specs.Entries.{get, first_above, last_below};
ghost use Rattle.node_seq.specs.Counting.{one_more};
ghost use Rattle.node_seq.specs.Reads.{Finds, LiesAbove, LiesBelow, IsEntryOfTrees, IsRecordOfTrees, key_above, key_below, IsKeyAbove, IsKeyBelow, IsKeyOfTrees};
ghost use Rattle.node_seq.specs.declared.node_read.SeqError.TheVariants.{DiskFault};
ghost use Rattle.outside_traits.specs.Faults.{HasCause};

use crate::{NodeRead, SeqError};
use std::alloc::Global;
use std::marker::Model;
use tree_model::{Key, Record};

/// A map around another one, which counts each read that is made of it, seen as that map and the count.
/// What is said of the reads of a call over any map can be seen by it.
#[derive(Debug, Drop)]
pub struct Counted<S: NodeRead + Drop> {
    seq: S,
    calls: u64,
}

impl<S: NodeRead + Drop> Model for Counted<S> {
    ghost use Rattle.node_seq.specs.Counting.{Counting};

    ghost Value = { Counting S };

    ghost view = { λ c. record { seq = c.seq; calls = c.calls } };
}

impl<S: NodeRead + Drop> Counted<S> {
    /// The map, of which no read was made yet. It takes no memory.
    pub fn new(seq: S) -> Counted<S>
        ensures seq { result.seq ≡ seq }
        ensures calls { result.calls ≡ 0 }
    {
        Counted { seq, calls: 0 }
    }

    /// How many reads were made. The count stays at the greatest number.
    pub fn calls(&self) -> u64
        ensures { result ≡ self.now.calls }
    {
        self.calls
    }

    fn count(&mut self)
        ensures seq { self.new.seq ≡ self.old.seq }
        ensures calls { self.new.calls ≡ one_more self.old.calls }
    {
        self.calls = self.calls.saturating_add(1);
    }
}

impl<S: NodeRead + Drop> NodeRead for Counted<S> {
    ghost contents = { λ c. S.contents c.seq };

    ghost count = { λ c. S.count c.seq };

    ghost reads = { λ c. c.calls };

    ghost unchanged = { λ c d. S.unchanged c.seq d.seq };

    fn get(&mut self, alloc: Global, key: &Key) -> Result<Option<Record>, SeqError>
        ensures value { Finds (S.contents self.old.seq) result (get key.now) }
        ensures valid { S.contents self.old.seq ≡ None → IfOk result IsRecordOfTrees }
        ensures unchanged { S.unchanged self.old.seq self.new.seq }
        ensures counted { self.new.calls ≡ one_more self.old.calls }
        ensures reads { self.new.calls ≤ self.old.calls + 1 }
        ensures cause { HasCause DiskFault (S.count self.old.seq) (S.count self.new.seq) result }
    {
        self.count();
        self.seq.get(alloc, key)
    }

    fn next_from(&mut self, alloc: Global, key: &Key) -> Result<Option<(Key, Record)>, SeqError>
        ensures value { Finds (S.contents self.old.seq) result (first_above key.now) }
        ensures above { IfOk result (LiesAbove key.now) }
        ensures valid { S.contents self.old.seq ≡ None → IfOk result IsEntryOfTrees }
        ensures unchanged { S.unchanged self.old.seq self.new.seq }
        ensures counted { self.new.calls ≡ one_more self.old.calls }
        ensures reads { self.new.calls ≤ self.old.calls + 1 }
        ensures cause { HasCause DiskFault (S.count self.old.seq) (S.count self.new.seq) result }
    {
        self.count();
        self.seq.next_from(alloc, key)
    }

    fn prev_from(&mut self, alloc: Global, key: &Key) -> Result<Option<(Key, Record)>, SeqError>
        ensures value { Finds (S.contents self.old.seq) result (last_below key.now) }
        ensures below { IfOk result (LiesBelow key.now) }
        ensures valid { S.contents self.old.seq ≡ None → IfOk result IsEntryOfTrees }
        ensures unchanged { S.unchanged self.old.seq self.new.seq }
        ensures counted { self.new.calls ≡ one_more self.old.calls }
        ensures reads { self.new.calls ≤ self.old.calls + 1 }
        ensures cause { HasCause DiskFault (S.count self.old.seq) (S.count self.new.seq) result }
    {
        self.count();
        self.seq.prev_from(alloc, key)
    }

    fn key_above(&mut self, alloc: Global, key: &Key) -> Result<Option<Key>, SeqError>
        ensures value { Finds (S.contents self.old.seq) result (key_above key.now) }
        ensures above { IfOk result (IsKeyAbove key.now) }
        ensures valid { S.contents self.old.seq ≡ None → IfOk result IsKeyOfTrees }
        ensures unchanged { S.unchanged self.old.seq self.new.seq }
        ensures counted { self.new.calls ≡ one_more self.old.calls }
        ensures reads { self.new.calls ≤ self.old.calls + 1 }
        ensures cause { HasCause DiskFault (S.count self.old.seq) (S.count self.new.seq) result }
    {
        self.count();
        self.seq.key_above(alloc, key)
    }

    fn key_below(&mut self, alloc: Global, key: &Key) -> Result<Option<Key>, SeqError>
        ensures value { Finds (S.contents self.old.seq) result (key_below key.now) }
        ensures below { IfOk result (IsKeyBelow key.now) }
        ensures valid { S.contents self.old.seq ≡ None → IfOk result IsKeyOfTrees }
        ensures unchanged { S.unchanged self.old.seq self.new.seq }
        ensures counted { self.new.calls ≡ one_more self.old.calls }
        ensures reads { self.new.calls ≤ self.old.calls + 1 }
        ensures cause { HasCause DiskFault (S.count self.old.seq) (S.count self.new.seq) result }
    {
        self.count();
        self.seq.key_below(alloc, key)
    }

    fn faults(&self) -> u64 {
        self.seq.faults()
    }

    ghost unchanged_itself = { λ c. S.unchanged_itself c.seq };

    ghost unchanged_onward = { λ c d e a b. S.unchanged_onward c.seq d.seq e.seq a b };

    ghost unchanged_contents = { λ c d a. S.unchanged_contents c.seq d.seq a };

    ghost unchanged_count = { λ c d a. S.unchanged_count c.seq d.seq a };
}
