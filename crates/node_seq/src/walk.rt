//! Walks over a map: all entries above a key or below it, by one read after another.
ghost use Rattle.std.specs.Prelude.{◌≡◌, ◌≤◌, ◌+◌, length, reverse, IfOk, OnErr, Some, None};
ghost use Rattle.tree_model.specs.Entries.{Entries, entries_above, entries_below};
ghost use Rattle.node_seq.specs.Reads.{IsEntryOfTrees};
ghost use Rattle.node_seq.specs.WalkSteps.{from_entry, HasStepped};
ghost use Rattle.node_seq.specs.declared.node_read.SeqError.TheVariants.{DiskFault};
ghost use Rattle.outside_traits.specs.Faults.{HasCause};

use crate::{NodeRead, SeqError};
use dewey_labels::List;
use std::alloc::Global;
use std::marker::Model;
use std::mem;
use tree_model::{Key, Record};

/// A walk upwards over a map, seen as the entry that it stands before; none at its end. It reads one entry ahead.
#[derive(Debug, Drop)]
pub struct Walk {
    next: Option<(Key, Record)>,
}

impl Model for Walk {
    ghost use Rattle.std.specs.Prelude as p;
    ghost use Rattle.tree_model.specs.declared.key.Key.{Key};
    ghost use Rattle.tree_model.specs.declared.record.Record.{Record};

    ghost Value = { p.Option (Key × Record) };

    ghost view = { λ w. w.next };
}

impl Walk {
    /// A walk over the entries above a key.
    pub fn above<S: NodeRead>(alloc: Global, key: &Key, seq: &mut S) -> Result<Walk, SeqError>
        ensures rest { IfOk result (λ walk. (es : Entries) → S.contents seq.old ≡ Some es → from_entry walk es ≡ entries_above key.now es) }
        ensures valid { S.contents seq.old ≡ None → IfOk result IsEntryOfTrees }
        ensures unchanged { S.unchanged seq.old seq.new }
        ensures reads { S.reads seq.new ≤ S.reads seq.old + 1 }
        ensures cause { HasCause DiskFault (S.count seq.old) (S.count seq.new) result }
    {
        // It tells that a known map is in order.
        let _faults = seq.faults();
        let next = seq.next_from(alloc, key)?;
        Ok(Walk { next })
    }

    /// The entry that the walk stands before; the walk goes on to the one above it.
    pub fn step<S: NodeRead>(
        &mut self,
        alloc: Global,
        seq: &mut S,
    ) -> Result<Option<(Key, Record)>, SeqError>
        requires valid { S.contents seq.old ≡ None → IsEntryOfTrees self.old }
        ensures stepped { IfOk result (HasStepped (S.contents seq.old) self.old self.new) }
        ensures err { OnErr result (self.new ≡ self.old) }
        ensures unchanged { S.unchanged seq.old seq.new }
        ensures reads { S.reads seq.new ≤ S.reads seq.old + 1 }
        ensures end_unread { self.old ≡ None → S.reads seq.new ≤ S.reads seq.old }
        ensures cause { HasCause DiskFault (S.count seq.old) (S.count seq.new) result }
    {
        let _faults = seq.faults();
        let Some((at, _)) = &self.next else {
            return Ok(None);
        };
        let next = seq.next_from(alloc, at)?;
        Ok(mem::replace(&mut self.next, next))
    }
}

/// All entries above a key, in their order.
pub fn entries_above<S: NodeRead>(
    alloc: Global,
    key: &Key,
    seq: &mut S,
) -> Result<List<(Key, Record)>, SeqError>
    ensures value { IfOk result (λ found. (es : Entries) → S.contents seq.old ≡ Some es → found ≡ entries_above key.now es) }
    ensures unchanged { S.unchanged seq.old seq.new }
    ensures reads { IfOk result (λ found. S.reads seq.new ≤ S.reads seq.old + (length found + 1)) }
    ensures cause { HasCause DiskFault (S.count seq.old) (S.count seq.new) result }
{
    let mut out = List::new(alloc);
    let mut walk = Walk::above(alloc, key, seq)?;
    while let Some(entry) = walk.step(alloc, seq)? {
        out.push(entry)?;
    }
    Ok(out)
}

/// All entries below a key, from the nearest to the first.
pub fn entries_below<S: NodeRead>(
    alloc: Global,
    key: &Key,
    seq: &mut S,
) -> Result<List<(Key, Record)>, SeqError>
    ensures value { IfOk result (λ found. (es : Entries) → S.contents seq.old ≡ Some es → found ≡ reverse (entries_below key.now es)) }
    ensures unchanged { S.unchanged seq.old seq.new }
    ensures reads { IfOk result (λ found. S.reads seq.new ≤ S.reads seq.old + (length found + 1)) }
    ensures cause { HasCause DiskFault (S.count seq.old) (S.count seq.new) result }
{
    let _faults = seq.faults();
    let mut out = List::new(alloc);
    let mut found = seq.prev_from(alloc, key)?;
    while let Some((at, record)) = found {
        found = seq.prev_from(alloc, &at)?;
        out.push((at, record))?;
    }
    Ok(out)
}
