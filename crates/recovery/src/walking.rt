// The rules of a tree are tested over all that pages hold, with changes made on it: one record after another, none of which is kept.
ghost use Rattle.std.specs.Prelude.{◌≡◌, None, IsTrue, IfOk};
ghost use Rattle.outside_traits.specs.Faults.{HasCause};
ghost use Rattle.tree_model.specs.Changes.{Rising};
ghost use Rattle.tree_model.specs.Entries.{Sorted};
ghost use Rattle.tree_model.specs.Keys.{node_key};
ghost use Rattle.dewey_labels.specs.Labels.{root};
ghost use Rattle.node_seq.specs.Reads.{LiesBelow};
ghost use Rattle.node_seq.specs.declared.node_read.SeqError.TheVariants.{DiskFault};
ghost use Rattle.paged_seq.specs.PagedMaps.{file_entries};
ghost use Rattle.recovery.specs.inside.Walking.{BeginWith, IsTested};

use crate::merging::{put_before, take_record};
use dewey_labels::Label;
use node_seq::SeqError;
use outside_traits::Disk;
use paged_seq::PagedSeq;
use std::alloc::Global;
use tree_model::{Change, Key, Record};
use tree_rules::Tester;

/// The number of records before the first that breaks a rule of the tree, of those that the pages hold with these changes made.
/// It reads each data page once, and holds of the records what a tester does.
pub fn broken_at<P: Disk + Drop>(
    alloc: Global,
    seq: &mut PagedSeq<P>,
    changes: &[Change],
) -> Result<Option<u64>, SeqError>
    requires rising { Rising changes.now }
    requires sorted { IsTrue P.is_known → Sorted (file_entries (P.history seq.old.disk).now.reads) }
    ensures tested { IfOk result (λ found. IsTested P.is_known (P.history seq.old.disk).now.reads changes.now found) }
    ensures most { seq.new.pool.most ≡ seq.old.pool.most }
    ensures same { IsTrue P.is_known → P.history seq.new.disk ≡ P.history seq.old.disk }
    ensures cause { HasCause DiskFault (P.faults seq.old.disk) (P.faults seq.new.disk) result }
{
    let mut tester = Tester::new(alloc);
    let mut left = changes;
    let mut found = first_entry(alloc, seq)?;
    for _ in 0..u64::MAX {
        match found {
            Some(entry) => {
                left = take_record(alloc, left, &entry, &mut tester)?;
                found = seq.entry_above(alloc, &entry.0)?;
            }
            None => {
                let _none = put_before(alloc, left, None, &mut tester)?;
                return Ok(tester.broken_at());
            }
        }
    }
    // More records aren't counted.
    Err(SeqError::NoMemory)
}

/// The entry with the least key of all that the pages hold.
fn first_entry<P: Disk + Drop>(
    alloc: Global,
    seq: &mut PagedSeq<P>,
) -> Result<Option<(Key, Record)>, SeqError>
    requires sorted { IsTrue P.is_known → Sorted (file_entries (P.history seq.old.disk).now.reads) }
    ensures first { IfOk result (λ found. IsTrue P.is_known
        → BeginWith found (file_entries (P.history seq.old.disk).now.reads)) }
    ensures most { seq.new.pool.most ≡ seq.old.pool.most }
    ensures same { IsTrue P.is_known → P.history seq.new.disk ≡ P.history seq.old.disk }
    ensures cause { HasCause DiskFault (P.faults seq.old.disk) (P.faults seq.new.disk) result }
{
    let label = Label::root(alloc)?;
    let root = Key::of_node(alloc, &label)?;
    let below = seq.entry_below(alloc, &root)?;
    none_below(&root, &below);
    let found = seq.record_at(alloc, &root)?;
    match found {
        Some(record) => Ok(Some((root, record))),
        None => {
            let next = seq.entry_above(alloc, &root)?;
            Ok(next)
        }
    }
}

/// No entry stands below the root's key: each label begins with that of the root.
fn none_below(least: &Key, found: &Option<(Key, Record)>)
    requires root { least.now ≡ node_key root }
    requires below { LiesBelow least.now found.now }
    ensures { found.now ≡ None }
{
    let Some(entry) = found else {
        return;
    };
    let _divisions = entry.0.label.divisions();
    unreachable!()
}
