//! Walks over a subtree in the map: the entries of a node, of its attributes and of all that lies under it, each read once.
ghost use Rattle.std.specs.Prelude.{◌≡◌, ◌++◌, IfOk, OnErr, OnOk, Some, None, ◌≤◌, ◌+◌, length};
ghost use Rattle.dewey_labels.specs.Sides.{is_in, side};
ghost use Rattle.tree_model.specs.Entries.{Entries, Sorted};
ghost use Rattle.tree_model.specs.Keys.{node_key};
ghost use Rattle.node_seq.specs.Reads.{IsEntryOfTrees, LiesAbove};
ghost use Rattle.node_seq.specs.Trees.{OnTree};
ghost use Rattle.dom_reads.specs.ReadCounts.{ReadsOfTree, subtree_reads};
ghost use Rattle.dom_reads.specs.SubtreeWalks.{HasStepped, OnWalk, WalksWithin, entries_under, still_to_come, subtree_of};
ghost use Rattle.dom_reads.specs.inside.InSubtrees.{RisesTo, if_in};
ghost use Rattle.outside_traits.specs.Faults.{HasCause};

use dewey_labels::{Label, List};
use node_seq::{NodeRead, SeqError};
use std::alloc::Global;
use std::marker::Model;
use std::mem;
use tree_model::{Key, Record};

/// A walk over what lies below a node, seen as the node's label and the entry that it stands before; none at its end.
/// It meets the node's attributes, then its descendants in document order, each followed by its own attributes.
/// It reads one entry ahead, and none past the first behind the subtree.
#[derive(Debug, Drop)]
pub struct SubtreeWalk {
    at: Label,
    next: Option<(Key, Record)>,
}

impl Model for SubtreeWalk {
    ghost use Rattle.std.specs.Prelude.{IfSome, IsTrue};
    ghost use Rattle.dom_reads.specs.SubtreeWalks.{Stand, lies_in};

    ghost Value = { Stand };

    ghost view = { λ w. record { at = w.at; next = w.next } };

    ghost invariant = { λ w. IfSome w.next (λ e. IsTrue (lies_in w.at e)) };
}

impl SubtreeWalk {
    /// A walk over what lies below the node `at`.
    pub fn below<S: NodeRead>(
        alloc: Global,
        at: &Label,
        seq: &mut S,
    ) -> Result<SubtreeWalk, SeqError>
        ensures rest { IfOk result (λ walk. (es : Entries)
            → S.contents seq.old ≡ Some es → still_to_come walk es ≡ entries_under at.now es) }
        ensures above { IfOk result (λ walk. LiesAbove (node_key at.now) walk.next) }
        ensures valid { S.contents seq.old ≡ None → IfOk result (λ walk. IsEntryOfTrees walk.next) }
        ensures unchanged { S.unchanged seq.old seq.new }
        ensures reads { S.reads seq.new ≤ S.reads seq.old + 1 }
        ensures cause { HasCause SeqError.DiskFault (S.count seq.old) (S.count seq.new) result }
    {
        // It tells that a known map is in order.
        let _faults = seq.faults();
        let key = Key::of_node(alloc, at)?;
        let found = seq.next_from(alloc, &key)?;
        let next = in_subtree(at, found);
        let Key { label, .. } = key;
        Ok(SubtreeWalk { at: label, next })
    }

    /// The entry that the walk stands before; the walk goes on to the next one of the subtree.
    pub fn step<S: NodeRead>(
        &mut self,
        alloc: Global,
        seq: &mut S,
    ) -> Result<Option<(Key, Record)>, SeqError>
        requires valid { S.contents seq.old ≡ None → IsEntryOfTrees self.old.next }
        ensures stepped { IfOk result (HasStepped (S.contents seq.old) self.old self.new) }
        ensures err { OnErr result (self.new ≡ self.old) }
        ensures unchanged { S.unchanged seq.old seq.new }
        ensures reads { S.reads seq.new ≤ S.reads seq.old + 1 }
        ensures at_end { self.old.next ≡ None → S.reads seq.new ≤ S.reads seq.old }
        ensures within { WalksWithin (S.contents seq.old) self.old (S.reads seq.old) (S.reads seq.new) }
        ensures cause { HasCause SeqError.DiskFault (S.count seq.old) (S.count seq.new) result }
    {
        let _faults = seq.faults();
        let Some((key, _)) = &self.next else {
            return Ok(None);
        };
        let found = seq.next_from(alloc, key)?;
        let next = in_subtree(&self.at, found);
        Ok(mem::replace(&mut self.next, next))
    }
}

/// What was found, if it lies in the subtree of `at`.
fn in_subtree(at: &Label, found: Option<(Key, Record)>) -> Option<(Key, Record)>
    ensures { result ≡ if_in at.now found }
{
    let (key, record) = found?;
    if is_in_subtree(at, &key.label) {
        Some((key, record))
    } else {
        None
    }
}

/// Whether a label is `at` or lies under it.
fn is_in_subtree(at: &Label, label: &Label) -> bool
    ensures { result ≡ is_in (side at.now label.now) }
{
    label == at || at.is_ancestor_of(label)
}

/// The entries of a subtree: of the node `at`, of its attributes and of all that lies under it; none where there is no such node.
/// One read an entry and one more.
pub fn subtree<S: NodeRead>(
    alloc: Global,
    at: &Label,
    seq: &mut S,
) -> Result<List<(Key, Record)>, SeqError>
    ensures entries { OnTree (S.contents seq.old) result (λ t entries. entries ≡ subtree_of at.now t) }
    ensures rise { IfOk result Sorted }
    ensures unchanged { S.unchanged seq.old seq.new }
    ensures reads { IfOk result (λ entries. S.reads seq.new ≤ S.reads seq.old + (length entries + 1)) }
    ensures reads_of_tree { ReadsOfTree (S.contents seq.old) (subtree_reads at.now) (S.reads seq.old) (S.reads seq.new) }
    ensures cause { HasCause SeqError.DiskFault (S.count seq.old) (S.count seq.new) result }
{
    let mut entries = List::new(alloc);
    let key = Key::of_node(alloc, at)?;
    let Some(record) = seq.get(alloc, &key)? else {
        return Ok(entries);
    };
    entries.push((key, record))?;
    let mut walk = SubtreeWalk::below(alloc, at, seq)?;
    gather(alloc, &mut walk, &mut entries, seq)?;
    Ok(entries)
}

/// Puts all that a walk still meets behind the entries before it.
fn gather<S: NodeRead>(
    alloc: Global,
    walk: &mut SubtreeWalk,
    entries: &mut List<(Key, Record)>,
    seq: &mut S,
) -> Result<(), SeqError>
    requires valid { S.contents seq.old ≡ None → IsEntryOfTrees walk.old.next }
    requires rise { RisesTo walk.old.next entries.old }
    ensures gathered { OnOk result (OnWalk (S.contents seq.old) walk.old (λ met.
        entries.new ≡ entries.old ++ met)) }
    ensures rise { OnOk result (Sorted entries.new) }
    ensures unchanged { S.unchanged seq.old seq.new }
    ensures reads { OnOk result (S.reads seq.new + length entries.old ≤ S.reads seq.old + length entries.new) }
    ensures within { WalksWithin (S.contents seq.old) walk.old (S.reads seq.old) (S.reads seq.new) }
    ensures cause { HasCause SeqError.DiskFault (S.count seq.old) (S.count seq.new) result }
{
    while let Some(entry) = walk.step(alloc, seq)? {
        entries.push(entry)?;
    }
    Ok(())
}
