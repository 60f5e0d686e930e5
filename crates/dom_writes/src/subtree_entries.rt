//! The entries below a node, apart from its attributes.
ghost use Rattle.std.specs.Prelude.{◌≡◌, IfOk, OnOk};
ghost use Rattle.tree_model.specs.Entries.{Sorted};
ghost use Rattle.tree_model.specs.Tree.{at as node_at, below, entries_of};
ghost use Rattle.node_seq.specs.Trees.{OnTree};
ghost use Rattle.outside_traits.specs.Faults.{HasCause};
ghost use Rattle.dom_reads.specs.ReadCounts.{ReadsOfTree, subtree_reads};
ghost use Rattle.dom_writes.specs.inside.EntriesBelow.{without_own};

use dewey_labels::{Label, List, NoMemory};
use dom_reads::subtree;
use node_seq::{NodeRead, SeqError};
use std::alloc::Global;
use tree_model::{Key, Record};

/// The entries of all that lies below a node, without its own and those of its attributes; none where there is no such node.
/// One read for each entry of its subtree and one more.
pub fn entries_below<S: NodeRead>(
    alloc: Global,
    at: &Label,
    seq: &mut S,
) -> Result<List<(Key, Record)>, SeqError>
    ensures entries { OnTree (S.contents seq.old) result (λ t entries. entries ≡ entries_of (below (node_at at.now t.documents))) }
    ensures rise { IfOk result Sorted }
    ensures unchanged { S.unchanged seq.old seq.new }
    ensures reads { ReadsOfTree (S.contents seq.old) (subtree_reads at.now) (S.reads seq.old) (S.reads seq.new) }
    ensures cause { HasCause SeqError.DiskFault (S.count seq.old) (S.count seq.new) result }
{
    let entries = subtree(alloc, at, seq)?;
    Ok(without_own(alloc, at, entries)?)
}

/// The entries with other labels.
fn without_own(
    alloc: Global,
    at: &Label,
    entries: List<(Key, Record)>,
) -> Result<List<(Key, Record)>, NoMemory>
    ensures { IfOk result (λ rest. rest ≡ without_own at.now entries) }
{
    let mut rest = List::new(alloc);
    for (key, record) in entries.into_vec() {
        if key.label != *at {
            rest.push((key, record))?;
        }
    }
    Ok(rest)
}
