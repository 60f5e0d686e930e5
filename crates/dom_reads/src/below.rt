//! The nodes that stand first and last below a node, where it may not be there.
//! A child that is found shows its parent, so the parent is read only where none is found.
ghost use Rattle.std.specs.Prelude.{◌≡◌, ◌≢◌, is_some, IfOk, IfSome, IsSome, IsTrue, ◌≤◌, ◌+◌};
ghost use Rattle.dewey_labels.specs.Labels.{root};
ghost use Rattle.tree_model.specs.Tree.{at as node_at, first_of, found, last_child_of};
ghost use Rattle.node_seq.specs.Trees.{OnTree};
ghost use Rattle.outside_traits.specs.Faults.{HasCause};
ghost use Rattle.dom_reads.specs.ReadCounts.{ReadsOfTree, child_reads};

use crate::{first_child, last_child, record_at};
use dewey_labels::Label;
use node_seq::{NodeRead, SeqError};
use std::alloc::Global;

/// The first child of a node, if it has one; nothing where there is no such node. One read where there is a child, and two where there is none.
pub fn first_below<S: NodeRead>(
    alloc: Global,
    at: &Label,
    seq: &mut S,
) -> Result<Option<Option<Label>>, SeqError>
    ensures there { OnTree (S.contents seq.old) result (λ t below. is_some below ≡ found (node_at at.now t.documents)) }
    ensures child { OnTree (S.contents seq.old) result (λ t below. IfSome below (λ child. child ≡ first_of (node_at at.now t.documents))) }
    ensures unchanged { S.unchanged seq.old seq.new }
    ensures reads { S.reads seq.new ≤ S.reads seq.old + 2 }
    ensures child_read { IfOk result (λ below. IfSome below (λ child. IsSome child → at.now ≢ root → S.reads seq.new ≤ S.reads seq.old + 1)) }
    ensures reads_of_tree { ReadsOfTree (S.contents seq.old) (λ t. child_reads (first_of (node_at at.now t.documents))) (S.reads seq.old) (S.reads seq.new) }
    ensures cause { HasCause SeqError.DiskFault (S.count seq.old) (S.count seq.new) result }
{
    let child = first_child(alloc, at, seq)?;
    if shows_node(at, &child) {
        return Ok(Some(child));
    }
    if record_at(alloc, at, seq)?.is_none() {
        return Ok(None);
    }
    Ok(Some(child))
}

/// The last child of a node, if it has one; nothing where there is no such node. One read where there is a child, and two where there is none.
pub fn last_below<S: NodeRead>(
    alloc: Global,
    at: &Label,
    seq: &mut S,
) -> Result<Option<Option<Label>>, SeqError>
    ensures there { OnTree (S.contents seq.old) result (λ t below. is_some below ≡ found (node_at at.now t.documents)) }
    ensures child { OnTree (S.contents seq.old) result (λ t below. IfSome below (λ child. child ≡ last_child_of (node_at at.now t.documents))) }
    ensures unchanged { S.unchanged seq.old seq.new }
    ensures reads { S.reads seq.new ≤ S.reads seq.old + 2 }
    ensures child_read { IfOk result (λ below. IfSome below (λ child. IsSome child → at.now ≢ root → S.reads seq.new ≤ S.reads seq.old + 1)) }
    ensures reads_of_tree { ReadsOfTree (S.contents seq.old) (λ t. child_reads (last_child_of (node_at at.now t.documents))) (S.reads seq.old)
        (S.reads seq.new) }
    ensures cause { HasCause SeqError.DiskFault (S.count seq.old) (S.count seq.new) result }
{
    let child = last_child(alloc, at, seq)?;
    if shows_node(at, &child) {
        return Ok(Some(child));
    }
    if record_at(alloc, at, seq)?.is_none() {
        return Ok(None);
    }
    Ok(Some(child))
}

/// Whether what was found below a label shows that a node has it. What stands below the root does not, since the root is no node.
fn shows_node(at: &Label, child: &Option<Label>) -> bool
    ensures child { IsTrue result → IsSome child.now }
    ensures below_root { IsTrue result → at.now ≢ root }
    ensures shown { IsSome child.now → at.now ≢ root → IsTrue result }
{
    // It tells that only the root has the level 0.
    let _divisions = at.divisions();
    child.is_some() && at.level() > 0
}
