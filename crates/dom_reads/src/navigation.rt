//! What a node is, and the calls that lead from node to node (DOM Level 3 Core, interface Node).
ghost use Rattle.std.specs.Prelude.{◌≡◌, ◌≢◌, IfOk, Ok, Some, ◌≤◌, ◌+◌, length};
ghost use Rattle.dewey_labels.specs.Labels.{Label, root};
ghost use Rattle.tree_model.specs.declared.dom_call.DomCall.TheVariants as call;
ghost use Rattle.tree_model.specs.declared.reply.Reply.TheVariants.{Place};
ghost use Rattle.tree_model.specs.Navigation as navigation;
ghost use Rattle.tree_model.specs.Tree.{Tree};
ghost use Rattle.node_seq.specs.Trees.{OnTree, StandsFor};
ghost use Rattle.outside_traits.specs.Faults.{HasCause};
ghost use Rattle.dom_reads.specs.FoundNodes.{HasNodeAt, children_at};
ghost use Rattle.dom_reads.specs.ReadCounts.{ReadsOfTree, children_reads, items_listed, most_reads};

use crate::kinds::is_document;
use crate::refusals::not_found;
use crate::{first_below, first_child, last_below, next_sibling, previous_sibling, record_at};
use dewey_labels::{Label, List, NoMemory, Text};
use node_seq::{NodeRead, SeqError};
use std::alloc::Global;
use tree_model::{Record, Reply};

/// What a node is: `nodeType`, `nodeName` and `nodeValue`. One read.
pub fn node<S: NodeRead>(alloc: Global, at: &Label, seq: &mut S) -> Result<Reply, SeqError>
    ensures reply { OnTree (S.contents seq.old) result (λ t reply. reply ≡ navigation.node_of at.now t) }
    ensures unchanged { S.unchanged seq.old seq.new }
    ensures reads { S.reads seq.new ≤ S.reads seq.old + 1 }
    ensures cause { HasCause SeqError.DiskFault (S.count seq.old) (S.count seq.new) result }
{
    match record_at(alloc, at, seq)? {
        Some(found) => Ok(describe(alloc, found)?),
        None => Ok(not_found()),
    }
}

/// A node by its record. An attribute's is no node's.
fn describe(alloc: Global, node: Record) -> Result<Reply, NoMemory>
    ensures { IfOk result (λ reply. reply ≡ navigation.described node) }
{
    let (kind, name, value) = match node {
        Record::Document => (9, Text::of(alloc, "#document")?, None),
        Record::Element(name) => (1, name, None),
        Record::Text(data) => (3, Text::of(alloc, "#text")?, Some(data)),
        Record::Attr(_) => return Ok(not_found()),
    };
    Ok(Reply::Node { kind, name, value })
}

/// `parentNode`: none for a document. One read.
pub fn parent<S: NodeRead>(alloc: Global, at: &Label, seq: &mut S) -> Result<Reply, SeqError>
    ensures reply { OnTree (S.contents seq.old) result (λ t reply. reply ≡ navigation.parent_of at.now t) }
    ensures unchanged { S.unchanged seq.old seq.new }
    ensures reads { S.reads seq.new ≤ S.reads seq.old + 1 }
    ensures cause { HasCause SeqError.DiskFault (S.count seq.old) (S.count seq.new) result }
{
    let Some(found) = record_at(alloc, at, seq)? else {
        return Ok(not_found());
    };
    if is_document(&found) {
        return Ok(Reply::Place(None));
    }
    Ok(Reply::Place(at.parent(alloc)?))
}

/// `firstChild`. One read where there is a child, and two where there is none, whatever lies below.
pub fn first<S: NodeRead>(alloc: Global, at: &Label, seq: &mut S) -> Result<Reply, SeqError>
    ensures reply { OnTree (S.contents seq.old) result (λ t reply. reply ≡ navigation.first at.now t) }
    ensures unchanged { S.unchanged seq.old seq.new }
    ensures reads { S.reads seq.new ≤ S.reads seq.old + 2 }
    ensures child_read { (child : Label) → result ≡ Ok (Place (Some child)) → at.now ≢ root → S.reads seq.new ≤ S.reads seq.old + 1 }
    ensures reads_of_tree { ReadsOfTree (S.contents seq.old) (most_reads (call.First at.now)) (S.reads seq.old) (S.reads seq.new) }
    ensures cause { HasCause SeqError.DiskFault (S.count seq.old) (S.count seq.new) result }
{
    match first_below(alloc, at, seq)? {
        Some(child) => Ok(Reply::Place(child)),
        None => Ok(not_found()),
    }
}

/// `lastChild`. One read where there is a child, and two where there is none, whatever lies below.
pub fn last<S: NodeRead>(alloc: Global, at: &Label, seq: &mut S) -> Result<Reply, SeqError>
    ensures reply { OnTree (S.contents seq.old) result (λ t reply. reply ≡ navigation.last at.now t) }
    ensures unchanged { S.unchanged seq.old seq.new }
    ensures reads { S.reads seq.new ≤ S.reads seq.old + 2 }
    ensures child_read { (child : Label) → result ≡ Ok (Place (Some child)) → at.now ≢ root → S.reads seq.new ≤ S.reads seq.old + 1 }
    ensures reads_of_tree { ReadsOfTree (S.contents seq.old) (most_reads (call.Last at.now)) (S.reads seq.old) (S.reads seq.new) }
    ensures cause { HasCause SeqError.DiskFault (S.count seq.old) (S.count seq.new) result }
{
    match last_below(alloc, at, seq)? {
        Some(child) => Ok(Reply::Place(child)),
        None => Ok(not_found()),
    }
}

/// `nextSibling`: none for a document. Two reads, whatever lies below.
pub fn next<S: NodeRead>(alloc: Global, at: &Label, seq: &mut S) -> Result<Reply, SeqError>
    ensures reply { OnTree (S.contents seq.old) result (λ t reply. reply ≡ navigation.next at.now t) }
    ensures unchanged { S.unchanged seq.old seq.new }
    ensures reads { S.reads seq.new ≤ S.reads seq.old + 2 }
    ensures cause { HasCause SeqError.DiskFault (S.count seq.old) (S.count seq.new) result }
{
    let Some(found) = record_at(alloc, at, seq)? else {
        return Ok(not_found());
    };
    if is_document(&found) {
        return Ok(Reply::Place(None));
    }
    Ok(Reply::Place(next_sibling(alloc, at, seq)?))
}

/// `previousSibling`: none for a document. Two reads, whatever lies between.
pub fn prev<S: NodeRead>(alloc: Global, at: &Label, seq: &mut S) -> Result<Reply, SeqError>
    ensures reply { OnTree (S.contents seq.old) result (λ t reply. reply ≡ navigation.prev at.now t) }
    ensures unchanged { S.unchanged seq.old seq.new }
    ensures reads { S.reads seq.new ≤ S.reads seq.old + 2 }
    ensures cause { HasCause SeqError.DiskFault (S.count seq.old) (S.count seq.new) result }
{
    let Some(found) = record_at(alloc, at, seq)? else {
        return Ok(not_found());
    };
    if is_document(&found) {
        return Ok(Reply::Place(None));
    }
    Ok(Reply::Place(previous_sibling(alloc, at, seq)?))
}

/// `childNodes`. One read a child and two more, whatever lies below the children.
pub fn children<S: NodeRead>(alloc: Global, at: &Label, seq: &mut S) -> Result<Reply, SeqError>
    ensures reply { OnTree (S.contents seq.old) result (λ t reply. reply ≡ navigation.children at.now t) }
    ensures unchanged { S.unchanged seq.old seq.new }
    ensures reads { IfOk result (λ reply. S.reads seq.new ≤ S.reads seq.old + (items_listed reply + 2)) }
    ensures reads_of_tree { ReadsOfTree (S.contents seq.old) (most_reads (call.Children at.now)) (S.reads seq.old) (S.reads seq.new) }
    ensures cause { HasCause SeqError.DiskFault (S.count seq.old) (S.count seq.new) result }
{
    if record_at(alloc, at, seq)?.is_none() {
        return Ok(not_found());
    }
    Ok(Reply::Places(child_labels(alloc, at, seq)?))
}

/// The labels of the children of a node that is there.
fn child_labels<S: NodeRead>(
    alloc: Global,
    at: &Label,
    seq: &mut S,
) -> Result<List<Label>, SeqError>
    ensures labels { OnTree (S.contents seq.old) result (λ t labels. HasNodeAt at.now t
        → labels ≡ children_at at.now t) }
    ensures unchanged { S.unchanged seq.old seq.new }
    ensures reads { IfOk result (λ labels. S.reads seq.new ≤ S.reads seq.old + (length labels + 1)) }
    ensures reads_of_tree { (t : Tree) → StandsFor (S.contents seq.old) t → HasNodeAt at.now t
        → S.reads seq.new ≤ S.reads seq.old + children_reads at.now t }
    ensures cause { HasCause SeqError.DiskFault (S.count seq.old) (S.count seq.new) result }
{
    let mut labels = List::new(alloc);
    let mut next = first_child(alloc, at, seq)?;
    while let Some(child) = next {
        next = next_sibling(alloc, &child, seq)?;
        labels.push(child)?;
    }
    Ok(labels)
}
