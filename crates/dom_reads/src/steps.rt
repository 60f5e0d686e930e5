//! Steps from a node to what stands beside it: a read of the map each, whatever lies below the node, and no record is copied for a label.
ghost use Rattle.std.specs.Prelude.{◌≡◌, IfOk, IfSome, IsTrue, None, ◌≤◌, ◌+◌};
ghost use Rattle.std.specs.Ordering.{nat_cmp};
ghost use Rattle.std.specs.Cmp.Lexicographic.{slice_cmp};
ghost use Rattle.std.specs.declared.cmp.Ordering.TheVariants.{Less};
ghost use Rattle.dewey_labels.specs.Labels.{IsLabel, is_child, parent as parent_of};
ghost use Rattle.tree_model.specs.Entries.{get};
ghost use Rattle.tree_model.specs.Keys.{node_key};
ghost use Rattle.tree_model.specs.Places.{attributes_at, first_in, last_in};
ghost use Rattle.tree_model.specs.Tree.{at as node_at, beside, next_of, prev_of, record_of};
ghost use Rattle.node_seq.specs.Reads.{Finds, IsRecordOfTrees};
ghost use Rattle.node_seq.specs.Trees.{OnTree};
ghost use Rattle.outside_traits.specs.Faults.{HasCause};
ghost use Rattle.dom_reads.specs.FoundNodes.{HasNodeAt};
ghost use Rattle.dom_reads.specs.inside.Steps.{value_of, toward_key, if_behind};

use dewey_labels::{Label, NoMemory, Text};
use node_seq::{NodeRead, SeqError};
use std::alloc::Global;
use tree_model::{Key, Record};

/// The record of the node with a label, if there is one.
pub fn record_at<S: NodeRead>(
    alloc: Global,
    at: &Label,
    seq: &mut S,
) -> Result<Option<Record>, SeqError>
    ensures found { OnTree (S.contents seq.old) result (λ t r. r ≡ record_of (node_at at.now t.documents)) }
    ensures map { Finds (S.contents seq.old) result (get (node_key at.now)) }
    ensures valid { S.contents seq.old ≡ None → IfOk result IsRecordOfTrees }
    ensures unchanged { S.unchanged seq.old seq.new }
    ensures reads { S.reads seq.new ≤ S.reads seq.old + 1 }
    ensures cause { HasCause SeqError.DiskFault (S.count seq.old) (S.count seq.new) result }
{
    let key = Key::of_node(alloc, at)?;
    seq.get(alloc, &key)
}

/// The value of an attribute with a name, if the place has one; the root's attributes are the catalogue's entries.
pub fn attribute_at<S: NodeRead>(
    alloc: Global,
    at: &Label,
    name: &Text,
    seq: &mut S,
) -> Result<Option<Text>, SeqError>
    ensures found { OnTree (S.contents seq.old) result (λ t value. value ≡ beside name.now (attributes_at at.now t)) }
    ensures unchanged { S.unchanged seq.old seq.new }
    ensures reads { S.reads seq.new ≤ S.reads seq.old + 1 }
    ensures cause { HasCause SeqError.DiskFault (S.count seq.old) (S.count seq.new) result }
{
    // With the empty name the key would be the node's own.
    if name.as_str().is_empty() {
        return Ok(None);
    }
    let key = Key::of_attribute(alloc, at, name.as_str())?;
    let found = seq.get(alloc, &key)?;
    Ok(value_of(found))
}

/// The value of an attribute's record.
fn value_of(entry: Option<Record>) -> Option<Text>
    ensures { result ≡ value_of entry }
{
    match entry {
        Some(Record::Attr(value)) => Some(value),
        _ => None,
    }
}

/// The first child of a node, or the first document below the root.
pub fn first_child<S: NodeRead>(
    alloc: Global,
    at: &Label,
    seq: &mut S,
) -> Result<Option<Label>, SeqError>
    ensures found { OnTree (S.contents seq.old) result (λ t child. child ≡ first_in at.now t) }
    ensures child { IfOk result (λ child. IfSome child (λ c. IsTrue (is_child at.now c))) }
    ensures label { IfOk result (λ child. IfSome child IsLabel) }
    ensures unchanged { S.unchanged seq.old seq.new }
    ensures reads { S.reads seq.new ≤ S.reads seq.old + 1 }
    ensures cause { HasCause SeqError.DiskFault (S.count seq.old) (S.count seq.new) result }
{
    let _divisions = at.divisions();
    let key = Key::behind_attributes(alloc, at)?;
    let found = seq.key_above(alloc, &key)?;
    Ok(child_toward(alloc, at, found)?)
}

/// The last child of a node, or the last document below the root.
pub fn last_child<S: NodeRead>(
    alloc: Global,
    at: &Label,
    seq: &mut S,
) -> Result<Option<Label>, SeqError>
    ensures found { OnTree (S.contents seq.old) result (λ t child. child ≡ last_in at.now t) }
    ensures child { IfOk result (λ child. IfSome child (λ c. IsTrue (is_child at.now c))) }
    ensures label { IfOk result (λ child. IfSome child IsLabel) }
    ensures unchanged { S.unchanged seq.old seq.new }
    ensures reads { S.reads seq.new ≤ S.reads seq.old + 1 }
    ensures cause { HasCause SeqError.DiskFault (S.count seq.old) (S.count seq.new) result }
{
    let _divisions = at.divisions();
    let key = Key::behind_tree(alloc, at)?;
    let found = seq.key_below(alloc, &key)?;
    Ok(child_toward(alloc, at, found)?)
}

/// The next sibling of a node that is there; a document's is the next document.
pub fn next_sibling<S: NodeRead>(
    alloc: Global,
    at: &Label,
    seq: &mut S,
) -> Result<Option<Label>, SeqError>
    ensures found { OnTree (S.contents seq.old) result (λ t next. HasNodeAt at.now t
        → next ≡ next_of (node_at at.now t.documents)) }
    ensures sibling { IfOk result (λ next. IfSome next (λ n. IsTrue (is_child (parent_of at.now) n))) }
    ensures label { IfOk result (λ next. IfSome next IsLabel) }
    ensures behind { IfOk result (λ next. IfSome next (λ n. slice_cmp nat_cmp at.now n ≡ Less)) }
    ensures unchanged { S.unchanged seq.old seq.new }
    ensures reads { S.reads seq.new ≤ S.reads seq.old + 1 }
    ensures cause { HasCause SeqError.DiskFault (S.count seq.old) (S.count seq.new) result }
{
    let Some(parent) = at.parent(alloc)? else {
        return Ok(None);
    };
    let key = Key::behind_tree(alloc, at)?;
    let found = seq.key_above(alloc, &key)?;
    let sibling = child_toward(alloc, &parent, found)?;
    Ok(behind(at, sibling))
}

/// The previous sibling of a node that is there; a document's is the previous document.
pub fn previous_sibling<S: NodeRead>(
    alloc: Global,
    at: &Label,
    seq: &mut S,
) -> Result<Option<Label>, SeqError>
    ensures found { OnTree (S.contents seq.old) result (λ t previous. HasNodeAt at.now t
        → previous ≡ prev_of None at.now t.documents) }
    ensures sibling { IfOk result (λ previous. IfSome previous (λ p. IsTrue (is_child (parent_of at.now) p))) }
    ensures label { IfOk result (λ previous. IfSome previous IsLabel) }
    ensures ahead { IfOk result (λ previous. IfSome previous (λ p. slice_cmp nat_cmp p at.now ≡ Less)) }
    ensures unchanged { S.unchanged seq.old seq.new }
    ensures reads { S.reads seq.new ≤ S.reads seq.old + 1 }
    ensures cause { HasCause SeqError.DiskFault (S.count seq.old) (S.count seq.new) result }
{
    let Some(parent) = at.parent(alloc)? else {
        return Ok(None);
    };
    let key = Key::of_node(alloc, at)?;
    let found = seq.key_below(alloc, &key)?;
    Ok(child_toward(alloc, &parent, found)?)
}

/// The child of a node on the way to the key that was found, if that lies under the node.
fn child_toward(alloc: Global, at: &Label, found: Option<Key>) -> Result<Option<Label>, NoMemory>
    ensures value { IfOk result (λ child. child ≡ toward_key at.now found) }
    ensures child { IfOk result (λ child. IfSome child (λ c. IsTrue (is_child at.now c))) }
    ensures label { IfOk result (λ child. IfSome child IsLabel) }
{
    match found {
        Some(key) => {
            // They tell that both are labels, and so is the child's.
            let _divisions = at.divisions();
            let _below = key.label.divisions();
            at.child_toward(alloc, &key.label)
        }
        None => Ok(None),
    }
}

/// A sibling that comes behind a label. In a tree each one that was sought behind it does; a map that is none may have keys that no tree has.
fn behind(at: &Label, sibling: Option<Label>) -> Option<Label>
    ensures { result ≡ if_behind at.now sibling }
{
    match sibling {
        Some(next) if *at < next => Some(next),
        _ => None,
    }
}
