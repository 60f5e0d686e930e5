//! The calls on attributes (DOM Level 3 Core, interface Element), and all attributes of a place.
ghost use Rattle.std.specs.Prelude.{◌≡◌, [], if◌then◌else◌, unwrap_or, IfOk, None, ◌≤◌, ◌+◌, length};
ghost use Rattle.tree_model.specs.Attributes as attributes;
ghost use Rattle.tree_model.specs.declared.dom_call.DomCall.TheVariants as call;
ghost use Rattle.tree_model.specs.Names.{is_name};
ghost use Rattle.tree_model.specs.Places.{attributes_at};
ghost use Rattle.tree_model.specs.Tree.{beside};
ghost use Rattle.node_seq.specs.Trees.{OnTree};
ghost use Rattle.outside_traits.specs.Faults.{HasCause};
ghost use Rattle.dom_reads.specs.ReadCounts.{ReadsOfTree, items_listed, most_reads};
ghost use Rattle.dom_reads.specs.inside.AttributeWalks.{attribute_of};

use crate::kinds::is_element;
use crate::refusals::{not_found, not_supported};
use crate::{attribute_at, record_at};
use dewey_labels::{Label, List, NoMemory, Text};
use node_seq::{NodeRead, SeqError};
use std::alloc::Global;
use tree_model::{Key, Record, Reply, is_name};

/// `getAttribute`: the value, empty where the element has no attribute with the name. Two reads at most.
pub fn attr<S: NodeRead>(
    alloc: Global,
    at: &Label,
    name: &Text,
    seq: &mut S,
) -> Result<Reply, SeqError>
    ensures reply { OnTree (S.contents seq.old) result (λ t reply. reply ≡ attributes.attr at.now name.now t) }
    ensures unchanged { S.unchanged seq.old seq.new }
    ensures reads { S.reads seq.new ≤ S.reads seq.old + 2 }
    ensures cause { HasCause SeqError.DiskFault (S.count seq.old) (S.count seq.new) result }
{
    let Some(found) = record_at(alloc, at, seq)? else {
        return Ok(not_found());
    };
    if !is_element(&found) {
        return Ok(not_supported());
    }
    let value = named_attribute(alloc, at, name, seq)?;
    Ok(Reply::Chars(value_or_empty(alloc, value)?))
}

/// An attribute's value, or the empty text.
fn value_or_empty(alloc: Global, value: Option<Text>) -> Result<Text, NoMemory>
    ensures { IfOk result (λ text. text ≡ unwrap_or value []) }
{
    match value {
        Some(value) => Ok(value),
        None => Text::of(alloc, ""),
    }
}

/// `hasAttribute`. Two reads at most.
pub fn has_attr<S: NodeRead>(
    alloc: Global,
    at: &Label,
    name: &Text,
    seq: &mut S,
) -> Result<Reply, SeqError>
    ensures reply { OnTree (S.contents seq.old) result (λ t reply. reply ≡ attributes.has_attr at.now name.now t) }
    ensures unchanged { S.unchanged seq.old seq.new }
    ensures reads { S.reads seq.new ≤ S.reads seq.old + 2 }
    ensures cause { HasCause SeqError.DiskFault (S.count seq.old) (S.count seq.new) result }
{
    let Some(found) = record_at(alloc, at, seq)? else {
        return Ok(not_found());
    };
    if !is_element(&found) {
        return Ok(not_supported());
    }
    let value = named_attribute(alloc, at, name, seq)?;
    Ok(Reply::Flag(value.is_some()))
}

/// The value of an attribute; none where its name is no Name.
fn named_attribute<S: NodeRead>(
    alloc: Global,
    at: &Label,
    name: &Text,
    seq: &mut S,
) -> Result<Option<Text>, SeqError>
    ensures value { OnTree (S.contents seq.old) result (λ t value. value ≡ (if is_name name.now then beside name.now (attributes_at at.now t) else None)) }
    ensures unchanged { S.unchanged seq.old seq.new }
    ensures reads { S.reads seq.new ≤ S.reads seq.old + 1 }
    ensures cause { HasCause SeqError.DiskFault (S.count seq.old) (S.count seq.new) result }
{
    if !is_name(name) {
        return Ok(None);
    }
    attribute_at(alloc, at, name, seq)
}

/// `attributes`: all of an element's, by name. One read an attribute and two more.
pub fn attrs<S: NodeRead>(alloc: Global, at: &Label, seq: &mut S) -> Result<Reply, SeqError>
    ensures reply { OnTree (S.contents seq.old) result (λ t reply. reply ≡ attributes.attrs at.now t) }
    ensures unchanged { S.unchanged seq.old seq.new }
    ensures reads { IfOk result (λ reply. S.reads seq.new ≤ S.reads seq.old + (items_listed reply + 2)) }
    ensures reads_of_tree { ReadsOfTree (S.contents seq.old) (most_reads (call.Attrs at.now)) (S.reads seq.old) (S.reads seq.new) }
    ensures cause { HasCause SeqError.DiskFault (S.count seq.old) (S.count seq.new) result }
{
    let Some(found) = record_at(alloc, at, seq)? else {
        return Ok(not_found());
    };
    if !is_element(&found) {
        return Ok(Reply::Attrs(None));
    }
    Ok(Reply::Attrs(Some(all_attributes(alloc, at, seq)?)))
}

/// All attributes of a place, by name; the root's are the catalogue's entries. One read an attribute and one more.
pub fn all_attributes<S: NodeRead>(
    alloc: Global,
    at: &Label,
    seq: &mut S,
) -> Result<List<(Text, Text)>, SeqError>
    ensures found { OnTree (S.contents seq.old) result (λ t found. found ≡ attributes_at at.now t) }
    ensures unchanged { S.unchanged seq.old seq.new }
    ensures reads { IfOk result (λ found. S.reads seq.new ≤ S.reads seq.old + (length found + 1)) }
    ensures reads_of_tree { ReadsOfTree (S.contents seq.old) (λ t. length (attributes_at at.now t) + 1) (S.reads seq.old) (S.reads seq.new) }
    ensures cause { HasCause SeqError.DiskFault (S.count seq.old) (S.count seq.new) result }
{
    // It tells that a known map is in order.
    let _faults = seq.faults();
    let mut attributes = List::new(alloc);
    let key = Key::of_node(alloc, at)?;
    let mut next = attribute_of(at, seq.next_from(alloc, &key)?);
    while let Some((key, value)) = next {
        next = attribute_of(at, seq.next_from(alloc, &key)?);
        attributes.push((key.name, value))?;
    }
    Ok(attributes)
}

/// The key and the value of what was found, if it is an attribute of the place.
fn attribute_of(at: &Label, found: Option<(Key, Record)>) -> Option<(Key, Text)>
    ensures { result ≡ attribute_of at.now found }
{
    let (key, record) = found?;
    if *at != key.label {
        return None;
    }
    match record {
        Record::Attr(value) => Some((key, value)),
        _ => None,
    }
}
