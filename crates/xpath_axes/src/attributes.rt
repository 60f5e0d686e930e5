//! The looks at attributes: all of a node's, and one by its name.
ghost use Rattle.std.specs.Prelude.{◌≡◌, ◌≤◌, ◌+◌, length, IfOk};
ghost use Rattle.node_seq.specs.Trees.{OnTree};
ghost use Rattle.outside_traits.specs.Faults.{HasCause};
ghost use Rattle.path_model.specs.Programs as look;
ghost use Rattle.xpath_axes.specs.Positions.{all_plain};
ghost use Rattle.xpath_axes.specs.LookReads.{ReadsOfLook};
ghost use Rattle.xpath_axes.specs.inside.Walks.{attribute_of, value_of};

use crate::Position;
use crate::nodes::is_root;
use crate::position::only;
use dewey_labels::{Label, List, Text};
use node_seq::{NodeRead, SeqError};
use std::alloc::Global;
use tree_model::{Key, Record};

/// The attribute of a node with a name, if it has one. One read.
pub fn at_attribute<S: NodeRead>(
    alloc: Global,
    at: &Label,
    name: &Text,
    seq: &mut S,
) -> Result<List<Position>, SeqError>
    ensures seen { OnTree (S.contents seq.old) result (λ t found. all_plain found ≡ look.seen t (look.at_attribute at.now name.now)) }
    ensures unchanged { S.unchanged seq.old seq.new }
    ensures reads { S.reads seq.new ≤ S.reads seq.old + 1 }
    ensures cause { HasCause SeqError.DiskFault (S.count seq.old) (S.count seq.new) result }
{
    // The root is no node: its attributes are the catalogue. With the empty name the key would be the node's own.
    if is_root(at) || name.as_str().is_empty() {
        return Ok(List::new(alloc));
    }
    let key = Key::of_attribute(alloc, at, name.as_str())?;
    let found = seq.get(alloc, &key)?;
    let Some(value) = value_of(found) else {
        return Ok(List::new(alloc));
    };
    let Key { label, name } = key;
    Ok(only(alloc, Position::Attribute(label, name, value))?)
}

/// The value of an attribute's record.
fn value_of(entry: Option<Record>) -> Option<Text>
    ensures { result ≡ value_of entry }
{
    match entry {
        Some(Record::Attr(value)) => Some(value),
        _ => None,
    }
}

/// All attributes of a node, by name; none where there is no such node. One read an attribute and one more.
pub fn at_attributes<S: NodeRead>(
    alloc: Global,
    at: &Label,
    seq: &mut S,
) -> Result<List<Position>, SeqError>
    ensures seen { OnTree (S.contents seq.old) result (λ t found. all_plain found ≡ look.seen t (look.at_attributes at.now)) }
    ensures unchanged { S.unchanged seq.old seq.new }
    ensures reads { IfOk result (λ found. S.reads seq.new ≤ S.reads seq.old + (length found + 1)) }
    ensures reads_of_tree { ReadsOfLook (S.contents seq.old) (look.at_attributes at.now) (S.reads seq.old) (S.reads seq.new) }
    ensures cause { HasCause SeqError.DiskFault (S.count seq.old) (S.count seq.new) result }
{
    let mut found = List::new(alloc);
    // The root is no node: its attributes are the catalogue.
    if is_root(at) {
        return Ok(found);
    }
    // It tells that a known map is in order.
    let _faults = seq.faults();
    let key = Key::of_node(alloc, at)?;
    let mut next = attribute_of(at, seq.next_from(alloc, &key)?);
    while let Some((key, value)) = next {
        next = attribute_of(at, seq.next_from(alloc, &key)?);
        let Key { label, name } = key;
        found.push(Position::Attribute(label, name, value))?;
    }
    Ok(found)
}

/// The key and the value of what was found, if it is an attribute of the node.
fn attribute_of(at: &Label, found: Option<(Key, Record)>) -> Option<(Key, Text)>
    ensures { result ≡ attribute_of at.now found }
{
    let (key, record) = found?;
    if *at != key.label {
        return None;
    }
    match record {
        Record::Attr(value) => Some((key, value)),
        _ => None,
    }
}
