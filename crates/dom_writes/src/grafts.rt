//! Fragments at a label of the tree: the entries of their nodes.
ghost use Rattle.std.specs.Prelude.{◌≡◌, ◌++◌, [], ◌∷◌, map, IfOk, IsTrue, OnOk};
ghost use Rattle.dewey_labels.specs.Labels.{IsLabel};
ghost use Rattle.tree_model.specs.declared.record.Record.TheVariants.{Element};
ghost use Rattle.tree_model.specs.Changes.{put_change};
ghost use Rattle.tree_model.specs.Fragments.{plain};
ghost use Rattle.tree_model.specs.Graft.{all_within, graft};
ghost use Rattle.tree_model.specs.Tree.{entries_of, none, own};

use dewey_labels::{FIRST_DIVISION, Label, List, NoMemory, Text};
use std::alloc::Global;
use tree_model::{Change, Changes, Fragment, Key, Record};

/// The entries of a fragment as a tree at a label, by rising keys.
pub(crate) fn graft_entries(
    alloc: Global,
    at: &Label,
    fragment: &Fragment,
) -> Result<List<(Key, Record)>, NoMemory>
    requires within { IsTrue (all_within (graft at.now (plain fragment.now) none)) }
    ensures { IfOk result (λ entries. entries ≡ entries_of (graft at.now (plain fragment.now) none)) }
{
    let mut entries = List::new(alloc);
    push_graft(alloc, at, fragment, &mut entries)?;
    Ok(entries)
}

/// The changes that put these entries.
pub(crate) fn graft_changes(
    alloc: Global,
    at: &Label,
    fragment: &Fragment,
) -> Result<Changes, NoMemory>
    requires within { IsTrue (all_within (graft at.now (plain fragment.now) none)) }
    ensures { IfOk result (λ changes. changes ≡ map put_change (entries_of (graft at.now (plain fragment.now) none))) }
{
    let entries = graft_entries(alloc, at, fragment)?;
    puts(alloc, entries)
}

/// Entries that are put, as changes.
pub(crate) fn puts(alloc: Global, entries: List<(Key, Record)>) -> Result<Changes, NoMemory>
    ensures { IfOk result (λ changes. changes ≡ map put_change entries) }
{
    let mut changes = List::new(alloc);
    for (key, record) in entries.into_vec() {
        changes.push(Change {
            key,
            now: Some(record),
        })?;
    }
    Ok(changes)
}

/// Puts those entries behind the entries before them. One push on the parent's divisions makes a label.
pub(crate) fn push_graft(
    alloc: Global,
    at: &Label,
    fragment: &Fragment,
    entries: &mut List<(Key, Record)>,
) -> Result<(), NoMemory>
    requires within { IsTrue (all_within (graft at.now (plain fragment.now) none)) }
    ensures { OnOk result (entries.new ≡ entries.old ++ entries_of (graft at.now (plain fragment.now) none)) }
{
    match fragment {
        Fragment::Text(data) => {
            entries.push((Key::of_node(alloc, at)?, Record::Text(data.copy(alloc)?)))
        }
        Fragment::Element {
            name,
            attrs,
            children,
        } => {
            let _divisions = at.divisions();
            push_element(alloc, at, name, attrs, entries)?;
            let mut division = FIRST_DIVISION;
            for child in children.as_slice() {
                let label = child_label(alloc, at, division)?;
                push_graft(alloc, &label, child, entries)?;
                division += 2;
            }
            Ok(())
        }
    }
}

/// Puts the entries of an element and of its attributes behind those before them.
fn push_element(
    alloc: Global,
    at: &Label,
    name: &Text,
    attrs: &List<(Text, Text)>,
    entries: &mut List<(Key, Record)>,
) -> Result<(), NoMemory>
    ensures { OnOk result (entries.new ≡ entries.old ++ own at.now (Element name.now) attrs.now) }
{
    entries.push((Key::of_node(alloc, at)?, Record::Element(name.copy(alloc)?)))?;
    for (attribute, value) in attrs.as_slice() {
        let key = Key::of_attribute(alloc, at, attribute.as_str())?;
        entries.push((key, Record::Attr(value.copy(alloc)?)))?;
    }
    Ok(())
}

/// The label of the child with a code of one division.
pub(crate) fn child_label(alloc: Global, parent: &Label, division: u32) -> Result<Label, NoMemory>
    requires label { IsLabel (parent.now ++ division ∷ []) }
    ensures { IfOk result (λ label. label ≡ parent.now ++ division ∷ []) }
{
    let mut divisions = parent.own_divisions(alloc)?;
    divisions.push(alloc, division)?;
    match Label::of(divisions) {
        Some(label) => Ok(label),
        None => unreachable!(),
    }
}
