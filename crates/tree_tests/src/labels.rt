//! Lists, texts, labels and their texts, as tables.
ghost use Rattle.std.specs.Prelude.{◌≡◌, IfOk};

use crate::rows::agree;
use dewey_labels::{Copied, Label, LabelTextError, List, NoMemory, Text};
use std::alloc::Global;
use std::test::Fail;

/// A type that holds a list of itself.
#[derive(Debug, Drop, PartialEq, Eq)]
enum Shelf {
    Book(Text),
    Shelves(List<Shelf>),
}

impl Shelf {
    fn copy(&self, alloc: Global) -> Result<Shelf, NoMemory>
        ensures { IfOk result (λ copy. copy ≡ self.now) }
    {
        match self {
            Shelf::Book(title) => Ok(Shelf::Book(title.copy(alloc)?)),
            Shelf::Shelves(shelves) => {
                let mut out = List::new(alloc);
                for shelf in shelves.as_slice() {
                    out.push(shelf.copy(alloc)?)?;
                }
                Ok(Shelf::Shelves(out))
            }
        }
    }
}

impl Copied for Shelf {
    fn copy(&self, alloc: Global) -> Result<Shelf, NoMemory> {
        Shelf::copy(self, alloc)
    }
}

/// A shelf with one book.
fn shelf_with_a_book(alloc: Global) -> Result<Shelf, NoMemory> {
    let book = Shelf::Book(Text::of(alloc, "Ulysses")?);
    Ok(Shelf::Shelves(List::from_vec(vec![in alloc; book]?)))
}

/// A shelf that holds that shelf.
fn shelf_of_shelves(alloc: Global) -> Result<Shelf, NoMemory> {
    let inner = shelf_with_a_book(alloc)?;
    Ok(Shelf::Shelves(List::from_vec(vec![in alloc; inner]?)))
}

/// Whether a copy of that shelf is equal to it.
fn shelf_is_copied(alloc: Global) -> Result<bool, Fail> {
    let shelf = shelf_of_shelves(alloc)?;
    let copy = shelf.copy(alloc)?;
    Ok(copy == shelf)
}

#[test]
fn a_type_may_hold_a_list_of_itself(rt: HostRuntime) -> Result<(), Fail> {
    assert!(rt; shelf_is_copied(rt.alloc())?);
    Ok(())
}

/// A list with one document, its name and its label.
fn documents(alloc: Global) -> Result<List<(Text, Label)>, NoMemory> {
    let name = Text::of(alloc, "a")?;
    let label = Label::root(alloc)?;
    Ok(List::from_vec(vec![in alloc; (name, label)]?))
}

/// Whether a label's divisions, with that of attributes behind them, are these.
fn has_attr_root(alloc: Global, label: &Label, divisions: &[u32]) -> Result<bool, NoMemory> {
    let copy = label.copy(alloc)?;
    let attr_root = copy.attr_root(alloc)?;
    Ok(attr_root.as_slice() == divisions)
}

/// Whether all documents are named `a` and have the root's label.
fn are_as_made(alloc: Global, documents: Vec<(Text, Label)>) -> Result<bool, NoMemory> {
    let mut are_as_made = true;
    for (name, label) in documents.as_slice() {
        let has_root = has_attr_root(alloc, label, &[1, 1])?;
        are_as_made = are_as_made && has_root && name.as_str() == "a";
    }
    Ok(are_as_made)
}

/// Whether a copy of the documents is empty, whether its items are as they were made, and whether the documents still have one.
fn documents_copied(alloc: Global) -> Result<(bool, bool, bool), Fail> {
    let mut documents = documents(alloc)?;
    let copy = documents.copy(alloc)?;
    let is_empty = copy.is_empty();
    let are_as_made = are_as_made(alloc, copy.into_vec())?;
    Ok((is_empty, are_as_made, documents.pop().is_some()))
}

#[test]
fn a_list_of_pairs_is_copied_item_by_item(rt: HostRuntime) -> Result<(), Fail> {
    assert_eq!(rt; documents_copied(rt.alloc())?, (false, true, true));
    Ok(())
}

/// The text of a label, or nothing where there is none.
fn shown(alloc: Global, label: Option<&Label>) -> Result<List<u8>, NoMemory> {
    let mut out = List::new(alloc);
    if let Some(label) = label {
        label.write_text(alloc, &mut out)?;
    }
    Ok(out)
}

/// A list that grew twice at its end.
fn grown(alloc: Global) -> Result<List<u8>, NoMemory> {
    let mut list = List::new(alloc);
    list.extend_from_slice(alloc, &[5_u8, 3])?;
    list.extend_from_slice(alloc, &[4])?;
    Ok(list)
}

/// Whether such a list has all its items, its length cut back to 3, and whether cut back to 1 it has the first.
fn cut_back(alloc: Global) -> Result<(bool, usize, bool), Fail> {
    let mut list = grown(alloc)?;
    let has_all = list.as_slice() == [5, 3, 4].as_slice();
    list.truncate(3);
    let length = list.len();
    list.truncate(1);
    Ok((has_all, length, list.as_slice() == [5].as_slice()))
}

#[test]
fn a_list_grows_at_its_end_and_is_cut_back(rt: HostRuntime) -> Result<(), Fail> {
    assert_eq!(rt; cut_back(rt.alloc())?, (true, 3, true));
    Ok(())
}

/// Whether the text made of a string reads so, and its copy.
fn is_kept(alloc: Global, written: &str) -> Result<(bool, bool), Fail> {
    let text = Text::from_string(String::from_str(alloc, written)?);
    let copy = text.copy(alloc)?;
    Ok((text.as_str() == written, copy.as_str() == written))
}

/// Texts of none, few, 30 and 31 bytes: the last one doesn't stand in the text itself.
const KEPT: [&str; 5] = [
    "",
    "a",
    "Bücher",
    "abcdefghijklmnopqrstuvwxyzabcd",
    "abcdefghijklmnopqrstuvwxyzabcde",
];

#[test]
fn a_text_reads_as_the_string_that_it_was_made_of(rt: HostRuntime) -> Result<(), Fail> {
    for &written in &KEPT {
        let found = is_kept(rt.alloc(), written)?;
        agree(&rt, &written, &found, &(true, true));
    }
    Ok(())
}

/// Labels, their levels and the labels of their parents, nothing for the root.
const LEVELS: [(&[u8], u32, &[u8]); 6] = [
    (b"1", 0, b""),
    (b"1.1001", 1, b"1"),
    (b"1.1001.1001.2.1001", 3, b"1.1001.1001"),
    (b"1.3.2.4294967290.4294967291", 2, b"1.3"),
    (b"1.3.5.7.9.11.13.15", 7, b"1.3.5.7.9.11.13"),
    (b"1.3.5.7.9.11.13.15.17", 8, b"1.3.5.7.9.11.13.15"),
];

/// Whether a label, or nothing, is written so.
fn is_written(alloc: Global, label: Option<&Label>, text: &[u8]) -> Result<bool, NoMemory> {
    let written = shown(alloc, label)?;
    Ok(written.as_slice() == text)
}

/// Whether the label of a label's parent, or nothing, is written so.
fn has_parent(alloc: Global, label: &Label, text: &[u8]) -> Result<bool, NoMemory> {
    let parent = label.parent(alloc)?;
    is_written(alloc, parent.as_ref(), text)
}

/// The level of the label of a text, whether its parent is written so, and whether it is written as it was read.
fn read_back(alloc: Global, text: &[u8], parent: &[u8]) -> Result<(u32, bool, bool), Fail> {
    let label = Label::read_text(alloc, text)?;
    let has_parent = has_parent(alloc, &label, parent)?;
    let is_written = is_written(alloc, Some(&label), text)?;
    Ok((label.level(), has_parent, is_written))
}

#[test]
fn levels_and_parents_go_by_codes(rt: HostRuntime) -> Result<(), Fail> {
    for &(text, level, parent) in &LEVELS {
        let found = read_back(rt.alloc(), text, parent)?;
        agree(&rt, &text, &found, &(level, true, true));
    }
    Ok(())
}

/// Two labels, and that of the child of the first on the way to the second, or nothing.
const CHILDREN_TOWARD: [(&[u8], &[u8], &[u8]); 5] = [
    (b"1", b"1.1001.1001", b"1.1001"),
    (b"1.1001", b"1.1001.2.1001.3", b"1.1001.2.1001"),
    (b"1.1001", b"1.1001", b""),
    (b"1.3", b"1.5.3", b""),
    (b"1.3.3", b"1.3", b""),
];

/// The label of the child of one label on the way to another.
fn child_toward(alloc: Global, above: &[u8], below: &[u8]) -> Result<Option<Label>, Fail> {
    let at = Label::read_text(alloc, above)?;
    let below = Label::read_text(alloc, below)?;
    Ok(at.child_toward(alloc, &below)?)
}

/// Whether that label, or nothing, is written so.
fn leads_to(alloc: Global, above: &[u8], below: &[u8], child: &[u8]) -> Result<bool, Fail> {
    let toward = child_toward(alloc, above, below)?;
    Ok(is_written(alloc, toward.as_ref(), child)?)
}

#[test]
fn the_child_toward_a_label_lies_below_or_is_none(rt: HostRuntime) -> Result<(), Fail> {
    for &(above, below, child) in &CHILDREN_TOWARD {
        let found = leads_to(rt.alloc(), above, below, child)?;
        agree(&rt, &(above, below), &found, &true);
    }
    Ok(())
}

/// A label, one behind it, and whether the first is an ancestor.
const IN_ORDER: [(&[u8], &[u8], bool); 6] = [
    (b"1", b"1.2.3", true),
    (b"1.2.3", b"1.3", false),
    (b"1.3", b"1.3.3", true),
    (b"1.3.3", b"1.4.3", false),
    (b"1.4.3", b"1.5", false),
    (b"1.5", b"1.33", false),
];

/// Whether one label comes before another, whether it is an ancestor of it, and whether the other, or the first itself, is one of the first.
fn compared(alloc: Global, first: &[u8], second: &[u8]) -> Result<(bool, bool, bool), Fail> {
    let left = Label::read_text(alloc, first)?;
    let right = Label::read_text(alloc, second)?;
    let is_below = right.is_ancestor_of(&left) || left.is_ancestor_of(&left);
    Ok((left < right, left.is_ancestor_of(&right), is_below))
}

#[test]
fn a_label_comes_before_its_extensions(rt: HostRuntime) -> Result<(), Fail> {
    for &(first, second, is_ancestor) in &IN_ORDER {
        let found = compared(rt.alloc(), first, second)?;
        agree(&rt, &(first, second), &found, &(true, is_ancestor, false));
    }
    Ok(())
}

/// Lists of divisions that are no labels.
const NO_LABELS: [&[u32]; 6] = [&[], &[2], &[1, 2], &[1, 1], &[1, 0, 3], &[1, 4_294_967_293]];

fn is_no_label(alloc: Global, divisions: &[u32]) -> Result<bool, Fail> {
    let list = List::from_vec(Vec::from_slice(alloc, divisions)?);
    Ok(Label::of_divisions(list).is_none())
}

#[test]
fn what_is_no_label_has_no_divisions(rt: HostRuntime) -> Result<(), Fail> {
    for &divisions in &NO_LABELS {
        let found = is_no_label(rt.alloc(), divisions)?;
        agree(&rt, &divisions, &found, &true);
    }
    Ok(())
}

/// Where reading stopped, or None for a label's text.
fn place_of(alloc: Global, text: &[u8]) -> Result<Option<u32>, NoMemory> {
    match Label::read_text(alloc, text) {
        Ok(_) => Ok(None),
        Err(LabelTextError::NotALabel { place }) => Ok(Some(place)),
        Err(LabelTextError::NoMemory) => Err(NoMemory),
    }
}

/// Texts, and where reading them stops.
const TEXTS: [(&[u8], Option<u32>); 16] = [
    (b"", Some(0)),
    (b"2", Some(0)),
    (b"+1", Some(0)),
    (b"1", None),
    (b"10", Some(1)),
    (b"1.", Some(2)),
    (b"1..3", Some(2)),
    (b"1.03", Some(2)),
    (b"1.1", Some(3)),
    (b"1.1.3", Some(3)),
    (b"1.2.", Some(4)),
    (b"1.10", Some(4)),
    (b"1.3 ", Some(3)),
    (b"1.4294967291", None),
    (b"1.4294967292", Some(11)),
    (b"1.42949672910", Some(12)),
];

#[test]
fn a_text_is_refused_behind_its_longest_prefix_of_a_label(rt: HostRuntime) -> Result<(), Fail> {
    for &(text, place) in &TEXTS {
        let found = place_of(rt.alloc(), text)?;
        agree(&rt, &text, &found, &place);
    }
    Ok(())
}

/// What stands behind 254 divisions, and where reading it stops.
const LAST_DIVISIONS: [(&[u8], Option<u32>); 5] = [
    (b"3", None),
    (b"3.", Some(509)),
    (b"2", Some(509)),
    (b"4294967290", Some(517)),
    (b"4294967291", None),
];

/// The text of 1 and 253 times 3, so 254 divisions, and of what stands behind.
fn text_of_254(alloc: Global, last: &[u8]) -> Result<Vec<u8>, Fail> {
    let mut text = Vec::from_slice(alloc, b"1.")?;
    for _ in 0..253 {
        text.extend_from_slice(b"3.")?;
    }
    text.extend_from_slice(last)?;
    Ok(text)
}

/// Where reading that text stops.
fn place_behind_254(alloc: Global, last: &[u8]) -> Result<Option<u32>, Fail> {
    let text = text_of_254(alloc, last)?;
    Ok(place_of(alloc, &text)?)
}

#[test]
fn the_last_division_that_fits_is_odd(rt: HostRuntime) -> Result<(), Fail> {
    for &(last, place) in &LAST_DIVISIONS {
        let found = place_behind_254(rt.alloc(), last)?;
        agree(&rt, &last, &found, &place);
    }
    Ok(())
}
