//! Names, keys, texts and copies, as tables.
use crate::rows::agree;
use dewey_labels::{Copied, Label, List, NoMemory, Text};
use std::alloc::Global;
use std::cmp::Ordering;
use std::fmt::Debug;
use std::test::Fail;
use tree_model::{Change, DomCall, Fragment, Hit, Key, Record, Refusal, Reply, is_name};

/// XML 1.0, fifth edition, section 2.3: the ends of each range and the characters beside them;
/// whether a Name may begin with the character, and whether it may go on with it.
const CHARACTERS: [(char, bool, bool); 70] = [
    (',', false, false),
    ('-', false, true),
    ('.', false, true),
    ('/', false, false),
    ('0', false, true),
    ('9', false, true),
    (':', true, true),
    (';', false, false),
    ('@', false, false),
    ('A', true, true),
    ('Z', true, true),
    ('[', false, false),
    ('^', false, false),
    ('_', true, true),
    ('`', false, false),
    ('a', true, true),
    ('z', true, true),
    ('{', false, false),
    ('\u{B6}', false, false),
    ('\u{B7}', false, true),
    ('\u{B8}', false, false),
    ('\u{BF}', false, false),
    ('\u{C0}', true, true),
    ('\u{D6}', true, true),
    ('\u{D7}', false, false),
    ('\u{D8}', true, true),
    ('\u{F6}', true, true),
    ('\u{F7}', false, false),
    ('\u{F8}', true, true),
    ('\u{2FF}', true, true),
    ('\u{300}', false, true),
    ('\u{36F}', false, true),
    ('\u{370}', true, true),
    ('\u{37D}', true, true),
    ('\u{37E}', false, false),
    ('\u{37F}', true, true),
    ('\u{1FFF}', true, true),
    ('\u{2000}', false, false),
    ('\u{200B}', false, false),
    ('\u{200C}', true, true),
    ('\u{200D}', true, true),
    ('\u{200E}', false, false),
    ('\u{203E}', false, false),
    ('\u{203F}', false, true),
    ('\u{2040}', false, true),
    ('\u{2041}', false, false),
    ('\u{206F}', false, false),
    ('\u{2070}', true, true),
    ('\u{218F}', true, true),
    ('\u{2190}', false, false),
    ('\u{2BFF}', false, false),
    ('\u{2C00}', true, true),
    ('\u{2FEF}', true, true),
    ('\u{2FF0}', false, false),
    ('\u{3000}', false, false),
    ('\u{3001}', true, true),
    ('\u{D7FF}', true, true),
    ('\u{E000}', false, false),
    ('\u{F8FF}', false, false),
    ('\u{F900}', true, true),
    ('\u{FDCF}', true, true),
    ('\u{FDD0}', false, false),
    ('\u{FDEF}', false, false),
    ('\u{FDF0}', true, true),
    ('\u{FFFD}', true, true),
    ('\u{FFFE}', false, false),
    ('\u{10000}', true, true),
    ('\u{EFFFF}', true, true),
    ('\u{F0000}', false, false),
    ('\u{10FFFF}', false, false),
];

/// Whether a text with the character behind it is a Name.
fn is_name_with(alloc: Global, before: &str, character: char) -> Result<bool, Fail> {
    let name = format!(in alloc; "{before}{character}")?;
    Ok(is_name(&Text::from_string(name)))
}

/// Whether a Name may begin with the character, and whether it may go on with it.
fn places_in_names(alloc: Global, character: char) -> Result<(bool, bool), Fail> {
    let begins = is_name_with(alloc, "", character)?;
    let goes_on = is_name_with(alloc, "a", character)?;
    Ok((begins, goes_on))
}

#[test]
fn names_have_the_characters_of_xml(rt: HostRuntime) -> Result<(), Fail> {
    for &(character, begins, goes_on) in &CHARACTERS {
        let found = places_in_names(rt.alloc(), character)?;
        agree(&rt, &character, &found, &(begins, goes_on));
    }
    Ok(())
}

/// A character of one byte or two, how often a name has it, and whether it is a Name.
const LENGTHS: [(char, usize, bool); 6] = [
    ('a', 0, false),
    ('a', 1, true),
    ('a', 1024, true),
    ('a', 1025, false),
    ('\u{E9}', 512, true),
    ('\u{E9}', 513, false),
];

/// Whether the character so many times is a Name.
fn is_name_of(alloc: Global, character: char, count: usize) -> Result<bool, Fail> {
    let mut name = String::new(alloc);
    for _ in 0..count {
        name.push(character)?;
    }
    Ok(is_name(&Text::from_string(name)))
}

#[test]
fn names_have_1_to_1024_bytes(rt: HostRuntime) -> Result<(), Fail> {
    for &(character, count, want) in &LENGTHS {
        let found = is_name_of(rt.alloc(), character, count)?;
        agree(&rt, &(character, count), &found, &want);
    }
    Ok(())
}

fn label(alloc: Global, divisions: &[u32]) -> Result<Label, Fail> {
    let divisions = List::from_vec(Vec::from_slice(alloc, divisions)?);
    Ok(Label::of_divisions(divisions).ok_or("no label")?)
}

fn key(alloc: Global, divisions: &[u32], name: &str) -> Result<Key, Fail> {
    let label = label(alloc, divisions)?;
    Ok(Key::of_attribute(alloc, &label, name)?)
}

/// Labels and names of keys, each above the one before: a prefix comes first, among labels and among names.
const RISING: [(&[u32], &str); 12] = [
    (&[1], ""),
    (&[1], "x"),
    (&[1, 1001], ""),
    (&[1, 1001], "a"),
    (&[1, 1001], "ab"),
    (&[1, 1001], "b"),
    (&[1, 1001], "\u{10FFFF}"),
    (&[1, 1001, 2, 1001], ""),
    (&[1, 1001, 3], ""),
    (&[1, 1001, 1001], "b"),
    (&[1, 1002, 1001], "a"),
    (&[1, 1003], ""),
];

/// How the keys of two rows compare, and whether they are one key.
fn compared(
    alloc: Global,
    left: (&[u32], &str),
    right: (&[u32], &str),
) -> Result<(Ordering, bool), Fail> {
    let left = key(alloc, left.0, left.1)?;
    let right = key(alloc, right.0, right.1)?;
    Ok((left.cmp(&right), left == right))
}

#[test]
fn keys_rise_by_label_and_then_by_name(rt: HostRuntime) -> Result<(), Fail> {
    for (i, left) in RISING.iter().enumerate() {
        for (j, right) in RISING.iter().enumerate() {
            let found = compared(rt.alloc(), *left, *right)?;
            agree(&rt, &(left, right), &found, &(i.cmp(&j), i == j));
        }
    }
    Ok(())
}

/// A label and a name, and how their key compares with the start and with the end of what lies below 1.1001.
const BESIDE: [(&[u32], &str, Ordering, Ordering); 5] = [
    (&[1, 1001], "z", Ordering::Less, Ordering::Less),
    (&[1, 1001, 3], "", Ordering::Greater, Ordering::Less),
    (
        &[1, 1001, 4_294_967_291],
        "z",
        Ordering::Greater,
        Ordering::Less,
    ),
    (&[1, 1002, 3], "", Ordering::Greater, Ordering::Greater),
    (&[1, 1003], "", Ordering::Greater, Ordering::Greater),
];

/// How a key compares with the start of what lies below 1.1001.
fn from_start(alloc: Global, key: &Key) -> Result<Ordering, Fail> {
    let at = label(alloc, &[1, 1001])?;
    Ok(key.cmp(&Key::behind_attributes(alloc, &at)?))
}

/// How a key compares with the end of what lies below 1.1001.
fn from_end(alloc: Global, key: &Key) -> Result<Ordering, Fail> {
    let at = label(alloc, &[1, 1001])?;
    Ok(key.cmp(&Key::behind_tree(alloc, &at)?))
}

/// How the key of a label and a name compares with that start and with that end.
fn beside(alloc: Global, divisions: &[u32], name: &str) -> Result<(Ordering, Ordering), Fail> {
    let key = key(alloc, divisions, name)?;
    let start = from_start(alloc, &key)?;
    let end = from_end(alloc, &key)?;
    Ok((start, end))
}

#[test]
fn a_trees_end_lies_behind_all_of_it(rt: HostRuntime) -> Result<(), Fail> {
    for &(divisions, name, from_start, from_end) in &BESIDE {
        let found = beside(rt.alloc(), divisions, name)?;
        agree(&rt, &(divisions, name), &found, &(from_start, from_end));
    }
    Ok(())
}

/// How many codes stand behind the root's, the name, and whether a tree may have such a key.
const VALID: [(usize, &str, bool); 6] = [
    (0, "x", true),
    (1, "", true),
    (101, "", true),
    (102, "", false),
    (1, "1a", false),
    (1, "\u{10FFFF}", false),
];

/// The divisions of a label with so many codes behind the root's.
fn divisions_of_level(alloc: Global, codes: usize) -> Result<Vec<u32>, Fail> {
    let mut divisions = vec![in alloc; 1]?;
    for _ in 0..codes {
        divisions.push(1001)?;
    }
    Ok(divisions)
}

/// Whether a tree may have the key of such a label and a name.
fn is_valid_at(alloc: Global, codes: usize, name: &str) -> Result<bool, Fail> {
    let divisions = divisions_of_level(alloc, codes)?;
    let key = key(alloc, &divisions, name)?;
    Ok(key.is_valid())
}

#[test]
fn a_valid_key_has_a_name_or_none_and_level_101_at_most(rt: HostRuntime) -> Result<(), Fail> {
    for &(codes, name, want) in &VALID {
        let found = is_valid_at(rt.alloc(), codes, name)?;
        agree(&rt, &(codes, name), &found, &want);
    }
    Ok(())
}

/// So many letters.
fn letters(alloc: Global, count: usize) -> Result<Text, Fail> {
    let mut bytes = Vec::new(alloc);
    bytes.resize(count, b'a')?;
    Ok(Text::from_string(String::from_utf8(bytes)?))
}

/// Counts of bytes, and whether a record may have a text of so many.
const FITTING: [(usize, bool); 3] = [(0, true), (1_048_576, true), (1_048_577, false)];

fn fits(record: Record) -> bool {
    record.fits()
}

/// Whether records may have so many letters as data and as a value.
fn fitting(alloc: Global, count: usize) -> Result<(bool, bool), Fail> {
    let data = fits(Record::Text(letters(alloc, count)?));
    let value = fits(Record::Attr(letters(alloc, count)?));
    Ok((data, value))
}

#[test]
fn data_and_values_have_1048576_bytes_at_most(rt: HostRuntime) -> Result<(), Fail> {
    for &(count, want) in &FITTING {
        let found = fitting(rt.alloc(), count)?;
        agree(&rt, &count, &found, &(want, want));
    }
    Ok(())
}

/// The attribute `n` with the value `5`, alone.
fn sample_attrs(alloc: Global) -> Result<List<(Text, Text)>, NoMemory> {
    let name = Text::of(alloc, "n")?;
    let value = Text::of(alloc, "5")?;
    Ok(List::from_vec(vec![in alloc; (name, value)]?))
}

/// The element `b`, in which there is nothing.
fn empty_element(alloc: Global) -> Result<Fragment, NoMemory> {
    Ok(Fragment::Element {
        name: Text::of(alloc, "b")?,
        attrs: List::new(alloc),
        children: List::new(alloc),
    })
}

/// That element and the text `t`.
fn sample_children(alloc: Global) -> Result<List<Fragment>, NoMemory> {
    let element = empty_element(alloc)?;
    let text = Fragment::Text(Text::of(alloc, "t")?);
    Ok(List::from_vec(vec![in alloc; element, text]?))
}

/// The element `a` with an attribute, an element and a text.
fn sample(alloc: Global) -> Result<Fragment, NoMemory> {
    let name = Text::of(alloc, "a")?;
    let attrs = sample_attrs(alloc)?;
    let children = sample_children(alloc)?;
    Ok(Fragment::Element {
        name,
        attrs,
        children,
    })
}

fn shown<T: Debug>(alloc: Global, value: &T) -> Result<String, Fail> {
    Ok(format!(in alloc; "{value:?}")?)
}

/// Whether a copy reads as its original.
fn is_copied<T: Copied + Debug + Drop>(alloc: Global, original: T) -> Result<bool, Fail> {
    let copy = original.copy(alloc)?;
    let copied = shown(alloc, &copy)?;
    Ok(copied == shown(alloc, &original)?)
}

fn change(alloc: Global) -> Result<Change, Fail> {
    let key = key(alloc, &[1], "x")?;
    let now = Some(Record::Attr(Text::of(alloc, "1.1001")?));
    Ok(Change { key, now })
}

fn call(alloc: Global) -> Result<DomCall, Fail> {
    let at = Label::root(alloc)?;
    let before = Some(Label::root(alloc)?);
    let fragment = sample(alloc)?;
    Ok(DomCall::Insert(at, before, fragment))
}

/// A reply with a hit.
fn found(alloc: Global) -> Result<Reply, Fail> {
    let attr = Some(Text::of(alloc, "n")?);
    let label = Label::root(alloc)?;
    let hits = List::from_vec(vec![in alloc; Hit { label, attr }]?);
    Ok(Reply::Found(hits))
}

/// Whether a change, a call and a tree are copied.
fn parts_are_copied(alloc: Global) -> Result<(bool, bool, bool), Fail> {
    let change = is_copied(alloc, change(alloc)?)?;
    let call = is_copied(alloc, call(alloc)?)?;
    let tree = is_copied(alloc, sample(alloc)?)?;
    Ok((change, call, tree))
}

/// Whether a reply with a hit, one with a tree and a refusal are copied.
fn replies_are_copied(alloc: Global) -> Result<(bool, bool, bool), Fail> {
    let found = is_copied(alloc, found(alloc)?)?;
    let tree = is_copied(alloc, Reply::Tree(Some(sample(alloc)?)))?;
    let refused = is_copied(alloc, Reply::Refused(Refusal::Dom(8)))?;
    Ok((found, tree, refused))
}

#[test]
fn copies_read_as_their_originals(rt: HostRuntime) -> Result<(), Fail> {
    let alloc = rt.alloc();
    assert_eq!(rt; parts_are_copied(alloc)?, (true, true, true));
    assert_eq!(rt; replies_are_copied(alloc)?, (true, true, true));
    Ok(())
}
