//! Stores as their two files have them, damaged at each rule's place, and failing and stopped at each call of their disks.
use crate::records::parts;
use dewey_labels::{Label, List, NoMemory};
use node_records::{File, OpenError, Place};
use node_seq::{NodeRead, SeqError, entries_above};
use outside_kinds::MemDisk;
use outside_traits::Disk;
use overlays::Stacked;
use recovery::{Opened, open_store};
use std::alloc::Global;
use std::test::Fail;
use tree_model::{Key, Record};

/// A journal without commits.
const NEW: &[u8] = b"\x01XTCJRN1\x00";

/// Puts of the catalogue's entry of x, of its document 1.1001, and of the element a at 1.1001.1001.
const ENTRY: &[u8] = b"\x01\x01\0x\0\0\0\0\x07\x041.1001";

const DOCUMENT: &[u8] = b"\x01\x01\x83\x69\0\0\0\0\0\x01\x01";

const ELEMENT: &[u8] = b"\x01\x01\x83\x69\x83\x69\0\0\0\0\0\x02\x02a";

/// A disk with this file that fails at one call; at none for 0.
fn disk(alloc: Global, file: &[u8], call: u64) -> Result<MemDisk, NoMemory> {
    let bytes = List::from_vec(Vec::from_slice(alloc, file)?);
    let mut calls = List::new(alloc);
    calls.push(call)?;
    Ok(MemDisk::new(bytes, calls))
}

/// A store as its files have it: the number of its last commit, and its records.
#[derive(Drop)]
struct Held {
    number: u32,
    entries: List<(Key, Record)>,
}

/// The records of a map but one of the root, which no tree has.
fn entries_of<S: NodeRead>(alloc: Global, map: &mut S) -> Result<List<(Key, Record)>, SeqError> {
    let root = Label::root(alloc)?;
    let first = Key::of_node(alloc, &root)?;
    entries_above(alloc, &first, map)
}

/// What becomes of the disks of two files that are opened: the store that they hold, or why they aren't opened, and the disks behind it.
#[derive(Drop)]
struct Left {
    held: Result<Held, OpenError>,
    journal: MemDisk,
    pages: MemDisk,
}

/// The store that a map with this number holds.
fn held_in<S: NodeRead>(alloc: Global, number: u32, map: &mut S) -> Result<Held, OpenError> {
    match entries_of(alloc, map) {
        Ok(entries) => Ok(Held { number, entries }),
        Err(SeqError::DiskFault) => Err(OpenError::DiskFault),
        Err(SeqError::NoMemory) => Err(OpenError::NoMemory),
    }
}

/// What an opened store holds, and its disks.
fn left_open(alloc: Global, store: Opened<MemDisk, MemDisk>) -> Left {
    let journal = store.journal.into_disk();
    let mut map = Stacked::new(store.base, store.layers);
    let held = held_in(alloc, store.number, &mut map);
    let (base, _layers) = map.into_parts();
    let (pages, _pool) = base.into_parts();
    Left {
        held,
        journal,
        pages,
    }
}

/// Opens the store of two disks, with one page frame.
fn left_by(alloc: Global, journal: MemDisk, pages: MemDisk) -> Left {
    match open_store(alloc, journal, pages, 1) {
        Ok(store) => left_open(alloc, store),
        Err(refused) => Left {
            held: Err(refused.fault),
            journal: refused.journal,
            pages: refused.pages,
        },
    }
}

/// The store that two files open as, or why they aren't opened.
fn opened(alloc: Global, journal: &[u8], pages: &[u8]) -> Result<Held, OpenError> {
    let journal = disk(alloc, journal, 0)?;
    let pages = disk(alloc, pages, 0)?;
    left_by(alloc, journal, pages).held
}

/// The number and the count of records that two files open with, or why they aren't opened.
fn opens(alloc: Global, journal: &[u8], pages: &[u8]) -> Result<(u32, usize), OpenError> {
    let store = opened(alloc, journal, pages)?;
    Ok((store.number, store.entries.len()))
}

fn damaged(file: File, at: u64) -> Result<(u32, usize), OpenError> {
    Err(OpenError::Damaged(Place { file, at }))
}

/// The number and the count of records that two files open with, or the place of their damage.
type Stands = Result<(u32, usize), (File, u64)>;

fn told(stands: Stands) -> Result<(u32, usize), OpenError> {
    match stands {
        Ok(store) => Ok(store),
        Err((file, at)) => damaged(file, at),
    }
}

/// Pieces one behind the other.
fn joined(alloc: Global, pieces: &[&[u8]]) -> Result<List<u8>, NoMemory> {
    let mut bytes = List::new(alloc);
    for piece in pieces {
        bytes.extend_from_slice(alloc, piece)?;
    }
    Ok(bytes)
}

/// Puts a commit with this number and body in the place of the last gate, and the next gate behind it.
fn commit(alloc: Global, journal: &mut List<u8>, number: u8, body: &[u8]) -> Result<(), NoMemory> {
    let Ok(length) = u8::try_from(body.len()) else {
        return Err(NoMemory);
    };
    let _gate = journal.pop();
    journal.extend_from_slice(alloc, &[1, 0, 0, 0, 0, number, 0, 0, 0, length])?;
    journal.extend_from_slice(alloc, body)?;
    journal.push(0)
}

/// A journal with one commit.
fn journal(alloc: Global, body: &[&[u8]]) -> Result<List<u8>, NoMemory> {
    let body = joined(alloc, body)?;
    let mut journal = joined(alloc, &[NEW])?;
    commit(alloc, &mut journal, 1, body.as_slice())?;
    Ok(journal)
}

/// The journal of sixty bytes, with the byte at one place changed.
fn changed(alloc: Global, keep: usize, at: usize, byte: u8) -> Result<Vec<u8>, NoMemory> {
    let mut bytes = journal(alloc, &[ENTRY, DOCUMENT, ELEMENT])?.into_vec();
    bytes.truncate(keep);
    if at < bytes.len() {
        bytes[at] = byte;
    }
    Ok(bytes)
}

/// Whether an entry has this label, this name and this record.
fn is_entry(of: &(Key, Record), divisions: &[u32], name: &str, record: (&str, &str)) -> bool {
    of.0.label.divisions() == divisions && of.0.name.as_str() == name && parts(&of.1) == record
}

/// Whether the records are the catalogue's entry of x, its document 1.1001 and the element a.
fn are_a_document(entries: &[(Key, Record)]) -> bool {
    match entries {
        [entry, document, element] => {
            is_entry(entry, &[1], "x", ("attribute", "1.1001"))
                && is_entry(document, &[1, 1001], "", ("document", ""))
                && is_entry(element, &[1, 1001, 1001], "", ("element", "a"))
        }
        _ => false,
    }
}

/// The number that a journal opens with, and whether its records are those of one document.
fn opens_a_document(alloc: Global, journal: &[u8]) -> Result<(u32, bool), OpenError> {
    let store = opened(alloc, journal, b"")?;
    Ok((store.number, are_a_document(store.entries.as_slice())))
}

/// The length of the journal with one document, and what it opens with.
fn whole_journal_opens(alloc: Global) -> Result<(usize, (u32, bool)), OpenError> {
    let bytes = changed(alloc, 60, 0, 1)?;
    let found = opens_a_document(alloc, &bytes)?;
    Ok((bytes.len(), found))
}

#[test]
fn sixty_bytes_are_a_document_with_number_1(rt: HostRuntime) -> Result<(), Fail> {
    assert_eq!(rt; whole_journal_opens(rt.alloc()), Ok((60, (1, true))));
    Ok(())
}

/// How many of the sixty bytes there are, the place that is changed, the byte there, and what the files stand for.
const CHANGED: [(usize, usize, u8, Stands); 11] = [
    (60, 0, 1, Ok((1, 3))),
    (60, 9, 2, Err((File::Journal, 8))),
    (60, 10, 2, Err((File::Journal, 8))),
    (60, 13, 2, Err((File::Journal, 8))),
    (60, 59, 1, Err((File::Journal, 59))),
    (60, 3, 0x44, Err((File::Journal, 0))),
    (60, 0, 0, Err((File::Journal, 0))),
    (5, 0, 1, Err((File::Journal, 0))),
    (9, 0, 0, Ok((0, 0))),
    (1, 0, 1, Ok((0, 0))),
    (0, 0, 0, Ok((0, 0))),
];

/// What the sixty bytes, with the byte at one place changed, open with before pages.
fn opens_changed(
    alloc: Global,
    (keep, at, byte): (usize, usize, u8),
    pages: &[u8],
) -> Result<(u32, usize), OpenError> {
    let bytes = changed(alloc, keep, at, byte)?;
    opens(alloc, &bytes, pages)
}

/// How many of the sixty bytes there are, the place that is changed, the byte there, and what they open with.
type Otherwise = ((usize, usize, u8), Result<(u32, usize), OpenError>);

/// The first of these changes of the sixty bytes with which they open otherwise than the row says before these pages, and what they open with.
fn first_otherwise(
    alloc: Global,
    rows: &[(usize, usize, u8, Stands)],
    pages: &[u8],
) -> Option<Otherwise> {
    for &(keep, at, byte, want) in rows {
        let found = opens_changed(alloc, (keep, at, byte), pages);
        if found != told(want) {
            return Some(((keep, at, byte), found));
        }
    }
    None
}

/// What the sixty bytes with this number open with.
fn opens_as(alloc: Global, number: u32) -> Result<(u32, usize), OpenError> {
    let mut bytes = changed(alloc, 10, 0, 1)?;
    bytes.extend_from_slice(&number.to_be_bytes())?;
    let rest = changed(alloc, 60, 0, 1)?;
    bytes.extend_from_slice(rest.get(14..).unwrap_or(&[]))?;
    opens(alloc, &bytes, b"")
}

#[test]
fn the_first_commit_of_a_store_without_pages_has_number_1(rt: HostRuntime) -> Result<(), Fail> {
    assert_eq!(rt; opens_as(rt.alloc(), 1), Ok((1, 3)));
    for number in [0, 2, 0x0202_0202, u32::MAX] {
        assert_eq!(rt; opens_as(rt.alloc(), number), damaged(File::Journal, 8));
    }
    Ok(())
}

#[test]
fn a_changed_journal_opens_or_is_damaged_at_its_place(rt: HostRuntime) -> Result<(), Fail> {
    assert_eq!(rt; first_otherwise(rt.alloc(), &CHANGED, b""), None);
    Ok(())
}

/// The byte of the number, the bytes from the last gate on, and the place of the damage.
const NUMBERS: [(u8, &[u8], u64); 4] = [
    (2, b"\x01", 8),
    (2, b"\x01\x00", 8),
    (2, b"\x01\x01", 59),
    (1, b"\x01\x00", 59),
];

/// What the sixty bytes open with, with this number and with other bytes from the last gate on.
fn opens_with_number(alloc: Global, number: u8, rest: &[u8]) -> Result<(u32, usize), OpenError> {
    let mut bytes = changed(alloc, 59, 13, number)?;
    bytes.extend_from_slice(rest)?;
    opens(alloc, &bytes, b"")
}

#[test]
fn a_wrong_first_number_comes_before_a_later_group_but_not_before_one_of_images(
    rt: HostRuntime,
) -> Result<(), Fail> {
    for &(number, rest, want) in &NUMBERS {
        let found = opens_with_number(rt.alloc(), number, rest);
        assert_eq!(rt;
            found,
            damaged(File::Journal, want),
            "number {number} and {rest:?}"
        );
    }
    Ok(())
}

/// Images of no page behind the commit, with its number.
const IMAGES: &[u8] = b"\x01\x01\0\0\0\x01\0\0\0\x04\0\0\0\0\0";

#[test]
fn a_store_with_images_is_damaged_in_its_pages(rt: HostRuntime) -> Result<(), Fail> {
    let found = opens_with_number(rt.alloc(), 1, IMAGES);
    assert_eq!(rt; found, damaged(File::Pages, 0));
    Ok(())
}

/// The same of a journal before pages.
const BEFORE_PAGES: [(usize, usize, u8, Stands); 6] = [
    (0, 0, 0, Err((File::Pages, 0))),
    (9, 0, 0, Err((File::Pages, 0))),
    (60, 0, 1, Err((File::Pages, 0))),
    (60, 13, 2, Err((File::Pages, 0))),
    (60, 59, 1, Err((File::Journal, 59))),
    (5, 0, 1, Err((File::Journal, 0))),
];

#[test]
fn pages_are_tested_behind_the_journal_and_before_the_tree(rt: HostRuntime) -> Result<(), Fail> {
    assert_eq!(rt; first_otherwise(rt.alloc(), &BEFORE_PAGES, &[0; 100]), None);
    Ok(())
}

const TEXT: &[u8] = b"\x01\x01\x83\x69\x83\x69\0\0\0\0\0\x02\x03a";

const NO_NAME: &[u8] = b"\x01\x01\x83\x69\x83\x69\0\0\0\0\0\x02\x021";

const SECOND: &[u8] = b"\x01\x01\x83\x69\x83\x6B\0\0\0\0\0\x02\x02b";

const ATTRIBUTE: &[u8] = b"\x01\x01\x83\x69\0n\0\0\0\0\x02\x045";

const ROOT: &[u8] = b"\x01\x01\0\0\0\0\0\x01\x01";

const AGAIN: &[u8] = b"\x01\x01\0y\0\0\0\0\x07\x041.1001";

/// A rule that is broken, the entries of the tree, and the place.
const RULES: [(&str, &[&[u8]], u64); 9] = [
    ("an entry has no document", &[ENTRY], 1),
    ("a parent isn't there", &[ELEMENT], 0),
    ("no entry names a document", &[DOCUMENT], 0),
    ("two entries do", &[ENTRY, AGAIN, DOCUMENT], 2),
    ("a text stands in a document", &[ENTRY, DOCUMENT, TEXT], 2),
    ("a name is none", &[ENTRY, DOCUMENT, NO_NAME], 2),
    (
        "a document has two children",
        &[ENTRY, DOCUMENT, ELEMENT, SECOND],
        3,
    ),
    (
        "a document has an attribute",
        &[ENTRY, DOCUMENT, ATTRIBUTE],
        2,
    ),
    ("the root has a record", &[ROOT], 0),
];

/// What a journal with one commit opens with.
fn opens_with(alloc: Global, body: &[&[u8]]) -> Result<(u32, usize), OpenError> {
    let bytes = journal(alloc, body)?;
    opens(alloc, bytes.as_slice(), b"")
}

#[test]
fn each_rule_of_the_tree_has_its_place(rt: HostRuntime) -> Result<(), Fail> {
    for &(rule, body, at) in &RULES {
        let found = opens_with(rt.alloc(), body);
        assert_eq!(rt; found, damaged(File::Tree, at), "{rule}");
    }
    Ok(())
}

/// The first byte of the third record's name, if there are three and it is an element; otherwise a point.
fn name_of_third(entries: &[(Key, Record)]) -> u8 {
    match entries {
        [_, _, (_, Record::Element(name))] => name
            .as_str()
            .as_bytes()
            .first()
            .copied()
            .unwrap_or(0),
        _ => b'.',
    }
}

/// The number that a journal opens with, and the name of its third record.
fn third_name(alloc: Global, journal: &[u8]) -> Result<(u32, u8), OpenError> {
    let store = opened(alloc, journal, b"")?;
    Ok((store.number, name_of_third(store.entries.as_slice())))
}

const NO_ELEMENT: &[u8] = b"\x02\x01\x83\x69\x83\x69\0\0";

const RENAMED: &[u8] = b"\x01\x01\x83\x69\x83\x69\0\0\0\0\0\x02\x02b";

/// What a second commit and a third do to the element, and its name then.
const LATER: [(&[u8], &[u8], u8); 3] = [
    (NO_ELEMENT, NO_ELEMENT, b'.'),
    (NO_ELEMENT, RENAMED, b'b'),
    (RENAMED, ELEMENT, b'a'),
];

/// What a journal with two more commits opens with, and the name of its third record then.
fn name_after(alloc: Global, second: &[u8], third: &[u8]) -> Result<(u32, u8), OpenError> {
    let mut bytes = journal(alloc, &[ENTRY, DOCUMENT, ELEMENT])?;
    commit(alloc, &mut bytes, 2, second)?;
    commit(alloc, &mut bytes, 3, third)?;
    third_name(alloc, bytes.as_slice())
}

#[test]
fn commits_follow_one_another_and_what_is_deleted_stays_away(rt: HostRuntime) -> Result<(), Fail> {
    for &(second, third, want) in &LATER {
        assert_eq!(rt; name_after(rt.alloc(), second, third), Ok((3, want)));
    }
    Ok(())
}

/// Why a store isn't opened, if it isn't, and the faults that its disks have counted.
fn counted(left: &Left) -> (Option<OpenError>, u64, u64) {
    let fault = match &left.held {
        Ok(_) => None,
        Err(fault) => Some(*fault),
    };
    (fault, left.journal.faults(), left.pages.faults())
}

/// The same of two empty files, whose disks fail at these calls.
fn faults(
    alloc: Global,
    journal_fails: u64,
    pages_fail: u64,
) -> Result<(Option<OpenError>, u64, u64), NoMemory> {
    let journal = disk(alloc, b"", journal_fails)?;
    let pages = disk(alloc, b"", pages_fail)?;
    Ok(counted(&left_by(alloc, journal, pages)))
}

/// The call of the journal's disk that fails, the one of the pages' disk, and the faults of both. Nine calls of the journal's disk make a new journal, of which two sync it and look at its length, and two are made of the pages'.
const FAILING: [(u64, u64, (u64, u64)); 11] = [
    (1, 10, (1, 0)),
    (2, 10, (1, 0)),
    (3, 10, (1, 0)),
    (4, 10, (1, 0)),
    (5, 10, (1, 0)),
    (6, 10, (1, 0)),
    (7, 10, (1, 0)),
    (8, 10, (1, 0)),
    (9, 10, (1, 0)),
    (10, 1, (0, 1)),
    (10, 2, (0, 1)),
];

#[test]
fn a_failing_call_of_either_disk_hands_both_back(rt: HostRuntime) -> Result<(), Fail> {
    for &(journal, pages, want) in &FAILING {
        let refused = faults(rt.alloc(), journal, pages)?;
        let want = (Some(OpenError::DiskFault), want.0, want.1);
        assert_eq!(rt; refused, want, "at calls {journal} and {pages}");
    }
    Ok(())
}

/// The disk of the journal that is made in an empty file.
fn new_journal(alloc: Global) -> Result<MemDisk, OpenError> {
    let journal = disk(alloc, b"", 0)?;
    let pages = disk(alloc, b"", 0)?;
    let left = left_by(alloc, journal, pages);
    left.held?;
    Ok(left.journal)
}

/// Whether each image that a crash in a call of the journal's disk leaves opens as an empty store.
fn leaves_an_empty_store(alloc: Global, disk: &MemDisk, call: u64) -> Result<bool, OpenError> {
    for image in disk.stop_images(alloc, call)?.as_slice() {
        if opens(alloc, image.as_slice(), b"")? != (0, 0) {
            return Ok(false);
        }
    }
    Ok(true)
}

/// A call, and whether a crash in it leaves an empty store.
type Stop = (u64, Result<bool, OpenError>);

/// The first of ten calls of the journal's disk at which a crash may leave more than an empty store.
fn first_bad_stop(alloc: Global, disk: &MemDisk) -> Option<Stop> {
    for call in 1..11 {
        let empty = leaves_an_empty_store(alloc, disk, call);
        if empty != Ok(true) {
            return Some((call, empty));
        }
    }
    None
}

/// How many calls of its disk make a journal, whether it is one without commits, and the first bad stop.
fn stops_of_new_journal(alloc: Global) -> Result<(u64, bool, Option<Stop>), OpenError> {
    let disk = new_journal(alloc)?;
    let bad = first_bad_stop(alloc, &disk);
    Ok((disk.calls(), disk.bytes() == NEW, bad))
}

#[test]
fn a_stop_while_a_store_is_made_leaves_an_empty_one(rt: HostRuntime) -> Result<(), Fail> {
    assert_eq!(rt; stops_of_new_journal(rt.alloc()), Ok((9, true, None)));
    Ok(())
}
