//! Stores with pages as their two files have them, damaged at each rule's place, and failing at each call of their disks.
use dewey_labels::{Label, List, NoMemory};
use node_records::{File, OpenError, Place};
use node_seq::{NodeRead, SeqError, entries_above};
use outside_kinds::MemDisk;
use outside_traits::Disk;
use overlays::Stacked;
use recovery::{Opened, open_store};
use std::alloc::Global;
use std::test::Fail;
use tree_model::Key;

/// The three pages of the document x with the element a, without the zeros behind, as FILE_FORMAT has them.
const PAGES: [&[u8]; 3] = [
    b"XTCPAGE1\x00\x00\x00\x01\x00\x00\x00\x03\x00\x00\x00\x01\x00\x00\x00\x01",
    b"\x00\x03\x01\x00x\x00\x00\x00\x01\x00\x07\x041.1001\x01\x83\x69\x00\x00\x00\x00\x01\x00\x01\x01\x01\x83\x69\x83\x69\x00\x00\x00\x00\x01\x00\x02\x02a",
    b"\x00\x01\x01\x00x\x00\x00\x00\x00\x00\x00\x01",
];

/// A journal without commits.
const NEW: &[u8] = b"\x01XTCJRN1\x00";

/// The journal of the document x with the element a.
const SIXTY: &[u8] =
    b"\x01XTCJRN1\x01\0\0\0\0\x01\0\0\0\x29\x01\x01\0x\0\0\0\0\x07\x041.1001\x01\x01\x83\x69\0\0\0\0\0\x01\x01\x01\x01\x83\x69\x83\x69\0\0\0\0\0\x02\x02a\0";

/// Its first put, the catalogue's entry of x, and its last, the element.
const ENTRY: &[u8] = b"\x01\x01\0x\0\0\0\0\x07\x041.1001";

const ELEMENT: &[u8] = b"\x01\x01\x83\x69\x83\x69\0\0\0\0\0\x02\x02a";

/// A put of the text `t` as the child 1.1001.1001.1001 of the element, and deletes of the document and of the element.
const TEXT: &[u8] = b"\x01\x01\x83\x69\x83\x69\x83\x69\0\0\0\0\0\x02\x03t";

const NO_DOCUMENT: &[u8] = b"\x02\x01\x83\x69\0\0";

const NO_ELEMENT: &[u8] = b"\x02\x01\x83\x69\x83\x69\0\0";

/// The three pages, with their zeros.
fn whole_pages(alloc: Global) -> Result<Vec<u8>, NoMemory> {
    let mut bytes = Vec::new(alloc);
    for &content in &PAGES {
        bytes.extend_from_slice(content)?;
        for _ in content.len()..8_192 {
            bytes.push(0)?;
        }
    }
    Ok(bytes)
}

/// The pages with the byte at one place changed, the first so many bytes of them.
fn paged(alloc: Global, keep: usize, at: usize, byte: u8) -> Result<Vec<u8>, NoMemory> {
    let mut bytes = whole_pages(alloc)?;
    if let Some(place) = bytes.get_mut(at) {
        *place = byte;
    }
    bytes.truncate(keep);
    Ok(bytes)
}

/// A journal with one commit of this number and body; none for an empty body.
fn journal(alloc: Global, number: u8, body: &[u8]) -> Result<Vec<u8>, NoMemory> {
    let mut bytes = Vec::from_slice(alloc, NEW)?;
    if body.is_empty() {
        return Ok(bytes);
    }
    bytes[8] = 1;
    // Each body is short.
    let len = body.len().min(255) as u8;
    bytes.extend_from_slice(&[0, 0, 0, 0, number, 0, 0, 0, len])?;
    bytes.extend_from_slice(body)?;
    bytes.push(0)?;
    Ok(bytes)
}

/// A disk with this file that fails at one call; at none for 0.
fn disk(alloc: Global, file: &[u8], call: u64) -> Result<MemDisk, NoMemory> {
    let bytes = List::from_vec(Vec::from_slice(alloc, file)?);
    let mut calls = List::new(alloc);
    calls.push(call)?;
    Ok(MemDisk::new(bytes, calls))
}

/// What becomes of the disks of two files that are opened: the number and the count of the store's records, or why they aren't opened, and the disks behind it.
#[derive(Drop)]
struct Left {
    found: Result<(u32, usize), OpenError>,
    journal: MemDisk,
    pages: MemDisk,
}

/// How many records a map has.
fn count_of<S: NodeRead>(alloc: Global, map: &mut S) -> Result<usize, SeqError> {
    let root = Label::root(alloc)?;
    let first = Key::of_node(alloc, &root)?;
    let entries = entries_above(alloc, &first, map)?;
    Ok(entries.len())
}

/// A store's number, and how many records are seen through its commits.
fn found_in<S: NodeRead>(
    alloc: Global,
    number: u32,
    map: &mut S,
) -> Result<(u32, usize), OpenError> {
    match count_of(alloc, map) {
        Ok(count) => Ok((number, count)),
        Err(SeqError::DiskFault) => Err(OpenError::DiskFault),
        Err(SeqError::NoMemory) => Err(OpenError::NoMemory),
    }
}

/// What is found in an opened store, and its disks.
fn left_open(alloc: Global, store: Opened<MemDisk, MemDisk>) -> Left {
    let journal = store.journal.into_disk();
    let mut map = Stacked::new(store.base, store.layers);
    let found = found_in(alloc, store.number, &mut map);
    let (base, _layers) = map.into_parts();
    let (pages, _pool) = base.into_parts();
    Left {
        found,
        journal,
        pages,
    }
}

/// Opens the store of two disks, with one page frame.
fn left_by(alloc: Global, journal: MemDisk, pages: MemDisk) -> Left {
    match open_store(alloc, journal, pages, 1) {
        Ok(store) => left_open(alloc, store),
        Err(refused) => Left {
            found: Err(refused.fault),
            journal: refused.journal,
            pages: refused.pages,
        },
    }
}

/// The number and the count of records that two files open with, or why they aren't opened.
fn opens(alloc: Global, journal: &[u8], pages: &[u8]) -> Result<(u32, usize), OpenError> {
    let journal = disk(alloc, journal, 0)?;
    let pages = disk(alloc, pages, 0)?;
    left_by(alloc, journal, pages).found
}

/// The number and the count of records that two files open with, or the place of their damage.
type Stands = Result<(u32, usize), (File, u64)>;

fn told(stands: Stands) -> Result<(u32, usize), OpenError> {
    match stands {
        Ok(store) => Ok(store),
        Err((file, at)) => Err(OpenError::Damaged(Place { file, at })),
    }
}

/// How many bytes the page file has, the place that is changed, and the byte there.
type Pages = (usize, usize, u8);

/// Three whole pages.
const WHOLE: Pages = (24_576, 0, 0x58);

/// The number and the body of the journal's commit, the pages, and what the files stand for.
const ROWS: [((u8, &[u8]), Pages, Stands); 17] = [
    ((0, b""), WHOLE, Ok((1, 3))),
    ((2, TEXT), WHOLE, Ok((2, 4))),
    ((0, b""), (0, 0, 0x58), Ok((0, 0))),
    ((1, TEXT), WHOLE, Err((File::Journal, 8))),
    ((3, TEXT), WHOLE, Err((File::Journal, 8))),
    // Page 0 breaks a rule of its own, and tells no number.
    ((3, TEXT), (24_576, 0, 0x59), Err((File::Pages, 0))),
    ((3, TEXT), (100, 0, 0x58), Err((File::Pages, 0))),
    ((0, b""), (24_576, 15, 4), Err((File::Pages, 0))),
    // A rule of the journal comes before one of the pages.
    ((3, TEXT), (24_576, 8_193, 4), Err((File::Journal, 8))),
    ((2, TEXT), (24_576, 8_193, 4), Err((File::Pages, 8_192))),
    ((2, TEXT), (24_576, 16_385, 2), Err((File::Pages, 16_384))),
    ((2, TEXT), (24_575, 0, 0x58), Err((File::Pages, 16_384))),
    // And one of the pages before one of the tree.
    (
        (2, NO_DOCUMENT),
        (24_576, 8_193, 4),
        Err((File::Pages, 8_192)),
    ),
    ((2, NO_DOCUMENT), WHOLE, Err((File::Tree, 1))),
    ((2, NO_ELEMENT), WHOLE, Ok((2, 2))),
    // A document's entry without the document, and an element without its parent, beside no page.
    ((1, ENTRY), (0, 0, 0), Err((File::Tree, 1))),
    ((1, ELEMENT), (0, 0, 0), Err((File::Tree, 0))),
];

fn opens_row(
    alloc: Global,
    (number, body): (u8, &[u8]),
    (keep, at, byte): Pages,
) -> Result<(u32, usize), OpenError> {
    let journal = journal(alloc, number, body)?;
    let pages = paged(alloc, keep, at, byte)?;
    opens(alloc, &journal, &pages)
}

/// The first row with which the files open otherwise than it says, and what they open with.
fn first_otherwise(alloc: Global) -> Option<(usize, Result<(u32, usize), OpenError>)> {
    for (row, &(commit, pages, want)) in ROWS.iter().enumerate() {
        let found = opens_row(alloc, commit, pages);
        if found != told(want) {
            return Some((row, found));
        }
    }
    None
}

#[test]
fn files_with_pages_open_or_are_damaged_at_their_place(rt: HostRuntime) -> Result<(), Fail> {
    assert_eq!(rt; first_otherwise(rt.alloc()), None);
    Ok(())
}

/// How many of the sixty bytes there are, other bytes at a place, and what they stand for beside an empty page file.
const JOURNALS: [((usize, usize, &[u8]), Stands); 12] = [
    ((60, 0, b""), Ok((1, 3))),
    ((60, 9, b"\x02"), Err((File::Journal, 8))),
    ((60, 10, b"\0\0\0\x02"), Err((File::Journal, 8))),
    ((60, 10, b"\x02\x02\x02\x02"), Err((File::Journal, 8))),
    ((60, 59, b"\x01"), Err((File::Journal, 59))),
    ((60, 3, b"D"), Err((File::Journal, 0))),
    ((60, 0, b"\0"), Err((File::Journal, 0))),
    ((5, 0, b""), Err((File::Journal, 0))),
    ((40, 0, b""), Err((File::Journal, 8))),
    ((9, 0, b"\0"), Ok((0, 0))),
    ((60, 8, b"\x4D"), Ok((0, 0))),
    ((0, 0, b""), Ok((0, 0))),
];

/// The first so many of the sixty bytes, with these bytes at a place.
fn sixty(alloc: Global, keep: usize, at: usize, others: &[u8]) -> Result<Vec<u8>, NoMemory> {
    let mut bytes = Vec::from_slice(alloc, SIXTY)?;
    let mut next = at;
    for other in others {
        if let Some(place) = bytes.get_mut(next) {
            *place = *other;
        }
        next = next.saturating_add(1);
    }
    bytes.truncate(keep);
    Ok(bytes)
}

fn opens_journal(
    alloc: Global,
    (keep, at, others): (usize, usize, &[u8]),
) -> Result<(u32, usize), OpenError> {
    let journal = sixty(alloc, keep, at, others)?;
    opens(alloc, &journal, b"")
}

/// The first journal that opens otherwise than its row says, and what it opens with.
fn first_other_journal(alloc: Global) -> Option<(usize, Result<(u32, usize), OpenError>)> {
    for (row, &(journal, want)) in JOURNALS.iter().enumerate() {
        let found = opens_journal(alloc, journal);
        if found != told(want) {
            return Some((row, found));
        }
    }
    None
}

#[test]
fn journals_open_or_are_damaged_at_their_place(rt: HostRuntime) -> Result<(), Fail> {
    assert_eq!(rt; first_other_journal(rt.alloc()), None);
    Ok(())
}

/// Page files beside an empty journal, and what they stand for.
const PAGES_ALONE: [(Pages, Stands); 3] = [
    (WHOLE, Ok((1, 3))),
    ((100, 0, 0x58), Err((File::Pages, 0))),
    // Four entries where there are three.
    ((24_576, 8_193, 4), Err((File::Pages, 8_192))),
];

fn opens_pages(alloc: Global, (keep, at, byte): Pages) -> Result<(u32, usize), OpenError> {
    let pages = paged(alloc, keep, at, byte)?;
    opens(alloc, b"", &pages)
}

/// The first page file that opens otherwise than its row says, and what it opens with.
fn first_other_pages(alloc: Global) -> Option<(usize, Result<(u32, usize), OpenError>)> {
    for (row, &(pages, want)) in PAGES_ALONE.iter().enumerate() {
        let found = opens_pages(alloc, pages);
        if found != told(want) {
            return Some((row, found));
        }
    }
    None
}

#[test]
fn pages_open_or_are_damaged_at_their_place(rt: HostRuntime) -> Result<(), Fail> {
    assert_eq!(rt; first_other_pages(rt.alloc()), None);
    Ok(())
}

/// Disks with the second commit behind the pages, each of which fails at one call; at none for 0.
fn disks_of_two(
    alloc: Global,
    of_journal: u64,
    of_pages: u64,
) -> Result<(MemDisk, MemDisk), NoMemory> {
    let journal = disk(alloc, &journal(alloc, 2, TEXT)?, of_journal)?;
    let pages = disk(alloc, &paged(alloc, 24_576, 0, 0x58)?, of_pages)?;
    Ok((journal, pages))
}

/// What a store whose disks have one failing call, of the journal's or of the pages', opens as, and the faults that each disk counts.
fn with_a_failing_call(
    alloc: Global,
    of_journal: bool,
    call: u64,
) -> Result<(Result<(u32, usize), OpenError>, u64, u64), NoMemory> {
    let (first, second) = if of_journal { (call, 0) } else { (0, call) };
    let (journal, pages) = disks_of_two(alloc, first, second)?;
    let left = left_by(alloc, journal, pages);
    Ok((left.found, left.journal.faults(), left.pages.faults()))
}

/// Whether the disk is the journal's, how many calls of it an opening makes (of the pages its sync, their length, page 0 for the base, and the three pages),
/// and what is counted where one of them fails.
const CALLS: [(bool, u64, (u64, u64)); 2] = [(true, 4, (1, 0)), (false, 6, (0, 1))];

#[test]
fn a_failing_call_of_either_disk_is_answered_as_a_fault(rt: HostRuntime) -> Result<(), Fail> {
    for &(of_journal, calls, (journal, pages)) in &CALLS {
        for call in 1..=calls {
            let found = with_a_failing_call(rt.alloc(), of_journal, call)?;
            assert_eq!(rt;
                found,
                (Err(OpenError::DiskFault), journal, pages),
                "at call {call}"
            );
        }
        let all = with_a_failing_call(rt.alloc(), of_journal, calls.saturating_add(1))?;
        assert_eq!(rt; all, (Ok((2, 4)), 0, 0), "behind all");
    }
    Ok(())
}
