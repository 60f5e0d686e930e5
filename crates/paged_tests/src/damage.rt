//! Page files that break a rule, as docs/FILE_FORMAT.md tells what becomes of them.
use crate::files::{document_file, file_of, key, letters, long_file, opened, padded, put};
use node_seq::{NodeRead, SeqError, SortedSeq};
use outside_kinds::MemDisk;
use paged_seq::PagedSeq;
use std::alloc::Global;
use std::test::Fail;
use tree_model::{Key, Record};

/// Where a file is damaged, with bytes at some places set to others.
fn place_with(
    alloc: Global,
    mut bytes: Vec<u8>,
    others: &[(usize, u8)],
) -> Result<Option<u64>, Fail> {
    for &(at, byte) in others {
        if at < bytes.len() {
            bytes[at] = byte;
        }
    }
    match opened(alloc, bytes, 1)? {
        Ok(_) => Ok(None),
        Err(place) => Ok(Some(place)),
    }
}

/// The page file of "A page file byte by byte": how long it is, which bytes are others, and where it is damaged; three pages have 24,576 bytes.
const ROWS: [(usize, &[(usize, u8)], Option<u64>); 23] = [
    (0, &[], None),
    (24_576, &[], None),
    (30_000, &[(24_576, 7)], None),
    // Page 0: its length, magic, zeros and counts.
    (100, &[], Some(0)),
    (24_576, &[(0, 2)], Some(0)),
    (24_576, &[(24, 2)], Some(0)),
    (24_576, &[(15, 4)], Some(0)),
    // A data page: its length, count and zeros.
    (8_300, &[], Some(8_192)),
    (24_576, &[(8_193, 4)], Some(8_192)),
    (24_576, &[(8_193, 0)], Some(8_192)),
    (24_576, &[(16_383, 1)], Some(8_192)),
    // A label that begins with 2, a name that is no UTF-8.
    (24_576, &[(8_194, 2)], Some(8_192)),
    (24_576, &[(8_196, 0xFF)], Some(8_192)),
    // A record that begins with chunk 1, chunks that are too short or of no kind, keys that fall, a kind of no record.
    (24_576, &[(8_216, 1)], Some(8_192)),
    (24_576, &[(8_217, 0)], Some(8_192)),
    (24_576, &[(8_217, 2)], Some(8_192)),
    (24_576, &[(8_223, 0x67)], Some(8_192)),
    (24_576, &[(8_233, 5)], Some(8_192)),
    // The directory: its bytes, no page of it, one too few, one too many; and the first of two faults.
    (24_576, &[(16_386, 2)], Some(16_384)),
    (16_384, &[], Some(16_384)),
    (16_384, &[(15, 2), (23, 0)], Some(0)),
    (32_768, &[(15, 4), (23, 2)], Some(24_576)),
    (24_576, &[(16_386, 2), (8_193, 0)], Some(8_192)),
];

/// Where the file of this length is damaged with these other bytes.
fn place_in(alloc: Global, length: usize, others: &[(usize, u8)]) -> Result<Option<u64>, Fail> {
    let mut bytes = document_file(alloc)?;
    bytes.resize(length, 0)?;
    place_with(alloc, bytes, others)
}

#[test]
fn each_file_is_damaged_at_its_place(rt: HostRuntime) -> Result<(), Fail> {
    for &(length, others, want) in &ROWS {
        let place = place_in(rt.alloc(), length, others)?;
        assert_eq!(rt; place, want, "with {length} bytes and {others:?}");
    }
    Ok(())
}

/// How long the text of the document is, which byte is another, and where the file is damaged. It begins on page 1 and ends on page 3.
const LONG: [(usize, usize, u8, u64); 5] = [
    // The flag of its second chunk, no UTF-8 in its last, the count of page 2, and the last byte of page 3.
    (20_000, 9_284, 1, 8_192),
    (20_000, 24_600, 0xFF, 8_192),
    (20_000, 16_385, 9, 16_384),
    (20_000, 32_767, 1, 24_576),
    // The flag of its last chunk, which is a whole one: the record doesn't end.
    (20_479, 29_779, 0, 8_192),
];

/// How long the file of a text is, and where it is damaged with one other byte.
fn place_in_long(
    alloc: Global,
    length: usize,
    at: usize,
    byte: u8,
) -> Result<(usize, Option<u64>), Fail> {
    let bytes = long_file(alloc, length)?;
    let whole = bytes.len();
    let place = place_with(alloc, bytes, &[(at, byte)])?;
    Ok((whole, place))
}

#[test]
fn a_record_that_is_none_is_damage_where_it_begins(rt: HostRuntime) -> Result<(), Fail> {
    for &(length, at, byte, want) in &LONG {
        let found = place_in_long(rt.alloc(), length, at, byte)?;
        assert_eq!(rt;
            found,
            (40_960, Some(want)),
            "at {at} of a text of {length}"
        );
    }
    Ok(())
}

/// The document's entries on two pages, though one has room for them: page 0, the two, and their directory.
const ROOMY: [&[u8]; 4] = [
    b"XTCPAGE1\x00\x00\x00\x01\x00\x00\x00\x04\x00\x00\x00\x02\x00\x00\x00\x01",
    b"\x00\x02\x01\x00x\x00\x00\x00\x01\x00\x07\x041.1001\x01\x83\x69\x00\x00\x00\x00\x01\x00\x01\x01",
    b"\x00\x01\x01\x83\x69\x83\x69\x00\x00\x00\x00\x01\x00\x02\x02a",
    b"\x00\x02\x01\x00x\x00\x00\x00\x00\x00\x00\x01\x01\x83\x69\x83\x69\x00\x00\x00\x00\x00\x00\x00\x02",
];

#[test]
fn a_page_with_room_is_the_one_that_breaks_the_rule(rt: HostRuntime) -> Result<(), Fail> {
    let place = place_with(rt.alloc(), padded(rt.alloc(), &ROOMY)?, &[])?;
    assert_eq!(rt; place, Some(8_192));
    Ok(())
}

/// The page file of 80 attributes with names of 1,000 letters: eight of their entries go on a page, and the starts of the ten on two.
fn long_names(alloc: Global) -> Result<Vec<u8>, Fail> {
    let mut seq = SortedSeq::new(alloc);
    let name = letters(alloc, 1_000)?;
    for number in 0..80 {
        let empty = Record::Attr(letters(alloc, 0)?);
        put(
            alloc,
            &mut seq,
            &[1, 1001, 1001 + 2 * number],
            name.as_str(),
            empty,
        )?;
    }
    file_of(alloc, &mut seq)
}

#[test]
fn too_few_directory_pages_are_damage_at_the_last(rt: HostRuntime) -> Result<(), Fail> {
    let bytes = long_names(rt.alloc())?;
    assert_eq!(rt; bytes.len(), 106_496);
    let place = place_with(rt.alloc(), bytes, &[(15, 12), (23, 1)])?;
    assert_eq!(rt; place, Some(90_112));
    Ok(())
}

/// The page file of the document, in which its element has a blank for a name.
fn blank_name(alloc: Global) -> Result<Vec<u8>, Fail> {
    let mut bytes = document_file(alloc)?;
    if 8_234 < bytes.len() {
        bytes[8_234] = b' ';
    }
    Ok(bytes)
}

/// Whether no record stands at a key, and none above another one.
fn is_gone<S: NodeRead>(
    alloc: Global,
    seq: &mut S,
    at: &Key,
    last: &Key,
) -> Result<bool, SeqError> {
    let found = seq.get(alloc, at)?.is_some();
    let above = seq.next_from(alloc, last)?.is_some();
    Ok(!found && !above)
}

/// Whether the last entry before the second document's label is the one at this key.
fn ends_at<S: NodeRead>(alloc: Global, seq: &mut S, last: &Key) -> Result<bool, Fail> {
    let behind = key(alloc, &[1, 1003], "")?;
    match seq.prev_from(alloc, &behind)? {
        Some((found, _record)) => Ok(found.cmp(last).is_eq()),
        None => Ok(false),
    }
}

/// Whether the element is no entry of the map, which ends with the document.
fn is_passed_over<S: NodeRead>(alloc: Global, seq: &mut S, element: &Key) -> Result<bool, Fail> {
    let document = key(alloc, &[1, 1001], "")?;
    let gone = is_gone(alloc, seq, element, &document)?;
    let ends = ends_at(alloc, seq, &document)?;
    Ok(gone && ends)
}

/// Whether the element's record is on a page, and no entry of the map.
fn has_it_on_a_page(alloc: Global, seq: &mut PagedSeq<MemDisk>) -> Result<(bool, bool), Fail> {
    let element = key(alloc, &[1, 1001, 1001], "")?;
    let stands = seq.record_at(alloc, &element)?.is_some();
    let passed = is_passed_over(alloc, seq, &element)?;
    Ok((stands, passed))
}

/// The same of the document whose element has a blank for a name.
fn blank_is_passed_over(alloc: Global) -> Result<(bool, bool), Fail> {
    match opened(alloc, blank_name(alloc)?, 1)? {
        Ok(seq) => {
            let mut seq = seq;
            has_it_on_a_page(alloc, &mut seq)
        }
        Err(_place) => Err(Fail::from("damaged")),
    }
}

#[test]
fn an_entry_that_no_tree_has_is_passed_over(rt: HostRuntime) -> Result<(), Fail> {
    assert_eq!(rt; blank_is_passed_over(rt.alloc())?, (true, true));
    Ok(())
}
