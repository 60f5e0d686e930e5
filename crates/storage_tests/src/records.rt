//! The bytes of each form at its edges, and bytes that are of no form.
use dewey_labels::{Label, List};
use node_records::{
    Entry, Pending, read_change, read_key, read_record, write_change, write_key, write_record,
};
use std::alloc::Global;
use std::test::Fail;
use tree_model::{Change, Key, Record};

fn key(alloc: Global, divisions: &[u32], name: &str) -> Result<Key, Fail> {
    let divisions = List::from_vec(Vec::from_slice(alloc, divisions)?);
    match Label::of_divisions(divisions) {
        Some(label) => Ok(Key::of_attribute(alloc, &label, name)?),
        None => Err(Fail::from("no label")),
    }
}

/// Whether the key is written as the bytes.
fn is_written_as(alloc: Global, key: &Key, bytes: &[u8]) -> Result<bool, Fail> {
    let mut out = List::new(alloc);
    write_key(alloc, key, &mut out)?;
    Ok(out.as_slice() == bytes)
}

/// The bytes with a byte 7 behind them.
fn with_one_more(alloc: Global, bytes: &[u8]) -> Result<Vec<u8>, Fail> {
    let mut longer = Vec::from_slice(alloc, bytes)?;
    longer.push(7)?;
    Ok(longer)
}

/// Whether the key is read from the bytes with one more behind.
fn is_read_from(alloc: Global, key: &Key, bytes: &[u8]) -> Result<bool, Fail> {
    let longer = with_one_more(alloc, bytes)?;
    match read_key(alloc, &longer)? {
        Some((again, length)) => Ok(again == *key && length == bytes.len()),
        None => Ok(false),
    }
}

/// Whether the key of this label and name is written as the bytes, and read from them with one more behind.
fn has_bytes(alloc: Global, divisions: &[u32], name: &str, bytes: &[u8]) -> Result<bool, Fail> {
    let key = key(alloc, divisions, name)?;
    Ok(is_written_as(alloc, &key, bytes)? && is_read_from(alloc, &key, bytes)?)
}

/// Whether bytes begin with a key.
fn begin_with_a_key(alloc: Global, bytes: &[u8]) -> Result<bool, Fail> {
    Ok(read_key(alloc, bytes)?.is_some())
}

/// Labels with the divisions at the edges of the forms, and the bytes of their keys without a name.
const EDGES: [(&[u32], &[u8]); 8] = [
    (&[1], &[0x01, 0x00, 0x00]),
    (&[1, 127], &[0x01, 0x7F, 0x00, 0x00]),
    (&[1, 128, 3], &[0x01, 0x80, 0x00, 0x03, 0x00, 0x00]),
    (&[1, 16_511], &[0x01, 0xBF, 0xFF, 0x00, 0x00]),
    (&[1, 16_512, 3], &[0x01, 0xC0, 0x00, 0x00, 0x03, 0x00, 0x00]),
    (&[1, 2_113_663], &[0x01, 0xDF, 0xFF, 0xFF, 0x00, 0x00]),
    (
        &[1, 2_113_664, 3],
        &[0x01, 0xE0, 0x00, 0x20, 0x40, 0x80, 0x03, 0x00, 0x00],
    ),
    (
        &[1, 4_294_967_291],
        &[0x01, 0xE0, 0xFF, 0xFF, 0xFF, 0xFB, 0x00, 0x00],
    ),
];

#[test]
fn a_division_has_the_bytes_of_its_form_at_each_edge(rt: HostRuntime) -> Result<(), Fail> {
    for &(divisions, bytes) in &EDGES {
        assert!(rt;
            has_bytes(rt.alloc(), divisions, "", bytes)?,
            "of {divisions:?}"
        );
    }
    Ok(())
}

/// Labels whose second division is cut short or in no form of its own, before the division 3 and both ends of a key.
const NO_DIVISIONS: [&[u8]; 9] = [
    &[0x01, 0x80],
    &[0x01, 0xC0, 0x00],
    &[0x01, 0xE0, 0x00, 0x20, 0x40],
    // The greatest division of three bytes, and 127, in five.
    &[0x01, 0xE0, 0x00, 0x20, 0x40, 0x7F, 0x03, 0x00, 0x00],
    &[0x01, 0xE0, 0x00, 0x00, 0x00, 0x7F, 0x03, 0x00, 0x00],
    // First bytes of no form.
    &[0x01, 0xE1, 0x00, 0x20, 0x40, 0x80, 0x03, 0x00, 0x00],
    &[0x01, 0xE8, 0x00, 0x20, 0x40, 0x80, 0x03, 0x00, 0x00],
    &[0x01, 0xF0, 0x00, 0x20, 0x40, 0x80, 0x03, 0x00, 0x00],
    &[0x01, 0xFF, 0xFF, 0xFF, 0xFF, 0xFF, 0x03, 0x00, 0x00],
];

#[test]
fn a_division_cut_short_or_in_a_longer_form_is_none(rt: HostRuntime) -> Result<(), Fail> {
    for &bytes in &NO_DIVISIONS {
        assert!(rt; !begin_with_a_key(rt.alloc(), bytes)?, "at {bytes:?}");
    }
    Ok(())
}

/// Labels and names, and the bytes of their keys.
const KEYS: [(&[u32], &str, &[u8]); 5] = [
    (&[1], "", &[0x01, 0x00, 0x00]),
    (&[1], "x", &[0x01, 0x00, 0x78, 0x00]),
    (&[1, 1001], "", &[0x01, 0x83, 0x69, 0x00, 0x00]),
    (
        &[1, 1001, 1001],
        "",
        &[0x01, 0x83, 0x69, 0x83, 0x69, 0x00, 0x00],
    ),
    // Behind the first byte of the division 128 stands a byte 0, and ends nothing.
    (
        &[1, 128, 3],
        "\u{E9}",
        &[0x01, 0x80, 0x00, 0x03, 0x00, 0xC3, 0xA9, 0x00],
    ),
];

#[test]
fn a_key_is_its_label_its_name_and_a_zero(rt: HostRuntime) -> Result<(), Fail> {
    for &(divisions, name, bytes) in &KEYS {
        assert!(rt;
            has_bytes(rt.alloc(), divisions, name, bytes)?,
            "of {divisions:?} and {name}"
        );
    }
    Ok(())
}

/// Bytes that begin with no key.
const NO_KEYS: [&[u8]; 12] = [
    &[],
    // A label cut short: behind a division, within one, before its end.
    &[0x01],
    &[0x01, 0x83],
    &[0x01, 0x83, 0x69],
    // A name without its end.
    &[0x01, 0x00],
    &[0x01, 0x00, 0x78],
    // A name that isn't UTF-8.
    &[0x01, 0x00, 0xFF, 0x00],
    &[0x01, 0x00, 0xC3, 0x00],
    // No labels: no division, not 1 first, an even division last, one above the greatest.
    &[0x00, 0x00],
    &[0x03, 0x00, 0x00],
    &[0x01, 0x02, 0x00, 0x00],
    &[0x01, 0xE0, 0xFF, 0xFF, 0xFF, 0xFD, 0x00, 0x00],
];

#[test]
fn bytes_that_begin_with_no_key_are_none(rt: HostRuntime) -> Result<(), Fail> {
    for &bytes in &NO_KEYS {
        assert!(rt; !begin_with_a_key(rt.alloc(), bytes)?, "at {bytes:?}");
    }
    Ok(())
}

/// What a record is, and its name, data or value.
pub fn parts(record: &Record) -> (&'static str, &str) {
    match record {
        Record::Document => ("document", ""),
        Record::Element(name) => ("element", name.as_str()),
        Record::Text(data) => ("text", data.as_str()),
        Record::Attr(value) => ("attribute", value.as_str()),
    }
}

/// Whether the record is written as the bytes.
fn is_spelled(alloc: Global, record: &Record, bytes: &[u8]) -> Result<bool, Fail> {
    let mut out = List::new(alloc);
    write_record(alloc, record, &mut out)?;
    Ok(out.as_slice() == bytes)
}

/// Whether the bytes are all of the record, which is this one and is written as them.
fn is_whole(
    alloc: Global,
    (record, length): (&Record, usize),
    bytes: &[u8],
    want: (&str, &str),
) -> Result<bool, Fail> {
    Ok(length == bytes.len() && parts(record) == want && is_spelled(alloc, record, bytes)?)
}

/// Whether the bytes are this record, which is written as them.
fn is_record(alloc: Global, bytes: &[u8], want: (&str, &str)) -> Result<bool, Fail> {
    match read_record(alloc, bytes)? {
        Some((record, length)) => is_whole(alloc, (&record, length), bytes, want),
        None => Ok(false),
    }
}

/// Whether bytes begin with a record.
fn begin_with_a_record(alloc: Global, bytes: &[u8]) -> Result<bool, Fail> {
    Ok(read_record(alloc, bytes)?.is_some())
}

/// Bytes, and the record that they are.
const RECORDS: [(&[u8], (&str, &str)); 5] = [
    (&[0x01], ("document", "")),
    (&[0x02, 0x61], ("element", "a")),
    (&[0x03], ("text", "")),
    (&[0x03, 0x00, 0xC3, 0xA9], ("text", "\0\u{E9}")),
    (
        &[0x04, 0x31, 0x2E, 0x31, 0x30, 0x30, 0x31],
        ("attribute", "1.1001"),
    ),
];

#[test]
fn a_record_is_its_kind_and_its_text(rt: HostRuntime) -> Result<(), Fail> {
    for &(bytes, want) in &RECORDS {
        assert!(rt; is_record(rt.alloc(), bytes, want)?, "at {bytes:?}");
    }
    Ok(())
}

/// Nothing, the kinds 0 and 5, a document with something behind it, texts that aren't UTF-8.
const NO_RECORDS: [&[u8]; 6] = [
    &[],
    &[0x00, 0x61],
    &[0x05, 0x61],
    &[0x01, 0x61],
    &[0x03, 0xFF],
    &[0x02, 0x61, 0xC3],
];

#[test]
fn bytes_that_are_no_record_are_none(rt: HostRuntime) -> Result<(), Fail> {
    for &bytes in &NO_RECORDS {
        assert!(rt; !begin_with_a_record(rt.alloc(), bytes)?, "at {bytes:?}");
    }
    Ok(())
}

/// The length of the record that the bytes are, the length of its text, and whether it is written as them.
fn lengths_of(alloc: Global, bytes: &[u8]) -> Result<(usize, usize, bool), Fail> {
    match read_record(alloc, bytes)? {
        Some((record, length)) => {
            let spelled = is_spelled(alloc, &record, bytes)?;
            Ok((length, parts(&record).1.len(), spelled))
        }
        None => Err(Fail::from("no record")),
    }
}

/// The same of a text that takes so many bytes.
fn lengths_of_a_text(alloc: Global, taken: usize) -> Result<(usize, usize, bool), Fail> {
    let mut bytes = vec![in alloc; 3u8]?;
    bytes.resize(taken, b'x')?;
    lengths_of(alloc, &bytes)
}

#[test]
fn a_text_of_the_greatest_length_is_read_and_written(rt: HostRuntime) -> Result<(), Fail> {
    let found = lengths_of_a_text(rt.alloc(), 1_048_577)?;
    assert_eq!(rt; found, (1_048_577, 1_048_576, true));
    Ok(())
}

/// The body of a commit that creates the document `x` with the root element `a`, as docs/FILE_FORMAT.md, "Example", has it.
const BODY: [u8; 41] = [
    // Put the catalogue's entry for `x`: label 1, name x; 7 bytes: an attribute with the document's label.
    0x01, 0x01, 0x00, 0x78, 0x00, 0x00, 0x00, 0x00, 0x07, 0x04, 0x31, 0x2E, 0x31, 0x30, 0x30, 0x31,
    // Put the document: label 1.1001, no name; 1 byte: a document.
    0x01, 0x01, 0x83, 0x69, 0x00, 0x00, 0x00, 0x00, 0x00, 0x01, 0x01,
    // Put its element: label 1.1001.1001, no name; 2 bytes: an element named a.
    0x01, 0x01, 0x83, 0x69, 0x83, 0x69, 0x00, 0x00, 0x00, 0x00, 0x00, 0x02, 0x02, 0x61,
];

/// Whether the change is of the key of this label and name, to this record.
fn sets(
    alloc: Global,
    change: &Change,
    (divisions, name): (&[u32], &str),
    want: Option<(&str, &str)>,
) -> Result<bool, Fail> {
    let key = key(alloc, divisions, name)?;
    Ok(change.key == key && change.now.as_ref().map(parts) == want)
}

/// Whether the change is written as the bytes.
fn is_noted(alloc: Global, change: &Change, bytes: &[u8]) -> Result<bool, Fail> {
    let mut out = List::new(alloc);
    write_change(alloc, change, &mut out)?;
    Ok(out.as_slice() == bytes)
}

/// Whether the bytes are as many as this, and the change is of this key, to this record, and is written as them.
fn is_sought(
    alloc: Global,
    (change, length): (&Change, usize),
    of: (&[u32], &str),
    want: Option<(&str, &str)>,
    bytes: &[u8],
) -> Result<bool, Fail> {
    Ok(bytes.len() == length && sets(alloc, change, of, want)? && is_noted(alloc, change, bytes)?)
}

/// Whether the bytes begin with the change of this key to this record, of this length, which is written as it stands there.
fn is_change(
    alloc: Global,
    bytes: &[u8],
    of: (&[u32], &str),
    want: Option<(&str, &str)>,
    length: usize,
) -> Result<bool, Fail> {
    match read_change(alloc, bytes)? {
        Some((change, taken)) => is_sought(alloc, (&change, length), of, want, &bytes[..taken]),
        None => Ok(false),
    }
}

/// Whether bytes begin with a change.
fn begin_with_a_change(alloc: Global, bytes: &[u8]) -> Result<bool, Fail> {
    Ok(read_change(alloc, bytes)?.is_some())
}

/// Places in the body, lengths, and the keys and records of the changes there.
const CHANGES: [(usize, usize, (&[u32], &str), (&str, &str)); 3] = [
    (0, 16, (&[1], "x"), ("attribute", "1.1001")),
    (16, 11, (&[1, 1001], ""), ("document", "")),
    (27, 14, (&[1, 1001, 1001], ""), ("element", "a")),
];

/// The body from a place on.
fn body_from(place: usize) -> &'static [u8] {
    BODY.get(place..).unwrap_or(&[])
}

#[test]
fn the_body_of_a_commit_is_read_change_by_change(rt: HostRuntime) -> Result<(), Fail> {
    for &(place, length, of, want) in &CHANGES {
        assert!(rt;
            is_change(rt.alloc(), body_from(place), of, Some(want), length)?,
            "at {place}"
        );
    }
    Ok(())
}

#[test]
fn a_delete_is_its_key(rt: HostRuntime) -> Result<(), Fail> {
    let bytes = [0x02, 0x01, 0x83, 0x69, 0x00, 0x00, 0x07];
    assert!(rt; is_change(rt.alloc(), &bytes, (&[1, 1001], ""), None, 6)?);
    Ok(())
}

/// Nothing, the kinds 0 and 3, a record cut short, a length cut short, a record of kind 0.
const NO_CHANGES: [&[u8]; 6] = [
    &[],
    &[0x00, 0x01, 0x00, 0x00],
    &[0x03, 0x01, 0x00, 0x00],
    &[0x01, 0x01, 0x00, 0x78, 0x00, 0x00, 0x00, 0x00, 0x02, 0x04],
    &[0x01, 0x01, 0x00, 0x78, 0x00, 0x00, 0x00, 0x00],
    &[0x01, 0x01, 0x00, 0x78, 0x00, 0x00, 0x00, 0x00, 0x01, 0x00],
];

#[test]
fn bytes_that_begin_with_no_change_are_none(rt: HostRuntime) -> Result<(), Fail> {
    for &bytes in &NO_CHANGES {
        assert!(rt; !begin_with_a_change(rt.alloc(), bytes)?, "at {bytes:?}");
    }
    Ok(())
}

/// Whether the change is refused, and what was written before it stays as it was.
fn is_refused(alloc: Global, change: &Change) -> Result<bool, Fail> {
    let mut out = List::new(alloc);
    out.push(7)?;
    let refused = write_change(alloc, change, &mut out).is_err();
    Ok(refused && out.as_slice() == [7].as_slice())
}

/// The same of a delete of the key of this label and name.
fn is_delete_refused(alloc: Global, divisions: &[u32], name: &str) -> Result<bool, Fail> {
    let key = key(alloc, divisions, name)?;
    is_refused(alloc, &Change { key, now: None })
}

#[test]
fn a_change_of_a_name_with_a_zero_is_not_written(rt: HostRuntime) -> Result<(), Fail> {
    assert!(rt; is_delete_refused(rt.alloc(), &[1, 1001], "a\0b")?);
    Ok(())
}

fn entry(alloc: Global) -> Result<Entry, Fail> {
    let key = key(alloc, &[1, 1_001], "id")?;
    Ok(Entry {
        key,
        chunk: 3,
        last: true,
        bytes: List::from_vec(Vec::from_slice(alloc, b"b7")?),
    })
}

fn is_entry_copied(alloc: Global) -> Result<bool, Fail> {
    let entry = entry(alloc)?;
    let copy = entry.copy(alloc)?;
    Ok(
        copy.key == entry.key
            && copy.chunk == 3
            && copy.last
            && copy.bytes.as_slice() == b"b7".as_slice(),
    )
}

fn is_pending_copied(alloc: Global) -> Result<bool, Fail> {
    let pending = Pending {
        number: 7,
        body: List::from_vec(Vec::from_slice(alloc, b"b7")?),
    };
    let copy = pending.copy(alloc)?;
    Ok(copy.number == 7 && copy.body.as_slice() == b"b7".as_slice())
}

#[test]
fn entries_and_pending_commits_are_copied(rt: HostRuntime) -> Result<(), Fail> {
    assert!(rt; is_entry_copied(rt.alloc())?);
    assert!(rt; is_pending_copied(rt.alloc())?);
    Ok(())
}
