//! Maps and the pages that they are cut into.
use dewey_labels::{Label, List, Text};
use node_pages::{Cut, PAGE_BYTES, cut_pages};
use node_seq::SortedSeq;
use std::alloc::Global;
use std::test::Fail;
use tree_model::{Key, Record};

fn key(alloc: Global, divisions: &[u32], name: &str) -> Result<Key, Fail> {
    let divisions = List::from_vec(Vec::from_slice(alloc, divisions)?);
    match Label::of_divisions(divisions) {
        Some(label) => Ok(Key::of_attribute(alloc, &label, name)?),
        None => Err(Fail::from("no label")),
    }
}

/// A text of so many characters `t`.
fn letters(alloc: Global, count: usize) -> Result<Text, Fail> {
    let mut text = String::new(alloc);
    for _ in 0..count {
        text.push('t')?;
    }
    Ok(Text::of(alloc, text.as_str())?)
}

/// The map of the document `x` with the element `a`.
fn document(alloc: Global) -> Result<SortedSeq, Fail> {
    let mut seq = SortedSeq::new(alloc);
    let label = Text::of(alloc, "1.1001")?;
    seq.put(alloc, key(alloc, &[1], "x")?, Record::Attr(label))?;
    seq.put(alloc, key(alloc, &[1, 1001], "")?, Record::Document)?;
    let name = Text::of(alloc, "a")?;
    seq.put(
        alloc,
        key(alloc, &[1, 1001, 1001], "")?,
        Record::Element(name),
    )?;
    Ok(seq)
}

/// The pages of a map, with the base 1.
fn pages_of(alloc: Global, seq: &mut SortedSeq) -> Result<List<List<u8>>, Fail> {
    match cut_pages(alloc, seq, 1)? {
        Cut::Pages(pages) => Ok(pages),
        Cut::TooMany { .. } => Err(Fail::from("too many")),
    }
}

/// Whether the page begins with these bytes, and has zeros behind them.
fn is_page(page: &[u8], head: &[u8]) -> bool {
    match page.strip_prefix(head) {
        Some(rest) => page.len() == PAGE_BYTES && rest.iter().all(|byte| *byte == 0),
        None => false,
    }
}

/// The page file of "A page file byte by byte", without the zeros behind each page.
const DUMP: [&[u8]; 3] = [
    b"XTCPAGE1\x00\x00\x00\x01\x00\x00\x00\x03\x00\x00\x00\x01\x00\x00\x00\x01",
    b"\x00\x03\x01\x00x\x00\x00\x00\x01\x00\x07\x041.1001\x01\x83\x69\x00\x00\x00\x00\x01\x00\x01\x01\x01\x83\x69\x83\x69\x00\x00\x00\x00\x01\x00\x02\x02a",
    b"\x00\x01\x01\x00x\x00\x00\x00\x00\x00\x00\x01",
];

#[test]
fn the_dump_of_the_file_format_is_the_cut_of_its_map(rt: HostRuntime) -> Result<(), Fail> {
    let pages = pages_of(rt.alloc(), &mut document(rt.alloc())?)?;
    assert_eq!(rt; pages.len(), DUMP.len());
    for (page, head) in pages.as_slice().iter().zip(&DUMP) {
        assert!(rt; is_page(page.as_slice(), head), "at {head:?}");
    }
    Ok(())
}

/// Page 0 of a map of texts with so many letters at the labels 1.1001, 1.1003 and so on.
fn counts(alloc: Global, lengths: &[usize]) -> Result<List<u8>, Fail> {
    let mut seq = SortedSeq::new(alloc);
    let mut last = 1001;
    for length in lengths {
        seq.put(
            alloc,
            key(alloc, &[1, last], "")?,
            Record::Text(letters(alloc, *length)?),
        )?;
        last = if last < 5001 { last + 2 } else { 1001 };
    }
    match pages_of(alloc, &mut seq)?.into_vec().first() {
        Some(page) => Ok(List::from_vec(Vec::from_slice(alloc, page.as_slice())?)),
        None => Err(Fail::from("no page")),
    }
}

/// Texts, and the counts of all pages, data pages and directory pages that they take. A text at such a label takes its letters, one byte for its kind, five for
/// its key and five for each chunk: the first eight together are 8,190 bytes, and with one letter more the last goes to a page of its own.
const FILLED: [(&[usize], [u8; 3]); 6] = [
    (&[], [1, 0, 0]),
    (&[0], [3, 1, 1]),
    (&[1023, 1023, 1023, 1023, 1023, 1023, 1023, 941], [3, 1, 1]),
    (&[1023, 1023, 1023, 1023, 1023, 1023, 1023, 942], [4, 2, 1]),
    (&[942, 1023, 1023, 1023, 1023, 1023, 1023, 1023], [4, 2, 1]),
    (&[20_000], [5, 3, 1]),
];

#[test]
fn an_entry_goes_to_the_next_page_exactly_where_it_doesnt_fit(rt: HostRuntime) -> Result<(), Fail> {
    for &(lengths, [count, data, directory]) in &FILLED {
        let zero = counts(rt.alloc(), lengths)?;
        let mut head = Vec::from_slice(rt.alloc(), b"XTCPAGE1\x00\x00\x00\x01")?;
        head.extend_from_slice(&[0, 0, 0, count, 0, 0, 0, data, 0, 0, 0, directory])?;
        assert!(rt; is_page(zero.as_slice(), &head), "of {lengths:?}");
    }
    Ok(())
}
