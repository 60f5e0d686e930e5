//! Page files to read.
use dewey_labels::{Label, List, Text};
use node_pages::{Cut, PAGE_BYTES, Page, cut_pages};
use node_seq::SortedSeq;
use outside_kinds::MemDisk;
use page_store::Pool;
use paged_seq::PagedSeq;
use std::alloc::Global;
use std::test::Fail;
use tree_model::{Key, Record};

pub fn key(alloc: Global, divisions: &[u32], name: &str) -> Result<Key, Fail> {
    let divisions = List::from_vec(Vec::from_slice(alloc, divisions)?);
    match Label::of_divisions(divisions) {
        Some(label) => Ok(Key::of_attribute(alloc, &label, name)?),
        None => Err(Fail::from("no label")),
    }
}

/// A text of so many characters `t`.
pub fn letters(alloc: Global, count: usize) -> Result<Text, Fail> {
    let mut text = String::new(alloc);
    for _ in 0..count {
        text.push('t')?;
    }
    Ok(Text::of(alloc, text.as_str())?)
}

/// Puts a record at the key of a label and a name.
pub fn put(
    alloc: Global,
    seq: &mut SortedSeq,
    divisions: &[u32],
    name: &str,
    record: Record,
) -> Result<(), Fail> {
    let at = key(alloc, divisions, name)?;
    let _old = seq.put(alloc, at, record)?;
    Ok(())
}

/// The map of the document `x` with the element `a`.
pub fn document(alloc: Global) -> Result<SortedSeq, Fail> {
    let mut seq = SortedSeq::new(alloc);
    let label = Record::Attr(Text::of(alloc, "1.1001")?);
    put(alloc, &mut seq, &[1], "x", label)?;
    put(alloc, &mut seq, &[1, 1001], "", Record::Document)?;
    let element = Record::Element(Text::of(alloc, "a")?);
    put(alloc, &mut seq, &[1, 1001, 1001], "", element)?;
    Ok(seq)
}

/// The page file of the document.
pub fn document_file(alloc: Global) -> Result<Vec<u8>, Fail> {
    let mut map = document(alloc)?;
    file_of(alloc, &mut map)
}

/// The page file of the document with a text of so many letters.
pub fn long_file(alloc: Global, length: usize) -> Result<Vec<u8>, Fail> {
    let mut map = document(alloc)?;
    let text = Record::Text(letters(alloc, length)?);
    put(alloc, &mut map, &[1, 1001, 1001, 1001], "", text)?;
    file_of(alloc, &mut map)
}

/// The bytes of the pages that the map is cut into, with the base 1.
pub fn file_of(alloc: Global, seq: &mut SortedSeq) -> Result<Vec<u8>, Fail> {
    match cut_pages(alloc, seq, 1)? {
        Cut::Pages(pages) => joined(alloc, pages.as_slice()),
        Cut::TooMany { .. } => Err(Fail::from("too many")),
    }
}

fn joined(alloc: Global, pages: &[Page]) -> Result<Vec<u8>, Fail> {
    let mut bytes = Vec::new(alloc);
    for page in pages {
        bytes.extend_from_slice(page.as_slice())?;
    }
    Ok(bytes)
}

/// The bytes of pages that begin so, with zeros behind.
pub fn padded(alloc: Global, heads: &[&[u8]]) -> Result<Vec<u8>, Fail> {
    let mut bytes = Vec::new(alloc);
    let mut end = 0;
    for head in heads {
        bytes.extend_from_slice(head)?;
        end = PAGE_BYTES.saturating_add(end);
        bytes.resize(end, 0)?;
    }
    Ok(bytes)
}

/// The map over these bytes, with so many frames, or the place where they are damaged.
pub fn opened(
    alloc: Global,
    bytes: Vec<u8>,
    frames: u32,
) -> Result<Result<PagedSeq<MemDisk>, u64>, Fail> {
    if frames == 0 {
        return Err(Fail::from("no frame"));
    }
    let pool = Pool::new(alloc, frames)?;
    let disk = MemDisk::new(List::from_vec(bytes), List::new(alloc));
    match PagedSeq::open(alloc, disk, pool) {
        Ok(seq) => Ok(Ok(seq)),
        Err(refused) => match refused.fault {
            node_records::OpenError::Damaged(place) => Ok(Err(place.at)),
            _ => Err(Fail::from("not opened")),
        },
    }
}
