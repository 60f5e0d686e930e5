//! Maps of many pages beside the same maps in memory: walked, and read key by key.
use crate::files::{file_of, key, letters, opened, put};
use node_seq::{NodeRead, SeqError, SortedSeq};
use outside_kinds::MemDisk;
use paged_seq::PagedSeq;
use std::alloc::Global;
use std::test::Fail;
use tree_model::{Key, Record};

/// A map in memory and the same over pages, and how many data pages it takes.
#[derive(Drop)]
struct Both {
    map: SortedSeq,
    seq: PagedSeq<MemDisk>,
    pages: u64,
}

/// A map of so many texts, of lengths that recur with other numbers than the pages' do.
fn texts(alloc: Global, count: u32) -> Result<SortedSeq, Fail> {
    let mut seq = SortedSeq::new(alloc);
    for number in 0..count.min(2_000) {
        let text = Record::Text(letters(alloc, (number % 37) as usize * 90)?);
        put(alloc, &mut seq, &[1, 1001, 1001 + 2 * number], "", text)?;
    }
    Ok(seq)
}

/// A map of 120 texts, of which one takes more than two pages.
fn long_text(alloc: Global) -> Result<SortedSeq, Fail> {
    let mut map = texts(alloc, 120)?;
    let long = Record::Text(letters(alloc, 20_000)?);
    put(alloc, &mut map, &[1, 1001, 1121], "", long)?;
    Ok(map)
}

/// How many data pages a file of pages says that it has.
fn data_pages(bytes: &[u8]) -> u64 {
    match (bytes.get(18), bytes.get(19)) {
        (Some(high), Some(low)) => *high as u64 * 256 + *low as u64,
        _ => 0,
    }
}

/// The map over the pages of another one, with so many frames, and how many data pages there are.
fn paged(
    alloc: Global,
    map: &mut SortedSeq,
    frames: u32,
) -> Result<(PagedSeq<MemDisk>, u64), Fail> {
    let bytes = file_of(alloc, map)?;
    let pages = data_pages(&bytes);
    match opened(alloc, bytes, frames)? {
        Ok(seq) => Ok((seq, pages)),
        Err(_place) => Err(Fail::from("damaged")),
    }
}

/// The map beside its pages, with so many frames.
fn beside(alloc: Global, map: SortedSeq, frames: u32) -> Result<Both, Fail> {
    let mut map = map;
    match paged(alloc, &mut map, frames) {
        Ok((seq, pages)) => Ok(Both { map, seq, pages }),
        Err(fail) => Err(fail),
    }
}

/// Whether both are texts with the same letters.
fn is_same(found: &Record, want: &Record) -> bool {
    match (found, want) {
        (Record::Text(found), Record::Text(want)) => found.as_str() == want.as_str(),
        _ => false,
    }
}

fn are_same(found: &Option<(Key, Record)>, want: &Option<(Key, Record)>) -> bool {
    match (found, want) {
        (Some(found), Some(want)) => found.0.cmp(&want.0).is_eq() && is_same(&found.1, &want.1),
        (None, None) => true,
        _ => false,
    }
}

/// The entry above a key, or the one below it.
fn neighbour<S: NodeRead>(
    alloc: Global,
    seq: &mut S,
    at: &Key,
    upward: bool,
) -> Result<Option<(Key, Record)>, SeqError> {
    if upward {
        seq.next_from(alloc, at)
    } else {
        seq.prev_from(alloc, at)
    }
}

/// Where a step over two maps leads: to the same key, to the end of both, or apart.
#[derive(Drop)]
enum Step {
    To(Key),
    End,
    Apart,
}

fn step_of(found: Option<(Key, Record)>, want: &Option<(Key, Record)>) -> Step {
    if !are_same(&found, want) {
        return Step::Apart;
    }
    match found {
        Some((next, _record)) => Step::To(next),
        None => Step::End,
    }
}

fn take_step<S: NodeRead, T: NodeRead>(
    alloc: Global,
    seq: &mut S,
    map: &mut T,
    at: &Key,
    upward: bool,
) -> Result<Step, SeqError> {
    let found = neighbour(alloc, seq, at, upward)?;
    let want = neighbour(alloc, map, at, upward)?;
    Ok(step_of(found, &want))
}

/// Walks over both maps from a key on, upward or downward, and says whether each has the entries of the other.
fn walk<S: NodeRead, T: NodeRead>(
    alloc: Global,
    seq: &mut S,
    map: &mut T,
    from: Key,
    upward: bool,
) -> Result<bool, SeqError> {
    let mut at = from;
    for _ in 0..=1_000 {
        match take_step(alloc, seq, map, &at, upward)? {
            Step::To(next) => at = next,
            Step::End => return Ok(true),
            Step::Apart => return Ok(false),
        }
    }
    Ok(false)
}

/// Below all texts, or above them.
fn outside(alloc: Global, upward: bool) -> Result<Key, Fail> {
    if upward {
        key(alloc, &[1], "")
    } else {
        key(alloc, &[1, 1003], "")
    }
}

/// How many pages a walk reads, upward or downward, and how many data pages there are.
fn walk_over(alloc: Global, both: &mut Both, upward: bool) -> Result<(u64, u64), Fail> {
    let from = outside(alloc, upward)?;
    let before = both.seq.page_reads();
    if !walk(alloc, &mut both.seq, &mut both.map, from, upward)? {
        return Err(Fail::from("another entry"));
    }
    Ok((both.seq.page_reads().saturating_sub(before), both.pages))
}

/// The same over 300 texts with so many frames.
fn walk_of(alloc: Global, frames: u32, upward: bool) -> Result<(u64, u64), Fail> {
    let mut both = beside(alloc, texts(alloc, 300)?, frames)?;
    walk_over(alloc, &mut both, upward)
}

/// With how many frames, upward or not, and how many data pages the opening has left in them. Downward the last page of a record is passed before its first.
const WALKS: [(u32, bool, u64); 2] = [(1, true, 0), (2, false, 1)];

#[test]
fn a_walk_reads_each_page_once(rt: HostRuntime) -> Result<(), Fail> {
    for &(frames, upward, left) in &WALKS {
        let (reads, pages) = walk_of(rt.alloc(), frames, upward)?;
        let wanted = if pages > 50 { pages - left } else { 0 };
        assert_eq!(rt; reads, wanted, "with {frames} frames");
    }
    Ok(())
}

/// Last divisions of keys that are asked above one behind the other: near and far, on a page and beyond it, within the long text and behind it, and back.
const ASKED: [u32; 16] = [
    1001, 1003, 1005, 1011, 1013, 1051, 1049, 1119, 1121, 1123, 1131, 1009, 1201, 1239, 1241, 999,
];

/// The first of these keys above which a step over the maps leads apart, by its last division.
fn first_step_apart<S: NodeRead, T: NodeRead>(
    alloc: Global,
    seq: &mut S,
    map: &mut T,
) -> Result<Option<u32>, Fail> {
    for &last in &ASKED {
        let at = key(alloc, &[1, 1001, last], "")?;
        let step = take_step(alloc, seq, map, &at, true)?;
        if is_apart(&step) {
            return Ok(Some(last));
        }
    }
    Ok(None)
}

/// The same of the texts with a long one, and so many frames.
fn step_apart_with(alloc: Global, frames: u32) -> Result<Option<u32>, Fail> {
    let mut both = beside(alloc, long_text(alloc)?, frames)?;
    first_step_apart(alloc, &mut both.seq, &mut both.map)
}

#[test]
fn a_step_from_any_key_leads_where_it_does_in_memory(rt: HostRuntime) -> Result<(), Fail> {
    for frames in 1..=2 {
        let apart = step_apart_with(rt.alloc(), frames)?;
        assert_eq!(rt; apart, None, "with {frames} frames");
    }
    Ok(())
}

/// Whether both maps have the same record at a key.
fn find_same<S: NodeRead, T: NodeRead>(
    alloc: Global,
    seq: &mut S,
    map: &mut T,
    at: &Key,
) -> Result<bool, SeqError> {
    let found = seq.get(alloc, at)?;
    let want = map.get(alloc, at)?;
    Ok(match (&found, &want) {
        (Some(found), Some(want)) => is_same(found, want),
        (None, None) => true,
        _ => false,
    })
}

/// Whether both maps have the same at a key, above it and below it.
fn are_same_at<S: NodeRead, T: NodeRead>(
    alloc: Global,
    seq: &mut S,
    map: &mut T,
    at: &Key,
) -> Result<bool, SeqError> {
    let found = find_same(alloc, seq, map, at)?;
    let above = take_step(alloc, seq, map, at, true)?;
    let below = take_step(alloc, seq, map, at, false)?;
    Ok(found && !is_apart(&above) && !is_apart(&below))
}

fn is_apart(step: &Step) -> bool {
    match step {
        Step::Apart => true,
        _ => false,
    }
}

/// The first key at which the maps aren't the same, by its last division. Some lie before all, some behind, and with a name none is there.
fn first_apart<S: NodeRead, T: NodeRead>(
    alloc: Global,
    seq: &mut S,
    map: &mut T,
    name: &str,
) -> Result<Option<u32>, Fail> {
    for number in 0..130 {
        let last = 991 + 2 * number;
        let at = key(alloc, &[1, 1001, last], name)?;
        if !are_same_at(alloc, seq, map, &at)? {
            return Ok(Some(last));
        }
    }
    Ok(None)
}

/// The same of the texts with a long one, and two frames.
fn apart_with(alloc: Global, name: &str) -> Result<Option<u32>, Fail> {
    let mut both = beside(alloc, long_text(alloc)?, 2)?;
    first_apart(alloc, &mut both.seq, &mut both.map, name)
}

#[test]
fn a_map_over_pages_is_the_map_in_memory(rt: HostRuntime) -> Result<(), Fail> {
    assert_eq!(rt; apart_with(rt.alloc(), "")?, None);
    assert_eq!(rt; apart_with(rt.alloc(), "a")?, None);
    Ok(())
}
