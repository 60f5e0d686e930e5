//! What an opening and a walk cost: each call of the disk, and a step beside a search.
use crate::files::{document_file, file_of, opened, put};
use dewey_labels::{Label, List, Text};
use node_seq::{NodeRead, SeqError, SortedSeq};
use outside_kinds::MemDisk;
use page_store::Pool;
use paged_seq::PagedSeq;
use std::alloc::Global;
use std::io;
use std::test::Fail;
use std::time::{CpuClock, Duration};
use tree_model::{Key, Record};

/// How often an opening calls the disk of the document's three pages, of which so many bytes are there.
fn calls_of_opening(alloc: Global, length: usize) -> Result<u64, Fail> {
    let mut bytes = document_file(alloc)?;
    bytes.truncate(length);
    let pool = Pool::new(alloc, 1)?;
    let disk = MemDisk::new(List::from_vec(bytes), List::new(alloc));
    match PagedSeq::open(alloc, disk, pool) {
        Ok(seq) => Ok(seq.into_parts().0.calls()),
        Err(refused) => Ok(refused.disk.calls()),
    }
}

/// How long the file is and how often it is called: for its length, and for each page up to the first that isn't whole, of which its bytes are read by one call.
const OPENINGS: [(usize, u64); 6] = [
    (24_576, 4),
    (20_000, 4),
    (16_384, 3),
    (10_000, 3),
    (100, 2),
    (0, 1),
];

#[test]
fn an_opening_calls_the_disk_once_for_each_page(rt: HostRuntime) -> Result<(), Fail> {
    for &(length, wanted) in &OPENINGS {
        let calls = calls_of_opening(rt.alloc(), length)?;
        assert_eq!(rt; calls, wanted, "of {length} bytes");
    }
    Ok(())
}

/// How many texts there are, as many as stand on a page, and no more.
const TEXTS: u32 = 500;

/// The map of so many texts without a letter, over pages that all have a frame.
fn short_texts(alloc: Global) -> Result<PagedSeq<MemDisk>, Fail> {
    let mut map = SortedSeq::new(alloc);
    for number in 0..TEXTS {
        let text = Record::Text(Text::of(alloc, "")?);
        put(alloc, &mut map, &[1, 1001, 1001 + 2 * number], "", text)?;
    }
    match opened(alloc, file_of(alloc, &mut map)?, 64)? {
        Ok(seq) => Ok(seq),
        Err(_place) => Err(Fail::from("damaged")),
    }
}

/// The key of a node.
fn node_key(alloc: Global, divisions: &[u32]) -> Result<Key, SeqError> {
    let Ok(divisions) = Vec::from_slice(alloc, divisions) else {
        return Err(SeqError::NoMemory);
    };
    match Label::of_divisions(List::from_vec(divisions)) {
        Some(label) => Ok(Key::of_node(alloc, &label)?),
        None => Err(SeqError::NoMemory),
    }
}

/// How many texts a walk upward finds.
fn walk<S: NodeRead>(alloc: Global, seq: &mut S) -> Result<u32, SeqError> {
    let mut at = node_key(alloc, &[1])?;
    for found in 0..=TEXTS {
        match seq.next_from(alloc, &at)? {
            Some((next, _record)) => at = next,
            None => return Ok(found),
        }
    }
    Ok(0)
}

/// How many texts are found, asked for one by one from the last to the first, so that each is looked for from the start of its page.
fn search<S: NodeRead>(alloc: Global, seq: &mut S) -> Result<u32, SeqError> {
    let mut found = 0u32;
    for number in 0..TEXTS {
        let at = node_key(alloc, &[1, 1001, 1001 + 2 * (TEXTS - 1 - number)])?;
        if seq.get(alloc, &at)?.is_some() {
            found = found.saturating_add(1);
        }
    }
    Ok(found)
}

/// A time in nanoseconds.
fn nanos(time: io::Result<Duration>) -> u64 {
    match time {
        Ok(time) => time
            .as_secs()
            .saturating_mul(1_000_000_000)
            .saturating_add(u64::from(time.subsec_nanos())),
        Err(_) => 0,
    }
}

/// The same from the first to the last: each is looked for from behind the one before.
fn search_upward<S: NodeRead>(alloc: Global, seq: &mut S) -> Result<u32, SeqError> {
    let mut found = 0u32;
    for number in 0..TEXTS {
        let at = node_key(alloc, &[1, 1001, 1001 + 2 * number])?;
        if seq.get(alloc, &at)?.is_some() {
            found = found.saturating_add(1);
        }
    }
    Ok(found)
}

/// How many are found, 0 after a fault.
fn count(found: Result<u32, SeqError>) -> u32 {
    match found {
        Ok(found) => found,
        Err(_) => 0,
    }
}

#[test]
fn a_step_of_a_walk_searches_no_page(rt: HostRuntime) -> Result<(), Fail> {
    let mut seq = short_texts(rt.alloc())?;
    let begun = nanos(rt.thread_cpu_time());
    let searched = count(search(rt.alloc(), &mut seq));
    let between = nanos(rt.thread_cpu_time());
    let walked = count(walk(rt.alloc(), &mut seq));
    let behind = nanos(rt.thread_cpu_time());
    let found = count(search_upward(rt.alloc(), &mut seq));
    let ended = nanos(rt.thread_cpu_time());
    assert_eq!(rt; (searched, walked, found), (TEXTS, TEXTS, TEXTS));
    let search = between.saturating_sub(begun);
    let walk = behind.saturating_sub(between);
    let upward = ended.saturating_sub(behind);
    // A search passes over some two hundred and fifty entries, and takes ten times as long as a step.
    assert!(rt; search / 3 >= walk, "{search} and {walk} nanoseconds");
    assert!(rt; search / 2 >= upward, "{search} and {upward} nanoseconds");
    Ok(())
}
