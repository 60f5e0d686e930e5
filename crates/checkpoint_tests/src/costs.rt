//! How often an opening calls the page file.
use crate::files::{disk, document, empty_journal, put_in};
use checkpoint::checkpoint;
use dewey_labels::Text;
use outside_kinds::MemDisk;
use recovery::open_store;
use std::alloc::Global;
use std::test::Fail;
use tree_model::Record;

/// The files of the document with a text of 20,000 letters, in five pages: three of them have data.
fn long_store(alloc: Global) -> Result<(MemDisk, MemDisk), Fail> {
    let mut letters = String::new(alloc);
    for _ in 0..20_000 {
        letters.push('t')?;
    }
    let mut seq = document(alloc)?;
    let text = Record::Text(Text::of(alloc, letters.as_str())?);
    put_in(alloc, &mut seq, &[1, 1001, 1001, 1001], "", text)?;
    let mut journal = empty_journal(alloc, 0)?;
    let mut pages = disk(alloc, b"", 0)?;
    let _made = checkpoint(alloc, &mut journal, &mut pages, &mut seq, 1);
    Ok((journal.into_disk(), pages))
}

/// How often an opening with so many frames calls the page file; 0 where it fails.
fn calls_of_opening(alloc: Global, frames: u32) -> Result<u64, Fail> {
    let (journal, made) = long_store(alloc)?;
    let pages = disk(alloc, made.bytes(), 0)?;
    match open_store(alloc, journal, pages, frames.clamp(1, 64)) {
        Ok(store) => Ok(store.base.into_parts().0.calls()),
        Err(_refused) => Ok(0),
    }
}

/// With how many frames, and how often: the sync, the length, and each page once; with one frame each data page once more for the rules of the tree.
const OPENINGS: [(u32, u64); 3] = [(1, 10), (2, 10), (64, 7)];

#[test]
fn an_opening_reads_each_page_twice_at_most(rt: HostRuntime) -> Result<(), Fail> {
    for &(frames, wanted) in &OPENINGS {
        let calls = calls_of_opening(rt.alloc(), frames)?;
        assert_eq!(rt; calls, wanted, "with {frames} frames");
    }
    Ok(())
}
