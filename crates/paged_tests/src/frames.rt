//! How many pages are read from a disk that counts its calls.
use crate::files::{document_file, key, long_file, opened};
use node_seq::NodeRead;
use outside_kinds::MemDisk;
use page_store::Pool;
use paged_seq::PagedSeq;
use std::alloc::Global;
use std::test::Fail;

/// Reads page 1, page 2 and page 1 again, and counts the calls of the disk.
fn reads_of(alloc: Global, mut disk: MemDisk, mut pool: Pool) -> Result<u64, Fail> {
    pool.forget();
    let before = disk.calls();
    if disk.bytes().len() < 24_576 {
        return Err(Fail::from("short"));
    }
    pool.read_page(alloc, &mut disk, 1)?;
    pool.read_page(alloc, &mut disk, 2)?;
    pool.read_page(alloc, &mut disk, 1)?;
    Ok(disk.calls().saturating_sub(before))
}

/// The same with so many frames.
fn reads_with(alloc: Global, frames: u32) -> Result<u64, Fail> {
    match opened(alloc, document_file(alloc)?, frames)? {
        Ok(seq) => {
            let (disk, pool) = seq.into_parts();
            reads_of(alloc, disk, pool)
        }
        Err(_place) => Err(Fail::from("damaged")),
    }
}

#[test]
fn a_page_is_read_again_once_its_frame_is_gone(rt: HostRuntime) -> Result<(), Fail> {
    assert_eq!(rt; reads_with(rt.alloc(), 1)?, 3);
    assert_eq!(rt; reads_with(rt.alloc(), 2)?, 2);
    Ok(())
}

/// The map over the document with a text over three pages, with one frame.
fn long_text(alloc: Global) -> Result<PagedSeq<MemDisk>, Fail> {
    match opened(alloc, long_file(alloc, 20_000)?, 1)? {
        Ok(seq) => Ok(seq),
        Err(_place) => Err(Fail::from("damaged")),
    }
}

/// Whether a record stands at a key.
fn is_found<S: NodeRead>(
    alloc: Global,
    seq: &mut S,
    divisions: &[u32],
    name: &str,
) -> Result<bool, Fail> {
    let at = key(alloc, divisions, name)?;
    Ok(seq.get(alloc, &at)?.is_some())
}

/// Reads the catalogue's entry and the text in each of so many rounds, and says whether they are there.
fn read_rounds<S: NodeRead>(alloc: Global, seq: &mut S, rounds: u32) -> Result<bool, Fail> {
    for _ in 0..rounds {
        let entry = is_found(alloc, seq, &[1], "x")?;
        let text = is_found(alloc, seq, &[1, 1001, 1001, 1001], "")?;
        if !entry || !text {
            return Ok(false);
        }
    }
    Ok(true)
}

/// The calls of the disk after so many rounds.
fn calls_after(alloc: Global, rounds: u32) -> Result<u64, Fail> {
    let mut seq = long_text(alloc)?;
    let found = read_rounds(alloc, &mut seq, rounds);
    let (disk, _pool) = seq.into_parts();
    match found {
        Ok(true) => Ok(disk.calls()),
        Ok(false) => Err(Fail::from("not found")),
        Err(fail) => Err(fail),
    }
}

#[test]
fn no_page_is_kept_beyond_the_frames(rt: HostRuntime) -> Result<(), Fail> {
    let one = calls_after(rt.alloc(), 1)?;
    let ten = calls_after(rt.alloc(), 10)?;
    assert!(rt; ten >= one && ten - one >= 18, "{one} and {ten}");
    Ok(())
}
