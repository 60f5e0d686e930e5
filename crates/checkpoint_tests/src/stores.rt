//! A document that is moved from no file into pages.
use crate::files::{NEW, disk, document, empty_journal};
use checkpoint::{Made, checkpoint};
use dewey_labels::NoMemory;
use node_seq::SeqError;
use outside_kinds::MemDisk;
use outside_traits::Disk;
use std::alloc::Global;
use std::test::Fail;

/// The page file of "A page file byte by byte", without the zeros behind each page.
const DUMP: [&[u8]; 3] = [
    b"XTCPAGE1\x00\x00\x00\x01\x00\x00\x00\x03\x00\x00\x00\x01\x00\x00\x00\x01",
    b"\x00\x03\x01\x00x\x00\x00\x00\x01\x00\x07\x041.1001\x01\x83\x69\x00\x00\x00\x00\x01\x00\x01\x01\x01\x83\x69\x83\x69\x00\x00\x00\x00\x01\x00\x02\x02a",
    b"\x00\x01\x01\x00x\x00\x00\x00\x00\x00\x00\x01",
];

/// What a checkpoint leaves of two disks, and what it answers.
#[derive(Drop)]
pub struct Left {
    pub journal: MemDisk,
    pub pages: MemDisk,
    made: Result<Made, SeqError>,
}

/// A checkpoint of the document with the number 1, on disks that fail at one call each; at none for 0.
pub fn moved(alloc: Global, of_journal: u64, of_pages: u64) -> Result<Left, Fail> {
    let mut journal = empty_journal(alloc, of_journal)?;
    let mut pages = disk(alloc, b"", of_pages)?;
    let mut seq = document(alloc)?;
    let made = checkpoint(alloc, &mut journal, &mut pages, &mut seq, 1);
    Ok(Left {
        journal: journal.into_disk(),
        pages,
        made,
    })
}

/// The pages of the dump, with their zeros.
fn dumped(alloc: Global) -> Result<Vec<u8>, NoMemory> {
    let mut bytes = Vec::new(alloc);
    for &content in &DUMP {
        bytes.extend_from_slice(content)?;
        for _ in content.len()..8_192 {
            bytes.push(0)?;
        }
    }
    Ok(bytes)
}

/// Whether the pages are those of the dump.
fn are_dumped(alloc: Global, pages: &[u8]) -> Result<bool, NoMemory> {
    Ok(pages == dumped(alloc)?.as_slice())
}

#[test]
fn a_checkpoint_makes_the_pages_of_the_file_format_and_an_empty_journal(
    rt: HostRuntime,
) -> Result<(), Fail> {
    let left = moved(rt.alloc(), 0, 0)?;
    assert_eq!(rt; left.made, Ok(Made::Yes));
    assert!(rt; are_dumped(rt.alloc(), left.pages.bytes())?);
    // Behind the gate stand fourteen bytes and 8,196 for each page, which nobody reads any more.
    assert!(rt; left.journal.bytes().starts_with(NEW));
    assert_eq!(rt; left.journal.bytes().len(), 24_611);
    Ok(())
}

/// Whether a checkpoint with one failing call of a disk answers a fault, which that disk alone has counted.
fn answers_fault(alloc: Global, of_journal: bool, call: u64) -> Result<bool, Fail> {
    let (first, second, wanted) = if of_journal {
        (call, 0, (1, 0))
    } else {
        (0, call, (0, 1))
    };
    let left = moved(alloc, first, second)?;
    let counted = (left.journal.faults(), left.pages.faults());
    Ok(left.made == Err(SeqError::DiskFault) && counted == wanted)
}

/// The calls of the journal's disk: two for the opening, four for the images, two for the reset. Of the pages': the length, three pages and a sync.
#[test]
fn a_failing_call_of_either_disk_is_answered_as_a_fault(rt: HostRuntime) -> Result<(), Fail> {
    for call in 3..9 {
        assert!(rt;
            answers_fault(rt.alloc(), true, call)?,
            "of the journal at {call}"
        );
    }
    for call in 1..6 {
        assert!(rt;
            answers_fault(rt.alloc(), false, call)?,
            "of the pages at {call}"
        );
    }
    Ok(())
}
