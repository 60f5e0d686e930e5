//! Images that are open in a journal, changed at one byte, as docs/FILE_FORMAT.md tells what becomes of them.
use crate::files::opens;
use crate::stores::moved;
use node_records::{File, OpenError, Place};
use std::alloc::Global;
use std::test::Fail;

/// The number and the count of records that two files open with, or the place of their damage.
type Stands = Result<(u32, usize), (File, u64)>;

fn told(stands: Stands) -> Result<(u32, usize), OpenError> {
    match stands {
        Ok(store) => Ok(store),
        Err((file, at)) => Err(OpenError::Damaged(Place { file, at })),
    }
}

/// The place of a byte in the journal, another byte there, and what the files stand for. Behind the gate at 8 stand the kind, the number, the length and the
/// count, and from 22 on four bytes before each page: those of page 0 begin at 26, of page 1 at 8,222, of page 2 at 16,418; the next gate is the last byte.
const ROWS: [(usize, u8, Stands); 13] = [
    (0, 1, Ok((1, 3))),
    // A closed gate, before the images or behind the journal's first.
    (8, 0, Ok((0, 0))),
    // The rules of the journal: the kind, the count, numbers that rise, the length, and nothing open behind them.
    (9, 2, Err((File::Journal, 8))),
    (21, 2, Err((File::Journal, 8))),
    (25, 1, Err((File::Journal, 8))),
    (17, 0, Err((File::Journal, 8))),
    (24_610, 1, Err((File::Journal, 8))),
    // Those of page 0, whose base is the number of the images; of page 1, which comes before page 2, and of the tree.
    (13, 2, Err((File::Pages, 0))),
    (26, 0x59, Err((File::Pages, 0))),
    (8_223, 4, Err((File::Pages, 8_192))),
    (16_420, 2, Err((File::Pages, 16_384))),
    // The name of the element is a blank; the catalogue names another document.
    (8_264, 0x20, Err((File::Tree, 2))),
    (8_239, 0x33, Err((File::Tree, 1))),
];

/// What the files stand for that a checkpoint leaves whose first page isn't written, with one byte of the journal changed.
fn opens_changed(
    alloc: Global,
    at: usize,
    byte: u8,
) -> Result<Result<(u32, usize), OpenError>, Fail> {
    let left = moved(alloc, 0, 2)?;
    let mut journal = Vec::from_slice(alloc, left.journal.bytes())?;
    if let Some(place) = journal.get_mut(at) {
        *place = byte;
    }
    Ok(opens(alloc, &journal, left.pages.bytes()))
}

#[test]
fn images_are_put_in_or_damaged_at_their_place(rt: HostRuntime) -> Result<(), Fail> {
    for &(at, byte, want) in &ROWS {
        let found = opens_changed(rt.alloc(), at, byte)?;
        assert_eq!(rt; found, told(want), "with {byte} at {at}");
    }
    Ok(())
}
