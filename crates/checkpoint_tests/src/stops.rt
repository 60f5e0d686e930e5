//! Three commits with a checkpoint behind the second, and the opening that finishes it, stopped at each call of both disks.
ghost use Rattle.std.specs.Prelude.{◌≡◌, Some, IfOk};
ghost use Rattle.outside_traits.specs.Moments.{IsAllSynced};
ghost use Rattle.outside_kinds.specs.MemoryDisks.{history_of};
ghost use Rattle.journal.specs.Views.{TakesGroups};

use crate::files::{commit, disk, document, empty_journal, key, opens, put_in, reopened};
use checkpoint::{Made, checkpoint};
use dewey_labels::{List, NoMemory, Text};
use journal::Journal;
use node_records::OpenError;
use node_seq::SortedSeq;
use outside_kinds::MemDisk;
use outside_traits::Disk;
use std::alloc::Global;
use std::test::Fail;
use tree_model::{Change, Record};

/// The two disks of a store.
#[derive(Drop)]
struct Disks {
    journal: MemDisk,
    pages: MemDisk,
}

/// A put of a record at a key.
fn put(alloc: Global, divisions: &[u32], name: &str, record: Record) -> Result<Change, Fail> {
    Ok(Change {
        key: key(alloc, divisions, name)?,
        now: Some(record),
    })
}

fn attribute(alloc: Global) -> Result<Record, NoMemory> {
    Ok(Record::Attr(Text::of(alloc, "1.1001")?))
}

fn element(alloc: Global) -> Result<Record, NoMemory> {
    Ok(Record::Element(Text::of(alloc, "a")?))
}

/// The document `x` with the element `a`.
fn first_changes(alloc: Global) -> Result<Vec<Change>, Fail> {
    let entry = put(alloc, &[1], "x", attribute(alloc)?)?;
    let document = put(alloc, &[1, 1001], "", Record::Document)?;
    let element = put(alloc, &[1, 1001, 1001], "", element(alloc)?)?;
    Ok(vec![in alloc; entry, document, element]?)
}

/// Where the element's text stands.
const TEXT_AT: [u32; 4] = [1, 1001, 1001, 1001];

fn text(alloc: Global) -> Result<Record, NoMemory> {
    Ok(Record::Text(Text::of(alloc, "t")?))
}

/// A text in the element.
fn second_changes(alloc: Global) -> Result<Vec<Change>, Fail> {
    let text = put(alloc, &TEXT_AT, "", text(alloc)?)?;
    Ok(vec![in alloc; text]?)
}

/// The map after both.
fn tree(alloc: Global) -> Result<SortedSeq, Fail> {
    let mut seq = document(alloc)?;
    let text = text(alloc)?;
    put_in(alloc, &mut seq, &TEXT_AT, "", text)?;
    Ok(seq)
}

/// A journal with two commits of these changes.
fn two_commits(
    alloc: Global,
    first: &[Change],
    second: &[Change],
) -> Result<Journal<MemDisk>, OpenError>
    ensures usable { IfOk result (λ journal. TakesGroups journal) }
    ensures last { IfOk result (λ journal. journal.last ≡ Some 2) }
{
    let mut journal = empty_journal(alloc, 0)?;
    commit(alloc, &mut journal, 1, first)?;
    commit(alloc, &mut journal, 2, second)?;
    Ok(journal)
}

/// Two commits with these changes, a checkpoint of the tree behind them, and a third commit without changes where the checkpoint is made.
fn run(
    alloc: Global,
    pages: &mut MemDisk,
    first: &[Change],
    second: &[Change],
    seq: &mut SortedSeq,
) -> Result<MemDisk, OpenError>
    requires synced { IsAllSynced (history_of pages.old) }
{
    let mut journal = two_commits(alloc, first, second)?;
    match checkpoint(alloc, &mut journal, pages, seq, 2) {
        Ok(Made::Yes) => {
            commit(alloc, &mut journal, 3, &[])?;
            Ok(journal.into_disk())
        }
        _ => Ok(journal.into_disk()),
    }
}

/// What is committed first and second, and the map after both.
#[derive(Drop)]
struct Commits {
    first: Vec<Change>,
    second: Vec<Change>,
    tree: SortedSeq,
}

fn of_document(alloc: Global) -> Result<Commits, Fail> {
    let first = first_changes(alloc)?;
    let second = second_changes(alloc)?;
    let tree = tree(alloc)?;
    Ok(Commits {
        first,
        second,
        tree,
    })
}

/// The same with a disk of the pages that fails at one call; at none for 0.
fn run_over(
    alloc: Global,
    call: u64,
    first: &[Change],
    second: &[Change],
    seq: &mut SortedSeq,
) -> Result<Disks, OpenError> {
    let mut pages = disk(alloc, b"", call)?;
    let journal = run(alloc, &mut pages, first, second, seq)?;
    Ok(Disks { journal, pages })
}

/// The same with these commits of the document and its text.
fn checkpointed(alloc: Global, call: u64) -> Result<Disks, Fail> {
    let mut commits = of_document(alloc)?;
    Ok(run_over(
        alloc,
        call,
        &commits.first,
        &commits.second,
        &mut commits.tree,
    )?)
}

/// The fewest and the most numbers that files open with, each of the one and the other; 0 and 9 where a number comes with other records than its own.
fn numbers(
    alloc: Global,
    journals: &[List<u8>],
    pages: &[List<u8>],
) -> Result<(u32, u32), OpenError> {
    let mut least = 9;
    let mut most = 0;
    for journal in journals {
        for page_file in pages {
            let (number, count) = opens(alloc, journal.as_slice(), page_file.as_slice())?;
            let wanted = match number {
                0 => 0,
                1 => 3,
                _ => 4,
            };
            if count != wanted {
                return Ok((0, 9));
            }
            least = number.min(least);
            most = number.max(most);
        }
    }
    Ok((least, most))
}

/// A file alone.
fn alone(alloc: Global, file: &[u8]) -> Result<List<List<u8>>, NoMemory> {
    let mut files = List::new(alloc);
    files.push(List::from_vec(Vec::from_slice(alloc, file)?))?;
    Ok(files)
}

/// What a stop in a call of the journal's disk leaves beside this page file.
fn after_journal_stop(
    alloc: Global,
    journal: &MemDisk,
    call: u64,
    pages: &[u8],
) -> Result<(u32, u32), OpenError> {
    let journals = journal.stop_images(alloc, call)?;
    numbers(alloc, journals.as_slice(), alone(alloc, pages)?.as_slice())
}

/// What a stop in a call of the pages' disk leaves beside this journal.
fn after_pages_stop(
    alloc: Global,
    pages: &MemDisk,
    call: u64,
    journal: &[u8],
) -> Result<(u32, u32), OpenError> {
    let files = pages.stop_images(alloc, call)?;
    numbers(alloc, alone(alloc, journal)?.as_slice(), files.as_slice())
}

/// A call in which a stop leaves other numbers than are wanted, and the fewest and the most that it leaves.
type WrongStop = (u64, Result<(u32, u32), OpenError>);

/// The first of all calls of the pages' disk in which a stop leaves another number than 2 beside this journal.
fn wrong_stop_of_pages(alloc: Global, pages: &MemDisk, journal: &[u8]) -> Option<WrongStop> {
    for call in 1..=pages.calls() {
        let found = after_pages_stop(alloc, pages, call, journal);
        if found != Ok((2, 2)) {
            return Some((call, found));
        }
    }
    None
}

/// The same of the journal's disk, beside these pages.
fn wrong_stop_of_journal(alloc: Global, journal: &MemDisk, pages: &[u8]) -> Option<WrongStop> {
    for call in 1..=journal.calls() {
        let found = after_journal_stop(alloc, journal, call, pages);
        if found != Ok((2, 2)) {
            return Some((call, found));
        }
    }
    None
}

/// A call of the journal's disk, whether the pages are written then, and the fewest and the most numbers that a stop in it leaves.
/// The first two calls are the opening's; each commit makes four, the images four, the reset two.
const STOPS: [(u64, bool, (u32, u32)); 19] = [
    (3, false, (0, 0)),
    (4, false, (0, 0)),
    (5, false, (0, 1)),
    (6, false, (0, 1)),
    (7, false, (1, 1)),
    (8, false, (1, 1)),
    (9, false, (1, 2)),
    (10, false, (1, 2)),
    (11, false, (2, 2)),
    (12, false, (2, 2)),
    (13, false, (2, 2)),
    (14, false, (2, 2)),
    (15, true, (2, 2)),
    (16, true, (2, 2)),
    (17, true, (2, 2)),
    (18, true, (2, 2)),
    (19, true, (2, 3)),
    (20, true, (2, 3)),
    (21, true, (3, 3)),
];

/// The first of these calls in which a stop leaves other numbers than the row says.
fn wrong_stop_of_run(alloc: Global, store: &Disks) -> Option<WrongStop> {
    for &(call, whole, want) in &STOPS {
        let pages: &[u8] = if whole { store.pages.bytes() } else { b"" };
        let found = after_journal_stop(alloc, &store.journal, call, pages);
        if found != Ok(want) {
            return Some((call, found));
        }
    }
    None
}

#[test]
fn a_stop_at_each_call_of_a_checkpoint_leaves_its_tree(rt: HostRuntime) -> Result<(), Fail> {
    let whole = checkpointed(rt.alloc(), 0)?;
    // Before the first write the pages' disk has one call; three pages are written, and synced.
    assert_eq!(rt; (whole.journal.calls(), whole.pages.calls()), (20, 5));
    assert_eq!(rt; wrong_stop_of_run(rt.alloc(), &whole), None);
    // The second call of the pages' disk is the first write: where it fails the images are open.
    let unwritten = checkpointed(rt.alloc(), 2)?;
    let wrong = wrong_stop_of_pages(rt.alloc(), &whole.pages, unwritten.journal.bytes());
    assert_eq!(rt; wrong, None);
    Ok(())
}

#[test]
fn a_stop_at_each_call_of_an_opening_that_finishes_leaves_the_tree(
    rt: HostRuntime,
) -> Result<(), Fail> {
    let unwritten = checkpointed(rt.alloc(), 2)?;
    let finished = reopened(
        rt.alloc(),
        unwritten.journal.bytes(),
        unwritten.pages.bytes(),
    )?;
    assert_eq!(rt; finished.store, Ok((2, 4)));
    // At least a sync, a length, a read and the reset's two calls of the journal; of the pages a sync, a length, three writes and a sync.
    assert!(rt; finished.journal.calls() >= 5 && finished.pages.calls() >= 6);
    let of_pages = wrong_stop_of_pages(rt.alloc(), &finished.pages, unwritten.journal.bytes());
    assert_eq!(rt; of_pages, None);
    let of_journal = wrong_stop_of_journal(rt.alloc(), &finished.journal, finished.pages.bytes());
    assert_eq!(rt; of_journal, None);
    assert_eq!(rt;
        opens(rt.alloc(), finished.journal.bytes(), finished.pages.bytes()),
        Ok((2, 4))
    );
    Ok(())
}
