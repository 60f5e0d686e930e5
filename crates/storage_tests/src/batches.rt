//! Batches of commits, images and resets, stopped and failing at each call of the journal's disk.
ghost use Rattle.std.specs.Prelude.{◌≡◌, ◌≤◌, ◌+◌, ℕ, Option, false, Some, length, IsSome, IsTrue, IfOk, OnOk};
ghost use Rattle.journal.specs.Batches.{pairs_of};
ghost use Rattle.journal.specs.Bodies.{changes_in};
ghost use Rattle.journal.specs.Appends.{last_number};
ghost use Rattle.journal.specs.Groups.{AreCommits, commits_of, is_last, is_next};
ghost use Rattle.journal.specs.PageImages.{images_in};
ghost use Rattle.journal.specs.Views.{TakesGroups};

use crate::commits::{
    NEW, WrongStop, body_of, changed, commit, commits_in, dumped_changes, empty_journal,
    first_wrong_stop, opened,
};
use dewey_labels::{List, NoMemory};
use journal::{DiskFault, Groups, Journal};
use node_records::{File, OpenError, Pending, Place};
use outside_kinds::MemDisk;
use std::alloc::Global;
use std::test::Fail;
use tree_model::Change;

/// The two commits behind a number, of these changes and of none.
fn two_commits(alloc: Global, after: u32, changes: &[Change]) -> Result<[Pending; 2], NoMemory>
    requires fits { after ≤ 1_000 }
    ensures commits { IfOk result (λ pending. (last : Option ℕ) → IsTrue (is_next last (after + 1)) → AreCommits last (pairs_of pending)) }
    ensures last { IfOk result (λ pending. (last : Option ℕ) → last_number last (commits_of (pairs_of pending)) ≡ Some (after + 2)) }
{
    let first = body_of(alloc, changes)?;
    let second = body_of(alloc, &[])?;
    if first.len() > 4096 || second.len() > 4096 {
        return Err(NoMemory);
    }
    Ok([
        Pending {
            number: after + 1,
            body: first,
        },
        Pending {
            number: after + 2,
            body: second,
        },
    ])
}

/// Adds a batch of two commits.
fn commit_two(
    alloc: Global,
    journal: &mut Journal<MemDisk>,
    after: u32,
    changes: &[Change],
) -> Result<(), OpenError>
    requires fits { after ≤ 1_000 }
    requires usable { TakesGroups journal.old }
    requires next { IsTrue (is_next journal.old.last (after + 1)) }
    ensures usable { OnOk result (TakesGroups journal.new) }
    ensures last { OnOk result (journal.new.last ≡ Some (after + 2)) }
{
    let pending = two_commits(alloc, after, changes)?;
    match journal.append_groups(&pending) {
        Ok(()) => Ok(()),
        Err(DiskFault) => Err(OpenError::DiskFault),
    }
}

/// The disk of a new journal to which two batches of two commits were added.
fn two_batches(alloc: Global, changes: &[Change]) -> Result<MemDisk, OpenError> {
    let mut journal = empty_journal(alloc, NEW, &[])?;
    commit_two(alloc, &mut journal, 0, changes)?;
    commit_two(alloc, &mut journal, 2, changes)?;
    Ok(journal.into_disk())
}

/// The same with the dump's changes.
fn two_dumped_batches(alloc: Global) -> Result<MemDisk, Fail> {
    let changes = dumped_changes(alloc)?;
    match two_batches(alloc, changes.as_slice()) {
        Ok(disk) => Ok(disk),
        Err(_) => Err(Fail::from("two batches aren't made")),
    }
}

/// The disk of a new journal to which the same four commits were added one by one.
fn four_single(alloc: Global) -> Result<MemDisk, Fail> {
    let changes = dumped_changes(alloc)?;
    match committed_singly(alloc, changes.as_slice()) {
        Ok(disk) => Ok(disk),
        Err(_) => Err(Fail::from("four commits aren't made")),
    }
}

fn committed_singly(alloc: Global, changes: &[Change]) -> Result<MemDisk, OpenError> {
    let mut journal = empty_journal(alloc, NEW, &[])?;
    commit(alloc, &mut journal, 1, changes)?;
    commit(alloc, &mut journal, 2, &[])?;
    commit(alloc, &mut journal, 3, changes)?;
    commit(alloc, &mut journal, 4, &[])?;
    Ok(journal.into_disk())
}

/// Whether two batches write what four single appends write, and how many calls each of the two ways makes.
fn both_ways(alloc: Global) -> Result<(bool, u64, u64), Fail> {
    let batches = two_dumped_batches(alloc)?;
    let single = four_single(alloc)?;
    let same = batches.bytes() == single.bytes();
    Ok((same, batches.calls(), single.calls()))
}

#[test]
fn a_batch_writes_the_bytes_of_single_appends(rt: HostRuntime) -> Result<(), Fail> {
    // The opening makes two calls; a batch of two six writes, a sync, the gate and a sync; a single append four.
    assert_eq!(rt; both_ways(rt.alloc())?, (true, 20, 18));
    Ok(())
}

/// How many images of a crash in a call have a part of a batch: an odd count of commits.
fn parts_of_batches(alloc: Global, disk: &MemDisk, call: u64) -> Result<usize, OpenError> {
    let mut parts = List::new(alloc);
    for image in disk.stop_images(alloc, call)?.as_slice() {
        if commits_in(alloc, image.as_slice())? % 2 == 1 {
            parts.push(call)?;
        }
    }
    Ok(parts.len())
}

/// A call of two batches, and the fewest and the most commits that a stop in it leaves.
const STOPS: [(u64, (usize, usize)); 11] = [
    (3, (0, 0)),
    (8, (0, 0)),
    (9, (0, 0)),
    (10, (0, 2)),
    (11, (0, 2)),
    (12, (2, 2)),
    (17, (2, 2)),
    (18, (2, 2)),
    (19, (2, 4)),
    (20, (2, 4)),
    (21, (4, 4)),
];

/// The first of these calls in which a stop leaves other counts than the row says, with what it leaves, and the first call in which it
/// leaves a part of a batch.
fn wrong_stop_of_batches(alloc: Global) -> Result<(Option<WrongStop>, Option<u64>), Fail> {
    let disk = two_dumped_batches(alloc)?;
    Ok((
        first_wrong_stop(alloc, &disk, &STOPS),
        first_part(alloc, &disk),
    ))
}

fn first_part(alloc: Global, disk: &MemDisk) -> Option<u64> {
    for &(call, _) in &STOPS {
        if parts_of_batches(alloc, disk, call) != Ok(0) {
            return Some(call);
        }
    }
    None
}

#[test]
fn a_stop_in_a_batch_leaves_all_of_it_or_none(rt: HostRuntime) -> Result<(), Fail> {
    assert_eq!(rt; wrong_stop_of_batches(rt.alloc())?, (None, None));
    Ok(())
}

/// A body of a commit of these changes that isn't long.
fn short_body(alloc: Global, changes: &[Change]) -> Result<List<u8>, NoMemory>
    ensures body { IfOk result (λ body. IsSome (changes_in body)) }
    ensures short { IfOk result (λ body. length body ≤ 4096) }
{
    let body = body_of(alloc, changes)?;
    if body.len() > 4096 {
        return Err(NoMemory);
    }
    Ok(body)
}

/// The commits 1 to 4, of these changes and of none in turn.
fn four_commits(alloc: Global, changes: &[Change]) -> Result<[Pending; 4], NoMemory>
    ensures commits { IfOk result (λ pending. (last : Option ℕ) → IsTrue (is_next last 1) → AreCommits last (pairs_of pending)) }
{
    let first = short_body(alloc, changes)?;
    let second = short_body(alloc, &[])?;
    let third = short_body(alloc, changes)?;
    let fourth = short_body(alloc, &[])?;
    Ok([
        Pending {
            number: 1,
            body: first,
        },
        Pending {
            number: 2,
            body: second,
        },
        Pending {
            number: 3,
            body: third,
        },
        Pending {
            number: 4,
            body: fourth,
        },
    ])
}

/// The disk of a new journal to which a batch of four commits was added.
fn batch_of_four(alloc: Global, changes: &[Change]) -> Result<MemDisk, OpenError> {
    let pending = four_commits(alloc, changes)?;
    let mut journal = empty_journal(alloc, NEW, &[])?;
    match journal.append_groups(&pending) {
        Ok(()) => Ok(journal.into_disk()),
        Err(DiskFault) => Err(OpenError::DiskFault),
    }
}

/// The same with the dump's changes.
fn dumped_batch_of_four(alloc: Global) -> Result<MemDisk, Fail> {
    let changes = dumped_changes(alloc)?;
    match batch_of_four(alloc, changes.as_slice()) {
        Ok(disk) => Ok(disk),
        Err(_) => Err(Fail::from("the batch isn't made")),
    }
}

/// Whether some image of a crash in a call has no commit of four, some has all, and some has a part of them.
fn kinds_after_stop(
    alloc: Global,
    disk: &MemDisk,
    call: u64,
) -> Result<(bool, bool, bool), OpenError> {
    let mut kinds = (false, false, false);
    for image in disk.stop_images(alloc, call)?.as_slice() {
        match commits_in(alloc, image.as_slice())? {
            0 => kinds.0 = true,
            4 => kinds.1 = true,
            _ => kinds.2 = true,
        }
    }
    Ok(kinds)
}

/// A call of a batch of four commits, and which kinds of images a crash in it leaves. Behind the opening's two calls come twelve writes and a sync, then
/// the gate and its sync. A crash in one of the writes leaves all that one in an earlier write does, and three times as many images: here the writes of
/// three commits may each be missing. With those of the fourth, which stand behind them, there would be 531,441, more than a test has time to open.
const STOPS_OF_FOUR: [(u64, (bool, bool, bool)); 4] = [
    (11, (true, false, false)),
    (16, (true, true, false)),
    (17, (true, true, false)),
    (18, (false, true, false)),
];

/// A call in which a crash leaves other kinds of images than the row says, and which it leaves.
type OtherStop = (u64, Result<(bool, bool, bool), OpenError>);

fn first_other_stop(alloc: Global, disk: &MemDisk) -> Option<OtherStop> {
    for &(call, want) in &STOPS_OF_FOUR {
        let found = kinds_after_stop(alloc, disk, call);
        if found != Ok(want) {
            return Some((call, found));
        }
    }
    None
}

/// How many calls four commits make, and the first call in which a crash leaves something else than is wanted.
fn stops_of_four(alloc: Global) -> Result<(u64, Option<OtherStop>), Fail> {
    let disk = dumped_batch_of_four(alloc)?;
    Ok((disk.calls(), first_other_stop(alloc, &disk)))
}

#[test]
fn a_stop_in_a_batch_of_four_leaves_all_of_it_or_none(rt: HostRuntime) -> Result<(), Fail> {
    assert_eq!(rt; stops_of_four(rt.alloc())?, (17, None));
    Ok(())
}

/// What a batch in a new journal is answered where a call fails, the faults that are counted, and whether a crash may leave a part of it.
fn failed_batch(
    alloc: Global,
    call: u64,
) -> Result<(Result<(), OpenError>, u64, usize), OpenError> {
    let mut journal = empty_journal(alloc, NEW, &[call])?;
    let answer = commit_two(alloc, &mut journal, 0, &[]);
    let faults = journal.faults();
    let disk = journal.into_disk();
    let parts = parts_of_batches(alloc, &disk, disk.calls().saturating_add(1))?;
    Ok((answer, faults, parts))
}

#[test]
fn a_failing_call_of_a_batch_leaves_all_of_it_or_none(rt: HostRuntime) -> Result<(), Fail> {
    for call in 3..12 {
        let found = failed_batch(rt.alloc(), call);
        assert_eq!(rt;
            found,
            Ok((Err(OpenError::DiskFault), 1, 0)),
            "at call {call}"
        );
    }
    Ok(())
}

/// Lets go of all groups.
fn reset(journal: &mut Journal<MemDisk>) -> Result<(), OpenError>
    requires usable { journal.old.failed ≡ false }
    ensures usable { OnOk result (TakesGroups journal.new) }
    ensures last { OnOk result (journal.new.last ≡ journal.old.last) }
{
    match journal.reset() {
        Ok(()) => Ok(()),
        Err(DiskFault) => Err(OpenError::DiskFault),
    }
}

/// The body of images of no page.
#[tactic(auto, using(crate::proofs::ImageRows::no_page))]
fn no_page(alloc: Global) -> Result<List<u8>, NoMemory>
    ensures body { IfOk result (λ body. IsSome (images_in body)) }
    ensures length { IfOk result (λ body. length body ≡ 4) }
{
    Ok(List::from_vec(vec![in alloc; 0, 0, 0, 0]?))
}

/// Adds images of no page.
fn append_no_page(
    alloc: Global,
    journal: &mut Journal<MemDisk>,
    number: u32,
) -> Result<(), OpenError>
    requires usable { TakesGroups journal.old }
    requires last { IsTrue (is_last journal.old.last number) }
    ensures usable { OnOk result (journal.new.failed ≡ false) }
    ensures last { OnOk result (journal.new.last ≡ Some number) }
{
    let body = no_page(alloc)?;
    journal.make_room(alloc, body.len())?;
    match journal.append_images(number, body.as_slice()) {
        Ok(()) => Ok(()),
        Err(DiskFault) => Err(OpenError::DiskFault),
    }
}

/// The disk of a new journal with a commit, images, a reset, and the commit that follows.
fn checkpointed(alloc: Global, changes: &[Change]) -> Result<MemDisk, OpenError> {
    let mut journal = empty_journal(alloc, NEW, &[])?;
    commit(alloc, &mut journal, 1, changes)?;
    append_no_page(alloc, &mut journal, 1)?;
    reset(&mut journal)?;
    commit(alloc, &mut journal, 2, &[])?;
    Ok(journal.into_disk())
}

fn dumped_checkpoint(alloc: Global) -> Result<MemDisk, Fail> {
    let changes = dumped_changes(alloc)?;
    match checkpointed(alloc, changes.as_slice()) {
        Ok(disk) => Ok(disk),
        Err(_) => Err(Fail::from("the journal isn't reset")),
    }
}

/// A call, and the fewest and the most commits that a stop in it leaves: of the first commit, of the images, of the reset, and of the second.
const RESET_STOPS: [(u64, (usize, usize)); 11] = [
    (5, (0, 1)),
    (6, (0, 1)),
    (7, (1, 1)),
    (9, (1, 1)),
    (10, (1, 1)),
    (11, (0, 1)),
    (12, (0, 1)),
    (13, (0, 0)),
    (14, (0, 0)),
    (15, (0, 1)),
    (17, (1, 1)),
];

fn wrong_stop_of_reset(alloc: Global) -> Result<Option<WrongStop>, Fail> {
    let disk = dumped_checkpoint(alloc)?;
    Ok(first_wrong_stop(alloc, &disk, &RESET_STOPS))
}

#[test]
fn a_stop_in_a_reset_leaves_the_groups_or_none(rt: HostRuntime) -> Result<(), Fail> {
    assert_eq!(rt; wrong_stop_of_reset(rt.alloc())?, None);
    Ok(())
}

/// The calls that a reset of an old group, closed already, makes, and whether the bytes are as they were.
fn reset_again(alloc: Global) -> Result<(u64, bool), OpenError> {
    let file = changed(alloc, 60, 8, 0)?;
    let mut journal = empty_journal(alloc, file.as_slice(), &[])?;
    reset(&mut journal)?;
    let disk = journal.into_disk();
    Ok((disk.calls(), disk.bytes() == file.as_slice()))
}

#[test]
fn a_reset_without_groups_writes_nothing(rt: HostRuntime) -> Result<(), Fail> {
    // The opening's two calls, and no other.
    assert_eq!(rt; reset_again(rt.alloc()), Ok((2, true)));
    Ok(())
}

/// The dump with images behind its commit: their number, how many they are said to be, the pages, and the gate behind them.
type Behind<'a> = (u8, u8, &'a [u8], u8);

/// Images behind the dump's commit, and how many of them are read, or where the file is damaged.
const IMAGES: [(Behind<'static>, Result<usize, u64>); 8] = [
    ((1, 0, &[], 0), Ok(0)),
    ((1, 2, &[3, 7], 0), Ok(2)),
    ((1, 2, &[3, 7], 77), Ok(2)),
    ((1, 2, &[7, 3], 0), Err(59)),
    ((1, 2, &[3, 3], 0), Err(59)),
    ((1, 3, &[3, 7], 0), Err(59)),
    ((2, 2, &[3, 7], 0), Err(59)),
    ((1, 2, &[3, 7], 1), Err(59)),
];

/// Puts a page's image, all bytes of which are its number.
fn push_image(alloc: Global, page: u8, body: &mut List<u8>) -> Result<(), NoMemory> {
    body.extend_from_slice(alloc, &[0, 0, 0, page])?;
    let bytes = vec![in alloc; page; 8_192]?;
    body.extend_from_slice(alloc, bytes.as_slice())
}

/// The body of images that are said to be so many.
fn images_body(alloc: Global, count: u8, pages: &[u8]) -> Result<List<u8>, NoMemory> {
    let mut body = List::new(alloc);
    body.extend_from_slice(alloc, &[0, 0, 0, count])?;
    for page in pages {
        push_image(alloc, *page, &mut body)?;
    }
    Ok(body)
}

/// Puts a group of images with an open gate.
fn push_images(
    alloc: Global,
    number: u8,
    body: &[u8],
    file: &mut List<u8>,
) -> Result<(), NoMemory> {
    let Ok(length) = u32::try_from(body.len()) else {
        return Err(NoMemory);
    };
    file.extend_from_slice(alloc, &[1, 1, 0, 0, 0, number])?;
    file.extend_from_slice(alloc, &length.to_be_bytes())?;
    file.extend_from_slice(alloc, body)
}

fn images_behind(alloc: Global, behind: Behind<'_>) -> Result<List<u8>, NoMemory> {
    let (number, count, pages, gate) = behind;
    let body = images_body(alloc, count, pages)?;
    let mut file = changed(alloc, 59, 0, 1)?;
    push_images(alloc, number, body.as_slice(), &mut file)?;
    file.push(gate)?;
    Ok(file)
}

/// How many images a copy of a file's groups has.
fn images_in(alloc: Global, behind: Behind<'_>) -> Result<usize, OpenError> {
    let file = images_behind(alloc, behind)?;
    let (_, groups) = opened(alloc, file.as_slice(), &[])?;
    let Groups { images, .. } = groups.copy(alloc)?;
    match images {
        Some(images) => Ok(images.pages.len()),
        None => Ok(usize::MAX),
    }
}

#[test]
fn images_are_read_or_damaged_at_their_gate(rt: HostRuntime) -> Result<(), Fail> {
    for &(behind, want) in &IMAGES {
        let want = match want {
            Ok(count) => Ok(count),
            Err(at) => Err(OpenError::Damaged(Place {
                file: File::Journal,
                at,
            })),
        };
        assert_eq!(rt; images_in(rt.alloc(), behind), want, "of {behind:?}");
    }
    Ok(())
}
