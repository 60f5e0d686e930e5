//! Journals byte by byte, stopped and failing at each call of their disk.
ghost use Rattle.std.specs.Prelude.{◌≡◌, ◌++◌, [], false, is_some, None, Some, IsSome, IsTrue, IfOk, OnOk};
ghost use Rattle.std.specs.List.{AllByRecursion};
ghost use Rattle.tree_model.specs.Changes.{keys_rise};
ghost use Rattle.node_records.specs.Changes.{IsWritableChange, changes_bytes};
ghost use Rattle.journal.specs.Bodies.{changes_in};
ghost use Rattle.journal.specs.Groups.{is_next};
ghost use Rattle.journal.specs.Views.{TakesGroups};

use dewey_labels::{List, NoMemory};
use journal::{DiskFault, Groups, Journal, a_body_is_read_again};
use node_records::{File, OpenError, Place, write_change};
use outside_kinds::MemDisk;
use outside_traits::Disk;
use std::alloc::Global;
use std::test::Fail;
use tree_model::{Change, Changes};

/// The lines of docs/FILE_FORMAT.md, "A journal byte by byte".
const DUMP: &str = "
    01                          the header's gate, open
    58 54 43 4A 52 4E 31        XTCJRN1
    01                          the first group's gate, open
    00                          a commit
    00 00 00 01                 its number
    00 00 00 29                 its body has 41 bytes
    01                          a put
    01 00 78 00                 its key: label 1, name x, the catalogue's entry for x
    00 00 00 07                 the length of its record
    04 31 2E 31 30 30 31        an attribute with the value 1.1001, the document's label
    01                          a put
    01 83 69 00 00              its key: label 1.1001, no name
    00 00 00 01                 the length of its record
    01                          a document
    01                          a put
    01 83 69 83 69 00 00        its key: label 1.1001.1001, no name
    00 00 00 02                 the length of its record
    02 61                       an element with the name a
    00                          the next gate, closed
";

/// A journal without commits.
pub const NEW: &[u8] = b"\x01XTCJRN1\x00";

/// How wide the part of a line is that has bytes.
const BYTES_WIDE: usize = 28;

/// The bytes of a dump.
fn bytes_of(alloc: Global, dump: &str) -> Result<List<u8>, NoMemory> {
    let mut bytes = List::new(alloc);
    let mut column = 0;
    let mut high: Option<u8> = None;
    for byte in dump.as_bytes() {
        let digit = match *byte {
            b'0'..=b'9' => Some(*byte - b'0'),
            b'A'..=b'F' => Some(*byte - b'A' + 10),
            _ => None,
        };
        if *byte == b'\n' {
            column = 0;
        } else if column < BYTES_WIDE {
            column += 1;
            high = match (digit, high) {
                (Some(low), Some(high)) => {
                    bytes.push(high.wrapping_mul(16).wrapping_add(low))?;
                    None
                }
                (first, _) => first,
            };
        }
    }
    Ok(bytes)
}

/// The journal in a file, and its groups, on a disk that fails at the listed calls.
pub fn opened(
    alloc: Global,
    file: &[u8],
    fails: &[u64],
) -> Result<(Journal<MemDisk>, Groups), OpenError>
    ensures usable { IfOk result (λ opened. opened.0.failed ≡ false) }
    ensures has_images { IfOk result (λ opened. opened.0.has_images ≡ is_some opened.1.images) }
    ensures none { IfOk result (λ opened. opened.1.commits ≡ [] → is_some opened.1.images ≡ false → opened.0.last ≡ None) }
{
    let file = List::from_vec(Vec::from_slice(alloc, file)?);
    let calls = List::from_vec(Vec::from_slice(alloc, fails)?);
    match Journal::open(alloc, MemDisk::new(file, calls)) {
        Ok(opened) => Ok(opened),
        Err(refused) => Err(refused.fault),
    }
}

/// The journal in a file without commits, on a disk that fails at the listed calls.
pub fn empty_journal(
    alloc: Global,
    file: &[u8],
    fails: &[u64],
) -> Result<Journal<MemDisk>, OpenError>
    ensures usable { IfOk result (λ journal. TakesGroups journal) }
    ensures last { IfOk result (λ journal. journal.last ≡ None) }
{
    let (journal, groups) = opened(alloc, file, fails)?;
    if groups.commits.is_empty() && groups.images.is_none() {
        Ok(journal)
    } else {
        Err(OpenError::NoMemory)
    }
}

/// The changes of the dump's commit.
pub fn dumped_changes(alloc: Global) -> Result<Changes, Fail> {
    let bytes = bytes_of(alloc, DUMP)?;
    match opened(alloc, bytes.as_slice(), &[]) {
        Ok((_, groups)) => changes_of_last(groups),
        Err(_) => Err(Fail::from("the dump isn't opened")),
    }
}

/// The changes of the last commit.
fn changes_of_last(mut groups: Groups) -> Result<Changes, Fail> {
    match groups.commits.pop() {
        Some(group) => Ok(group.changes),
        None => Err(Fail::from("no commit")),
    }
}

/// Writes changes with rising keys, one behind the other.
fn write_changes(alloc: Global, changes: &[Change], out: &mut List<u8>) -> Result<(), NoMemory>
    ensures bytes { OnOk result (out.new ≡ out.old ++ changes_bytes changes.now) }
    ensures writable { OnOk result (AllByRecursion IsWritableChange changes.now) }
    ensures rise { OnOk result (IsTrue (keys_rise changes.now)) }
{
    if let [first, after @ ..] = changes {
        if let [second, ..] = after {
            if first.key.cmp(&second.key).is_ge() {
                return Err(NoMemory);
            }
        }
        write_change(alloc, first, out)?;
        write_changes(alloc, after, out)?;
    }
    Ok(())
}

/// The body of a commit of these changes.
pub fn body_of(alloc: Global, changes: &[Change]) -> Result<List<u8>, NoMemory>
    ensures { IfOk result (λ body. IsSome (changes_in body)) }
{
    let mut body = List::new(alloc);
    write_changes(alloc, changes, &mut body)?;
    a_body_is_read_again();
    Ok(body)
}

/// Adds a commit of these changes.
pub fn commit(
    alloc: Global,
    journal: &mut Journal<MemDisk>,
    number: u32,
    changes: &[Change],
) -> Result<(), OpenError>
    requires usable { TakesGroups journal.old }
    requires next { IsTrue (is_next journal.old.last number) }
    ensures usable { OnOk result (TakesGroups journal.new) }
    ensures last { OnOk result (journal.new.last ≡ Some number) }
{
    let body = body_of(alloc, changes)?;
    if body.len() > 4096 {
        return Err(OpenError::NoMemory);
    }
    journal.make_room(alloc, body.len())?;
    match journal.append_group(number, body.as_slice()) {
        Ok(()) => Ok(()),
        Err(DiskFault) => Err(OpenError::DiskFault),
    }
}

/// How many commits a copy of a file's groups has, or why it isn't opened.
pub fn commits_in(alloc: Global, file: &[u8]) -> Result<usize, OpenError> {
    let (_, groups) = opened(alloc, file, &[])?;
    Ok(groups.copy(alloc)?.commits.len())
}

/// The fewest and the most commits that a crash in a call of the disk leaves.
fn commits_after_stop(
    alloc: Global,
    disk: &MemDisk,
    call: u64,
) -> Result<(usize, usize), OpenError> {
    let mut least = usize::MAX;
    let mut most = 0;
    for image in disk.stop_images(alloc, call)?.as_slice() {
        let count = commits_in(alloc, image.as_slice())?;
        least = least.min(count);
        most = most.max(count);
    }
    Ok((least, most))
}

/// The first bytes of the dump, with the byte at one place changed.
pub fn changed(alloc: Global, keep: usize, at: usize, byte: u8) -> Result<List<u8>, NoMemory> {
    let mut bytes = bytes_of(alloc, DUMP)?.into_vec();
    bytes.truncate(keep);
    if at < bytes.len() {
        bytes[at] = byte;
    }
    Ok(List::from_vec(bytes))
}

/// Damage of the journal at this byte.
fn damaged(at: u64) -> Result<usize, OpenError> {
    Err(OpenError::Damaged(Place {
        file: File::Journal,
        at,
    }))
}

/// The length of the dump, and how many commits it has.
fn dumped(alloc: Global) -> Result<(usize, usize), OpenError> {
    let bytes = bytes_of(alloc, DUMP)?;
    let commits = commits_in(alloc, bytes.as_slice())?;
    Ok((bytes.len(), commits))
}

#[test]
fn the_dump_of_the_file_format_is_a_journal(rt: HostRuntime) -> Result<(), Fail> {
    assert_eq!(rt; dumped(rt.alloc()), Ok((60, 1)));
    Ok(())
}

/// The disk of a journal without commits to which changes were committed.
fn one_commit(
    alloc: Global,
    file: &[u8],
    number: u32,
    changes: &[Change],
) -> Result<MemDisk, OpenError> {
    let mut journal = empty_journal(alloc, file, &[])?;
    commit(alloc, &mut journal, number, changes)?;
    Ok(journal.into_disk())
}

/// The disk of a new journal to which the dump's changes were committed.
fn dumped_commit(alloc: Global) -> Result<MemDisk, Fail> {
    let changes = dumped_changes(alloc)?;
    match one_commit(alloc, NEW, 1, changes.as_slice()) {
        Ok(disk) => Ok(disk),
        Err(_) => Err(Fail::from("the commit isn't made")),
    }
}

/// Whether the bytes are those of the dump.
fn are_dumped(alloc: Global, bytes: &[u8]) -> Result<bool, NoMemory> {
    Ok(bytes_of(alloc, DUMP)?.as_slice() == bytes)
}

/// Whether the dump's commit writes the bytes of the dump, how many it writes, and the faults of its disk.
fn written(alloc: Global) -> Result<(bool, usize, u64), Fail> {
    let disk = dumped_commit(alloc)?;
    let dumped = are_dumped(alloc, disk.bytes())?;
    Ok((dumped, disk.bytes().len(), disk.faults()))
}

#[test]
fn a_commit_writes_the_bytes_of_the_dump(rt: HostRuntime) -> Result<(), Fail> {
    assert_eq!(rt; written(rt.alloc())?, (true, 60, 0));
    Ok(())
}

/// How many bytes of the dump there are, the place that is changed, the byte there, and how many commits the file has, or where it is damaged.
const CHANGED: [(usize, usize, u8, Result<usize, u64>); 15] = [
    (60, 8, 77, Ok(0)),
    (60, 13, 2, Ok(1)),
    (60, 3, 0x44, Err(0)),
    (60, 0, 0, Err(0)),
    (5, 0, 1, Err(0)),
    (8, 0, 1, Err(0)),
    (60, 9, 1, Err(8)),
    (60, 9, 2, Err(8)),
    (60, 18, 2, Err(8)),
    (40, 0, 1, Err(8)),
    (59, 0, 1, Err(8)),
    (60, 59, 1, Err(59)),
    (9, 0, 0, Ok(0)),
    (1, 0, 1, Ok(0)),
    (0, 0, 0, Ok(0)),
];

/// How many commits the changed dump has, or where it is damaged.
fn commits_in_changed(alloc: Global, keep: usize, at: usize, byte: u8) -> Result<usize, OpenError> {
    let bytes = changed(alloc, keep, at, byte)?;
    commits_in(alloc, bytes.as_slice())
}

/// What a row says: a count of commits, or damage at a place.
fn told(want: Result<usize, u64>) -> Result<usize, OpenError> {
    match want {
        Ok(count) => Ok(count),
        Err(place) => damaged(place),
    }
}

#[test]
fn a_changed_file_is_read_or_damaged_at_its_place(rt: HostRuntime) -> Result<(), Fail> {
    for &(keep, at, byte, want) in &CHANGED {
        let found = commits_in_changed(rt.alloc(), keep, at, byte);
        assert_eq!(rt; found, told(want), "{keep} bytes with {byte} at {at}");
    }
    Ok(())
}

/// The disk of a new journal to which changes were committed three times.
fn committed_thrice(alloc: Global, changes: &[Change]) -> Result<MemDisk, OpenError> {
    let mut journal = empty_journal(alloc, NEW, &[])?;
    commit(alloc, &mut journal, 1, changes)?;
    commit(alloc, &mut journal, 2, changes)?;
    commit(alloc, &mut journal, 3, changes)?;
    Ok(journal.into_disk())
}

/// The same with the dump's changes.
fn three_commits(alloc: Global) -> Result<MemDisk, Fail> {
    let changes = dumped_changes(alloc)?;
    match committed_thrice(alloc, changes.as_slice()) {
        Ok(disk) => Ok(disk),
        Err(_) => Err(Fail::from("three commits aren't made")),
    }
}

/// A call of the disk, and the fewest and the most commits that a stop in it leaves. The first two calls are the opening's, the length and a read; then a commit makes four.
const STOPS: [(u64, (usize, usize)); 13] = [
    (3, (0, 0)),
    (4, (0, 0)),
    (5, (0, 1)),
    (6, (0, 1)),
    (7, (1, 1)),
    (8, (1, 1)),
    (9, (1, 2)),
    (10, (1, 2)),
    (11, (2, 2)),
    (12, (2, 2)),
    (13, (2, 3)),
    (14, (2, 3)),
    (15, (3, 3)),
];

/// A call, and the fewest and the most commits that a stop in it leaves, or why one of its images isn't opened.
pub type WrongStop = (u64, Result<(usize, usize), OpenError>);

/// The first of these calls in which a stop leaves other counts of commits than the row says, and what it leaves.
pub fn first_wrong_stop(
    alloc: Global,
    disk: &MemDisk,
    stops: &[(u64, (usize, usize))],
) -> Option<WrongStop> {
    for &(call, want) in stops {
        let found = commits_after_stop(alloc, disk, call);
        if found != Ok(want) {
            return Some((call, found));
        }
    }
    None
}

/// The first of the calls of three commits in which a stop leaves other counts than the row says, and what it leaves.
fn wrong_stop_of_three(alloc: Global) -> Result<Option<WrongStop>, Fail> {
    let disk = three_commits(alloc)?;
    Ok(first_wrong_stop(alloc, &disk, &STOPS))
}

#[test]
fn a_stop_in_a_commit_leaves_it_whole_or_not_at_all(rt: HostRuntime) -> Result<(), Fail> {
    assert_eq!(rt; wrong_stop_of_three(rt.alloc())?, None);
    Ok(())
}

/// Fresh files, and how many calls opening makes: the length, a read where there are bytes, two calls a step.
const FRESH: [(&[u8], u64); 4] = [
    (b"", 7),
    (b"\x01", 8),
    (b"\x00XTC", 6),
    (b"\x4DXTCJRN1\x01", 6),
];

/// The first nine calls, in which a stop leaves no commit.
const NO_COMMITS: [(u64, (usize, usize)); 9] = [
    (1, (0, 0)),
    (2, (0, 0)),
    (3, (0, 0)),
    (4, (0, 0)),
    (5, (0, 0)),
    (6, (0, 0)),
    (7, (0, 0)),
    (8, (0, 0)),
    (9, (0, 0)),
];

/// The disk of the journal that is made of a fresh file.
fn fresh_disk(alloc: Global, file: &[u8]) -> Result<MemDisk, OpenError> {
    let journal = empty_journal(alloc, file, &[])?;
    Ok(journal.into_disk())
}

/// Whether a journal without commits is made of a fresh file, in how many calls, and the first of nine calls in which a stop leaves commits, with what it leaves.
fn made_of(alloc: Global, file: &[u8]) -> Result<(bool, u64, Option<WrongStop>), OpenError> {
    let disk = fresh_disk(alloc, file)?;
    let wrong = first_wrong_stop(alloc, &disk, &NO_COMMITS);
    Ok((disk.bytes() == NEW, disk.calls(), wrong))
}

#[test]
fn a_stop_while_a_journal_is_made_leaves_an_empty_store(rt: HostRuntime) -> Result<(), Fail> {
    for &(file, calls) in &FRESH {
        assert_eq!(rt;
            made_of(rt.alloc(), file),
            Ok((true, calls, None)),
            "of {file:?}"
        );
    }
    Ok(())
}

/// The same of one commit over an old group.
const OVER_AN_OLD_GROUP: [(u64, (usize, usize)); 5] = [
    (3, (0, 0)),
    (4, (0, 0)),
    (5, (0, 1)),
    (6, (0, 1)),
    (7, (1, 1)),
];

/// The disk of a journal with an old group, as a reset leaves it, over which the last of the dump's changes was committed.
fn commit_over_an_old_group(alloc: Global) -> Result<MemDisk, Fail> {
    let changes = dumped_changes(alloc)?;
    let file = changed(alloc, 60, 8, 0)?;
    if changes.len() != 3 {
        return Err(Fail::from("the dump hasn't three changes"));
    }
    match one_commit(alloc, file.as_slice(), 7, &changes.as_slice()[2..]) {
        Ok(disk) => Ok(disk),
        Err(_) => Err(Fail::from("the commit isn't made")),
    }
}

/// The length of its file, and the first of its calls in which a stop leaves other counts than the row says.
fn stops_over_an_old_group(alloc: Global) -> Result<(usize, Option<WrongStop>), Fail> {
    let disk = commit_over_an_old_group(alloc)?;
    let wrong = first_wrong_stop(alloc, &disk, &OVER_AN_OLD_GROUP);
    Ok((disk.bytes().len(), wrong))
}

#[test]
fn an_append_is_safe_over_what_stands_behind_a_closed_gate(rt: HostRuntime) -> Result<(), Fail> {
    assert_eq!(rt; stops_over_an_old_group(rt.alloc())?, (60, None));
    Ok(())
}

/// What a commit to a journal in an empty file is answered where a call fails, and the faults that are counted.
fn failed_commit(alloc: Global, call: u64) -> Result<(Result<(), OpenError>, u64), OpenError> {
    let mut journal = empty_journal(alloc, b"", &[call])?;
    let answer = commit(alloc, &mut journal, 1, &[]);
    Ok((answer, journal.faults()))
}

#[test]
fn a_failing_call_is_answered_as_a_fault(rt: HostRuntime) -> Result<(), Fail> {
    for call in 1..12 {
        // The seven calls that make a journal in an empty file, and then the four of a commit.
        let want = if call < 8 {
            Err(OpenError::DiskFault)
        } else {
            Ok((Err(OpenError::DiskFault), 1))
        };
        assert_eq!(rt; failed_commit(rt.alloc(), call), want, "at call {call}");
    }
    Ok(())
}

/// The disk of an empty file that isn't opened as a call of it fails.
fn disk_that_failed(alloc: Global, call: u64) -> Result<MemDisk, Fail> {
    let mut calls = List::new(alloc);
    calls.push(call)?;
    match Journal::open(alloc, MemDisk::new(List::new(alloc), calls)) {
        Ok(_) => Err(Fail::from("a call that failed is passed over")),
        Err(refused) => Ok(refused.disk),
    }
}

#[test]
fn the_first_step_of_a_new_journal_closes_its_gate(rt: HostRuntime) -> Result<(), Fail> {
    // The length, a write and its sync; the next write fails.
    let disk = disk_that_failed(rt.alloc(), 4)?;
    assert!(rt; disk.bytes() == b"\x00".as_slice());
    Ok(())
}

/// The disk of a new journal after a commit that fails at the write of its gate, and the answer to it.
fn failed_append(alloc: Global) -> Result<(MemDisk, Result<(), OpenError>), OpenError> {
    // The opening makes two calls, and of the append's four the third fails.
    let mut journal = empty_journal(alloc, NEW, &[5])?;
    let answer = commit(alloc, &mut journal, 1, &[]);
    Ok((journal.into_disk(), answer))
}

/// The same disk, synced once more.
fn synced_after_failed_append(alloc: Global) -> Result<MemDisk, Fail> {
    match failed_append(alloc) {
        Ok((mut disk, Err(OpenError::DiskFault))) => match disk.sync() {
            Ok(()) => Ok(disk),
            Err(_) => Err(Fail::from("the sync fails")),
        },
        _ => Err(Fail::from("the commit doesn't fail as a fault of the disk")),
    }
}

/// The commits that a stop before and behind the sync leaves.
const AROUND_THE_SYNC: [(u64, (usize, usize)); 2] = [(6, (0, 1)), (7, (0, 0))];

/// The first call around the sync in which a stop leaves other counts than the row says, and how many commits the file has behind it.
fn commits_around_the_sync(
    alloc: Global,
) -> Result<(Option<WrongStop>, Result<usize, OpenError>), Fail> {
    let disk = synced_after_failed_append(alloc)?;
    let wrong = first_wrong_stop(alloc, &disk, &AROUND_THE_SYNC);
    Ok((wrong, commits_in(alloc, disk.bytes())))
}

#[test]
fn a_failed_append_may_be_found_until_the_next_sync_is_done(rt: HostRuntime) -> Result<(), Fail> {
    assert_eq!(rt; commits_around_the_sync(rt.alloc())?, (None, Ok(0)));
    Ok(())
}

/// Writes into a file of nine bytes, or at its end.
fn write_to_nine(disk: &mut MemDisk, at: u64, bytes: &[u8]) -> Result<(), Fail> {
    if at > 9 || disk.bytes().len() != 9 {
        return Err(Fail::from("the file hasn't nine bytes"));
    }
    match disk.write_at(at, bytes) {
        Ok(()) => Ok(()),
        Err(_) => Err(Fail::from("a write fails")),
    }
}

/// Opens the gate of a journal without commits, and then writes this group.
fn write_gate_before(disk: &mut MemDisk, group: &[u8]) -> Result<(), Fail> {
    write_to_nine(disk, 8, b"\x01")?;
    write_to_nine(disk, 9, group)
}

/// The disk of a journal without commits, in which the gate was opened before this group was written.
fn gate_before(alloc: Global, group: &[u8]) -> Result<MemDisk, Fail> {
    let new = List::from_vec(Vec::from_slice(alloc, NEW)?);
    let mut disk = MemDisk::new(new, List::new(alloc));
    write_gate_before(&mut disk, group)?;
    Ok(disk)
}

/// The same with the dump's group.
fn gate_before_dumped_group(alloc: Global) -> Result<MemDisk, Fail> {
    let bytes = bytes_of(alloc, DUMP)?;
    if bytes.len() != 60 {
        return Err(Fail::from("the dump hasn't sixty bytes"));
    }
    gate_before(alloc, &bytes.as_slice()[9..])
}

/// Whether a stop in a call may leave a journal whose first group is damaged.
fn may_harm(alloc: Global, disk: &MemDisk, call: u64) -> Result<bool, NoMemory> {
    let mut harmed = false;
    for image in disk.stop_images(alloc, call)?.as_slice() {
        harmed = harmed || commits_in(alloc, image.as_slice()) == damaged(8);
    }
    Ok(harmed)
}

/// Whether a stop in the write of the dump's group may harm the journal whose gate was opened before.
fn early_gate_may_harm(alloc: Global) -> Result<bool, Fail> {
    let disk = gate_before_dumped_group(alloc)?;
    Ok(may_harm(alloc, &disk, 3)?)
}

#[test]
fn a_gate_that_is_opened_before_its_group_does_damage(rt: HostRuntime) -> Result<(), Fail> {
    assert!(rt; early_gate_may_harm(rt.alloc())?);
    Ok(())
}
