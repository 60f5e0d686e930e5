//! The two files of a store: made by commits and a checkpoint, and opened.
ghost use Rattle.std.specs.Prelude.{◌≡◌, ◌++◌, None, Some, IsSome, IsTrue, IfOk, OnOk};
ghost use Rattle.std.specs.List.{AllByRecursion};
ghost use Rattle.outside_traits.specs.Moments.{IsAllSynced};
ghost use Rattle.outside_kinds.specs.MemoryDisks.{history_of};
ghost use Rattle.tree_model.specs.Changes.{keys_rise};
ghost use Rattle.node_records.specs.Changes.{IsWritableChange, changes_bytes};
ghost use Rattle.journal.specs.Bodies.{changes_in};
ghost use Rattle.journal.specs.Groups.{is_next};
ghost use Rattle.journal.specs.Views.{TakesGroups};

use dewey_labels::{Label, List, NoMemory, Text};
use journal::{DiskFault, Journal, a_body_is_read_again};
use node_records::{OpenError, write_change};
use node_seq::{NodeRead, SeqError, SortedSeq, entries_above};
use outside_kinds::MemDisk;
use outside_traits::Disk;
use overlays::Stacked;
use recovery::{Opened, open_store};
use std::alloc::Global;
use std::test::Fail;
use tree_model::{Change, Key, Record};

/// A journal without commits.
pub const NEW: &[u8] = b"\x01XTCJRN1\x00";

/// A disk with this file that fails at one call; at none for 0.
pub fn disk(alloc: Global, file: &[u8], call: u64) -> Result<MemDisk, NoMemory>
    ensures { IfOk result (λ disk. IsAllSynced (history_of disk)) }
{
    let bytes = List::from_vec(Vec::from_slice(alloc, file)?);
    let mut calls = List::new(alloc);
    calls.push(call)?;
    Ok(MemDisk::new(bytes, calls))
}

/// The journal of a new store, on a disk that fails at one call.
pub fn empty_journal(alloc: Global, call: u64) -> Result<Journal<MemDisk>, OpenError>
    ensures usable { IfOk result (λ journal. TakesGroups journal) }
    ensures last { IfOk result (λ journal. journal.last ≡ None) }
{
    match Journal::open(alloc, disk(alloc, NEW, call)?) {
        Ok((journal, groups)) => {
            if groups.commits.is_empty() && groups.images.is_none() {
                Ok(journal)
            } else {
                Err(OpenError::NoMemory)
            }
        }
        Err(refused) => Err(refused.fault),
    }
}

/// Writes changes with rising keys, one behind the other.
fn write_changes(alloc: Global, changes: &[Change], out: &mut List<u8>) -> Result<(), NoMemory>
    ensures bytes { OnOk result (out.new ≡ out.old ++ changes_bytes changes.now) }
    ensures writable { OnOk result (AllByRecursion IsWritableChange changes.now) }
    ensures rise { OnOk result (IsTrue (keys_rise changes.now)) }
{
    if let [first, after @ ..] = changes {
        if let [second, ..] = after {
            if first.key.cmp(&second.key).is_ge() {
                return Err(NoMemory);
            }
        }
        write_change(alloc, first, out)?;
        write_changes(alloc, after, out)?;
    }
    Ok(())
}

/// The body of a commit of these changes.
fn body_of(alloc: Global, changes: &[Change]) -> Result<List<u8>, NoMemory>
    ensures { IfOk result (λ body. IsSome (changes_in body)) }
{
    let mut body = List::new(alloc);
    write_changes(alloc, changes, &mut body)?;
    a_body_is_read_again();
    Ok(body)
}

/// Adds a commit of these changes.
pub fn commit(
    alloc: Global,
    journal: &mut Journal<MemDisk>,
    number: u32,
    changes: &[Change],
) -> Result<(), OpenError>
    requires usable { TakesGroups journal.old }
    requires next { IsTrue (is_next journal.old.last number) }
    ensures usable { OnOk result (TakesGroups journal.new) }
    ensures last { OnOk result (journal.new.last ≡ Some number) }
{
    let body = body_of(alloc, changes)?;
    if body.len() > 4096 {
        return Err(OpenError::NoMemory);
    }
    journal.make_room(alloc, body.len())?;
    match journal.append_group(number, body.as_slice()) {
        Ok(()) => Ok(()),
        Err(DiskFault) => Err(OpenError::DiskFault),
    }
}

pub fn key(alloc: Global, divisions: &[u32], name: &str) -> Result<Key, Fail> {
    let divisions = List::from_vec(Vec::from_slice(alloc, divisions)?);
    match Label::of_divisions(divisions) {
        Some(label) => Ok(Key::of_attribute(alloc, &label, name)?),
        None => Err(Fail::from("no label")),
    }
}

/// Puts a record at the key of a label and a name.
pub fn put_in(
    alloc: Global,
    seq: &mut SortedSeq,
    divisions: &[u32],
    name: &str,
    record: Record,
) -> Result<(), Fail> {
    let at = key(alloc, divisions, name)?;
    let _old = seq.put(alloc, at, record)?;
    Ok(())
}

/// The map of the document `x` with the element `a`.
pub fn document(alloc: Global) -> Result<SortedSeq, Fail> {
    let mut seq = SortedSeq::new(alloc);
    let label = Record::Attr(Text::of(alloc, "1.1001")?);
    put_in(alloc, &mut seq, &[1], "x", label)?;
    put_in(alloc, &mut seq, &[1, 1001], "", Record::Document)?;
    let element = Record::Element(Text::of(alloc, "a")?);
    put_in(alloc, &mut seq, &[1, 1001, 1001], "", element)?;
    Ok(seq)
}

/// What becomes of the disks of two files that are opened: the number and the count of the store's records, or why they aren't opened, and the disks behind it.
#[derive(Drop)]
pub struct Came {
    pub store: Result<(u32, usize), OpenError>,
    pub journal: MemDisk,
    pub pages: MemDisk,
}

/// How many records a map has.
fn count_of<S: NodeRead>(alloc: Global, map: &mut S) -> Result<usize, SeqError> {
    let root = Label::root(alloc)?;
    let first = Key::of_node(alloc, &root)?;
    let entries = entries_above(alloc, &first, map)?;
    Ok(entries.len())
}

/// A store's number, and how many records are seen through its commits.
fn seen<S: NodeRead>(alloc: Global, number: u32, map: &mut S) -> Result<(u32, usize), OpenError> {
    match count_of(alloc, map) {
        Ok(count) => Ok((number, count)),
        Err(SeqError::DiskFault) => Err(OpenError::DiskFault),
        Err(SeqError::NoMemory) => Err(OpenError::NoMemory),
    }
}

/// What is seen in an opened store, and its disks.
fn came_open(alloc: Global, store: Opened<MemDisk, MemDisk>) -> Came {
    let journal = store.journal.into_disk();
    let mut map = Stacked::new(store.base, store.layers);
    let seen = seen(alloc, store.number, &mut map);
    let (base, _layers) = map.into_parts();
    let (pages, _pool) = base.into_parts();
    Came {
        store: seen,
        journal,
        pages,
    }
}

/// Opens the store of two disks, with one page frame.
fn came_of(alloc: Global, journal: MemDisk, pages: MemDisk) -> Came {
    match open_store(alloc, journal, pages, 1) {
        Ok(store) => came_open(alloc, store),
        Err(refused) => Came {
            store: Err(refused.fault),
            journal: refused.journal,
            pages: refused.pages,
        },
    }
}

/// What becomes of two files that are opened.
pub fn reopened(alloc: Global, journal: &[u8], pages: &[u8]) -> Result<Came, NoMemory> {
    let journal = disk(alloc, journal, 0)?;
    let pages = disk(alloc, pages, 0)?;
    Ok(came_of(alloc, journal, pages))
}

/// The number and the count of records that two files open with, or why they aren't opened.
pub fn opens(alloc: Global, journal: &[u8], pages: &[u8]) -> Result<(u32, usize), OpenError> {
    reopened(alloc, journal, pages)?.store
}
