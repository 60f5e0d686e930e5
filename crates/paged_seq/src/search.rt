//! Looking for a key: among the starts of pages, and on one page.
ghost use Rattle.std.specs.Prelude.{◌≡◌, ◌≤◌, ◌<◌, ◌+◌, ℕ, length, take, drop, Some, IsTrue, IfOk, IfSome, OnOk};
ghost use Rattle.node_records.specs.Entries.{entry_in};
ghost use Rattle.node_records.specs.Keys.{key_bytes};
ghost use Rattle.node_records.specs.declared.entries.Entry.{Entry};
ghost use Rattle.paged_seq.specs.Places.{Advances, FindsFrom, IsFull, LastFails, MayGoOn, NextPasses, comes, first_place, passes};
ghost use Rattle.paged_seq.specs.Sizes.{SortsAs, entry_there};

use crate::place::Place;
use crate::sizes::entry_sizes;
use byteorder::{BigEndian, ByteOrder};
use dewey_labels::{List, NoMemory};
use node_pages::{PageRead, PageStart, WholeEntries};
use node_records::{Entry, write_key};
use std::alloc::Global;
use std::cmp::Ordering;
use tree_model::Key;

/// How many bytes the count before a page's entries has.
const COUNT_BYTES: usize = 2;

/// Whether what compares so with the key that is looked for stands there or beyond it; only beyond it, where `beyond` says so.
fn comes(order: Ordering, beyond: bool) -> bool
    ensures { result ≡ comes beyond order }
{
    match order {
        Ordering::Less => false,
        Ordering::Equal => !beyond,
        Ordering::Greater => true,
    }
}

/// The same of an entry at a key.
fn passes(at: &Key, key: &Key, beyond: bool) -> bool
    ensures { result ≡ passes key.now beyond at.now }
{
    comes(at.cmp(key), beyond)
}

/// How many pages begin before the key, by halves.
pub(crate) fn pages_before(starts: &[PageStart], key: &Key, beyond: bool) -> usize
    ensures within { result ≤ length starts.now }
    ensures last { LastFails (passes key.now beyond) (take result starts.now) }
    ensures next { NextPasses (passes key.now beyond) (drop result starts.now) }
{
    let mut low = 0;
    let mut high = starts.len();
    while low < high {
        let middle = low + (high - low) / 2;
        let start = &starts[middle];
        if passes(&start.key, key, beyond) {
            high = middle;
        } else {
            low = middle + 1;
        }
    }
    low
}

/// The place before the first entry of a page.
pub(crate) fn first_place(page: u32, bytes: &[u8]) -> Place
    requires count { 2 ≤ length bytes.now }
    ensures { result ≡ first_place page bytes.now }
{
    Place {
        page,
        at: COUNT_BYTES,
        left: BigEndian::read_u16(bytes),
        before: None,
    }
}

/// Whether the search of a page may go on at this place: it is on the page, behind an entry that doesn't pass.
pub(crate) fn may_go_on(place: &Place, page: u32, key: &Key, beyond: bool) -> bool
    ensures { IsTrue result → MayGoOn page (passes key.now beyond) place.now }
{
    match &place.before {
        Some(chunk) => place.page == page && !passes(&chunk.key, key, beyond),
        None => false,
    }
}

/// The bytes of a key, by which it sorts among those of entries; None where its name has the character U+0000, as no entry's has.
fn sorting_bytes(alloc: Global, key: &Key) -> Result<Option<List<u8>>, NoMemory>
    ensures { IfOk result (λ found. IfSome found (SortsAs key.now)) }
{
    if key.name.as_str().as_bytes().contains(&0) {
        return Ok(None);
    }
    let mut bytes = List::new(alloc);
    write_key(alloc, key, &mut bytes)?;
    Ok(Some(bytes))
}

/// Whether the entry at the start of the bytes, so many of which are its key, stands at the key that is looked for or beyond it, as `passes` has it.
fn passes_there(
    alloc: Global,
    bytes: &[u8],
    size: usize,
    key: &Key,
    sorting: &Option<List<u8>>,
    beyond: bool,
) -> Result<bool, NoMemory>
    requires within { size ≤ length bytes.now }
    requires sorting { IfSome sorting.now (SortsAs key.now) }
    ensures { IfOk result (λ answer. (e : Entry × ℕ) → entry_in bytes.now ≡ Some e → size ≡ length (key_bytes e.0.key)
        → answer ≡ passes key.now beyond e.0.key) }
{
    let Some(sorting) = sorting else {
        return match WholeEntries::read(alloc, bytes, &None)? {
            Some((entry, _)) => Ok(passes(&entry.key, key, beyond)),
            None => Ok(true),
        };
    };
    let (at, _) = bytes.split_at(size);
    Ok(comes(at.cmp(&sorting.as_slice()), beyond))
}

/// The entry at this place of the bytes, if a place is named; else the one before.
fn entry_there(
    alloc: Global,
    bytes: &[u8],
    before: Option<Entry>,
    at: Option<usize>,
) -> Result<Option<Entry>, NoMemory>
    requires within { IfSome at (λ n. n ≤ length bytes.now) }
    ensures { IfOk result (λ found. found ≡ entry_there bytes.now before at) }
{
    let Some(at) = at else {
        return Ok(before);
    };
    let (_, rest) = bytes.split_at(at);
    match WholeEntries::read(alloc, rest, &None)? {
        Some((entry, _)) => Ok(Some(entry)),
        None => Ok(None),
    }
}

/// The place on a page, from `start` on, before the first entry that stands at the key or beyond it. It passes over the entries before that one by their bytes, and reads the last of them.
pub(crate) fn seek(
    alloc: Global,
    bytes: &[u8],
    start: Place,
    key: &Key,
    beyond: bool,
) -> Result<Place, NoMemory>
    requires whole { length bytes.now ≡ 8_192 }
    requires start { start.at ≤ 8_192 }
    ensures found { IfOk result (FindsFrom (passes key.now beyond) bytes.now start) }
    ensures page { IfOk result (λ p. p.page ≡ start.page) }
    ensures within { IfOk result (λ p. p.at ≤ 8_192) }
{
    let sorting = sorting_bytes(alloc, key)?;
    let mut at = start.at;
    let mut left = start.left;
    let mut passed = None;
    while left > 0 {
        let (_, rest) = bytes.split_at(at);
        let Some((key_size, size)) = entry_sizes(rest) else {
            break;
        };
        if passes_there(alloc, rest, key_size, key, &sorting, beyond)? {
            break;
        }
        passed = Some(at);
        at += size;
        left -= 1;
    }
    let before = entry_there(alloc, bytes, start.before, passed)?;
    Ok(Place {
        page: start.page,
        at,
        left,
        before,
    })
}

/// Reads the entry at a place of a page; the place is behind it then, and has it before itself. Where none can be read, the place stays.
pub(crate) fn advance(alloc: Global, bytes: &[u8], place: &mut Place) -> Result<bool, NoMemory>
    requires some { 0 < place.old.left }
    requires within { place.old.at ≤ 8_192 }
    requires whole { length bytes.now ≡ 8_192 }
    ensures within { OnOk result (place.new.at ≤ 8_192) }
    ensures read { IfOk result (Advances bytes.now place.old place.new) }
    ensures page { OnOk result (place.new.page ≡ place.old.page) }
    ensures shorter { IfOk result (λ read. IsTrue read → place.new.left + 1 ≡ place.old.left) }
    ensures full { IfOk result (λ read. IsTrue read → IsFull place.new.before) }
{
    let (_, rest) = bytes.split_at(place.at);
    match WholeEntries::read(alloc, rest, &place.before)? {
        Some((entry, size)) => {
            place.at += size;
            place.left -= 1;
            place.before = Some(entry);
            Ok(true)
        }
        None => Ok(false),
    }
}
