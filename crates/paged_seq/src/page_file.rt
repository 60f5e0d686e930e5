//! The pages of a file, read through a pool.
ghost use Rattle.std.specs.Prelude.{◌≡◌, ◌≤◌, ◌<◌, ◌+◌, ◌*◌, ◌^◌, Some, None, List, length, drop, true, is_some, option_map, IsTrue, IsSome, IfOk, IfSome, OnOk};
ghost use Rattle.outside_traits.specs.Faults.{HasCause, failed};
ghost use Rattle.page_store.specs.Pages.{ArePagesOf, IsAfterAnswer, IsFilled, is_kept, page_of};
ghost use Rattle.node_records.specs.Records.{record_bytes, record_of};
ghost use Rattle.node_pages.specs.PageFiles.{IsIndex};
ghost use Rattle.node_seq.specs.declared.node_read.SeqError.TheVariants.{DiskFault};
ghost use Rattle.node_seq.specs.Reads.{LiesAbove, LiesBelow};
ghost use Rattle.tree_model.specs.Entries.{first_above, get, last_below};
ghost use Rattle.paged_seq.specs.PagedFiles.{ReadsAtMost, ReadsForEntry, ReadsForRecord, disk_page};
ghost use Rattle.paged_seq.specs.PagedMaps.{records_of};
ghost use Rattle.paged_seq.specs.Places.{Arrives, GoesBehind, IsFull, IsPlace, MayBeKept, Parts, IsBeforeEntry, StaysBehind, passes, record_around, steps_left};

use crate::place::Place;
use crate::search::{advance, first_place, may_go_on, pages_before, seek};
use dewey_labels::{List, NoMemory};
use node_pages::PageStart;
use node_records::{Entry, read_record};
use node_seq::SeqError;
use outside_traits::{Disk, Failed};
use page_store::{PageError, Pool};
use std::alloc::Global;
use std::marker::Model;
use tree_model::{Key, Record};

/// A disk of pages that isn't written, and those of its pages that are kept.
#[derive(Drop)]
pub(crate) struct PageFile<P: Disk + Drop> {
    disk: P,
    pool: Pool,
}

impl<P: Disk + Drop> Model for PageFile<P> {
    ghost use Rattle.std.specs.Prelude.{IsTrue};
    ghost use Rattle.page_store.specs.Pages.{ArePagesOf};
    ghost use Rattle.paged_seq.specs.PagedFiles.{FileView};

    ghost Value = { FileView P };

    ghost view = { λ f. record { disk = f.disk; pool = f.pool } };

    ghost invariant = { λ f. IsTrue P.is_known → ArePagesOf (P.history f.disk).now.reads f.pool.kept };
}

impl<P: Disk + Drop> PageFile<P> {
    pub fn new(disk: P, pool: Pool) -> PageFile<P>
        requires kept { IsTrue P.is_known → ArePagesOf (P.history disk).now.reads pool.kept }
        ensures disk { result.disk ≡ disk }
        ensures pool { result.pool ≡ pool }
    {
        PageFile { disk, pool }
    }

    pub fn into_parts(self) -> (P, Pool)
        ensures disk { result.0 ≡ self.disk }
        ensures pool { result.1 ≡ self.pool }
        ensures kept { IsTrue P.is_known → ArePagesOf (P.history self.disk).now.reads self.pool.kept }
    {
        (self.disk, self.pool)
    }

    /// The disk's count of faults.
    pub fn faults(&self) -> u64
        ensures { result ≡ P.faults self.now.disk }
    {
        self.disk.faults()
    }

    /// How many pages were read for it.
    pub fn reads(&self) -> u64
        ensures { result ≡ self.now.pool.reads }
    {
        self.pool.reads()
    }

    /// How many bytes the file has.
    pub fn len(&mut self) -> Result<u64, Failed>
        ensures value { IfOk result (λ count. IsTrue P.is_known → count ≡ length (P.history self.old.disk).now.reads) }
        ensures pool { self.new.pool ≡ self.old.pool }
        ensures same { IsTrue P.is_known → P.history self.new.disk ≡ P.history self.old.disk }
        ensures cause { HasCause failed (P.faults self.old.disk) (P.faults self.new.disk) result }
    {
        self.disk.len()
    }

    /// The last bytes of the file, which are fewer than a page has.
    pub fn tail(&mut self, alloc: Global, at: u64, count: usize) -> Result<Vec<u8>, SeqError>
        requires end { IsTrue P.is_known → at + count ≡ length (P.history self.old.disk).now.reads }
        ensures bytes { IfOk result (λ bytes. IsTrue P.is_known → bytes.items ≡ drop at (P.history self.old.disk).now.reads) }
        ensures pool { self.new.pool ≡ self.old.pool }
        ensures same { IsTrue P.is_known → P.history self.new.disk ≡ P.history self.old.disk }
        ensures cause { HasCause DiskFault (P.faults self.old.disk) (P.faults self.new.disk) result }
    {
        let mut bytes = match vec![in alloc; 0; count] {
            Ok(bytes) => bytes,
            Err(_) => return Err(SeqError::NoMemory),
        };
        match self.disk.read_at(at, &mut bytes) {
            Ok(()) => Ok(bytes),
            Err(Failed) => Err(SeqError::DiskFault),
        }
    }

    /// Puts a page of the file among those that are kept.
    pub fn fill(&mut self, alloc: Global, page: u32) -> Result<(), SeqError>
        requires within { IsTrue P.is_known → length (page_of page (P.history self.old.disk).now.reads) ≡ 8_192 }
        ensures filled { OnOk result (IsFilled page self.old.pool self.new.pool) }
        ensures after { IsAfterAnswer page self.old.pool result self.new.pool }
        ensures same { IsTrue P.is_known → P.history self.new.disk ≡ P.history self.old.disk }
        ensures cause { HasCause DiskFault (P.faults self.old.disk) (P.faults self.new.disk) result }
    {
        match self.pool.fill(alloc, &mut self.disk, page) {
            Ok(()) => Ok(()),
            Err(PageError::DiskFault) => Err(SeqError::DiskFault),
            Err(PageError::NoMemory) => Err(SeqError::NoMemory),
        }
    }

    /// A page that is kept.
    pub fn frame(&self, page: u32) -> Option<&[u8]>
        ensures page { IsTrue P.is_known → IfSome result (λ bytes. bytes.now ≡ page_of page (P.history self.now.disk).now.reads) }
        ensures there { is_kept page self.now.pool ≡ true → IsSome result }
        ensures length { IfSome result (λ bytes. length bytes.now ≡ 8_192) }
    {
        self.pool.frame(page)
    }

    /// The place before the first entry that stands at the key or beyond it; only beyond it, where `beyond` says so. `starts` are those of the data pages.
    /// The search of a page goes on at the place that was kept, where that is on it and the entry before it doesn't pass.
    pub fn find(
        &mut self,
        alloc: Global,
        starts: &[PageStart],
        passed: Option<Place>,
        key: &Key,
        beyond: bool,
    ) -> Result<Place, SeqError>
        requires few { length starts.now < 2 ^ 32 }
        requires index { IsTrue P.is_known → IsIndex (disk_page P.history self.old) starts.now }
        requires passed { IfSome passed (MayBeKept P.is_known (P.history self.old.disk).now.reads (length starts.now)) }
        ensures within { IfOk result (λ p. p.at ≤ 8_192) }
        ensures parts { IfOk result (λ p. IsTrue P.is_known
            → Parts (disk_page P.history self.old) (length starts.now) (passes key.now beyond) p) }
        ensures reads { ReadsAtMost 1 self.old.pool self.new.pool }
        ensures most { self.new.pool.most ≡ self.old.pool.most }
        ensures same { IsTrue P.is_known → P.history self.new.disk ≡ P.history self.old.disk }
        ensures cause { HasCause DiskFault (P.faults self.old.disk) (P.faults self.new.disk) result }
    {
        let before = pages_before(starts, key, beyond);
        if before == 0 {
            return Ok(Place::start());
        }
        let page = before as u32;
        self.fill(alloc, page)?;
        let Some(bytes) = self.frame(page) else {
            unreachable!()
        };
        match passed {
            Some(place) if may_go_on(&place, page, key, beyond) => {
                Ok(seek(alloc, bytes, place, key, beyond)?)
            }
            _ => Ok(seek(alloc, bytes, first_place(page, bytes), key, beyond)?),
        }
    }

    /// Goes on to the next page where a place is behind the last entry of its own, and says whether an entry stands there.
    fn arrive(
        &mut self,
        alloc: Global,
        starts: &[PageStart],
        place: &mut Place,
    ) -> Result<bool, SeqError>
        requires few { length starts.now < 2 ^ 32 }
        requires index { IsTrue P.is_known → IsIndex (disk_page P.history self.old) starts.now }
        requires within { place.old.at ≤ 8_192 }
        requires place { IsTrue P.is_known
            → IsPlace (disk_page P.history self.old) (length starts.now) place.old }
        ensures arrived { IfOk result (λ arrived. IsTrue P.is_known
            → Arrives (disk_page P.history self.old) (length starts.now)
            place.old arrived place.new) }
        ensures within { OnOk result (place.new.at ≤ 8_192) }
        ensures place { OnOk result (IsTrue P.is_known
            → IsPlace (disk_page P.history self.old) (length starts.now) place.new) }
        ensures there { IfOk result (λ arrived. IsTrue arrived → is_kept place.new.page self.new.pool ≡ true) }
        ensures some { IfOk result (λ arrived. IsTrue arrived
            → IsBeforeEntry (length starts.now) place.old place.new) }
        ensures reads { ReadsAtMost 1 self.old.pool self.new.pool }
        ensures most { self.new.pool.most ≡ self.old.pool.most }
        ensures same { IsTrue P.is_known → P.history self.new.disk ≡ P.history self.old.disk }
        ensures cause { HasCause DiskFault (P.faults self.old.disk) (P.faults self.new.disk) result }
    {
        if place.left > 0 {
            self.fill(alloc, place.page)?;
            return Ok(true);
        }
        if place.page as usize >= starts.len() {
            return Ok(false);
        }
        let page = place.page + 1;
        self.fill(alloc, page)?;
        let Some(bytes) = self.frame(page) else {
            unreachable!()
        };
        *place = first_place(page, bytes);
        Ok(place.left > 0)
    }

    /// Reads the entry behind a place, if there is one; the place is behind it then, and has it before itself. At most one page is read.
    pub fn step(
        &mut self,
        alloc: Global,
        starts: &[PageStart],
        place: &mut Place,
    ) -> Result<bool, SeqError>
        requires few { length starts.now < 2 ^ 32 }
        requires index { IsTrue P.is_known → IsIndex (disk_page P.history self.old) starts.now }
        requires within { place.old.at ≤ 8_192 }
        requires place { IsTrue P.is_known
            → IsPlace (disk_page P.history self.old) (length starts.now) place.old }
        ensures read { IfOk result (λ read. IsTrue P.is_known
            → GoesBehind (disk_page P.history self.old) (length starts.now)
            place.old read place.new) }
        ensures within { OnOk result (place.new.at ≤ 8_192) }
        ensures place { OnOk result (IsTrue P.is_known
            → IsPlace (disk_page P.history self.old) (length starts.now) place.new) }
        ensures behind { IfOk result (λ read. IsTrue read → IsTrue P.is_known
            → StaysBehind (disk_page P.history self.old) (length starts.now) place.old place.new) }
        ensures full { IfOk result (λ read. IsTrue read → IsFull place.new.before) }
        ensures shorter { IfOk result (λ read. IsTrue read → steps_left (length starts.now) place.new < steps_left (length starts.now) place.old) }
        ensures reads { ReadsAtMost 1 self.old.pool self.new.pool }
        ensures most { self.new.pool.most ≡ self.old.pool.most }
        ensures same { IsTrue P.is_known → P.history self.new.disk ≡ P.history self.old.disk }
        ensures cause { HasCause DiskFault (P.faults self.old.disk) (P.faults self.new.disk) result }
    {
        if !self.arrive(alloc, starts, place)? {
            return Ok(false);
        }
        let Some(bytes) = self.frame(place.page) else {
            unreachable!()
        };
        Ok(advance(alloc, bytes, place)?)
    }

    /// The record whose first chunk was read last. At most one page is read for each further chunk.
    pub fn rest_of_record(
        &mut self,
        alloc: Global,
        starts: &[PageStart],
        place: &mut Place,
    ) -> Result<Option<Record>, SeqError>
        requires few { length starts.now < 2 ^ 32 }
        requires index { IsTrue P.is_known → IsIndex (disk_page P.history self.old) starts.now }
        requires within { place.old.at ≤ 8_192 }
        requires place { IsTrue P.is_known
            → IsPlace (disk_page P.history self.old) (length starts.now) place.old }
        requires full { IsFull place.old.before }
        ensures record { IfOk result (λ found. IsTrue P.is_known
            → found ≡ record_around (disk_page P.history self.old) (length starts.now) place.old) }
        ensures within { OnOk result (place.new.at ≤ 8_192) }
        ensures behind { IfOk result (λ found. IsSome found → IsTrue P.is_known
            → StaysBehind (disk_page P.history self.old) (length starts.now) place.old place.new) }
        ensures reads { IfOk result (λ found. IfSome found (λ r. 1_024 * self.new.pool.reads ≤ 1_024 * self.old.pool.reads + length (record_bytes r))) }
        ensures most { self.new.pool.most ≡ self.old.pool.most }
        ensures same { IsTrue P.is_known → P.history self.new.disk ≡ P.history self.old.disk }
        ensures cause { HasCause DiskFault (P.faults self.old.disk) (P.faults self.new.disk) result }
    {
        let Some(first) = &place.before else {
            return Ok(None);
        };
        // A record of one chunk isn't copied before it is read.
        if first.last {
            return Ok(record_of(alloc, first.bytes.as_slice())?);
        }
        let mut last = first.last;
        let mut bytes = List::from_vec(Vec::from_slice(alloc, first.bytes.as_slice())?);
        while !last {
            if !self.step(alloc, starts, place)? {
                return Ok(None);
            }
            let Some(next) = &place.before else {
                return Ok(None);
            };
            bytes.extend_from_slice(alloc, next.bytes.as_slice())?;
            last = next.last;
        }
        Ok(record_of(alloc, bytes.as_slice())?)
    }
}

impl<P: Disk + Drop> PageFile<P> {
    /// The record at a key. At most two pages are read, and one a chunk of the record.
    /// It is looked for from the place on that was kept, where that is on its page and not behind it. Kept is the place behind what was read.
    pub fn record_at(
        &mut self,
        alloc: Global,
        starts: &[PageStart],
        passed: &mut Option<Place>,
        key: &Key,
    ) -> Result<Option<Record>, SeqError>
        requires few { length starts.now < 2 ^ 32 }
        requires index { IsTrue P.is_known → IsIndex (disk_page P.history self.old) starts.now }
        requires passed { IfSome passed.old (MayBeKept P.is_known (P.history self.old.disk).now.reads (length starts.now)) }
        ensures passed { IfSome passed.new (MayBeKept P.is_known (P.history self.old.disk).now.reads (length starts.now)) }
        ensures value { IfOk result (λ found. IsTrue P.is_known
            → found ≡ get key.now (records_of (disk_page P.history self.old) (length starts.now))) }
        ensures reads { IfOk result
            (λ found. IsTrue P.is_known → ReadsForRecord found self.old.pool self.new.pool) }
        ensures most { self.new.pool.most ≡ self.old.pool.most }
        ensures same { IsTrue P.is_known → P.history self.new.disk ≡ P.history self.old.disk }
        ensures cause { HasCause DiskFault (P.faults self.old.disk) (P.faults self.new.disk) result }
    {
        let mut place = self.find(alloc, starts, passed.take(), key, false)?;
        if !self.step(alloc, starts, &mut place)? {
            return Ok(None);
        }
        let Some(entry) = &place.before else {
            return Ok(None);
        };
        if !entry.key.cmp(key).is_eq() {
            *passed = Some(place);
            return Ok(None);
        }
        let found = self.rest_of_record(alloc, starts, &mut place)?;
        *passed = place_behind(&found, place);
        Ok(found)
    }

    /// The place before the first entry beyond the key. The one that is kept is it where the key's record ends there; another one is looked for, from there on where it may be.
    fn place_above(
        &mut self,
        alloc: Global,
        starts: &[PageStart],
        passed: Option<Place>,
        key: &Key,
    ) -> Result<Place, SeqError>
        requires few { length starts.now < 2 ^ 32 }
        requires index { IsTrue P.is_known → IsIndex (disk_page P.history self.old) starts.now }
        requires passed { IfSome passed (MayBeKept P.is_known (P.history self.old.disk).now.reads (length starts.now)) }
        ensures within { IfOk result (λ p. p.at ≤ 8_192) }
        ensures parts { IfOk result (λ p. IsTrue P.is_known
            → Parts (disk_page P.history self.old) (length starts.now) (passes key.now true) p) }
        ensures reads { ReadsAtMost 1 self.old.pool self.new.pool }
        ensures most { self.new.pool.most ≡ self.old.pool.most }
        ensures same { IsTrue P.is_known → P.history self.new.disk ≡ P.history self.old.disk }
        ensures cause { HasCause DiskFault (P.faults self.old.disk) (P.faults self.new.disk) result }
    {
        match passed {
            Some(place) if place.ends_record(key) => Ok(place),
            other => self.find(alloc, starts, other, key, true),
        }
    }

    /// The entry with the least key above a key. At most three pages are read, and one a chunk of the record.
    /// It goes on at the place behind the record that was answered last, where the key is that one's, or beyond it and looked for on the same page.
    pub fn entry_above(
        &mut self,
        alloc: Global,
        starts: &[PageStart],
        passed: &mut Option<Place>,
        key: &Key,
    ) -> Result<Option<(Key, Record)>, SeqError>
        requires few { length starts.now < 2 ^ 32 }
        requires index { IsTrue P.is_known → IsIndex (disk_page P.history self.old) starts.now }
        requires passed { IfSome passed.old (MayBeKept P.is_known (P.history self.old.disk).now.reads (length starts.now)) }
        ensures passed { IfSome passed.new (MayBeKept P.is_known (P.history self.old.disk).now.reads (length starts.now)) }
        ensures value { IfOk result (λ found. IsTrue P.is_known
            → found ≡ first_above key.now
            (records_of (disk_page P.history self.old) (length starts.now))) }
        ensures above { IfOk result (LiesAbove key.now) }
        ensures reads { IfOk result
            (λ found. IsTrue P.is_known → ReadsForEntry found self.old.pool self.new.pool) }
        ensures most { self.new.pool.most ≡ self.old.pool.most }
        ensures same { IsTrue P.is_known → P.history self.new.disk ≡ P.history self.old.disk }
        ensures cause { HasCause DiskFault (P.faults self.old.disk) (P.faults self.new.disk) result }
    {
        let mut place = self.place_above(alloc, starts, passed.take(), key)?;
        if !self.step(alloc, starts, &mut place)? {
            return Ok(None);
        }
        let Some(entry) = &place.before else {
            return Ok(None);
        };
        if !key.cmp(&entry.key).is_lt() {
            return Ok(None);
        }
        let at = entry.key.copy(alloc)?;
        let found = self.rest_of_record(alloc, starts, &mut place)?;
        *passed = place_behind(&found, place);
        Ok(at_key(at, found))
    }

    /// The entry with the greatest key below a key. At most three pages are read, and one a chunk of the record.
    pub fn entry_below(
        &mut self,
        alloc: Global,
        starts: &[PageStart],
        key: &Key,
    ) -> Result<Option<(Key, Record)>, SeqError>
        requires few { length starts.now < 2 ^ 32 }
        requires index { IsTrue P.is_known → IsIndex (disk_page P.history self.old) starts.now }
        ensures value { IfOk result (λ found. IsTrue P.is_known
            → found ≡ last_below key.now
            (records_of (disk_page P.history self.old) (length starts.now))) }
        ensures below { IfOk result (LiesBelow key.now) }
        ensures reads { IfOk result
            (λ found. IsTrue P.is_known → ReadsForEntry found self.old.pool self.new.pool) }
        ensures most { self.new.pool.most ≡ self.old.pool.most }
        ensures same { IsTrue P.is_known → P.history self.new.disk ≡ P.history self.old.disk }
        ensures cause { HasCause DiskFault (P.faults self.old.disk) (P.faults self.new.disk) result }
    {
        let place = self.find(alloc, starts, None, key, false)?;
        match key_of(place.before) {
            Some(at) => {
                if !at.cmp(key).is_lt() {
                    return Ok(None);
                }
                let mut unkept = None;
                let found = self.record_at(alloc, starts, &mut unkept, &at)?;
                Ok(at_key(at, found))
            }
            None => Ok(None),
        }
    }
}

/// The record that all of these bytes are, if they are one.
fn record_of(alloc: Global, bytes: &[u8]) -> Result<Option<Record>, NoMemory>
    ensures { IfOk result (λ found. found ≡ record_of bytes.now) }
{
    match read_record(alloc, bytes)? {
        Some((record, _)) => Ok(Some(record)),
        None => Ok(None),
    }
}

/// The place, if it is behind a record.
fn place_behind(found: &Option<Record>, place: Place) -> Option<Place>
    ensures { IfSome result (λ p. (p ≡ place) × IsSome found.now) }
{
    match found {
        Some(_) => Some(place),
        None => None,
    }
}

/// The key of an entry, if there is one.
fn key_of(entry: Option<Entry>) -> Option<Key>
    ensures { result ≡ option_map (λ e. e.key) entry }
{
    match entry {
        Some(entry) => Some(entry.key),
        None => None,
    }
}

/// The record, with its key, if there is one.
fn at_key(at: Key, found: Option<Record>) -> Option<(Key, Record)>
    ensures { result ≡ option_map (λ r. (at, r)) found }
{
    match found {
        Some(record) => Some((at, record)),
        None => None,
    }
}
