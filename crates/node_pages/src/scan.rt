//! The data pages of a file, read one after another.
ghost use Rattle.std.specs.Prelude.{◌≡◌, [], ◌∷◌, Some, None, Ok, Err, IsTrue, IfOk, IfSome, OnOk, length};
ghost use Rattle.node_records.specs.Entries.{entry_bytes};
ghost use Rattle.node_pages.specs.DirectoryPages.{at_end};
ghost use Rattle.node_pages.specs.EntryForm.{entry_behind};
ghost use Rattle.node_pages.specs.Filling.{written};
ghost use Rattle.node_pages.specs.ScanFaults.{FirstFits, IfBroken};
ghost use Rattle.node_pages.specs.Scanning.{after_chunk, after_entries, after_entry, after_items, after_page, fault_at_end, goes_on, has_room, least, no_pages, rises, roomy_before, stays, with_chunk, with_end, with_start};
ghost use Rattle.node_pages.specs.declared.scan_fault.ScanFault.TheVariants.{Broken};

use crate::directory_scan::DirectoryScan;
use crate::entry_form::WholeEntries;
use crate::filler::ROOM;
use crate::page_start::PageStart;
use crate::reader::read_items;
use crate::scan_fault::ScanFault;
use dewey_labels::{List, NoMemory};
use node_records::{Entry, read_record, write_entry};
use std::alloc::Global;
use std::marker::Model;
use tree_model::Key;

/// A record of which chunks are still to come.
#[derive(Drop)]
struct Part {
    /// Those of its chunks so far, together.
    bytes: List<u8>,
    chunks: u32,
    /// The page of the first chunk.
    page: u32,
}

/// Data pages that are read one after another, from page 1 on. It keeps where each begins, and of records at most one.
#[derive(Drop)]
pub struct Scan {
    starts: List<PageStart>,
    next: u32,
    last: Option<Key>,
    used: Option<usize>,
    roomy: Option<u32>,
    part: Option<Part>,
}

impl Model for Scan {
    ghost use Rattle.std.specs.List.{AllByRecursion};
    ghost use Rattle.node_pages.specs.ScanFaults.{FitsOnPage};
    ghost use Rattle.node_pages.specs.Scanning.{Scanned};

    ghost Value = { Scanned };

    ghost view = { λ s. record { starts = s.starts; next = s.next; last = s.last; used = s.used; roomy = s.roomy; part = s.part } };

    ghost invariant = { λ s. AllByRecursion FitsOnPage s.starts };
}

impl Scan {
    /// No page yet. It takes no memory.
    pub fn new(alloc: Global) -> Scan
        ensures { result ≡ no_pages }
    {
        Scan {
            starts: List::new(alloc),
            next: 1,
            last: None,
            used: None,
            roomy: None,
            part: None,
        }
    }

    /// Takes the bytes of the next page, fewer than 8,192 where the file ends before it does.
    /// After a broken rule the scan has no meaning any more.
    pub fn page(&mut self, alloc: Global, bytes: &[u8]) -> Result<(), ScanFault>
        ensures ok { OnOk result (after_page self.old bytes.now ≡ Ok self.new) }
        ensures broken { IfBroken result (λ page. after_page self.old bytes.now ≡ Err page) }
    {
        match read_items::<WholeEntries>(alloc, bytes)? {
            Some(entries) => self.items(alloc, entries),
            None => Err(self.broken(self.next)),
        }
    }

    /// Takes the entries of the next page.
    fn items(&mut self, alloc: Global, entries: List<Entry>) -> Result<(), ScanFault>
        requires fits { FirstFits entries }
        ensures ok { OnOk result (after_items self.old (Some entries) ≡ Ok self.new) }
        ensures broken { IfBroken result (λ page. after_items self.old (Some entries) ≡ Err page) }
    {
        let [first, ..] = entries.as_slice() else {
            return Err(self.broken(self.next));
        };
        self.start(alloc, first)?;
        let used = size_of(alloc, entries.as_slice())?;
        self.entries(alloc, entries)?;
        Ok(self.end(used)?)
    }

    /// The next page begins with this entry.
    fn start(&mut self, alloc: Global, first: &Entry) -> Result<(), NoMemory>
        requires fits { FirstFits (first.now ∷ []) }
        ensures { OnOk result (self.new ≡ with_start self.old first.now) }
    {
        let roomy = self.roomy_before(alloc, first)?;
        let start = PageStart::of(alloc, self.next, first)?;
        self.starts.push(start)?;
        self.roomy = roomy;
        Ok(())
    }

    /// The first page that has room for the first entry of the page behind it, where this is the next page's.
    fn roomy_before(&self, alloc: Global, first: &Entry) -> Result<Option<u32>, NoMemory>
        ensures { IfOk result (λ roomy. roomy ≡ roomy_before self.now first.now) }
    {
        let size = entry_size(alloc, first)?;
        match self.roomy {
            Some(roomy) => Ok(Some(roomy)),
            None if self.has_room(size) => Ok(Some(self.next.saturating_sub(1))),
            None => Ok(None),
        }
    }

    /// Whether the page before, if there is one, has room for so many bytes.
    fn has_room(&self, size: usize) -> bool
        ensures { result ≡ has_room self.now.used size }
    {
        match self.used {
            Some(used) => used as u128 + size as u128 <= ROOM as u128,
            None => false,
        }
    }

    /// Takes entries of the next page, one after another.
    fn entries(&mut self, alloc: Global, entries: List<Entry>) -> Result<(), ScanFault>
        ensures ok { OnOk result (after_entries self.old entries ≡ Ok self.new) }
        ensures broken { IfBroken result (λ page. after_entries self.old entries ≡ Err page) }
    {
        for entry in entries.into_vec() {
            self.entry(alloc, entry)?;
        }
        Ok(())
    }

    /// Takes an entry of the next page.
    fn entry(&mut self, alloc: Global, entry: Entry) -> Result<(), ScanFault>
        ensures ok { OnOk result (after_entry self.old entry ≡ Ok self.new) }
        ensures broken { IfBroken result (λ page. after_entry self.old entry ≡ Err page) }
    {
        if !self.goes_on(&entry) {
            return Err(self.broken(self.next));
        }
        let Entry {
            key,
            chunk,
            last,
            bytes,
        } = entry;
        self.last = Some(key);
        let part = with_chunk(alloc, self.next, self.part.take(), chunk, bytes)?;
        self.chunk(alloc, part, last)
    }

    /// Whether an entry goes on with the record in hand, or begins one where there is none.
    fn goes_on(&self, entry: &Entry) -> bool
        ensures goes_on { result ≡ goes_on self.now.last self.now.part entry.now }
        ensures chunk { IsTrue result → IfSome self.now.part (λ p. entry.now.chunk ≡ p.chunks) }
    {
        match &self.part {
            Some(part) => stays(&self.last, &entry.key) && entry.chunk as u32 == part.chunks,
            None => rises(&self.last, &entry.key) && entry.chunk == 0,
        }
    }

    /// A chunk was put to the record in hand; that it was the last says `last`.
    fn chunk(&mut self, alloc: Global, part: Part, last: bool) -> Result<(), ScanFault>
        ensures ok { OnOk result (after_chunk self.old part last ≡ Ok self.new) }
        ensures broken { IfBroken result (λ page. after_chunk self.old part last ≡ Err page) }
    {
        if !last {
            self.part = Some(part);
            return Ok(());
        }
        if read_record(alloc, part.bytes.as_slice())?.is_none() {
            return Err(self.broken(part.page));
        }
        self.part = None;
        Ok(())
    }

    /// All entries of the next page were taken, and the page behind it is next.
    fn end(&mut self, used: usize) -> Result<(), NoMemory>
        ensures { OnOk result (self.new ≡ with_end used self.old) }
    {
        let Some(next) = self.next.checked_add(1) else {
            return Err(NoMemory);
        };
        self.next = next;
        self.used = Some(used);
        Ok(())
    }

    /// No data page is left: what the directory pages are compared with.
    pub fn directory(self, alloc: Global) -> Result<DirectoryScan, ScanFault>
        ensures ok { IfOk result (λ directory. at_end self ≡ Ok directory) }
        ensures broken { IfBroken result (λ page. at_end self ≡ Err page) }
    {
        if let Some(page) = self.fault_at_end() {
            return Err(ScanFault::Broken(page));
        }
        Ok(DirectoryScan::new(alloc, self.next, self.starts)?)
    }

    fn fault_at_end(&self) -> Option<u32>
        ensures { result ≡ fault_at_end self.now.part self.now.roomy }
    {
        match &self.part {
            Some(part) => Some(self.least(part.page)),
            None => self.roomy,
        }
    }

    /// This page, or one before it that was found to have room.
    fn least(&self, page: u32) -> u32
        ensures { result ≡ least self.now.roomy page }
    {
        match self.roomy {
            Some(roomy) => roomy.min(page),
            None => page,
        }
    }

    fn broken(&self, page: u32) -> ScanFault
        ensures { result ≡ Broken (least self.now.roomy page) }
    {
        ScanFault::Broken(self.least(page))
    }
}

/// Whether a key lies above the last one, if there is one.
fn rises(last: &Option<Key>, key: &Key) -> bool
    ensures { result ≡ rises last.now key.now }
{
    match last {
        Some(last) => last.cmp(key).is_lt(),
        None => true,
    }
}

/// Whether a key is the last one.
fn stays(last: &Option<Key>, key: &Key) -> bool
    ensures { result ≡ stays last.now key.now }
{
    match last {
        Some(last) => last.cmp(key).is_eq(),
        None => false,
    }
}

/// The record in hand with one chunk more, or one that begins with it on this page.
fn with_chunk(
    alloc: Global,
    page: u32,
    part: Option<Part>,
    chunk: u16,
    bytes: List<u8>,
) -> Result<Part, NoMemory>
    requires next { IfSome part (λ p. chunk ≡ p.chunks) }
    ensures { IfOk result (λ new. new ≡ with_chunk page part bytes) }
{
    let Some(mut part) = part else {
        return Ok(Part {
            bytes,
            chunks: 1,
            page,
        });
    };
    part.bytes.extend_from_slice(alloc, bytes.as_slice())?;
    part.chunks = chunk as u32 + 1;
    Ok(part)
}

/// How many bytes an entry takes.
fn entry_size(alloc: Global, entry: &Entry) -> Result<usize, NoMemory>
    ensures { IfOk result (λ size. size ≡ length (entry_bytes entry.now)) }
{
    let mut bytes = List::new(alloc);
    write_entry(alloc, entry, &mut bytes)?;
    Ok(bytes.len())
}

/// How many bytes entries take together.
fn size_of(alloc: Global, entries: &[Entry]) -> Result<usize, NoMemory>
    ensures { IfOk result (λ size. size ≡ length (written entry_behind None entries.now)) }
{
    let mut bytes = List::new(alloc);
    for entry in entries {
        write_entry(alloc, entry, &mut bytes)?;
    }
    Ok(bytes.len())
}
