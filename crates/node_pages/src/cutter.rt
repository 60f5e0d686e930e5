//! Cutting a map into pages, record by record.
ghost use Rattle.std.specs.Prelude.{◌≡◌, ◌≤◌, ◌+◌, ◌↔◌, Some, IsTrue, IfOk, IfSome, OnOk};
ghost use Rattle.std.specs.List.{AllByRecursion};
ghost use Rattle.tree_model.specs.Entries.{Entries};
ghost use Rattle.tree_model.specs.Keys.{IsValidKey};
ghost use Rattle.tree_model.specs.Records.{record_fits};
ghost use Rattle.node_records.specs.Entries.{entry_at};
ghost use Rattle.node_seq.specs.Reads.{IsValidEntry};
ghost use Rattle.node_seq.specs.Trees.{OnTree};
ghost use Rattle.tree_model.specs.Tree.{map_of};
ghost use Rattle.node_seq.specs.declared.node_read.SeqError.TheVariants.{DiskFault};
ghost use Rattle.outside_traits.specs.Faults.{HasCause};
ghost use Rattle.node_pages.specs.Chunks.{chunks_of};
ghost use Rattle.node_pages.specs.Cuts.{cut_of, data_of, most_pages};
ghost use Rattle.node_pages.specs.PageZero.{count_of};
ghost use Rattle.node_pages.specs.Cutting.{IsShort, IsSizedCut, IsStored, finished, header_now, nothing_cut, pages_now, with_entries, with_entry};

use crate::cut::{Cut, Page};
use crate::entry_form::WholeEntries;
use crate::filler::Filler;
use crate::page_start::{PageStart, Starts};
use crate::page_zero::page_zero;
use dewey_labels::{Label, List, NoMemory};
use node_records::{CHUNK_BYTES, Entry, write_record};
use node_seq::{NodeRead, SeqError, Walk};
use std::alloc::Global;
use std::marker::Model;
use tree_model::{Key, Record};

/// The most pages of a checkpoint.
pub const MOST_PAGES: u32 = 32_768;

/// The pages of the entries so far, and their directory.
#[derive(Drop)]
struct Cutter {
    data_pages: Filler<WholeEntries>,
    directory: Filler<Starts>,
}

impl Model for Cutter {
    ghost use Rattle.node_pages.specs.PageZero.{count_of};
    ghost use Rattle.node_pages.specs.Cutting.{Cutting};

    ghost Value = { Cutting };

    ghost view = { λ c. record { data_pages = c.data_pages; directory = c.directory } };
}

/// The pages of a map, page 0 first, with this number as their base; `TooMany` exactly where these would be more than 32,768.
/// One walk over the map, and one encoding of each record. An entry that no valid tree has isn't cut.
pub fn cut_pages<S: NodeRead>(alloc: Global, seq: &mut S, number: u32) -> Result<Cut, SeqError>
    ensures tree { OnTree (S.contents seq.old) result (λ t cut. cut ≡ cut_of number (data_of (map_of t))) }
    // The same of any known map whose entries lie above the root's own key and are ones that a valid tree may have.
    ensures cut { IfOk result (λ cut. (es : Entries) → S.contents seq.old ≡ Some es → AllByRecursion IsStored es → cut ≡ cut_of number (data_of es)) }
    ensures unchanged { S.unchanged seq.old seq.new }
    ensures cause { HasCause DiskFault (S.count seq.old) (S.count seq.new) result }
{
    let label = Label::root(alloc)?;
    let root = Key::of_node(alloc, &label)?;
    let mut cutter = Cutter::new(alloc);
    let mut walk = Walk::above(alloc, &root, seq)?;
    while let Some(entry) = walk.step(alloc, seq)? {
        cutter.put_record(alloc, entry)?;
    }
    Ok(cutter.finish(alloc, number)?)
}

impl Cutter {
    fn new(alloc: Global) -> Cutter
        ensures empty { result ≡ nothing_cut }
        ensures sized { IsSizedCut result }
    {
        Cutter {
            data_pages: Filler::new(alloc, MOST_PAGES),
            directory: Filler::new(alloc, MOST_PAGES),
        }
    }

    /// Puts the chunks of an entry that a valid tree may have.
    fn put_record(&mut self, alloc: Global, entry: (Key, Record)) -> Result<(), NoMemory>
        requires sized { IsSizedCut self.old }
        ensures sized { OnOk result (IsSizedCut self.new) }
        ensures ok { OnOk result (IsValidEntry entry → self.new ≡ with_entries self.old (chunks_of entry)) }
    {
        let (key, record) = entry;
        if !is_valid(&key, &record) {
            return Ok(());
        }
        self.put_chunks(alloc, key, &record)
    }

    /// The same of one that it may have.
    fn put_chunks(&mut self, alloc: Global, key: Key, value: &Record) -> Result<(), NoMemory>
        requires key { IsValidKey key }
        requires fits { IsTrue (record_fits value.now) }
        requires sized { IsSizedCut self.old }
        ensures sized { OnOk result (IsSizedCut self.new) }
        ensures ok { OnOk result (self.new ≡ with_entries self.old (chunks_of (key, value.now))) }
    {
        let mut bytes = List::new(alloc);
        write_record(alloc, value, &mut bytes)?;
        let mut rest = bytes.as_slice();
        let mut chunk = 0;
        while rest.len() > CHUNK_BYTES {
            let (first, behind) = rest.split_at(CHUNK_BYTES);
            let entry = entry_of(alloc, key.copy(alloc)?, chunk, false, first)?;
            self.put(alloc, entry)?;
            chunk += 1;
            rest = behind;
        }
        self.put(alloc, entry_of(alloc, key, chunk, true, rest)?)
    }

    /// Puts an entry on the data pages, and its place in the directory where it begins a page.
    fn put(&mut self, alloc: Global, entry: Entry) -> Result<(), NoMemory>
        requires short { IsShort entry }
        requires sized { IsSizedCut self.old }
        ensures sized { OnOk result (IsSizedCut self.new) }
        ensures ok { OnOk result (self.new ≡ with_entry self.old entry) }
    {
        let is_first = self.data_pages.is_empty();
        let fitted = self.data_pages.put(alloc, entry)?;
        if is_first | !fitted {
            let Some(entry) = self.data_pages.last() else {
                unreachable!()
            };
            let start = PageStart::of(alloc, self.data_pages.pages(), entry)?;
            self.directory.put(alloc, start)?;
        }
        Ok(())
    }

    /// The pages, or how many they would be where they are too many.
    fn finish(self, alloc: Global, number: u32) -> Result<Cut, NoMemory>
        requires sized { IsSizedCut self }
        ensures { IfOk result (λ cut. cut ≡ finished number self) }
    {
        let Some(count) = count_of(self.data_pages.pages(), self.directory.pages()) else {
            return Err(NoMemory);
        };
        if count > MOST_PAGES {
            return Ok(Cut::TooMany { pages: count });
        }
        Ok(Cut::Pages(self.into_pages(alloc, number)?))
    }

    /// The pages, page 0 first.
    fn into_pages(self, alloc: Global, number: u32) -> Result<List<Page>, NoMemory>
        requires sized { IsSizedCut self }
        requires few { count_of (header_now number self) ≤ most_pages }
        ensures { IfOk result (λ pages. pages ≡ pages_now number self) }
    {
        let zero = page_zero(
            alloc,
            number,
            self.data_pages.pages(),
            self.directory.pages(),
        )?;
        let mut pages = Vec::new(alloc);
        pages.push(zero)?;
        pages.append(&mut self.data_pages.finish(alloc)?.into_vec())?;
        pages.append(&mut self.directory.finish(alloc)?.into_vec())?;
        Ok(List::from_vec(pages))
    }
}

/// Whether a valid tree may have the entry.
fn is_valid(key: &Key, record: &Record) -> bool
    ensures { IsTrue result ↔ IsValidEntry (key.now, «record».now) }
{
    key.is_valid() && record.fits()
}

/// How many pages there are, page 0 too; None where four bytes don't hold the number.
fn count_of(data_pages: u32, directory_pages: u32) -> Option<u32>
    ensures { IfSome result (λ count. count ≡ 1 + data_pages + directory_pages) }
{
    data_pages.checked_add(1)?.checked_add(directory_pages)
}

/// A chunk of a record.
fn entry_of(
    alloc: Global,
    key: Key,
    chunk: u16,
    last: bool,
    bytes: &[u8],
) -> Result<Entry, NoMemory>
    ensures { IfOk result (λ entry. entry ≡ entry_at key chunk last bytes.now) }
{
    Ok(Entry {
        key,
        chunk,
        last,
        bytes: List::from_vec(Vec::from_slice(alloc, bytes)?),
    })
}
