//! Pages that are filled with items, one after another.
ghost use Rattle.std.specs.Prelude.{◌≡◌, ◌≤◌, ◌<◌, ◌+◌, ◌^◌, ◌==◌, Some, None, IfOk, OnOk, length};
ghost use Rattle.byteorder.specs.Endian.{big_bytes};
ghost use Rattle.node_pages.specs.Filling.{IsSized, all_pages, emptied, fits, no_items, page_count, page_with, with_item};

use crate::page_form::{PAGE_BYTES, PageWrite};
use byteorder::{BigEndian, ByteOrder};
use dewey_labels::{List, NoMemory};
use std::alloc::Global;
use std::marker::Model;

/// How many bytes of a page are for its items.
pub(crate) const ROOM: usize = 8_190;

/// How many pages may be full, so that a number of four bytes counts the open one, too. Beyond it memory is wanting.
const MOST_FULL: u32 = u32::MAX - 1;

/// Pages that are filled with items, one after another, each with as many as fit.
/// Their bytes are kept as long as at most so many are full; beyond that they are counted.
#[derive(Drop)]
pub struct Filler<F: PageWrite>
where
    F::Item: Drop,
{
    most: u32,
    pages: u32,
    full: List<List<u8>>,
    count: u16,
    on_page: List<u8>,
    last: Option<F::Item>,
}

impl<F: PageWrite> Model for Filler<F>
where
    F::Item: Drop,
{
    ghost use Rattle.node_pages.specs.Filling.{Fill};

    ghost Value = { Fill F.Item };

    ghost view = { λ f. record { most = f.most; pages = f.pages; full = f.full; count = f.count; bytes = f.on_page; last = f.last } };
}

/// The count of a page's items, in two bytes.
fn head(count: u16) -> [u8; 2]
    ensures bytes { result ≡ big_bytes 2 count }
    ensures two { length (big_bytes 2 count) ≡ 2 }
{
    let mut head = [0; 2];
    BigEndian::write_u16(&mut head, count);
    head
}

/// A page with so many items, whose bytes these are.
#[tactic(auto, unfolding(crate::specs::Filling::page_with))]
fn page_of(alloc: Global, count: u16, items: &[u8]) -> Result<List<u8>, NoMemory>
    requires room { length items.now ≤ 8_190 }
    ensures { IfOk result (λ page. page ≡ page_with count items.now) }
{
    let head = head(count);
    let mut page = Vec::with_capacity(alloc, PAGE_BYTES)?;
    page.extend_from_slice(&head)?;
    page.extend_from_slice(items)?;
    page.resize(PAGE_BYTES, 0)?;
    Ok(List::from_vec(page))
}

impl<F: PageWrite> Filler<F>
where
    F::Item: Drop,
{
    /// No page yet, and room for so many full ones. It takes no memory.
    pub fn new(alloc: Global, most: u32) -> Filler<F>
        ensures empty { result ≡ no_items most }
        ensures sized { IsSized result }
    {
        Filler {
            most,
            pages: 0,
            full: List::new(alloc),
            count: 0,
            on_page: List::new(alloc),
            last: None,
        }
    }

    /// Puts an item on the open page, or on a new one where it doesn't fit. The answer says whether it fitted.
    pub fn put(&mut self, alloc: Global, item: F::Item) -> Result<bool, NoMemory>
        requires room { length (F.item_bytes None item) ≤ 8_190 }
        requires sized { IsSized self.old }
        ensures sized { OnOk result (IsSized self.new) }
        ensures ok { OnOk result (self.new ≡ with_item F.item_bytes self.old item) }
        ensures last { OnOk result (self.new.last ≡ Some item) }
        ensures fitted { IfOk result (λ fitted. fitted ≡ fits F.item_bytes (length self.old.bytes) self.old.last item) }
    {
        let used = self.on_page.len();
        F::write(alloc, &item, &self.last, &mut self.on_page)?;
        let fitted = self.on_page.len() <= ROOM;
        if !fitted {
            self.on_page.truncate(used);
            self.close(alloc)?;
            F::write(alloc, &item, &None, &mut self.on_page)?;
        }
        self.count += 1;
        self.last = Some(item);
        Ok(fitted)
    }

    /// The open page is full, and the next one has no item yet.
    fn close(&mut self, alloc: Global) -> Result<(), NoMemory>
        requires sized { IsSized self.old }
        ensures emptied { OnOk result (self.new ≡ emptied self.old) }
        ensures few { OnOk result (self.new.pages + 1 < 2 ^ 32) }
    {
        if self.pages >= MOST_FULL {
            return Err(NoMemory);
        }
        if self.pages < self.most {
            self.full
                .push(page_of(alloc, self.count, self.on_page.as_slice())?)?;
        } else {
            self.full = List::new(alloc);
        }
        self.pages += 1;
        self.on_page.truncate(0);
        self.count = 0;
        Ok(())
    }

    /// Whether no item was put yet.
    pub fn is_empty(&self) -> bool
        ensures { result ≡ (self.now.count == 0) }
    {
        self.count == 0
    }

    /// How many pages there are, the open one too.
    pub fn pages(&self) -> u32
        requires sized { IsSized self.now }
        ensures { result ≡ page_count self.now }
    {
        if self.count > 0 {
            self.pages + 1
        } else {
            self.pages
        }
    }

    /// The item that was put last.
    pub fn last(&self) -> &Option<F::Item>
        ensures { result.now ≡ self.now.last }
    {
        &self.last
    }

    /// The pages, the open one too.
    pub fn finish(mut self, alloc: Global) -> Result<List<List<u8>>, NoMemory>
        requires sized { IsSized self }
        ensures { IfOk result (λ pages. pages ≡ all_pages self) }
    {
        if self.count > 0 {
            self.full
                .push(page_of(alloc, self.count, self.on_page.as_slice())?)?;
        }
        Ok(self.full)
    }
}
