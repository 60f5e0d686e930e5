//! Where each data page begins, as a directory has it.
ghost use Rattle.std.specs.Prelude.{◌≡◌, IfOk};
ghost use Rattle.node_pages.specs.PageStarts.{start_of};

use crate::page_form::PageWrite;
use byteorder::{BigEndian, ByteOrder};
use dewey_labels::{List, NoMemory};
use node_records::{Entry, write_key};
use std::alloc::Global;
use tree_model::Key;

/// The first entry of a data page.
#[derive(Debug, Drop)]
pub struct PageStart {
    pub key: Key,
    /// Which chunk of the record at the key it is.
    pub chunk: u16,
    /// The number of the page.
    pub page: u32,
}

impl PageStart {
    /// The page with this number begins with this entry.
    pub fn of(alloc: Global, page: u32, entry: &Entry) -> Result<PageStart, NoMemory>
        ensures { IfOk result (λ start. start ≡ start_of page entry.now) }
    {
        Ok(PageStart {
            key: entry.key.copy(alloc)?,
            chunk: entry.chunk,
            page,
        })
    }

    pub fn copy(&self, alloc: Global) -> Result<PageStart, NoMemory>
        ensures { IfOk result (λ start. start ≡ self.now) }
    {
        Ok(PageStart {
            key: self.key.copy(alloc)?,
            chunk: self.chunk,
            page: self.page,
        })
    }
}

/// The starts of data pages, each whole.
pub struct Starts;

impl PageWrite for Starts {
    ghost use Rattle.node_pages.specs.PageStarts.{start_behind};
    ghost use Rattle.node_pages.specs.Lengths.{some_start};

    type Item = PageStart;

    ghost item_bytes = { start_behind };

    fn write(
        alloc: Global,
        item: &PageStart,
        _before: &Option<PageStart>,
        out: &mut List<u8>,
    ) -> Result<(), NoMemory> {
        write_key(alloc, &item.key, out)?;
        let mut chunk = [0; 2];
        BigEndian::write_u16(&mut chunk, item.chunk);
        out.extend_from_slice(alloc, &chunk)?;
        let mut page = [0; 4];
        BigEndian::write_u32(&mut page, item.page);
        out.extend_from_slice(alloc, &page)?;
        Ok(())
    }

    ghost some = { λ before s. some_start s };
}
