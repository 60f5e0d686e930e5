//! Entries on pages, each as it is whatever stands before it.
use crate::page_form::{PageRead, PageWrite};
use dewey_labels::{List, NoMemory};
use node_records::{Entry, read_entry, write_entry};
use std::alloc::Global;

/// Entries, each whole.
pub struct WholeEntries;

impl PageWrite for WholeEntries {
    ghost use Rattle.node_pages.specs.EntryForm.{entry_behind};
    ghost use Rattle.node_pages.specs.Lengths.{some_entry};

    type Item = Entry;

    ghost item_bytes = { entry_behind };

    fn write(
        alloc: Global,
        item: &Entry,
        _before: &Option<Entry>,
        out: &mut List<u8>,
    ) -> Result<(), NoMemory> {
        write_entry(alloc, item, out)
    }

    ghost some = { λ before e. some_entry e };
}

impl PageRead for WholeEntries {
    ghost use Rattle.node_pages.specs.EntryForm.{entry_read};

    type Item = Entry;

    ghost item_in = { entry_read };

    fn read(
        alloc: Global,
        bytes: &[u8],
        _before: &Option<Entry>,
    ) -> Result<Option<(Entry, usize)>, NoMemory> {
        read_entry(alloc, bytes)
    }
}
