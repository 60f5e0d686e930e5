//! All records of a file, read page after page.
ghost use Rattle.std.specs.Prelude.{◌≡◌, ◌<◌, ◌+◌, ◌^◌, ◌++◌, ◌∷◌, List, length, IsTrue, IfOk, OnOk};
ghost use Rattle.outside_traits.specs.Faults.{HasCause};
ghost use Rattle.tree_model.specs.Entries.{Entries};
ghost use Rattle.page_store.specs.Pages.{page_of};
ghost use Rattle.node_records.specs.Records.{record_of};
ghost use Rattle.node_records.specs.declared.entries.Entry as declared_entry;
ghost use Rattle.node_pages.specs.Chunks.{one_more};
ghost use Rattle.node_pages.specs.EntryForm.{entry_read};
ghost use Rattle.node_pages.specs.PageFiles.{IsIndex};
ghost use Rattle.node_pages.specs.PagesIn.{items_or_none};
ghost use Rattle.node_pages.specs.Reading.{page_in};
ghost use Rattle.node_seq.specs.declared.node_read.SeqError.TheVariants.{DiskFault};
ghost use Rattle.paged_seq.specs.PagedFiles.{ReadsAtMost, disk_page};
ghost use Rattle.paged_seq.specs.PagedMaps.{records_of};
ghost use Rattle.paged_seq.specs.Places.{all_records};

use crate::page_file::PageFile;
use dewey_labels::{List, NoMemory};
use node_pages::{PageStart, WholeEntries, read_items};
use node_records::{Entry, read_record};
use node_seq::SeqError;
use outside_traits::Disk;
use std::alloc::Global;
use tree_model::{Key, Record};

/// Puts the record that these bytes are, if they are one, behind the others.
fn put_record(
    alloc: Global,
    key: Key,
    bytes: &[u8],
    records: &mut List<(Key, Record)>,
) -> Result<(), NoMemory>
    ensures { OnOk result ((more : Entries) → records.new ++ more ≡ records.old ++ one_more key (record_of bytes.now) more) }
{
    if let Some((record, _)) = read_record(alloc, bytes)? {
        records.push((key, record))?;
    }
    Ok(())
}

/// Puts bytes behind those that were read of a record. The first of them are moved.
fn put_chunk(alloc: Global, part: &mut List<u8>, bytes: List<u8>) -> Result<(), NoMemory>
    ensures { OnOk result (part.new ≡ part.old ++ bytes) }
{
    if part.is_empty() {
        *part = bytes;
        return Ok(());
    }
    part.extend_from_slice(alloc, bytes.as_slice())
}

/// Puts an entry's bytes behind those that were read of its record, and the record behind the others where this was its last chunk.
fn take_entry(
    alloc: Global,
    entry: Entry,
    part: &mut List<u8>,
    records: &mut List<(Key, Record)>,
) -> Result<(), NoMemory>
    ensures { OnOk result ((more : List declared_entry.Entry)
        → all_records records.new part.new more ≡ all_records records.old part.old (entry ∷ more)) }
{
    let Entry {
        key,
        last,
        bytes,
        ..
    } = entry;
    put_chunk(alloc, part, bytes)?;
    if last {
        put_record(alloc, key, part.as_slice(), records)?;
        part.truncate(0);
    }
    Ok(())
}

/// Takes entries one after another.
fn take_entries(
    alloc: Global,
    entries: List<Entry>,
    part: &mut List<u8>,
    records: &mut List<(Key, Record)>,
) -> Result<(), NoMemory>
    ensures { OnOk result ((more : List declared_entry.Entry)
        → all_records records.new part.new more
        ≡ all_records records.old part.old (entries ++ more)) }
{
    for entry in entries.into_vec() {
        take_entry(alloc, entry, part, records)?;
    }
    Ok(())
}

/// The entries of a page; none where its bytes are no page's.
fn page_entries<P: Disk + Drop>(
    alloc: Global,
    file: &mut PageFile<P>,
    page: u32,
) -> Result<List<Entry>, SeqError>
    requires within { IsTrue P.is_known → length (page_of page (P.history file.old.disk).now.reads) ≡ 8_192 }
    ensures entries { IfOk result (λ entries. IsTrue P.is_known
        → entries ≡ items_or_none (page_in entry_read (disk_page P.history file.old page))) }
    ensures reads { ReadsAtMost 1 file.old.pool file.new.pool }
    ensures most { file.new.pool.most ≡ file.old.pool.most }
    ensures same { IsTrue P.is_known → P.history file.new.disk ≡ P.history file.old.disk }
    ensures cause { HasCause DiskFault (P.faults file.old.disk) (P.faults file.new.disk) result }
{
    file.fill(alloc, page)?;
    let Some(bytes) = file.frame(page) else {
        unreachable!()
    };
    match read_items::<WholeEntries>(alloc, bytes)? {
        Some(entries) => Ok(entries),
        None => Ok(List::new(alloc)),
    }
}

/// All records of a file whose data pages begin so, in their order. It reads each data page once.
pub(crate) fn read_records<P: Disk + Drop>(
    alloc: Global,
    file: &mut PageFile<P>,
    starts: &[PageStart],
) -> Result<List<(Key, Record)>, SeqError>
    requires few { length starts.now < 2 ^ 32 }
    requires index { IsTrue P.is_known → IsIndex (disk_page P.history file.old) starts.now }
    ensures value { IfOk result (λ all. IsTrue P.is_known
        → all ≡ records_of (disk_page P.history file.old) (length starts.now)) }
    ensures reads { ReadsAtMost (length starts.now) file.old.pool file.new.pool }
    ensures most { file.new.pool.most ≡ file.old.pool.most }
    ensures same { IsTrue P.is_known → P.history file.new.disk ≡ P.history file.old.disk }
    ensures cause { HasCause DiskFault (P.faults file.old.disk) (P.faults file.new.disk) result }
{
    let mut part = List::new(alloc);
    let mut records = List::new(alloc);
    for page in 0..starts.len() as u32 {
        let entries = page_entries(alloc, file, page + 1)?;
        take_entries(alloc, entries, &mut part, &mut records)?;
    }
    Ok(records)
}
