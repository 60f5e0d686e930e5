//! Opening a file of pages: each page is read at most once, and the first that breaks a rule is found.
ghost use Rattle.std.specs.Prelude.{◌≡◌, ◌<◌, ◌+◌, ◌*◌, ◌^◌, ℕ, List, [], length, Some, Ok, IsTrue, IfOk, IfErr, OnOk};
ghost use Rattle.outside_traits.specs.Faults.{HasCause};
ghost use Rattle.node_records.specs.declared.open_error.OpenError.TheVariants.{Damaged, DiskFault, NoMemory};
ghost use Rattle.node_seq.specs.declared.node_read.SeqError.TheVariants as seq;
ghost use Rattle.node_pages.specs.declared.scan_fault.ScanFault.TheVariants.{Broken};
ghost use Rattle.node_pages.specs.PageFiles.{index_of_file};
ghost use Rattle.node_pages.specs.PageZero.{header_in};
ghost use Rattle.node_pages.specs.PagesIn.{after_pages, starts_in};
ghost use Rattle.page_store.specs.Pages.{page_of};
ghost use Rattle.paged_seq.specs.PagedFiles.{HasPageReason, HasReason, HasReasonOn, IsPageWith, LacksHeader, ReadsAtMost, ReadsWhole, ReadsWholeFrom};
ghost use Rattle.paged_seq.specs.PagedFiles.{disk_page, index_at, page_place, whole_below, whole_count};

use crate::page_file::PageFile;
use dewey_labels::List;
use node_pages::{Header, PagePass, PageStart, Scan, ScanFault, read_header};
use node_records::{File, OpenError};
use node_seq::SeqError;
use outside_traits::{Disk, Failed};
use page_store::{PAGE_BYTES, Pool};
use std::alloc::Global;

/// A map that wasn't opened: why, and the disk and the pool.
#[derive(Drop)]
pub struct PagesFault<P: Disk + Drop> {
    pub fault: OpenError,
    pub disk: P,
    pub pool: Pool,
}

/// The page with this number is the first that breaks a rule.
fn broken(page: u32) -> OpenError
    ensures { result ≡ Damaged (page_place page) }
{
    OpenError::at(File::Pages, PAGE_BYTES as u64 * page as u64)
}

/// Why a scan ended.
fn scan_fault(fault: ScanFault) -> OpenError
    ensures { HasReason (IsPageWith (λ n. fault ≡ Broken n)) ⊥ result }
{
    match fault {
        ScanFault::Broken(page) => broken(page),
        ScanFault::NoMemory => OpenError::NoMemory,
    }
}

/// The bytes of a page, fewer than 8,192 where the file ends before it does.
fn page_bytes<P: Disk + Drop>(
    alloc: Global,
    file: &mut PageFile<P>,
    count: u64,
    page: u32,
) -> Result<Vec<u8>, SeqError>
    requires count { IsTrue P.is_known → count ≡ length (P.history file.old.disk).now.reads }
    ensures bytes { IfOk result (λ bytes. IsTrue P.is_known → bytes.items ≡ page_of page (P.history file.old.disk).now.reads) }
    ensures reads { IsTrue P.is_known
        → ReadsWhole (P.history file.old.disk).now.reads page (page + 1)
        file.old.pool file.new.pool }
    ensures most { file.new.pool.most ≡ file.old.pool.most }
    ensures same { IsTrue P.is_known → P.history file.new.disk ≡ P.history file.old.disk }
    ensures cause { HasCause seq.DiskFault (P.faults file.old.disk) (P.faults file.new.disk) result }
{
    let at = PAGE_BYTES as u64 * page as u64;
    if count <= at {
        return Ok(Vec::new(alloc));
    }
    let left = count - at;
    if left < PAGE_BYTES as u64 {
        let bytes = file.tail(alloc, at, left as usize)?;
        return Ok(bytes);
    }
    file.fill(alloc, page)?;
    let Some(bytes) = file.frame(page) else {
        unreachable!()
    };
    Ok(Vec::from_slice(alloc, bytes)?)
}

/// Takes a page of the file.
fn take_page<P: Disk + Drop, T: PagePass>(
    alloc: Global,
    file: &mut PageFile<P>,
    count: u64,
    pass: &mut T,
    page: u32,
) -> Result<(), OpenError>
    requires count { IsTrue P.is_known → count ≡ length (P.history file.old.disk).now.reads }
    ensures ok { OnOk result
        (IsTrue P.is_known → T.after pass.old (disk_page P.history file.old page) ≡ Ok pass.new) }
    ensures reason { IfErr result
        (HasPageReason P.is_known (T.after pass.old (disk_page P.history file.old page))
        P.faults file.old file.new) }
    ensures reads { IsTrue P.is_known
        → ReadsWhole (P.history file.old.disk).now.reads page (page + 1)
        file.old.pool file.new.pool }
    ensures most { file.new.pool.most ≡ file.old.pool.most }
    ensures same { IsTrue P.is_known → P.history file.new.disk ≡ P.history file.old.disk }
    ensures cause { HasCause DiskFault (P.faults file.old.disk) (P.faults file.new.disk) result }
{
    let bytes = match page_bytes(alloc, file, count, page) {
        Ok(bytes) => bytes,
        Err(SeqError::DiskFault) => return Err(OpenError::DiskFault),
        Err(SeqError::NoMemory) => return Err(OpenError::NoMemory),
    };
    match pass.take(alloc, &bytes) {
        Ok(()) => Ok(()),
        Err(fault) => Err(scan_fault(fault)),
    }
}

/// Takes so many pages of the file, from this one on.
fn take_pages<P: Disk + Drop, T: PagePass>(
    alloc: Global,
    file: &mut PageFile<P>,
    count: u64,
    pass: &mut T,
    first: u32,
    pages: u32,
) -> Result<(), OpenError>
    requires count { IsTrue P.is_known → count ≡ length (P.history file.old.disk).now.reads }
    requires few { first + pages < 2 ^ 32 }
    ensures ok { OnOk result (IsTrue P.is_known
        → after_pages T.after (disk_page P.history file.old) first pages pass.old ≡ Ok pass.new) }
    ensures reason { IfErr result (HasPageReason P.is_known
        (after_pages T.after (disk_page P.history file.old) first pages pass.old)
        P.faults file.old file.new) }
    ensures reads { IsTrue P.is_known
        → ReadsWhole (P.history file.old.disk).now.reads first (first + pages)
        file.old.pool file.new.pool }
    ensures most { file.new.pool.most ≡ file.old.pool.most }
    ensures same { IsTrue P.is_known → P.history file.new.disk ≡ P.history file.old.disk }
    ensures cause { HasCause DiskFault (P.faults file.old.disk) (P.faults file.new.disk) result }
{
    for page in first..first + pages {
        take_page(alloc, file, count, pass, page)?;
    }
    Ok(())
}

/// What page 0 of a file that has some bytes says.
fn read_zero<P: Disk + Drop>(
    alloc: Global,
    file: &mut PageFile<P>,
    count: u64,
) -> Result<Header, OpenError>
    requires count { IsTrue P.is_known → count ≡ length (P.history file.old.disk).now.reads }
    ensures header { IfOk result
        (λ h. IsTrue P.is_known → header_in (disk_page P.history file.old 0) ≡ Some h) }
    ensures reason { IfErr result
        (HasReasonOn (LacksHeader P.is_known (P.history file.old.disk).now.reads)
        P.faults file.old.disk file.new.disk) }
    ensures reads { IsTrue P.is_known
        → ReadsAtMost (whole_below 1 (P.history file.old.disk).now.reads)
        file.old.pool file.new.pool }
    ensures most { file.new.pool.most ≡ file.old.pool.most }
    ensures same { IsTrue P.is_known → P.history file.new.disk ≡ P.history file.old.disk }
    ensures cause { HasCause DiskFault (P.faults file.old.disk) (P.faults file.new.disk) result }
{
    let bytes = match page_bytes(alloc, file, count, 0) {
        Ok(bytes) => bytes,
        Err(SeqError::DiskFault) => return Err(OpenError::DiskFault),
        Err(SeqError::NoMemory) => return Err(OpenError::NoMemory),
    };
    match read_header(&bytes) {
        Some(header) => Ok(header),
        None => Err(broken(0)),
    }
}

/// Where the data pages of a file with this header begin.
fn read_starts<P: Disk + Drop>(
    alloc: Global,
    file: &mut PageFile<P>,
    count: u64,
    header: &Header,
) -> Result<List<PageStart>, OpenError>
    requires count { IsTrue P.is_known → count ≡ length (P.history file.old.disk).now.reads }
    ensures starts { IfOk result (λ starts. IsTrue P.is_known
        → starts_in (disk_page P.history file.old) header.now ≡ Ok starts) }
    ensures few { IfOk result (λ starts. length starts < 2 ^ 32) }
    ensures reason { IfErr result
        (HasPageReason P.is_known (starts_in (disk_page P.history file.old) header.now)
        P.faults file.old file.new) }
    ensures reads { IsTrue P.is_known
        → ReadsWholeFrom (P.history file.old.disk).now.reads 1 file.old.pool file.new.pool }
    ensures most { file.new.pool.most ≡ file.old.pool.most }
    ensures same { IsTrue P.is_known → P.history file.new.disk ≡ P.history file.old.disk }
    ensures cause { HasCause DiskFault (P.faults file.old.disk) (P.faults file.new.disk) result }
{
    if header.count() > u32::MAX as u64 {
        return Err(OpenError::NoMemory);
    }
    let mut scan = Scan::new(alloc);
    take_pages(alloc, file, count, &mut scan, 1, header.data_pages)?;
    let mut directory = match scan.directory(alloc) {
        Ok(directory) => directory,
        Err(fault) => return Err(scan_fault(fault)),
    };
    let first = 1 + header.data_pages;
    take_pages(
        alloc,
        file,
        count,
        &mut directory,
        first,
        header.directory_pages,
    )?;
    match directory.finish() {
        Ok(starts) => few(starts),
        Err(page) => Err(broken(page)),
    }
}

/// The starts, unless they are more than a number of four bytes counts.
fn few(starts: List<PageStart>) -> Result<List<PageStart>, OpenError>
    ensures starts { IfOk result (λ same. same ≡ starts) }
    ensures few { IfOk result (λ same. length same < 2 ^ 32) }
    ensures reason { IfErr result (λ fault. fault ≡ NoMemory) }
{
    if starts.len() > u32::MAX as usize {
        return Err(OpenError::NoMemory);
    }
    Ok(starts)
}

/// The base of a file and where its data pages begin. It reads each page at most once.
pub(crate) fn read_index<P: Disk + Drop>(
    alloc: Global,
    file: &mut PageFile<P>,
) -> Result<(u32, List<PageStart>), OpenError>
    ensures index { IfOk result (λ i. IsTrue P.is_known
        → index_of_file (P.history file.old.disk).now.reads ≡ Ok (index_at i.0 i.1)) }
    ensures few { IfOk result (λ i. length i.1 < 2 ^ 32) }
    ensures reason { IfErr result
        (HasPageReason P.is_known (index_of_file (P.history file.old.disk).now.reads)
        P.faults file.old file.new) }
    ensures reads { IsTrue P.is_known
        → ReadsAtMost (whole_count (P.history file.old.disk).now.reads)
        file.old.pool file.new.pool }
    ensures most { file.new.pool.most ≡ file.old.pool.most }
    ensures same { IsTrue P.is_known → P.history file.new.disk ≡ P.history file.old.disk }
    ensures cause { HasCause DiskFault (P.faults file.old.disk) (P.faults file.new.disk) result }
{
    let count = match file.len() {
        Ok(count) => count,
        Err(Failed) => return Err(OpenError::DiskFault),
    };
    if count == 0 {
        return Ok((0, List::new(alloc)));
    }
    let header = read_zero(alloc, file, count)?;
    let starts = read_starts(alloc, file, count, &header)?;
    Ok((header.base, starts))
}
