// The pages of a file with images put in, gathered in memory one behind the other, up to the first that isn't whole.
ghost use Rattle.std.specs.Prelude.{◌≡◌, ◌≤◌, ◌<◌, ◌^◌, ◌==◌, ◌++◌, [], length, drop, IsTrue, IfOk, OnOk};
ghost use Rattle.outside_traits.specs.Faults.{HasCause};
ghost use Rattle.page_store.specs.Pages.{page_of};
ghost use Rattle.node_pages.specs.PageZero.{count_of};
ghost use Rattle.node_seq.specs.declared.node_read.SeqError.TheVariants as seq;
ghost use Rattle.recovery.specs.inside.Finishing.{AddsPage, AddsPagesUpTo, ArePages, IsRowOf, TellsWhole, begins_with, if_whole, left_behind};

use dewey_labels::List;
use node_pages::{Header, read_header};
use node_seq::SeqError;
use outside_traits::Disk;
use page_store::PAGE_BYTES;
use std::alloc::Global;

/// The pages so far, and how many images were put in.
#[derive(Drop)]
struct Row {
    bytes: List<u8>,
    next: usize,
}

/// Whether the next of these images is that of a page.
fn is_next(images: &[(u32, List<u8>)], next: usize, page: u64) -> bool
    ensures { result ≡ begins_with page (drop next images.now) }
{
    next < images.len() && u64::from(images[next].0) == page
}

/// Puts a page of a file with so many bytes behind these, where the file has it whole; answers whether it has.
fn push_page<P: Disk>(
    alloc: Global,
    pages: &mut P,
    count: u64,
    page: u64,
    bytes: &mut List<u8>,
    frame: &mut [u8],
) -> Result<bool, SeqError>
    requires count { IsTrue P.is_known → count ≡ length (P.history pages.old).now.reads }
    requires few { page < 2 ^ 34 }
    requires frame { length frame.old ≡ 8_192 }
    ensures has { IfOk result (λ has. IsTrue P.is_known → has ≡ (length (page_of page (P.history pages.old).now.reads) == 8_192)) }
    ensures bytes { OnOk result (IsTrue P.is_known → bytes.new ≡ bytes.old ++ if_whole (page_of page (P.history pages.old).now.reads)) }
    ensures same { IsTrue P.is_known → P.history pages.new ≡ P.history pages.old }
    ensures cause { HasCause seq.DiskFault (P.faults pages.old) (P.faults pages.new) result }
{
    let at = PAGE_BYTES as u64 * page;
    if count < at + PAGE_BYTES as u64 {
        return Ok(false);
    }
    let Ok(()) = pages.read_at(at, frame) else {
        return Err(SeqError::DiskFault);
    };
    let Ok(()) = bytes.extend_from_slice(alloc, frame) else {
        return Err(SeqError::NoMemory);
    };
    Ok(true)
}

/// The same of a file with these images put in, of which those before `next` stand at earlier pages.
fn take_page<P: Disk>(
    alloc: Global,
    pages: &mut P,
    count: u64,
    images: &[(u32, List<u8>)],
    page: u64,
    row: &mut Row,
    frame: &mut [u8],
) -> Result<bool, SeqError>
    requires count { IsTrue P.is_known → count ≡ length (P.history pages.old).now.reads }
    requires few { page < 2 ^ 34 }
    requires frame { length frame.old ≡ 8_192 }
    ensures has { IfOk result (λ has. TellsWhole P.is_known page (drop row.old.next images.now)
        (P.history pages.old).now.reads has) }
    ensures bytes { OnOk result (AddsPage P.is_known page (drop row.old.next images.now)
        (P.history pages.old).now.reads row.old.bytes row.new.bytes) }
    ensures left { OnOk result (drop row.new.next images.now ≡ left_behind page (drop row.old.next images.now)) }
    ensures same { IsTrue P.is_known → P.history pages.new ≡ P.history pages.old }
    ensures cause { HasCause seq.DiskFault (P.faults pages.old) (P.faults pages.new) result }
{
    let begins = is_next(images, row.next, page);
    if begins {
        let at = row.next;
        let Ok(()) = row.bytes.extend_from_slice(alloc, images[at].1.as_slice()) else {
            return Err(SeqError::NoMemory);
        };
        row.next = at + 1;
        return Ok(true);
    }
    push_page(alloc, pages, count, page, &mut row.bytes, frame)
}

/// How many pages there are, page 0 too: fewer than twice what four bytes count.
fn counted(header: &Header) -> u64
    ensures count { result ≡ count_of header.now }
    ensures few { result < 2 ^ 34 }
{
    1 + u64::from(header.data_pages) + u64::from(header.directory_pages)
}

/// Takes the pages from 1 on, up to this one, until one isn't whole.
fn take_pages<P: Disk>(
    alloc: Global,
    pages: &mut P,
    count: u64,
    images: &[(u32, List<u8>)],
    end: u64,
    row: &mut Row,
    frame: &mut [u8],
) -> Result<(), SeqError>
    requires count { IsTrue P.is_known → count ≡ length (P.history pages.old).now.reads }
    requires few { end < 2 ^ 34 }
    requires frame { length frame.old ≡ 8_192 }
    ensures bytes { OnOk result (AddsPagesUpTo end P.is_known (drop row.old.next images.now)
        (P.history pages.old).now.reads row.old.bytes row.new.bytes) }
    ensures same { IsTrue P.is_known → P.history pages.new ≡ P.history pages.old }
    ensures cause { HasCause seq.DiskFault (P.faults pages.old) (P.faults pages.new) result }
{
    for page in 1..end {
        let taken = match take_page(alloc, pages, count, images, page, row, frame) {
            Ok(taken) => taken,
            Err(fault) => return Err(fault),
        };
        let is_last = !taken;
        if is_last {
            return Ok(());
        }
    }
    Ok(())
}

/// What page 0 of a file with these images put in says, and the bytes of the pages that it counts, up to the first that isn't whole;
/// None where page 0 breaks a rule. Each page of the file is read once.
pub fn pages_among<P: Disk>(
    alloc: Global,
    pages: &mut P,
    images: &[(u32, List<u8>)],
) -> Result<Option<(Header, List<u8>)>, SeqError>
    ensures found { IfOk result (λ found. IsTrue P.is_known → ArePages images.now → IsRowOf (P.history pages.old).now.reads images.now found) }
    ensures same { IsTrue P.is_known → P.history pages.new ≡ P.history pages.old }
    ensures cause { HasCause seq.DiskFault (P.faults pages.old) (P.faults pages.new) result }
{
    let Ok(count) = pages.len() else {
        return Err(SeqError::DiskFault);
    };
    let mut frame = match vec![in alloc; 0; PAGE_BYTES] {
        Ok(frame) => frame,
        Err(_) => return Err(SeqError::NoMemory),
    };
    let mut row = Row {
        bytes: List::new(alloc),
        next: 0,
    };
    let buffer = frame.as_mut_slice();
    let _whole = match take_page(alloc, pages, count, images, 0, &mut row, buffer) {
        Ok(whole) => whole,
        Err(fault) => return Err(fault),
    };
    let zero = read_header(row.bytes.as_slice());
    match zero {
        None => Ok(None),
        Some(header) => {
            let end = counted(&header);
            match take_pages(alloc, pages, count, images, end, &mut row, buffer) {
                Ok(()) => Ok(Some((header, row.bytes))),
                Err(fault) => Err(fault),
            }
        }
    }
}
