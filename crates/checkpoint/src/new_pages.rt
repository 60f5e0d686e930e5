//! The pages that a checkpoint writes: those of a cut that the file doesn't have in their places.
ghost use Rattle.std.specs.Prelude.{◌≡◌, ◌≤◌, ◌++◌, IsTrue, IfOk, OnOk, length, take};
ghost use Rattle.node_pages.specs.Cuts.{most_pages};
ghost use Rattle.node_seq.specs.declared.node_read.SeqError.TheVariants.{DiskFault};
ghost use Rattle.outside_traits.specs.Faults.{HasCause, failed};
ghost use Rattle.checkpoint.specs.NewPages.{has_page, image_unless, new_pages};
ghost use Rattle.checkpoint.specs.inside.Gathered.{AreGathered, AreWhole};

use dewey_labels::{List, NoMemory};
use node_pages::{MOST_PAGES, Page};
use node_seq::SeqError;
use outside_traits::{Disk, Failed};
use page_store::PAGE_BYTES;
use std::alloc::Global;

/// Whether the file, which has so many bytes, has these as its page with this number.
#[tactic(auto, using(crate::proofs::NewPagesLaws::short_differs))]
fn has_page<P: Disk>(
    disk: &mut P,
    count: u64,
    number: u32,
    page: &[u8],
    frame: &mut [u8],
) -> Result<bool, Failed>
    requires count { IsTrue P.is_known → count ≡ length (P.history disk.old).now.reads }
    requires whole { length page.now ≡ 8_192 }
    requires frame { length frame.old ≡ 8_192 }
    ensures answer { IfOk result (λ has. IsTrue P.is_known → has ≡ has_page number page.now (P.history disk.old).now.reads) }
    ensures same { IsTrue P.is_known → P.history disk.new ≡ P.history disk.old }
    ensures cause { HasCause failed (P.faults disk.old) (P.faults disk.new) result }
{
    let at = PAGE_BYTES as u64 * number as u64;
    if count < at + PAGE_BYTES as u64 {
        return Ok(false);
    }
    disk.read_at(at, frame)?;
    Ok(page == frame)
}

/// How many of these pages are whole before the first that isn't, 32,768 at most. Of a cut these are all; of a map that isn't known no call says so.
#[tactic(auto, using(crate::proofs::NewPagesLaws::whole_at, crate::proofs::NewPagesLaws::whole_more))]
pub(crate) fn whole_front(pages: &[Page]) -> usize
    ensures within { result ≤ length pages.now }
    ensures few { result ≤ most_pages }
    ensures whole { AreWhole (take result pages.now) }
    ensures all { AreWhole pages.now → length pages.now ≤ most_pages → result ≡ length pages.now }
{
    let mut count = 0;
    for page in pages {
        if count == MOST_PAGES as usize {
            return count;
        }
        if page.len() != PAGE_BYTES {
            return count;
        }
        count += 1;
    }
    count
}

/// Puts a copy of a page behind the images, but where the file has it.
fn take_page(
    alloc: Global,
    images: &mut List<(u32, List<u8>)>,
    number: u32,
    page: &[u8],
    has: bool,
) -> Result<(), NoMemory>
    ensures { OnOk result (images.new ≡ images.old ++ image_unless has number page.now) }
{
    if has {
        return Ok(());
    }
    let copy = List::from_vec(Vec::from_slice(alloc, page)?);
    images.push((number, copy))
}

/// The pages that the file doesn't have, as images. Each page of the file is read once.
pub(crate) fn new_pages<P: Disk>(
    alloc: Global,
    disk: &mut P,
    cut: List<Page>,
) -> Result<List<(u32, List<u8>)>, SeqError>
    requires few { length cut ≤ most_pages }
    requires whole { AreWhole cut }
    ensures pages { IfOk result (λ images. IsTrue P.is_known → images ≡ new_pages 0 cut (P.history disk.old).now.reads) }
    ensures gathered { IfOk result (λ images. AreGathered most_pages images) }
    ensures same { IsTrue P.is_known → P.history disk.new ≡ P.history disk.old }
    ensures cause { HasCause DiskFault (P.faults disk.old) (P.faults disk.new) result }
{
    let Ok(count) = disk.len() else {
        return Err(SeqError::DiskFault);
    };
    let mut frame = match vec![in alloc; 0; PAGE_BYTES] {
        Ok(frame) => frame,
        Err(_) => return Err(SeqError::NoMemory),
    };
    let mut images = List::new(alloc);
    let mut number = 0;
    for page in cut.as_slice() {
        let Ok(has) = has_page(disk, count, number, page.as_slice(), &mut frame) else {
            return Err(SeqError::DiskFault);
        };
        let Ok(()) = take_page(alloc, &mut images, number, page.as_slice(), has) else {
            return Err(SeqError::NoMemory);
        };
        number += 1;
    }
    Ok(images)
}
