// What the first page of a page file tells, where other pages break a rule.
ghost use Rattle.std.specs.Prelude.{◌≡◌, ◌≤◌, IsTrue, IfOk, IfErr, OnOk};
ghost use Rattle.outside_traits.specs.Faults.{FaultCounted};
ghost use Rattle.page_store.specs.declared.page_error.PageError.TheVariants as page;
ghost use Rattle.journal.specs.Refusals.{HasReason, UnlessFault};
ghost use Rattle.store_contents.specs.Contents.{base_of, base_told};
ghost use Rattle.node_pages.specs.PageZero.{header_in};

use crate::counting::told;
use node_pages::read_header;
use node_records::OpenError;
use outside_traits::Disk;
use page_store::{PAGE_BYTES, PageError, Pool};
use std::alloc::Global;

/// The number of the last commit that the pages hold; None where page 0 breaks a rule. It reads page 0.
pub fn base_in<P: Disk>(alloc: Global, pages: &mut P) -> Result<Option<u32>, OpenError>
    ensures base { IfOk result (λ base. IsTrue P.is_known → base ≡ base_of (P.history pages.old).now.reads) }
    ensures same { IsTrue P.is_known → P.history pages.new ≡ P.history pages.old }
    ensures reason { IfErr result (HasReason (λ _. ⊥) (FaultCounted (P.faults pages.old) (P.faults pages.new))) }
    ensures exact { OnOk result (P.faults pages.new ≡ P.faults pages.old) }
    ensures uncounted { IfErr result (λ fault. UnlessFault fault (P.faults pages.new ≡ P.faults pages.old)) }
    ensures later { P.faults pages.old ≤ P.faults pages.new }
{
    let before = pages.faults();
    let count = pages.len()?;
    if count == 0 {
        return Ok(Some(0));
    }
    if count < PAGE_BYTES as u64 {
        return Ok(None);
    }
    let mut pool = Pool::new(alloc, 1)?;
    match pool.read_page(alloc, pages, 0) {
        Ok(bytes) => Ok(base_told(bytes)),
        Err(fault) => Err(told(fault_of(fault), before, pages.faults())),
    }
}

/// Why a page couldn't be read, as an opening says it.
fn fault_of(fault: PageError) -> OpenError
    ensures { HasReason (λ _. ⊥) (fault ≡ page.DiskFault) result }
{
    match fault {
        PageError::DiskFault => OpenError::DiskFault,
        PageError::NoMemory => OpenError::NoMemory,
    }
}

/// The base that these bytes of page 0 tell.
fn base_told(bytes: &[u8]) -> Option<u32>
    ensures { result ≡ base_told (header_in bytes.now) }
{
    match read_header(bytes) {
        Some(header) => Some(header.base),
        None => None,
    }
}
