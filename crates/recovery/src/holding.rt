// The pages of a store, opened.
ghost use Rattle.std.specs.Prelude.{◌≡◌, ◌≤◌, IsTrue, IfOk, IfErr, MatchResult};
ghost use Rattle.page_store.specs.Pages.{ArePagesOf};
ghost use Rattle.journal.specs.Refusals.{HasReason, UnlessFault};
ghost use Rattle.node_seq.specs.declared.node_read.SeqError.TheVariants as seq;
ghost use Rattle.paged_seq.specs.PagedFiles.{BreaksPages};
ghost use Rattle.recovery.specs.inside.Counts.{CountRose};
ghost use Rattle.recovery.specs.inside.Walking.{PagesHaveBase};

use crate::counting::told;
use node_records::OpenError;
use node_seq::SeqError;
use outside_traits::Disk;
use page_store::Pool;
use paged_seq::{PagedSeq, PagesFault};
use std::alloc::Global;

/// Pages that weren't opened: why, and the disk.
#[derive(Drop)]
pub struct Unheld<P: Disk + Drop> {
    pub fault: OpenError,
    pub disk: P,
}

/// Opens the pages, each of which is read once.
pub fn hold<P: Disk + Drop>(alloc: Global, pages: P, pool: Pool) -> Result<PagedSeq<P>, Unheld<P>>
    requires kept { IsTrue P.is_known → ArePagesOf (P.history pages).now.reads pool.kept }
    ensures held { IfOk result (λ seq. IsTrue P.is_known
        → PagesHaveBase (P.history pages).now.reads seq.index.base) }
    ensures most { IfOk result (λ seq. seq.pool.most ≡ pool.most) }
    ensures reason { IfErr result (λ refused. HasReason
        (BreaksPages P.is_known (P.history pages).now.reads)
        (CountRose P.Disk pages refused.disk) refused.fault) }
    ensures same { IsTrue P.is_known → MatchResult result (λ seq. P.history seq.disk ≡ P.history pages) (λ refused. P.history refused.disk ≡ P.history pages) }
    ensures exact { IfOk result (λ seq. P.faults seq.disk ≡ P.faults pages) }
    ensures uncounted { IfErr result (λ refused. UnlessFault refused.fault (P.faults refused.disk ≡ P.faults pages)) }
    ensures later { IfErr result (λ refused. P.faults pages ≤ P.faults refused.disk) }
{
    let before = pages.faults();
    match PagedSeq::open(alloc, pages, pool) {
        Ok(seq) => Ok(seq),
        Err(refused) => {
            let PagesFault { fault, disk, .. } = refused;
            let fault = told(fault, before, disk.faults());
            Err(Unheld { fault, disk })
        }
    }
}

/// Why records couldn't be read, as an opening says it.
pub fn fault_of(fault: SeqError) -> OpenError
    ensures { HasReason (λ _. ⊥) (fault ≡ seq.DiskFault) result }
{
    match fault {
        SeqError::DiskFault => OpenError::DiskFault,
        SeqError::NoMemory => OpenError::NoMemory,
    }
}
