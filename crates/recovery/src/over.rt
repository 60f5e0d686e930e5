// The journal is opened over pages that were read, the files being synced.
ghost use Rattle.std.specs.Prelude.{◌≡◌, ◌⊎◌, [], IsTrue, IfOk, IfErr, MatchResult};
ghost use Rattle.outside_traits.specs.Moments.{IsAllSynced};
ghost use Rattle.node_records.specs.declared.open_error.OpenError.TheVariants as errors;
ghost use Rattle.journal.specs.Journals.{is_fresh};
ghost use Rattle.journal.specs.Refusals.{HasReason, UnlessFault};
ghost use Rattle.paged_seq.specs.PagedFiles.{BreaksPages};
ghost use Rattle.store_contents.specs.StoredTrees.{LeaveWhatStood};
ghost use Rattle.recovery.specs.Causes.{CountsNone, CountsOnlyAtFault, HasReasonIn};
ghost use Rattle.recovery.specs.Openings.{AreOpened, KnownFilesHaveAfter, IsTreesMap, KeepsBothFiles, TakesBehind, files_on, files_opened, map_opened};
ghost use Rattle.recovery.specs.inside.Over.{HasFilesMap, IsRefused, OneRoseIn, RefusedAt};
ghost use Rattle.recovery.specs.inside.Walking.{PagesHaveBase};

use crate::behind::{Followed, look_at_journal, open_behind};
use crate::fault::StoreFault;
use crate::holding::{Unheld, hold};
use crate::opening::Opened;
use crate::page_zero::base_in;
use journal::OpenFault;
use node_records::{OpenError, Place};
use outside_traits::Disk;
use page_store::Pool;
use paged_seq::PagedSeq;
use std::alloc::Global;

/// Opens a store whose files are synced. The clauses say what those of `open_store` do, from the synced files on.
pub fn open_synced<J: Disk, P: Disk + Drop>(
    alloc: Global,
    journal: J,
    pages: P,
    pool: Pool,
    fresh: bool,
) -> Result<Opened<J, P>, StoreFault<J, P>>
    requires journal { IsTrue J.is_known → IsAllSynced (J.history journal) }
    requires pages { IsTrue P.is_known → IsAllSynced (P.history pages) }
    requires fresh { IsTrue J.is_known → fresh ≡ is_fresh (J.history journal).now.reads }
    requires empty { pool.kept ≡ [] }
    ensures opens { IfOk result (λ store. HasFilesMap J.Disk P.Disk journal pages store) }
    ensures tree { IfOk result (λ store. IsTreesMap (map_opened P.Disk store)) }
    ensures most { IfOk result (λ store. store.base.pool.most ≡ pool.most) }
    ensures synced { IfOk result (λ store. AreOpened J.is_known P.is_known
        (files_on J.Disk P.Disk journal pages) (files_opened P.Disk store)) }
    ensures next { IfOk result (λ store. TakesBehind store.journal store.number) }
    ensures any_moment { KnownFilesHaveAfter LeaveWhatStood LeaveWhatStood
        (files_opened P.Disk) J.Disk P.Disk journal pages result }
    ensures reason { IfErr result (λ refused. HasReasonIn IsRefused
        J.Disk P.Disk journal pages refused) }
    ensures kept { IfErr result (λ refused. UnlessFault refused.fault
        (KeepsBothFiles J.Disk P.Disk journal pages refused)) }
    ensures counts { MatchResult result (CountsNone J.Disk P.Disk journal pages)
        (CountsOnlyAtFault J.Disk P.Disk journal pages) }
{
    match hold(alloc, pages, pool) {
        Ok(seq) => open_over(alloc, journal, seq, fresh),
        Err(Unheld { fault, disk }) => Err(refuse(alloc, journal, disk, fault, fresh)),
    }
}

/// Opens the journal over pages that break no rule of theirs. The clauses are those of `open_synced`.
fn open_over<J: Disk, P: Disk + Drop>(
    alloc: Global,
    journal: J,
    seq: PagedSeq<P>,
    fresh: bool,
) -> Result<Opened<J, P>, StoreFault<J, P>>
    requires journal { IsTrue J.is_known → IsAllSynced (J.history journal) }
    requires pages { IsTrue P.is_known → IsAllSynced (P.history seq.disk) }
    requires fresh { IsTrue J.is_known → fresh ≡ is_fresh (J.history journal).now.reads }
    requires held { IsTrue P.is_known
        → PagesHaveBase (P.history seq.disk).now.reads seq.index.base }
    ensures opens { IfOk result (λ store. HasFilesMap J.Disk P.Disk journal seq.disk store) }
    ensures tree { IfOk result (λ store. IsTreesMap (map_opened P.Disk store)) }
    ensures most { IfOk result (λ store. store.base.pool.most ≡ seq.pool.most) }
    ensures synced { IfOk result (λ store. AreOpened J.is_known P.is_known
        (files_on J.Disk P.Disk journal seq.disk) (files_opened P.Disk store)) }
    ensures next { IfOk result (λ store. TakesBehind store.journal store.number) }
    ensures any_moment { KnownFilesHaveAfter LeaveWhatStood LeaveWhatStood
        (files_opened P.Disk) J.Disk P.Disk journal seq.disk result }
    ensures reason { IfErr result (λ refused. HasReasonIn IsRefused
        J.Disk P.Disk journal seq.disk refused) }
    ensures kept { IfErr result (λ refused. UnlessFault refused.fault
        (KeepsBothFiles J.Disk P.Disk journal seq.disk refused)) }
    ensures counts { MatchResult result (CountsNone J.Disk P.Disk journal seq.disk)
        (CountsOnlyAtFault J.Disk P.Disk journal seq.disk) }
{
    let mut seq = seq;
    // The journal's disk says that a read gives what a crash may leave.
    let _faults = journal.faults();
    let base = seq.number();
    match open_behind(alloc, journal, &mut seq, base, fresh) {
        Ok(Followed { journal, net }) => Ok(Opened {
            journal,
            base: seq,
            layers: net.layers,
            number: net.number,
        }),
        Err(OpenFault { fault, disk }) => {
            let (pages, _pool) = seq.into_parts();
            Err(StoreFault {
                fault,
                journal: disk,
                pages,
            })
        }
    }
}

/// Why a store isn't opened whose pages weren't: the fault of the pages, unless a rule of the journal, or images, come before it. Nothing is written.
fn refuse<J: Disk, P: Disk>(
    alloc: Global,
    journal: J,
    pages: P,
    fault: OpenError,
    fresh: bool,
) -> StoreFault<J, P>
    requires journal { IsTrue J.is_known → IsAllSynced (J.history journal) }
    requires fresh { IsTrue J.is_known → fresh ≡ is_fresh (J.history journal).now.reads }
    requires breaks { HasReason (BreaksPages P.is_known (P.history pages).now.reads) (Unit {0}) fault }
    ensures reason { HasReason (RefusedAt J.Disk P.Disk journal pages)
        ((fault ≡ errors.DiskFault) ⊎ OneRoseIn J.Disk P.Disk journal pages result) result.fault }
    ensures passes { fault ≡ errors.DiskFault → result.fault ≡ errors.DiskFault }
    ensures journal_same { IsTrue J.is_known → J.history result.journal ≡ J.history journal }
    ensures pages_same { IsTrue P.is_known → P.history result.pages ≡ P.history pages }
    ensures counts { CountsOnlyAtFault J.Disk P.Disk journal pages result }
{
    match fault {
        OpenError::Damaged(broken) => refuse_damaged(alloc, journal, pages, broken, fresh),
        OpenError::DiskFault => StoreFault {
            fault: OpenError::DiskFault,
            journal,
            pages,
        },
        OpenError::NoMemory => StoreFault {
            fault: OpenError::NoMemory,
            journal,
            pages,
        },
    }
}

/// The same of pages that break their first rule at this place.
fn refuse_damaged<J: Disk, P: Disk>(
    alloc: Global,
    journal: J,
    pages: P,
    broken: Place,
    fresh: bool,
) -> StoreFault<J, P>
    requires journal { IsTrue J.is_known → IsAllSynced (J.history journal) }
    requires fresh { IsTrue J.is_known → fresh ≡ is_fresh (J.history journal).now.reads }
    requires breaks { BreaksPages P.is_known (P.history pages).now.reads broken }
    ensures reason { HasReason (RefusedAt J.Disk P.Disk journal pages)
        (OneRoseIn J.Disk P.Disk journal pages result) result.fault }
    ensures journal_same { IsTrue J.is_known → J.history result.journal ≡ J.history journal }
    ensures pages_same { IsTrue P.is_known → P.history result.pages ≡ P.history pages }
    ensures counts { CountsOnlyAtFault J.Disk P.Disk journal pages result }
{
    let mut pages = pages;
    if fresh {
        return StoreFault {
            fault: OpenError::Damaged(broken),
            journal,
            pages,
        };
    }
    match base_in(alloc, &mut pages) {
        Ok(base) => {
            let OpenFault { fault, disk } = look_at_journal(alloc, journal, base, broken);
            StoreFault {
                fault,
                journal: disk,
                pages,
            }
        }
        Err(fault) => StoreFault {
            fault,
            journal,
            pages,
        },
    }
}
