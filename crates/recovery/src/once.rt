// A store with pages is opened on its two disks, where no images are open: both are synced, the pages are read, the journal is opened,
// and its commits are followed.
ghost use Rattle.std.specs.Prelude.{◌≡◌, ◌≤◌, IfOk, IfErr, MatchResult};
ghost use Rattle.journal.specs.Refusals.{UnlessFault};
ghost use Rattle.store_contents.specs.StoredTrees.{LeaveWhatStood};
ghost use Rattle.recovery.specs.Causes.{CountsNone, CountsOnlyAtFault, HasReasonIn};
ghost use Rattle.recovery.specs.Openings.{AreOpened, KnownFilesHaveAfter, IsTreesMap, KeepsBothFiles, LeavesPagesUnopened, TakesBehind, files_on, files_opened, map_opened};
ghost use Rattle.recovery.specs.inside.Over.{HasFilesMap, IsRefused};

use crate::fault::StoreFault;
use crate::look::look;
use crate::opening::Opened;
use crate::over::open_synced;
use outside_traits::Disk;
use std::alloc::Global;

/// Opens a store, with so many pages kept in memory, unless images of pages are open in its journal: those are damage of the pages at 0 here.
/// It begins with a sync of both disks. Nothing is written behind that but a new journal, where there is none yet.
/// The clauses say what those of `open_store` do, but for images.
pub fn open_once<J: Disk, P: Disk + Drop>(
    alloc: Global,
    journal: J,
    pages: P,
    frames: u32,
) -> Result<Opened<J, P>, StoreFault<J, P>>
    requires frames { (1 ≤ frames) × (frames ≤ 65_536) }
    ensures opens { IfOk result (λ store. HasFilesMap J.Disk P.Disk journal pages store) }
    ensures tree { IfOk result (λ store. IsTreesMap (map_opened P.Disk store)) }
    ensures frames { IfOk result (λ store. store.base.pool.most ≡ frames) }
    ensures synced { IfOk result (λ store. AreOpened J.is_known P.is_known
        (files_on J.Disk P.Disk journal pages) (files_opened P.Disk store)) }
    ensures next { IfOk result (λ store. TakesBehind store.journal store.number) }
    ensures any_moment { KnownFilesHaveAfter LeaveWhatStood LeavesPagesUnopened
        (files_opened P.Disk) J.Disk P.Disk journal pages result }
    ensures reason { IfErr result (λ refused. HasReasonIn IsRefused
        J.Disk P.Disk journal pages refused) }
    ensures kept { IfErr result (λ refused. UnlessFault refused.fault
        (KeepsBothFiles J.Disk P.Disk journal pages refused)) }
    ensures counts { MatchResult result (CountsNone J.Disk P.Disk journal pages)
        (CountsOnlyAtFault J.Disk P.Disk journal pages) }
{
    let mut journal = journal;
    let mut pages = pages;
    // Each disk says that a read gives what a crash may leave.
    let _faults = (journal.faults(), pages.faults());
    let looked = look(alloc, &mut journal, &mut pages, frames);
    match looked {
        Ok((fresh, pool)) => open_synced(alloc, journal, pages, pool, fresh),
        Err(fault) => Err(StoreFault {
            fault,
            journal,
            pages,
        }),
    }
}
