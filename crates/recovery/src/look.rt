// Both files of a store with pages are synced, before anything is read of their content.
ghost use Rattle.std.specs.Prelude.{◌≡◌, ◌≤◌, [], IsTrue, IfOk, IfErr};
ghost use Rattle.journal.specs.Journals.{is_fresh};
ghost use Rattle.journal.specs.Refusals.{HasReason};
ghost use Rattle.recovery.specs.Causes.{OneDiskRose};
ghost use Rattle.recovery.specs.Openings.{KnownFilesHave};
ghost use Rattle.recovery.specs.inside.Counts.{NoneFell, SameCounts};
ghost use Rattle.recovery.specs.inside.Syncs.{AreSynced, LeaveNoOther, UnlessFaulted};

use crate::syncing::sync_both;
use journal::is_fresh;
use node_records::OpenError;
use outside_traits::Disk;
use page_store::Pool;
use std::alloc::Global;

/// Syncs both disks, and answers whether the journal is fresh, and an empty pool of so many pages.
pub fn look<J: Disk, P: Disk>(
    alloc: Global,
    journal: &mut J,
    pages: &mut P,
    frames: u32,
) -> Result<(bool, Pool), OpenError>
    requires some { 1 ≤ frames }
    ensures synced { UnlessFaulted result
        (AreSynced J.Disk P.Disk journal.old pages.old journal.new pages.new) }
    ensures fresh { IfOk result (λ looked. IsTrue J.is_known → looked.0 ≡ is_fresh (J.history journal.new).now.reads) }
    ensures pool { IfOk result (λ looked. looked.1 ≡ record { kept = []; most = frames; reads = 0 }) }
    ensures any_moment { KnownFilesHave LeaveNoOther
        J.Disk P.Disk journal.old pages.old journal.new pages.new }
    ensures reason { IfErr result (HasReason (λ _. ⊥)
        (OneDiskRose J.Disk P.Disk journal.old pages.old journal.new pages.new)) }
    ensures exact { UnlessFaulted result
        (SameCounts J.Disk P.Disk journal.old pages.old journal.new pages.new) }
    ensures later { NoneFell J.Disk P.Disk journal.old pages.old journal.new pages.new }
{
    sync_both(journal, pages)?;
    let fresh = is_fresh(journal)?;
    let pool = Pool::new(alloc, frames)?;
    Ok((fresh, pool))
}
