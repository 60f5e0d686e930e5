// An opening begins with a sync of both disks.
ghost use Rattle.std.specs.Prelude.{◌≡◌, ◌≤◌, IsTrue, OnOk, OnErr};
ghost use Rattle.outside_traits.specs.Disks.{all_synced};
ghost use Rattle.recovery.specs.Causes.{OneDiskRose};
ghost use Rattle.recovery.specs.Openings.{KnownFilesHave};
ghost use Rattle.recovery.specs.inside.Counts.{SameCounts};
ghost use Rattle.recovery.specs.inside.Syncs.{LeaveNoOther};

use outside_traits::{Disk, Failed};

/// Syncs both disks: then a crash leaves what a read gives.
pub fn sync_both<J: Disk, P: Disk>(journal: &mut J, pages: &mut P) -> Result<(), Failed>
    ensures journal { OnOk result (IsTrue J.is_known → (J.history journal.new).now ≡ all_synced (J.history journal.old).now.reads) }
    ensures pages { OnOk result (IsTrue P.is_known → (P.history pages.new).now ≡ all_synced (P.history pages.old).now.reads) }
    ensures any_moment { KnownFilesHave LeaveNoOther
        J.Disk P.Disk journal.old pages.old journal.new pages.new }
    ensures fault { OnErr result (OneDiskRose
        J.Disk P.Disk journal.old pages.old journal.new pages.new) }
    ensures exact { OnOk result (SameCounts
        J.Disk P.Disk journal.old pages.old journal.new pages.new) }
    ensures journal_later { J.faults journal.old ≤ J.faults journal.new }
    ensures pages_later { P.faults pages.old ≤ P.faults pages.new }
{
    // Each disk says that a read gives what a crash may leave.
    let _faults = (journal.faults(), pages.faults());
    journal.sync()?;
    pages.sync()?;
    Ok(())
}
