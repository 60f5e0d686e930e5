//! The three phases of a checkpoint.
ghost use Rattle.std.specs.Prelude.{◌≡◌, ◌≤◌, Some, IsTrue, OnOk, length};
ghost use Rattle.outside_traits.specs.Moments.{IsAllSynced};
ghost use Rattle.page_store.specs.Images.{AreImages as AreInstallable, Rising};
ghost use Rattle.journal.specs.DiskFaults.{disk_fault};
ghost use Rattle.journal.specs.Groups.{AreImages};
ghost use Rattle.journal.specs.PageImages.{images_in};
ghost use Rattle.journal.specs.Views.{TakesGroups};
ghost use Rattle.checkpoint.specs.Checkpoints.{IsCleared};
ghost use Rattle.checkpoint.specs.inside.Phases.{HasTwoCauses, HasWritten, LeaveImages, numbered_images};

use dewey_labels::List;
use journal::{DiskFault, Journal};
use outside_traits::Disk;
use page_store::install;

/// Puts images into the journal, then in place, and then resets the journal. It takes no memory.
/// `body` is that of the images. An error stops it in the phase whose disk failed.
pub(crate) fn write_images<J: Disk, P: Disk>(
    journal: &mut Journal<J>,
    pages: &mut P,
    number: u32,
    images: &[(u32, List<u8>)],
    body: &[u8],
) -> Result<(), DiskFault>
    requires usable { TakesGroups journal.old }
    requires images { AreImages journal.old.last number body.now }
    requires body { images_in body.now ≡ Some images.now }
    requires room { length body.now ≤ journal.old.room }
    requires rising { Rising images.now }
    requires synced { IsTrue P.is_known → IsAllSynced (P.history pages.old) }
    requires within { IsTrue P.is_known → AreInstallable (length (P.history pages.old).now.reads) images.now }

    ensures cleared { OnOk result (IsCleared J.is_known number journal.new) }
    ensures written { OnOk result (IsTrue P.is_known → HasWritten images.now (P.history pages.old) (P.history pages.new)) }

    // What the files stood for, and the pages with the images put in hold, each crash leaves, and the files at the end.
    ensures phases { LeaveImages J.is_known P.is_known (numbered_images number images.now)
        journal.old journal.new (P.history pages.old) (P.history pages.new) }
    ensures cause { HasTwoCauses disk_fault journal.old.faults journal.new.faults (P.faults pages.old) (P.faults pages.new) result }
{
    let _usable = journal.is_usable();
    journal.append_images(number, body)?;
    // The journal is synced: from here on a crash finds the images there, whatever became of the pages.
    install(pages, images)?;
    // The pages are synced: from here on nothing needs the images.
    journal.reset()?;
    Ok(())
}
