//! Images are written in place.
ghost use Rattle.std.specs.Prelude.{◌≡◌, IsTrue, OnOk, length};
ghost use Rattle.outside_traits.specs.Disks.{all_synced};
ghost use Rattle.outside_traits.specs.Faults.{HasCause, failed};
ghost use Rattle.outside_traits.specs.Moments.{IsAllSynced};
ghost use Rattle.page_store.specs.Pages.{ArePagesOf};
ghost use Rattle.page_store.specs.Images.{AreImages, KeepsOthers, LeavesOthers, Rising, written_over};

use crate::frame::PAGE_BYTES;
use dewey_labels::List;
use outside_traits::{Disk, Failed};

/// Writes images in place, one call of the disk for each, and then syncs. It takes no memory.
pub fn install<P: Disk>(pages: &mut P, images: &[(u32, List<u8>)]) -> Result<(), Failed>
    requires synced { IsTrue P.is_known → IsAllSynced (P.history pages.old) }
    requires images { IsTrue P.is_known → AreImages (length (P.history pages.old).now.reads) images.now }
    requires rising { Rising images.now }

    // After Ok all is synced: the file has the images as its pages, and all its other pages as they were.
    ensures written { OnOk result (IsTrue P.is_known → (P.history pages.new).now ≡ all_synced (written_over images.now (P.history pages.old).now.reads)) }
    ensures pages { OnOk result (IsTrue P.is_known → ArePagesOf (P.history pages.new).now.reads images.now) }
    ensures others { OnOk result (IsTrue P.is_known → KeepsOthers images.now (P.history pages.old).now.reads (P.history pages.new).now.reads) }

    // A crash at any moment of the call, of one that failed too, leaves the other pages as they were.
    ensures any_moment { IsTrue P.is_known → LeavesOthers images.now (P.history pages.old) (P.history pages.new) }
    ensures cause { HasCause failed (P.faults pages.old) (P.faults pages.new) result }
{
    for (number, bytes) in images {
        pages.write_at(PAGE_BYTES as u64 * *number as u64, bytes.as_slice())?;
    }
    // Then a read is among what a crash may leave, and the sync leaves nothing else.
    let _faults = pages.faults();
    pages.sync()?;
    Ok(())
}
