//! A checkpoint.
ghost use Rattle.std.specs.Prelude.{◌≡◌, List, Ok, Err, IsTrue, OnOk};
ghost use Rattle.outside_traits.specs.Moments.{IsAllSynced};
ghost use Rattle.tree_model.specs.Tree.{Tree};
ghost use Rattle.node_seq.specs.Trees.{OnTree};
ghost use Rattle.journal.specs.Groups.{is_last};
ghost use Rattle.journal.specs.Views.{TakesGroups};
ghost use Rattle.node_seq.specs.declared.node_read.SeqError.TheVariants as seq;
ghost use Rattle.checkpoint.specs.inside.Phases.{HasTwoCauses, IsCutOf, LeaveCut};
ghost use Rattle.checkpoint.specs.Checkpoints.{HasOneCause, HoldsAs, IsCleared, IsInPages, IsUnwritten, KeepTree, LeaveTree, MayCheckpoint, SameUnwritten, counts_at, cut_of_tree, made_of};
ghost use Rattle.checkpoint.specs.declared.made.Made.TheVariants.{Yes};

use crate::images_body::images_body;
use crate::made::Made;
use crate::new_pages::{new_pages, whole_front};
use crate::phases::write_images;
use dewey_labels::List;
use journal::{DiskFault, Journal};
use node_pages::{Cut, Page, cut_pages};
use node_seq::{NodeRead, SeqError};
use outside_traits::Disk;
use std::alloc::Global;

/// Moves a tree into the pages, and resets the journal. `seq` is the tree after the last commit, and `number` that commit's number.
/// It walks the whole tree, reads the file's pages once, and writes those that differ, to both disks. All memory is taken before the first write.
/// After a fault neither disk is written again: the store is opened anew, which finishes what the fault broke off.
pub fn checkpoint<J: Disk, P: Disk, S: NodeRead>(
    alloc: Global,
    journal: &mut Journal<J>,
    pages: &mut P,
    seq: &mut S,
    number: u32,
) -> Result<Made, SeqError>
    requires { MayCheckpoint P.is_known number journal.old (P.history pages.old) }

    // It is made but where the tree takes too many pages. Then the pages alone hold the tree with its number, and the journal no group.
    ensures made { OnTree (S.contents seq.old) result
        (λ t made. made ≡ made_of (cut_of_tree number t)) }
    ensures moved { result ≡ Ok Yes → IsInPages J.is_known P.is_known (S.contents seq.old) number journal.new (P.history pages.new) }

    // Where the files stood for the tree with this number, a crash at any moment leaves files that do, after an error too; after Ok all is synced again.
    ensures phases { LeaveTree J.is_known P.is_known (S.contents seq.old) number
        journal.old journal.new (P.history pages.old) (P.history pages.new) }
    ensures settled { OnOk result (KeepTree J.is_known P.is_known (S.contents seq.old) number
        journal.old journal.new (P.history pages.old) (P.history pages.new)) }

    // Where none is made, and where memory is wanting, nothing was written.
    ensures unwritten { IsUnwritten result → SameUnwritten P.is_known journal.old journal.new (P.history pages.old) (P.history pages.new) }
    ensures unchanged { S.unchanged seq.old seq.new }
    ensures cause { HasOneCause (counts_at P.faults S.count journal.old pages.old seq.old)
        (counts_at P.faults S.count journal.new pages.new seq.new) result }
{
    let cut = cut_pages(alloc, seq, number)?;
    match cut {
        Cut::Pages(all) => match write_cut(alloc, journal, pages, number, all) {
            Ok(()) => Ok(Made::Yes),
            Err(fault) => Err(fault),
        },
        Cut::TooMany { pages: count } => Ok(Made::No { pages: count }),
    }
}

/// Writes the pages of a cut that the page file hasn't, and resets the journal.
pub(crate) fn write_cut<J: Disk, P: Disk>(
    alloc: Global,
    journal: &mut Journal<J>,
    pages: &mut P,
    number: u32,
    cut: List<Page>,
) -> Result<(), SeqError>
    requires usable { TakesGroups journal.old }
    requires last { IsTrue (is_last journal.old.last number) }
    requires synced { IsTrue P.is_known → IsAllSynced (P.history pages.old) }

    ensures cleared { OnOk result (IsCleared J.is_known number journal.new) }
    ensures synced { OnOk result (IsTrue P.is_known → IsAllSynced (P.history pages.new)) }
    ensures pages { OnOk result (IsTrue P.is_known → (t : Tree) → IsCutOf t number cut
        → HoldsAs t number (P.history pages.new).now.reads) }

    ensures phases { LeaveCut J.is_known P.is_known number cut
        journal.old journal.new (P.history pages.old) (P.history pages.new) }
    ensures unwritten { result ≡ Err seq.NoMemory → SameUnwritten P.is_known journal.old journal.new (P.history pages.old) (P.history pages.new) }
    ensures cause { HasTwoCauses seq.DiskFault journal.old.faults journal.new.faults (P.faults pages.old) (P.faults pages.new) result }
{
    let mut cut = cut;
    let front = whole_front(cut.as_slice());
    cut.truncate(front);
    let gathered = new_pages(alloc, pages, cut)?;
    let images = gathered.as_slice();
    let body = images_body(alloc, images)?;
    journal.make_room(alloc, body.len())?;
    let bytes = body.as_slice();
    match write_images(journal, pages, number, images, bytes) {
        Ok(()) => Ok(()),
        Err(DiskFault) => Err(SeqError::DiskFault),
    }
}
