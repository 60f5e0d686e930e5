// A store with pages is opened on its two disks, and a checkpoint that a crash broke off is finished.
ghost use Rattle.std.specs.Prelude.{◌≡◌, ◌≤◌, true, false, IsTrue, IfOk, IfErr, MatchResult};
ghost use Rattle.node_records.specs.declared.open_error.File.TheVariants as files;
ghost use Rattle.node_records.specs.declared.open_error.OpenError.TheVariants as errors;
ghost use Rattle.outside_traits.specs.Moments.{IsAllSynced};
ghost use Rattle.journal.specs.Journals.{is_fresh};
ghost use Rattle.journal.specs.Refusals.{UnlessFault};
ghost use Rattle.store_contents.specs.Contents.{place_in};
ghost use Rattle.store_contents.specs.StoredTrees.{LeaveWhatStood};
ghost use Rattle.recovery.specs.Causes.{CountsNone, CountsOnlyAtFault, HasReasonIn};
ghost use Rattle.recovery.specs.Openings.{KnownFilesHaveAfter, HasOpenMap, IsReadyStore, KeepsBothFiles, LeavesPagesUnopened, RefusesPages, WithoutImages, files_opened};
ghost use Rattle.recovery.specs.inside.Over.{RefusedAt};

use crate::fault::StoreFault;
use crate::finishing::finish;
use crate::look::look;
use crate::once::open_once;
use journal::Journal;
use node_records::{File, OpenError};
use outside_traits::Disk;
use overlays::Layers;
use paged_seq::PagedSeq;
use std::alloc::Global;

/// A store that was opened: its journal, the map over its pages, the net changes of the journal's commits as one layer, and the number of the last commit.
#[derive(Drop)]
pub struct Opened<J: Disk, P: Disk + Drop> {
    pub journal: Journal<J>,
    pub base: PagedSeq<P>,
    pub layers: Layers,
    pub number: u32,
}

/// Opens a store, with so many pages kept in memory. It reads the journal once and each page at most twice, and keeps no record of them: beside the
/// frames it has in memory where each data page begins, the journal's changes, the nodes down to the record in hand, and the catalogue's labels.
/// It begins with a sync of both disks. Nothing is written behind that but a new journal, where there is none yet, and what a checkpoint has left to be done:
/// images of pages that are open in the journal are tested with the bytes of all pages in memory, put into the page file, and let go; then all is
/// read once more.
pub fn open_store<J: Disk, P: Disk + Drop>(
    alloc: Global,
    journal: J,
    pages: P,
    frames: u32,
) -> Result<Opened<J, P>, StoreFault<J, P>>
    requires frames { (1 ≤ frames) × (frames ≤ 65_536) }

    // What base and layers make is the map that the files stood for, and stand for now; it is that of a valid tree, and of no other.
    ensures map { IfOk result (λ store. HasOpenMap J.Disk P.Disk journal pages store) }
    ensures frames { IfOk result (λ store. store.base.pool.most ≡ frames) }

    // A crash leaves what a read gives; without images a fresh journal has nine bytes, any other its own; the journal takes the number that follows.
    ensures ready { IfOk result (λ store. IsReadyStore J.Disk P.Disk journal pages store) }

    // A crash at any moment of the call leaves files that stand for what such files stood for at its start, and so does one after an error.
    ensures any_moment { KnownFilesHaveAfter LeaveWhatStood LeavesPagesUnopened
        (files_opened P.Disk) J.Disk P.Disk journal pages result }

    // Why it isn't opened: the place of the first broken rule, the files being synced and as they were; or a fault of a disk.
    ensures reason { IfErr result (λ refused. HasReasonIn RefusesPages
        J.Disk P.Disk journal pages refused) }

    // After any error but a fault the pages are as they were where no images were open, and the journal as it was or as it is made in a fresh file.
    ensures kept { IfErr result (λ refused. UnlessFault refused.fault
        (WithoutImages J.Disk P.Disk journal
        (KeepsBothFiles J.Disk P.Disk journal pages refused))) }

    // No fault is passed over: the counts are as they were but after a fault that is answered.
    ensures counts { MatchResult result (CountsNone J.Disk P.Disk journal pages)
        (CountsOnlyAtFault J.Disk P.Disk journal pages) }
{
    match open_once(alloc, journal, pages, frames) {
        Ok(store) => Ok(store),
        Err(refused) => {
            if is_first_page(&refused.fault) {
                return open_refused(alloc, refused.journal, refused.pages, frames);
            }
            Err(refused)
        }
    }
}

/// Whether the pages are damaged at 0, which is what open images are before they are put in.
fn is_first_page(fault: &OpenError) -> bool
    ensures yes { result ≡ true → fault.now ≡ errors.Damaged (place_in files.Pages 0) }
    ensures no { fault.now ≡ errors.Damaged (place_in files.Pages 0) → result ≡ true }
{
    match fault {
        OpenError::Damaged(place) => place.at == 0 && is_pages(&place.file),
        _ => false,
    }
}

/// Whether it is the page file.
fn is_pages(file: &File) -> bool
    ensures yes { result ≡ true → file.now ≡ files.Pages }
    ensures no { file.now ≡ files.Pages → result ≡ true }
{
    match file {
        File::Pages => true,
        _ => false,
    }
}

/// Opens a store whose files were refused at the first page: a checkpoint is finished, if its images are open. The clauses are those of `open_store`.
fn open_refused<J: Disk, P: Disk + Drop>(
    alloc: Global,
    journal: J,
    pages: P,
    frames: u32,
) -> Result<Opened<J, P>, StoreFault<J, P>>
    requires frames { (1 ≤ frames) × (frames ≤ 65_536) }
    requires refused { RefusedAt J.Disk P.Disk journal pages (place_in files.Pages 0) }
    ensures map { IfOk result (λ store. HasOpenMap J.Disk P.Disk journal pages store) }
    ensures frames { IfOk result (λ store. store.base.pool.most ≡ frames) }
    ensures ready { IfOk result (λ store. IsReadyStore J.Disk P.Disk journal pages store) }
    ensures any_moment { KnownFilesHaveAfter LeaveWhatStood LeavesPagesUnopened
        (files_opened P.Disk) J.Disk P.Disk journal pages result }
    ensures reason { IfErr result (λ refused. HasReasonIn RefusesPages
        J.Disk P.Disk journal pages refused) }
    ensures kept { IfErr result (λ refused. UnlessFault refused.fault
        (WithoutImages J.Disk P.Disk journal
        (KeepsBothFiles J.Disk P.Disk journal pages refused))) }
    ensures counts { MatchResult result (CountsNone J.Disk P.Disk journal pages)
        (CountsOnlyAtFault J.Disk P.Disk journal pages) }
{
    let mut journal = journal;
    let mut pages = pages;
    // Each disk says that a read gives what a crash may leave.
    let _faults = (journal.faults(), pages.faults());
    let looked = look(alloc, &mut journal, &mut pages, 1);
    match looked {
        Ok((fresh, _pool)) => {
            if fresh {
                return Err(StoreFault {
                    fault: OpenError::at(File::Pages, 0),
                    journal,
                    pages,
                });
            }
            open_unfinished(alloc, journal, pages, frames)
        }
        Err(fault) => Err(StoreFault {
            fault,
            journal,
            pages,
        }),
    }
}

/// Opens a store whose files are synced and were refused at the first page. The clauses are those of `open_store`.
fn open_unfinished<J: Disk, P: Disk + Drop>(
    alloc: Global,
    journal: J,
    pages: P,
    frames: u32,
) -> Result<Opened<J, P>, StoreFault<J, P>>
    requires frames { (1 ≤ frames) × (frames ≤ 65_536) }
    requires journal { IsTrue J.is_known → IsAllSynced (J.history journal) }
    requires pages { IsTrue P.is_known → IsAllSynced (P.history pages) }
    requires made { IsTrue J.is_known → is_fresh (J.history journal).now.reads ≡ false }
    requires refused { RefusedAt J.Disk P.Disk journal pages (place_in files.Pages 0) }
    ensures map { IfOk result (λ store. HasOpenMap J.Disk P.Disk journal pages store) }
    ensures frames { IfOk result (λ store. store.base.pool.most ≡ frames) }
    ensures ready { IfOk result (λ store. IsReadyStore J.Disk P.Disk journal pages store) }
    ensures any_moment { KnownFilesHaveAfter LeaveWhatStood LeavesPagesUnopened
        (files_opened P.Disk) J.Disk P.Disk journal pages result }
    ensures reason { IfErr result (λ refused. HasReasonIn RefusesPages
        J.Disk P.Disk journal pages refused) }
    ensures kept { IfErr result (λ refused. UnlessFault refused.fault
        (WithoutImages J.Disk P.Disk journal
        (KeepsBothFiles J.Disk P.Disk journal pages refused))) }
    ensures counts { MatchResult result (CountsNone J.Disk P.Disk journal pages)
        (CountsOnlyAtFault J.Disk P.Disk journal pages) }
{
    match finish(alloc, journal, pages) {
        Ok(done) => {
            let (journal, pages) = done;
            open_once(alloc, journal, pages, frames)
        }
        Err(refused) => Err(refused),
    }
}
