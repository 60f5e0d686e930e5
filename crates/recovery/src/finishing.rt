// A checkpoint that a crash broke off is finished: its images, which are open in the journal, are tested, put into the pages, and let go.
ghost use Rattle.std.specs.Prelude.{◌≡◌, ◌≤◌, ◌<◌, ◌+◌, ◌*◌, max, ℕ, [], true, false, length, take, Some, None, Ok, Err, IsTrue, IfOk, IfErr, OnOk, OnErr, MatchResult};
ghost use Rattle.outside_traits.specs.Faults.{HasCause};
ghost use Rattle.outside_traits.specs.Moments.{IsAllSynced};
ghost use Rattle.outside_kinds.specs.MemoryDisks.{history_of};
ghost use Rattle.page_store.specs.Images.{AreImages as AreInstallable, Rising};
ghost use Rattle.node_pages.specs.PageFiles.{contents_of_file};
ghost use Rattle.node_records.specs.declared.open_error.File.TheVariants.{Pages};
ghost use Rattle.node_records.specs.declared.open_error.OpenError.TheVariants as errors;
ghost use Rattle.journal.specs.DiskFaults.{disk_fault};
ghost use Rattle.journal.specs.Groups.{only_commits};
ghost use Rattle.journal.specs.Journals.{is_fresh, read};
ghost use Rattle.journal.specs.Refusals.{HasReason, UnlessFault};
ghost use Rattle.journal.specs.declared.group.Groups.{Groups};
ghost use Rattle.journal.specs.declared.group.Images.{Images};
ghost use Rattle.paged_seq.specs.PagedFiles.{BreaksPages};
ghost use Rattle.store_contents.specs.Contents.{Contents, over_pages, place_in};
ghost use Rattle.store_contents.specs.StoredTrees.{LeaveWhatStood};
ghost use Rattle.recovery.specs.Causes.{CountsOnlyAtFault, HasReasonIn, HasReasonSince, OneRose};
ghost use Rattle.recovery.specs.Openings.{KnownFilesHaveAfter, KnownFilesHave};
ghost use Rattle.recovery.specs.inside.Counts.{CountRose, SameCounts};
ghost use Rattle.recovery.specs.inside.Finishing.{ArePages, AreSound, BreaksWithImages, HasOpen, IsFinished, IsJudged, IsUntouchedAt, LeaveThis, EndWithThis, StayUnlessImages, WhereUnfinished, files_done, is_ready, journal_on, judged, memory_alone, ready_front, stands_above};
ghost use Rattle.recovery.specs.inside.Over.{IsRefusedAt, RefusedAt};
ghost use Rattle.recovery.specs.inside.Walking.{PagesHaveBase};

use crate::counting::told;
use crate::fault::StoreFault;
use crate::gathering::pages_among;
use crate::holding::{fault_of, hold};
use crate::netting::follow;
use dewey_labels::List;
use journal::{DiskFault, Groups, Images, Journal};
use node_pages::Header;
use node_records::{File, OpenError};
use outside_kinds::MemDisk;
use outside_traits::Disk;
use page_store::{PAGE_BYTES, Pool, install};
use paged_seq::PagedSeq;
use std::alloc::Global;

/// The map of these bytes of pages, in memory, where they break no rule of pages.
fn read_bytes(alloc: Global, bytes: List<u8>) -> Result<PagedSeq<MemDisk>, OpenError>
    ensures bytes { IfOk result (λ seq. (history_of seq.disk).now.reads ≡ bytes) }
    ensures held { IfOk result (λ seq. PagesHaveBase bytes seq.index.base) }
    ensures damage { IfErr result (HasReason (BreaksPages true bytes) ⊥) }
{
    let disk = MemDisk::new(bytes, List::new(alloc));
    let pool = Pool::new(alloc, 1)?;
    match hold(alloc, disk, pool) {
        Ok(seq) => Ok(seq),
        Err(refused) => Err(memory_alone(refused.fault)),
    }
}

/// The fault of a disk in memory: what it lacks is memory.
fn memory_alone(fault: OpenError) -> OpenError
    ensures { result ≡ memory_alone fault }
{
    match fault {
        OpenError::Damaged(place) => OpenError::Damaged(place),
        _ => OpenError::NoMemory,
    }
}

/// These bytes of pages hold a tree.
fn hold_tree(alloc: Global, bytes: List<u8>) -> Result<(), OpenError>
    ensures tree { OnOk result ((contents : Contents) × (over_pages [] (contents_of_file bytes) ≡ Ok contents)) }
    ensures damage { IfErr result (HasReason (λ place. over_pages [] (contents_of_file bytes) ≡ Err place) ⊥) }
{
    match read_bytes(alloc, bytes) {
        Ok(seq) => {
            let mut seq = seq;
            let base = seq.number();
            match follow(alloc, &mut seq, base, List::new(alloc)) {
                Ok(_net) => Ok(()),
                Err(fault) => Err(memory_alone(fault)),
            }
        }
        Err(fault) => Err(fault),
    }
}

/// How many pages page 0 counts, where the pages that were gathered hold a tree with this number.
fn judged(alloc: Global, number: u32, row: Option<(Header, List<u8>)>) -> Result<u64, OpenError>
    ensures sound { IfOk result (λ count. IsJudged number row count) }
    ensures damage { IfErr result (HasReason (λ place. judged number row ≡ Err place) ⊥) }
{
    match row {
        None => Err(OpenError::at(File::Pages, 0)),
        Some(found) => {
            let (header, bytes) = found;
            let other = header.base != number;
            if other {
                return Err(OpenError::at(File::Pages, 0));
            }
            match hold_tree(alloc, bytes) {
                Ok(()) => Ok(header.count()),
                Err(fault) => Err(fault),
            }
        }
    }
}

/// How many pages page 0 counts, where the pages with these images put in hold a tree with their number. Nothing is written.
fn tested<P: Disk>(alloc: Global, pages: &mut P, images: &Images) -> Result<u64, OpenError>
    ensures sound { IfOk result (λ count. IsTrue P.is_known → ArePages images.now.pages → AreSound (P.history pages.old).now.reads images.now count) }
    ensures reason { IfErr result (HasReason
        (BreaksWithImages P.is_known (P.history pages.old).now.reads images.now)
        (CountRose P.Disk pages.old pages.new)) }
    ensures same { IsTrue P.is_known → P.history pages.new ≡ P.history pages.old }
    ensures exact { OnOk result (P.faults pages.new ≡ P.faults pages.old) }
    ensures uncounted { IfErr result (λ fault. UnlessFault fault (P.faults pages.new ≡ P.faults pages.old)) }
    ensures later { P.faults pages.old ≤ P.faults pages.new }
{
    let before = pages.faults();
    match pages_among(alloc, pages, images.pages.as_slice()) {
        Ok(row) => judged(alloc, images.number, row),
        Err(fault) => Err(told(fault_of(fault), before, pages.faults())),
    }
}

/// Whether an image of a page below this count is whole, stands above the last one, and begins within a file of so many bytes.
fn is_ready(image: &(u32, List<u8>), count: u64, size: u64, last: Option<u64>) -> bool
    ensures { result ≡ is_ready count size last image.now }
{
    let page = u64::from(image.0);
    let is_page = page < count && image.1.len() == PAGE_BYTES;
    let stands = stands_above(last, page) && PAGE_BYTES as u64 * page <= size;
    is_page && stands
}

/// How many bytes a file has that had so many, once this page is written.
fn end_after(size: u64, page: u32) -> u64
    ensures { result ≡ max size (8_192 * page + 8_192) }
{
    size.max(PAGE_BYTES as u64 * page as u64 + PAGE_BYTES as u64)
}

/// How many of these images, from the first on, can be written one after another into a file with so many bytes, as pages below this count.
fn ready_front(images: &[(u32, List<u8>)], count: u64, size: u64) -> usize
    ensures ready { result ≡ ready_front count size None images.now }
    ensures within { result ≤ length images.now }
{
    let mut end = size;
    let mut last = None;
    let mut ready = 0;
    for image in images {
        let goes_on = is_ready(image, count, end, last);
        let stops = !goes_on;
        if stops {
            return ready;
        }
        let page = image.0 as u64;
        end = end_after(end, image.0);
        last = Some(page);
        ready += 1;
    }
    ready
}

/// So many of these images, from the first on.
fn front_of(images: &[(u32, List<u8>)], count: usize) -> &[(u32, List<u8>)]
    requires within { count ≤ length images.now }
    ensures { result.now ≡ take count images.now }
{
    &images[..count]
}

/// Whether an image stands above the last one.
fn stands_above(last: Option<u64>, page: u64) -> bool
    ensures { result ≡ stands_above last page }
{
    match last {
        None => true,
        Some(last) => last < page,
    }
}

/// Writes these images in place, and lets the groups of the journal go.
fn write_in_place<J: Disk, P: Disk>(
    journal: &mut Journal<J>,
    pages: &mut P,
    images: &[(u32, List<u8>)],
) -> Result<(), DiskFault>
    requires usable { journal.old.failed ≡ false }
    requires synced { IsTrue P.is_known → IsAllSynced (P.history pages.old) }
    requires within { IsTrue P.is_known → AreInstallable (length (P.history pages.old).now.reads) images.now }
    requires rising { Rising images.now }
    ensures phases { KnownFilesHave (WhereUnfinished LeaveThis images.now)
        (journal_on J.Disk) P.Disk journal.old pages.old journal.new pages.new }
    ensures stands { OnOk result (KnownFilesHave (WhereUnfinished EndWithThis images.now)
        (journal_on J.Disk) P.Disk journal.old pages.old journal.new pages.new) }
    ensures cleared { OnOk result (IsTrue J.is_known → read journal.new.history.now.reads ≡ Ok (only_commits [])) }
    ensures fault { result ≡ Err disk_fault → OneRose journal.old.faults journal.new.faults (P.faults pages.old) (P.faults pages.new) }
    ensures exact { OnOk result ((journal.new.faults ≡ journal.old.faults) × (P.faults pages.new ≡ P.faults pages.old)) }
    ensures journal_later { journal.old.faults ≤ journal.new.faults }
    ensures pages_later { P.faults pages.old ≤ P.faults pages.new }
{
    // A journal that is usable is synced: a crash finds the images there, whatever becomes of the pages.
    let _usable = journal.is_usable();
    install(pages, images)?;
    // The pages are synced: from here on nothing needs the images.
    journal.reset()?;
    Ok(())
}

/// Writes images in place and lets them go, where the pages with them hold a tree. Otherwise nothing is written.
fn put_in<J: Disk, P: Disk>(
    alloc: Global,
    journal: &mut Journal<J>,
    pages: &mut P,
    images: &Images,
) -> Result<(), OpenError>
    requires usable { journal.old.failed ≡ false }
    requires holds { IsTrue J.is_known → HasOpen journal.old.history images.now }
    requires synced { IsTrue P.is_known → IsAllSynced (P.history pages.old) }
    ensures finished { OnOk result (KnownFilesHave IsFinished
        (journal_on J.Disk) P.Disk journal.old pages.old journal.new pages.new) }
    ensures any_moment { KnownFilesHave LeaveWhatStood
        (journal_on J.Disk) P.Disk journal.old pages.old journal.new pages.new }
    ensures reason { IfErr result (HasReasonSince IsUntouchedAt
        (journal_on J.Disk) P.Disk journal.old pages.old journal.new pages.new) }
    ensures exact { OnOk result ((journal.new.faults ≡ journal.old.faults) × (P.faults pages.new ≡ P.faults pages.old)) }
    ensures uncounted { IfErr result (λ fault. UnlessFault fault ((journal.new.faults ≡ journal.old.faults) × (P.faults pages.new ≡ P.faults pages.old))) }
    ensures later { (journal.old.faults ≤ journal.new.faults) × (P.faults pages.old ≤ P.faults pages.new) }
{
    // Each disk says that a read gives what a crash may leave; a usable journal is synced.
    let _synced = (journal.is_usable(), journal.faults(), pages.faults());
    let count = match tested(alloc, pages, images) {
        Ok(count) => count,
        Err(fault) => return Err(fault),
    };
    let size = match pages.len() {
        Ok(size) => size,
        Err(_failed) => return Err(OpenError::DiskFault),
    };
    let all = images.pages.as_slice();
    let ready = ready_front(all, count, size);
    let written = front_of(all, ready);
    match write_in_place(journal, pages, written) {
        Ok(()) => Ok(()),
        Err(DiskFault) => Err(OpenError::DiskFault),
    }
}

/// The same of the groups of a journal: where no images are open, the pages are damaged at 0.
fn put_groups<J: Disk, P: Disk>(
    alloc: Global,
    journal: &mut Journal<J>,
    pages: &mut P,
    groups: Groups,
) -> Result<(), OpenError>
    requires usable { journal.old.failed ≡ false }
    requires reads { IsTrue J.is_known → read journal.old.history.now.reads ≡ Ok groups }
    requires synced { IsTrue P.is_known → IsAllSynced (P.history pages.old) }
    requires refused { IsTrue J.is_known → IsTrue P.is_known
        → IsRefusedAt journal.old.history.now.reads (P.history pages.old).now.reads (place_in Pages 0) }
    ensures finished { OnOk result (KnownFilesHave IsFinished
        (journal_on J.Disk) P.Disk journal.old pages.old journal.new pages.new) }
    ensures any_moment { KnownFilesHave LeaveWhatStood
        (journal_on J.Disk) P.Disk journal.old pages.old journal.new pages.new }
    ensures reason { IfErr result (HasReasonSince IsUntouchedAt
        (journal_on J.Disk) P.Disk journal.old pages.old journal.new pages.new) }
    ensures without { OnErr result (IsTrue J.is_known
        → StayUnlessImages (journal_on J.Disk) P.Disk journal.old pages.old journal.new pages.new) }
    ensures exact { OnOk result ((journal.new.faults ≡ journal.old.faults) × (P.faults pages.new ≡ P.faults pages.old)) }
    ensures uncounted { IfErr result (λ fault. UnlessFault fault ((journal.new.faults ≡ journal.old.faults) × (P.faults pages.new ≡ P.faults pages.old))) }
    ensures later { (journal.old.faults ≤ journal.new.faults) × (P.faults pages.old ≤ P.faults pages.new) }
{
    let Groups { images, .. } = groups;
    match images {
        Some(images) => put_in(alloc, journal, pages, &images),
        None => Err(OpenError::at(File::Pages, 0)),
    }
}

/// Finishes a checkpoint whose images are open in the journal. The files were refused at the first page, as they are where images are open.
/// It has the bytes of all pages in memory meanwhile; only an opening behind a crash in a checkpoint comes here.
pub fn finish<J: Disk, P: Disk + Drop>(
    alloc: Global,
    journal: J,
    pages: P,
) -> Result<(J, P), StoreFault<J, P>>
    requires journal { IsTrue J.is_known → IsAllSynced (J.history journal) }
    requires pages { IsTrue P.is_known → IsAllSynced (P.history pages) }
    requires made { IsTrue J.is_known → is_fresh (J.history journal).now.reads ≡ false }
    requires refused { RefusedAt J.Disk P.Disk journal pages (place_in Pages 0) }
    ensures finished { IfOk result (λ done. KnownFilesHave IsFinished
        J.Disk P.Disk journal pages done.0 done.1) }
    ensures any_moment { KnownFilesHaveAfter LeaveWhatStood LeaveWhatStood
        (files_done J.Disk P.Disk) J.Disk P.Disk journal pages result }
    ensures reason { IfErr result (λ refused. HasReasonIn IsUntouchedAt
        J.Disk P.Disk journal pages refused) }
    ensures without { IfErr result (λ refused. IsTrue J.is_known → IsTrue P.is_known
        → StayUnlessImages J.Disk P.Disk journal pages refused.journal refused.pages) }
    ensures counts { MatchResult result
        (λ done. SameCounts J.Disk P.Disk journal pages done.0 done.1)
        (CountsOnlyAtFault J.Disk P.Disk journal pages) }
{
    let mut pages = pages;
    match Journal::open(alloc, journal) {
        Ok((journal, groups)) => {
            let mut journal = journal;
            match put_groups(alloc, &mut journal, &mut pages, groups) {
                Ok(()) => {
                    let done = journal.into_disk();
                    Ok((done, pages))
                }
                Err(fault) => {
                    let left = journal.into_disk();
                    Err(StoreFault {
                        fault,
                        journal: left,
                        pages,
                    })
                }
            }
        }
        Err(refused) => Err(StoreFault {
            fault: refused.fault,
            journal: refused.disk,
            pages,
        }),
    }
}
