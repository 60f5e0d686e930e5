//! A checkpoint under a core whose sessions go on.
ghost use Rattle.std.specs.Prelude.{◌≡◌, Some, Ok, Err, IsTrue, IfOk, OnOk};
ghost use Rattle.outside_traits.specs.Faults.{HasCause};
ghost use Rattle.outside_traits.specs.Moments.{IsAllSynced};
ghost use Rattle.node_seq.specs.Trees.{StandsFor};
ghost use Rattle.node_seq.specs.declared.node_read.SeqError.TheVariants as seq;
ghost use Rattle.journal.specs.Groups.{is_last};
ghost use Rattle.journal.specs.Views.{TakesGroups};
ghost use Rattle.tx_core.specs.Cores.{InState, over, with_committed};
ghost use Rattle.checkpoint.specs.Bases.{IsUnchanged, contents_of, count_of, is_paged};
ghost use Rattle.checkpoint.specs.Checkpoints.{HoldsAs, IsCleared, SameUnwritten, cut_of_tree, made_of};
ghost use Rattle.checkpoint.specs.Renewals.{DamagedOnly, HasDiskCause, InKnownState, IsMoved, IsUnbegun, KeepCommitted, LeavesCore, MayRenew, faults_left, pages_left, pages_of};
ghost use Rattle.checkpoint.specs.declared.base.Base.TheVariants as base;
ghost use Rattle.checkpoint.specs.declared.made.Made.TheVariants.{Yes};
ghost use Rattle.checkpoint.specs.inside.Phases.{IsCutOf};
ghost use Rattle.checkpoint.specs.inside.Renewing.{HasPagesCause, HoldsTree, IsOverAgain, IsOverCopy, LeaveCommitted};

use crate::base::Base;
use crate::checkpoint_call::write_cut;
use crate::made::Made;
use crate::renew_fault::{RenewFault, fault_of};
use call_contract::TreeCall;
use dewey_labels::List;
use journal::Journal;
use node_pages::{Cut, Page, cut_pages};
use node_seq::{SeqError, SortedSeq};
use outside_traits::Disk;
use overlays::{Layers, Stacked};
use page_store::Pool;
use paged_seq::{PagedSeq, PagesFault};
use std::alloc::Global;
use tx_core::Core;

/// Makes a checkpoint of what a core has committed, under its sessions: their transactions, locks, overlays and answers stay, and its layers are empty again.
///
/// It walks the whole tree, reads the page file three times (for the copy, to compare, to open it again), and writes those pages that differ, to both disks.
/// Where all differ it has the tree in memory four times: as a copy, as images, as the body of their group, and in the journal's buffer.
/// Without memory for the copy and its pages all stays as it was. After a later error the sessions go on over the copy, and the pages are handed out:
/// the store is opened anew, which finishes what a fault broke off.
pub fn renew<C: TreeCall + Drop, J: Disk, P: Disk + Drop>(
    alloc: Global,
    journal: &mut Journal<J>,
    core: &mut Core<C, Base<P>>,
) -> Result<Made, RenewFault<P>>
    requires { MayRenew P.is_known P.history core.old journal.old }

    // Of the core only the base changes, with what it and the layers make of the committed map; that stands for the committed tree as before (`is_legal`).
    ensures core { LeavesCore P.is_known P.history core.old core.new journal.new result }

    // It is made but where the tree takes too many pages. Then the pages alone hold what is committed, and the journal no group.
    ensures made { IfOk result (λ made. InState C.meaning (contents_of P.is_known P.history) core.old
        (λ s. made ≡ made_of (cut_of_tree s.number s.tree))) }
    ensures moved { result ≡ Ok Yes
        → IsMoved C.meaning J.is_known P.is_known P.history core.old core.new journal.new }

    // Where the files stood for what is committed, a crash at any moment leaves files that do, after an error too; after Ok all is synced again.
    ensures files { KeepCommitted C.meaning J.is_known P.is_known P.history
        core.old core.new journal.old journal.new result }

    // Where none is made, and where the core lies over its pages after an error, nothing was written.
    ensures unwritten { IsUnbegun result
        → SameUnwritten P.is_known journal.old journal.new (pages_of P.history core.old.base) (pages_of P.history core.new.base) }
    ensures damaged { InKnownState C.meaning P.is_known P.history core.old
        (λ s. DamagedOnly result ⊥) }
    ensures cause { HasDiskCause journal.old.faults journal.new.faults (count_of P.faults core.old.base) (faults_left P.faults result core.new.base) result }
{
    // It tells that the book is legal.
    core.is_legal();
    let number = core.number();
    let (copy, cut) = match cut_committed(alloc, core, number) {
        Ok(found) => found,
        Err(fault) => {
            return Err(RenewFault {
                fault: fault_of(fault),
                pages: None,
            });
        }
    };
    match cut {
        Cut::Pages(all) => {
            let (pages, pool) = take_pages(alloc, core, copy);
            match move_tree(alloc, journal, core, pages, pool, number, all) {
                Ok(()) => Ok(Made::Yes),
                Err(refused) => Err(refused),
            }
        }
        Cut::TooMany { pages } => Ok(Made::No { pages }),
    }
}

/// A copy of the committed map, and its pages with this number as their base.
fn cut_committed<C: TreeCall + Drop, P: Disk + Drop>(
    alloc: Global,
    core: &mut Core<C, Base<P>>,
    number: u32,
) -> Result<(SortedSeq, Cut), SeqError>
    ensures copy { IfOk result (λ found. InState C.meaning (contents_of P.is_known P.history) core.old (λ s. StandsFor (Some found.0) s.tree)) }
    ensures cut { IfOk result (λ found. InState C.meaning (contents_of P.is_known P.history) core.old
        (λ s. found.1 ≡ cut_of_tree number s.tree)) }
    ensures same { core.new ≡ over core.old core.new.base }
    ensures unchanged { IsUnchanged P.is_known P.history P.faults core.old.base core.new.base }
    ensures cause { HasCause seq.DiskFault (count_of P.faults core.old.base) (count_of P.faults core.new.base) result }
{
    // It tells that the book is legal, so that what is committed is a valid tree.
    core.is_legal();
    let mut copy = core.copy_committed(alloc)?;
    let cut = cut_pages(alloc, &mut copy, number)?;
    Ok((copy, cut))
}

/// Lets the core go on over a copy of the committed map, and takes the pages from under it.
fn take_pages<C: TreeCall + Drop, P: Disk + Drop>(
    alloc: Global,
    core: &mut Core<C, Base<P>>,
    copy: SortedSeq,
) -> (P, Pool)
    requires paged { IsTrue (is_paged core.old.base) }
    requires copy { InState C.meaning (contents_of P.is_known P.history) core.old (λ s. StandsFor (Some copy) s.tree) }
    ensures history { P.history result.0 ≡ pages_of P.history core.old.base }
    ensures faults { P.faults result.0 ≡ count_of P.faults core.old.base }
    ensures state { core.new ≡ with_committed (over core.old (base.Copied copy (count_of P.faults core.old.base))) core.new.committed }
{
    let faults = core.faults();
    match core.rebase(alloc, Base::Copied { seq: copy, faults }) {
        Base::Paged(stacked) => {
            let (pages, _layers) = stacked.into_parts();
            pages.into_parts()
        }
        Base::Copied { .. } => unreachable!(),
    }
}

/// Writes the pages of a cut of what is committed, resets the journal, and lets the core go on over the pages.
fn move_tree<C: TreeCall + Drop, J: Disk, P: Disk + Drop>(
    alloc: Global,
    journal: &mut Journal<J>,
    core: &mut Core<C, Base<P>>,
    pages: P,
    pool: Pool,
    number: u32,
    cut: List<Page>,
) -> Result<(), RenewFault<P>>
    requires core { IsOverCopy P.faults core.old pages }
    requires usable { TakesGroups journal.old }
    requires last { IsTrue (is_last journal.old.last number) }
    requires synced { IsTrue P.is_known → IsAllSynced (P.history pages) }
    requires cut { InState C.meaning (contents_of P.is_known P.history) core.old (λ s. IsCutOf s.tree number cut) }

    ensures over { IsOverAgain core.old core.new result }
    ensures cleared { OnOk result (IsCleared J.is_known number journal.new) }
    ensures synced { OnOk result (IsTrue P.is_known → IsAllSynced (pages_of P.history core.new.base)) }
    ensures pages { OnOk result (InKnownState C.meaning P.is_known P.history core.old
        (λ s. HoldsAs s.tree number (pages_of P.history core.new.base).now.reads)) }
    ensures phases { LeaveCommitted C.meaning J.is_known P.is_known P.history number pages
        core.old core.new journal.old journal.new result }
    ensures damaged { InKnownState C.meaning P.is_known P.history core.old
        (λ s. DamagedOnly result ⊥) }
    ensures cause { HasDiskCause journal.old.faults journal.new.faults (P.faults pages) (faults_left P.faults result core.new.base) result }
{
    let mut pages = pages;
    match write_cut(alloc, journal, &mut pages, number, cut) {
        Ok(()) => open_again(alloc, core, pages, pool),
        Err(fault) => Err(RenewFault {
            fault: fault_of(fault),
            pages: Some(pages),
        }),
    }
}

/// Opens the pages, which hold what is committed, and lets the core go on over them. It reads each page once.
fn open_again<C: TreeCall + Drop, P: Disk + Drop>(
    alloc: Global,
    core: &mut Core<C, Base<P>>,
    pages: P,
    pool: Pool,
) -> Result<(), RenewFault<P>>
    requires core { IsOverCopy P.faults core.old pages }
    requires pages { InKnownState C.meaning P.is_known P.history core.old
        (λ s. HoldsTree s.tree (P.history pages).now.reads) }
    ensures over { IsOverAgain core.old core.new result }
    ensures same { IsTrue P.is_known → pages_left P.history result core.new.base ≡ P.history pages }
    ensures damaged { InKnownState C.meaning P.is_known P.history core.old
        (λ s. DamagedOnly result ⊥) }
    ensures cause { HasPagesCause (P.faults pages) (faults_left P.faults result core.new.base) result }
{
    let mut pool = pool;
    // The pages were written since it was filled.
    pool.forget();
    match PagedSeq::open(alloc, pages, pool) {
        Ok(seq) => {
            let _copy = core.rebase(alloc, Base::Paged(Stacked::new(seq, Layers::new(alloc))));
            Ok(())
        }
        Err(refused) => {
            let PagesFault { fault, disk, .. } = refused;
            Err(RenewFault {
                fault,
                pages: Some(disk),
            })
        }
    }
}
