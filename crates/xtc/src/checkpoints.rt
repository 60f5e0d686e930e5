// Checkpoints of a store whose sessions go on.
ghost use Rattle.std.specs.Prelude.{◌≡◌, Bool, Err, IsTrue, None, OnOk};
ghost use Rattle.checkpoint.specs.Renewals.{MayRenew};
ghost use Rattle.call_contract.specs.Sessions.{commits_in};
ghost use Rattle.call_contract.specs.States.{State};
ghost use Rattle.session_driver.specs.Asking.{BookCall};
ghost use Rattle.xtc.specs.StoreMachine.{HasAnswered, HasPages, HasRested, Stands, faults_of, file_of};
ghost use Rattle.xtc.specs.inside.Renewing.{DamagedWhere, KeepsStanding, LeftAsBefore, MadeFromEach, StoreCounts, is_due_at_end, is_due_behind, kept};

use crate::status::Status;
use crate::store::disk_of;
use checkpoint::{Base, RenewFault, renew};
use journal::Journal;
use node_records::OpenError;
use outside_traits::Disk;
use std::alloc::Global;
use store_calls::StoreOp;
use tx_core::Core;

/// Whether a store makes checkpoints.
pub trait MakesCheckpoints: Drop {
    ghost makes: { Bool };
}

/// It makes none.
#[derive(Drop)]
pub struct NoCheckpoints;

impl MakesCheckpoints for NoCheckpoints {
    ghost use Rattle.std.specs.Prelude.{false};

    ghost makes = { false };
}

/// It makes some.
#[derive(Drop)]
pub struct SomeCheckpoints;

impl MakesCheckpoints for SomeCheckpoints {
    ghost use Rattle.std.specs.Prelude.{true};

    ghost makes = { true };
}

/// What a command over a store that may make checkpoints has to write, or why there is nothing to be written, and what it was done over.
#[derive(Drop)]
pub struct DoneOver<P: Disk + Drop> {
    pub text: Result<Vec<u8>, Status>,
    pub base: Base<P>,
    pub checkpoints: Checkpoints<P>,
}

/// When what was committed is moved into the pages: behind each so many commits of this run. Where that fails, the pages are kept here.
#[derive(Drop)]
pub struct Checkpoints<P: Disk + Drop> {
    every: u32,
    /// The number of the last commit at the opening.
    opened: u32,
    /// How many commits there were when it was last looked whether one is due.
    seen: u32,
    pages: Option<P>,
}

impl<P: Disk + Drop> Checkpoints<P> {
    /// For a store that was opened at a commit with this number.
    pub fn new(every: u32, opened: u32) -> Checkpoints<P>
        ensures { result ≡ record { every = every; opened = opened; seen = 0; pages = None } }
    {
        Checkpoints {
            every,
            opened,
            seen: 0,
            pages: None,
        }
    }

    /// Whether the last commit is one behind which a checkpoint is made, and none was tried there.
    pub fn is_due(&self, core: &Core<StoreOp, Base<P>>) -> bool
        requires opened { self.now.opened ≡ core.now.number }
        ensures { result ≡ is_due_behind self.now core.now }
    {
        let commits = core.number() - self.opened;
        self.every != 0 && self.seen < commits && commits % self.every == 0
    }

    /// Whether there were as many commits as one checkpoint is made behind.
    fn is_due_at_end(&self, core: &Core<StoreOp, Base<P>>) -> bool
        requires opened { self.now.opened ≡ core.now.number }
        ensures { result ≡ is_due_at_end self.now (commits_in core.now.book) }
    {
        let commits = core.number() - self.opened;
        self.every != 0 && self.every <= commits
    }

    /// Makes a checkpoint if one is due; it makes none where the tree doesn't fit into the pages of one. After an error the store isn't used again.
    pub fn make_if_due<J: Disk>(
        &mut self,
        alloc: Global,
        core: &mut Core<StoreOp, Base<P>>,
        journal: &mut Journal<J>,
    ) -> Result<(), OpenError>
        requires answered { HasAnswered P.is_known P.history (kept core.old journal.old self.old) }
        ensures rested { OnOk result (HasRested P.is_known P.history (kept core.new journal.new self.new)) }
        ensures every { self.new.every ≡ self.old.every }
        ensures left { LeftAsBefore (is_due_behind self.old core.old)
            core.old core.new journal.old journal.new self.old.pages self.new.pages }
        ensures damaged { DamagedWhere (is_due_behind self.old core.old) P.is_known result }
        ensures files { KeepsStanding J.Disk P.Disk
            (kept core.old journal.old self.old) (kept core.new journal.new self.new) result }
        ensures counts { StoreCounts P.faults (result ≡ Err OpenError.DiskFault)
            (kept core.old journal.old self.old) (kept core.new journal.new self.new) }
    {
        let due = self.is_due(core);
        self.seen = core.number() - self.opened;
        self.make_where(alloc, due, core, journal)
    }

    /// Makes one behind the last commit of a command, where it has made as many as that.
    pub fn make_at_end<J: Disk>(
        &mut self,
        alloc: Global,
        core: &mut Core<StoreOp, Base<P>>,
        journal: &mut Journal<J>,
    ) -> Result<(), OpenError>
        requires may { MayRenew P.is_known P.history core.old journal.old }
        requires inside { self.old.pages ≡ None }
        requires opened { self.old.opened ≡ core.old.number }
        requires stands { IsTrue P.is_known → (s : State BookCall) × Stands P.is_known P.history core.old s }
        ensures made { OnOk result (MadeFromEach P.Disk
            (is_due_at_end self.old (commits_in core.old.book)) core.old core.new) }
        ensures again { OnOk result (MayRenew P.is_known P.history core.new journal.new) }
        ensures inside { OnOk result (self.new.pages ≡ None) }
        ensures left { LeftAsBefore (is_due_at_end self.old (commits_in core.old.book))
            core.old core.new journal.old journal.new self.old.pages self.new.pages }
        ensures damaged { DamagedWhere (is_due_at_end self.old (commits_in core.old.book)) P.is_known result }
        ensures files { KeepsStanding J.Disk P.Disk
            (kept core.old journal.old self.old) (kept core.new journal.new self.new) result }
        ensures counts { StoreCounts P.faults (result ≡ Err OpenError.DiskFault)
            (kept core.old journal.old self.old) (kept core.new journal.new self.new) }
    {
        let due = self.is_due_at_end(core);
        self.make_where(alloc, due, core, journal)
    }

    /// Makes a checkpoint where it is due. A fault that was counted comes first.
    fn make_where<J: Disk>(
        &mut self,
        alloc: Global,
        due: bool,
        core: &mut Core<StoreOp, Base<P>>,
        journal: &mut Journal<J>,
    ) -> Result<(), OpenError>
        requires may { MayRenew P.is_known P.history core.old journal.old }
        requires inside { self.old.pages ≡ None }
        requires stands { IsTrue P.is_known → (s : State BookCall) × Stands P.is_known P.history core.old s }
        ensures again { OnOk result (MayRenew P.is_known P.history core.new journal.new) }
        ensures made { OnOk result (MadeFromEach P.Disk due core.old core.new) }
        ensures others { self.new ≡ record self.old { pages = self.new.pages } }
        ensures inside { OnOk result (self.new.pages ≡ None) }
        ensures left { LeftAsBefore due core.old core.new journal.old journal.new self.old.pages self.new.pages }
        ensures damaged { DamagedWhere due P.is_known result }
        ensures files { KeepsStanding J.Disk P.Disk
            (kept core.old journal.old self.old) (kept core.new journal.new self.new) result }
        ensures counts { StoreCounts P.faults (result ≡ Err OpenError.DiskFault)
            (kept core.old journal.old self.old) (kept core.new journal.new self.new) }
    {
        if !due {
            return Ok(());
        }
        let (journal_before, pages_before) = (journal.faults(), core.faults());
        match renew(alloc, journal, core) {
            Ok(_made) => Ok(()),
            Err(RenewFault { fault, pages }) => {
                let pages_now = faults_beside(core, &pages);
                self.pages = pages;
                let same = journal.faults() == journal_before && pages_now == pages_before;
                Err(if same { fault } else { OpenError::DiskFault })
            }
        }
    }

    /// The disk of the pages, beside the base of the core whose commits these checkpoints were made of.
    pub fn disk_beside(self, base: Base<P>) -> P
        requires pages { HasPages base self.pages }
        ensures history { P.history result ≡ file_of P.history base self.pages }
        ensures faults { P.faults result ≡ faults_of P.faults base self.pages }
    {
        match (self.pages, base) {
            (Some(disk), _) => disk,
            (None, Base::Paged(stacked)) => disk_of(stacked),
            (None, Base::Copied { .. }) => unreachable!(),
        }
    }
}

/// The count of faults of the pages that were handed out, or else that of the base.
fn faults_beside<P: Disk + Drop>(core: &Core<StoreOp, Base<P>>, pages: &Option<P>) -> u64
    ensures { result ≡ faults_of P.faults core.now.base pages.now }
{
    match pages {
        Some(disk) => disk.faults(),
        None => core.faults(),
    }
}
