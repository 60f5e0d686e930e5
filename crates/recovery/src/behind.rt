// The journal is opened beside pages that were read, and its commits are followed.
ghost use Rattle.std.specs.Prelude.{◌≡◌, ◌≤◌, ℕ, [], true, false, Some, unwrap_or, IsTrue, IfOk, IfErr, OnOk, MatchResult};
ghost use Rattle.outside_traits.specs.Moments.{IsAllSynced};
ghost use Rattle.journal.specs.Groups.{only_commits};
ghost use Rattle.journal.specs.Journals.{is_fresh};
ghost use Rattle.journal.specs.Openings.{LeavesSameGroups, Opens};
ghost use Rattle.journal.specs.Refusals.{HasReason, UnlessFault};
ghost use Rattle.store_contents.specs.Contents.{goes_on_from};
ghost use Rattle.recovery.specs.Causes.{HasReasonSince};
ghost use Rattle.recovery.specs.Openings.{KeepsJournalIfKnown, TakesBehind};
ghost use Rattle.recovery.specs.inside.Behind.{AreAnsweredOver, ComesFirst, CountsNoneBeside, CountsOnlyAtFaultBeside, IsAnsweredOver, IsFollowed, LeavesSameBesideAny};
ghost use Rattle.recovery.specs.inside.Counts.{CountRose};
ghost use Rattle.recovery.specs.inside.Nets.{IsNetOf};
ghost use Rattle.recovery.specs.inside.Over.{has_none, groups_before};
ghost use Rattle.recovery.specs.inside.Walking.{PagesHaveBase};

use crate::damage::{first_fault, goes_on_from};
use crate::netting::{Net, follow};
use dewey_labels::List;
use journal::{FIRST_GATE, Groups, Journal, OpenFault};
use node_records::{File, OpenError, Place};
use outside_traits::Disk;
use paged_seq::PagedSeq;
use std::alloc::Global;

/// A journal that was opened, and what its commits make of the pages.
#[derive(Drop)]
pub struct Followed<J: Disk> {
    pub journal: Journal<J>,
    pub net: Net,
}

/// Opens a journal beside pages with this base. It is made in a fresh file, once the records are found to be a tree's;
/// otherwise nothing is written.
pub fn open_behind<J: Disk, P: Disk + Drop>(
    alloc: Global,
    journal: J,
    seq: &mut PagedSeq<P>,
    base: u32,
    fresh: bool,
) -> Result<Followed<J>, OpenFault<J>>
    requires synced { IsTrue J.is_known → IsAllSynced (J.history journal) }
    requires fresh { IsTrue J.is_known → fresh ≡ is_fresh (J.history journal).now.reads }
    requires held { IsTrue P.is_known → PagesHaveBase (P.history seq.old.disk).now.reads base }
    ensures follows { IfOk result (λ f. IsFollowed J.Disk P.Disk journal seq.old base f) }
    ensures next { IfOk result (λ f. TakesBehind f.journal f.net.number) }
    ensures moments { IfOk result (λ f. IsTrue J.is_known
        → LeavesSameBesideAny (J.history journal) f.journal.history) }
    ensures moments_refused { IfErr result (λ refused. IsTrue J.is_known
        → LeavesSameBesideAny (J.history journal) (J.history refused.disk)) }
    ensures reason { IfErr result (λ refused. HasReasonSince (IsAnsweredOver base)
        J.Disk P.Disk journal seq.old.disk refused.disk seq.new.disk refused.fault) }
    ensures untouched { IfErr result (λ refused. HasReason
        (λ _. IsTrue J.is_known → J.history refused.disk ≡ J.history journal) (Unit {0}) refused.fault) }
    ensures kept { IfErr result (λ refused. UnlessFault refused.fault
        (KeepsJournalIfKnown J.Disk journal refused.disk)) }
    ensures most { seq.new.pool.most ≡ seq.old.pool.most }
    ensures pages_same { IsTrue P.is_known → P.history seq.new.disk ≡ P.history seq.old.disk }
    ensures counts { MatchResult result (CountsNoneBeside J.Disk P.Disk journal seq.old seq.new)
        (CountsOnlyAtFaultBeside J.Disk P.Disk journal seq.old seq.new) }
{
    if fresh {
        open_fresh(alloc, journal, seq, base)
    } else {
        open_made(alloc, journal, seq, base)
    }
}

/// Opens a fresh journal beside pages. It is made only once their records are found to be a tree's.
fn open_fresh<J: Disk, P: Disk + Drop>(
    alloc: Global,
    journal: J,
    seq: &mut PagedSeq<P>,
    base: u32,
) -> Result<Followed<J>, OpenFault<J>>
    requires synced { IsTrue J.is_known → IsAllSynced (J.history journal) }
    requires fresh { IsTrue J.is_known → is_fresh (J.history journal).now.reads ≡ true }
    requires held { IsTrue P.is_known → PagesHaveBase (P.history seq.old.disk).now.reads base }
    ensures follows { IfOk result (λ f. IsFollowed J.Disk P.Disk journal seq.old base f) }
    ensures next { IfOk result (λ f. TakesBehind f.journal f.net.number) }
    ensures moments { IfOk result (λ f. IsTrue J.is_known
        → LeavesSameBesideAny (J.history journal) f.journal.history) }
    ensures moments_refused { IfErr result (λ refused. IsTrue J.is_known
        → LeavesSameBesideAny (J.history journal) (J.history refused.disk)) }
    ensures reason { IfErr result (λ refused. HasReasonSince (IsAnsweredOver base)
        J.Disk P.Disk journal seq.old.disk refused.disk seq.new.disk refused.fault) }
    ensures untouched { IfErr result (λ refused. HasReason
        (λ _. IsTrue J.is_known → J.history refused.disk ≡ J.history journal) (Unit {0}) refused.fault) }
    ensures kept { IfErr result (λ refused. UnlessFault refused.fault
        (KeepsJournalIfKnown J.Disk journal refused.disk)) }
    ensures most { seq.new.pool.most ≡ seq.old.pool.most }
    ensures pages_same { IsTrue P.is_known → P.history seq.new.disk ≡ P.history seq.old.disk }
    ensures counts { MatchResult result (CountsNoneBeside J.Disk P.Disk journal seq.old seq.new)
        (CountsOnlyAtFaultBeside J.Disk P.Disk journal seq.old seq.new) }
{
    match follow(alloc, seq, base, List::new(alloc)) {
        Ok(net) => match make(alloc, journal) {
            Ok(journal) => Ok(Followed { journal, net }),
            Err(OpenFault { fault, disk }) => Err(OpenFault { fault, disk }),
        },
        Err(fault) => Err(OpenFault {
            fault,
            disk: journal,
        }),
    }
}

/// Makes a journal in a fresh file. There is none to be damaged but on a disk that isn't known, and gives other bytes at another time.
fn make<J: Disk>(alloc: Global, journal: J) -> Result<Journal<J>, OpenFault<J>>
    requires synced { IsTrue J.is_known → IsAllSynced (J.history journal) }
    requires fresh { IsTrue J.is_known → is_fresh (J.history journal).now.reads ≡ true }
    ensures opens { IfOk result (λ made. IsTrue J.is_known → Opens (J.history journal) made.history (only_commits [])) }
    ensures next { IfOk result (λ made. (number : ℕ) → TakesBehind made number) }
    ensures moments { IfOk result (λ made. IsTrue J.is_known → LeavesSameGroups (J.history journal) made.history) }
    ensures moments_refused { IfErr result (λ refused. IsTrue J.is_known → LeavesSameGroups (J.history journal) (J.history refused.disk)) }
    ensures reason { IfErr result (λ refused. HasReason (λ _. IsTrue J.is_known → ⊥)
        (CountRose J.Disk journal refused.disk) refused.fault) }
    ensures kept { IfErr result (λ refused. UnlessFault refused.fault
        (KeepsJournalIfKnown J.Disk journal refused.disk)) }
    ensures exact { IfOk result (λ made. made.faults ≡ J.faults journal) }
    ensures uncounted { IfErr result (λ refused. UnlessFault refused.fault (J.faults refused.disk ≡ J.faults journal)) }
    ensures later { IfErr result (λ refused. J.faults journal ≤ J.faults refused.disk) }
{
    match Journal::open(alloc, journal) {
        Ok((journal, groups)) => {
            if has_none(&groups) {
                Ok(journal)
            } else {
                Err(OpenFault {
                    fault: OpenError::at(File::Journal, 0),
                    disk: journal.into_disk(),
                })
            }
        }
        Err(OpenFault { fault, disk }) => Err(OpenFault { fault, disk }),
    }
}

/// Whether these are no groups.
fn has_none(groups: &Groups) -> bool
    ensures { result ≡ has_none groups.now }
{
    match groups.commits.as_slice() {
        [] => !groups.images.is_some(),
        _ => false,
    }
}

/// Opens a journal that isn't fresh beside pages. Nothing is written.
fn open_made<J: Disk, P: Disk + Drop>(
    alloc: Global,
    journal: J,
    seq: &mut PagedSeq<P>,
    base: u32,
) -> Result<Followed<J>, OpenFault<J>>
    requires synced { IsTrue J.is_known → IsAllSynced (J.history journal) }
    requires made { IsTrue J.is_known → is_fresh (J.history journal).now.reads ≡ false }
    requires held { IsTrue P.is_known → PagesHaveBase (P.history seq.old.disk).now.reads base }
    ensures follows { IfOk result (λ f. IsFollowed J.Disk P.Disk journal seq.old base f) }
    ensures next { IfOk result (λ f. TakesBehind f.journal f.net.number) }
    ensures same { IfOk result (λ f. IsTrue J.is_known → f.journal.history ≡ J.history journal) }
    ensures same_refused { IfErr result (λ refused. IsTrue J.is_known → J.history refused.disk ≡ J.history journal) }
    ensures reason { IfErr result (λ refused. HasReasonSince (IsAnsweredOver base)
        J.Disk P.Disk journal seq.old.disk refused.disk seq.new.disk refused.fault) }
    ensures most { seq.new.pool.most ≡ seq.old.pool.most }
    ensures pages_same { IsTrue P.is_known → P.history seq.new.disk ≡ P.history seq.old.disk }
    ensures counts { MatchResult result (CountsNoneBeside J.Disk P.Disk journal seq.old seq.new)
        (CountsOnlyAtFaultBeside J.Disk P.Disk journal seq.old seq.new) }
{
    match Journal::open(alloc, journal) {
        Ok((journal, groups)) => match follow_groups(alloc, seq, base, groups) {
            Ok(net) => Ok(Followed { journal, net }),
            Err(fault) => Err(OpenFault {
                fault,
                disk: journal.into_disk(),
            }),
        },
        Err(refused) => {
            let OpenFault { fault, mut disk } = refused;
            let fault = first_fault(&mut disk, Some(base), fault);
            Err(OpenFault { fault, disk })
        }
    }
}

/// Follows the commits of a journal over pages with this base. Images aren't put into pages yet.
fn follow_groups<P: Disk + Drop>(
    alloc: Global,
    seq: &mut PagedSeq<P>,
    base: u32,
    groups: Groups,
) -> Result<Net, OpenError>
    requires held { IsTrue P.is_known → PagesHaveBase (P.history seq.old.disk).now.reads base }
    ensures commits { IfOk result (λ net. groups ≡ only_commits groups.commits) }
    ensures goes_on { IfOk result (λ net. goes_on_from (Some base) groups.commits ≡ true) }
    ensures net { IfOk result (λ net. IsNetOf P.is_known (P.history seq.old.disk).now.reads base groups.commits net.layers.changes net.number) }
    ensures reason { IfErr result (HasReason (AreAnsweredOver P.Disk seq.old.disk base groups)
        (CountRose P.Disk seq.old.disk seq.new.disk)) }
    ensures most { seq.new.pool.most ≡ seq.old.pool.most }
    ensures same { IsTrue P.is_known → P.history seq.new.disk ≡ P.history seq.old.disk }
    ensures exact { OnOk result (P.faults seq.new.disk ≡ P.faults seq.old.disk) }
    ensures uncounted { IfErr result (λ fault. UnlessFault fault (P.faults seq.new.disk ≡ P.faults seq.old.disk)) }
    ensures later { P.faults seq.old.disk ≤ P.faults seq.new.disk }
{
    if groups.images.is_some() {
        return Err(OpenError::at(File::Pages, 0));
    }
    if !goes_on_from(Some(base), groups.commits.as_slice()) {
        return Err(OpenError::at(File::Journal, FIRST_GATE));
    }
    follow(alloc, seq, base, groups.commits)
}

/// Why a store isn't opened whose pages break their first rule at this place: a rule of its journal comes first, and so do images. Nothing is written.
pub fn look_at_journal<J: Disk>(
    alloc: Global,
    journal: J,
    base: Option<u32>,
    broken: Place,
) -> OpenFault<J>
    requires synced { IsTrue J.is_known → IsAllSynced (J.history journal) }
    requires made { IsTrue J.is_known → is_fresh (J.history journal).now.reads ≡ false }
    ensures reason { HasReason (ComesFirst J.is_known base (J.history journal).now.reads broken)
        (CountRose J.Disk journal result.disk) result.fault }
    ensures same { IsTrue J.is_known → J.history result.disk ≡ J.history journal }
    ensures uncounted { UnlessFault result.fault (J.faults result.disk ≡ J.faults journal) }
    ensures later { J.faults journal ≤ J.faults result.disk }
{
    match Journal::open(alloc, journal) {
        Ok((journal, groups)) => {
            let place = place_before(base, &groups, broken);
            let disk = journal.into_disk();
            let fault = OpenError::Damaged(place);
            OpenFault { fault, disk }
        }
        Err(refused) => {
            let OpenFault { fault, mut disk } = refused;
            let fault = first_fault(&mut disk, base, fault);
            OpenFault { fault, disk }
        }
    }
}

/// The place of a journal's groups that comes before one where the pages with this base break a rule, or that one.
fn place_before(base: Option<u32>, groups: &Groups, broken: Place) -> Place
    ensures { result ≡ unwrap_or (groups_before base groups.now) broken }
{
    if groups.images.is_some() {
        return Place {
            file: File::Pages,
            at: 0,
        };
    }
    if goes_on_from(base, groups.commits.as_slice()) {
        broken
    } else {
        Place {
            file: File::Journal,
            at: FIRST_GATE,
        }
    }
}
