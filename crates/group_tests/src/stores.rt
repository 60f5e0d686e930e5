//! Group commits over stores and journals in memory.
ghost use Rattle.std.specs.Prelude.{◌≡◌, ◌≢◌, ◌<◌, ℕ, true, None, IfOk, IsTrue};
ghost use Rattle.outside_traits.specs.Moments.{IsAllSynced};
ghost use Rattle.outside_kinds.specs.MemoryDisks.{history_of};
ghost use Rattle.journal.specs.Views.{TakesGroups};
ghost use Rattle.tree_model.specs.Entries.{Entries};
ghost use Rattle.call_tests.specs.declared.toys.Clear.{Clear};
ghost use Rattle.turn_lock.specs.Turns.{HasAll, has_number};
ghost use Rattle.group_commit.specs.Members.{IsOf, MemberView};
ghost use Rattle.group_callers.specs.Members.{HasSeenMore, HasTaken};

use call_tests::Clear;
use dewey_labels::{Label, List, NoMemory};
use group_callers::{group_over, take_back, without_groups};
use group_commit::{GroupCommit, Member};
use journal::Journal;
use node_seq::SortedSeq;
use outside_kinds::MemDisk;
use outside_traits::Disk;
use shared_store::{Ended, StoreError};
use std::alloc::{AllocError, AllocFailed, Global};
use std::sync::Wait;

pub type Group<D> = GroupCommit<Clear, SortedSeq, D>;

pub type One<D> = Member<Clear, SortedSeq, D>;

/// Why there is no answer: want of memory, a disk that failed before the group commit was made, or a call that is refused.
#[derive(Clone, Copy, Debug, PartialEq, Eq, Drop)]
pub struct NoGroup;

impl From<NoMemory> for NoGroup {
    ghost use Rattle.std.specs.Prelude.{⊤};

    ghost from_gives = { λ _ _. ⊤ };

    fn from(_refused: NoMemory) -> NoGroup {
        NoGroup
    }
}

impl From<AllocError> for NoGroup {
    ghost use Rattle.std.specs.Prelude.{⊤};

    ghost from_gives = { λ _ _. ⊤ };

    fn from(_refused: AllocError) -> NoGroup {
        NoGroup
    }
}

impl<T: Drop> From<AllocFailed<T>> for NoGroup {
    ghost use Rattle.std.specs.Prelude.{⊤};

    ghost from_gives = { λ _ _. ⊤ };

    fn from(_refused: AllocFailed<T>) -> NoGroup {
        NoGroup
    }
}

impl From<StoreError> for NoGroup {
    ghost use Rattle.std.specs.Prelude.{⊤};

    ghost from_gives = { λ _ _. ⊤ };

    fn from(_refused: StoreError) -> NoGroup {
        NoGroup
    }
}

/// A disk in memory with these bytes, which fails at these calls.
fn disk_with(alloc: Global, bytes: &[u8], fails: &[u64]) -> Result<MemDisk, AllocError>
    ensures { IfOk result (λ disk. IsAllSynced (history_of disk)) }
{
    let bytes = List::from_vec(Vec::from_slice(alloc, bytes)?);
    let fails = List::from_vec(Vec::from_slice(alloc, fails)?);
    Ok(MemDisk::new(bytes, fails))
}

/// The journal of a fresh disk in memory, which fails at these calls.
pub fn journal_on(alloc: Global, fails: &[u64]) -> Result<Journal<MemDisk>, NoGroup>
    ensures { IfOk result (λ journal. TakesGroups journal × (journal.last ≡ None)) }
{
    journal_of(alloc, disk_with(alloc, &[], fails)?)
}

/// The journal of a disk that has no groups.
pub fn journal_of<D: Disk + Drop>(alloc: Global, disk: D) -> Result<Journal<D>, NoGroup>
    requires { IsTrue D.is_known → IsAllSynced (D.history disk) }
    ensures { IfOk result (λ journal. TakesGroups journal × (journal.last ≡ None)) }
{
    let Ok((journal, groups)) = Journal::open(alloc, disk) else {
        return Err(NoGroup);
    };
    match without_groups(journal, &groups) {
        Some(journal) => Ok(journal),
        None => Err(NoGroup),
    }
}

/// A group commit over an empty store and a journal without groups, and its member, which works under 64.
pub fn group_of<D: Disk + Drop>(
    alloc: Global,
    journal: Journal<D>,
) -> Result<(Group<D>, One<D>), NoGroup>
    requires { TakesGroups journal × (journal.last ≡ None) }
    ensures group { IfOk result (λ r. IsOf r.0 r.1) }
    ensures under { IfOk result (λ r. r.1.session.under ≡ 64) }
    ensures numbers { IfOk result (λ r. (n : ℕ) → 0 < n → n < 65 → has_number r.1.session.has n ≡ true) }
    ensures all { IfOk result (λ r. HasAll r.1.pass.has) }
{
    match group_over(alloc, SortedSeq::new(alloc), journal) {
        Some(made) => Ok(made),
        None => Err(NoGroup),
    }
}

/// A transaction without calls. After an Err it may be live.
pub fn commit_next<D: Disk, R: Wait>(
    rt: &R,
    alloc: Global,
    group: &Group<D>,
    member: &mut One<D>,
) -> Result<u32, StoreError>
    requires { IsOf group.now member.old × (member.old.session.under ≢ 0) }
    ensures { HasSeenMore member.old member.new }
{
    member.begin(rt, alloc, group.store())?;
    group.commit(rt, alloc, member)
}

/// A call of the live transaction that would clear the text at a label, once no other transaction has it.
pub fn clear<D: Disk, R: Wait>(
    rt: &R,
    alloc: Global,
    group: &Group<D>,
    member: &mut One<D>,
    label: &[u8],
) -> Result<Ended, StoreError>
    requires { IsOf group.now member.old }
    ensures { HasSeenMore member.old member.new }
{
    let Ok(at) = Label::read_text(alloc, label) else {
        return Err(StoreError::NoMemory);
    };
    member.call(rt, alloc, group.store(), Clear { at })
}

/// Joins a member to another, after which it has no transaction.
pub fn end_and_take_back<D: Disk, R: Wait>(
    rt: &R,
    group: &Group<D>,
    member: &mut One<D>,
    mut other: One<D>,
)
    requires { IsOf group.now member.old × IsOf group.now other }
    ensures { (ended : MemberView Clear Entries) × HasSeenMore other ended × HasTaken member.old ended member.new }
{
    let _ended = other.abort(rt, group.store());
    take_back(group, member, other);
}

/// The numbers of the commits in a journal's file.
pub fn numbers_in(alloc: Global, file: &[u8]) -> Result<Vec<u32>, NoGroup> {
    let Ok((_journal, groups)) = Journal::open(alloc, disk_with(alloc, file, &[])?) else {
        return Err(NoGroup);
    };
    let mut numbers = Vec::new(alloc);
    for group in groups.commits.as_slice() {
        numbers.push(group.number)?;
    }
    Ok(numbers)
}
