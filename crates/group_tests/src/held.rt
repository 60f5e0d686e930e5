//! What goes on while another's sync is under way: calls are answered, and commits gather that then share their syncs.
ghost use Rattle.std.specs.Thread.{IsSync};
ghost use Rattle.std.specs.Prelude.{◌≡◌, ◌≢◌, ◌<◌, ℕ, true, None, IfOk};
ghost use Rattle.turn_lock.specs.Turns.{has_number};
ghost use Rattle.journal.specs.Views.{TakesGroups};
ghost use Rattle.group_commit.specs.Members.{IsOf};
ghost use Rattle.group_callers.specs.Members.{HasSeenMore};

use crate::hold::{Held, Hold};
use crate::stores::{Group, NoGroup, One, clear, commit_next, group_of, journal_of};
use dewey_labels::List;
use group_callers::cut;
use journal::Journal;
use outside_kinds::MemDisk;
use shared_store::StoreError;
use std::alloc::Global;
use std::sync::{Arc, Wait};
use std::thread::{Threads, join};

type HeldDisk = Held<MemDisk>;

/// The journal of a fresh disk whose syncs are held.
fn held_journal(alloc: Global, hold: &Arc<Hold, Global>) -> Result<Journal<HeldDisk>, NoGroup>
    ensures { IfOk result (λ journal. TakesGroups journal × (journal.last ≡ None)) }
{
    let disk = Held {
        disk: MemDisk::new(List::new(alloc), List::new(alloc)),
        hold: Arc::try_clone(hold)?,
    };
    journal_of(alloc, disk)
}

/// The labels of two documents.
const ONE: &[u8] = b"1.1001";

const OTHER: &[u8] = b"1.1003";

/// A transaction of one member without calls.
fn commit_alone<R: Wait>(
    rt: &R,
    alloc: Global,
    group: &Group<HeldDisk>,
    mut member: One<HeldDisk>,
) -> Option<u32>
    requires { IsOf group.now member × (member.session.under ≢ 0) }
{
    commit_next(rt, alloc, group, &mut member).ok()
}

/// The commit of a member's live transaction, once a sync is under way.
fn commit_during_sync<R: Wait>(
    rt: &R,
    alloc: Global,
    hold: &Hold,
    group: &Group<HeldDisk>,
    mut member: One<HeldDisk>,
) -> Option<u32>
    requires { IsOf group.now member }
{
    hold.await_sync();
    group.commit(rt, alloc, &mut member).ok()
}

/// Whether each of these labels is cleared in one transaction, which begins while a sync is under way. Then the sync may go on,
/// and all commits that the member has seen become durable.
fn clear_during_sync<R: Wait>(
    rt: &R,
    alloc: Global,
    hold: &Hold,
    group: &Group<HeldDisk>,
    mut member: One<HeldDisk>,
    labels: &[&[u8]],
) -> bool
    requires { IsOf group.now member × (member.session.under ≢ 0) }
{
    hold.await_sync();
    if clear_all(rt, alloc, group, &mut member, labels).is_err() {
        return false;
    }
    hold.free();
    group.make_durable(rt, &mut member).is_ok()
}

/// Begins a transaction that clears each of these labels.
fn clear_all<R: Wait>(
    rt: &R,
    alloc: Global,
    group: &Group<HeldDisk>,
    member: &mut One<HeldDisk>,
    labels: &[&[u8]],
) -> Result<(), StoreError>
    requires { IsOf group.now member.old × (member.old.session.under ≢ 0) }
    ensures { HasSeenMore member.old member.new }
{
    member.begin(rt, alloc, group.store())?;
    for label in labels {
        clear(rt, alloc, group, member, label)?;
    }
    Ok(())
}

/// What a commit is answered, and whether a call was answered while the commit's first sync was under way.
fn call_beside<R: Threads + Wait + Sync>(
    rt: &R,
    alloc: Global,
    hold: &Hold,
    group: &Group<HeldDisk>,
    one: One<HeldDisk>,
    two: One<HeldDisk>,
) -> (Option<u32>, bool)
    requires one { IsOf group.now one × (one.session.under ≢ 0) }
    requires two { IsOf group.now two × (two.session.under ≢ 0) }
{
    join(
        rt,
        move || -> Option<u32>
            requires { IsOf group.now one × (one.session.under ≢ 0) }
        { commit_alone(rt, alloc, group, one) },
        move || -> bool
            requires { IsOf group.now two × (two.session.under ≢ 0) }
        { clear_during_sync(rt, alloc, hold, group, two, &[ONE]) },
    )
}

/// The same, and how many syncs the commit made.
fn hold_a_sync<R: Threads + Wait + Sync>(
    rt: &R,
    alloc: Global,
) -> Result<(Option<u32>, bool, Option<u64>), NoGroup> {
    let hold = Arc::new(alloc, Hold::new())?;
    let (group, mut member) = group_of(alloc, held_journal(alloc, &hold)?)?;
    let one = cut(&group, &mut member, 1);
    let two = cut(&group, &mut member, 2);
    hold.arm();
    let (committed, called) = call_beside(rt, alloc, &hold, &group, one, two);
    Ok((committed, called, hold.syncs()))
}

#[test]
fn a_call_is_answered_while_another_s_sync_is_under_way(rt: HostRuntime) {
    assert_eq!(rt; hold_a_sync(&rt, rt.alloc()), Ok((Some(1), true, Some(2))));
}

/// Two commits while another's sync is under way.
fn commit_both<R: Threads + Wait + Sync>(
    rt: &R,
    alloc: Global,
    hold: &Hold,
    group: &Group<HeldDisk>,
    two: One<HeldDisk>,
    three: One<HeldDisk>,
) -> (Option<u32>, Option<u32>)
    requires { IsOf group.now two × IsOf group.now three }
{
    join(
        rt,
        move || -> Option<u32>
            requires { IsOf group.now two }
        { commit_during_sync(rt, alloc, hold, group, two) },
        move || -> Option<u32>
            requires { IsOf group.now three }
        { commit_during_sync(rt, alloc, hold, group, three) },
    )
}

/// Two members with live transactions, and a third that is to wait for both.
#[derive(Drop)]
struct Others {
    two: One<HeldDisk>,
    three: One<HeldDisk>,
    waiter: One<HeldDisk>,
}

/// Two commits while another's sync is under way, and whether a third member then gets the locks that the two have until their commits are visible.
/// Then the sync may go on.
fn commit_others<R: Threads + Wait + Sync>(
    rt: &R,
    alloc: Global,
    hold: &Hold,
    group: &Group<HeldDisk>,
    others: Others,
) -> ((Option<u32>, Option<u32>), bool)
    requires commits { IsOf group.now others.two × IsOf group.now others.three }
    requires waiter { IsOf group.now others.waiter × (others.waiter.session.under ≢ 0) }
{
    let Others { two, three, waiter } = others;
    join(
        rt,
        move || -> (Option<u32>, Option<u32>)
            requires { IsSync R.row × IsOf group.now two × IsOf group.now three }
        { commit_both(rt, alloc, hold, group, two, three) },
        move || -> bool
            requires { IsOf group.now waiter × (waiter.session.under ≢ 0) }
        { clear_during_sync(rt, alloc, hold, group, waiter, &[ONE, OTHER]) },
    )
}

/// What three commits were answered, whether a call that had to wait for two of them went on in the first one's sync, and how many syncs there were.
#[derive(Debug, Drop)]
struct Shared {
    first: Option<u32>,
    others: (Option<u32>, Option<u32>),
    cleared: bool,
    syncs: Option<u64>,
}

/// A commit, and the others' in its first sync.
fn commit_all<R: Threads + Wait + Sync>(
    rt: &R,
    alloc: Global,
    hold: &Hold,
    group: &Group<HeldDisk>,
    one: One<HeldDisk>,
    others: Others,
) -> (Option<u32>, ((Option<u32>, Option<u32>), bool))
    requires one { IsOf group.now one × (one.session.under ≢ 0) }
    requires commits { IsOf group.now others.two × IsOf group.now others.three }
    requires waiter { IsOf group.now others.waiter × (others.waiter.session.under ≢ 0) }
{
    join(
        rt,
        move || -> Option<u32>
            requires { IsOf group.now one × (one.session.under ≢ 0) }
        { commit_alone(rt, alloc, group, one) },
        move || -> ((Option<u32>, Option<u32>), bool)
            requires { IsSync R.row × IsOf group.now others.two × IsOf group.now others.three
                × IsOf group.now others.waiter × (others.waiter.session.under ≢ 0) }
        { commit_others(rt, alloc, hold, group, others) },
    )
}

/// The members beside the first, two of which have cleared a label each.
fn others_of<R: Wait>(
    rt: &R,
    alloc: Global,
    group: &Group<HeldDisk>,
    member: &mut One<HeldDisk>,
) -> Result<Others, NoGroup>
    requires group { IsOf group.now member.old × (member.old.session.under ≡ 64) }
    requires numbers { (n : ℕ) → 1 < n → n < 65 → has_number member.old.session.has n ≡ true }
    ensures commits { IfOk result (λ others. IsOf group.now others.two × IsOf group.now others.three) }
    ensures waiter { IfOk result (λ others. IsOf group.now others.waiter × (others.waiter.session.under ≢ 0)) }
{
    let mut two = cut(group, member, 2);
    let mut three = cut(group, member, 3);
    let waiter = cut(group, member, 4);
    clear_all(rt, alloc, group, &mut two, &[ONE])?;
    clear_all(rt, alloc, group, &mut three, &[OTHER])?;
    Ok(Others { two, three, waiter })
}

fn share_syncs<R: Threads + Wait + Sync>(rt: &R, alloc: Global) -> Result<Shared, NoGroup> {
    let hold = Arc::new(alloc, Hold::new())?;
    let (group, mut member) = group_of(alloc, held_journal(alloc, &hold)?)?;
    let one = cut(&group, &mut member, 1);
    let others = others_of(rt, alloc, &group, &mut member)?;
    hold.arm();
    let (first, (others, cleared)) = commit_all(rt, alloc, &hold, &group, one, others);
    Ok(Shared {
        first,
        others,
        cleared,
        syncs: hold.syncs(),
    })
}

/// Three commits are made durable by two pairs of syncs: the two that became visible in the first one's sync share theirs.
#[test]
fn commits_that_wait_together_share_their_syncs(rt: HostRuntime) {
    let Ok(shared) = share_syncs(&rt, rt.alloc()) else {
        panic!(rt; "no memory");
    };
    assert_eq!(rt; shared.first, Some(1));
    assert!(rt; shared.others == (Some(2), Some(3)) || shared.others == (Some(3), Some(2)));
    assert!(rt; shared.cleared);
    assert_eq!(rt; shared.syncs, Some(4));
}
