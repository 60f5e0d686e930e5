// Two members of a group commit in threads of their own, and what comes back.
ghost use Rattle.std.specs.Thread.{IsSync};
ghost use Rattle.std.specs.Prelude.{◌≡◌, ◌≢◌, ◌<◌, ℕ, false, true, None, IfSome, IsTrue, is_some};
ghost use Rattle.outside_traits.specs.Moments.{IsAllSynced};
ghost use Rattle.journal.specs.Appends.{number_of};
ghost use Rattle.journal.specs.Views.{TakesGroups};
ghost use Rattle.call_contract.specs.Sessions.{live_in};
ghost use Rattle.turn_lock.specs.Turns.{HasAll, has_number};
ghost use Rattle.shared_store.specs.Lists.{book_of};
ghost use Rattle.group_commit.specs.Members.{IsOf};
ghost use Rattle.group_callers.specs.Kept.{IsKept};
ghost use Rattle.group_callers.specs.Members.{HasGiven, HasSeenDurable, HasSeenMore, HasTaken, IsDone, OpensEmpty};

use call_contract::TreeCall;
use group_commit::{GroupCommit, Member};
use journal::{Groups, Journal};
use node_seq::NodeRead;
use outside_traits::Disk;
use shared_store::{Store, StoreError};
use std::alloc::Global;
use std::sync::Wait;
use std::thread::{Threads, join};
use tx_core::Core;

/// What two members' commits were answered, and the core and the journal afterwards.
#[derive(Drop)]
pub struct BothCommitted<C: TreeCall + Drop, B: NodeRead + Drop, J: Disk + Drop> {
    pub first: Result<u32, StoreError>,
    pub second: Result<u32, StoreError>,
    pub core: Core<C, B>,
    pub journal: Journal<J>,
}

/// What a member's thread comes back with: the member, and what its commit was answered.
#[derive(Drop)]
struct Answered<C: TreeCall + Drop, B: NodeRead + Drop, J: Disk> {
    member: Member<C, B, J>,
    answer: Result<u32, StoreError>,
}

/// A journal that was opened without groups; none where it has some.
pub fn without_groups<J: Disk + Drop>(journal: Journal<J>, groups: &Groups) -> Option<Journal<J>>
    requires usable { journal.failed ≡ false }
    requires images { journal.has_images ≡ is_some groups.now.images }
    requires last { journal.last ≡ number_of groups.now }
    ensures { IfSome result (λ empty. TakesGroups empty × (empty.last ≡ None)) }
{
    if groups.commits.as_slice().is_empty() && groups.images.is_none() {
        Some(journal)
    } else {
        None
    }
}

/// The journal of a disk without groups.
fn empty_journal<J: Disk + Drop>(alloc: Global, disk: J) -> Option<Journal<J>>
    requires { IsTrue J.is_known → IsAllSynced (J.history disk) }
    ensures { IfSome result (λ empty. TakesGroups empty × (empty.last ≡ None)) }
{
    match Journal::open(alloc, disk) {
        Ok((journal, groups)) => without_groups(journal, &groups),
        Err(_) => None,
    }
}

/// A group commit over a base and a journal without groups, and its member, which works under 64.
pub fn group_over<C: TreeCall + Drop, B: NodeRead + Drop, J: Disk + Drop>(
    alloc: Global,
    base: B,
    journal: Journal<J>,
) -> Option<(GroupCommit<C, B, J>, Member<C, B, J>)>
    requires { TakesGroups journal × (journal.last ≡ None) }
    ensures group { IfSome result (λ r. IsOf r.0 r.1) }
    ensures under { IfSome result (λ r. r.1.session.under ≡ 64) }
    ensures numbers { IfSome result (λ r. (n : ℕ) → 0 < n → n < 65 → has_number r.1.session.has n ≡ true) }
    ensures all { IfSome result (λ r. HasAll r.1.pass.has) }
    ensures opening { IfSome result (λ r. OpensEmpty r.1.pass.seen) }
{
    let Ok(core) = Core::new(alloc, base, 0, 4_294_967_295) else {
        return None;
    };
    let Ok((store, session)) = Store::new(alloc, core, 64) else {
        return None;
    };
    match GroupCommit::new(alloc, store, session, journal) {
        Ok(made) => Some(made),
        Err(_) => None,
    }
}

/// A transaction of one call. After an Err it may be live.
fn commit_one<C: TreeCall + Drop, B: NodeRead + Drop, J: Disk, R: Wait>(
    rt: &R,
    alloc: Global,
    group: &GroupCommit<C, B, J>,
    member: &mut Member<C, B, J>,
    call: C,
) -> Result<u32, StoreError>
    requires { IsOf group.now member.old × (member.old.session.under ≢ 0) }
    ensures more { HasSeenMore member.old member.new }
    ensures durable { HasSeenDurable member.new result }
{
    member.begin(rt, alloc, group.store())?;
    member.call(rt, alloc, group.store(), call)?;
    group.commit(rt, alloc, member)
}

/// The same, after which the member has no transaction.
fn commit_and_end<C: TreeCall + Drop, B: NodeRead + Drop, J: Disk, R: Wait>(
    rt: &R,
    alloc: Global,
    group: &GroupCommit<C, B, J>,
    mut member: Member<C, B, J>,
    call: C,
) -> Answered<C, B, J>
    requires { IsOf group.now member × (member.session.under ≢ 0) }
    ensures { IsDone member result.member result.answer }
{
    let answer = commit_one(rt, alloc, group, &mut member, call);
    let _ended = member.abort(rt, group.store());
    Answered { member, answer }
}

/// A member of a number that another gives it.
pub fn cut<C: TreeCall + Drop, B: NodeRead + Drop, J: Disk>(
    group: &GroupCommit<C, B, J>,
    member: &mut Member<C, B, J>,
    number: u32,
) -> Member<C, B, J>
    requires group { IsOf group.now member.old }
    requires number { (has_number member.old.session.has number ≡ true) × (member.old.session.under ≢ number) }
    ensures { HasGiven number member.old member.new result }
{
    group.split(member, number)
}

/// Two members each commit, in threads of their own.
fn commit_both<
    C: TreeCall + Drop + Send,
    B: NodeRead + Drop + Send,
    J: Disk + Drop + Send,
    R: Threads + Wait + Sync,
>(
    rt: &R,
    alloc: Global,
    group: &GroupCommit<C, B, J>,
    one: Member<C, B, J>,
    two: Member<C, B, J>,
    first: C,
    second: C,
) -> (Answered<C, B, J>, Answered<C, B, J>)
    requires one { IsOf group.now one × (one.session.under ≢ 0) }
    requires two { IsOf group.now two × (two.session.under ≢ 0) }
    ensures one { IsDone one result.0.member result.0.answer }
    ensures two { IsDone two result.1.member result.1.answer }
{
    join(
        rt,
        move || -> Answered<C, B, J>
            requires { IsOf group.now one × (one.session.under ≢ 0) }
            ensures { IsDone one result.member result.answer }
        { commit_and_end(rt, alloc, group, one, first) },
        move || -> Answered<C, B, J>
            requires { IsOf group.now two × (two.session.under ≢ 0) }
            ensures { IsDone two result.member result.answer }
        { commit_and_end(rt, alloc, group, two, second) },
    )
}

/// Takes a member back, which has no transaction.
pub fn take_back<C: TreeCall + Drop, B: NodeRead + Drop, J: Disk>(
    group: &GroupCommit<C, B, J>,
    member: &mut Member<C, B, J>,
    cut: Member<C, B, J>,
)
    requires { IsOf group.now member.old × IsOf group.now cut × (live_in (book_of cut.session.seen) cut.session.under ≡ None) }
    ensures { HasTaken member.old cut member.new }
{
    group.join(member, cut);
}

/// Two members of a group commit over an empty journal each commit a transaction of one call in a thread of their own, and a third one closes it.
/// A commit that was answered is in the file, whatever a crash leaves of it.
/// None where there was no memory, or the disk isn't that of a journal without groups.
pub fn commit_in_two_threads<
    C: TreeCall + Drop + Send,
    B: NodeRead + Drop + Send,
    J: Disk + Drop + Send,
    R: Threads + Wait + Sync,
>(rt: &R, alloc: Global, base: B, disk: J, first: C, second: C) -> Option<BothCommitted<C, B, J>>
    requires { IsTrue J.is_known → IsAllSynced (J.history disk) }
    ensures first { IfSome result (λ r. IsKept J.is_known r.journal.history r.first) }
    ensures second { IfSome result (λ r. IsKept J.is_known r.journal.history r.second) }
{
    let journal = empty_journal(alloc, disk)?;
    let (group, mut third) = group_over(alloc, base, journal)?;
    let one = cut(&group, &mut third, 1);
    let two = cut(&group, &mut third, 2);
    let (one, two) = commit_both(rt, alloc, &group, one, two, first, second);
    take_back(&group, &mut third, one.member);
    take_back(&group, &mut third, two.member);
    let (core, journal) = group.close(third);
    Some(BothCommitted {
        first: one.answer,
        second: two.answer,
        core,
        journal,
    })
}
