//! Two members, one after the other.
ghost use Rattle.std.specs.Prelude.{◌≡◌, true};
ghost use Rattle.turn_lock.specs.Turns.{has_number};
ghost use Rattle.group_commit.specs.Members.{IsOf};
ghost use Rattle.group_callers.specs.Members.{HasSeenMore};
ghost use Rattle.group_tests.specs.Members.{HasComeBack};

use crate::stores::{
    Group, NoGroup, One, commit_next, end_and_take_back, group_of, journal_on, numbers_in,
};
use group_callers::cut;
use outside_kinds::MemDisk;
use shared_store::StoreError;
use std::alloc::Global;
use std::sync::Wait;

/// What a commit is answered, and the greatest number that its member then knows as durable.
#[derive(Clone, Copy, Debug, Drop)]
struct Known {
    answer: Result<u32, StoreError>,
    durable: u32,
}

/// A commit by each of two members beside the first, which come back.
fn commit_beside<R: Wait>(
    rt: &R,
    alloc: Global,
    group: &Group<MemDisk>,
    member: &mut One<MemDisk>,
) -> [Known; 2]
    requires group { IsOf group.now member.old × (member.old.session.under ≡ 64) }
    requires numbers { (has_number member.old.session.has 1 ≡ true) × (has_number member.old.session.has 2 ≡ true) }
    ensures { HasComeBack member.old member.new }
{
    let mut one = cut(group, member, 1);
    let mut two = cut(group, member, 2);
    let first = commit_next(rt, alloc, group, &mut one);
    let known_by_first = one.durable();
    let second = commit_next(rt, alloc, group, &mut two);
    let known_by_second = two.durable();
    end_and_take_back(rt, group, member, two);
    end_and_take_back(rt, group, member, one);
    [
        Known {
            answer: first,
            durable: known_by_first,
        },
        Known {
            answer: second,
            durable: known_by_second,
        },
    ]
}

/// A first commit, what two members' commits were answered then, and a member that asked for all of them to be durable;
/// what the file has in the end, and how many calls of its disk there were.
#[derive(Drop)]
struct InTurn {
    first: Result<u32, StoreError>,
    beside: [Known; 2],
    asked: Result<(), StoreError>,
    numbers: Vec<u32>,
    calls: u64,
}

/// Asks for all commits that a member has seen to be durable, if it is to.
fn ask_for_all<R: Wait>(
    rt: &R,
    group: &Group<MemDisk>,
    member: &mut One<MemDisk>,
    asks: bool,
) -> Result<(), StoreError>
    requires { IsOf group.now member.old }
    ensures { HasSeenMore member.old member.new }
{
    if asks {
        group.make_durable(rt, member)
    } else {
        Ok(())
    }
}

fn commit_in_turn<R: Wait>(rt: &R, alloc: Global, asks: bool) -> Result<InTurn, NoGroup> {
    let (group, mut member) = group_of(alloc, journal_on(alloc, &[])?)?;
    let first = commit_next(rt, alloc, &group, &mut member);
    let beside = commit_beside(rt, alloc, &group, &mut member);
    let asked = ask_for_all(rt, &group, &mut member, asks);
    let (_core, journal) = group.close(member);
    let disk = journal.into_disk();
    Ok(InTurn {
        first,
        beside,
        asked,
        numbers: numbers_in(alloc, disk.bytes())?,
        calls: disk.calls(),
    })
}

#[test]
fn two_members_commit_one_after_the_other(rt: HostRuntime) {
    let Ok(done) = commit_in_turn(&rt, rt.alloc(), false) else {
        panic!(rt; "no memory");
    };
    let [one, two] = done.beside;
    assert_eq!(rt; done.first, Ok(1));
    assert_eq!(rt; one.answer, Ok(2));
    assert!(rt; one.durable >= 2);
    assert_eq!(rt; two.answer, Ok(3));
    assert_eq!(rt; two.durable, 3);
    assert_eq!(rt; done.numbers.as_slice(), [1, 2, 3].as_slice());
}

#[test]
fn asking_for_durable_commits_makes_no_call_of_the_disk(rt: HostRuntime) {
    let Ok(silent) = commit_in_turn(&rt, rt.alloc(), false) else {
        panic!(rt; "no memory");
    };
    let Ok(asking) = commit_in_turn(&rt, rt.alloc(), true) else {
        panic!(rt; "no memory");
    };
    assert_eq!(rt; asking.asked, Ok(()));
    assert_eq!(rt; asking.calls, silent.calls);
}

/// What two members are answered where the journal's disk fails: both commits, the second one that asks for all commits to be durable,
/// and a begin of the first one.
#[derive(Clone, Copy, Debug, Drop)]
struct OnFault {
    first: Result<u32, StoreError>,
    second: Result<u32, StoreError>,
    asked: Result<(), StoreError>,
    begun: Result<u32, StoreError>,
}

/// One member's commit on a disk that fails at this call, then another's whose transaction was live before.
fn commit_on_a_failing_disk<R: Wait>(
    rt: &R,
    alloc: Global,
    fails: u64,
) -> Result<OnFault, NoGroup> {
    let (group, mut member) = group_of(alloc, journal_on(alloc, &[fails])?)?;
    let mut two = cut(&group, &mut member, 2);
    let _ordinal = two.begin(rt, alloc, group.store());
    let first = commit_next(rt, alloc, &group, &mut member);
    let second = group.commit(rt, alloc, &mut two);
    let asked = group.make_durable(rt, &mut two);
    let begun = member.begin(rt, alloc, group.store());
    Ok(OnFault {
        first,
        second,
        asked,
        begun,
    })
}

/// Whether the answers are those of two members where the disk failed in the first one's commit, in the second one's, or in none.
/// What the store does in memory goes on.
fn are_as_the_disk_says(answers: &OnFault) -> bool {
    let halted = Err(StoreError::Halted { faults: 1 });
    let commits = match (answers.first, answers.second) {
        (Err(StoreError::DiskFault), Err(StoreError::Halted { faults: 1 })) => {
            answers.asked == halted
        }
        (Ok(1), Err(StoreError::DiskFault)) => answers.asked == halted,
        (Ok(1), Ok(2)) => answers.asked == Ok(()),
        _ => false,
    };
    commits && answers.begun == Ok(2)
}

#[test]
fn behind_a_failed_call_a_live_transaction_is_halted(rt: HostRuntime) {
    let mut halted: u32 = 0;
    for fails in 1..40 {
        if let Ok(answers) = commit_on_a_failing_disk(&rt, rt.alloc(), fails) {
            assert!(rt;
                are_as_the_disk_says(&answers),
                "call {fails} fails: {answers:?}"
            );
            if answers.second == Err(StoreError::Halted { faults: 1 }) {
                halted = halted.saturating_add(1);
            }
        }
    }
    // Head, body, next gate, a sync, the gate, a sync.
    assert_eq!(rt; halted, 6);
}
