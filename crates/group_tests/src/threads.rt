//! Members in threads of their own, over a journal whose disk fails.
ghost use Rattle.std.specs.Thread.{IsSync};
ghost use Rattle.std.specs.Prelude.{◌≡◌, ◌≢◌, ◌<◌};
ghost use Rattle.group_commit.specs.Members.{IsOf};
ghost use Rattle.group_callers.specs.Members.{HasSeenMore};
ghost use Rattle.group_tests.specs.Members.{HasComeBack, HasUpTo};

use crate::stores::{
    Group, NoGroup, One, commit_next, end_and_take_back, group_of, journal_on, numbers_in,
};
use call_contract::Event;
use call_tests::Clear;
use group_callers::cut;
use node_seq::SortedSeq;
use outside_kinds::MemDisk;
use shared_store::StoreError;
use std::alloc::Global;
use std::sync::Wait;
use std::thread::{Threads, join};
use tx_core::Core;

/// What commits were answered: the greatest number, how many have one, and how many faults and halts there were.
#[derive(Clone, Copy, Debug, Drop)]
struct Answers {
    greatest: u32,
    acknowledged: u32,
    faults: u32,
    halts: u32,
}

const NONE: Answers = Answers {
    greatest: 0,
    acknowledged: 0,
    faults: 0,
    halts: 0,
};

fn both(one: Answers, other: Answers) -> Answers {
    Answers {
        greatest: one.greatest.max(other.greatest),
        acknowledged: one.acknowledged.saturating_add(other.acknowledged),
        faults: one.faults.saturating_add(other.faults),
        halts: one.halts.saturating_add(other.halts),
    }
}

fn answer_of(answer: Result<u32, StoreError>) -> Answers {
    match answer {
        Ok(number) => Answers {
            greatest: number,
            acknowledged: 1,
            ..NONE
        },
        Err(StoreError::DiskFault) => Answers { faults: 1, ..NONE },
        Err(StoreError::Halted { .. }) => Answers { halts: 1, ..NONE },
        Err(_) => NONE,
    }
}

/// What a member's thread comes back with.
#[derive(Drop)]
struct Done {
    member: One<MemDisk>,
    answers: Answers,
}

/// So many commits of one member.
fn commit_often<R: Wait>(
    rt: &R,
    alloc: Global,
    group: &Group<MemDisk>,
    mut member: One<MemDisk>,
    commits: u32,
) -> Done
    requires { IsOf group.now member × (member.session.under ≢ 0) }
    ensures { HasSeenMore member result.member }
{
    let mut answers = NONE;
    for _ in 0..commits {
        answers = both(
            answers,
            answer_of(commit_next(rt, alloc, group, &mut member)),
        );
    }
    Done { member, answers }
}

/// A member of each number up to this one commits so often, in a thread of its own.
fn spread<R: Threads + Wait + Sync>(
    rt: &R,
    alloc: Global,
    group: &Group<MemDisk>,
    mut member: One<MemDisk>,
    threads: u32,
    commits: u32,
) -> Done
    requires group { IsOf group.now member × (member.session.under ≡ 64) × (threads < 64) }
    requires numbers { HasUpTo threads member }
    ensures { HasComeBack member result.member }
{
    if threads == 0 {
        return Done {
            member,
            answers: NONE,
        };
    }
    let other = cut(group, &mut member, threads);
    let fewer = threads - 1;
    let (mut rest, done) = join(
        rt,
        move || -> Done
            requires { IsSync R.row × IsOf group.now member × (member.session.under ≡ 64) × (fewer < 64)
                × HasUpTo fewer member }
            ensures { HasComeBack member result.member }
        { spread(rt, alloc, group, member, fewer, commits) },
        move || -> Done
            requires { IsOf group.now other × (other.session.under ≢ 0) }
            ensures { HasSeenMore other result.member }
        { commit_often(rt, alloc, group, other, commits) },
    );
    end_and_take_back(rt, group, &mut rest.member, done.member);
    Done {
        member: rest.member,
        answers: both(rest.answers, done.answers),
    }
}

/// How many commits of the book there are.
fn commits_of(core: &Core<Clear, SortedSeq>) -> usize {
    core.book()
        .iter()
        .filter(|noted| matches!(noted.event, Event::Commit))
        .count()
}

/// What threads' commits were answered, how many commits are visible, and the numbers in the file.
#[derive(Drop)]
struct Left {
    answers: Answers,
    visible: usize,
    numbers: Vec<u32>,
}

const THREADS: u32 = 16;

const COMMITS: u32 = 2;

const ALL: u32 = THREADS * COMMITS;

/// Threads of some commits each on a disk that fails at this call.
fn commit_in_threads<R: Threads + Wait + Sync>(
    rt: &R,
    alloc: Global,
    fails: u64,
) -> Result<Left, NoGroup> {
    let (group, member) = group_of(alloc, journal_on(alloc, &[fails])?)?;
    let Done { member, answers } = spread(rt, alloc, &group, member, THREADS, COMMITS);
    let (core, journal) = group.close(member);
    let visible = commits_of(&core);
    let numbers = numbers_in(alloc, journal.into_disk().bytes())?;
    Ok(Left {
        answers,
        visible,
        numbers,
    })
}

/// Whether all are visible, each number up to the greatest acknowledged one is in the file, and each commit that isn't acknowledged
/// is halted, but for the one that met the fault.
fn is_lawful(left: &Left) -> bool {
    let Left {
        answers,
        visible,
        numbers,
    } = left;
    let in_order = numbers.iter().enumerate().all(|(place, number)| (*number as usize).checked_sub(
        1,
    ) == Some(place));
    let refused = answers.faults.saturating_add(answers.halts);
    in_order
        && *visible == ALL as usize
        && numbers.len() >= answers.greatest as usize
        && answers.faults <= 1
        && (answers.halts == 0 || answers.faults == 1)
        && answers.acknowledged.saturating_add(refused) == ALL
}

/// The first call of the journal's disk behind those that make a new journal.
const FIRST_OF_COMMITS: u64 = 8;

/// More calls of it than all commits make.
const MOST_CALLS: u64 = 1_000;

/// The last call that each run makes: a member's second commit is behind its first, so there are two batches, each of six calls.
const IN_EACH_RUN: u64 = 19;

/// Each of these calls fails in turn, until there is none to fail.
#[test]
fn nothing_acknowledged_is_missing_whichever_call_fails(rt: HostRuntime) {
    for fails in FIRST_OF_COMMITS..MOST_CALLS {
        let Ok(left) = commit_in_threads(&rt, rt.alloc(), fails) else {
            panic!(rt; "call {fails} fails: what is left isn't opened");
        };
        assert!(rt;
            is_lawful(&left),
            "call {fails} fails: {:?} and {} in the file",
            left.answers,
            left.numbers.len()
        );
        if left.answers.acknowledged == ALL {
            assert!(rt; fails > IN_EACH_RUN, "call {fails} isn't made");
            return;
        }
    }
    panic!(rt; "a call failed each time");
}
