//! The workers of a script over a store, with their commits in its journal.
ghost use Rattle.std.specs.Prelude.{◌≡◌, ◌^◌, ◌<◌, [], length, true, None, Ok, IfOk, IfErr, IfSome, is_some};
ghost use Rattle.shared_store.specs.Lists.{list_of, SessionsFit};
ghost use Rattle.shared_store.specs.Sessions.{IsOpenedAs};
ghost use Rattle.group_commit.specs.Marks.{failure_in, last_commit, opening_in};
ghost use Rattle.group_commit.specs.Members.{AreReached, IsOf};
ghost use Rattle.group_commit.specs.OwnLines.{DoesOwnLines, DoesSomeOwnLines};
ghost use Rattle.group_commit.specs.Cores.{EachFrom, HasBookFrom, IsFrom, MayBeAsked, MayBegin};
ghost use Rattle.group_commit.specs.Journals.{WroteCommits};
ghost use Rattle.group_commit.specs.StorePorts.{HaveSessions, IsSamePass, IsSessionNumber};
ghost use Rattle.group_commit.specs.inside.Handing.{IsAllHandedOut, IsHandedOut};
ghost use Rattle.group_commit.specs.inside.Joining.{HasAllBack, IsFirst};
ghost use Rattle.group_commit.specs.inside.Running.{EachRunFrom, EachSeenFrom};

use crate::answers::fault_of;
use crate::group::{GroupCommit, GroupFault};
use crate::joining::{join_all, join_ports, keep, split_ports};
use crate::member::Member;
use crate::port::StorePort;
use call_contract::TreeCall;
use command_lines::{Command, LineReply};
use dewey_labels::List;
use journal::Journal;
use node_seq::NodeRead;
use outside_traits::{Disk, Gate};
use session_driver::LineCall;
use shared_store::{NoStore, Store};
use std::alloc::Global;
use std::sync::Wait;
use std::thread::Threads;
use tx_core::Core;
use worker_run::{PortFault, Worked, run_workers};

/// The core and the journal when the workers have ended, and the replies of all lines, in the order of the lines, or why there are none.
#[derive(Drop)]
pub struct Ran<C: TreeCall + LineCall + Drop, B: NodeRead + Drop, J: Disk> {
    pub core: Core<C, B>,
    pub journal: Journal<J>,
    pub replies: Result<List<LineReply>, PortFault>,
}

/// The session of the first line; 1 where there is none.
fn first_session(lines: &[Command]) -> u32
    requires { HaveSessions lines.now }
    ensures { IsSessionNumber result }
{
    match lines.first() {
        Some(line) => line.session,
        None => 1,
    }
}

/// A number of this type. Its contract is what it is for.
fn has_64_bits(number: u64)
    ensures { number < 2 ^ 64 }
{
    let _number = number;
}

/// A group commit over a store of this core, with its first member. Where there is no memory for them the core comes back as it was opened, and the journal as it was.
fn open<C: TreeCall + LineCall + Drop, B: NodeRead + Drop, J: Disk>(
    alloc: Global,
    core: Core<C, B>,
    journal: Journal<J>,
    number: u32,
) -> Result<(GroupCommit<C, B, J>, Member<C, B, J>), (Core<C, B>, Journal<J>)>
    requires begin { MayBegin core journal }
    requires number { IsSessionNumber number }
    ensures ok { IfOk result (λ r. IsFirst r.0 r.1) }
    ensures seen { IfOk result (λ r. r.1.session.seen ≡ list_of core core.book []) }
    ensures journal { IfOk result (λ r. IfSome (opening_in r.1.pass.seen) (λ o. o.1 ≡ journal)) }
    ensures err { IfErr result (λ r. IsFrom B.unchanged core r.0 × (r.0.book ≡ []) × (r.1 ≡ journal)) }
{
    // Called for its contract: an empty book has no commit that waits to be handed out.
    core.is_legal();
    let (store, session) = match Store::new(alloc, core, number) {
        Ok(made) => made,
        Err(NoStore { core }) => return Err((core, journal)),
    };
    match GroupCommit::new(alloc, store, session, journal) {
        Ok(made) => Ok(made),
        Err(
            GroupFault {
                store,
                session,
                journal,
            },
        ) => Err((store.close(session), journal)),
    }
}

/// The replies, once all commits are durable that the member has seen; or why these aren't.
fn once_durable<R: Wait, C: TreeCall + LineCall + Drop, B: NodeRead + Drop, J: Disk>(
    rt: &R,
    group: &GroupCommit<C, B, J>,
    main: &mut Member<C, B, J>,
    replies: Result<List<LineReply>, PortFault>,
) -> Result<List<LineReply>, PortFault>
    requires group { IsOf group.now main.old }
    requires opened { is_some (opening_in main.old.pass.seen) ≡ true }
    ensures main { (main.new.session ≡ main.old.session) × IsSamePass main.old.pass main.new.pass }
    ensures replies { IfOk result (λ given. replies ≡ Ok given) }
    ensures durable { IfOk result (λ _. AreReached main.new.pass.seen (last_commit main.new.session.seen) × (failure_in main.new.pass.seen ≡ None)) }
{
    let replies = replies?;
    match group.make_durable(rt, main) {
        Ok(()) => Ok(replies),
        Err(why) => Err(fault_of(why)),
    }
}

/// Does the lines by the members of a group commit, which are split off the first one and joined again. What comes back has joined all others.
fn work<
    R: Threads + Wait + Sync,
    C: TreeCall + LineCall + Drop + Send,
    B: NodeRead + Drop + Send,
    J: Disk + Send,
    G: Gate + Sync,
>(
    rt: &R,
    alloc: Global,
    group: &GroupCommit<C, B, J>,
    mut main: Member<C, B, J>,
    lines: &List<Command>,
    gate: &G,
) -> (Member<C, B, J>, Result<List<LineReply>, PortFault>)
    requires first { IsFirst group.now main }
    requires lines { MayBeAsked lines.now }
    ensures back { HasAllBack group.now main result.0 }
    ensures durable { IfOk result.1 (λ _. AreReached result.0.pass.seen (last_commit result.0.session.seen) × (failure_in result.0.pass.seen ≡ None)) }
    ensures all { IfOk result.1 (λ replies. length replies ≡ length lines.now) }
    ensures does { IfOk result.1 (λ replies.
        EachSeenFrom C.meaning B.contents main result.0 (DoesOwnLines C.made C.meaning lines.now replies)) }
    ensures stops { EachSeenFrom C.meaning B.contents main result.0
        (DoesSomeOwnLines C.made C.meaning lines.now) }
{
    let own = main.number();
    let mut ports = Vec::new(alloc);
    let split = split_ports(group, &mut main, own, lines.as_slice(), &mut ports);
    if !split || ports.reserve(1).is_err() {
        join_ports(group, &mut main, ports);
        return (main, Err(PortFault::NoMemory));
    }
    keep(&mut ports, StorePort::new(group, main, own));
    let Worked { ports, replies } = run_workers(rt, alloc, List::from_vec(ports), lines, gate);
    let mut main = join_all(group, ports);
    let replies = once_durable(rt, group, &mut main, replies);
    (main, replies)
}

/// Does the lines over a group commit, and closes it.
fn run_over<
    R: Threads + Wait + Sync,
    C: TreeCall + LineCall + Drop + Send,
    B: NodeRead + Drop + Send,
    J: Disk + Send,
    G: Gate + Sync,
>(
    rt: &R,
    alloc: Global,
    group: GroupCommit<C, B, J>,
    main: Member<C, B, J>,
    lines: &List<Command>,
    gate: &G,
) -> Ran<C, B, J>
    requires first { IsFirst group main }
    requires lines { MayBeAsked lines.now }
    ensures opened { IsOpenedAs B.unchanged main.session.seen result.core }
    ensures sessions { SessionsFit result.core.book }
    ensures out { IsHandedOut C.meaning B.contents J.is_known main.pass result.core result.journal }
    ensures durable { IfOk result.replies (λ _. IsAllHandedOut C.meaning B.contents J.is_known main.pass result.core result.journal) }
    ensures all { IfOk result.replies (λ replies. length replies ≡ length lines.now) }
    ensures does { IfOk result.replies (λ replies.
        EachRunFrom C.meaning B.contents main result.core (DoesOwnLines C.made C.meaning lines.now replies)) }
    ensures stops { EachRunFrom C.meaning B.contents main result.core
        (DoesSomeOwnLines C.made C.meaning lines.now) }
{
    let (main, replies) = work(rt, alloc, &group, main, lines, gate);
    // Called for its contract: the pass has each number that the session has.
    let _number = main.number();
    let (core, journal) = group.close(main);
    Ran {
        core,
        journal,
        replies,
    }
}

/// Does the lines of a script, each session's in their order by a worker of its own, in threads of their own where these can be made.
///
/// The core's book is the one book of the run. Where there are replies, it has of each session just its lines, answered by the replies in their places, and perhaps the abort of its last transaction;
/// a line that is refused is so in the state between its neighbours' entries. Where a line met a fault there are none, and the book has of each session the first of its lines, the last of them as far as it came.
/// Each commit is written to the journal before its line is answered, those that wait together with one pair of syncs; the journal holds the first commits of the book, and all of them where there are replies.
pub fn run_lines<
    R: Threads + Wait + Sync,
    C: TreeCall + LineCall + Drop + Send,
    B: NodeRead + Drop + Send,
    J: Disk + Send,
    G: Gate + Sync,
>(
    rt: &R,
    alloc: Global,
    core: Core<C, B>,
    journal: Journal<J>,
    lines: &List<Command>,
    gate: &G,
) -> Ran<C, B, J>
    requires begin { MayBegin core journal }
    requires lines { MayBeAsked lines.now }
    ensures opened { IsFrom B.unchanged core result.core }
    ensures book { HasBookFrom C.is_valid C.meaning B.contents core result.core }
    ensures written { WroteCommits C.meaning B.contents J.is_known journal result.replies result.core result.journal }
    ensures all { IfOk result.replies (λ replies. length replies ≡ length lines.now) }
    ensures does { IfOk result.replies (λ replies.
        EachFrom B.contents core result.core (DoesOwnLines C.made C.meaning lines.now replies)) }
    ensures stops { IfErr result.replies (λ _.
        EachFrom B.contents core result.core (DoesSomeOwnLines C.made C.meaning lines.now)) }
{
    let first = first_session(lines.as_slice());
    // Called for their contracts: what a usable journal reads, and that its count of faults has 64 bits.
    journal.is_usable();
    let faults = journal.faults();
    has_64_bits(faults);
    let ran = match open(alloc, core, journal, first) {
        Ok((group, main)) => run_over(rt, alloc, group, main, lines, gate),
        Err((core, journal)) => Ran {
            core,
            journal,
            replies: Err(PortFault::NoMemory),
        },
    };
    // Called for its contract: the book is legal.
    ran.core.is_legal();
    ran
}
