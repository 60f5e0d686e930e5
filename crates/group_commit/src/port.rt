//! The members of a group commit as the ports of workers.
ghost use Rattle.std.specs.Prelude.{◌≡◌, ◌≢◌, None, true};
ghost use Rattle.command_lines.specs.ValidCommands.{IsValidCommand};
ghost use Rattle.turn_lock.specs.Turns.{has_number};
ghost use Rattle.session_driver.specs.Asking.{doing_of as meant};
ghost use Rattle.group_commit.specs.StorePorts.{IsPort};
ghost use Rattle.group_commit.specs.inside.Answering.{LineLeaves};
ghost use Rattle.session_driver.specs.declared.doing.Doing.TheVariants as asked;

use crate::answers::{ended, nothing, number, reply};
use crate::group::GroupCommit;
use crate::member::Member;
use call_contract::TreeCall;
use command_lines::{Command, LineAnswer, LineReply};
use node_seq::NodeRead;
use outside_traits::Disk;
use session_driver::{Doing, LineCall, doing_of};
use std::alloc::Global;
use std::marker::Model;
use std::sync::Wait;
use worker_run::{PortFault, SessionPort};

/// A member of a group commit that does lines: a call waits until it is answered, and nothing is written of that; a commit is durable once it is answered.
#[derive(Drop)]
pub struct StorePort<'a, C: TreeCall + LineCall + Drop, B: NodeRead + Drop, J: Disk> {
    group: &'a GroupCommit<C, B, J>,
    member: Member<C, B, J>,
    number: u32,
    fault: Option<PortFault>,
}

impl<'a, C: TreeCall + LineCall + Drop, B: NodeRead + Drop, J: Disk> Model
    for StorePort<'a, C, B, J> {
    ghost use Rattle.std.specs.Coded.{codes};
    ghost use Rattle.atomic_table.specs.Seated.{table_id_coded};
    ghost use Rattle.tree_model.specs.contracts.fragment.Fragment as fragment;
    ghost use Rattle.std.specs.Prelude.{◌≡◌};
    ghost use Rattle.group_commit.specs.StorePorts.{PortView, IsPort};

    ghost Value = { PortView C B };

    ghost coded = { Prim.hlevel (codes, table_id_coded, fragment.the_row.coded) };

    ghost view = { λ p. record { session = p.member.session; pass = p.member.pass; fault = p.fault } };

    ghost invariant = { λ p. IsPort p.group.now p.member × (p.number ≡ p.member.session.under) };
}

impl<'a, C: TreeCall + LineCall + Drop, B: NodeRead + Drop, J: Disk> StorePort<'a, C, B, J> {
    /// A port that has met no fault.
    pub fn new(
        group: &'a GroupCommit<C, B, J>,
        member: Member<C, B, J>,
        number: u32,
    ) -> StorePort<'a, C, B, J>
        requires { IsPort group.now member × (number ≡ member.session.under) }
        ensures { result ≡ record { session = member.session; pass = member.pass; fault = None } }
    {
        StorePort {
            group,
            member,
            number,
            fault: None,
        }
    }

    /// The member.
    pub fn into_member(self) -> Member<C, B, J>
        ensures { result ≡ record { session = self.entry.session; pass = self.entry.pass } }
    {
        let StorePort { member, .. } = self;
        member
    }
}

/// Begins a transaction.
fn begin<R: Wait, C: TreeCall + LineCall + Drop, B: NodeRead + Drop, J: Disk>(
    rt: &R,
    alloc: Global,
    group: &GroupCommit<C, B, J>,
    member: &mut Member<C, B, J>,
) -> Result<LineAnswer, PortFault>
    requires { IsPort group.now member.old }
    ensures { LineLeaves B.contents C.meaning member.old asked.Begin member.new result }
{
    number(member.begin(rt, alloc, group.store()))
}

/// Commits.
fn commit<R: Wait, C: TreeCall + LineCall + Drop, B: NodeRead + Drop, J: Disk>(
    rt: &R,
    alloc: Global,
    group: &GroupCommit<C, B, J>,
    member: &mut Member<C, B, J>,
) -> Result<LineAnswer, PortFault>
    requires { IsPort group.now member.old }
    ensures { LineLeaves B.contents C.meaning member.old asked.Commit member.new result }
{
    number(group.commit(rt, alloc, member))
}

/// Aborts.
fn abort<R: Wait, C: TreeCall + LineCall + Drop, B: NodeRead + Drop, J: Disk>(
    rt: &R,
    group: &GroupCommit<C, B, J>,
    member: &mut Member<C, B, J>,
) -> Result<LineAnswer, PortFault>
    requires { IsPort group.now member.old }
    ensures { LineLeaves B.contents C.meaning member.old asked.Abort member.new result }
{
    nothing(member.abort(rt, group.store()))
}

/// Makes a call, which waits until it is answered.
fn call<R: Wait, C: TreeCall + LineCall + Drop, B: NodeRead + Drop, J: Disk>(
    rt: &R,
    alloc: Global,
    group: &GroupCommit<C, B, J>,
    member: &mut Member<C, B, J>,
    call: C,
) -> Result<LineAnswer, PortFault>
    requires { IsPort group.now member.old }
    ensures { LineLeaves B.contents C.meaning member.old (asked.Call call) member.new result }
{
    ended(member.call(rt, alloc, group.store(), call))
}

/// Does what a line asks.
fn answer<R: Wait, C: TreeCall + LineCall + Drop, B: NodeRead + Drop, J: Disk>(
    rt: &R,
    alloc: Global,
    group: &GroupCommit<C, B, J>,
    member: &mut Member<C, B, J>,
    doing: Doing<C>,
) -> Result<LineAnswer, PortFault>
    requires { IsPort group.now member.old }
    ensures { LineLeaves B.contents C.meaning member.old doing member.new result }
{
    match doing {
        Doing::Begin => begin(rt, alloc, group, member),
        Doing::Commit => commit(rt, alloc, group, member),
        Doing::Abort => abort(rt, group, member),
        Doing::Call(made) => call(rt, alloc, group, member, made),
    }
}

/// Does a command.
fn command_answer<R: Wait, C: TreeCall + LineCall + Drop, B: NodeRead + Drop, J: Disk>(
    rt: &R,
    alloc: Global,
    group: &GroupCommit<C, B, J>,
    member: &mut Member<C, B, J>,
    command: &Command,
) -> Result<LineAnswer, PortFault>
    requires port { IsPort group.now member.old }
    requires valid { IsValidCommand command.now }
    ensures { LineLeaves B.contents C.meaning member.old (meant C.made command.now.what) member.new result }
{
    match command.what.copy(alloc) {
        Ok(what) => answer(rt, alloc, group, member, doing_of(what)),
        Err(_) => Err(PortFault::NoMemory),
    }
}

impl<'a, C: TreeCall + LineCall + Drop, B: NodeRead + Drop, J: Disk> SessionPort
    for StorePort<'a, C, B, J> {
    ghost use Rattle.group_commit.specs.StorePorts.{store_ports};
    ghost use Rattle.group_commit.specs.inside.PortLaws.{nothing_done, done_on};

    ghost ports = { store_ports B.contents C.meaning C.made };

    fn line<R: Wait>(
        &mut self,
        rt: &R,
        alloc: Global,
        command: &Command,
    ) -> Result<LineReply, PortFault> {
        let answer = command_answer(rt, alloc, self.group, &mut self.member, command);
        if let Err(fault) = answer {
            self.fault = Some(fault);
            return Err(fault);
        }
        reply(self.number, answer)
    }

    fn session(&self) -> u32 {
        self.number
    }

    fn fault(&self) -> Option<PortFault> {
        self.fault
    }

    fn end<R: Wait>(&mut self, rt: &R) {
        let _ended = self.member.abort(rt, self.group.store());
    }

    ghost did_nothing = { nothing_done B.contents C.meaning C.made };

    ghost did_on = { done_on B.contents C.meaning C.made };
}
