//! Ports for the sessions of a script, split off one member and joined again.
ghost use Rattle.std.specs.Prelude.{◌≡◌, ◌≢◌, ◌<◌, ◌∷◌, ◌++◌, [], length, true, vec_capacity, is_some};
ghost use Rattle.std.specs.List.{AllByRecursion};
ghost use Rattle.turn_lock.specs.Turns.{has_number};
ghost use Rattle.group_commit.specs.Marks.{opening_in};
ghost use Rattle.group_commit.specs.Members.{IsOf, without_number};
ghost use Rattle.group_commit.specs.StorePorts.{HaveSessions, IsSessionNumber, store_ports};
ghost use Rattle.group_commit.specs.inside.Joining.{GoesFrom, HasGivenAway, HaveGivenOnes, IsFirst, IsFresh, IsJoinedTo, IsServed, MayJoin, fresh_port};

use crate::group::GroupCommit;
use crate::member::Member;
use crate::port::StorePort;
use call_contract::TreeCall;
use command_lines::Command;
use dewey_labels::List;
use node_seq::NodeRead;
use outside_traits::Disk;
use session_driver::LineCall;

/// Keeps an item; there is room for it.
pub(crate) fn keep<X: Drop>(items: &mut Vec<X>, item: X)
    requires room { length items.old.items < vec_capacity items.old }
    ensures items { items.new.items ≡ items.old.items ++ item ∷ [] }
{
    if items.push(item).is_err() {
        unreachable!();
    }
}

/// Splits off a port under a number; there is room for it.
fn split_port<'a, C: TreeCall + LineCall + Drop, B: NodeRead + Drop, J: Disk>(
    group: &'a GroupCommit<C, B, J>,
    main: &mut Member<C, B, J>,
    number: u32,
    ports: &mut Vec<StorePort<'a, C, B, J>>,
)
    requires group { IsOf group.now main.old }
    requires opened { is_some (opening_in main.old.pass.seen) ≡ true }
    requires number { (has_number main.old.session.has number ≡ true) × (main.old.session.under ≢ number) }
    requires session { IsSessionNumber number }
    requires room { length ports.old.items < vec_capacity ports.old }
    ensures main { main.new ≡ without_number number main.old }
    ensures ports { ports.new.items ≡ ports.old.items ++ fresh_port main.old number ∷ [] }
{
    let member = group.split(main, number);
    keep(ports, StorePort::new(group, member, number));
}

/// Splits off a port for each session that has lines, but for the one that the member itself works under. False for want of memory.
pub(crate) fn split_ports<'a, C: TreeCall + LineCall + Drop, B: NodeRead + Drop, J: Disk>(
    group: &'a GroupCommit<C, B, J>,
    main: &mut Member<C, B, J>,
    own: u32,
    lines: &[Command],
    ports: &mut Vec<StorePort<'a, C, B, J>>,
) -> bool
    requires first { IsFirst group.now main.old }
    requires own { own ≡ main.old.session.under }
    requires lines { HaveSessions lines.now }
    requires none { ports.old.items ≡ [] }
    ensures main { HasGivenAway main.old main.new }
    ensures own { has_number main.new.session.has main.new.session.under ≡ true }
    ensures fresh { AllByRecursion (IsFresh main.old) ports.new.items }
    ensures given { HaveGivenOnes (store_ports B.contents C.meaning C.made) main.new.session ports.new.items }
    ensures served { result ≡ true → AllByRecursion (IsServed main.new.session) lines.now }
{
    for command in lines {
        let number = command.session;
        if number != own && main.has(number) {
            if ports.reserve(1).is_err() {
                return false;
            }
            split_port(group, main, number, ports);
        }
    }
    true
}

/// Joins ports to a member.
pub(crate) fn join_ports<C: TreeCall + LineCall + Drop, B: NodeRead + Drop, J: Disk>(
    group: &GroupCommit<C, B, J>,
    main: &mut Member<C, B, J>,
    mut ports: Vec<StorePort<'_, C, B, J>>,
)
    requires group { IsOf group.now main.old }
    requires ports { AllByRecursion (MayJoin group.now) ports.items }
    ensures group { IsOf group.now main.new }
    ensures main { GoesFrom main.old main.new }
    ensures ports { AllByRecursion (IsJoinedTo main.new) ports.entry.items }
{
    while let Some(port) = ports.pop() {
        group.join(main, port.into_member());
    }
}

/// Joins all ports to the last one.
pub(crate) fn join_all<C: TreeCall + LineCall + Drop, B: NodeRead + Drop, J: Disk>(
    group: &GroupCommit<C, B, J>,
    ports: List<StorePort<'_, C, B, J>>,
) -> Member<C, B, J>
    requires some { ports ≢ [] }
    requires ports { AllByRecursion (MayJoin group.now) ports }
    ensures group { IsOf group.now result }
    ensures ports { AllByRecursion (IsJoinedTo result) ports.entry }
{
    let mut ports = ports.into_vec();
    match ports.pop() {
        None => unreachable!(),
        Some(port) => {
            let mut main = port.into_member();
            join_ports(group, &mut main, ports);
            main
        }
    }
}
