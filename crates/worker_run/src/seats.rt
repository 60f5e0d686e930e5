//! The memory of workers, and the way of the ports into them and out again.
ghost use Rattle.std.specs.Prelude.{◌≡◌, ◌≤◌, ◌↔◌, [], length, vec_capacity, IfOk, IsTrue};
ghost use Rattle.std.specs.List.{AllByRecursion, AllZip};
ghost use Rattle.worker_run.specs.Workers.{HaveOnePort, own_lines, ports_of};
ghost use Rattle.worker_run.specs.inside.Merging.{IsSeated, ports_in};
ghost use Rattle.worker_run.specs.inside.Seating.{IsRoom};

use crate::port::SessionPort;
use crate::worker::{Worker, keep};
use command_lines::{Command, LineReply};
use dewey_labels::{List, NoMemory};
use std::alloc::Global;

/// How many of the lines are the session's.
fn count_lines(lines: &[Command], session: u32) -> usize
    ensures { result ≡ length (own_lines session lines.now) }
{
    let mut count = 0;
    for command in lines {
        if command.session == session {
            count += 1;
        }
    }
    count
}

/// Room for the replies of each port's lines.
pub(crate) fn rooms_for<T: SessionPort>(
    alloc: Global,
    ports: &[T],
    lines: &[Command],
) -> Result<Vec<Vec<LineReply>>, NoMemory>
    ensures { IfOk result (λ rooms. AllZip (IsRoom T.ports lines.now) ports.now rooms.items) }
{
    let mut rooms = Vec::with_capacity(alloc, ports.len())?;
    for port in ports {
        let count = count_lines(lines, port.session());
        rooms.push(Vec::with_capacity(alloc, count)?)?;
    }
    Ok(rooms)
}

/// Gives each port its room, in the order of the ports.
pub(crate) fn seat<T: SessionPort + Drop>(
    ports: &mut Vec<T>,
    mut rooms: Vec<Vec<LineReply>>,
    lines: &[Command],
    workers: &mut Vec<Worker<T>>,
)
    requires rooms { AllZip (IsRoom T.ports lines.now) ports.old.items rooms.items }
    requires empty { workers.old.items ≡ [] }
    requires room { length ports.old.items ≤ vec_capacity workers.old }
    ensures ports { ports_in workers.new.items ≡ ports.old.items }
    ensures ready { AllByRecursion (IsSeated T.ports lines.now) workers.new.items }
    ensures moved { (ports.new.items ≡ []) × (vec_capacity ports.new ≡ vec_capacity ports.old) }
{
    while let Some(port) = ports.pop() {
        match rooms.pop() {
            Some(replies) => keep(workers, Worker { port, replies }),
            None => unreachable!(),
        }
    }
    workers.reverse();
}

/// Puts the ports back, in their order.
pub(crate) fn unseat<T: Drop>(mut workers: Vec<Worker<T>>, ports: &mut Vec<T>)
    requires empty { ports.old.items ≡ [] }
    requires room { length workers.items ≤ vec_capacity ports.old }
    ensures { ports.new.items ≡ ports_in workers.items }
{
    while let Some(worker) = workers.pop() {
        let Worker { port, replies: _ } = worker;
        keep(ports, port);
    }
    ports.reverse();
}

/// How many of the ports are the session's.
fn count_ports<T: SessionPort>(ports: &[T], session: u32) -> usize
    ensures { result ≡ length (ports_of T.ports session ports.now) }
{
    let mut count = 0;
    for port in ports {
        if port.session() == session {
            count += 1;
        }
    }
    count
}

/// Whether the session of each line has exactly one port. It takes time for each port and line.
pub fn have_one_port<T: SessionPort>(ports: &List<T>, lines: &List<Command>) -> bool
    ensures { IsTrue result ↔ HaveOnePort T.ports ports.now lines.now }
{
    for line in lines.as_slice() {
        if count_ports(ports.as_slice(), line.session) != 1 {
            return false;
        }
    }
    true
}
