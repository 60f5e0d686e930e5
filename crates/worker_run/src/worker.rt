//! What a worker does.
ghost use Rattle.std.specs.Prelude.{◌≡◌, ◌+◌, ◌++◌, ◌∷◌, [], ◌≤◌, ◌<◌, length, None, vec_capacity};
ghost use Rattle.std.specs.List.{AllByRecursion};
ghost use Rattle.command_lines.specs.ValidCommands.{IsValidCommand};
ghost use Rattle.worker_run.specs.Workers.{own_lines};
ghost use Rattle.worker_run.specs.inside.Working.{HasAnswered, HasServed};

use crate::port::SessionPort;
use command_lines::{Command, LineReply};
use outside_traits::Gate;
use std::alloc::Global;
use std::sync::Wait;

/// A port with the replies of its lines.
#[derive(Drop)]
pub(crate) struct Worker<T> {
    pub(crate) port: T,
    pub(crate) replies: Vec<LineReply>,
}

/// Keeps an item; there is room for it.
pub(crate) fn keep<X: Drop>(items: &mut Vec<X>, item: X)
    requires room { length items.old.items < vec_capacity items.old }
    ensures items { items.new.items ≡ items.old.items ++ item ∷ [] }
    ensures room { vec_capacity items.old ≤ vec_capacity items.new }
{
    if items.push(item).is_err() {
        unreachable!();
    }
}

/// Does the lines of the port's session up to the first fault, with the gate round each.
fn do_lines<R: Wait, T: SessionPort, G: Gate>(
    rt: &R,
    alloc: Global,
    port: &mut T,
    replies: &mut Vec<LineReply>,
    lines: &[Command],
    gate: &G,
)
    requires usable { (T.ports.told port.old).fault ≡ None }
    requires room { length replies.old.items + length (own_lines (T.ports.told port.old).session lines.now) ≤ vec_capacity replies.old }
    requires valid { AllByRecursion IsValidCommand lines.now }
    ensures { HasAnswered T.ports lines.now port.old port.new replies.old.items replies.new.items }
{
    let session = port.session();
    let mut number = 0u32;
    for command in lines {
        if command.session == session {
            number = number.saturating_add(1);
            gate.before(session, number);
            let answer = port.line(rt, alloc, command);
            gate.after(session, number);
            match answer {
                Ok(reply) => keep(replies, reply),
                Err(_) => return,
            }
        }
    }
}

/// Does the lines of the port's session, where it tells no fault, and ends its transaction.
pub(crate) fn work<R: Wait, T: SessionPort, G: Gate>(
    rt: &R,
    alloc: Global,
    worker: &mut Worker<T>,
    lines: &[Command],
    gate: &G,
)
    requires room { length worker.old.replies.items + length (own_lines (T.ports.told worker.old.port).session lines.now) ≤ vec_capacity worker.old.replies }
    requires valid { AllByRecursion IsValidCommand lines.now }
    ensures { HasServed T.ports lines.now worker.old.port worker.new.port worker.old.replies.items worker.new.replies.items }
{
    match worker.port.fault() {
        Some(_) => worker.port.end(rt),
        None => {
            do_lines(
                rt,
                alloc,
                &mut worker.port,
                &mut worker.replies,
                lines,
                gate,
            );
            worker.port.end(rt);
        }
    }
}
