//! The replies of the workers, put together in the order of the lines.
ghost use Rattle.std.specs.Prelude.{◌≡◌, ◌≤◌, [], length, vec_capacity};
ghost use Rattle.worker_run.specs.inside.Merging.{AreFull, AreMerged, HaveOneSeat, TookLast, ports_in, seats};

use crate::port::SessionPort;
use crate::worker::{Worker, keep};
use command_lines::{Command, LineReply};

/// Takes the last reply of the worker of a session.
fn take_last<T: SessionPort>(workers: &mut [Worker<T>], session: u32) -> Option<LineReply>
    ensures taken { TookLast session (seats T.ports workers.old)
        (seats T.ports workers.new) result }
    ensures ports { ports_in workers.new ≡ ports_in workers.old }
{
    match workers.split_first_mut() {
        None => None,
        Some((first, rest)) => {
            if first.port.session() == session {
                first.replies.pop()
            } else {
                take_last(rest, session)
            }
        }
    }
}

/// Puts the replies of all workers together, in the order of the lines.
pub(crate) fn merge<T: SessionPort>(
    workers: &mut [Worker<T>],
    lines: &[Command],
    out: &mut Vec<LineReply>,
)
    requires full { AreFull lines.now (seats T.ports workers.old) }
    requires one_seat { HaveOneSeat (seats T.ports workers.old) lines.now }
    requires empty { out.old.items ≡ [] }
    requires room { length lines.now ≤ vec_capacity out.old }
    ensures merged { AreMerged lines.now out.new.items (seats T.ports workers.old) }
    ensures all { length out.new.items ≡ length lines.now }
    ensures ports { ports_in workers.new ≡ ports_in workers.old }
{
    let mut left = lines.len();
    while left > 0 {
        left -= 1;
        match take_last(workers, lines[left].session) {
            Some(reply) => keep(out, reply),
            None => unreachable!(),
        }
    }
    out.reverse();
}
