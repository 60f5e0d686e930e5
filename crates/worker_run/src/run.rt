//! The workers of a script, one for each port.
ghost use Rattle.std.specs.Prelude.{◌≡◌, ◌+◌, ◌≤◌, ◌⊎◌, [], length, vec_capacity, None, Some, Err, IfOk, IfErr};
ghost use Rattle.std.specs.List.{AllByRecursion, AllZip};
ghost use Rattle.command_lines.specs.ValidCommands.{IsValidCommand};
ghost use Rattle.worker_run.specs.Workers.{AllEnded, AllHaveWorked, HasReplied, HaveOnePort, first_fault as first_told, own_lines};
ghost use Rattle.worker_run.specs.inside.Merging.{AtEachIndex, IsSeated, WorkerHasServed, ports_in};
ghost use Rattle.worker_run.specs.inside.Running.{HasRooms, RunLeaves};

use crate::merge::merge;
use crate::port::{PortFault, SessionPort};
use crate::seats::{rooms_for, seat, unseat};
use crate::worker::{Worker, work};
use command_lines::{Command, LineReply};
use dewey_labels::{List, NoMemory};
use outside_traits::Gate;
use std::alloc::Global;
use std::sync::Wait;
use std::thread;
use std::thread::Threads;

/// The ports, in their order, and the replies of all lines, in the order of the lines, or why there are none.
#[derive(Debug, Drop)]
pub struct Worked<T> {
    pub ports: List<T>,
    pub replies: Result<List<LineReply>, PortFault>,
}

/// Lets each worker do its lines, in threads of their own where these can be made.
fn run_all<R: Threads + Wait + Sync, T: SessionPort + Send, G: Gate + Sync>(
    rt: &R,
    alloc: Global,
    workers: &mut [Worker<T>],
    lines: &[Command],
    gate: &G,
)
    requires ready { AllByRecursion (IsSeated T.ports lines.now) workers.old }
    requires valid { AllByRecursion IsValidCommand lines.now }
    ensures len { length workers.new ≡ length workers.old }
    ensures each { AtEachIndex workers.old workers.new (WorkerHasServed T.ports lines.now) }
{
    let count = workers.len();
    if count == 0 {
        return;
    }
    thread::for_each_mut(
        rt,
        workers,
        count,
        &|_, worker: &mut Worker<T>|
            requires room { length worker.old.replies.items + length (own_lines (T.ports.told worker.old.port).session lines.now)
                ≤ vec_capacity worker.old.replies }
            requires valid { AllByRecursion IsValidCommand lines.now }
            ensures { WorkerHasServed T.ports lines.entry.now worker.old worker.new }
        { work(rt, alloc, worker, lines, gate) },
    );
}

/// The fault of the first port that tells one.
fn first_fault<T: SessionPort>(workers: &[Worker<T>]) -> Option<PortFault>
    ensures { result ≡ first_told T.ports (ports_in workers.now) }
{
    match workers.split_first() {
        None => None,
        Some((first, rest)) => match first.port.fault() {
            Some(fault) => Some(fault),
            None => first_fault(rest),
        },
    }
}

/// Runs the workers, and puts their replies together where no port tells a fault.
fn replies_of<R: Threads + Wait + Sync, T: SessionPort + Send, G: Gate + Sync>(
    rt: &R,
    alloc: Global,
    workers: &mut [Worker<T>],
    lines: &[Command],
    gate: &G,
    mut out: Vec<LineReply>,
) -> Result<List<LineReply>, PortFault>
    requires ready { AllByRecursion (IsSeated T.ports lines.now) workers.old }
    requires one_port { HaveOnePort T.ports (ports_in workers.old) lines.now }
    requires empty { out.items ≡ [] }
    requires room { length lines.now ≤ vec_capacity out }
    requires valid { AllByRecursion IsValidCommand lines.now }
    ensures { RunLeaves T.ports lines.now (ports_in workers.old) (ports_in workers.new) result }
{
    run_all(rt, alloc, workers, lines, gate);
    match first_fault(workers) {
        Some(fault) => Err(fault),
        None => {
            merge(workers, lines, &mut out);
            Ok(List::from_vec(out))
        }
    }
}

/// Ends the transaction of each port.
fn end_all<R: Wait, T: SessionPort>(rt: &R, ports: &mut [T])
    ensures { AllEnded T.ports ports.old ports.new }
{
    if let Some((first, rest)) = ports.split_first_mut() {
        first.end(rt);
        end_all(rt, rest);
    }
}

/// The memory of a run, all of it before a worker starts.
struct Room<T> {
    rooms: Vec<Vec<LineReply>>,
    workers: Vec<Worker<T>>,
    out: Vec<LineReply>,
}

fn make_room<T: SessionPort + Drop>(
    alloc: Global,
    ports: &[T],
    lines: &[Command],
) -> Result<Room<T>, NoMemory>
    ensures { IfOk result (λ room. HasRooms T.ports lines.now ports.now room.rooms room.workers room.out) }
{
    Ok(Room {
        rooms: rooms_for(alloc, ports, lines)?,
        workers: Vec::with_capacity(alloc, ports.len())?,
        out: Vec::with_capacity(alloc, lines.len())?,
    })
}

/// Does the lines, each session's in their order by a worker of its own, in threads of their own where these can be made.
///
/// A worker calls the gate round each of its lines, and ends its port's transaction when its lines are done or one has met a fault.
/// All memory is taken before a worker starts; where it is lacking, no line is done. It takes time for each port and line.
pub fn run_workers<R: Threads + Wait + Sync, T: SessionPort + Send + Drop, G: Gate + Sync>(
    rt: &R,
    alloc: Global,
    ports: List<T>,
    lines: &List<Command>,
    gate: &G,
) -> Worked<T>
    requires one_port { HaveOnePort T.ports ports lines.now }
    requires valid { AllByRecursion IsValidCommand lines.now }
    ensures ports { AllHaveWorked T.ports lines.now ports result.ports
        ⊎ ((result.replies ≡ Err PortFault.NoMemory) × AllEnded T.ports ports result.ports) }
    ensures all { IfOk result.replies (λ replies. length replies ≡ length lines.now) }
    ensures replies { IfOk result.replies (λ replies. AllZip (HasReplied T.ports lines.now replies) ports result.ports) }
    ensures usable { IfOk result.replies (λ _. first_told T.ports result.ports ≡ None) }
    ensures fault { IfErr result.replies (λ fault. (first_told T.ports result.ports ≡ Some fault) ⊎ (fault ≡ PortFault.NoMemory)) }
{
    let mut ports = ports.into_vec();
    match make_room(alloc, ports.as_slice(), lines.as_slice()) {
        Ok(room) => {
            let Room {
                rooms,
                mut workers,
                out,
            } = room;
            seat(&mut ports, rooms, lines.as_slice(), &mut workers);
            let replies = replies_of(
                rt,
                alloc,
                workers.as_mut_slice(),
                lines.as_slice(),
                gate,
                out,
            );
            unseat(workers, &mut ports);
            Worked {
                ports: List::from_vec(ports),
                replies,
            }
        }
        Err(_) => {
            end_all(rt, ports.as_mut_slice());
            Worked {
                ports: List::from_vec(ports),
                replies: Err(PortFault::NoMemory),
            }
        }
    }
}
