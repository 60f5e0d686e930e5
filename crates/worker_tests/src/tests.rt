//! Workers over ports that count.
ghost use Rattle.std.specs.Prelude.{IfOk};
ghost use Rattle.std.specs.List.{AllByRecursion};
ghost use Rattle.command_lines.specs.ValidCommands.{IsValidCommand};

use crate::counting::CountingPort;
use crate::gates::{InTurn, Rounds};
use command_lines::{Command, LineAnswer, LineReply, What};
use dewey_labels::{List, NoMemory};
use outside_kinds::NoGate;
use outside_traits::Gate;
use std::alloc::Global;
use std::sync::Wait;
use std::thread::Threads;
use tree_model::Reply;
use worker_run::{PortFault, Worked, have_one_port, run_workers};

fn port(session: u32, stops: Option<(u32, PortFault)>) -> CountingPort {
    CountingPort {
        session,
        lines: 0,
        stops,
        fault: None,
        live: false,
    }
}

#[tactic(auto, using(crate::proofs::Lines::all_with))]
fn lines(alloc: Global, sessions: &[u32]) -> Result<List<Command>, NoMemory>
    ensures { IfOk result (AllByRecursion IsValidCommand) }
{
    let mut lines = List::new(alloc);
    for session in sessions {
        lines.push(Command {
            session: *session,
            what: What::Begin,
        })?;
    }
    Ok(lines)
}

fn ports(
    alloc: Global,
    given: &[(u32, Option<(u32, PortFault)>)],
) -> Result<List<CountingPort>, NoMemory> {
    let mut ports = List::new(alloc);
    for (session, stops) in given {
        ports.push(port(*session, *stops))?;
    }
    Ok(ports)
}

/// Each reply's session and number, in order.
fn said(alloc: Global, replies: &List<LineReply>) -> Result<Vec<(u32, u32)>, NoMemory> {
    let mut said = Vec::new(alloc);
    for reply in replies.as_slice() {
        if let LineReply::Said {
            session,
            answer: LineAnswer::Reply(Reply::Number(number)),
            ..
        } = reply
        {
            said.push((*session, *number))?;
        }
    }
    Ok(said)
}

/// What a port is: its session, and behind how many lines it meets which fault.
type Given = (u32, Option<(u32, PortFault)>);

/// A script by the sessions of its lines, its ports, the replies by session and number or the fault, and how many lines each port has done.
type Row = (
    &'static [u32],
    &'static [Given],
    Result<&'static [(u32, u32)], PortFault>,
    &'static [u32],
);

const FULL: Option<(u32, PortFault)> = Some((1, PortFault::NoMemory));

const HALTED: Option<(u32, PortFault)> = Some((0, PortFault::Halted { faults: 3 }));

const ROWS: [Row; 7] = [
    (
        &[1, 2, 1, 2, 2],
        &[(2, None), (1, None)],
        Ok(&[(1, 1), (2, 1), (1, 2), (2, 2), (2, 3)]),
        &[3, 2],
    ),
    (
        &[7, 7, 7],
        &[(7, None)],
        Ok(&[(7, 1), (7, 2), (7, 3)]),
        &[3],
    ),
    (&[], &[(1, None), (2, HALTED)], Ok(&[]), &[0, 0]),
    (&[], &[], Ok(&[]), &[]),
    (
        &[2, 1],
        &[(9, None), (1, None), (9, None), (2, None)],
        Ok(&[(2, 1), (1, 1)]),
        &[0, 1, 0, 1],
    ),
    // One meets a fault, and the others do all of theirs; of two faults the first port's is told.
    (
        &[1, 2, 1, 2],
        &[(1, FULL), (2, None)],
        Err(PortFault::NoMemory),
        &[1, 2],
    ),
    (
        &[1, 2, 1, 2],
        &[(2, HALTED), (1, FULL)],
        Err(PortFault::Halted { faults: 3 }),
        &[0, 1],
    ),
];

/// Runs the lines of these sessions over these ports; none where the lines have not one port each.
fn run_over<R: Threads + Wait + Sync, G: Gate + Sync>(
    rt: &R,
    alloc: Global,
    sessions: &[u32],
    given: &[Given],
    gate: &G,
) -> Result<Option<Worked<CountingPort>>, NoMemory> {
    let lines = lines(alloc, sessions)?;
    let ports = ports(alloc, given)?;
    if !have_one_port(&ports, &lines) {
        return Ok(None);
    }
    Ok(Some(run_workers(rt, alloc, ports, &lines, gate)))
}

/// Whether the replies, or the fault, are those of a row, and the ports have done so many lines and have no live transaction.
fn is_row(
    alloc: Global,
    worked: &Worked<CountingPort>,
    want: &Result<&'static [(u32, u32)], PortFault>,
    done: &[u32],
) -> Result<bool, NoMemory> {
    let replied = match (&worked.replies, want) {
        (Ok(replies), Ok(want)) => said(alloc, replies)?.as_slice() == *want,
        (Err(fault), Err(want)) => fault == want,
        _ => false,
    };
    let mut counts = Vec::new(alloc);
    let mut live = false;
    for port in worked.ports.as_slice() {
        live = live || port.live;
        counts.push(port.lines)?;
    }
    Ok(replied && !live && counts.as_slice() == done)
}

#[test]
fn each_line_has_its_own_reply_up_to_a_fault(rt: HostRuntime) {
    let alloc = rt.alloc();
    for (place, (sessions, given, want, done)) in ROWS.iter().enumerate() {
        match run_over(&rt, alloc, sessions, given, &NoGate) {
            Ok(Some(worked)) => {
                let is_so = is_row(alloc, &worked, want, done) == Ok(true);
                assert!(rt; is_so, "row {place}");
            }
            _ => panic!(rt; "row {place} isn't run"),
        }
    }
}

#[test]
fn workers_run_beside_each_other(rt: HostRuntime) {
    // No worker gets by its first line before the other has come to its own, and the first one's third line is held until the second one's is done.
    let gate = InTurn::new(2);
    let given = [(1, None), (2, None)];
    let worked = run_over(&rt, rt.alloc(), &[1, 1, 1, 2, 2, 2], &given, &gate);
    let is_so = matches!(&worked, Ok(Some(worked)) if worked.replies.is_ok());
    assert!(rt; is_so && gate.held());
}

#[test]
fn the_gate_stands_round_each_line(rt: HostRuntime) {
    // The third line meets a fault: the gate is called round it too, and round no line behind it.
    let gate = Rounds::new();
    let given = [(5, Some((2, PortFault::DiskFault)))];
    let worked = run_over(&rt, rt.alloc(), &[5, 5, 5, 5], &given, &gate);
    let is_so = matches!(&worked, Ok(Some(worked)) if worked.replies.is_err());
    assert!(rt; is_so && gate.counts() == (3, 3, 0));
}

#[test]
fn each_line_has_one_port(rt: HostRuntime) {
    let alloc = rt.alloc();
    for (given, want) in [
        ([(1, None), (2, None)].as_slice(), true),
        ([(1, None), (3, None)].as_slice(), false),
        ([(1, None), (2, None), (1, None)].as_slice(), false),
        (
            [(2, None), (3, None), (1, None), (3, None)].as_slice(),
            true,
        ),
    ] {
        match (ports(alloc, given), lines(alloc, &[1, 2])) {
            (Ok(ports), Ok(lines)) => assert_eq!(rt; have_one_port(&ports, &lines), want),
            _ => panic!(rt; "no memory"),
        }
    }
}
