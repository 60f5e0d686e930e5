//! Owners who wait for one another at resources, and the cycles that they would close.
use dewey_labels::{Label, List, NoMemory};
use lock_modes::{Ask, EdgeMode, Mode};
use lock_resources::{Request, Resource, Side};
use lock_table::{Asked, LockTable};
use std::alloc::Global;
use std::test::Fail;
use wait_graph::WaitGraph;

/// A table and a graph beside it, as sessions use them.
#[derive(Drop)]
struct Sessions {
    table: LockTable,
    graph: WaitGraph,
}

/// How an ask ends: granted, waiting for these, or a deadlock with this cycle.
#[derive(Debug, Drop, PartialEq)]
enum End {
    Granted,
    Waits(Vec<u32>),
    Deadlock(Vec<u32>),
}

impl End {
    /// How an ask ends that these hold back: with the cycle that waiting would close, or waiting.
    fn of(holders: List<u32>, cycle: Option<List<u32>>) -> End {
        match cycle {
            Some(cycle) => End::Deadlock(cycle.into_vec()),
            None => End::Waits(holders.into_vec()),
        }
    }
}

impl Sessions {
    fn new(alloc: Global) -> Result<Sessions, Fail> {
        Ok(Sessions {
            table: LockTable::new(alloc)?,
            graph: WaitGraph::new(alloc)?,
        })
    }

    /// Waits where that closes no cycle, else answers the cycle.
    fn wait(
        &mut self,
        alloc: Global,
        owner: u32,
        request: Request,
    ) -> Result<Option<List<u32>>, NoMemory> {
        self.graph.reserve(alloc, owner)?;
        match self
            .graph
            .cycle_through(alloc, owner, &request, &self.table)?
        {
            Some(cycle) => Ok(Some(cycle)),
            None => {
                self.graph.wait(owner, request, &self.table);
                Ok(None)
            }
        }
    }

    /// Asks for a mode, and waits where that closes no cycle.
    fn ask(&mut self, alloc: Global, owner: u32, request: Request) -> Result<End, Fail> {
        match self.table.ask(alloc, owner, &request)? {
            Asked::Granted => Ok(End::Granted),
            Asked::Conflict { holders } => {
                let cycle = self.wait(alloc, owner, request)?;
                Ok(End::of(holders, cycle))
            }
        }
    }

    /// Asks for a mode at the n-th child of the document.
    fn ask_child(&mut self, alloc: Global, owner: u32, n: u32, mode: Mode) -> Result<End, Fail> {
        self.ask(alloc, owner, child(alloc, n, mode)?)
    }

    /// Whether a step ends as it is to end.
    fn is_met(&mut self, alloc: Global, step: &Step) -> Result<bool, Fail> {
        match step {
            Step::Asks(owner, label, side, ask, want) => {
                let request = request(alloc, label, *side, *ask)?;
                Ok(is_wanted(&self.ask(alloc, *owner, request)?, want))
            }
            Step::Ends(owner) => {
                self.end(*owner);
                Ok(true)
            }
        }
    }

    /// Ends an owner's transaction.
    fn end(&mut self, owner: u32) {
        self.table.release_all(owner);
        self.graph.stop(owner);
    }
}

/// How an ask is to end.
#[derive(Clone, Copy)]
enum Want {
    Granted,
    Waits(&'static [u32]),
    Deadlock(&'static [u32]),
}

fn is_wanted(end: &End, want: &Want) -> bool {
    match (end, want) {
        (End::Granted, Want::Granted) => true,
        (End::Waits(by), Want::Waits(want)) => by.as_slice() == *want,
        (End::Deadlock(cycle), Want::Deadlock(want)) => cycle.as_slice() == *want,
        _ => false,
    }
}

/// An owner asks for a mode at a label, or at an edge of it, or its transaction ends.
#[derive(Clone, Copy)]
enum Step {
    Asks(u32, &'static str, Option<Side>, Ask, Want),
    Ends(u32),
}

fn request(alloc: Global, label: &str, side: Option<Side>, ask: Ask) -> Result<Request, Fail> {
    let label = Label::read_text(alloc, label.as_bytes())?;
    let resource = match side {
        Some(side) => Resource::Edge(label, side),
        None => Resource::Node(label),
    };
    Ok(Request { resource, ask })
}

/// Whether each ask in turn ends as it is to end.
fn are_met(alloc: Global, steps: &[Step]) -> Result<bool, Fail> {
    let mut all = Sessions::new(alloc)?;
    for step in steps {
        if !all.is_met(alloc, step)? {
            return Ok(false);
        }
    }
    Ok(true)
}

/// A request at the n-th child of the document.
fn child(alloc: Global, n: u32, mode: Mode) -> Result<Request, Fail> {
    let division = n.wrapping_mul(2).wrapping_add(1001);
    let divisions = vec![in alloc; 1, 1001, division]?;
    match Label::of_divisions(List::from_vec(divisions)) {
        Some(label) => Ok(Request {
            resource: Resource::Node(label),
            ask: Ask::Node(mode),
        }),
        None => Err(Fail::from("no label")),
    }
}

const E: &str = "1.1001.1001";

const LR: Ask = Ask::Node(Mode::LR);

const SR: Ask = Ask::Node(Mode::SR);

const CX: Ask = Ask::Node(Mode::CX);

const SX: Ask = Ask::Node(Mode::SX);

/// Two read the children of an element, and each would append one.
const APPENDS: [Step; 6] = [
    Step::Asks(1, E, None, LR, Want::Granted),
    Step::Asks(2, E, None, LR, Want::Granted),
    Step::Asks(1, E, None, CX, Want::Waits(&[2])),
    Step::Asks(2, E, None, CX, Want::Deadlock(&[2, 1])),
    Step::Ends(2),
    Step::Asks(1, E, None, CX, Want::Granted),
];

#[test]
fn two_who_read_the_children_and_append_are_a_deadlock(rt: HostRuntime) -> Result<(), Fail> {
    assert!(rt; are_met(rt.alloc(), &APPENDS)?);
    Ok(())
}

const FIRST: Option<Side> = Some(Side::First);

/// One reads an edge, and another would change it.
const AT_AN_EDGE: [Step; 3] = [
    Step::Asks(1, E, FIRST, Ask::Edge(EdgeMode::ER), Want::Granted),
    Step::Asks(2, E, FIRST, Ask::Edge(EdgeMode::EX), Want::Waits(&[1])),
    Step::Asks(1, E, FIRST, Ask::Edge(EdgeMode::ER), Want::Granted),
];

#[test]
fn who_waits_at_an_edge_is_no_deadlock(rt: HostRuntime) -> Result<(), Fail> {
    assert!(rt; are_met(rt.alloc(), &AT_AN_EDGE)?);
    Ok(())
}

/// Lets owners from 1 to `count` change each its child.
fn change_each(alloc: Global, all: &mut Sessions, count: u32) -> Result<(), Fail> {
    for owner in 1..count.wrapping_add(1) {
        let _granted = all.ask_child(alloc, owner, owner, Mode::SX)?;
    }
    Ok(())
}

/// Lets owners from 1 to below `count` read each the child of the next.
fn read_each_next(alloc: Global, all: &mut Sessions, count: u32) -> Result<(), Fail> {
    for owner in 1..count {
        let _waits = all.ask_child(alloc, owner, owner.wrapping_add(1), Mode::SR)?;
    }
    Ok(())
}

/// Owners from 1 to `count`, each of whom has changed its child and waits to read that of the next; the last asks for the first's.
fn round(alloc: Global, count: u32) -> Result<End, Fail> {
    let mut all = Sessions::new(alloc)?;
    change_each(alloc, &mut all, count)?;
    read_each_next(alloc, &mut all, count)?;
    all.ask_child(alloc, count, 1, Mode::SR)
}

/// The cycle of so many: the last, 1, 2 and so on up to the one before it.
fn cycle_of(alloc: Global, count: u32) -> Result<Vec<u32>, Fail> {
    let mut cycle = vec![in alloc; count]?;
    for owner in 1..count {
        cycle.push(owner)?;
    }
    Ok(cycle)
}

/// Whether the last of so many closes the cycle of them all.
fn closes(alloc: Global, count: u32) -> Result<bool, Fail> {
    let end = round(alloc, count)?;
    Ok(end == End::Deadlock(cycle_of(alloc, count)?))
}

#[test]
fn a_cycle_begins_with_who_closes_it(rt: HostRuntime) -> Result<(), Fail> {
    for count in &[2, 3, 64] {
        assert!(rt; closes(rt.alloc(), *count)?, "{count} owners");
    }
    Ok(())
}

const A: &str = "1.1001.1003";

const B: &str = "1.1001.1005";

const C: &str = "1.1001.1007";

/// 2 and 4 read what 9 asks to change, and wait for 9; 1 reads it too and waits for 4 alone, which waits for 9.
const CYCLES: [Step; 13] = [
    Step::Asks(4, A, None, SR, Want::Granted),
    Step::Asks(2, A, None, SR, Want::Granted),
    Step::Asks(1, A, None, SR, Want::Granted),
    Step::Asks(4, B, None, SX, Want::Granted),
    Step::Asks(9, C, None, SX, Want::Granted),
    Step::Asks(4, C, None, SR, Want::Waits(&[9])),
    Step::Asks(1, B, None, SR, Want::Waits(&[4])),
    Step::Asks(2, C, None, SR, Want::Waits(&[9])),
    Step::Asks(9, A, None, SX, Want::Deadlock(&[9, 2])),
    Step::Ends(2),
    Step::Asks(9, A, None, SX, Want::Deadlock(&[9, 4])),
    Step::Ends(4),
    Step::Asks(9, A, None, SX, Want::Waits(&[1])),
];

#[test]
fn the_least_of_the_shortest_cycles_is_shown(rt: HostRuntime) -> Result<(), Fail> {
    assert!(rt; are_met(rt.alloc(), &CYCLES)?);
    Ok(())
}

/// Three read an element, and 5 would change it: it holds SR there itself, and so waits for the two others alone.
const OTHERS: [Step; 8] = [
    Step::Asks(3, E, None, SR, Want::Granted),
    Step::Asks(5, E, None, SR, Want::Granted),
    Step::Asks(8, E, None, SR, Want::Granted),
    Step::Asks(5, E, None, SX, Want::Waits(&[3, 8])),
    Step::Ends(3),
    Step::Asks(5, E, None, SX, Want::Waits(&[8])),
    Step::Ends(8),
    Step::Asks(5, E, None, SX, Want::Granted),
];

#[test]
fn an_owner_may_wait_for_several_and_not_for_itself(rt: HostRuntime) -> Result<(), Fail> {
    assert!(rt; are_met(rt.alloc(), &OTHERS)?);
    Ok(())
}
