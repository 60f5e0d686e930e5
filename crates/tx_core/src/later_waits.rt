//! A call that waits and is barred again: its session waits on, or its transaction ends by a deadlock.

ghost use Rattle.std.specs.Prelude.{◌≡◌, ◌+◌, ◌<◌, false, Some, None, IfOk, OnErr, IsSome, ◌==◌};
ghost use Rattle.wait_graph.specs.Graphs.{waits as waits_by, place as place_by, ClosesNone};
ghost use Rattle.tx_core.specs.Retries.{same_request};
ghost use Rattle.tx_core.specs.inside.Sessions.{HasRoom, IsSeated, IsSeatedAs};
ghost use Rattle.tx_core.specs.inside.Goes.{Stays, AnyWaitWouldClose};
ghost use Rattle.tx_core.specs.inside.Passed.{ArePassed};
ghost use Rattle.tx_core.specs.inside.Retrying.{waiting_call, waits_for_it, TellsBarred, WaitsAgain, IsClosedAgain, IsStoppedAgain};

use crate::ends::stop_waiting;
use crate::parts::Parts;
use crate::passed::end_passed;
use crate::places::unseat;
use crate::retries::note_again;
use crate::waits::{Copies, answer_of, copies_of, cycle_of};
use call_contract::{Answer, TreeCall};
use dewey_labels::{List, NoMemory};
use lock_resources::Request;
use lock_table::LockTable;
use node_seq::NodeRead;
use std::alloc::Global;
use wait_graph::WaitGraph;

/// Whether two requests ask for the same.
fn is_same(one: &Request, other: &Request) -> bool
    ensures { result ≡ same_request one.now other.now }
{
    one.resource.cmp(&other.resource).is_eq() && one.ask.name() == other.ask.name()
}

/// Whether a session waits for this very request.
fn waits_for(graph: &WaitGraph, session: u32, request: &Request) -> bool
    ensures { result ≡ waits_for_it (waits_by graph.now session) request.now }
{
    match graph.request_of(session) {
        Some(other) => is_same(other, request),
        None => false,
    }
}

/// Where others still bar the request with which a session waits, the answer that it waits on. This looks at who holds what at the request's resource, and at nothing else.
pub fn still_barred(
    alloc: Global,
    graph: &WaitGraph,
    table: &LockTable,
    session: u32,
) -> Result<Option<Answer>, NoMemory>
    ensures { IfOk result (TellsBarred graph.now table.now session) }
{
    let Some(request) = graph.request_of(session) else {
        return Ok(None);
    };
    let holders = table.barring(alloc, session, request)?;
    if holders.is_empty() {
        return Ok(None);
    }
    let shown = request.copy(alloc)?;
    Ok(Some(answer_of(shown, holders)))
}

/// Lets a transaction that waits go on waiting, for this request. That is noted where it holds more or waited for another one.
fn wait_on<C: TreeCall + Drop, B: NodeRead>(
    alloc: Global,
    parts: &mut Parts<C, B>,
    session: u32,
    request: &Request,
    holders: List<u32>,
    more: bool,
) -> Result<Answer, NoMemory>
    requires seated { IsSeated parts.old }
    requires waits { IsSome (waiting_call parts.old session) }
    requires room { HasRoom 1 parts.old }
    requires place { IsSome (place_by parts.old.graph session) }
    requires no_cycle { ClosesNone parts.old.graph session request.now parts.old.table }
    requires alone { AnyWaitWouldClose C.is_valid C.meaning B.contents parts.old session
        request.now None }
    ensures ok { IfOk result (λ a. WaitsAgain C.is_valid C.meaning B.contents parts.old session request.now holders more a parts.new) }
    ensures err { OnErr result (parts.new ≡ parts.old) }
    ensures seated { IsSeatedAs parts.old parts.new }
    ensures base { parts.new.base ≡ parts.old.base }
    ensures passed { ArePassed B.contents parts.old → ArePassed B.contents parts.new }
{
    if !more && waits_for(&parts.graph, session, request) {
        let shown = request.copy(alloc)?;
        return Ok(answer_of(shown, holders));
    }
    let Copies {
        waited,
        noted,
        shown,
        holders: named,
    } = copies_of(alloc, request, &holders)?;
    parts.graph.wait(session, waited, &parts.table);
    note_again(parts, session, answer_of(noted, named));
    Ok(answer_of(shown, holders))
}

/// Ends a transaction that waits, and by whose waiting again a cycle would be closed.
fn end_again<C: TreeCall + Drop, B: NodeRead>(
    alloc: Global,
    parts: &mut Parts<C, B>,
    session: u32,
    request: &Request,
    cycle: List<u32>,
) -> Result<Answer, NoMemory>
    requires seated { IsSeated parts.old }
    requires waits { IsSome (waiting_call parts.old session) }
    requires closes { AnyWaitWouldClose C.is_valid C.meaning B.contents parts.old session
        request.now (Some cycle) }
    ensures ok { IfOk result (λ a. IsClosedAgain C.is_valid C.meaning B.contents parts.old session request.now a parts.new) }
    ensures err { OnErr result (parts.new ≡ parts.old) }
    ensures seated { IsSeatedAs parts.old parts.new }
    ensures base { parts.new.base ≡ parts.old.base }
    ensures passed { ArePassed B.contents parts.old → ArePassed B.contents parts.new }
{
    // The conditions alone speak of the request.
    let _request = request;
    let copy = cycle.copy(alloc)?;
    let _seat = unseat(&mut parts.places, session);
    end_passed(&mut parts.passed, session);
    parts.table.release_all(session);
    parts.graph.stop(session);
    stop_waiting(&mut parts.waiting, session);
    parts.live -= 1;
    note_again(parts, session, Answer::Deadlock { cycle: copy });
    Ok(Answer::Deadlock { cycle })
}

/// Lets a transaction that waits go on waiting for a request that is barred, or ends it where that would close a cycle.
pub fn wait_again<C: TreeCall + Drop, B: NodeRead>(
    alloc: Global,
    parts: &mut Parts<C, B>,
    session: u32,
    request: &Request,
    holders: List<u32>,
    more: bool,
) -> Result<Answer, NoMemory>
    requires seated { IsSeated parts.old }
    requires waits { IsSome (waiting_call parts.old session) }
    requires room { HasRoom 1 parts.old }
    ensures ok { IfOk result (λ a. IsStoppedAgain C.is_valid C.meaning B.contents parts.old session request.now holders more a parts.new) }
    ensures err { OnErr result (Stays C.is_valid C.meaning B.contents parts.old parts.new) }
    ensures seated { IsSeatedAs parts.old parts.new }
    ensures still { OnErr result (IsSome (waiting_call parts.new session)) }
    ensures base { parts.new.base ≡ parts.old.base }
    ensures passed { ArePassed B.contents parts.old → ArePassed B.contents parts.new }
{
    let closed = cycle_of(alloc, parts, session, request)?;
    match closed {
        Some(cycle) => end_again(alloc, parts, session, request, cycle),
        None => wait_on(alloc, parts, session, request, holders, more),
    }
}
