//! A call that is barred: its session waits, or its transaction ends by a deadlock.

ghost use Rattle.std.specs.Prelude.{◌≡◌, ℕ, ◌+◌, ◌≤◌, ◌<◌, ◌∷◌, ◌++◌, [], Some, None, IfOk, IfErr, OnOk, OnErr, IsSome, List, length, vec_capacity};
ghost use Rattle.std.specs.Ordering.{nat_cmp};
ghost use Rattle.std.specs.BTreeMap.{get};
ghost use Rattle.wait_graph.specs.Graphs.{place as place_by, ClosesNone, IsClosedCycle};
ghost use Rattle.tx_core.specs.inside.Passed.{ArePassed};
ghost use Rattle.tx_core.specs.inside.Sessions.{HasRoom, IsSeated, IsSeatedAs, wait_in};
ghost use Rattle.tx_core.specs.inside.Standing.{MovesTo};
ghost use Rattle.tx_core.specs.inside.Goes.{Stays, IsClosed, IsPut, IsStopped, WaitWouldClose, AnyWaitWouldClose, call_entry, shown_wait, with_wait, enqueued};

use crate::ends::{note, stop_waiting};
use crate::parts::{Parts, Seat};
use crate::passed::end_passed;
use crate::places::{seat_again, unseat};
use call_contract::{Answer, Event, EventAnswer, Noted, TreeCall};
use dewey_labels::{List, NoMemory};
use lock_resources::Request;
use node_seq::NodeRead;
use std::alloc::Global;

/// The cycle that waiting for a request would close. Afterwards there is room for the session to wait.
pub fn cycle_of<C: TreeCall + Drop, B: NodeRead>(
    alloc: Global,
    parts: &mut Parts<C, B>,
    session: u32,
    request: &Request,
) -> Result<Option<List<u32>>, NoMemory>
    ensures cycle { IfOk result (λ cycle.
        AnyWaitWouldClose C.is_valid C.meaning B.contents parts.new session request.now cycle) }
    ensures graph { IfOk result (IsClosedCycle parts.new.graph session request.now parts.new.table) }
    ensures place { OnOk result (IsSome (place_by parts.new.graph session)) }
    ensures room { OnOk result (length parts.new.waiting.items + 1 ≤ vec_capacity parts.new.waiting) }
    ensures stays { Stays C.is_valid C.meaning B.contents parts.old parts.new }
    ensures queue { parts.new.waiting.items ≡ parts.old.waiting.items }
    ensures same { parts.new ≡ record parts.old { waiting = parts.new.waiting; graph = parts.new.graph } }
{
    parts.waiting.reserve(1)?;
    parts.graph.reserve(alloc, session)?;
    parts
        .graph
        .cycle_through(alloc, session, request, &parts.table)
}

/// Sets a transaction to wait with a call, and notes what was answered.
fn set_waiting<C: TreeCall + Drop, B: NodeRead>(
    parts: &mut Parts<C, B>,
    session: u32,
    call: C,
    request: Request,
    noted: Answer,
)
    requires seated { IsSeated parts.old }
    requires ready { wait_in (get nat_cmp parts.old.places session) ≡ Some None }
    requires room { length parts.old.waiting.items + 1 ≤ vec_capacity parts.old.waiting }
    requires book_room { HasRoom 2 parts.old }
    requires noted { (hs : List ℕ) × (noted ≡ shown_wait request hs) }
    requires place { IsSome (place_by parts.old.graph session) }
    requires no_cycle { ClosesNone parts.old.graph session request parts.old.table }
    ensures state { MovesTo C.is_valid C.meaning B.contents parts.old session
        (λ st t. enqueued (with_wait st t call request) session) parts.new }
    ensures book { parts.new.book.items ≡ parts.old.book.items ++ call_entry session call noted ∷ [] }
    ensures prepared { parts.new.prepared ≡ None }
    ensures seated { IsSeatedAs parts.old parts.new }
    ensures base { parts.new.base ≡ parts.old.base }
    ensures passed { ArePassed B.contents parts.old → ArePassed B.contents parts.new }
{
    let entry = parts.book.len();
    match unseat(&mut parts.places, session) {
        Some(seat) => {
            let Seat { own, waiting: _ } = seat;
            let waiting = Some(entry);
            seat_again(&mut parts.places, session, Seat { own, waiting });
        }
        None => unreachable!(),
    }
    parts.graph.wait(session, request, &parts.table);
    enqueue(&mut parts.waiting, session);
    parts.prepared = None;
    note(
        &mut parts.book,
        Noted {
            session,
            event: Event::Call(call),
            answer: EventAnswer::Call(noted),
        },
    );
}

/// Adds a session for which there is room.
fn enqueue(waiting: &mut Vec<u32>, session: u32)
    requires { length waiting.old.items + 1 ≤ vec_capacity waiting.old }
    ensures { waiting.new.items ≡ waiting.old.items ++ session ∷ [] }
{
    if waiting.push(session).is_err() {
        unreachable!();
    }
}

/// Copies of a request and of its holders.
#[derive(Drop)]
pub struct Copies {
    pub waited: Request,
    pub noted: Request,
    pub shown: Request,
    pub holders: List<u32>,
}

pub fn copies_of(alloc: Global, request: &Request, holders: &List<u32>) -> Result<Copies, NoMemory>
    ensures waited { IfOk result (λ copies. copies.waited ≡ request.now) }
    ensures noted { IfOk result (λ copies. copies.noted ≡ request.now) }
    ensures shown { IfOk result (λ copies. copies.shown ≡ request.now) }
    ensures holders { IfOk result (λ copies. copies.holders ≡ holders.now) }
{
    Ok(Copies {
        waited: request.copy(alloc)?,
        noted: request.copy(alloc)?,
        shown: request.copy(alloc)?,
        holders: holders.copy(alloc)?,
    })
}

/// What a wait for a request is answered.
pub fn answer_of(request: Request, holders: List<u32>) -> Answer
    ensures { result ≡ shown_wait request holders }
{
    let Request { resource, ask } = request;
    Answer::Waits {
        resource,
        asks: ask,
        holders,
    }
}

/// Lets a transaction wait for a request that is barred, where that closes no cycle.
fn wait_for<C: TreeCall + Drop, B: NodeRead>(
    alloc: Global,
    parts: &mut Parts<C, B>,
    session: u32,
    call: C,
    request: &Request,
    holders: List<u32>,
) -> Result<Answer, C>
    requires seated { IsSeated parts.old }
    requires ready { wait_in (get nat_cmp parts.old.places session) ≡ Some None }
    requires room { length parts.old.waiting.items + 1 ≤ vec_capacity parts.old.waiting }
    requires book_room { HasRoom 2 parts.old }
    requires place { IsSome (place_by parts.old.graph session) }
    requires no_cycle { ClosesNone parts.old.graph session request.now parts.old.table }
    requires alone { WaitWouldClose C.is_valid C.meaning B.contents parts.old session
        call request.now None }
    ensures ok { IfOk result (λ a. IsPut C.is_valid C.meaning B.contents parts.old session call request.now holders a parts.new) }
    ensures err { OnErr result (Stays C.is_valid C.meaning B.contents parts.old parts.new) }
    ensures call { IfErr result (λ e. e ≡ call) }
    ensures seated { IsSeatedAs parts.old parts.new }
    ensures still { OnErr result (HasRoom 2 parts.new × (wait_in (get nat_cmp parts.new.places session) ≡ Some None)) }
    ensures base { parts.new.base ≡ parts.old.base }
    ensures passed { ArePassed B.contents parts.old → ArePassed B.contents parts.new }
{
    let Ok(copies) = copies_of(alloc, request, &holders) else {
        return Err(call);
    };
    let Copies {
        waited,
        noted,
        shown,
        holders: named,
    } = copies;
    set_waiting(parts, session, call, waited, answer_of(noted, named));
    Ok(answer_of(shown, holders))
}

/// Lets a transaction wait for a request that is barred, or ends it where that would close a cycle.
pub fn wait<C: TreeCall + Drop, B: NodeRead>(
    alloc: Global,
    parts: &mut Parts<C, B>,
    session: u32,
    call: C,
    request: &Request,
    holders: List<u32>,
) -> Result<Answer, C>
    requires seated { IsSeated parts.old }
    requires ready { wait_in (get nat_cmp parts.old.places session) ≡ Some None }
    requires room { HasRoom 2 parts.old }
    ensures ok { IfOk result (λ a. IsStopped C.is_valid C.meaning B.contents parts.old session call request.now holders a parts.new) }
    ensures err { OnErr result (Stays C.is_valid C.meaning B.contents parts.old parts.new) }
    ensures call { IfErr result (λ e. e ≡ call) }
    ensures seated { IsSeatedAs parts.old parts.new }
    ensures still { OnErr result (HasRoom 2 parts.new × (wait_in (get nat_cmp parts.new.places session) ≡ Some None)) }
    ensures base { parts.new.base ≡ parts.old.base }
    ensures passed { ArePassed B.contents parts.old → ArePassed B.contents parts.new }
{
    let Ok(closed) = cycle_of(alloc, parts, session, request) else {
        return Err(call);
    };
    match closed {
        Some(cycle) => end_by_cycle(alloc, parts, session, call, request, cycle),
        None => wait_for(alloc, parts, session, call, request, holders),
    }
}

/// Ends a transaction by whose waiting a cycle would be closed.
fn end_by_cycle<C: TreeCall + Drop, B: NodeRead>(
    alloc: Global,
    parts: &mut Parts<C, B>,
    session: u32,
    call: C,
    request: &Request,
    cycle: List<u32>,
) -> Result<Answer, C>
    requires seated { IsSeated parts.old }
    requires ready { wait_in (get nat_cmp parts.old.places session) ≡ Some None }
    requires room { HasRoom 2 parts.old }
    requires closes { WaitWouldClose C.is_valid C.meaning B.contents parts.old session
        call request.now (Some cycle) }
    ensures ok { IfOk result (λ a. IsClosed C.is_valid C.meaning B.contents parts.old session call request.now a parts.new) }
    ensures err { OnErr result (Stays C.is_valid C.meaning B.contents parts.old parts.new) }
    ensures call { IfErr result (λ e. e ≡ call) }
    ensures seated { IsSeatedAs parts.old parts.new }
    ensures still { OnErr result (HasRoom 2 parts.new × (wait_in (get nat_cmp parts.new.places session) ≡ Some None)) }
    ensures base { parts.new.base ≡ parts.old.base }
    ensures passed { ArePassed B.contents parts.old → ArePassed B.contents parts.new }
{
    // The conditions alone speak of the request.
    let _request = request;
    let Ok(copy) = cycle.copy(alloc) else {
        return Err(call);
    };
    let _seat = unseat(&mut parts.places, session);
    end_passed(&mut parts.passed, session);
    parts.table.release_all(session);
    parts.graph.stop(session);
    stop_waiting(&mut parts.waiting, session);
    parts.live -= 1;
    parts.prepared = None;
    note(
        &mut parts.book,
        Noted {
            session,
            event: Event::Call(call),
            answer: EventAnswer::Call(Answer::Deadlock { cycle: copy }),
        },
    );
    Ok(Answer::Deadlock { cycle })
}
