//! An attempt of a call: it is answered, waits, is a deadlock, or is given up.

ghost use Rattle.std.specs.Prelude.{◌≡◌, ℕ, ◌+◌, ◌≤◌, ◌<◌, Some, None, IfOk, IfErr, OnOk, OnErr, IsSome, is_some, cond, ◌==◌, List, length};
ghost use Rattle.std.specs.Ordering.{nat_cmp};
ghost use Rattle.std.specs.BTreeMap.{get};
ghost use Rattle.node_seq.specs.ChangeLists.{IsChangeList};
ghost use Rattle.tx_core.specs.inside.Committing.{commit_refused};
ghost use Rattle.tx_core.specs.inside.Asking.{granted_in, IsInside};
ghost use Rattle.tx_core.specs.inside.Known.{IsKnown, seen_by};
ghost use Rattle.tx_core.specs.inside.Passed.{ArePassed};
ghost use Rattle.outside_traits.specs.Faults.{HasCause};
ghost use Rattle.node_seq.specs.declared.node_read.SeqError.TheVariants.{DiskFault};
ghost use Rattle.call_contract.specs.Sessions.{live_in};
ghost use Rattle.tx_core.specs.Refusals.{shown_call_refusal, refused_call};
ghost use Rattle.tx_core.specs.declared.errors.CallError.TheVariants as call_error;
ghost use Rattle.tx_core.specs.inside.Sessions.{HasRoom, IsSeated, IsSeatedAs, wait_in};
ghost use Rattle.tx_core.specs.inside.Standing.{OfState, KeepsState, seat_in, ordinal_in};
ghost use Rattle.tx_core.specs.inside.Goes.{Stays, Goes, ReachesFrom, IsAsked, IsMade, IsAccepted, IsAnswered, IsLeft, IsSettled, IsUnanswered, call_entry};

use crate::asking::{Got, Outcome, Wanted, ask_all, asked, made};
use crate::ends::{make_room, note, stop_waiting};
use crate::errors::{CallError, SessionError};
use crate::failures::give_up;
use crate::parts::{Parts, Places, Seat};
use crate::passed::{keep_passed, lay_own, take_passed};
use crate::places::{seat_again, seat_at, unseat};
use crate::waits::wait;
use call_contract::{Answer, Event, EventAnswer, Noted, TreeCall};
use dewey_labels::{List, NoMemory};
use lock_resources::Request;
use node_seq::{NodeRead, SeqError};
use std::alloc::Global;
use tree_model::Reply;

/// What a call of a session asks for, and its reply where that is known by then.
pub fn requests_of<C: TreeCall + Drop, B: NodeRead>(
    alloc: Global,
    parts: &mut Parts<C, B>,
    session: u32,
    call: &C,
) -> Result<Wanted, SeqError>
    requires ready { wait_in (get nat_cmp parts.old.places session) ≡ Some None }
    requires passed { ArePassed B.contents parts.old }
    ensures value { IfOk result (λ wanted. OfState C.is_valid C.meaning B.contents parts.old
        (λ st. IsAsked C.meaning st session call.now wanted.requests)) }
    ensures known { IfOk result (λ wanted. IsKnown C.is_valid C.meaning (seen_by B.contents parts.new session) call.now wanted.reply) }
    ensures valid { C.is_valid call.now }
    ensures stays { Stays C.is_valid C.meaning B.contents parts.old parts.new }
    ensures passed { ArePassed B.contents parts.new }
    ensures same { parts.new ≡ record parts.old { base = parts.new.base; passed = parts.new.passed } }
    ensures unchanged { B.unchanged parts.old.base parts.new.base }
    ensures cause { HasCause DiskFault (B.count parts.old.base) (B.count parts.new.base) result }
{
    match seat_at(&parts.places, session) {
        Some(seat) => {
            let mut gaps = take_passed(alloc, &mut parts.passed, session);
            let base = &mut parts.base;
            let wanted = asked(alloc, base, &parts.layers, &seat.own, &mut gaps, call);
            keep_passed(&mut parts.passed, session, gaps);
            wanted
        }
        None => unreachable!(),
    }
}

/// What the call answers, and what it changes. Nothing is read where its reply is known.
pub fn outcome_of<C: TreeCall + Drop, B: NodeRead>(
    alloc: Global,
    parts: &mut Parts<C, B>,
    session: u32,
    call: &C,
    known: Option<Reply>,
) -> Result<Outcome, SeqError>
    requires seated { IsSome (seat_in (get nat_cmp parts.old.places session)) }
    requires known { IsKnown C.is_valid C.meaning (seen_by B.contents parts.old session) call.now known }
    requires passed { ArePassed B.contents parts.old }
    ensures value { IfOk result (λ outcome. OfState C.is_valid C.meaning B.contents parts.old
        (λ st. IsMade C.meaning st session call.now outcome)) }
    ensures rise { IfOk result (λ outcome. IsChangeList outcome.changes) }
    ensures valid { C.is_valid call.now }
    ensures stays { Stays C.is_valid C.meaning B.contents parts.old parts.new }
    ensures passed { ArePassed B.contents parts.new }
    ensures same { parts.new ≡ record parts.old { base = parts.new.base; passed = parts.new.passed } }
    ensures unchanged { B.unchanged parts.old.base parts.new.base }
    ensures cause { HasCause DiskFault (B.count parts.old.base) (B.count parts.new.base) result }
{
    if let Some(reply) = known {
        let changes = List::new(alloc);
        return Ok(Outcome { reply, changes });
    }
    match seat_at(&parts.places, session) {
        Some(seat) => {
            let mut gaps = take_passed(alloc, &mut parts.passed, session);
            let base = &mut parts.base;
            let outcome = made(alloc, base, &parts.layers, &seat.own, &mut gaps, call);
            keep_passed(&mut parts.passed, session, gaps);
            outcome
        }
        None => unreachable!(),
    }
}

/// Asks for these, one after another.
pub fn ask_in_turn<C: TreeCall + Drop, B: NodeRead>(
    alloc: Global,
    parts: &mut Parts<C, B>,
    session: u32,
    requests: &[Request],
) -> Got
    ensures got { ReachesFrom C.is_valid C.meaning B.contents parts.old session requests.now result
        parts.new }
    ensures within { granted_in requests.now result ≤ length requests.now }
    ensures inside { IsInside requests.now result }
    ensures untouched { granted_in requests.now result ≡ 0
        → KeepsState C.is_valid C.meaning B.contents parts.old parts.new }
    ensures same { parts.new ≡ record parts.old { table = parts.new.table } }
{
    ask_all(alloc, &mut parts.table, session, requests)
}

/// Takes in what a call changed. It costs what that is.
pub fn accept<C: TreeCall + Drop, B: NodeRead>(
    alloc: Global,
    parts: &mut Parts<C, B>,
    session: u32,
    outcome: Outcome,
) -> Result<Reply, NoMemory>
    requires seated { IsSome (seat_in (get nat_cmp parts.old.places session)) }
    requires rise { IsChangeList outcome.changes }
    ensures reply { IfOk result (λ reply. reply ≡ outcome.reply) }
    ensures ok { OnOk result (IsAccepted C.is_valid C.meaning B.contents parts.old session outcome parts.new) }
    ensures err { OnErr result (Stays C.is_valid C.meaning B.contents parts.old parts.new) }
    ensures waits { OnOk result ((o : ℕ) → wait_in (get nat_cmp parts.new.places o)
        ≡ cond (session == o) (Some None) (wait_in (get nat_cmp parts.old.places o))) }
    ensures still { OnErr result ((o : ℕ) → wait_in (get nat_cmp parts.new.places o) ≡ wait_in (get nat_cmp parts.old.places o)) }
    ensures ordinals { (o : ℕ) → ordinal_in (get nat_cmp parts.new.places o) ≡ ordinal_in (get nat_cmp parts.old.places o) }
    ensures passed { ArePassed B.contents parts.old → ArePassed B.contents parts.new }
    ensures same { parts.new ≡ record parts.old { places = parts.new.places; passed = parts.new.passed; graph = parts.new.graph } }
{
    // The count tells that a known base's map is in the order of its keys.
    let _faults = parts.base.faults();
    let Outcome { reply, changes } = outcome;
    match unseat(&mut parts.places, session) {
        Some(seat) => {
            let Seat { mut own, waiting } = seat;
            let passed = &mut parts.passed;
            match lay_own(alloc, &parts.layers, &mut own, passed, session, changes) {
                Ok(()) => {
                    seat_again(&mut parts.places, session, Seat { own, waiting: None });
                    parts.graph.stop(session);
                    Ok(reply)
                }
                Err(error) => {
                    seat_again(&mut parts.places, session, Seat { own, waiting });
                    Err(error)
                }
            }
        }
        None => unreachable!(),
    }
}

/// Answers a call that was granted all that it asks for.
pub fn answer<C: TreeCall + Drop, B: NodeRead>(
    alloc: Global,
    parts: &mut Parts<C, B>,
    session: u32,
    call: C,
    known: Option<Reply>,
) -> Result<Answer, (SeqError, C)>
    requires seated { IsSeated parts.old }
    requires ready { wait_in (get nat_cmp parts.old.places session) ≡ Some None }
    requires room { HasRoom 2 parts.old }
    requires known { IsKnown C.is_valid C.meaning (seen_by B.contents parts.old session) call known }
    requires passed { ArePassed B.contents parts.old }
    ensures ok { IfOk result (λ a. IsAnswered C.is_valid C.meaning B.contents parts.old session call a parts.new) }
    ensures err { OnErr result (Stays C.is_valid C.meaning B.contents parts.old parts.new) }
    ensures call { IfErr result (λ e. e.1 ≡ call) }
    ensures seated { IsSeatedAs parts.old parts.new }
    ensures still { OnErr result (HasRoom 2 parts.new × (wait_in (get nat_cmp parts.new.places session) ≡ Some None)) }
    ensures unchanged { B.unchanged parts.old.base parts.new.base }
    ensures cause { HasCause (DiskFault, call) (B.count parts.old.base) (B.count parts.new.base) result }
    ensures passed { ArePassed B.contents parts.new }
{
    let outcome = match outcome_of(alloc, parts, session, &call, known) {
        Ok(outcome) => outcome,
        Err(error) => return Err((error, call)),
    };
    let Ok(copy) = outcome.reply.copy(alloc) else {
        return Err((SeqError::NoMemory, call));
    };
    let Ok(reply) = accept(alloc, parts, session, outcome) else {
        return Err((SeqError::NoMemory, call));
    };
    stop_waiting(&mut parts.waiting, session);
    parts.prepared = None;
    note(
        &mut parts.book,
        Noted {
            session,
            event: Event::Call(call),
            answer: EventAnswer::Call(Answer::Answered(copy)),
        },
    );
    Ok(Answer::Answered(reply))
}

/// The most requests of a call, so that their number fits an entry.
pub const MOST_REQUESTS: usize = 4_294_967_295;

/// Answers, waits or gives up, as far as the requests were granted.
#[tactic(auto, using(crate::proofs::Attempted::left_after))]
fn settle<C: TreeCall + Drop, B: NodeRead>(
    alloc: Global,
    parts: &mut Parts<C, B>,
    session: u32,
    call: C,
    requests: &[Request],
    known: Option<Reply>,
    got: Got,
) -> Result<Answer, CallError>
    requires seated { IsSeated parts.old }
    requires ready { wait_in (get nat_cmp parts.old.places session) ≡ Some None }
    requires room { HasRoom 2 parts.old }
    requires known { IsKnown C.is_valid C.meaning (seen_by B.contents parts.old session) call known }
    requires inside { IsInside requests.now got }
    requires fits { granted_in requests.now got ≤ 4_294_967_295 }
    requires passed { ArePassed B.contents parts.old }
    ensures ok { IfOk result (λ a. IsSettled C.is_valid C.meaning B.contents parts.old session call requests.now got a parts.new) }
    ensures err { IfErr result (λ e. IsLeft C.is_valid C.meaning B.contents B.count parts.old session call (granted_in requests.now got) e parts.new) }
    ensures refused { shown_call_refusal result ≡ None }
    ensures seated { IsSeatedAs parts.old parts.new }
    ensures unchanged { B.unchanged parts.old.base parts.new.base }
    ensures cause { HasCause call_error.DiskFault (B.count parts.old.base) (B.count parts.new.base) result }
    ensures passed { ArePassed B.contents parts.new }
{
    match got {
        Got::All => match answer(alloc, parts, session, call, known) {
            Ok(answer) => Ok(answer),
            Err((error, call)) => Err(give_up(parts, session, call, requests.len(), error)),
        },
        Got::Barred { granted, holders } => {
            match wait(alloc, parts, session, call, &requests[granted], holders) {
                Ok(answer) => Ok(answer),
                Err(call) => Err(give_up(parts, session, call, granted, SeqError::NoMemory)),
            }
        }
        Got::NoMemory { granted } => {
            Err(give_up(parts, session, call, granted, SeqError::NoMemory))
        }
    }
}

/// An attempt of a call by a transaction that doesn't wait, with room in the book for what it comes to.
fn attempt_in_room<C: TreeCall + Drop, B: NodeRead>(
    alloc: Global,
    parts: &mut Parts<C, B>,
    session: u32,
    call: C,
) -> Result<Answer, CallError>
    requires seated { IsSeated parts.old }
    requires ready { wait_in (get nat_cmp parts.old.places session) ≡ Some None }
    requires room { HasRoom 2 parts.old }
    requires passed { ArePassed B.contents parts.old }
    ensures ok { IfOk result (λ a. Goes C.is_valid C.meaning B.contents parts.old (call_entry session call a) parts.new) }
    ensures err { IfErr result (λ e. IsUnanswered C.is_valid C.meaning B.contents B.count parts.old session call e parts.new) }
    ensures refused { shown_call_refusal result ≡ None }
    ensures seated { IsSeatedAs parts.old parts.new }
    ensures unchanged { B.unchanged parts.old.base parts.new.base }
    ensures cause { HasCause call_error.DiskFault (B.count parts.old.base) (B.count parts.new.base) result }
    ensures passed { ArePassed B.contents parts.new }
{
    let Wanted { requests, reply } = match requests_of(alloc, parts, session, &call) {
        Ok(wanted) => wanted,
        Err(error) => return Err(give_up(parts, session, call, 0, error)),
    };
    if requests.len() > MOST_REQUESTS {
        return Err(CallError::NoMemory);
    }
    let got = ask_in_turn(alloc, parts, session, requests.as_slice());
    settle(alloc, parts, session, call, requests.as_slice(), reply, got)
}

/// Why a session's transaction may not attempt a call, if it may not.
fn refusal_at(places: &Places, session: u32) -> Option<SessionError>
    ensures { result ≡ commit_refused (seat_in (get nat_cmp places.now session)) }
{
    match seat_at(places, session) {
        Some(seat) => {
            if seat.waiting.is_some() {
                Some(SessionError::IsWaiting)
            } else {
                None
            }
        }
        None => Some(SessionError::NoTransaction),
    }
}

/// An attempt of a call: it is answered, waits or ends in a deadlock, or it is given up.
pub fn attempt<C: TreeCall + Drop, B: NodeRead>(
    alloc: Global,
    parts: &mut Parts<C, B>,
    session: u32,
    call: C,
) -> Result<Answer, CallError>
    requires seated { IsSeated parts.old }
    requires passed { ArePassed B.contents parts.old }
    ensures ok { IfOk result (λ a. Goes C.is_valid C.meaning B.contents parts.old (call_entry session call a) parts.new) }
    ensures err { IfErr result (λ e. IsUnanswered C.is_valid C.meaning B.contents B.count parts.old session call e parts.new) }
    ensures refused { shown_call_refusal result ≡ refused_call (live_in parts.old.book.items session) }
    ensures seated { IsSeatedAs parts.old parts.new }
    ensures unchanged { B.unchanged parts.old.base parts.new.base }
    ensures cause { HasCause call_error.DiskFault (B.count parts.old.base) (B.count parts.new.base) result }
    ensures passed { ArePassed B.contents parts.new }
{
    if let Some(why) = refusal_at(&parts.places, session) {
        return Err(CallError::Session(why));
    }
    match make_room(parts) {
        Ok(()) => attempt_in_room(alloc, parts, session, call),
        Err(_) => Err(CallError::NoMemory),
    }
}
