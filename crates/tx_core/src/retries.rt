//! A further attempt of the call with which a session waits.

ghost use Rattle.std.specs.Prelude.{◌≡◌, ◌+◌, ◌≤◌, ◌<◌, not, [], ◌∷◌, ◌++◌, Some, None, Option, IfOk, IfErr, OnOk, OnErr, IsSome, length, vec_capacity, option_copied};
ghost use Rattle.std.specs.Ordering.{nat_cmp};
ghost use Rattle.std.specs.BTreeMap.{get};
ghost use Rattle.outside_traits.specs.Faults.{HasCause};
ghost use Rattle.lock_table.specs.Tables.{held as held_by};
ghost use Rattle.node_seq.specs.ChangeLists.{IsChangeList};
ghost use Rattle.node_seq.specs.declared.node_read.SeqError.TheVariants as seq_error;
ghost use Rattle.tx_core.specs.Refusals.{shown_call_refusal};
ghost use Rattle.tx_core.specs.Retries.{has_mode};
ghost use Rattle.tx_core.specs.inside.Asking.{granted_in, IsInside};
ghost use Rattle.tx_core.specs.inside.Sessions.{HasRoom, IsSeated, IsSeatedAs};
ghost use Rattle.tx_core.specs.inside.Standing.{seat_in};
ghost use Rattle.tx_core.specs.inside.Goes.{Stays, ReachesFrom};
ghost use Rattle.tx_core.specs.inside.Passed.{ArePassed};
ghost use Rattle.tx_core.specs.inside.Retrying.{call_at, call_in, waiting_call, OfWaiting, IfRetried, first_at, retry_entry, IsAgain, IsUnansweredAgain, IsAskedAgain, IsMadeAgain, IsAnsweredAgain, IsLeftAgain, IsSettledAgain, AreAsked, WaitsBarred};

use crate::asking::{Got, Outcome, Wanted, ask_all, asked, made};
use crate::attempts::{MOST_REQUESTS, accept};
use crate::ends::{make_room, note, stop_waiting};
use crate::errors::CallError;
use crate::later_failures::fail_again;
use crate::later_waits::{still_barred, wait_again};
use crate::modes::has;
use crate::parts::{Parts, Places};
use crate::passed::{keep_passed, take_passed};
use crate::places::seat_at;
use call_contract::{Answer, Event, EventAnswer, Noted, TreeCall};
use dewey_labels::NoMemory;
use lock_resources::Request;
use lock_table::LockTable;
use node_seq::{NodeRead, SeqError};
use std::alloc::Global;

/// The call of an entry that has one.
fn call_of_entry<C: Drop>(book: &[Noted<C>], entry: usize) -> Option<&C>
    ensures { option_copied result ≡ call_at book.now entry }
{
    if entry >= book.len() {
        return None;
    }
    match &book[entry].event {
        Event::Call(call) => Some(call),
        _ => None,
    }
}

/// The call with which a session waits.
fn call_of<'a, C: Drop>(places: &Places, book: &'a [Noted<C>], session: u32) -> Option<&'a C>
    ensures { option_copied result ≡ call_in book.now (seat_in (get nat_cmp places.now session)) }
{
    match seat_at(places, session) {
        Some(seat) => match seat.waiting {
            Some(entry) => call_of_entry(book, entry),
            None => None,
        },
        None => None,
    }
}

/// What the waiting call asks for.
fn requests_again<C: TreeCall + Drop, B: NodeRead>(
    alloc: Global,
    parts: &mut Parts<C, B>,
    session: u32,
) -> Result<Wanted, SeqError>
    requires waits { IsSome (waiting_call parts.old session) }
    requires passed { ArePassed B.contents parts.old }
    ensures value { IfOk result (λ wanted.
        IsAskedAgain C.is_valid C.meaning B.contents parts.old session wanted.requests) }
    ensures stays { Stays C.is_valid C.meaning B.contents parts.old parts.new }
    ensures passed { ArePassed B.contents parts.new }
    ensures same { parts.new ≡ record parts.old { base = parts.new.base; passed = parts.new.passed } }
    ensures unchanged { B.unchanged parts.old.base parts.new.base }
    ensures cause { HasCause seq_error.DiskFault (B.count parts.old.base) (B.count parts.new.base) result }
{
    match seat_at(&parts.places, session) {
        Some(seat) => match call_of(&parts.places, parts.book.as_slice(), session) {
            Some(call) => {
                let mut gaps = take_passed(alloc, &mut parts.passed, session);
                let base = &mut parts.base;
                let wanted = asked(alloc, base, &parts.layers, &seat.own, &mut gaps, call);
                keep_passed(&mut parts.passed, session, gaps);
                wanted
            }
            None => unreachable!(),
        },
        None => unreachable!(),
    }
}

/// What the waiting call answers, and what it changes.
fn outcome_again<C: TreeCall + Drop, B: NodeRead>(
    alloc: Global,
    parts: &mut Parts<C, B>,
    session: u32,
) -> Result<Outcome, SeqError>
    requires waits { IsSome (waiting_call parts.old session) }
    requires passed { ArePassed B.contents parts.old }
    ensures value { IfOk result (λ outcome.
        IsMadeAgain C.is_valid C.meaning B.contents parts.old session outcome) }
    ensures rise { IfOk result (λ outcome. IsChangeList outcome.changes) }
    ensures valid { OfWaiting parts.old session C.is_valid }
    ensures stays { Stays C.is_valid C.meaning B.contents parts.old parts.new }
    ensures passed { ArePassed B.contents parts.new }
    ensures same { parts.new ≡ record parts.old { base = parts.new.base; passed = parts.new.passed } }
    ensures unchanged { B.unchanged parts.old.base parts.new.base }
    ensures cause { HasCause seq_error.DiskFault (B.count parts.old.base) (B.count parts.new.base) result }
{
    match seat_at(&parts.places, session) {
        Some(seat) => match call_of(&parts.places, parts.book.as_slice(), session) {
            Some(call) => {
                let mut gaps = take_passed(alloc, &mut parts.passed, session);
                let base = &mut parts.base;
                let outcome = made(alloc, base, &parts.layers, &seat.own, &mut gaps, call);
                keep_passed(&mut parts.passed, session, gaps);
                outcome
            }
            None => unreachable!(),
        },
        None => unreachable!(),
    }
}

/// How many of the first requests ask for no more than the owner holds.
fn count_held(table: &LockTable, owner: u32, requests: &[Request]) -> usize
    ensures { result ≡ first_at (λ g. not (has_mode (held_by table.now owner g.resource) g.ask)) requests.now }
{
    let mut count = 0;
    while count < requests.len() {
        let request = &requests[count];
        if !has(table.held(owner, &request.resource), request.ask) {
            return count;
        }
        count += 1;
    }
    count
}

/// How far requests were granted, and whether the transaction holds more than before.
#[derive(Drop)]
struct Asked {
    got: Got,
    more: bool,
}

/// The number of requests that were granted.
fn granted_of(requests: &[Request], got: &Got) -> usize
    ensures { result ≡ granted_in requests.now got.now }
{
    match got {
        Got::All => requests.len(),
        Got::Barred { granted, .. } | Got::NoMemory { granted } => *granted,
    }
}

/// Asks for these, one after another.
fn ask_again<C: TreeCall + Drop, B: NodeRead>(
    alloc: Global,
    parts: &mut Parts<C, B>,
    session: u32,
    requests: &[Request],
) -> Asked
    ensures got { ReachesFrom C.is_valid C.meaning B.contents parts.old session
        requests.now result.got parts.new }
    ensures asked { AreAsked C.is_valid C.meaning B.contents parts.old session requests.now result.got result.more parts.new }
    ensures within { granted_in requests.now result.got ≤ length requests.now }
    ensures inside { IsInside requests.now result.got }
    ensures same { parts.new ≡ record parts.old { table = parts.new.table } }
{
    let held = count_held(&parts.table, session, requests);
    let got = ask_all(alloc, &mut parts.table, session, requests);
    let more = granted_of(requests, &got) > held;
    Asked { got, more }
}

/// Notes what a retry is answered.
pub fn note_again<C: TreeCall + Drop, B: NodeRead>(
    parts: &mut Parts<C, B>,
    session: u32,
    answer: Answer,
)
    requires room { length parts.old.book.items + 1 ≤ vec_capacity parts.old.book }
    ensures book { parts.new.book.items ≡ parts.old.book.items ++ retry_entry session answer ∷ [] }
    ensures capacity { vec_capacity parts.old.book ≤ vec_capacity parts.new.book }
    ensures same { parts.new ≡ record parts.old { book = parts.new.book; prepared = None } }
{
    parts.prepared = None;
    note(
        &mut parts.book,
        Noted {
            session,
            event: Event::Retry,
            answer: EventAnswer::Call(answer),
        },
    );
}

/// Answers a waiting call that was granted all that it asks for.
fn answer_again<C: TreeCall + Drop, B: NodeRead>(
    alloc: Global,
    parts: &mut Parts<C, B>,
    session: u32,
) -> Result<Answer, SeqError>
    requires seated { IsSeated parts.old }
    requires waits { IsSome (waiting_call parts.old session) }
    requires passed { ArePassed B.contents parts.old }
    ensures ok { IfRetried result parts.old session
        (λ c a. IsAnsweredAgain C.is_valid C.meaning B.contents parts.old session c a parts.new) }
    ensures err { OnErr result (Stays C.is_valid C.meaning B.contents parts.old parts.new) }
    ensures seated { IsSeatedAs parts.old parts.new }
    ensures still { OnErr result (IsSome (waiting_call parts.new session)) }
    ensures unchanged { B.unchanged parts.old.base parts.new.base }
    ensures cause { HasCause seq_error.DiskFault (B.count parts.old.base) (B.count parts.new.base) result }
    ensures passed { ArePassed B.contents parts.new }
{
    let outcome = outcome_again(alloc, parts, session)?;
    let copy = outcome.reply.copy(alloc)?;
    let reply = accept(alloc, parts, session, outcome)?;
    stop_waiting(&mut parts.waiting, session);
    note_again(parts, session, Answer::Answered(copy));
    Ok(Answer::Answered(reply))
}

/// Answers, waits or gives up, as far as the requests were granted.
#[tactic(auto, using(crate::proofs::Retried::failed_after))]
fn settle_again<C: TreeCall + Drop, B: NodeRead>(
    alloc: Global,
    parts: &mut Parts<C, B>,
    session: u32,
    requests: &[Request],
    got: Got,
    more: bool,
) -> Result<Answer, CallError>
    requires seated { IsSeated parts.old }
    requires waits { IsSome (waiting_call parts.old session) }
    requires room { HasRoom 1 parts.old }
    requires inside { IsInside requests.now got }
    requires fits { length requests.now ≤ 4_294_967_295 }
    requires within { granted_in requests.now got ≤ length requests.now }
    requires passed { ArePassed B.contents parts.old }
    ensures ok { IfRetried result parts.old session (λ c a. IsSettledAgain C.is_valid C.meaning
        B.contents parts.old session c requests.now got more a parts.new) }
    ensures err { IfErr result (λ e. IsLeftAgain C.is_valid C.meaning B.contents B.count
        parts.old session (granted_in requests.now got) e parts.new) }
    ensures refused { shown_call_refusal result ≡ None }
    ensures seated { IsSeatedAs parts.old parts.new }
    ensures unchanged { B.unchanged parts.old.base parts.new.base }
    ensures cause { HasCause CallError.DiskFault (B.count parts.old.base) (B.count parts.new.base) result }
    ensures passed { ArePassed B.contents parts.new }
{
    match got {
        Got::All => match answer_again(alloc, parts, session) {
            Ok(answer) => Ok(answer),
            Err(error) => Err(fail_again(parts, session, requests.len() as u32, error)),
        },
        Got::Barred { granted, holders } => {
            match wait_again(alloc, parts, session, &requests[granted], holders, more) {
                Ok(answer) => Ok(answer),
                Err(_) => Err(fail_again(parts, session, granted as u32, SeqError::NoMemory)),
            }
        }
        Got::NoMemory { granted } => Err(fail_again(
            parts,
            session,
            granted as u32,
            SeqError::NoMemory,
        )),
    }
}

/// A further attempt of a waiting call, with room in the book for an entry of one that goes on waiting.
fn retry_in_room<C: TreeCall + Drop, B: NodeRead>(
    alloc: Global,
    parts: &mut Parts<C, B>,
    session: u32,
) -> Result<Answer, CallError>
    requires seated { IsSeated parts.old }
    requires waits { IsSome (waiting_call parts.old session) }
    requires room { HasRoom 1 parts.old }
    requires passed { ArePassed B.contents parts.old }
    ensures ok { IfRetried result parts.old session
        (λ c a. IsAgain C.is_valid C.meaning B.contents parts.old session c a parts.new) }
    ensures err { IfErr result (λ e.
        IsUnansweredAgain C.is_valid C.meaning B.contents B.count parts.old session e parts.new) }
    ensures refused { shown_call_refusal result ≡ None }
    ensures seated { IsSeatedAs parts.old parts.new }
    ensures unchanged { B.unchanged parts.old.base parts.new.base }
    ensures cause { HasCause CallError.DiskFault (B.count parts.old.base) (B.count parts.new.base) result }
    ensures passed { ArePassed B.contents parts.new }
{
    let Wanted { requests, .. } = match requests_again(alloc, parts, session) {
        Ok(wanted) => wanted,
        Err(error) => return Err(fail_again(parts, session, 0, error)),
    };
    if requests.len() > MOST_REQUESTS {
        return Err(fail_again(parts, session, 0, SeqError::NoMemory));
    }
    let Asked { got, more } = ask_again(alloc, parts, session, requests.as_slice());
    settle_again(alloc, parts, session, requests.as_slice(), got, more)
}

/// A further attempt of a waiting call, for all of its requests.
fn retry_whole<C: TreeCall + Drop, B: NodeRead>(
    alloc: Global,
    parts: &mut Parts<C, B>,
    session: u32,
) -> Result<Answer, CallError>
    requires seated { IsSeated parts.old }
    requires waits { IsSome (waiting_call parts.old session) }
    requires passed { ArePassed B.contents parts.old }
    ensures ok { IfRetried result parts.old session
        (λ c a. IsAgain C.is_valid C.meaning B.contents parts.old session c a parts.new) }
    ensures err { IfErr result (λ e.
        IsUnansweredAgain C.is_valid C.meaning B.contents B.count parts.old session e parts.new) }
    ensures refused { shown_call_refusal result ≡ None }
    ensures seated { IsSeatedAs parts.old parts.new }
    ensures unchanged { B.unchanged parts.old.base parts.new.base }
    ensures cause { HasCause CallError.DiskFault (B.count parts.old.base) (B.count parts.new.base) result }
    ensures passed { ArePassed B.contents parts.new }
{
    match make_room(parts) {
        Ok(()) => retry_in_room(alloc, parts, session),
        Err(_) => Err(fail_again(parts, session, 0, SeqError::NoMemory)),
    }
}

/// A further attempt of the call with which a session waits.
/// It is answered, waits again in its place or ends in a deadlock; one that waits again is noted only where it holds more or waits for something else. A failure is always noted.
/// Where the request that it waits for is still barred, nothing else is looked at: it has all that it asks for before that one, so these requests are what they were.
pub fn retry<C: TreeCall + Drop, B: NodeRead>(
    alloc: Global,
    parts: &mut Parts<C, B>,
    session: u32,
) -> Result<Answer, CallError>
    requires seated { IsSeated parts.old }
    requires waits { IsSome (waiting_call parts.old session) }
    requires passed { ArePassed B.contents parts.old }
    ensures ok { IfRetried result parts.old session
        (λ c a. IsAgain C.is_valid C.meaning B.contents parts.old session c a parts.new) }
    ensures err { IfErr result (λ e.
        IsUnansweredAgain C.is_valid C.meaning B.contents B.count parts.old session e parts.new) }
    ensures refused { shown_call_refusal result ≡ None }
    ensures seated { IsSeatedAs parts.old parts.new }
    ensures unchanged { B.unchanged parts.old.base parts.new.base }
    ensures cause { HasCause CallError.DiskFault (B.count parts.old.base) (B.count parts.new.base) result }
    ensures passed { ArePassed B.contents parts.new }
    ensures barred { WaitsBarred parts.old.graph parts.old.table session → OnOk result (parts.new ≡ parts.old) }
{
    match still_barred(alloc, &parts.graph, &parts.table, session) {
        Ok(Some(answer)) => Ok(answer),
        Ok(None) => retry_whole(alloc, parts, session),
        Err(_) => Err(fail_again(parts, session, 0, SeqError::NoMemory)),
    }
}
