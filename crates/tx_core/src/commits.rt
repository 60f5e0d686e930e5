//! Commits: what one needs is prepared first, and then it takes no memory.

ghost use Rattle.std.specs.Prelude.{◌≡◌, ◌≢◌, ℕ, cond, ◌==◌, ◌+◌, ◌/◌, ◌≤◌, ◌<◌, [], Some, None, Err, true, nat_lt, length, vec_capacity, IfOk, OnOk, OnErr};
ghost use Rattle.std.specs.Ordering.{nat_cmp};
ghost use Rattle.std.specs.BTreeMap.{get};
ghost use Rattle.node_records.specs.Changes.{changes_bytes, changes_of as changes_read};
ghost use Rattle.overlays.specs.Layered.{deletions_in};
ghost use Rattle.tree_model.specs.Entries.{changed};
ghost use Rattle.call_contract.specs.Books.{entry as entry_of};
ghost use Rattle.call_contract.specs.declared.events.Event.TheVariants as event;
ghost use Rattle.call_contract.specs.declared.events.EventAnswer.TheVariants as said;
ghost use Rattle.tx_core.specs.declared.errors.SessionError.TheVariants as error;
ghost use Rattle.tx_core.specs.Commits.{body_limit, HasChangesOf, IsPastLimitIn};
ghost use Rattle.tx_core.specs.Refusals.{shown_prepare_refusal};
ghost use Rattle.tx_core.specs.inside.Committing.{IsReady, IsBodyOf, HasBody, HasTooMuch, commit_refused, IsCommit, GoesOn, StandsOver};
ghost use Rattle.tx_core.specs.inside.Kept.{WaitAsBefore};
ghost use Rattle.tx_core.specs.inside.Passed.{ArePassed};
ghost use Rattle.tx_core.specs.inside.Sessions.{IsSeated, IsSeatedFor};
ghost use Rattle.tx_core.specs.inside.Standing.{OfState, KeepsState, seat_in};

use crate::SessionError;
use crate::ends::{note, stop_waiting};
use crate::parts::{Parts, Place, Places, Seat};
use crate::passed::{end_passed, forget_puts};
use crate::places::unseat;
use crate::undrained::Bodies;
use call_contract::{Event, EventAnswer, Noted, TreeCall};
use dewey_labels::{Copied, List, NoMemory};
use node_records::write_change;
use node_seq::{NodeRead, SortedSeq};
use overlays::{Layers, Overlay};
use std::alloc::Global;
use std::marker::Model;
use std::mem;
use tree_model::Change;

/// A commit that may be made durable and then made, seen with the changes that its body is read as.
#[derive(Debug, Drop)]
pub struct Prepared {
    pub number: u32,
    /// The bytes of what the transaction has changed, by rising keys, as a journal has them.
    pub body: List<u8>,
}

impl Model for Prepared {
    ghost use Rattle.tx_core.specs.Commits.{PreparedView, prepared_view, IsRead};

    ghost Value = { PreparedView };

    ghost view = { λ p. prepared_view p.number p.body };

    ghost invariant = { λ p. IsRead p.body };
}

impl Prepared {
    pub fn copy(&self, alloc: Global) -> Result<Prepared, NoMemory>
        ensures { IfOk result (λ copy. copy ≡ self.now) }
    {
        Ok(Prepared {
            number: self.number,
            body: List::from_vec(Vec::from_slice(alloc, self.body.as_slice())?),
        })
    }
}

impl Copied for Prepared {
    fn copy(&self, alloc: Global) -> Result<Prepared, NoMemory> {
        Prepared::copy(self, alloc)
    }
}

/// The most bytes that a commit's body may have.
const BODY_LIMIT: usize = 4_294_967_295;

/// The bytes of changes, where a commit may have so many.
fn body_of(alloc: Global, changes: &[Change]) -> Result<List<u8>, SessionError>
    ensures body { IfOk result (λ body. body ≡ changes_bytes changes.now) }
    ensures read { IfOk result (λ body. changes_read body ≡ Some changes.now) }
    ensures short { IfOk result (λ body. length body ≤ body_limit) }
    ensures refused { shown_prepare_refusal result ≡ None }
    ensures limit { result ≡ Err error.CommitLimit → nat_lt body_limit (length (changes_bytes changes.now)) ≡ true }
{
    let mut body = List::new(alloc);
    for change in changes {
        if write_change(alloc, change, &mut body).is_err() {
            return Err(SessionError::NoMemory);
        }
        if body.len() > BODY_LIMIT {
            return Err(SessionError::CommitLimit);
        }
    }
    Ok(body)
}

/// The body of what an overlay has. It writes each change once, and copies none.
fn body_from(alloc: Global, own: &mut Overlay) -> Result<List<u8>, SessionError>
    ensures same { own.new ≡ own.old }
    ensures body { IfOk result (λ body. IsBodyOf body own.old) }
    ensures refused { shown_prepare_refusal result ≡ None }
    ensures limit { result ≡ Err error.CommitLimit → nat_lt body_limit (length (changes_bytes own.old)) ≡ true }
{
    match own.changes(alloc) {
        Ok(changes) => body_of(alloc, changes),
        Err(_) => Err(SessionError::NoMemory),
    }
}

/// The body of a transaction that may be committed.
fn body_in(alloc: Global, seat: &mut Seat) -> Result<List<u8>, SessionError>
    ensures same { seat.new ≡ seat.old }
    ensures ready { OnOk result (seat.old.waiting ≡ None) }
    ensures body { IfOk result (λ body. IsBodyOf body seat.old.own) }
    ensures refused { shown_prepare_refusal result ≡ commit_refused (Some seat.old) }
    ensures limit { result ≡ Err error.CommitLimit → nat_lt body_limit (length (changes_bytes seat.old.own)) ≡ true }
{
    if seat.waiting.is_some() {
        return Err(SessionError::IsWaiting);
    }
    body_from(alloc, &mut seat.own)
}

/// The body of a place's transaction, where it may be committed.
fn body_on(alloc: Global, place: &mut Place) -> Result<List<u8>, SessionError>
    ensures same { place.new ≡ place.old }
    ensures ready { OnOk result (IsReady place.old.seat) }
    ensures body { IfOk result (λ body. HasBody place.old.seat body) }
    ensures refused { shown_prepare_refusal result ≡ commit_refused place.old.seat }
    ensures limit { result ≡ Err error.CommitLimit → HasTooMuch place.old.seat }
{
    match &mut place.seat {
        Some(seat) => body_in(alloc, seat),
        None => Err(SessionError::NoTransaction),
    }
}

/// The body of a session's transaction, where it may be committed.
fn body_at(alloc: Global, places: &mut Places, session: u32) -> Result<List<u8>, SessionError>
    ensures same { places.new.entries ≡ places.old.entries }
    ensures ready { OnOk result (IsReady (seat_in (get nat_cmp places.old session))) }
    ensures body { IfOk result (λ body. HasBody (seat_in (get nat_cmp places.old session)) body) }
    ensures refused { shown_prepare_refusal result ≡ commit_refused (seat_in (get nat_cmp places.old session)) }
    ensures limit { result ≡ Err error.CommitLimit → HasTooMuch (seat_in (get nat_cmp places.old session)) }
{
    match places.get_mut(&session) {
        Some(place) => body_on(alloc, place),
        None => Err(SessionError::NoTransaction),
    }
}

/// Takes all memory of a session's commit, and answers what is to be made durable before it. It writes each change once, and copies none.
pub fn prepare<C: TreeCall + Drop, B: NodeRead>(
    alloc: Global,
    parts: &mut Parts<C, B>,
    bodies: &mut Bodies,
    session: u32,
) -> Result<Prepared, SessionError>
    requires { IsReady (seat_in (get nat_cmp parts.old.places session)) → parts.old.number < 4294967295 }
    ensures commit { IfOk result (IsCommit (parts.old.number + 1)) }
    ensures changes { IfOk result (λ prepared. OfState C.is_valid C.meaning B.contents parts.old
        (λ st. HasChangesOf C.meaning st session prepared)) }
    ensures prepared { OnOk result (parts.new.prepared ≡ Some session) }
    ensures spare { OnOk result (1 ≤ parts.new.layers.spare) }
    ensures bodies { OnOk result (length bodies.new.waiting.items < vec_capacity bodies.new.waiting) }
    ensures kept { WaitAsBefore bodies.old bodies.new }
    ensures layers { parts.new.layers.changes ≡ parts.old.layers.changes }
    ensures ready { OnOk result (IsReady (seat_in (get nat_cmp parts.new.places session))) }
    ensures refused { shown_prepare_refusal result ≡ commit_refused (seat_in (get nat_cmp parts.old.places session)) }
    ensures limit { result ≡ Err error.CommitLimit
        → OfState C.is_valid C.meaning B.contents parts.old
        (λ st. IsPastLimitIn C.meaning st session) }
    ensures err { OnErr result ((parts.new.prepared ≡ parts.old.prepared) × (parts.new.layers.spare ≡ parts.old.layers.spare)) }
    ensures same { parts.new ≡ record parts.old { places = parts.new.places; layers = parts.new.layers; prepared = parts.new.prepared } }
    ensures places { parts.new.places.entries ≡ parts.old.places.entries }
    ensures state { KeepsState C.is_valid C.meaning B.contents parts.old parts.new }
{
    let body = body_at(alloc, &mut parts.places, session)?;
    if bodies.make_room().is_err() || parts.layers.reserve_layer(alloc).is_err() {
        return Err(SessionError::NoMemory);
    }
    parts.prepared = Some(session);
    Ok(Prepared {
        number: parts.number + 1,
        body,
    })
}

/// Makes the commit that was prepared for a session under this number. It takes no memory.
pub fn commit<C: TreeCall + Drop, B: NodeRead>(parts: &mut Parts<C, B>, session: u32, number: u32)
    requires seated { IsSeated parts.old }
    requires ready { IsReady (seat_in (get nat_cmp parts.old.places session)) }
    requires spare { 1 ≤ parts.old.layers.spare }
    requires number { number ≡ parts.old.number + 1 }
    ensures goes { GoesOn C.is_valid C.meaning B.contents parts.old (entry_of session event.Commit (said.Number number)) parts.new }
    ensures seated { IsSeatedFor parts.old parts.new }
    ensures base { parts.new.base ≡ parts.old.base }
    ensures none_prepared { parts.new.prepared ≡ None }
    ensures passed { ArePassed B.contents parts.old → ArePassed B.contents parts.new }
{
    // The count tells that a known base's map is in the order of its keys.
    let _faults = parts.base.faults();
    match unseat(&mut parts.places, session) {
        Some(seat) => {
            let Seat { own, waiting: _ } = seat;
            end_passed(&mut parts.passed, session);
            forget_puts(&mut parts.passed, &own);
            parts.layers.push_layer(own);
        }
        None => unreachable!(),
    }
    parts.number = number;
    parts.live -= 1;
    parts.prepared = None;
    parts.table.release_all(session);
    parts.graph.stop(session);
    stop_waiting(&mut parts.waiting, session);
    note(
        &mut parts.book,
        Noted {
            session,
            event: Event::Commit,
            answer: EventAnswer::Number(number),
        },
    );
}

/// Merges what was committed into the base, where the layers keep so many deletions that it is due. For want of memory all stays as it is.
pub fn merge<C: TreeCall + Drop>(
    alloc: Global,
    parts: &mut Parts<C, SortedSeq>,
) -> Result<(), NoMemory>
    ensures merged { OnOk result (parts.new.layers.deletions ≤ 64 + length parts.new.base / 256) }
    ensures all_counted { OnOk result (deletions_in parts.new.layers.changes ≤ parts.new.layers.deletions) }
    ensures err { OnErr result (parts.new.base ≡ parts.old.base) }
    ensures spare { parts.new.layers.spare ≡ parts.old.layers.spare }
    ensures same { parts.new ≡ record parts.old { base = parts.new.base; layers = parts.new.layers } }
    ensures contents { changed parts.new.layers.changes parts.new.base ≡ changed parts.old.layers.changes parts.old.base }
{
    if !parts.layers.is_due(&parts.base) {
        return Ok(());
    }
    parts.layers.merge_into(alloc, &mut parts.base)
}

/// Goes on over another base that stands for the committed tree, with no layers, and answers the old one.
/// What was passed isn't kept: nothing tells it of a base whose map isn't known.
pub fn rebase<C: TreeCall + Drop, B: NodeRead>(alloc: Global, parts: &mut Parts<C, B>, base: B) -> B
    ensures old { result ≡ parts.old.base }
    ensures layers { parts.new.layers ≡ record { changes = []; deletions = 0; spare = 1 } }
    ensures passed { ArePassed B.contents parts.new }
    ensures same { parts.new ≡ record parts.old { base = base; layers = parts.new.layers; passed = parts.new.passed } }
    ensures state { StandsOver C.is_valid C.meaning B.contents parts.old base parts.new }
{
    parts.layers = Layers::new(alloc);
    parts.passed = Vec::new(alloc);
    mem::replace(&mut parts.base, base)
}
