//! Beginning and ending a transaction.

ghost use Rattle.std.specs.Prelude.{◌≡◌, ◌≢◌, ◌+◌, ◌≤◌, [], ◌∷◌, ◌++◌, Some, Err, IfOk, OnOk, OnErr, length, vec_capacity, cond, is_some};
ghost use Rattle.call_contract.specs.Sessions.{live_in, begins, begins_of};
ghost use Rattle.call_contract.specs.States.{without};
ghost use Rattle.call_contract.specs.Books.{entry as entry_of};
ghost use Rattle.call_contract.specs.declared.events.Event.TheVariants as event;
ghost use Rattle.call_contract.specs.declared.events.EventAnswer.TheVariants as said;
ghost use Rattle.tx_core.specs.declared.errors.SessionError.TheVariants as error;
ghost use Rattle.tx_core.specs.Refusals.{shown_refusal, refused_begin, refused_abort};
ghost use Rattle.tx_core.specs.inside.Goes.{Stays, Goes};
ghost use Rattle.tx_core.specs.inside.Passed.{ArePassed};
ghost use Rattle.tx_core.specs.inside.Sessions.{HasRoom, IsSeated, IsSeatedAs};

use crate::SessionError;
use crate::parts::{Parts, Seat};
use crate::passed::end_passed;
use crate::places::{ordinal_at, seat_at, seat_new, unseat};
use call_contract::{Event, EventAnswer, Noted, TreeCall};
use dewey_labels::NoMemory;
use node_seq::NodeRead;
use overlays::Overlay;
use std::alloc::Global;

/// Takes a session off the list of those that wait.
pub fn stop_waiting(waiting: &mut Vec<u32>, session: u32)
    ensures { waiting.new.items ≡ without session waiting.old.items }
{
    waiting.retain(|other| *other != session);
}

/// Adds an entry for which there is room.
pub fn note<C: Drop>(book: &mut Vec<Noted<C>>, entry: Noted<C>)
    requires { length book.old.items + 1 ≤ vec_capacity book.old }
    ensures book { book.new.items ≡ book.old.items ++ entry ∷ [] }
    ensures capacity { vec_capacity book.old ≤ vec_capacity book.new }
{
    if book.push(entry).is_err() {
        unreachable!();
    }
}

/// Makes room in the book for one more entry, and for one of a transaction that is begun or begins to wait.
pub fn make_room<C: TreeCall + Drop, B: NodeRead>(parts: &mut Parts<C, B>) -> Result<(), NoMemory>
    requires { HasRoom 0 parts.old }
    ensures more { OnOk result (HasRoom 2 parts.new) }
    ensures room { HasRoom 0 parts.new }
    ensures book { parts.new.book.items ≡ parts.old.book.items }
    ensures same { parts.new ≡ record parts.old { book = parts.new.book } }
{
    let more = parts.live + parts.waiting.len() + 2;
    parts.book.reserve(more)?;
    Ok(())
}

/// Begins a transaction.
pub fn begin<C: TreeCall + Drop, B: NodeRead>(
    alloc: Global,
    parts: &mut Parts<C, B>,
    session: u32,
) -> Result<u32, SessionError>
    requires { IsSeated parts.old }
    ensures ok { IfOk result (λ ordinal. Goes C.is_valid C.meaning B.contents parts.old (entry_of session event.Begin (said.Number ordinal)) parts.new) }
    ensures err { OnErr result (Stays C.is_valid C.meaning B.contents parts.old parts.new) }
    ensures ordinal { IfOk result (λ ordinal. ordinal ≡ begins_of parts.old.book.items session + 1) }
    ensures refused { shown_refusal result ≡ refused_begin (parts.old.opened + begins parts.old.book.items) parts.old.limit
        (live_in parts.old.book.items session) }
    ensures seated { IsSeatedAs parts.old parts.new }
    ensures base { parts.new.base ≡ parts.old.base }
    ensures passed { ArePassed B.contents parts.old → ArePassed B.contents parts.new }
{
    if let Some(seat) = seat_at(&parts.places, session) {
        return Err(refusal_of(seat));
    }
    if u64::from(parts.opened) + u64::from(parts.begun) == u64::from(parts.limit) {
        return Err(SessionError::TxLimit);
    }
    let ordinal = ordinal_at(&parts.places, session) + 1;
    make_room(parts)?;
    let seat = Seat {
        own: Overlay::new(alloc),
        waiting: None,
    };
    seat_new(&mut parts.places, session, ordinal, seat)?;
    parts.begun += 1;
    parts.live += 1;
    parts.prepared = None;
    note(
        &mut parts.book,
        Noted {
            session,
            event: Event::Begin,
            answer: EventAnswer::Number(ordinal),
        },
    );
    Ok(ordinal)
}

/// Why a session that has a live transaction may not begin one.
fn refusal_of(seat: &Seat) -> SessionError
    ensures { result ≡ cond (is_some seat.now.waiting) error.IsWaiting error.InTransaction }
{
    if seat.waiting.is_some() {
        SessionError::IsWaiting
    } else {
        SessionError::InTransaction
    }
}

/// Ends a session's transaction, a waiting call with it. It takes no memory.
pub fn abort<C: TreeCall + Drop, B: NodeRead>(
    parts: &mut Parts<C, B>,
    session: u32,
) -> Result<(), SessionError>
    requires { IsSeated parts.old }
    ensures ok { IfOk result (λ _. Goes C.is_valid C.meaning B.contents parts.old (entry_of session event.Abort said.Nothing) parts.new) }
    ensures err { OnErr result (parts.new ≡ parts.old) }
    ensures refused { shown_refusal result ≡ refused_abort (live_in parts.old.book.items session) }
    ensures memory { result ≢ Err error.NoMemory }
    ensures seated { IsSeatedAs parts.old parts.new }
    ensures base { parts.new.base ≡ parts.old.base }
    ensures passed { ArePassed B.contents parts.old → ArePassed B.contents parts.new }
{
    let Some(_seat) = seat_at(&parts.places, session) else {
        return Err(SessionError::NoTransaction);
    };
    unseat(&mut parts.places, session);
    end_passed(&mut parts.passed, session);
    parts.table.release_all(session);
    parts.graph.stop(session);
    stop_waiting(&mut parts.waiting, session);
    parts.live -= 1;
    parts.prepared = None;
    note(
        &mut parts.book,
        Noted {
            session,
            event: Event::Abort,
            answer: EventAnswer::Nothing,
        },
    );
    Ok(())
}
