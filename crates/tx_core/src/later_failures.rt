//! A further attempt that is given up: its session waits on, or no longer where its fault is answered.

ghost use Rattle.std.specs.Prelude.{◌≡◌, ℕ, ◌+◌, ◌<◌, Some, None, Option, IsSome, cond, ◌==◌};
ghost use Rattle.std.specs.Ordering.{nat_cmp};
ghost use Rattle.std.specs.BTreeMap.{get};
ghost use Rattle.call_contract.specs.States.{without};
ghost use Rattle.tx_core.specs.Cores.{count_told};
ghost use Rattle.tx_core.specs.inside.Sessions.{IsSeated, IsSeatedAs, wait_in, call_error_of};
ghost use Rattle.tx_core.specs.inside.Standing.{MovesTo, seat_in, ordinal_in};
ghost use Rattle.tx_core.specs.inside.Goes.{unqueued};
ghost use Rattle.tx_core.specs.inside.Passed.{ArePassed};
ghost use Rattle.tx_core.specs.inside.Retrying.{waiting_call, at_rest, IsLeftAgain};

use crate::ends::{note, stop_waiting};
use crate::errors::CallError;
use crate::parts::{Parts, Seat};
use crate::places::{seat_again, unseat};
use call_contract::{Event, EventAnswer, Noted, TreeCall};
use dewey_labels::NoMemory;
use node_seq::{NodeRead, SeqError};

/// A transaction's call waits no more.
fn cease<C: TreeCall + Drop, B: NodeRead>(parts: &mut Parts<C, B>, session: u32)
    requires seated { IsSome (seat_in (get nat_cmp parts.old.places session)) }
    ensures state { MovesTo C.is_valid C.meaning B.contents parts.old session
        (λ st t. unqueued (at_rest st t) session) parts.new }
    ensures waits { (o : ℕ) → wait_in (get nat_cmp parts.new.places o) ≡ cond (session == o) (Some None) (wait_in (get nat_cmp parts.old.places o)) }
    ensures ordinals { (o : ℕ) → ordinal_in (get nat_cmp parts.new.places o) ≡ ordinal_in (get nat_cmp parts.old.places o) }
    ensures queue { parts.new.waiting.items ≡ without session parts.old.waiting.items }
    ensures same { parts.new ≡ record parts.old { places = parts.new.places; graph = parts.new.graph; waiting = parts.new.waiting } }
    ensures passed { ArePassed B.contents parts.old → ArePassed B.contents parts.new }
{
    match unseat(&mut parts.places, session) {
        Some(seat) => {
            let Seat { own, waiting: _ } = seat;
            seat_again(&mut parts.places, session, Seat { own, waiting: None });
        }
        None => unreachable!(),
    }
    parts.graph.stop(session);
    stop_waiting(&mut parts.waiting, session);
}

/// The count of faults that a failed retry tells.
fn fault_now<C: TreeCall + Drop, B: NodeRead>(parts: &Parts<C, B>, error: SeqError) -> Option<u64>
    ensures { result ≡ count_told (call_error_of error) (B.count parts.now.base) }
{
    match error {
        SeqError::DiskFault => Some(parts.base.faults()),
        SeqError::NoMemory => None,
    }
}

/// Why a retry that met this isn't answered.
fn call_error(error: SeqError) -> CallError
    ensures { result ≡ call_error_of error }
{
    match error {
        SeqError::DiskFault => CallError::DiskFault,
        SeqError::NoMemory => CallError::NoMemory,
    }
}

/// Gives a retry up after so many grants, and notes that.
pub fn fail_again<C: TreeCall + Drop, B: NodeRead>(
    parts: &mut Parts<C, B>,
    session: u32,
    grants: u32,
    error: SeqError,
) -> CallError
    requires seated { IsSeated parts.old }
    requires waits { IsSome (waiting_call parts.old session) }
    ensures failed { IsLeftAgain C.is_valid C.meaning B.contents B.count parts.old session grants
        result parts.new }
    ensures seated { IsSeatedAs parts.old parts.new }
    ensures base { parts.new.base ≡ parts.old.base }
    ensures error { result ≡ call_error_of error }
    ensures passed { ArePassed B.contents parts.old → ArePassed B.contents parts.new }
{
    let faults = fault_now(parts, error);
    cease(parts, session);
    parts.prepared = None;
    note(
        &mut parts.book,
        Noted {
            session,
            event: Event::Fail {
                call: None,
                grants,
                faults,
            },
            answer: EventAnswer::Nothing,
        },
    );
    call_error(error)
}
