//! The sessions with their transactions.

ghost use Rattle.std.specs.Prelude.{◌≡◌, ℕ, ◌+◌, ◌&&◌, ◌==◌, cond, None, Some, OnOk, OnErr, IsSome, option_copied};
ghost use Rattle.std.specs.Ordering.{nat_cmp};
ghost use Rattle.std.specs.BTreeMap.{get};
ghost use Rattle.tx_core.specs.inside.Standing.{seat_in, ordinal_in};

use crate::parts::{Place, Places, Seat};
use std::alloc::{AllocFailed, Global};
use std::collections::BTreeMap;
use std::mem;

/// The seat of a session's live transaction.
pub fn seat_at(places: &Places, session: u32) -> Option<&Seat>
    ensures { option_copied result ≡ seat_in (get nat_cmp places.now session) }
{
    match places.get(&session) {
        Some(place) => place.seat.as_ref(),
        None => None,
    }
}

/// How many transactions a session has begun.
pub fn ordinal_at(places: &Places, session: u32) -> u32
    ensures { result ≡ ordinal_in (get nat_cmp places.now session) }
{
    match places.get(&session) {
        Some(place) => place.ordinal,
        None => 0,
    }
}

/// Seats a transaction.
pub fn seat_new(
    places: &mut Places,
    session: u32,
    ordinal: u32,
    seat: Seat,
) -> Result<(), AllocFailed<(u32, Place)>>
    ensures seats { OnOk result ((o : ℕ) → seat_in (get nat_cmp places.new o) ≡ cond (session == o) (Some seat) (seat_in (get nat_cmp places.old o))) }
    ensures ordinals { OnOk result ((o : ℕ) → ordinal_in (get nat_cmp places.new o) ≡ cond (session == o) ordinal (ordinal_in (get nat_cmp places.old o))) }
    ensures err { OnErr result (places.new.entries ≡ places.old.entries) }
{
    places.insert(
        session,
        Place {
            ordinal,
            seat: Some(seat),
        },
    )?;
    Ok(())
}

fn replace_seat(place: &mut Place, seat: Option<Seat>) -> Option<Seat>
    ensures ordinal { place.new.ordinal ≡ place.old.ordinal }
    ensures seat { place.new.seat ≡ seat }
    ensures old { result ≡ place.old.seat }
{
    mem::replace(&mut place.seat, seat)
}

/// Takes a session's transaction from its seat.
pub fn unseat(places: &mut Places, session: u32) -> Option<Seat>
    ensures seat { result ≡ seat_in (get nat_cmp places.old session) }
    ensures seats { (o : ℕ) → seat_in (get nat_cmp places.new o) ≡ cond (session == o) None (seat_in (get nat_cmp places.old o)) }
    ensures ordinals { (o : ℕ) → ordinal_in (get nat_cmp places.new o) ≡ ordinal_in (get nat_cmp places.old o) }
    ensures there { IsSome result → IsSome (get nat_cmp places.new session) }
{
    match places.get_mut(&session) {
        Some(place) => replace_seat(place, None),
        None => None,
    }
}

/// Seats a transaction of a session that has a place.
pub fn seat_again(places: &mut Places, session: u32, seat: Seat)
    requires { IsSome (get nat_cmp places.old session) }
    ensures seats { (o : ℕ) → seat_in (get nat_cmp places.new o) ≡ cond (session == o) (Some seat) (seat_in (get nat_cmp places.old o)) }
    ensures ordinals { (o : ℕ) → ordinal_in (get nat_cmp places.new o) ≡ ordinal_in (get nat_cmp places.old o) }
{
    match places.get_mut(&session) {
        Some(place) => {
            replace_seat(place, Some(seat));
        }
        None => unreachable!(),
    }
}
