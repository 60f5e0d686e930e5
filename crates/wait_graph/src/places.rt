//! The places of owners, and those who wait in them with the owners that each waits for.

ghost use Rattle.std.specs.Prelude.{◌≡◌, ℕ, ◌||◌, ◌==◌, cond, None, Some, OnOk, OnErr, IfOk, IsTrue, IsSome, is_some};
ghost use Rattle.std.specs.Ordering.{nat_cmp};
ghost use Rattle.std.specs.BTreeMap.{get};
ghost use Rattle.std.specs.List.{list_any};
ghost use Rattle.wait_graph.specs.Graphs.{request_in, waits, waits_for};
ghost use Rattle.wait_graph.specs.inside.Waiters.{IsWaiter};
ghost use Rattle.wait_graph.specs.inside.Search.{AreOf};
ghost use Rattle.wait_graph.specs.inside.Waiters.{AreOwners};

use crate::search::Waiter;
use dewey_labels::{List, NoMemory};
use lock_resources::Request;
use lock_table::LockTable;
use std::alloc::Global;
use std::collections::BTreeMap;

/// For each owner that has a place the request with which it waits, if it does.
pub type Places = BTreeMap<u32, Option<Request>>;

fn set(place: &mut Option<Request>, request: Option<Request>)
    ensures { place.new ≡ request }
{
    *place = request;
}

/// Writes into the place of an owner that has one.
pub fn write(places: &mut Places, owner: u32, request: Option<Request>)
    requires { IsSome (get nat_cmp places.old owner) }
    ensures waits { (o : ℕ) → request_in (get nat_cmp places.new o) ≡ cond (owner == o) request (request_in (get nat_cmp places.old o)) }
    ensures places { (o : ℕ) → is_some (get nat_cmp places.new o) ≡ is_some (get nat_cmp places.old o) }
{
    match places.get_mut(&owner) {
        Some(place) => set(place, request),
        None => unreachable!(),
    }
}

/// Empties the place of an owner, if it has one.
pub fn empty(places: &mut Places, owner: u32)
    ensures waits { (o : ℕ) → request_in (get nat_cmp places.new o) ≡ cond (owner == o) None (request_in (get nat_cmp places.old o)) }
    ensures places { (o : ℕ) → is_some (get nat_cmp places.new o) ≡ is_some (get nat_cmp places.old o) }
{
    match places.get_mut(&owner) {
        Some(place) => set(place, None),
        None => (),
    }
}

/// Makes a place where there is none.
pub fn make(places: &mut Places, owner: u32) -> Result<(), NoMemory>
    ensures places { OnOk result ((o : ℕ) → is_some (get nat_cmp places.new o) ≡ ((owner == o) || is_some (get nat_cmp places.old o))) }
    ensures waits { OnOk result ((o : ℕ) → request_in (get nat_cmp places.new o) ≡ request_in (get nat_cmp places.old o)) }
    ensures err { OnErr result (places.new.entries ≡ places.old.entries) }
{
    if places.contains_key(&owner) {
        return Ok(());
    }
    places.insert(owner, None)?;
    Ok(())
}

/// Whether an owner waits.
fn is_waiting(places: &Places, owner: u32) -> bool
    ensures { result ≡ is_some (waits places.now.entries owner) }
{
    match places.get(&owner) {
        Some(place) => place.is_some(),
        None => false,
    }
}

/// Whether one of these owners waits.
pub fn any_waits(places: &Places, owners: &[u32]) -> bool
    ensures { result ≡ list_any (λ o. is_some (waits places.now.entries o)) owners.now }
{
    owners.iter().any(|owner| is_waiting(places, *owner))
}

/// An owner other than the end, with those that it waits for, if it waits.
fn waiter_at(
    alloc: Global,
    places: &Places,
    end: u32,
    owner: u32,
    table: &LockTable,
) -> Result<Option<Waiter>, NoMemory>
    ensures { IfOk result (IsWaiter places.now.entries table.now end owner) }
{
    if owner == end {
        return Ok(None);
    }
    match places.get(&owner) {
        Some(Some(request)) => Ok(Some(Waiter {
            owner,
            holders: table.barring(alloc, owner, request)?,
        })),
        _ => Ok(None),
    }
}

/// All owners that wait, other than the end.
pub fn waiters_of(
    alloc: Global,
    places: &Places,
    end: u32,
    table: &LockTable,
) -> Result<List<Waiter>, NoMemory>
    ensures of { IfOk result (λ waiters. AreOf (waits_for (waits places.now.entries) table.now) waiters) }
    ensures owners { IfOk result (λ waiters. AreOwners places.now.entries end waiters) }
{
    let mut waiters = List::new(alloc);
    for (owner, _) in places.iter() {
        if let Some(waiter) = waiter_at(alloc, places, end, *owner, table)? {
            waiters.push(waiter)?;
        }
    }
    Ok(waiters)
}
