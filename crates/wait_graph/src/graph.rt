//! The graph: owners with places, the requests with which they wait, and the cycle that one more would close.

ghost use Rattle.std.specs.Prelude.{◌≡◌, ℕ, ◌||◌, ◌==◌, cond, false, None, Some, IfOk, OnOk, OnErr, IsTrue, IsSome, option_copied};
ghost use Rattle.lock_table.specs.Tables.{Table};
ghost use Rattle.wait_graph.specs.Graphs.{waits as waits_by, has_place, place as place_by, with_request, ClosesNone, IsClosedCycle, HasNoCycle};

use crate::places::{Places, any_waits, empty, make, waiters_of, write};
use crate::search::{put_before, search};
use dewey_labels::{List, NoMemory};
use lock_resources::Request;
use lock_table::LockTable;
use std::alloc::Global;
use std::collections::BTreeMap;
use std::marker::Model;

/// Who waits with which request: the wait-for graph, whose edges follow from the lock table that a call is given.
#[derive(Drop)]
pub struct WaitGraph {
    places: Places,
}

impl Model for WaitGraph {
    ghost use Rattle.wait_graph.specs.Graphs.{Graph};

    ghost Value = { Graph };

    ghost view = { λ g. g.places.entries };
}

impl WaitGraph {
    /// The graph in which nobody waits and nobody has a place.
    pub fn new(alloc: Global) -> Result<WaitGraph, NoMemory>
        ensures waits { IfOk result (λ graph. (o : ℕ) → waits_by graph o ≡ None) }
        ensures places { IfOk result (λ graph. (o : ℕ) → has_place graph o ≡ false) }
    {
        Ok(WaitGraph {
            places: BTreeMap::new(alloc),
        })
    }

    /// Gives an owner a place, for good. Nobody begins or ceases to wait.
    pub fn reserve(&mut self, _alloc: Global, owner: u32) -> Result<(), NoMemory>
        ensures places { OnOk result ((o : ℕ) → has_place self.new o ≡ ((owner == o) || has_place self.old o)) }
        ensures waits { OnOk result ((o : ℕ) → waits_by self.new o ≡ waits_by self.old o) }
        ensures still { OnOk result ((t : Table) → HasNoCycle self.old t → HasNoCycle self.new t) }
        ensures err { OnErr result (self.new ≡ self.old) }
    {
        make(&mut self.places, owner)
    }

    /// An owner begins to wait, or waits with another request. It takes no memory. Where there was no cycle there is none after it.
    pub fn wait(&mut self, owner: u32, request: Request, table: &LockTable)
        requires place { IsSome (place_by self.old owner) }
        requires no_cycle { ClosesNone self.old owner request table.now }
        ensures waits { (o : ℕ) → waits_by self.new o ≡ with_request (waits_by self.old) owner (Some request) o }
        ensures places { (o : ℕ) → has_place self.new o ≡ has_place self.old o }
        ensures still { HasNoCycle self.old table.now → HasNoCycle self.new table.now }
    {
        // The conditions alone speak of the table.
        let _table = table;
        write(&mut self.places, owner, Some(request));
    }

    /// An owner waits no more, if it did. It takes no memory. Where there was no cycle, by any table, there is none after it.
    pub fn stop(&mut self, owner: u32)
        ensures waits { (o : ℕ) → waits_by self.new o ≡ with_request (waits_by self.old) owner None o }
        ensures places { (o : ℕ) → has_place self.new o ≡ has_place self.old o }
        ensures still { (t : Table) → HasNoCycle self.old t → HasNoCycle self.new t }
    {
        empty(&mut self.places, owner);
    }

    /// The request with which an owner waits, if it does.
    pub fn request_of(&self, owner: u32) -> Option<&Request>
        ensures { option_copied result ≡ waits_by self.now owner }
    {
        match self.places.get(&owner) {
            Some(place) => place.as_ref(),
            None => None,
        }
    }

    /// The cycle that waiting for the request would close, or None where it closes none: the owner first, each waits for the next and the last for the owner.
    /// It is a shortest one, and among the shortest the least as a list.
    /// Where none who bars the request waits, which is looked at first, it costs one look-up for each of these.
    /// Else, with n owners waiting, it costs n look-ups in the table, and whether one of them waits for another is looked up once at most.
    pub fn cycle_through(
        &self,
        alloc: Global,
        owner: u32,
        request: &Request,
        table: &LockTable,
    ) -> Result<Option<List<u32>>, NoMemory>
        ensures { IfOk result (IsClosedCycle self.now owner request.now table.now) }
    {
        let holders = table.barring(alloc, owner, request)?;
        if !any_waits(&self.places, holders.as_slice()) {
            return Ok(None);
        }
        let waiters = waiters_of(alloc, &self.places, owner, table)?;
        match search(alloc, holders.as_slice(), waiters, owner)? {
            Some(rest) => Ok(Some(put_before(alloc, owner, rest.as_slice())?)),
            None => Ok(None),
        }
    }
}
