//! The table: asking for a mode, and releasing all that an owner holds.

ghost use Rattle.std.specs.Prelude.{◌≡◌, ℕ, ◌&&◌, ◌==◌, cond, false, None, Some, Ok, IfOk, OnOk, OnErr, IsTrue};
ghost use Rattle.lock_resources.specs.declared.resource.Resource.{Resource};
ghost use Rattle.lock_table.specs.Asks.{Covers, join_with, is_barred_by, is_barred};
ghost use Rattle.lock_table.specs.inside.Rows.{HoldsInstead, held_in, is_listed, IsKept};
ghost use Rattle.lock_table.specs.inside.GroupModes.{AreGroupModes};
ghost use Rattle.lock_table.specs.declared.table.Asked.TheVariants.{Granted};
ghost use Rattle.lock_table.specs.Tables.{held as held_by, AreHolders, IsGranted, IsSame, IsReleased, Answers};

use crate::asks::{covers, join_held};
use crate::group_modes::{GroupModes, admitted, take_out};
use crate::owned::{Owned, make_listed, take_list};
use crate::rows::{Rows, barring_at, held, put};
use dewey_labels::{List, NoMemory};
use lock_modes::Ask;
use lock_resources::{Request, Resource};
use std::alloc::Global;
use std::collections::BTreeMap;
use std::marker::Model;

/// What is answered to a request.
#[derive(Debug, Drop)]
pub enum Asked {
    /// No other owner held an incompatible mode there.
    Granted,
    /// These owners hold incompatible modes there, ascending.
    Conflict { holders: List<u32> },
}

/// Who holds which mode at which resource. A look-up of a resource compares it with as many others as a logarithm of their number at most, whoever chose labels and names.
#[derive(Drop)]
pub struct LockTable {
    rows: Rows,
    owned: Owned,
    groups: GroupModes,
}

impl Model for LockTable {
    ghost use Rattle.lock_table.specs.Tables.{Table};
    ghost use Rattle.lock_table.specs.inside.Rows.{table_of, IsKept};
    ghost use Rattle.lock_table.specs.inside.GroupModes.{AreGroupModes};

    ghost Value = { Table };

    ghost view = { λ t. table_of t.rows };

    ghost invariant = { λ t. IsKept t.rows t.owned × AreGroupModes t.groups t.rows };
}

impl LockTable {
    /// The table in which nobody holds anything.
    pub fn new(alloc: Global) -> Result<LockTable, NoMemory>
        ensures { IfOk result (λ table. (o : ℕ) (r : Resource) → held_by table o r ≡ None) }
    {
        Ok(LockTable {
            rows: Vec::new(alloc),
            owned: BTreeMap::new(alloc),
            groups: BTreeMap::new(alloc),
        })
    }

    /// Asks for a mode. It is granted where no other owner holds an incompatible one there, and the owner then holds the join.
    /// Otherwise all such owners are named and nothing is changed.
    /// Where the owner has the mode already, this is one look-up and takes no memory. Where several owners hold modes at the resource, and one like this that
    /// goes with all of them was granted there before, it is granted without a look at any of them; otherwise the time grows with their number.
    pub fn ask(&mut self, alloc: Global, owner: u32, request: &Request) -> Result<Asked, NoMemory>
        ensures answer { IfOk result (Answers self.old owner request.now self.new) }
        ensures again { Covers (held_by self.old owner request.now.resource) request.now.ask → result ≡ Ok Granted }
        ensures err { OnErr result (IsSame self.old self.new) }
    {
        let before = held(&self.rows, owner, &request.resource);
        if covers(before, request.ask) {
            return Ok(Asked::Granted);
        }
        let holders = admitted(alloc, &mut self.groups, &self.rows, owner, request)?;
        if !holders.is_empty() {
            return Ok(Asked::Conflict { holders });
        }
        grant(
            alloc,
            &mut self.rows,
            &mut self.owned,
            owner,
            request,
            before,
        )?;
        Ok(Asked::Granted)
    }

    /// The owners other than this one that hold a mode incompatible with what it asks, ascending.
    pub fn barring(
        &self,
        alloc: Global,
        owner: u32,
        request: &Request,
    ) -> Result<List<u32>, NoMemory>
        ensures { IfOk result (AreHolders self.now owner request.now) }
    {
        let holders = barring_at(alloc, &self.rows, owner, &request.resource, request.ask)?;
        Ok(holders)
    }

    /// Removes an owner: it holds nothing then. It takes no memory, and visits the owner's resources alone.
    pub fn release_all(&mut self, owner: u32)
        ensures { IsReleased self.old owner self.new }
    {
        if let Some(resources) = take_list(&mut self.owned, owner) {
            take_out_all(
                &mut self.rows,
                &mut self.groups,
                owner,
                resources.as_slice(),
            );
        }
    }

    /// What the owner holds at the resource. No other owner holds an incompatible mode there.
    pub fn held(&self, owner: u32, resource: &Resource) -> Option<Ask>
        ensures held { result ≡ held_by self.now owner resource.now }
        ensures together { (o : ℕ) → (o == owner) ≡ false → is_barred result (held_by self.now o resource.now) ≡ false }
    {
        held(&self.rows, owner, resource)
    }
}

/// Gives the owner, whom nobody bars, the join of what it holds there and of what it asks.
fn grant(
    alloc: Global,
    rows: &mut Rows,
    owned: &mut Owned,
    owner: u32,
    request: &Request,
    before: Option<Ask>,
) -> Result<(), NoMemory>
    requires kept { IsKept rows.old owned.old }
    requires before { before ≡ held_in rows.old owner request.now.resource }
    requires free { (p : ℕ) → (p == owner) ≡ false → is_barred_by request.now.ask (held_in rows.old p request.now.resource) ≡ false }
    ensures kept { IsKept rows.new owned.new }
    ensures ok { OnOk result (HoldsInstead rows.old owner request.now.resource (Some (join_with request.now.ask before)) rows.new) }
    ensures err { OnErr result ((o : ℕ) (r : Resource) → held_in rows.new o r ≡ held_in rows.old o r) }
{
    make_listed(alloc, owned, owner, &request.resource, before.is_some())?;
    let ask = join_held(request.ask, before);
    put(alloc, rows, owner, &request.resource, ask)
}

/// Takes the owner out of the rows of these resources.
fn take_out_all(rows: &mut Rows, groups: &mut GroupModes, owner: u32, resources: &[Resource])
    requires { AreGroupModes groups.old rows.old }
    ensures rows { (o : ℕ) (r : Resource) → held_in rows.new o r ≡ cond ((owner == o) && is_listed r resources.now) None (held_in rows.old o r) }
    ensures groups { AreGroupModes groups.new rows.new }
{
    for resource in resources {
        take_out(rows, groups, owner, resource);
    }
}
