//! Group modes: at resources with several owners the join of what they hold, or more. What goes with it and is in it already is granted without a look at each owner.

ghost use Rattle.std.specs.Prelude.{◌≡◌, ℕ, ◌&&◌, ◌≤◌, ◌↔◌, cond, List, [], None, Some, option_copied, IfOk, IfSome, IsSome, IsTrue, OnOk, OnErr};
ghost use Rattle.std.specs.List.Sorted.{IsStrictlySortedBy};
ghost use Rattle.std.specs.Ordering.{nat_cmp};
ghost use Rattle.std.specs.BTreeMap.{get};
ghost use Rattle.lock_resources.specs.declared.resource.Resource.{Resource};
ghost use Rattle.lock_table.specs.Resources.{same_resource};
ghost use Rattle.lock_table.specs.inside.Barring.{AreBarring};
ghost use Rattle.lock_table.specs.inside.Buckets.{in_row};
ghost use Rattle.lock_table.specs.inside.Rows.{HoldsInstead, RowMap, row_at, held_in};
ghost use Rattle.lock_table.specs.inside.GroupModes.{group_at, AreGroupModes, IsAbove, IsUnder, LetsIn, owners_in, owners_at};

use crate::asks::{covers, is_barred, join};
use crate::buckets::Row;
use crate::rows::{Rows, barring_there, drop_row, find, leave_at};
use dewey_labels::{List, NoMemory};
use lock_modes::Ask;
use lock_resources::{Request, Resource};
use std::alloc::Global;
use std::collections::BTreeMap;

/// The resources that have a group mode.
/// It is joined anew where a scan of the owners has found a mode to go with all of them, and may have more than owners hold that were released since.
pub type GroupModes = BTreeMap<Resource, Ask>;

/// With how many owners a resource gets a group mode at the next grant.
const MANY: usize = 4;

/// Whether a mode is let in at a resource: the group mode has it already, and goes with it.
fn lets_in(groups: &GroupModes, resource: &Resource, ask: Ask) -> bool
    ensures { IsTrue result ↔ LetsIn (group_at groups.now resource.now) ask }
{
    match groups.get(resource) {
        Some(group) => covers(Some(*group), ask) && !is_barred(ask, *group),
        None => false,
    }
}

/// The join of a mode and of all that owners hold in a row.
fn joined_with(row: &Row, ask: Ask) -> Ask
    ensures row { (o : ℕ) → IsAbove result (get nat_cmp row.now o) }
    ensures ask { IsAbove result (Some ask) }
{
    let mut group = ask;
    for (_other, held) in row.iter() {
        group = join(*held, group);
    }
    group
}

/// The group mode of a row with many owners and of one mode more.
fn group_mode_with(row: Option<&Row>, ask: Ask) -> Option<Ask>
    ensures row { IfSome result (λ g. (o : ℕ) → IsAbove g (in_row (option_copied row.entry) o)) }
    ensures ask { IfSome result (λ g. IsAbove g (Some ask)) }
    ensures many { 4 ≤ owners_in (option_copied row.entry) → IsSome result }
{
    match row {
        Some(row) => {
            if row.len() < MANY {
                None
            } else {
                Some(joined_with(row, ask))
            }
        }
        None => None,
    }
}

fn put_group_mode(
    alloc: Global,
    groups: &mut GroupModes,
    resource: &Resource,
    group: Ask,
) -> Result<(), NoMemory>
    ensures ok { OnOk result ((r : Resource) → group_at groups.new r ≡ cond (same_resource resource.now r) (Some group) (group_at groups.old r)) }
    ensures err { OnErr result ((r : Resource) → group_at groups.new r ≡ group_at groups.old r) }
{
    groups.insert(resource.copy(alloc)?, group)?;
    Ok(())
}

/// Lets go of the group mode of a resource, if it has one. It takes no memory.
fn drop_group_mode(groups: &mut GroupModes, resource: &Resource)
    ensures { (r : Resource) → group_at groups.new r ≡ cond (same_resource resource.now r) None (group_at groups.old r) }
{
    groups.remove(resource);
}

/// Notes the group mode of a resource where its row has many owners, with this one in it. Where there are few, there is none afterwards.
fn note_group_mode(
    alloc: Global,
    groups: &mut GroupModes,
    row: Option<&Row>,
    resource: &Resource,
    ask: Ask,
) -> Result<(), NoMemory>
    ensures groups { (rows : RowMap) → option_copied row.entry ≡ row_at rows resource.now
        → AreGroupModes groups.old rows → AreGroupModes groups.new rows }
    ensures under { OnOk result (IsUnder (group_at groups.new resource.now) ask) }
    ensures noted { OnOk result (4 ≤ owners_in (option_copied row.entry) → IsSome (group_at groups.new resource.now)) }
{
    match group_mode_with(row, ask) {
        Some(group) => put_group_mode(alloc, groups, resource, group),
        None => {
            drop_group_mode(groups, resource);
            Ok(())
        }
    }
}

/// The owners other than this one that hold a mode at the resource which bars what is asked, ascending. Where there are none, the group mode there, if there is one, has the mode then.
/// Where the group mode lets it in, none of the owners is looked at.
pub fn admitted(
    alloc: Global,
    groups: &mut GroupModes,
    rows: &Rows,
    owner: u32,
    request: &Request,
) -> Result<List<u32>, NoMemory>
    requires { AreGroupModes groups.old rows.now }
    ensures groups { AreGroupModes groups.new rows.now }
    ensures under { IfOk result (λ holders. holders ≡ [] → IsUnder (group_at groups.new request.now.resource) request.now.ask) }
    ensures noted { IfOk result (λ holders. holders ≡ [] → 4 ≤ owners_at rows.now request.now.resource → IsSome (group_at groups.new request.now.resource)) }
    ensures rising { IfOk result (λ holders. IsStrictlySortedBy nat_cmp holders) }
    ensures each { IfOk result (λ holders. AreBarring owner request.now.ask (λ o. held_in rows.now o request.now.resource) holders) }
{
    if lets_in(groups, &request.resource, request.ask) {
        return Ok(List::new(alloc));
    }
    let row = find(rows, &request.resource);
    let holders = barring_there(alloc, row, owner, request.ask)?;
    if !holders.is_empty() {
        return Ok(holders);
    }
    note_group_mode(alloc, groups, row, &request.resource, request.ask)?;
    Ok(holders)
}

/// Takes the owner out of the resource's row, and where nobody is left there the row with its group mode. It takes no memory.
pub fn take_out(rows: &mut Rows, groups: &mut GroupModes, owner: u32, resource: &Resource)
    requires { AreGroupModes groups.old rows.old }
    ensures rows { HoldsInstead rows.old owner resource.now None rows.new }
    ensures groups { AreGroupModes groups.new rows.new }
{
    if leave_at(rows, owner, resource) {
        drop_row(rows, resource);
        drop_group_mode(groups, resource);
    }
}
