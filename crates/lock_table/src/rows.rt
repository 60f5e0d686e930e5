//! The rows: for each resource the owners that hold a mode there, found by a number of its label and then in the order of resources.

ghost use Rattle.std.specs.Prelude.{◌≡◌, ◌<◌, ℕ, length, None, Some, option_copied, IfOk, OnOk, OnErr, IsTrue};
ghost use Rattle.std.specs.List.Sorted.{IsStrictlySortedBy};
ghost use Rattle.std.specs.Ordering.{nat_cmp};
ghost use Rattle.std.specs.BTreeMap.{get};
ghost use Rattle.lock_resources.specs.declared.resource.Resource.{Resource};
ghost use Rattle.lock_table.specs.inside.Barring.{AreBarring};
ghost use Rattle.lock_table.specs.inside.Rows.{HoldsInstead, bucket_of, held_in, mixed_from, row_at};
ghost use Rattle.lock_table.specs.inside.Buckets.{in_row};

use crate::asks::is_barred;
use crate::buckets::{Bucket, Row, drop_there, leave_there, put_there};
use dewey_labels::{List, NoMemory};
use lock_modes::Ask;
use lock_resources::Resource;
use std::alloc::Global;
use std::collections::BTreeMap;

/// For each resource its row, in the bucket of its label and there in the order of resources. Most buckets have few rows;
/// where labels were chosen so that one has them all, a look-up still compares with no more than a logarithm of their number.
pub type Rows = Vec<Bucket>;

/// How many buckets there are at most, a prime number. Each is made when it is first needed.
const BUCKETS: u64 = 4093;

/// What divisions come to, one after the other: a number that labels side by side don't share.
fn mixed(divisions: &[u32]) -> u64
    ensures mixed { result ≡ mixed_from 0 divisions.now }
    ensures small { result < 4093 }
{
    let mut number = 0;
    for division in divisions {
        number = (number * 37 + u64::from(*division)) % BUCKETS;
    }
    number
}

/// The number of a resource's bucket.
fn bucket_number(resource: &Resource) -> usize
    ensures { result ≡ bucket_of resource.now }
{
    mixed(resource.label().divisions()) as usize
}

/// The row of a resource, if it has one.
pub fn find<'a>(rows: &'a Rows, resource: &Resource) -> Option<&'a Row>
    ensures { option_copied result ≡ row_at rows.now resource.now }
{
    match rows.get(bucket_number(resource)) {
        Some(bucket) => bucket.get(resource),
        None => None,
    }
}

/// What the owner holds at the resource.
pub fn held(rows: &Rows, owner: u32, resource: &Resource) -> Option<Ask>
    ensures { result ≡ held_in rows.now owner resource.now }
{
    match find(rows, resource) {
        Some(row) => row.get(&owner).copied(),
        None => None,
    }
}

/// Sees to it that there is a bucket of this number. What is held stays as it is.
fn make_buckets(alloc: Global, rows: &mut Rows, number: usize) -> Result<(), NoMemory>
    ensures same { (r : Resource) → row_at rows.new r ≡ row_at rows.old r }
    ensures there { OnOk result (number < length rows.new.items) }
{
    while rows.len() <= number {
        rows.push(BTreeMap::new(alloc))?;
    }
    Ok(())
}

/// Notes that the owner holds the mode at the resource.
pub fn put(
    alloc: Global,
    rows: &mut Rows,
    owner: u32,
    resource: &Resource,
    ask: Ask,
) -> Result<(), NoMemory>
    ensures ok { OnOk result (HoldsInstead rows.old owner resource.now (Some ask) rows.new) }
    ensures err { OnErr result ((o : ℕ) (r : Resource) → held_in rows.new o r ≡ held_in rows.old o r) }
{
    let number = bucket_number(resource);
    make_buckets(alloc, rows, number)?;
    put_there(alloc, &mut rows[number], owner, resource, ask)
}

/// Takes the owner out of the resource's row and answers whether nobody is left there.
pub fn leave_at(rows: &mut Rows, owner: u32, resource: &Resource) -> bool
    ensures rows { HoldsInstead rows.old owner resource.now None rows.new }
    ensures empty { IsTrue result → (o : ℕ) → held_in rows.new o resource.now ≡ None }
{
    let number = bucket_number(resource);
    if number >= rows.len() {
        return false;
    }
    leave_there(&mut rows[number], owner, resource)
}

/// Takes a row out at which nobody holds anything.
pub fn drop_row(rows: &mut Rows, resource: &Resource)
    requires { (o : ℕ) → held_in rows.old o resource.now ≡ None }
    ensures { (o : ℕ) (r : Resource) → held_in rows.new o r ≡ held_in rows.old o r }
{
    let number = bucket_number(resource);
    if number < rows.len() {
        drop_there(&mut rows[number], resource);
    }
}

/// The owners other than this one that hold a mode at the resource which bars this one, ascending.
pub fn barring_at(
    alloc: Global,
    rows: &Rows,
    owner: u32,
    resource: &Resource,
    ask: Ask,
) -> Result<List<u32>, NoMemory>
    ensures rising { IfOk result (λ holders. IsStrictlySortedBy nat_cmp holders) }
    ensures each { IfOk result (λ holders. AreBarring owner ask (λ o. held_in rows.now o resource.now) holders) }
{
    barring_there(alloc, find(rows, resource), owner, ask)
}

/// The same in a row that may be missing.
pub fn barring_there(
    alloc: Global,
    row: Option<&Row>,
    owner: u32,
    ask: Ask,
) -> Result<List<u32>, NoMemory>
    ensures rising { IfOk result (λ holders. IsStrictlySortedBy nat_cmp holders) }
    ensures each { IfOk result (λ holders. AreBarring owner ask (λ o. in_row (option_copied row.entry) o) holders) }
{
    match row {
        Some(row) => barring_in(alloc, row, owner, ask),
        None => Ok(List::new(alloc)),
    }
}

fn barring_in(alloc: Global, row: &Row, owner: u32, ask: Ask) -> Result<List<u32>, NoMemory>
    ensures rising { IfOk result (λ holders. IsStrictlySortedBy nat_cmp holders) }
    ensures each { IfOk result (λ holders. AreBarring owner ask (λ o. get nat_cmp row.now o) holders) }
{
    let mut holders = List::new(alloc);
    for (other, held) in row.iter() {
        if *other != owner && is_barred(ask, *held) {
            holders.push(*other)?;
        }
    }
    Ok(holders)
}
