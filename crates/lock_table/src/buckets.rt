//! A bucket: the rows of some resources, in the order of these.

ghost use Rattle.std.specs.Prelude.{◌≡◌, ℕ, ◌==◌, cond, None, Some, IfOk, OnOk, OnErr, IsTrue};
ghost use Rattle.std.specs.Ordering.{nat_cmp};
ghost use Rattle.std.specs.BTreeMap.{get};
ghost use Rattle.lock_resources.specs.declared.resource.Resource.{Resource};
ghost use Rattle.lock_table.specs.inside.Buckets.{HoldsThere, held_there};

use dewey_labels::NoMemory;
use lock_modes::Ask;
use lock_resources::Resource;
use std::alloc::Global;
use std::collections::BTreeMap;

/// The owners at a resource with the modes that they hold.
pub type Row = BTreeMap<u32, Ask>;

/// The rows of some resources. A look-up compares the resource with as many others as a logarithm of their number, whoever chose their labels and names.
pub type Bucket = BTreeMap<Resource, Row>;

fn put_in(row: &mut Row, owner: u32, ask: Ask) -> Result<(), NoMemory>
    ensures ok { OnOk result ((o : ℕ) → get nat_cmp row.new o ≡ cond (owner == o) (Some ask) (get nat_cmp row.old o)) }
    ensures err { OnErr result ((o : ℕ) → get nat_cmp row.new o ≡ get nat_cmp row.old o) }
{
    row.insert(owner, ask)?;
    Ok(())
}

fn row_of(alloc: Global, owner: u32, ask: Ask) -> Result<Row, NoMemory>
    ensures { IfOk result (λ row. (o : ℕ) → get nat_cmp row o ≡ cond (owner == o) (Some ask) None) }
{
    let mut row = BTreeMap::new(alloc);
    put_in(&mut row, owner, ask)?;
    Ok(row)
}

/// Notes that the owner holds the mode at the resource.
pub fn put_there(
    alloc: Global,
    bucket: &mut Bucket,
    owner: u32,
    resource: &Resource,
    ask: Ask,
) -> Result<(), NoMemory>
    ensures ok { OnOk result (HoldsThere bucket.old owner resource.now (Some ask) bucket.new) }
    ensures err { OnErr result ((o : ℕ) (r : Resource) → held_there bucket.new o r ≡ held_there bucket.old o r) }
{
    match bucket.get_mut(resource) {
        Some(row) => put_in(row, owner, ask),
        None => put_new(alloc, bucket, owner, resource, ask),
    }
}

/// Makes a row for a resource that has none.
fn put_new(
    alloc: Global,
    bucket: &mut Bucket,
    owner: u32,
    resource: &Resource,
    ask: Ask,
) -> Result<(), NoMemory>
    requires { (o : ℕ) → held_there bucket.old o resource.now ≡ None }
    ensures ok { OnOk result (HoldsThere bucket.old owner resource.now (Some ask) bucket.new) }
    ensures err { OnErr result ((o : ℕ) (r : Resource) → held_there bucket.new o r ≡ held_there bucket.old o r) }
{
    let row = row_of(alloc, owner, ask)?;
    bucket.insert(resource.copy(alloc)?, row)?;
    Ok(())
}

/// Takes the owner out of a row and answers whether nobody is left.
fn leave(row: &mut Row, owner: u32) -> bool
    ensures row { (o : ℕ) → get nat_cmp row.new o ≡ cond (owner == o) None (get nat_cmp row.old o) }
    ensures empty { IsTrue result → (o : ℕ) → get nat_cmp row.new o ≡ None }
{
    row.remove(&owner);
    row.is_empty()
}

/// Takes the owner out of the resource's row and answers whether nobody is left there.
pub fn leave_there(bucket: &mut Bucket, owner: u32, resource: &Resource) -> bool
    ensures bucket { HoldsThere bucket.old owner resource.now None bucket.new }
    ensures empty { IsTrue result → (o : ℕ) → held_there bucket.new o resource.now ≡ None }
{
    match bucket.get_mut(resource) {
        Some(row) => leave(row, owner),
        None => false,
    }
}

/// Takes a row out at which nobody holds anything.
pub fn drop_there(bucket: &mut Bucket, resource: &Resource)
    requires { (o : ℕ) → held_there bucket.old o resource.now ≡ None }
    ensures { (o : ℕ) (r : Resource) → held_there bucket.new o r ≡ held_there bucket.old o r }
{
    bucket.remove(resource);
}
