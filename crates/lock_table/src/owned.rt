//! The resources of each owner, which a release visits and no others.

ghost use Rattle.std.specs.Prelude.{◌≡◌, ℕ, ◌&&◌, ◌==◌, cond, [], OnOk, IsTrue};
ghost use Rattle.lock_resources.specs.declared.resource.Resource.{Resource};
ghost use Rattle.lock_table.specs.inside.Rows.{owned_by, is_listed, listed};

use dewey_labels::{List, NoMemory};
use lock_resources::Resource;
use std::alloc::Global;
use std::collections::BTreeMap;

/// For each owner the resources at which it holds a mode; a resource may be there twice, or in vain.
pub type Owned = BTreeMap<u32, List<Resource>>;

fn push(list: &mut List<Resource>, resource: Resource) -> Result<(), NoMemory>
    ensures noted { OnOk result (IsTrue (is_listed resource list.new)) }
    ensures grows { (r : Resource) → IsTrue (is_listed r list.old) → IsTrue (is_listed r list.new) }
{
    list.push(resource)
}

/// Sees to it that a resource is listed for an owner, where it holds nothing there yet.
pub fn make_listed(
    alloc: Global,
    owned: &mut Owned,
    owner: u32,
    resource: &Resource,
    is_held: bool,
) -> Result<(), NoMemory>
    requires { IsTrue is_held → IsTrue (is_listed resource.now (owned_by owned.old owner)) }
    ensures noted { OnOk result (IsTrue (is_listed resource.now (owned_by owned.new owner))) }
    ensures grows { (o : ℕ) (r : Resource) → IsTrue (is_listed r (owned_by owned.old o)) → IsTrue (is_listed r (owned_by owned.new o)) }
{
    if is_held {
        return Ok(());
    }
    list(alloc, owned, owner, resource.copy(alloc)?)
}

/// Lists a resource for an owner.
fn list(alloc: Global, owned: &mut Owned, owner: u32, resource: Resource) -> Result<(), NoMemory>
    ensures noted { OnOk result (IsTrue (is_listed resource (owned_by owned.new owner))) }
    ensures grows { (o : ℕ) (r : Resource) → IsTrue (is_listed r (owned_by owned.old o)) → IsTrue (is_listed r (owned_by owned.new o)) }
{
    match owned.get_mut(&owner) {
        Some(list) => push(list, resource),
        None => list_first(alloc, owned, owner, resource),
    }
}

fn list_first(
    alloc: Global,
    owned: &mut Owned,
    owner: u32,
    resource: Resource,
) -> Result<(), NoMemory>
    requires { owned_by owned.old owner ≡ [] }
    ensures noted { OnOk result (IsTrue (is_listed resource (owned_by owned.new owner))) }
    ensures grows { (o : ℕ) (r : Resource) → IsTrue (is_listed r (owned_by owned.old o)) → IsTrue (is_listed r (owned_by owned.new o)) }
{
    let mut list = List::new(alloc);
    push(&mut list, resource)?;
    owned.insert(owner, list)?;
    Ok(())
}

/// Takes an owner's list out. It takes no memory.
pub fn take_list(owned: &mut Owned, owner: u32) -> Option<List<Resource>>
    ensures list { listed result ≡ owned_by owned.old owner }
    ensures owned { (o : ℕ) → owned_by owned.new o ≡ cond (owner == o) [] (owned_by owned.old o) }
{
    owned.remove(&owner)
}
