//! The requests of the calls on an element's attributes and name.
ghost use Rattle.std.specs.Prelude.{◌≡◌};
ghost use Rattle.tree_model.specs.declared.dom_call.DomCall.TheVariants as call;
ghost use Rattle.node_seq.specs.Trees.{OnTree};
ghost use Rattle.outside_traits.specs.Faults.{HasCause};
ghost use Rattle.lock_plans.specs.DomPlans.{requests};

use crate::plan::Plan;
use dewey_labels::{Label, Text};
use dom_reads::attribute_at;
use node_seq::{NodeRead, SeqError};
use std::alloc::Global;
use tree_model::{MOST_TEXT_BYTES, is_name};

/// The requests of `attr` and of `has_attr`. One read.
pub fn attr<S: NodeRead>(
    alloc: Global,
    at: &Label,
    name: &Text,
    seq: &mut S,
) -> Result<Plan, SeqError>
    ensures attr { OnTree (S.contents seq.old) result (λ t plan. plan ≡ requests (call.Attr at.now name.now) t) }
    ensures has_attr { OnTree (S.contents seq.old) result (λ t plan. plan ≡ requests (call.HasAttr at.now name.now) t) }
    ensures unchanged { S.unchanged seq.old seq.new }
    ensures cause { HasCause SeqError.DiskFault (S.count seq.old) (S.count seq.new) result }
{
    let mut plan = Plan::new(alloc);
    if !plan.see_element(alloc, at, seq)? {
        return Ok(plan);
    }
    if !is_name(name) {
        return Ok(plan);
    }
    plan.read_attribute(alloc, at, name)?;
    Ok(plan)
}

/// The requests of `attrs`. One read, however many attributes there are.
pub fn attrs<S: NodeRead>(alloc: Global, at: &Label, seq: &mut S) -> Result<Plan, SeqError>
    ensures value { OnTree (S.contents seq.old) result (λ t plan. plan ≡ requests (call.Attrs at.now) t) }
    ensures unchanged { S.unchanged seq.old seq.new }
    ensures cause { HasCause SeqError.DiskFault (S.count seq.old) (S.count seq.new) result }
{
    let mut plan = Plan::new(alloc);
    if !plan.see_element(alloc, at, seq)? {
        return Ok(plan);
    }
    plan.read_attributes(alloc, at)?;
    Ok(plan)
}

/// The requests of `set_attr`. One read.
pub fn set_attr<S: NodeRead>(
    alloc: Global,
    at: &Label,
    name: &Text,
    value: &Text,
    seq: &mut S,
) -> Result<Plan, SeqError>
    ensures value { OnTree (S.contents seq.old) result (λ t plan. plan ≡ requests (call.SetAttr at.now name.now value.now) t) }
    ensures unchanged { S.unchanged seq.old seq.new }
    ensures cause { HasCause SeqError.DiskFault (S.count seq.old) (S.count seq.new) result }
{
    let mut plan = Plan::new(alloc);
    if !plan.see_element(alloc, at, seq)? {
        return Ok(plan);
    }
    if !is_name(name) {
        return Ok(plan);
    }
    if value.as_str().len() > MOST_TEXT_BYTES {
        return Ok(plan);
    }
    plan.take_attribute(alloc, at, name)?;
    Ok(plan)
}

/// The requests of `remove_attr`. Two reads.
pub fn remove_attr<S: NodeRead>(
    alloc: Global,
    at: &Label,
    name: &Text,
    seq: &mut S,
) -> Result<Plan, SeqError>
    ensures value { OnTree (S.contents seq.old) result (λ t plan. plan ≡ requests (call.RemoveAttr at.now name.now) t) }
    ensures unchanged { S.unchanged seq.old seq.new }
    ensures cause { HasCause SeqError.DiskFault (S.count seq.old) (S.count seq.new) result }
{
    let mut plan = Plan::new(alloc);
    if !plan.see_element(alloc, at, seq)? {
        return Ok(plan);
    }
    if !is_name(name) {
        return Ok(plan);
    }
    plan.read_attribute(alloc, at, name)?;
    if attribute_at(alloc, at, name, seq)?.is_none() {
        return Ok(plan);
    }
    plan.take_attribute(alloc, at, name)?;
    Ok(plan)
}

/// The requests of `rename`. One read, whatever lies below.
pub fn rename<S: NodeRead>(
    alloc: Global,
    at: &Label,
    name: &Text,
    seq: &mut S,
) -> Result<Plan, SeqError>
    ensures value { OnTree (S.contents seq.old) result (λ t plan. plan ≡ requests (call.Rename at.now name.now) t) }
    ensures unchanged { S.unchanged seq.old seq.new }
    ensures cause { HasCause SeqError.DiskFault (S.count seq.old) (S.count seq.new) result }
{
    let mut plan = Plan::new(alloc);
    if !plan.see_element(alloc, at, seq)? {
        return Ok(plan);
    }
    if !is_name(name) {
        return Ok(plan);
    }
    plan.take_tree(alloc, at)?;
    Ok(plan)
}
