//! The requests of the calls that put a subtree into the tree and take one out.
ghost use Rattle.std.specs.Prelude.{◌≡◌, IsTrue, None};
ghost use Rattle.dewey_labels.specs.Labels.{is_child, parent as parent_of};
ghost use Rattle.tree_model.specs.declared.dom_call.DomCall.TheVariants as call;
ghost use Rattle.tree_model.specs.Fragments.{plain};
ghost use Rattle.node_seq.specs.Trees.{OnTree};
ghost use Rattle.outside_traits.specs.Faults.{HasCause};
ghost use Rattle.lock_plans.specs.DomPlans.{requests};
ghost use Rattle.lock_plans.specs.inside.PlanSteps.{EndsPlanAt, append_end, insert_end, remove_end, replace_end};

use crate::gaps::place_fragment;
use crate::plan::Plan;
use dewey_labels::Label;
use dom_reads::{
    first_child, is_document, is_text, is_text_in_document, last_child, next_sibling,
    previous_sibling,
};
use lock_resources::Side;
use node_seq::{NodeRead, SeqError};
use std::alloc::Global;
use tree_model::{Fragment, Record};

/// The requests of `append`, and of `insert` before no child. Three reads at most.
pub fn append<S: NodeRead>(
    alloc: Global,
    at: &Label,
    fragment: &Fragment,
    seq: &mut S,
) -> Result<Plan, SeqError>
    ensures append { OnTree (S.contents seq.old) result (λ t plan. plan ≡ requests (call.Append at.now fragment.now) t) }
    ensures insert { OnTree (S.contents seq.old) result (λ t plan. plan ≡ requests (call.Insert at.now None fragment.now) t) }
    ensures unchanged { S.unchanged seq.old seq.new }
    ensures cause { HasCause SeqError.DiskFault (S.count seq.old) (S.count seq.new) result }
{
    let mut plan = Plan::new(alloc);
    let Some(found) = plan.see(alloc, at, seq)? else {
        return Ok(plan);
    };
    if is_text(&found) {
        return Ok(plan);
    }
    if !is_document(&found) {
        return append_last(alloc, at, fragment, seq, plan);
    }
    if fragment.is_text() {
        return Ok(plan);
    }
    plan.read_edge(alloc, at, Side::First)?;
    if first_child(alloc, at, seq)?.is_some() {
        return Ok(plan);
    }
    append_last(alloc, at, fragment, seq, plan)
}

/// The last requests of `append`, at a node that is there and has room.
fn append_last<S: NodeRead>(
    alloc: Global,
    at: &Label,
    fragment: &Fragment,
    seq: &mut S,
    mut plan: Plan,
) -> Result<Plan, SeqError>
    ensures value { EndsPlanAt (S.contents seq.old) result at.now plan
        (append_end at.now (plain fragment.now)) }
    ensures unchanged { S.unchanged seq.old seq.new }
    ensures cause { HasCause SeqError.DiskFault (S.count seq.old) (S.count seq.new) result }
{
    if fragment.is_too_deep(at) {
        return Ok(plan);
    }
    let last = last_child(alloc, at, seq)?;
    plan.take_end(alloc, at, &last)?;
    place_fragment(alloc, at, &last, &None, fragment, &mut plan)?;
    Ok(plan)
}

/// The requests of `insert` before a child. Three reads.
pub fn insert<S: NodeRead>(
    alloc: Global,
    at: &Label,
    child: &Label,
    fragment: &Fragment,
    seq: &mut S,
) -> Result<Plan, SeqError>
    ensures value { OnTree (S.contents seq.old) result (λ t plan. plan ≡ requests (call.Insert at.now (Some child.now) fragment.now) t) }
    ensures unchanged { S.unchanged seq.old seq.new }
    ensures cause { HasCause SeqError.DiskFault (S.count seq.old) (S.count seq.new) result }
{
    let mut plan = Plan::new(alloc);
    let Some(found) = plan.see(alloc, at, seq)? else {
        return Ok(plan);
    };
    if is_text(&found) {
        return Ok(plan);
    }
    if !plan.see_child(alloc, at, child, seq)? {
        return Ok(plan);
    }
    if is_document(&found) {
        return Ok(plan);
    }
    insert_before(alloc, at, child, fragment, seq, plan)
}

/// The last requests of `insert`, before a child that is there.
fn insert_before<S: NodeRead>(
    alloc: Global,
    at: &Label,
    child: &Label,
    fragment: &Fragment,
    seq: &mut S,
    mut plan: Plan,
) -> Result<Plan, SeqError>
    requires child { IsTrue (is_child at.now child.now) }
    requires parent { parent_of child.now ≡ at.now }
    ensures value { EndsPlanAt (S.contents seq.old) result child.now plan
        (insert_end at.now child.now (plain fragment.now)) }
    ensures unchanged { S.unchanged seq.old seq.new }
    ensures cause { HasCause SeqError.DiskFault (S.count seq.old) (S.count seq.new) result }
{
    if fragment.is_too_deep(at) {
        return Ok(plan);
    }
    let left = previous_sibling(alloc, child, seq)?;
    plan.take_gap_before(alloc, at, child, &left)?;
    let right = Some(child.copy(alloc)?);
    place_fragment(alloc, at, &left, &right, fragment, &mut plan)?;
    Ok(plan)
}

/// The requests of `replace`. Four reads, whatever lies below the old child.
pub fn replace<S: NodeRead>(
    alloc: Global,
    at: &Label,
    old: &Label,
    fragment: &Fragment,
    seq: &mut S,
) -> Result<Plan, SeqError>
    ensures value { OnTree (S.contents seq.old) result (λ t plan. plan ≡ requests (call.Replace at.now old.now fragment.now) t) }
    ensures unchanged { S.unchanged seq.old seq.new }
    ensures cause { HasCause SeqError.DiskFault (S.count seq.old) (S.count seq.new) result }
{
    let mut plan = Plan::new(alloc);
    let Some(found) = plan.see(alloc, at, seq)? else {
        return Ok(plan);
    };
    if !plan.see_child(alloc, at, old, seq)? {
        return Ok(plan);
    }
    if is_text_in_document(&found, fragment) {
        return Ok(plan);
    }
    replace_child(alloc, at, old, fragment, seq, plan)
}

/// The last requests of `replace`, in place of a child that is there.
fn replace_child<S: NodeRead>(
    alloc: Global,
    at: &Label,
    old: &Label,
    fragment: &Fragment,
    seq: &mut S,
    mut plan: Plan,
) -> Result<Plan, SeqError>
    requires child { IsTrue (is_child at.now old.now) }
    requires parent { parent_of old.now ≡ at.now }
    ensures value { EndsPlanAt (S.contents seq.old) result old.now plan
        (replace_end at.now old.now (plain fragment.now)) }
    ensures unchanged { S.unchanged seq.old seq.new }
    ensures cause { HasCause SeqError.DiskFault (S.count seq.old) (S.count seq.new) result }
{
    if fragment.is_too_deep(at) {
        return Ok(plan);
    }
    let left = previous_sibling(alloc, old, seq)?;
    let right = next_sibling(alloc, old, seq)?;
    plan.take_out(alloc, at, old, &left, &right)?;
    place_fragment(alloc, at, &left, &right, fragment, &mut plan)?;
    Ok(plan)
}

/// The requests of `remove`. Four reads, whatever lies below.
pub fn remove<S: NodeRead>(
    alloc: Global,
    at: &Label,
    old: &Label,
    seq: &mut S,
) -> Result<Plan, SeqError>
    ensures value { OnTree (S.contents seq.old) result (λ t plan. plan ≡ requests (call.Remove at.now old.now) t) }
    ensures unchanged { S.unchanged seq.old seq.new }
    ensures cause { HasCause SeqError.DiskFault (S.count seq.old) (S.count seq.new) result }
{
    let mut plan = Plan::new(alloc);
    if !plan.see_node(alloc, at, seq)? {
        return Ok(plan);
    }
    if !plan.see_child(alloc, at, old, seq)? {
        return Ok(plan);
    }
    take_out_child(alloc, at, old, seq, plan)
}

/// A child that is there with its gap, behind other requests.
pub fn take_out_child<S: NodeRead>(
    alloc: Global,
    at: &Label,
    old: &Label,
    seq: &mut S,
    mut plan: Plan,
) -> Result<Plan, SeqError>
    ensures value { EndsPlanAt (S.contents seq.old) result old.now plan
        (remove_end at.now old.now) }
    ensures unchanged { S.unchanged seq.old seq.new }
    ensures cause { HasCause SeqError.DiskFault (S.count seq.old) (S.count seq.new) result }
{
    let left = previous_sibling(alloc, old, seq)?;
    let right = next_sibling(alloc, old, seq)?;
    plan.take_out(alloc, at, old, &left, &right)?;
    Ok(plan)
}
