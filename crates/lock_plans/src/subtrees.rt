//! The requests of the calls that take a whole subtree.
ghost use Rattle.std.specs.Prelude.{◌≡◌};
ghost use Rattle.tree_model.specs.declared.dom_call.DomCall.TheVariants as call;
ghost use Rattle.tree_model.specs.Names.{Name};
ghost use Rattle.node_seq.specs.Trees.{OnTree};
ghost use Rattle.outside_traits.specs.Faults.{HasCause};
ghost use Rattle.lock_plans.specs.DomPlans.{requests};

use crate::plan::Plan;
use dewey_labels::Label;
use dom_reads::{is_document, is_text};
use node_seq::{NodeRead, SeqError};
use std::alloc::Global;

/// The requests of `text_content`. One read, whatever lies below.
pub fn text_content<S: NodeRead>(alloc: Global, at: &Label, seq: &mut S) -> Result<Plan, SeqError>
    ensures value { OnTree (S.contents seq.old) result (λ t plan. plan ≡ requests (call.TextContent at.now) t) }
    ensures unchanged { S.unchanged seq.old seq.new }
    ensures cause { HasCause SeqError.DiskFault (S.count seq.old) (S.count seq.new) result }
{
    let mut plan = Plan::new(alloc);
    let Some(found) = plan.see(alloc, at, seq)? else {
        return Ok(plan);
    };
    if is_document(&found) {
        return Ok(plan);
    }
    plan.read_tree(alloc, at)?;
    Ok(plan)
}

/// The requests of `dump`, and of `tags` for any name. One read, whatever lies below.
pub fn whole_tree<S: NodeRead>(alloc: Global, at: &Label, seq: &mut S) -> Result<Plan, SeqError>
    ensures dump { OnTree (S.contents seq.old) result (λ t plan. plan ≡ requests (call.Dump at.now) t) }
    ensures tags { OnTree (S.contents seq.old) result (λ t plan. (name : Name) → plan ≡ requests (call.Tags at.now name) t) }
    ensures unchanged { S.unchanged seq.old seq.new }
    ensures cause { HasCause SeqError.DiskFault (S.count seq.old) (S.count seq.new) result }
{
    let mut plan = Plan::new(alloc);
    if !plan.see_node(alloc, at, seq)? {
        return Ok(plan);
    }
    plan.read_tree(alloc, at)?;
    Ok(plan)
}

/// The requests of `normalize`. One read, whatever lies below.
pub fn normalize<S: NodeRead>(alloc: Global, at: &Label, seq: &mut S) -> Result<Plan, SeqError>
    ensures value { OnTree (S.contents seq.old) result (λ t plan. plan ≡ requests (call.Normalize at.now) t) }
    ensures unchanged { S.unchanged seq.old seq.new }
    ensures cause { HasCause SeqError.DiskFault (S.count seq.old) (S.count seq.new) result }
{
    let mut plan = Plan::new(alloc);
    let Some(found) = plan.see(alloc, at, seq)? else {
        return Ok(plan);
    };
    if is_text(&found) {
        return Ok(plan);
    }
    plan.take_tree(alloc, at)?;
    Ok(plan)
}
