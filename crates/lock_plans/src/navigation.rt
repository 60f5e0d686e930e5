//! The requests of the calls that lead from node to node.
ghost use Rattle.std.specs.Prelude.{◌≡◌, ℕ, Some, IfOk};
ghost use Rattle.tree_model.specs.declared.dom_call.DomCall.TheVariants as call;
ghost use Rattle.tree_model.specs.DomCalls.{dom};
ghost use Rattle.tree_model.specs.Tree.{Tree};
ghost use Rattle.node_seq.specs.Trees.{OnTree};
ghost use Rattle.outside_traits.specs.Faults.{HasCause};
ghost use Rattle.lock_plans.specs.DomPlans.{requests};

use crate::plan::Plan;
use dewey_labels::{Label, NoMemory};
use dom_reads::{first_below, is_document, last_below, next_sibling, not_found, previous_sibling};
use lock_resources::Side;
use node_seq::{NodeRead, SeqError};
use std::alloc::Global;
use tree_model::Reply;

/// The requests of a call, and its reply where the steps to them found it out.
#[derive(Drop)]
pub struct Planned {
    pub plan: Plan,
    pub reply: Option<Reply>,
}

impl Plan {
    /// The plan, with the reply that its steps found out.
    fn answered(self, reply: Reply) -> Planned
        ensures plan { result.plan ≡ self }
        ensures reply { result.reply ≡ Some reply }
    {
        Planned {
            plan: self,
            reply: Some(reply),
        }
    }
}

/// The requests of `node`, `length` and `substring`: a test behind the last request leaves it the last. It reads nothing.
pub fn node(alloc: Global, at: &Label) -> Result<Plan, NoMemory>
    ensures node { IfOk result (λ plan. (t : Tree) → plan ≡ requests (call.Node at.now) t) }
    ensures length { IfOk result (λ plan. (t : Tree) → plan ≡ requests (call.Length at.now) t) }
    ensures substring { IfOk result (λ plan. (offset count : ℕ) (t : Tree) → plan ≡ requests (call.Substring at.now offset count) t) }
{
    let mut plan = Plan::new(alloc);
    plan.read_node(alloc, at)?;
    Ok(plan)
}

/// The requests of `parent`. One read.
pub fn parent<S: NodeRead>(alloc: Global, at: &Label, seq: &mut S) -> Result<Plan, SeqError>
    ensures value { OnTree (S.contents seq.old) result (λ t plan. plan ≡ requests (call.Parent at.now) t) }
    ensures unchanged { S.unchanged seq.old seq.new }
    ensures cause { HasCause SeqError.DiskFault (S.count seq.old) (S.count seq.new) result }
{
    let mut plan = Plan::new(alloc);
    if !plan.see_node(alloc, at, seq)? {
        return Ok(plan);
    }
    let Some(parent) = at.parent(alloc)? else {
        return Ok(plan);
    };
    plan.read_node(alloc, &parent)?;
    Ok(plan)
}

/// The requests of `first`, and its reply. One read where there is a child, and two where there is none.
pub fn first<S: NodeRead>(alloc: Global, at: &Label, seq: &mut S) -> Result<Planned, SeqError>
    ensures value { OnTree (S.contents seq.old) result (λ t planned. planned.plan ≡ requests (call.First at.now) t) }
    ensures reply { OnTree (S.contents seq.old) result (λ t planned. planned.reply ≡ Some (dom (call.First at.now) t).0) }
    ensures unchanged { S.unchanged seq.old seq.new }
    ensures cause { HasCause SeqError.DiskFault (S.count seq.old) (S.count seq.new) result }
{
    let mut plan = Plan::new(alloc);
    plan.read_node(alloc, at)?;
    let Some(child) = first_below(alloc, at, seq)? else {
        return Ok(plan.answered(not_found()));
    };
    plan.read_edge(alloc, at, Side::First)?;
    plan.read_found(alloc, &child)?;
    Ok(plan.answered(Reply::Place(child)))
}

/// The requests of `last`, and its reply. One read where there is a child, and two where there is none.
pub fn last<S: NodeRead>(alloc: Global, at: &Label, seq: &mut S) -> Result<Planned, SeqError>
    ensures value { OnTree (S.contents seq.old) result (λ t planned. planned.plan ≡ requests (call.Last at.now) t) }
    ensures reply { OnTree (S.contents seq.old) result (λ t planned. planned.reply ≡ Some (dom (call.Last at.now) t).0) }
    ensures unchanged { S.unchanged seq.old seq.new }
    ensures cause { HasCause SeqError.DiskFault (S.count seq.old) (S.count seq.new) result }
{
    let mut plan = Plan::new(alloc);
    plan.read_node(alloc, at)?;
    let Some(child) = last_below(alloc, at, seq)? else {
        return Ok(plan.answered(not_found()));
    };
    plan.read_edge(alloc, at, Side::Last)?;
    plan.read_found(alloc, &child)?;
    Ok(plan.answered(Reply::Place(child)))
}

/// The requests of `next`, and its reply. Two reads.
pub fn next<S: NodeRead>(alloc: Global, at: &Label, seq: &mut S) -> Result<Planned, SeqError>
    ensures value { OnTree (S.contents seq.old) result (λ t planned. planned.plan ≡ requests (call.Next at.now) t) }
    ensures reply { OnTree (S.contents seq.old) result (λ t planned. planned.reply ≡ Some (dom (call.Next at.now) t).0) }
    ensures unchanged { S.unchanged seq.old seq.new }
    ensures cause { HasCause SeqError.DiskFault (S.count seq.old) (S.count seq.new) result }
{
    let mut plan = Plan::new(alloc);
    let Some(found) = plan.see(alloc, at, seq)? else {
        return Ok(plan.answered(not_found()));
    };
    if is_document(&found) {
        return Ok(plan.answered(Reply::Place(None)));
    }
    plan.read_edge(alloc, at, Side::Next)?;
    let sibling = next_sibling(alloc, at, seq)?;
    plan.read_found(alloc, &sibling)?;
    Ok(plan.answered(Reply::Place(sibling)))
}

/// The requests of `prev`, and its reply. Two reads.
pub fn prev<S: NodeRead>(alloc: Global, at: &Label, seq: &mut S) -> Result<Planned, SeqError>
    ensures value { OnTree (S.contents seq.old) result (λ t planned. planned.plan ≡ requests (call.Prev at.now) t) }
    ensures reply { OnTree (S.contents seq.old) result (λ t planned. planned.reply ≡ Some (dom (call.Prev at.now) t).0) }
    ensures unchanged { S.unchanged seq.old seq.new }
    ensures cause { HasCause SeqError.DiskFault (S.count seq.old) (S.count seq.new) result }
{
    let mut plan = Plan::new(alloc);
    let Some(found) = plan.see(alloc, at, seq)? else {
        return Ok(plan.answered(not_found()));
    };
    if is_document(&found) {
        return Ok(plan.answered(Reply::Place(None)));
    }
    plan.read_edge(alloc, at, Side::Prev)?;
    let sibling = previous_sibling(alloc, at, seq)?;
    plan.read_found(alloc, &sibling)?;
    Ok(plan.answered(Reply::Place(sibling)))
}

/// The requests of `children`. One read, whatever lies below.
pub fn children<S: NodeRead>(alloc: Global, at: &Label, seq: &mut S) -> Result<Plan, SeqError>
    ensures value { OnTree (S.contents seq.old) result (λ t plan. plan ≡ requests (call.Children at.now) t) }
    ensures unchanged { S.unchanged seq.old seq.new }
    ensures cause { HasCause SeqError.DiskFault (S.count seq.old) (S.count seq.new) result }
{
    let mut plan = Plan::new(alloc);
    if !plan.see_node(alloc, at, seq)? {
        return Ok(plan);
    }
    plan.read_level(alloc, at)?;
    Ok(plan)
}
