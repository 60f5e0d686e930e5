//! The requests of the calls on a text's characters, and of `set_text`.
ghost use Rattle.std.specs.Prelude.{◌≡◌, ◌++◌, ◌&&◌, not, Some};
ghost use Rattle.tree_model.specs.declared.dom_call.DomCall.TheVariants as call;
ghost use Rattle.tree_model.specs.Limits.{is_too_long as is_past_limit};
ghost use Rattle.tree_model.specs.NodeKinds.{is_text_record};
ghost use Rattle.tree_model.specs.Placing.{is_too_deep};
ghost use Rattle.tree_model.specs.Texts.{data_from, text_below};
ghost use Rattle.node_seq.specs.Trees.{OnTree};
ghost use Rattle.outside_traits.specs.Faults.{HasCause};
ghost use Rattle.lock_plans.specs.DomPlans.{requests};
ghost use Rattle.lock_plans.specs.inside.PlanSteps.{EndsPlanAt, split_end};

use crate::plan::Plan;
use dewey_labels::{Label, Text, child_beside};
use dom_reads::{cut, is_document, is_text, next_sibling};
use lock_resources::Side;
use node_seq::{NodeRead, SeqError};
use std::alloc::Global;
use tree_model::{DEEPEST_LEVEL, MOST_TEXT_BYTES, Record};

/// The requests of `set_data`. One read.
pub fn set_data<S: NodeRead>(
    alloc: Global,
    at: &Label,
    text: &Text,
    seq: &mut S,
) -> Result<Plan, SeqError>
    ensures value { OnTree (S.contents seq.old) result (λ t plan. plan ≡ requests (call.SetData at.now text.now) t) }
    ensures unchanged { S.unchanged seq.old seq.new }
    ensures cause { HasCause SeqError.DiskFault (S.count seq.old) (S.count seq.new) result }
{
    let mut plan = Plan::new(alloc);
    let Some(_old) = plan.see_text(alloc, at, seq)? else {
        return Ok(plan);
    };
    if text.as_str().len() > MOST_TEXT_BYTES {
        return Ok(plan);
    }
    plan.take_tree(alloc, at)?;
    Ok(plan)
}

/// The requests of `append_data`. One read.
pub fn append_data<S: NodeRead>(
    alloc: Global,
    at: &Label,
    text: &Text,
    seq: &mut S,
) -> Result<Plan, SeqError>
    ensures value { OnTree (S.contents seq.old) result (λ t plan. plan ≡ requests (call.AppendData at.now text.now) t) }
    ensures unchanged { S.unchanged seq.old seq.new }
    ensures cause { HasCause SeqError.DiskFault (S.count seq.old) (S.count seq.new) result }
{
    let mut plan = Plan::new(alloc);
    let Some(old) = plan.see_text(alloc, at, seq)? else {
        return Ok(plan);
    };
    if is_too_long(old.as_str(), text.as_str(), "") {
        return Ok(plan);
    }
    plan.take_tree(alloc, at)?;
    Ok(plan)
}

/// The requests of `replace_data`; with a count of 0 those of `insert_data`, and with no data those of `delete_data`. One read.
pub fn replace_data<S: NodeRead>(
    alloc: Global,
    at: &Label,
    offset: u32,
    count: u32,
    text: &str,
    seq: &mut S,
) -> Result<Plan, SeqError>
    ensures value { OnTree (S.contents seq.old) result (λ t plan. plan ≡ requests (call.ReplaceData at.now offset count text.now) t) }
    ensures unchanged { S.unchanged seq.old seq.new }
    ensures cause { HasCause SeqError.DiskFault (S.count seq.old) (S.count seq.new) result }
{
    let mut plan = Plan::new(alloc);
    let Some(old) = plan.see_text(alloc, at, seq)? else {
        return Ok(plan);
    };
    let Some((before, behind)) = cut(old.as_str(), offset) else {
        return Ok(plan);
    };
    if is_too_long(before, text, behind_first(behind, count)) {
        return Ok(plan);
    }
    plan.take_tree(alloc, at)?;
    Ok(plan)
}

/// Whether three texts joined would pass the limit.
fn is_too_long(before: &str, text: &str, behind: &str) -> bool
    ensures { result ≡ is_past_limit (before.now ++ (text.now ++ behind.now)) }
{
    let length = before.len().saturating_add(text.len());
    length.saturating_add(behind.len()) > MOST_TEXT_BYTES
}

/// What stands behind the first characters of a text, a count of them.
fn behind_first(text: &str, count: u32) -> &str
    ensures { result.now ≡ data_from count text.now }
{
    match cut(text, count) {
        Some((_, behind)) => behind,
        None => "",
    }
}

/// The requests of `split_text`. Two reads.
pub fn split_text<S: NodeRead>(
    alloc: Global,
    at: &Label,
    offset: u32,
    seq: &mut S,
) -> Result<Plan, SeqError>
    ensures value { OnTree (S.contents seq.old) result (λ t plan. plan ≡ requests (call.SplitText at.now offset) t) }
    ensures unchanged { S.unchanged seq.old seq.new }
    ensures cause { HasCause SeqError.DiskFault (S.count seq.old) (S.count seq.new) result }
{
    let mut plan = Plan::new(alloc);
    let Some(old) = plan.see_text(alloc, at, seq)? else {
        return Ok(plan);
    };
    let Some(_parts) = cut(old.as_str(), offset) else {
        return Ok(plan);
    };
    split(alloc, at, seq, plan)
}

/// The last requests of `split_text` at a node that is there: its tree, and a new text behind it.
fn split<S: NodeRead>(
    alloc: Global,
    at: &Label,
    seq: &mut S,
    mut plan: Plan,
) -> Result<Plan, SeqError>
    ensures value { EndsPlanAt (S.contents seq.old) result at.now plan (split_end at.now) }
    ensures unchanged { S.unchanged seq.old seq.new }
    ensures cause { HasCause SeqError.DiskFault (S.count seq.old) (S.count seq.new) result }
{
    let _divisions = at.divisions();
    let Some(parent) = at.parent(alloc)? else {
        return Ok(plan);
    };
    plan.take_tree(alloc, at)?;
    plan.take_edge(alloc, at, Side::Next)?;
    let next = next_sibling(alloc, at, seq)?;
    plan.take_right(alloc, &parent, &next)?;
    let left = Some(at.copy(alloc)?);
    let Some(new) = child_beside(alloc, &parent, &left, &next)? else {
        return Ok(plan);
    };
    let _within = new.divisions();
    plan.take_tree(alloc, &new)?;
    Ok(plan)
}

/// The requests of `set_text`. One read, whatever lies below.
pub fn set_text<S: NodeRead>(
    alloc: Global,
    at: &Label,
    text: &Text,
    seq: &mut S,
) -> Result<Plan, SeqError>
    ensures value { OnTree (S.contents seq.old) result (λ t plan. plan ≡ requests (call.SetText at.now text.now) t) }
    ensures unchanged { S.unchanged seq.old seq.new }
    ensures cause { HasCause SeqError.DiskFault (S.count seq.old) (S.count seq.new) result }
{
    let mut plan = Plan::new(alloc);
    let Some(found) = plan.see(alloc, at, seq)? else {
        return Ok(plan);
    };
    if is_document(&found) {
        return Ok(plan);
    }
    if lies_too_deep(&found, at, text) {
        return Ok(plan);
    }
    if text.as_str().len() > MOST_TEXT_BYTES {
        return Ok(plan);
    }
    plan.take_tree(alloc, at)?;
    Ok(plan)
}

/// Whether a new text below a node that is no text would lie too deep.
fn lies_too_deep(node: &Record, at: &Label, text: &Text) -> bool
    ensures { result ≡ (not (is_text_record (Some node.now)) && is_too_deep at.now (text_below text.now)) }
{
    if is_text(node) {
        return false;
    }
    if text.as_str().is_empty() {
        return at.level() > DEEPEST_LEVEL;
    }
    at.level() >= DEEPEST_LEVEL
}
