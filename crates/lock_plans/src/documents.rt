//! The requests of the calls on the catalogue.
ghost use Rattle.std.specs.Prelude.{◌≡◌, ◌∷◌, [], IfOk};
ghost use Rattle.dewey_labels.specs.Labels.{root};
ghost use Rattle.tree_model.specs.declared.dom_call.DomCall.TheVariants as call;
ghost use Rattle.tree_model.specs.Fragments.{plain_or_none};
ghost use Rattle.tree_model.specs.Tree.{Tree, beside};
ghost use Rattle.node_seq.specs.Trees.{OnTree};
ghost use Rattle.outside_traits.specs.Faults.{HasCause};
ghost use Rattle.lock_plans.specs.DomPlans.{requests};
ghost use Rattle.lock_plans.specs.inside.PlacedReplies.{placed_label};
ghost use Rattle.lock_plans.specs.inside.PlanSteps.{EndsPlan, create_end};

use crate::placing::take_out_child;
use crate::plan::Plan;
use dewey_labels::{Label, NoMemory, Text, child_beside};
use dom_reads::{doc as document_call, last_child};
use node_seq::{NodeRead, SeqError};
use std::alloc::Global;
use tree_model::{
    Fragment, Reply, document_fits_at, is_name, is_text_document, is_too_deep_document,
};

/// The requests of `docs`. It reads nothing.
pub fn docs(alloc: Global) -> Result<Plan, NoMemory>
    ensures { IfOk result (λ plan. (t : Tree) → plan ≡ requests call.Docs t) }
{
    let mut plan = Plan::new(alloc);
    let root = Label::root(alloc)?;
    plan.read_attributes(alloc, &root)?;
    Ok(plan)
}

/// The requests of `doc`. It reads nothing.
pub fn doc(alloc: Global, name: &Text) -> Result<Plan, NoMemory>
    ensures { IfOk result (λ plan. (t : Tree) → plan ≡ requests (call.Doc name.now) t) }
{
    let mut plan = Plan::new(alloc);
    let root = Label::root(alloc)?;
    plan.read_attribute(alloc, &root, name)?;
    Ok(plan)
}

/// The label of the document with a name, if there is one.
fn document_named<S: NodeRead>(
    alloc: Global,
    name: &Text,
    seq: &mut S,
) -> Result<Option<Label>, SeqError>
    ensures found { OnTree (S.contents seq.old) result (λ t found. found ≡ beside name.now t.catalogue) }
    ensures unchanged { S.unchanged seq.old seq.new }
    ensures cause { HasCause SeqError.DiskFault (S.count seq.old) (S.count seq.new) result }
{
    let reply = document_call(alloc, name, seq)?;
    Ok(placed_label(reply))
}

/// The label of a reply that is a place.
fn placed_label(reply: Reply) -> Option<Label>
    ensures { result ≡ placed_label reply }
{
    match reply {
        Reply::Place(label) => label,
        _ => None,
    }
}

/// The requests of `drop`. Three reads, whatever the document holds.
pub fn drop_document<S: NodeRead>(alloc: Global, name: &Text, seq: &mut S) -> Result<Plan, SeqError>
    ensures value { OnTree (S.contents seq.old) result (λ t plan. plan ≡ requests (call.Drop name.now) t) }
    ensures unchanged { S.unchanged seq.old seq.new }
    ensures cause { HasCause SeqError.DiskFault (S.count seq.old) (S.count seq.new) result }
{
    let mut plan = Plan::new(alloc);
    let root = Label::root(alloc)?;
    plan.read_attribute(alloc, &root, name)?;
    let Some(document) = document_named(alloc, name, seq)? else {
        return Ok(plan);
    };
    plan.take_attribute(alloc, &root, name)?;
    take_out_child(alloc, &root, &document, seq, plan)
}

/// The requests of `create`. Two reads.
pub fn create<S: NodeRead>(
    alloc: Global,
    name: &Text,
    fragment: &Option<Fragment>,
    seq: &mut S,
) -> Result<Plan, SeqError>
    ensures value { OnTree (S.contents seq.old) result (λ t plan. plan ≡ requests (call.Create name.now fragment.now) t) }
    ensures unchanged { S.unchanged seq.old seq.new }
    ensures cause { HasCause SeqError.DiskFault (S.count seq.old) (S.count seq.new) result }
{
    let mut plan = Plan::new(alloc);
    if !is_name(name) {
        return Ok(plan);
    }
    if is_text_document(fragment.as_ref()) {
        return Ok(plan);
    }
    let root = Label::root(alloc)?;
    plan.read_attribute(alloc, &root, name)?;
    if document_named(alloc, name, seq)?.is_some() {
        return Ok(plan);
    }
    if is_too_deep_document(fragment.as_ref()) {
        return Ok(plan);
    }
    plan.take_attribute(alloc, &root, name)?;
    place_document(alloc, fragment, seq, plan)
}

/// The last requests of `create`: a new document behind the last one.
fn place_document<S: NodeRead>(
    alloc: Global,
    fragment: &Option<Fragment>,
    seq: &mut S,
    mut plan: Plan,
) -> Result<Plan, SeqError>
    ensures value { OnTree (S.contents seq.old) result (λ t whole.
        EndsPlan plan (create_end (plain_or_none fragment.now) t) whole) }
    ensures unchanged { S.unchanged seq.old seq.new }
    ensures cause { HasCause SeqError.DiskFault (S.count seq.old) (S.count seq.new) result }
{
    let root = Label::root(alloc)?;
    let last = last_child(alloc, &root, seq)?;
    plan.take_end(alloc, &root, &last)?;
    let Some(new) = child_beside(alloc, &root, &last, &None)? else {
        return Ok(plan);
    };
    if !document_fits_at(&new, fragment.as_ref()) {
        return Ok(plan);
    }
    plan.take_tree(alloc, &new)?;
    Ok(plan)
}
