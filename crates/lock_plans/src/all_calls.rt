//! The requests of all calls in one.
ghost use Rattle.std.specs.Prelude.{◌≡◌, ◌++◌, false, IfOk, IfSome, IsSome, IsTrue, OnErr};
ghost use Rattle.std.specs.List.{AllByRecursion};
ghost use Rattle.lock_resources.specs.Resources.{Fits};
ghost use Rattle.tree_model.specs.DomCalls.{dom};
ghost use Rattle.node_seq.specs.Trees.{OnTree};
ghost use Rattle.outside_traits.specs.Faults.{HasCause};
ghost use Rattle.dom_reads.specs.Reading.{is_reading};
ghost use Rattle.lock_plans.specs.DomPlans.{requests};
ghost use Rattle.lock_plans.specs.inside.PlanSteps.{leads_on};

use crate::attributes::{attr, attrs, remove_attr, rename, set_attr};
use crate::documents::{create, doc, docs, drop_document};
use crate::navigation::{Planned, children, first, last, next, node, parent, prev};
use crate::placing::{append, insert, remove, replace};
use crate::plan::Plan;
use crate::subtrees::{normalize, text_content, whole_tree};
use crate::texts::{append_data, replace_data, set_data, set_text, split_text};
use dewey_labels::List;
use lock_resources::Request;
use node_seq::{NodeRead, SeqError};
use std::alloc::Global;
use tree_model::{DomCall, Reply};

/// Adds what a call asks for on the tree that a map stands for, each request with its intentions before it.
/// It makes a few reads of the map, none of which goes over a subtree or a row of siblings.
/// Where these find out the call's reply, as those of `first`, `last`, `next` and `prev` do, it answers that.
pub fn dom_requests<S: NodeRead>(
    alloc: Global,
    call: &DomCall,
    seq: &mut S,
    out: &mut List<Request>,
) -> Result<Option<Reply>, SeqError>
    ensures value { OnTree (S.contents seq.old) result (λ t _. out.new ≡ out.old ++ requests call.now t) }
    ensures reply { OnTree (S.contents seq.old) result (λ t known. IfSome known (λ reply. reply ≡ (dom call.now t).0)) }
    ensures reading { IfOk result (λ known. IsSome known → IsTrue (is_reading call.now)) }
    ensures fits { AllByRecursion Fits out.old → AllByRecursion Fits out.new }
    ensures err { OnErr result (out.new ≡ out.old) }
    ensures unchanged { S.unchanged seq.old seq.new }
    ensures cause { HasCause SeqError.DiskFault (S.count seq.old) (S.count seq.new) result }
{
    let Planned { plan, reply } = planned(alloc, call, seq)?;
    plan.append_to(out)?;
    Ok(reply)
}

/// The requests of a call, and its reply where it leads on from a node.
fn planned<S: NodeRead>(alloc: Global, call: &DomCall, seq: &mut S) -> Result<Planned, SeqError>
    ensures value { OnTree (S.contents seq.old) result (λ t planned. planned.plan ≡ requests call.now t) }
    ensures reply { OnTree (S.contents seq.old) result (λ t planned. IfSome planned.reply (λ reply. reply ≡ (dom call.now t).0)) }
    ensures reading { IfOk result (λ planned. IsSome planned.reply → IsTrue (is_reading call.now)) }
    ensures unchanged { S.unchanged seq.old seq.new }
    ensures cause { HasCause SeqError.DiskFault (S.count seq.old) (S.count seq.new) result }
{
    match call {
        DomCall::First(at) => first(alloc, at, seq),
        DomCall::Last(at) => last(alloc, at, seq),
        DomCall::Next(at) => next(alloc, at, seq),
        DomCall::Prev(at) => prev(alloc, at, seq),
        _ => Ok(Planned {
            plan: plan_of(alloc, call, seq)?,
            reply: None,
        }),
    }
}

/// The requests of a call that doesn't lead on from a node.
fn plan_of<S: NodeRead>(alloc: Global, call: &DomCall, seq: &mut S) -> Result<Plan, SeqError>
    requires { leads_on call.now ≡ false }
    ensures value { OnTree (S.contents seq.old) result (λ t plan. plan ≡ requests call.now t) }
    ensures unchanged { S.unchanged seq.old seq.new }
    ensures cause { HasCause SeqError.DiskFault (S.count seq.old) (S.count seq.new) result }
{
    match call {
        DomCall::Docs => Ok(docs(alloc)?),
        DomCall::Doc(name) => Ok(doc(alloc, name)?),
        DomCall::Node(at) => Ok(node(alloc, at)?),
        DomCall::Parent(at) => parent(alloc, at, seq),
        DomCall::First(_) | DomCall::Last(_) | DomCall::Next(_) | DomCall::Prev(_) =>
            unreachable!(),
        DomCall::Children(at) => children(alloc, at, seq),
        DomCall::Attr(at, name) => attr(alloc, at, name, seq),
        DomCall::HasAttr(at, name) => attr(alloc, at, name, seq),
        DomCall::Attrs(at) => attrs(alloc, at, seq),
        DomCall::TextContent(at) => text_content(alloc, at, seq),
        DomCall::Tags(at, _) => whole_tree(alloc, at, seq),
        DomCall::Dump(at) => whole_tree(alloc, at, seq),
        DomCall::Length(at) => Ok(node(alloc, at)?),
        DomCall::Substring(at, _, _) => Ok(node(alloc, at)?),
        DomCall::Create(name, fragment) => create(alloc, name, fragment, seq),
        DomCall::Drop(name) => drop_document(alloc, name, seq),
        DomCall::Append(at, fragment) => append(alloc, at, fragment, seq),
        DomCall::Insert(at, None, fragment) => append(alloc, at, fragment, seq),
        DomCall::Insert(at, Some(child), fragment) => insert(alloc, at, child, fragment, seq),
        DomCall::Replace(at, old, fragment) => replace(alloc, at, old, fragment, seq),
        DomCall::Remove(at, old) => remove(alloc, at, old, seq),
        DomCall::SetAttr(at, name, value) => set_attr(alloc, at, name, value, seq),
        DomCall::RemoveAttr(at, name) => remove_attr(alloc, at, name, seq),
        DomCall::Rename(at, name) => rename(alloc, at, name, seq),
        DomCall::SetData(at, data) => set_data(alloc, at, data, seq),
        DomCall::AppendData(at, data) => append_data(alloc, at, data, seq),
        DomCall::InsertData(at, offset, data) => {
            replace_data(alloc, at, *offset, 0, data.as_str(), seq)
        }
        DomCall::DeleteData(at, offset, count) => replace_data(alloc, at, *offset, *count, "", seq),
        DomCall::ReplaceData(at, offset, count, data) => {
            replace_data(alloc, at, *offset, *count, data.as_str(), seq)
        }
        DomCall::SplitText(at, offset) => split_text(alloc, at, *offset, seq),
        DomCall::Normalize(at) => normalize(alloc, at, seq),
        DomCall::SetText(at, data) => set_text(alloc, at, data, seq),
    }
}
