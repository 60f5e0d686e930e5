//! The calls that take a subtree out (DOM Level 3 Core, interface Node: `removeChild` and `replaceChild`).
ghost use Rattle.std.specs.Prelude.{◌≡◌, [], IfOk, OnErr, ◌≤◌, ◌+◌};
ghost use Rattle.tree_model.specs.Fragments.{IsValid, plain};
ghost use Rattle.tree_model.specs.Placing as placing;
ghost use Rattle.node_seq.specs.ChangeLists.{IsChangeList};
ghost use Rattle.node_seq.specs.Trees.{OnTree};
ghost use Rattle.outside_traits.specs.Faults.{HasCause};
ghost use Rattle.dom_reads.specs.ReadCounts.{ReadsOfTree};
ghost use Rattle.dom_writes.specs.Changing.{ChangesAs, MayBring, RepliesAs};
ghost use Rattle.dom_writes.specs.ReadCounts.{removal_reads, replace_reads};
ghost use Rattle.dom_writes.specs.inside.NewPlaces.{SuitsOrRefused};
ghost use Rattle.dom_writes.specs.inside.Outcomes.{IsPlaceToReplace, parent_of, reply_and_changes};

use crate::grafts::graft_entries;
use crate::merges::{differences_between, push_drops};
use crate::places::{has_child, within_limits};
use crate::refusals::{hierarchy_request, too_deep};
use dewey_labels::{Label, List, child_beside};
use dom_reads::{
    fragment as fragment_of, is_text_in_document, next_sibling, not_found, previous_sibling,
    record_at, subtree,
};
use node_seq::{NodeRead, SeqError};
use std::alloc::Global;
use tree_model::{Changes, Fragment, Record, Reply};

/// `removeChild`: the reply is what goes, as a fragment. One read an entry of the child's subtree and two more at most.
pub fn remove<S: NodeRead>(
    alloc: Global,
    at: &Label,
    child: &Label,
    seq: &mut S,
    out: &mut Changes,
) -> Result<Reply, SeqError>
    requires empty { out.old ≡ [] }
    ensures reply { RepliesAs (S.contents seq.old) result (placing.remove at.now child.now) }
    ensures changes { ChangesAs (S.contents seq.old) result out.new
        (placing.remove at.now child.now) }
    ensures rise { IsChangeList out.new }
    ensures err { OnErr result (out.new ≡ out.old) }
    ensures unchanged { S.unchanged seq.old seq.new }
    ensures reads { ReadsOfTree (S.contents seq.old) (removal_reads child.now) (S.reads seq.old) (S.reads seq.new) }
    ensures cause { HasCause SeqError.DiskFault (S.count seq.old) (S.count seq.new) result }
{
    let (reply, changes) = removal(alloc, at, child, seq)?;
    *out = changes;
    Ok(reply)
}

/// The reply of `remove`, and its changes.
fn removal<S: NodeRead>(
    alloc: Global,
    at: &Label,
    child: &Label,
    seq: &mut S,
) -> Result<(Reply, Changes), SeqError>
    ensures outcome { OnTree (S.contents seq.old) result (λ t outcome. outcome ≡ reply_and_changes t (placing.remove at.now child.now t)) }
    ensures rise { IfOk result (λ outcome. IsChangeList outcome.1) }
    ensures unchanged { S.unchanged seq.old seq.new }
    ensures reads { ReadsOfTree (S.contents seq.old) (removal_reads child.now) (S.reads seq.old) (S.reads seq.new) }
    ensures cause { HasCause SeqError.DiskFault (S.count seq.old) (S.count seq.new) result }
{
    let Some(_parent) = parent_record(alloc, at, child, seq)? else {
        return Ok((not_found(), List::new(alloc)));
    };
    let entries = subtree(alloc, child, seq)?;
    if entries.is_empty() {
        return Ok((not_found(), List::new(alloc)));
    }
    let mut changes = List::new(alloc);
    push_drops(alloc, entries.as_slice(), &mut changes)?;
    let gone = fragment_of(alloc, entries)?;
    Ok((Reply::Tree(gone), changes))
}

/// `replaceChild`: the fragment in the place of a child; the reply is its label, with what goes, as a fragment.
/// One read an entry of the child's subtree and five more; where it is refused, four at most.
pub fn replace<S: NodeRead>(
    alloc: Global,
    at: &Label,
    old: &Label,
    fragment: &Fragment,
    seq: &mut S,
    out: &mut Changes,
) -> Result<Reply, SeqError>
    requires may_bring { MayBring out.old (plain fragment.now) }
    ensures reply { RepliesAs (S.contents seq.old) result
        (placing.replace at.now old.now (plain fragment.now)) }
    ensures changes { ChangesAs (S.contents seq.old) result out.new
        (placing.replace at.now old.now (plain fragment.now)) }
    ensures rise { IsChangeList out.new }
    ensures err { OnErr result (out.new ≡ out.old) }
    ensures unchanged { S.unchanged seq.old seq.new }
    ensures reads { ReadsOfTree (S.contents seq.old) (replace_reads at.now old.now (plain fragment.now)) (S.reads seq.old) (S.reads seq.new) }
    ensures cause { HasCause SeqError.DiskFault (S.count seq.old) (S.count seq.new) result }
{
    let (reply, changes) = replacement(alloc, at, old, fragment, seq)?;
    *out = changes;
    Ok(reply)
}

/// The reply of `replace`, and its changes.
fn replacement<S: NodeRead>(
    alloc: Global,
    at: &Label,
    old: &Label,
    fragment: &Fragment,
    seq: &mut S,
) -> Result<(Reply, Changes), SeqError>
    requires fragment { IsValid (plain fragment.now) }
    ensures outcome { OnTree (S.contents seq.old) result (λ t outcome.
        outcome ≡ reply_and_changes t (placing.replace at.now old.now (plain fragment.now) t)) }
    ensures rise { IfOk result (λ outcome. IsChangeList outcome.1) }
    ensures unchanged { S.unchanged seq.old seq.new }
    ensures reads { ReadsOfTree (S.contents seq.old) (replace_reads at.now old.now (plain fragment.now)) (S.reads seq.old) (S.reads seq.new) }
    ensures cause { HasCause SeqError.DiskFault (S.count seq.old) (S.count seq.new) result }
{
    let _divisions = at.divisions();
    let place = place_instead(alloc, at, old, fragment, seq)?;
    match place {
        Ok(new) => {
            let entries = subtree(alloc, old, seq)?;
            let new_entries = graft_entries(alloc, &new, fragment)?;
            let mut changes = List::new(alloc);
            differences_between(alloc, &entries, new_entries, &mut changes)?;
            let gone = fragment_of(alloc, entries)?;
            let Some(old) = gone else {
                // In a tree the child is there, and an element or a text.
                return Ok((not_found(), List::new(alloc)));
            };
            Ok((Reply::Replaced { new, old }, changes))
        }
        Err(refusal) => Ok((refusal, List::new(alloc))),
    }
}

/// The label of the gap without the old child, or the refusal.
fn place_instead<S: NodeRead>(
    alloc: Global,
    at: &Label,
    old: &Label,
    fragment: &Fragment,
    seq: &mut S,
) -> Result<Result<Label, Reply>, SeqError>
    ensures place { OnTree (S.contents seq.old) result
        (IsPlaceToReplace at.now old.now (plain fragment.now)) }
    ensures suits { IfOk result (SuitsOrRefused at.now (plain fragment.now)) }
    ensures unchanged { S.unchanged seq.old seq.new }
    ensures reads { S.reads seq.new ≤ S.reads seq.old + 4 }
    ensures cause { HasCause SeqError.DiskFault (S.count seq.old) (S.count seq.new) result }
{
    let _divisions = at.divisions();
    let Some(parent) = record_at(alloc, at, seq)? else {
        return Ok(Err(not_found()));
    };
    if !has_child(alloc, at, old, seq)? {
        return Ok(Err(not_found()));
    }
    if is_text_in_document(&parent, fragment) {
        return Ok(Err(hierarchy_request()));
    }
    if fragment.is_too_deep(at) {
        return Ok(Err(too_deep()));
    }
    let left = previous_sibling(alloc, old, seq)?;
    let right = next_sibling(alloc, old, seq)?;
    let new = child_beside(alloc, at, &left, &right)?;
    Ok(within_limits(new, fragment))
}

/// The record of the node `at`, if that is the parent of the label `child`. One read at most.
fn parent_record<S: NodeRead>(
    alloc: Global,
    at: &Label,
    child: &Label,
    seq: &mut S,
) -> Result<Option<Record>, SeqError>
    ensures parent { OnTree (S.contents seq.old) result (λ t found. found ≡ parent_of at.now child.now t) }
    ensures unchanged { S.unchanged seq.old seq.new }
    ensures reads { S.reads seq.new ≤ S.reads seq.old + 1 }
    ensures cause { HasCause SeqError.DiskFault (S.count seq.old) (S.count seq.new) result }
{
    let Some(parent) = child.parent(alloc)? else {
        return Ok(None);
    };
    if parent == *at {
        record_at(alloc, at, seq)
    } else {
        Ok(None)
    }
}
