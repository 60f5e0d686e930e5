//! The calls that put a fragment below a node (DOM Level 3 Core, interface Node: `appendChild` and `insertBefore`).
//! The one makes two reads at most, the other three, and then a put for each entry of the fragment.
ghost use Rattle.std.specs.Prelude.{◌≡◌, [], Some, IfOk, IsTrue, OnErr, OnOk, option_map, ◌≤◌, ◌+◌, is_some, if◌then◌else◌};
ghost use Rattle.tree_model.specs.Fragments.{IsValid, plain};
ghost use Rattle.tree_model.specs.Placing as placing;
ghost use Rattle.node_seq.specs.ChangeLists.{IsChangeList};
ghost use Rattle.outside_traits.specs.Faults.{HasCause};
ghost use Rattle.dom_writes.specs.Changing.{ChangesAs, MayBring, RepliesAs};
ghost use Rattle.dom_writes.specs.inside.NewPlaces.{PlacesAs, SuitsOrRefused, answer, changes};

use crate::grafts::graft_changes;
use crate::places::{has_child, takes_none, within_limits};
use crate::refusals::{hierarchy_request, too_deep};
use dewey_labels::{Label, NoMemory, child_beside};
use dom_reads::{is_document, is_text, last_child, not_found, previous_sibling, record_at};
use node_seq::{NodeRead, SeqError};
use std::alloc::Global;
use tree_model::{Changes, Fragment, Reply};

/// `appendChild`: the fragment as the last child. Two reads at most.
pub fn append<S: NodeRead>(
    alloc: Global,
    at: &Label,
    fragment: &Fragment,
    seq: &mut S,
    out: &mut Changes,
) -> Result<Reply, SeqError>
    requires may_bring { MayBring out.old (plain fragment.now) }
    ensures reply { RepliesAs (S.contents seq.old) result
        (placing.append at.now (plain fragment.now)) }
    ensures changes { ChangesAs (S.contents seq.old) result out.new
        (placing.append at.now (plain fragment.now)) }
    ensures rise { IsChangeList out.new }
    ensures err { OnErr result (out.new ≡ out.old) }
    ensures unchanged { S.unchanged seq.old seq.new }
    ensures reads { S.reads seq.new ≤ S.reads seq.old + 2 }
    ensures cause { HasCause SeqError.DiskFault (S.count seq.old) (S.count seq.new) result }
{
    let place = place_at_end(alloc, at, fragment, seq)?;
    Ok(put_fragment(alloc, at, place, fragment, out)?)
}

/// The label behind the last child, or the refusal.
fn place_at_end<S: NodeRead>(
    alloc: Global,
    at: &Label,
    fragment: &Fragment,
    seq: &mut S,
) -> Result<Result<Label, Reply>, SeqError>
    ensures place { PlacesAs (S.contents seq.old) result
        (placing.append at.now (plain fragment.now)) }
    ensures suits { IfOk result (SuitsOrRefused at.now (plain fragment.now)) }
    ensures unchanged { S.unchanged seq.old seq.new }
    ensures reads { S.reads seq.new ≤ S.reads seq.old + 2 }
    ensures cause { HasCause SeqError.DiskFault (S.count seq.old) (S.count seq.new) result }
{
    let Some(parent) = record_at(alloc, at, seq)? else {
        return Ok(Err(not_found()));
    };
    if is_text(&parent) {
        return Ok(Err(hierarchy_request()));
    }
    let last = last_child(alloc, at, seq)?;
    if takes_none(&parent, fragment, &last) {
        return Ok(Err(hierarchy_request()));
    }
    if fragment.is_too_deep(at) {
        return Ok(Err(too_deep()));
    }
    let new = child_beside(alloc, at, &last, &None)?;
    Ok(within_limits(new, fragment))
}

/// Puts the fragment at its place, and answers its label; a refusal is answered as it is.
fn put_fragment(
    alloc: Global,
    at: &Label,
    place: Result<Label, Reply>,
    fragment: &Fragment,
    out: &mut Changes,
) -> Result<Reply, NoMemory>
    requires empty { out.old ≡ [] }
    requires fragment { IsValid (plain fragment.now) }
    requires suits { SuitsOrRefused at.now (plain fragment.now) place }
    ensures reply { IfOk result (λ reply. reply ≡ answer place) }
    ensures changes { OnOk result (out.new ≡ changes (plain fragment.now) place) }
    ensures rise { IsChangeList out.new }
    ensures err { OnErr result (out.new ≡ out.old) }
{
    let _divisions = at.divisions();
    match place {
        Ok(new) => {
            *out = graft_changes(alloc, &new, fragment)?;
            Ok(Reply::Place(Some(new)))
        }
        Err(refusal) => Ok(refusal),
    }
}

/// `insertBefore`: the fragment before a child, or without one as the last child. Three reads at most, two without a child.
pub fn insert<S: NodeRead>(
    alloc: Global,
    at: &Label,
    before: Option<&Label>,
    fragment: &Fragment,
    seq: &mut S,
    out: &mut Changes,
) -> Result<Reply, SeqError>
    requires may_bring { MayBring out.old (plain fragment.now) }
    ensures reply { RepliesAs (S.contents seq.old) result
        (placing.insert at.now (option_map (λ l. l.now) before.entry) (plain fragment.now)) }
    ensures changes { ChangesAs (S.contents seq.old) result out.new
        (placing.insert at.now (option_map (λ l. l.now) before.entry) (plain fragment.now)) }
    ensures rise { IsChangeList out.new }
    ensures err { OnErr result (out.new ≡ out.old) }
    ensures unchanged { S.unchanged seq.old seq.new }
    ensures reads { S.reads seq.new ≤ S.reads seq.old + (if is_some before.entry then 3 else 2) }
    ensures cause { HasCause SeqError.DiskFault (S.count seq.old) (S.count seq.new) result }
{
    let Some(child) = before else {
        return append(alloc, at, fragment, seq, out);
    };
    let place = place_before(alloc, at, child, fragment, seq)?;
    Ok(put_fragment(alloc, at, place, fragment, out)?)
}

/// The label before a child, or the refusal.
fn place_before<S: NodeRead>(
    alloc: Global,
    at: &Label,
    child: &Label,
    fragment: &Fragment,
    seq: &mut S,
) -> Result<Result<Label, Reply>, SeqError>
    ensures place { PlacesAs (S.contents seq.old) result
        (placing.insert at.now (Some child.now) (plain fragment.now)) }
    ensures suits { IfOk result (SuitsOrRefused at.now (plain fragment.now)) }
    ensures unchanged { S.unchanged seq.old seq.new }
    ensures reads { S.reads seq.new ≤ S.reads seq.old + 3 }
    ensures cause { HasCause SeqError.DiskFault (S.count seq.old) (S.count seq.new) result }
{
    let _divisions = at.divisions();
    let Some(parent) = record_at(alloc, at, seq)? else {
        return Ok(Err(not_found()));
    };
    if is_text(&parent) {
        return Ok(Err(hierarchy_request()));
    }
    if !has_child(alloc, at, child, seq)? {
        return Ok(Err(not_found()));
    }
    if is_document(&parent) {
        return Ok(Err(hierarchy_request()));
    }
    if fragment.is_too_deep(at) {
        return Ok(Err(too_deep()));
    }
    let left = previous_sibling(alloc, child, seq)?;
    let right = Some(child.copy(alloc)?);
    let new = child_beside(alloc, at, &left, &right)?;
    Ok(within_limits(new, fragment))
}
