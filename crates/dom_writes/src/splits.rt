//! The call that splits a text (DOM Level 3 Core, interface Text).
ghost use Rattle.std.specs.Prelude.{◌≡◌, [], IfOk, IfSome, OnErr, OnOk, ◌≤◌, ◌+◌};
ghost use Rattle.std.specs.Ordering.{nat_cmp};
ghost use Rattle.std.specs.Cmp.Lexicographic.{slice_cmp};
ghost use Rattle.std.specs.declared.cmp.Ordering.TheVariants.{Less};
ghost use Rattle.dewey_labels.specs.Labels.{IsLabel, level};
ghost use Rattle.tree_model.specs.Keys.{node_key};
ghost use Rattle.tree_model.specs.Texts as texts;
ghost use Rattle.tree_model.specs.declared.record.Record.TheVariants.{Text as TextRecord};
ghost use Rattle.node_seq.specs.ChangeLists.{IsChangeList};
ghost use Rattle.node_seq.specs.Reads.{IsValidEntry};
ghost use Rattle.node_seq.specs.Trees.{OnTree};
ghost use Rattle.outside_traits.specs.Faults.{HasCause};
ghost use Rattle.dom_reads.specs.FoundNodes.{HasNodeAt};
ghost use Rattle.dom_writes.specs.Changing.{ChangesAs, RepliesAs};
ghost use Rattle.dom_writes.specs.inside.Splits.{label_behind, split_changes};

use crate::refusals::label_limit;
use crate::written::{add_change, is_too_long, node_at};
use dewey_labels::{Label, List, NoMemory, Text, child_beside};
use dom_reads::{cut, index_size, next_sibling, not_found, not_supported};
use node_seq::{NodeRead, SeqError};
use std::alloc::Global;
use tree_model::{Change, Changes, Key, Record, Reply};

/// `splitText`: the text keeps what stands before the offset, in characters, and a new one behind it gets the rest. Two reads at most.
pub fn split_text<S: NodeRead>(
    alloc: Global,
    at: &Label,
    offset: u32,
    seq: &mut S,
    out: &mut Changes,
) -> Result<Reply, SeqError>
    requires empty { out.old ≡ [] }
    ensures reply { RepliesAs (S.contents seq.old) result (texts.split_text at.now offset) }
    ensures changes { ChangesAs (S.contents seq.old) result out.new
        (texts.split_text at.now offset) }
    ensures rise { IsChangeList out.new }
    ensures err { OnErr result (out.new ≡ out.old) }
    ensures unchanged { S.unchanged seq.old seq.new }
    ensures reads { S.reads seq.new ≤ S.reads seq.old + 2 }
    ensures cause { HasCause SeqError.DiskFault (S.count seq.old) (S.count seq.new) result }
{
    let Some(found) = node_at(alloc, at, seq)? else {
        return Ok(not_found());
    };
    let Record::Text(data) = found else {
        return Ok(not_supported());
    };
    // No tree has a text that is too long.
    if is_too_long(&data) {
        return Ok(not_found());
    }
    let Some((left, right)) = cut(data.as_str(), offset) else {
        return Ok(index_size());
    };
    let before = Text::of(alloc, left)?;
    let behind = Text::of(alloc, right)?;
    let Some(new) = label_behind(alloc, at, seq)? else {
        return Ok(label_limit());
    };
    put_parts(alloc, at, data, before, &new, behind, out)?;
    Ok(Reply::Place(Some(new)))
}

/// The label of a new node behind a node that is there; none where it would pass a limit. One read.
fn label_behind<S: NodeRead>(
    alloc: Global,
    at: &Label,
    seq: &mut S,
) -> Result<Option<Label>, SeqError>
    ensures label { OnTree (S.contents seq.old) result (λ t new. HasNodeAt at.now t
        → new ≡ label_behind at.now t) }
    ensures level { IfOk result (λ new. IfSome new (λ n. IsLabel n × (level n ≡ level at.now))) }
    ensures behind { IfOk result (λ new. IfSome new (λ n. slice_cmp nat_cmp at.now n ≡ Less)) }
    ensures unchanged { S.unchanged seq.old seq.new }
    ensures reads { S.reads seq.new ≤ S.reads seq.old + 1 }
    ensures cause { HasCause SeqError.DiskFault (S.count seq.old) (S.count seq.new) result }
{
    let _divisions = at.divisions();
    let _faults = seq.faults();
    let Some(parent) = at.parent(alloc)? else {
        return Ok(None);
    };
    let next = next_sibling(alloc, at, seq)?;
    let left = Some(at.copy(alloc)?);
    Ok(child_beside(alloc, &parent, &left, &next)?)
}

/// Gives a text its left part, and puts a new one with the right part.
fn put_parts(
    alloc: Global,
    at: &Label,
    data: Text,
    before: Text,
    new: &Label,
    behind: Text,
    out: &mut Changes,
) -> Result<(), NoMemory>
    requires empty { out.old ≡ [] }
    requires left { IsValidEntry (node_key at.now, TextRecord before) }
    requires right { IsValidEntry (node_key new.now, TextRecord behind) }
    requires order { slice_cmp nat_cmp at.now new.now ≡ Less }
    ensures ok { OnOk result (out.new ≡ split_changes at.now «data» before new.now behind) }
    ensures rise { IsChangeList out.new }
    ensures err { OnErr result (out.new ≡ out.old) }
{
    let mut changes = List::new(alloc);
    let key = Key::of_node(alloc, at)?;
    add_change(
        key,
        Some(Record::Text(data)),
        Some(Record::Text(before)),
        &mut changes,
    )?;
    let key = Key::of_node(alloc, new)?;
    changes.push(Change {
        key,
        now: Some(Record::Text(behind)),
    })?;
    *out = changes;
    Ok(())
}
