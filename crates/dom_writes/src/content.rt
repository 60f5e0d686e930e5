//! The text of a node set (DOM Level 3 Core, interface Node: `textContent`).
ghost use Rattle.std.specs.Prelude.{◌≡◌, ◌≤◌, [], option_map, Err, IfOk, OnErr, OnOk, None, true, false};
ghost use Rattle.std.specs.List.{AllByRecursion};
ghost use Rattle.dewey_labels.specs.Labels.{level};
ghost use Rattle.tree_model.specs.Changes.{put_change};
ghost use Rattle.tree_model.specs.Graft.{all_within};
ghost use Rattle.tree_model.specs.Keys.{node_key};
ghost use Rattle.tree_model.specs.Limits.{deepest_level};
ghost use Rattle.tree_model.specs.Texts as texts;
ghost use Rattle.tree_model.specs.Tree.{at as node_at, below, entries_of};
ghost use Rattle.tree_model.specs.declared.record.Record.TheVariants.{Text as text_record};
ghost use Rattle.tree_model.specs.declared.reply.Reply.TheVariants.{Refused};
ghost use Rattle.node_seq.specs.ChangeLists.{IsChangeList};
ghost use Rattle.node_seq.specs.Reads.{IsValidEntry};
ghost use Rattle.node_seq.specs.Trees.{OnTree};
ghost use Rattle.outside_traits.specs.Faults.{HasCause};
ghost use Rattle.dom_reads.specs.ReadCounts.{ReadsOfTree, subtree_reads};
ghost use Rattle.dom_writes.specs.Changing.{ChangesAs, RepliesAs};
ghost use Rattle.dom_writes.specs.ReadCounts.{set_text_reads};
ghost use Rattle.dom_writes.specs.inside.TextsSet.{data_changes, data_refused, one_text, past_limits, reply_of, text_changes, text_refused};

use crate::merges::differences_between;
use crate::refusals::{label_limit, text_limit, too_deep};
use crate::subtree_entries::entries_below;
use dewey_labels::{Label, LabelError, List, NoMemory, Text, child_first};
use dom_reads::{not_found, record_at};
use node_seq::{NodeRead, SeqError};
use std::alloc::Global;
use tree_model::{Change, Changes, DEEPEST_LEVEL, Key, MOST_TEXT_BYTES, Record, Reply};

/// `textContent` set: of a text its data; an element's children go, and one text comes if the data isn't empty; of a document nothing changes.
/// Of an element one read for each entry of its subtree and two more at most, of any other node one.
pub fn set_text<S: NodeRead>(
    alloc: Global,
    at: &Label,
    data: &Text,
    seq: &mut S,
    out: &mut Changes,
) -> Result<Reply, SeqError>
    requires empty { out.old ≡ [] }
    ensures reply { RepliesAs (S.contents seq.old) result (texts.set_text at.now data.now) }
    ensures changes { ChangesAs (S.contents seq.old) result out.new
        (texts.set_text at.now data.now) }
    ensures rise { IsChangeList out.new }
    ensures err { OnErr result (out.new ≡ out.old) }
    ensures unchanged { S.unchanged seq.old seq.new }
    ensures reads { ReadsOfTree (S.contents seq.old) (set_text_reads at.now) (S.reads seq.old) (S.reads seq.new) }
    ensures cause { HasCause SeqError.DiskFault (S.count seq.old) (S.count seq.new) result }
{
    // It tells that the data is UTF-8.
    let _text = data.as_str();
    match record_at(alloc, at, seq)? {
        None => Ok(not_found()),
        Some(Record::Document) => Ok(Reply::Nothing),
        Some(Record::Text(old)) => Ok(set_data_of_text(alloc, at, &old, data, out)?),
        Some(Record::Element(_)) => set_text_of_element(alloc, at, data, seq, out),
        // No tree has an attribute as a node.
        Some(Record::Attr(_)) => Ok(Reply::Nothing),
    }
}

/// New data in place of the old data of a text.
fn set_data_of_text(
    alloc: Global,
    at: &Label,
    old: &Text,
    data: &Text,
    out: &mut Changes,
) -> Result<Reply, NoMemory>
    requires empty { out.old ≡ [] }
    ensures reply { IfOk result (λ reply. level at.now ≤ deepest_level → reply ≡ reply_of (data_refused data.now)) }
    ensures changes { OnOk result (level at.now ≤ deepest_level → out.new ≡ data_changes at.now old.now data.now) }
    ensures rise { IsChangeList out.new }
    ensures err { OnErr result (out.new ≡ out.old) }
{
    if data.as_str().len() > MOST_TEXT_BYTES {
        return Ok(text_limit());
    }
    // No tree has so deep a node.
    if at.level() > DEEPEST_LEVEL {
        return Ok(too_deep());
    }
    if data != old {
        out.push(data_change(alloc, at, data)?)?;
    }
    Ok(Reply::Nothing)
}

/// The change that gives a text its data.
fn data_change(alloc: Global, at: &Label, data: &Text) -> Result<Change, NoMemory>
    ensures { IfOk result (λ change. change ≡ put_change (node_key at.now, text_record data.now)) }
{
    Ok(Change {
        key: Key::of_node(alloc, at)?,
        now: Some(Record::Text(data.copy(alloc)?)),
    })
}

/// A text in place of all that lies below an element; nothing where the data is empty.
fn set_text_of_element<S: NodeRead>(
    alloc: Global,
    at: &Label,
    data: &Text,
    seq: &mut S,
    out: &mut Changes,
) -> Result<Reply, SeqError>
    requires empty { out.old ≡ [] }
    ensures reply { IfOk result (λ reply. reply ≡ reply_of (text_refused at.now data.now)) }
    ensures changes { OnTree (S.contents seq.old) result (λ t _. out.new ≡ text_changes at.now data.now (entries_of (below (node_at at.now t.documents)))) }
    ensures rise { IsChangeList out.new }
    ensures err { OnErr result (out.new ≡ out.old) }
    ensures unchanged { S.unchanged seq.old seq.new }
    ensures reads { ReadsOfTree (S.contents seq.old) (subtree_reads at.now) (S.reads seq.old) (S.reads seq.new) }
    ensures cause { HasCause SeqError.DiskFault (S.count seq.old) (S.count seq.new) result }
{
    if let Some(refusal) = past_limits(at, data) {
        return Ok(refusal);
    }
    let new = match text_below(alloc, at, data) {
        Ok(new) => new,
        Err(LabelError::LabelLimit) => return Ok(label_limit()),
        Err(LabelError::NoMemory) => return Err(SeqError::NoMemory),
    };
    let old = entries_below(alloc, at, seq)?;
    differences_between(alloc, &old, new, out)?;
    Ok(Reply::Nothing)
}

/// The refusal where a text would lie too deep below an element, or be too long.
fn past_limits(at: &Label, data: &Text) -> Option<Reply>
    ensures { result ≡ option_map Refused (past_limits at.now data.now) }
{
    let text = data.as_str();
    if !text.is_empty() && at.level() >= DEEPEST_LEVEL {
        Some(too_deep())
    } else if text.len() > MOST_TEXT_BYTES {
        Some(text_limit())
    } else {
        None
    }
}

/// The entry of a text as an only child, if its data isn't empty.
fn text_below(alloc: Global, at: &Label, data: &Text) -> Result<List<(Key, Record)>, LabelError>
    ensures entries { IfOk result (λ new. new ≡ entries_of (one_text at.now data.now)) }
    ensures within { OnOk result (all_within (one_text at.now data.now) ≡ true) }
    ensures limit { result ≡ Err LabelError.LabelLimit → all_within (one_text at.now data.now) ≡ false }
    ensures valid { IfOk result (λ new. past_limits at.now data.now ≡ None → AllByRecursion IsValidEntry new) }
{
    let mut entries = List::new(alloc);
    if data.as_str().is_empty() {
        return Ok(entries);
    }
    let child = child_first(alloc, at)?;
    let key = Key::of_node(alloc, &child)?;
    let text = Record::Text(data.copy(alloc)?);
    entries.push((key, text))?;
    Ok(entries)
}
