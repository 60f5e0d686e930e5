//! Adjacent texts joined, from the entries below a node in the order of their keys.
ghost use Rattle.std.specs.Prelude.{◌≡◌, ◌↔◌, ◌++◌, [], ◌∷◌, if◌then◌else◌, string_bytes, IsTrue, IfOk, OnErr, OnOk};
ghost use Rattle.std.specs.List.{AllByRecursion};
ghost use Rattle.tree_model.specs.Changes.{differences};
ghost use Rattle.tree_model.specs.Entries.{Sorted};
ghost use Rattle.tree_model.specs.declared.record.Record.TheVariants.{Text as text_record};
ghost use Rattle.node_seq.specs.ChangeLists.{IsChangeList, PutsValidEntry};
ghost use Rattle.node_seq.specs.Reads.{IsValidEntry};
ghost use Rattle.dom_reads.specs.inside.Gathered.{data_of, texts_in};
ghost use Rattle.dom_writes.specs.inside.NormalTexts.{AddsIfValid, IsRun, IsValidText, behind_run, first_run, joined as all_joined};
ghost use Rattle.dom_writes.specs.inside.NormalTexts.{joined_run, joins, past_joining, put_unless_same, run_changes};

use crate::merges::{push_drop, push_drops};
use dewey_labels::{List, NoMemory, Text};
use dom_reads::is_text;
use std::alloc::Global;
use tree_model::{Change, Changes, Key, Record};

/// Joins each run of adjacent texts into its first one; a run without data goes. It answers whether each text may stand in a tree; where one may not, nothing is changed.
pub(crate) fn join_texts(
    alloc: Global,
    entries: &[(Key, Record)],
    out: &mut Changes,
) -> Result<bool, NoMemory>
    requires empty { out.old ≡ [] }
    requires sorted { Sorted entries.now }
    ensures fit { IfOk result (λ fit. IsTrue fit ↔ AllByRecursion IsValidText (all_joined entries.now)) }
    ensures changes { IfOk result (λ fit. out.new ≡ (if fit then differences entries.now (all_joined entries.now) else [])) }
    ensures rise { IsChangeList out.new }
    ensures err { OnErr result (out.new ≡ out.old) }
{
    let mut changes = List::new(alloc);
    let fit = join_runs(alloc, entries, &mut changes)?;
    if fit {
        *out = changes;
    }
    Ok(fit)
}

/// The changes that join all runs, one after another. It stops at the first text that may not stand in a tree.
fn join_runs(
    alloc: Global,
    entries: &[(Key, Record)],
    changes: &mut Changes,
) -> Result<bool, NoMemory>
    requires empty { changes.old ≡ [] }
    requires sorted { Sorted entries.now }
    ensures fit { IfOk result (λ fit. IsTrue fit ↔ AllByRecursion IsValidText (all_joined entries.now)) }
    ensures changes { IfOk result (λ fit. IsTrue fit → changes.new ≡ differences entries.now (all_joined entries.now)) }
    ensures puts { IfOk result (λ fit. IsTrue fit → AllByRecursion PutsValidEntry changes.new) }
{
    let mut rest = entries;
    while !rest.is_empty() {
        let (run, behind) = split_run(rest);
        if !join_run(alloc, run, changes)? {
            return Ok(false);
        }
        rest = behind;
    }
    Ok(true)
}

/// The first run of entries, and the entries behind it.
fn split_run<'a>(entries: &'a [(Key, Record)]) -> (&'a [(Key, Record)], &'a [(Key, Record)])
    ensures run { result.0.now ≡ first_run entries.now }
    ensures behind { result.1.now ≡ behind_run entries.now }
{
    let [first, others @ ..] = entries else {
        return (entries, entries);
    };
    let behind = past_joining(first, others);
    entries.split_at(entries.len() - behind.len())
}

/// What lies behind the entries that join the first one.
fn past_joining<'a>(first: &(Key, Record), others: &'a [(Key, Record)]) -> &'a [(Key, Record)]
    ensures { result.now ≡ past_joining first.now others.now }
{
    let mut rest = others;
    while let [next, behind @ ..] = rest {
        if !joins(first, next) {
            return rest;
        }
        rest = behind;
    }
    rest
}

/// Whether both are texts on one level. Entries with nothing between them that are so are siblings.
fn joins(a: &(Key, Record), b: &(Key, Record)) -> bool
    ensures { result ≡ joins a.now b.now }
{
    is_text(&a.1) && is_text(&b.1) && a.0.label.level() == b.0.label.level()
}

/// The changes that join a run into its first text. It answers whether that may stand in a tree.
fn join_run(alloc: Global, run: &[(Key, Record)], changes: &mut Changes) -> Result<bool, NoMemory>
    requires one { IsRun run.now }
    requires sorted { Sorted run.now }
    ensures valid { IfOk result (λ valid. IsTrue valid ↔ AllByRecursion IsValidText (joined_run run.now)) }
    ensures changes { AddsIfValid result changes.old changes.new
        (differences run.now (joined_run run.now)) }
{
    let [(key, record), others @ ..] = run else {
        return Ok(true);
    };
    if others.is_empty() {
        return keep(alloc, key, record, changes);
    }
    let Record::Text(first) = record else {
        // Only texts stand in a run with others.
        return Ok(true);
    };
    join_into(alloc, key, first, others, changes)
}

/// An entry by itself stays, unless it is a text without data.
fn keep(alloc: Global, key: &Key, record: &Record, changes: &mut Changes) -> Result<bool, NoMemory>
    ensures valid { IfOk result (λ valid. IsTrue valid ↔ AllByRecursion IsValidText (joined_run ((key.now, «record».now) ∷ []))) }
    ensures changes { AddsIfValid result changes.old changes.new
        (differences ((key.now, «record».now) ∷ []) (joined_run ((key.now, «record».now) ∷ []))) }
{
    let Record::Text(data) = record else {
        return Ok(true);
    };
    if data.as_str().is_empty() {
        push_drop(alloc, key, changes)?;
        return Ok(true);
    }
    Ok(is_valid(key, record))
}

/// The texts behind the first one go, and it has the data of all; without data it goes too.
fn join_into(
    alloc: Global,
    key: &Key,
    first: &Text,
    others: &[(Key, Record)],
    changes: &mut Changes,
) -> Result<bool, NoMemory>
    ensures valid { IfOk result (λ valid. IsTrue valid ↔ AllByRecursion IsValidText (joined_run ((key.now, text_record first.now) ∷ others.now))) }
    ensures changes { AddsIfValid result changes.old changes.new (run_changes
        (key.now, text_record first.now) others.now (first.now ++ texts_in others.now)) }
{
    let joined = joined_data(alloc, first, others)?;
    if joined.as_str().is_empty() {
        push_drop(alloc, key, changes)?;
    } else if !put_joined(alloc, key, first, joined, changes)? {
        return Ok(false);
    }
    push_drops(alloc, others, changes)?;
    Ok(true)
}

/// Gives the first text its joined data, unless it has it already. It answers whether a tree may have it.
fn put_joined(
    alloc: Global,
    key: &Key,
    first: &Text,
    joined: Text,
    changes: &mut Changes,
) -> Result<bool, NoMemory>
    ensures valid { IfOk result (λ valid. IsTrue valid ↔ IsValidEntry (key.now, text_record joined)) }
    ensures changes { AddsIfValid result changes.old changes.new
        (put_unless_same key.now (text_record first.now) (text_record joined)) }
{
    let same = joined == *first;
    let text = Record::Text(joined);
    if !is_valid(key, &text) {
        return Ok(false);
    }
    if !same {
        let key = key.copy(alloc)?;
        changes.push(Change {
            key,
            now: Some(text),
        })?;
    }
    Ok(true)
}

/// Whether a tree may have the entry.
fn is_valid(key: &Key, record: &Record) -> bool
    ensures { IsTrue result ↔ IsValidEntry (key.now, «record».now) }
{
    key.is_valid() && record.fits()
}

/// The data of a text and of those behind it, in one buffer.
fn joined_data(alloc: Global, first: &Text, others: &[(Key, Record)]) -> Result<Text, NoMemory>
    ensures { IfOk result (λ joined. joined ≡ first.now ++ texts_in others.now) }
{
    let mut joined = String::new(alloc);
    joined.push_str(first.as_str())?;
    for (_, record) in others {
        push_data(&mut joined, record)?;
    }
    Ok(Text::from_string(joined))
}

fn push_data(joined: &mut String, record: &Record) -> Result<(), NoMemory>
    ensures { OnOk result (string_bytes joined.new ≡ string_bytes joined.old ++ data_of «record».now) }
{
    match record {
        Record::Text(data) => Ok(joined.push_str(data.as_str())?),
        _ => Ok(()),
    }
}
