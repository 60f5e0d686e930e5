//! Views through changes laid over a small map, as tables worked by hand.
ghost use Rattle.std.specs.Prelude.{◌≡◌, Some, IfOk};
ghost use Rattle.node_seq.specs.ChangeLists.{IsChangeList};

use crate::rows::agree;
use dewey_labels::{Label, List, Text};
use node_seq::{Answer, NodeRead, SeqError, SortedSeq, UnknownSeq};
use overlays::{Gaps, Layers, Overlay, Stacked, View};
use std::alloc::Global;
use std::test::Fail;
use tree_model::{Change, Changes, Key, Record};

/// Texts under the document 1.1001, each by its label's last division and its data; in changes an empty one is taken away.
type Rows = &'static [(u32, &'static str)];

const BASE: Rows = &[(1001, "a"), (1009, "b"), (1017, "c"), (1025, "d")];

/// Two commits: the first deletes `b` and adds `n`, the second puts a new `b` and deletes `c`.
const COMMITS: [Rows; 2] = [&[(1009, ""), (1013, "n")], &[(1009, "b2"), (1017, "")]];

/// A transaction's own changes: `n` is changed, nothing deleted, and `a` deleted.
const OWN: Rows = &[(1013, "own"), (1021, ""), (1001, "")];

fn label(alloc: Global, last: u32) -> Result<Label, Fail> {
    let divisions = List::from_vec(Vec::from_slice(alloc, &[1, 1001, last])?);
    Ok(Label::of_divisions(divisions).ok_or("no label")?)
}

fn key(alloc: Global, last: u32) -> Result<Key, Fail> {
    let label = label(alloc, last)?;
    Ok(Key::of_node(alloc, &label)?)
}

fn text(alloc: Global, data: &str) -> Result<Record, Fail> {
    Ok(Record::Text(Text::of(alloc, data)?))
}

/// One change, if it may be laid over a map.
fn one_change(alloc: Global, last: u32, data: &str) -> Result<Changes, Fail>
    ensures { IfOk result IsChangeList }
{
    let key = key(alloc, last)?;
    let mut changes: Changes = List::new(alloc);
    if data.is_empty() {
        changes.push(Change { key, now: None })?;
        return Ok(changes);
    }
    let record = text(alloc, data)?;
    if !key.is_valid() || !record.fits() {
        return Err(Fail::from("no entry of a tree"));
    }
    changes.push(Change {
        key,
        now: Some(record),
    })?;
    Ok(changes)
}

fn overlay(alloc: Global, rows: Rows) -> Result<Overlay, Fail> {
    let mut overlay = Overlay::new(alloc);
    for (last, data) in rows {
        overlay.add(alloc, one_change(alloc, *last, data)?)?;
    }
    Ok(overlay)
}

/// Lays changes over layers.
fn lay(alloc: Global, layers: &mut Layers, changes: Overlay) -> Result<(), Fail> {
    layers.reserve_layer(alloc)?;
    layers.push_layer(changes);
    Ok(())
}

fn layers(alloc: Global, commits: &[Rows]) -> Result<Layers, Fail> {
    let mut layers = Layers::new(alloc);
    for rows in commits {
        lay(alloc, &mut layers, overlay(alloc, rows)?)?;
    }
    Ok(layers)
}

/// Puts a text at the key of a last division.
fn put(alloc: Global, seq: &mut SortedSeq, last: u32, data: &str) -> Result<(), Fail> {
    let key = key(alloc, last)?;
    let record = text(alloc, data)?;
    let _old = seq.put(alloc, key, record)?;
    Ok(())
}

fn base(alloc: Global, rows: Rows) -> Result<SortedSeq, Fail> {
    let mut seq = SortedSeq::new(alloc);
    for (last, data) in rows {
        put(alloc, &mut seq, *last, data)?;
    }
    Ok(seq)
}

fn data(record: &Option<Record>) -> &str {
    match record {
        Some(Record::Text(data)) => data.as_str(),
        _ => "",
    }
}

fn entry_data(entry: &Option<(Key, Record)>) -> &str {
    match entry {
        Some((_, Record::Text(data))) => data.as_str(),
        _ => "",
    }
}

fn owned(alloc: Global, data: &str) -> Result<String, Fail> {
    Ok(String::from_str(alloc, data)?)
}

/// The data at a key.
fn here<S: NodeRead>(alloc: Global, at: &Key, seq: &mut S) -> Result<String, Fail> {
    let record = seq.get(alloc, at)?;
    owned(alloc, data(&record))
}

/// The data next above a key.
fn above<S: NodeRead>(alloc: Global, at: &Key, seq: &mut S) -> Result<String, Fail> {
    let entry = seq.next_from(alloc, at)?;
    owned(alloc, entry_data(&entry))
}

/// The data next below a key.
fn below<S: NodeRead>(alloc: Global, at: &Key, seq: &mut S) -> Result<String, Fail> {
    let entry = seq.prev_from(alloc, at)?;
    owned(alloc, entry_data(&entry))
}

/// The data at a key, next above it and next below it.
fn around<S: NodeRead>(alloc: Global, at: &Key, seq: &mut S) -> Result<String, Fail> {
    let here = here(alloc, at, seq)?;
    let above = above(alloc, at, seq)?;
    let below = below(alloc, at, seq)?;
    Ok(format!(in alloc; "{here},{above},{below}")?)
}

/// What is seen around a key of a base through the commits and a transaction's own changes.
fn seen_over(alloc: Global, at: &Key, base: &mut SortedSeq) -> Result<String, Fail> {
    let layers = layers(alloc, &COMMITS)?;
    let own = overlay(alloc, OWN)?;
    let mut gaps = Gaps::new(alloc);
    let mut view = View {
        base,
        layers: &layers,
        own: &own,
        gaps: &mut gaps,
    };
    around(alloc, at, &mut view)
}

fn seen(alloc: Global, last: u32) -> Result<String, Fail> {
    let at = key(alloc, last)?;
    let mut base = base(alloc, BASE)?;
    seen_over(alloc, &at, &mut base)
}

/// What is seen at a last division, next above it and next below it: `b2` at 1009, `own` at 1013 and `d` at 1025 are left.
const SEEN: [(u32, &str); 9] = [
    (999, ",b2,"),
    (1001, ",b2,"),
    (1009, "b2,own,"),
    (1011, ",own,b2"),
    (1013, "own,d,b2"),
    (1017, ",d,own"),
    (1021, ",d,own"),
    (1025, "d,,own"),
    (1027, ",,d"),
];

#[test]
fn a_view_answers_as_the_list_by_hand(rt: HostRuntime) -> Result<(), Fail> {
    for &(last, want) in &SEEN {
        let found = seen(rt.alloc(), last)?;
        agree(&rt, &last, &found.as_str(), &want);
    }
    Ok(())
}

/// What changes leave at their keys, each with a full stop behind it.
fn listed(alloc: Global, changes: &[Change]) -> Result<String, Fail> {
    let mut out = String::new(alloc);
    for change in changes {
        out.push_str(data(&change.now))?;
        out.push('.')?;
    }
    Ok(out)
}

/// What a transaction's own changes leave.
fn own_listed(alloc: Global) -> Result<String, Fail> {
    let mut own = overlay(alloc, OWN)?;
    listed(alloc, own.changes(alloc)?)
}

/// What the commits leave.
fn commits_listed(alloc: Global) -> Result<String, Fail> {
    let layers = layers(alloc, &COMMITS)?;
    listed(alloc, layers.fold(alloc)?.as_slice())
}

#[test]
fn folds_keep_the_deletions(rt: HostRuntime) -> Result<(), Fail> {
    assert_eq!(rt; own_listed(rt.alloc())?.as_str(), ".own..");
    assert_eq!(rt; commits_listed(rt.alloc())?.as_str(), "b2.n..");
    Ok(())
}

/// In how many runs so many changes stand that were added one by one.
fn runs_of(alloc: Global, added: u32) -> Result<usize, Fail> {
    let mut overlay = Overlay::new(alloc);
    for n in 0..added.min(100) {
        overlay.add(alloc, one_change(alloc, 1001 + 2 * n, "a")?)?;
    }
    Ok(overlay.run_count())
}

/// How many changes are added and in how many runs they stand then, by hand: each but the newest is at least four times as long as the next.
const RUNS: [(u32, usize); 6] = [(0, 0), (1, 1), (2, 2), (5, 2), (6, 3), (7, 2)];

#[test]
fn changes_added_one_by_one_stand_in_few_runs(rt: HostRuntime) -> Result<(), Fail> {
    for &(added, want) in &RUNS {
        agree(&rt, &added, &runs_of(rt.alloc(), added)?, &want);
    }
    Ok(())
}

/// The base with the commits laid over it.
fn stacked_base(alloc: Global) -> Result<Stacked<SortedSeq>, Fail> {
    let base = base(alloc, BASE)?;
    let layers = layers(alloc, &COMMITS)?;
    Ok(Stacked::new(base, layers))
}

/// A row, with the entries of the base and the changes of the layers behind it.
fn with_counts(alloc: Global, row: &str, stacked: Stacked<SortedSeq>) -> Result<String, Fail> {
    let (base, layers) = stacked.into_parts();
    let changes = layers.fold(alloc)?;
    Ok(format!(in alloc; "{row} {} {}", base.entries().len(), changes.len())?)
}

fn stacked(alloc: Global, last: u32) -> Result<String, Fail> {
    let at = key(alloc, last)?;
    let mut stacked = stacked_base(alloc)?;
    let row = around(alloc, &at, &mut stacked)?;
    with_counts(alloc, &row, stacked)
}

/// What is seen around a last division, the entries of the base and the changes of the layers.
const STACKED: [(u32, &str); 2] = [(1009, "b2,n,a 4 3"), (1017, ",d,n 4 3")];

#[test]
fn a_stacked_base_answers_through_its_layers_and_comes_back(rt: HostRuntime) -> Result<(), Fail> {
    for &(last, want) in &STACKED {
        let found = stacked(rt.alloc(), last)?;
        agree(&rt, &last, &found.as_str(), &want);
    }
    Ok(())
}

/// A text found at the key of a last division.
fn answer(alloc: Global, last: u32, data: &str) -> Result<Answer, Fail> {
    let key = key(alloc, last)?;
    let record = text(alloc, data)?;
    Ok(Answer::Found(key, record))
}

/// A map that isn't known and answers these texts, then faults.
fn unknown_base(alloc: Global, rows: Rows) -> Result<UnknownSeq, Fail> {
    let mut answers = Vec::new(alloc);
    for (last, data) in rows {
        answers.push(answer(alloc, *last, data)?)?;
    }
    answers.push(Answer::Fault)?;
    Ok(UnknownSeq { answers, faults: 0 })
}

/// The data of what was found, the word for a failed read, or nothing where memory ran out.
fn outcome(found: &Result<Option<(Key, Record)>, SeqError>) -> Option<&str> {
    match found {
        Ok(found) => Some(entry_data(found)),
        Err(SeqError::DiskFault) => Some("fault"),
        Err(SeqError::NoMemory) => None,
    }
}

/// What was found, and the count of faults.
fn with_faults(alloc: Global, found: Option<&str>, faults: u64) -> Result<String, Fail> {
    let found = found.ok_or("out of memory")?;
    Ok(format!(in alloc; "{found} {faults}")?)
}

/// What the next key above one has in a view of a base through the commits.
fn next_over(alloc: Global, at: &Key, base: &mut UnknownSeq) -> Result<String, Fail> {
    let layers = layers(alloc, &COMMITS)?;
    let own = Overlay::new(alloc);
    let mut gaps = Gaps::new(alloc);
    let mut view = View {
        base,
        layers: &layers,
        own: &own,
        gaps: &mut gaps,
    };
    let found = view.next_from(alloc, at);
    with_faults(alloc, outcome(&found), view.faults())
}

/// The same of a map that isn't known and answers these texts, then faults.
fn unknown(alloc: Global, last: u32, rows: Rows) -> Result<String, Fail> {
    let at = key(alloc, last)?;
    let mut base = unknown_base(alloc, rows)?;
    next_over(alloc, &at, &mut base)
}

/// Above which division is asked, what the base answers, and what is seen, with the count of faults.
const UNKNOWN: [(u32, Rows, &str); 4] = [
    (1009, &[(1011, "x")], "x 0"),
    // The change of 1013 comes before what the base has.
    (1009, &[(1015, "x")], "n 0"),
    (1013, &[], "fault 1"),
    // What is behind the deleted 1017 is asked for.
    (1013, &[(1017, "c")], "fault 1"),
];

#[test]
fn a_view_of_a_map_that_isnt_known_answers_or_counts_a_fault(rt: HostRuntime) -> Result<(), Fail> {
    for &(last, answers, want) in &UNKNOWN {
        let found = unknown(rt.alloc(), last, answers)?;
        agree(&rt, &last, &found.as_str(), &want);
    }
    Ok(())
}

/// A map of 100 entries.
fn full_base(alloc: Global) -> Result<SortedSeq, Fail> {
    let mut base = SortedSeq::new(alloc);
    for n in 0..100_u32 {
        put(alloc, &mut base, 1001 + 2 * n, "a")?;
    }
    Ok(base)
}

/// A layer that deletes so many of these entries.
fn deletions(alloc: Global, deleted: u32) -> Result<Layers, Fail> {
    let mut overlay = Overlay::new(alloc);
    for n in 0..deleted.min(100) {
        overlay.add(alloc, one_change(alloc, 1001 + 2 * n, "")?)?;
    }
    let mut layers = Layers::new(alloc);
    lay(alloc, &mut layers, overlay)?;
    Ok(layers)
}

/// Whether layers are due, the entries of their base after the merge, and whether they still are due.
fn merge(alloc: Global, layers: &mut Layers, base: &mut SortedSeq) -> Result<String, Fail> {
    let due = layers.is_due(base);
    layers.merge_into(alloc, base)?;
    let left = base.entries().len();
    Ok(format!(in alloc; "{due} {left} {}", layers.is_due(base))?)
}

/// The same where layers delete so many of 100 entries.
fn merged(alloc: Global, deleted: u32) -> Result<String, Fail> {
    let mut base = full_base(alloc)?;
    let mut layers = deletions(alloc, deleted)?;
    merge(alloc, &mut layers, &mut base)
}

/// How many entries are deleted; whether the layers are due, the entries left, and whether they still are.
const MERGED: [(u32, &str); 2] = [(64, "false 36 false"), (65, "true 35 false")];

#[test]
fn layers_merged_into_their_base_keep_no_deletions(rt: HostRuntime) -> Result<(), Fail> {
    for &(deleted, want) in &MERGED {
        let found = merged(rt.alloc(), deleted)?;
        agree(&rt, &deleted, &found.as_str(), &want);
    }
    Ok(())
}
