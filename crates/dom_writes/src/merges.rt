//! The changes from entries to others: one for each key whose record differs, by rising keys, and no other.
ghost use Rattle.std.specs.Prelude.{◌≡◌, ◌++◌, ◌∷◌, [], map, option_copied, IfOk, None, OnErr, OnOk};
ghost use Rattle.std.specs.List.{AllByRecursion};
ghost use Rattle.tree_model.specs.Changes.{differences, drop_change, stands};
ghost use Rattle.tree_model.specs.Entries.{Sorted, entries_above, entries_below, get};
ghost use Rattle.node_seq.specs.ChangeLists.{IsChangeList};
ghost use Rattle.node_seq.specs.Reads.{IsValidEntry};
ghost use Rattle.dom_writes.specs.inside.Merges.{BeginsAt, not_below, up_to};

use crate::written::same_record;
use dewey_labels::{List, NoMemory};
use std::alloc::Global;
use tree_model::{Change, Changes, Key, Record};

/// The differences of entries and the new ones, in one pass over both. The records of new entries are moved.
pub(crate) fn differences_between(
    alloc: Global,
    old: &List<(Key, Record)>,
    new: List<(Key, Record)>,
    out: &mut Changes,
) -> Result<(), NoMemory>
    requires sorted { Sorted old.now }
    ensures ok { OnOk result (out.new ≡ differences old.now new) }
    ensures rise { Sorted new → AllByRecursion IsValidEntry new → OnOk result (IsChangeList out.new) }
    ensures err { OnErr result (out.new ≡ out.old) }
{
    let mut changes = List::new(alloc);
    let mut rest = old.as_slice();
    for entry in new.into_vec() {
        rest = change_up_to(alloc, rest, entry, &mut changes)?;
    }
    push_drops(alloc, rest, &mut changes)?;
    *out = changes;
    Ok(())
}

/// Deletes the entries.
pub(crate) fn push_drops(
    alloc: Global,
    entries: &[(Key, Record)],
    changes: &mut Changes,
) -> Result<(), NoMemory>
    ensures { OnOk result (changes.new ≡ changes.old ++ map drop_change entries.now) }
{
    for (key, _) in entries {
        push_drop(alloc, key, changes)?;
    }
    Ok(())
}

/// Deletes what stands at a key.
pub(crate) fn push_drop(alloc: Global, key: &Key, changes: &mut Changes) -> Result<(), NoMemory>
    ensures { OnOk result (changes.new ≡ changes.old ++ record { key = key.now; now = None } ∷ []) }
{
    let key = key.copy(alloc)?;
    changes.push(Change { key, now: None })
}

/// The changes up to the key of an entry that comes: what stood below the key goes, and the entry is put unless it stood there.
/// The answer is what stood above the key.
fn change_up_to<'a>(
    alloc: Global,
    old: &'a [(Key, Record)],
    entry: (Key, Record),
    changes: &mut Changes,
) -> Result<&'a [(Key, Record)], NoMemory>
    requires sorted { Sorted old.now }
    ensures rest { IfOk result (λ rest. rest.now ≡ entries_above entry.0 old.now) }
    ensures changes { OnOk result (changes.new ≡ changes.old ++ up_to entry old.now) }
{
    let (key, record) = entry;
    let rest = drop_below(alloc, old, &key, changes)?;
    let (stood, above) = first_at(rest, &key);
    if !stands(&record, stood) {
        changes.push(Change {
            key,
            now: Some(record),
        })?;
    }
    Ok(above)
}

/// Deletes the entries below a key, and answers the others.
fn drop_below<'a>(
    alloc: Global,
    entries: &'a [(Key, Record)],
    key: &Key,
    changes: &mut Changes,
) -> Result<&'a [(Key, Record)], NoMemory>
    requires sorted { Sorted entries.now }
    ensures rest { IfOk result (λ rest. rest.now ≡ not_below key.now entries.now) }
    ensures changes { OnOk result (changes.new ≡ changes.old ++ map drop_change (entries_below key.now entries.now)) }
{
    let mut rest = entries;
    while let [(at, _), behind @ ..] = rest {
        if at.cmp(key).is_ge() {
            return Ok(rest);
        }
        push_drop(alloc, at, changes)?;
        rest = behind;
    }
    Ok(rest)
}

/// The record at a key, and the entries above it, where no entry lies below the key.
fn first_at<'a>(
    entries: &'a [(Key, Record)],
    key: &Key,
) -> (Option<&'a Record>, &'a [(Key, Record)])
    requires sorted { Sorted entries.now }
    requires none_below { BeginsAt key.now entries.now }
    ensures at { option_copied result.0 ≡ get key.now entries.now }
    ensures above { result.1.now ≡ entries_above key.now entries.now }
{
    let [(at, record), above @ ..] = entries else {
        return (None, entries);
    };
    if at.cmp(key).is_eq() {
        (Some(record), above)
    } else {
        (None, entries)
    }
}

/// Whether a record is the one that was found, if there is one.
fn stands(wanted: &Record, found: Option<&Record>) -> bool
    ensures { result ≡ stands wanted.now (option_copied found.entry) }
{
    match found {
        Some(found) => same_record(wanted, found),
        None => false,
    }
}
