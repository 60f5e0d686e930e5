//! What the changing calls share: the node that a call speaks of, and the change of one key.
ghost use Rattle.std.specs.Prelude.{◌≡◌, ◌++◌, [], not, IfOk, IfSome, OnErr, OnOk, Some, ◌≤◌, ◌+◌};
ghost use Rattle.tree_changes.specs.KeyChanges.{change_at};
ghost use Rattle.tree_model.specs.Changes.{same_record};
ghost use Rattle.tree_model.specs.Entries.{Entries, get};
ghost use Rattle.tree_model.specs.Keys.{IsValidKey, node_key};
ghost use Rattle.tree_model.specs.Limits.{is_too_long};
ghost use Rattle.tree_model.specs.Records.{is_data};
ghost use Rattle.tree_model.specs.Tree.{at as found_at, record_of};
ghost use Rattle.node_seq.specs.ChangeLists.{IsChangeList};
ghost use Rattle.node_seq.specs.Reads.{IsValidEntry};
ghost use Rattle.node_seq.specs.Trees.{OnTree};
ghost use Rattle.outside_traits.specs.Faults.{HasCause};
ghost use Rattle.dom_writes.specs.inside.Records.{are_one};

use dewey_labels::{Label, NoMemory, Text};
use dom_reads::record_at;
use node_seq::{NodeRead, SeqError};
use std::alloc::Global;
use tree_model::{Change, Changes, DEEPEST_LEVEL, Key, MOST_TEXT_BYTES, Record};

/// The record of the node with a label, if there is one. No tree has a node below the deepest level, and none is looked for there. One read at most.
pub fn node_at<S: NodeRead>(
    alloc: Global,
    at: &Label,
    seq: &mut S,
) -> Result<Option<Record>, SeqError>
    ensures found { OnTree (S.contents seq.old) result (λ t r. r ≡ record_of (found_at at.now t.documents)) }
    ensures key { IfOk result (λ found. IfSome found (λ _. IsValidKey (node_key at.now))) }
    ensures unchanged { S.unchanged seq.old seq.new }
    ensures reads { S.reads seq.new ≤ S.reads seq.old + 1 }
    ensures cause { HasCause SeqError.DiskFault (S.count seq.old) (S.count seq.new) result }
{
    let _divisions = at.divisions();
    let _faults = seq.faults();
    if at.level() > DEEPEST_LEVEL {
        return Ok(None);
    }
    record_at(alloc, at, seq)
}

/// Whether data or a value is too long for a tree.
pub fn is_too_long(text: &Text) -> bool
    ensures long { result ≡ is_too_long text.now }
    ensures data { result ≡ not (is_data text.now) }
{
    text.as_str().len() > MOST_TEXT_BYTES
}

/// Adds the change of a key, unless the record that stands there now is the one that stood there before. One read.
pub fn change_key<S: NodeRead>(
    alloc: Global,
    key: Key,
    now: Option<Record>,
    seq: &mut S,
    out: &mut Changes,
) -> Result<(), SeqError>
    requires empty { out.old ≡ [] }
    requires entry { IfSome now (λ r. IsValidEntry (key, r)) }
    ensures changed { OnOk result ((es : Entries) → S.contents seq.old ≡ Some es → out.new ≡ change_at key (get key es) now) }
    ensures rise { IsChangeList out.new }
    ensures err { OnErr result (out.new ≡ out.old) }
    ensures unchanged { S.unchanged seq.old seq.new }
    ensures reads { S.reads seq.new ≤ S.reads seq.old + 1 }
    ensures cause { HasCause SeqError.DiskFault (S.count seq.old) (S.count seq.new) result }
{
    let before = seq.get(alloc, &key)?;
    add_change(key, before, now, out)?;
    Ok(())
}

/// Adds the change of a key at which one record stood before and another stands now, each of which may be missing; none where they are one.
pub fn add_change(
    key: Key,
    before: Option<Record>,
    now: Option<Record>,
    out: &mut Changes,
) -> Result<(), NoMemory>
    ensures ok { OnOk result (out.new ≡ out.old ++ change_at key before now) }
    ensures err { OnErr result (out.new ≡ out.old) }
{
    if are_one(&before, &now) {
        return Ok(());
    }
    out.push(Change { key, now })
}

/// Whether the same record stands at a key before and after, or none.
fn are_one(before: &Option<Record>, now: &Option<Record>) -> bool
    ensures { result ≡ are_one before.now now.now }
{
    match (before, now) {
        (None, None) => true,
        (Some(before), Some(now)) => same_record(now, before),
        _ => false,
    }
}

/// Whether two records are one.
pub fn same_record(a: &Record, b: &Record) -> bool
    ensures { result ≡ same_record a.now b.now }
{
    match (a, b) {
        (Record::Document, Record::Document) => true,
        (Record::Element(a), Record::Element(b)) => a == b,
        (Record::Text(a), Record::Text(b)) => a == b,
        (Record::Attr(a), Record::Attr(b)) => a == b,
        _ => false,
    }
}
