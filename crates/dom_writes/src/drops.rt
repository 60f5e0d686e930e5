//! The call that takes a document out.
ghost use Rattle.std.specs.Prelude.{◌≡◌, [], IfOk, OnErr, ◌≤◌, ◌+◌};
ghost use Rattle.tree_model.specs.Documents as documents;
ghost use Rattle.tree_model.specs.Tree.{beside};
ghost use Rattle.node_seq.specs.ChangeLists.{IsChangeList};
ghost use Rattle.node_seq.specs.Trees.{OnTree};
ghost use Rattle.outside_traits.specs.Faults.{HasCause};
ghost use Rattle.dom_reads.specs.ReadCounts.{ReadsOfTree};
ghost use Rattle.dom_writes.specs.Changing.{ChangesAs, RepliesAs};
ghost use Rattle.dom_writes.specs.ReadCounts.{drop_reads};
ghost use Rattle.dom_writes.specs.inside.Outcomes.{reply_and_changes};
ghost use Rattle.dom_writes.specs.inside.Above.{is_head_above};

use crate::merges::{push_drop, push_drops};
use dewey_labels::{Label, List, Text};
use dom_reads::{doc, not_found, subtree};
use node_seq::{NodeRead, SeqError};
use std::alloc::Global;
use tree_model::{Changes, Key, Record, Reply};

/// Takes the document with a name out, with its entry in the catalogue. One read an entry of the document and two more at most.
pub fn drop_document<S: NodeRead>(
    alloc: Global,
    name: &Text,
    seq: &mut S,
    out: &mut Changes,
) -> Result<Reply, SeqError>
    requires empty { out.old ≡ [] }
    ensures reply { RepliesAs (S.contents seq.old) result (documents.drop_document name.now) }
    ensures changes { ChangesAs (S.contents seq.old) result out.new
        (documents.drop_document name.now) }
    ensures rise { IsChangeList out.new }
    ensures err { OnErr result (out.new ≡ out.old) }
    ensures unchanged { S.unchanged seq.old seq.new }
    ensures reads { ReadsOfTree (S.contents seq.old) (λ t. drop_reads (beside name.now t.catalogue) t) (S.reads seq.old) (S.reads seq.new) }
    ensures cause { HasCause SeqError.DiskFault (S.count seq.old) (S.count seq.new) result }
{
    let (reply, changes) = document_removal(alloc, name, seq)?;
    *out = changes;
    Ok(reply)
}

/// The reply of `drop_document`, and its changes.
fn document_removal<S: NodeRead>(
    alloc: Global,
    name: &Text,
    seq: &mut S,
) -> Result<(Reply, Changes), SeqError>
    ensures outcome { OnTree (S.contents seq.old) result (λ t outcome. outcome ≡ reply_and_changes t (documents.drop_document name.now t)) }
    ensures rise { IfOk result (λ outcome. IsChangeList outcome.1) }
    ensures unchanged { S.unchanged seq.old seq.new }
    ensures reads { ReadsOfTree (S.contents seq.old) (λ t. drop_reads (beside name.now t.catalogue) t) (S.reads seq.old) (S.reads seq.new) }
    ensures cause { HasCause SeqError.DiskFault (S.count seq.old) (S.count seq.new) result }
{
    let Some(at) = document_label(alloc, name, seq)? else {
        return Ok((not_found(), List::new(alloc)));
    };
    let entries = subtree(alloc, &at, seq)?;
    let root = Label::root(alloc)?;
    let key = Key::of_attribute(alloc, &root, name.as_str())?;
    // No tree has a document whose entries don't lie behind the catalogue's.
    if !is_head_above(entries.as_slice(), &key) {
        return Ok((not_found(), List::new(alloc)));
    }
    let mut changes = List::new(alloc);
    push_drop(alloc, &key, &mut changes)?;
    push_drops(alloc, entries.as_slice(), &mut changes)?;
    Ok((Reply::Nothing, changes))
}

/// The label of the document with a name, if there is one.
fn document_label<S: NodeRead>(
    alloc: Global,
    name: &Text,
    seq: &mut S,
) -> Result<Option<Label>, SeqError>
    ensures found { OnTree (S.contents seq.old) result (λ t found. found ≡ beside name.now t.catalogue) }
    ensures unchanged { S.unchanged seq.old seq.new }
    ensures reads { S.reads seq.new ≤ S.reads seq.old + 1 }
    ensures cause { HasCause SeqError.DiskFault (S.count seq.old) (S.count seq.new) result }
{
    match doc(alloc, name, seq)? {
        Reply::Place(place) => Ok(place),
        _ => Ok(None),
    }
}

/// Whether the first entry lies above a key.
fn is_head_above(entries: &[(Key, Record)], key: &Key) -> bool
    ensures { result ≡ is_head_above key.now entries.now }
{
    match entries {
        [(first, _), ..] => key.cmp(first).is_lt(),
        [] => true,
    }
}
