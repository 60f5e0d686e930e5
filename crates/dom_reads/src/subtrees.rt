//! The calls that read a whole subtree (DOM Level 3 Core: `textContent` and `getElementsByTagName`), and a subtree as a fragment.
//! Each makes one read for an entry of the subtree and one more at most; the text of a text or a document takes one.
ghost use Rattle.std.specs.Prelude.{◌≡◌, ◌++◌, [], ◌∷◌, if◌then◌else◌, string_bytes, IfOk, OnOk, None};
ghost use Rattle.tree_model.specs.declared.dom_call.DomCall.TheVariants as call;
ghost use Rattle.tree_model.specs.Navigation.{tags as tags_reply};
ghost use Rattle.tree_model.specs.Subtrees.{dump as dump_reply};
ghost use Rattle.tree_model.specs.Texts.{text_content as text_content_reply};
ghost use Rattle.node_seq.specs.Reads.{IsEntryOfTrees};
ghost use Rattle.node_seq.specs.Trees.{OnTree};
ghost use Rattle.dom_reads.specs.ReadCounts.{ReadsOfTree, most_reads};
ghost use Rattle.dom_reads.specs.SubtreeWalks.{OnWalk, WalksWithin};
ghost use Rattle.dom_reads.specs.inside.FragmentBuilders.{add_all, making_of};
ghost use Rattle.dom_reads.specs.inside.Gathered.{data_of, has_tag, labels_in, texts_in};
ghost use Rattle.outside_traits.specs.Faults.{HasCause};

use crate::fragment_builder::FragmentBuilder;
use crate::refusals::not_found;
use crate::subtree_walk::SubtreeWalk;
use dewey_labels::{Label, List, NoMemory, Text};
use node_seq::{NodeRead, SeqError};
use std::alloc::Global;
use tree_model::{Key, Record, Reply};

/// The text of a node: a text's data, and of an element all texts under it, joined in document order; null of a document.
pub fn text_content<S: NodeRead>(alloc: Global, at: &Label, seq: &mut S) -> Result<Reply, SeqError>
    ensures reply { OnTree (S.contents seq.old) result (λ t reply. reply ≡ text_content_reply at.now t) }
    ensures unchanged { S.unchanged seq.old seq.new }
    ensures reads { ReadsOfTree (S.contents seq.old) (most_reads (call.TextContent at.now)) (S.reads seq.old) (S.reads seq.new) }
    ensures cause { HasCause SeqError.DiskFault (S.count seq.old) (S.count seq.new) result }
{
    let key = Key::of_node(alloc, at)?;
    let Some(record) = seq.get(alloc, &key)? else {
        return Ok(not_found());
    };
    match record {
        Record::Element(_) => {
            let mut walk = SubtreeWalk::below(alloc, at, seq)?;
            Ok(Reply::Chars(join_texts(alloc, &mut walk, seq)?))
        }
        Record::Text(data) => Ok(Reply::Chars(data)),
        Record::Document => Ok(Reply::Nothing),
        // No tree has an attribute as a node.
        Record::Attr(_) => Ok(Reply::Nothing),
    }
}

/// The texts that a walk still meets, joined in one buffer.
fn join_texts<S: NodeRead>(
    alloc: Global,
    walk: &mut SubtreeWalk,
    seq: &mut S,
) -> Result<Text, SeqError>
    requires valid { S.contents seq.old ≡ None → IsEntryOfTrees walk.old.next }
    ensures texts { IfOk result (λ joined.
        OnWalk (S.contents seq.old) walk.old (λ met. joined ≡ texts_in met)) }
    ensures unchanged { S.unchanged seq.old seq.new }
    ensures reads { WalksWithin (S.contents seq.old) walk.old (S.reads seq.old) (S.reads seq.new) }
    ensures cause { HasCause SeqError.DiskFault (S.count seq.old) (S.count seq.new) result }
{
    let mut joined = String::new(alloc);
    while let Some(entry) = walk.step(alloc, seq)? {
        push_text(&mut joined, entry)?;
    }
    Ok(Text::from_string(joined))
}

fn push_text(joined: &mut String, entry: (Key, Record)) -> Result<(), NoMemory>
    ensures { OnOk result (string_bytes joined.new ≡ string_bytes joined.old ++ data_of entry.1) }
{
    let (_, record) = entry;
    match record {
        Record::Text(data) => Ok(joined.push_str(data.as_str())?),
        _ => Ok(()),
    }
}

/// The labels of the elements with a name below a node, in document order; `*` asks for every name.
pub fn tags<S: NodeRead>(
    alloc: Global,
    at: &Label,
    name: &Text,
    seq: &mut S,
) -> Result<Reply, SeqError>
    ensures reply { OnTree (S.contents seq.old) result (λ t reply. reply ≡ tags_reply at.now name.now t) }
    ensures unchanged { S.unchanged seq.old seq.new }
    ensures reads { ReadsOfTree (S.contents seq.old) (most_reads (call.Tags at.now name.now)) (S.reads seq.old) (S.reads seq.new) }
    ensures cause { HasCause SeqError.DiskFault (S.count seq.old) (S.count seq.new) result }
{
    let key = Key::of_node(alloc, at)?;
    let Some(_record) = seq.get(alloc, &key)? else {
        return Ok(not_found());
    };
    let mut walk = SubtreeWalk::below(alloc, at, seq)?;
    Ok(Reply::Places(tagged(alloc, name, &mut walk, seq)?))
}

/// The labels of the elements with the name that a walk still meets.
fn tagged<S: NodeRead>(
    alloc: Global,
    name: &Text,
    walk: &mut SubtreeWalk,
    seq: &mut S,
) -> Result<List<Label>, SeqError>
    requires valid { S.contents seq.old ≡ None → IsEntryOfTrees walk.old.next }
    ensures labels { IfOk result (λ labels.
        OnWalk (S.contents seq.old) walk.old (λ met. labels ≡ labels_in name.now met)) }
    ensures unchanged { S.unchanged seq.old seq.new }
    ensures reads { WalksWithin (S.contents seq.old) walk.old (S.reads seq.old) (S.reads seq.new) }
    ensures cause { HasCause SeqError.DiskFault (S.count seq.old) (S.count seq.new) result }
{
    let mut labels = List::new(alloc);
    while let Some(entry) = walk.step(alloc, seq)? {
        push_tagged(&mut labels, name, entry)?;
    }
    Ok(labels)
}

fn push_tagged(labels: &mut List<Label>, name: &Text, entry: (Key, Record)) -> Result<(), NoMemory>
    ensures { OnOk result (labels.new ≡ labels.old ++ (if has_tag name.now entry.1 then entry.0.label ∷ [] else [])) }
{
    let (key, record) = entry;
    if has_tag(name, &record) {
        let Key { label, .. } = key;
        labels.push(label)?;
    }
    Ok(())
}

/// Whether a record is an element's whose name is asked for.
fn has_tag(name: &Text, record: &Record) -> bool
    ensures { result ≡ has_tag name.now record.now }
{
    match record {
        Record::Element(tag) => name.as_str() == "*" || name == tag,
        _ => false,
    }
}

/// The subtree of a node as a fragment; of a document that of its element, or none.
pub fn dump<S: NodeRead>(alloc: Global, at: &Label, seq: &mut S) -> Result<Reply, SeqError>
    ensures reply { OnTree (S.contents seq.old) result (λ t reply. reply ≡ dump_reply at.now t) }
    ensures unchanged { S.unchanged seq.old seq.new }
    ensures reads { ReadsOfTree (S.contents seq.old) (most_reads (call.Dump at.now)) (S.reads seq.old) (S.reads seq.new) }
    ensures cause { HasCause SeqError.DiskFault (S.count seq.old) (S.count seq.new) result }
{
    let key = Key::of_node(alloc, at)?;
    let Some(record) = seq.get(alloc, &key)? else {
        return Ok(not_found());
    };
    let mut builder = FragmentBuilder::new(alloc);
    builder.add(alloc, (key, record))?;
    let mut walk = SubtreeWalk::below(alloc, at, seq)?;
    add_rest(alloc, &mut walk, &mut builder, seq)?;
    Ok(Reply::Tree(builder.finish()?))
}

/// Adds all that a walk still meets.
fn add_rest<S: NodeRead>(
    alloc: Global,
    walk: &mut SubtreeWalk,
    builder: &mut FragmentBuilder,
    seq: &mut S,
) -> Result<(), SeqError>
    requires valid { S.contents seq.old ≡ None → IsEntryOfTrees walk.old.next }
    ensures added { OnOk result (OnWalk (S.contents seq.old) walk.old (λ met.
        making_of builder.new ≡ add_all met (making_of builder.old))) }
    ensures unchanged { S.unchanged seq.old seq.new }
    ensures reads { WalksWithin (S.contents seq.old) walk.old (S.reads seq.old) (S.reads seq.new) }
    ensures cause { HasCause SeqError.DiskFault (S.count seq.old) (S.count seq.new) result }
{
    while let Some(entry) = walk.step(alloc, seq)? {
        builder.add(alloc, entry)?;
    }
    Ok(())
}
