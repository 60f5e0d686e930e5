//! The calls on the catalogue: all documents, and one by its name.
ghost use Rattle.std.specs.Prelude.{◌≡◌, IfOk, ◌≤◌, ◌+◌};
ghost use Rattle.dewey_labels.specs.LabelText.{label_of};
ghost use Rattle.tree_model.specs.Documents as documents;
ghost use Rattle.tree_model.specs.declared.dom_call.DomCall.TheVariants as call;
ghost use Rattle.node_seq.specs.Trees.{OnTree};
ghost use Rattle.outside_traits.specs.Faults.{HasCause};
ghost use Rattle.dom_reads.specs.ReadCounts.{ReadsOfTree, most_reads};
ghost use Rattle.dom_reads.specs.inside.Catalogues.{catalogue_of};

use crate::refusals::not_found;
use crate::{all_attributes, attribute_at};
use dewey_labels::{Label, LabelTextError, List, NoMemory, Text};
use node_seq::{NodeRead, SeqError};
use std::alloc::Global;
use tree_model::Reply;

/// All documents by name, each with its label. One read a document and one more.
pub fn docs<S: NodeRead>(alloc: Global, seq: &mut S) -> Result<Reply, SeqError>
    ensures reply { OnTree (S.contents seq.old) result (λ t reply. reply ≡ documents.docs t) }
    ensures unchanged { S.unchanged seq.old seq.new }
    ensures reads { ReadsOfTree (S.contents seq.old) (most_reads call.Docs) (S.reads seq.old) (S.reads seq.new) }
    ensures cause { HasCause SeqError.DiskFault (S.count seq.old) (S.count seq.new) result }
{
    let root = Label::root(alloc)?;
    let entries = all_attributes(alloc, &root, seq)?;
    Ok(Reply::Names(catalogue(alloc, entries)?))
}

/// The documents that the root's attributes name; an attribute that is no label's text names none.
fn catalogue(alloc: Global, entries: List<(Text, Text)>) -> Result<List<(Text, Label)>, NoMemory>
    ensures { IfOk result (λ names. names ≡ catalogue_of entries) }
{
    let mut names = List::new(alloc);
    for (name, value) in entries.into_vec() {
        if let Some(label) = label_in(alloc, &value)? {
            names.push((name, label))?;
        }
    }
    Ok(names)
}

/// The label whose text this is, if it is one.
fn label_in(alloc: Global, text: &Text) -> Result<Option<Label>, NoMemory>
    ensures { IfOk result (λ label. label ≡ label_of text.now) }
{
    match Label::read_text(alloc, text.as_str().as_bytes()) {
        Ok(label) => Ok(Some(label)),
        Err(LabelTextError::NotALabel { .. }) => Ok(None),
        Err(LabelTextError::NoMemory) => Err(NoMemory),
    }
}

/// The document with a name. One read.
pub fn doc<S: NodeRead>(alloc: Global, name: &Text, seq: &mut S) -> Result<Reply, SeqError>
    ensures reply { OnTree (S.contents seq.old) result (λ t reply. reply ≡ documents.doc name.now t) }
    ensures unchanged { S.unchanged seq.old seq.new }
    ensures reads { S.reads seq.new ≤ S.reads seq.old + 1 }
    ensures cause { HasCause SeqError.DiskFault (S.count seq.old) (S.count seq.new) result }
{
    let root = Label::root(alloc)?;
    let Some(value) = attribute_at(alloc, &root, name, seq)? else {
        return Ok(not_found());
    };
    match label_in(alloc, &value)? {
        Some(label) => Ok(Reply::Place(Some(label))),
        None => Ok(not_found()),
    }
}
