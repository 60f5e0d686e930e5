//! The call that makes a document, with its entry in the catalogue.
ghost use Rattle.std.specs.Prelude.{◌≡◌, ◌++◌, [], IfOk, IfSome, IsTrue, OnErr, OnOk, option_map, ◌≤◌, ◌+◌};
ghost use Rattle.dewey_labels.specs.Labels.{is_child, root};
ghost use Rattle.tree_model.specs.Documents as documents;
ghost use Rattle.tree_model.specs.Documents.{document_at};
ghost use Rattle.tree_model.specs.Fragments.{IsValid, plain_or_none};
ghost use Rattle.tree_model.specs.Graft.{all_within};
ghost use Rattle.tree_model.specs.Tree.{entries_of};
ghost use Rattle.node_seq.specs.ChangeLists.{IsChangeList};
ghost use Rattle.outside_traits.specs.Faults.{HasCause};
ghost use Rattle.dom_writes.specs.Changing.{ChangesAs, MayBring, RepliesAs};
ghost use Rattle.dom_writes.specs.inside.NewDocuments as new_documents;
ghost use Rattle.dom_writes.specs.inside.NewPlaces.{PlacesAs, answer};

use crate::grafts::{child_label, push_graft, puts};
use crate::refusals::{
    document_exists, hierarchy_request, invalid_character, label_limit, too_deep,
};
use dewey_labels::{FIRST_DIVISION, Label, List, NoMemory, Text, child_beside};
use dom_reads::{attribute_at, last_child};
use node_seq::{NodeRead, SeqError};
use std::alloc::Global;
use tree_model::{
    Changes, Fragment, Key, Record, Reply, document_fits_at, is_name, is_text_document,
    is_too_deep_document,
};

/// A document with a name behind the last one, empty or of one element. Two reads at most.
pub fn create<S: NodeRead>(
    alloc: Global,
    name: &Text,
    fragment: Option<&Fragment>,
    seq: &mut S,
    out: &mut Changes,
) -> Result<Reply, SeqError>
    requires may_bring { MayBring out.old (plain_or_none (option_map (λ f. f.now) fragment)) }
    ensures reply { RepliesAs (S.contents seq.old) result
        (documents.create name.now (plain_or_none (option_map (λ f. f.now) fragment.entry))) }
    ensures changes { ChangesAs (S.contents seq.old) result out.new
        (documents.create name.now (plain_or_none (option_map (λ f. f.now) fragment.entry))) }
    ensures rise { IsChangeList out.new }
    ensures err { OnErr result (out.new ≡ out.old) }
    ensures unchanged { S.unchanged seq.old seq.new }
    ensures reads { S.reads seq.new ≤ S.reads seq.old + 2 }
    ensures cause { HasCause SeqError.DiskFault (S.count seq.old) (S.count seq.new) result }
{
    let place = document_place(alloc, name, fragment, seq)?;
    Ok(put_document(alloc, name, place, fragment, out)?)
}

/// The new document's label, or the refusal.
fn document_place<S: NodeRead>(
    alloc: Global,
    name: &Text,
    fragment: Option<&Fragment>,
    seq: &mut S,
) -> Result<Result<Label, Reply>, SeqError>
    ensures place { PlacesAs (S.contents seq.old) result
        (documents.create name.now (plain_or_none (option_map (λ f. f.now) fragment.entry))) }
    ensures suits { IfOk result (new_documents.SuitsOrRefused name.now (plain_or_none (option_map (λ f. f.now) fragment.entry))) }
    ensures unchanged { S.unchanged seq.old seq.new }
    ensures reads { S.reads seq.new ≤ S.reads seq.old + 2 }
    ensures cause { HasCause SeqError.DiskFault (S.count seq.old) (S.count seq.new) result }
{
    if !is_name(name) {
        return Ok(Err(invalid_character()));
    }
    if is_text_document(fragment) {
        return Ok(Err(hierarchy_request()));
    }
    let root = Label::root(alloc)?;
    if attribute_at(alloc, &root, name, seq)?.is_some() {
        return Ok(Err(document_exists()));
    }
    if is_too_deep_document(fragment) {
        return Ok(Err(too_deep()));
    }
    let last = last_child(alloc, &root, seq)?;
    let new = child_beside(alloc, &root, &last, &None)?;
    Ok(within_limits(new, fragment))
}

/// The new label, unless one of the document's labels passes a limit.
fn within_limits(new: Option<Label>, fragment: Option<&Fragment>) -> Result<Label, Reply>
    ensures { result ≡ new_documents.within_limits (plain_or_none (option_map (λ f. f.now) fragment.entry)) new }
{
    match new {
        Some(label) if document_fits_at(&label, fragment) => Ok(label),
        _ => Err(label_limit()),
    }
}

/// Puts the document at its place, and answers its label; a refusal is answered as it is.
fn put_document(
    alloc: Global,
    name: &Text,
    place: Result<Label, Reply>,
    fragment: Option<&Fragment>,
    out: &mut Changes,
) -> Result<Reply, NoMemory>
    requires empty { out.old ≡ [] }
    requires fragment { IsValid (plain_or_none (option_map (λ f. f.now) fragment)) }
    requires suits { new_documents.SuitsOrRefused name.now (plain_or_none (option_map (λ f. f.now) fragment)) place }
    ensures reply { IfOk result (λ reply. reply ≡ answer place) }
    ensures changes { OnOk result (out.new ≡ new_documents.changes name.now (plain_or_none (option_map (λ f. f.now) fragment.entry)) place) }
    ensures rise { IsChangeList out.new }
    ensures err { OnErr result (out.new ≡ out.old) }
{
    match place {
        Ok(new) => {
            let entries = document_entries(alloc, name, &new, fragment)?;
            *out = puts(alloc, entries)?;
            Ok(Reply::Place(Some(new)))
        }
        Err(refusal) => Ok(refusal),
    }
}

/// The entry of the catalogue, and those of the document, by rising keys.
fn document_entries(
    alloc: Global,
    name: &Text,
    new: &Label,
    fragment: Option<&Fragment>,
) -> Result<List<(Key, Record)>, NoMemory>
    requires child { IsTrue (is_child root new.now) }
    requires within { IsTrue (all_within (document_at new.now (plain_or_none (option_map (λ f. f.now) fragment)))) }
    ensures { IfOk result (λ entries. entries ≡ new_documents.entries name.now new.now (plain_or_none (option_map (λ f. f.now) fragment.entry))) }
{
    let root = Label::root(alloc)?;
    let mut entries = List::new(alloc);
    let key = Key::of_attribute(alloc, &root, name.as_str())?;
    entries.push((key, Record::Attr(new.text(alloc)?)))?;
    push_document(alloc, new, fragment, &mut entries)?;
    Ok(entries)
}

/// Puts the entries of a document behind the entries before them.
fn push_document(
    alloc: Global,
    new: &Label,
    fragment: Option<&Fragment>,
    entries: &mut List<(Key, Record)>,
) -> Result<(), NoMemory>
    requires child { IsTrue (is_child root new.now) }
    requires within { IsTrue (all_within (document_at new.now (plain_or_none (option_map (λ f. f.now) fragment)))) }
    ensures { OnOk result (entries.new ≡ entries.old ++ entries_of (document_at new.now (plain_or_none (option_map (λ f. f.now) fragment.entry)))) }
{
    let _divisions = new.divisions();
    entries.push((Key::of_node(alloc, new)?, Record::Document))?;
    match fragment {
        Some(fragment) => {
            let label = child_label(alloc, new, FIRST_DIVISION)?;
            push_graft(alloc, &label, fragment, entries)
        }
        None => Ok(()),
    }
}
