// Tests of one record, or of a label, by itself.
ghost use Rattle.std.specs.Prelude.{◌≡◌, Some, IfOk};
ghost use Rattle.dewey_labels.specs.Labels.{IsLabel};
ghost use Rattle.dewey_labels.specs.Lists.{is_empty};
ghost use Rattle.tree_model.specs.Places.{is_root};
ghost use Rattle.tree_model.specs.StoredTree.{is_document_record, is_value, label_in};

use dewey_labels::{Label, LabelTextError, NoMemory};
use std::alloc::Global;
use tree_model::{Key, Record};

pub(crate) fn is_root(label: &Label) -> bool
    ensures root { result ≡ is_root label.now }
    ensures label { IsLabel label.now }
{
    [1].as_slice().cmp(label.divisions()).is_eq()
}

/// Whether it is a node's key.
pub(crate) fn is_node(key: &Key) -> bool
    ensures { result ≡ is_empty key.now.name }
{
    key.name.as_str().is_empty()
}

/// The label whose text an attribute's value is.
pub(crate) fn label_in(alloc: Global, value: &Record) -> Result<Option<Label>, NoMemory>
    ensures { IfOk result (λ found. found ≡ label_in value.now) }
{
    let Record::Attr(text) = value else {
        return Ok(None);
    };
    match Label::read_text(alloc, text.as_str().as_bytes()) {
        Ok(label) => Ok(Some(label)),
        Err(LabelTextError::NotALabel { .. }) => Ok(None),
        Err(LabelTextError::NoMemory) => Err(NoMemory),
    }
}

/// Whether it is a value that isn't too long.
pub(crate) fn is_value(value: &Record) -> bool
    ensures { result ≡ is_value value.now }
{
    match value {
        Record::Attr(_) => value.fits(),
        _ => false,
    }
}

pub(crate) fn is_document(value: &Record) -> bool
    ensures { result ≡ is_document_record (Some value.now) }
{
    matches!(value, Record::Document)
}
