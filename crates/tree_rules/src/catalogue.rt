// The documents that the catalogue of a map names, and that were not met yet.
ghost use Rattle.std.specs.Prelude.{◌≡◌, false, None, Some, IfOk, OnOk, unwrap_or};
ghost use Rattle.std.specs.BTreeMap.{get};
ghost use Rattle.std.specs.Cmp.Lexicographic.{slice_cmp};
ghost use Rattle.std.specs.Ordering.{nat_cmp};
ghost use Rattle.tree_model.specs.StoredTree.{is_document_record, label_in};
ghost use Rattle.tree_rules.specs.inside.Named.{HasLost, HasNamed, gives_label};

use crate::records::{is_document, label_in};
use dewey_labels::{Label, NoMemory};
use std::alloc::Global;
use std::collections::BTreeMap;
use tree_model::{Key, Record, is_name};

/// Notes the label that a catalogue entry gives, and whether it is the first to give it; answers whether it gives one, and has a Name.
pub(crate) fn name_document(
    alloc: Global,
    named: &mut BTreeMap<Label, bool>,
    key: &Key,
    value: &Record,
) -> Result<bool, NoMemory>
    ensures gives { IfOk result (λ gives. gives ≡ gives_label (key.now, value.now)) }
    ensures named { OnOk result (HasNamed (label_in value.now) named.old named.new) }
{
    match label_in(alloc, value)? {
        Some(label) => {
            let is_first = !named.contains_key(&label);
            let _before = named.insert(label, is_first)?;
            Ok(is_name(&key.name))
        }
        None => Ok(false),
    }
}

/// Whether one entry of the catalogue alone gives the label.
pub(crate) fn is_named_once(named: &BTreeMap<Label, bool>, label: &Label) -> bool
    ensures { result ≡ unwrap_or (get (slice_cmp nat_cmp) named.now label.now) false }
{
    match named.get(label) {
        Some(is_once) => *is_once,
        None => false,
    }
}

/// Takes a document's label off those that were named.
pub(crate) fn take_off(named: &mut BTreeMap<Label, bool>, label: &Label, value: &Record)
    ensures { HasLost label.now (is_document_record (Some value.now)) named.old named.new }
{
    if is_document(value) {
        let _once = named.remove(label);
    }
}
