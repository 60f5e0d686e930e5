//! The places of new nodes: the limits of their labels, and the parent's kind.
ghost use Rattle.std.specs.Prelude.{◌≡◌, IfOk, IsTrue, ◌≤◌, ◌+◌};
ghost use Rattle.dewey_labels.specs.Labels.{is_child};
ghost use Rattle.tree_model.specs.Fragments.{plain};
ghost use Rattle.tree_model.specs.Placing.{has_child};
ghost use Rattle.node_seq.specs.Trees.{OnTree};
ghost use Rattle.outside_traits.specs.Faults.{HasCause};
ghost use Rattle.dom_writes.specs.inside.NewPlaces.{takes_none, within_limits};

use crate::refusals::label_limit;
use dewey_labels::Label;
use dom_reads::{is_document, record_at};
use node_seq::{NodeRead, SeqError};
use std::alloc::Global;
use tree_model::{Fragment, Record, Reply};

/// The new label, unless one of the fragment's labels there passes a limit.
pub(crate) fn within_limits(new: Option<Label>, fragment: &Fragment) -> Result<Label, Reply>
    ensures { result ≡ within_limits (plain fragment.now) new }
{
    match new {
        Some(label) if fragment.fits_at(&label) => Ok(label),
        _ => Err(label_limit()),
    }
}

/// Whether a node is there and is the parent's child. One read at most.
pub(crate) fn has_child<S: NodeRead>(
    alloc: Global,
    parent: &Label,
    child: &Label,
    seq: &mut S,
) -> Result<bool, SeqError>
    ensures there { OnTree (S.contents seq.old) result (λ t is. is ≡ has_child parent.now child.now t) }
    ensures child { IfOk result (λ is. IsTrue is → IsTrue (is_child parent.now child.now)) }
    ensures unchanged { S.unchanged seq.old seq.new }
    ensures reads { S.reads seq.new ≤ S.reads seq.old + 1 }
    ensures cause { HasCause SeqError.DiskFault (S.count seq.old) (S.count seq.new) result }
{
    let _divisions = child.divisions();
    let Some(above) = child.parent(alloc)? else {
        return Ok(false);
    };
    if above == *parent {
        Ok(record_at(alloc, child, seq)?.is_some())
    } else {
        Ok(false)
    }
}

/// Whether the parent is a document that doesn't take the fragment behind its last child: it takes one element alone.
pub(crate) fn takes_none(parent: &Record, fragment: &Fragment, last: &Option<Label>) -> bool
    ensures { result ≡ takes_none parent.now (plain fragment.now) last.now }
{
    is_document(parent) && (fragment.is_text() || last.is_some())
}
