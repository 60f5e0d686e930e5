//! What the label of a node tells of others: its parent, its ancestors, its document, and on which side another node lies.
ghost use Rattle.std.specs.Prelude.{◌≡◌, ◌++◌, IfOk};
ghost use Rattle.dewey_labels.specs.Labels.{parent};
ghost use Rattle.dewey_labels.specs.Sides.{side, is_under, is_right};
ghost use Rattle.path_model.specs.Axes.{document_of, is_left};
ghost use Rattle.path_model.specs.AxisPrograms.{ancestors_up};

use dewey_labels::{Label, List, NoMemory};
use std::alloc::Global;
use std::cmp::Ordering;

/// The label without its last code; the root's stays as it is.
pub(crate) fn parent_label(alloc: Global, at: &Label) -> Result<Label, NoMemory>
    ensures { IfOk result (λ label. label ≡ parent at.now) }
{
    match at.parent(alloc)? {
        Some(label) => Ok(label),
        None => at.copy(alloc),
    }
}

/// Puts the labels of the ancestors, from the parent up to the document, behind those before.
pub(crate) fn labels_up(
    alloc: Global,
    at: &Label,
    before: List<Label>,
) -> Result<List<Label>, NoMemory>
    ensures { IfOk result (λ labels. labels ≡ before ++ ancestors_up at.now) }
{
    // They tell that it is a label.
    let _divisions = at.divisions();
    let mut labels = before;
    let mut next = parent_label(alloc, at)?;
    for _level in 1..at.level() {
        let above = parent_label(alloc, &next)?;
        labels.push(next)?;
        next = above;
    }
    Ok(labels)
}

/// The label of the document in which a label lies.
pub fn document_label(alloc: Global, at: &Label) -> Result<Label, NoMemory>
    ensures { IfOk result (λ label. label ≡ document_of at.now) }
{
    // They tell that it is a label.
    let _divisions = at.divisions();
    let root = Label::root(alloc)?;
    match root.child_toward(alloc, at)? {
        Some(label) => Ok(label),
        None => at.copy(alloc),
    }
}

/// Whether a label lies on the right of another one, as what follows its subtree does.
pub(crate) fn lies_right(of: &Label, at: &Label) -> bool
    ensures { result ≡ is_right (side of.now at.now) }
{
    match of.cmp(at) {
        Ordering::Less => !of.is_ancestor_of(at),
        _ => false,
    }
}

/// Whether a label lies on the left of another one, as what precedes it does.
pub(crate) fn lies_left(of: &Label, at: &Label) -> bool
    ensures { result ≡ is_left (side of.now at.now) }
{
    lies_right(at, of)
}

/// Whether a label lies under another one.
pub(crate) fn lies_under(of: &Label, at: &Label) -> bool
    ensures { result ≡ is_under (side of.now at.now) }
{
    of.is_ancestor_of(at)
}
