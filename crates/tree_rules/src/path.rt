// The nodes on the way from the root down to a record, and what may stand below them.
ghost use Rattle.std.specs.Prelude.{◌≡◌, Some, true, OnOk};
ghost use Rattle.dewey_labels.specs.Labels.{Label, is_ancestor};
ghost use Rattle.tree_model.specs.ValidTrees.{same_label};
ghost use Rattle.tree_rules.specs.declared.path.Room.{Room};
ghost use Rattle.tree_rules.specs.inside.Paths.{HasGone, ends_beside, holds_nodes, may_enter, room_at, room_of};

use dewey_labels::{Label, NoMemory};
use std::alloc::Global;
use tree_model::Record;

/// What may stand below a node.
#[derive(Clone, Copy, Debug, Drop)]
pub(crate) enum Room {
    /// One element: below a document.
    OneElement,
    /// Elements and texts: below an element.
    Nodes,
    Nothing,
}

/// A node, and what may stand below it.
#[derive(Debug, Drop)]
pub(crate) struct Step {
    pub label: Label,
    pub room: Room,
}

/// What may stand below a node with this record.
fn room_of(value: &Record) -> Room
    ensures { result ≡ room_of value.now }
{
    match value {
        Record::Document => Room::OneElement,
        Record::Element(_) => Room::Nodes,
        _ => Room::Nothing,
    }
}

/// Whether a node with this record may stand below another; `taken` says whether there is anything below that one already.
pub(crate) fn may_enter(room: Option<Room>, value: &Record, taken: bool) -> bool
    ensures { result ≡ may_enter room value.now taken }
{
    match (room, value) {
        (Some(Room::OneElement), Record::Element(_)) => !taken,
        (Some(Room::Nodes), Record::Element(_) | Record::Text(_)) => true,
        _ => false,
    }
}

/// Whether it is what may stand below an element.
pub(crate) fn holds_nodes(room: Option<Room>) -> bool
    ensures { result ≡ holds_nodes room }
{
    matches!(room, Some(Room::Nodes))
}

/// What may stand below the node with this label, if it is on the path.
pub(crate) fn room_at(path: &[Step], label: &Label) -> Option<Room>
    ensures { result ≡ room_at label.now path.now }
{
    let mut rest = path;
    while let Some((step, behind)) = rest.split_first() {
        if is_same(label, &step.label) {
            return Some(step.room);
        }
        rest = behind;
    }
    None
}

fn is_same(label: &Label, other: &Label) -> bool
    ensures { result ≡ same_label label.now other.now }
{
    label.cmp(other).is_eq()
}

/// Takes the nodes off the path's end that don't stand above this label, and puts this one there.
pub(crate) fn go_to(
    alloc: Global,
    path: &mut Vec<Step>,
    label: &Label,
    value: &Record,
) -> Result<(), NoMemory>
    ensures { OnOk result (HasGone label.now (room_of value.now) path.old.items path.new.items) }
{
    go_up(path, label);
    let step = Step {
        label: label.copy(alloc)?,
        room: room_of(value),
    };
    path.push(step)?;
    Ok(())
}

/// Takes the nodes off the path's end that don't stand above this label.
fn go_up(path: &mut Vec<Step>, label: &Label)
    ensures above { (p : Label) → is_ancestor p label.now ≡ true → room_at p path.new.items ≡ room_at p path.old.items }
    ensures fewer { (p : Label) (room : Room) → room_at p path.new.items ≡ Some room → room_at p path.old.items ≡ Some room }
{
    while ends_beside(path, label) {
        path.truncate(path.len() - 1);
    }
}

/// Whether the path ends at a node that doesn't stand above this label.
fn ends_beside(path: &[Step], label: &Label) -> bool
    ensures { result ≡ ends_beside label.now path.now }
{
    match path.last() {
        Some(step) => !step.label.is_ancestor_of(label),
        None => false,
    }
}
