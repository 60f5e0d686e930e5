//! The children of nodes that lie in a tree which was seen whole: what was seen tells them, and nothing is read.
ghost use Rattle.std.specs.Prelude.{◌≡◌, ◌&&◌, ◌∷◌, [], ◌++◌, IfOk, OnOk, if◌then◌else◌};
ghost use Rattle.std.specs.List.{filter};
ghost use Rattle.dewey_labels.specs.Labels as label;
ghost use Rattle.tree_model.specs.Tree.{Tree};
ghost use Rattle.path_model.specs.declared.path.Axis.TheVariants.{Child};
ghost use Rattle.path_model.specs.AxisPrograms as program;
ghost use Rattle.path_model.specs.AxisPrograms.{shown_along};
ghost use Rattle.path_model.specs.Positions as path;
ghost use Rattle.path_model.specs.Programs.{looked};
ghost use Rattle.xpath_axes.specs.Positions.{plain, all_plain};
ghost use Rattle.xpath_axes.specs.Wholes.{OnWhole};
ghost use Rattle.xpath_axes.specs.inside.Ahead.{children_ahead};

use crate::{Look, Looks, Position};
use dewey_labels::{Label, List, NoMemory};
use path_model::{Axis, NodeTest};
use std::alloc::Global;

/// The children of a node that pass a node test, where the node and `ahead` are what was seen of a tree from some place on.
/// The look at them is noted. It goes over what lies under the node in `ahead`, and reads nothing.
pub fn row_ahead<W: Looks>(
    alloc: Global,
    test: &NodeTest,
    node: &Position,
    ahead: &[Position],
    looks: &mut W,
) -> Result<List<Position>, NoMemory>
    ensures children { OnWhole node.now ahead.now (λ t.
        IfOk result (λ found. all_plain found ≡ shown_along t Child test.now (plain node.now))) }
    ensures noted { (t : Tree) → OnOk result (W.saw t looks.old [] looks.old → W.saw t looks.old (looked t (program.children (plain node.now))) looks.new) }
{
    let Position::Node(label, _) = node else {
        return Ok(List::new(alloc));
    };
    looks.note(alloc, Look::Row(label))?;
    children_ahead(alloc, label, test, ahead)
}

/// Those of a label that pass the test; in document order all that lies under the label stands at the front.
fn children_ahead(
    alloc: Global,
    of: &Label,
    test: &NodeTest,
    ahead: &[Position],
) -> Result<List<Position>, NoMemory>
    ensures { IfOk result (λ found. all_plain found
        ≡ filter (path.passes Child test.now) (children_ahead of.now (all_plain ahead.now))) }
{
    let mut found = List::new(alloc);
    for position in ahead {
        if !of.is_ancestor_of(position.label()) {
            return Ok(found);
        }
        let is_met = is_child(of.divisions(), position.label().divisions());
        let is_kept = is_met && position.passes(Axis::Child, test);
        keep_if(alloc, &mut found, position, is_kept)?;
    }
    Ok(found)
}

/// Whether a label is that of a child of another one.
fn is_child(of: &[u32], at: &[u32]) -> bool
    ensures { result ≡ label.is_child of.now at.now }
{
    match of {
        [] => is_code(at),
        [division, others @ ..] => match at {
            [] => false,
            [first, rest @ ..] => division == first && is_child(others, rest),
        },
    }
}

/// Whether the divisions are one code.
fn is_code(divisions: &[u32]) -> bool
    ensures { result ≡ label.is_code divisions.now }
{
    match divisions {
        [] => false,
        [division, rest @ ..] => {
            if division % 2 == 1 {
                *division >= 3 && rest.is_empty()
            } else {
                *division >= 2 && is_code(rest)
            }
        }
    }
}

/// Puts a copy of a position at the end where it is kept.
pub fn keep_if(
    alloc: Global,
    kept: &mut List<Position>,
    position: &Position,
    is_kept: bool,
) -> Result<(), NoMemory>
    ensures { OnOk result (all_plain kept.new ≡ all_plain kept.old ++ (if is_kept then plain position.now ∷ [] else [])) }
{
    if is_kept {
        kept.push(position.copy(alloc)?)?;
    }
    Ok(())
}
