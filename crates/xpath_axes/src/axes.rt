//! The axes (XPath 1.0, section 2.2): which positions lie on one from a position, in its order.
ghost use Rattle.std.specs.Prelude.{◌≡◌, ◌∷◌, [], ◌++◌, IfOk, OnOk, reverse};
ghost use Rattle.std.specs.List.{filter};
ghost use Rattle.outside_traits.specs.Faults.{HasCause};
ghost use Rattle.path_model.specs.declared.path.Axis.TheVariants.{Child, FollowingSibling};
ghost use Rattle.path_model.specs.Positions as path;
ghost use Rattle.path_model.specs.AxisPrograms as program;
ghost use Rattle.xpath_axes.specs.Positions.{plain, all_plain};
ghost use Rattle.xpath_axes.specs.Runs.{Runs};
ghost use Rattle.xpath_axes.specs.Steps.{matches_along, step_up_to};
ghost use Rattle.xpath_axes.specs.inside.Behind.{put_behind};
ghost use Rattle.xpath_axes.specs.inside.Beside.{is_on, in_turn, labels_above, lies_on};

use crate::labels::{document_label, labels_up, lies_left, lies_right, lies_under, parent_label};
use crate::noted::{
    see_attribute, see_attributes, see_below, see_node, see_row, see_row_behind,
    see_row_behind_up_to, see_row_up_to, see_tree,
};
use crate::position::only;
use crate::{Looks, Position};
use dewey_labels::{Label, List, NoMemory};
use node_seq::{NodeRead, SeqError};
use path_model::{Axis, NodeTest};
use std::alloc::Global;
use tree_model::Record;

/// The positions on an axis that pass the node test, in the axis's order. What is looked at is that of the axis (docs/PROFILE.md, "Paths").
pub fn axis<S: NodeRead, W: Looks>(
    alloc: Global,
    axis: Axis,
    test: &NodeTest,
    from: &Position,
    seq: &mut S,
    looks: &mut W,
) -> Result<List<Position>, SeqError>
    ensures run { Runs S.reads W.saw S.contents
        (matches_along axis test.now (plain from.now)) all_plain
        seq.old looks.old result seq.new looks.new }
    ensures unchanged { S.unchanged seq.old seq.new }
    ensures cause { HasCause SeqError.DiskFault (S.count seq.old) (S.count seq.new) result }
{
    let found = along(alloc, axis, test, from, seq, looks)?;
    Ok(passing(alloc, axis, test, found)?)
}

/// The first positions on an axis that pass the node test, as many as there is room for, in the axis's order. What is looked at is that of the axis;
/// of children, and of the siblings that follow, no more are read than up to the last of them, and one.
pub fn axis_up_to<S: NodeRead, W: Looks>(
    alloc: Global,
    of: Axis,
    test: &NodeTest,
    room: usize,
    from: &Position,
    seq: &mut S,
    looks: &mut W,
) -> Result<List<Position>, SeqError>
    ensures run { Runs S.reads W.saw S.contents
        (step_up_to of test.now room (plain from.now)) all_plain
        seq.old looks.old result seq.new looks.new }
    ensures unchanged { S.unchanged seq.old seq.new }
    ensures cause { HasCause SeqError.DiskFault (S.count seq.old) (S.count seq.new) result }
{
    match of {
        Axis::Child => children_up_to(alloc, test, room, from, seq, looks),
        Axis::FollowingSibling => next_siblings_up_to(alloc, test, room, from, seq, looks),
        _ => {
            let mut found = axis(alloc, of, test, from, seq, looks)?;
            found.truncate(room);
            Ok(found)
        }
    }
}

/// The first children that pass a node test.
fn children_up_to<S: NodeRead, W: Looks>(
    alloc: Global,
    test: &NodeTest,
    room: usize,
    from: &Position,
    seq: &mut S,
    looks: &mut W,
) -> Result<List<Position>, SeqError>
    ensures run { Runs S.reads W.saw S.contents
        (step_up_to Child test.now room (plain from.now)) all_plain
        seq.old looks.old result seq.new looks.new }
    ensures unchanged { S.unchanged seq.old seq.new }
    ensures cause { HasCause SeqError.DiskFault (S.count seq.old) (S.count seq.new) result }
{
    match from {
        Position::Node(label, _) => see_row_up_to(alloc, label, test, room, seq, looks),
        Position::Attribute(..) => Ok(List::new(alloc)),
    }
}

/// The first siblings on the right that pass a node test. A document has none, nor has an attribute.
fn next_siblings_up_to<S: NodeRead, W: Looks>(
    alloc: Global,
    test: &NodeTest,
    room: usize,
    from: &Position,
    seq: &mut S,
    looks: &mut W,
) -> Result<List<Position>, SeqError>
    ensures run { Runs S.reads W.saw S.contents
        (step_up_to FollowingSibling test.now room (plain from.now)) all_plain
        seq.old looks.old result seq.new looks.new }
    ensures unchanged { S.unchanged seq.old seq.new }
    ensures cause { HasCause SeqError.DiskFault (S.count seq.old) (S.count seq.new) result }
{
    if from.is_document() || !from.is_node() {
        return Ok(List::new(alloc));
    }
    let of = from.label();
    let parent = parent_label(alloc, of)?;
    see_row_behind_up_to(alloc, &parent, of, test, room, seq, looks)
}

/// The positions that pass the test of a step along an axis.
fn passing(
    alloc: Global,
    axis: Axis,
    test: &NodeTest,
    found: List<Position>,
) -> Result<List<Position>, NoMemory>
    ensures { IfOk result (λ kept. all_plain kept ≡ filter (path.passes axis test.now) (all_plain found)) }
{
    let mut kept = List::new(alloc);
    for position in found.into_vec() {
        if position.passes(axis, test) {
            kept.push(position)?;
        }
    }
    Ok(kept)
}

/// The positions on an axis, in its order; of the attributes with a name at least these.
fn along<S: NodeRead, W: Looks>(
    alloc: Global,
    axis: Axis,
    test: &NodeTest,
    from: &Position,
    seq: &mut S,
    looks: &mut W,
) -> Result<List<Position>, SeqError>
    ensures run { Runs S.reads W.saw S.contents (program.along axis test.now (plain from.now)) all_plain seq.old looks.old result seq.new looks.new }
    ensures unchanged { S.unchanged seq.old seq.new }
    ensures cause { HasCause SeqError.DiskFault (S.count seq.old) (S.count seq.new) result }
{
    match axis {
        Axis::Child => children(alloc, from, seq, looks),
        Axis::Descendant => descendants(alloc, from, List::new(alloc), seq, looks),
        Axis::Parent => parent_node(alloc, from, seq, looks),
        Axis::Ancestor => ancestors(alloc, from, List::new(alloc), seq, looks),
        Axis::FollowingSibling => next_siblings(alloc, from, seq, looks),
        Axis::PrecedingSibling => previous_siblings(alloc, from, seq, looks),
        Axis::Following => following(alloc, from, seq, looks),
        Axis::Preceding => preceding(alloc, from, seq, looks),
        Axis::Attribute => attributes(alloc, from, test, seq, looks),
        Axis::SelfNode => Ok(itself(alloc, from)?),
        Axis::DescendantOrSelf => descendants(alloc, from, itself(alloc, from)?, seq, looks),
        Axis::AncestorOrSelf => ancestors(alloc, from, itself(alloc, from)?, seq, looks),
    }
}

/// The list of the position itself.
fn itself(alloc: Global, from: &Position) -> Result<List<Position>, NoMemory>
    ensures { IfOk result (λ found. all_plain found ≡ plain from.now ∷ []) }
{
    only(alloc, from.copy(alloc)?)
}

fn children<S: NodeRead, W: Looks>(
    alloc: Global,
    from: &Position,
    seq: &mut S,
    looks: &mut W,
) -> Result<List<Position>, SeqError>
    ensures run { Runs S.reads W.saw S.contents (program.children (plain from.now)) all_plain seq.old looks.old result seq.new looks.new }
    ensures unchanged { S.unchanged seq.old seq.new }
    ensures cause { HasCause SeqError.DiskFault (S.count seq.old) (S.count seq.new) result }
{
    match from {
        Position::Node(label, _) => see_row(alloc, label, seq, looks),
        Position::Attribute(..) => Ok(List::new(alloc)),
    }
}

/// Puts the descendants behind what stands before them.
fn descendants<S: NodeRead, W: Looks>(
    alloc: Global,
    from: &Position,
    before: List<Position>,
    seq: &mut S,
    looks: &mut W,
) -> Result<List<Position>, SeqError>
    ensures run { Runs S.reads W.saw S.contents
        (put_behind before (program.descendants (plain from.now))) all_plain
        seq.old looks.old result seq.new looks.new }
    ensures unchanged { S.unchanged seq.old seq.new }
    ensures cause { HasCause SeqError.DiskFault (S.count seq.old) (S.count seq.new) result }
{
    match from {
        Position::Node(label, _) => see_below(alloc, label, before, seq, looks),
        Position::Attribute(..) => Ok(before),
    }
}

/// A document has none.
fn parent_node<S: NodeRead, W: Looks>(
    alloc: Global,
    from: &Position,
    seq: &mut S,
    looks: &mut W,
) -> Result<List<Position>, SeqError>
    ensures run { Runs S.reads W.saw S.contents (program.parent_node (plain from.now)) all_plain seq.old looks.old result seq.new looks.new }
    ensures unchanged { S.unchanged seq.old seq.new }
    ensures cause { HasCause SeqError.DiskFault (S.count seq.old) (S.count seq.new) result }
{
    if from.is_document() {
        return Ok(List::new(alloc));
    }
    match from {
        Position::Node(label, _) => {
            let parent = parent_label(alloc, label)?;
            see_node(alloc, &parent, seq, looks)
        }
        Position::Attribute(label, ..) => see_node(alloc, label, seq, looks),
    }
}

/// Puts the ancestors, from the parent up to the document, behind what stands before them.
fn ancestors<S: NodeRead, W: Looks>(
    alloc: Global,
    from: &Position,
    before: List<Position>,
    seq: &mut S,
    looks: &mut W,
) -> Result<List<Position>, SeqError>
    ensures run { Runs S.reads W.saw S.contents
        (put_behind before (program.ancestor_nodes (plain from.now))) all_plain
        seq.old looks.old result seq.new looks.new }
    ensures unchanged { S.unchanged seq.old seq.new }
    ensures cause { HasCause SeqError.DiskFault (S.count seq.old) (S.count seq.new) result }
{
    let labels = labels_over(alloc, from)?;
    nodes_at(alloc, labels.as_slice(), before, seq, looks)
}

/// The labels of a position's ancestors, from the parent up to the document.
fn labels_over(alloc: Global, from: &Position) -> Result<List<Label>, NoMemory>
    ensures { IfOk result (λ labels. labels ≡ labels_above (plain from.now)) }
{
    match from {
        Position::Node(label, _) => labels_up(alloc, label, List::new(alloc)),
        Position::Attribute(label, ..) => {
            let mut element = List::new(alloc);
            element.push(label.copy(alloc)?)?;
            labels_up(alloc, label, element)
        }
    }
}

/// Puts the nodes with these labels behind what stands before them.
fn nodes_at<S: NodeRead, W: Looks>(
    alloc: Global,
    labels: &[Label],
    before: List<Position>,
    seq: &mut S,
    looks: &mut W,
) -> Result<List<Position>, SeqError>
    ensures run { Runs S.reads W.saw S.contents
        (put_behind before (program.nodes_at labels.now)) all_plain
        seq.old looks.old result seq.new looks.new }
    ensures unchanged { S.unchanged seq.old seq.new }
    ensures cause { HasCause SeqError.DiskFault (S.count seq.old) (S.count seq.new) result }
{
    let mut found = before;
    for label in labels {
        let node = see_node(alloc, label, seq, looks)?;
        put_behind(&mut found, node)?;
    }
    Ok(found)
}

/// Puts positions behind others.
pub fn put_behind(found: &mut List<Position>, more: List<Position>) -> Result<(), NoMemory>
    ensures { OnOk result (found.new ≡ found.old ++ more) }
{
    for position in more.into_vec() {
        found.push(position)?;
    }
    Ok(())
}

/// Which nodes beside another one are meant.
#[derive(Debug, Drop, Clone, Copy)]
enum Side {
    Left,
    Right,
    UnderOrRight,
}

/// The siblings on the right. A document has none, nor has an attribute. Those on the left aren't read.
fn next_siblings<S: NodeRead, W: Looks>(
    alloc: Global,
    from: &Position,
    seq: &mut S,
    looks: &mut W,
) -> Result<List<Position>, SeqError>
    ensures run { Runs S.reads W.saw S.contents
        (program.following_siblings (plain from.now)) all_plain
        seq.old looks.old result seq.new looks.new }
    ensures unchanged { S.unchanged seq.old seq.new }
    ensures cause { HasCause SeqError.DiskFault (S.count seq.old) (S.count seq.new) result }
{
    if from.is_document() || !from.is_node() {
        return Ok(List::new(alloc));
    }
    let of = from.label();
    let parent = parent_label(alloc, of)?;
    see_row_behind(alloc, &parent, of, seq, looks)
}

/// The siblings on the left, from the nearest one on. A document has none, nor has an attribute.
fn previous_siblings<S: NodeRead, W: Looks>(
    alloc: Global,
    from: &Position,
    seq: &mut S,
    looks: &mut W,
) -> Result<List<Position>, SeqError>
    ensures run { Runs S.reads W.saw S.contents
        (program.preceding_siblings (plain from.now)) all_plain
        seq.old looks.old result seq.new looks.new }
    ensures unchanged { S.unchanged seq.old seq.new }
    ensures cause { HasCause SeqError.DiskFault (S.count seq.old) (S.count seq.new) result }
{
    if from.is_document() || !from.is_node() {
        return Ok(List::new(alloc));
    }
    let parent = parent_label(alloc, from.label())?;
    let row = see_row(alloc, &parent, seq, looks)?;
    Ok(turned(alloc, Side::Left, from.label(), row)?)
}

fn following<S: NodeRead, W: Looks>(
    alloc: Global,
    from: &Position,
    seq: &mut S,
    looks: &mut W,
) -> Result<List<Position>, SeqError>
    ensures run { Runs S.reads W.saw S.contents (program.following_nodes (plain from.now)) all_plain seq.old looks.old result seq.new looks.new }
    ensures unchanged { S.unchanged seq.old seq.new }
    ensures cause { HasCause SeqError.DiskFault (S.count seq.old) (S.count seq.new) result }
{
    let document = document_label(alloc, from.label())?;
    let all = see_tree(alloc, &document, seq, looks)?;
    let side = if from.is_node() {
        Side::Right
    } else {
        Side::UnderOrRight
    };
    Ok(turned(alloc, side, from.label(), all)?)
}

fn preceding<S: NodeRead, W: Looks>(
    alloc: Global,
    from: &Position,
    seq: &mut S,
    looks: &mut W,
) -> Result<List<Position>, SeqError>
    ensures run { Runs S.reads W.saw S.contents (program.preceding_nodes (plain from.now)) all_plain seq.old looks.old result seq.new looks.new }
    ensures unchanged { S.unchanged seq.old seq.new }
    ensures cause { HasCause SeqError.DiskFault (S.count seq.old) (S.count seq.new) result }
{
    let document = document_label(alloc, from.label())?;
    let all = see_tree(alloc, &document, seq, looks)?;
    Ok(turned(alloc, Side::Left, from.label(), all)?)
}

/// Those on one side of a label, of positions in document order; those on the left from the nearest one on.
fn turned(
    alloc: Global,
    side: Side,
    of: &Label,
    found: List<Position>,
) -> Result<List<Position>, NoMemory>
    ensures { IfOk result (λ kept. all_plain kept ≡ in_turn side of.now (all_plain found)) }
{
    let kept = on_side(alloc, side, of, found)?;
    Ok(match side {
        Side::Left => reversed(kept),
        Side::Right | Side::UnderOrRight => kept,
    })
}

fn reversed(positions: List<Position>) -> List<Position>
    ensures { all_plain result ≡ reverse (all_plain positions) }
{
    let mut turned = positions.into_vec();
    turned.reverse();
    List::from_vec(turned)
}

/// Those on one side of a label.
fn on_side(
    alloc: Global,
    side: Side,
    of: &Label,
    found: List<Position>,
) -> Result<List<Position>, NoMemory>
    ensures { IfOk result (λ kept. all_plain kept ≡ filter (is_on side of.now) (all_plain found)) }
{
    let mut kept = List::new(alloc);
    for position in found.into_vec() {
        if is_beside(side, of, position.label()) {
            kept.push(position)?;
        }
    }
    Ok(kept)
}

fn is_beside(side: Side, of: &Label, at: &Label) -> bool
    ensures { result ≡ lies_on side of.now at.now }
{
    match side {
        Side::Left => lies_left(of, at),
        Side::Right => lies_right(of, at),
        Side::UnderOrRight => lies_under(of, at) || lies_right(of, at),
    }
}

/// Elements alone have attributes. With a name one is looked for, otherwise all.
fn attributes<S: NodeRead, W: Looks>(
    alloc: Global,
    from: &Position,
    test: &NodeTest,
    seq: &mut S,
    looks: &mut W,
) -> Result<List<Position>, SeqError>
    ensures run { Runs S.reads W.saw S.contents (program.attributes test.now (plain from.now)) all_plain seq.old looks.old result seq.new looks.new }
    ensures unchanged { S.unchanged seq.old seq.new }
    ensures cause { HasCause SeqError.DiskFault (S.count seq.old) (S.count seq.new) result }
{
    let Position::Node(label, Record::Element(_)) = from else {
        return Ok(List::new(alloc));
    };
    match test {
        NodeTest::Name(name) => see_attribute(alloc, label, name, seq, looks),
        _ => see_attributes(alloc, label, seq, looks),
    }
}
