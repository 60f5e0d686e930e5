//! The looks at a map, each noted before it is made.
ghost use Rattle.std.specs.Prelude.{◌≡◌, drop};
ghost use Rattle.std.specs.List.{filter};
ghost use Rattle.dewey_labels.specs.Labels.{parent};
ghost use Rattle.outside_traits.specs.Faults.{HasCause};
ghost use Rattle.path_model.specs.declared.path.Axis.TheVariants.{Child};
ghost use Rattle.path_model.specs.AxisPrograms.{on_right};
ghost use Rattle.path_model.specs.Programs.{at_attribute, at_attributes, at_node, at_row, at_tree, by_look, ends, looks as then_looks};
ghost use Rattle.xpath_axes.specs.Positions.{all_plain};
ghost use Rattle.xpath_axes.specs.Runs.{Runs};
ghost use Rattle.xpath_axes.specs.Steps.{first_passing, next_passing};
ghost use Rattle.xpath_axes.specs.inside.Behind.{put_behind};

use crate::nodes::{Reach, below, is_root};
use crate::{
    Look, Looks, Position, at_attribute, at_attributes, at_node, at_row, at_row_behind,
    at_row_behind_up_to, at_row_up_to, at_tree,
};
use dewey_labels::{Label, List, Text};
use node_seq::{NodeRead, SeqError};
use path_model::NodeTest;
use std::alloc::Global;

/// The node with a label, if there is one. One read.
pub fn see_node<S: NodeRead, W: Looks>(
    alloc: Global,
    at: &Label,
    seq: &mut S,
    looks: &mut W,
) -> Result<List<Position>, SeqError>
    ensures run { Runs S.reads W.saw S.contents (then_looks (at_node at.now) ends) all_plain
        seq.old looks.old result seq.new looks.new }
    ensures unchanged { S.unchanged seq.old seq.new }
    ensures cause { HasCause SeqError.DiskFault (S.count seq.old) (S.count seq.new) result }
{
    looks.note(alloc, Look::Node(at))?;
    at_node(alloc, at, seq)
}

/// The children of a node. One read a child and one more.
pub fn see_row<S: NodeRead, W: Looks>(
    alloc: Global,
    at: &Label,
    seq: &mut S,
    looks: &mut W,
) -> Result<List<Position>, SeqError>
    ensures run { Runs S.reads W.saw S.contents (then_looks (at_row at.now) ends) all_plain
        seq.old looks.old result seq.new looks.new }
    ensures unchanged { S.unchanged seq.old seq.new }
    ensures cause { HasCause SeqError.DiskFault (S.count seq.old) (S.count seq.new) result }
{
    looks.note(alloc, Look::Row(at))?;
    at_row(alloc, at, seq)
}

/// The first children of a node that pass a node test, as many as there is room for. The look at all of them is noted;
/// one read a child up to the last of those, and one more where fewer pass.
pub(crate) fn see_row_up_to<S: NodeRead, W: Looks>(
    alloc: Global,
    at: &Label,
    test: &NodeTest,
    room: usize,
    seq: &mut S,
    looks: &mut W,
) -> Result<List<Position>, SeqError>
    ensures run { Runs S.reads W.saw S.contents
        (by_look (at_row at.now) (first_passing Child test.now room)) all_plain
        seq.old looks.old result seq.new looks.new }
    ensures unchanged { S.unchanged seq.old seq.new }
    ensures cause { HasCause SeqError.DiskFault (S.count seq.old) (S.count seq.new) result }
{
    looks.note(alloc, Look::Row(at))?;
    at_row_up_to(alloc, at, test, room, seq)
}

/// Of the children of a node those on the right of one of them. The look at all of them is noted; one read each and one more.
pub(crate) fn see_row_behind<S: NodeRead, W: Looks>(
    alloc: Global,
    at: &Label,
    of: &Label,
    seq: &mut S,
    looks: &mut W,
) -> Result<List<Position>, SeqError>
    requires { at.now ≡ parent of.now }
    ensures run { Runs S.reads W.saw S.contents
        (by_look (at_row at.now) (filter (on_right of.now))) all_plain
        seq.old looks.old result seq.new looks.new }
    ensures unchanged { S.unchanged seq.old seq.new }
    ensures cause { HasCause SeqError.DiskFault (S.count seq.old) (S.count seq.new) result }
{
    looks.note(alloc, Look::Row(at))?;
    at_row_behind(alloc, at, of, seq)
}

/// Of the children of a node on the right of one of them the first ones that pass a node test, as many as there is room for.
/// The look at all children is noted; one read a child up to the last of those, and one more where fewer pass.
pub(crate) fn see_row_behind_up_to<S: NodeRead, W: Looks>(
    alloc: Global,
    at: &Label,
    of: &Label,
    test: &NodeTest,
    room: usize,
    seq: &mut S,
    looks: &mut W,
) -> Result<List<Position>, SeqError>
    requires { at.now ≡ parent of.now }
    ensures run { Runs S.reads W.saw S.contents
        (by_look (at_row at.now) (next_passing of.now test.now room)) all_plain
        seq.old looks.old result seq.new looks.new }
    ensures unchanged { S.unchanged seq.old seq.new }
    ensures cause { HasCause SeqError.DiskFault (S.count seq.old) (S.count seq.new) result }
{
    looks.note(alloc, Look::Row(at))?;
    at_row_behind_up_to(alloc, at, of, test, room, seq)
}

/// A node and all that lie under it. One read a node and one more.
pub fn see_tree<S: NodeRead, W: Looks>(
    alloc: Global,
    at: &Label,
    seq: &mut S,
    looks: &mut W,
) -> Result<List<Position>, SeqError>
    ensures run { Runs S.reads W.saw S.contents (then_looks (at_tree at.now) ends) all_plain
        seq.old looks.old result seq.new looks.new }
    ensures unchanged { S.unchanged seq.old seq.new }
    ensures cause { HasCause SeqError.DiskFault (S.count seq.old) (S.count seq.new) result }
{
    looks.note(alloc, Look::Tree(at))?;
    at_tree(alloc, at, seq)
}

/// Puts all nodes under a node behind those before. One read a node and one more.
pub(crate) fn see_below<S: NodeRead, W: Looks>(
    alloc: Global,
    at: &Label,
    before: List<Position>,
    seq: &mut S,
    looks: &mut W,
) -> Result<List<Position>, SeqError>
    ensures run { Runs S.reads W.saw S.contents
        (put_behind before (by_look (at_tree at.now) (drop 1))) all_plain
        seq.old looks.old result seq.new looks.new }
    ensures unchanged { S.unchanged seq.old seq.new }
    ensures cause { HasCause SeqError.DiskFault (S.count seq.old) (S.count seq.new) result }
{
    looks.note(alloc, Look::Tree(at))?;
    // The root is no node: below it lie the documents.
    if is_root(at) {
        return Ok(before);
    }
    below(alloc, at, Reach::Descendants, before, seq)
}

/// All attributes of a node. One read an attribute and one more.
pub(crate) fn see_attributes<S: NodeRead, W: Looks>(
    alloc: Global,
    at: &Label,
    seq: &mut S,
    looks: &mut W,
) -> Result<List<Position>, SeqError>
    ensures run { Runs S.reads W.saw S.contents (then_looks (at_attributes at.now) ends) all_plain
        seq.old looks.old result seq.new looks.new }
    ensures unchanged { S.unchanged seq.old seq.new }
    ensures cause { HasCause SeqError.DiskFault (S.count seq.old) (S.count seq.new) result }
{
    looks.note(alloc, Look::Attributes(at))?;
    at_attributes(alloc, at, seq)
}

/// The attribute of a node with a name, if there is one. One read.
pub(crate) fn see_attribute<S: NodeRead, W: Looks>(
    alloc: Global,
    at: &Label,
    name: &Text,
    seq: &mut S,
    looks: &mut W,
) -> Result<List<Position>, SeqError>
    ensures run { Runs S.reads W.saw S.contents
        (then_looks (at_attribute at.now name.now) ends) all_plain
        seq.old looks.old result seq.new looks.new }
    ensures unchanged { S.unchanged seq.old seq.new }
    ensures cause { HasCause SeqError.DiskFault (S.count seq.old) (S.count seq.new) result }
{
    looks.note(alloc, Look::Attribute(at, name))?;
    at_attribute(alloc, at, name, seq)
}
