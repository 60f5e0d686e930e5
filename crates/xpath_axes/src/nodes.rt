//! The looks at nodes: one, its children, and all from it down.
ghost use Rattle.std.specs.Prelude.{◌≡◌, ◌≤◌, ◌+◌, ◌∷◌, [], ◌++◌, false, length, IfOk, OnOk, None};
ghost use Rattle.std.specs.List.{filter};
ghost use Rattle.dewey_labels.specs.Labels.{parent};
ghost use Rattle.tree_model.specs.Places.{is_root};
ghost use Rattle.node_seq.specs.Trees.{OnTree};
ghost use Rattle.outside_traits.specs.Faults.{HasCause};
ghost use Rattle.path_model.specs.declared.path.Axis.TheVariants.{Child, FollowingSibling};
ghost use Rattle.path_model.specs.Positions as path;
ghost use Rattle.path_model.specs.Programs as look;
ghost use Rattle.xpath_axes.specs.Positions.{plain, all_plain};
ghost use Rattle.xpath_axes.specs.LookReads.{ReadsEach, ReadsOfLook, ReadsUpTo, up_to};
ghost use Rattle.xpath_axes.specs.Steps.{first_passing, next_passing, row_behind};
ghost use Rattle.xpath_axes.specs.inside.Walks.{OnNodesMet, ReadsOnWalk, behind_key, start_key, node_under};

use crate::Position;
use crate::position::only;
use dewey_labels::{Label, List, NoMemory};
use node_seq::{NodeRead, SeqError};
use path_model::{Axis, NodeTest};
use std::alloc::Global;
use tree_model::{Key, Record};

/// The node with a label, if there is one. One read.
pub fn at_node<S: NodeRead>(
    alloc: Global,
    at: &Label,
    seq: &mut S,
) -> Result<List<Position>, SeqError>
    ensures seen { OnTree (S.contents seq.old) result (λ t found. all_plain found ≡ look.seen t (look.at_node at.now)) }
    ensures unchanged { S.unchanged seq.old seq.new }
    ensures reads { S.reads seq.new ≤ S.reads seq.old + 1 }
    ensures cause { HasCause SeqError.DiskFault (S.count seq.old) (S.count seq.new) result }
{
    let key = Key::of_node(alloc, at)?;
    let Some(record) = seq.get(alloc, &key)? else {
        return Ok(List::new(alloc));
    };
    let Key { label, .. } = key;
    Ok(only(alloc, Position::Node(label, record))?)
}

/// The children of a node; none where there is no such node. One read a child and one more, whatever lies below the children.
pub fn at_row<S: NodeRead>(
    alloc: Global,
    at: &Label,
    seq: &mut S,
) -> Result<List<Position>, SeqError>
    ensures seen { OnTree (S.contents seq.old) result (λ t found. all_plain found ≡ look.seen t (look.at_row at.now)) }
    ensures unchanged { S.unchanged seq.old seq.new }
    ensures reads { IfOk result (λ found. S.reads seq.new ≤ S.reads seq.old + (length found + 1)) }
    ensures reads_of_tree { ReadsOfLook (S.contents seq.old) (look.at_row at.now) (S.reads seq.old) (S.reads seq.new) }
    ensures cause { HasCause SeqError.DiskFault (S.count seq.old) (S.count seq.new) result }
{
    let children = List::new(alloc);
    // The root is no node: below it lie the documents.
    if is_root(at) {
        return Ok(children);
    }
    below(alloc, at, Reach::Children, children, seq)
}

/// The first children of a node that pass a node test, as many as there is room for; none where there is no such node.
/// One read a child up to the last of them, and one more where fewer pass.
pub fn at_row_up_to<S: NodeRead>(
    alloc: Global,
    at: &Label,
    test: &NodeTest,
    room: usize,
    seq: &mut S,
) -> Result<List<Position>, SeqError>
    ensures seen { OnTree (S.contents seq.old) result (λ t found.
        all_plain found ≡ first_passing Child test.now room (look.seen t (look.at_row at.now))) }
    ensures unchanged { S.unchanged seq.old seq.new }
    ensures reads { ReadsUpTo (S.contents seq.old) Child test.now room
        (λ t. look.seen t (look.at_row at.now)) (S.reads seq.old) (S.reads seq.new) }
    ensures cause { HasCause SeqError.DiskFault (S.count seq.old) (S.count seq.new) result }
{
    // The root is no node: below it lie the documents.
    if is_root(at) {
        return Ok(List::new(alloc));
    }
    below_up_to(alloc, at, Reach::Children, Axis::Child, test, room, seq)
}

/// Of the children of a node those on the right of one of them, `of`; none where there is no such node.
/// One read each and one more, whatever stands before them.
pub fn at_row_behind<S: NodeRead>(
    alloc: Global,
    at: &Label,
    of: &Label,
    seq: &mut S,
) -> Result<List<Position>, SeqError>
    requires { at.now ≡ parent of.now }
    ensures seen { OnTree (S.contents seq.old) result (λ t found.
        all_plain found ≡ row_behind t at.now of.now) }
    ensures unchanged { S.unchanged seq.old seq.new }
    ensures reads { ReadsEach (S.contents seq.old)
        (λ t. row_behind t at.now of.now) (S.reads seq.old) (S.reads seq.new) }
    ensures cause { HasCause SeqError.DiskFault (S.count seq.old) (S.count seq.new) result }
{
    let behind = List::new(alloc);
    // They tell that it is a label.
    let _divisions = of.divisions();
    // The root is no node: below it lie the documents.
    if is_root(at) {
        return Ok(behind);
    }
    below(alloc, at, Reach::ChildrenBehind(of), behind, seq)
}

/// Of the children of a node on the right of one of them, `of`, the first ones that pass a node test, as many as there is room for.
/// One read a child up to the last of them, and one more where fewer pass, whatever stands before them.
pub fn at_row_behind_up_to<S: NodeRead>(
    alloc: Global,
    at: &Label,
    of: &Label,
    test: &NodeTest,
    room: usize,
    seq: &mut S,
) -> Result<List<Position>, SeqError>
    requires { at.now ≡ parent of.now }
    ensures seen { OnTree (S.contents seq.old) result (λ t found.
        all_plain found ≡ next_passing of.now test.now room (look.seen t (look.at_row at.now))) }
    ensures unchanged { S.unchanged seq.old seq.new }
    ensures reads { ReadsUpTo (S.contents seq.old) FollowingSibling test.now room
        (λ t. row_behind t at.now of.now) (S.reads seq.old) (S.reads seq.new) }
    ensures cause { HasCause SeqError.DiskFault (S.count seq.old) (S.count seq.new) result }
{
    // They tell that it is a label.
    let _divisions = of.divisions();
    // The root is no node: below it lie the documents.
    if is_root(at) {
        return Ok(List::new(alloc));
    }
    let reach = Reach::ChildrenBehind(of);
    below_up_to(alloc, at, reach, Axis::FollowingSibling, test, room, seq)
}

/// A node and all that lie under it, in document order; none where there is no such node. One read a node and one more, whatever attributes they have.
pub fn at_tree<S: NodeRead>(
    alloc: Global,
    at: &Label,
    seq: &mut S,
) -> Result<List<Position>, SeqError>
    ensures seen { OnTree (S.contents seq.old) result (λ t found. all_plain found ≡ look.seen t (look.at_tree at.now)) }
    ensures unchanged { S.unchanged seq.old seq.new }
    ensures reads { IfOk result (λ found. S.reads seq.new ≤ S.reads seq.old + (length found + 1)) }
    ensures reads_of_tree { ReadsOfLook (S.contents seq.old) (look.at_tree at.now) (S.reads seq.old) (S.reads seq.new) }
    ensures cause { HasCause SeqError.DiskFault (S.count seq.old) (S.count seq.new) result }
{
    let key = Key::of_node(alloc, at)?;
    let Some(record) = seq.get(alloc, &key)? else {
        return Ok(List::new(alloc));
    };
    let Key { label, .. } = key;
    let node = only(alloc, Position::Node(label, record))?;
    below(alloc, at, Reach::Descendants, node, seq)
}

/// Which of the nodes below a node a walk meets.
#[derive(Clone, Copy, Debug)]
pub(crate) enum Reach<'a> {
    Children,
    /// The children on the right of one of them.
    ChildrenBehind(&'a Label),
    Descendants,
}

/// Puts the nodes below a node behind those before. One read a node and one more.
pub(crate) fn below<S: NodeRead>(
    alloc: Global,
    at: &Label,
    reach: Reach<'_>,
    before: List<Position>,
    seq: &mut S,
) -> Result<List<Position>, SeqError>
    ensures seen { OnTree (S.contents seq.old) result (λ t found.
        OnNodesMet reach.entry at.now t (λ met. all_plain found ≡ all_plain before ++ met)) }
    ensures unchanged { S.unchanged seq.old seq.new }
    ensures reads { IfOk result (λ found. S.reads seq.new + length before ≤ S.reads seq.old + (length found + 1)) }
    ensures reads_of_tree { ReadsOnWalk (S.contents seq.old) reach.entry at.now
        (λ met. met) (S.reads seq.old) (S.reads seq.new) }
    ensures cause { HasCause SeqError.DiskFault (S.count seq.old) (S.count seq.new) result }
{
    // They tell that it is a label, and so is each one that is found.
    let _divisions = at.divisions();
    let mut found = before;
    let key = start(alloc, at, reach)?;
    let mut next = node_under(at, seq.next_from(alloc, &key)?);
    while let Some((label, record)) = next {
        let _divisions = label.divisions();
        let key = behind(alloc, &label, reach)?;
        next = node_under(at, seq.next_from(alloc, &key)?);
        found.push(Position::Node(label, record))?;
    }
    Ok(found)
}

/// The first nodes below a node that pass the test of a step along an axis, as many as there is room for.
/// One read a node up to the last of them, and one more where fewer pass.
fn below_up_to<S: NodeRead>(
    alloc: Global,
    at: &Label,
    reach: Reach<'_>,
    axis: Axis,
    test: &NodeTest,
    room: usize,
    seq: &mut S,
) -> Result<List<Position>, SeqError>
    ensures seen { OnTree (S.contents seq.old) result (λ t found.
        OnNodesMet reach.entry at.now t (λ met.
        all_plain found ≡ first_passing axis test.now room met)) }
    ensures unchanged { S.unchanged seq.old seq.new }
    ensures reads { ReadsOnWalk (S.contents seq.old) reach.entry at.now
        (λ met. up_to (path.passes axis test.now) room met) (S.reads seq.old) (S.reads seq.new) }
    ensures cause { HasCause SeqError.DiskFault (S.count seq.old) (S.count seq.new) result }
{
    let mut found = List::new(alloc);
    if room == 0 {
        return Ok(found);
    }
    // They tell that it is a label, and so is each one that is found.
    let _divisions = at.divisions();
    let key = start(alloc, at, reach)?;
    let mut next = node_under(at, seq.next_from(alloc, &key)?);
    while let Some((label, record)) = next {
        let _divisions = label.divisions();
        let key = behind(alloc, &label, reach)?;
        put_passing(&mut found, Position::Node(label, record), axis, test)?;
        if found.len() == room {
            return Ok(found);
        }
        next = node_under(at, seq.next_from(alloc, &key)?);
    }
    Ok(found)
}

/// Puts a node at the end where it passes the test of a step along an axis.
fn put_passing(
    found: &mut List<Position>,
    node: Position,
    axis: Axis,
    test: &NodeTest,
) -> Result<(), NoMemory>
    ensures { OnOk result (all_plain found.new ≡ all_plain found.old ++ filter (path.passes axis test.now) (plain node ∷ [])) }
{
    if node.passes(axis, test) {
        found.push(node)?;
    }
    Ok(())
}

/// The key to seek the first node from: behind the attributes of the node above, or behind the tree of a child.
fn start(alloc: Global, at: &Label, reach: Reach<'_>) -> Result<Key, NoMemory>
    ensures { IfOk result (λ key. key ≡ start_key reach.entry at.now) }
{
    match reach {
        Reach::ChildrenBehind(of) => Key::behind_tree(alloc, of),
        Reach::Children | Reach::Descendants => Key::behind_attributes(alloc, at),
    }
}

/// The key to seek from behind a node: behind its attributes, or behind its tree.
fn behind(alloc: Global, at: &Label, reach: Reach<'_>) -> Result<Key, NoMemory>
    ensures { IfOk result (λ key. key ≡ behind_key reach.entry at.now) }
{
    match reach {
        Reach::Children | Reach::ChildrenBehind(_) => Key::behind_tree(alloc, at),
        Reach::Descendants => Key::behind_attributes(alloc, at),
    }
}

/// The label and the record of what was found, if it is a node's own entry and lies under `at`.
fn node_under(at: &Label, found: Option<(Key, Record)>) -> Option<(Label, Record)>
    ensures { result ≡ node_under at.now found }
{
    let (key, record) = found?;
    if !at.is_ancestor_of(&key.label) || !key.name.as_str().is_empty() {
        return None;
    }
    let Key { label, .. } = key;
    Some((label, record))
}

/// Whether a label is the root's, which is no node.
pub fn is_root(at: &Label) -> bool
    ensures { result ≡ is_root at.now }
{
    // It tells that only the root has one division.
    at.divisions().len() == 1
}
