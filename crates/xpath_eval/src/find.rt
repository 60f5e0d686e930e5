//! The call `find` over a map: the node set that a path means from the node with a label.
ghost use Rattle.std.specs.Prelude.{◌≡◌, ◌≤◌, ◌+◌, not, map, IfOk};
ghost use Rattle.tree_model.specs.Outcomes.{is_refused, not_found_err};
ghost use Rattle.tree_model.specs.declared.refusal.Refusal.TheVariants.{Dom};
ghost use Rattle.tree_model.specs.declared.reply.Reply.TheVariants.{Refused};
ghost use Rattle.tree_model.specs.Tree.{at as node_at, found};
ghost use Rattle.node_seq.specs.Trees.{OnTree};
ghost use Rattle.outside_traits.specs.Faults.{HasCause};
ghost use Rattle.path_model.specs.Finds.{find, found_at, hit_of};
ghost use Rattle.path_model.specs.PlainPaths.{plain_path};
ghost use Rattle.path_model.specs.Programs.{answer, looked};
ghost use Rattle.xpath_axes.specs.Runs.{reads_of, Runs};
ghost use Rattle.xpath_axes.specs.Positions.{plain, all_plain};
ghost use Rattle.xpath_eval.specs.inside.Steps.{from_path};

use crate::expressions::{begun, taken};
use crate::memo::Memo;
use crate::one_walk::in_one_walk;
use dewey_labels::{Label, List, NoMemory};
use node_seq::{NodeRead, SeqError};
use path_model::{XPath, find_answers_a_set_or_not_found};
use std::alloc::Global;
use tree_model::{Hit, Refusal, Reply};
use xpath_axes::{Looks, NoLooks, Notes, Position, see_node};

/// The node set that a path means from the node with a label, in document order, or `NOT_FOUND_ERR` where there is no such node.
/// Each look is noted, in the order of the evaluation (docs/PROFILE.md, "Paths"); the notes come back with the answer.
pub fn answer_find<S: NodeRead, W: Notes + Drop>(
    alloc: Global,
    path: &XPath,
    at: &Label,
    seq: &mut S,
    looks: W,
) -> Result<(Reply, W), SeqError>
    ensures reply { OnTree (S.contents seq.old) result (λ t found. found.0 ≡ answer t (find at.now (plain_path path.now))) }
    ensures looked { OnTree (S.contents seq.old) result (λ t found. W.saw looks (looked t (find at.now (plain_path path.now))) found.1) }
    ensures reads { OnTree (S.contents seq.old) result (λ t _. S.reads seq.new ≤ S.reads seq.old + reads_of t (looked t (find at.now (plain_path path.now)))) }
    ensures unchanged { S.unchanged seq.old seq.new }
    ensures cause { HasCause SeqError.DiskFault (S.count seq.old) (S.count seq.new) result }
{
    let mut memo = Memo::new(alloc, path, looks)?;
    let reply = find_at(alloc, path, at, seq, &mut memo)?;
    Ok((reply, memo.into_notes()))
}

/// The node set that a path means from the node with a label, in document order; refused exactly where there is no such node. It keeps no look.
pub fn evaluate<S: NodeRead>(
    alloc: Global,
    path: &XPath,
    at: &Label,
    seq: &mut S,
) -> Result<Reply, SeqError>
    ensures reply { OnTree (S.contents seq.old) result (λ t reply. reply ≡ found_at at.now (plain_path path.now) t) }
    ensures refused { OnTree (S.contents seq.old) result (λ t reply. is_refused reply ≡ not (found (node_at at.now t.documents))) }
    ensures reads { OnTree (S.contents seq.old) result (λ t _. S.reads seq.new ≤ S.reads seq.old + reads_of t (looked t (find at.now (plain_path path.now)))) }
    ensures unchanged { S.unchanged seq.old seq.new }
    ensures cause { HasCause SeqError.DiskFault (S.count seq.old) (S.count seq.new) result }
{
    // It tells that the program answers the set that the path means.
    find_answers_a_set_or_not_found();
    let walk = in_one_walk(alloc, path)?;
    let found = answer_find(alloc, &walk, at, seq, NoLooks)?;
    Ok(found.0)
}

/// The node is looked at first, and the path is evaluated from it where one was seen.
fn find_at<S: NodeRead, W: Looks>(
    alloc: Global,
    path: &XPath,
    at: &Label,
    seq: &mut S,
    looks: &mut W,
) -> Result<Reply, SeqError>
    ensures run { Runs S.reads W.saw S.contents (find at.now (plain_path path.now)) (λ reply. reply) seq.old looks.old result seq.new looks.new }
    ensures unchanged { S.unchanged seq.old seq.new }
    ensures cause { HasCause SeqError.DiskFault (S.count seq.old) (S.count seq.new) result }
{
    let node = see_node(alloc, at, seq, looks)?;
    let [from, ..] = node.as_slice() else {
        return Ok(not_found());
    };
    let found = path_from(alloc, path, from, seq, looks)?;
    Ok(Reply::Found(hits(alloc, found.as_slice())?))
}

/// A path from a position.
fn path_from<S: NodeRead, W: Looks>(
    alloc: Global,
    path: &XPath,
    from: &Position,
    seq: &mut S,
    looks: &mut W,
) -> Result<List<Position>, SeqError>
    ensures run { Runs S.reads W.saw S.contents (from_path (plain_path path.now) (plain from.now)) all_plain seq.old looks.old result seq.new looks.new }
    ensures unchanged { S.unchanged seq.old seq.new }
    ensures cause { HasCause SeqError.DiskFault (S.count seq.old) (S.count seq.new) result }
{
    let start = begun(alloc, path.absolute, from, seq, looks)?;
    taken(alloc, path.steps.as_slice(), start, seq, looks)
}

/// There is no such node.
fn not_found() -> Reply
    ensures { result ≡ Refused (Dom not_found_err) }
{
    Reply::Refused(Refusal::Dom(8))
}

/// The positions as they are answered: a node by its label, an attribute by that of its element and its name.
fn hits(alloc: Global, positions: &[Position]) -> Result<List<Hit>, NoMemory>
    ensures { IfOk result (λ hits. hits ≡ map hit_of (all_plain positions.now)) }
{
    let mut hits = List::new(alloc);
    for position in positions {
        hits.push(hit_of(alloc, position)?)?;
    }
    Ok(hits)
}

fn hit_of(alloc: Global, position: &Position) -> Result<Hit, NoMemory>
    ensures { IfOk result (λ hit. hit ≡ hit_of (plain position.now)) }
{
    Ok(match position {
        Position::Node(label, _) => Hit {
            label: label.copy(alloc)?,
            attr: None,
        },
        Position::Attribute(label, name, _) => Hit {
            label: label.copy(alloc)?,
            attr: Some(name.copy(alloc)?),
        },
    })
}
