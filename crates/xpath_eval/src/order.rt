//! Document order.
ghost use Rattle.std.specs.Prelude.{◌≡◌, ◌∷◌, [], IsTrue, IfOk};
ghost use Rattle.tree_model.specs.Keys.{key_cmp};
ghost use Rattle.path_model.specs.Evaluation.{in_order};
ghost use Rattle.path_model.specs.Positions.{key_of};
ghost use Rattle.path_model.specs.Sets.{Rises};
ghost use Rattle.xpath_axes.specs.Positions.{plain, all_plain};
ghost use Rattle.xpath_eval.specs.inside.Orders.{thinned, is_double};

use dewey_labels::{List, NoMemory};
use std::alloc::Global;
use std::cmp::Ordering;
use xpath_axes::Position;

/// The positions as a set in document order. Where they rise already nothing is moved, after a comparison each.
/// Else they are sorted by their keys: the standard library's stable sort takes the rows as they rise or fall and merges them,
/// so r rows of n positions cost some n log r comparisons; one pass then drops doubles.
pub(crate) fn in_document_order(
    alloc: Global,
    found: List<Position>,
) -> Result<List<Position>, NoMemory>
    ensures { IfOk result (λ ordered. all_plain ordered ≡ in_order (all_plain found)) }
{
    if rise(found.as_slice()) {
        return Ok(found);
    }
    let mut positions = found.into_vec();
    positions.sort_by(|one, other| by_key(one, other))?;
    without_doubles(alloc, List::from_vec(positions))
}

/// Of sorted positions the last of those with one key.
fn without_doubles(alloc: Global, sorted: List<Position>) -> Result<List<Position>, NoMemory>
    ensures { IfOk result (λ kept. all_plain kept ≡ thinned (all_plain sorted)) }
{
    let mut left = sorted;
    let mut kept = List::new(alloc);
    while let Some(position) = left.pop() {
        if !is_double(kept.as_slice(), &position) {
            kept.push(position)?;
        }
    }
    let mut kept = kept.into_vec();
    kept.reverse();
    Ok(List::from_vec(kept))
}

/// Whether the last of those that are kept has the key of a position.
fn is_double(kept: &[Position], position: &Position) -> bool
    ensures { result ≡ is_double (all_plain kept.now) (plain position.now) }
{
    match kept {
        [.., last] => by_key(position, last) == Ordering::Equal,
        [] => false,
    }
}

/// Whether each position lies below the next.
fn rise(positions: &[Position]) -> bool
    ensures { IsTrue result → Rises (all_plain positions.now) }
{
    let [first, rest @ ..] = positions else {
        return true;
    };
    let mut last = first;
    for position in rest {
        match by_key(last, position) {
            Ordering::Less => last = position,
            _ => return false,
        }
    }
    true
}

/// The order of their keys: by label, then by name.
fn by_key(one: &Position, other: &Position) -> Ordering
    ensures { result ≡ key_cmp (key_of (plain one.now)) (key_of (plain other.now)) }
{
    match one.label().cmp(other.label()) {
        Ordering::Equal => one.key_name().cmp(other.key_name()),
        order => order,
    }
}
