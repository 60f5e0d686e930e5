//! Two lists of changes laid one over the other, from the least key up.
ghost use Rattle.std.specs.Prelude.{◌≡◌, ◌≤◌, ◌+◌, [], length, vec_capacity};
ghost use Rattle.tree_model.specs.Changes.{Rising, laid};
ghost use Rattle.tree_model.specs.inside.Taking.{TakesHead, TakesOff};

use crate::Change;
use std::cmp::Ordering;
use std::collections::VecDeque;

/// The changes of both, in the order of their keys; at a key of both that of the upper ones. `out` is empty and has the room: nothing is copied,
/// each change is moved once, and no memory is taken.
pub fn lay(upper: Vec<Change>, lower: Vec<Change>, mut out: Vec<Change>) -> Vec<Change>
    requires rising { Rising upper.items × Rising lower.items }
    requires empty { out.items ≡ [] }
    requires room { length upper.items + length lower.items ≤ vec_capacity out }
    ensures { result.items ≡ laid upper.items lower.items }
{
    let mut upper = VecDeque::from_vec(upper);
    let mut lower = VecDeque::from_vec(lower);
    while let Some(change) = take_first(&mut upper, &mut lower) {
        out.push_reserved(change);
    }
    out
}

/// Takes the change of the least key off both; at a key of both the upper one, and the lower one goes.
fn take_first(upper: &mut VecDeque<Change>, lower: &mut VecDeque<Change>) -> Option<Change>
    requires rising { Rising upper.old.items × Rising lower.old.items }
    ensures first { TakesHead result (laid upper.old.items lower.old.items) (laid upper.new.items lower.new.items) }
    ensures fewer { TakesOff result (length upper.old.items + length lower.old.items) (length upper.new.items + length lower.new.items) }
    ensures rising { Rising upper.new.items × Rising lower.new.items }
{
    match (upper.front(), lower.front()) {
        (Some(over), Some(under)) => match over.key.cmp(&under.key) {
            Ordering::Less => upper.pop_front(),
            Ordering::Equal => {
                let _hidden = lower.pop_front();
                upper.pop_front()
            }
            Ordering::Greater => lower.pop_front(),
        },
        (Some(_), None) => upper.pop_front(),
        (None, _) => lower.pop_front(),
    }
}
