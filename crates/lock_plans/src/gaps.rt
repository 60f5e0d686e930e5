//! Trees that are placed in gaps between siblings.
ghost use Rattle.std.specs.Prelude.{◌≡◌, [], ◌∷◌, None, IsTrue, IfOk, IfSome};
ghost use Rattle.std.specs.declared.cmp.Ordering.TheVariants.{Less};
ghost use Rattle.std.specs.Ordering.{nat_cmp};
ghost use Rattle.std.specs.Cmp.Lexicographic.{slice_cmp};
ghost use Rattle.dewey_labels.specs.Labels.{IsLabel, is_child};
ghost use Rattle.dewey_labels.specs.NewLabels.{new_label};
ghost use Rattle.tree_model.specs.Fragments.{plain};
ghost use Rattle.tree_model.specs.Tree.{Tree};
ghost use Rattle.lock_plans.specs.Plans.{grafted, place};
ghost use Rattle.lock_plans.specs.inside.PlanSteps.{EndsPlan};

use crate::plan::Plan;
use dewey_labels::{Label, NoMemory, child_beside};
use std::alloc::Global;
use tree_model::Fragment;

/// Asks to have a fragment stand in a gap, unless one of its labels would pass a limit.
pub fn place_fragment(
    alloc: Global,
    parent: &Label,
    left: &Option<Label>,
    right: &Option<Label>,
    fragment: &Fragment,
    plan: &mut Plan,
) -> Result<(), NoMemory>
    requires left_child { IfSome left.now (λ l. IsTrue (is_child parent.now l)) }
    requires right_child { IfSome right.now (λ r. IsTrue (is_child parent.now r)) }
    requires order { IfSome left.now (λ l. IfSome right.now (λ r. slice_cmp nat_cmp l r ≡ Less)) }
    ensures { IfOk result (λ _. (t : Tree)
        → EndsPlan plan.old (place (grafted (plain fragment.now)) (new_label parent.now left.now right.now) t ∷ []) plan.new) }
{
    let Some(new) = child_beside(alloc, parent, left, right)? else {
        return Ok(());
    };
    if !fragment.fits_at(&new) {
        return Ok(());
    }
    plan.take_tree(alloc, &new)?;
    Ok(())
}
