//! The law of the steps, as the contract of a function that does nothing.
ghost use Rattle.std.specs.Prelude.{◌≡◌};
ghost use Rattle.tree_model.specs.Tree.{Tree};
ghost use Rattle.tree_model.specs.ValidTrees.{IsValidTree};
ghost use Rattle.tree_model.specs.declared.dom_call.DomCall.{DomCall};
ghost use Rattle.tree_model.specs.DomCalls.{dom};
ghost use Rattle.lock_plans.specs.DomPlans.{run};

/// On a valid tree the steps of a call end with the call's own outcome, also where they end early.
#[tactic(auto, using(crate::proofs::Outcomes::run_outcome))]
pub fn steps_end_as_the_call_does()
    ensures { (c : DomCall) (t : Tree) → IsValidTree t → (run c t).outcome ≡ dom c t }
{}
