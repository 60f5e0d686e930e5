//! The laws, as the contract of a function that does nothing.
ghost use Rattle.std.specs.Prelude.{◌≡◌, ℕ, suc, take};
ghost use Rattle.tree_cells.specs.Forms.{AreRows, HasForm};
ghost use Rattle.tree_changes.specs.ValidCalls.{IsValidCall};
ghost use Rattle.tree_model.specs.DomCalls.{dom};
ghost use Rattle.tree_model.specs.Tree.{Tree};
ghost use Rattle.tree_model.specs.ValidTrees.{IsValidTree};
ghost use Rattle.tree_model.specs.declared.dom_call.DomCall.{DomCall};
ghost use Rattle.lock_plans.specs.DomPlans.{requests};
ghost use Rattle.call_contract.specs.Calls.{CallLaws};
ghost use Rattle.dom_laws.specs.Agreement.{HaveSameRest, HaveSameWritten, IfTheyAgree};
ghost use Rattle.dom_laws.specs.Meaning.{dom_meaning};

/// The requests of every valid call are rows of the table of requests, each with its intentions before it, and so have their form. Trees that agree on what they cover for reading give the same reply, and have afterwards
/// the same in each cell that they cover for writing; no other cell changes; and trees that agree so far have the same next request.
#[tactic(auto, using(crate::proofs::Meets::requests_rows, crate::proofs::Meets::requests_formed, crate::proofs::Meets::replies_same, crate::proofs::Meets::written_same, crate::proofs::Meets::rest_kept, crate::proofs::Meets::next_same_request))]
pub fn dom_calls_keep_the_laws()
    ensures rows { (c : DomCall) (t : Tree) → IsValidCall c → IsValidTree t → AreRows (requests c t) }
    ensures form { (c : DomCall) (t : Tree) → IsValidCall c → IsValidTree t → HasForm (requests c t) }
    ensures same_reply { (c : DomCall) (t u : Tree)
        → IfTheyAgree c t u (requests c t) ((dom c t).0 ≡ (dom c u).0) }
    ensures same_written { (c : DomCall) (t u : Tree)
        → IfTheyAgree c t u (requests c t) (HaveSameWritten (requests c t) (dom c t).1 (dom c u).1) }
    ensures keeps_rest { (c : DomCall) (t : Tree) → IsValidCall c → IsValidTree t
        → HaveSameRest (requests c t) (dom c t).1 t }
    ensures same_next { (c : DomCall) (t u : Tree) (k : ℕ)
        → IfTheyAgree c t u (take k (requests c t)) (take (suc k) (requests c t) ≡ take (suc k) (requests c u)) }
{}

/// So valid DOM calls meet the contract of calls: every legal book of such calls is serial.
#[tactic(auto, using(crate::proofs::Contract::dom_laws))]
pub fn dom_calls_meet_the_contract()
    ensures { CallLaws DomCall IsValidCall dom_meaning }
{}
