//! The laws of the calls, each the contract of a function that does nothing: which requests they ask for, and what serial runs of them are.

ghost use Rattle.std.specs.Prelude.{◌≡◌, List};
ghost use Rattle.tree_cells.specs.Forms.{AreRows};
ghost use Rattle.tree_model.specs.Tree.{Tree};
ghost use Rattle.tree_model.specs.ValidTrees.{IsValidTree};
ghost use Rattle.call_contract.specs.SerialRuns.{Committed, serial};
ghost use Rattle.session_driver.specs.Asking.{BookCall};
ghost use Rattle.store_calls.specs.PlainRuns.{calls_of, plain_serial};
ghost use Rattle.store_calls.specs.StoreCalls.{IsValidStoreCall, store_meaning};

/// The requests of every valid call are rows of the table of resources, each with its intentions before it: no call asks for a mode that the table doesn't have for its resource.
#[tactic(auto, using(crate::proofs::RequestRows::store_rows))]
pub fn requests_are_rows()
    ensures { (c : BookCall) (t : Tree) → IsValidStoreCall c → IsValidTree t → AreRows (store_meaning.requests c t) }
{}

/// The serial run of committed transactions is that of their calls on a plain tree, one call after another by its definition.
#[tactic(auto, using(crate::proofs::PlainRunLaws::all_runs))]
pub fn serial_runs_are_plain()
    ensures { (ds : List (Committed BookCall)) (t : Tree) → serial store_meaning ds t ≡ plain_serial (calls_of ds) t }
{}
