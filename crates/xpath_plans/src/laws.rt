//! The laws of what paths ask for, each the contract of a function that does nothing.
ghost use Rattle.std.specs.Prelude.{◌≡◌, ◌≢◌, ℕ, suc, true, false, List};
ghost use Rattle.dewey_labels.specs.Labels.{Label, IsLabel, is_label};
ghost use Rattle.lock_resources.specs.Resources.{label_of};
ghost use Rattle.tree_cells.specs.Cells.{Cell};
ghost use Rattle.tree_cells.specs.Covers.{reads, writes};
ghost use Rattle.tree_cells.specs.Forms.{AreRows};
ghost use Rattle.tree_model.specs.Tree.{Tree};
ghost use Rattle.tree_model.specs.ValidTrees.{IsValidTree};
ghost use Rattle.call_contract.specs.Calls.{CallLaws};
ghost use Rattle.path_model.specs.declared.path.Axis.{Axis};
ghost use Rattle.path_model.specs.declared.path.Axis.TheVariants.{Attribute};
ghost use Rattle.path_model.specs.declared.path.NodeTest.{NodeTest};
ghost use Rattle.path_model.specs.Finds.{find, found_at};
ghost use Rattle.path_model.specs.Paths.{Path};
ghost use Rattle.path_model.specs.Positions.{Position};
ghost use Rattle.path_model.specs.Programs.{Look, looked, seen};
ghost use Rattle.xpath_plans.specs.Finds.{Find, IsValidFind, OnAgreement, find_meaning, find_requests, requested};
ghost use Rattle.xpath_plans.specs.LookCells.{ShowTheSame, some_look_into};
ghost use Rattle.xpath_plans.specs.LookRequests.{requests_of, resource_of, requests_on};

/// What a look shows is told by the cells that it reads alone, and the requests of looks cover each of these.
/// So a path's requests cover every cell that its evaluation reads, also where it finds nothing or drops what it looked at.
#[tactic(auto, using(crate::proofs::SeenLaws::looks_same, crate::proofs::Covered::looks_covered))]
pub fn looks_are_covered()
    ensures told { (o : Look) (t u : Tree) → IsValidTree t → IsValidTree u → is_label (label_of (resource_of o)) ≡ true → ShowTheSame o t u → seen t o
        ≡ seen u o }
    ensures covered { (os : List Look) (x : Cell) → some_look_into os x ≡ true → reads (requests_of os) x ≡ true }
    ensures of_finds { (l : Label) (p : Path) (t : Tree) (x : Cell) → some_look_into (looked t (find l p)) x ≡ true → reads (find_requests l p t) x ≡ true }
{}

/// A step asks the same whatever passes its node test: one that finds nothing asks as much as one that finds.
/// On the attribute axis a name is asked for by itself, whether the attribute is there or not.
#[tactic(auto, using(crate::proofs::StepLooks::step_asks))]
pub fn steps_ask_whatever_they_find()
    ensures { (t : Tree) (axis : Axis) (one other : NodeTest) (ns : List Position) → axis ≢ Attribute
        → requests_on t axis one ns ≡ requests_on t axis other ns }
{}

/// The requests of every path are rows of the table of requests, each with its intentions before it. Trees that agree on what they cover for reading give the same answer,
/// and trees that agree so far have the same next request. They cover no cell for writing.
pub fn paths_keep_the_laws()
    ensures rows { (l : Label) (p : Path) (t : Tree) → IsLabel l → IsValidTree t → AreRows (find_requests l p t) }
    ensures same_reply { (l : Label) (p : Path) (t u : Tree)
        → OnAgreement l (find_requests l p t) t u (found_at l p t ≡ found_at l p u) }
    ensures same_next { (l : Label) (p : Path) (t u : Tree) (k : ℕ)
        → OnAgreement l (requested k l p t) t u
        (requested (suc k) l p t ≡ requested (suc k) l p u) }
    ensures writes_nothing { (l : Label) (p : Path) (t : Tree) (x : Cell) → writes (find_requests l p t) x ≡ false }
{}

/// So `find` meets the contract of calls, whatever the path.
#[tactic(auto, using(crate::proofs::FindLaws::find_laws))]
pub fn finds_meet_the_contract()
    ensures { CallLaws Find IsValidFind find_meaning }
{}
