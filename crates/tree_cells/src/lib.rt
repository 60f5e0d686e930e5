//! Cells of a tree, what held requests cover of them, and the form in which a transaction asks.
//! Where one covers a cell for reading and another covers it for writing, and both asked in the form, their requests clash: so two transactions that hold what they asked for never meet in a cell (`covers_conflict`).
//! All of it is definitions and their laws. What a call asks for is left to the crates above.
#![tactic(auto)]

ghost use Rattle.std.specs.Prelude.{◌≡◌, ℕ, true, ◌++◌, take, List};
ghost use Rattle.std.specs.List.{AllByRecursion};
ghost use Rattle.lock_resources.specs.declared.request.Request.{Request};
ghost use Rattle.lock_resources.specs.Resources.{Fits};
ghost use Rattle.tree_cells.specs.Cells.{Cell};
ghost use Rattle.tree_cells.specs.Covers.{reads, writes, IsCoveredBy};
ghost use Rattle.tree_cells.specs.Forms.{HasForm, AreRows};
ghost use Rattle.tree_cells.specs.Clashes.{clash, bar_each_other};

/// What requests cover: what is covered for writing is covered for reading, and further requests only add to it.
#[tactic(auto, using(crate::proofs::Coverage::written_is_read, crate::proofs::Coverage::covered_left, crate::proofs::Coverage::covered_right))]
pub fn covers_grow()
    ensures written_is_read { (gs : List Request) (x : Cell) → writes gs x ≡ true → reads gs x ≡ true }
    ensures by_what_comes { (gs hs : List Request) → IsCoveredBy gs (gs ++ hs) }
    ensures by_what_stood { (gs hs : List Request) → IsCoveredBy hs (gs ++ hs) }
{}

/// If one covers a cell for reading and another one covers it for writing, a request of the one clashes with a request of the other.
#[tactic(auto, using(crate::proofs::Conflict::conflict, crate::proofs::Symmetry::clash_both_ways))]
pub fn covers_conflict()
    ensures conflict { (gs hs : List Request) (x : Cell) → HasForm gs → HasForm hs → reads gs x ≡ true → writes hs x ≡ true → bar_each_other gs hs ≡ true }
    ensures both_ways { (gs hs : List Request) → bar_each_other gs hs ≡ bar_each_other hs gs }
{}

/// The form of a list of requests: each list of rows of the table has it, each prefix of a list that has it, and one such list behind another.
#[tactic(auto, using(crate::proofs::FormedRows::rows_formed, crate::proofs::FormedRows::form_of_prefix, crate::proofs::FormedRows::formed_append, crate::proofs::FormedRows::formed_fit))]
pub fn requests_have_form()
    ensures rows { (gs : List Request) → AreRows gs → HasForm gs }
    ensures prefix { (k : ℕ) (gs : List Request) → HasForm gs → HasForm (take k gs) }
    ensures append { (gs hs : List Request) → HasForm gs → HasForm hs → HasForm (gs ++ hs) }
    ensures fits { (gs : List Request) → HasForm gs → AllByRecursion Fits gs }
{}
