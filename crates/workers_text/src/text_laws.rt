//! What a book shows is a text of workers, for every type of calls.
ghost use Rattle.std.specs.Prelude.{ℕ, List};
ghost use Rattle.call_contract.specs.Books.{Book};
ghost use Rattle.tree_model.specs.Tree.{Tree};
ghost use Rattle.workers_text.specs.Shown.{EachTextIs, IsShownBy};
ghost use Rattle.workers_text.specs.WorkersText.{Line, WorkersText};

use call_contract::TreeCall;

/// What a book shows may be printed by workers.
#[tactic(auto, using(crate::proofs::Shown::may_be_printed))]
pub fn a_book_that_shows_a_text_makes_it_one_of_workers<C: TreeCall>()
    ensures { (t : Tree) (n l : ℕ) (book : Book C) (lines : List (Line C))
        → EachTextIs (IsShownBy C.meaning t n l book lines) (WorkersText C.meaning t n l lines) }
{}
