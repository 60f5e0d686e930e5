//! A worked text of two workers that read the documents of an empty store, and of which the second commits first; by computation alone.
#![tactic(auto)]

ghost use Rattle.std.specs.Prelude.{◌∷◌, ◌++◌, []};
ghost use Rattle.tree_model.specs.Tree.{empty_tree};
ghost use Rattle.workers_rows.specs.Rows.{docs_meaning, lines, order, replies};
ghost use Rattle.workers_text.specs.WorkersText.{WorkersText};

/// The workers may print these replies, and this order line.
#[tactic(auto, using(crate::proofs::TextRows::second_commits_first))]
pub fn the_second_commits_first()
    ensures { WorkersText docs_meaning empty_tree 0 100 lines (replies ++ order ∷ []) }
{}
