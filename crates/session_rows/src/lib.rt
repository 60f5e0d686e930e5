//! Worked scripts of two sessions: what each line is answered, and which book they make, by computation alone.
//! The first child is read while another session appends; two sessions close a cycle of waiting; a removed node comes back.
#![tactic(auto)]

ghost use Rattle.std.specs.Prelude.{◌≡◌};
ghost use Rattle.call_contract.specs.States.{start};
ghost use Rattle.call_rows.specs.Rows.{row_meaning, empty_store, store_of_one, store_of_two, edge_book, deadlock_book, comes_back_book};
ghost use Rattle.session_driver.specs.Lines.{after_lines};
ghost use Rattle.session_rows.specs.Scripts.{edge_lines, edge_replies, deadlock_lines, deadlock_replies, comes_back_lines, comes_back_replies};

/// The lines that the worked scripts write, from stores opened with number 1.
#[tactic(auto, using(crate::proofs::ScriptRows::edge_written, crate::proofs::ScriptRows::deadlock_written, crate::proofs::ScriptRows::comes_back_written))]
pub fn worked_lines_are_written()
    ensures edge { (after_lines row_meaning (start empty_store 1 100) edge_lines).lines ≡ edge_replies }
    ensures deadlock { (after_lines row_meaning (start store_of_one 1 100) deadlock_lines).lines ≡ deadlock_replies }
    ensures comes_back { (after_lines row_meaning (start store_of_two 1 100) comes_back_lines).lines ≡ comes_back_replies }
{}

/// The books that they make.
#[tactic(auto, using(crate::proofs::ScriptRows::edge_made, crate::proofs::ScriptRows::deadlock_made, crate::proofs::ScriptRows::comes_back_made))]
pub fn worked_books_are_made()
    ensures edge { (after_lines row_meaning (start empty_store 1 100) edge_lines).book ≡ edge_book }
    ensures deadlock { (after_lines row_meaning (start store_of_one 1 100) deadlock_lines).book ≡ deadlock_book }
    ensures comes_back { (after_lines row_meaning (start store_of_two 1 100) comes_back_lines).book ≡ comes_back_book }
{}
