//! Worked rows of `call_contract`: small calls that keep its laws, books of two sessions that are legal, and calls, joins and books that are wrong.
//! Each book is legal or not by computation, entry by entry (`worked_books_are_legal`, `wrong_books_are_not_legal`); a call that misses a request breaks the first law, which it keeps with its requests (`missing_requests_break_the_first_law`).
//! What the books' calls ask is written here once more, by hand; of all but `append` it is shown to be what `lock_plans` has them ask (`rows_ask_what_calls_ask`).
//! All of it is definitions and rows; the toys as types stand in `call_tests`.
#![tactic(auto)]

ghost use Rattle.std.specs.Prelude.{◌≡◌};
ghost use Rattle.dewey_labels.specs.Labels.{Label, IsLabel};
ghost use Rattle.lock_resources.specs.declared.resource.Side.TheVariants.{Last};
ghost use Rattle.tree_cells.specs.Cells.{edge_cell};
ghost use Rattle.call_contract.specs.Calls.{CallLaws};
ghost use Rattle.call_contract.specs.Books.{IsSerial};
ghost use Rattle.call_rows.specs.Toys.{look, clear, never};
ghost use Rattle.call_rows.specs.MadeToys.{look_wide, look_and_hold, AreLabels, look_then_clear, clear_both};
ghost use Rattle.call_rows.specs.Rows.{IsBookOf, edge_book, list_book, deadlock_book, comes_back_book};
ghost use Rattle.call_rows.specs.Rows.{AsksAlike, row_meaning, node_of, first, children, remove, e, child, missing};
ghost use Rattle.call_rows.specs.Rows.{empty_store, store_of_one, store_of_two};
ghost use Rattle.call_rows.specs.Wrong as wrong;

/// The toys keep the form of requests and the four laws.
#[tactic(auto, using(crate::proofs::LookLaws::look_laws, crate::proofs::ClearLaws::clear_laws, crate::proofs::LookLaws::never_laws))]
pub fn toys_keep_the_laws()
    ensures reads { CallLaws Label IsLabel look }
    ensures writes { CallLaws Label IsLabel clear }
    ensures refused { CallLaws Label IsLabel never }
{}

/// So do calls made of them, by the laws on calls of calls alone: one under wider requests, one that asks for more by its reply, and two in a row.
#[tactic(auto, using(crate::proofs::MadeToyLaws::look_wide_laws, crate::proofs::MadeToyLaws::look_and_hold_laws, crate::proofs::MadeToyLaws::look_then_clear_laws, crate::proofs::MadeToyLaws::clear_both_laws))]
pub fn toys_made_of_toys_keep_the_laws()
    ensures replaced { CallLaws Label IsLabel look_wide }
    ensures followed { CallLaws Label IsLabel look_and_hold }
    ensures in_a_row { CallLaws (Label × Label) AreLabels look_then_clear }
    ensures both_change { CallLaws (Label × Label) AreLabels clear_both }
{}

/// The worked books are legal: an append that waits for a reader of the edge, one that waits for a reader of the list, the deadlock of two appends, and a node that comes back.
#[tactic(auto, using(crate::proofs::BookRows::edge_legal, crate::proofs::BookRows::list_legal, crate::proofs::BookRows::deadlock_legal, crate::proofs::BookRows::comes_back_legal))]
pub fn worked_books_are_legal()
    ensures edge { IsBookOf empty_store edge_book }
    ensures list { IsBookOf store_of_one list_book }
    ensures deadlock { IsBookOf store_of_one deadlock_book }
    ensures comes_back { IsBookOf store_of_two comes_back_book }
{}

/// Their commits, made one after another, give the replies of the book and the committed tree.
#[tactic(auto, using(crate::proofs::BookRows::edge_serial, crate::proofs::BookRows::list_serial, crate::proofs::BookRows::deadlock_serial, crate::proofs::BookRows::comes_back_serial))]
pub fn worked_books_are_serial()
    ensures edge { IsSerial row_meaning empty_store 1 100 edge_book }
    ensures list { IsSerial row_meaning store_of_one 1 100 list_book }
    ensures deadlock { IsSerial row_meaning store_of_one 1 100 deadlock_book }
    ensures comes_back { IsSerial row_meaning store_of_two 1 100 comes_back_book }
{}

/// Books that the machine doesn't make aren't legal.
#[tactic(auto, using(crate::proofs::WrongBooks::not_answered_in_conflict, crate::proofs::WrongBooks::not_waits_for_nobody, crate::proofs::WrongBooks::not_holders_left_out, crate::proofs::WrongBooks::not_deadlock_without_cycle, crate::proofs::WrongBooks::not_cycle_of_another, crate::proofs::WrongBooks::not_commit_out_of_order, crate::proofs::WrongBooks::not_commit_of_a_waiting_one, crate::proofs::WrongBooks::not_fault_told_twice))]
pub fn wrong_books_are_not_legal()
    ensures answered_in_conflict { IsBookOf empty_store wrong.answered_in_conflict → ⊥ }
    ensures waits_for_nobody { IsBookOf empty_store wrong.waits_for_nobody → ⊥ }
    ensures holders_left_out { IsBookOf empty_store wrong.holders_left_out → ⊥ }
    ensures deadlock_without_cycle { IsBookOf empty_store wrong.deadlock_without_cycle → ⊥ }
    ensures cycle_of_another { IsBookOf store_of_one wrong.cycle_of_another → ⊥ }
    ensures commit_out_of_order { IsBookOf empty_store wrong.commit_out_of_order → ⊥ }
    ensures commit_of_a_waiting_one { IsBookOf empty_store wrong.commit_of_a_waiting_one → ⊥ }
    ensures fault_told_twice { IsBookOf empty_store wrong.fault_told_twice → ⊥ }
{}

/// Each call of the worked books but `append` asks, on the tree that its session sees, what `lock_plans` has it ask.
#[tactic(auto, using(crate::proofs::SameRequests::edge_first, crate::proofs::SameRequests::list_children, crate::proofs::SameRequests::back_node, crate::proofs::SameRequests::back_remove))]
pub fn rows_ask_what_calls_ask()
    ensures edge_first { AsksAlike (first e) empty_store }
    ensures list_children { AsksAlike (children e) store_of_one }
    ensures back_node { AsksAlike (node_of missing) store_of_two }
    ensures back_remove { AsksAlike (remove e (child 1001)) store_of_two }
{}

/// A call that sees an edge or an empty list without asking for it breaks the first law, and keeps it with its requests;
/// and where LR joined with CX were kept as CX, a reader and a writer of one edge wouldn't clash.
#[tactic(auto, using(crate::proofs::WrongCalls::first_needs_its_edge, crate::proofs::RightCalls::first_keeps, crate::proofs::WrongCalls::empty_answer_needs_a_request, crate::proofs::RightCalls::children_keeps, crate::proofs::WrongCalls::join_is_needed))]
pub fn missing_requests_break_the_first_law()
    ensures edge { wrong.FirstLaw (wrong.asks_instead wrong.without_edge) (first e) → ⊥ }
    ensures edge_kept { wrong.FirstLaw row_meaning (first e) }
    ensures empty_answer { wrong.FirstLaw (wrong.asks_instead wrong.without_request) (children e) → ⊥ }
    ensures empty_answer_kept { wrong.FirstLaw row_meaning (children e) }
    ensures join { wrong.JoinIsNeeded (edge_cell e Last) }
{}
