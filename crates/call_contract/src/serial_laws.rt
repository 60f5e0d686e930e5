//! Why the lock machine's runs are serial: laws of the definitions, for every type of calls that keeps the four laws.

ghost use Rattle.std.specs.Prelude.{◌≡◌, ◌↔◌, ◌+◌, ◌++◌, ◌∷◌, [], ℕ, List, map, true, Option};
ghost use Rattle.std.specs.List.{AllByRecursion};
ghost use Rattle.lock_resources.specs.declared.request.Request.{Request};
ghost use Rattle.tree_model.specs.Tree.{Tree};
ghost use Rattle.tree_model.specs.ValidTrees.{IsValidTree};
ghost use Rattle.lock_table.specs.Asks.{is_barred_by};
ghost use Rattle.lock_table.specs.Grants.{join_of};
ghost use Rattle.tree_cells.specs.Cells.{Cell};
ghost use Rattle.tree_cells.specs.Clashes.{bars};
ghost use Rattle.tree_cells.specs.Covers.{reads, writes};
ghost use Rattle.tree_cells.specs.Forms.{HasForm};
ghost use Rattle.wait_cycles.specs.Walks.{Rises};
ghost use Rattle.call_contract.specs.declared.events.Event.TheVariants.{Abort};
ghost use Rattle.call_contract.specs.declared.events.EventAnswer.{EventAnswer};
ghost use Rattle.call_contract.specs.declared.events.Noted.{Noted};
ghost use Rattle.call_contract.specs.CallChanges.{changes_of_calls, changes_with_one_more, CallsLead, ChangesLead, ChangesStay};
ghost use Rattle.call_contract.specs.States.{Answered, Live, State, start, others};
ghost use Rattle.call_contract.specs.Attempts.{holders};
ghost use Rattle.call_contract.specs.Waits.{NoCycle};
ghost use Rattle.call_contract.specs.Steps.{step};
ghost use Rattle.call_contract.specs.Books.{Book, entry, next, last, IsAnswer, IsRun, IfRun, FaultsRise, last_fault, IsBookFrom, IsReached, IsSerial};
ghost use Rattle.call_contract.specs.Sessions.{live_after, without_grants, queue_after, begins, begins_of, commits_in};
ghost use Rattle.call_contract.specs.Replays.{IsAskedTheSame};
ghost use Rattle.call_contract.specs.Lives.{RepliesStand, WritesAreCovered, CommitsReplay, NoCellIsShared, BarSomewhere};
ghost use Rattle.call_contract.specs.Waiters.{WaitersStand};
ghost use Rattle.call_contract.specs.Ends.{LeavesAllElse};
ghost use Rattle.call_contract.specs.Deadlocks.{DeadlockIsTrue};

use crate::TreeCall;

/// Trees that agree on what a call covers for reading are asked for the same.
pub fn same_requests<C: TreeCall>()
    ensures { (c : C) → C.is_valid c → (t u : Tree) → IsValidTree t → IsValidTree u → IsAskedTheSame C.meaning c t u }
{}

/// What a transaction holds at a resource is the join of its grants there: it bars a request exactly where one of the grants clashes with it, as an attempt asks.
#[tactic(auto, using(crate::proofs::Held::held_bars))]
pub fn holding_is_the_join_of_grants()
    ensures { (grants : List Request) (q : Request) → bars grants q ≡ is_barred_by q.ask (join_of grants q.resource) }
{}

/// Where one owner covers a cell for reading and another one covers it for writing, both having asked in the form, the modes that they hold don't go together at some resource.
pub fn shared_cells_are_barred()
    ensures { (gs hs : List Request) (x : Cell) → HasForm gs → HasForm hs
        → reads gs x ≡ true → writes hs x ≡ true → BarSomewhere hs gs }
{}

/// Every legal book is serial: its commits, made one after another by one thread on the opening's tree, give the replies that the book gave, and the committed tree.
pub fn every_book_is_serial<C: TreeCall>()
    ensures { (t : Tree) (n limit : ℕ) (b : Book C) → IsBookFrom C.is_valid C.meaning t n limit b → IsSerial C.meaning t n limit b }
{}

/// What a live transaction, also one that aborts later, was answered is what it would be answered on the committed tree of this moment, and it changes no cell but those that it covers for writing.
pub fn live_replies_stand<C: TreeCall>()
    ensures replies { (st : State C) → IsReached C.is_valid C.meaning st → RepliesStand C.meaning st }
    ensures writes { (st : State C) → IsReached C.is_valid C.meaning st → WritesAreCovered C.meaning st }
{}

/// When a transaction commits, every other live one's calls, made again on the new tree, have the same requests, replies and written values, and it sees the same in all that it covers for reading;
/// for no cell that one covers for reading is covered by another one for writing.
pub fn commit_replays_others<C: TreeCall>()
    ensures replayed { (st : State C) → IsReached C.is_valid C.meaning st → CommitsReplay C.meaning st }
    ensures apart { (st : State C) → IsReached C.is_valid C.meaning st → NoCellIsShared st }
{}

/// What a transaction's calls change leads from the tree that they are made on to the tree that it sees, and one more call's changes are laid over those before.
/// So it is of each live one on the committed tree.
pub fn changes_lead_to_what_is_seen<C: TreeCall>()
    ensures calls { (cs : List (Answered C)) (t : Tree) → IsValidTree t
        → AllByRecursion (λ a. C.is_valid a.call) cs → CallsLead C.meaning cs t }
    ensures one_more { (cs : List (Answered C)) (a : Answered C) (t : Tree)
        → changes_of_calls C.meaning (cs ++ a ∷ []) t ≡ changes_with_one_more C.meaning cs a t }
    ensures live { (st : State C) → IsReached C.is_valid C.meaning st → ChangesLead C.meaning st }
{}

/// When a transaction commits, every other live one's changes are on the new tree what they were.
pub fn commit_leaves_changes<C: TreeCall>()
    ensures { (st : State C) → IsReached C.is_valid C.meaning st → ChangesStay C.meaning st }
{}

/// Where the request with which a call waits is still barred, a further attempt of it waits with this request again and is granted nothing new: only the request has to be looked at.
pub fn waiting_calls_stand<C: TreeCall>()
    ensures { (st : State C) → IsReached C.is_valid C.meaning st → WaitersStand C.meaning st }
{}

/// A deadlock shows the first cycle that its caller would close, there was none before, and it ends its caller's transaction alone. No state of a run has a cycle.
pub fn deadlocks_are_true<C: TreeCall>()
    ensures shown { (t : Tree) (n limit : ℕ) (b : Book C) (e : Noted C) → DeadlockIsTrue C.meaning (last C.meaning (start t n limit) b) e }
    ensures no_cycle { (t : Tree) (n limit : ℕ) (b : Book C) → NoCycle (last C.meaning (start t n limit) b).live }
{}

/// An abort leaves the committed tree, the other transactions and what they hold, and the ended one holds nothing.
pub fn abort_leaves_all_else<C: TreeCall>()
    ensures { (st : State C) (s : ℕ) (a : EventAnswer) → IsAnswer a (step C.meaning st s Abort) → LeavesAllElse st (next C.meaning st (entry s Abort a)) s }
{}

/// The sessions that an attempt names as holders rise.
pub fn holders_rise<C: TreeCall>()
    ensures { (t : Tree) (n limit : ℕ) (b : Book C) (s : ℕ) (g : Request) → Rises (holders g (others s (last C.meaning (start t n limit) b).live)) }
{}

/// One book behind another: its states go on from the first one's last, and it is a run, with rising counts of faults, exactly where both are.
pub fn books_append<C: TreeCall>()
    ensures last { (st : State C) (b d : Book C) → last C.meaning st (b ++ d) ≡ last C.meaning (last C.meaning st b) d }
    ensures run { (st : State C) (b d : Book C) → IsRun C.meaning st (b ++ d) ↔ (IsRun C.meaning st b × IsRun C.meaning (last C.meaning st b) d) }
    ensures faults { (f : Option ℕ) (b d : Book C) → FaultsRise f (b ++ d) ↔ (FaultsRise f b × FaultsRise (last_fault f b) d) }
    ensures live { (ts : List (Live C)) (b d : Book C) → live_after ts (b ++ d) ≡ live_after (live_after ts b) d }
    ensures queue { (ss : List ℕ) (b d : Book C) → queue_after ss (b ++ d) ≡ queue_after (queue_after ss b) d }
    ensures begun { (b d : Book C) → begins (b ++ d) ≡ begins b + begins d }
    ensures ordinals { (b d : Book C) (s : ℕ) → begins_of (b ++ d) s ≡ begins_of b s + begins_of d s }
    ensures commits { (b d : Book C) → commits_in (b ++ d) ≡ commits_in b + commits_in d }
{}

/// What the book of a run tells of its sessions is so in the state after it: who is live, with which answered calls and waits, who waits in which order, and the counts.
pub fn books_tell_of_sessions<C: TreeCall>()
    ensures live { (t : Tree) (n limit : ℕ) (b : Book C)
        → IfRun C.meaning t n limit b (λ st. live_after [] b ≡ map without_grants st.live) }
    ensures queue { (t : Tree) (n limit : ℕ) (b : Book C)
        → IfRun C.meaning t n limit b (λ st. queue_after [] b ≡ st.waiting) }
    ensures begun { (t : Tree) (n limit : ℕ) (b : Book C)
        → IfRun C.meaning t n limit b (λ st. begins b ≡ st.begun) }
    ensures ordinals { (t : Tree) (n limit : ℕ) (b : Book C) (s : ℕ)
        → IfRun C.meaning t n limit b (λ st. begins_of b s ≡ st.ordinals s) }
    ensures number { (t : Tree) (n limit : ℕ) (b : Book C)
        → IfRun C.meaning t n limit b (λ st. n + commits_in b ≡ st.number) }
{}
