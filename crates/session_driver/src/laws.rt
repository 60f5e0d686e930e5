//! Laws of the definitions, for every type of calls.
ghost use Rattle.std.specs.Prelude.{◌≡◌, ◌≢◌, ℕ, List, None};
ghost use Rattle.call_contract.specs.Books.{IsBookFrom, IsRun, IsSerial, last};
ghost use Rattle.command_lines.specs.declared.line_reply.SessionRefusal.{SessionRefusal};
ghost use Rattle.session_driver.specs.Committed.{Commits, LineLeavesCommitted, SameCommitted};
ghost use Rattle.session_driver.specs.Lines.{Asked, IsRefusedFor, OfValidLines, after_line, after_lines, asking};
ghost use Rattle.session_driver.specs.Refusals.{refusal};
ghost use Rattle.session_driver.specs.Retries.{retries};
ghost use Rattle.session_driver.specs.Waiters.{AllStopped};
ghost use Rattle.session_driver.specs.declared.doing.Doing.TheVariants.{Commit};
ghost use Rattle.call_contract.specs.States.{State, start};
ghost use Rattle.tree_model.specs.Tree.{Tree};

use call_contract::TreeCall;

/// What lines put into the book is a run of the lock machine from the state before them, and they leave the state after it.
pub fn lines_run_the_machine<C: TreeCall>()
    ensures run { (st : State C) (lines : List (Asked C)) → IsRun C.meaning st (after_lines C.meaning st lines).book }
    ensures state { (st : State C) (lines : List (Asked C)) → last C.meaning st (after_lines C.meaning st lines).book ≡ (after_lines C.meaning st lines).state }
{}

/// Between two lines no session waits whose call would be answered.
pub fn nobody_waits_in_vain<C: TreeCall>()
    ensures { (t : Tree) (n limit : ℕ) (lines : List (Asked C)) → AllStopped C.meaning (after_lines C.meaning (start t n limit) lines).state }
{}

/// The book of lines whose calls are valid is legal, and so serial: its committed transactions, made one after another by one thread on the opening's tree, give the replies that were given, and the committed tree.
pub fn lines_are_serial<C: TreeCall>()
    ensures legal { OfValidLines C.is_valid (λ t n limit lines.
        IsBookFrom C.is_valid C.meaning t n limit
        (after_lines C.meaning (start t n limit) lines).book) }
    ensures serial { OfValidLines C.is_valid (λ t n limit lines.
        IsSerial C.meaning t n limit
        (after_lines C.meaning (start t n limit) lines).book) }
{}

/// Only a commit that isn't refused changes the committed tree and its number: the tree is then what the session's transaction saw, and the number the next one. The retries behind it leave both.
pub fn only_commits_change_the_tree<C: TreeCall>()
    ensures retries { (st : State C) → SameCommitted st (retries C.meaning st).state }
    ensures others { (st : State C) (line : Asked C)
        → line.doing ≢ Commit → LineLeavesCommitted C.meaning st line }
    ensures refused { (st : State C) (line : Asked C) (why : SessionRefusal)
        → IsRefusedFor C.meaning st line why → LineLeavesCommitted C.meaning st line }
    ensures commit { (st : State C) (s : ℕ) → refusal C.meaning st s Commit ≡ None
        → Commits C.meaning st s (after_line C.meaning st (asking s Commit)).state }
{}
