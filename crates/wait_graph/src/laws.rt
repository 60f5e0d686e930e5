//! What keeps the owners that wait from forming a cycle, beside the clauses of `WaitGraph`.

ghost use Rattle.std.specs.Prelude.{◌≡◌, ℕ, None};
ghost use Rattle.lock_resources.specs.declared.request.Request.{Request};
ghost use Rattle.lock_table.specs.declared.table.Asked.{Asked};
ghost use Rattle.lock_table.specs.Tables.{Table, Answers, IsReleased, IsSame};
ghost use Rattle.wait_cycles.specs.Cycles.{IsIrreflexive};
ghost use Rattle.wait_graph.specs.Graphs.{Graph, waits, waits_for, KeepsNoCycle};

/// Where there is no cycle there is none after an owner's modes are released.
pub fn after_release()
    ensures { (g : Graph) (t u : Table) (owner : ℕ) → IsReleased t owner u → KeepsNoCycle g t u }
{}

/// Nor after a request is asked by an owner that doesn't wait, whatever is answered.
pub fn after_ask()
    ensures answered { (g : Graph) (t u : Table) (owner : ℕ) (q : Request) (asked : Asked) → waits g owner ≡ None
        → Answers t owner q u asked → KeepsNoCycle g t u }
    ensures err { (g : Graph) (t u : Table) → IsSame t u → KeepsNoCycle g t u }
{}

/// No owner waits for itself, whatever it holds and asks.
#[tactic(auto, using(crate::proofs::Kept::not_for_itself))]
pub fn nobody_waits_for_itself()
    ensures { (g : Graph) (t : Table) → IsIrreflexive (waits_for (waits g) t) }
{}
