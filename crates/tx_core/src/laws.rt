//! That a lock table and a wait graph tell who waits for whom.

ghost use Rattle.std.specs.Prelude.{◌≡◌, ℕ, List};
ghost use Rattle.lock_table.specs.Tables.{Table};
ghost use Rattle.wait_graph.specs.Graphs.{Graph, waits, waits_for as waits_by};
ghost use Rattle.call_contract.specs.States.{Live};
ghost use Rattle.call_contract.specs.Waits.{waits_for};
ghost use Rattle.tx_core.specs.Holding.{Keep};

/// Where a table and a graph have what transactions hold and wait for, they give the machine's relation of waiting.
pub fn table_and_graph_tell_who_waits<C: Drop>()
    ensures { (table : Table) (graph : Graph) (live : List (Live C)) → Keep table graph live
        → (s u : ℕ) → waits_by (waits graph) table s u ≡ waits_for live s u }
{}
