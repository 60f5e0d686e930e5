//! Cycles of a relation of waiting: the cycle through one member that is shown, where there is one.
//! It is a shortest one, and among the shortest the least as a list (`shown_cycle_is_first`).
//! All of it is definitions and their laws. Who waits for whom is left to the crates above.
#![tactic(auto)]

ghost use Rattle.std.specs.Prelude.{◌≡◌, ℕ, Bool, List};
ghost use Rattle.wait_cycles.specs.Walks.{Rises};
ghost use Rattle.wait_cycles.specs.Cycles.{IsCycleThrough, IsFirst, AreAmong, IsIrreflexive, shown_cycle};

/// The search answers the first cycle, or None exactly where there is none.
#[tactic(auto, using(crate::proofs::Shown::shown))]
pub fn shown_cycle_is_first()
    ensures { (R : ℕ → ℕ → Bool) (cs : List ℕ) (s : ℕ) → Rises cs → IsIrreflexive R → AreAmong R cs → IsCycleThrough R s (shown_cycle R cs s) }
{}

/// Two first cycles are one.
#[tactic(auto, using(crate::proofs::Unique::one_first))]
pub fn first_cycle_is_one()
    ensures { (R : ℕ → ℕ → Bool) (s : ℕ) (us vs : List ℕ) → IsFirst R s us → IsFirst R s vs → us ≡ vs }
{}
