// Commits' changes as runs, each made after those before it: they grow by moves, and the newest are merged while they are long.
ghost use Rattle.std.specs.Prelude.{◌≡◌, ◌≤◌, ◌<◌, ◌^◌, ◌++◌, length, IsTrue, IfOk, OnOk};
ghost use Rattle.tree_model.specs.Entries.{Entries, Sorted, changed};
ghost use Rattle.tree_model.specs.Changes.{Rising};
ghost use Rattle.recovery.specs.inside.Nets.{after_newest, after_runs};

use dewey_labels::NoMemory;
use std::alloc::Global;
use std::marker::Model;
use tree_model::{Change, lay};

/// Changes in the order of their keys.
#[derive(Drop)]
pub struct Run {
    changes: Vec<Change>,
}

impl Model for Run {
    ghost use Rattle.std.specs.Prelude.{List};
    ghost use Rattle.tree_model.specs.declared.change.Change.{Change};
    ghost use Rattle.tree_model.specs.Changes.{Rising};

    ghost Value = { List Change };

    ghost view = { λ r. r.changes.items };

    ghost invariant = { λ r. Rising r.changes.items };
}

impl Run {
    pub fn new(changes: Vec<Change>) -> Run
        requires rising { Rising changes.items }
        ensures { result ≡ changes.items }
    {
        Run { changes }
    }

    pub fn into_changes(self) -> Vec<Change>
        ensures changes { result.items ≡ self }
        ensures rising { Rising self }
    {
        self.changes
    }

    fn len(&self) -> usize
        ensures value { result ≡ length self.now }
        ensures fits { result < 2 ^ 63 }
    {
        self.changes.len()
    }

    /// Whether all of it lies before all of the other: one comparison tells it.
    fn is_before(&self, other: &Run) -> bool
        ensures { IsTrue result → Rising (self.now ++ other.now) }
    {
        match (self.changes.last(), other.changes.first()) {
            (Some(last), Some(first)) => last.key.cmp(&first.key).is_lt(),
            _ => true,
        }
    }

    /// Both as one run. The second is moved behind the first; where there is no first, it is answered as it is.
    fn followed_by(self, other: Run) -> Result<Run, NoMemory>
        requires before { Rising (self ++ other) }
        ensures { IfOk result (λ run. run ≡ self ++ other) }
    {
        if self.changes.is_empty() {
            return Ok(other);
        }
        let Run { mut changes } = self;
        let Run { changes: mut more } = other;
        changes.append(&mut more)?;
        Ok(Run { changes })
    }

    /// It is laid over another.
    fn over(self, alloc: Global, lower: Run) -> Result<Run, NoMemory>
        ensures { IfOk result (λ run. (es : Entries) → Sorted es → changed run es ≡ changed self (changed lower es)) }
    {
        match Vec::with_capacity(alloc, self.len() + lower.len()) {
            Ok(out) => Ok(Run::new(lay(self.into_changes(), lower.into_changes(), out))),
            Err(_) => Err(NoMemory),
        }
    }
}

/// Goes on with the next run: it grows the newest where it lies behind it, as new nodes do; otherwise the newest joins the older ones.
/// It answers the newest run. Each change costs a logarithm of moves, amortised, and nothing is copied.
pub fn go_on(alloc: Global, older: &mut Vec<Run>, newest: Run, next: Run) -> Result<Run, NoMemory>
    ensures { IfOk result (λ run. (es : Entries) → Sorted es
        → after_newest older.new.items run es
        ≡ changed next (after_newest older.old.items newest es)) }
{
    if newest.is_before(&next) {
        let grown = newest.followed_by(next)?;
        return Ok(grown);
    }
    keep(alloc, older, newest)?;
    Ok(next)
}

/// Puts a run behind older ones, and lays it over those of them that aren't twice as long.
fn keep(alloc: Global, older: &mut Vec<Run>, run: Run) -> Result<(), NoMemory>
    ensures { OnOk result ((es : Entries) → Sorted es
        → after_runs older.new.items es ≡ after_newest older.old.items run es) }
{
    let mut run = run;
    while is_short(older, run.len()) {
        let Some(lower) = older.pop() else {
            unreachable!();
        };
        run = run.over(alloc, lower)?;
    }
    older.push(run)?;
    Ok(())
}

/// Whether the last of these runs isn't twice so long.
fn is_short(runs: &[Run], len: usize) -> bool
    ensures { IsTrue result → 1 ≤ length runs.now }
{
    match runs {
        [.., last] => last.len() / 2 < len,
        [] => false,
    }
}

/// Lays the newest run over all older ones.
pub fn all_in_one(alloc: Global, mut older: Vec<Run>, newest: Run) -> Result<Run, NoMemory>
    ensures { IfOk result (λ run. (es : Entries) → Sorted es
        → changed run es ≡ after_newest older.items newest es) }
{
    let mut run = newest;
    while let Some(lower) = older.pop() {
        run = run.over(alloc, lower)?;
    }
    Ok(run)
}
