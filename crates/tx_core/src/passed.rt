//! Where live transactions have found nothing, kept so that their next reads needn't pass it again.

ghost use Rattle.std.specs.Prelude.{◌≡◌, ℕ, ◌==◌, true, false, IfSome, OnOk, OnErr};
ghost use Rattle.std.specs.List.{AllByRecursion};
ghost use Rattle.tree_model.specs.Entries.{Entries, Sorted, changed};
ghost use Rattle.tree_model.specs.Changes.{laid};
ghost use Rattle.tree_model.specs.declared.key.Key.{Key};
ghost use Rattle.node_seq.specs.ChangeLists.{IsChangeList};
ghost use Rattle.overlays.specs.Stretches.{is_covered, AreWithin, IsOut};
ghost use Rattle.tx_core.specs.inside.Passed.{stretches_of, stretches_with, KeepFewer};

use crate::parts::Passed;
use dewey_labels::NoMemory;
use overlays::{Gaps, Layers, Overlay};
use std::alloc::Global;
use tree_model::Changes;

fn is_of(passed: &Passed, session: u32) -> bool
    ensures { result ≡ (passed.now.session == session) }
{
    passed.session == session
}

/// Takes out what a session's transaction has passed, and answers it where there is something.
pub fn end_passed(passed: &mut Vec<Passed>, session: u32) -> Option<Gaps>
    ensures fewer { KeepFewer passed.new.items passed.old.items }
    ensures out { (j : Key) → is_covered (stretches_of passed.new.items session) j ≡ false }
    ensures taken { IfSome result (λ gaps. AreWithin gaps (stretches_of passed.old.items session)) }
{
    let mut taken = None;
    let mut place = 0;
    while place < passed.len() {
        if is_of(&passed[place], session) {
            taken = Some(passed.remove(place).gaps);
        } else {
            place += 1;
        }
    }
    taken
}

/// Takes out what a session's transaction has passed.
pub fn take_passed(alloc: Global, passed: &mut Vec<Passed>, session: u32) -> Gaps
    ensures fewer { KeepFewer passed.new.items passed.old.items }
    ensures out { (j : Key) → is_covered (stretches_of passed.new.items session) j ≡ false }
    ensures taken { AreWithin result (stretches_of passed.old.items session) }
{
    match end_passed(passed, session) {
        Some(gaps) => gaps,
        None => Gaps::new(alloc),
    }
}

/// Keeps what a session's transaction has passed. Where there is no memory for that, its next reads pass it again.
pub fn keep_passed(passed: &mut Vec<Passed>, session: u32, gaps: Gaps)
    ensures { (o : ℕ) → AreWithin (stretches_of passed.new.items o)
        (stretches_with passed.old.items session gaps o) }
{
    if gaps.is_empty() {
        return;
    }
    let _kept = passed.push(Passed { session, gaps });
}

/// Lays changes over what a session's transaction has changed, and takes out what they put of what it has passed.
pub fn lay_own(
    alloc: Global,
    layers: &Layers,
    own: &mut Overlay,
    passed: &mut Vec<Passed>,
    session: u32,
    changes: Changes,
) -> Result<(), NoMemory>
    requires { IsChangeList changes }
    ensures changes { OnOk result (own.new ≡ laid changes own.old) }
    ensures effect { OnOk result ((es : Entries) → Sorted es → changed own.new es ≡ changed changes (changed own.old es)) }
    ensures err { OnErr result (own.new ≡ own.old) }
    ensures fewer { KeepFewer passed.new.items passed.old.items }
    ensures out { OnOk result (AllByRecursion (IsOut (stretches_of passed.new.items session)) changes) }
{
    let mut gaps = take_passed(alloc, passed, session);
    gaps.cut_puts(alloc, layers, own, &changes)?;
    keep_passed(passed, session, gaps);
    own.add(alloc, changes)
}

/// Takes out what a commit of this overlay puts, of all that other transactions have passed. It takes no memory.
pub fn forget_puts(passed: &mut Vec<Passed>, overlay: &Overlay)
    ensures fewer { KeepFewer passed.new.items passed.old.items }
    ensures out { (o : ℕ) → AllByRecursion (IsOut (stretches_of passed.new.items o)) overlay.now }
    ensures list { (o : ℕ) (j : Key) → is_covered (stretches_of passed.new.items o) j ≡ true → IsChangeList overlay.now }
{
    let mut place = 0;
    while place < passed.len() {
        let one = &mut passed[place];
        one.gaps.forget_puts(overlay);
        place += 1;
    }
}
