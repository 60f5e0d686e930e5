// Stretches of keys at which a transaction sees nothing: what its reads have passed over, kept so that the next ones needn't.
ghost use Rattle.std.specs.Prelude.{◌≡◌, ◌<◌, ◌≤◌, ◌==◌, [], ◌∷◌, ◌↔◌, List, Some, None, false, true, IfOk, IfSome, OnOk, OnErr, length, vec_capacity, option_copied};
ghost use Rattle.std.specs.List.{AllByRecursion};
ghost use Rattle.tree_model.specs.Entries.{Entries, Sorted, changed};
ghost use Rattle.tree_model.specs.Changes.{Rising};
ghost use Rattle.tree_model.specs.declared.change.Change.{Change};
ghost use Rattle.overlays.specs.declared.gaps.Stretch.{Stretch};
ghost use Rattle.tree_model.specs.declared.key.Key as declared;
ghost use Rattle.overlays.specs.Stretches.{is_in, is_covered, AreWithin, IsOut, StayEmpty};
ghost use Rattle.overlays.specs.Steps.{end_toward};
ghost use Rattle.overlays.specs.inside.Passing.{start_toward, Skips, meets, with_piece, IsEndOf};
ghost use Rattle.overlays.specs.declared.direction.Direction as declared_direction;
ghost use Rattle.std.specs.declared.cmp.Ordering.TheVariants.{Less};
ghost use Rattle.tree_model.specs.Keys.{key_cmp};
ghost use Rattle.tree_model.specs.Orders.{by_order};
ghost use Rattle.node_seq.specs.ChangeLists.{IsChangeList};

use crate::direction::Direction;
use crate::run::{Hint, Run};
use crate::{Layers, Overlay};
use dewey_labels::NoMemory;
use std::alloc::Global;
use std::cmp::Ordering;
use std::marker::Model;
use tree_model::{Change, Changes, Key};

/// All keys from one to another, both with them.
#[derive(Debug, Drop)]
pub struct Stretch {
    pub first: Key,
    pub last: Key,
    /// How many steps it took to pass it, or near that.
    pub steps: usize,
}

impl Stretch {
    fn has(&self, key: &Key) -> bool
        ensures { result ≡ is_in self.now key.now }
    {
        self.first.cmp(key).is_le() && key.cmp(&self.last).is_le()
    }

    fn end(&self, toward: Direction) -> &Key
        ensures { result.now ≡ end_toward toward self.now }
    {
        match toward {
            Direction::Up => &self.last,
            Direction::Down => &self.first,
        }
    }

    /// The stretch from one key to another in a direction.
    pub(crate) fn between(
        alloc: Global,
        toward: Direction,
        near: &Key,
        far: &Key,
        steps: usize,
    ) -> Result<Stretch, NoMemory>
        ensures start { IfOk result (λ s. start_toward toward s ≡ near.now) }
        ensures end { IfOk result (λ s. end_toward toward s ≡ far.now) }
    {
        let near = near.copy(alloc)?;
        let far = far.copy(alloc)?;
        let (first, last) = match toward {
            Direction::Up => (near, far),
            Direction::Down => (far, near),
        };
        Ok(Stretch { first, last, steps })
    }
}

fn lesser(a: Key, b: Key) -> Key
    ensures { result ≡ by_order (key_cmp a b) a a b }
{
    match a.cmp(&b) {
        Ordering::Greater => b,
        _ => a,
    }
}

fn greater(a: Key, b: Key) -> Key
    ensures { result ≡ by_order (key_cmp a b) b b a }
{
    match a.cmp(&b) {
        Ordering::Greater => a,
        _ => b,
    }
}

/// Whether two stretches have a key in common.
fn meet(a: &Stretch, b: &Stretch) -> bool
    ensures { result ≡ meets a.now b.now }
{
    a.first.cmp(&b.last).is_le() && b.first.cmp(&a.last).is_le()
}

/// Two stretches with a key in common as one.
fn join(a: Stretch, b: Stretch) -> Stretch
    requires { meets a b ≡ true }
    ensures within { (j : declared.Key) → is_in result j ≡ true → is_covered (a ∷ b ∷ []) j ≡ true }
    ensures whole { (j : declared.Key) → is_covered (a ∷ b ∷ []) j ≡ true → is_in result j ≡ true }
{
    Stretch {
        first: lesser(a.first, b.first),
        last: greater(a.last, b.last),
        steps: a.steps.saturating_add(b.steps),
    }
}

/// At most so many stretches are kept.
const MOST: usize = 16;

/// Stretches of keys at which a transaction sees nothing.
#[derive(Debug, Drop)]
pub struct Gaps {
    stretches: Vec<Stretch>,
    /// Where the last walk stands in the changes. No answer depends on it.
    hint: Hint,
}

impl Model for Gaps {
    ghost use Rattle.std.specs.Prelude.{List};
    ghost use Rattle.overlays.specs.declared.gaps.Stretch.{Stretch};

    ghost Value = { List Stretch };

    ghost view = { λ g. g.stretches.items };
}

/// The stretch that has a key.
fn stretch_of<'g>(stretches: &'g [Stretch], key: &Key) -> Option<&'g Stretch>
    ensures has { IfSome (option_copied result) (λ s. is_in s key.now ≡ true) }
    ensures one { IfSome (option_copied result) (λ s. (j : declared.Key) → is_in s j ≡ true → is_covered stretches.now j ≡ true) }
    ensures end { IfSome (option_copied result) (λ s. (w : declared_direction.Direction) → IsEndOf w (end_toward w s) stretches.now) }
    ensures none { result ≡ None → is_covered stretches.now key.now ≡ false }
{
    for stretch in stretches {
        if stretch.has(key) {
            return Some(stretch);
        }
    }
    None
}

/// Takes out the stretches that have a key, and answers one of them.
fn take(stretches: &mut Vec<Stretch>, key: &Key) -> Option<Stretch>
    ensures within { AreWithin stretches.new.items stretches.old.items }
    ensures out { is_covered stretches.new.items key.now ≡ false }
    ensures has { IfSome result (λ s. is_in s key.now ≡ true) }
    ensures one { IfSome result (λ s. (j : declared.Key) → is_in s j ≡ true → is_covered stretches.old.items j ≡ true) }
{
    let mut taken = None;
    let mut place = 0;
    while place < stretches.len() {
        if stretches[place].has(key) {
            taken = Some(stretches.remove(place));
        } else {
            place += 1;
        }
    }
    taken
}

/// Joins a stretch with those that have a key in common with it, and takes them out.
fn joined(stretches: &mut Vec<Stretch>, stretch: Stretch) -> Stretch
    ensures within { AreWithin (result ∷ stretches.new.items) (stretch ∷ stretches.old.items) }
    ensures whole { AreWithin (stretch ∷ stretches.old.items) (result ∷ stretches.new.items) }
    ensures has { (j : declared.Key) → is_in stretch j ≡ true → is_in result j ≡ true }
{
    let mut whole = stretch;
    let mut place = 0;
    while place < stretches.len() {
        if meet(&stretches[place], &whole) {
            whole = join(stretches.remove(place), whole);
        } else {
            place += 1;
        }
    }
    whole
}

/// What is left of a stretch before a key: it ends with the key that is told.
fn piece_below(
    alloc: Global,
    first: Key,
    last: Option<&Key>,
    key: &Key,
    steps: usize,
) -> Result<Option<Stretch>, NoMemory>
    ensures { IfOk result (λ piece. IfSome piece (λ s. (s.first ≡ first) × (key_cmp s.last key.now ≡ Less))) }
{
    match last {
        Some(last) if last.cmp(key).is_lt() => Ok(Some(Stretch {
            first,
            last: last.copy(alloc)?,
            steps,
        })),
        _ => Ok(None),
    }
}

/// What is left of a stretch behind a key: it begins with the key that is told.
fn piece_above(
    alloc: Global,
    last: Key,
    first: Option<&Key>,
    key: &Key,
    steps: usize,
) -> Result<Option<Stretch>, NoMemory>
    ensures { IfOk result (λ piece. IfSome piece (λ s. (s.last ≡ last) × (key_cmp key.now s.first ≡ Less))) }
{
    match first {
        Some(first) if key.cmp(first).is_lt() => Ok(Some(Stretch {
            first: first.copy(alloc)?,
            last,
            steps,
        })),
        _ => Ok(None),
    }
}

/// The place of the stretch that took the fewest steps.
fn least(stretches: &[Stretch]) -> usize
    requires some { 1 ≤ length stretches.now }
    ensures { result < length stretches.now }
{
    let mut least = 0;
    for place in 1..stretches.len() {
        if stretches[place].steps < stretches[least].steps {
            least = place;
        }
    }
    least
}

/// Where there are too many stretches the one that took the fewest steps goes, and is answered.
fn make_place(stretches: &mut Vec<Stretch>) -> Option<Stretch>
    ensures within { AreWithin stretches.new.items stretches.old.items }
    ensures left { AreWithin stretches.old.items (with_piece result stretches.new.items) }
{
    if stretches.len() < MOST {
        return None;
    }
    let least = least(stretches);
    Some(stretches.remove(least))
}

fn add(stretches: &mut Vec<Stretch>, piece: Option<Stretch>) -> Result<(), NoMemory>
    ensures within { AreWithin stretches.new.items (with_piece piece stretches.old.items) }
    ensures whole { OnOk result (AreWithin (with_piece piece stretches.old.items) stretches.new.items) }
{
    if let Some(stretch) = piece {
        stretches.push(stretch)?;
    }
    Ok(())
}

impl Gaps {
    /// No stretches. It takes no memory.
    pub fn new(alloc: Global) -> Gaps
        ensures { result ≡ [] }
    {
        Gaps {
            stretches: Vec::new(alloc),
            hint: Hint::new(),
        }
    }

    /// Whether there are no stretches.
    pub fn is_empty(&self) -> bool
        ensures { result ≡ (length self.now == 0) }
    {
        self.stretches.is_empty()
    }

    /// Where the last walk stands in the changes.
    pub(crate) fn hint(&self) -> Hint {
        self.hint
    }

    /// Keeps where a walk stands in the changes, for the next one.
    pub(crate) fn keep_hint(&mut self, hint: Hint)
        ensures { self.new ≡ self.old }
    {
        self.hint = hint;
    }

    /// The last key ahead that lies in the same stretch; the key itself where it lies in none.
    pub(crate) fn skip<'g>(&'g self, toward: Direction, key: &'g Key) -> &'g Key
        ensures skips { Skips toward key.now self.now result.now }
        ensures end { is_covered self.now key.now ≡ true → IsEndOf toward result.now self.now }
    {
        match stretch_of(&self.stretches, key) {
            Some(stretch) => stretch.end(toward),
            None => key,
        }
    }

    /// Adds a stretch. Where there are too many, the one of the others that took the fewest steps goes, and is answered.
    pub(crate) fn note(&mut self, stretch: Stretch) -> Result<Option<Stretch>, NoMemory>
        ensures within { AreWithin self.new (stretch ∷ self.old) }
        ensures noted { OnOk result (AreWithin (stretch ∷ []) self.new) }
        ensures kept { IfOk result (λ gone. AreWithin self.old (with_piece gone self.new)) }
    {
        let whole = joined(&mut self.stretches, stretch);
        let gone = make_place(&mut self.stretches);
        add(&mut self.stretches, Some(whole))?;
        Ok(gone)
    }

    /// Takes out the stretches that have a key. It takes no memory.
    pub fn forget(&mut self, key: &Key)
        ensures within { AreWithin self.new self.old }
        ensures out { is_covered self.new key.now ≡ false }
    {
        take(&mut self.stretches, key);
    }

    /// Takes a key out of the stretches. What is left of the one that has it reaches to the keys that are told, on both sides, where these lie in it.
    pub(crate) fn cut(
        &mut self,
        alloc: Global,
        key: &Key,
        below: Option<&Key>,
        above: Option<&Key>,
    ) -> Result<(), NoMemory>
        ensures within { AreWithin self.new self.old }
        ensures out { is_covered self.new key.now ≡ false }
    {
        let Some(stretch) = take(&mut self.stretches, key) else {
            return Ok(());
        };
        let Stretch { first, last, steps } = stretch;
        let low = piece_below(alloc, first, below, key, steps / 2)?;
        let high = piece_above(alloc, last, above, key, steps / 2)?;
        add(&mut self.stretches, low)?;
        add(&mut self.stretches, high)
    }

    /// Takes out what a change puts, where it puts something.
    fn cut_put(
        &mut self,
        alloc: Global,
        layers: &Layers,
        own: &Overlay,
        change: &Change,
    ) -> Result<(), NoMemory>
        ensures within { AreWithin self.new self.old }
        ensures out { OnOk result (IsOut self.new change.entry.now) }
    {
        if change.now.is_none() || stretch_of(&self.stretches, &change.key).is_none() {
            return Ok(());
        }
        let below = changed_beside(layers, own, Direction::Down, &change.key);
        let above = changed_beside(layers, own, Direction::Up, &change.key);
        self.cut(alloc, &change.key, below, above)
    }

    /// Takes out what changes put: those that a transaction makes itself, before they are laid over its overlay.
    pub fn cut_puts(
        &mut self,
        alloc: Global,
        layers: &Layers,
        own: &Overlay,
        changes: &Changes,
    ) -> Result<(), NoMemory>
        ensures within { AreWithin self.new self.old }
        ensures out { OnOk result (AllByRecursion (IsOut self.new) changes.now) }
    {
        for change in changes.as_slice() {
            self.cut_put(alloc, layers, own, change)?;
        }
        Ok(())
    }

    fn forget_put(&mut self, change: &Change)
        ensures within { AreWithin self.new self.old }
        ensures out { IsOut self.new change.entry.now }
    {
        if change.now.is_none() {
            return;
        }
        self.forget(&change.key);
    }

    fn forget_run(&mut self, run: &Run)
        ensures within { AreWithin self.new self.old }
        ensures out { AllByRecursion (IsOut self.new) run.now }
    {
        for change in run.changes() {
            self.forget_put(change);
        }
    }

    /// Takes out what another's commit of this overlay puts. It takes no memory.
    pub fn forget_puts(&mut self, overlay: &Overlay)
        ensures within { AreWithin self.new self.old }
        ensures out { AllByRecursion (IsOut self.new) overlay.now }
        ensures list { IsChangeList overlay.now }
    {
        for run in overlay.runs() {
            self.forget_run(run);
        }
    }
}

/// The key of the nearest change.
fn changed_beside<'o>(
    layers: &'o Layers,
    own: &'o Overlay,
    toward: Direction,
    key: &Key,
) -> Option<&'o Key> {
    let mut hint = Hint::new();
    let below = layers.beside(toward, key, &mut hint);
    match own.beside(toward, key, below, &mut hint) {
        Some(change) => Some(&change.key),
        None => None,
    }
}

/// What is kept of a transaction's stretches after its own changes is empty after them.
pub fn own_changes_keep_stretches_empty()
    ensures { (new old : List Stretch) (cs : List Change) (es : Entries) → Rising cs → Sorted es
        → StayEmpty new old cs (λ seen. seen) es }
{}

/// So it is after another's commit, which lies under the transaction's own changes.
pub fn commits_keep_stretches_empty()
    ensures { (new old : List Stretch) (own cs : List Change) (es : Entries) → Rising cs → Sorted es
        → StayEmpty new old cs (changed own) es }
{}
