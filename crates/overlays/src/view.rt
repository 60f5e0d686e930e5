// The map that is seen through the layers and an overlay: each read asks the changes first and the base once, and a few times more where it passes deletions.
ghost use Rattle.std.specs.Prelude.{◌≡◌, ◌≤◌, ◌+◌, ◌⊎◌, Some, None, IfOk, OnOk, IfSome, option_map, option_copied, unwrap_or, cond, []};
ghost use Rattle.outside_traits.specs.Faults.{HasCause};
ghost use Rattle.tree_model.specs.declared.key.Key as declared;
ghost use Rattle.tree_model.specs.declared.record.Record as declared_record;
ghost use Rattle.tree_model.specs.Entries.{get, first_above, last_below};
ghost use Rattle.tree_model.specs.Changes.{now_at, laid};
ghost use Rattle.node_seq.specs.declared.node_read.SeqError.TheVariants.{DiskFault};
ghost use Rattle.node_seq.specs.Reads.{Finds, IsEntryOfTrees, IsRecordOfTrees, IsKeyOfTrees, LiesAbove, LiesBelow, key_above, key_below, IsKeyAbove, IsKeyBelow};
ghost use Rattle.node_seq.specs.ChangeLists.{IsChangeList};
ghost use Rattle.overlays.specs.Directions.{Ahead};
ghost use Rattle.overlays.specs.declared.direction.Direction.TheVariants.{Up, Down};
ghost use Rattle.overlays.specs.inside.Nearest.{entry_beside, LiesAhead, comes_before, key_beside, KeyLiesAhead, key_before, IsNearestChange, IfNearest};
ghost use Rattle.overlays.specs.Views.{contents_seen, IfKnown, AreEmptyIn};
ghost use Rattle.overlays.specs.Stretches.{AreWithin, IsEmpty};
ghost use Rattle.overlays.specs.Steps.{most_steps, key_found, IsNoted};
ghost use Rattle.overlays.specs.inside.Passing.{first_seen, first_key_seen, Sees, SeesKey, key_gone, Spans, HasCome, with_piece, gone_beside, IfSettled, HasCovered};

use crate::direction::Direction;
use crate::run::Hint;
use crate::{Gaps, Layers, Overlay, Stretch};
use dewey_labels::{Copied, NoMemory};
use node_seq::{NodeRead, SeqError};
use std::alloc::Global;
use std::cmp::Ordering;
use tree_model::{Change, Key, Record};

/// What a transaction sees: a base changed by the layers of commits, and then by what the transaction has changed itself.
///
/// A read looks into each run of changes by at most one binary search, and asks the base once. A read to the side of a key does so again for each deletion that it passes;
/// what took more than a few such steps is noted in `gaps`, and the next reads jump over it. Where the last one stood in the longest run is kept there too, and looked at first.
#[derive(Drop)]
pub struct View<'a, S: NodeRead> {
    pub base: &'a mut S,
    pub layers: &'a Layers,
    pub own: &'a Overlay,
    /// Where nothing is seen, as far as earlier reads have found it.
    pub gaps: &'a mut Gaps,
    ghost empty: { AreEmptyIn gaps.now (contents_seen own.now layers.now.changes (S.contents base.now)) },
}

/// The record at a key, with the changes laid over the base.
pub(crate) fn seen_at<S: NodeRead>(
    alloc: Global,
    base: &mut S,
    layers: &Layers,
    own: &Overlay,
    key: &Key,
) -> Result<Option<Record>, SeqError>
    ensures value { Finds (contents_seen own.now layers.now.changes (S.contents base.old))
        result (get key.now) }
    ensures valid { contents_seen own.now layers.now.changes (S.contents base.old) ≡ None
        → IfOk result IsRecordOfTrees }
    ensures unchanged { S.unchanged base.old base.new }
    ensures reads { S.reads base.new ≤ S.reads base.old + 1 }
    ensures cause { HasCause DiskFault (S.count base.old) (S.count base.new) result }
{
    let _faults = base.faults();
    match change_at(layers, own, key) {
        Some(change) => Ok(change.now.copy(alloc)?),
        None => base.get(alloc, key),
    }
}

/// The change of a key in the overlay, or else in the layers.
fn change_at<'o>(layers: &'o Layers, own: &'o Overlay, key: &Key) -> Option<&'o Change>
    ensures value { option_map (λ c. c.now) (option_copied result) ≡ now_at key.now (laid own.now layers.now.changes) }
    ensures own { IsChangeList own.now }
    ensures layers { IsChangeList layers.now.changes }
{
    layers.is_list();
    match own.at(key) {
        Some(change) => Some(change),
        None => layers.at(key),
    }
}

/// How far a walk has come, where it isn't still at its key, and the nearest change ahead of there.
#[derive(Drop)]
struct Come<'o> {
    at: Option<Key>,
    next: Option<&'o Change>,
}

/// So many steps over deletions are made without being kept.
const FEW: usize = 4;

/// Passes over what is gone ahead of a key, and comes to one behind which no deletion comes first.
/// It answers the stretch that was passed, too, where that is worth to be kept.
fn pass_gone<'g, 'o: 'g, S: NodeRead>(
    alloc: Global,
    base: &mut S,
    layers: &'o Layers,
    own: &'o Overlay,
    gaps: &'g Gaps,
    toward: Direction,
    key: &'g Key,
    hint: &mut Hint,
) -> Result<(Come<'o>, Option<Stretch>), SeqError>
    requires empty { AreEmptyIn gaps.now
        (contents_seen own.now layers.now.changes (S.contents base.old)) }
    ensures come { IfOk result (λ c. HasCome toward key.now (laid own.now layers.now.changes) (S.contents base.old) (unwrap_or c.0.at key.now)) }
    ensures next { IfOk result (λ c. IsNearestChange toward (unwrap_or c.0.at key.now)
        (laid own.now layers.now.changes) (option_copied c.0.next)) }
    ensures passed { IfOk result (λ c. IfSome c.1 (λ s.
        IfKnown (contents_seen own.now layers.now.changes (S.contents base.old)) (IsEmpty s))) }
    ensures noted { IfOk result (λ c. HasCovered S.reads base.old base.new toward key.now c.0.at
        (laid own.now layers.now.changes) gaps.now (with_piece c.1 [])) }
    ensures own { IsChangeList own.now }
    ensures layers { IsChangeList layers.now.changes }
    ensures unchanged { S.unchanged base.old base.new }
    ensures reads { OnOk result (S.reads base.new ≤ S.reads base.old + most_steps toward key.now gaps.now (laid own.now layers.now.changes)) }
    ensures all_reads { S.reads base.new ≤ S.reads base.old + (1 + most_steps toward key.now gaps.now (laid own.now layers.now.changes)) }
    ensures cause { HasCause DiskFault (S.count base.old) (S.count base.new) result }
{
    let _faults = base.faults();
    let mut at = gaps.skip(toward, key);
    let mut near = if_ahead(toward, key, at);
    let mut steps: usize = 0;
    let mut change = change_ahead(layers, own, toward, at, hint);
    while let Some(gone) = next_gone(alloc, base, toward, at, change)? {
        near = near.or(Some(gone));
        at = gaps.skip(toward, gone);
        steps = steps.saturating_add(1);
        change = change_ahead(layers, own, toward, at, hint);
    }
    let stretch = spanned(alloc, toward, near, at, steps)?;
    let at = copy_other(alloc, toward, key, at)?;
    Ok((Come { at, next: change }, stretch))
}

/// A key where it lies ahead of another.
fn if_ahead<'k>(toward: Direction, key: &Key, at: &'k Key) -> Option<&'k Key>
    ensures ahead { IfSome (option_copied result) (λ n. Ahead toward key.now n) }
    ensures same { IfSome (option_copied result) (λ n. n ≡ at.now) }
{
    if toward.order(key, at).is_lt() {
        Some(at)
    } else {
        None
    }
}

/// A copy of a key that may be another one; nothing where it is the same.
fn copy_other(
    alloc: Global,
    toward: Direction,
    key: &Key,
    at: &Key,
) -> Result<Option<Key>, NoMemory>
    ensures { IfOk result (λ other. unwrap_or other key.now ≡ at.now) }
{
    match toward.order(key, at) {
        Ordering::Equal => Ok(None),
        _ => Ok(Some(at.copy(alloc)?)),
    }
}

/// The key of a change that is a deletion.
fn deletion(change: Option<&Change>) -> Option<&Key>
    ensures { option_copied result ≡ key_gone (option_copied change.entry) }
{
    match change {
        Some(next) => match &next.now {
            Some(_) => None,
            None => Some(&next.key),
        },
        None => None,
    }
}

/// The key of the nearest change, where that is a deletion and the base has nothing before it.
fn next_gone<'o, S: NodeRead>(
    alloc: Global,
    base: &mut S,
    toward: Direction,
    at: &Key,
    change: Option<&'o Change>,
) -> Result<Option<&'o Key>, SeqError>
    ensures value { IfOk result (λ gone. IfKnown (S.contents base.old) (λ es.
        option_copied gone ≡ gone_beside toward at.now (option_copied change.entry) es)) }
    ensures gone { IfOk result (λ gone. IfSome (option_copied gone) (λ k. key_gone (option_copied change.entry) ≡ Some k)) }
    ensures unchanged { S.unchanged base.old base.new }
    ensures unread { key_gone (option_copied change.entry) ≡ None → S.reads base.new ≤ S.reads base.old }
    ensures reads { S.reads base.new ≤ S.reads base.old + 1 }
    ensures cause { HasCause DiskFault (S.count base.old) (S.count base.new) result }
{
    let Some(gone) = deletion(change) else {
        return Ok(None);
    };
    let found = base_key(alloc, base, toward, at)?;
    Ok(if_first(toward, &found, gone))
}

/// A key, unless the one that was found lies before it.
fn if_first<'o>(toward: Direction, found: &Option<Key>, key: &'o Key) -> Option<&'o Key>
    ensures value { option_copied result ≡ cond (key_before toward found.now key.now) None (Some key.now) }
    ensures key { IfSome (option_copied result) (λ k. k ≡ key.now) }
{
    match found {
        Some(at) if toward.order(at, key).is_lt() => None,
        _ => Some(key),
    }
}

/// The stretch that was passed, where it took more than a few steps.
fn spanned(
    alloc: Global,
    toward: Direction,
    near: Option<&Key>,
    at: &Key,
    steps: usize,
) -> Result<Option<Stretch>, NoMemory>
    ensures spans { IfOk result (λ passed. IfSome passed (Spans toward (option_copied near.entry) at.now)) }
    ensures few { IfOk result (λ passed. passed ≡ None → (option_copied near.entry ≡ None) ⊎ (steps ≤ 4)) }
{
    match near {
        Some(near) if steps > FEW => Ok(Some(Stretch::between(alloc, toward, near, at, steps)?)),
        _ => Ok(None),
    }
}

/// Passes over what is gone ahead of a key, and notes the stretch that was passed. It answers how far it came.
fn note_gone<'o, S: NodeRead>(
    alloc: Global,
    base: &mut S,
    layers: &'o Layers,
    own: &'o Overlay,
    gaps: &mut Gaps,
    toward: Direction,
    key: &Key,
) -> Result<Come<'o>, SeqError>
    requires empty { AreEmptyIn gaps.old
        (contents_seen own.now layers.now.changes (S.contents base.old)) }
    ensures come { IfOk result (λ c. HasCome toward key.now (laid own.now layers.now.changes) (S.contents base.old) (unwrap_or c.at key.now)) }
    ensures next { IfOk result (λ c. IsNearestChange toward (unwrap_or c.at key.now)
        (laid own.now layers.now.changes) (option_copied c.next)) }
    ensures empty { AreEmptyIn gaps.new
        (contents_seen own.now layers.now.changes (S.contents base.old)) }
    ensures noted { IfOk result (λ c. HasCovered S.reads base.old base.new toward key.now c.at
        (laid own.now layers.now.changes) gaps.old gaps.new) }
    ensures own { IsChangeList own.now }
    ensures layers { IsChangeList layers.now.changes }
    ensures unchanged { S.unchanged base.old base.new }
    ensures reads { OnOk result (S.reads base.new ≤ S.reads base.old + most_steps toward key.now gaps.old (laid own.now layers.now.changes)) }
    ensures all_reads { S.reads base.new ≤ S.reads base.old + (1 + most_steps toward key.now gaps.old (laid own.now layers.now.changes)) }
    ensures cause { HasCause DiskFault (S.count base.old) (S.count base.new) result }
{
    let mut hint = gaps.hint();
    let (come, stretch) = pass_gone(alloc, base, layers, own, gaps, toward, key, &mut hint)?;
    gaps.keep_hint(hint);
    note_if(gaps, stretch)?;
    Ok(come)
}

/// Notes a stretch where there is one, and answers the one that went for it.
fn note_if(gaps: &mut Gaps, stretch: Option<Stretch>) -> Result<Option<Stretch>, NoMemory>
    ensures within { AreWithin gaps.new (with_piece stretch gaps.old) }
    ensures noted { OnOk result (AreWithin (with_piece stretch []) gaps.new) }
{
    match stretch {
        Some(stretch) => gaps.note(stretch),
        None => Ok(None),
    }
}

/// How far a walk has come: the key itself where it came to no other.
fn place<'k>(at: &'k Option<Key>, key: &'k Key) -> &'k Key
    ensures { result.now ≡ unwrap_or at.now key.now }
{
    match at {
        Some(at) => at,
        None => key,
    }
}

/// The change of the nearest key ahead in the layers and the overlay.
fn change_ahead<'o>(
    layers: &'o Layers,
    own: &'o Overlay,
    toward: Direction,
    key: &Key,
    hint: &mut Hint,
) -> Option<&'o Change>
    ensures nearest { IsNearestChange toward key.now (laid own.now layers.now.changes)
        (option_copied result) }
    ensures own { IsChangeList own.now }
    ensures layers { IsChangeList layers.now.changes }
{
    let below = layers.beside(toward, key, hint);
    own.beside(toward, key, below, hint)
}

/// The entry at the nearest key ahead in the base.
fn base_beside<S: NodeRead>(
    alloc: Global,
    base: &mut S,
    toward: Direction,
    key: &Key,
) -> Result<Option<(Key, Record)>, SeqError>
    ensures value { Finds (S.contents base.old) result (entry_beside toward key.now) }
    ensures ahead { IfOk result (LiesAhead toward key.now) }
    ensures valid { S.contents base.old ≡ None → IfOk result IsEntryOfTrees }
    ensures unchanged { S.unchanged base.old base.new }
    ensures reads { S.reads base.new ≤ S.reads base.old + 1 }
    ensures cause { HasCause DiskFault (S.count base.old) (S.count base.new) result }
{
    match toward {
        Direction::Up => base.next_from(alloc, key),
        Direction::Down => base.prev_from(alloc, key),
    }
}

/// The nearest key ahead in the base.
fn base_key<S: NodeRead>(
    alloc: Global,
    base: &mut S,
    toward: Direction,
    key: &Key,
) -> Result<Option<Key>, SeqError>
    ensures value { Finds (S.contents base.old) result (key_beside toward key.now) }
    ensures ahead { IfOk result (KeyLiesAhead toward key.now) }
    ensures valid { S.contents base.old ≡ None → IfOk result IsKeyOfTrees }
    ensures unchanged { S.unchanged base.old base.new }
    ensures reads { S.reads base.new ≤ S.reads base.old + 1 }
    ensures cause { HasCause DiskFault (S.count base.old) (S.count base.new) result }
{
    match toward {
        Direction::Up => base.key_above(alloc, key),
        Direction::Down => base.key_below(alloc, key),
    }
}

/// What comes first of what the base has and the nearest change, where that is no deletion.
fn first_of(
    alloc: Global,
    toward: Direction,
    found: Option<(Key, Record)>,
    change: Option<&Change>,
) -> Result<Option<(Key, Record)>, NoMemory>
    ensures { IfOk result (λ entry. entry ≡ first_seen toward found (option_copied change.entry)) }
{
    match change {
        Some(next) if !lies_before(toward, &found, &next.key) => match &next.now {
            Some(put) => copy_entry(alloc, &next.key, put),
            None => Ok(None),
        },
        _ => Ok(found),
    }
}

/// Whether what was found lies before a key.
fn lies_before(toward: Direction, found: &Option<(Key, Record)>, key: &Key) -> bool
    ensures { result ≡ comes_before toward found.now key.now }
{
    match found {
        Some((at, _)) => toward.order(at, key).is_lt(),
        None => false,
    }
}

fn copy_entry(alloc: Global, key: &Key, put: &Record) -> Result<Option<(Key, Record)>, NoMemory>
    ensures { IfOk result (λ copy. copy ≡ Some (key.now, put.now)) }
{
    Ok(Some((key.copy(alloc)?, put.copy(alloc)?)))
}

/// The key of what comes first, as `first_of`; no record is copied.
fn first_key(
    alloc: Global,
    toward: Direction,
    found: Option<Key>,
    change: Option<&Change>,
) -> Result<Option<Key>, NoMemory>
    ensures { IfOk result (λ first. first ≡ first_key_seen toward found (option_copied change.entry)) }
{
    match change {
        Some(next) if !key_lies_before(toward, &found, &next.key) => match &next.now {
            Some(_) => Ok(Some(next.key.copy(alloc)?)),
            None => Ok(None),
        },
        _ => Ok(found),
    }
}

/// Whether the key that was found lies before another.
fn key_lies_before(toward: Direction, found: &Option<Key>, key: &Key) -> bool
    ensures { result ≡ key_before toward found.now key.now }
{
    match found {
        Some(at) => toward.order(at, key).is_lt(),
        None => false,
    }
}

/// The entry at the nearest key ahead of one behind which no deletion comes first, where the nearest change is known.
fn seen_behind<S: NodeRead>(
    alloc: Global,
    base: &mut S,
    toward: Direction,
    at: &Key,
    next: Option<&Change>,
) -> Result<Option<(Key, Record)>, SeqError>
    ensures value { IfOk result (λ found.
        IfSettled toward at.now (option_copied next.entry) (S.contents base.old)
        (λ cs es. Sees toward at.now cs es found)) }
    ensures ahead { IfNearest toward at.now (option_copied next.entry)
        (λ cs. IfOk result (LiesAhead toward at.now)) }
    ensures valid { IfNearest toward at.now (option_copied next.entry) (λ cs. IsChangeList cs
        → S.contents base.old ≡ None → IfOk result IsEntryOfTrees) }
    ensures unchanged { S.unchanged base.old base.new }
    ensures reads { S.reads base.new ≤ S.reads base.old + 1 }
    ensures cause { HasCause DiskFault (S.count base.old) (S.count base.new) result }
{
    let _faults = base.faults();
    let found = base_beside(alloc, base, toward, at)?;
    Ok(first_of(alloc, toward, found, next)?)
}

/// The nearest key ahead of one behind which no deletion comes first, where the nearest change is known; no record is copied.
fn key_behind<S: NodeRead>(
    alloc: Global,
    base: &mut S,
    toward: Direction,
    at: &Key,
    next: Option<&Change>,
) -> Result<Option<Key>, SeqError>
    ensures value { IfOk result (λ found.
        IfSettled toward at.now (option_copied next.entry) (S.contents base.old)
        (λ cs es. SeesKey toward at.now cs es found)) }
    ensures ahead { IfNearest toward at.now (option_copied next.entry)
        (λ cs. IfOk result (KeyLiesAhead toward at.now)) }
    ensures valid { IfNearest toward at.now (option_copied next.entry) (λ cs. IsChangeList cs
        → S.contents base.old ≡ None → IfOk result IsKeyOfTrees) }
    ensures unchanged { S.unchanged base.old base.new }
    ensures reads { S.reads base.new ≤ S.reads base.old + 1 }
    ensures cause { HasCause DiskFault (S.count base.old) (S.count base.new) result }
{
    let _faults = base.faults();
    let found = base_key(alloc, base, toward, at)?;
    Ok(first_key(alloc, toward, found, next)?)
}

/// The entry at the nearest key ahead, with the changes laid over the base; what was passed on the way is noted.
pub(crate) fn seen_beside<S: NodeRead>(
    alloc: Global,
    base: &mut S,
    layers: &Layers,
    own: &Overlay,
    gaps: &mut Gaps,
    toward: Direction,
    key: &Key,
) -> Result<Option<(Key, Record)>, SeqError>
    requires empty { AreEmptyIn gaps.old
        (contents_seen own.now layers.now.changes (S.contents base.old)) }
    ensures value { Finds (contents_seen own.now layers.now.changes (S.contents base.old))
        result (entry_beside toward key.now) }
    ensures ahead { IfOk result (LiesAhead toward key.now) }
    ensures valid { contents_seen own.now layers.now.changes (S.contents base.old) ≡ None
        → IfOk result IsEntryOfTrees }
    ensures empty { AreEmptyIn gaps.new
        (contents_seen own.now layers.now.changes (S.contents base.old)) }
    ensures noted { IfOk result (λ found. IsNoted S.contents S.reads base.old base.new toward key.now
        own.now layers.now gaps.old gaps.new (key_found found)) }
    ensures unchanged { S.unchanged base.old base.new }
    ensures reads { S.reads base.new ≤ S.reads base.old + (1 + most_steps toward key.now gaps.old (laid own.now layers.now.changes)) }
    ensures cause { HasCause DiskFault (S.count base.old) (S.count base.new) result }
{
    let _faults = base.faults();
    let Come { at, next } = note_gone(alloc, base, layers, own, gaps, toward, key)?;
    seen_behind(alloc, base, toward, place(&at, key), next)
}

/// The nearest key ahead, with the changes laid over the base; what was passed on the way is noted, and no record is copied.
pub(crate) fn key_seen_beside<S: NodeRead>(
    alloc: Global,
    base: &mut S,
    layers: &Layers,
    own: &Overlay,
    gaps: &mut Gaps,
    toward: Direction,
    key: &Key,
) -> Result<Option<Key>, SeqError>
    requires empty { AreEmptyIn gaps.old
        (contents_seen own.now layers.now.changes (S.contents base.old)) }
    ensures value { Finds (contents_seen own.now layers.now.changes (S.contents base.old))
        result (key_beside toward key.now) }
    ensures ahead { IfOk result (KeyLiesAhead toward key.now) }
    ensures valid { contents_seen own.now layers.now.changes (S.contents base.old) ≡ None
        → IfOk result IsKeyOfTrees }
    ensures empty { AreEmptyIn gaps.new
        (contents_seen own.now layers.now.changes (S.contents base.old)) }
    ensures noted { IfOk result (IsNoted S.contents S.reads base.old base.new toward key.now
        own.now layers.now gaps.old gaps.new) }
    ensures unchanged { S.unchanged base.old base.new }
    ensures reads { S.reads base.new ≤ S.reads base.old + (1 + most_steps toward key.now gaps.old (laid own.now layers.now.changes)) }
    ensures cause { HasCause DiskFault (S.count base.old) (S.count base.new) result }
{
    let _faults = base.faults();
    let Come { at, next } = note_gone(alloc, base, layers, own, gaps, toward, key)?;
    key_behind(alloc, base, toward, place(&at, key), next)
}

// A view keeps no count of reads itself (`reads`); those of its base are told (`of_base`).
impl<'a, S: NodeRead> NodeRead for View<'a, S> {
    ghost use Rattle.std.specs.Prelude.{◌≡◌, refl};
    ghost use Rattle.std.proofs.Common.{◌∙◌, sym, ap};
    ghost use Rattle.overlays.specs.Layered.{Layered};
    ghost use Rattle.overlays.specs.ViewReads.{changes_in_view, map_in_view, IsSameView, IsNotedInView};
    ghost use Rattle.overlays.specs.Views.{contents_after};

    ghost contents = { λ v. contents_seen v.own.now v.layers.now.changes (S.contents v.base.now) };

    ghost count = { λ v. S.count v.base.now };

    ghost unchanged = { λ v w. S.unchanged v.base.now w.base.now × (v.layers.now ≡ w.layers.now) × (v.own.now ≡ w.own.now) × (v.base.ghost_name ≡ w.base.ghost_name) × (v.gaps.ghost_name ≡ w.gaps.ghost_name) };

    fn get(&mut self, alloc: Global, key: &Key) -> Result<Option<Record>, SeqError>
        ensures value { Finds (map_in_view self.old) result (get key.now) }
        ensures valid { map_in_view self.old ≡ None → IfOk result IsRecordOfTrees }
        ensures unchanged { IsSameView self.old self.new }
        ensures reads { 0 ≤ 0 + 1 }
        ensures of_base { S.reads self.new.base.now ≤ S.reads self.old.base.now + 1 }
        ensures cause { HasCause DiskFault (S.count self.old.base.now) (S.count self.new.base.now) result }
    {
        seen_at(alloc, self.base, self.layers, self.own, key)
    }

    fn next_from(&mut self, alloc: Global, key: &Key) -> Result<Option<(Key, Record)>, SeqError>
        ensures value { Finds (map_in_view self.old) result (first_above key.now) }
        ensures above { IfOk result (LiesAbove key.now) }
        ensures valid { map_in_view self.old ≡ None → IfOk result IsEntryOfTrees }
        ensures unchanged { IsSameView self.old self.new }
        ensures reads { 0 ≤ 0 + 1 }
        ensures of_base { S.reads self.new.base.now ≤ S.reads self.old.base.now
            + (1 + most_steps Up key.now self.old.gaps.now (changes_in_view self.old)) }
        ensures noted { IfOk result (λ found.
            IsNotedInView self.old self.new Up key.now (key_found found)) }
        ensures cause { HasCause DiskFault (S.count self.old.base.now) (S.count self.new.base.now) result }
    {
        seen_beside(
            alloc,
            self.base,
            self.layers,
            self.own,
            self.gaps,
            Direction::Up,
            key,
        )
    }

    fn prev_from(&mut self, alloc: Global, key: &Key) -> Result<Option<(Key, Record)>, SeqError>
        ensures value { Finds (map_in_view self.old) result (last_below key.now) }
        ensures below { IfOk result (LiesBelow key.now) }
        ensures valid { map_in_view self.old ≡ None → IfOk result IsEntryOfTrees }
        ensures unchanged { IsSameView self.old self.new }
        ensures reads { 0 ≤ 0 + 1 }
        ensures of_base { S.reads self.new.base.now ≤ S.reads self.old.base.now
            + (1 + most_steps Down key.now self.old.gaps.now (changes_in_view self.old)) }
        ensures noted { IfOk result (λ found.
            IsNotedInView self.old self.new Down key.now (key_found found)) }
        ensures cause { HasCause DiskFault (S.count self.old.base.now) (S.count self.new.base.now) result }
    {
        seen_beside(
            alloc,
            self.base,
            self.layers,
            self.own,
            self.gaps,
            Direction::Down,
            key,
        )
    }

    fn key_above(&mut self, alloc: Global, key: &Key) -> Result<Option<Key>, SeqError>
        ensures value { Finds (map_in_view self.old) result (key_above key.now) }
        ensures above { IfOk result (IsKeyAbove key.now) }
        ensures valid { map_in_view self.old ≡ None → IfOk result IsKeyOfTrees }
        ensures unchanged { IsSameView self.old self.new }
        ensures reads { 0 ≤ 0 + 1 }
        ensures of_base { S.reads self.new.base.now ≤ S.reads self.old.base.now
            + (1 + most_steps Up key.now self.old.gaps.now (changes_in_view self.old)) }
        ensures noted { IfOk result (IsNotedInView self.old self.new Up key.now) }
        ensures cause { HasCause DiskFault (S.count self.old.base.now) (S.count self.new.base.now) result }
    {
        key_seen_beside(
            alloc,
            self.base,
            self.layers,
            self.own,
            self.gaps,
            Direction::Up,
            key,
        )
    }

    fn key_below(&mut self, alloc: Global, key: &Key) -> Result<Option<Key>, SeqError>
        ensures value { Finds (map_in_view self.old) result (key_below key.now) }
        ensures below { IfOk result (IsKeyBelow key.now) }
        ensures valid { map_in_view self.old ≡ None → IfOk result IsKeyOfTrees }
        ensures unchanged { IsSameView self.old self.new }
        ensures reads { 0 ≤ 0 + 1 }
        ensures of_base { S.reads self.new.base.now ≤ S.reads self.old.base.now
            + (1 + most_steps Down key.now self.old.gaps.now (changes_in_view self.old)) }
        ensures noted { IfOk result (IsNotedInView self.old self.new Down key.now) }
        ensures cause { HasCause DiskFault (S.count self.old.base.now) (S.count self.new.base.now) result }
    {
        key_seen_beside(
            alloc,
            self.base,
            self.layers,
            self.own,
            self.gaps,
            Direction::Down,
            key,
        )
    }

    fn faults(&self) -> u64 {
        self.base.faults()
    }

    ghost unchanged_itself = { λ v. (S.unchanged_itself v.base.now, refl, refl, refl, refl) };

    ghost unchanged_onward = { λ u v w a b. (S.unchanged_onward u.base.now v.base.now w.base.now a.0 b.0, a.1 ∙ b.1, a.2 ∙ b.2, a.3 ∙ b.3, a.4 ∙ b.4) };

    ghost unchanged_contents = { λ v w a i. contents_after (sym a.2 i) (contents_after (ap (λ (l : Layered). l.changes) (sym a.1) i) (S.unchanged_contents v.base.now w.base.now a.0 i)) };

    ghost unchanged_count = { λ v w a. S.unchanged_count v.base.now w.base.now a.0 };
}
