// A map that owns its base and the layers over it.
ghost use Rattle.std.specs.Prelude.{◌≡◌, ◌≤◌, ◌+◌, None, IfOk, []};
ghost use Rattle.outside_traits.specs.Faults.{HasCause};
ghost use Rattle.tree_model.specs.Entries.{get, first_above, last_below};
ghost use Rattle.node_seq.specs.declared.node_read.SeqError.TheVariants.{DiskFault};
ghost use Rattle.node_seq.specs.Reads.{Finds, IsEntryOfTrees, IsRecordOfTrees, IsKeyOfTrees, LiesAbove, LiesBelow, key_above, key_below, IsKeyAbove, IsKeyBelow};
ghost use Rattle.overlays.specs.Views.{contents_after};
ghost use Rattle.overlays.specs.Steps.{most_steps, key_found, IsNotedInStack};
ghost use Rattle.overlays.specs.declared.direction.Direction.TheVariants.{Up, Down};

use crate::direction::Direction;
use crate::view::{key_seen_beside, seen_at, seen_beside};
use crate::{Gaps, Layers, Overlay};
use node_seq::{NodeRead, SeqError};
use std::alloc::Global;
use std::marker::Model;
use tree_model::{Key, Record};

/// A base changed by the layers over it, as a map that owns both, seen with the stretches of keys that its reads have found empty.
///
/// A read asks each run of changes by one binary search, and the base once (`of_base`). A read to the side of a key asks the base again for each deletion
/// that it passes; what took more than a few such steps is noted, and the next reads jump over it (`noted`).
#[derive(Drop)]
pub struct Stacked<B: NodeRead + Drop> {
    base: B,
    layers: Layers,
    /// Where nothing is seen, as far as earlier reads have found it.
    gaps: Gaps,
    /// Nothing, for the reads that take an overlay beside the layers.
    none: Overlay,
}

impl<B: NodeRead + Drop> Model for Stacked<B> {
    ghost use Rattle.std.specs.Prelude.{◌≡◌, []};
    ghost use Rattle.overlays.specs.Layered.{Stack};
    ghost use Rattle.overlays.specs.Views.{AreEmptyIn, contents_seen};

    ghost Value = { Stack B };

    ghost view = { λ s. record { base = s.base; layers = s.layers; gaps = s.gaps } };

    ghost invariant = { λ s. (s.none ≡ []) × AreEmptyIn s.gaps (contents_seen s.none s.layers.changes (B.contents s.base)) };
}

impl<B: NodeRead + Drop> Stacked<B> {
    /// The base under the layers. It takes no memory.
    pub fn new(base: B, layers: Layers) -> Stacked<B>
        ensures base { result.base ≡ base }
        ensures layers { result.layers ≡ layers }
        ensures gaps { result.gaps ≡ [] }
    {
        let gaps = Gaps::new(layers.allocator());
        let none = Overlay::new(layers.allocator());
        Stacked {
            base,
            layers,
            gaps,
            none,
        }
    }

    /// The base and the layers, as they were given.
    pub fn into_parts(self) -> (B, Layers)
        ensures base { result.0 ≡ self.base }
        ensures layers { result.1 ≡ self.layers }
    {
        (self.base, self.layers)
    }
}

// A stacked map keeps no count of reads itself (`reads`); those of its base are told (`of_base`).
impl<B: NodeRead + Drop> NodeRead for Stacked<B> {
    ghost use Rattle.std.specs.Prelude.{◌≡◌, refl};
    ghost use Rattle.std.proofs.Common.{◌∙◌, sym, ap};
    ghost use Rattle.overlays.specs.Layered.{Layered};
    ghost use Rattle.overlays.specs.Views.{contents_after};

    ghost contents = { λ s. contents_after s.layers.changes (B.contents s.base) };

    ghost count = { λ s. B.count s.base };

    ghost unchanged = { λ s t. B.unchanged s.base t.base × (s.layers ≡ t.layers) };

    fn get(&mut self, alloc: Global, key: &Key) -> Result<Option<Record>, SeqError>
        ensures value { Finds (contents_after self.old.layers.changes (B.contents self.old.base)) result (get key.now) }
        ensures valid { contents_after self.old.layers.changes (B.contents self.old.base) ≡ None → IfOk result IsRecordOfTrees }
        ensures unchanged { B.unchanged self.old.base self.new.base × (self.old.layers ≡ self.new.layers) }
        ensures reads { 0 ≤ 0 + 1 }
        ensures of_base { B.reads self.new.base ≤ B.reads self.old.base + 1 }
        ensures cause { HasCause DiskFault (B.count self.old.base) (B.count self.new.base) result }
    {
        seen_at(alloc, &mut self.base, &self.layers, &self.none, key)
    }

    fn next_from(&mut self, alloc: Global, key: &Key) -> Result<Option<(Key, Record)>, SeqError>
        ensures value { Finds (contents_after self.old.layers.changes (B.contents self.old.base)) result (first_above key.now) }
        ensures above { IfOk result (LiesAbove key.now) }
        ensures valid { contents_after self.old.layers.changes (B.contents self.old.base) ≡ None → IfOk result IsEntryOfTrees }
        ensures unchanged { B.unchanged self.old.base self.new.base × (self.old.layers ≡ self.new.layers) }
        ensures reads { 0 ≤ 0 + 1 }
        ensures of_base { B.reads self.new.base ≤ B.reads self.old.base + (1 + most_steps Up key.now self.old.gaps self.old.layers.changes) }
        ensures noted { IfOk result (λ found.
            IsNotedInStack B.contents B.reads self.old self.new Up key.now (key_found found)) }
        ensures cause { HasCause DiskFault (B.count self.old.base) (B.count self.new.base) result }
    {
        seen_beside(
            alloc,
            &mut self.base,
            &self.layers,
            &self.none,
            &mut self.gaps,
            Direction::Up,
            key,
        )
    }

    fn prev_from(&mut self, alloc: Global, key: &Key) -> Result<Option<(Key, Record)>, SeqError>
        ensures value { Finds (contents_after self.old.layers.changes (B.contents self.old.base)) result (last_below key.now) }
        ensures below { IfOk result (LiesBelow key.now) }
        ensures valid { contents_after self.old.layers.changes (B.contents self.old.base) ≡ None → IfOk result IsEntryOfTrees }
        ensures unchanged { B.unchanged self.old.base self.new.base × (self.old.layers ≡ self.new.layers) }
        ensures reads { 0 ≤ 0 + 1 }
        ensures of_base { B.reads self.new.base ≤ B.reads self.old.base + (1 + most_steps Down key.now self.old.gaps self.old.layers.changes) }
        ensures noted { IfOk result (λ found.
            IsNotedInStack B.contents B.reads self.old self.new Down key.now (key_found found)) }
        ensures cause { HasCause DiskFault (B.count self.old.base) (B.count self.new.base) result }
    {
        seen_beside(
            alloc,
            &mut self.base,
            &self.layers,
            &self.none,
            &mut self.gaps,
            Direction::Down,
            key,
        )
    }

    fn key_above(&mut self, alloc: Global, key: &Key) -> Result<Option<Key>, SeqError>
        ensures value { Finds (contents_after self.old.layers.changes (B.contents self.old.base)) result (key_above key.now) }
        ensures above { IfOk result (IsKeyAbove key.now) }
        ensures valid { contents_after self.old.layers.changes (B.contents self.old.base) ≡ None → IfOk result IsKeyOfTrees }
        ensures unchanged { B.unchanged self.old.base self.new.base × (self.old.layers ≡ self.new.layers) }
        ensures reads { 0 ≤ 0 + 1 }
        ensures of_base { B.reads self.new.base ≤ B.reads self.old.base + (1 + most_steps Up key.now self.old.gaps self.old.layers.changes) }
        ensures noted { IfOk result
            (IsNotedInStack B.contents B.reads self.old self.new Up key.now) }
        ensures cause { HasCause DiskFault (B.count self.old.base) (B.count self.new.base) result }
    {
        key_seen_beside(
            alloc,
            &mut self.base,
            &self.layers,
            &self.none,
            &mut self.gaps,
            Direction::Up,
            key,
        )
    }

    fn key_below(&mut self, alloc: Global, key: &Key) -> Result<Option<Key>, SeqError>
        ensures value { Finds (contents_after self.old.layers.changes (B.contents self.old.base)) result (key_below key.now) }
        ensures below { IfOk result (IsKeyBelow key.now) }
        ensures valid { contents_after self.old.layers.changes (B.contents self.old.base) ≡ None → IfOk result IsKeyOfTrees }
        ensures unchanged { B.unchanged self.old.base self.new.base × (self.old.layers ≡ self.new.layers) }
        ensures reads { 0 ≤ 0 + 1 }
        ensures of_base { B.reads self.new.base ≤ B.reads self.old.base + (1 + most_steps Down key.now self.old.gaps self.old.layers.changes) }
        ensures noted { IfOk result
            (IsNotedInStack B.contents B.reads self.old self.new Down key.now) }
        ensures cause { HasCause DiskFault (B.count self.old.base) (B.count self.new.base) result }
    {
        key_seen_beside(
            alloc,
            &mut self.base,
            &self.layers,
            &self.none,
            &mut self.gaps,
            Direction::Down,
            key,
        )
    }

    fn faults(&self) -> u64 {
        self.base.faults()
    }

    ghost unchanged_itself = { λ s. (B.unchanged_itself s.base, refl) };

    ghost unchanged_onward = { λ s t u a b. (B.unchanged_onward s.base t.base u.base a.0 b.0, a.1 ∙ b.1) };

    ghost unchanged_contents = { λ s t a i. contents_after (ap (λ (l : Layered). l.changes) (sym a.1) i) (B.unchanged_contents s.base t.base a.0 i) };

    ghost unchanged_count = { λ s t a. B.unchanged_count s.base t.base a.0 };
}
