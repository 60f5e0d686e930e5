//! Keys: the places of records in the map of a tree, and those that its reads seek.
ghost use Rattle.std.specs.Prelude.{◌≡◌, ◌&&◌, ◌↔◌, [], IsTrue, IfOk};
ghost use Rattle.std.proofs.Common.{rules};
ghost use Rattle.std.specs.Cmp.{partial_equiv_from_equiv, partial_order_from_own_ties};
ghost use Rattle.std.specs.Cmp.Lexicographic.{pointwise, slice_cmp};
ghost use Rattle.std.specs.Cmp.Rules.{comparing};
ghost use Rattle.std.specs.Ordering.{nat_cmp, on, eq_of_both, then_cmp, as_partial_cmp};
ghost use Rattle.std.specs.Prelude.{◌==◌};
ghost use Rattle.dewey_labels.specs.Sides.{fill};
ghost use Rattle.tree_model.specs.Keys.{IsValidKey, key_at, node_key, top_name};

use crate::{DEEPEST_LEVEL, is_name};
use dewey_labels::{Copied, Label, NoMemory, Text};
use std::alloc::Global;
use std::cmp::Ordering;

/// The place of a record: a node's own where the name is empty, otherwise that of its attribute with this name.
/// Keys are ordered by label, then by the bytes of the name.
#[derive(Debug, Drop)]
pub struct Key {
    pub label: Label,
    pub name: Text,
}

impl Key {
    /// The key of a node.
    pub fn of_node(alloc: Global, at: &Label) -> Result<Key, NoMemory>
        ensures { IfOk result (λ k. k ≡ node_key at.now) }
    {
        Key::of_attribute(alloc, at, "")
    }

    /// The key of a node's attribute.
    pub fn of_attribute(alloc: Global, at: &Label, name: &str) -> Result<Key, NoMemory>
        ensures { IfOk result (λ k. k ≡ key_at at.now name.now) }
    {
        Ok(Key {
            label: at.copy(alloc)?,
            name: Text::of(alloc, name)?,
        })
    }

    /// The key behind all attributes of a node and before all that lies under it.
    pub fn behind_attributes(alloc: Global, at: &Label) -> Result<Key, NoMemory>
        ensures { IfOk result (λ k. k ≡ key_at at.now top_name) }
    {
        Key::of_attribute(alloc, at, "\u{10FFFF}")
    }

    /// The key behind all that lies at a label and under it.
    pub fn behind_tree(alloc: Global, at: &Label) -> Result<Key, NoMemory>
        ensures { IfOk result (λ k. k ≡ key_at (fill at.now) top_name) }
    {
        Ok(Key {
            label: at.filled(alloc)?,
            name: Text::of(alloc, "\u{10FFFF}")?,
        })
    }

    /// Whether a tree may have this key: it is within the limits, and its name is empty or a Name.
    pub fn is_valid(&self) -> bool
        ensures { IsTrue result ↔ IsValidKey self.now }
    {
        let _divisions = self.label.divisions();
        self.label.level() <= DEEPEST_LEVEL
            && (self.name.as_str().is_empty() || is_name(&self.name))
    }

    pub fn copy(&self, alloc: Global) -> Result<Key, NoMemory>
        ensures { IfOk result (λ k. k ≡ self.now) }
    {
        Ok(Key {
            label: self.label.copy(alloc)?,
            name: self.name.copy(alloc)?,
        })
    }
}

impl Copied for Key {
    fn copy(&self, alloc: Global) -> Result<Key, NoMemory> {
        Key::copy(self, alloc)
    }
}

impl PartialEq for Key {
    ghost eq = { eq_of_both (on (λ k. k.label) (pointwise ◌==◌)) (on (λ k. k.name) (pointwise ◌==◌)) };

    ghost laws = { Prim.search (comparing, rules) };

    fn eq(&self, other: &Key) -> bool {
        self.label == other.label && self.name.as_str() == other.name.as_str()
    }
}

impl Eq for Key {
    ghost laws = { Prim.search (comparing, rules) };
}

impl Ord for Key {
    ghost cmp = { then_cmp (on (λ k. k.label) (slice_cmp nat_cmp)) (on (λ k. k.name) (slice_cmp nat_cmp)) };

    ghost total = { Prim.search (comparing, rules) };

    ghost matches_partial_cmp = { Prim.search (comparing, rules) };

    ghost matches_eq = { Prim.search (comparing, rules) };

    fn cmp(&self, other: &Key) -> Ordering {
        match self.label.cmp(&other.label) {
            Ordering::Equal => self.name.as_str().cmp(other.name.as_str()),
            order => order,
        }
    }
}

impl PartialOrd for Key {
    ghost partial_cmp = { as_partial_cmp (then_cmp (on (λ k. k.label) (slice_cmp nat_cmp)) (on (λ k. k.name) (slice_cmp nat_cmp))) };

    ghost laws = { partial_order_from_own_ties (Prim.search (comparing, rules)) (Prim.search (comparing, rules)) };

    fn partial_cmp(&self, other: &Key) -> Option<Ordering> {
        Some(self.cmp(other))
    }
}
