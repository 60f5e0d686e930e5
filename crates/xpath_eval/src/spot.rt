//! Where it is kept whether a predicate keeps a node.
ghost use Rattle.std.specs.Prelude.{◌==◌};
ghost use Rattle.std.proofs.Common.{rules};
ghost use Rattle.std.specs.Cmp.{partial_equiv_from_equiv, partial_order_from_own_ties};
ghost use Rattle.std.specs.Cmp.Lexicographic.{pointwise, slice_cmp};
ghost use Rattle.std.specs.Cmp.Rules.{comparing};
ghost use Rattle.std.specs.Ordering.{nat_cmp, on, eq_of_both, then_cmp, as_partial_cmp};

use crate::tests::{hangs_on_document, is_free};
use dewey_labels::{Label, NoMemory, Text};
use path_model::Expr;
use std::alloc::Global;
use std::cmp::Ordering;
use xpath_axes::{Position, document_label};

/// A predicate, and as much of where it is tested as it hangs on: the document's label, or the node's with an attribute's name.
/// The number is made of the predicate's place among those that are kept, and of the node's place among so many where that matters;
/// where two of them have one number, what is kept of one gives way to the other.
#[derive(Drop)]
pub(crate) struct Spot {
    number: u64,
    label: Label,
    name: Text,
}

impl Spot {
    /// Where it is kept for a node.
    pub(crate) fn of(
        alloc: Global,
        index: usize,
        test: &Expr,
        at: &Position,
        proximity: usize,
        size: usize,
    ) -> Result<Spot, NoMemory> {
        if hangs_on_document(test) {
            return Ok(Spot {
                number: number(index, 0, 0),
                label: document_label(alloc, at.label())?,
                name: Text::of(alloc, "")?,
            });
        }
        let number = if is_free(test) {
            number(index, 0, 0)
        } else {
            number(index, proximity, size)
        };
        Ok(Spot {
            number,
            label: at.label().copy(alloc)?,
            name: Text::of(alloc, at.key_name())?,
        })
    }
}

/// Three small numbers in one.
fn number(index: usize, proximity: usize, size: usize) -> u64 {
    let places = (proximity as u64)
        .wrapping_mul(1 << 24)
        .wrapping_add(size as u64);
    (index as u64).wrapping_mul(1 << 48).wrapping_add(places)
}

impl PartialEq for Spot {
    ghost eq = { eq_of_both (on (λ k. k.number) ◌==◌) (eq_of_both (on (λ k. k.label) (pointwise ◌==◌)) (on (λ k. k.name) (pointwise ◌==◌))) };

    ghost laws = { Prim.search (comparing, rules) };

    fn eq(&self, other: &Spot) -> bool {
        self.number == other.number
            && self.label == other.label
            && self.name.as_str() == other.name.as_str()
    }
}

impl Eq for Spot {
    ghost laws = { Prim.search (comparing, rules) };
}

impl Ord for Spot {
    ghost cmp = { then_cmp (on (λ k. k.number) nat_cmp) (then_cmp (on (λ k. k.label) (slice_cmp nat_cmp)) (on (λ k. k.name) (slice_cmp nat_cmp))) };

    ghost total = { Prim.search (comparing, rules) };

    ghost matches_partial_cmp = { Prim.search (comparing, rules) };

    ghost matches_eq = { Prim.search (comparing, rules) };

    fn cmp(&self, other: &Spot) -> Ordering {
        match self.number.cmp(&other.number) {
            Ordering::Equal => match self.label.cmp(&other.label) {
                Ordering::Equal => self.name.as_str().cmp(other.name.as_str()),
                order => order,
            },
            order => order,
        }
    }
}

impl PartialOrd for Spot {
    ghost partial_cmp = { as_partial_cmp (then_cmp (on (λ k. k.number) nat_cmp) (then_cmp (on (λ k. k.label) (slice_cmp nat_cmp)) (on (λ k. k.name) (slice_cmp nat_cmp)))) };

    ghost laws = { partial_order_from_own_ties (Prim.search (comparing, rules)) (Prim.search (comparing, rules)) };

    fn partial_cmp(&self, other: &Spot) -> Option<Ordering> {
        Some(self.cmp(other))
    }
}
