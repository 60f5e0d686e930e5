//! Looks that are kept, in an order.
ghost use Rattle.std.specs.Prelude.{◌≡◌, [], IfOk};
ghost use Rattle.std.proofs.Common.{rules};
ghost use Rattle.std.specs.Cmp.{partial_equiv_from_equiv, partial_order_from_own_ties};
ghost use Rattle.std.specs.Cmp.Lexicographic.{pointwise, slice_cmp};
ghost use Rattle.std.specs.Cmp.Rules.{comparing};
ghost use Rattle.std.specs.Ordering.{nat_cmp, on, eq_of_both, then_cmp, as_partial_cmp};
ghost use Rattle.std.specs.Prelude.{◌==◌};
ghost use Rattle.xpath_axes.specs.Looks.{meant};
ghost use Rattle.xpath_plans.specs.LookRequests.{mode_of, resource_of};
ghost use Rattle.xpath_plans.specs.inside.NotedLooks.{look_of, noted_of, rank};

use dewey_labels::{Label, NoMemory, Text};
use lock_modes::{Ask, Mode};
use lock_resources::Resource;
use std::alloc::Global;
use std::cmp::Ordering;
use xpath_eval::Look;

/// What is looked at.
#[derive(Clone, Copy, Debug, Drop)]
pub(crate) enum Kind {
    Node,
    Row,
    Tree,
    Attributes,
    Attribute,
}

impl Kind {
    /// Its place among them.
    fn rank(self) -> u8
        ensures { result ≡ rank self }
    {
        match self {
            Kind::Node => 0,
            Kind::Row => 1,
            Kind::Tree => 2,
            Kind::Attributes => 3,
            Kind::Attribute => 4,
        }
    }
}

/// A look, with the name of the attribute that is looked at; the name is empty for others.
#[derive(Drop)]
pub(crate) struct NotedLook {
    kind: Kind,
    label: Label,
    name: Text,
}

impl NotedLook {
    /// A copy of a look.
    pub(crate) fn of(alloc: Global, look: Look<'_>) -> Result<NotedLook, NoMemory>
        ensures { IfOk result (λ noted. noted ≡ noted_of (meant look.entry)) }
    {
        match look {
            Look::Node(at) => NotedLook::at(alloc, Kind::Node, at),
            Look::Row(at) => NotedLook::at(alloc, Kind::Row, at),
            Look::Tree(at) => NotedLook::at(alloc, Kind::Tree, at),
            Look::Attributes(at) => NotedLook::at(alloc, Kind::Attributes, at),
            Look::Attribute(at, name) => Ok(NotedLook {
                kind: Kind::Attribute,
                label: at.copy(alloc)?,
                name: name.copy(alloc)?,
            }),
        }
    }

    /// A look of this kind at a node.
    fn at(alloc: Global, kind: Kind, at: &Label) -> Result<NotedLook, NoMemory>
        ensures { IfOk result (λ noted. noted ≡ record { kind = kind; label = at.now; name = [] }) }
    {
        Ok(NotedLook {
            kind,
            label: at.copy(alloc)?,
            name: Text::of(alloc, "")?,
        })
    }

    /// Where it asks.
    pub(crate) fn resource(self) -> Resource
        ensures { result ≡ resource_of (look_of self) }
    {
        let NotedLook { kind, label, name } = self;
        match kind {
            Kind::Node | Kind::Row | Kind::Tree => Resource::Node(label),
            Kind::Attributes => Resource::AttrRoot(label),
            Kind::Attribute => Resource::Attr(label, name),
        }
    }

    /// What it asks for.
    pub(crate) fn ask(&self) -> Ask
        ensures { result ≡ mode_of (look_of self.now) }
    {
        Ask::Node(match self.kind {
            Kind::Node | Kind::Attribute => Mode::NR,
            Kind::Row | Kind::Attributes => Mode::LR,
            Kind::Tree => Mode::SR,
        })
    }
}

impl PartialEq for NotedLook {
    ghost eq = { eq_of_both (on (λ k. rank k.kind) ◌==◌) (eq_of_both (on (λ k. k.label) (pointwise ◌==◌)) (on (λ k. k.name) (pointwise ◌==◌))) };

    ghost laws = { Prim.search (comparing, rules) };

    fn eq(&self, other: &NotedLook) -> bool {
        self.kind.rank() == other.kind.rank()
            && self.label == other.label
            && self.name.as_str() == other.name.as_str()
    }
}

impl Eq for NotedLook {
    ghost laws = { Prim.search (comparing, rules) };
}

impl Ord for NotedLook {
    ghost cmp = { then_cmp (on (λ k. rank k.kind) nat_cmp) (then_cmp (on (λ k. k.label) (slice_cmp nat_cmp)) (on (λ k. k.name) (slice_cmp nat_cmp))) };

    ghost total = { Prim.search (comparing, rules) };

    ghost matches_partial_cmp = { Prim.search (comparing, rules) };

    ghost matches_eq = { Prim.search (comparing, rules) };

    fn cmp(&self, other: &NotedLook) -> Ordering {
        match self.kind.rank().cmp(&other.kind.rank()) {
            Ordering::Equal => match self.label.cmp(&other.label) {
                Ordering::Equal => self.name.as_str().cmp(other.name.as_str()),
                order => order,
            },
            order => order,
        }
    }
}

impl PartialOrd for NotedLook {
    ghost partial_cmp = { as_partial_cmp (then_cmp (on (λ k. rank k.kind) nat_cmp) (then_cmp (on (λ k. k.label) (slice_cmp nat_cmp)) (on (λ k. k.name) (slice_cmp nat_cmp)))) };

    ghost laws = { partial_order_from_own_ties (Prim.search (comparing, rules)) (Prim.search (comparing, rules)) };

    fn partial_cmp(&self, other: &NotedLook) -> Option<Ordering> {
        Some(self.cmp(other))
    }
}
