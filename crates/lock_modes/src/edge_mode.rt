//! The lock modes of edges.
ghost use Rattle.std.specs.Prelude.{◌≡◌, ◌&&◌};
ghost use Rattle.lock_modes.specs.EdgeModes.{edge_join, edge_compatible};
ghost use Rattle.lock_modes.specs.PrintedTables.{printed_edge};

/// A lock mode of an edge: what stands first or last below a node, or next to one.
#[derive(Debug, Drop, Clone, Copy, PartialEq, Eq)]
pub enum EdgeMode {
    /// Edge read: it is read which node stands there, or that none does.
    ER,
    /// Edge exclusive: a node is placed there or taken out.
    EX,
}

impl EdgeMode {
    /// The greater of the two: what one owner holds after it was granted both.
    pub fn join(self, other: EdgeMode) -> EdgeMode
        ensures rule { result ≡ edge_join self other }
        ensures associative { (third : EdgeMode) → edge_join (edge_join self other) third ≡ edge_join self (edge_join other third) }
        ensures commutative { edge_join self other ≡ edge_join other self }
        ensures idempotent { edge_join self self ≡ self }
        ensures compatible { (third : EdgeMode) → edge_compatible (edge_join self other) third ≡ (edge_compatible self third && edge_compatible other third) }
    {
        match (self, other) {
            (EdgeMode::ER, EdgeMode::ER) => EdgeMode::ER,
            _ => EdgeMode::EX,
        }
    }

    /// Whether two owners may hold these modes at one edge.
    pub fn compatible(self, other: EdgeMode) -> bool
        ensures rule { result ≡ edge_compatible self other }
        ensures table { result ≡ printed_edge self other }
        ensures symmetric { edge_compatible self other ≡ edge_compatible other self }
    {
        self == EdgeMode::ER && other == EdgeMode::ER
    }
}
