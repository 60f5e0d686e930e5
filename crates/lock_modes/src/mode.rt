//! The lock modes of nodes: each is a pair of parts, or SX above all.
ghost use Rattle.std.specs.Prelude.{◌≡◌, ◌↔◌, ◌&&◌, IsNone};
ghost use Rattle.lock_modes.specs.Modes.{parts, greater_parts, mode_of, with_parts, join, compatible};
ghost use Rattle.lock_modes.specs.PrintedTables.{printed};

use crate::{ReadPart, WritePart};

/// A lock mode of a node, of an attribute or of the attributes of a node.
/// It allows what each part of it allows; `SX` alone allows to change the node itself.
#[derive(Debug, Drop, Clone, Copy, PartialEq, Eq)]
pub enum Mode {
    /// Intention read: something below is read, under locks of its own.
    IR,
    /// Node read: the node itself is read.
    NR,
    /// Level read: the node and all its children are read.
    LR,
    /// Subtree read: the node and all that lies below it are read.
    SR,
    /// Intention write: something below the children is changed, under locks of its own. The node is read.
    IX,
    /// Level read and intention to write below the children.
    LRIX,
    /// Subtree read and intention to write below the children.
    SRIX,
    /// Child exclusive: a child is changed, placed or taken out, under a lock of its own. The node is read.
    CX,
    /// Level read and change of a child.
    LRCX,
    /// Subtree read and change of a child.
    SRCX,
    /// Subtree exclusive: the node and all that lies below it may be changed.
    SX,
}

impl Mode {
    /// The read part and the write part, or None for `SX`, which is above all pairs.
    pub fn parts(self) -> Option<(ReadPart, WritePart)>
        ensures parts { result ≡ parts self }
        ensures none { IsNone result ↔ (self ≡ Mode.SX) }
    {
        match self {
            Mode::IR => Some((ReadPart::I, WritePart::NoWrite)),
            Mode::NR => Some((ReadPart::N, WritePart::NoWrite)),
            Mode::LR => Some((ReadPart::L, WritePart::NoWrite)),
            Mode::SR => Some((ReadPart::S, WritePart::NoWrite)),
            Mode::IX => Some((ReadPart::N, WritePart::IX)),
            Mode::LRIX => Some((ReadPart::L, WritePart::IX)),
            Mode::SRIX => Some((ReadPart::S, WritePart::IX)),
            Mode::CX => Some((ReadPart::N, WritePart::CX)),
            Mode::LRCX => Some((ReadPart::L, WritePart::CX)),
            Mode::SRCX => Some((ReadPart::S, WritePart::CX)),
            Mode::SX => None,
        }
    }

    /// The mode with these parts. What has a write part reads its node at least.
    fn with_parts(read: ReadPart, write: WritePart) -> Mode
        ensures { result ≡ with_parts read write }
    {
        match (read, write) {
            (ReadPart::I, WritePart::NoWrite) => Mode::IR,
            (ReadPart::N, WritePart::NoWrite) => Mode::NR,
            (ReadPart::L, WritePart::NoWrite) => Mode::LR,
            (ReadPart::S, WritePart::NoWrite) => Mode::SR,
            (ReadPart::I | ReadPart::N, WritePart::IX) => Mode::IX,
            (ReadPart::L, WritePart::IX) => Mode::LRIX,
            (ReadPart::S, WritePart::IX) => Mode::SRIX,
            (ReadPart::I | ReadPart::N, WritePart::CX) => Mode::CX,
            (ReadPart::L, WritePart::CX) => Mode::LRCX,
            (ReadPart::S, WritePart::CX) => Mode::SRCX,
        }
    }

    /// The least mode that allows what either allows: what one owner holds after it was granted both.
    #[tactic(auto, using(crate::proofs::Joins::join_associative, crate::proofs::Joins::join_commutative, crate::proofs::Joins::join_idempotent, crate::proofs::Joins::compatible_join))]
    pub fn join(self, other: Mode) -> Mode
        ensures rule { result ≡ join self other }
        ensures parts { parts result ≡ greater_parts (parts self) (parts other) }
        ensures associative { (third : Mode) → join (join self other) third ≡ join self (join other third) }
        ensures commutative { join self other ≡ join other self }
        ensures idempotent { join self self ≡ self }
        ensures compatible { (third : Mode) → compatible (join self other) third ≡ (compatible self third && compatible other third) }
    {
        match (self.parts(), other.parts()) {
            (Some((read, write)), Some((other_read, other_write))) => {
                Mode::with_parts(read.greater(other_read), write.greater(other_write))
            }
            _ => Mode::SX,
        }
    }

    /// Whether two owners may hold these modes at one resource.
    pub fn compatible(self, other: Mode) -> bool
        ensures rule { result ≡ compatible self other }
        ensures table { result ≡ printed self other }
        ensures symmetric { compatible self other ≡ compatible other self }
    {
        match (self.parts(), other.parts()) {
            (Some((read, write)), Some((other_read, other_write))) => {
                write.admits(other_read) && other_write.admits(read)
            }
            _ => false,
        }
    }
}
