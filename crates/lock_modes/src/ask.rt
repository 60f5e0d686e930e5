//! A mode that is asked, of a node or of an edge.
ghost use Rattle.std.specs.Prelude.{◌≡◌};
ghost use Rattle.lock_modes.specs.ModeNames.{ask_name};

use crate::{EdgeMode, Mode};

/// What is asked at a resource: a mode of a node, of an attribute or of a node's attributes, or a mode of an edge.
#[derive(Debug, Drop, Clone, Copy, PartialEq, Eq)]
pub enum Ask {
    Node(Mode),
    Edge(EdgeMode),
}

impl Ask {
    /// The mode's name, as a reply shows it.
    pub fn name(self) -> &'static str
        ensures { result.now ≡ ask_name self }
    {
        match self {
            Ask::Node(Mode::IR) => "IR",
            Ask::Node(Mode::NR) => "NR",
            Ask::Node(Mode::LR) => "LR",
            Ask::Node(Mode::SR) => "SR",
            Ask::Node(Mode::IX) => "IX",
            Ask::Node(Mode::LRIX) => "LRIX",
            Ask::Node(Mode::SRIX) => "SRIX",
            Ask::Node(Mode::CX) => "CX",
            Ask::Node(Mode::LRCX) => "LRCX",
            Ask::Node(Mode::SRCX) => "SRCX",
            Ask::Node(Mode::SX) => "SX",
            Ask::Edge(EdgeMode::ER) => "ER",
            Ask::Edge(EdgeMode::EX) => "EX",
        }
    }
}
