//! Modes that are held, and what they cover.

ghost use Rattle.std.specs.Prelude.{◌≡◌, ◌↔◌, IsTrue};
ghost use Rattle.lock_table.specs.Asks.{join_asks, Covers};

use lock_modes::{Ask, Mode};

/// The join of two modes.
fn join(one: Ask, other: Ask) -> Ask
    ensures { result ≡ join_asks one other }
{
    match (one, other) {
        (Ask::Node(mode), Ask::Node(held)) => Ask::Node(mode.join(held)),
        (Ask::Edge(mode), Ask::Edge(held)) => Ask::Edge(mode.join(held)),
        _ => Ask::Node(Mode::SX),
    }
}

/// Whether what is held has the mode already.
pub fn has(held: Option<Ask>, ask: Ask) -> bool
    ensures { IsTrue result ↔ Covers held ask }
{
    match held {
        Some(mode) => mode == join(ask, mode),
        None => false,
    }
}
