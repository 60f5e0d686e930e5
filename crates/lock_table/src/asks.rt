//! Modes as they are asked: joins, and which go together.

ghost use Rattle.std.specs.Prelude.{◌≡◌, ◌↔◌, Some, IsTrue};
ghost use Rattle.lock_table.specs.Asks.{join_asks, join_with, is_barred_by, Covers};

use lock_modes::{Ask, Mode};

/// The join of two modes.
pub fn join(one: Ask, other: Ask) -> Ask
    ensures { result ≡ join_asks one other }
{
    match (one, other) {
        (Ask::Node(mode), Ask::Node(held)) => Ask::Node(mode.join(held)),
        (Ask::Edge(mode), Ask::Edge(held)) => Ask::Edge(mode.join(held)),
        _ => Ask::Node(Mode::SX),
    }
}

/// What is held after one more grant.
pub fn join_held(ask: Ask, held: Option<Ask>) -> Ask
    ensures { result ≡ join_with ask held }
{
    match held {
        Some(held) => join(ask, held),
        None => ask,
    }
}

/// Whether what is held has the mode already.
pub fn covers(held: Option<Ask>, ask: Ask) -> bool
    ensures { IsTrue result ↔ Covers held ask }
{
    match held {
        Some(mode) => mode == join(ask, mode),
        None => false,
    }
}

/// Whether what another owner holds bars a mode.
pub fn is_barred(ask: Ask, held: Ask) -> bool
    ensures { result ≡ is_barred_by ask (Some held) }
{
    match (ask, held) {
        (Ask::Node(mode), Ask::Node(held)) => !mode.compatible(held),
        (Ask::Edge(mode), Ask::Edge(held)) => !mode.compatible(held),
        _ => true,
    }
}
