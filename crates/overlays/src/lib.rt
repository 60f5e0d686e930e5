//! Changes laid over a map: those of a transaction (`Overlay`), those of commits (`Layers`), and the map that is seen through them (`View`, `Stacked`).
//! A view keeps the stretches of keys that its reads have found empty (`Gaps`), and the next reads jump over them.
//! Each read of a view answers exactly what the base has after the layers' changes, in the order of the commits, and then the overlay's;
//! where the base isn't known, only what a valid tree may have. A commit, `push_layer`, takes no memory and moves nothing that lies below.
//! Which changes may be committed is left to the crates above.
//!
//! A deletion is kept as a change without a record, so changes may be laid over any map. They stand in sorted runs, each but the newest at least four
//! times as long as the next of these, as in a log-structured merge tree: a read searches few runs, and each change is moved a logarithm of times in all.
#![tactic(auto)]

mod direction;
mod gaps;
mod layers;
mod overlay;
mod rebase;
mod run;
mod runs;
mod stacked;
mod view;

pub use gaps::{Gaps, Stretch};
pub use layers::Layers;
pub use overlay::Overlay;
pub use stacked::Stacked;
pub use view::View;
