//! The turn: a value that threads take one after another. It tells a list of entries, which only grows while it is behind the lock.
//! A pass carries what its owner has seen of that list, and numbers: at each `take` the list begins with what was seen, and no later entry has a number of the pass.
//! What the value is, and which entries a thread may add to it, is left to the crates above.
#![tactic(auto)]

mod crossing;
mod grows;
mod lock;
mod pass;
mod rule;

pub use crossing::crosses;
pub use grows::Grows;
pub use lock::{NoTurn, Turn, TurnLock};
pub use pass::Pass;
