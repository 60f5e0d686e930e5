//! Three small types of calls that implement `TreeCall`: one that reads, one that writes, and one that is always refused; and three that are made of them.
//! They show that no clause of the trait is empty; the store's own calls stand in crates above.
#![tactic(auto)]

mod made_toys;
#[cfg(test)]
mod tests;
mod toys;

pub use made_toys::{LookAndHold, LookThenClear, LookWide};
pub use toys::{Clear, Look, Never};
