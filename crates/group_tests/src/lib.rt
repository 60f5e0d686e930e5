//! Members of a group commit over journals in memory: what their commits are answered, where a disk fails, how they share syncs, and threads.
#![tactic(auto)]

mod hold;

pub use hold::{Held, Hold};

#[cfg(test)]
mod held;
#[cfg(test)]
mod rows;
#[cfg(test)]
mod stores;
#[cfg(test)]
mod threads;
