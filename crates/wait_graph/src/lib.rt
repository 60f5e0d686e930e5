//! The wait-for graph: an owner waits with one request, and so for each other owner that holds an incompatible mode there.
//! `cycle_through` answers the cycle of owners that waiting would close, the shortest and of these the least, or None exactly where it closes none.
//! Where the owners form no cycle they form none after `wait`, `stop`, the release of an owner's modes, and an ask of an owner that doesn't wait (`laws`).
//! Who gives up to break a cycle is left to the crates above.
#![tactic(auto)]

mod graph;
mod laws;
mod places;
mod search;

pub use graph::WaitGraph;
pub use laws::{after_ask, after_release, nobody_waits_for_itself};
