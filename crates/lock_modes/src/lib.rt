//! Lock modes: what a transaction may do at a node and below it, and which modes of two transactions go together at one resource.
//! A mode is a pair of a read part and a write part, or `SX` above all: `join` is the greater of each part, `compatible` the rule by which a write part admits a read part, and both are proved to agree with the printed tables.
//! Which resources there are and who holds a mode on one is left to the crates above.
#![tactic(auto)]

mod ask;
mod edge_mode;
mod mode;
mod part;

pub use ask::Ask;
pub use edge_mode::EdgeMode;
pub use mode::Mode;
pub use part::{ReadPart, WritePart};
