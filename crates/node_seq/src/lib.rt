//! Finite maps from keys to records, in the order of the keys: the trait `NodeRead`, which reads one, and `SortedSeq`, which keeps one in a sorted vector.
//! Each read answers exactly what the map has at a key, above it or below it; where a map isn't known, what is found still lies on that side and is an entry that a valid tree may have.
//! So every walk ends: `Walk` takes one entry after the other. `UnknownSeq` is a map that isn't known, for tests. What the records mean is left to the crates above.
#![tactic(auto)]

mod counted;
mod node_read;
mod sorted_seq;
mod unknown_seq;
mod walk;

pub use counted::Counted;
pub use node_read::{NodeRead, SeqError};
pub use sorted_seq::SortedSeq;
pub use unknown_seq::{Answer, UnknownSeq};
pub use walk::{Walk, entries_above, entries_below};
