//! Sessions of a store in threads: scripts of theirs, amounts that they move between the texts of a document, and the book of the store afterwards, in lines and judged by a plain model.
#![tactic(auto)]

mod book;
mod line;
mod moves;
mod plain;
mod rows;
mod spread;
mod waits;

pub use book::book_after;
pub use line::{Here, Port, Trouble, Way};
pub use moves::sums_after;
pub use rows::{again, in_two_threads, replies_to};
pub use spread::{cut, store_with};
pub use waits::{Replies, one_waits, two_wait};
