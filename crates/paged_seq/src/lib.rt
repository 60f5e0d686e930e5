//! A map over the pages of a file, of which a bounded number is kept in memory.
//! `PagedSeq::open` reads each page at most once (`reads`) and answers the first that breaks a rule (`first`), or the map of its records (`map`);
//! of these it keeps where each data page begins.
//! `entries` reads all of them, each data page once.
//! A read costs at most two pages and one a chunk of its record, and a neighbour one page more (`reads`, and `pages` of the calls of `NodeRead`).
//! Which records are those of a tree is left to the crates above.
#![tactic(auto)]

mod opening;
mod page_file;
mod place;
mod records;
mod search;
mod seq;
mod sizes;
mod valid;

pub use opening::PagesFault;
pub use seq::PagedSeq;
