//! Commits of many sessions that share their syncs: they become visible under the store's turn, and durable under a turn of the journal's own.
//! `commit` answers Ok once the commit and all before it are durable. Who takes the journal's turn writes all commits that are visible by then, with one pair of syncs;
//! the others find theirs durable when they get it. The store's turn is free while the journal's disk is written.
//! `make_durable` does so for all commits that a member has seen.
//! After a journal call that failed no commit is acknowledged any more, until the store is opened again; calls go on in memory.
//! `run_lines` does the lines of a script by workers, each over a member (`StorePort`), and hands back the core, whose book has each session's lines with the replies that were given, and the journal.
#![tactic(auto)]

mod answers;
mod crossing;
mod gathering;
mod group;
mod joining;
mod mark;
mod member;
mod port;
mod run;
mod scribe;

pub use crossing::crosses;
pub use group::{GroupCommit, GroupFault};
pub use mark::Mark;
pub use member::Member;
pub use port::StorePort;
pub use run::{Ran, run_lines};
