//! A caller of a group commit that is proved by its clauses alone: it opens a journal and meets all that making a group commit asks,
//! two members in threads of their own each commit a transaction of one call, and a third takes them back and closes it.
//! Its steps are there for other callers.
#![tactic(auto)]

mod two_members;

pub use two_members::{
    BothCommitted, commit_in_two_threads, cut, group_over, take_back, without_groups,
};
