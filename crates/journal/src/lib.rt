//! The journal: the commits of a store, a group each, in a file that only grows until it is reset.
//! Once `append_group` answers Ok every crash leaves that group and all before it (clause `durable`);
//! a crash in mid-call leaves it whole or not at all (`any_moment`). `append_groups` does the same for many commits at once.
//! What the changes do to a tree, and what the page file holds, is left to the crates above.
#![tactic(auto)]

mod batch;
mod body;
mod decoding;
mod disk_fault;
mod file;
mod frame;
mod group;
mod head;
mod images;
mod journal;
mod laws;
mod new_journal;
mod opening;
mod reading;

pub use disk_fault::DiskFault;
pub use group::{Group, Groups, Images};
pub use head::{FIRST_GATE, IMAGES, first_number, is_fresh, kind_at};
pub use journal::{Journal, OpenFault};
pub use laws::{
    a_body_is_read_again, appends_follow_one_another, commits_are_read_again,
    images_are_read_again, pending_commits_may_be_appended,
};
