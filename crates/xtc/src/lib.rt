//! The whole of what the program `xtc` does, as one call over a source, a sink and the two disks of a store: `xtc`.
//! Its clause `leaves` shows one book: what the lines that were done put into it. It is a legal run of the lock machine over sessions 1 to 64, its commits are serial, and the sink has the text of its replies;
//! the files, as they read and as a crash leaves them, stand for the tree after its first commits. Whatever the status, each commit that was answered is found, and at most one that wasn't.
//! The program over it opens the real streams and files, prints the status and ends with its number.
//! `answer_script` has the workers of a whole script do it over a core, and answers its text.
#![tactic(auto)]

mod answering;
mod answers;
mod checkpoints;
mod document;
mod generator;
mod laws;
mod line;
mod promises;
mod question;
mod showing;
mod status;
mod store;
mod top_call;
mod workers;

pub use answering::{Answered, answer_script};
pub use durable_sessions::Reason;
pub use laws::{get_is_dump, put_is_create, query_is_find};
pub use promises::{
    crashes_lose_no_answered_commit, every_deadlock_is_true, every_output_is_the_replies,
    every_run_is_serial, files_hold_what_was_answered, nobody_is_left_waiting_in_vain,
    reading_leaves_both_files,
};
pub use status::Status;
pub use top_call::{Finish, xtc};
