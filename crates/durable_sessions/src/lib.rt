//! Sessions over a core whose commits go to a journal: `answer` does what a session is asked, and a commit is made only once it is durable.
//! `ask_in_turn` asks one session several things, up to the first that is refused. Where a disk fails, of the journal or of the core's base, nothing more is answered.
//! All is generic in the calls and in the base, and what is said of the journal holds beside any page file; what stays of the base is the base's own word (`SessionBase`).
//! `laws` has that an attempt of a transaction that is alone is answered.
//! `first_commits_stand` has what the commits of a book, some first of them or all, stand for in a journal; who writes them, in how many groups and with which syncs, is left to the crates above.
#![tactic(auto)]

mod answering;
mod base;
mod books;
mod halt;
mod in_turn;
pub mod laws;
mod reasons;

pub use answering::answer;
pub use base::SessionBase;
pub use books::first_commits_stand;
pub use halt::Halt;
pub use in_turn::{Stop, ask_in_turn};
pub use reasons::{Reason, limit_in, reason_in};
