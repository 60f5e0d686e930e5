//! What a line of a script does to the sessions of a store: the calls that it makes of the lock machine, the retries of waiting sessions after a transaction has ended, and the lines that are written.
//! `drive` does a line over a transaction core. Of a commit it answers what is to be made durable, and `finish_commit` then makes it.
//! What lines do is defined over the lock machine's states, and `laws` tell of it: it is a run of the machine, and between two lines nobody waits whose call would be answered.
//! Where waits aren't told, as between workers, `Sessions` of the definitions says what one session's lines do among all entries of a book. `doing_of` turns a command into what it asks of its session, for any calls that are made of those that lines name (`LineCall`).
#![tactic(auto)]

mod asking;
mod doing;
mod driver;
pub mod laws;
mod line_call;
mod line_laws;
mod replies;
mod retries;

pub use asking::doing_of;
pub use doing::Doing;
pub use driver::{drive, finish_commit};
pub use line_call::LineCall;
pub use line_laws::{
    entries_of_others_are_passed_over, entries_of_others_leave_a_session,
    stretches_follow_one_another, what_is_done_is_done_in_part,
};
