//! The transaction core: the lock machine of `call_contract` over a base that is read as a map, with the book of all that came to it.
//! `Core` begins a transaction, attempts a call, tries one that waits again, prepares and makes a commit, and aborts a transaction; the book gains the machine's entry. What a commit leaves to be made durable is kept until it is handed out. It merges what was committed into a base that is a sorted vector, or goes on over another base, copies what was committed, hands out its base, and shows its book, which is legal, and the sessions that wait.
//! What a session may do, and its ordinals, are read off the book, whatever is known of the base. The book has room for the end of each transaction, so that commits and aborts take no memory.
//! An attempt is answered, waits, is a deadlock, or is given up. A retry of a call that waits keeps its place in the queue where it waits again, and is an entry only where it holds more or waits for something else.
//! `asking` asks the lock table for a call's requests in turn, up to the first that is barred, but not for what the way before it was granted, and looks at what a call asks for and answers on what a transaction sees.
//! `ends` begins and aborts, `attempts` attempts a call, `retries` tries one that waits again; what becomes of one that is barred stands in `waits` and `later_waits`, and of one that is given up in `failures` and `later_failures`; `commits` prepares and makes commits, `copying` copies what is committed: the parts stand for the machine's state before and after.
#![tactic(auto)]

mod asking;
mod attempts;
mod commits;
mod copying;
mod crossing;
mod ends;
mod engine;
mod errors;
mod failures;
mod later_failures;
mod later_waits;
pub mod laws;
mod modes;
mod parts;
mod passed;
mod places;
mod retries;
mod undrained;
mod waits;

pub use commits::Prepared;
pub use crossing::crosses;
pub use engine::{Core, NoCore};
pub use errors::{CallError, SessionError};
