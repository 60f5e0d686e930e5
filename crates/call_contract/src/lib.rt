//! What the lock machine asks of its calls, the entries of its books, and the machine itself: states, attempts, waits and steps, as definitions over plain lists.
//! For every type of calls that keeps the four laws of `TreeCall`, each legal book from a valid tree is serial (`serial_laws::every_book_is_serial`).
//! Tables of locks, overlays and the running of calls are left to the crates above.
#![tactic(auto)]

pub mod call_laws;
mod events;
pub mod serial_laws;
mod tree_call;

pub use events::{Answer, Event, EventAnswer, Noted};
pub use tree_call::TreeCall;
