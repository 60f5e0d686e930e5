//! A caller of sessions on threads that is proved by their clauses alone: two sessions in threads of their own each make a transaction of one call,
//! a third that then meets both knows what both did, and the core that comes back has both in its book, which is legal and serial.
#![tactic(auto)]

mod two_threads;

pub use two_threads::{BothMade, call_in_two_threads};
