//! A store: a transaction core behind a turn, and sessions on their callers' threads.
//! The turn's list begins with what the core was opened over, and goes on as its book, with an entry wherever commits were handed out.
//! Each call of a session is tied to what it did to that list: the session has then seen all of it, and no entry that it hadn't seen before was its own.
//! A call that has to wait for another transaction is answered so and tried again by its caller, or it is made by `call`, which sleeps until it needn't wait.
#![tactic(auto)]

mod crossing;
mod desk;
mod ended;
mod errors;
mod session;

pub use crossing::crosses;
pub use ended::Ended;
pub use errors::StoreError;
pub use session::{NoStore, Session, Store};
