//! What a line asks of its session.

/// What a session is asked to do, for any type of calls.
#[derive(Debug, Drop)]
pub enum Doing<C> {
    Begin,
    Commit,
    Abort,
    Call(C),
}
