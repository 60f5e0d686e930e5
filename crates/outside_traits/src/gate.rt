//! What is done round the lines of workers.

/// What is done round each line of a session, by the line's number in its session, from 1. It changes nothing of a store and has no fault.
pub trait Gate {
    /// Before the session's line is done.
    fn before(&self, session: u32, line: u32);

    /// After it is done, or has met a fault.
    fn after(&self, session: u32, line: u32);
}
