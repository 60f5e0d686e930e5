//! The list behind the journal's turn.

/// An entry of the list behind the journal's turn. No value of it is made.
pub enum Mark<S, J> {
    /// The session and the journal with which the group commit was made.
    Opening { session: S, journal: J },
    /// The commit of this number, and all before it, are durable.
    Durable(u32),
    /// A journal call of the member that works under this number failed, at this count of the disk's faults.
    Failure { by: u32, faults: u64 },
}

/// Whose journal call failed, and the count of the disk's faults then.
#[derive(Clone, Copy, Debug, Drop)]
pub struct Failed {
    pub by: u32,
    pub faults: u64,
}
