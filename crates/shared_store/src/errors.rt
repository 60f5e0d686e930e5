//! Why a session's call isn't answered.

use tx_core::SessionError;

/// Why a session's call isn't answered.
#[derive(Clone, Copy, Debug, PartialEq, Eq, Drop)]
pub enum StoreError {
    /// The session is refused, and all stays as it was.
    Session(SessionError),
    /// A read of the base failed. It is noted in the list.
    DiskFault,
    NoMemory,
    /// A call of the journal had failed before, at this count of its disk's faults. The commit is visible, and isn't acknowledged.
    /// A session's own calls never answer it: only those that make a commit durable do.
    Halted { faults: u64 },
}
