//! Why a session or a call is refused.

use dewey_labels::NoMemory;
use std::alloc::{AllocError, AllocFailed};

/// Why a session is refused, in the order in which it is tested. All stays as it was.
#[derive(Clone, Copy, Debug, PartialEq, Eq, Drop)]
pub enum SessionError {
    /// The session's transaction waits.
    IsWaiting,
    /// The session has a live transaction.
    InTransaction,
    /// The session has no live transaction.
    NoTransaction,
    /// As many transactions have been begun as may be numbered.
    TxLimit,
    /// The transaction has changed more than a commit may.
    CommitLimit,
    NoMemory,
}

impl From<NoMemory> for SessionError {
    ghost use Rattle.std.specs.Prelude.{◌≡◌};
    ghost use Rattle.tx_core.specs.declared.errors.SessionError.TheVariants as error;

    ghost from_gives = { λ _ e. e ≡ error.NoMemory };

    fn from(_error: NoMemory) -> SessionError {
        SessionError::NoMemory
    }
}

impl From<AllocError> for SessionError {
    ghost use Rattle.std.specs.Prelude.{◌≡◌};
    ghost use Rattle.tx_core.specs.declared.errors.SessionError.TheVariants as error;

    ghost from_gives = { λ _ e. e ≡ error.NoMemory };

    fn from(_error: AllocError) -> SessionError {
        SessionError::NoMemory
    }
}

impl<T: Drop> From<AllocFailed<T>> for SessionError {
    ghost use Rattle.std.specs.Prelude.{◌≡◌};
    ghost use Rattle.tx_core.specs.declared.errors.SessionError.TheVariants as error;

    ghost from_gives = { λ _ e. e ≡ error.NoMemory };

    fn from(_refused: AllocFailed<T>) -> SessionError {
        SessionError::NoMemory
    }
}

/// Why an attempt isn't answered.
#[derive(Clone, Copy, Debug, PartialEq, Eq, Drop)]
pub enum CallError {
    /// The session is refused, and all stays as it was.
    Session(SessionError),
    /// A read of the base failed.
    DiskFault,
    NoMemory,
}
