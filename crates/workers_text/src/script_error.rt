//! Why there is no script.
ghost use Rattle.std.specs.Prelude.{◌≡◌};

use dewey_labels::NoMemory;
use std::alloc::AllocError;

/// Why a whole script can't be had.
#[derive(Clone, Copy, Debug, PartialEq, Eq)]
pub enum ScriptError {
    /// The number from 1 of the line whose limit was passed first, or 0 where it was the whole input's.
    TooLong { line: u64 },
    ReadFault,
    NoMemory,
}

impl From<NoMemory> for ScriptError {
    ghost use Rattle.workers_text.specs.declared.script_error.ScriptError.TheVariants.{NoMemory};

    ghost from_gives = { λ _ error. error ≡ NoMemory };

    fn from(_error: NoMemory) -> ScriptError {
        ScriptError::NoMemory
    }
}

impl From<AllocError> for ScriptError {
    ghost use Rattle.workers_text.specs.declared.script_error.ScriptError.TheVariants.{NoMemory};

    ghost from_gives = { λ _ error. error ≡ NoMemory };

    fn from(_error: AllocError) -> ScriptError {
        ScriptError::NoMemory
    }
}
