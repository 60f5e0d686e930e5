//! Why a store isn't opened, and where its files break a rule. Each crate that reads one of the files answers with it.
ghost use Rattle.std.specs.Prelude.{◌≡◌};
ghost use Rattle.node_records.specs.declared.open_error.OpenError.TheVariants.{Damaged, DiskFault, NoMemory as OutOfMemory};

use dewey_labels::NoMemory;
use outside_traits::Failed;
use std::alloc::AllocError;

/// Why a store, or one of its files, isn't opened.
#[derive(Debug, Drop, Clone, Copy, PartialEq, Eq)]
pub enum OpenError {
    /// The files hold no store; the place is that of the first rule that is broken.
    Damaged(Place),
    /// A disk failed, and has counted it.
    DiskFault,
    NoMemory,
}

impl OpenError {
    /// A rule of this file is broken at this place.
    pub fn at(file: File, at: u64) -> OpenError
        ensures { result ≡ Damaged (record { file = file; at = at }) }
    {
        OpenError::Damaged(Place { file, at })
    }
}

/// Where a rule of the files is broken.
#[derive(Debug, Drop, Clone, Copy, PartialEq, Eq)]
pub struct Place {
    pub file: File,
    /// The byte, counted from 0; in the tree, the count of records before it.
    pub at: u64,
}

/// What a place lies in.
#[derive(Debug, Drop, Clone, Copy, PartialEq, Eq)]
pub enum File {
    Journal,
    Pages,
    Tree,
}

impl From<Failed> for OpenError {
    ghost from_gives = { λ _ e. e ≡ DiskFault };

    fn from(_failed: Failed) -> OpenError {
        OpenError::DiskFault
    }
}

impl From<NoMemory> for OpenError {
    ghost from_gives = { λ _ e. e ≡ OutOfMemory };

    fn from(_refused: NoMemory) -> OpenError {
        OpenError::NoMemory
    }
}

impl From<AllocError> for OpenError {
    ghost from_gives = { λ _ e. e ≡ OutOfMemory };

    fn from(_refused: AllocError) -> OpenError {
        OpenError::NoMemory
    }
}
