//! Whether a checkpoint was made.

/// Whether a checkpoint was made.
#[derive(Debug, Drop, Clone, Copy, PartialEq, Eq)]
pub enum Made {
    Yes,
    /// The tree takes more pages than a checkpoint may make, this many; nothing was written.
    No { pages: u32 },
}
