//! Why a scan of pages ends.
ghost use Rattle.std.specs.Prelude.{◌≡◌};
ghost use Rattle.node_pages.specs.declared.scan_fault.ScanFault.TheVariants.{NoMemory as OutOfMemory};

use dewey_labels::NoMemory;

/// Why a scan of pages ends before the last one.
#[derive(Debug, Drop, Clone, Copy, PartialEq, Eq)]
pub enum ScanFault {
    /// The page with this number is the first that breaks a rule.
    Broken(u32),
    NoMemory,
}

impl From<NoMemory> for ScanFault {
    ghost from_gives = { λ _ e. e ≡ OutOfMemory };

    fn from(_refused: NoMemory) -> ScanFault {
        ScanFault::NoMemory
    }
}
