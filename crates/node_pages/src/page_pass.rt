//! Pages that are taken one after another.
ghost use Rattle.std.specs.Prelude.{◌≡◌, List, ℕ, Result, Ok, Err, OnOk};
ghost use Rattle.node_pages.specs.ScanFaults.{IfBroken};

use crate::directory_scan::DirectoryScan;
use crate::scan::Scan;
use crate::scan_fault::ScanFault;
use std::alloc::Global;

/// What takes the pages of a file one after another, and answers the first that breaks a rule: data pages or directory pages.
pub trait PagePass {
    ghost after: { Self → List ℕ → Result Self ℕ };

    /// Takes the bytes of the next page, fewer than 8,192 where the file ends before it does.
    /// After a broken rule no page may be taken any more.
    fn take(&mut self, alloc: Global, bytes: &[u8]) -> Result<(), ScanFault>
        ensures ok { OnOk result (after self.old bytes.now ≡ Ok self.new) }
        ensures broken { IfBroken result (λ page. after self.old bytes.now ≡ Err page) };
}

impl PagePass for Scan {
    ghost use Rattle.node_pages.specs.Scanning.{after_page};

    ghost after = { after_page };

    fn take(&mut self, alloc: Global, bytes: &[u8]) -> Result<(), ScanFault> {
        self.page(alloc, bytes)
    }
}

impl PagePass for DirectoryScan {
    ghost use Rattle.node_pages.specs.DirectoryPages.{after_directory_page};

    ghost after = { after_directory_page };

    fn take(&mut self, _alloc: Global, bytes: &[u8]) -> Result<(), ScanFault> {
        self.page(bytes)
    }
}
