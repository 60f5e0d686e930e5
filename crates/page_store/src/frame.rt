//! A page in memory.
ghost use Rattle.std.specs.Prelude.{◌≡◌, ◌≤◌, ◌*◌, ◌+◌, IsTrue, length, OnOk};
ghost use Rattle.outside_traits.specs.Faults.{HasCause, failed};
ghost use Rattle.page_store.specs.Pages.{page_of};

use outside_traits::{Disk, Failed};
use std::alloc::{AllocError, Global};
use std::marker::Model;

/// How many bytes a page has.
pub const PAGE_BYTES: usize = 8_192;

/// A page's bytes, always 8,192 of them.
#[derive(Debug, Drop)]
pub struct Frame {
    cells: Vec<u8>,
}

impl Model for Frame {
    ghost use Rattle.std.specs.Prelude.{◌≡◌, ℕ, List, length};

    ghost Value = { List ℕ };

    ghost view = { λ f. f.cells.items };

    ghost invariant = { λ f. length f.cells.items ≡ 8_192 };
}

impl Frame {
    /// A page of zeros.
    pub fn zeros(alloc: Global) -> Result<Frame, AllocError> {
        match vec![in alloc; 0; PAGE_BYTES] {
            Ok(cells) => Ok(Frame { cells }),
            Err(_) => Err(AllocError),
        }
    }

    /// The bytes, lent.
    pub fn bytes(&self) -> &[u8]
        ensures bytes { result.now ≡ self.now }
        ensures length { length self.now ≡ 8_192 }
    {
        &self.cells
    }

    /// Reads a page of a file.
    pub(crate) fn read<P: Disk>(&mut self, disk: &mut P, page: u32) -> Result<(), Failed>
        requires within { IsTrue P.is_known → 8_192 * page + 8_192 ≤ length (P.history disk.old).now.reads }
        ensures value { OnOk result (IsTrue P.is_known → self.new ≡ page_of page (P.history disk.old).now.reads) }
        ensures same { IsTrue P.is_known → P.history disk.new ≡ P.history disk.old }
        ensures cause { HasCause failed (P.faults disk.old) (P.faults disk.new) result }
    {
        disk.read_at(PAGE_BYTES as u64 * page as u64, &mut self.cells)?;
        Ok(())
    }
}
