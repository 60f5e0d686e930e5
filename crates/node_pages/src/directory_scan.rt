//! The directory pages of a file, read one after another beside those that its data pages give.
ghost use Rattle.std.specs.Prelude.{◌≡◌, ◌≤◌, Ok, Err, IfOk, IfErr, OnOk, map};
ghost use Rattle.std.specs.List.{AllByRecursion};
ghost use Rattle.node_pages.specs.DirectoryPages.{after_directory_page, at_directory_end, directory_pages, none_compared};
ghost use Rattle.node_pages.specs.ScanFaults.{FitsOnPage, IfBroken};

use crate::filler::Filler;
use crate::page_start::{PageStart, Starts};
use crate::scan_fault::ScanFault;
use dewey_labels::{List, NoMemory};
use std::alloc::Global;
use std::marker::Model;

/// Directory pages that are read one after another, behind the data pages.
#[derive(Drop)]
pub struct DirectoryScan {
    starts: List<PageStart>,
    pages: List<List<u8>>,
    /// How many of the pages were compared.
    at: usize,
    next: u32,
    before: u32,
}

impl Model for DirectoryScan {
    ghost use Rattle.std.specs.Prelude.{drop};
    ghost use Rattle.node_pages.specs.DirectoryPages.{Compared};

    ghost Value = { Compared };

    ghost view = { λ d. record { starts = d.starts; wanted = drop d.at d.pages; next = d.next; before = d.before } };
}

impl DirectoryScan {
    /// The directory of data pages with these starts, whose first page has this number.
    pub(crate) fn new(
        alloc: Global,
        next: u32,
        starts: List<PageStart>,
    ) -> Result<DirectoryScan, NoMemory>
        requires fits { AllByRecursion FitsOnPage starts }
        ensures { IfOk result (λ directory. directory ≡ none_compared next starts) }
    {
        let pages = directory_pages(alloc, starts.as_slice())?;
        Ok(DirectoryScan {
            starts,
            pages,
            at: 0,
            next,
            before: 0,
        })
    }

    /// Takes the bytes of the next page, fewer than 8,192 where the file ends before it does.
    pub fn page(&mut self, bytes: &[u8]) -> Result<(), ScanFault>
        ensures ok { OnOk result (after_directory_page self.old bytes.now ≡ Ok self.new) }
        ensures broken { IfBroken result (λ page. after_directory_page self.old bytes.now ≡ Err page) }
    {
        let Some(want) = self.pages.as_slice().get(self.at) else {
            return Err(ScanFault::Broken(self.next));
        };
        if bytes != want.as_slice() {
            return Err(ScanFault::Broken(self.next));
        }
        let Some(next) = self.next.checked_add(1) else {
            return Err(ScanFault::NoMemory);
        };
        self.at += 1;
        self.before = self.next;
        self.next = next;
        Ok(())
    }

    /// No page is left: where each data page begins. The error is the last directory page where more are wanted, or page 0 where there is none.
    pub fn finish(self) -> Result<List<PageStart>, u32>
        ensures ok { IfOk result (λ starts. at_directory_end self ≡ Ok starts) }
        ensures broken { IfErr result (λ page. at_directory_end self ≡ Err page) }
    {
        if self.at < self.pages.len() {
            return Err(self.before);
        }
        Ok(self.starts)
    }
}

/// The pages of a directory with these starts.
fn directory_pages(alloc: Global, starts: &[PageStart]) -> Result<List<List<u8>>, NoMemory>
    requires fits { AllByRecursion FitsOnPage starts.now }
    ensures { IfOk result (λ pages. pages ≡ directory_pages starts.now) }
{
    let mut filler = Filler::<Starts>::new(alloc, u32::MAX);
    for start in starts {
        filler.put(alloc, start.copy(alloc)?)?;
    }
    filler.finish(alloc)
}
