//! A disk with the kind of file that it is.
ghost use Rattle.std.specs.Prelude.{◌≡◌};

use outside_traits::{Disk, Failed};
use std::marker::PhantomData;

/// The kind of the file that has the commits.
pub struct JournalKind;

/// The kind of the file that has the pages.
pub struct PagesKind;

/// A disk which no disk of another kind replaces. It does what the disk in it does, and knows of its states what that knows.
#[derive(Drop)]
pub struct StoreFile<D, K> {
    pub disk: D,
    kind: PhantomData<K>,
}

impl<D, K> StoreFile<D, K> {
    pub fn new(disk: D) -> StoreFile<D, K>
        ensures { result.disk ≡ disk }
    {
        StoreFile {
            disk,
            kind: PhantomData,
        }
    }
}

impl<D: Disk, K> Disk for StoreFile<D, K> {
    ghost is_known = { D.is_known };

    ghost history = { λ f. D.history f.disk };

    ghost faults = { λ f. D.faults f.disk };

    fn len(&mut self) -> Result<u64, Failed> {
        self.disk.len()
    }

    fn read_at(&mut self, at: u64, buf: &mut [u8]) -> Result<(), Failed> {
        self.disk.read_at(at, buf)
    }

    fn write_at(&mut self, at: u64, bytes: &[u8]) -> Result<(), Failed> {
        self.disk.write_at(at, bytes)
    }

    fn sync(&mut self) -> Result<(), Failed> {
        self.disk.sync()
    }

    fn faults(&self) -> u64 {
        self.disk.faults()
    }
}
