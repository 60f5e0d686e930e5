//! A disk over a file of the operating system.
ghost use Rattle.std.specs.Prelude.{◌≡◌, false, [], IsErr};
ghost use Rattle.outside_traits.specs.Disks.{all_synced};
ghost use Rattle.outside_traits.specs.Faults.{HasCause, failed};

use outside_traits::{Disk, Failed};
use std::fs::File;
use std::io;
use std::os::unix::fs::FileExt;

/// A disk over an open file of the operating system, which has to be open for reading and writing. Its states aren't known; it counts the calls that failed.
/// A read or write that the system cuts short goes on until it is whole; one that can't is counted.
/// A new file's name is in its folder's keeping, which no call here syncs.
#[derive(Drop)]
pub struct FileDisk {
    file: File,
    faults: u64,
}

impl FileDisk {
    pub fn new(file: File) -> FileDisk
        ensures faults { result.faults ≡ 0 }
    {
        FileDisk { file, faults: 0 }
    }

    /// The system's answer, counted where it is an error.
    fn counted<T: Drop>(&mut self, answer: io::Result<T>) -> Result<T, Failed>
        ensures err { IsErr answer → IsErr result }
        ensures cause { HasCause failed self.old.faults self.new.faults result }
    {
        if let Ok(value) = answer {
            return Ok(value);
        }
        self.faults = self.faults.saturating_add(1);
        Err(Failed)
    }
}

impl Disk for FileDisk {
    ghost is_known = { false };

    ghost history = { λ _. record { now = all_synced []; past = [] } };

    ghost faults = { λ d. d.faults };

    fn len(&mut self) -> Result<u64, Failed> {
        let answer = self.file.metadata();
        Ok(self.counted(answer)?.len())
    }

    fn read_at(&mut self, at: u64, buf: &mut [u8]) -> Result<(), Failed> {
        let answer = self.file.read_exact_at(buf, at);
        self.counted(answer)
    }

    fn write_at(&mut self, at: u64, bytes: &[u8]) -> Result<(), Failed> {
        if at.checked_add(bytes.len() as u64).is_none() {
            return self.counted(Err(io::ErrorKind::InvalidInput.into()));
        }
        let answer = self.file.write_all_at(bytes, at);
        self.counted(answer)
    }

    /// By `File::sync_all`, which is `fsync`.
    fn sync(&mut self) -> Result<(), Failed> {
        let answer = self.file.sync_all();
        self.counted(answer)
    }

    fn faults(&self) -> u64 {
        self.faults
    }
}
