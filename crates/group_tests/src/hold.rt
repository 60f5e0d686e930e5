//! A disk whose first sync is held until something was done elsewhere.
use outside_traits::{Disk, Failed};
use std::alloc::Global;
use std::hint;
use std::sync::Arc;
use std::sync::atomic::{AtomicU64, Ordering};

/// A second or more of a processor.
const MOST_TURNS: u64 = 300_000_000;

/// What holds a disk's syncs, once it is armed, until it is freed. Whoever waits gives up after so many turns, and is counted.
#[derive(Drop)]
pub struct Hold {
    armed: AtomicU64,
    syncs: AtomicU64,
    freed: AtomicU64,
    given_up: AtomicU64,
}

/// Waits until a count is above 0; whether it was.
fn comes(count: &AtomicU64) -> bool {
    for _ in 0..MOST_TURNS {
        if count.load(Ordering::SeqCst) > 0 {
            return true;
        }
        hint::spin_loop();
    }
    false
}

impl Hold {
    pub fn new() -> Hold {
        Hold {
            armed: AtomicU64::new(0),
            syncs: AtomicU64::new(0),
            freed: AtomicU64::new(0),
            given_up: AtomicU64::new(0),
        }
    }

    /// The next sync is held.
    pub fn arm(&self) {
        self.armed.fetch_add(1, Ordering::SeqCst);
    }

    /// Waits until a sync is under way.
    pub fn await_sync(&self) {
        self.wait(&self.syncs);
    }

    /// The sync goes on, and each later one.
    pub fn free(&self) {
        self.freed.fetch_add(1, Ordering::SeqCst);
    }

    /// How many syncs there were since it was armed; none where one gave up waiting.
    pub fn syncs(&self) -> Option<u64> {
        if self.given_up.load(Ordering::SeqCst) == 0 {
            Some(self.syncs.load(Ordering::SeqCst))
        } else {
            None
        }
    }

    fn wait(&self, count: &AtomicU64) {
        if !comes(count) {
            self.given_up.fetch_add(1, Ordering::SeqCst);
        }
    }

    fn at_sync(&self) {
        if self.armed.load(Ordering::SeqCst) > 0 {
            self.syncs.fetch_add(1, Ordering::SeqCst);
            self.wait(&self.freed);
        }
    }
}

/// A disk whose syncs are held.
#[derive(Drop)]
pub struct Held<D> {
    pub disk: D,
    pub hold: Arc<Hold, Global>,
}

impl<D: Disk> Disk for Held<D> {
    ghost is_known = { D.is_known };

    ghost history = { λ d. D.history d.disk };

    ghost faults = { λ d. D.faults d.disk };

    fn len(&mut self) -> Result<u64, Failed> {
        self.disk.len()
    }

    fn read_at(&mut self, at: u64, buf: &mut [u8]) -> Result<(), Failed> {
        self.disk.read_at(at, buf)
    }

    fn write_at(&mut self, at: u64, bytes: &[u8]) -> Result<(), Failed> {
        self.disk.write_at(at, bytes)
    }

    fn sync(&mut self) -> Result<(), Failed> {
        self.hold.at_sync();
        self.disk.sync()
    }

    fn faults(&self) -> u64 {
        self.disk.faults()
    }
}
