//! Gates that hold workers, and give up after so many turns.
use outside_traits::Gate;
use std::sync::atomic::{AtomicU64, Ordering};

const MOST_TURNS: u64 = 100_000_000;

/// Waits until a count is reached; whether it was.
fn comes_to(count: &AtomicU64, least: u64) -> bool {
    for _ in 0..MOST_TURNS {
        if count.load(Ordering::SeqCst) >= least {
            return true;
        }
    }
    false
}

/// Holds each session's first line until so many sessions have come to theirs, and session 1's third line until session 2's third is done.
#[derive(Drop)]
pub struct InTurn {
    sessions: u64,
    come: AtomicU64,
    done: AtomicU64,
    given_up: AtomicU64,
}

impl InTurn {
    pub fn new(sessions: u64) -> InTurn {
        InTurn {
            sessions,
            come: AtomicU64::new(0),
            done: AtomicU64::new(0),
            given_up: AtomicU64::new(0),
        }
    }

    /// Whether each worker that was held went on because of another.
    pub fn held(&self) -> bool {
        self.given_up.load(Ordering::SeqCst) == 0
    }

    fn hold(&self, count: &AtomicU64, least: u64) {
        if !comes_to(count, least) {
            self.given_up.fetch_add(1, Ordering::SeqCst);
        }
    }
}

impl Gate for InTurn {
    fn before(&self, session: u32, line: u32) {
        if line == 1 {
            self.come.fetch_add(1, Ordering::SeqCst);
            self.hold(&self.come, self.sessions);
        }
        if (session, line) == (1, 3) {
            self.hold(&self.done, 1);
        }
    }

    fn after(&self, session: u32, line: u32) {
        if (session, line) == (2, 3) {
            self.done.fetch_add(1, Ordering::SeqCst);
        }
    }
}

/// Counts the calls round lines, and those whose line isn't the next one of the only session.
#[derive(Drop)]
pub struct Rounds {
    before: AtomicU64,
    after: AtomicU64,
    wrong: AtomicU64,
}

impl Rounds {
    pub fn new() -> Rounds {
        Rounds {
            before: AtomicU64::new(0),
            after: AtomicU64::new(0),
            wrong: AtomicU64::new(0),
        }
    }

    /// The calls before lines, those after lines, and how many were wrong.
    pub fn counts(&self) -> (u64, u64, u64) {
        (
            self.before.load(Ordering::SeqCst),
            self.after.load(Ordering::SeqCst),
            self.wrong.load(Ordering::SeqCst),
        )
    }

    fn count(&self, count: &AtomicU64, line: u32) {
        if count.fetch_add(1, Ordering::SeqCst).checked_add(1) != Some(u64::from(line)) {
            self.wrong.fetch_add(1, Ordering::SeqCst);
        }
    }
}

impl Gate for Rounds {
    fn before(&self, _session: u32, line: u32) {
        self.count(&self.before, line);
    }

    fn after(&self, _session: u32, line: u32) {
        self.count(&self.after, line);
    }
}
