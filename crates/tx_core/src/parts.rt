//! What a core keeps: the base and what is laid over it, the sessions, the locks and waits, and the book.

use call_contract::Noted;
use lock_table::LockTable;
use overlays::{Gaps, Layers, Overlay};
use std::collections::BTreeMap;
use wait_graph::WaitGraph;

/// A live transaction: what it has changed, and the entry of the book that has the call with which it waits, if it does.
#[derive(Drop)]
pub struct Seat {
    pub own: Overlay,
    pub waiting: Option<usize>,
}

/// A session: how many transactions it has begun, and the live one.
#[derive(Drop)]
pub struct Place {
    pub ordinal: u32,
    pub seat: Option<Seat>,
}

/// Where the live transaction of a session has found nothing.
#[derive(Drop)]
pub struct Passed {
    pub session: u32,
    pub gaps: Gaps,
}

/// The sessions by their numbers.
pub type Places = BTreeMap<u32, Place>;

/// All that a core keeps beside its opening.
#[derive(Drop)]
pub struct Parts<C, B> {
    pub base: B,
    /// What was committed since the base was made.
    pub layers: Layers,
    /// The opening's number, and the greatest that it and the transactions begun since may come to.
    pub opened: u32,
    pub limit: u32,
    /// The last commit's number.
    pub number: u32,
    /// How many transactions have been begun.
    pub begun: u32,
    /// How many of them are live.
    pub live: usize,
    pub places: Places,
    /// Of the live transactions that have passed deletions.
    pub passed: Vec<Passed>,
    pub table: LockTable,
    pub graph: WaitGraph,
    /// The waiting sessions, in the order in which they began to wait.
    pub waiting: Vec<u32>,
    /// The book has room for a further entry of each live and of each waiting transaction.
    pub book: Vec<Noted<C>>,
    /// The session whose commit was prepared since the last entry, if one was.
    pub prepared: Option<u32>,
}
