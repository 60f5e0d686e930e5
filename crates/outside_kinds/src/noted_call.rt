//! What a disk in memory notes of a call.
use dewey_labels::List;

/// What a call on a disk in memory did.
#[derive(Drop)]
pub enum DiskCall {
    /// These bytes were written from this place on.
    Write(u64, List<u8>),
    /// The same was tried and failed.
    FailedWrite(u64, List<u8>),
    Sync,
    FailedSync,
}

/// A call with its number, counted from 1 among all calls of its disk.
#[derive(Drop)]
pub struct NotedCall {
    pub number: u64,
    pub call: DiskCall,
}
