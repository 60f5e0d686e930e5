//! What the core of a store's sessions is laid over.

use node_seq::{NodeRead, SeqError, SortedSeq};
use outside_traits::Disk;
use overlays::Stacked;
use paged_seq::PagedSeq;
use std::alloc::Global;
use tree_model::{Key, Record};

/// What sessions read while a store is open: its pages, with the layers of what was committed since, or a copy of the map in memory,
/// as long as a checkpoint writes the pages, and where one has failed.
#[derive(Drop)]
pub enum Base<P: Disk + Drop> {
    Paged(Stacked<PagedSeq<P>>),
    Copied {
        seq: SortedSeq,
        /// The count of the base that it stands for; a copy has no faults of its own.
        faults: u64,
    },
}

// Each read is that of the one or of the other.
impl<P: Disk + Drop> NodeRead for Base<P> {
    ghost use Rattle.checkpoint.specs.Bases.{contents_of, count_of, IsUnchanged, unchanged_itself, unchanged_onward, unchanged_contents, unchanged_count};

    ghost contents = { λ s. contents_of P.is_known P.history s };

    ghost count = { λ s. count_of P.faults s };

    ghost unchanged = { λ s t. IsUnchanged P.is_known P.history P.faults s t };

    fn get(&mut self, alloc: Global, key: &Key) -> Result<Option<Record>, SeqError> {
        match self {
            Base::Paged(paged) => paged.get(alloc, key),
            Base::Copied { seq, .. } => seq.get(alloc, key),
        }
    }

    fn next_from(&mut self, alloc: Global, key: &Key) -> Result<Option<(Key, Record)>, SeqError> {
        match self {
            Base::Paged(paged) => paged.next_from(alloc, key),
            Base::Copied { seq, .. } => seq.next_from(alloc, key),
        }
    }

    fn prev_from(&mut self, alloc: Global, key: &Key) -> Result<Option<(Key, Record)>, SeqError> {
        match self {
            Base::Paged(paged) => paged.prev_from(alloc, key),
            Base::Copied { seq, .. } => seq.prev_from(alloc, key),
        }
    }

    fn key_above(&mut self, alloc: Global, key: &Key) -> Result<Option<Key>, SeqError> {
        match self {
            Base::Paged(paged) => paged.key_above(alloc, key),
            Base::Copied { seq, .. } => seq.key_above(alloc, key),
        }
    }

    fn key_below(&mut self, alloc: Global, key: &Key) -> Result<Option<Key>, SeqError> {
        match self {
            Base::Paged(paged) => paged.key_below(alloc, key),
            Base::Copied { seq, .. } => seq.key_below(alloc, key),
        }
    }

    fn faults(&self) -> u64 {
        match self {
            Base::Paged(paged) => paged.faults(),
            Base::Copied { seq, faults } => {
                // It tells that the map is in order.
                let _faults = seq.faults();
                *faults
            }
        }
    }

    ghost unchanged_itself = { λ s. unchanged_itself P.is_known P.history P.faults s };

    ghost unchanged_onward = { λ s t u a b. unchanged_onward P.is_known P.history P.faults s t u a b };

    ghost unchanged_contents = { λ s t a. unchanged_contents P.is_known P.history P.faults s t a };

    ghost unchanged_count = { λ s t a. unchanged_count P.is_known P.history P.faults s t a };
}
