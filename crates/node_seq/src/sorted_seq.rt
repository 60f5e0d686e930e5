//! A map in memory.
ghost use Rattle.std.specs.Prelude.{◌≡◌, ◌≤◌, [], IfOk, OnOk, OnErr, MatchResult, option_copied, option_map};
ghost use Rattle.tree_model.specs.Entries.{Sorted, get, first_above, last_below, put, del};
ghost use Rattle.node_seq.specs.inside.Seqs.{StandsAt, BelongsAt, before};
ghost use Rattle.node_seq.specs.Reads.{LiesAbove, LiesBelow};

use crate::{NodeRead, SeqError};
use dewey_labels::{Copied, NoMemory};
use std::alloc::Global;
use std::marker::Model;
use std::mem;
use tree_model::{Key, Record};

/// A map in a sorted vector, seen as the list of its entries, in the order of their keys. Any key may stand in it.
#[derive(Debug, Drop)]
pub struct SortedSeq {
    entries: Vec<(Key, Record)>,
}

impl Model for SortedSeq {
    ghost use Rattle.tree_model.specs.Entries.{Entries, Sorted};

    ghost Value = { Entries };

    ghost view = { λ s. s.entries.items };

    ghost invariant = { λ s. Sorted s.entries.items };
}

impl SortedSeq {
    /// The empty map. It takes no memory.
    pub fn new(alloc: Global) -> SortedSeq
        ensures { result ≡ [] }
    {
        SortedSeq {
            entries: Vec::new(alloc),
        }
    }

    /// The map with these entries. It takes no memory.
    pub fn from_sorted(entries: Vec<(Key, Record)>) -> SortedSeq
        requires rising { Sorted entries.items }
        ensures { result ≡ entries.items }
    {
        SortedSeq { entries }
    }

    /// The entries, in the order of their keys.
    pub fn entries(&self) -> &[(Key, Record)]
        ensures entries { result.now ≡ self.now }
        ensures sorted { Sorted self.now }
    {
        &self.entries
    }

    /// The entries, in the order of their keys. It takes no memory.
    pub fn into_entries(self) -> Vec<(Key, Record)>
        ensures entries { result.items ≡ self }
        ensures sorted { Sorted self }
    {
        self.entries
    }
}

/// The index of a key's entry, or the one before which the entry belongs.
fn search(entries: &[(Key, Record)], key: &Key) -> Result<usize, usize>
    requires { Sorted entries.now }
    ensures { MatchResult result (StandsAt entries.now key.now) (BelongsAt entries.now key.now) }
{
    entries.binary_search_by(|(at, _)| at.cmp(key))
}

impl SortedSeq {
    /// The record at a key, lent; `get` copies it.
    pub fn record_at(&self, key: &Key) -> Option<&Record>
        ensures value { option_copied result ≡ get key.now self.now }
        ensures sorted { Sorted self.now }
    {
        match search(&self.entries, key) {
            Ok(place) => Some(&self.entries[place].1),
            Err(_) => None,
        }
    }

    /// The entry with the least key above a key, lent; `next_from` copies it.
    pub fn entry_above(&self, key: &Key) -> Option<&(Key, Record)>
        ensures value { option_copied result ≡ first_above key.now self.now }
        ensures above { LiesAbove key.now (option_copied result) }
        ensures sorted { Sorted self.now }
    {
        match search(&self.entries, key) {
            Ok(place) => self.entries.get(place + 1),
            Err(place) => self.entries.get(place),
        }
    }

    /// The entry with the greatest key below a key, lent; `prev_from` copies it.
    pub fn entry_below(&self, key: &Key) -> Option<&(Key, Record)>
        ensures value { option_copied result ≡ last_below key.now self.now }
        ensures below { LiesBelow key.now (option_copied result) }
        ensures sorted { Sorted self.now }
    {
        match search(&self.entries, key) {
            Ok(place) => entry_before(&self.entries, place),
            Err(place) => entry_before(&self.entries, place),
        }
    }

    /// Puts a record at a key and answers the one that stood there.
    pub fn put(
        &mut self,
        _alloc: Global,
        key: Key,
        value: Record,
    ) -> Result<Option<Record>, NoMemory>
        ensures map { OnOk result (self.new ≡ put (key, value) self.old) }
        ensures old { IfOk result (λ old. old ≡ get key self.old) }
        ensures sorted { Sorted self.old }
        ensures err { OnErr result (self.new ≡ self.old) }
    {
        match search(&self.entries, &key) {
            Ok(place) => {
                let entry = &mut self.entries[place];
                Ok(Some(mem::replace(&mut entry.1, value)))
            }
            Err(place) => {
                self.entries.insert(place, (key, value))?;
                Ok(None)
            }
        }
    }

    /// Takes out the record at a key. It takes no memory.
    pub fn del(&mut self, key: &Key) -> Option<Record>
        ensures map { self.new ≡ del key.now self.old }
        ensures old { result ≡ get key.now self.old }
    {
        match search(&self.entries, key) {
            Ok(place) => Some(self.entries.remove(place).1),
            Err(_) => None,
        }
    }
}

fn entry_before(entries: &[(Key, Record)], place: usize) -> Option<&(Key, Record)>
    ensures { option_copied result ≡ before entries.now place }
{
    if place == 0 {
        None
    } else {
        entries.get(place - 1)
    }
}

/// What is lent, copied.
fn copy_found(
    alloc: Global,
    found: Option<&(Key, Record)>,
) -> Result<Option<(Key, Record)>, NoMemory>
    ensures { IfOk result (λ copy. copy ≡ option_copied found.entry) }
{
    match found {
        Some(entry) => Ok(Some(entry.copy(alloc)?)),
        None => Ok(None),
    }
}

/// The key of what is lent, copied; its record isn't.
fn copy_key(alloc: Global, found: Option<&(Key, Record)>) -> Result<Option<Key>, NoMemory>
    ensures { IfOk result (λ copy. copy ≡ option_map (λ e. e.0) (option_copied found.entry)) }
{
    match found {
        Some((at, _)) => Ok(Some(at.copy(alloc)?)),
        None => Ok(None),
    }
}

impl NodeRead for SortedSeq {
    ghost use Rattle.std.specs.Prelude.{◌≡◌, refl, Some};
    ghost use Rattle.std.proofs.Common.{sym, ap, ◌∙◌, le_refl};

    ghost contents = { λ s. Some s };

    ghost count = { λ _. 0 };

    ghost unchanged = { λ s t. s ≡ t };

    fn get(&mut self, alloc: Global, key: &Key) -> Result<Option<Record>, SeqError> {
        match self.record_at(key) {
            Some(record) => Ok(Some(record.copy(alloc)?)),
            None => Ok(None),
        }
    }

    fn next_from(&mut self, alloc: Global, key: &Key) -> Result<Option<(Key, Record)>, SeqError> {
        Ok(copy_found(alloc, self.entry_above(key))?)
    }

    fn prev_from(&mut self, alloc: Global, key: &Key) -> Result<Option<(Key, Record)>, SeqError> {
        Ok(copy_found(alloc, self.entry_below(key))?)
    }

    fn key_above(&mut self, alloc: Global, key: &Key) -> Result<Option<Key>, SeqError> {
        Ok(copy_key(alloc, self.entry_above(key))?)
    }

    fn key_below(&mut self, alloc: Global, key: &Key) -> Result<Option<Key>, SeqError> {
        Ok(copy_key(alloc, self.entry_below(key))?)
    }

    fn faults(&self) -> u64 {
        // They tell that the map is in order.
        let _entries = self.entries();
        0
    }

    ghost unchanged_itself = { λ s. refl };

    ghost unchanged_onward = { λ s t u a b. a ∙ b };

    ghost unchanged_contents = { λ s t a. ap Some (sym a) };

    ghost unchanged_count = { λ s t a. le_refl 0 };
}
