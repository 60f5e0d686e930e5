//! A disk in memory, whose every state is known: what contracts on crashes are tried on.
ghost use Rattle.std.specs.Prelude.{◌≡◌, ◌<◌, ◌≤◌, ◌+◌, ◌^◌, ◌⊎◌, [], true, length, take, drop, IfOk, OnOk, OnErr};
ghost use Rattle.outside_traits.specs.Disks.{OpensRange, Wrote, Synced, Unsynced, put_at_or_past};
ghost use Rattle.outside_traits.specs.Faults.{HasCause, failed};
ghost use Rattle.outside_traits.specs.Bytes.{IsBytes};
ghost use Rattle.outside_traits.specs.CrashImages.{IsImage};
ghost use Rattle.outside_traits.specs.Moments.{TakesStep, Fails};
ghost use Rattle.outside_kinds.specs.CallCounts.{FailsAsListed, FailsAsListedOrRefused};
ghost use Rattle.outside_kinds.specs.MemoryDisks.{KeepsBytes, bytes_of, history_of, with_call};

use crate::call_counter::CallCounter;
use crate::noted_call::{DiskCall, NotedCall};
use dewey_labels::{List, NoMemory};
use outside_traits::{Disk, Failed};
use std::alloc::{AllocError, Global};
use std::marker::Model;

/// A disk in memory. The calls in its list, counted from 1, fail, and a write or sync may fail for running out of memory; what has failed changes no byte.
/// It keeps its first bytes and a record of its writes and syncs, from which `stop_images` makes what a crash in a call may leave.
#[derive(Drop)]
pub struct MemDisk {
    first: Vec<u8>,
    /// The bytes now, once a write has copied the first ones.
    file: Vec<u8>,
    is_copied: bool,
    noted: Vec<NotedCall>,
    counter: CallCounter,
}

impl Model for MemDisk {
    ghost use Rattle.std.specs.Prelude.{◌≡◌};
    ghost use Rattle.outside_kinds.specs.MemoryDisks.{DiskInMemory, bytes_of, after_calls, start};

    ghost Value = { DiskInMemory };

    ghost view = { λ d. record { first = d.first.items; noted = d.noted.items; count = d.counter } };

    ghost invariant = { λ d. bytes_of d.is_copied d.file.items d.first.items ≡ (after_calls d.noted.items (start d.first.items)).now.reads };
}

/// Writes over what stands at a place of a file and past its end. The file may grow up to there, by zeros.
pub fn overwrite(file: &mut Vec<u8>, at: usize, bytes: &[u8]) -> Result<(), AllocError>
    ensures ok { OnOk result (file.new.items ≡ put_at_or_past at bytes.now file.old.items) }
    ensures err { OnErr result (at ≤ length file.old.items → file.new.items ≡ file.old.items) }
{
    if file.len() < at {
        file.resize(at, 0)?;
    }
    let inside = bytes.len().min(file.len() - at);
    let (over, past) = bytes.split_at(inside);
    file.extend_from_slice(past)?;
    file[at..at + inside].copy_from_slice(over);
    Ok(())
}

/// The first write copies the first bytes.
fn copy_first(file: &mut Vec<u8>, is_copied: &mut bool, first: &Vec<u8>) -> Result<(), AllocError>
    ensures ok { OnOk result ((is_copied.new ≡ true) × (file.new.items ≡ bytes_of is_copied.old file.old.items first.now.items)) }
    ensures err { OnErr result ((is_copied.new ≡ is_copied.old) × (file.new.items ≡ file.old.items)) }
{
    if !*is_copied {
        *file = Vec::from_slice(*first.allocator(), first)?;
        *is_copied = true;
    }
    Ok(())
}

/// What a slice of bytes has are bytes.
fn are_bytes(bytes: &[u8])
    ensures { IsBytes bytes.now }
{}

impl MemDisk {
    /// It takes no memory yet; writes and syncs take theirs where the bytes did.
    pub fn new(bytes: List<u8>, fails: List<u64>) -> MemDisk
        ensures { result ≡ record { first = bytes; noted = []; count = record { calls = 0; fails = fails; faults = 0; refused = 0 } } }
    {
        let first = bytes.into_vec();
        let alloc = *first.allocator();
        MemDisk {
            first,
            file: Vec::new(alloc),
            is_copied: false,
            noted: Vec::new(alloc),
            counter: CallCounter::new(fails),
        }
    }

    /// What a read gives.
    pub fn bytes(&self) -> &[u8]
        ensures { result.now ≡ (history_of self.now).now.reads }
    {
        if self.is_copied {
            &self.file
        } else {
            &self.first
        }
    }

    /// The bytes that it was made of.
    pub(crate) fn first(&self) -> &[u8]
        ensures { result.now ≡ self.now.first }
    {
        &self.first
    }

    pub(crate) fn noted(&self) -> &[NotedCall]
        ensures { result.now ≡ self.now.noted }
    {
        &self.noted
    }

    /// How many calls were made of `len`, `read_at`, `write_at` and `sync`. The count stays at the greatest `u64`.
    pub fn calls(&self) -> u64
        ensures { result ≡ self.now.count.calls }
    {
        self.counter.calls()
    }

    /// How many calls failed for running out of memory; they are among the faults.
    pub fn refused(&self) -> u64
        ensures { result ≡ self.now.count.refused }
    {
        self.counter.refused()
    }

    /// Notes a call that leaves the bytes as they are.
    fn note(&mut self, call: DiskCall) -> Result<(), NoMemory>
        requires { KeepsBytes call }
        ensures ok { OnOk result (self.new ≡ with_call call self.old) }
        ensures err { OnErr result (self.new ≡ self.old) }
    {
        let number = self.counter.calls();
        self.noted.push(NotedCall { number, call })?;
        Ok(())
    }

    /// Notes a call that failed. Where there is no memory for the note, nothing was done at all.
    fn note_failed(&mut self, call: DiskCall)
        requires { KeepsBytes call }
        ensures { (self.new ≡ self.old) ⊎ (self.new ≡ with_call call self.old) }
    {
        let _noted = self.note(call);
    }

    fn note_failed_write(&mut self, at: u64, bytes: &[u8])
        ensures { (self.new ≡ self.old) ⊎ (self.new ≡ with_call (DiskCall.FailedWrite at bytes.now) self.old) }
    {
        if let Ok(copy) = Vec::from_slice(*self.first.allocator(), bytes) {
            self.note_failed(DiskCall::FailedWrite(at, List::from_vec(copy)));
        }
    }

    fn note_failed_sync(&mut self)
        ensures { (self.new ≡ self.old) ⊎ (self.new ≡ with_call DiskCall.FailedSync self.old) }
    {
        self.note_failed(DiskCall::FailedSync);
    }

    /// Writes the bytes and notes it.
    fn write(&mut self, at: u64, bytes: &[u8]) -> Result<(), NoMemory>
        requires { at ≤ length (history_of self.old).now.reads }
        ensures ok { OnOk result (self.new ≡ with_call (DiskCall.Write at bytes.now) self.old) }
        ensures err { OnErr result (self.new ≡ self.old) }
    {
        let alloc = *self.first.allocator();
        copy_first(&mut self.file, &mut self.is_copied, &self.first)?;
        let copy = List::from_vec(Vec::from_slice(alloc, bytes)?);
        let before = self.noted.len();
        let number = self.counter.calls();
        self.noted.push(NotedCall {
            number,
            call: DiskCall::Write(at, copy),
        })?;
        if overwrite(&mut self.file, at as usize, bytes).is_err() {
            self.noted.truncate(before);
            return Err(NoMemory);
        }
        Ok(())
    }
}

impl Disk for MemDisk {
    ghost is_known = { true };

    ghost history = { λ d. history_of d };

    ghost faults = { λ d. d.count.faults };

    fn len(&mut self) -> Result<u64, Failed>
        ensures value { IfOk result (λ count. count ≡ length (history_of self.old).now.reads) }
        ensures same { history_of self.new ≡ history_of self.old }
        ensures cause { HasCause failed self.old.count.faults self.new.count.faults result }

        ensures listed { FailsAsListed self.old.count self.new.count result }
    {
        if self.counter.fails_now() {
            return Err(Failed);
        }
        Ok(self.bytes().len() as u64)
    }

    fn read_at(&mut self, at: u64, buf: &mut [u8]) -> Result<(), Failed>
        requires within { at + length buf.old ≤ length (history_of self.old).now.reads }
        ensures value { OnOk result (buf.new ≡ take (length buf.old) (drop at (history_of self.old).now.reads)) }
        ensures same { history_of self.new ≡ history_of self.old }
        ensures cause { HasCause failed self.old.count.faults self.new.count.faults result }

        ensures listed { FailsAsListed self.old.count self.new.count result }
    {
        if self.counter.fails_now() {
            return Err(Failed);
        }
        let start = at as usize;
        buf.copy_from_slice(&self.bytes()[start..start + buf.len()]);
        Ok(())
    }

    fn write_at(&mut self, at: u64, bytes: &[u8]) -> Result<(), Failed>
        requires within { at ≤ length (history_of self.old).now.reads }
        ensures fits { OnOk result (at + length bytes.now < 2 ^ 64) }
        ensures ok { OnOk result (TakesStep (Wrote at bytes.now) (history_of self.old) (history_of self.new)) }
        ensures err { OnErr result (Fails (OpensRange at (length bytes.now)) (history_of self.old) (history_of self.new)) }
        ensures cause { HasCause failed self.old.count.faults self.new.count.faults result }

        ensures bytes { OnErr result ((history_of self.new).now.reads ≡ (history_of self.old).now.reads) }
        ensures listed { FailsAsListedOrRefused self.old.count self.new.count result }
    {
        if self.counter.fails_now() {
            self.note_failed_write(at, bytes);
            return Err(Failed);
        }
        let Ok(()) = self.write(at, bytes) else {
            self.counter.refuse();
            return Err(Failed);
        };
        Ok(())
    }

    fn sync(&mut self) -> Result<(), Failed>
        ensures ok { OnOk result (TakesStep Synced (history_of self.old) (history_of self.new)) }
        ensures err { OnErr result (Fails Unsynced (history_of self.old) (history_of self.new)) }
        ensures cause { HasCause failed self.old.count.faults self.new.count.faults result }

        ensures bytes { (history_of self.new).now.reads ≡ (history_of self.old).now.reads }
        ensures listed { FailsAsListedOrRefused self.old.count self.new.count result }
    {
        if self.counter.fails_now() {
            self.note_failed_sync();
            return Err(Failed);
        }
        let Ok(()) = self.note(DiskCall::Sync) else {
            self.counter.refuse();
            return Err(Failed);
        };
        Ok(())
    }

    fn faults(&self) -> u64
        ensures count { result ≡ self.now.count.faults }
        ensures reads_an_image { IsImage (history_of self.now).now (history_of self.now).now.reads }
    {
        let bytes = self.bytes();
        are_bytes(bytes);
        self.counter.faults()
    }
}
