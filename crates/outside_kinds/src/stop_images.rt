//! What a crash in a call of a disk in memory may leave, as files to open.
ghost use Rattle.std.specs.Prelude.{◌≡◌, ◌++◌, replicate, IfOk, OnOk};
ghost use Rattle.std.specs.List.{All};
ghost use Rattle.outside_traits.specs.Disks.{put_at_or_past};
ghost use Rattle.outside_traits.specs.Bytes.{IsBytes};
ghost use Rattle.outside_traits.specs.CrashImages.{IsImage};
ghost use Rattle.outside_traits.specs.Moments.{Since};
ghost use Rattle.outside_kinds.specs.MemoryDisks.{after_calls, start, history_of};
ghost use Rattle.outside_kinds.specs.StopImages.{is_write, until, behind_sync, writes_open_in, torn, stopped_in};

use crate::mem_disk::{MemDisk, overwrite};
use crate::noted_call::{DiskCall, NotedCall};
use dewey_labels::{List, NoMemory};
use std::alloc::{AllocError, Global};

/// The calls before this one, and what has begun of it.
fn calls_until(noted: &[NotedCall], call: u64) -> &[NotedCall]
    ensures { result.now ≡ until call noted.now }
{
    let mut end = 0;
    let mut rest = noted;
    while let [next, after @ ..] = rest {
        if next.number < call {
            end += 1;
            rest = after;
        } else if next.number == call && is_write(&next.call) {
            return &noted[..end + 1];
        } else {
            return &noted[..end];
        }
    }
    noted
}

fn is_write(call: &DiskCall) -> bool
    ensures { result ≡ is_write call.now }
{
    matches!(call, DiskCall::Write(..) | DiskCall::FailedWrite(..))
}

/// The calls behind the last sync that was done.
fn calls_behind_sync(calls: &[NotedCall]) -> &[NotedCall]
    ensures { result.now ≡ behind_sync calls.now calls.now }
{
    let mut behind = calls;
    let mut rest = calls;
    while let [next, after @ ..] = rest {
        if let DiskCall::Sync = &next.call {
            behind = after;
        }
        rest = after;
    }
    behind
}

/// What a read gives after these calls.
fn bytes_after(alloc: Global, first: &[u8], calls: &[NotedCall]) -> Result<Vec<u8>, AllocError>
    ensures { IfOk result (λ file. file.items ≡ (after_calls calls.now (start first.now)).now.reads) }
{
    let mut file = Vec::from_slice(alloc, first)?;
    let mut rest = calls;
    while let [next, after @ ..] = rest {
        if let DiskCall::Write(at, bytes) = &next.call {
            overwrite(&mut file, *at as usize, bytes.as_slice())?;
        }
        rest = after;
    }
    Ok(file)
}

/// A copy of a file with these bytes written.
fn with_bytes(alloc: Global, file: &[u8], at: u64, bytes: &[u8]) -> Result<Vec<u8>, AllocError>
    ensures { IfOk result (λ copy. copy.items ≡ put_at_or_past at bytes.now file.now) }
{
    let mut copy = Vec::from_slice(alloc, file)?;
    overwrite(&mut copy, at as usize, bytes)?;
    Ok(copy)
}

/// A copy of a file with so many zeros written.
fn with_zeros(alloc: Global, file: &[u8], at: u64, count: usize) -> Result<Vec<u8>, AllocError>
    ensures { IfOk result (λ copy. copy.items ≡ put_at_or_past at (replicate count 0) file.now) }
{
    let mut zeros = Vec::new(alloc);
    zeros.resize(count, 0)?;
    with_bytes(alloc, file, at, &zeros)
}

/// Puts the file, torn in each way by these calls, behind the images.
fn put_torn(
    alloc: Global,
    calls: &[NotedCall],
    file: &[u8],
    images: &mut List<List<u8>>,
) -> Result<(), NoMemory>
    ensures torn { OnOk result (images.new ≡ images.old ++ torn calls.now file.now) }
    ensures bytes { OnOk result (All IsBytes images.old → All IsBytes images.new) }
{
    let [next, after @ ..] = calls else {
        return images.push(List::from_vec(Vec::from_slice(alloc, file)?));
    };
    put_torn(alloc, after, file, images)?;
    if let DiskCall::Write(at, bytes) | DiskCall::FailedWrite(at, bytes) = &next.call {
        let written = with_bytes(alloc, file, *at, bytes.as_slice())?;
        put_torn(alloc, after, &written, images)?;
        let zeroed = with_zeros(alloc, file, *at, bytes.len())?;
        put_torn(alloc, after, &zeroed, images)?;
    }
    Ok(())
}

impl MemDisk {
    /// Images of a crash that comes in this call: with k writes since the last sync that was done before it, 3^k of them, not all different.
    /// Each of these writes, done or failed, is not there, or there as it was written, or its range holds zeros, whatever the others do.
    /// A sync that the crash comes in has made sure of nothing yet. After the last call it is a crash of now.
    pub fn stop_images(&self, alloc: Global, call: u64) -> Result<List<List<u8>>, NoMemory>
        ensures images { IfOk result (λ images. All (IsImage (stopped_in call self.now).now) images) }
        ensures among { IfOk result (λ images. images ≡ torn (writes_open_in call self.now) (stopped_in call self.now).now.synced) }
        ensures moment { Since (stopped_in call self.now) (history_of self.now) }
    {
        let calls = calls_until(self.noted(), call);
        let behind = calls_behind_sync(calls);
        let before = &calls[..calls.len() - behind.len()];
        let synced = bytes_after(alloc, self.first(), before)?;
        let mut images = List::new(alloc);
        put_torn(alloc, behind, &synced, &mut images)?;
        Ok(images)
    }
}
