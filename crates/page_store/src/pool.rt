//! The pages that are kept.
ghost use Rattle.std.specs.Prelude.{◌≡◌, ◌≤◌, ◌*◌, ◌+◌, [], ℕ, List, IsTrue, IsOk, length, nat_eq, IfOk, OnOk, IfSome, option_copied};
ghost use Rattle.std.specs.Map.{lookup};
ghost use Rattle.std.specs.Borrow.{sem};
ghost use Rattle.outside_traits.specs.Faults.{HasCause};
ghost use Rattle.page_store.specs.Pages.{ArePagesOf, EndsSo, HasLent, IsAfterAnswer, IsFilled, is_kept, page_of, with_room};
ghost use Rattle.page_store.specs.contracts.pool.Pool.{the_row};
ghost use Rattle.page_store.specs.declared.page_error.PageError.TheVariants.{DiskFault};

use crate::frame::Frame;
use crate::page_error::PageError;
use lru::LruCache;
use outside_traits::Disk;
use std::alloc::{AllocError, Global};
use std::marker::Model;
use std::num::NonZeroUsize;

/// Pages of one file in memory, at most so many, seen as their numbers and bytes, and how many were read for it.
#[derive(Drop)]
pub struct Pool {
    frames: LruCache<u32, Frame>,
    reads: u64,
}

impl Model for Pool {
    ghost use Rattle.page_store.specs.Pages.{PoolView};

    ghost Value = { PoolView };

    ghost view = { λ p. record { kept = p.frames.entries; most = p.frames.cap; reads = p.reads } };
}

impl Pool {
    /// No pages, and room for so many. Each takes its memory when it is first read into.
    pub fn new(alloc: Global, frames: u32) -> Result<Pool, AllocError>
        requires some { 1 ≤ frames }
        ensures { IfOk result (λ pool. pool ≡ record { kept = []; most = frames; reads = 0 }) }
    {
        let Some(frames) = NonZeroUsize::new(frames as usize) else {
            unreachable!()
        };
        Ok(Pool {
            frames: LruCache::new(alloc, frames)?,
            reads: 0,
        })
    }

    /// How many pages are kept, at most as many as there are frames.
    pub fn kept(&self) -> u32
        requires most { self.now.most ≤ 65_536 }
        ensures count { result ≡ length self.now.kept }
        ensures most { result ≤ self.now.most }
    {
        self.frames.len() as u32
    }

    /// How many pages were read from the file; one that is kept isn't read again. The count stays at the greatest number.
    pub fn reads(&self) -> u64
        ensures { result ≡ self.now.reads }
    {
        self.reads
    }

    /// Keeps no page. After a write of the file this comes before the next read.
    pub fn forget(&mut self)
        ensures { self.new ≡ record { kept = []; most = self.old.most; reads = self.old.reads } }
    {
        self.frames.clear();
    }

    /// Puts a page among those that are kept, and reads it where it isn't there. What is kept was read since the file was written.
    pub fn fill<P: Disk>(&mut self, alloc: Global, disk: &mut P, page: u32) -> Result<(), PageError>
        requires within { IsTrue P.is_known → 8_192 * page + 8_192 ≤ length (P.history disk.old).now.reads }
        requires pages { IsTrue P.is_known → ArePagesOf (P.history disk.old).now.reads self.old.kept }
        ensures pages { IsTrue P.is_known → ArePagesOf (P.history disk.new).now.reads self.new.kept }
        ensures filled { OnOk result (IsFilled page self.old self.new) }
        // The others stay, in their order. Only where the page has to be read and all frames are in use the last one goes, also if that fails.
        ensures after { IsAfterAnswer page self.old result self.new }
        // What is kept is found without a call of the disk.
        ensures kept_suffices { IsTrue (is_kept page self.old) → IsOk result × (disk.new ≡ disk.old) }
        ensures same { IsTrue P.is_known → P.history disk.new ≡ P.history disk.old }
        ensures cause { HasCause DiskFault (P.faults disk.old) (P.faults disk.new) result }
    {
        if self.frames.promote(&page) {
            return Ok(());
        }
        let mut frame = self.spare(alloc)?;
        self.reads = self.reads.saturating_add(1);
        frame.read(disk, page)?;
        self.frames.put(page, frame)?;
        Ok(())
    }

    /// A frame to read into: the one that was asked least recently where all are in use, else a new one.
    fn spare(&mut self, alloc: Global) -> Result<Frame, AllocError>
        ensures room { self.new.kept ≡ with_room self.old }
        ensures kept { (file : List ℕ) → ArePagesOf file self.old.kept → ArePagesOf file self.new.kept }
        ensures most { self.new.most ≡ self.old.most }
        ensures reads { self.new.reads ≡ self.old.reads }
        // Where all are in use it takes no memory.
        ensures used_again { length self.old.kept ≡ self.old.most → IsOk result }
    {
        if self.frames.len() == self.frames.cap().get() {
            if let Some((_, frame)) = self.frames.pop_lru() {
                return Ok(frame);
            }
        }
        Frame::zeros(alloc)
    }

    /// A page that is kept.
    pub fn frame(&self, page: u32) -> Option<&[u8]>
        ensures value { option_copied result ≡ lookup (nat_eq page) self.now.kept }
        ensures page { (file : List ℕ) → ArePagesOf file self.now.kept → IfSome result (λ bytes. bytes.now ≡ page_of page file) }
        ensures length { IfSome result (λ bytes. length bytes.now ≡ 8_192) }
    {
        match self.frames.peek(&page) {
            Some(frame) => Some(frame.bytes()),
            None => None,
        }
    }

    /// A page of the file, read where it isn't kept: `fill` and `frame` in one. What is kept was read since the file was written.
    /// The page that is answered is kept, and the others stay as after `fill`.
    pub fn read_page<P: Disk>(
        &mut self,
        alloc: Global,
        disk: &mut P,
        page: u32,
    ) -> Result<&[u8], PageError>
        requires within { IsTrue P.is_known → 8_192 * page + 8_192 ≤ length (P.history disk.old).now.reads }
        requires pages { IsTrue P.is_known → ArePagesOf (P.history disk.old).now.reads self.old.kept }
        ensures* after { sem 𝓛 (EndsSo the_row self.entry
            (HasLent P.is_known page (P.history disk.old).now.reads self.old result)) }
        // What is kept is answered without a call of the disk, and without memory.
        ensures kept_suffices { IsTrue (is_kept page self.old) → IsOk result × (disk.new ≡ disk.old) }
        ensures value { IfOk result (λ bytes. IsTrue P.is_known → bytes.now ≡ page_of page (P.history disk.old).now.reads) }
        ensures length { IfOk result (λ bytes. length bytes.now ≡ 8_192) }
        ensures same { IsTrue P.is_known → P.history disk.new ≡ P.history disk.old }
        ensures cause { HasCause DiskFault (P.faults disk.old) (P.faults disk.new) result }
    {
        self.fill(alloc, disk, page)?;
        match self.frame(page) {
            Some(bytes) => Ok(bytes),
            None => unreachable!(),
        }
    }
}
