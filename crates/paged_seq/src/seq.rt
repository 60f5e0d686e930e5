//! The map over the pages of a file.
ghost use Rattle.std.specs.Prelude.{◌≡◌, ◌≤◌, ◌<◌, ◌+◌, ◌*◌, ◌^◌, IsTrue, IfOk, IfErr, OnOk, MatchResult, length};
ghost use Rattle.outside_traits.specs.Faults.{HasCause};
ghost use Rattle.page_store.specs.Pages.{ArePagesOf};
ghost use Rattle.tree_model.specs.Entries.{Sorted, first_above, get, last_below};
ghost use Rattle.node_seq.specs.Reads.{Finds, IsEntryOfTrees, IsKeyAbove, IsKeyBelow, IsKeyOfTrees, IsRecordOfTrees, LiesAbove, LiesBelow};
ghost use Rattle.node_seq.specs.Reads.{key_above, key_below};
ghost use Rattle.node_seq.specs.declared.node_read.SeqError.TheVariants.{DiskFault};
ghost use Rattle.paged_seq.specs.PagedFiles.{BreaksPages, HasBase, HasReasonOn, LeavesPool, OpensByRules, ReadsAtMost, ReadsForEntry, ReadsForRecord};
ghost use Rattle.paged_seq.specs.PagedFiles.{disk_entries, whole_count};
ghost use Rattle.paged_seq.specs.PagedMaps.{map_of_file, next_cost, prev_cost, valid_entries};

use crate::opening::{PagesFault, read_index};
use crate::page_file::PageFile;
use crate::place::Place;
use crate::records::read_records;
use crate::valid::{pass_over, valid_at};
use dewey_labels::List;
use node_pages::PageStart;
use node_seq::{NodeRead, SeqError};
use outside_traits::Disk;
use page_store::{PAGE_BYTES, Pool};
use std::alloc::Global;
use std::marker::Model;
use tree_model::{Key, Record};

/// The map over a file of pages that isn't written, seen as its disk, the pool of the pages that are kept, and where its data pages begin.
/// As a `NodeRead` it has the entries that a valid tree may have; `record_at`, `entry_above` and `entry_below` read all.
#[derive(Drop)]
pub struct PagedSeq<P: Disk + Drop> {
    file: PageFile<P>,
    base: u32,
    starts: List<PageStart>,
    /// Behind the record that was answered last by `entry_above`: a walk goes on there.
    passed: Option<Place>,
    /// Behind the record that was answered last by `record_at`, or the first entry beyond the key: a key further on is looked for from there.
    found: Option<Place>,
}

impl<P: Disk + Drop> Model for PagedSeq<P> {
    ghost use Rattle.paged_seq.specs.PagedFiles.{PagedView, index_at};
    ghost use Rattle.paged_seq.specs.Places.{IsOpenAt};

    ghost Value = { PagedView P };

    ghost view = { λ s. record { disk = s.file.disk; pool = s.file.pool; index = index_at s.base s.starts } };

    ghost invariant = { λ s. IsOpenAt P.is_known (P.history s.file.disk).now.reads (index_at s.base s.starts) s.passed s.found };
}

impl<P: Disk + Drop> PagedSeq<P> {
    /// The map of a file of pages. It reads each page at most once, and keeps those that the pool has room for and where each data page begins.
    /// The pages that the pool has already are the disk's. The disk and the pool are handed back with a fault.
    pub fn open(alloc: Global, disk: P, pool: Pool) -> Result<PagedSeq<P>, PagesFault<P>>
        requires kept { IsTrue P.is_known → ArePagesOf (P.history disk).now.reads pool.kept }
        ensures map { IfOk result
            (λ seq. IsTrue P.is_known → HasBase (P.history disk).now.reads seq.index.base) }
        // Damaged is a file of which `contents_of_file` is a page, the first that breaks a rule; the place is where it begins.
        ensures reason { IfErr result
            (λ refused. HasReasonOn (BreaksPages P.is_known (P.history disk).now.reads)
            P.faults disk refused.disk refused.fault) }
        // The rules are those of one page each: in a file that opens none breaks one; else that page breaks one, and no page before it does.
        ensures rules { OpensByRules P.is_known (P.history disk).now.reads result }
        ensures same { IsTrue P.is_known
            → MatchResult result (λ seq. P.history seq.disk ≡ P.history disk) (λ refused. P.history refused.disk ≡ P.history disk) }
        ensures most { IfOk result (λ seq. seq.pool.most ≡ pool.most) }
        // No more pages are read than have all their bytes, also where the file isn't opened.
        ensures reads { IsTrue P.is_known
            → LeavesPool (ReadsAtMost (whole_count (P.history disk).now.reads) pool) result }
        ensures faults { MatchResult result (λ seq. P.faults seq.disk ≡ P.faults disk) (λ refused. P.faults disk ≤ P.faults refused.disk) }
    {
        let mut file = PageFile::new(disk, pool);
        match read_index(alloc, &mut file) {
            Ok((base, starts)) => Ok(PagedSeq {
                file,
                base,
                starts,
                passed: None,
                found: None,
            }),
            Err(fault) => {
                let (disk, pool) = file.into_parts();
                Err(PagesFault { fault, disk, pool })
            }
        }
    }

    /// The disk, and the pool of its pages. It takes no memory.
    pub fn into_parts(self) -> (P, Pool)
        ensures disk { result.0 ≡ self.disk }
        ensures pool { result.1 ≡ self.pool }
        ensures kept { IsTrue P.is_known → ArePagesOf (P.history result.0).now.reads result.1.kept }
    {
        self.file.into_parts()
    }

    /// The number of the last commit that the pages hold.
    pub fn number(&self) -> u32
        ensures { result ≡ self.now.index.base }
    {
        self.base
    }

    /// How many pages were read for it; those that the pool has kept aren't read again.
    pub fn page_reads(&self) -> u64
        ensures { result ≡ self.now.pool.reads }
    {
        self.file.reads()
    }

    /// All entries, whether a valid tree may have them or not, in the order of their keys. It reads each data page once, and copies no record.
    pub fn entries(&mut self, alloc: Global) -> Result<List<(Key, Record)>, SeqError>
        ensures value { IfOk result
            (λ all. IsTrue P.is_known → all ≡ disk_entries P.history self.old) }
        ensures sorted { IsTrue P.is_known → Sorted (disk_entries P.history self.old) }
        ensures reads { ReadsAtMost (length self.old.index.starts) self.old.pool self.new.pool }
        ensures most { self.new.pool.most ≡ self.old.pool.most }
        ensures same { IsTrue P.is_known → P.history self.new.disk ≡ P.history self.old.disk }
        ensures index { self.new.index ≡ self.old.index }
        ensures cause { HasCause DiskFault (P.faults self.old.disk) (P.faults self.new.disk) result }
    {
        // It tells that they are in order.
        let _sorted = self.most_entries();
        let all = read_records(alloc, &mut self.file, self.starts.as_slice());
        all
    }

    /// The record at a key, whether a valid tree may have it or not. At most two pages are read, and one a chunk of the record.
    pub fn record_at(&mut self, alloc: Global, key: &Key) -> Result<Option<Record>, SeqError>
        ensures value { IfOk result
            (λ found. IsTrue P.is_known → found ≡ get key.now (disk_entries P.history self.old)) }
        ensures reads { IfOk result
            (λ found. IsTrue P.is_known → ReadsForRecord found self.old.pool self.new.pool) }
        ensures most { self.new.pool.most ≡ self.old.pool.most }
        ensures same { IsTrue P.is_known → P.history self.new.disk ≡ P.history self.old.disk }
        ensures index { self.new.index ≡ self.old.index }
        ensures cause { HasCause DiskFault (P.faults self.old.disk) (P.faults self.new.disk) result }
    {
        let found = self
            .file
            .record_at(alloc, self.starts.as_slice(), &mut self.found, key);
        found
    }

    /// The entry with the least key above a key, of all. At most three pages are read, and one a chunk of the record.
    /// Above the key that it answered last it goes on at its place, so a walk takes each entry once.
    pub fn entry_above(
        &mut self,
        alloc: Global,
        key: &Key,
    ) -> Result<Option<(Key, Record)>, SeqError>
        ensures value { IfOk result (λ found. IsTrue P.is_known
            → found ≡ first_above key.now (disk_entries P.history self.old)) }
        ensures above { IfOk result (LiesAbove key.now) }
        ensures reads { IfOk result
            (λ found. IsTrue P.is_known → ReadsForEntry found self.old.pool self.new.pool) }
        ensures most { self.new.pool.most ≡ self.old.pool.most }
        ensures same { IsTrue P.is_known → P.history self.new.disk ≡ P.history self.old.disk }
        ensures index { self.new.index ≡ self.old.index }
        ensures cause { HasCause DiskFault (P.faults self.old.disk) (P.faults self.new.disk) result }
    {
        let found = self
            .file
            .entry_above(alloc, self.starts.as_slice(), &mut self.passed, key);
        found
    }

    /// The entry with the greatest key below a key, of all. At most three pages are read, and one a chunk of the record.
    pub fn entry_below(
        &mut self,
        alloc: Global,
        key: &Key,
    ) -> Result<Option<(Key, Record)>, SeqError>
        ensures value { IfOk result (λ found. IsTrue P.is_known
            → found ≡ last_below key.now (disk_entries P.history self.old)) }
        ensures below { IfOk result (LiesBelow key.now) }
        ensures reads { IfOk result
            (λ found. IsTrue P.is_known → ReadsForEntry found self.old.pool self.new.pool) }
        ensures most { self.new.pool.most ≡ self.old.pool.most }
        ensures same { IsTrue P.is_known → P.history self.new.disk ≡ P.history self.old.disk }
        ensures index { self.new.index ≡ self.old.index }
        ensures cause { HasCause DiskFault (P.faults self.old.disk) (P.faults self.new.disk) result }
    {
        let found = self.file.entry_below(alloc, self.starts.as_slice(), key);
        found
    }
}

impl<P: Disk + Drop> PagedSeq<P> {
    /// No more entries than so many stand on the pages, and they are in the order of their keys.
    fn most_entries(&self) -> u64
        ensures most { IsTrue P.is_known → length (disk_entries P.history self.now) ≤ result }
        ensures sorted { IsTrue P.is_known → Sorted (disk_entries P.history self.now) }
    {
        PAGE_BYTES as u64 * self.starts.len() as u64
    }

    /// The entry with the least key above a key, of those that a valid tree may have. Over a file without pages nothing is sought.
    /// At most three pages are read, and one a chunk of the record. Each other entry that is passed over costs as much again.
    fn valid_above(&mut self, alloc: Global, key: &Key) -> Result<Option<(Key, Record)>, SeqError>
        ensures value { IfOk result (λ found. IsTrue P.is_known
            → found ≡ first_above key.now (valid_entries (disk_entries P.history self.old))) }
        ensures above { IfOk result (LiesAbove key.now) }
        ensures valid { IfOk result IsEntryOfTrees }
        ensures pages { OnOk result (IsTrue P.is_known
            → ReadsAtMost (next_cost key.now (disk_entries P.history self.old))
            self.old.pool self.new.pool) }
        ensures most { self.new.pool.most ≡ self.old.pool.most }
        ensures same { IsTrue P.is_known → P.history self.new.disk ≡ P.history self.old.disk }
        ensures index { self.new.index ≡ self.old.index }
        ensures cause { HasCause DiskFault (P.faults self.old.disk) (P.faults self.new.disk) result }
    {
        let most = self.most_entries();
        if most == 0 {
            return Ok(None);
        }
        let mut found = self.entry_above(alloc, key)?;
        for _ in 0..most {
            match pass_over(found) {
                Ok(entry) => return Ok(entry),
                Err(at) => found = self.entry_above(alloc, &at)?,
            }
        }
        Ok(None)
    }

    /// The entry with the greatest key below a key, of those that a valid tree may have.
    /// At most three pages are read, and one a chunk of the record. Each other entry that is passed over costs as much again.
    fn valid_below(&mut self, alloc: Global, key: &Key) -> Result<Option<(Key, Record)>, SeqError>
        ensures value { IfOk result (λ found. IsTrue P.is_known
            → found ≡ last_below key.now (valid_entries (disk_entries P.history self.old))) }
        ensures below { IfOk result (LiesBelow key.now) }
        ensures valid { IfOk result IsEntryOfTrees }
        ensures pages { OnOk result (IsTrue P.is_known
            → ReadsAtMost (prev_cost key.now (disk_entries P.history self.old))
            self.old.pool self.new.pool) }
        ensures most { self.new.pool.most ≡ self.old.pool.most }
        ensures same { IsTrue P.is_known → P.history self.new.disk ≡ P.history self.old.disk }
        ensures index { self.new.index ≡ self.old.index }
        ensures cause { HasCause DiskFault (P.faults self.old.disk) (P.faults self.new.disk) result }
    {
        let most = self.most_entries();
        if most == 0 {
            return Ok(None);
        }
        let mut found = self.entry_below(alloc, key)?;
        for _ in 0..most {
            match pass_over(found) {
                Ok(entry) => return Ok(entry),
                Err(at) => found = self.entry_below(alloc, &at)?,
            }
        }
        Ok(None)
    }
}

impl<P: Disk + Drop> NodeRead for PagedSeq<P> {
    ghost use Rattle.std.specs.Prelude.{◌≡◌, ◌≤◌, IsTrue, refl};
    ghost use Rattle.std.proofs.Common.{◌∙◌, le_refl, le_trans};
    ghost use Rattle.paged_seq.specs.PagedFiles.{map_same};
    ghost use Rattle.paged_seq.specs.PagedMaps.{map_of_file};

    ghost contents = { λ s. map_of_file P.is_known (P.history s.disk).now.reads };

    ghost count = { λ s. P.faults s.disk };

    ghost unchanged = { λ s t. (IsTrue P.is_known → P.history t.disk ≡ P.history s.disk) × (P.faults s.disk ≤ P.faults t.disk) × (t.index ≡ s.index) × (t.pool.most ≡ s.pool.most) };

    /// At most two pages are read, and one a chunk of the record that the pages have there.
    fn get(&mut self, alloc: Global, key: &Key) -> Result<Option<Record>, SeqError>
        ensures value { Finds (map_of_file P.is_known (P.history self.old.disk).now.reads) result (get key.now) }
        ensures valid { IfOk result IsRecordOfTrees }
        ensures pages { OnOk result (IsTrue P.is_known
            → ReadsForRecord (get key.now (disk_entries P.history self.old))
            self.old.pool self.new.pool) }
        ensures most { self.new.pool.most ≡ self.old.pool.most }
        ensures same { IsTrue P.is_known → P.history self.new.disk ≡ P.history self.old.disk }
        ensures index { self.new.index ≡ self.old.index }
        ensures cause { HasCause DiskFault (P.faults self.old.disk) (P.faults self.new.disk) result }
    {
        let _sorted = self.most_entries();
        let found = self.record_at(alloc, key)?;
        Ok(valid_at(key, found))
    }

    /// At most three pages are read, and one a chunk of the record.
    /// An entry that is passed over, because no valid tree has it, costs as much again.
    fn next_from(&mut self, alloc: Global, key: &Key) -> Result<Option<(Key, Record)>, SeqError>
        ensures value { Finds (map_of_file P.is_known (P.history self.old.disk).now.reads) result (first_above key.now) }
        ensures above { IfOk result (LiesAbove key.now) }
        ensures valid { IfOk result IsEntryOfTrees }
        ensures pages { OnOk result (IsTrue P.is_known
            → ReadsAtMost (next_cost key.now (disk_entries P.history self.old))
            self.old.pool self.new.pool) }
        ensures most { self.new.pool.most ≡ self.old.pool.most }
        ensures same { IsTrue P.is_known → P.history self.new.disk ≡ P.history self.old.disk }
        ensures index { self.new.index ≡ self.old.index }
        ensures cause { HasCause DiskFault (P.faults self.old.disk) (P.faults self.new.disk) result }
    {
        self.valid_above(alloc, key)
    }

    /// As many pages are read as for `next_from`.
    fn prev_from(&mut self, alloc: Global, key: &Key) -> Result<Option<(Key, Record)>, SeqError>
        ensures value { Finds (map_of_file P.is_known (P.history self.old.disk).now.reads) result (last_below key.now) }
        ensures below { IfOk result (LiesBelow key.now) }
        ensures valid { IfOk result IsEntryOfTrees }
        ensures pages { OnOk result (IsTrue P.is_known
            → ReadsAtMost (prev_cost key.now (disk_entries P.history self.old))
            self.old.pool self.new.pool) }
        ensures most { self.new.pool.most ≡ self.old.pool.most }
        ensures same { IsTrue P.is_known → P.history self.new.disk ≡ P.history self.old.disk }
        ensures index { self.new.index ≡ self.old.index }
        ensures cause { HasCause DiskFault (P.faults self.old.disk) (P.faults self.new.disk) result }
    {
        self.valid_below(alloc, key)
    }

    /// The key of `next_from`, whose record is read too.
    fn key_above(&mut self, alloc: Global, key: &Key) -> Result<Option<Key>, SeqError>
        ensures value { Finds (map_of_file P.is_known (P.history self.old.disk).now.reads) result (key_above key.now) }
        ensures above { IfOk result (IsKeyAbove key.now) }
        ensures valid { IfOk result IsKeyOfTrees }
        ensures pages { OnOk result (IsTrue P.is_known
            → ReadsAtMost (next_cost key.now (disk_entries P.history self.old))
            self.old.pool self.new.pool) }
        ensures most { self.new.pool.most ≡ self.old.pool.most }
        ensures same { IsTrue P.is_known → P.history self.new.disk ≡ P.history self.old.disk }
        ensures index { self.new.index ≡ self.old.index }
        ensures cause { HasCause DiskFault (P.faults self.old.disk) (P.faults self.new.disk) result }
    {
        match self.valid_above(alloc, key)? {
            Some((at, _)) => Ok(Some(at)),
            None => Ok(None),
        }
    }

    /// The key of `prev_from`, whose record is read too.
    fn key_below(&mut self, alloc: Global, key: &Key) -> Result<Option<Key>, SeqError>
        ensures value { Finds (map_of_file P.is_known (P.history self.old.disk).now.reads) result (key_below key.now) }
        ensures below { IfOk result (IsKeyBelow key.now) }
        ensures valid { IfOk result IsKeyOfTrees }
        ensures pages { OnOk result (IsTrue P.is_known
            → ReadsAtMost (prev_cost key.now (disk_entries P.history self.old))
            self.old.pool self.new.pool) }
        ensures most { self.new.pool.most ≡ self.old.pool.most }
        ensures same { IsTrue P.is_known → P.history self.new.disk ≡ P.history self.old.disk }
        ensures index { self.new.index ≡ self.old.index }
        ensures cause { HasCause DiskFault (P.faults self.old.disk) (P.faults self.new.disk) result }
    {
        match self.valid_below(alloc, key)? {
            Some((at, _)) => Ok(Some(at)),
            None => Ok(None),
        }
    }

    fn faults(&self) -> u64 {
        // It tells that the map is in order.
        let _sorted = self.most_entries();
        self.file.faults()
    }

    ghost unchanged_itself = { λ s. ((λ known. refl), le_refl (P.faults s.disk), refl, refl) };

    ghost unchanged_onward = { λ s t u a b. ((λ known. b.0 known ∙ a.0 known), le_trans a.1 b.1, b.2 ∙ a.2, b.3 ∙ a.3) };

    ghost unchanged_contents = { λ s t a. map_same P.is_known (P.history s.disk) (P.history t.disk) a.0 };

    ghost unchanged_count = { λ s t a. a.1 };
}
