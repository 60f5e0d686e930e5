// A store's journal: it is opened on a disk, takes commits until a call of the disk fails, and hands the disk out.
ghost use Rattle.std.specs.Prelude.{◌≡◌, ◌≤◌, false, true, not, Ok, IfOk, IfErr, IsTrue, None, OnOk, OnErr};
ghost use Rattle.outside_traits.specs.Faults.{HasCause};
ghost use Rattle.outside_traits.specs.CrashImages.{IsImage};
ghost use Rattle.outside_traits.specs.Moments.{IsAllSynced};
ghost use Rattle.journal.specs.DiskFaults.{disk_fault};
ghost use Rattle.journal.specs.Batches.{AddsCommits, HasAddedAll, LeavesAllOrNone, batch_steps, pairs_of};
ghost use Rattle.journal.specs.Asked.{MayAppend, MayAppendAll, MayAppendImages};
ghost use Rattle.journal.specs.ImageAppends.{AddsImages, HoldsImages, LeavesWithOrWithoutImages};
ghost use Rattle.journal.specs.Journals.{is_fresh, read};
ghost use Rattle.journal.specs.Openings.{LeavesSameGroupsBy, Opens, TakesCommits};
ghost use Rattle.journal.specs.Refusals.{RefusesJournal, RisesOnlyAtFault, UnlessFault};
ghost use Rattle.journal.specs.Resets.{Clears, HasReset, LeavesGroupsOrNone};
ghost use Rattle.journal.specs.Steps.{StopsIn, append_steps, images_steps, reset_steps};
ghost use Rattle.journal.specs.Appends.{AddsCommit, HasAdded, LeavesWithOrWithout, groups_in};

use crate::decoding::Found;
use crate::disk_fault::DiskFault;
use crate::file::JournalFile;
use crate::frame::FRAME;
use crate::group::Groups;
use crate::opening::open_file;
use dewey_labels::NoMemory;
use node_records::{File, OpenError, Pending};
use outside_traits::Disk;
use std::alloc::Global;
use std::marker::Model;

/// A journal on a disk, seen as its disk's states and count of faults, the place of its closed gate, the number of the last group
/// that it has read or written, whether a call has failed, whether images are its last open group, and how long a body it has room for.
/// Until a call fails, a crash between two calls leaves what a read gives (clause `settled` of `is_usable`).
#[derive(Drop)]
pub struct Journal<J: Disk> {
    file: JournalFile<J>,
    failed: bool,
    buffer: Vec<u8>,
}

impl<J: Disk> Model for Journal<J> {
    ghost use Rattle.std.specs.Prelude.{◌-◌, vec_capacity};
    ghost use Rattle.journal.specs.inside.Settled.{IsUsable};
    ghost use Rattle.journal.specs.Views.{JournalView};

    ghost Value = { JournalView };

    ghost view = { λ j. record {
      history = J.history j.file.disk;
      faults = J.faults j.file.disk;
      gate = j.file.gate;
      last = j.file.last;
      failed = j.failed;
      has_images = j.file.has_images;
      room = vec_capacity j.buffer - 10;
    } };

    ghost invariant = { λ j. IsUsable J.is_known (J.history j.file.disk) j.file.gate j.file.last j.failed j.file.has_images (vec_capacity j.buffer) };
}

/// A journal that wasn't opened: why, and the disk.
#[derive(Drop)]
pub struct OpenFault<J: Disk> {
    pub fault: OpenError,
    pub disk: J,
}

impl<J: Disk> Journal<J> {
    /// Opens the journal on a disk, and answers its commits. It reads the whole file once, and makes a journal in a fresh file.
    /// All memory is taken before the first write. The disk is handed back with a fault.
    pub fn open(alloc: Global, disk: J) -> Result<(Journal<J>, Groups), OpenFault<J>>
        requires synced { IsTrue J.is_known → IsAllSynced (J.history disk) }

        // The groups are those that the bytes stood for, and stand for now; the journal takes the commit that follows.
        ensures opens { IfOk result (λ opened. IsTrue J.is_known → Opens (J.history disk) opened.0.history opened.1) }
        ensures ready { IfOk result (λ opened. TakesCommits (J.faults disk) opened.1 opened.0) }

        // A crash at any moment of the call leaves what stands for the same groups.
        ensures any_moment { IsTrue J.is_known
            → LeavesSameGroupsBy (J.history disk) result
            (λ opened. opened.0.history) (λ refused. J.history refused.disk) }

        // Why it isn't opened.
        ensures reason { IfErr result (λ refused. RefusesJournal J.is_known (J.history disk)
            (J.faults disk) (J.faults refused.disk) refused.fault) }

        // Nothing is written then but where the disk fails while a journal is made in a fresh file, and no other fault is counted.
        ensures untouched { IfErr result (λ refused. UnlessFault refused.fault (IsTrue J.is_known → J.history refused.disk ≡ J.history disk)) }
        ensures made_before { IfErr result (λ refused. IsTrue J.is_known → is_fresh (J.history disk).now.reads ≡ false
            → J.history refused.disk ≡ J.history disk) }
        ensures counts { IfErr result (λ refused. RisesOnlyAtFault refused.fault (J.faults disk) (J.faults refused.disk)) }
    {
        let mut disk = disk;
        let Ok(buffer) = Vec::with_capacity(alloc, FRAME) else {
            return Err(OpenFault {
                fault: OpenError::NoMemory,
                disk,
            });
        };
        match open_file(alloc, &mut disk) {
            Ok(Found { groups, gate, last }) => Ok((
                Journal {
                    file: JournalFile {
                        disk,
                        gate: gate as u64,
                        last,
                        has_images: groups.images.is_some(),
                    },
                    failed: false,
                    buffer,
                },
                groups,
            )),
            Err(fault) => Err(OpenFault { fault, disk }),
        }
    }

    /// Adds a commit behind the last one, by four calls of the disk. It takes no memory.
    /// After an error the journal isn't used again; the disk is opened anew.
    pub fn append_group(&mut self, number: u32, body: &[u8]) -> Result<(), DiskFault>
        requires may { MayAppend number body.now self.old }

        // After Ok every crash leaves the new commit; after an error the journal isn't to be used.
        ensures durable { OnOk result (IsTrue J.is_known → AddsCommit self.old.gate number body.now self.old.history self.new.history) }
        ensures ok { OnOk result (HasAdded number body.now self.old self.new) }
        ensures err { OnErr result (self.new.failed ≡ true) }

        // A crash at any moment of the call leaves the groups from before it, with the new one or without.
        ensures any_moment { IsTrue J.is_known → LeavesWithOrWithout number body.now self.old.history self.new.history }

        // After an error the first of the four calls were made, up to one that failed: what stands behind the next gate stays.
        ensures stops { OnErr result (IsTrue J.is_known → StopsIn (append_steps self.old.gate number body.now) self.old.history self.new.history) }
        ensures room { self.old.room ≤ self.new.room }
        ensures cause { HasCause disk_fault self.old.faults self.new.faults result }
    {
        self.failed = true;
        self.file.append(&mut self.buffer, number, body)?;
        self.failed = false;
        Ok(())
    }

    /// Adds commits behind the last one, all of them or none, with one pair of syncs. It takes no memory, and needs no room.
    /// After an error the journal isn't used again; the disk is opened anew.
    pub fn append_groups(&mut self, commits: &[Pending]) -> Result<(), DiskFault>
        requires may { MayAppendAll commits.now self.old }

        // After Ok every crash leaves all of the new commits; after an error the journal isn't to be used.
        ensures durable { OnOk result (IsTrue J.is_known → AddsCommits self.old.gate (pairs_of commits.now) self.old.history self.new.history) }
        ensures ok { OnOk result (HasAddedAll (pairs_of commits.now) self.old self.new) }
        ensures err { OnErr result (self.new.failed ≡ true) }

        // A crash at any moment of the call leaves the groups from before it, with all of the new ones or with none.
        ensures any_moment { IsTrue J.is_known → LeavesAllOrNone (pairs_of commits.now) self.old.history self.new.history }

        // After an error the first of the calls were made, up to one that failed: what stands behind the last gate stays.
        ensures stops { OnErr result (IsTrue J.is_known → StopsIn (batch_steps self.old.gate (pairs_of commits.now)) self.old.history self.new.history) }
        ensures room { self.new.room ≡ self.old.room }
        ensures cause { HasCause disk_fault self.old.faults self.new.faults result }
    {
        self.failed = true;
        self.file.append_all(commits)?;
        self.failed = false;
        Ok(())
    }

    /// Adds images of pages behind the commits, by four calls of the disk. It takes no memory. Their number is that of the last group
    /// which this journal has read or written, and any where there is none; then nothing is appended until `reset`.
    /// After an error the journal isn't used again; the disk is opened anew.
    pub fn append_images(&mut self, number: u32, body: &[u8]) -> Result<(), DiskFault>
        requires may { MayAppendImages number body.now self.old }

        // After Ok every crash leaves the images; after an error the journal isn't to be used.
        ensures durable { OnOk result (IsTrue J.is_known → AddsImages self.old.gate number body.now self.old.history self.new.history) }
        ensures ok { OnOk result (HoldsImages number body.now self.old self.new) }
        ensures err { OnErr result (self.new.failed ≡ true) }

        // A crash at any moment of the call leaves the groups from before it, with the images or without.
        ensures any_moment { IsTrue J.is_known → LeavesWithOrWithoutImages number body.now self.old.history self.new.history }

        // After an error the first of the four calls were made, up to one that failed: what stands behind the next gate stays.
        ensures stops { OnErr result (IsTrue J.is_known → StopsIn (images_steps self.old.gate number body.now) self.old.history self.new.history) }
        ensures room { self.old.room ≤ self.new.room }
        ensures cause { HasCause disk_fault self.old.faults self.new.faults result }
    {
        self.failed = true;
        self.file.append_images(&mut self.buffer, number, body)?;
        self.failed = false;
        Ok(())
    }

    /// Lets go of all groups: the journal is empty afterwards, and its last number stays. It takes no memory, and makes two calls of
    /// the disk, or none where no group is open.
    /// After an error the journal isn't used again; the disk is opened anew.
    pub fn reset(&mut self) -> Result<(), DiskFault>
        requires usable { self.old.failed ≡ false }

        // After Ok every crash leaves a journal without groups; after an error the journal isn't to be used.
        ensures durable { OnOk result (IsTrue J.is_known → Clears self.old.gate self.old.history self.new.history) }
        ensures ok { OnOk result (HasReset self.old self.new) }
        ensures err { OnErr result (self.new.failed ≡ true) }

        // A crash at any moment of the call leaves the groups from before it, or none.
        ensures any_moment { IsTrue J.is_known → LeavesGroupsOrNone self.old.history self.new.history }

        // After an error the first of the calls were made, up to one that failed.
        ensures stops { OnErr result (IsTrue J.is_known → StopsIn (reset_steps self.old.gate) self.old.history self.new.history) }
        ensures room { self.new.room ≡ self.old.room }
        ensures cause { HasCause disk_fault self.old.faults self.new.faults result }
    {
        self.failed = true;
        self.file.reset()?;
        self.failed = false;
        Ok(())
    }

    /// Makes room for a body of so many bytes.
    pub fn make_room(&mut self, alloc: Global, body: usize) -> Result<(), NoMemory>
        ensures room { OnOk result (body ≤ self.new.room) }
        ensures ok { OnOk result (self.new ≡ record self.old { room = self.new.room }) }
        ensures err { OnErr result (self.new ≡ self.old) }
    {
        let Some(capacity) = body.checked_add(FRAME) else {
            return Err(NoMemory);
        };
        if self.buffer.capacity() < capacity {
            self.buffer = Vec::with_capacity(alloc, capacity)?;
        }
        Ok(())
    }

    /// Hands the disk out.
    pub fn into_disk(self) -> J
        ensures history { J.history result ≡ self.history }
        ensures faults { J.faults result ≡ self.faults }
    {
        let Journal { file, .. } = self;
        let JournalFile { disk, .. } = file;
        disk
    }

    /// Whether no call has failed. Then all is synced, and the bytes are read as groups.
    pub fn is_usable(&self) -> bool
        ensures answer { result ≡ not self.now.failed }
        ensures settled { IsTrue J.is_known → self.now.failed ≡ false → IsAllSynced self.now.history }
        ensures groups { IsTrue J.is_known → self.now.failed ≡ false → read self.now.history.now.reads ≡ Ok (groups_in self.now.history) }
        ensures commits { IsTrue J.is_known → self.now.failed ≡ false → self.now.has_images ≡ false → (groups_in self.now.history).images ≡ None }
    {
        !self.failed
    }

    /// How many calls of the disk have failed. What a read gives is among what a crash may leave, after one that failed too.
    pub fn faults(&self) -> u64
        ensures count { result ≡ self.now.faults }
        ensures reads_an_image { IsTrue J.is_known → IsImage self.now.history.now self.now.history.now.reads }
    {
        self.file.disk.faults()
    }
}
