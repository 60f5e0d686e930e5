// The file under a journal, and the calls of an append.
ghost use Rattle.std.specs.Prelude.{◌≡◌, ◌≤◌, ◌<◌, ◌+◌, ◌^◌, false, true, Some, IsTrue, OnOk, OnErr, length, vec_capacity};
ghost use Rattle.outside_traits.specs.Faults.{HasCause, failed};
ghost use Rattle.journal.specs.Groups.{AreImages, IsCommit, commits_of, open_groups};
ghost use Rattle.journal.specs.Appends.{AddsCommit, LeavesWithOrWithout, last_number};
ghost use Rattle.journal.specs.Batches.{AddsCommits, LeavesAllOrNone, MayFollow, batch_steps, pairs_of};
ghost use Rattle.journal.specs.ImageAppends.{AddsImages, LeavesWithOrWithoutImages};
ghost use Rattle.journal.specs.Resets.{Clears, LeavesGroupsOrNone};
ghost use Rattle.journal.specs.inside.KnownDisks.{WhereKnown};
ghost use Rattle.journal.specs.inside.Settled.{IsHeld, IsKept};
ghost use Rattle.journal.specs.Steps.{Does, StopsIn, append_steps, gate_steps, images_steps, reset_steps};

use crate::batch::write_commits;
use crate::frame::frame;
use crate::head::{COMMIT, FIRST_GATE, IMAGES};
use node_records::Pending;
use outside_traits::{Disk, Failed};

/// A gate behind which a group counts.
pub const OPEN: u8 = 1;

/// A gate behind which nothing counts.
const CLOSED: u8 = 0;

/// A journal's disk, the place of the closed gate behind its groups, the number of the last group that was read or written,
/// and whether images are the last open group.
#[derive(Drop)]
pub struct JournalFile<J: Disk> {
    pub disk: J,
    pub gate: u64,
    pub last: Option<u32>,
    pub has_images: bool,
}

impl<J: Disk> JournalFile<J> {
    /// Adds a commit. Its bytes are put together in the buffer, whose room is there.
    pub fn append(&mut self, buffer: &mut Vec<u8>, number: u32, body: &[u8]) -> Result<(), Failed>
        requires kept { IsKept J.is_known (J.history self.old.disk) self.old.gate self.old.last }
        requires commit { IsCommit self.old.last number body.now }
        requires room { 10 + length body.now ≤ vec_capacity buffer.old }

        ensures kept { OnOk result (IsKept J.is_known (J.history self.new.disk) self.new.gate self.new.last) }
        ensures last { OnOk result (self.new.last ≡ Some number) }
        ensures gate { OnOk result (self.new.gate ≡ self.old.gate + 10 + length body.now) }
        ensures has_images { self.new.has_images ≡ self.old.has_images }
        ensures room { vec_capacity buffer.old ≤ vec_capacity buffer.new }
        ensures adds { OnOk result (WhereKnown J.is_known J.history
            (AddsCommit self.old.gate number body.now) self.old.disk self.new.disk) }
        ensures stops { OnErr result (WhereKnown J.is_known J.history
            (StopsIn (append_steps self.old.gate number body.now)) self.old.disk self.new.disk) }
        ensures any_moment { WhereKnown J.is_known J.history
            (LeavesWithOrWithout number body.now) self.old.disk self.new.disk }
        ensures cause { HasCause failed (J.faults self.old.disk) (J.faults self.new.disk) result }
    {
        frame(buffer, COMMIT, number, body);
        let framed = buffer.as_slice();
        write_group(&mut self.disk, self.gate, framed)?;
        self.gate += framed.len() as u64;
        self.last = Some(number);
        Ok(())
    }

    /// Adds images behind the commits, in the same way. Nothing may stand behind them until a reset.
    pub fn append_images(
        &mut self,
        buffer: &mut Vec<u8>,
        number: u32,
        body: &[u8],
    ) -> Result<(), Failed>
        requires kept { IsKept J.is_known (J.history self.old.disk) self.old.gate self.old.last }
        requires images { AreImages self.old.last number body.now }
        requires room { 10 + length body.now ≤ vec_capacity buffer.old }

        ensures held { OnOk result (IsHeld J.is_known (J.history self.new.disk) self.new.gate) }
        ensures last { OnOk result (self.new.last ≡ Some number) }
        ensures gate { OnOk result (self.new.gate ≡ self.old.gate + 10 + length body.now) }
        ensures has_images { OnOk result (self.new.has_images ≡ true) }
        ensures room { vec_capacity buffer.old ≤ vec_capacity buffer.new }
        ensures adds { OnOk result (WhereKnown J.is_known J.history
            (AddsImages self.old.gate number body.now) self.old.disk self.new.disk) }
        ensures stops { OnErr result (WhereKnown J.is_known J.history
            (StopsIn (images_steps self.old.gate number body.now)) self.old.disk self.new.disk) }
        ensures any_moment { WhereKnown J.is_known J.history
            (LeavesWithOrWithoutImages number body.now) self.old.disk self.new.disk }
        ensures cause { HasCause failed (J.faults self.old.disk) (J.faults self.new.disk) result }
    {
        frame(buffer, IMAGES, number, body);
        let framed = buffer.as_slice();
        write_group(&mut self.disk, self.gate, framed)?;
        self.gate += framed.len() as u64;
        self.last = Some(number);
        self.has_images = true;
        Ok(())
    }

    /// Closes the first gate, behind which all groups stand. Where it is the closed one, nothing is written.
    pub fn reset(&mut self) -> Result<(), Failed>
        requires kept { self.old.has_images ≡ false → IsKept J.is_known (J.history self.old.disk) self.old.gate self.old.last }
        requires held { self.old.has_images ≡ true → IsHeld J.is_known (J.history self.old.disk) self.old.gate }

        ensures kept { OnOk result (IsKept J.is_known (J.history self.new.disk) self.new.gate self.new.last) }
        ensures last { self.new.last ≡ self.old.last }
        ensures gate { OnOk result (self.new.gate ≡ 8) }
        ensures has_images { OnOk result (self.new.has_images ≡ false) }
        ensures clears { OnOk result (WhereKnown J.is_known J.history
            (Clears self.old.gate) self.old.disk self.new.disk) }
        ensures stops { OnErr result (WhereKnown J.is_known J.history
            (StopsIn (reset_steps self.old.gate)) self.old.disk self.new.disk) }
        ensures any_moment { WhereKnown J.is_known J.history
            LeavesGroupsOrNone self.old.disk self.new.disk }
        ensures cause { HasCause failed (J.faults self.old.disk) (J.faults self.new.disk) result }
    {
        // Behind a first gate that is closed old groups may stand: a crash within a write of it could open it to them.
        if self.gate == FIRST_GATE {
            return Ok(());
        }
        self.disk.write_at(FIRST_GATE, &[CLOSED])?;
        self.disk.sync()?;
        self.gate = FIRST_GATE;
        self.has_images = false;
        Ok(())
    }

    /// Adds commits, all of them or none: until their first gate is opened none counts. It takes no memory.
    pub fn append_all(&mut self, commits: &[Pending]) -> Result<(), Failed>
        requires kept { IsKept J.is_known (J.history self.old.disk) self.old.gate self.old.last }
        requires commits { MayFollow self.old.last commits.now }
        requires some { 0 < length commits.now }

        ensures kept { OnOk result (IsKept J.is_known (J.history self.new.disk) self.new.gate self.new.last) }
        ensures last { OnOk result (self.new.last ≡ last_number self.old.last (commits_of (pairs_of commits.now))) }
        ensures gate { OnOk result (self.new.gate ≡ self.old.gate + length (open_groups (pairs_of commits.now))) }
        ensures has_images { self.new.has_images ≡ self.old.has_images }
        ensures adds { OnOk result (WhereKnown J.is_known J.history
            (AddsCommits self.old.gate (pairs_of commits.now)) self.old.disk self.new.disk) }
        ensures stops { OnErr result (WhereKnown J.is_known J.history
            (StopsIn (batch_steps self.old.gate (pairs_of commits.now)))
            self.old.disk self.new.disk) }
        ensures any_moment { WhereKnown J.is_known J.history
            (LeavesAllOrNone (pairs_of commits.now)) self.old.disk self.new.disk }
        ensures cause { HasCause failed (J.faults self.old.disk) (J.faults self.new.disk) result }
    {
        let gate = self.gate;
        let end = write_commits(&mut self.disk, gate + 1, commits)?;
        self.disk.sync()?;
        // One gate decides for all of them: those between them are open already.
        self.disk.write_at(gate, &[OPEN])?;
        self.disk.sync()?;
        self.gate = end - 1;
        self.last = last_of(self.last, commits);
        Ok(())
    }
}

/// Writes a group and the next gate behind the closed gate, and then opens this.
fn write_group<J: Disk>(disk: &mut J, gate: u64, framed: &[u8]) -> Result<(), Failed>
    requires fits { gate + 1 < 2 ^ 64 }
    requires within { IsTrue J.is_known → gate + 1 ≤ length (J.history disk.old).now.reads }
    ensures does { OnOk result (WhereKnown J.is_known J.history
        (Does (gate_steps gate framed.now)) disk.old disk.new) }
    ensures stops { OnErr result (WhereKnown J.is_known J.history
        (StopsIn (gate_steps gate framed.now)) disk.old disk.new) }
    ensures fits { OnOk result (gate + 1 + length framed.now < 2 ^ 64) }
    ensures cause { HasCause failed (J.faults disk.old) (J.faults disk.new) result }
{
    disk.write_at(gate + 1, framed)?;
    disk.sync()?;
    // The gate is opened last: until its sync a crash finds the groups from before.
    disk.write_at(gate, &[OPEN])?;
    disk.sync()?;
    Ok(())
}

/// The number of the last of these commits, or the one before them.
fn last_of(last: Option<u32>, commits: &[Pending]) -> Option<u32>
    ensures { result ≡ last_number last (commits_of (pairs_of commits.now)) }
{
    let mut number = last;
    let mut rest = commits;
    while let Some((commit, after)) = rest.split_first() {
        number = Some(commit.number);
        rest = after;
    }
    number
}
