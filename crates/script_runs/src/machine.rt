// What does the lines of a script, as the loop sees it.
ghost use Rattle.std.specs.Prelude.{◌≡◌, ◌++◌, Err, OnOk};
ghost use Rattle.script_runs.specs.Counts.{DisksCountedWhere};
ghost use Rattle.node_records.specs.declared.open_error.Place.{Place};
ghost use Rattle.script_runs.specs.Machine.{Machine, IsSettled, HasDoneLine, LeavesWithOrWithoutLine, LeavesCommitted};

use crate::halt::Halt;
use std::alloc::Global;

/// Does the lines of a script over a store's two disks, one at a time.
pub trait LineMachine {
    ghost machine: { Machine Self };

    /// Does a line, by its number from 1, and adds its replies to `out`. After an error the machine isn't used again.
    fn line(
        &mut self,
        alloc: Global,
        number: u64,
        line: &[u8],
        out: &mut Vec<u8>,
    ) -> Result<(), Halt>
        requires ready { machine.usable self.old }
        ensures done { OnOk result (HasDoneLine machine self.old self.new line.now) }
        ensures text { OnOk result ((s : machine.State) → machine.stands self.old s → out.new.items ≡ out.old.items ++ machine.text s number line.now) }
        ensures valid { OnOk result (machine.valid line.now) }

        // A crash at any moment of it leaves what was committed before the line or what is after it.
        ensures any_moment { LeavesWithOrWithoutLine machine self.old self.new line.now }
        ensures fixed { machine.fixed self.new ≡ machine.fixed self.old }
        ensures damaged { (place : Place) → result ≡ Err (Halt.Damaged place) → machine.damages }
        ensures cause { DisksCountedWhere (result ≡ Err Halt.DiskFault) (machine.faults self.old) (machine.faults self.new) };

    /// Whether something is to be done once the replies to the line are written.
    fn is_due(&self) -> bool
        requires answered { machine.answered self.now };

    /// Does what is due between two lines. All replies are written by then, where `is_due` says so. After an error the machine isn't used again.
    fn rest(&mut self, alloc: Global) -> Result<(), Halt>
        requires answered { machine.answered self.old }
        ensures state { OnOk result ((s : machine.State) → machine.stands self.old s → machine.stands self.new s) }
        ensures ready { OnOk result (machine.usable self.new) }
        ensures settled { OnOk result ((s : machine.State) → machine.stands self.old s → IsSettled machine self.old s → IsSettled machine self.new s) }

        // A crash at any moment of it leaves what was committed before.
        ensures any_moment { LeavesCommitted machine self.old self.new }
        ensures fixed { machine.fixed self.new ≡ machine.fixed self.old }
        ensures damaged { (place : Place) → result ≡ Err (Halt.Damaged place) → machine.damages }
        ensures cause { DisksCountedWhere (result ≡ Err Halt.DiskFault) (machine.faults self.old) (machine.faults self.new) };
}
