// The bytes of a script put together to lines, each done by the machine as it ends.
ghost use Rattle.std.specs.Prelude.{◌≡◌, ◌==◌, position, ◌≢◌, ℕ, ◌+◌, ◌<◌, ◌≤◌, ◌^◌, List, [], ◌∷◌, ◌++◌, length, Option, Err, OnOk, OnErr};
ghost use Rattle.script_runs.specs.Counts.{CountedWhere, DisksCountedWhere};
ghost use Rattle.node_records.specs.declared.open_error.Place.{Place};
ghost use Rattle.script_runs.specs.Lines.{line_limit};
ghost use Rattle.script_runs.specs.Machine.{StaysSettled, LeavesWithOrWithoutLine};
ghost use Rattle.script_runs.specs.inside.Feeding.{Ends, IsInLine, IsFirstEnd, IsNew, FedWithoutWriting, Leaves, IfGoesOn};

use crate::halt::Halt;
use crate::machine::LineMachine;
use outside_traits::{Sink, write_all};
use std::alloc::Global;
use std::marker::Model;

/// The most bytes of a line before its end.
pub const LINE_LIMIT: usize = 1_048_576;

/// Replies are written once so many bytes of them are pending.
const LARGE: usize = 65_536;

/// Why a script stops before its end.
#[derive(Clone, Copy, Debug, PartialEq, Eq)]
pub enum Stop {
    LineTooLong,
    WriteFault,
    Halted(Halt),
}

impl From<Halt> for Stop {
    ghost use Rattle.script_runs.specs.declared.feeding.Stop.TheVariants.{Halted};

    ghost from_gives = { λ halt stop. stop ≡ Halted halt };

    fn from(halt: Halt) -> Stop {
        Stop::Halted(halt)
    }
}

/// A script between two pieces of its input.
#[derive(Drop)]
pub struct Script<M> {
    machine: M,
    lines: u64,
    unended: Vec<u8>,
    pending: Vec<u8>,
}

impl<M> Model for Script<M> {
    ghost use Rattle.std.specs.Prelude.{◌≤◌, length};
    ghost use Rattle.script_runs.specs.Lines.{line_limit};
    ghost use Rattle.script_runs.specs.inside.Feeding.{Script as Kept};

    ghost Value = { Kept M };

    ghost view = { λ s. record { machine = s.machine; lines = s.lines; unended = s.unended.items; pending = s.pending.items } };

    ghost invariant = { λ s. length s.unended.items ≤ line_limit };
}

impl<M: LineMachine> Script<M> {
    pub fn new(alloc: Global, machine: M) -> Script<M>
        ensures new { IsNew result }
        ensures machine { result.machine ≡ machine }
    {
        Script {
            machine,
            lines: 0,
            unended: Vec::new(alloc),
            pending: Vec::new(alloc),
        }
    }

    /// Hands the machine out.
    pub fn into_machine(self) -> M
        ensures { result ≡ self.machine }
    {
        self.machine
    }

    /// How many lines have ended.
    pub fn lines(&self) -> u64
        ensures { result ≡ self.now.lines }
    {
        self.lines
    }

    /// Takes a piece of the script: does the lines that end in it, and writes replies where many are pending.
    pub fn feed<K: Sink>(&mut self, alloc: Global, piece: &[u8], sink: &mut K) -> Result<(), Stop>
        requires room { self.old.lines + length piece.now < 2 ^ 64 }
        requires ready { M.machine.usable self.old.machine }
        ensures leaves { Leaves M.machine line_limit self.old self.new (K.held sink.old) (K.held sink.new) piece.now result }
        ensures ready { IfGoesOn (M.machine.usable self.new.machine) result }
        ensures write { CountedWhere (result ≡ Err Stop.WriteFault) (K.faults sink.old) (K.faults sink.new) }
        ensures disk { DisksCountedWhere (result ≡ Err (Stop.Halted Halt.DiskFault)) (M.machine.faults self.old.machine) (M.machine.faults self.new.machine) }
        ensures damaged { (place : Place) → result ≡ Err (Stop.Halted (Halt.Damaged place)) → M.machine.damages }
        ensures lines { self.new.lines ≤ self.old.lines + length piece.now }
    {
        let mut rest = piece;
        while let Some(place) = line_end(rest) {
            let (line, after) = rest.split_at(place);
            self.take_line(alloc, line, sink)?;
            let (_, next) = after.split_at(1);
            rest = next;
        }
        self.extend(rest)
    }

    /// Does the line that ends with the input, if there is one, and writes what is pending.
    pub fn finish<K: Sink>(&mut self, alloc: Global, sink: &mut K) -> Result<(), Stop>
        requires room { self.old.lines + 1 < 2 ^ 64 }
        requires ready { M.machine.usable self.old.machine }
        ensures ends { Ends M.machine line_limit self.old self.new (K.held sink.old) (K.held sink.new) result }
        ensures write { CountedWhere (result ≡ Err Stop.WriteFault) (K.faults sink.old) (K.faults sink.new) }
        ensures disk { DisksCountedWhere (result ≡ Err (Stop.Halted Halt.DiskFault)) (M.machine.faults self.old.machine) (M.machine.faults self.new.machine) }
        ensures damaged { (place : Place) → result ≡ Err (Stop.Halted (Halt.Damaged place)) → M.machine.damages }
        ensures ready { OnOk result (M.machine.usable self.new.machine) }
        ensures error { result ≢ Err Stop.LineTooLong }
    {
        if self.unended.as_slice().is_empty() {
            return self.flush(sink);
        }
        self.end_line(alloc)?;
        self.flush(sink)?;
        self.rest(alloc)
    }

    /// Writes what is pending.
    pub fn flush<K: Sink>(&mut self, sink: &mut K) -> Result<(), Stop>
        ensures leaves { Leaves M.machine line_limit self.old self.new (K.held sink.old) (K.held sink.new) [] result }
        ensures machine { self.new.machine ≡ self.old.machine }
        ensures lines { self.new.lines ≡ self.old.lines }
        ensures empty { OnOk result (self.new.pending ≡ []) }
        ensures short { length self.new.unended ≤ line_limit }
        ensures write { CountedWhere (result ≡ Err Stop.WriteFault) (K.faults sink.old) (K.faults sink.new) }
        ensures error { OnErr result (result ≡ Err Stop.WriteFault) }
    {
        if write_all(sink, &self.pending).is_err() {
            return Err(Stop::WriteFault);
        }
        self.pending.clear();
        Ok(())
    }

    /// Takes the rest of a line and its end.
    fn take_line<K: Sink>(&mut self, alloc: Global, line: &[u8], sink: &mut K) -> Result<(), Stop>
        requires in_line { IsInLine line.now }
        requires room { self.old.lines + 1 < 2 ^ 64 }
        requires ready { M.machine.usable self.old.machine }
        ensures leaves { Leaves M.machine line_limit self.old self.new (K.held sink.old) (K.held sink.new) (line.now ++ 10 ∷ []) result }
        ensures ready { IfGoesOn (M.machine.usable self.new.machine) result }
        ensures write { CountedWhere (result ≡ Err Stop.WriteFault) (K.faults sink.old) (K.faults sink.new) }
        ensures disk { DisksCountedWhere (result ≡ Err (Stop.Halted Halt.DiskFault)) (M.machine.faults self.old.machine) (M.machine.faults self.new.machine) }
        ensures damaged { (place : Place) → result ≡ Err (Stop.Halted (Halt.Damaged place)) → M.machine.damages }
        ensures lines { self.new.lines ≤ self.old.lines + 1 }
    {
        self.extend(line)?;
        self.end_line(alloc)?;
        self.flush_if_due(sink)?;
        self.rest(alloc)
    }

    /// Writes what is pending where that is much, or where the machine is to do something behind it.
    fn flush_if_due<K: Sink>(&mut self, sink: &mut K) -> Result<(), Stop>
        requires answered { M.machine.answered self.old.machine }
        ensures leaves { Leaves M.machine line_limit self.old self.new (K.held sink.old) (K.held sink.new) [] result }
        ensures machine { self.new.machine ≡ self.old.machine }
        ensures lines { self.new.lines ≡ self.old.lines }
        ensures write { CountedWhere (result ≡ Err Stop.WriteFault) (K.faults sink.old) (K.faults sink.new) }
        ensures error { OnErr result (result ≡ Err Stop.WriteFault) }
    {
        if self.pending.len() >= LARGE || self.machine.is_due() {
            return self.flush(sink);
        }
        Ok(())
    }

    /// Takes bytes of one line.
    fn extend(&mut self, part: &[u8]) -> Result<(), Stop>
        requires in_line { IsInLine part.now }
        ensures leaves { (held : Option (List ℕ)) → Leaves M.machine line_limit self.old self.new held held part.now result }
        ensures machine { self.new.machine ≡ self.old.machine }
        ensures cause { (result ≢ Err Stop.WriteFault) × (result ≢ Err (Stop.Halted Halt.DiskFault)) }
        ensures undamaged { (place : Place) → result ≢ Err (Stop.Halted (Halt.Damaged place)) }
        ensures lines { self.new.lines ≡ self.old.lines }
    {
        if LINE_LIMIT - self.unended.len() < part.len() {
            return Err(Stop::LineTooLong);
        }
        if self.unended.extend_from_slice(part).is_err() {
            return Err(Stop::Halted(Halt::NoMemory));
        }
        Ok(())
    }

    /// Takes the end of a line.
    fn end_line(&mut self, alloc: Global) -> Result<(), Stop>
        requires room { self.old.lines + 1 < 2 ^ 64 }
        requires ready { M.machine.usable self.old.machine }
        ensures leaves { (held : Option (List ℕ)) → Leaves M.machine line_limit self.old self.new held held (10 ∷ []) result }
        ensures ready { IfGoesOn (M.machine.answered self.new.machine) result }
        ensures cause { (result ≢ Err Stop.WriteFault) × (result ≢ Err Stop.LineTooLong) }
        ensures disk { DisksCountedWhere (result ≡ Err (Stop.Halted Halt.DiskFault)) (M.machine.faults self.old.machine) (M.machine.faults self.new.machine) }
        ensures damaged { (place : Place) → result ≡ Err (Stop.Halted (Halt.Damaged place)) → M.machine.damages }
        ensures lines { self.new.lines ≤ self.old.lines + 1 }
    {
        Ok(self.do_line(alloc)?)
    }

    /// Lets the machine do what is due between two lines.
    fn rest(&mut self, alloc: Global) -> Result<(), Stop>
        requires answered { M.machine.answered self.old.machine }
        ensures leaves { (held : Option (List ℕ)) → Leaves M.machine line_limit self.old self.new held held [] result }
        ensures ready { IfGoesOn (M.machine.usable self.new.machine) result }
        ensures pending { self.new.pending ≡ self.old.pending }
        ensures cause { (result ≢ Err Stop.WriteFault) × (result ≢ Err Stop.LineTooLong) }
        ensures disk { DisksCountedWhere (result ≡ Err (Stop.Halted Halt.DiskFault)) (M.machine.faults self.old.machine) (M.machine.faults self.new.machine) }
        ensures damaged { (place : Place) → result ≡ Err (Stop.Halted (Halt.Damaged place)) → M.machine.damages }
        ensures lines { self.new.lines ≡ self.old.lines }
    {
        Ok(self.machine.rest(alloc)?)
    }

    /// Does the line that has ended.
    fn do_line(&mut self, alloc: Global) -> Result<(), Halt>
        requires room { self.old.lines + 1 < 2 ^ 64 }
        requires ready { M.machine.usable self.old.machine }
        ensures fed { OnOk result
            (FedWithoutWriting M.machine line_limit self.old self.new (10 ∷ [])) }
        ensures valid { OnOk result (M.machine.valid self.old.unended) }
        ensures ready { OnOk result (M.machine.answered self.new.machine) }
        ensures settled { OnOk result
            (StaysSettled M.machine self.old.machine self.new.machine self.old.unended) }
        ensures any_moment { LeavesWithOrWithoutLine M.machine
            self.old.machine self.new.machine self.old.unended }
        ensures fixed { M.machine.fixed self.new.machine ≡ M.machine.fixed self.old.machine }
        ensures damaged { (place : Place) → result ≡ Err (Halt.Damaged place) → M.machine.damages }
        ensures cause { DisksCountedWhere (result ≡ Err Halt.DiskFault) (M.machine.faults self.old.machine) (M.machine.faults self.new.machine) }
        ensures lines { self.new.lines ≤ self.old.lines + 1 }
    {
        self.lines += 1;
        self.machine
            .line(alloc, self.lines, &self.unended, &mut self.pending)?;
        self.unended.clear();
        Ok(())
    }
}

/// The place of the first end of a line.
fn line_end(bytes: &[u8]) -> Option<usize>
    ensures { IsFirstEnd bytes.now result }
{
    first_end(bytes)
}

fn first_end(bytes: &[u8]) -> Option<usize>
    ensures { result ≡ position (λ b. b == 10) bytes.now }
{
    bytes.iter().position(|b| *b == b'\n')
}
