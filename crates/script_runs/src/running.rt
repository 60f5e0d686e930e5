// The loop over a script: pieces of the source are read, their lines done, and the answers written before the next read.
ghost use Rattle.std.specs.Prelude.{◌≡◌, ◌≢◌, ◌+◌, ◌<◌, ◌≤◌, [], length, Ok, Err, IfSome, IfOk};
ghost use Rattle.outside_kinds.specs.Bounds.{input_limit};
ghost use Rattle.node_records.specs.declared.open_error.Place.{Place};
ghost use Rattle.script_runs.specs.Runs.{CountsRunFaults, RunsInput};
ghost use Rattle.script_runs.specs.Whole.{piece};
ghost use Rattle.script_runs.specs.inside.Feeding.{IsNew, stopped};
ghost use Rattle.script_runs.specs.inside.Inputs.{TakesInput, TakesBounded, HasRunScript};

use crate::feeding::{Script, Stop};
use crate::halt::Halt;
use crate::machine::LineMachine;
use outside_kinds::Bounded;
use outside_traits::{Failed, Sink, Source};
use std::alloc::{AllocError, Global};

/// How many bytes are asked for at a time.
const PIECE: usize = 65_536;

/// How the reading came to its end.
#[derive(Clone, Copy, Debug, PartialEq, Eq)]
enum Input {
    Ended,
    Fault,
}

/// How a run of a script ended.
#[derive(Clone, Copy, Debug, PartialEq, Eq)]
pub enum End {
    Done,
    LineTooLong { line: u64 },
    ReadFault,
    WriteFault,
    Halted(Halt),
}

/// How a run ended, and its machine.
#[derive(Drop)]
pub struct Finish<M> {
    pub end: End,
    pub machine: M,
}

/// Runs the script of the source: does its lines one after the other, and writes what they are answered.
/// All that is pending is written before each read, so whoever writes a line and waits has its reply.
pub fn run<S: Source, K: Sink, M: LineMachine>(
    alloc: Global,
    machine: M,
    source: &mut S,
    sink: &mut K,
) -> Finish<M>
    requires ready { M.machine.usable machine }
    ensures ran { RunsInput M.machine S.left S.given S.asked K.held machine result.machine
        source.old source.new sink.old sink.new result.end }
    ensures bound { S.given source.new ≤ S.given source.old + input_limit }
    ensures whole { result.end ≡ End.Done → IfSome (S.left source.new) (λ rest. rest ≡ []) }
    ensures usable { result.end ≡ End.Done → M.machine.usable result.machine }
    ensures counted { CountsRunFaults M.machine S.given S.faults K.faults machine result.machine
        source.old source.new sink.old sink.new result.end }
    ensures damaged { (place : Place) → result.end ≡ End.Halted (Halt.Damaged place) → M.machine.damages }
{
    let mut script = Script::new(alloc, machine);
    let end = match buffer(alloc) {
        Ok(mut buffer) => run_script(alloc, &mut script, source, sink, &mut buffer),
        Err(_) => End::Halted(Halt::NoMemory),
    };
    Finish {
        end,
        machine: script.into_machine(),
    }
}

/// Room for a piece.
pub fn buffer(alloc: Global) -> Result<Vec<u8>, AllocError>
    ensures some { IfOk result (λ buffer. 0 < length buffer.items) }
    ensures most { IfOk result (λ buffer. length buffer.items ≤ piece) }
{
    Vec::from_elem(alloc, 0u8, PIECE)
}

/// Runs the script of the source.
fn run_script<S: Source, K: Sink, M: LineMachine>(
    alloc: Global,
    script: &mut Script<M>,
    source: &mut S,
    sink: &mut K,
    buffer: &mut [u8],
) -> End
    requires new { IsNew script.old }
    requires ready { M.machine.usable script.old.machine }
    requires some { 0 < length buffer.old }
    ensures { HasRunScript M.machine S.left S.given S.asked S.faults K.held K.faults
        script.old script.new source.old source.new sink.old sink.new result }
{
    match take_all(script, alloc, source, sink, buffer) {
        Ok(Input::Ended) => match script.finish(alloc, sink) {
            Ok(()) => End::Done,
            Err(stop) => end_of_stop(stop),
        },
        Ok(Input::Fault) => End::ReadFault,
        Err(Stop::LineTooLong) => match script.flush(sink) {
            Ok(()) => End::LineTooLong {
                line: script.lines() + 1,
            },
            Err(_) => End::WriteFault,
        },
        Err(stop) => end_of_stop(stop),
    }
}

/// The end of a script that stopped for good.
fn end_of_stop(stop: Stop) -> End
    requires { stop ≢ Stop.LineTooLong }
    ensures { result ≡ stopped stop }
{
    match stop {
        Stop::WriteFault => End::WriteFault,
        Stop::Halted(halt) => End::Halted(halt),
        Stop::LineTooLong => unreachable!(),
    }
}

/// Takes the whole input into a new script, or as much of it as one run takes.
fn take_all<S: Source, K: Sink, M: LineMachine>(
    script: &mut Script<M>,
    alloc: Global,
    source: &mut S,
    sink: &mut K,
    buffer: &mut [u8],
) -> Result<Input, Stop>
    requires new { IsNew script.old }
    requires ready { M.machine.usable script.old.machine }
    requires some { 0 < length buffer.old }
    ensures { TakesInput M.machine S.left S.given S.asked S.faults K.held K.faults script.old script.new source.old source.new sink.old sink.new result }
{
    let mut bounded = Bounded::new(source);
    take_pieces(script, alloc, &mut bounded, sink, buffer)
}

/// Takes piece by piece. Before each read all that is pending is written.
fn take_pieces<S: Source, K: Sink, M: LineMachine>(
    script: &mut Script<M>,
    alloc: Global,
    source: &mut Bounded<'_, S>,
    sink: &mut K,
    buffer: &mut [u8],
) -> Result<Input, Stop>
    requires new { IsNew script.old }
    requires ready { M.machine.usable script.old.machine }
    requires room { source.old.room ≡ input_limit }
    requires some { 0 < length buffer.old }
    ensures takes { TakesBounded M.machine S.left S.given S.asked S.faults K.held K.faults
        script.old script.new source.old source.new sink.old sink.new result }
    ensures same_reference { source.new.inner.ghost_name ≡ source.old.inner.ghost_name }
{
    loop {
        script.flush(sink)?;
        let count = match source.read(buffer) {
            Ok(count) => count,
            Err(Failed) => return Ok(Input::Fault),
        };
        if count == 0 {
            return Ok(Input::Ended);
        }
        let (piece, _) = buffer.split_at(count);
        script.feed(alloc, piece, sink)?;
    }
}
