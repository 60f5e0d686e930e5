//! The process around the library's call `xtc`: the words after its name, standard input and standard output, and the store's two files in the working folder, handed to that call.
//! It ends with the number of the status that `xtc` answers to these words over these streams and files (clauses of `run_words`), and prints the status's text on standard error
//! (`Display` of `Status`). Where it doesn't get the files it ends with 11.
//! All that it answers is the library's; the real files are trusted to keep, and the streams to hand over, the bytes that they are given.
#![tactic(auto)]

ghost use Rattle.std.specs.Prelude.{◌≡◌, None};
ghost use Rattle.std.specs.Process.{exit_status};
ghost use Rattle.node_records.specs.declared.open_error.Place.{Place};
ghost use Rattle.script_runs.specs.Counts.{CountedWhere, DisksCountedWhere};
ghost use Rattle.command_words.specs.Commands.{command_of};
ghost use Rattle.xtc.specs.Outside.{InputCountedWhere, disks_left, disks_of, read_from, written_to};
ghost use Rattle.xtc.specs.Statuses.{status_number};
ghost use Rattle.xtc.specs.TopCall.{LeavesDamaged, XtcLeaves};

use outside_kinds::{NoGate, StdSink, StdSource};
use outside_traits::{Disk, Sink, Source};
use std::alloc::Global;
use std::env::Env;
use std::process::ExitCode;
use std::sync::Wait;
use std::thread::Threads;
use std::{env, io};
use store_files::{StoreFiles, Streams};
use xtc::{Finish, Status, xtc};

/// What the program ends with where it doesn't get the store's files.
const NOT_AVAILABLE: u8 = 11;

/// Runs the program's words on the store of the working folder. `threads` serves workers alone; it is `main` that has it.
pub fn run_process<T: Threads + Wait + Sync>(rt: &HostRuntime, threads: &T) -> ExitCode {
    // It has the descriptors of streams that are closed up to the end, so that no file of the store gets one.
    let Ok(streams) = Streams::take(rt) else {
        return not_available(rt);
    };
    let Ok(StoreFiles { journal, pages }) = StoreFiles::open(rt, &streams) else {
        return not_available(rt);
    };
    let words = match words(rt) {
        Ok(words) => words,
        Err(status) => return ended(rt, &status),
    };
    let mut source = StdSource::new(rt.stdin());
    let mut sink = StdSink::new(rt.stdout());
    // What it leaves has the files, and with them their locks, up to the end.
    let (code, _finish) = run_words(rt, threads, &words, &mut source, &mut sink, journal, pages);
    code
}

/// Does what the words say, over any streams and disks, and tells how it ended on standard error and by its number.
fn run_words<
    R: Eprint + Alloc<A = Global>,
    T: Threads + Wait + Sync,
    S: Source,
    K: Sink,
    J: Disk + Send,
    P: Disk + Drop + Send,
>(
    rt: &R,
    threads: &T,
    words: &Vec<String>,
    input: &mut S,
    sink: &mut K,
    journal: J,
    pages: P,
) -> (ExitCode, Finish<J, P>)
    // The number is that of the status, and the run is one of `xtc` with these words, streams and disks.
    ensures number { exit_status result.0 ≡ status_number result.1.status }
    ensures leaves { XtcLeaves J.Disk P.Disk words.now.items journal pages result.1
        (read_from S.Source input.old input.new) (written_to K.Sink sink.old sink.new) }
    ensures damaged { (place : Place) → result.1.status ≡ Status.Damaged place
        → LeavesDamaged J.Disk P.Disk journal pages result.1 place }

    // The cause of each status, and no fault that was counted at any other.
    ensures usage { result.1.status ≡ Status.Usage → command_of words.now.items ≡ None }
    ensures read { InputCountedWhere (result.1.status ≡ Status.ReadFault)
        (read_from S.Source input.old input.new) }
    ensures write { CountedWhere (result.1.status ≡ Status.WriteFault) (K.faults sink.old) (K.faults sink.new) }
    ensures disk { DisksCountedWhere (result.1.status ≡ Status.DiskFault)
        (disks_of J.Disk P.Disk journal pages).faults (disks_left J.Disk P.Disk result.1).faults }
{
    let finish = xtc(
        threads,
        rt.alloc(),
        words,
        input,
        sink,
        journal,
        pages,
        &NoGate,
    );
    let code = ended(rt, &finish.status);
    (code, finish)
}

/// Tells that the store's files aren't to be had.
fn not_available<R: Eprint>(rt: &R) -> ExitCode
    ensures { exit_status result ≡ 11 }
{
    let _ = eprintln!(rt; "xtc: store is not available");
    ExitCode::from(NOT_AVAILABLE)
}

/// Tells the status on standard error. Its number tells it too, so a failed write here loses nothing.
fn ended<R: Eprint>(rt: &R, status: &Status) -> ExitCode
    ensures { exit_status result ≡ status_number status.now }
{
    if status.number() != 0 {
        let _ = eprintln!(rt; "{status}");
    }
    ExitCode::from(status.number())
}

/// The words after the program's name. Words that aren't UTF-8 are none that the program knows.
fn words<R: Env + Alloc<A = Global>>(rt: &R) -> Result<Vec<String>, Status> {
    let mut all = match env::args(rt) {
        Ok(all) => all,
        Err(error) if error.kind() == io::ErrorKind::OutOfMemory => return Err(Status::NoMemory),
        Err(_) => return Err(Status::Usage),
    };
    let _name = all.next();
    let mut words = Vec::new(rt.alloc());
    for word in all {
        if words.push(word).is_err() {
            return Err(Status::NoMemory);
        }
    }
    Ok(words)
}
