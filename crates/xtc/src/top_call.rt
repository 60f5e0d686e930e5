// The program's one call: it tests the words, opens the store, and runs the script of the source over it.
ghost use Rattle.std.specs.Prelude.{◌≡◌, IsTrue, None};
ghost use Rattle.outside_traits.specs.Moments.{IsAllSynced};
ghost use Rattle.node_records.specs.declared.open_error.Place.{Place};
ghost use Rattle.recovery.specs.Openings.{TakesBehind};
ghost use Rattle.script_runs.specs.Counts.{CountedWhere, DisksCountedWhere};
ghost use Rattle.command_words.specs.Commands.{IsInRange, command_of, meant, run};
ghost use Rattle.xtc.specs.Checkpoints.{is_positive, may_lose_by};
ghost use Rattle.xtc.specs.Outside.{InputCountedWhere, disks_left, disks_of, read_from, written_to};
ghost use Rattle.xtc.specs.StoreMachine.{pages_of, told};
ghost use Rattle.xtc.specs.TopCall.{IsSilent, IsUnstarted, LeavesDamaged, XtcLeaves, RunTookInput};
ghost use Rattle.xtc.specs.inside.CommandRuns.{HasTree, ReadAsImages, RunsOver};
ghost use Rattle.xtc.specs.inside.Renewing.{ReadsGroups};

use crate::checkpoints::{Checkpoints, MakesCheckpoints, NoCheckpoints, SomeCheckpoints};
use crate::document::run_put;
use crate::generator::run_gen;
use crate::showing::{run_get, run_query};
use crate::status::Status;
use crate::store::{OpenStore, Store, disk_of};
use crate::workers::run_workers;
use checkpoint::Base;
use command_words::{Command, Words, read_words};
use journal::Journal;
use outside_traits::{Disk, Gate, Sink, Source};
use overlays::Stacked;
use paged_seq::PagedSeq;
use recovery::{Opened, StoreFault, open_store};
use std::alloc::Global;
use std::sync::Wait;
use std::thread::Threads;
use tx_core::{Core, NoCore};

/// The greatest number that a commit may have.
pub const TX_LIMIT: u32 = 4_294_967_295;

/// How a run of the program ended, and the disks of its store.
#[derive(Drop)]
pub struct Finish<J, P> {
    pub status: Status,
    pub journal: J,
    pub pages: P,
}

/// What a command has to write, or why there is nothing to be written, and the base that it was done over.
#[derive(Drop)]
pub struct Over<B> {
    pub text: Result<Vec<u8>, Status>,
    pub base: B,
}

/// Does what the words after the program's name say, over the store on two disks: `run` takes a script from the source and gives its replies to the sink,
/// `workers` takes a whole script first, does it by a worker for each session, and gives the replies in the order of the lines, once all commits are durable;
/// `put NAME` makes a document of the whole input and gives its label, `get NAME` gives a document, and `query NAME PATH` what a path finds from one.
/// `gen SEED COUNT` runs the generator's script over a store without documents, and gives what is counted of its replies. A commit is answered once it is durable.
/// What is pending of a script is written before each read, so whoever writes a line and waits has its reply.
/// `rt` serves the threads of `workers` alone, and `gate` is told of each of their lines, before it and behind it.
pub fn xtc<
    R: Threads + Wait + Sync,
    S: Source,
    K: Sink,
    J: Disk + Send,
    P: Disk + Drop + Send,
    G: Gate + Sync,
>(
    rt: &R,
    alloc: Global,
    words: &Vec<String>,
    source: &mut S,
    sink: &mut K,
    journal: J,
    pages: P,
    gate: &G,
) -> Finish<J, P>
    // What is read and written, and what a crash leaves now and at any moment before, by the status.
    ensures leaves { XtcLeaves J.Disk P.Disk words.now.items journal pages result
        (read_from S.Source source.old source.new) (written_to K.Sink sink.old sink.new) }
    // The most that is read of the input, by the status, and when nothing is written.
    ensures input { RunTookInput words.now.items P.is_known result.status
        (read_from S.Source source.old source.new) }
    ensures silent { IsSilent (command_of words.now.items) (may_lose_by words.now.items P.is_known)
        result.status (K.held sink.new ≡ K.held sink.old) }

    // Damaged files are synced, and as they were.
    ensures damaged { (place : Place) → result.status ≡ Status.Damaged place
        → LeavesDamaged J.Disk P.Disk journal pages result place }

    // The cause of each status, and no fault that was counted at any other.
    ensures usage { (result.status ≡ Status.Usage → command_of words.now.items ≡ None)
        × (command_of words.now.items ≡ None → IsUnstarted journal pages result) }
    ensures read { InputCountedWhere (result.status ≡ Status.ReadFault)
        (read_from S.Source source.old source.new) }
    ensures write { CountedWhere (result.status ≡ Status.WriteFault) (K.faults sink.old) (K.faults sink.new) }
    ensures disk { DisksCountedWhere (result.status ≡ Status.DiskFault)
        (disks_of J.Disk P.Disk journal pages).faults (disks_left J.Disk P.Disk result).faults }
{
    let Words {
        command,
        frames,
        checkpoint,
    } = match read_words(alloc, words) {
        Ok(read) => read,
        Err(error) => {
            return Finish {
                status: Status::from(error),
                journal,
                pages,
            };
        }
    };
    match open_store(alloc, journal, pages, frames) {
        Ok(
            Opened {
                journal,
                base,
                layers,
                number,
            },
        ) => {
            let base = Stacked::new(base, layers);
            let store = OpenStore {
                base,
                journal,
                number,
            };
            run_command(rt, alloc, command, checkpoint, source, sink, store, gate)
        }
        Err(
            StoreFault {
                fault,
                journal,
                pages,
            },
        ) => Finish {
            status: Status::from(fault),
            journal,
            pages,
        },
    }
}

/// Runs a command over a store that was opened.
fn run_command<
    R: Threads + Wait + Sync,
    S: Source,
    K: Sink,
    J: Disk + Send,
    P: Disk + Drop + Send,
    G: Gate + Sync,
>(
    rt: &R,
    alloc: Global,
    command: Command<'_>,
    every: u32,
    source: &mut S,
    sink: &mut K,
    store: OpenStore<J, P>,
    gate: &G,
) -> Finish<J, P>
    requires ranges { IsInRange (meant command) }
    requires next { TakesBehind store.journal store.number }
    requires synced { IsTrue P.is_known → IsAllSynced (pages_of P.history store.base) }
    requires tree { IsTrue P.is_known → HasTree (told P.is_known P.history store.base) }
    ensures { RunsOver J.Disk P.Disk store (meant command.entry) every result
        (read_from S.Source source.old source.new) (written_to K.Sink sink.old sink.new) }
{
    match command {
        Command::Run => run_store(alloc, every, source, sink, store),
        Command::Workers => run_workers(rt, alloc, every, source, sink, store, gate),
        Command::Put(name) => run_put(alloc, name, source, sink, store),
        Command::Get(name) => run_get(alloc, name, sink, store),
        Command::Query(name, path) => run_query(alloc, name, path, sink, store),
        Command::Gen { seed, count } => run_gen(alloc, seed, count, every, sink, store),
    }
}

/// Runs the script of the source over a store that was opened.
fn run_store<S: Source, K: Sink, J: Disk, P: Disk + Drop>(
    alloc: Global,
    every: u32,
    source: &mut S,
    sink: &mut K,
    store: OpenStore<J, P>,
) -> Finish<J, P>
    requires next { TakesBehind store.journal store.number }
    requires synced { IsTrue P.is_known → IsAllSynced (pages_of P.history store.base) }
    requires tree { IsTrue P.is_known → HasTree (told P.is_known P.history store.base) }
    ensures { RunsOver J.Disk P.Disk store run every result
        (read_from S.Source source.old source.new) (written_to K.Sink sink.old sink.new) }
{
    if every == 0 {
        return run_lines(alloc, every, NoCheckpoints, source, sink, store);
    }
    run_lines(alloc, every, SomeCheckpoints, source, sink, store)
}

/// Does the lines of the script, with checkpoints behind each so many commits, or none.
fn run_lines<S: Source, K: Sink, J: Disk, P: Disk + Drop, C: MakesCheckpoints>(
    alloc: Global,
    every: u32,
    makes: C,
    source: &mut S,
    sink: &mut K,
    store: OpenStore<J, P>,
) -> Finish<J, P>
    requires makes { is_positive every ≡ C.makes }
    requires next { TakesBehind store.journal store.number }
    requires synced { IsTrue P.is_known → IsAllSynced (pages_of P.history store.base) }
    requires tree { IsTrue P.is_known → HasTree (told P.is_known P.history store.base) }
    ensures { RunsOver J.Disk P.Disk store run every result
        (read_from S.Source source.old source.new) (written_to K.Sink sink.old sink.new) }
{
    let OpenStore {
        base,
        journal,
        number,
    } = store;
    match Core::new(alloc, Base::Paged(base), number, TX_LIMIT) {
        Ok(core) => {
            let checkpoints = Checkpoints::new(every, number);
            let store = Store::new(alloc, core, journal, checkpoints, makes);
            let run = script_runs::run(alloc, store, source, sink);
            let (journal, pages) = run.machine.into_parts();
            with_files(Status::from(run.end), journal, pages)
        }
        Err(NoCore { base }) => {
            let pages = Checkpoints::new(every, number).disk_beside(base);
            with_files(Status::NoMemory, journal, pages)
        }
    }
}

/// The end of a run with the disks of its store, of each of which what a read gives is among what a crash may leave.
pub fn with_files<J: Disk, P: Disk + Drop>(
    status: Status,
    journal: Journal<J>,
    pages: P,
) -> Finish<J, P>
    ensures status { result.status ≡ status }
    ensures journal { (J.history result.journal ≡ journal.history) × (J.faults result.journal ≡ journal.faults) }
    ensures pages { result.pages ≡ pages }
    ensures images { ReadAsImages J.Disk P.Disk result }
    ensures groups { ReadsGroups J.is_known journal }
{
    // The journal says how its bytes are read.
    journal.is_usable();
    let journal = journal.into_disk();
    // Each disk says that what a read gives is among what a crash may leave.
    let _faults = (journal.faults(), pages.faults());
    Finish {
        status,
        journal,
        pages,
    }
}

/// The same with the disk of a base.
pub fn with_disks<J: Disk, P: Disk + Drop>(
    status: Status,
    journal: Journal<J>,
    base: Stacked<PagedSeq<P>>,
) -> Finish<J, P>
    ensures status { result.status ≡ status }
    ensures journal { (J.history result.journal ≡ journal.history) × (J.faults result.journal ≡ journal.faults) }
    ensures pages { result.pages ≡ base.base.disk }
    ensures images { ReadAsImages J.Disk P.Disk result }
{
    with_files(status, journal, disk_of(base))
}
