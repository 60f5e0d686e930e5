// The command that runs a whole script by workers, over a store that was opened.
ghost use Rattle.std.specs.Prelude.{◌≡◌, [], Err, IfErr, IfOk, IfSome, IsTrue, Some};
ghost use Rattle.outside_traits.specs.Moments.{IsAllSynced};
ghost use Rattle.recovery.specs.Openings.{TakesBehind};
ghost use Rattle.script_runs.specs.Counts.{CountedWhere};
ghost use Rattle.checkpoint.specs.Bases.{contents_of};
ghost use Rattle.command_words.specs.Commands.{workers as workers_command};
ghost use Rattle.workers_text.specs.Shown.{lines_in};
ghost use Rattle.xtc.specs.Checkpoints.{may_lose};
ghost use Rattle.xtc.specs.Outside.{read_from, written_to};
ghost use Rattle.xtc.specs.StoreMachine.{HasPages, pages_of, told};
ghost use Rattle.xtc.specs.inside.Asking.{CountsDiskFault};
ghost use Rattle.xtc.specs.inside.CommandRuns.{HasTree, RunsOver};
ghost use Rattle.xtc.specs.inside.Renewing.{ReadsGroups};
ghost use Rattle.xtc.specs.inside.Working.{IfWorked, IsBegun, IsNew, IsWorkersFault, IsWorkersStop, LeavesBook, MayEnd, WorksInput, WorksOver, counts_beside, counts_left};

use crate::answering::{Answered, answer_script};
use crate::checkpoints::Checkpoints;
use crate::document::written;
use crate::status::Status;
use crate::store::OpenStore;
use crate::top_call::{Finish, TX_LIMIT, with_files};
use checkpoint::Base;
use durable_sessions::first_commits_stand;
use journal::Journal;
use outside_traits::{Disk, Gate, Sink, Source};
use std::alloc::Global;
use std::snapshot::Snapshot;
use std::sync::Wait;
use std::thread::Threads;
use store_calls::StoreOp;
use tx_core::{Core, NoCore};
use workers_text::{Script, read_script};

/// What workers over a store have to write, or why there is nothing to be written, with the journal and what they worked over.
#[derive(Drop)]
pub struct WorkedOver<J: Disk, P: Disk + Drop> {
    pub text: Result<Vec<u8>, Status>,
    pub journal: Journal<J>,
    pub base: Base<P>,
    pub checkpoints: Checkpoints<P>,
}

/// Reads the whole script and does it by workers, who make their commits durable; then it writes their text.
pub fn run_workers<
    R: Threads + Wait + Sync,
    S: Source,
    K: Sink,
    J: Disk + Send,
    P: Disk + Drop + Send,
    G: Gate + Sync,
>(
    rt: &R,
    alloc: Global,
    every: u32,
    source: &mut S,
    sink: &mut K,
    store: OpenStore<J, P>,
    gate: &G,
) -> Finish<J, P>
    requires next { TakesBehind store.journal store.number }
    requires synced { IsTrue P.is_known → IsAllSynced (pages_of P.history store.base) }
    requires tree { IsTrue P.is_known → HasTree (told P.is_known P.history store.base) }
    ensures { RunsOver J.Disk P.Disk store workers_command every result
        (read_from S.Source source.old source.new) (written_to K.Sink sink.old sink.new) }
{
    let OpenStore {
        base,
        journal,
        number,
    } = store;
    let checkpoints = Checkpoints::new(every, number);
    let base = Base::Paged(base);
    let WorkedOver {
        text,
        journal,
        base,
        checkpoints,
    } = work_input(rt, alloc, source, base, checkpoints, number, journal, gate);
    with_files(written(sink, text), journal, checkpoints.disk_beside(base))
}

/// Does the whole input over a base, and answers the text to write.
fn work_input<
    R: Threads + Wait + Sync,
    S: Source,
    J: Disk + Send,
    P: Disk + Drop + Send,
    G: Gate + Sync,
>(
    rt: &R,
    alloc: Global,
    source: &mut S,
    base: Base<P>,
    checkpoints: Checkpoints<P>,
    number: u32,
    journal: Journal<J>,
    gate: &G,
) -> WorkedOver<J, P>
    requires begun { IsBegun P.is_known P.history base number journal checkpoints }
    requires tree { IsTrue P.is_known → HasTree (contents_of P.is_known P.history base) }
    ensures done { WorksInput J.Disk P.Disk (read_from S.Source source.old source.new)
        journal base checkpoints number result }
    ensures whole { IfWorked result.text (IfSome (S.left source.new) (λ rest. rest ≡ [])) }
    ensures fault { IfErr result.text (IsWorkersFault (may_lose (Some workers_command) checkpoints.every P.is_known)) }
    ensures pages { HasPages result.base result.checkpoints.pages }
    ensures read { CountedWhere (result.text ≡ Err Status.ReadFault) (S.faults source.old) (S.faults source.new) }
    ensures counts { CountsDiskFault result.text (counts_beside P.faults journal base checkpoints)
        (counts_left P.faults result) }
{
    match read_script(alloc, source) {
        Ok(script) => work_over(rt, alloc, &script, base, checkpoints, number, journal, gate),
        Err(error) => WorkedOver {
            text: Err(Status::from(error)),
            journal,
            base,
            checkpoints,
        },
    }
}

/// Does a script by workers over a base, and answers the text to write.
fn work_over<R: Threads + Wait + Sync, J: Disk + Send, P: Disk + Drop + Send, G: Gate + Sync>(
    rt: &R,
    alloc: Global,
    script: &Script,
    base: Base<P>,
    checkpoints: Checkpoints<P>,
    number: u32,
    journal: Journal<J>,
    gate: &G,
) -> WorkedOver<J, P>
    requires begun { IsBegun P.is_known P.history base number journal checkpoints }
    requires tree { IsTrue P.is_known → HasTree (contents_of P.is_known P.history base) }
    ensures done { WorksOver J.Disk P.Disk (lines_in script.now.entries)
        journal base checkpoints number result }
    ensures stops { IfErr result.text (IsWorkersStop (may_lose (Some workers_command) checkpoints.every P.is_known)) }
    ensures pages { HasPages result.base result.checkpoints.pages }
    ensures counts { CountsDiskFault result.text (counts_beside P.faults journal base checkpoints)
        (counts_left P.faults result) }
{
    match Core::new(alloc, base, number, TX_LIMIT) {
        Ok(core) => work(rt, alloc, script, core, checkpoints, journal, gate),
        Err(NoCore { base }) => WorkedOver {
            text: Err(Status::NoMemory),
            journal,
            base,
            checkpoints,
        },
    }
}

/// Does a script by workers over a core that was opened, and answers the text to write. Each commit is durable before its line is answered.
/// Where a fault was counted there is no text.
fn work<R: Threads + Wait + Sync, J: Disk + Send, P: Disk + Drop + Send, G: Gate + Sync>(
    rt: &R,
    alloc: Global,
    script: &Script,
    core: Core<StoreOp, Base<P>>,
    checkpoints: Checkpoints<P>,
    journal: Journal<J>,
    gate: &G,
) -> WorkedOver<J, P>
    requires opened { IsNew (contents_of P.is_known P.history) core }
    requires begun { IsBegun P.is_known P.history core.base core.number journal checkpoints }
    requires tree { IsTrue P.is_known → HasTree (contents_of P.is_known P.history core.base) }
    ensures done { WorksOver J.Disk P.Disk (lines_in script.now.entries)
        journal core.base checkpoints core.number result }
    ensures stops { IfErr result.text (IsWorkersStop (may_lose (Some workers_command) checkpoints.every P.is_known)) }
    ensures pages { HasPages result.base result.checkpoints.pages }
    ensures counts { CountsDiskFault result.text
        (counts_beside P.faults journal core.base checkpoints) (counts_left P.faults result) }
{
    let pages_before = core.faults();
    let journal_before = journal.faults();
    // Called for its contract: the journal is read as commits.
    journal.is_usable();
    let first = Snapshot::of(&journal);
    let Answered {
        core,
        journal,
        text,
    } = answer_script(rt, alloc, core, journal, script, gate);
    // Called for its contract: the commits that were written stand for the tree after them.
    first_commits_stand::<StoreOp>();
    let pages_now = core.faults();
    if pages_now != pages_before {
        return without_text(Status::DiskFault, core, journal, checkpoints);
    }
    let journal_now = journal.faults();
    if journal_now != journal_before {
        return without_text(Status::DiskFault, core, journal, checkpoints);
    }
    match text {
        Ok(text) => end_all(alloc, first, text, core, journal, checkpoints),
        // No fault was counted, so that memory was wanting.
        Err(_) => without_text(Status::NoMemory, core, journal, checkpoints),
    }
}

/// There is no text, for this reason.
fn without_text<J: Disk, P: Disk + Drop>(
    why: Status,
    core: Core<StoreOp, Base<P>>,
    journal: Journal<J>,
    checkpoints: Checkpoints<P>,
) -> WorkedOver<J, P>
    ensures { result ≡ record { text = Err why; journal = journal; base = core.base; checkpoints = checkpoints } }
{
    WorkedOver {
        text: Err(why),
        journal,
        base: core.into_base(),
        checkpoints,
    }
}

/// Makes a checkpoint behind the commits of workers, where there are as many as one is made behind, and hands on the text.
/// `first` is the journal as it was when the store was opened.
fn end_all<J: Disk, P: Disk + Drop>(
    alloc: Global,
    first: Snapshot<Journal<J>>,
    text: Vec<u8>,
    core: Core<StoreOp, Base<P>>,
    journal: Journal<J>,
    checkpoints: Checkpoints<P>,
) -> WorkedOver<J, P>
    requires may { MayEnd J.is_known P.is_known P.history first.value core journal checkpoints }
    requires reads { ReadsGroups J.is_known first.value }
    ensures leaves { LeavesBook J.Disk P.Disk first.value core checkpoints result }
    ensures text { IfOk result.text (λ bytes. bytes ≡ text) }
    ensures stops { IfErr result.text (IsWorkersStop (may_lose (Some workers_command) checkpoints.every P.is_known)) }
    ensures pages { HasPages result.base result.checkpoints.pages }
    ensures counts { CountsDiskFault result.text
        (counts_beside P.faults journal core.base checkpoints) (counts_left P.faults result) }
{
    let (mut core, mut journal, mut checkpoints) = (core, journal, checkpoints);
    // Called for its contract: all is synced.
    journal.is_usable();
    // Called for its contract: the commits that were written stand for the tree after them.
    first_commits_stand::<StoreOp>();
    match checkpoints.make_at_end(alloc, &mut core, &mut journal) {
        Ok(()) => {
            // Called for its contract: the journal's bytes are read as commits.
            journal.is_usable();
            WorkedOver {
                text: Ok(text),
                journal,
                base: core.into_base(),
                checkpoints,
            }
        }
        Err(error) => without_text(Status::from(error), core, journal, checkpoints),
    }
}
