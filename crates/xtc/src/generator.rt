// The command that runs the generator's script over a store that was opened, and writes what is counted of its replies.
ghost use Rattle.std.specs.Prelude.{◌≡◌, ◌≤◌, ◌&&◌, ◌++◌, ◌∷◌, [], not, Err, IfOk, IfErr, IsTrue, OnOk};
ghost use Rattle.outside_traits.specs.Faults.{HasCause};
ghost use Rattle.outside_traits.specs.Moments.{IsAllSynced};
ghost use Rattle.node_seq.specs.Trees.{OnTree};
ghost use Rattle.recovery.specs.Openings.{TakesBehind};
ghost use Rattle.checkpoint.specs.Bases.{contents_of};
ghost use Rattle.command_words.specs.Commands.{gen as gen_command};
ghost use Rattle.workload_gen.specs.LineTexts.{line_text};
ghost use Rattle.workload_gen.specs.Summaries.{after_line, summary_text};
ghost use Rattle.durable_sessions.specs.Asked.{GrowsByOne, counts_of, TakesNext};
ghost use Rattle.script_runs.specs.Counts.{DisksCountedWhere};
ghost use Rattle.xtc.specs.Book.{IsValidLine, after_asked};
ghost use Rattle.xtc.specs.Checkpoints.{is_positive, may_lose};
ghost use Rattle.xtc.specs.Documents.{has_documents};
ghost use Rattle.xtc.specs.Generated.{generated_line};
ghost use Rattle.xtc.specs.ReadLines.{line_in};
ghost use Rattle.xtc.specs.ScriptLine.{line_of};
ghost use Rattle.xtc.specs.Outside.{Input, unread, written_to};
ghost use Rattle.xtc.specs.StoreMachine.{HasRested, file_of, pages_of, told};
ghost use Rattle.xtc.specs.inside.Asking.{CountsDiskFault, EachState, IsQuiet};
ghost use Rattle.xtc.specs.inside.CommandRuns.{HasTree, RunsOver};
ghost use Rattle.xtc.specs.inside.Counting.{AsksLine, DoesInTurn, GoesOn, IsStopIf, HasLeftPages, LeftPages, RunsLines};
ghost use Rattle.xtc.specs.inside.Generating.{GeneratesIn, GeneratesOver, RunsGenerated, counts_behind, opened_with};
ghost use Rattle.xtc.specs.inside.Renewing.{ReadsGroups, StoreCounts, kept};
ghost use Rattle.xtc.specs.inside.Showing.{IsHalt};
ghost use Rattle.xtc.specs.inside.Stores.{Counts};
ghost use Rattle.xtc.specs.inside.Working.{IsNew, counts_beside};

use crate::checkpoints::{Checkpoints, DoneOver};
use crate::document::written;
use crate::line::{ReadLine, read_line};
use crate::showing::fault_first;
use crate::status::Status;
use crate::store::OpenStore;
use crate::top_call::{Finish, TX_LIMIT, with_files};
use checkpoint::Base;
use command_lines::LineReply;
use dewey_labels::{Label, NoMemory};
use durable_sessions::{Halt, Reason, SessionBase, Stop, answer, limit_in};
use journal::Journal;
use node_seq::{NodeRead, SeqError};
use outside_traits::{Disk, Sink};
use std::alloc::Global;
use store_calls::StoreOp;
use tree_model::{Key, Refusal};
use tx_core::{Core, NoCore};
use workload_gen::{Line, Script, Summary};

/// Runs the generator's script of a seed and a count of books, line by line, and writes its summary.
pub fn run_gen<K: Sink, J: Disk, P: Disk + Drop>(
    alloc: Global,
    seed: u32,
    count: u32,
    every: u32,
    sink: &mut K,
    store: OpenStore<J, P>,
) -> Finish<J, P>
    requires count { (1 ≤ count) × (count ≤ 20000) }
    requires next { TakesBehind store.journal store.number }
    requires synced { IsTrue P.is_known → IsAllSynced (pages_of P.history store.base) }
    requires tree { IsTrue P.is_known → HasTree (told P.is_known P.history store.base) }
    ensures { (input : Input) → RunsOver J.Disk P.Disk store (gen_command seed count) every result
        (unread input) (written_to K.Sink sink.old sink.new) }
{
    let OpenStore {
        base,
        mut journal,
        number,
    } = store;
    let checkpoints = Checkpoints::new(every, number);
    let DoneOver {
        text,
        base,
        checkpoints,
    } = generate_over(
        alloc,
        seed,
        count,
        Base::Paged(base),
        checkpoints,
        number,
        &mut journal,
    );
    with_files(written(sink, text), journal, checkpoints.disk_beside(base))
}

/// Runs the script over a base, which is refused if it has documents, and answers the line of its summary.
fn generate_over<J: Disk, P: Disk + Drop>(
    alloc: Global,
    seed: u32,
    count: u32,
    base: Base<P>,
    checkpoints: Checkpoints<P>,
    number: u32,
    journal: &mut Journal<J>,
) -> DoneOver<P>
    requires count { (1 ≤ count) × (count ≤ 20000) }
    requires rested { HasRested P.is_known P.history (opened_with P.is_known P.history base number journal.old checkpoints) }
    ensures done { GeneratesOver J.Disk P.Disk seed count base number checkpoints
        journal.old journal.new result }
    ensures stops { IfErr result.text (IsStopIf (is_positive checkpoints.every && not P.is_known)) }
    ensures pages { LeftPages P.is_known P.history checkpoints.every (file_of P.history base checkpoints.pages) result.base result.checkpoints.pages }
    ensures counts { CountsDiskFault result.text
        (counts_beside P.faults journal.old base checkpoints)
        (counts_behind P.faults journal.new result) }
{
    let mut base = base;
    match has_documents(alloc, &mut base) {
        Ok(false) => generate_in(alloc, seed, count, base, checkpoints, number, journal),
        Ok(true) => DoneOver {
            text: Err(Status::DocumentRefused(Reason::Call(Refusal::DocumentExists))),
            base,
            checkpoints,
        },
        Err(stop) => DoneOver {
            text: Err(Status::from(stop)),
            base,
            checkpoints,
        },
    }
}

/// Whether a map has a document; a fault that was counted comes first. It reads one key.
fn has_documents<S: NodeRead>(alloc: Global, seq: &mut S) -> Result<bool, Stop>
    ensures some { OnTree (S.contents seq.old) result (λ t some. some ≡ has_documents t) }
    ensures unrefused { IfErr result IsHalt }
    ensures unchanged { S.unchanged seq.old seq.new }
    ensures counts { Counts (result ≡ Err Stop.DiskFault) (S.count seq.old) (S.count seq.new) }
{
    let before = seq.faults();
    let some = some_document(alloc, seq);
    fault_first(some, before, seq.faults())
}

/// Whether there is an entry above the root's own key, above which those of all documents lie.
fn some_document<S: NodeRead>(alloc: Global, seq: &mut S) -> Result<bool, Stop>
    ensures some { OnTree (S.contents seq.old) result (λ t some. some ≡ has_documents t) }
    ensures unrefused { IfErr result IsHalt }
    ensures unchanged { S.unchanged seq.old seq.new }
    ensures cause { HasCause Stop.DiskFault (S.count seq.old) (S.count seq.new) result }
{
    let root = Label::root(alloc)?;
    let root = Key::of_node(alloc, &root)?;
    match seq.key_above(alloc, &root) {
        Ok(found) => Ok(found.is_some()),
        Err(SeqError::DiskFault) => Err(Stop::DiskFault),
        Err(SeqError::NoMemory) => Err(Stop::NoMemory),
    }
}

/// Runs the script over a base without documents, and answers the line of its summary.
fn generate_in<J: Disk, P: Disk + Drop>(
    alloc: Global,
    seed: u32,
    count: u32,
    base: Base<P>,
    checkpoints: Checkpoints<P>,
    number: u32,
    journal: &mut Journal<J>,
) -> DoneOver<P>
    requires count { (1 ≤ count) × (count ≤ 20000) }
    requires rested { HasRested P.is_known P.history (opened_with P.is_known P.history base number journal.old checkpoints) }
    ensures done { GeneratesIn J.Disk P.Disk seed count base number checkpoints
        journal.old journal.new result }
    ensures stops { IfErr result.text (IsStopIf (is_positive checkpoints.every && not P.is_known)) }
    ensures pages { LeftPages P.is_known P.history checkpoints.every (file_of P.history base checkpoints.pages) result.base result.checkpoints.pages }
    ensures counts { CountsDiskFault result.text
        (counts_beside P.faults journal.old base checkpoints)
        (counts_behind P.faults journal.new result) }
{
    match Core::new(alloc, base, number, TX_LIMIT) {
        Ok(mut core) => {
            let mut checkpoints = checkpoints;
            let text = run_script(alloc, seed, count, &mut core, journal, &mut checkpoints);
            DoneOver {
                text,
                base: core.into_base(),
                checkpoints,
            }
        }
        Err(NoCore { base }) => DoneOver {
            text: Err(Status::NoMemory),
            base,
            checkpoints,
        },
    }
}

/// Runs the script, and answers the line of its summary.
fn run_script<J: Disk, P: Disk + Drop>(
    alloc: Global,
    seed: u32,
    count: u32,
    core: &mut Core<StoreOp, Base<P>>,
    journal: &mut Journal<J>,
    checkpoints: &mut Checkpoints<P>,
) -> Result<Vec<u8>, Status>
    requires count { (1 ≤ count) × (count ≤ 20000) }
    requires opened { IsNew (contents_of P.is_known P.history) core.old }
    requires rested { HasRested P.is_known P.history (kept core.old journal.old checkpoints.old) }
    ensures done { RunsGenerated J.Disk P.Disk seed count
        core.old core.new journal.old journal.new checkpoints.old checkpoints.new result }
    ensures stops { IfErr result (IsStopIf (is_positive checkpoints.old.every && not P.is_known)) }
    ensures pages { HasLeftPages P.Disk (kept core.old journal.old checkpoints.old)
        (kept core.new journal.new checkpoints.new) }
    ensures counts { StoreCounts P.faults (result ≡ Err Status.DiskFault)
        (kept core.old journal.old checkpoints.old) (kept core.new journal.new checkpoints.new) }
{
    let mut script = Script::new(seed, count);
    let mut summary = Summary::new(count);
    run_lines(alloc, core, journal, checkpoints, &mut script, &mut summary)?;
    Ok(line_of(alloc, &summary)?)
}

/// The text of a summary, and LF.
fn line_of(alloc: Global, summary: &Summary) -> Result<Vec<u8>, NoMemory>
    ensures { IfOk result (λ text. text.items ≡ summary_text summary.now ++ 10 ∷ []) }
{
    let mut text = summary.text(alloc)?;
    text.push('\n')?;
    Ok(text.into_bytes())
}

/// Does the lines of a script up to the first begin or commit that is refused by the numbers that are left, and counts them and their replies.
/// Behind each line it makes a checkpoint if one is due.
fn run_lines<J: Disk, P: Disk + Drop>(
    alloc: Global,
    core: &mut Core<StoreOp, Base<P>>,
    journal: &mut Journal<J>,
    checkpoints: &mut Checkpoints<P>,
    script: &mut Script,
    summary: &mut Summary,
) -> Result<(), Status>
    requires rested { HasRested P.is_known P.history (kept core.old journal.old checkpoints.old) }
    ensures ran { RunsLines J.Disk P.Disk script.old core.old core.new journal.old journal.new
        checkpoints.old checkpoints.new summary.old summary.new result }
    ensures goes_on { OnOk result (GoesOn P.is_known P.history (kept core.old journal.old checkpoints.old) (kept core.new journal.new checkpoints.new)) }
    ensures reads { OnOk result (ReadsGroups J.is_known journal.new) }
    ensures stops { IfErr result (IsStopIf (is_positive checkpoints.old.every && not P.is_known)) }
    ensures pages { HasLeftPages P.Disk (kept core.old journal.old checkpoints.old)
        (kept core.new journal.new checkpoints.new) }
    ensures counts { StoreCounts P.faults (result ≡ Err Status.DiskFault)
        (kept core.old journal.old checkpoints.old) (kept core.new journal.new checkpoints.new) }
{
    let mut replies = Vec::new(alloc);
    while let Some(line) = script.next() {
        run_line(alloc, core, journal, line, summary, &mut replies)?;
        // It tells that the book is legal.
        core.is_legal();
        checkpoints.make_if_due(alloc, core, journal)?;
    }
    // The journal says how its bytes are read.
    journal.is_usable();
    Ok(())
}

/// Does a line, and counts it and its replies, which are made in `replies`.
fn run_line<B: SessionBase, J: Disk>(
    alloc: Global,
    core: &mut Core<StoreOp, B>,
    journal: &mut Journal<J>,
    line: Line,
    summary: &mut Summary,
    replies: &mut Vec<LineReply>,
) -> Result<(), Stop>
    requires takes { TakesNext core.old journal.old }
    ensures asked { DoesInTurn B.contents J.Disk (generated_line line)
        core.old core.new journal.old journal.new replies.new.items result }
    ensures counted { OnOk result (summary.new ≡ after_line summary.old line.step replies.new.items) }
    ensures takes { OnOk result (TakesNext core.new journal.new) }
    ensures grown { OnOk result (GrowsByOne core.old core.new) }
    ensures book { OnOk result (EachState B.contents core.old
        (λ s. core.new.book ≡ core.old.book ++ (after_asked s (generated_line line)).book)) }
    ensures base { B.stays core.old.base core.new.base }
    ensures counts { DisksCountedWhere (result ≡ Err Stop.DiskFault) (counts_of B.count core.old journal.old) (counts_of B.count core.new journal.new) }
{
    replies.clear();
    ask_line(alloc, core, journal, line, replies)?;
    summary.count(line.step, replies);
    match limit_in(replies) {
        Some(why) => Err(Stop::Refused(why)),
        None => Ok(()),
    }
}

/// Does what a line asks.
fn ask_line<B: SessionBase, J: Disk>(
    alloc: Global,
    core: &mut Core<StoreOp, B>,
    journal: &mut Journal<J>,
    line: Line,
    replies: &mut Vec<LineReply>,
) -> Result<(), Halt>
    requires takes { TakesNext core.old journal.old }
    requires none { replies.old.items ≡ [] }
    ensures asked { AsksLine B.contents J.Disk (generated_line line)
        core.old core.new journal.old journal.new replies.new.items result }
    ensures takes { OnOk result (TakesNext core.new journal.new) }
    ensures grown { OnOk result (GrowsByOne core.old core.new) }
    ensures book { OnOk result (EachState B.contents core.old
        (λ s. core.new.book ≡ core.old.book ++ (after_asked s (generated_line line)).book)) }
    ensures base { B.stays core.old.base core.new.base }
    ensures counts { DisksCountedWhere (result ≡ Err Halt.DiskFault) (counts_of B.count core.old journal.old) (counts_of B.count core.new journal.new) }
{
    let read = read_generated(alloc, line)?;
    match read {
        ReadLine::Asked(session, doing) => answer(alloc, core, journal, session, doing, replies),
        ReadLine::Nothing | ReadLine::Bad(_) => Ok(()),
    }
}

/// Reads a line by its text.
fn read_generated(alloc: Global, line: Line) -> Result<ReadLine, NoMemory>
    ensures line { IfOk result (λ read. line_in read ≡ line_of (line_text line)) }
    ensures valid { IfOk result (λ read. IsValidLine (line_in read)) }
{
    let text = line.text(alloc)?;
    read_line(alloc, text.as_bytes())
}
