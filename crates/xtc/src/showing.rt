// The commands that write something of the document with a name: `get` the whole of it, `query` what a path finds from it.
ghost use Rattle.std.specs.Prelude.{◌≡◌, ◌≢◌, ◌++◌, ◌∷◌, ℕ, [], Err, IfOk, IfErr, OnOk};
ghost use Rattle.outside_traits.specs.Faults.{HasCause};
ghost use Rattle.node_seq.specs.Trees.{OnTree};
ghost use Rattle.recovery.specs.Openings.{TakesBehind};
ghost use Rattle.call_contract.specs.States.{start};
ghost use Rattle.command_lines.specs.ValidCommands.{IsValidWhat};
ghost use Rattle.command_lines.specs.declared.command.StoreCall.TheVariants.{Dom};
ghost use Rattle.command_lines.specs.declared.command.What.TheVariants.{Call};
ghost use Rattle.tree_model.specs.declared.dom_call.DomCall.TheVariants.{Doc};
ghost use Rattle.tree_model.specs.declared.reply.Reply.TheVariants as reply;
ghost use Rattle.command_words.specs.Commands.{get as get_command, query as query_command};
ghost use Rattle.store_calls.specs.StoreCalls.{IsValidStoreCall, store_meaning};
ghost use Rattle.xtc.specs.Documents.{call_of};
ghost use Rattle.xtc.specs.Outside.{Input, unread, written_to};
ghost use Rattle.xtc.specs.TopCall.{tx_limit};
ghost use Rattle.xtc.specs.inside.Asking.{IsStop};
ghost use Rattle.xtc.specs.inside.CommandRuns.{RunsWithout};
ghost use Rattle.xtc.specs.inside.Showing.{AddsAnswer, AreLinesOf, IsHalt, IsLawful, ShowsAsked, ShowsBy, said_line};
ghost use Rattle.xtc.specs.inside.Stores.{Counts};

use crate::answers::{answer_line, label_in};
use crate::document::{SESSION, written};
use crate::question::Question;
use crate::status::Status;
use crate::store::OpenStore;
use crate::top_call::{Finish, TX_LIMIT, with_disks};
use call_contract::TreeCall;
use command_lines::{LineAnswer, LineReply, StoreCall};
use dewey_labels::{Label, List, NoMemory, Text};
use durable_sessions::{Reason, Stop, reason_in};
use node_seq::{NodeRead, SeqError};
use outside_traits::{Disk, Sink};
use std::alloc::Global;
use store_calls::StoreOp;
use tree_model::{DomCall, Reply};
use xpath_parser::parse;

/// Writes the document with a name.
pub fn run_get<K: Sink, J: Disk, P: Disk + Drop>(
    alloc: Global,
    name: &str,
    sink: &mut K,
    store: OpenStore<J, P>,
) -> Finish<J, P>
    requires next { TakesBehind store.journal store.number }
    ensures { (input : Input) → RunsWithout J.Disk P.Disk store (get_command name.now) result
        (unread input) (written_to K.Sink sink.old sink.new) }
{
    let OpenStore {
        mut base,
        journal,
        number,
    } = store;
    let text = show_document(alloc, name, &Question::Whole, &mut base, number);
    with_disks(written(sink, text), journal, base)
}

/// Writes what a path finds from the document with a name. The path is tested before the store is asked.
pub fn run_query<K: Sink, J: Disk, P: Disk + Drop>(
    alloc: Global,
    name: &str,
    path: &str,
    sink: &mut K,
    store: OpenStore<J, P>,
) -> Finish<J, P>
    requires next { TakesBehind store.journal store.number }
    ensures { (input : Input) → RunsWithout J.Disk P.Disk store (query_command name.now path.now)
        result (unread input) (written_to K.Sink sink.old sink.new) }
{
    let OpenStore {
        mut base,
        journal,
        number,
    } = store;
    let text = query_document(alloc, name, path, &mut base, number);
    with_disks(written(sink, text), journal, base)
}

/// Answers the line of what a path finds from the document with a name.
fn query_document<S: NodeRead>(
    alloc: Global,
    name: &str,
    path: &str,
    seq: &mut S,
    number: u32,
) -> Result<Vec<u8>, Status>
    ensures done { ShowsBy (S.contents seq.old) number (query_command name.now path.now) result }
    ensures stops { IfErr result IsStop }
    ensures unchanged { S.unchanged seq.old seq.new }
    ensures counts { Counts (result ≡ Err Status.DiskFault) (S.count seq.old) (S.count seq.new) }
{
    let path = parse(alloc, path)?;
    show_document(alloc, name, &Question::FoundBy(path), seq, number)
}

/// Answers the line of what is asked of the document with a name. Session 1 would be alone, and each of its calls answered at once by the committed tree;
/// so the tree itself is asked, no request is listed, and no journal is needed.
fn show_document<S: NodeRead>(
    alloc: Global,
    name: &str,
    question: &Question,
    seq: &mut S,
    number: u32,
) -> Result<Vec<u8>, Status>
    requires lawful { IsLawful question.now }
    ensures done { ShowsAsked (S.contents seq.old) number name.now question.now result }
    ensures stops { IfErr result IsStop }
    ensures unchanged { S.unchanged seq.old seq.new }
    ensures counts { Counts (result ≡ Err Status.DiskFault) (S.count seq.old) (S.count seq.new) }
{
    if number == TX_LIMIT {
        return Err(Status::DocumentRefused(Reason::Limit));
    }
    let lines = lines_counted(alloc, name, question, seq)?;
    if let Some(why) = reason_in(lines.as_slice()) {
        return Err(Status::DocumentRefused(why));
    }
    Ok(answer_line(alloc, question, lines.as_slice())?)
}

/// What session 1 is answered. Where a fault was counted, it is the answer, wanting memory or not.
fn lines_counted<S: NodeRead>(
    alloc: Global,
    name: &str,
    question: &Question,
    seq: &mut S,
) -> Result<Vec<LineReply>, Stop>
    requires lawful { IsLawful question.now }
    ensures lines { OnTree (S.contents seq.old) result (λ t lines. (n : ℕ) → n ≢ tx_limit → AreLinesOf (start t n tx_limit) name.now question.now lines.items) }
    ensures unrefused { IfErr result IsHalt }
    ensures unchanged { S.unchanged seq.old seq.new }
    ensures counts { Counts (result ≡ Err Stop.DiskFault) (S.count seq.old) (S.count seq.new) }
{
    let before = seq.faults();
    let lines = lines_alone(alloc, name, question, seq);
    fault_first(lines, before, seq.faults())
}

/// An answer, or a fault that was counted on the way.
pub fn fault_first<T: Drop>(answer: Result<T, Stop>, before: u64, now: u64) -> Result<T, Stop>
    ensures same { now ≡ before → result ≡ answer }
    ensures fault { now ≢ before → result ≡ Err Stop.DiskFault }
{
    if now == before {
        answer
    } else {
        Err(Stop::DiskFault)
    }
}

/// What session 1 is answered, where nobody else is live: it begins, finds the document with a name, asks it this, and aborts.
fn lines_alone<S: NodeRead>(
    alloc: Global,
    name: &str,
    question: &Question,
    seq: &mut S,
) -> Result<Vec<LineReply>, Stop>
    requires lawful { IsLawful question.now }
    ensures lines { OnTree (S.contents seq.old) result (λ t lines. (n : ℕ) → n ≢ tx_limit → AreLinesOf (start t n tx_limit) name.now question.now lines.items) }
    ensures unrefused { IfErr result IsHalt }
    ensures unchanged { S.unchanged seq.old seq.new }
    ensures cause { HasCause Stop.DiskFault (S.count seq.old) (S.count seq.new) result }
{
    let doc = doc_of(alloc, name)?;
    let found = reply_of(alloc, seq, doc)?;
    let lines = found_lines(alloc, found)?;
    match label_in(alloc, lines.as_slice())? {
        Some(at) => with_answer(alloc, seq, question, at, lines),
        None => Ok(lines),
    }
}

/// The call that finds the document with a name.
fn doc_of(alloc: Global, name: &str) -> Result<StoreCall, NoMemory>
    ensures call { IfOk result (λ call. call ≡ Dom (Doc name.now)) }
    ensures valid { IfOk result (λ call. IsValidWhat (Call call)) }
{
    Ok(StoreCall::Dom(DomCall::Doc(Text::of(alloc, name)?)))
}

/// The lines, and behind them what is answered to this at a label, and to the abort.
fn with_answer<S: NodeRead>(
    alloc: Global,
    seq: &mut S,
    question: &Question,
    at: Label,
    mut lines: Vec<LineReply>,
) -> Result<Vec<LineReply>, Stop>
    requires lawful { IsLawful question.now }
    ensures lines { OnTree (S.contents seq.old) result (λ t now. AddsAnswer question.now at t lines.items now.items) }
    ensures unrefused { IfErr result IsHalt }
    ensures unchanged { S.unchanged seq.old seq.new }
    ensures cause { HasCause Stop.DiskFault (S.count seq.old) (S.count seq.new) result }
{
    let call = call_of(alloc, question, at)?;
    let answer = reply_of(alloc, seq, call)?;
    put_answer(&mut lines, answer)?;
    Ok(lines)
}

/// The lines of the begin, the session's first, and of what was found.
fn found_lines(alloc: Global, found: Reply) -> Result<Vec<LineReply>, NoMemory>
    ensures { IfOk result (λ lines. lines.items ≡ said_line (reply.Number 1) ∷ said_line found ∷ []) }
{
    Ok(vec![in alloc; said(Reply::Number(1)), said(found)]?)
}

/// Puts the lines of an answer and of the abort behind.
fn put_answer(lines: &mut Vec<LineReply>, answer: Reply) -> Result<(), NoMemory>
    ensures { OnOk result (lines.new.items ≡ lines.old.items ++ said_line answer ∷ said_line reply.Nothing ∷ []) }
{
    lines.push(said(answer))?;
    lines.push(said(Reply::Nothing))?;
    Ok(())
}

/// A line of session 1.
fn said(reply: Reply) -> LineReply
    ensures { result ≡ said_line reply }
{
    LineReply::Said {
        session: SESSION,
        woke: false,
        answer: LineAnswer::Reply(reply),
    }
}

/// What a map answers to a call.
fn reply_of<S: NodeRead>(alloc: Global, seq: &mut S, call: StoreCall) -> Result<Reply, Stop>
    requires valid { IsValidWhat (Call call) }
    ensures reply { OnTree (S.contents seq.old) result (λ t reply. reply ≡ store_meaning.reply call t) }
    ensures valid { IsValidStoreCall call }
    ensures unchanged { S.unchanged seq.old seq.new }
    ensures unrefused { IfErr result IsHalt }
    ensures cause { HasCause Stop.DiskFault (S.count seq.old) (S.count seq.new) result }
{
    answered(alloc, seq, &StoreOp::new(call))
}

/// What a map answers to a call of any kind. What the call changes is left behind.
fn answered<C: TreeCall, S: NodeRead>(alloc: Global, seq: &mut S, call: &C) -> Result<Reply, Stop>
    ensures reply { OnTree (S.contents seq.old) result (λ t reply. reply ≡ C.meaning.reply call.now t) }
    ensures valid { C.is_valid call.now }
    ensures unchanged { S.unchanged seq.old seq.new }
    ensures unrefused { IfErr result IsHalt }
    ensures cause { HasCause Stop.DiskFault (S.count seq.old) (S.count seq.new) result }
{
    let mut changes = List::new(alloc);
    match call.apply(alloc, seq, &mut changes) {
        Ok(reply) => Ok(reply),
        Err(SeqError::DiskFault) => Err(Stop::DiskFault),
        Err(SeqError::NoMemory) => Err(Stop::NoMemory),
    }
}

/// The call that asks this of the document at a label.
fn call_of(alloc: Global, question: &Question, at: Label) -> Result<StoreCall, NoMemory>
    requires { IsLawful question.now }
    ensures call { IfOk result (λ call. call ≡ call_of question.now at) }
    ensures valid { IfOk result (λ call. IsValidWhat (Call call)) }
{
    match question {
        Question::Whole => Ok(StoreCall::Dom(DomCall::Dump(at))),
        Question::FoundBy(path) => Ok(StoreCall::Find {
            at,
            path: path.copy(alloc)?,
        }),
    }
}
