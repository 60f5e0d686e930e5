//! What a line of a script does in a session of a store, and its reply's line.
ghost use Rattle.std.specs.Prelude.{◌≡◌, ◌≢◌, ⊤, IfOk};
ghost use Rattle.command_lines.specs.ValidCommands.{IsValidWhat};
ghost use Rattle.shared_store.specs.Sessions.{having_seen};

use call_contract::Answer;
use command_lines::{BadLine, LineAnswer, LineReply, SessionRefusal, What, read_line, write_reply};
use dewey_labels::{List, NoMemory};
use node_seq::SortedSeq;
use shared_store::{Ended, Session, Store, StoreError};
use std::alloc::{AllocError, AllocFailed, Global};
use std::sync::Wait;
use store_calls::StoreOp;
use tree_model::Reply;
use tx_core::{Core, SessionError};

pub type Here = Store<StoreOp, SortedSeq>;

pub type Port = Session<StoreOp, SortedSeq>;

pub type Held = Core<StoreOp, SortedSeq>;

/// Why a line has no reply.
#[derive(Clone, Copy, Debug, PartialEq, Eq, Drop)]
pub enum Trouble {
    NoMemory,
    /// The line is no command.
    NoCommand,
    /// A read failed.
    Fault,
}

impl From<NoMemory> for Trouble {
    ghost from_gives = { λ _ _. ⊤ };

    fn from(_refused: NoMemory) -> Trouble {
        Trouble::NoMemory
    }
}

impl From<AllocError> for Trouble {
    ghost from_gives = { λ _ _. ⊤ };

    fn from(_refused: AllocError) -> Trouble {
        Trouble::NoMemory
    }
}

impl<T: Drop> From<AllocFailed<T>> for Trouble {
    ghost from_gives = { λ _ _. ⊤ };

    fn from(_refused: AllocFailed<T>) -> Trouble {
        Trouble::NoMemory
    }
}

impl From<BadLine> for Trouble {
    ghost from_gives = { λ _ _. ⊤ };

    fn from(error: BadLine) -> Trouble {
        match error {
            BadLine::Why(_) => Trouble::NoCommand,
            BadLine::NoMemory => Trouble::NoMemory,
        }
    }
}

impl From<StoreError> for Trouble {
    ghost from_gives = { λ _ _. ⊤ };

    fn from(error: StoreError) -> Trouble {
        match error {
            StoreError::NoMemory => Trouble::NoMemory,
            _ => Trouble::Fault,
        }
    }
}

/// How a call of a line is made.
#[derive(Clone, Copy)]
pub enum Way {
    /// Once: where it has to wait it is answered so.
    Once,
    /// Until it needn't wait.
    UntilEnded,
}

/// What a line asks for, and its session's number.
fn command_of(alloc: Global, line: &str) -> Result<(u32, What), Trouble>
    ensures { IfOk result (λ r. IsValidWhat r.1) }
{
    match read_line(alloc, line.as_bytes())? {
        Some(command) => Ok((command.session, command.what)),
        None => Err(Trouble::NoCommand),
    }
}

/// The reply's line to a line in a session.
pub fn reply_to<R: Wait>(
    rt: &R,
    alloc: Global,
    store: &Here,
    port: &mut Port,
    way: Way,
    line: &str,
) -> Result<String, Trouble>
    requires { (port.old.lock ≡ store.now) × (port.old.under ≢ 0) }
    ensures { port.new ≡ having_seen port.new.seen port.old }
{
    let (number, what) = command_of(alloc, line)?;
    let answer = answer_to(rt, alloc, store, port, way, what)?;
    text_of(alloc, number, false, answer)
}

/// The reply's line to a retry of the call that waits; none where none does.
pub fn reply_again<R: Wait>(
    rt: &R,
    alloc: Global,
    store: &Here,
    port: &mut Port,
    number: u32,
) -> Result<Option<String>, Trouble>
    requires { (port.old.lock ≡ store.now) × (port.old.under ≢ 0) }
    ensures { port.new ≡ having_seen port.new.seen port.old }
{
    match port.try_again(rt, alloc, store)? {
        Some(answer) => Ok(Some(text_of(alloc, number, true, attempted(answer))?)),
        None => Ok(None),
    }
}

/// The call of a line, made until it needn't wait.
pub fn end_of<R: Wait>(
    rt: &R,
    alloc: Global,
    store: &Here,
    port: &mut Port,
    line: &str,
) -> Result<Ended, Trouble>
    requires { (port.old.lock ≡ store.now) × (port.old.under ≢ 0) }
    ensures { port.new ≡ having_seen port.new.seen port.old }
{
    match command_of(alloc, line)?.1 {
        What::Call(call) => Ok(port.call(rt, alloc, store, StoreOp::new(call))?),
        _ => Err(Trouble::NoCommand),
    }
}

fn answer_to<R: Wait>(
    rt: &R,
    alloc: Global,
    store: &Here,
    port: &mut Port,
    way: Way,
    what: What,
) -> Result<LineAnswer, Trouble>
    requires lock { (port.old.lock ≡ store.now) × (port.old.under ≢ 0) }
    requires valid { IsValidWhat what }
    ensures { port.new ≡ having_seen port.new.seen port.old }
{
    match what {
        What::Begin => numbered(port.begin(rt, alloc, store)),
        What::Commit => numbered(port.commit(rt, alloc, store)),
        What::Abort => aborted(port.abort(rt, store)),
        What::Call(call) => called(rt, alloc, store, port, way, StoreOp::new(call)),
    }
}

fn called<R: Wait>(
    rt: &R,
    alloc: Global,
    store: &Here,
    port: &mut Port,
    way: Way,
    call: StoreOp,
) -> Result<LineAnswer, Trouble>
    requires { port.old.lock ≡ store.now }
    ensures { port.new ≡ having_seen port.new.seen port.old }
{
    match way {
        Way::Once => tried(port.try_call(rt, alloc, store, call)),
        Way::UntilEnded => ended(port.call(rt, alloc, store, call)),
    }
}

fn numbered(given: Result<u32, StoreError>) -> Result<LineAnswer, Trouble> {
    match given {
        Ok(number) => Ok(LineAnswer::Reply(Reply::Number(number))),
        Err(why) => refused(why),
    }
}

fn aborted(given: Result<(), StoreError>) -> Result<LineAnswer, Trouble> {
    match given {
        Ok(()) => Ok(LineAnswer::Reply(Reply::Nothing)),
        Err(why) => refused(why),
    }
}

fn tried(given: Result<Answer, StoreError>) -> Result<LineAnswer, Trouble> {
    match given {
        Ok(answer) => Ok(attempted(answer)),
        Err(why) => refused(why),
    }
}

fn ended(given: Result<Ended, StoreError>) -> Result<LineAnswer, Trouble> {
    match given {
        Ok(Ended::Answered(reply)) => Ok(LineAnswer::Reply(reply)),
        Ok(Ended::Deadlock { cycle }) => Ok(LineAnswer::Deadlock(cycle)),
        Err(why) => refused(why),
    }
}

/// An attempt's answer, as a line has it.
pub fn attempted(answer: Answer) -> LineAnswer {
    match answer {
        Answer::Answered(reply) => LineAnswer::Reply(reply),
        Answer::Waits {
            resource,
            asks,
            holders,
        } => LineAnswer::Wait {
            on: resource,
            asks,
            by: holders,
        },
        Answer::Deadlock { cycle } => LineAnswer::Deadlock(cycle),
    }
}

fn refused(why: StoreError) -> Result<LineAnswer, Trouble> {
    let why = match why {
        StoreError::Session(SessionError::IsWaiting) => SessionRefusal::IsWaiting,
        StoreError::Session(SessionError::InTransaction) => SessionRefusal::InTransaction,
        StoreError::Session(SessionError::NoTransaction) => SessionRefusal::NoTransaction,
        StoreError::Session(SessionError::TxLimit) => SessionRefusal::TxLimit,
        StoreError::Session(SessionError::CommitLimit) => SessionRefusal::CommitLimit,
        other => return Err(Trouble::from(other)),
    };
    Ok(LineAnswer::Session(why))
}

/// The line of a reply.
pub fn text_of(
    alloc: Global,
    session: u32,
    woke: bool,
    answer: LineAnswer,
) -> Result<String, Trouble> {
    let reply = LineReply::Said {
        session,
        woke,
        answer,
    };
    written(alloc, &reply)
}

fn written(alloc: Global, reply: &LineReply) -> Result<String, Trouble> {
    let mut out = List::new(alloc);
    write_reply(alloc, reply, &mut out)?;
    match str::from_utf8(out.as_slice()) {
        Ok(text) => Ok(String::from_str(alloc, text)?),
        Err(_) => Err(Trouble::NoCommand),
    }
}
