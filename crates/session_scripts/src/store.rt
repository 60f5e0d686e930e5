//! A store in memory, and what a line does in it.
ghost use Rattle.std.specs.Prelude.{◌≡◌, ⊤};
ghost use Rattle.command_lines.specs.ValidCommands.{IsValidCommand, IsValidWhat};
ghost use Rattle.session_scripts.specs.declared.store.Trouble.TheVariants as trouble;

use crate::failing_seq::FailingSeq;
use call_contract::{Event, Noted};
use command_lines::{BadLine, Command, LineReply, What, read_line, write_reply};
use dewey_labels::{List, NoMemory};
use session_driver::{Doing, drive, finish_commit};
use std::alloc::{AllocError, AllocFailed, Global};
use store_calls::StoreOp;
use tx_core::{CallError, Core};

/// The most times that a line is done before it is taken as one that always fails.
const MOST_TIMES: usize = 64;

/// Why a script ends early.
#[derive(Clone, Copy, Debug, PartialEq, Eq, Drop)]
pub enum Trouble {
    NoMemory,
    /// A retry after a commit failed, or a line fails each time.
    Fault,
}

impl From<NoMemory> for Trouble {
    ghost from_gives = { λ _ e. e ≡ trouble.NoMemory };

    fn from(_refused: NoMemory) -> Trouble {
        Trouble::NoMemory
    }
}

impl From<AllocError> for Trouble {
    ghost from_gives = { λ _ e. e ≡ trouble.NoMemory };

    fn from(_refused: AllocError) -> Trouble {
        Trouble::NoMemory
    }
}

impl<T: Drop> From<AllocFailed<T>> for Trouble {
    ghost from_gives = { λ _ e. e ≡ trouble.NoMemory };

    fn from(_refused: AllocFailed<T>) -> Trouble {
        Trouble::NoMemory
    }
}

impl From<CallError> for Trouble {
    ghost from_gives = { λ _ _. ⊤ };

    fn from(error: CallError) -> Trouble {
        match error {
            CallError::NoMemory => Trouble::NoMemory,
            _ => Trouble::Fault,
        }
    }
}

/// An empty store whose transactions may be numbered up to a limit.
pub fn new_store(
    alloc: Global,
    limit: &str,
    most: &str,
) -> Result<Core<StoreOp, FailingSeq>, Trouble> {
    let limit = limit.parse::<u32>().unwrap_or(0);
    let most = most.parse::<u64>().unwrap_or(0);
    match Core::new(alloc, FailingSeq::new(alloc, most), 0, limit) {
        Ok(core) => Ok(core),
        Err(_) => Err(Trouble::NoMemory),
    }
}

/// The text of the replies to a line, each with its end.
pub fn do_line(
    alloc: Global,
    line: &str,
    core: &mut Core<StoreOp, FailingSeq>,
) -> Result<String, Trouble> {
    let replies = replies_to(alloc, line, core)?;
    text_of(alloc, &replies)
}

/// The replies to a line.
fn replies_to(
    alloc: Global,
    line: &str,
    core: &mut Core<StoreOp, FailingSeq>,
) -> Result<Vec<LineReply>, Trouble> {
    let text = line_with_texts(alloc, line)?;
    match read_line(alloc, text.as_bytes()) {
        Ok(Some(command)) => command_replies(alloc, &command, core),
        Ok(None) => Ok(Vec::new(alloc)),
        Err(error) => bad_reply(alloc, error),
    }
}

/// The reply to a line that is no command.
fn bad_reply(alloc: Global, error: BadLine) -> Result<Vec<LineReply>, Trouble> {
    match error {
        BadLine::Why(why) => one_reply(alloc, LineReply::Bad { why, line: 0 }),
        BadLine::NoMemory => Err(Trouble::NoMemory),
    }
}

fn one_reply(alloc: Global, reply: LineReply) -> Result<Vec<LineReply>, Trouble> {
    let mut replies = Vec::new(alloc);
    replies.push(reply)?;
    Ok(replies)
}

/// The replies to a command.
fn command_replies(
    alloc: Global,
    command: &Command,
    core: &mut Core<StoreOp, FailingSeq>,
) -> Result<Vec<LineReply>, Trouble>
    requires { IsValidCommand command.now }
{
    let mut replies = Vec::new(alloc);
    do_command(alloc, command.session, &command.what, core, &mut replies)?;
    Ok(replies)
}

/// Inserts elements before a child, one after another, as the words of the line say; the last reply.
pub fn do_inserts(
    alloc: Global,
    line: &str,
    core: &mut Core<StoreOp, FailingSeq>,
) -> Result<String, Trouble> {
    let mut words = line.split(' ').skip(1);
    let count = words.next().unwrap_or("").parse::<u32>().unwrap_or(0);
    let every = words.next().unwrap_or("").parse::<u32>().unwrap_or(1);
    let at = words.next().unwrap_or("");
    let mut before = String::from_str(alloc, words.next().unwrap_or(""))?;
    let mut reply = String::new(alloc);
    for number in 0..count {
        let line = format!(in alloc;
            "{{\"s\":1,\"call\":\"insert\",\"at\":\"{at}\",\"before\":\"{before}\",\"tree\":[\"b\"]}}"
        )?;
        reply = do_line(alloc, &line, core)?;
        if number % every.max(1) == every.max(1) - 1 {
            before = String::from_str(alloc, reply.split('"').nth(3).unwrap_or(""))?;
        }
    }
    Ok(reply)
}

/// The line with so many `x` in place of `@COUNT@`, where that stands in it.
fn line_with_texts(alloc: Global, line: &str) -> Result<String, Trouble> {
    let mut parts = line.split('@');
    let mut text = String::from_str(alloc, parts.next().unwrap_or(""))?;
    let (Some(count), Some(rest)) = (parts.next(), parts.next()) else {
        return Ok(text);
    };
    for _x in 0..count.parse::<u32>().unwrap_or(0) {
        text.push('x')?;
    }
    text.push_str(rest)?;
    Ok(text)
}

/// Does a command, again where a read of a call failed: its transaction then sees what it saw.
fn do_command(
    alloc: Global,
    session: u32,
    what: &What,
    core: &mut Core<StoreOp, FailingSeq>,
    replies: &mut Vec<LineReply>,
) -> Result<(), Trouble>
    requires { IsValidWhat what.now }
{
    for _time in 0..MOST_TIMES {
        match drive(alloc, core, session, doing_of(what.copy(alloc)?), replies) {
            Ok(Some(prepared)) => {
                return Ok(finish_commit(alloc, core, session, prepared, replies)?);
            }
            Ok(None) => return Ok(()),
            Err(CallError::DiskFault) => (),
            Err(_) => return Err(Trouble::NoMemory),
        }
    }
    Err(Trouble::Fault)
}

fn doing_of(what: What) -> Doing<StoreOp>
    requires { IsValidWhat what }
{
    match what {
        What::Begin => Doing::Begin,
        What::Commit => Doing::Commit,
        What::Abort => Doing::Abort,
        What::Call(call) => Doing::Call(StoreOp::new(call)),
    }
}

/// The book, an entry in each line: its session and event, and of a failed attempt the number of its grants and the count of faults, if it tells one.
pub fn book_text(alloc: Global, core: &Core<StoreOp, FailingSeq>) -> Result<String, Trouble> {
    let mut text = String::new(alloc);
    for noted in core.book() {
        text.push_str(&entry_text(alloc, noted)?)?;
    }
    Ok(text)
}

fn entry_text(alloc: Global, noted: &Noted<StoreOp>) -> Result<String, Trouble> {
    let session = noted.session;
    Ok(match &noted.event {
        Event::Begin => format!(in alloc; "{session} begin\n")?,
        Event::Call(_) => format!(in alloc; "{session} call\n")?,
        Event::Retry => format!(in alloc; "{session} retry\n")?,
        Event::Fail { grants, faults, .. } => match faults {
            Some(count) => format!(in alloc; "{session} fail {grants} {count}\n")?,
            None => format!(in alloc; "{session} fail {grants}\n")?,
        },
        Event::Commit => format!(in alloc; "{session} commit\n")?,
        Event::Abort => format!(in alloc; "{session} abort\n")?,
    })
}

fn text_of(alloc: Global, replies: &[LineReply]) -> Result<String, Trouble> {
    let mut out = List::new(alloc);
    for reply in replies {
        write_reply(alloc, reply, &mut out)?;
    }
    match str::from_utf8(out.as_slice()) {
        Ok(text) => Ok(String::from_str(alloc, text)?),
        Err(_) => Ok(String::from_str(alloc, "no text\n")?),
    }
}
