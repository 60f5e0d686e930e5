//! The book of a store whose amounts were moved, in lines that a plain model can do again (tools/replay_book).
use crate::line::{Held, Trouble, attempted, text_of};
use crate::moves::{CREATE_AMOUNTS, moved};
use call_contract::{Answer, Event, EventAnswer, Noted};
use command_lines::{LineAnswer, StoreCall};
use std::alloc::Global;
use std::sync::Wait;
use std::thread::Threads;
use store_calls::StoreOp;
use tree_model::{DomCall, Reply};

/// The book after so many moves in each of so many threads, and behind it the sum of all amounts.
pub fn book_after<R: Threads + Wait + Sync>(
    rt: &R,
    alloc: Global,
    threads: u32,
    moves: u32,
) -> Result<String, Trouble> {
    let (sum, core) = moved(rt, alloc, threads, moves)?;
    book_text(alloc, &core, sum)
}

fn book_text(alloc: Global, core: &Held, sum: u64) -> Result<String, Trouble> {
    let mut text = String::new(alloc);
    for noted in core.book() {
        text.push_str(&asked_text(alloc, noted)?)?;
        text.push_str(&answer_text(alloc, noted)?)?;
    }
    text.push_str(&format!(in alloc; "sum {sum}\n")?)?;
    Ok(text)
}

/// What an entry's session asked for, as a line of a script, with a blank behind it.
fn asked_text(alloc: Global, noted: &Noted<StoreOp>) -> Result<String, Trouble> {
    let session = noted.session;
    match &noted.event {
        Event::Begin => word_text(alloc, session, "begin"),
        Event::Call(op) => call_text(alloc, session, op.call()),
        Event::Retry => word_text(alloc, session, "retry"),
        Event::Fail { .. } => word_text(alloc, session, "fail"),
        Event::Commit => word_text(alloc, session, "commit"),
        Event::Abort => word_text(alloc, session, "abort"),
    }
}

fn word_text(alloc: Global, session: u32, word: &str) -> Result<String, Trouble> {
    Ok(format!(in alloc; "{{\"s\":{session},\"call\":\"{word}\"}} ")?)
}

/// A call that moves amounts, and for any other the one that makes them.
fn call_text(alloc: Global, session: u32, call: &StoreCall) -> Result<String, Trouble> {
    match call {
        StoreCall::Dom(DomCall::Node(at)) => {
            let at = at.text(alloc)?;
            Ok(format!(in alloc;
                "{{\"s\":{session},\"call\":\"node\",\"at\":\"{}\"}} ",
                at.as_str()
            )?)
        }
        StoreCall::Dom(DomCall::SetData(at, data)) => {
            let at = at.text(alloc)?;
            Ok(format!(in alloc;
                "{{\"s\":{session},\"call\":\"set_data\",\"at\":\"{}\",\"data\":\"{}\"}} ",
                at.as_str(),
                data.as_str()
            )?)
        }
        _ => Ok(format!(in alloc; "{CREATE_AMOUNTS} ")?),
    }
}

/// The reply's line of an entry.
fn answer_text(alloc: Global, noted: &Noted<StoreOp>) -> Result<String, Trouble> {
    let answer = match &noted.answer {
        EventAnswer::Nothing => LineAnswer::Reply(Reply::Nothing),
        EventAnswer::Number(number) => LineAnswer::Reply(Reply::Number(*number)),
        EventAnswer::Call(answer) => attempted(copy_of(alloc, answer)?),
    };
    text_of(alloc, noted.session, false, answer)
}

fn copy_of(alloc: Global, answer: &Answer) -> Result<Answer, Trouble> {
    Ok(match answer {
        Answer::Answered(reply) => Answer::Answered(reply.copy(alloc)?),
        Answer::Waits {
            resource,
            asks,
            holders,
        } => Answer::Waits {
            resource: resource.copy(alloc)?,
            asks: *asks,
            holders: holders.copy(alloc)?,
        },
        Answer::Deadlock { cycle } => Answer::Deadlock {
            cycle: cycle.copy(alloc)?,
        },
    })
}
