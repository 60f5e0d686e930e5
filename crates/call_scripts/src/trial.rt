//! A line's call, made on the map.
use crate::counted_seq::CountedSeq;
use crate::plan_reads::most_plan_reads;
use call_contract::TreeCall;
use command_lines::{
    BadLine, Command, LineAnswer, LineReply, StoreCall, What, read_line, write_reply,
};
use dewey_labels::{List, NoMemory};
use lock_resources::Request;
use node_seq::{Answer, Counted, NodeRead, SeqError, UnknownSeq};
use std::alloc::Global;
use store_calls::StoreOp;
use tree_model::{Changes, Key, Record, Reply};

/// The most requests that are shown one by one.
const MOST_SHOWN: usize = 40;

/// How many reads a map that isn't known answers with an entry, before one fails.
const ANSWERED_READS: usize = 24;

/// The text of what a line's call is answered, with its changes and requests. The changes are made in the map.
pub fn do_line(alloc: Global, line: &str, map: &mut CountedSeq) -> Result<String, SeqError> {
    match read_line(alloc, line.as_bytes()) {
        Ok(
            Some(
                Command {
                    session,
                    what: What::Call(call),
                },
            ),
        ) => try_call(alloc, session, &StoreOp::new(call), map),
        Ok(_) => Ok(String::from_str(alloc, "no call")?),
        Err(BadLine::Why(why)) => Ok(String::from_str(alloc, why.as_str())?),
        Err(BadLine::NoMemory) => Err(SeqError::NoMemory),
    }
}

/// Makes a call, first for its requests, then with a fault at each read, and then with none.
fn try_call(
    alloc: Global,
    session: u32,
    op: &StoreOp,
    map: &mut CountedSeq,
) -> Result<String, SeqError> {
    let mut requests = List::new(alloc);
    map.count_anew(0);
    op.requests(alloc, map, &mut requests)?;
    let plan_reads = map.reads();
    let mut changes = List::new(alloc);
    map.count_anew(0);
    let reply = op.apply(alloc, map, &mut changes)?;
    let call_reads = map.reads();
    let mut text = reply_text(alloc, session, reply)?;
    text.push_str(&format!(in alloc; "\n  {} changes; ", changes.len())?)?;
    push_requests(alloc, &requests, &mut text)?;
    if let StoreCall::Dom(call) = op.call() {
        if plan_reads > most_plan_reads(call) {
            text.push_str(&format!(in alloc; "\n  {plan_reads} reads of its plan")?)?;
        }
    }
    if !fails_at_each(alloc, op, map, plan_reads, call_reads)? {
        text.push_str("\n  a fault was passed over")?;
    }
    if !ends_over_any_map(alloc, op, map.entries())? {
        text.push_str("\n  a fault that wasn't counted")?;
    }
    map.count_anew(0);
    map.change(alloc, changes)?;
    Ok(text)
}

/// The line of a reply, without its end.
fn reply_text(alloc: Global, session: u32, reply: Reply) -> Result<String, SeqError> {
    let said = LineReply::Said {
        session,
        woke: false,
        answer: LineAnswer::Reply(reply),
    };
    let mut out = List::new(alloc);
    write_reply(alloc, &said, &mut out)?;
    out.pop();
    text_of(alloc, out.as_slice())
}

fn text_of(alloc: Global, bytes: &[u8]) -> Result<String, SeqError> {
    match str::from_utf8(bytes) {
        Ok(text) => Ok(String::from_str(alloc, text)?),
        Err(_) => Ok(String::from_str(alloc, "no text")?),
    }
}

/// Adds the requests, each with its mode before its resource, or their number where they are many.
fn push_requests(
    alloc: Global,
    requests: &List<Request>,
    text: &mut String,
) -> Result<(), SeqError> {
    if requests.is_empty() || requests.len() > MOST_SHOWN {
        return Ok(text.push_str(&format!(in alloc; "{} requests", requests.len())?)?);
    }
    let mut between = "";
    for request in requests.as_slice() {
        text.push_str(between)?;
        text.push_str(request.ask.name())?;
        text.push_str(" ")?;
        let mut out = List::new(alloc);
        request.resource.write_text(alloc, &mut out)?;
        text.push_str(&text_of(alloc, out.as_slice())?)?;
        between = ", ";
    }
    Ok(())
}

/// Whether a call ends with a fault, and without changes, where one of its reads fails, whichever it is.
fn fails_at_each(
    alloc: Global,
    op: &StoreOp,
    map: &mut CountedSeq,
    plan_reads: u64,
    call_reads: u64,
) -> Result<bool, SeqError> {
    for read in 1..=plan_reads {
        map.count_anew(read);
        let mut requests = List::new(alloc);
        match op.requests(alloc, map, &mut requests) {
            Err(SeqError::DiskFault) if requests.is_empty() => (),
            _ => return Ok(false),
        }
    }
    for read in 1..=call_reads {
        map.count_anew(read);
        let mut changes: Changes = List::new(alloc);
        match op.apply(alloc, map, &mut changes) {
            Err(SeqError::DiskFault) if changes.is_empty() => (),
            _ => return Ok(false),
        }
    }
    Ok(true)
}

/// Whether a call ends with a fault exactly where one was counted, over maps that aren't known: each read is answered by the next one of the entries,
/// from a different one on in each map, whatever it asks, until one fails. A call reads no further then.
fn ends_over_any_map(
    alloc: Global,
    op: &StoreOp,
    entries: &[(Key, Record)],
) -> Result<bool, SeqError> {
    for start in [0, 1, 2, 5, 11, 23] {
        let mut seq = Counted::new(any_map(alloc, entries, start)?);
        let mut requests = List::new(alloc);
        let is_planned = op.requests(alloc, &mut seq, &mut requests).is_ok();
        if !ends_at_its_fault(&seq, is_planned, entries.len(), start) {
            return Ok(false);
        }
        let mut seq = Counted::new(any_map(alloc, entries, start)?);
        let mut changes: Changes = List::new(alloc);
        let is_answered = op.apply(alloc, &mut seq, &mut changes).is_ok();
        if !ends_at_its_fault(&seq, is_answered, entries.len(), start) {
            return Ok(false);
        }
    }
    Ok(true)
}

/// Whether a call over such a map ended well exactly where it made no read past those that are answered, and else at the first one past them.
fn ends_at_its_fault(seq: &Counted<UnknownSeq>, is_ok: bool, entries: usize, start: usize) -> bool {
    let answered = entries.saturating_sub(start).min(ANSWERED_READS) as u64;
    if is_ok {
        seq.faults() == 0 && seq.calls() <= answered
    } else {
        seq.faults() == 1 && seq.calls() == answered + 1
    }
}

/// A map that isn't known, whose first reads are answered by the entries from this one on, and the next one by a fault.
fn any_map(alloc: Global, entries: &[(Key, Record)], start: usize) -> Result<UnknownSeq, NoMemory> {
    let mut answers = Vec::new(alloc);
    for (key, record) in entries.iter().skip(start).take(ANSWERED_READS) {
        answers.push(Answer::Found(key.copy(alloc)?, record.copy(alloc)?))?;
    }
    answers.push(Answer::Fault)?;
    Ok(UnknownSeq { answers, faults: 0 })
}
