//! Amounts that sessions in threads move between the texts of a document.
ghost use Rattle.std.specs.Prelude.{◌≡◌, ◌≢◌};
ghost use Rattle.shared_store.specs.Sessions.{having_seen};

use crate::line::{Held, Here, Port, Trouble, end_of};
use crate::plain::sum_behind;
use crate::spread::{spread, store_with};
use call_contract::Event;
use shared_store::Ended;
use std::alloc::Global;
use std::sync::Wait;
use std::thread::{Threads, yield_now};
use tree_model::Reply;

/// How many texts amounts are moved between.
pub const TEXTS: u32 = 8;

/// How often a transaction is tried that deadlocks end.
const MOST_TIMES: u32 = 1_000_000;

/// The line that makes the amounts, 10,000,000 in each text.
pub const CREATE_AMOUNTS: &str =
    "{\"s\":64,\"call\":\"create\",\"name\":\"x\",\"tree\":[\"a\",[\"n\",\"10000000\"],[\"n\",\"10000000\"],[\"n\",\"10000000\"],[\"n\",\"10000000\"],[\"n\",\"10000000\"],[\"n\",\"10000000\"],[\"n\",\"10000000\"],[\"n\",\"10000000\"]]}";

const BEGIN: &str = "{\"s\":64,\"call\":\"begin\"}";

const COMMIT: &str = "{\"s\":64,\"call\":\"commit\"}";

/// The label of the text of an amount.
pub fn text_label(alloc: Global, index: u32) -> Result<String, Trouble> {
    let division = 1001 + 2 * (index % TEXTS);
    Ok(format!(in alloc; "1.1001.1001.{division}.1001")?)
}

/// The amount that a text's reply tells; 0 in any other.
fn amount_in(reply: &Reply) -> u64 {
    match reply {
        Reply::Node {
            value: Some(text),
            ..
        } => text.as_str().parse::<u64>().unwrap_or(0),
        _ => 0,
    }
}

/// An amount; none where the transaction was ended by a deadlock.
fn amount<R: Wait>(
    rt: &R,
    alloc: Global,
    store: &Here,
    port: &mut Port,
    index: u32,
) -> Result<Option<u64>, Trouble>
    requires { (port.old.lock ≡ store.now) × (port.old.under ≢ 0) }
    ensures { port.new ≡ having_seen port.new.seen port.old }
{
    let at = text_label(alloc, index)?;
    let line = format!(in alloc; "{{\"s\":1,\"call\":\"node\",\"at\":\"{at}\"}}")?;
    match end_of(rt, alloc, store, port, &line)? {
        Ended::Answered(reply) => Ok(Some(amount_in(&reply))),
        Ended::Deadlock { .. } => Ok(None),
    }
}

/// Writes an amount; false where the transaction was ended by a deadlock.
fn set_amount<R: Wait>(
    rt: &R,
    alloc: Global,
    store: &Here,
    port: &mut Port,
    index: u32,
    amount: u64,
) -> Result<bool, Trouble>
    requires { (port.old.lock ≡ store.now) × (port.old.under ≢ 0) }
    ensures { port.new ≡ having_seen port.new.seen port.old }
{
    let at = text_label(alloc, index)?;
    let line = format!(in alloc;
        "{{\"s\":1,\"call\":\"set_data\",\"at\":\"{at}\",\"data\":\"{amount}\"}}"
    )?;
    match end_of(rt, alloc, store, port, &line)? {
        Ended::Answered(_) => Ok(true),
        Ended::Deadlock { .. } => Ok(false),
    }
}

/// The sum of all amounts, in a transaction that is there.
fn sum_of<R: Wait>(rt: &R, alloc: Global, store: &Here, port: &mut Port) -> Result<u64, Trouble>
    requires { (port.old.lock ≡ store.now) × (port.old.under ≢ 0) }
    ensures { port.new ≡ having_seen port.new.seen port.old }
{
    let mut sum: u64 = 0;
    for index in 0..TEXTS {
        let amount = amount(rt, alloc, store, port, index)?;
        sum = sum.saturating_add(amount.unwrap_or(0));
    }
    Ok(sum)
}

/// Moves 1 from a text to another in a transaction; false where a deadlock ended it.
fn try_move<R: Wait>(
    rt: &R,
    alloc: Global,
    store: &Here,
    port: &mut Port,
    from: u32,
    to: u32,
) -> Result<bool, Trouble>
    requires { (port.old.lock ≡ store.now) × (port.old.under ≢ 0) }
    ensures { port.new ≡ having_seen port.new.seen port.old }
{
    let _ordinal = port.begin(rt, alloc, store)?;
    let Some(here) = amount(rt, alloc, store, port, from)? else {
        return Ok(false);
    };
    let Some(there) = amount(rt, alloc, store, port, to)? else {
        return Ok(false);
    };
    if !set_amount(rt, alloc, store, port, from, here.saturating_sub(1))? {
        return Ok(false);
    }
    if !set_amount(rt, alloc, store, port, to, there.saturating_add(1))? {
        return Ok(false);
    }
    let _number = port.commit(rt, alloc, store)?;
    Ok(true)
}

/// Moves an amount, tried anew after each deadlock.
fn move_one<R: Wait>(
    rt: &R,
    alloc: Global,
    store: &Here,
    port: &mut Port,
    from: u32,
    to: u32,
) -> Result<(), Trouble>
    requires { (port.old.lock ≡ store.now) × (port.old.under ≢ 0) }
    ensures { port.new ≡ having_seen port.new.seen port.old }
{
    for time in 0..MOST_TIMES {
        if try_move(rt, alloc, store, port, from, to)? {
            return Ok(());
        }
        pause(time);
    }
    Err(Trouble::Fault)
}

/// Lets others come first, the longer the more deadlocks there were: whoever begins anew at once bars those that he had barred before.
fn pause(deadlocks: u32) {
    for _ in 0..deadlocks.min(100) * 50 + 50 {
        yield_now();
    }
}

/// Moves 1 so many times, from and to texts that depend on the session's number. It stops where one can't be moved.
pub fn move_often<R: Wait>(
    rt: &R,
    alloc: Global,
    store: &Here,
    port: &mut Port,
    number: u32,
    times: u32,
)
    requires { (port.old.lock ≡ store.now) × (port.old.under ≢ 0) }
    ensures { port.new ≡ having_seen port.new.seen port.old }
{
    for time in 0..times {
        let from = (number % TEXTS + time % TEXTS) % TEXTS;
        let to = (from + 1 + time % (TEXTS - 1)) % TEXTS;
        if move_one(rt, alloc, store, port, from, to).is_err() {
            return;
        }
    }
}

/// The sum of all amounts in a transaction of its own; 0 where it can't be read.
fn sum_at_end<R: Wait>(rt: &R, alloc: Global, store: &Here, port: &mut Port) -> u64
    requires { (port.old.lock ≡ store.now) × (port.old.under ≢ 0) }
    ensures { port.new ≡ having_seen port.new.seen port.old }
{
    let _begun = port.begin(rt, alloc, store);
    let sum = sum_of(rt, alloc, store, port);
    sum.unwrap_or(0)
}

/// The sum of all amounts after so many moves in each of so many threads, at most 63, and the core.
pub fn moved<R: Threads + Wait + Sync>(
    rt: &R,
    alloc: Global,
    threads: u32,
    moves: u32,
) -> Result<(u64, Held), Trouble> {
    let (store, port) = store_with(rt, alloc, &[BEGIN, CREATE_AMOUNTS, COMMIT])?;
    let mut port = spread(rt, alloc, &store, port, threads.min(63), moves);
    let sum = sum_at_end(rt, alloc, &store, &mut port);
    Ok((sum, store.close(port)))
}

/// That sum, how many commits the core has then, and the sum that a plain model finds behind its book, if it finds it legal and serial.
pub fn sums_after<R: Threads + Wait + Sync>(
    rt: &R,
    alloc: Global,
    threads: u32,
    moves: u32,
) -> Result<(u64, usize, Option<u64>), Trouble> {
    let (sum, core) = moved(rt, alloc, threads, moves)?;
    Ok((sum, commits_in(&core), sum_behind(alloc, core.book())?))
}

fn commits_in(core: &Held) -> usize {
    core.book()
        .iter()
        .filter(|noted| matches!(noted.event, Event::Commit))
        .count()
}
