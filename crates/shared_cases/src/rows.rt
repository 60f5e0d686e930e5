//! Worked scripts of two sessions, in threads.
ghost use Rattle.std.specs.Prelude.{◌≡◌, ◌≢◌, None};
ghost use Rattle.call_contract.specs.Sessions.{live_in};
ghost use Rattle.shared_store.specs.Lists.{book_of};
ghost use Rattle.shared_store.specs.Sessions.{having_seen};

use crate::line::{Here, Port, Trouble, Way, reply_again, reply_to};
use std::alloc::Global;
use std::sync::Wait;
use std::thread::{Threads, join};

/// The replies to lines in a session, each in its line.
pub fn replies_to<R: Wait>(
    rt: &R,
    alloc: Global,
    store: &Here,
    port: &mut Port,
    way: Way,
    lines: &[&str],
) -> Result<String, Trouble>
    requires { (port.old.lock ≡ store.now) × (port.old.under ≢ 0) }
    ensures { port.new ≡ having_seen port.new.seen port.old }
{
    let mut text = String::new(alloc);
    for line in lines {
        let reply = reply_to(rt, alloc, store, port, way, line)?;
        text.push_str(&reply)?;
    }
    Ok(text)
}

/// The replies to a retry of the call that waits, one behind the other; none where none does.
pub fn again<R: Wait>(
    rt: &R,
    alloc: Global,
    store: &Here,
    port: &mut Port,
) -> Result<String, Trouble>
    requires { (port.old.lock ≡ store.now) × (port.old.under ≢ 0) }
    ensures { port.new ≡ having_seen port.new.seen port.old }
{
    match reply_again(rt, alloc, store, port, 2)? {
        Some(text) => Ok(text),
        None => Ok(String::from_str(alloc, "no call waits\n")?),
    }
}

/// A thread's session does lines, and ends its transaction if it has one.
fn in_thread<R: Wait>(
    rt: &R,
    alloc: Global,
    store: &Here,
    mut port: Port,
    way: Way,
    lines: &[&str],
) -> (Port, Result<String, Trouble>)
    requires { (port.lock ≡ store.now) × (port.under ≢ 0) }
    ensures kept { result.0 ≡ having_seen result.0.seen port }
    ensures ended { live_in (book_of result.0.seen) result.0.under ≡ None }
{
    let text = replies_to(rt, alloc, store, &mut port, way, lines);
    let _ended = port.abort(rt, store);
    (port, text)
}

/// Two sessions do lines, each in a thread of its own.
pub fn in_two_threads<R: Threads + Wait + Sync>(
    rt: &R,
    alloc: Global,
    store: &Here,
    one: Port,
    two: Port,
    way: Way,
    first: &[&str],
    second: &[&str],
) -> (
    (Port, Result<String, Trouble>),
    (Port, Result<String, Trouble>),
)
    requires one { (one.lock ≡ store.now) × (one.under ≢ 0) }
    requires two { (two.lock ≡ store.now) × (two.under ≢ 0) }
    ensures kept { (result.0.0 ≡ having_seen result.0.0.seen one) × (result.1.0 ≡ having_seen result.1.0.seen two) }
    ensures ended { (live_in (book_of result.0.0.seen) result.0.0.under ≡ None) × (live_in (book_of result.1.0.seen) result.1.0.under ≡ None) }
{
    join(
        rt,
        move || -> (Port, Result<String, Trouble>)
            requires { (one.lock ≡ store.now) × (one.under ≢ 0) }
            ensures { (result.0 ≡ having_seen result.0.seen one) × (live_in (book_of result.0.seen) result.0.under ≡ None) }
        { in_thread(rt, alloc, store, one, way, first) },
        move || -> (Port, Result<String, Trouble>)
            requires { (two.lock ≡ store.now) × (two.under ≢ 0) }
            ensures { (result.0 ≡ having_seen result.0.seen two) × (live_in (book_of result.0.seen) result.0.under ≡ None) }
        { in_thread(rt, alloc, store, two, way, second) },
    )
}
