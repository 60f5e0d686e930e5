//! Sessions in threads of their own whose calls wait, and one that goes on once they do.
ghost use Rattle.std.specs.Thread.{IsSync};
ghost use Rattle.std.specs.Prelude.{◌≡◌, ◌≢◌};
ghost use Rattle.shared_store.specs.Sessions.{having_seen};

use crate::line::{Here, Port, Trouble, Way};
use crate::rows::replies_to;
use std::alloc::Global;
use std::sync::Wait;
use std::thread::{Threads, join};

const BEGIN_4: &str = "{\"s\":4,\"call\":\"begin\"}";

const DUMP_4: &str = "{\"s\":4,\"call\":\"dump\",\"at\":\"1.1001\"}";

/// The replies to a session's lines, or why there are none.
pub type Replies = Result<String, Trouble>;

/// Whether session 4's read of the whole document `1.1001` has to wait, with a reply that ends so. Who it waits for was granted what a call asks for above its place:
/// that call was attempted.
fn waits_by<R: Wait>(rt: &R, alloc: Global, store: &Here, probe: &mut Port, end: &str) -> bool
    requires { (probe.old.lock ≡ store.now) × (probe.old.under ≢ 0) }
    ensures { probe.new ≡ having_seen probe.new.seen probe.old }
{
    let text = replies_to(rt, alloc, store, probe, Way::Once, &[BEGIN_4, DUMP_4]);
    let _ended = probe.abort(rt, store);
    match text {
        Ok(text) => text.as_str().ends_with(end),
        Err(_) => false,
    }
}

/// A session does lines once session 4's read has to wait with a reply that ends so. Till then it asks again and again.
fn go_on_once_others_wait<R: Wait>(
    rt: &R,
    alloc: Global,
    store: &Here,
    mut port: Port,
    mut probe: Port,
    end: &str,
    lines: &[&str],
) -> Replies
    requires port { (port.lock ≡ store.now) × (port.under ≢ 0) }
    requires probe { (probe.lock ≡ store.now) × (probe.under ≢ 0) }
{
    for _ in rt.forever() {
        if waits_by(rt, alloc, store, &mut probe, end) {
            break;
        }
    }
    replies_to(rt, alloc, store, &mut port, Way::Once, lines)
}

/// A session does lines, each call until it needn't wait.
fn until_ended<R: Wait>(
    rt: &R,
    alloc: Global,
    store: &Here,
    mut port: Port,
    lines: &[&str],
) -> Replies
    requires { (port.lock ≡ store.now) × (port.under ≢ 0) }
{
    replies_to(rt, alloc, store, &mut port, Way::UntilEnded, lines)
}

/// Two sessions in threads. The first does its lines once session 4's read has to wait with a reply that ends so, the second's calls are made until they needn't wait.
pub fn one_waits<R: Threads + Wait + Sync>(
    rt: &R,
    alloc: Global,
    store: &Here,
    one: Port,
    two: Port,
    probe: Port,
    end: &str,
    lines: (&[&str], &[&str]),
) -> (Replies, Replies)
    requires one { (one.lock ≡ store.now) × (one.under ≢ 0) }
    requires two { (two.lock ≡ store.now) × (two.under ≢ 0) }
    requires probe { (probe.lock ≡ store.now) × (probe.under ≢ 0) }
{
    let (first, second) = lines;
    join(
        rt,
        move || -> Replies
            requires { (one.lock ≡ store.now) × (one.under ≢ 0) × (probe.lock ≡ store.now) × (probe.under ≢ 0) }
        { go_on_once_others_wait(rt, alloc, store, one, probe, end, first) },
        move || -> Replies
            requires { (two.lock ≡ store.now) × (two.under ≢ 0) }
        { until_ended(rt, alloc, store, two, second) },
    )
}

/// The same of three sessions, of which the second's and the third's calls are made until they needn't wait.
pub fn two_wait<R: Threads + Wait + Sync>(
    rt: &R,
    alloc: Global,
    store: &Here,
    ports: (Port, Port, Port),
    probe: Port,
    end: &str,
    lines: (&[&str], &[&str], &[&str]),
) -> (Replies, (Replies, Replies))
    requires one { (ports.0.lock ≡ store.now) × (ports.0.under ≢ 0) }
    requires two { (ports.1.lock ≡ store.now) × (ports.1.under ≢ 0) }
    requires three { (ports.2.lock ≡ store.now) × (ports.2.under ≢ 0) }
    requires probe { (probe.lock ≡ store.now) × (probe.under ≢ 0) }
{
    let (one, two, three) = ports;
    let (first, second, third) = lines;
    join(
        rt,
        move || -> Replies
            requires { (one.lock ≡ store.now) × (one.under ≢ 0) × (probe.lock ≡ store.now) × (probe.under ≢ 0) }
        { go_on_once_others_wait(rt, alloc, store, one, probe, end, first) },
        move || -> (Replies, Replies)
            requires { IsSync R.row × (two.lock ≡ store.now) × (two.under ≢ 0) × (three.lock ≡ store.now) × (three.under ≢ 0) }
        { both_until_ended(rt, alloc, store, two, three, second, third) },
    )
}

fn both_until_ended<R: Threads + Wait + Sync>(
    rt: &R,
    alloc: Global,
    store: &Here,
    two: Port,
    three: Port,
    second: &[&str],
    third: &[&str],
) -> (Replies, Replies)
    requires two { (two.lock ≡ store.now) × (two.under ≢ 0) }
    requires three { (three.lock ≡ store.now) × (three.under ≢ 0) }
{
    join(
        rt,
        move || -> Replies
            requires { (two.lock ≡ store.now) × (two.under ≢ 0) }
        { until_ended(rt, alloc, store, two, second) },
        move || -> Replies
            requires { (three.lock ≡ store.now) × (three.under ≢ 0) }
        { until_ended(rt, alloc, store, three, third) },
    )
}
