//! A store for sessions, and threads that each move amounts in a session of their own.
ghost use Rattle.std.specs.Thread.{IsSync};
ghost use Rattle.std.specs.Prelude.{◌≡◌, ◌≢◌, ◌≤◌, ◌<◌, ◌+◌, ℕ, None, IfOk, true, false, slice_set};
ghost use Rattle.call_contract.specs.Sessions.{live_in};
ghost use Rattle.turn_lock.specs.Turns.{has_number, HasAll, only_number};
ghost use Rattle.shared_store.specs.Lists.{book_of};
ghost use Rattle.shared_store.specs.Sessions.{having_seen};

use crate::line::{Here, Port, Trouble, Way};
use crate::moves::move_often;
use crate::rows::replies_to;
use node_seq::SortedSeq;
use shared_store::Store;
use std::alloc::Global;
use std::sync::Wait;
use std::thread::{Threads, join};
use tx_core::Core;

/// A store over an empty tree, and session 64, which has all numbers.
fn empty_store(alloc: Global) -> Result<(Here, Port), Trouble>
    ensures { IfOk result (λ r. (r.1.lock ≡ r.0) × (r.1.under ≡ 64) × HasAll r.1.has) }
{
    let Ok(core) = Core::new(alloc, SortedSeq::new(alloc), 0, 4_294_967_295) else {
        return Err(Trouble::NoMemory);
    };
    match Store::new(alloc, core, 64) {
        Ok((store, port)) => Ok((store, port)),
        Err(_) => Err(Trouble::NoMemory),
    }
}

/// A store where the lines were done in session 64, and that session, which has all numbers.
pub fn store_with<R: Wait>(rt: &R, alloc: Global, lines: &[&str]) -> Result<(Here, Port), Trouble>
    ensures { IfOk result (λ r. (r.1.lock ≡ r.0) × (r.1.under ≡ 64) × HasAll r.1.has) }
{
    let (store, mut port) = empty_store(alloc)?;
    let _replies = replies_to(rt, alloc, &store, &mut port, Way::Once, lines)?;
    Ok((store, port))
}

/// A session of a number that the first one gives.
pub fn cut(store: &Here, port: &mut Port, number: u32) -> Port
    requires lock { port.old.lock ≡ store.now }
    requires number { (has_number port.old.has number ≡ true) × (port.old.under ≢ number) }
    ensures kept { (port.new.lock ≡ port.old.lock) × (port.new.under ≡ port.old.under) × (port.new.has ≡ slice_set port.old.has number false) }
    ensures given { (result.lock ≡ port.old.lock) × (result.under ≡ number) × (result.has ≡ only_number number) }
{
    port.split(store, number)
}

/// Moves amounts in a session, which then has no transaction.
fn move_and_end<R: Wait>(
    rt: &R,
    alloc: Global,
    store: &Here,
    mut port: Port,
    number: u32,
    times: u32,
) -> Port
    requires { (port.lock ≡ store.now) × (port.under ≢ 0) }
    ensures kept { result ≡ having_seen result.seen port }
    ensures ended { live_in (book_of result.seen) result.under ≡ None }
{
    move_often(rt, alloc, store, &mut port, number, times);
    let _ended = port.abort(rt, store);
    port
}

/// Moves amounts so many times in each of so many threads, in sessions from number 1 on. The session comes back with the numbers that it had.
pub fn spread<R: Threads + Wait + Sync>(
    rt: &R,
    alloc: Global,
    store: &Here,
    mut port: Port,
    threads: u32,
    times: u32,
) -> Port
    requires port { (port.lock ≡ store.now) × (port.under ≡ 64) × (threads < 64) }
    requires numbers { (n : ℕ) → n ≤ threads → has_number port.has n ≡ true }
    ensures kept { (result.lock ≡ port.lock) × (result.under ≡ 64) }
    ensures numbers { (n : ℕ) → has_number port.has n ≡ true → has_number result.has n ≡ true }
{
    if threads == 0 {
        return port;
    }
    let other = cut(store, &mut port, threads);
    let fewer = threads - 1;
    let (mut rest, done) = join(
        rt,
        move || -> Port
            requires { IsSync R.row × (port.lock ≡ store.now) × (port.under ≡ 64) × (fewer < 64) × ((n : ℕ) → n ≤ fewer → has_number port.has n ≡ true) }
            ensures { (result.lock ≡ port.lock) × (result.under ≡ 64) × ((n : ℕ) → has_number port.has n ≡ true → has_number result.has n ≡ true) }
        { spread(rt, alloc, store, port, fewer, times) },
        move || -> Port
            requires { (other.lock ≡ store.now) × (other.under ≢ 0) }
            ensures { (result ≡ having_seen result.seen other) × (live_in (book_of result.seen) result.under ≡ None) }
        { move_and_end(rt, alloc, store, other, threads, times) },
    );
    store.join(&mut rest, done);
    rest
}
