//! Turns in threads: that none is lost, and that each wait ends.
ghost use Rattle.std.specs.Thread.{IsSync};
ghost use Rattle.std.specs.Prelude.{◌≡◌, false};

use crate::roll::roll_of_three;
use crate::tally::{Tally, cut, take_and_tick, tally_lock, tick_when, ticks_after};
use std::alloc::Global;
use std::hint::spin_loop;
use std::sync::Wait;
use std::sync::atomic::{AtomicU64, Ordering};
use std::thread::{Threads, join};
use turn_lock::{Pass, TurnLock};

#[test]
fn eight_threads_take_a_million_turns_each(rt: HostRuntime) {
    assert_eq!(rt; ticks_after(&rt, rt.alloc(), 8, 1_000_000), Some(8_000_000));
}

/// So many ticks, each at an even or each at an odd count.
fn tick_in_turn<R: Wait>(
    rt: &R,
    lock: &TurnLock<Tally>,
    mut pass: Pass<Tally>,
    odd: bool,
    ticks: u64,
)
    requires { (pass.lock ≡ lock.now) × (pass.turn ≡ false) }
{
    for _ in 0..ticks {
        tick_when(rt, lock, &mut pass, odd);
    }
}

#[test]
fn two_threads_wait_for_each_other(rt: HostRuntime) {
    let Some((lock, mut even)) = tally_lock(rt.alloc()) else {
        panic!(rt; "no memory");
    };
    let shared = &lock;
    let mut reader = cut(shared, &mut even, 65);
    let odd = cut(shared, &mut even, 64);
    join(
        &rt,
        move ||
            requires { (even.lock ≡ shared.now) × (even.turn ≡ false) }
        { tick_in_turn(&rt, shared, even, false, 10_000) },
        move ||
            requires { (odd.lock ≡ shared.now) × (odd.turn ≡ false) }
        { tick_in_turn(&rt, shared, odd, true, 10_000) },
    );
    assert_eq!(rt; shared.take(&rt, &mut reader).value.ticks, 20_000);
}

/// Waits until the list is longer than what the pass has seen, and is counted first.
fn await_one<R: Wait>(rt: &R, lock: &TurnLock<Tally>, mut pass: Pass<Tally>, waiting: &AtomicU64)
    requires { (pass.lock ≡ lock.now) × (pass.turn ≡ false) }
{
    waiting.fetch_add(1, Ordering::SeqCst);
    lock.await_growth(rt, &mut pass);
}

/// One tick once so many are counted that wait, and then had time to lie down.
fn tick_for<R: Wait>(
    rt: &R,
    lock: &TurnLock<Tally>,
    mut pass: Pass<Tally>,
    waiting: &AtomicU64,
    many: u64,
)
    requires { (pass.lock ≡ lock.now) × (pass.turn ≡ false) }
{
    for _ in rt.forever() {
        if waiting.load(Ordering::SeqCst) == many {
            break;
        }
    }
    for _ in 0..20_000 {
        spin_loop();
    }
    take_and_tick(rt, lock, &mut pass);
}

/// Two wait for one tick in threads of their own; the ticks once both went on. None where there was no memory.
fn tick_once_for_two<R: Threads + Wait + Sync>(rt: &R, alloc: Global) -> Option<u64> {
    let (lock, mut pass) = tally_lock(alloc)?;
    let shared = &lock;
    let mut reader = cut(shared, &mut pass, 65);
    let one = cut(shared, &mut pass, 64);
    let two = cut(shared, &mut pass, 63);
    let count = AtomicU64::new(0);
    let waiting = &count;
    join(
        rt,
        move ||
            requires { IsSync R.row × (pass.lock ≡ shared.now) × (pass.turn ≡ false) × (one.lock ≡ shared.now) × (one.turn ≡ false) }
        {
            join(
                rt,
                move ||
                    requires { (pass.lock ≡ shared.now) × (pass.turn ≡ false) }
                { tick_for(rt, shared, pass, waiting, 2) },
                move ||
                    requires { (one.lock ≡ shared.now) × (one.turn ≡ false) }
                { await_one(rt, shared, one, waiting) },
            );
        },
        move ||
            requires { (two.lock ≡ shared.now) × (two.turn ≡ false) }
        { await_one(rt, shared, two, waiting) },
    );
    Some(shared.take(rt, &mut reader).value.ticks)
}

/// Where a tick woke one of them alone, the other would sleep for ever.
#[test]
fn one_tick_wakes_all_that_wait_for_it(rt: HostRuntime) {
    for _ in 0..100 {
        assert_eq!(rt; tick_once_for_two(&rt, rt.alloc()), Some(1));
    }
}

#[test]
fn joined_passes_find_what_each_wrote(rt: HostRuntime) {
    match roll_of_three(&rt, rt.alloc()) {
        Ok((numbers, before, after)) => {
            assert_eq!(rt; numbers.as_slice(), [7u32, 64, 0, 7, 64].as_slice());
            assert!(rt; !before && after);
        }
        Err(_) => panic!(rt; "no memory"),
    }
}
