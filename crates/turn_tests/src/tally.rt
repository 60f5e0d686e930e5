//! A value that counts ticks, and threads that take it in turn.
ghost use Rattle.std.specs.Thread.{IsSync};
ghost use Rattle.std.specs.Prelude.{◌≡◌, ◌≤◌, ◌<◌, ◌-◌, ℕ, IfSome, false, true};
ghost use Rattle.turn_lock.specs.Turns.{has_number};

use std::alloc::Global;
use std::sync::Wait;
use std::thread::{Threads, join};
use turn_lock::{Grows, Pass, TurnLock};

/// Its list has an entry without a number for each tick.
#[derive(Drop)]
pub struct Tally {
    pub ticks: u64,
}

impl Grows for Tally {
    ghost use Rattle.std.specs.Prelude.{replicate, None};

    type Entry = u8;

    ghost entries = { λ t. replicate t.ticks 0 };

    ghost number = { λ e. None };

    fn count(&self) -> u64 {
        self.ticks
    }
}

impl Tally {
    pub fn tick(&mut self)
        ensures { self.old.ticks ≤ self.new.ticks }
    {
        self.ticks = self.ticks.saturating_add(1);
    }
}

/// One turn, with a tick.
pub fn take_and_tick<R: Wait>(rt: &R, lock: &TurnLock<Tally>, pass: &mut Pass<Tally>)
    requires lock { pass.old.lock ≡ lock.now }
    requires turn { pass.old.turn ≡ false }
    ensures kept { (pass.new.lock ≡ pass.old.lock) × (pass.new.turn ≡ false) × (pass.new.has ≡ pass.old.has) }
{
    let mut turn = lock.take(rt, pass);
    turn.value.tick();
    lock.give(pass, turn);
}

/// One tick in a turn at which the ticks are even or odd, as `odd` says. Till then it waits for others to tick.
pub fn tick_when<R: Wait>(rt: &R, lock: &TurnLock<Tally>, pass: &mut Pass<Tally>, odd: bool)
    requires lock { pass.old.lock ≡ lock.now }
    requires turn { pass.old.turn ≡ false }
    ensures kept { (pass.new.lock ≡ pass.old.lock) × (pass.new.turn ≡ false) × (pass.new.has ≡ pass.old.has) }
{
    for _ in rt.forever() {
        if try_tick(rt, lock, pass, odd) {
            return;
        }
        lock.await_growth(rt, pass);
    }
    unreachable!()
}

fn try_tick<R: Wait>(rt: &R, lock: &TurnLock<Tally>, pass: &mut Pass<Tally>, odd: bool) -> bool
    requires lock { pass.old.lock ≡ lock.now }
    requires turn { pass.old.turn ≡ false }
    ensures kept { (pass.new.lock ≡ pass.old.lock) × (pass.new.turn ≡ false) × (pass.new.has ≡ pass.old.has) }
{
    let mut turn = lock.take(rt, pass);
    let mine = (turn.value.ticks % 2 == 1) == odd;
    if mine {
        turn.value.tick();
    }
    lock.give(pass, turn);
    mine
}

/// So many turns, each with a tick.
pub fn take_often<R: Wait>(rt: &R, lock: &TurnLock<Tally>, mut pass: Pass<Tally>, takes: u64)
    requires { (pass.lock ≡ lock.now) × (pass.turn ≡ false) }
{
    for _ in 0..takes {
        take_and_tick(rt, lock, &mut pass);
    }
}

/// A lock and its first pass. None where there was no memory.
pub fn tally_lock(alloc: Global) -> Option<(TurnLock<Tally>, Pass<Tally>)>
    ensures kept { IfSome result (λ r. (r.1.lock ≡ r.0) × (r.1.turn ≡ false)) }
    ensures numbers { IfSome result (λ r. (n : ℕ) → n < 65 → has_number r.1.has n ≡ true) }
{
    match TurnLock::new(alloc, Tally { ticks: 0 }) {
        Ok((lock, pass)) => Some((lock, pass)),
        Err(_) => None,
    }
}

/// A pass with the number below `above`, where the first one has all below `above`.
pub fn cut(lock: &TurnLock<Tally>, pass: &mut Pass<Tally>, above: u32) -> Pass<Tally>
    requires lock { (pass.old.lock ≡ lock.now) × (pass.old.turn ≡ false) }
    requires above { 1 < above }
    requires numbers { (n : ℕ) → n < above → has_number pass.old.has n ≡ true }
    ensures kept { (pass.new.lock ≡ pass.old.lock) × (pass.new.turn ≡ false) }
    ensures numbers { (n : ℕ) → n < above - 1 → has_number pass.new.has n ≡ true }
    ensures given { (result.lock ≡ pass.old.lock) × (result.turn ≡ false) }
{
    lock.split(pass, above - 1)
}

/// So many turns in each of so many threads, each with a pass of its own.
pub fn spread<R: Threads + Wait + Sync>(
    rt: &R,
    lock: &TurnLock<Tally>,
    mut pass: Pass<Tally>,
    threads: u32,
    takes: u64,
)
    requires lock { (pass.lock ≡ lock.now) × (pass.turn ≡ false) }
    requires numbers { (n : ℕ) → n < threads → has_number pass.has n ≡ true }
{
    if threads < 2 {
        take_often(rt, lock, pass, takes);
        return;
    }
    let other = cut(lock, &mut pass, threads);
    join(
        rt,
        move ||
            requires { IsSync R.row × (pass.lock ≡ lock.now) × (pass.turn ≡ false) × (1 < threads)
                × ((n : ℕ) → n < threads - 1 → has_number pass.has n ≡ true) }
        { spread(rt, lock, pass, threads - 1, takes) },
        move ||
            requires { (other.lock ≡ lock.now) × (other.turn ≡ false) }
        { take_often(rt, lock, other, takes) },
    );
}

/// The ticks after so many turns in each of so many threads. None where there was no memory.
pub fn ticks_after<R: Threads + Wait + Sync>(
    rt: &R,
    alloc: Global,
    threads: u32,
    takes: u64,
) -> Option<u64>
    requires { threads ≤ 64 }
{
    let Some((lock, mut pass)) = tally_lock(alloc) else {
        return None;
    };
    let mut reader = cut(&lock, &mut pass, 65);
    spread(rt, &lock, pass, threads, takes);
    Some(lock.take(rt, &mut reader).value.ticks)
}
