//! Threads that take one turn, each so many times: `turn_tests THREADS TAKES`, and `times` behind it for how long a take and its give last.
//! Without words it is a short run, whose output is the same whatever thread comes first.
#![tactic(auto)]

mod roll;
mod tally;
#[cfg(test)]
mod tests;

use std::sync::{Mutex, Wait};
use std::thread::Threads;
use std::time::{Clock, Instant};
use std::{env, io};
use tally::{Tally, ticks_after};

/// The number that a word tells, or `other`.
fn number(word: Option<String>, other: u64) -> u64 {
    match word {
        Some(word) => word.as_str().parse::<u64>().unwrap_or(other),
        None => other,
    }
}

fn main(rt: HostRuntime) -> io::Result<()> {
    let mut words = env::args(&rt)?;
    let _program = words.next();
    let threads = number(words.next(), 4).clamp(1, 64);
    let takes = number(words.next(), 1000);
    let times = words.next().is_some();
    let start = Instant::now(&rt)?;
    let Some(ticks) = ticks_after(&rt, rt.alloc(), threads as u32, takes) else {
        return Ok(());
    };
    let together = start.elapsed(&rt)?;
    println!(rt; "{ticks} ticks")?;
    if times {
        println!(rt; "{threads} threads: {} ns for all", together.as_nanos())?;
        let start = Instant::now(&rt)?;
        let _ticks = ticks_after(&rt, rt.alloc(), 1, takes);
        println!(rt; "one thread: {} ns", start.elapsed(&rt)?.as_nanos())?;
        let start = Instant::now(&rt)?;
        let mutex = Mutex::new(Tally { ticks: 0 });
        tick_locked(&rt, &mutex, takes);
        println!(rt;
            "one thread at a mutex: {} ns",
            start.elapsed(&rt)?.as_nanos()
        )?;
    }
    Ok(())
}

/// As many ticks of a value behind the kit's mutex, to measure beside.
fn tick_locked<R: Wait>(rt: &R, mutex: &Mutex<Tally>, takes: u64) {
    for _ in 0..takes {
        mutex.lock(rt).tick();
    }
}
