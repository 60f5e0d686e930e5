//! Sessions of a store in threads: `shared_tests THREADS COUNT` moves that many amounts in each of so many threads between the texts of one document,
//! each move in a transaction that is tried anew after deadlocks, and prints the sum of all amounts, how many commits there were, and whether a plain model finds the store's book legal and serial.
//! With `book` behind it prints that book and the sum, as tools/replay_book reads them.
//! Without words it is a short run, which prints the same whatever thread comes first.
#![tactic(auto)]

#[cfg(test)]
mod tests;

use shared_cases::{Trouble, book_after, sums_after};
use std::alloc::Global;
use std::sync::Wait;
use std::thread::Threads;
use std::{env, io};

/// The number that a word tells, or `other`.
fn number(word: Option<String>, other: u32) -> u32 {
    match word {
        Some(word) => word.as_str().parse::<u32>().unwrap_or(other),
        None => other,
    }
}

fn is_book(word: Option<String>) -> bool {
    match word {
        Some(word) => word.as_str() == "book",
        None => false,
    }
}

fn sums_text<R: Threads + Wait + Sync>(
    rt: &R,
    alloc: Global,
    threads: u32,
    moves: u32,
) -> Result<String, Trouble> {
    let (sum, commits, by_model) = sums_after(rt, alloc, threads, moves)?;
    let found = if by_model == Some(sum) {
        "legal and serial"
    } else {
        "not as the model has it"
    };
    Ok(format!(in alloc; "sum {sum}, {commits} commits, {found}\n")?)
}

fn text_for<R: Threads + Wait + Sync>(
    rt: &R,
    alloc: Global,
    threads: u32,
    count: u32,
    word: Option<String>,
) -> Result<String, Trouble> {
    if is_book(word) {
        return book_after(rt, alloc, threads, count);
    }
    sums_text(rt, alloc, threads, count)
}

fn main(rt: HostRuntime) -> io::Result<()> {
    let mut words = env::args(&rt)?;
    let _program = words.next();
    let threads = number(words.next(), 4);
    let count = number(words.next(), 25);
    match text_for(&rt, rt.alloc(), threads, count, words.next()) {
        Ok(text) => print!(rt; "{text}"),
        Err(_) => println!(rt; "no memory"),
    }
}
