//! Does a script's lines in the sessions of a store in memory, over the transaction core, and prints the replies, each in its line.
//! A line `store LIMIT MOST` begins a new store whose transactions may be numbered up to LIMIT, and whose reads fail after at most MOST others (0 for never):
//! a call that ends with such a fault is made again, so the replies are those of a store whose reads don't fail. In a line, `@COUNT@` stands for so many `x`.
//! A line `inserts COUNT EVERY AT BEFORE` inserts so many elements before a child, the new one taking its place after each EVERY-th, and prints the last reply;
//! `length LINE` prints how many bytes the replies have, and `book` the store's book: a line an entry, with the grants and the count of faults of a failed attempt.
#![tactic(auto)]

mod failing_seq;
mod store;

use crate::failing_seq::FailingSeq;
use crate::store::{Trouble, book_text, do_inserts, do_line, new_store};
use std::alloc::Global;
use std::process::ExitCode;
use store_calls::StoreOp;
use tx_core::Core;

fn main(rt: HostRuntime) -> ExitCode {
    let alloc = rt.alloc();
    let Ok(mut core) = new_store(alloc, "4294967295", "0") else {
        return ExitCode::from(8);
    };
    for line in rt.lines(alloc) {
        let Ok(line) = line else {
            return ExitCode::from(5);
        };
        let text = match do_words(alloc, &line, &mut core) {
            Ok(text) => text,
            Err(Trouble::NoMemory) => return ExitCode::from(8),
            Err(Trouble::Fault) => return ExitCode::from(7),
        };
        if print!(rt; "{text}").is_err() {
            return ExitCode::from(6);
        }
    }
    ExitCode::SUCCESS
}

/// Does a line of the script, or what its first word asks for.
fn do_words(
    alloc: Global,
    line: &str,
    core: &mut Core<StoreOp, FailingSeq>,
) -> Result<String, Trouble> {
    let mut words = line.split(' ');
    match words.next() {
        Some("store") => {
            *core = new_store(
                alloc,
                words.next().unwrap_or(""),
                words.next().unwrap_or(""),
            )?;
            Ok(String::new(alloc))
        }
        Some("book") => book_text(alloc, core),
        Some("inserts") => do_inserts(alloc, line, core),
        Some("length") => {
            let text = do_line(alloc, words.next().unwrap_or(""), core)?;
            Ok(format!(in alloc; "{}\n", text.len().saturating_sub(1))?)
        }
        _ => do_line(alloc, line, core),
    }
}
