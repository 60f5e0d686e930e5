//! Cuts maps into pages, walks over them upward and downward, and opens each file once more with a byte changed; prints a line for each.
//! A line of the input is any text, of which a map is made by chance. The stored run's lines are those of a second program, `tools/cut_pages`, which was written from docs/FILE_FORMAT.md.
#![tactic(auto)]

mod checksum;
mod maps;
mod trial;

use crate::trial::trial_of;
use std::process::ExitCode;

fn main(rt: HostRuntime) -> ExitCode {
    let alloc = rt.alloc();
    for line in rt.lines(alloc) {
        let Ok(line) = line else {
            return ExitCode::from(5);
        };
        let Ok(text) = trial_of(alloc, &line) else {
            return ExitCode::from(8);
        };
        if println!(rt; "{line}: {text}").is_err() {
            return ExitCode::from(6);
        }
    }
    ExitCode::SUCCESS
}
