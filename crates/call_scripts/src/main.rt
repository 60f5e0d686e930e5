//! Does the calls of a script's lines on a map in memory, one after another, and prints what each is answered, with the changes and the requests of its call.
//! Each call is made again with a fault at each of its reads, and the reads of its plan are counted: a line is printed where one of the two isn't as it must be.
//! The stored run's replies, changes and requests are those of a plain model of the calls, `tools/replay`.
#![tactic(auto)]

mod counted_seq;
mod plan_reads;
mod trial;

use crate::counted_seq::CountedSeq;
use crate::trial::do_line;
use std::process::ExitCode;

fn main(rt: HostRuntime) -> ExitCode {
    let alloc = rt.alloc();
    let mut map = CountedSeq::new(alloc);
    for line in rt.lines(alloc) {
        let Ok(line) = line else {
            return ExitCode::from(5);
        };
        let Ok(text) = do_line(alloc, &line, &mut map) else {
            return ExitCode::from(8);
        };
        if println!(rt; "{text}").is_err() {
            return ExitCode::from(6);
        }
    }
    ExitCode::SUCCESS
}
