//! The program once more, with five words: a path that can't be read is refused with status 10, behind the options that follow it.
#![tactic(auto)]

use std::process::ExitCode;
use xtc_process::run_process;

fn main(rt: HostRuntime) -> ExitCode {
    run_process(&rt, &rt)
}
