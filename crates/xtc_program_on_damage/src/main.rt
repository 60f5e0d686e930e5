//! The program `xtc` again: its stored run is on a damaged store, which is refused with status 4 and left as it is.
#![tactic(auto)]

use std::process::ExitCode;
use xtc_process::run_process;

fn main(rt: HostRuntime) -> ExitCode {
    run_process(&rt, &rt)
}
