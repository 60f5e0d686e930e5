//! The program `xtc`: what it does is `run_process`. Its stored run has two words, `get x`, on a store with one commit that has the document.
#![tactic(auto)]

use std::process::ExitCode;
use xtc_process::run_process;

fn main(rt: HostRuntime) -> ExitCode {
    run_process(&rt, &rt)
}
