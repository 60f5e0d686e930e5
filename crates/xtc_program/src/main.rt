//! The program `xtc`: what it does is `run_process`. Its stored run is a script of several sessions on a store with one commit: refusals, bad lines, waits for another's end, a deadlock, new labels between neighbours, texts of characters with one to four bytes, and a document down to the deepest level.
#![tactic(auto)]

use std::process::ExitCode;
use xtc_process::run_process;

fn main(rt: HostRuntime) -> ExitCode {
    run_process(&rt, &rt)
}
