//! `wasmhost [--settings FILE] [--workers N] [SCRIPT]`: reads a script of requests from a file, or from standard input, and writes
//! the replies. N threads run the calls: 1 to 64, and 4 without the option.
#![tactic(auto)]

use std::process::ExitCode;
use wasmhost_program::run;

fn main(rt: HostRuntime) -> ExitCode {
    run(rt)
}
