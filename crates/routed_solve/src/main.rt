//! `routed_solve` answers the rows of standard input on standard output, as `routed solve` does
//! without options. Its lines and its status are those of `run_solve`, which both programs call.
//! Only the crates below `cspf_solve` have to be proved for it, so `tools/build --solve` builds it in
//! half the time of `routed`.
//!
//! The status is 0 if everything was accepted, 1 if the program was given arguments, and 2 if a row
//! or a batch was refused. The status is 3 if memory was refused or a device failed.
#![tactic(auto)]

use cspf_solve::{RunOptions, run_solve_with};
use std::io::Write;
use std::process::ExitCode;
use std::{env, io};

/// The status if the program was given arguments.
const REFUSED: u8 = 1;

/// The status if memory was refused or a device failed.
const STOPPED: u8 = 3;

/// Whether the program was given no arguments.
fn has_no_arguments(rt: &HostRuntime) -> bool {
    match env::args(rt) {
        Ok(words) => words.len() <= 1,
        Err(_) => false,
    }
}

/// Answers the rows of standard input, and flushes standard output. Returns the status.
fn answer(rt: &HostRuntime) -> u8 {
    let mut out = io::writer(rt);
    match run_solve_with(rt.alloc(), rt.reader(), &mut out, RunOptions::new()) {
        Ok(summary) if out.flush().is_ok() => summary.status(),
        _ => {
            let _ = eprintln!(rt; "routed_solve: stopped");
            STOPPED
        }
    }
}

/// Answers the rows if the program was given no arguments. Returns the status.
fn run(rt: &HostRuntime) -> u8 {
    if has_no_arguments(rt) {
        return answer(rt);
    }
    let _ = eprintln!(rt;
        "routed_solve: there are no arguments: it reads rows from standard input"
    );
    REFUSED
}

fn main(rt: HostRuntime) -> ExitCode {
    ExitCode::from(run(&rt))
}
