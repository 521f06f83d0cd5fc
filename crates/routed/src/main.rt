//! `routed` answers route requests over a traffic engineering database. `command_line.rt` reads the
//! command line, which names one of the commands `solve`, `batch`, `live`, `serve`, `snapshot`,
//! `audit` and `book`. Each command has a source file with its name.
//!
//! The status is 0 if nothing was refused, 1 if the command line was refused, and 2 if something
//! else was refused or the audit found a fault. The status is 3 if memory was refused or a device
//! failed.
#![tactic(auto)]

mod audit;
mod batch;
mod book;
mod bounded;
mod client_files;
mod client_list;
mod command_line;
mod devices;
mod ends;
mod figures;
mod limited;
mod live;
mod noted;
mod options;
mod refused_rows;
mod seats;
mod serve;
mod served_book;
mod snapshot;
mod solve;
mod stack;
mod standard_error;
mod statuses;
mod stopped;

use clap::error::ErrorKind;
use command_line::{obey, parse};
use standard_error::stop;
use statuses::REFUSED;
use std::process::ExitCode;
use std::sync::Wait;
use std::thread::Threads;
use std::{env, io};

/// Runs the command that the arguments name. If the arguments are refused, writes why on standard
/// error. A failure of this write is ignored.
fn run<T: Threads + Wait + Sync>(rt: &HostRuntime, handle: &T, words: &[String]) -> u8 {
    match parse(rt.alloc(), words) {
        Ok(found) => obey(rt, handle, &found),
        Err(fault) if fault.kind() == ErrorKind::OutOfMemory => stop(rt),
        Err(fault) => {
            let _ = rt.eprint(fault);
            REFUSED
        }
    }
}

/// Reads the command line and runs its command.
fn start<T: Threads + Wait + Sync>(rt: &HostRuntime, handle: &T) -> u8 {
    match env::args(rt) {
        Ok(args) => {
            let words: Result<Vec<String>, _> = args.collect(rt.alloc());
            match words {
                Ok(words) => run(rt, handle, &words),
                Err(_) => stop(rt),
            }
        }
        Err(fault) if fault.kind() == io::ErrorKind::OutOfMemory => stop(rt),
        Err(_) => {
            let _ = eprintln!(rt; "routed: the command line is no text");
            REFUSED
        }
    }
}

fn main(rt: HostRuntime) -> ExitCode {
    ExitCode::from(start(&rt, &rt))
}
