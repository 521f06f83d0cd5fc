//! The command line: the command that it names, and how this command is run.

use crate::devices::{finish, held_places, output};
use crate::ends::end;
use crate::options::{Asked, Call, CommandText};
use crate::statuses::REFUSED;
use crate::stopped::Ran;
use crate::{audit, batch, book, live, serve, snapshot, solve};
use clap::{ArgMatches, Command, Error};
use std::alloc::{AllocError, Global};
use std::sync::Wait;
use std::thread::Threads;

/// The version that `routed --version` prints after the name.
const VERSION: &str = "0.9.0";

/// The description of the program in its help.
const ABOUT: &str = "A path computation server over a traffic engineering database";

/// The commands, in the order of the help. No other function names the commands' texts, because a
/// proof about these texts takes long.
fn texts() -> &'static [CommandText] {
    &[
        solve::COMMAND,
        batch::COMMAND,
        live::COMMAND,
        serve::COMMAND,
        snapshot::COMMAND,
        audit::COMMAND,
        book::COMMAND,
    ]
}

/// The program without its commands.
fn bare<'a>(alloc: Global) -> Command<'a> {
    Command::new(alloc, "routed")
        .about(ABOUT)
        .version(VERSION)
        .after_help(solve::HELP)
        .subcommand_required(true)
}

/// The program in the form that `clap` uses.
fn program<'a>(alloc: Global) -> Result<Command<'a>, AllocError> {
    let mut program = bare(alloc);
    for text in texts() {
        program = program.subcommand(text.command(alloc)?)?;
    }
    Ok(program)
}

/// Parses the command line: returns the command that it names, with its arguments.
pub(crate) fn parse<'a>(alloc: Global, words: &'a [String]) -> Result<ArgMatches<'a>, Error> {
    program(alloc)?.try_get_matches_from(words)
}

/// Runs the command of a command line that was accepted, and returns the status.
pub(crate) fn obey<'m, T: Threads + Wait + Sync>(
    rt: &'m HostRuntime,
    handle: &T,
    found: &'m ArgMatches<'_>,
) -> u8 {
    let Some((name, words)) = found.subcommand() else {
        return REFUSED;
    };
    for text in texts() {
        if text.name == name {
            return run(&Call { rt, words }, handle, text);
        }
    }
    REFUSED
}

/// Runs a command, and returns the status.
fn run<T: Threads + Wait + Sync>(call: &Call<'_, '_>, handle: &T, text: &CommandText) -> u8 {
    let ran = match text.asked {
        Asked::Solve => solve::answer(call),
        Asked::Book => book::answer(call),
        Asked::Serve => serve::answer(call, handle),
        Asked::Live => {
            // If standard streams are closed, other files take their descriptors. So the new
            // journal isn't mistaken for a standard stream.
            let _held = held_places(call.rt);
            run_buffered(call, handle, Asked::Live)
        }
        asked => run_buffered(call, handle, asked),
    };
    end(call, ran, text.options)
}

/// Runs a command whose output is buffered.
fn run_buffered<T: Threads + Wait + Sync>(call: &Call<'_, '_>, handle: &T, asked: Asked) -> Ran {
    let mut out = output(call.rt)?;
    let ran = match asked {
        Asked::Batch => batch::answer(call, handle, &mut out),
        Asked::Live => live::answer(call, handle, &mut out),
        Asked::Snapshot => snapshot::write(call, &mut out),
        _ => audit::judge(call, &mut out),
    };
    finish(&mut out, ran)
}
