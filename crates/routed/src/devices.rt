//! The files and the standard streams of a run, each with its name.

use crate::limited::Limited;
use crate::noted::Noted;
use crate::options::Call;
use crate::stopped::{Ran, Stopped};
use std::fs::{File, OpenOptions};
use std::io;
use std::io::{BufWriter, Printer, Write};

/// The name of standard input in the lines of `--explain`.
pub const INPUT: &str = "standard input";

/// The name of standard output in the lines of `--explain`.
pub const OUTPUT: &str = "standard output";

/// A device from which no bytes are read.
const NOTHING: &str = "/dev/null";

/// Standard output with a buffer.
pub type Output<'r> = Noted<BufWriter<Printer<'r, HostRuntime>>>;

/// A file that the run makes.
pub type NewFile = Noted<Limited<File>>;

/// Standard output with a buffer.
pub(crate) fn output<'r>(rt: &'r HostRuntime) -> Result<Output<'r>, Stopped> {
    match BufWriter::new(rt.alloc(), io::writer(rt)) {
        Ok(writer) => Ok(Noted::new(OUTPUT, writer)),
        Err(_) => Err(Stopped::Memory),
    }
}

/// Opens a file without bytes, if the system allows it.
fn held_place(rt: &HostRuntime) -> Option<File> {
    File::open(rt, NOTHING).ok()
}

/// Three open files. If standard streams are closed, these files take their descriptors. A file
/// that is opened later then gets another descriptor, so it isn't mistaken for a standard stream.
#[derive(Drop)]
pub(crate) struct HeldPlaces {
    _input: Option<File>,
    _output: Option<File>,
    _error: Option<File>,
}

/// Opens three files, which take the descriptors of closed standard streams.
pub(crate) fn held_places(rt: &HostRuntime) -> HeldPlaces {
    HeldPlaces {
        _input: held_place(rt),
        _output: held_place(rt),
        _error: held_place(rt),
    }
}

/// Opens the file that an option gives, for reading.
pub(crate) fn opened(call: &Call<'_, '_>, option: &'static str) -> Result<Noted<File>, Stopped> {
    match File::open(call.rt, call.value(option)) {
        Ok(file) => Ok(Noted::new(option, file)),
        Err(error) => Err(Stopped::at(option, "open", error)),
    }
}

/// Makes the file that an option gives, for writing. The file must not exist yet.
pub(crate) fn created(call: &Call<'_, '_>, option: &'static str) -> Result<NewFile, Stopped> {
    let made = OpenOptions::new()
        .write(true)
        .create_new(true)
        .open(call.rt, call.value(option));
    match made {
        Ok(file) => Ok(Noted::new(option, Limited::new(call.rt, file))),
        Err(error) => Err(Stopped::at(option, "open", error)),
    }
}

/// Flushes a writer, and returns the result of the run. If the flush fails, the error of the flush
/// is returned instead.
pub(crate) fn flushed<W: Write>(writer: &mut Noted<W>, ran: Ran) -> Ran {
    match writer.flush() {
        Ok(()) => ran,
        Err(error) => Err(Stopped::at(writer.name(), "flush", error)),
    }
}

/// Flushes standard output, and returns the result of the run. The result of a run that stopped may
/// not name the failed device yet. If a call on standard output failed, standard output is named
/// then.
pub(crate) fn finish(out: &mut Output<'_>, ran: Ran) -> Ran {
    match flushed(out, ran) {
        Ok(status) => Ok(status),
        Err(why) => Err(why.by(None, out.fault())),
    }
}
