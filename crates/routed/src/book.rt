//! `routed book` places requests of standard input, and counts the bandwidth that their routes
//! hold. Each line is written as soon as it is known.

use crate::devices::{INPUT, NewFile, OUTPUT, created, flushed, held_places};
use crate::noted::{Fault, Noted};
use crate::options::{
    ACCEPT_TORN, Asked, COMPACT, Call, CommandOption, CommandText, EXPLAIN, KEEP,
};
use crate::standard_error::{say_at, say_of};
use crate::statuses::UNFIT;
use crate::stopped::{Ran, Stopped};
use cspf_book_run::{CompactStop, run_book, run_compact, run_torn_compact};
use std::io::{Read, Write};
use std::{fmt, io, str};

/// The command with its options.
pub const COMMAND: CommandText = CommandText {
    asked: Asked::Book,
    name: "book",
    about: "Places requests of standard input one after the other, and counts their bandwidth",
    help: HELP,
    options: &[
        CommandOption::Keep,
        CommandOption::Compact,
        CommandOption::AcceptTornBook,
        CommandOption::Explain,
    ],
};

/// The help text below the options.
const HELP: &str = "\
Rows of standard input: put, drop, node, end and ask as for routed solve, and
  place,id,from,to,hold,bandwidth,exclude_any,include_any,include_all,hops
      places a request along its least admissible route, where its bandwidth is held at the priorities
      hold to 7 from then on; it takes the place of an earlier placement of the same id
  release,id
      takes out the placement with this id
  held,id,from,to,hold,bandwidth,exclude_any,include_any,include_all,hops,route
      restores a placement with the route that it has already, without a search; route has 16 hexadecimal
      digits for each link: the local address, and the router that the link leads to
  offer,id,from,to,hold,bandwidth,exclude_any,include_any,include_all,hops
      answers as place would, and places nothing
  show,id  left,router,local
      show a placement, and what is left of a link

The end rows number the batches of the base from 1. Placements leave less of the base's bandwidth. What
is asked and what is placed sees only the rest, at its own setup priority or, where it is placed, at 7.
Nothing is preempted.

Lines of standard output, each as soon as it is known:
  over ROUTER,LOCAL P        the batch leaves the link less at priority P than is counted on it; such
                             lines and those of lost routes come before the line of their batch
  lost ID                    the batch takes away the route of this placement
  base N vV                  base batch N is accepted, which makes version V
  ask ID vV route ..         a request is answered at version V; also none, unknown-from, unknown-to
  place ID vV route ..       a request is placed, which makes version V; or it is answered none,
                             unknown-from or unknown-to at version V, and nothing changes
  released ID vV             a placement is released, which makes version V
  held ID vV                 a placement is restored, which makes version V; before it come over lines
  offer ID vV route ..       what place would be answered at version V
  show ID vV from=.. to=..   a placement: hold, bandwidth, links, and ROUTER,LOCAL of each link
  left ROUTER,LOCAL vV ..    base=, counted= and left=, each with bandwidths at the priorities 0 to 7
  place ID refused: ..       twice, long, full, links or exhausted, and so for offer; release ID refused:
                             absent or exhausted; held ID refused: same-id, full, long, twice, links or
                             exhausted; show and left refused: absent
  row N refused: ..          and batch N refused: .., unended K, too many rows

With --keep the accepted rows go to a new file, each before its lines: of a base batch its rows with the
end row, and each row that places a route, releases or restores. A new run makes the same book of them,
and goes on:
  cat FILE - | routed book --keep NEXT
A file that is there already is left as it is. If a write to it fails after W bytes of a row, or of a
batch, the row is refused by keep W, and each later end, place, held, offer and release row by stopped;
other rows are answered on. The W bytes may stay at the end of the file. Before it is read, take out what
follows its last whole line that begins with end, place, held or release, or use --accept-torn.

With --compact standard output has few rows that make the same book, and nothing before them: a
snapshot of the base (routed snapshot --help) in at most 5 batches, then a held row for each placement.
Versions and the numbers of batches begin anew there. Any number of rows is read, so a book goes on day
after day:
  routed book --compact --accept-torn < KEPT > BEGIN
  cat BEGIN - | routed book --keep NEXT
If a row is refused, or changes are open at the end, standard output has only the line that says so.
--accept-torn leaves out what follows the last whole line that begins with end, place, held or release, as
a crash may leave it. It keeps all rows in memory.

Rows may be of any length that fits in memory. Standard output must be in blocking mode. If its reader
exits early (routed book | head -1), the status is 3. A file that reaches the limit of its size
(ulimit -f) ends the program by the signal XFSZ, or with status 3 after trap '' XFSZ in the shell.

Status:
  0  everything was accepted
  1  the command line was refused
  2  a row, a batch, or a row about a placement was refused, or there were more than 1,000,000 rows
  3  out of memory, standard input or output failed, or the file of --keep exists already or can't be
     made; the last line of standard error is routed: stopped, and with --explain the line before it
     says why
With --explain a line says which write to the file of --keep failed; with --compact which row is refused,
and how many bytes are left out.";

/// Answers the rows of standard input on standard output. With `--keep` the accepted rows are
/// written to a new file. The lines that were written before a fault remain. With `--compact` the
/// rows of a snapshot and `held` rows that make the same book are written.
pub(crate) fn answer(call: &Call<'_, '_>) -> Ran {
    if call.has(COMPACT) {
        write_compact(call)
    } else if call.gives(KEEP) {
        // If standard streams are closed, other files take their descriptors. So the new file isn't
        // mistaken for a standard stream.
        let _held = held_places(call.rt);
        let mut keep = created(call, KEEP)?;
        let ran = answer_rows(call.rt, &mut keep);
        explain_fault(call, KEEP, &keep);
        flushed(&mut keep, ran)
    } else {
        answer_rows(call.rt, &mut Noted::new(KEEP, io::sink()))
    }
}

/// With `--explain`, writes which call on the file that an option gives failed, if one failed.
pub(crate) fn explain_fault(call: &Call<'_, '_>, option: &str, file: &NewFile) {
    if call.has(EXPLAIN) {
        if let Some(fault) = file.fault() {
            say_at(call.rt, option, call.value(option), &fault);
        }
    }
}

/// Answers the rows of standard input. The accepted rows are written to `keep`.
fn answer_rows<K: Write>(rt: &HostRuntime, keep: &mut Noted<K>) -> Ran {
    let mut reader = Noted::new(INPUT, rt.reader());
    let mut out = Noted::new(OUTPUT, io::writer(rt));
    let (ran, _keep) = run_book(rt.alloc(), &mut reader, &mut out, keep);
    match ran {
        Ok(summary) => flushed(&mut out, Ok(summary.status())),
        Err(error) => Err(Stopped::Solve(error).by(reader.fault(), out.fault())),
    }
}

/// Writes few rows that make the book of standard input. If a row is refused or changes are
/// open at the end, writes the line that says so.
fn write_compact(call: &Call<'_, '_>) -> Ran {
    let mut reader = Noted::new(INPUT, call.rt.reader());
    match compacted(call, &mut reader) {
        Ok(text) => write_all(call, &text, 0),
        Err(why) => write_refused(call, INPUT, why, reader.fault()),
    }
}

/// Writes the line that refuses the rows of a file or stream with this name. `read` is the last call
/// on it that failed, if any.
pub(crate) fn write_refused(
    call: &Call<'_, '_>,
    name: &str,
    why: CompactStop,
    read: Option<Fault>,
) -> Ran {
    match why {
        CompactStop::Refused { row, line } => {
            explain_refused(call, name, Some(row), &line);
            write_all(call, &line, UNFIT)
        }
        CompactStop::Unended { line } => {
            explain_refused(call, name, None, &line);
            write_all(call, &line, UNFIT)
        }
        CompactStop::Stream(error) => Err(Stopped::Stream(error).by(read, None)),
    }
}

/// The rows that make the book of standard input. With `--accept-torn` the end of the input
/// may be torn, and with `--explain` a line says how much is left out.
fn compacted<R: Read + Drop>(call: &Call<'_, '_>, reader: R) -> Result<Vec<u8>, CompactStop> {
    if !call.has(ACCEPT_TORN) {
        return run_compact(call.rt.alloc(), reader);
    }
    let (made, left) = run_torn_compact(call.rt.alloc(), reader);
    if call.has(EXPLAIN) && left > 0 {
        say_of(call.rt, INPUT, &LeftOut { bytes: left });
    }
    made
}

/// Writes a text to standard output, and returns the status.
fn write_all(call: &Call<'_, '_>, text: &[u8], status: u8) -> Ran {
    let mut out = Noted::new(OUTPUT, io::writer(call.rt));
    match out.write_all(text) {
        Ok(()) => flushed(&mut out, Ok(status)),
        Err(error) => Err(Stopped::at(OUTPUT, "write", error)),
    }
}

/// With `--explain`, writes which row is refused, and why. Without a row, it is the end of the rows.
fn explain_refused(call: &Call<'_, '_>, name: &str, row: Option<u64>, line: &[u8]) {
    if call.has(EXPLAIN) {
        if let Ok(line) = str::from_utf8(line) {
            let line = line.trim_end();
            match row {
                Some(row) => say_of(call.rt, name, &RefusedLine { row, line }),
                None => say_of(call.rt, name, &line),
            }
        }
    }
}

/// A row that is refused, and the line that refuses it.
#[derive(Clone, Copy)]
struct RefusedLine<'a> {
    row: u64,
    line: &'a str,
}

impl<'a> fmt::Display for RefusedLine<'a> {
    fn fmt<W: fmt::Write>(&self, f: &mut fmt::Formatter<W>) -> fmt::Result {
        write!(f, "row {}: {}", self.row, self.line)
    }
}

/// How many bytes of a torn input are left out.
#[derive(Clone, Copy)]
struct LeftOut {
    bytes: usize,
}

impl fmt::Display for LeftOut {
    fn fmt<W: fmt::Write>(&self, f: &mut fmt::Formatter<W>) -> fmt::Result {
        write!(f, "{} bytes left out", self.bytes)
    }
}
