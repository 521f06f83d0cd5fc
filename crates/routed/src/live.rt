//! `routed live` applies batches to a new journal while it answers a file of requests.

use crate::devices::{Output, created, flushed, opened};
use crate::options::{Asked, Call, CommandOption, CommandText, JOURNAL, REQUESTS, UPDATES};
use crate::stopped::{Ran, ended};
use cspf_serve::{NoGate, run_live_rows_with};
use std::sync::Wait;
use std::thread::Threads;

/// The command with its options.
pub const COMMAND: CommandText = CommandText {
    asked: Asked::Live,
    name: "live",
    about: "Applies batches to a new journal while requests are answered on standard output",
    help: HELP,
    options: &[
        CommandOption::Updates,
        CommandOption::Requests,
        CommandOption::NewJournal,
        CommandOption::Workers,
        CommandOption::Trees,
        CommandOption::Explain,
    ],
};

/// The help text below the options.
const HELP: &str = "\
The updates are a file of put, drop, node and end rows, and the requests a file of ask rows, both
as in batch. Both are read before the first batch is applied. Each batch is written whole to the new
journal before it is published. Meanwhile the workers answer the requests, each at the newest version
at that moment.

Lines of standard output:
  ask ID vV route ..         a request is answered at version V; also none, unknown-from, unknown-to
  applied K                  after the replies: how many batches were applied
  batch N refused: ..        the first batch that wasn't applied, if any; also memory, and journal W
                             if the journal failed after W bytes of the batch
  journal torn after N       rows follow the N whole batches of the updates
  request row N refused: ..  a row of the requests can't be read, or is no ask row
  too many rows              a file has more than 1,000,000 rows

Before the first batch is published, requests are answered at version 0, which has no routers. If the
updates or the requests are refused, the journal stays empty. A journal that reaches the limit of a
file's size (ulimit -f) is refused as on a full device: journal W.

Names of files are UTF-8. Rows may be of any length that fits in memory. Standard output must be in
blocking mode. If it is a file that reaches the limit of its size, the program ends by the
signal XFSZ, or with status 3 after trap '' XFSZ in the shell.

Status:
  0  everything was accepted
  1  the command line was refused
  2  the updates, a row or a batch was refused
  3  out of memory, a file or another device failed, or the journal exists already; the last line of
     standard error is routed: stopped, and with --explain the line before it says why";

/// Applies the batches and answers the requests on standard output. The files are opened before the
/// first row is read. The journal is opened last. If the journal exists already, it isn't changed.
pub(crate) fn answer<T: Threads + Wait + Sync>(
    call: &Call<'_, '_>,
    handle: &T,
    out: &mut Output<'_>,
) -> Ran {
    let mut updates = opened(call, UPDATES)?;
    let mut requests = opened(call, REQUESTS)?;
    let mut journal = created(call, JOURNAL)?;
    let (ran, _journal) = run_live_rows_with(
        handle,
        call.rt.alloc(),
        &mut updates,
        &mut requests,
        &mut journal,
        out,
        call.workers(),
        &NoGate,
        call.run_options(),
    );
    // If a write to the journal fails, a batch is refused, and the run continues.
    flushed(
        &mut journal,
        ended(ran, updates.fault().or(requests.fault())),
    )
}
