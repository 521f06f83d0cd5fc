//! `routed batch` applies the batches of a journal, and answers a file of requests.

use crate::devices::{Output, opened};
use crate::options::{ACCEPT_TORN, Asked, Call, CommandOption, CommandText, JOURNAL, REQUESTS};
use crate::stopped::{Ran, ended};
use cspf_serve::{NoGate, run_batch_with};
use std::sync::Wait;
use std::thread::Threads;

/// The command with its options.
pub const COMMAND: CommandText = CommandText {
    asked: Asked::Batch,
    name: "batch",
    about: "Applies the batches of a journal, and answers requests on standard output",
    help: HELP,
    options: &[
        CommandOption::Journal,
        CommandOption::Requests,
        CommandOption::Workers,
        CommandOption::Trees,
        CommandOption::AcceptTorn,
        CommandOption::Explain,
    ],
};

/// The help text below the options.
const HELP: &str = "\
The journal is a file of put, drop, node and end rows: batches with the numbers 1, 2, 3 and so on.
The requests are a file of ask rows, which are answered at the last version. Both files are read
before the first batch is applied.

Lines of standard output:
  version V                  a batch is accepted
  ask ID vV route ..         a request is answered at version V; also none, unknown-from, unknown-to
  journal torn after N       rows follow the N whole batches, and --accept-torn wasn't given
  request row N refused: ..  a row of the requests can't be read, or is no ask row
  batch N refused: ..        a batch doesn't fit, and nothing is answered
  too many rows              a file has more than 1,000,000 rows

Names of files are UTF-8. Rows may be of any length that fits in memory. Standard output must be in
blocking mode. If it is a file that reaches the limit of its size (ulimit -f), the program ends by the
signal XFSZ, or with status 3 after trap '' XFSZ in the shell.

Status:
  0  everything was accepted
  1  the command line was refused
  2  the journal, a row or a batch was refused
  3  out of memory, or a file or another device failed; the last line of standard error is
     routed: stopped, and with --explain the line before it says why";

/// Applies the batches and answers the requests on standard output. The files are opened before the
/// first row is read.
pub(crate) fn answer<T: Threads + Wait + Sync>(
    call: &Call<'_, '_>,
    handle: &T,
    out: &mut Output<'_>,
) -> Ran {
    let mut journal = opened(call, JOURNAL)?;
    let mut requests = opened(call, REQUESTS)?;
    let ran = run_batch_with(
        handle,
        call.rt.alloc(),
        &mut journal,
        &mut requests,
        out,
        call.workers(),
        call.has(ACCEPT_TORN),
        &NoGate,
        call.run_options(),
    );
    ended(ran, journal.fault().or(requests.fault()))
}
