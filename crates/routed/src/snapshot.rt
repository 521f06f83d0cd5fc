//! `routed snapshot` writes a few batches. From an empty database, these batches make the database
//! after the last batch of a journal.

use crate::devices::{Output, opened};
use crate::options::{ACCEPT_TORN, Asked, Call, CommandOption, CommandText, JOURNAL};
use crate::stopped::{Ran, ended};
use cspf_serve::run_snapshot;

/// The command with its options.
pub const COMMAND: CommandText = CommandText {
    asked: Asked::Snapshot,
    name: "snapshot",
    about: "Writes a few batches that make the last database of a journal from an empty one",
    help: HELP,
    options: &[
        CommandOption::Journal,
        CommandOption::AcceptTorn,
        CommandOption::Explain,
    ],
};

/// The help text below the options.
const HELP: &str = "\
The journal is a file of put, drop, node and end rows: batches with the numbers 1, 2, 3 and so on.
Standard output gets the rows of at most 5 batches, numbered from 1 on, which make the database of the
last version from an empty one: first the links in order of their routers and addresses, then the
routers without transit. An empty database needs no batch. A new run begins with them:
  routed snapshot --journal old.journal > begin
  cat begin - | routed serve --journal new.journal ..
Versions count from 0 again there, so a version means something only beside the journal of its run.

If the journal is refused, standard output has one line instead:
  journal torn after N       rows after batch N are no whole batch; --accept-torn leaves them out
  batch N refused: ..        batch N doesn't fit
  too many rows              the journal has more than 1,000,000 rows

Status:
  0  the batches were written
  1  the command line was refused
  2  the journal was refused
  3  out of memory, or a file or another device failed; the last line of standard error is
     routed: stopped, and with --explain the line before it says why";

/// Writes the batches on standard output.
pub(crate) fn write(call: &Call<'_, '_>, out: &mut Output<'_>) -> Ran {
    let mut journal = opened(call, JOURNAL)?;
    let ran = run_snapshot(call.rt.alloc(), &mut journal, out, call.has(ACCEPT_TORN));
    ended(ran, journal.fault())
}
