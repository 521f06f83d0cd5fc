//! `routed audit` checks a file of replies against a journal and a file of requests.

use crate::devices::{Output, opened};
use crate::options::{Asked, Call, CommandOption, CommandText, JOURNAL, REPLIES, REQUESTS};
use crate::stopped::{Ran, ended};
use cspf_serve::{AnswersNone, Kinds, run_audit, run_audit_with_questions};

/// The command with its options.
pub const COMMAND: CommandText = CommandText {
    asked: Asked::Audit,
    name: "audit",
    about: "Checks a file of replies against a journal and a file of requests",
    help: HELP,
    options: &[
        CommandOption::Journal,
        CommandOption::Requests,
        CommandOption::Replies,
        CommandOption::Except,
        CommandOption::Pairs,
        CommandOption::Explain,
    ],
};

/// The help text below the options.
const HELP: &str = "\
The journal and the requests are files as in batch, and each request has an id of its own. The replies
are lines as batch and live write them. Lines that begin with version, applied or batch are
skipped. Every other line has to be the reply to its request at the version that it names, byte for
byte. With --except the requests may also have except rows, and with --pairs pair rows, as in solve,
and the replies have their lines. No two rows of the requests have one id, whatever their kinds.

Lines of standard output:
  line L unread              line L doesn't begin as a reply does, with ask (with --except or --pairs
                             also with except or pair), an id and a version
  line L foreign             no request has its id
  line L doubled             an earlier line has its id
  line L no-version          the journal has fewer batches than its version
  line L altered             it differs from the reply to its request at its version, if only by the
                             first word
  request ID unanswered      no line has the id of this request
  good=G faults=N            the last line: G lines have no fault
or one of these alone:
  journal torn after N       rows follow the N whole batches of the journal
  batch N refused: ..        a batch of the journal doesn't fit
  request row N refused: ..  a row of the requests can't be read, is no ask row (nor, with --except,
                             an except row, nor, with --pairs, a pair row), or has the id of an
                             earlier one: same-id
  too many rows              a file has more than 1,000,000 rows or lines

Each route is computed again: for an ask row by a plainer search than that of the other commands,
for an except row or a pair row as in solve.

Names of files are UTF-8. Rows and lines may be of any length that fits in memory. Standard output must
be in blocking mode. If it is a file that reaches the limit of its size (ulimit -f), the program ends by
the signal XFSZ, or with status 3 after trap '' XFSZ in the shell.

Status:
  0  there is no fault
  1  the command line was refused
  2  there is a fault, or a file was refused
  3  out of memory, or a file or another device failed; the last line of standard error is
     routed: stopped, and with --explain the line before it says why";

/// Checks the replies, and writes each fault on standard output. All files are opened before the first
/// row is read.
pub(crate) fn judge(call: &Call<'_, '_>, out: &mut Output<'_>) -> Ran {
    let mut journal = opened(call, JOURNAL)?;
    let mut requests = opened(call, REQUESTS)?;
    let mut replies = opened(call, REPLIES)?;
    let alloc = call.rt.alloc();
    let kinds = call.kinds();
    let ran = if kinds == AnswersNone::value() {
        run_audit(alloc, &mut journal, &mut requests, &mut replies, out)
    } else {
        run_audit_with_questions(alloc, kinds, &mut journal, &mut requests, &mut replies, out)
    };
    ended(
        ran,
        journal.fault().or(requests.fault()).or(replies.fault()),
    )
}
