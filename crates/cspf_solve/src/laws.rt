ghost use Rattle.cspf_solve.specs.SolveLaws.{CountsByOne, GoesOnByOneRow, HaveOneReply, StopsAtAPrefix};

use cspf_ero::one_reply_line;
use cspf_model::{one_best_answer, one_refusal};

/// Law: each stream of rows has one output. Two runs over the same rows write the same lines and
/// have the same summary.
pub fn rows_have_one_reply()
    ensures { HaveOneReply }
{
    // Laws: a request has at most one best answer, an answer has one line, and a batch is refused
    // for at most one reason.
    one_best_answer();
    one_reply_line();
    one_refusal();
}

/// Law: the output of a run that stops before its end is a prefix of the output of the whole run.
pub fn stops_at_a_prefix()
    ensures { StopsAtAPrefix }
{
    // Laws: a request has at most one best answer, an answer has one line, and a batch is refused
    // for at most one reason.
    one_best_answer();
    one_reply_line();
    one_refusal();
}

/// Law: a run answers its rows one by one. If a run answers some rows and then one more row, it
/// answers the list of all these rows. The line of the last row then follows the other lines. The
/// answer to a row adds at most 1 to each count of the run.
pub fn runs_go_on_row_by_row()
    ensures more { GoesOnByOneRow }
    ensures counts { CountsByOne }
{}
