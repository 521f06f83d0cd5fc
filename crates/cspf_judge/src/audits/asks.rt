//! Rows that ask, and the lines that answer them, as an audit sees both.

ghost use Rattle.std.specs.Prelude.{IsTrue, ◌↔◌, ◌≡◌, IfOk, IfSome, IfNone, OnOk};
ghost use Rattle.cspf_judge.specs.Asks.{AskSpec, HasOneBeginning, IsJudged};
ghost use Rattle.cspf_judge.specs.Findings.{HasNoBeginning, IsNeverSkipped, IsRightReply};

use crate::audits::comparing::is_line;
use cspf_db::Table;
use cspf_ero::{Head, one_reply_line, reply_head, reply_line};
use cspf_model::{Request, one_best_answer};
use cspf_search::best_by_rounds;
use std::alloc::{AllocError, Global};

/// A row that asks.
pub(crate) trait Asks {
    /// How the row is known, how a line begins that answers such a row, and which line is the right
    /// answer.
    ghost spec: { AskSpec Self };

    /// The id of the row.
    fn id(&self) -> u64
        ensures { result ≡ spec.id self.now };

    /// The id and the version with which a line begins that answers such a row, or `None` if the line
    /// doesn't begin like this.
    fn head(alloc: Global, line: &[u8]) -> Result<Option<Head>, AllocError>
        ensures some { IfOk result (λ head. IfSome head (spec.begins line.now)) }
        ensures none { IfOk result (λ head. IfNone head (HasNoBeginning spec line.now)) };

    /// Whether a line is the right answer to the row at a version. The table has the database of that
    /// version.
    fn is_answer(
        &self,
        alloc: Global,
        table: &Table,
        version: u32,
        line: &[u8],
    ) -> Result<bool, AllocError>
        ensures { IfOk result (IsJudged spec table.now self.now version line.now) };

    /// Law: a line begins with at most one id and version.
    ghost one_head: { HasOneBeginning spec };

    /// Law: a line that the audit skips doesn't begin as an answer.
    ghost none_skipped: { IsNeverSkipped spec };
}

/// Whether a line is the right reply to a request at a version. The table has the database of that
/// version.
fn is_right_reply(
    alloc: Global,
    table: &Table,
    request: &Request,
    version: u32,
    line: &[u8],
) -> Result<bool, AllocError>
    ensures { IfOk result (λ right. IsTrue right
        ↔ IsRightReply table.now request.now version line.now) }
{
    // Laws: a request has only one best answer in a database, and an answer has only one reply line.
    one_best_answer();
    one_reply_line();
    let outcome = best_by_rounds(alloc, table, request)?;
    let reply = reply_line(alloc, request.id, version, &outcome)?;
    Ok(is_line(line, &reply))
}

/// `ask` rows. The right answer is computed by a plainer search than that of the other commands.
impl Asks for Request {
    ghost use Rattle.cspf_judge.specs.Findings.{request_spec};
    ghost use Rattle.cspf_ero.proofs.HeadReading.{one_head as one_head_of_line};
    ghost use Rattle.cspf_judge.specs.SkippedLines.{no_head_skipped};

    ghost spec = { request_spec };

    fn id(&self) -> u64 {
        self.id
    }

    fn head(_alloc: Global, line: &[u8]) -> Result<Option<Head>, AllocError> {
        Ok(reply_head(line))
    }

    fn is_answer(
        &self,
        alloc: Global,
        table: &Table,
        version: u32,
        line: &[u8],
    ) -> Result<bool, AllocError> {
        is_right_reply(alloc, table, self, version, line)
    }

    ghost one_head = { one_head_of_line };

    ghost none_skipped = { no_head_skipped };
}
