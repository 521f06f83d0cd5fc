//! The audit itself: it reads the journal, the requests and the replies, in this order, and then
//! judges each line of the replies.

ghost use Rattle.std.specs.Prelude.{◌≤◌, length, IfOk, IfErr, IfSome};
ghost use Rattle.cspf_rows.specs.declared.limits.TheConstants.{MOST_ROWS};
ghost use Rattle.cspf_rows.specs.Records.{rows_of};
ghost use Rattle.cspf_judge.specs.Audits.{IsAuditBy};
ghost use Rattle.cspf_judge.specs.AuditErrors.{IsAuditOf, IsAuditError};
ghost use Rattle.cspf_judge.specs.QuestionAudits.{IsQuestionAuditOf, IsQuestionAuditError};
ghost use Rattle.cspf_judge.specs.Requests.{HaveOwnIdsBy};
ghost use Rattle.cspf_judge.specs.Reading.{ArePlaces, ArePlansUpTo};

use crate::AuditError;
use crate::audits::asks::Asks;
use crate::audits::comparing::compare_all;
use crate::audits::faults::Audit;
use crate::audits::ids::index_ids;
use crate::audits::journal::{LawfulJournal, lawful_journal};
use crate::audits::lines::{ReplyLine, read_lines};
use crate::audits::question_audit_error::QuestionAuditError;
use crate::audits::replies::read_replies;
use crate::audits::reporting::report;
use cspf_db::Plan;
use cspf_model::Batch;
use cspf_questions::{QuestionKinds, read_asked};
use cspf_rows::read_requests;
use std::alloc::{AllocError, Global};
use std::collections::BTreeMap;
use std::io::Read;

/// Audits replies. Each line names a request and a version of the journal, and has to be the reply
/// to this request at this version. `best_by_rounds` computes the answer for this reply. A request
/// that no line answers is a fault, too. Lines whose first word is `version`, `applied` or `batch`
/// are skipped. Each stream is read whole. A stream with more than `MOST_ROWS` rows or lines is
/// refused.
pub fn audit<R: Read + Drop, Q: Read + Drop, P: Read + Drop>(
    alloc: Global,
    journal: R,
    requests: Q,
    replies: P,
) -> Result<Audit, AuditError>
    ensures whole { IfOk result (λ audit. IfSome (R.remaining journal) (λ kept.
        IfSome (Q.remaining requests) (λ asked. IfSome (P.remaining replies) (λ said.
        IsAuditOf (rows_of kept) (rows_of asked) said audit)))) }
    ensures err { IfErr result
        (IsAuditError (R.remaining journal) (Q.remaining requests) (P.remaining replies)) }
{
    let LawfulJournal { batches, plans } = lawful_journal(alloc, journal)?;
    let requests = read_requests(alloc, requests)?;
    let ids = index_ids(alloc, &requests)?;
    let lines = read_lines(alloc, replies)?;
    Ok(audit_lines(alloc, &batches, &plans, &requests, &ids, &lines)?)
}

/// Audits replies to rows that ask, `ask` rows and the rows of questions of these kinds. It does the
/// same as `audit`. A line has to be the right answer to the row that has its id, and rows of all kinds
/// have distinct ids. For the row of a question this is the line that answers it.
pub fn audit_with_questions<R: Read + Drop, Q: Read + Drop, P: Read + Drop>(
    alloc: Global,
    kinds: QuestionKinds,
    journal: R,
    requests: Q,
    replies: P,
) -> Result<Audit, QuestionAuditError>
    ensures whole { IfOk result (λ audit. IfSome (R.remaining journal) (λ kept.
        IfSome (Q.remaining requests) (λ asked. IfSome (P.remaining replies) (λ said.
        IsQuestionAuditOf kinds (rows_of kept) (rows_of asked) said audit)))) }
    ensures err { IfErr result (IsQuestionAuditError kinds
        (R.remaining journal) (Q.remaining requests) (P.remaining replies)) }
{
    let LawfulJournal { batches, plans } = lawful_journal(alloc, journal)?;
    let rows = read_asked(alloc, kinds, requests)?;
    let ids = index_ids(alloc, &rows)?;
    let said = read_lines(alloc, replies)?;
    Ok(audit_lines(alloc, &batches, &plans, &rows, &ids, &said)?)
}

/// Audits the lines of the replies.
fn audit_lines<A: Asks>(
    alloc: Global,
    batches: &[Batch],
    plans: &[Plan],
    requests: &[A],
    ids: &BTreeMap<u64, usize>,
    lines: &[ReplyLine],
) -> Result<Audit, AllocError>
    requires planned { ArePlansUpTo batches.now plans.now (length batches.now) }
    requires places { ArePlaces A.spec.id ids.now requests.now }
    requires own { HaveOwnIdsBy A.spec.id requests.now }
    requires most { length lines.now ≤ MOST_ROWS }
    ensures { IfOk result (IsAuditBy A.spec batches.now requests.now lines.now) }
{
    let mut replies = read_replies(alloc, lines, requests, ids, batches.len())?;
    replies.claims.sort_by_key(|claim| claim.version)?;
    compare_all(
        alloc,
        batches,
        plans,
        requests,
        lines,
        &replies.claims,
        &mut replies.findings,
    )?;
    report(alloc, &replies.findings, requests, &replies.named)
}
