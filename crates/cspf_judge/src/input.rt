//! Reads the journal and the requests of a run, or makes the line that refuses them.

ghost use Rattle.std.specs.Prelude.{◌≡◌, ◌≤◌, List, ℕ, true, false, length, IfOk, IfErr, OnOk, OnErr, IfSome};
ghost use Rattle.cspf_rows.specs.Records.{rows_of};
ghost use Rattle.cspf_rows.specs.declared.journal.Rest.TheVariants.{Torn as IsTorn};
ghost use Rattle.cspf_rows.specs.declared.limits.TheConstants.{MOST_ROWS};
ghost use Rattle.cspf_judge.specs.Inputs.{torn_line, AreBatchesOf, IsJournalRefused, AreRequestsOf, AreRequestsRefused, IsFaultLine};
ghost use Rattle.cspf_judge.specs.EarlyEnds.{IfRefused, IfFailed, IsJournalLine, IsJournalError, IsRequestsError};
ghost use Rattle.cspf_model.specs.declared.limits.TheConstants.{MOST_VERSIONS};

use crate::{EarlyEnd, JudgeError, JudgeLine};
use cspf_model::{Batch, Request};
use cspf_rows::{Journal, ReadError, RequestsError, Rest, RowError, read_journal, read_requests};
use cspf_stream::StreamLine;
use std::alloc::Global;
use std::io::Read;

/// Reads the batches of a journal. If `accept_torn` is true, rows after the last whole batch are
/// skipped. If it is false, a journal with such rows is refused.
pub fn batches_of<R: Read + Drop>(
    alloc: Global,
    journal: R,
    accept_torn: bool,
) -> Result<Vec<Batch>, EarlyEnd>
    ensures ok { IfOk result (λ batches. IfSome (R.remaining journal) (λ bytes.
        AreBatchesOf accept_torn (rows_of bytes) batches.items)) }
    ensures most { IfOk result (λ batches. length batches.items ≤ MOST_VERSIONS) }
    ensures err { IfErr result (λ end. IfRefused end (λ line.
        IfSome (R.remaining journal) (λ bytes.
        IsJournalRefused accept_torn (rows_of bytes) line))) }
{
    match read_journal(alloc, journal) {
        Ok(journal) => whole_batches(journal, accept_torn),
        Err(error) => Err(journal_end_of(error)),
    }
}

/// How a run ends if its journal can't be read.
pub fn journal_end_of(error: ReadError) -> EarlyEnd
    ensures refused { IfRefused result (IsJournalLine error) }
    ensures failed { IfFailed result (IsJournalError error) }
{
    match error {
        ReadError::Memory => EarlyEnd::Failed(JudgeError::Memory),
        ReadError::Device => EarlyEnd::Failed(JudgeError::Device),
        ReadError::TooManyRows => EarlyEnd::Refused(JudgeLine::Stream(StreamLine::TooManyRows)),
    }
}

/// The batches of a journal that was read. If `accept_torn` is false, a torn journal is refused:
/// one with rows after the last whole batch.
fn whole_batches(journal: Journal, accept_torn: bool) -> Result<Vec<Batch>, EarlyEnd>
    ensures ok { IfOk result (λ batches. (batches.items ≡ journal.batches.items)
        × (journal.rest ≡ IsTorn → accept_torn ≡ true)) }
    ensures err { IfErr result (λ end. IfRefused end (λ line. (journal.rest ≡ IsTorn)
        × (accept_torn ≡ false) × (line ≡ torn_line (length journal.batches.items)))) }
    ensures failed { IfErr result (λ end. IfFailed end (λ e. ⊥)) }
{
    accept_rest(journal.rest, journal.batches.len(), accept_torn)?;
    Ok(journal.batches)
}

/// Refuses a torn journal of `count` batches, if `accept_torn` is false.
pub fn accept_rest(rest: Rest, count: usize, accept_torn: bool) -> Result<(), EarlyEnd>
    ensures ok { OnOk result (rest ≡ IsTorn → accept_torn ≡ true) }
    ensures err { IfErr result (λ end. IfRefused end (λ line. (rest ≡ IsTorn)
        × (accept_torn ≡ false) × (line ≡ torn_line count))) }
    ensures failed { IfErr result (λ end. IfFailed end (λ e. ⊥)) }
{
    match rest {
        Rest::Torn if !accept_torn => Err(EarlyEnd::Refused(JudgeLine::Torn { count })),
        _ => Ok(()),
    }
}

/// Reads the requests of a stream, or returns how the run ends without them.
pub fn requests_of<R: Read + Drop>(alloc: Global, requests: R) -> Result<Vec<Request>, EarlyEnd>
    ensures ok { IfOk result (λ asked. IfSome (R.remaining requests) (λ bytes.
        AreRequestsOf (rows_of bytes) asked.items)) }
    ensures most { IfOk result (λ asked. length asked.items ≤ MOST_ROWS) }
    ensures err { IfErr result (λ end. IfRefused end (λ line.
        IfSome (R.remaining requests) (λ bytes. AreRequestsRefused (rows_of bytes) line))) }
{
    match read_requests(alloc, requests) {
        Ok(requests) => Ok(requests),
        Err(error) => Err(requests_end_of(error)),
    }
}

/// How a run ends if its requests can't be read.
pub(crate) fn requests_end_of(error: RequestsError) -> EarlyEnd
    ensures refused { IfRefused result (IsFaultLine error) }
    ensures failed { IfFailed result (IsRequestsError error) }
{
    let (row, error) = match error {
        RequestsError::Memory => return EarlyEnd::Failed(JudgeError::Memory),
        RequestsError::Device => return EarlyEnd::Failed(JudgeError::Device),
        RequestsError::TooManyRows => return EarlyEnd::Refused(JudgeLine::Stream(
            StreamLine::TooManyRows,
        )),
        RequestsError::Bad { row, error } => (row, error),
        RequestsError::NotAsk { row } => (row, RowError::Kind),
    };
    EarlyEnd::Refused(JudgeLine::RefusedRequest { row, error })
}
