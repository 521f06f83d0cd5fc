//! The run of `audit`: it reads three streams, and writes a line for each fault and a line with the
//! number of good lines.

ghost use Rattle.std.specs.Prelude.{◌≡◌, ℕ, IfOk, OnOk, OnErr};
ghost use Rattle.std.specs.Io.KnownBytes.{Appends};
ghost use Rattle.cspf_judge.specs.AuditRun.{IsAuditErrorLine, IsAuditRun, IsQuestionAuditErrorLine, IsQuestionAuditRun, audit_lines, audit_status};
ghost use Rattle.cspf_judge.specs.EarlyEnds.{IfRefused, IfFailed, IsAuditFailure, IsQuestionAuditFailure, HasBegun, Writes, WritesFront};

use crate::input::requests_end_of;
use crate::{
    Audit, AuditError, EarlyEnd, JudgeError, JudgeLine, QuestionAuditError, audit,
    audit_with_questions, put_line, refuse,
};
use cspf_questions::QuestionKinds;
use cspf_stream::{BatchRefusal, StreamLine};
use std::alloc::Global;
use std::io::{Read, Write};

/// Audits replies against a journal and requests. Writes a line for each fault, and then a line
/// with the numbers of good lines and of faults. `IsAuditRun` defines these lines. Streams that
/// can't be audited are refused with one line. Returns the status: 0 if there is no fault and no
/// refusal, and 2 otherwise. If an error is returned, the writer has a prefix of these lines,
/// perhaps none of them. The writer isn't flushed.
pub fn run_audit<W: Write, R: Read + Drop, Q: Read + Drop, P: Read + Drop>(
    alloc: Global,
    journal: R,
    requests: Q,
    replies: P,
    writer: &mut W,
) -> Result<u8, JudgeError>
    ensures whole { IfOk result (λ status.
        Writes (W.contents writer.old) (W.contents writer.new) (λ lines.
        IsAuditRun (R.remaining journal) (Q.remaining requests) (P.remaining replies) lines status)) }
    ensures stopped { OnErr result (HasBegun (W.contents writer.old) (W.contents writer.new)
        (λ lines. (status : ℕ) × IsAuditRun (R.remaining journal) (Q.remaining requests)
        (P.remaining replies) lines status)) }
{
    match audit(alloc, journal, requests, replies) {
        Ok(found) => write_audit(alloc, &found, writer),
        Err(error) => refuse(alloc, audit_end_of(error), writer),
    }
}

/// Audits replies to rows that ask, `ask` rows and the rows of questions of these kinds. It does the
/// same as
/// `run_audit`, for the lines that `IsQuestionAuditRun` defines.
pub fn run_audit_with_questions<W: Write, R: Read + Drop, Q: Read + Drop, P: Read + Drop>(
    alloc: Global,
    kinds: QuestionKinds,
    journal: R,
    requests: Q,
    replies: P,
    writer: &mut W,
) -> Result<u8, JudgeError>
    ensures whole { IfOk result (λ status.
        Writes (W.contents writer.old) (W.contents writer.new) (λ lines. IsQuestionAuditRun kinds
        (R.remaining journal) (Q.remaining requests) (P.remaining replies) lines status)) }
    ensures stopped { OnErr result (HasBegun (W.contents writer.old) (W.contents writer.new)
        (λ lines. (status : ℕ) × IsQuestionAuditRun kinds (R.remaining journal) (Q.remaining requests)
        (P.remaining replies) lines status)) }
{
    match audit_with_questions(alloc, kinds, journal, requests, replies) {
        Ok(found) => write_audit(alloc, &found, writer),
        Err(error) => refuse(alloc, question_audit_end_of(error), writer),
    }
}

/// How a run ends if its streams can't be audited, where rows also ask questions.
fn question_audit_end_of(error: QuestionAuditError) -> EarlyEnd
    ensures refused { IfRefused result (IsQuestionAuditErrorLine error) }
    ensures failed { IfFailed result (IsQuestionAuditFailure error) }
{
    match error {
        QuestionAuditError::Audit(error) => audit_end_of(error),
        QuestionAuditError::Question { row, error } => {
            EarlyEnd::Refused(JudgeLine::RefusedQuestion { row, error })
        }
    }
}

/// How a run ends if its streams can't be audited.
fn audit_end_of(error: AuditError) -> EarlyEnd
    ensures refused { IfRefused result (IsAuditErrorLine error) }
    ensures failed { IfFailed result (IsAuditFailure error) }
{
    let line = match error {
        AuditError::Memory => return EarlyEnd::Failed(JudgeError::Memory),
        AuditError::Device => return EarlyEnd::Failed(JudgeError::Device),
        AuditError::TooManyRows => JudgeLine::Stream(StreamLine::TooManyRows),
        AuditError::Torn { after } => JudgeLine::Torn {
            count: after as usize,
        },
        AuditError::Batch { number, refusal } => {
            let refusal = BatchRefusal::Unfit(refusal);
            JudgeLine::Stream(StreamLine::RefusedBatch { number, refusal })
        }
        AuditError::Requests(error) => return requests_end_of(error),
        AuditError::SameId { row } => JudgeLine::SameId { row },
    };
    EarlyEnd::Refused(line)
}

/// Writes the lines of an audit, and returns the status.
fn write_audit<W: Write>(alloc: Global, found: &Audit, writer: &mut W) -> Result<u8, JudgeError>
    ensures status { IfOk result (λ status. status ≡ audit_status found.now) }
    ensures lines { OnOk result (Appends (W.contents writer.old) (W.contents writer.new)
        (audit_lines found.now)) }
    ensures front { OnErr result (WritesFront (W.contents writer.old) (W.contents writer.new)
        (audit_lines found.now)) }
{
    for fault in &found.faults {
        put_line(alloc, JudgeLine::Fault { fault: *fault }, writer)?;
    }
    let (good, faults) = (found.good, found.faults.len());
    put_line(alloc, JudgeLine::Audited { good, faults }, writer)?;
    Ok(if faults == 0 { 0 } else { 2 })
}
