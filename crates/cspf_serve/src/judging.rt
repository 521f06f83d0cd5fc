//! The runs of `audit` and `snapshot`, with the errors of this crate's runs.

ghost use Rattle.std.specs.Prelude.{◌≡◌, ℕ, List, IfOk, IfErr, OnErr};
ghost use Rattle.std.specs.Io.KnownBytes.{Appends};
ghost use Rattle.cspf_judge.specs.AuditRun.{IsAuditRun, IsQuestionAuditRun};
ghost use Rattle.cspf_judge.specs.SnapshotRun.{WritesSnapshot, HasBegunSnapshot};
ghost use Rattle.cspf_judge.specs.EarlyEnds.{HasBegun};
ghost use Rattle.cspf_serve.specs.RunFaults.{IsStreamFault};

use crate::RunError;
use cspf_questions::QuestionKinds;
use std::alloc::Global;
use std::io::{Read, Write};

/// Audits replies against a journal and requests. It does the same as `run_audit` of `cspf_judge`,
/// and returns the same status: `IsAuditRun`. The errors are `Memory` and `Device`.
#[tactic(auto, using(crate::proofs::StreamFaults::judged))]
pub fn run_audit<R: Read + Drop, Q: Read + Drop, P: Read + Drop, W: Write>(
    alloc: Global,
    journal: R,
    requests: Q,
    replies: P,
    writer: &mut W,
) -> Result<u8, RunError>
    ensures whole { IfOk result (λ status. (lines : List ℕ)
        × IsAuditRun (R.remaining journal) (Q.remaining requests) (P.remaining replies) lines status
        × Appends (W.contents writer.old) (W.contents writer.new) lines) }
    ensures stopped { OnErr result (HasBegun (W.contents writer.old) (W.contents writer.new)
        (λ lines. (status : ℕ) × IsAuditRun (R.remaining journal) (Q.remaining requests)
        (P.remaining replies) lines status)) }
    ensures error { IfErr result IsStreamFault }
{
    Ok(cspf_judge::run_audit(alloc, journal, requests, replies, writer)?)
}

/// Audits replies to rows that ask, `ask` rows and the rows of questions of these kinds. It does
/// the same as
/// `run_audit_with_questions` of `cspf_judge`, and returns the same status: `IsQuestionAuditRun`. The
/// errors are `Memory` and `Device`.
#[tactic(auto, using(crate::proofs::StreamFaults::judged))]
pub fn run_audit_with_questions<R: Read + Drop, Q: Read + Drop, P: Read + Drop, W: Write>(
    alloc: Global,
    kinds: QuestionKinds,
    journal: R,
    requests: Q,
    replies: P,
    writer: &mut W,
) -> Result<u8, RunError>
    ensures whole { IfOk result (λ status. (lines : List ℕ) × IsQuestionAuditRun kinds
        (R.remaining journal) (Q.remaining requests) (P.remaining replies) lines status
        × Appends (W.contents writer.old) (W.contents writer.new) lines) }
    ensures stopped { OnErr result (HasBegun (W.contents writer.old) (W.contents writer.new)
        (λ lines. (status : ℕ) × IsQuestionAuditRun kinds (R.remaining journal) (Q.remaining requests)
        (P.remaining replies) lines status)) }
    ensures error { IfErr result IsStreamFault }
{
    Ok(cspf_judge::run_audit_with_questions(alloc, kinds, journal, requests, replies, writer)?)
}

/// Writes batches that make the last database of a journal from an empty database. It does the same
/// as `run_snapshot` of `cspf_judge`, and returns the same status: `IsSnapshotRun`. The errors are
/// `Memory` and `Device`.
#[tactic(auto, using(crate::proofs::StreamFaults::judged))]
pub fn run_snapshot<R: Read + Drop, W: Write>(
    alloc: Global,
    journal: R,
    writer: &mut W,
    accept_torn: bool,
) -> Result<u8, RunError>
    ensures whole { IfOk result (WritesSnapshot accept_torn (R.remaining journal)
        (W.contents writer.old) (W.contents writer.new)) }
    ensures stopped { OnErr result (HasBegunSnapshot accept_torn (R.remaining journal)
        (W.contents writer.old) (W.contents writer.new)) }
    ensures error { IfErr result IsStreamFault }
{
    Ok(cspf_judge::run_snapshot(alloc, journal, accept_torn, writer)?)
}
