//! Compares a line with the right answer. This is done for each line that begins as a reply and has
//! no fault so far.

ghost use Rattle.std.specs.Prelude.{◌≡◌, ◌↔◌, IsTrue, OnOk, ◌∷◌, ◌++◌, [], length};
ghost use Rattle.cspf_judge.specs.Findings.{AreFindingsBy};
ghost use Rattle.cspf_judge.specs.Reading.{AreOpenFindings, AreClaims, ArePlansUpTo};

use crate::audits::asks::Asks;
use crate::audits::claim::Claim;
use crate::audits::finding::Finding;
use crate::audits::lines::ReplyLine;
use crate::audits::replay::Replay;
use cspf_db::Plan;
use cspf_model::Batch;
use std::alloc::{AllocError, Global};

/// Compares each line that has a claim with the right reply at the version that the line names. A
/// claim says that a line is still to be compared. If the line differs from the right reply, its
/// finding becomes `Altered`.
pub(crate) fn compare_all<A: Asks>(
    alloc: Global,
    batches: &[Batch],
    plans: &[Plan],
    requests: &[A],
    lines: &[ReplyLine],
    claims: &[Claim],
    findings: &mut [Finding],
) -> Result<(), AllocError>
    requires planned { ArePlansUpTo batches.now plans.now (length batches.now) }
    requires claims { AreClaims A.spec requests.now (length batches.now) lines.now claims.now }
    requires open { AreOpenFindings A.spec batches.now requests.now lines.now claims.now findings.old }
    ensures { OnOk result (AreFindingsBy A.spec batches.now requests.now lines.now findings.new) }
{
    let mut replay = Replay::new(alloc)?;
    for claim in claims {
        replay.go_to(alloc, batches, plans, claim.version as usize)?;
        let request = &requests[claim.request];
        let line = lines[claim.line].text();
        if !request.is_answer(alloc, replay.table(), claim.version, line)? {
            findings[claim.line] = Finding::Altered;
        }
    }
    Ok(())
}

/// Whether `bytes` is this line, followed by a line feed.
pub(crate) fn is_line(line: &[u8], bytes: &[u8]) -> bool
    ensures { IsTrue result ↔ (bytes.now ≡ line.now ++ 10 ∷ []) }
{
    match bytes.strip_suffix(b"\n") {
        Some(text) => text == line,
        None => false,
    }
}
