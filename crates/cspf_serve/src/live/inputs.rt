ghost use Rattle.std.specs.Prelude.{◌≤◌, false, length, IfOk, IfErr, IfSome};
ghost use Rattle.cspf_rows.specs.Records.{rows_of};
ghost use Rattle.cspf_judge.specs.EarlyEnds.{IfRefused};
ghost use Rattle.cspf_judge.specs.Inputs.{AreBatchesOf, AreRequestsOf};
ghost use Rattle.cspf_serve.specs.EarlyEnds.{AreStreamsRefused};
ghost use Rattle.cspf_model.specs.declared.limits.TheConstants.{MOST_VERSIONS};
ghost use Rattle.cspf_work.specs.declared.limits.TheConstants.{MOST_REQUESTS};

use cspf_judge::{EarlyEnd, batches_of, requests_of};
use cspf_model::{Batch, Request};
use std::alloc::Global;
use std::io::Read;

/// The input that a run has read from its two streams.
#[derive(Drop)]
pub(super) struct Inputs {
    pub(super) batches: Vec<Batch>,
    pub(super) requests: Vec<Request>,
}

/// Reads the batches of the updates, and the requests of the other stream. Rows after the batches
/// are refused.
pub(super) fn inputs_of<R: Read + Drop, Q: Read + Drop>(
    alloc: Global,
    updates: R,
    requests: Q,
) -> Result<Inputs, EarlyEnd>
    ensures few { IfOk result (λ read. length read.batches.items ≤ MOST_VERSIONS) }
    ensures most { IfOk result (λ read. length read.requests.items ≤ MOST_REQUESTS) }
    ensures batches { IfOk result (λ read. IfSome (R.remaining updates) (λ bytes.
        AreBatchesOf false (rows_of bytes) read.batches.items)) }
    ensures requests { IfOk result (λ read. IfSome (Q.remaining requests) (λ bytes.
        AreRequestsOf (rows_of bytes) read.requests.items)) }
    ensures err { IfErr result (λ end. IfRefused end (λ line.
        IfSome (R.remaining updates) (λ kept. IfSome (Q.remaining requests) (λ asked.
        AreStreamsRefused false (rows_of kept) (rows_of asked) line)))) }
{
    let batches = batches_of(alloc, updates, false)?;
    let requests = requests_of(alloc, requests)?;
    Ok(Inputs { batches, requests })
}
