ghost use Rattle.std.specs.Prelude.{◌≡◌, IfOk, IfErr, OnErr};
ghost use Rattle.cspf_judge.specs.EarlyEnds.{IsLastError, IsRefusalBegun, IsRefusalWritten};
ghost use Rattle.cspf_judge.specs.declared.early_end.JudgeError.{JudgeError};
ghost use Rattle.cspf_serve.specs.RunFaults.{IsStreamFault, judged_error_of};

use crate::RunError;
use cspf_judge::EarlyEnd;
use std::alloc::Global;
use std::io::Write;

/// Writes the line that refuses a stream, and returns the status of the run.
#[tactic(auto, using(crate::proofs::StreamFaults::judged))]
pub(crate) fn refuse<W: Write>(alloc: Global, end: EarlyEnd, writer: &mut W) -> Result<u8, RunError>
    ensures status { IfOk result (λ status. status ≡ 2) }
    ensures line { IfOk result (λ status.
        IsRefusalWritten end (W.contents writer.old) (W.contents writer.new)) }
    ensures begun { OnErr result
        (IsRefusalBegun end (W.contents writer.old) (W.contents writer.new)) }
    ensures error { IfErr result IsStreamFault }
    // If the run ended by an error, the result is the `RunError` with the same name.
    ensures last { IfErr result (λ e. (why : JudgeError) × IsLastError end why
        × (e ≡ judged_error_of why)) }
{
    Ok(cspf_judge::refuse(alloc, end, writer)?)
}
