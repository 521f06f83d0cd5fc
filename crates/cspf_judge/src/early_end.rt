//! How a run ends before its streams are judged: an input is refused with a line, or there is an
//! error.

ghost use Rattle.std.specs.Prelude.{◌≡◌};
ghost use Rattle.cspf_judge.specs.EarlyEnds.{unfit_end};
ghost use Rattle.cspf_judge.specs.declared.early_end.EarlyEnd.TheVariants as early_end;
ghost use Rattle.cspf_judge.specs.declared.early_end.JudgeError.TheVariants as judge_error;

use crate::JudgeLine;
use cspf_db::UnfitBatch;
use cspf_stream::{BatchRefusal, StreamLine};
use std::alloc::AllocError;
use thiserror::Error;

/// The error of a run that can't judge a journal, requests or replies.
#[derive(Clone, Copy, Debug, PartialEq, Eq, Error)]
pub enum JudgeError {
    /// Memory was refused.
    #[error("out of memory")]
    Memory,
    /// A read failed, or a write failed or accepted no bytes.
    #[error("a read or a write failed")]
    Device,
}

impl From<AllocError> for JudgeError {
    ghost from_gives = { λ _ error. error ≡ judge_error.Memory };

    fn from(_refused: AllocError) -> JudgeError {
        JudgeError::Memory
    }
}

/// How a run over a journal or requests ends before its input is judged.
#[derive(Clone, Copy)]
pub enum EarlyEnd {
    /// An input is refused with this line.
    Refused(JudgeLine),
    /// Memory was refused, or a device failed.
    Failed(JudgeError),
}

impl From<JudgeError> for EarlyEnd {
    ghost from_gives = { λ error end. end ≡ early_end.Failed error };

    fn from(error: JudgeError) -> EarlyEnd {
        EarlyEnd::Failed(error)
    }
}

impl From<AllocError> for EarlyEnd {
    ghost from_gives = { λ _ end. end ≡ early_end.Failed judge_error.Memory };

    fn from(_refused: AllocError) -> EarlyEnd {
        EarlyEnd::Failed(JudgeError::Memory)
    }
}

impl From<UnfitBatch> for EarlyEnd {
    ghost from_gives = { λ unfit end. end ≡ unfit_end unfit };

    fn from(unfit: UnfitBatch) -> EarlyEnd {
        let UnfitBatch { number, refusal } = unfit;
        let refusal = BatchRefusal::Unfit(refusal);
        EarlyEnd::Refused(JudgeLine::Stream(StreamLine::RefusedBatch { number, refusal }))
    }
}
