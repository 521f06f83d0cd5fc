//! The steps of a journal, which exist only in proofs. At run time threads share only two counters:
//! the number of recorded batches, and the number of published batches.
use crate::log_step::{LogStep, RowOfReader};
use cspf_model::Batch;
use logbook::{Gain, Plain, Play, Rule};

/// The rule of a journal's steps, which is an invariant. The steps are in order. The recorded
/// batches are numbered from 1, and each fits the batches before it. The rule has two counters: the
/// number of recorded batches, and the number of published batches.
pub struct History;

impl Rule<LogStep, u64> for History {
    ghost use Rattle.std.specs.Prelude.{[]};
    ghost use base.Fml.{ftrue};
    ghost use Rattle.cspf_journal.specs.HistoryRule.{IsKeptHistory};

    ghost holds = { λ cells log. IsKeptHistory cells log };

    ghost first = { [] };

    ghost hinted = { λ n log. Unit {0} };

    ghost shows = { λ log. [] };

    ghost keeps = { λ names log. ftrue };

    ghost moves = { λ ask before after answer. Unit {0} };
}

/// The facts that a caller gains by making a step: it then knows the journal's steps up to this
/// step, and nothing else.
pub struct NoGain;

impl Gain<LogStep, u64> for NoGain {
    ghost use base.Fml.{ftrue};

    ghost after = { λ names about answer. ftrue };
}

/// The step that adds a batch to a journal's list of batches.
pub struct AddBatch;

impl Play<LogStep, u64> for AddBatch {
    ghost use Rattle.cspf_journal.specs.HistoryRule.{Adds};

    ghost then = { Adds };
}

/// The caller gives the batch that this step adds.
impl Plain<Batch, LogStep, u64> for AddBatch {
    ghost use Rattle.std.specs.Prelude.{None};
    ghost use Rattle.cspf_journal.specs.declared.log_step.LogStep.TheVariants.{Recorded};

    ghost ask = { λ batch. Recorded batch };

    ghost state = { λ batch. None };
}

/// The step that counts one more batch of a journal as published.
pub struct CountBatch;

impl Play<LogStep, u64> for CountBatch {
    ghost use Rattle.cspf_journal.specs.HistoryRule.{CountsOneMore};

    ghost then = { CountsOneMore };
}

/// The caller gives the new count of published batches that this step writes.
impl Plain<u32, LogStep, u64> for CountBatch {
    ghost use Rattle.std.specs.Prelude.{None};
    ghost use Rattle.cspf_journal.specs.declared.log_step.LogStep.TheVariants.{Published};

    ghost ask = { λ count. Published count };

    ghost state = { λ count. None };
}

/// The step that reads the count of published batches.
pub struct ReadCount;

impl Play<LogStep, u64> for ReadCount {
    ghost use Rattle.cspf_journal.specs.HistoryRule.{Reads};

    ghost then = { Reads };
}

/// The caller names the reader, and the row that the reader answers after this reading. The count 0
/// is a placeholder: the count that the step finds replaces it.
impl Plain<RowOfReader, LogStep, u64> for ReadCount {
    ghost use Rattle.std.specs.Prelude.{None};
    ghost use Rattle.cspf_journal.specs.declared.log_step.LogStep.TheVariants.{Read};

    ghost ask = { λ row. Read row.reader row.place 0 };

    ghost state = { λ row. None };
}
