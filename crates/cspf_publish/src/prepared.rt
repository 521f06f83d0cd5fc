ghost use Rattle.std.specs.Prelude.{◌≡◌, IfOk};

use cspf_model::Batch;
use cspf_rows::batch_text;
use std::alloc::{AllocError, Global};
use std::marker::Model;

/// A batch that a publisher may publish next, with all the memory that this takes.
#[derive(Drop)]
pub struct PreparedBatch {
    pub(crate) batch: Batch,
    /// The text of the batch, for the journal.
    pub(crate) text: Vec<u8>,
}

impl Model for PreparedBatch {
    ghost use Rattle.std.specs.Prelude.{◌≡◌};
    ghost use Rattle.cspf_model.specs.Numbered.{NumberedChanges};
    ghost use Rattle.cspf_rows.specs.BatchText.{batch_text};

    ghost Value = { NumberedChanges };

    ghost view = { λ p. p.batch };

    ghost invariant = { λ p. p.text.items ≡ batch_text p.batch };
}

impl PreparedBatch {
    /// A copy of the batch, and its text.
    pub(crate) fn new(alloc: Global, batch: &Batch) -> Result<PreparedBatch, AllocError>
        ensures { IfOk result (λ prepared. prepared ≡ batch.now) }
    {
        let text = batch_text(alloc, batch)?;
        let batch = batch.copy(alloc)?;
        Ok(PreparedBatch { batch, text })
    }
}
