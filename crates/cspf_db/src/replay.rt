//! Absorbs batches one after the other, as when a journal is replayed.
ghost use Rattle.std.specs.Prelude.{◌≡◌, IfErr, OnOk, OnErr};
ghost use Rattle.cspf_model.specs.Changes.{AreLawful, database_after, no_links};
ghost use Rattle.cspf_model.specs.Refusals.{IsFirstUnfit};
ghost use Rattle.cspf_db.specs.Replays.{IsStoppedReplay};

use crate::Table;
use cspf_model::{Batch, Refusal, absorbing, lawful_batches};

/// The first batch that doesn't fit the database that the preceding batches make.
#[derive(Clone, Copy, Debug, PartialEq, Eq)]
pub struct UnfitBatch {
    /// The number of the batch.
    pub number: u32,
    /// Why the batch doesn't fit.
    pub refusal: Refusal,
}

/// Absorbs the batches, in order, into an empty table. The call stops at the first batch that
/// doesn't fit the database that the preceding batches make. This batch is refused, and the
/// preceding batches stay absorbed. The call doesn't check the numbers of the batches, and
/// allocates no memory.
pub fn replay_into(table: &mut Table, batches: &[Batch]) -> Result<(), UnfitBatch>
    requires empty { table.old ≡ no_links }
    ensures lawful { OnOk result (AreLawful batches.now) }
    ensures database { OnOk result (table.new ≡ database_after batches.now) }
    ensures err { IfErr result (λ unfit. IsFirstUnfit batches.now unfit.number unfit.refusal) }
    ensures stopped { OnErr result (IsStoppedReplay batches.now table.new) }
{
    // Laws: if a batch is appended to a list of batches, the batch's changes act on the database
    // that the list makes. The longer list is lawful if the list is lawful and the batch fits this
    // database.
    absorbing();
    lawful_batches();
    for batch in batches {
        if let Err(refusal) = table.try_absorb(batch) {
            let number = batch.number;
            return Err(UnfitBatch { number, refusal });
        }
    }
    Ok(())
}
