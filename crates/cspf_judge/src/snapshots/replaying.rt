ghost use Rattle.std.specs.Prelude.{◌≡◌, IfOk, IfErr, OnOk};
ghost use Rattle.cspf_model.specs.Changes.{AreLawful, database_after};
ghost use Rattle.cspf_judge.specs.Replays.{IsReplayError};

use crate::ReplayError;
use cspf_db::{Table, replay_into};
use cspf_model::Batch;
use std::alloc::Global;

/// Returns the table after all batches are applied, in order, to an empty table. If a batch doesn't
/// fit the database of the batches before it, the error gives the number of the first such batch,
/// and the reason. The call doesn't check the numbers of the batches.
pub fn replay(alloc: Global, batches: &[Batch]) -> Result<Table, ReplayError>
    ensures lawful { OnOk result (AreLawful batches.now) }
    ensures database { IfOk result (λ table. table ≡ database_after batches.now) }
    ensures err { IfErr result (IsReplayError batches.now) }
{
    let mut table = Table::new(alloc)?;
    replay_into(&mut table, batches)?;
    Ok(table)
}
