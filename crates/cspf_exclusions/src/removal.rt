//! Makes changes in a table, by as many batches as they need.

ghost use Rattle.std.specs.Prelude.{◌≡◌, IfOk, OnOk};
ghost use Rattle.cspf_model.specs.Changes.{after_changes};

use cspf_db::Table;
use cspf_model::{Batch, Change, MOST_CHANGES};
use std::alloc::{AllocError, Global};

/// Absorbs a batch. The table is unchanged if the batch doesn't fit.
fn absorb(table: &mut Table, batch: &Batch) -> Result<(), AllocError>
    ensures { OnOk result (table.new ≡ after_changes table.old batch.now.changes) }
{
    match table.try_absorb(batch) {
        Ok(()) => Ok(()),
        // This can't happen: a batch that removes different links of the table fits.
        Err(_) => Err(AllocError),
    }
}

/// The table after the changes. They are made by batches of at most `MOST_CHANGES` changes. If a
/// batch doesn't fit, the result is an error, too.
pub(crate) fn change(alloc: Global, table: Table, all: &[Change]) -> Result<Table, AllocError>
    ensures { IfOk result (λ left. left ≡ after_changes table all.now) }
{
    let mut table = table;
    let mut rest = all;
    while !rest.is_empty() {
        let (front, behind) = rest.split_at(rest.len().min(MOST_CHANGES));
        let changes = Vec::from_slice(alloc, front)?;
        let batch = Batch { number: 1, changes };
        absorb(&mut table, &batch)?;
        rest = behind;
    }
    Ok(table)
}
