ghost use Rattle.std.specs.Prelude.{◌≡◌, ◌≤◌, [], length, IfOk, OnOk};
ghost use Rattle.cspf_model.specs.Changes.{database_after};
ghost use Rattle.cspf_judge.specs.Reading.{ArePlansUpTo, IsAtVersion};

use cspf_db::{Plan, Table};
use cspf_model::{Batch, absorbing};
use std::alloc::{AllocError, Global};

/// The database at one version of a journal.
#[derive(Drop)]
pub(crate) struct Replay {
    table: Table,
    version: usize,
}

impl Replay {
    /// The database at version 0.
    pub(crate) fn new(alloc: Global) -> Result<Replay, AllocError>
        ensures { IfOk result (λ replay. (replay.table ≡ database_after []) × (replay.version ≡ 0)) }
    {
        let table = Table::new(alloc)?;
        Ok(Replay { table, version: 0 })
    }

    /// Moves the replay to `version` by the plans of the batches. From a lower or equal version,
    /// only the batches between the two versions change the table. From a higher version, the
    /// replay starts again at version 0.
    pub(crate) fn go_to(
        &mut self,
        alloc: Global,
        batches: &[Batch],
        plans: &[Plan],
        version: usize,
    ) -> Result<(), AllocError>
        requires planned { ArePlansUpTo batches.now plans.now (length batches.now) }
        requires within { version ≤ length batches.now }
        requires here { IsAtVersion batches.now self.old }
        ensures here { OnOk result (IsAtVersion batches.now self.new) }
        ensures version { OnOk result (self.new.version ≡ version) }
    {
        // Law: one more batch makes its changes in the database of the batches before it.
        absorbing();
        if version < self.version {
            *self = Replay::new(alloc)?;
        }
        while self.version < version {
            self.table
                .absorb_planned(&batches[self.version], plans[self.version]);
            self.version += 1;
        }
        Ok(())
    }

    /// The table, which has the database at the replay's version.
    pub(crate) fn table(&self) -> &Table
        ensures { result.now ≡ self.now.table }
    {
        &self.table
    }
}
