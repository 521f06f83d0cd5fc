//! The replicas (the two copies of the table of links), and the operation that changes both
//! replicas.
ghost use Rattle.std.specs.Prelude.{◌≡◌, ◌++◌, [], ◌∷◌};
ghost use Rattle.cspf_journal.specs.Histories.{MayFollow};
ghost use Rattle.cspf_publish.specs.BatchAbsorption.{database_with};
ghost use Rattle.cspf_publish.specs.ReplicaRule.{HasItsDatabase, CountsShapeChanges};
ghost use Rattle.cspf_publish.specs.ShapeChanges.{HasShapeChanges};

use cspf_db::Table;
use cspf_journal::{CopyRight, Known};
use cspf_model::Batch;
use left_right::Absorb;
use std::alloc::AllocError;
use std::marker::Model;

/// A batch, and the journal's list of batches up to this batch.
#[derive(Drop)]
pub struct PendingBatch {
    /// The batch.
    pub batch: Batch,
    /// The list of batches that ends with this batch.
    pub known: Known,
    /// How many batches of the list change more than unreserved bandwidths.
    pub shape_changes: u32,
}

/// A table with the batches that make its database. The table is one of the two copies of a
/// journal's table.
#[derive(Drop)]
pub struct Replica {
    /// The right to be one of the two copies of a journal's table.
    pub right: CopyRight,
    /// The table.
    pub table: Table,
    /// The batches that the table has absorbed.
    pub known: Known,
    /// How many of the absorbed batches changed more than unreserved bandwidths.
    pub shape_changes: u32,
    /// Whether the replica (a copy of the table) has absorbed an operation. The operation may be
    /// one without changes. After the publisher's first step, the replica that askers (which answer
    /// requests) enter has absorbed an operation.
    pub is_open: bool,
}

impl Model for Replica {
    ghost use Rattle.std.specs.Coded.{codes};
    ghost use Rattle.cspf_db.specs.contracts.table.Table.{the_row};
    ghost use Rattle.cspf_publish.specs.ReplicaStates.{ReplicaState};

    ghost Value = { ReplicaState };

    ghost coded = { Prim.hlevel (codes, the_row.coded) };

    ghost view = { λ r. record {
      right = r.right;
      database = r.table;
      known = r.known;
      shape_changes = r.shape_changes;
      is_open = r.is_open;
    } };
}

impl Replica {
    /// The number of batches that change more than unreserved bandwidths, among the replica's
    /// batches and this batch.
    pub(crate) fn shape_changes_with(&self, batch: &Batch) -> u32
        requires database { HasItsDatabase self.now }
        requires shapes { CountsShapeChanges self.now }
        requires next { MayFollow self.now.known.batches batch.now }
        ensures { HasShapeChanges (self.now.known.batches ++ batch.now ∷ []) result }
    {
        if self.table.changes_shape(batch) {
            self.shape_changes + 1
        } else {
            self.shape_changes
        }
    }
}

// Absorbs a batch. A batch that doesn't fit changes nothing.
fn absorb(table: &mut Table, batch: &Batch)
    ensures { table.new ≡ database_with table.old batch.now }
{
    table.absorb(batch);
}

impl Absorb<PendingBatch> for Replica {
    ghost use Rattle.cspf_publish.specs.ReplicaStates.{state_with};

    type State = Replica;

    ghost state = { λ r. r };

    ghost applied = { λ r p. state_with r p.batch p.known p.shape_changes };

    ghost never_fails = { Unit {0} };

    fn absorb_first(
        &mut self,
        operation: &PendingBatch,
        _other: &Replica,
    ) -> Result<(), AllocError> {
        absorb(&mut self.table, &operation.batch);
        self.known = operation.known.copy();
        self.shape_changes = operation.shape_changes;
        self.is_open = true;
        Ok(())
    }
}
