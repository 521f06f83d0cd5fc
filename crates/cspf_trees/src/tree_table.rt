//! A table together with trees of its database.

ghost use Rattle.std.specs.Prelude.{◌≡◌, IfOk, IfErr, OnOk, OnErr};
ghost use Rattle.cspf_model.specs.Best.{IsBestAnswer};
ghost use Rattle.cspf_model.specs.Changes.{no_links, after_changes, Fits};
ghost use Rattle.cspf_model.specs.Outcome.{answer_of};
ghost use Rattle.cspf_model.specs.Refusals.{IsRefusal};
ghost use Rattle.cspf_trees.specs.declared.limits.TheConstants.{MOST_TREES};

use crate::growth::Growth;
use crate::limits::MOST_TREES;
use crate::trees::Trees;
use cspf_db::Table;
use cspf_model::{Batch, Outcome, Refusal, Request};
use std::alloc::{AllocError, Global};
use std::marker::Model;

/// A table that answers requests. It keeps trees of its database for the pairs of a tail-end and
/// affinities that are requested often.
#[derive(Drop)]
pub struct TreeTable {
    /// The table.
    table: Table,
    /// Trees of the table's database.
    trees: Trees,
}

impl Model for TreeTable {
    ghost use Rattle.cspf_trees.specs.TreeTables.{TreeTableState, tree_table_code};

    ghost Value = { TreeTableState };

    ghost coded = { tree_table_code };

    ghost use Rattle.cspf_trees.specs.Trees.{AreTreesOf};

    ghost view = { λ a. record { database = a.table; most_trees = a.trees.most } };

    ghost invariant = { λ a. AreTreesOf a.table a.trees };
}

impl TreeTable {
    /// An empty table without trees.
    pub fn new(alloc: Global) -> Result<TreeTable, AllocError>
        ensures { IfOk result (λ table.
            table ≡ record { database = no_links; most_trees = MOST_TREES }) }
    {
        TreeTable::with_trees(alloc, MOST_TREES)
    }

    /// An empty table without trees, which will have at most `most` trees.
    pub fn with_trees(alloc: Global, most: usize) -> Result<TreeTable, AllocError>
        ensures { IfOk result (λ table.
            table ≡ record { database = no_links; most_trees = most }) }
    {
        TreeTable::with_growth(alloc, most, Growth::AsPaid)
    }

    /// An empty table without trees, which will have at most `most` trees. They are grown when
    /// `growth` says.
    pub fn with_growth(alloc: Global, most: usize, growth: Growth) -> Result<TreeTable, AllocError>
        ensures { IfOk result (λ table.
            table ≡ record { database = no_links; most_trees = most }) }
    {
        Ok(TreeTable {
            table: Table::new(alloc)?,
            trees: Trees::with_growth(alloc, most, growth),
        })
    }

    /// The table, without its trees.
    pub fn table(&self) -> &Table
        ensures { result.now ≡ self.now.database }
    {
        &self.table
    }

    /// The best answer to a request. If the request's tail-end and affinities are requested often,
    /// a tree speeds up the search.
    pub fn best(&mut self, alloc: Global, request: &Request) -> Result<Outcome, AllocError>
        ensures same { self.new ≡ self.old }
        ensures best { IfOk result (λ outcome.
            IsBestAnswer self.old.database request.now (answer_of outcome)) }
    {
        self.trees.best(alloc, &self.table, request)
    }

    /// Absorbs a batch like `Table::try_absorb`. If the batch is absorbed and changes only
    /// unreserved bandwidths, the trees are kept. If it is absorbed and changes more, the trees are
    /// forgotten.
    pub fn try_absorb(&mut self, batch: &Batch) -> Result<(), Refusal>
        ensures ok { OnOk result (Fits self.old.database batch.now) }
        ensures changed { OnOk result (self.new ≡ record self.old {
          database = after_changes self.old.database batch.now.changes;
        }) }
        ensures err { IfErr result (λ refusal. IsRefusal self.old.database batch.now refusal) }
        ensures same { OnErr result (self.new ≡ self.old) }
    {
        match self.table.plan(batch) {
            Ok(plan) => {
                self.trees.keep_over(&self.table, batch);
                self.table.absorb_planned(batch, plan);
                Ok(())
            }
            Err(why) => Err(why),
        }
    }
}
