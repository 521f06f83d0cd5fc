//! Trees of lower bounds for the search in a database, with the batches that make this database.

ghost use Rattle.std.specs.Prelude.{◌≡◌, IfOk};
ghost use Rattle.cspf_model.specs.Changes.{database_after};
ghost use Rattle.cspf_publish.specs.Answers.{IsBestAfter};
ghost use Rattle.cspf_publish.specs.AskerStates.{asker_with, known_of};
ghost use Rattle.cspf_publish.specs.ReplicaRule.{HasItsDatabase, CountsShapeChanges};

use crate::replica::Replica;
use cspf_journal::Known;
use cspf_model::{Outcome, Request};
use cspf_trees::{Growth, Trees, trees_outlast_bandwidth};
use std::alloc::{AllocError, Global};
use std::marker::Model;

/// Trees of lower bounds for the search in a database, with the batches that make this database,
/// and the number of these batches that change more than unreserved bandwidths.
#[derive(Drop)]
pub(crate) struct KnownTrees {
    trees: Trees,
    known: Known,
    shape_changes: u32,
}

impl Model for KnownTrees {
    ghost use Rattle.cspf_model.specs.Changes.{database_after};
    ghost use Rattle.cspf_trees.specs.Trees.{AreTreesOf};
    ghost use Rattle.cspf_publish.specs.ShapeChanges.{HasShapeChanges};
    ghost use Rattle.cspf_publish.specs.AskerStates.{AskerState, asker_with};

    // The state of an asker (which answers requests) that has these trees.
    ghost Value = { AskerState };

    ghost view = { λ t. asker_with t.known t.trees.most };

    ghost invariant = { λ t. AreTreesOf (database_after t.known.batches) t.trees
        × HasShapeChanges t.known.batches t.shape_changes };
}

impl KnownTrees {
    /// Makes an empty value with capacity for at most `most` trees of lower bounds in a replica's
    /// database. The trees are grown when `growth` says.
    pub(crate) fn new(alloc: Global, replica: &Replica, most: usize, growth: Growth) -> KnownTrees
        requires { CountsShapeChanges replica.now }
        ensures { result ≡ asker_with replica.now.known most }
    {
        KnownTrees {
            trees: Trees::with_growth(alloc, most, growth),
            known: replica.known.copy(),
            shape_changes: replica.shape_changes,
        }
    }

    /// Moves on to the database of a replica (a copy of the table) of the same journal. The trees
    /// are kept if the newer batches of the replica change at most unreserved bandwidths. Otherwise
    /// the trees are dropped.
    pub(crate) fn enter(&mut self, replica: &Replica)
        requires source { replica.now.known.source ≡ self.old.source }
        requires shapes { CountsShapeChanges replica.now }
        ensures { self.new ≡ asker_with replica.now.known self.old.most_trees }
    {
        // Law: if two databases differ only in unreserved bandwidths, a tree of lower bounds for
        // one of them is also one for the other.
        trees_outlast_bandwidth();
        if self.shape_changes == replica.shape_changes && self.known.raise(&replica.known) {
            return;
        }
        self.trees.clear();
        self.known = replica.known.copy();
        self.shape_changes = replica.shape_changes;
    }

    /// The best answer to a request in the database of a replica (a copy of the table). The batches
    /// of the replica are the batches of these trees.
    pub(crate) fn best(
        &mut self,
        alloc: Global,
        replica: &Replica,
        request: &Request,
    ) -> Result<Outcome, AllocError>
        requires database { HasItsDatabase replica.now }
        requires known { replica.now.known ≡ known_of self.old }
        ensures same { self.new ≡ self.old }
        ensures best { IfOk result (IsBestAfter self.old.batches request.now) }
    {
        self.trees.best(alloc, &replica.table, request)
    }
}
