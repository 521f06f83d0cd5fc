//! Trees of one database, and the answers that they help to find.

ghost use Rattle.std.specs.Prelude.{◌≡◌, ◌≤◌, All};
ghost use Rattle.cspf_trees.specs.TreeRows.{tree_count};

use crate::class::{class_of, first_row};
use crate::growth::{Budget, Growth};
use crate::laws::trees_outlast_bandwidth;
use crate::limits::{ASKS_FOR_A_TREE, MOST_ASKS, MOST_TREES};
use crate::owners::Owners;
use crate::searches::{best_after_tree, best_guided, best_without_tree};
use crate::tree_row::{TreeRow, ask, empty_rows, find, trees_of};
use cspf_addr::{Addr, Prefix};
use cspf_db::Table;
use cspf_model::{Batch, Outcome, Request};
use cspf_search::best_by_walk;
use std::alloc::{AllocError, Global};

/// Trees of one database. There are at most `MOST_TREES` trees, and no more than the limit that was
/// given to `new`. The bounds of each tree need `TREE_BYTES` bytes. A `Growth` says when a tree is
/// grown for a tail-end and affinities. If no further tree is allowed, or memory is refused,
/// requests are answered without a tree.
///
/// Each row for a class counts the requests of this class: those with one tail-end and the same
/// affinities. These rows need 393,216 bytes, which are allocated at the first request. The rows
/// for prefixes with only one owner need 49,152 bytes, which are allocated for the first such
/// prefix. If no trees are allowed, there are no rows.
#[derive(Drop)]
pub struct Trees {
    /// The rows for classes of requests: either none or `MOST_TREES` rows. Each row keeps at most
    /// one tree. A class is all requests with one tail-end and the same affinities.
    rows: Vec<TreeRow>,
    /// The present generation of trees. A new generation begins each time that all trees are
    /// forgotten. A row of an earlier generation counts as empty.
    generation: u64,
    /// The greatest number of trees that is allowed.
    most: usize,
    /// When the tree of a class is grown. A class is all requests with one tail-end and the same
    /// affinities.
    growth: Growth,
    /// What may be spent on trees, if they are grown as a budget pays for them.
    budget: Budget,
    /// The number of trees in all rows, including rows of earlier generations. A new generation
    /// begins each time that all trees are forgotten.
    count: usize,
    /// Prefixes of earlier hops, each with the only router that owns it.
    owners: Owners,
    ghost past: { All (λ row. row.generation ≤ generation) rows.items },
    ghost counted: { tree_count rows.items ≡ count },
    ghost few: { count ≤ most },
}

impl Trees {
    ghost use Rattle.std.specs.Prelude.{◌≡◌, ◌<◌, length, slice_index_or, true, IfOk, IfSome};
    ghost use Rattle.cspf_model.specs.Best.{IsBestAnswer};
    ghost use Rattle.cspf_model.specs.Changes.{after_changes};
    ghost use Rattle.cspf_model.specs.Outcome.{answer_of};
    ghost use Rattle.cspf_model.specs.Database.{Database};
    ghost use Rattle.cspf_trees.specs.declared.tree_row.TreeRow.{TreeRow as OneTreeRow};
    ghost use Rattle.cspf_trees.specs.declared.limits.TheConstants.{MOST_TREES};
    ghost use Rattle.cspf_trees.specs.LegsInTurn.{IsSoleOwner};
    ghost use Rattle.cspf_trees.specs.TreeRows.{IsAskedOf};
    ghost use Rattle.cspf_trees.specs.Trees.{AreTreesOf};

    /// An empty set of trees, which can be used with any database. It will have at most `most`
    /// trees, and they are grown as a budget pays for them. The call allocates no memory.
    pub fn new(alloc: Global, most: usize) -> Trees
        ensures trees { (d : Database) → AreTreesOf d result }
        ensures most { result.most ≡ most }
    {
        Trees::with_growth(alloc, most, Growth::AsPaid)
    }

    /// Like `new`, but a tree is grown at the `due`-th request without hops for its tail-end and
    /// affinities, whatever it costs. A `due` above 64 counts as 64.
    pub fn from_ask(alloc: Global, most: usize, due: u32) -> Trees
        ensures trees { (d : Database) → AreTreesOf d result }
        ensures most { result.most ≡ most }
    {
        Trees::with_growth(alloc, most, Growth::FromAsk(due))
    }

    /// Like `new`, but trees are grown when `growth` says.
    pub fn with_growth(alloc: Global, most: usize, growth: Growth) -> Trees
        ensures trees { (d : Database) → AreTreesOf d result }
        ensures most { result.most ≡ most }
    {
        Trees {
            rows: Vec::new(alloc),
            generation: 0,
            most,
            growth,
            budget: Budget::new(most),
            count: 0,
            owners: Owners::new(alloc, most > 0),
        }
    }

    /// Forgets all trees and owners, so that the set can be used with any database. The memory of
    /// the rows stays allocated for later trees and owners.
    pub fn clear(&mut self)
        ensures trees { (d : Database) → AreTreesOf d self.new }
        ensures most { self.new.most ≡ self.old.most }
    {
        self.owners.clear();
        if self.generation < u64::MAX {
            self.generation += 1;
        } else {
            self.rows.clear();
            self.count = 0;
        }
    }

    /// Keeps the trees and the owners for the database after the batch, if the batch changes only
    /// unreserved bandwidths. Otherwise forgets them. `table` has the database before the batch.
    pub(crate) fn keep_over(&mut self, table: &Table, batch: &Batch)
        requires { AreTreesOf table.now self.old }
        ensures trees { AreTreesOf (after_changes table.now batch.now.changes) self.new }
        ensures most { self.new.most ≡ self.old.most }
    {
        // Law: a tree of a database is also a tree of each database that differs from it only in
        // unreserved bandwidths.
        trees_outlast_bandwidth();
        if !table.changes_shape(batch) {
            return;
        }
        self.clear();
    }

    /// The number of trees in memory.
    pub fn count(&self) -> usize
        ensures count { result ≡ self.now.count }
        ensures most { result ≤ self.now.most }
    {
        self.count
    }

    /// The number of requests that must be counted for a class before its tree is grown, or `None`
    /// if no tree may be grown now. A class is all requests with one tail-end and the same
    /// affinities.
    fn due(&self) -> Option<u32> {
        match self.growth {
            Growth::FromAsk(due) => Some(due.min(MOST_ASKS)),
            Growth::AsPaid if self.budget.pays_for_a_tree() => Some(ASKS_FOR_A_TREE),
            _ => None,
        }
    }

    /// Allocates the rows that count requests and keep trees, if there are none yet and trees are
    /// allowed. Returns whether there are rows.
    #[tactic(auto, unfolding(crate::specs::Trees::AreTreesOf))]
    fn fill(&mut self, alloc: Global) -> bool
        ensures trees { (d : Database) → AreTreesOf d self.old → AreTreesOf d self.new }
        ensures many { result ≡ true → length self.new.rows.items ≡ MOST_TREES }
        ensures most { self.new.most ≡ self.old.most }
    {
        if self.rows.len() == MOST_TREES {
            return true;
        }
        if self.most == 0 || self.growth == Growth::Never {
            return false;
        }
        match empty_rows(alloc) {
            Ok(rows) => {
                self.rows = rows;
                self.count = 0;
                true
            }
            Err(_refused) => false,
        }
    }

    /// Counts a request for its class, and returns the index of the row of this class. The result
    /// is `None` if the class still has no row: other classes have all rows that it may use, or the
    /// request has hops. The result is also `None` if no trees are allowed, or if memory for the
    /// rows is refused. A class is all requests with one tail-end and the same affinities.
    fn ask_row(&mut self, alloc: Global, table: &Table, request: &Request) -> Option<usize>
        requires { AreTreesOf table.now self.old }
        ensures trees { AreTreesOf table.now self.new }
        ensures most { self.new.most ≡ self.old.most }
        ensures within { IfSome result (λ at. at < length self.new.rows.items) }
        ensures asked { IfSome result (λ at. (e : OneTreeRow)
            → IsAskedOf request.now self.new.generation (slice_index_or self.new.rows.items at e)) }
    {
        if !self.fill(alloc) {
            return None;
        }
        let class = class_of(request);
        let generation = self.generation;
        let at = find(&self.rows, first_row(&class), &class, generation);
        let due = if self.count < self.most {
            self.due()
        } else {
            None
        };
        let row = &mut self.rows[at];
        let had = trees_of(row);
        let asked = ask(alloc, table, request, &class, generation, due, row);
        let has = trees_of(row);
        self.count = self.count - had + has;
        self.budget.take_tree(has > had);
        if asked { Some(at) } else { None }
    }

    /// The best answer to a request, found with the tree of its class if there is one. A class is
    /// all requests with one tail-end and the same affinities.
    #[tactic(auto, unfolding(crate::specs::Trees::AreTreesOf))]
    pub(crate) fn best_by_row(
        &mut self,
        alloc: Global,
        table: &Table,
        request: &Request,
    ) -> Result<Outcome, AllocError>
        requires { AreTreesOf table.now self.old }
        ensures trees { AreTreesOf table.now self.new }
        ensures most { self.new.most ≡ self.old.most }
        ensures best { IfOk result (λ outcome.
            IsBestAnswer table.now request.now (answer_of outcome)) }
    {
        let is_direct = request.hops.is_empty();
        if is_direct {
            self.budget.add_ask();
        }
        let Some(at) = self.ask_row(alloc, table, request) else {
            return best_without_tree(alloc, table, request);
        };
        let Some(tree) = &self.rows[at].tree else {
            return best_without_tree(alloc, table, request);
        };
        let walked = best_by_walk(alloc, table, request, tree)?;
        if is_direct {
            self.budget.add_walk(walked.is_some());
        }
        if let Some(outcome) = walked {
            return Ok(outcome);
        }
        let guided = best_guided(alloc, table, request, tree)?;
        if is_direct {
            self.budget.add_guided(guided.is_some());
        }
        match guided {
            Some(outcome) => Ok(outcome),
            None => best_after_tree(alloc, table, request, tree),
        }
    }

    /// The only owner of a prefix. The result is `None` if no router owns the prefix, or more than
    /// one. An owner that is found is kept for later hops.
    #[tactic(auto, unfolding(crate::specs::Trees::AreTreesOf))]
    pub(crate) fn sole_owner(
        &mut self,
        alloc: Global,
        table: &Table,
        prefix: Prefix,
    ) -> Result<Option<Addr>, AllocError>
        requires { AreTreesOf table.now self.old }
        ensures trees { AreTreesOf table.now self.new }
        ensures most { self.new.most ≡ self.old.most }
        ensures sole { IfOk result (λ found. IfSome found (IsSoleOwner table.now prefix)) }
    {
        self.owners.sole_owner(alloc, table, prefix)
    }
}
