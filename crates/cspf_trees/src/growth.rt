//! When trees are grown.

ghost use Rattle.std.specs.Prelude.{◌*◌, ◌<◌};

use crate::limits::{ASK_SHARE, GUIDED_COST, MOST_TREES, SEARCH_COST, TREE_COST, WALK_COST};

/// When the tree of a class is grown. A class is all requests with one tail-end and the same
/// affinities.
#[derive(Clone, Copy, Debug, PartialEq, Eq)]
pub enum Growth {
    /// Once a budget pays for the tree, at the sixth request of the class or later. The budget has
    /// 3 in 100 of what all requests without hops would take without trees. It also has what walks
    /// by trees have saved, and searches that trees guide. So at each time the trees have cost at most 3 in 100 more than they
    /// have saved, whichever requests follow.
    AsPaid,
    /// At this request of the class, counted from 1. A number above 64 counts as 64.
    FromAsk(u32),
    /// Never.
    Never,
}

/// What may still be spent on trees, in hundredths of a search from both ends.
#[derive(Clone, Copy, Debug)]
pub(crate) struct Budget {
    /// What may still be spent.
    spare: u64,
    /// The most that may be kept for later: what as many trees cost as there may be at once. So a
    /// long time in which trees save much pays for each tree once more, and not for more.
    most: u64,
}

impl Budget {
    /// The budget of an empty set of trees, which may have at most `trees` trees.
    pub(crate) fn new(trees: usize) -> Budget {
        Budget {
            spare: 0,
            most: trees.min(MOST_TREES) as u64 * TREE_COST,
        }
    }

    /// Whether the budget pays for one more tree.
    pub(crate) fn pays_for_a_tree(&self) -> bool {
        self.spare >= TREE_COST
    }

    /// Adds the share of one more request without hops.
    pub(crate) fn add_ask(&mut self) {
        self.add(ASK_SHARE);
    }

    /// Takes the cost of a walk by a tree. If the walk has answered the request, adds the cost of
    /// the search that it has saved.
    pub(crate) fn add_walk(&mut self, has_answered: bool) {
        self.take(WALK_COST);
        if has_answered {
            self.add(SEARCH_COST);
        }
    }

    /// Takes the cost of a search that a tree guides. If it has answered the request, adds the cost
    /// of the search from both ends that it has saved.
    pub(crate) fn add_guided(&mut self, has_answered: bool) {
        self.take(GUIDED_COST);
        if has_answered {
            self.add(SEARCH_COST);
        }
    }

    /// Takes the cost of a tree, if one was grown.
    pub(crate) fn take_tree(&mut self, is_grown: bool) {
        if is_grown {
            self.take(TREE_COST);
        }
    }

    /// Adds to what may be spent, up to the most that may be kept.
    fn add(&mut self, cost: u64) {
        self.spare = self.spare.saturating_add(cost).min(self.most);
    }

    /// Takes from what may be spent.
    fn take(&mut self, cost: u64) {
        self.spare = self.spare.saturating_sub(cost);
    }
}
