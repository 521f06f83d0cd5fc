ghost use Rattle.cspf_search.specs.declared.limits.TheConstants.{MOST_LIFT};
ghost use Rattle.std.specs.Prelude.{◌≡◌, ◌<◌, ◌≤◌, length, slice_index_or};
ghost use Rattle.cspf_search.specs.Frontier.{lift};

use crate::limits::COST_WEIGHT;

/// The goal of a search (the tail-end in the last leg), how far legs are closed, and the lower
/// bounds of the cost to the goal.
#[derive(Clone, Copy)]
pub(crate) struct Goal<'a> {
    /// The index of the goal's state: the tail-end in the last leg.
    pub(crate) at: usize,
    /// The floor: all states at indexes below it are in closed legs. A leg is closed once all its
    /// targets that a route may visit are settled, and then all earlier legs are closed too. Other
    /// states of a closed leg need not be settled. A state is a router in a leg, and a leg's
    /// targets are the routers where it may end.
    pub(crate) floor: usize,
    /// For each state (a router in a leg), a lower bound of the cost from this state to the
    /// tail-end.
    pub(crate) bounds: &'a [u32],
}

/// The lift of the state at the index `at`: how much the state's key in the heap exceeds the rank
/// in its label. The lift is the state's bound times `COST_WEIGHT`, the weight of one unit of cost.
/// A state is a router in a leg, and a label holds the best walk found so far to a state. A walk's
/// rank packs its cost and its number of links into one number.
pub(crate) fn lift(goal: Goal<'_>, at: usize) -> u64
    requires within { at < length goal.bounds.now }
    ensures value { result ≡ lift goal.entry at }
    ensures small { result ≤ MOST_LIFT }
{
    u64::from(goal.bounds[at]) * COST_WEIGHT
}
