ghost use Rattle.std.specs.Prelude.{◌≡◌, ◌<◌, ◌⊎◌, true, length};
ghost use Rattle.cspf_search.specs.Frontier.{AreTargetsSettled, IsRaised};
ghost use Rattle.cspf_search.specs.Query.{IsQuery};

use crate::labels::Label;
use crate::query::Query;
use cspf_model::MOST_ROUTERS;

/// Whether the leg of the state at the index `at` is finished: all targets at which a route may go
/// on to the next leg are settled. In the last leg the result is `false`, because this leg leads to
/// no hop. A state is a router in a leg, and a leg's targets are the routers where it may end.
fn are_settled(query: Query<'_>, labels: &[Label], at: usize) -> bool
    requires query { IsQuery query }
    requires many { length labels.now ≡ length query.roles.now }
    ensures { result ≡ true
        → AreTargetsSettled query.entry.table.now query.entry.roles.now labels.now at }
{
    let first = at - at % MOST_ROUTERS;
    if at / MOST_ROUTERS >= query.targets.len() {
        return false;
    }
    for place in &query.targets[at / MOST_ROUTERS] {
        let index = first + usize::from(*place);
        if query.roles[index].target && labels[index].rank != 0 {
            return false;
        }
    }
    true
}

/// The floor after the state at the index `at` is settled. All states at indexes below the floor
/// are in closed legs. A leg is closed once all its targets at which a route may go on to the next
/// leg are settled, and then all earlier legs are closed too. If `at` is the last such target of a
/// leg to a hop, the floor becomes the first index of the next leg. Otherwise the floor doesn't
/// change. A state is a router in a leg, and a leg's targets are the routers where it may end.
pub(crate) fn raised(query: Query<'_>, labels: &[Label], floor: usize, at: usize) -> usize
    requires query { IsQuery query }
    requires within { at < length query.roles.now }
    requires many { length labels.now ≡ length query.roles.now }
    ensures { (result ≡ floor)
        ⊎ IsRaised query.entry.table.now query.entry.roles.now labels.now at result }
{
    if query.roles[at].target && are_settled(query, labels, at) {
        at - at % MOST_ROUTERS + MOST_ROUTERS
    } else {
        floor
    }
}
