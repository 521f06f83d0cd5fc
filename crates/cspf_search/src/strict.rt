//! Strict legs that no route can pass. If a request has such a leg, it has no route, and the search
//! with a heap settles only the head-end.

ghost use Rattle.std.specs.Prelude.{◌≡◌, ◌<◌, true, false, IfSome, length};
ghost use Rattle.cspf_db.specs.Index.{router_list};
ghost use Rattle.cspf_search.specs.Query.{IsQuery};
ghost use Rattle.cspf_graph.specs.Roles.{AreTargetsOf};
ghost use Rattle.cspf_graph.specs.Lists.{router_at};
ghost use Rattle.cspf_search.specs.Strict.{IsApart, IsBroken};

use crate::query::Query;
use cspf_graph::{admissible, is_loose, may_be_left};
use cspf_model::MOST_ROUTERS;

/// Whether a route that has reached the router at the index `place` may go on to the next leg, at
/// this router or after one more link. `leg_index` is the index of the hop that the leg leads to.
fn joins(query: Query<'_>, leg_index: usize, place: u16) -> bool
    requires query { IsQuery query }
    requires leg { leg_index < length query.request.now.hops }
    requires place { place < length (router_list query.table.now) }
    ensures { result ≡ false → IsApart query.entry.table.now query.entry.request.now leg_index
        (router_at query.entry.table.now place) }
{
    let first = leg_index * MOST_ROUTERS;
    let at = usize::from(place);
    if query.roles[first + at].target {
        return true;
    }
    if !may_be_left(query.table, at, query.request) {
        return false;
    }
    let links = query.table.out_at(at);
    let ends = query.table.ends_at(at);
    for row in 0..links.len() {
        let end = usize::from(ends[row]);
        if query.roles[first + end].target && admissible(query.table, &links[row], query.request) {
            return true;
        }
    }
    false
}

/// Whether the leg to the hop at the index `leg_index` is strict and no route can pass it. `starts`
/// are the routers at which the leg begins, by their indexes in the list of routers.
pub(crate) fn is_broken(query: Query<'_>, leg_index: usize, starts: &[u16]) -> bool
    requires query { IsQuery query }
    requires leg { leg_index < length query.request.now.hops }
    requires starts { AreTargetsOf query.table.now query.request.now leg_index starts.now }
    ensures { result ≡ true → IsBroken query.entry.table.now query.entry.request.now leg_index }
{
    if is_loose(query.request, leg_index) {
        return false;
    }
    for place in starts {
        if joins(query, leg_index, *place) {
            return false;
        }
    }
    true
}

/// The routers at which the leg to the hop at the index `leg_index` begins, by their indexes in the
/// list of routers. The first leg begins at the head-end, and each other leg begins at the targets
/// of the leg before it. A leg's targets are the routers where it may end.
pub(crate) fn starts_of<'a>(query: Query<'a>, head: &'a [u16], leg_index: usize) -> &'a [u16]
    requires query { IsQuery query }
    requires head { AreTargetsOf query.table.now query.request.now 0 head.now }
    requires leg { leg_index < length query.request.now.hops }
    ensures { AreTargetsOf query.entry.table.now query.entry.request.now leg_index result.now }
{
    if leg_index == 0 {
        head
    } else {
        query.targets[leg_index - 1].as_slice()
    }
}

/// The index of the first hop whose leg is strict and can't be passed by any route. `head` has one
/// element: the index of the head-end in the list of routers.
pub(crate) fn first_broken(query: Query<'_>, head: &[u16]) -> Option<usize>
    requires query { IsQuery query }
    requires head { AreTargetsOf query.table.now query.request.now 0 head.now }
    ensures { IfSome result (λ leg. IsBroken query.entry.table.now query.entry.request.now leg) }
{
    for leg_index in 0..query.targets.len() {
        if is_broken(query, leg_index, starts_of(query, head, leg_index)) {
            return Some(leg_index);
        }
    }
    None
}
