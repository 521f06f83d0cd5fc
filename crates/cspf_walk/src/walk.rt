//! The route that follows from lower bounds of ranks without a search. A link that the request may
//! use is *tight* if the bound falls over the link by exactly the link's step.
//!
//! If a route has the rank that the bound gives for the head-end, all its links are tight. If two
//! such routes part at a router, the link that comes earlier in the table has the lower local
//! address, so its route comes first. So the walk that follows the first tight link from each router
//! is the least route, if it leads to the tail-end.

ghost use Rattle.std.specs.Prelude.{◌≡◌, ◌<◌, ◌↔◌, IfOk, IfSome, IsTrue, length};
ghost use Rattle.cspf_model.specs.Best.{IsBestRoute};
ghost use Rattle.cspf_db.specs.Index.{router_list};
ghost use Rattle.cspf_walk.specs.Edges.{IsEdge};
ghost use Rattle.cspf_walk.specs.TightWalks.{IsNextTight, IsTight};
ghost use Rattle.cspf_walk.specs.Ways.{IsLocatedRequest, IsRankBound};

use crate::bounds::{LowerBounds, step};
use crate::edge::Edge;
use crate::limits::{COST_WEIGHT, ROOM_FOR_LINKS};
use crate::located_request::LocatedRequest;
use cspf_db::NO_LINK;
use cspf_graph::{accepts, may_lead_over};
use cspf_model::{Route, route_without_hops};
use std::alloc::{AllocError, Global};

/// Whether a link from the router at the index `place` is tight for the request. The bound of this
/// router is `left`.
fn is_tight<B: LowerBounds>(
    query: LocatedRequest<'_>,
    bounds: &B,
    place: usize,
    left: u64,
    edge: Edge<'_>,
) -> bool
    requires query { IsLocatedRequest query }
    requires within { place < length (router_list query.table.now) }
    requires left { left ≡ B.bound_of bounds.now place }
    requires edge { IsEdge query.table.now place edge }
    ensures { IsTrue result ↔ IsTight query.entry.table.now query.entry.request.now
        (B.bound_of bounds.now) place edge.entry.link.now }
{
    if step(edge.link) + bounds.bound(edge.end) != left || edge.reverse == NO_LINK {
        return false;
    }
    accepts(edge.link, query.request) && may_lead_over(query.table, query.request, edge.end)
}

/// The first tight link from the router at the index `place`, if there is one.
fn tight_from<'a, B: LowerBounds>(
    query: LocatedRequest<'a>,
    bounds: &B,
    place: usize,
) -> Option<Edge<'a>>
    requires query { IsLocatedRequest query }
    requires within { place < length (router_list query.table.now) }
    ensures { IfSome result (IsNextTight query.entry.table.now query.entry.request.now
        (B.bound_of bounds.now) place) }
{
    let left = bounds.bound(place);
    let links = query.table.out_at(place);
    let ends = query.table.ends_at(place);
    let reverses = query.table.reverses_at(place);
    for row in 0..links.len() {
        let link = &links[row];
        let end = ends[row];
        let reverse = reverses[row];
        let edge = Edge {
            row,
            link,
            metric: link.metric,
            end: usize::from(end),
            reverse,
        };
        if is_tight(query, bounds, place, left, edge) {
            return Some(edge);
        }
    }
    None
}

/// The route that follows the first tight link from each router, beginning at the head-end. The
/// result is `None` if these links don't lead to the tail-end.
pub fn follow<B: LowerBounds>(
    alloc: Global,
    query: LocatedRequest<'_>,
    bounds: &B,
) -> Result<Option<Route>, AllocError>
    requires query { IsLocatedRequest query }
    requires bounds { IsRankBound query.table.now query.request.now (B.bound_of bounds.now) }
    ensures { IfOk result (λ found. IfSome found
        (IsBestRoute query.entry.table.now query.entry.request.now)) }
{
    // Law: if a request has no hops, its routes are the walks to the tail-end.
    route_without_hops();
    // The contract of `links` says that the links of a router are sorted by their local addresses.
    let _rows = query.table.links();
    let mut links = Vec::with_capacity(alloc, ROOM_FOR_LINKS)?;
    let mut place = query.from;
    for _taken in 0..query.table.routers().len() {
        if place == query.to {
            // The copy has no spare capacity, because a route may be kept for long.
            let kept = Vec::from_slice(alloc, links.as_slice())?;
            let cost = (bounds.bound(query.from) - links.len() as u64) / COST_WEIGHT;
            return Ok(Some(Route::new(kept, cost)));
        }
        let Some(edge) = tight_from(query, bounds, place) else {
            return Ok(None);
        };
        links.push(*edge.link)?;
        place = edge.end;
    }
    Ok(None)
}
