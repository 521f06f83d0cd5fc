//! Ways that are given by rows of the table.

ghost use Rattle.std.specs.Prelude.{◌≡◌, ◌<◌, ◌↔◌, length, true, IsTrue, IfOk, IfSome};
ghost use Rattle.cspf_model.specs.Database.{IsLinkOf};
ghost use Rattle.cspf_model.specs.Admissible.{MayLeave};
ghost use Rattle.cspf_model.specs.NetworkLaws.{MayComeNext};
ghost use Rattle.cspf_model.specs.RouteLinks.{AreLinked};
ghost use Rattle.cspf_model.specs.Walks.{end_of};
ghost use Rattle.cspf_pair.specs.Pairs.{IsWay};

use crate::weights::weight_along;
use cspf_addr::Addr;
use cspf_db::Table;
use cspf_graph::admissible;
use cspf_model::{Link, MOST_ROUTE_LINKS, Request, Route, worked_marks};
use cspf_pair::COST_WEIGHT;
use std::alloc::{AllocError, Global};

/// The least cost that a route doesn't have: 2^45.
const COST_LIMIT: u64 = 35_184_372_088_832;

/// Whether the link begins at the router.
fn begins_at(link: &Link, router: Addr) -> bool
    ensures { IsTrue result ↔ (link.now.from ≡ router) }
{
    link.from == router
}

/// Whether the walk with these links may leave the router where it ends.
fn may_go_on(table: &Table, walk: &[Link], router: Addr) -> bool
    ensures { IsTrue result ↔ MayLeave table.now router (length walk.now) }
{
    walk.is_empty() || table.transit(router)
}

/// Whether the link may continue a walk with the links `walk`, which ends at the router `at`.
fn may_come_next(table: &Table, request: &Request, walk: &[Link], at: Addr, link: &Link) -> bool
    requires link { IsLinkOf table.now link.now }
    requires at { at ≡ end_of request.now.from walk.now }
    ensures { result ≡ true → MayComeNext table.now request.now walk.now link.now }
{
    if !begins_at(link, at) {
        return false;
    }
    if !may_go_on(table, walk, at) {
        return false;
    }
    admissible(table, link, request)
}

/// The route along these links. The result is `None` if there are more than `MOST_ROUTE_LINKS`
/// links, or if their cost is 2^45 or more.
fn route_along(links: Vec<Link>) -> Option<Route>
    requires some { 0 < length links.items }
    requires linked { AreLinked links.items }
    ensures { IfSome result (λ route. route ≡ links.items) }
{
    if links.len() > MOST_ROUTE_LINKS {
        return None;
    }
    let weight = weight_along(&links)?;
    let cost = weight / COST_WEIGHT;
    if cost >= COST_LIMIT {
        return None;
    }
    Some(Route::new(links, cost))
}

/// The links with these indexes in `Table::links`, if they are a way of the request in this order.
pub(crate) fn way_along(
    alloc: Global,
    table: &Table,
    request: &Request,
    rows: &[usize],
) -> Result<Option<Route>, AllocError>
    ensures { IfOk result (λ found. IfSome found (IsWay table.now request.now)) }
{
    // Law: when a link continues a walk, the result is a walk.
    worked_marks();
    let links = table.links();
    let mut way = Vec::with_capacity(alloc, rows.len())?;
    let mut at = request.from;
    for row in rows {
        let Some(link) = links.get(*row) else {
            return Ok(None);
        };
        if !may_come_next(table, request, &way, at, link) {
            return Ok(None);
        }
        way.push(*link)?;
        at = link.to;
    }
    if at != request.to {
        return Ok(None);
    }
    Ok(route_along(way))
}
