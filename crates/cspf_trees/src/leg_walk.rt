//! The walk along the routes of the first legs of a request.

ghost use Rattle.std.specs.Prelude.{◌≡◌, ◌+◌, ◌<◌, ◌≤◌, ◌^◌, ◌↔◌, ◌⊎◌, true, false, IfOk, IsTrue, [], length};
ghost use Rattle.cspf_model.specs.Walks.{cost_of};
ghost use Rattle.cspf_model.specs.declared.limits.TheConstants.{MOST_ROUTE_LINKS};

use cspf_addr::Addr;
use cspf_db::Table;
use cspf_model::{Link, MOST_ROUTE_LINKS, Route};
use std::alloc::{AllocError, Global};

/// A walk of at most `MOST_ROUTE_LINKS` links, and the router at which it ends.
#[derive(Drop)]
pub(crate) struct LegWalk {
    /// The router at which the walk ends.
    pub(crate) at: Addr,
    /// The links.
    pub(crate) links: Vec<Link>,
    ghost most: { length links.items ≤ MOST_ROUTE_LINKS },
}

/// The sum of the links' metrics.
fn cost_along(links: &[Link]) -> u64
    requires { length links.now ≤ MOST_ROUTE_LINKS }
    ensures value { result ≡ cost_of links.now }
    ensures small { result < 2 ^ 45 }
{
    let mut cost = 0;
    for link in links {
        cost += u64::from(link.metric);
    }
    cost
}

impl LegWalk {
    ghost use Rattle.cspf_model.specs.Database.{HasTransit};
    ghost use Rattle.cspf_model.specs.RouteLinks.{AreLinked};
    ghost use Rattle.cspf_trees.specs.LegSteps.{IsLonger};

    /// A walk without links that begins at a router.
    pub(crate) fn begin(alloc: Global, at: Addr) -> LegWalk
        ensures at { result.at ≡ at }
        ensures links { result.links.items ≡ [] }
    {
        LegWalk {
            at,
            links: Vec::new(alloc),
        }
    }

    /// Whether the walk may be continued: the router at its end has transit, or the walk has no
    /// links yet.
    pub(crate) fn may_go_on(&self, table: &Table) -> bool
        ensures { IsTrue result
            ↔ (HasTransit table.now self.now.at ⊎ (self.now.links.items ≡ [])) }
    {
        self.links.is_empty() || table.transit(self.at)
    }

    /// Appends the links of a route that ends at the router `to`, and returns `true`. If the walk
    /// would then have more than `MOST_ROUTE_LINKS` links, appends nothing and returns `false`.
    pub(crate) fn append(&mut self, route: &Route, to: Addr) -> Result<bool, AllocError>
        ensures longer { IfOk result (λ fits.
            fits ≡ true → IsLonger route.now to self.old self.new) }
        ensures full { IfOk result (λ fits. fits ≡ false
            → MOST_ROUTE_LINKS < length self.old.links.items + length route.now) }
    {
        let links = route.links();
        if links.len() > MOST_ROUTE_LINKS - self.links.len() {
            return Ok(false);
        }
        self.links.extend_from_slice(links)?;
        self.at = to;
        Ok(true)
    }

    /// The links of the walk as a route.
    pub(crate) fn route(&self, alloc: Global) -> Result<Route, AllocError>
        requires some { 0 < length self.now.links.items }
        requires linked { AreLinked self.now.links.items }
        ensures { IfOk result (λ route. route ≡ self.now.links.items) }
    {
        // The copy has no spare capacity, because a route may be kept for a long time.
        let links = Vec::from_slice(alloc, self.links.as_slice())?;
        let cost = cost_along(&self.links);
        Ok(Route::new(links, cost))
    }
}
