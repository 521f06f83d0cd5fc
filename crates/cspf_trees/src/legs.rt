//! Answers requests leg by leg, if all their hops are loose, and the prefix of each hop has only
//! one owner. Each leg is answered as a request without hops, with the tree of this request's
//! class. The best routes of the legs, one after the other, are the best route of the request. A
//! class is all requests with one tail-end and the same affinities.

ghost use Rattle.std.specs.Prelude.{◌≡◌, ◌≢◌, ◌+◌, ◌<◌, ℕ, true, IfOk, IfSome, length, slice_get};
ghost use Rattle.cspf_model.specs.Best.{IsBestAnswer};
ghost use Rattle.cspf_model.specs.Outcome.{answer_of};
ghost use Rattle.cspf_model.specs.Targets.{IsLoose};
ghost use Rattle.cspf_trees.specs.LegSteps.{IsLegStep};
ghost use Rattle.cspf_trees.specs.LegsInTurn.{AreSoleTargets, AsksForLeg, IsLeastSoFar, IsLegAnswer, IsSoleTarget};
ghost use Rattle.cspf_trees.specs.Trees.{AreTreesOf};

use crate::leg_walk::LegWalk;
use crate::trees::Trees;
use cspf_addr::{Addr, Hops};
use cspf_db::Table;
use cspf_model::{MOST_LEGS, Outcome, Request, route_without_hops};
use std::alloc::{AllocError, Global};

/// What follows for the request's routes from the answer to one more leg.
enum LegStep {
    /// The walk now leads to the target of the leg (a router where it may end). It is the least
    /// walk through the legs so far.
    On,
    /// The request has no route.
    NoRoute,
    /// The answers to the legs don't show whether the request has a route.
    Unknown,
}

/// Whether a request has hops and all of them are loose.
pub(crate) fn has_loose_hops(request: &Request) -> bool
    ensures { result ≡ true → (at : ℕ) → IsLoose (slice_get request.now.hops at) }
{
    !request.hops.is_empty() && request.hops.as_slice().iter().all(|hop| hop.loose)
}

/// The only target of each leg. The result is `None` if the request has no hops, if a hop isn't
/// loose, or if a leg doesn't have exactly one target. A leg's targets are the routers where it may
/// end.
fn sole_targets(
    trees: &mut Trees,
    alloc: Global,
    table: &Table,
    request: &Request,
) -> Result<Option<Vec<Addr>>, AllocError>
    requires { AreTreesOf table.now trees.old }
    ensures trees { AreTreesOf table.now trees.new }
    ensures most { trees.new.most ≡ trees.old.most }
    ensures targets { IfOk result (λ found. IfSome found (λ targets.
        AreSoleTargets table.now request.now targets.items)) }
{
    if !has_loose_hops(request) {
        return Ok(None);
    }
    let mut targets = Vec::with_capacity(alloc, MOST_LEGS)?;
    for hop in request.hops.as_slice() {
        let Some(router) = trees.sole_owner(alloc, table, hop.prefix)? else {
            return Ok(None);
        };
        targets.push(router)?;
    }
    targets.push(request.to)?;
    Ok(Some(targets))
}

/// The request for one leg of another request, from the router `from` to the router `to`.
fn leg_request(request: &Request, from: Addr, to: Addr) -> Request
    requires { from ≢ to }
    ensures { AsksForLeg request.now result from to }
{
    Request {
        id: request.id,
        from,
        to,
        setup: request.setup,
        bandwidth: request.bandwidth,
        exclude_any: request.exclude_any,
        include_any: request.include_any,
        include_all: request.include_all,
        hops: Hops::none(),
    }
}

/// The best answer to the request for one leg of another request, from the router `from` to the
/// router `to`.
fn answer_leg(
    trees: &mut Trees,
    alloc: Global,
    table: &Table,
    request: &Request,
    from: Addr,
    to: Addr,
) -> Result<Outcome, AllocError>
    requires ends { from ≢ to }
    requires trees { AreTreesOf table.now trees.old }
    ensures trees { AreTreesOf table.now trees.new }
    ensures most { trees.new.most ≡ trees.old.most }
    ensures answer { IfOk result (λ outcome.
        IsLegAnswer table.now request.now from to (answer_of outcome)) }
{
    let leg = leg_request(request, from, to);
    trees.best_by_row(alloc, table, &leg)
}

/// Answers one more leg: from the end of the walk to the leg's only target `to` (a router where the
/// leg may end). Appends the leg's route to the walk.
fn go_on(
    trees: &mut Trees,
    alloc: Global,
    table: &Table,
    request: &Request,
    leg: usize,
    to: Addr,
    walk: &mut LegWalk,
) -> Result<LegStep, AllocError>
    requires trees { AreTreesOf table.now trees.old }
    requires sole { IsSoleTarget table.now request.now leg to }
    requires few { leg < length request.now.hops + 1 }
    requires least { IsLeastSoFar table.now request.now leg walk.old.at walk.old.links.items }
    ensures trees { AreTreesOf table.now trees.new }
    ensures most { trees.new.most ≡ trees.old.most }
    ensures step { IfOk result (IsLegStep table.now request.now (leg + 1) walk.new) }
{
    // Law: if a request has no hops, its routes are the walks to the tail-end.
    route_without_hops();
    if walk.at == to {
        return Ok(LegStep::On);
    }
    if !walk.may_go_on(table) {
        return Ok(LegStep::Unknown);
    }
    match answer_leg(trees, alloc, table, request, walk.at, to)? {
        Outcome::Route(route) => {
            if walk.append(&route, to)? {
                Ok(LegStep::On)
            } else {
                Ok(LegStep::Unknown)
            }
        }
        Outcome::NoRoute => Ok(LegStep::NoRoute),
        Outcome::UnknownFrom | Outcome::UnknownTo => Ok(LegStep::Unknown),
    }
}

/// The best answer to a request, found leg by leg. The result is `None` if the request has no hops,
/// if a hop isn't loose, or if the prefix of a hop doesn't have exactly one owner. It is also
/// `None` if the head-end or the tail-end is unknown, if the walk would pass a router without
/// transit between two legs, or if the walk would have more than `MOST_ROUTE_LINKS` links.
fn best_by_legs(
    trees: &mut Trees,
    alloc: Global,
    table: &Table,
    request: &Request,
) -> Result<Option<Outcome>, AllocError>
    requires { AreTreesOf table.now trees.old }
    ensures trees { AreTreesOf table.now trees.new }
    ensures most { trees.new.most ≡ trees.old.most }
    ensures best { IfOk result (λ found. IfSome found (λ outcome.
        IsBestAnswer table.now request.now (answer_of outcome))) }
{
    let Some(targets) = sole_targets(trees, alloc, table, request)? else {
        return Ok(None);
    };
    if !table.has_router(request.from) || !table.has_router(request.to) {
        return Ok(None);
    }
    let mut walk = LegWalk::begin(alloc, request.from);
    for leg in 0..targets.len() {
        match go_on(trees, alloc, table, request, leg, targets[leg], &mut walk)? {
            LegStep::On => {}
            LegStep::NoRoute => return Ok(Some(Outcome::NoRoute)),
            LegStep::Unknown => return Ok(None),
        }
    }
    Ok(Some(Outcome::Route(walk.route(alloc)?)))
}

impl Trees {
    /// The best answer to a request in the table's database, which must be the database of the
    /// trees. The answer is that of `best` of `cspf_search`. If all hops are loose, and the prefix
    /// of each hop has only one owner, each leg is answered with the tree of its class. A class is
    /// all requests with one tail-end and the same affinities.
    pub fn best(
        &mut self,
        alloc: Global,
        table: &Table,
        request: &Request,
    ) -> Result<Outcome, AllocError>
        requires { AreTreesOf table.now self.old }
        ensures trees { AreTreesOf table.now self.new }
        ensures most { self.new.most ≡ self.old.most }
        ensures best { IfOk result (λ outcome.
            IsBestAnswer table.now request.now (answer_of outcome)) }
    {
        if let Some(outcome) = best_by_legs(self, alloc, table, request)? {
            return Ok(outcome);
        }
        self.best_by_row(alloc, table, request)
    }
}
