//! The steps of the search from the head-end that lower bounds guide.

ghost use Rattle.std.specs.Prelude.{◌≡◌, ◌≢◌, ◌+◌, ◌<◌, ◌≤◌, ◌^◌, ℕ, true, IfOk, OnOk, length, slice_get, Some};
ghost use Rattle.cspf_columns.specs.declared.limits.TheConstants.{NO_LINK};
ghost use Rattle.cspf_model.specs.declared.limits.TheConstants.{MOST_ROUTERS};
ghost use Rattle.cspf_model.specs.declared.link.Link.{Link as Linked};
ghost use Rattle.cspf_db.specs.Index.{links_from_index, router_list};
ghost use Rattle.cspf_meet.specs.Guided.{AreGuided, AreStepsGuided, GuidedFalls, IsGuidedWaiting, IsStepGuided};
ghost use Rattle.cspf_meet.specs.Labels.{rank_at};
ghost use Rattle.cspf_meet.specs.Looks.{MayReach};
ghost use Rattle.cspf_model.specs.Admissible.{IsAdmitted};
ghost use Rattle.cspf_walk.specs.Ways.{IsLocatedRequest, IsRankBound, link_step};

use crate::guided::Guided;
use crate::labels::{place_in, rank_in};
use crate::limits::MOST_GUIDED_TURNS;
use crate::look::may_reach;
use cspf_db::NO_LINK;
use cspf_graph::accepts;
use cspf_model::{Link, Request};
use cspf_walk::{LocatedRequest, LowerBounds, step};
use std::alloc::AllocError;

/// Whether the link has the request's bandwidth, in bytes per second, at the setup priority.
#[inline(always)]
fn has_room(link: &Link, request: &Request) -> bool
    ensures { IsAdmitted request.now link.now → result ≡ true }
{
    request.bandwidth <= link.free[usize::from(request.setup)]
}

/// Offers the router at the index `place` the way over a link from a router of the rank `rank`. If
/// this way has a lower rank than the router, a way over it to the tail-end may have at most the
/// rank `guided.most`, and the request may use the link, the router gets this rank and waits. `near`
/// has for each router its rank in the search from the tail-end. Nothing changes if `reverse` is
/// `NO_LINK`.
#[inline(always)]
fn pass<B: LowerBounds>(
    query: LocatedRequest<'_>,
    bounds: &B,
    rank: u64,
    link: &Link,
    place: u16,
    reverse: u16,
    near: &[u64],
    guided: &mut Guided,
) -> Result<(), AllocError>
    requires query { IsLocatedRequest query }
    requires near { length near.now ≡ MOST_ROUTERS }
    requires place { place < length (router_list query.table.now) }
    requires rank { rank < 2 ^ 54 }
    ensures falls { OnOk result (GuidedFalls (B.bound_of bounds.now) guided.old guided.new) }
    ensures passed { OnOk result (reverse ≢ NO_LINK → IsAdmitted query.entry.request.now link.now
        → MayReach query.entry.table.now query.entry.to place
        → IsStepGuided (B.bound_of bounds.now) guided.new.ranks.items guided.new.most rank place (link_step link.now)) }
{
    if !has_room(link, query.request) {
        return Ok(());
    }
    let end = usize::from(place);
    let there = rank + step(link);
    if guided.ranks[end] <= there {
        return Ok(());
    }
    let over = there + bounds.bound(end);
    if over > guided.most || reverse == NO_LINK {
        return Ok(());
    }
    if !accepts(link, query.request) || !may_reach(query.table, query.to, end) {
        return Ok(());
    }
    guided.lower(place, there, over)?;
    guided.meet(there.saturating_add(near[end]));
    Ok(())
}

/// Looks at the links from the router at the index `place`, whose rank is `rank`.
#[inline(always)]
fn look<B: LowerBounds>(
    query: LocatedRequest<'_>,
    bounds: &B,
    place: usize,
    rank: u64,
    near: &[u64],
    guided: &mut Guided,
) -> Result<(), AllocError>
    requires query { IsLocatedRequest query }
    requires near { length near.now ≡ MOST_ROUTERS }
    requires within { place < length (router_list query.table.now) }
    requires rank { rank < 2 ^ 54 }
    ensures falls { OnOk result (GuidedFalls (B.bound_of bounds.now) guided.old guided.new) }
    ensures passed { OnOk result (AreStepsGuided query.entry.table.now query.entry.request.now
        (B.bound_of bounds.now) guided.new.ranks.items guided.new.most rank place) }
{
    let links = query.table.out_at(place);
    let ends = query.table.ends_at(place);
    let reverses = query.table.reverses_at(place);
    for row in 0..links.len() {
        pass(
            query,
            bounds,
            rank,
            &links[row],
            ends[row],
            reverses[row],
            near,
            guided,
        )?;
    }
    Ok(())
}

/// Looks at the router of the least key. Returns whether the search is finished: no key is left, or
/// each way over a waiting router has a greater rank than `guided.most`.
#[inline(always)]
fn turn<B: LowerBounds>(
    query: LocatedRequest<'_>,
    bounds: &B,
    near: &[u64],
    guided: &mut Guided,
) -> Result<bool, AllocError>
    requires query { IsLocatedRequest query }
    requires near { length near.now ≡ MOST_ROUTERS }
    requires bounds { IsRankBound query.table.now query.request.now (B.bound_of bounds.now) }
    requires guided { AreGuided query.table.now query.request.now (B.bound_of bounds.now) guided.old }
    ensures guided { OnOk result (AreGuided query.entry.table.now query.entry.request.now
        (B.bound_of bounds.now) guided.new) }
    ensures most { OnOk result (guided.new.most ≤ guided.old.most) }
{
    let Some(key) = guided.take() else {
        return Ok(true);
    };
    let over = rank_in(key);
    if over > guided.most {
        return Ok(true);
    }
    let place = usize::from(place_in(key));
    let rank = over.saturating_sub(bounds.bound(place));
    if guided.ranks[place] != rank || place >= query.table.routers().len() {
        return Ok(false);
    }
    look(query, bounds, place, rank, near, guided)?;
    Ok(false)
}

/// Goes on until the search is finished, or for `MOST_GUIDED_TURNS` keys.
pub(crate) fn guide<B: LowerBounds>(
    query: LocatedRequest<'_>,
    bounds: &B,
    near: &[u64],
    guided: &mut Guided,
) -> Result<(), AllocError>
    requires query { IsLocatedRequest query }
    requires near { length near.now ≡ MOST_ROUTERS }
    requires bounds { IsRankBound query.table.now query.request.now (B.bound_of bounds.now) }
    requires guided { AreGuided query.table.now query.request.now (B.bound_of bounds.now) guided.old }
    ensures guided { OnOk result (AreGuided query.entry.table.now query.entry.request.now
        (B.bound_of bounds.now) guided.new) }
    ensures most { OnOk result (guided.new.most ≤ guided.old.most) }
{
    for _turn in 0..MOST_GUIDED_TURNS {
        if turn(query, bounds, near, guided)? {
            return Ok(());
        }
    }
    Ok(())
}
