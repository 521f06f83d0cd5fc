//! The search from both ends.

ghost use Rattle.std.specs.Prelude.{◌≡◌, ◌<◌, IfOk, IfSome, true, List};
ghost use Rattle.cspf_model.specs.declared.limits.TheConstants.{MOST_ROUTERS};
ghost use Rattle.cspf_model.specs.declared.link.Link.{Link as Linked};
ghost use Rattle.cspf_model.specs.Best.{HasEnds, IsBestAnswer, IsBestRoute};
ghost use Rattle.cspf_model.specs.Outcome.{answer_of};
ghost use Rattle.cspf_model.specs.Routes.{IsRoute};
ghost use Rattle.cspf_meet.specs.declared.limits.TheConstants.{NO_WAY};
ghost use Rattle.cspf_meet.specs.Labels.{rank_at};
ghost use Rattle.cspf_meet.specs.Looks.{AreLookedAt, HasNoneWaiting, LeadsBack};
ghost use Rattle.cspf_meet.specs.Meetings.{IsMeeting};
ghost use Rattle.cspf_walk.specs.Ways.{IsLocatedRequest};

use crate::bounds::RankBounds;
use crate::corridor::Corridor;
use crate::edge::head_bounds;
use crate::labels::Labels;
use crate::limits::NO_WAY;
use crate::meeting::Meeting;
use crate::narrow::narrow;
use cspf_db::Table;
use cspf_graph::listed;
use cspf_model::{Outcome, Request, Route, route_without_hops};
use cspf_walk::{LocatedRequest, follow};
use std::alloc::{AllocError, Global};

/// Whether a search has found all routers that it can reach, and the router with the index `end`
/// isn't one of them.
fn is_cut(labels: &Labels, end: usize) -> bool
    requires { end < MOST_ROUTERS }
    ensures done { result ≡ true → HasNoneWaiting labels.now }
    ensures end { result ≡ true → rank_at labels.now.ranks.items end ≡ NO_WAY }
{
    labels.is_done() && labels.ranks[end] == NO_WAY
}

/// Whether no way leads from the head-end to the tail-end, since the search from the tail-end has
/// found all routers that it can reach, and the head-end isn't one of them. `most` is the least rank
/// found so far of a way from the head-end to the tail-end, or `NO_WAY`.
pub(crate) fn is_cut_off(query: LocatedRequest<'_>, back: &Labels, most: u64) -> bool
    requires query { IsLocatedRequest query }
    requires back { AreLookedAt (LeadsBack query.table.now query.request.now) back.now most }
    requires end { rank_at back.now.ranks.items query.to ≡ 0 }
    ensures { result ≡ true → (route : List Linked)
        → ¬ IsRoute query.entry.table.now query.entry.request.now route }
{
    // Law: if a request has no hops, its routes are the walks to the tail-end.
    route_without_hops();
    if most < NO_WAY {
        return false;
    }
    is_cut(back, query.from)
}

/// Whether no way leads from the head-end to the tail-end, since one of the two searches has found
/// all routers that it can reach, and the other end isn't one of them.
fn is_apart(query: LocatedRequest<'_>, meeting: &Meeting) -> bool
    requires query { IsLocatedRequest query }
    requires meeting { IsMeeting query meeting.now }
    ensures { result ≡ true → (route : List Linked)
        → ¬ IsRoute query.entry.table.now query.entry.request.now route }
{
    // Law: if a request has no hops, its routes are the walks to the tail-end.
    route_without_hops();
    if meeting.most < NO_WAY {
        return false;
    }
    if is_cut(&meeting.ahead, query.to) {
        return true;
    }
    is_cut_off(query, &meeting.back, meeting.most)
}

/// The least route, if it follows from what the two searches and the search in the corridor find.
fn route_of(
    alloc: Global,
    query: LocatedRequest<'_>,
    meeting: Meeting,
) -> Result<Option<Route>, AllocError>
    requires query { IsLocatedRequest query }
    requires meeting { IsMeeting query meeting }
    ensures { IfOk result (λ found. IfSome found
        (IsBestRoute query.entry.table.now query.entry.request.now)) }
{
    let Meeting { ahead, back, most } = meeting;
    let head = head_bounds(&ahead, most);
    let mut corridor = Corridor::begin(alloc, head, back)?;
    if !narrow(query, head, &mut corridor)? {
        return Ok(None);
    }
    let bounds = RankBounds {
        head,
        near: &corridor.near,
    };
    follow(alloc, query, &bounds)
}

/// The best outcome, if it follows from what the searches find.
fn answer(alloc: Global, query: LocatedRequest<'_>) -> Result<Option<Outcome>, AllocError>
    requires query { IsLocatedRequest query }
    requires ends { HasEnds query.table.now query.request.now }
    ensures { IfOk result (λ found. IfSome found (λ outcome.
        IsBestAnswer query.entry.table.now query.entry.request.now (answer_of outcome))) }
{
    let mut meeting = Meeting::begin(alloc, query)?;
    meeting.meet(query)?;
    if is_apart(query, &meeting) {
        return Ok(Some(Outcome::NoRoute));
    }
    match route_of(alloc, query, meeting)? {
        Some(route) => Ok(Some(Outcome::Route(route))),
        None => Ok(None),
    }
}

/// The best answer to a request without hops in the table's database: the answer of `best` of
/// `cspf_search`. The result is `None` if the request has hops, or if the answer doesn't follow from
/// what the searches find.
pub fn best_from_both_ends(
    alloc: Global,
    table: &Table,
    request: &Request,
) -> Result<Option<Outcome>, AllocError>
    ensures { IfOk result (λ found. IfSome found (λ outcome.
        IsBestAnswer table.now request.now (answer_of outcome))) }
{
    listed(table);
    if !request.hops.is_empty() {
        return Ok(None);
    }
    let Some(from) = table.place_of(request.from) else {
        return Ok(Some(Outcome::UnknownFrom));
    };
    let Some(to) = table.place_of(request.to) else {
        return Ok(Some(Outcome::UnknownTo));
    };
    let query = LocatedRequest {
        table,
        request,
        from,
        to,
    };
    answer(alloc, query)
}
