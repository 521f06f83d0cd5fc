//! The search from the head-end that lower bounds guide, and the route that follows from it.

ghost use Rattle.std.specs.Prelude.{◌≡◌, ◌+◌, ◌<◌, ◌≤◌, IfOk, IfSome, OnOk, ℕ, true, length};
ghost use Rattle.cspf_model.specs.declared.limits.TheConstants.{MOST_ROUTERS};
ghost use Rattle.cspf_model.specs.Best.{HasEnds, IsBestAnswer, IsBestRoute};
ghost use Rattle.cspf_model.specs.Outcome.{answer_of};
ghost use Rattle.cspf_meet.specs.declared.limits.TheConstants.{NO_WAY};
ghost use Rattle.cspf_meet.specs.Guided.{AreGuided, IsGuidedWaiting, guided_bound};
ghost use Rattle.cspf_meet.specs.Labels.{rank_at};
ghost use Rattle.cspf_meet.specs.Looks.{AreLookedAt, LeadsBack};
ghost use Rattle.cspf_walk.specs.Ways.{IsLocatedRequest, IsRankBound};

use crate::bounds::{HeadBounds, RankBounds};
use crate::corridor::Corridor;
use crate::direction::Direction;
use crate::edge::least_of_keys;
use crate::guide::guide;
use crate::guided::Guided;
use crate::labels::{Labels, rank_in};
use crate::limits::{FEW, MOST_BACK_TURNS, NO_WAY};
use crate::look::turn;
use crate::narrow::narrow;
use crate::search::is_cut_off;
use cspf_db::Table;
use cspf_graph::listed;
use cspf_model::{Outcome, Request, Route};
use cspf_walk::{LocatedRequest, LowerBounds, follow};
use std::alloc::{AllocError, Global};

/// For each router, the greater of two lower bounds of the rank of a way to the tail-end.
#[derive(Clone, Copy)]
struct GuidedBounds<'a, 'b, B> {
    /// The bounds that guide the search.
    bounds: &'a B,
    /// The bounds that follow from the search.
    ranks: RankBounds<'b>,
}

impl<B: LowerBounds> LowerBounds for GuidedBounds<'_, '_, B> {
    ghost bound_of = { λ a. guided_bound (B.bound_of a.bounds.now) a.ranks };

    fn bound(&self, place: usize) -> u64 {
        self.bounds.bound(place).max(self.ranks.bound(place))
    }
}

/// Whether each way over a waiting router has a greater rank than `guided.most`.
fn is_finished(guided: &Guided) -> bool
    ensures { result ≡ true → (bounds : ℕ → ℕ) (v : ℕ) → v < MOST_ROUTERS → IsGuidedWaiting bounds guided.now v
        → guided.now.most < rank_at guided.now.ranks.items v + bounds v }
{
    least_of_keys(guided.heap.as_slice()) > guided.most && rank_in(guided.next) > guided.most
}

/// The bounds from the head-end that follow from the search.
fn head_of(guided: &Guided) -> HeadBounds<'_>
    ensures ahead { result.ahead.now ≡ guided.now.ranks.items }
    ensures edge { result.edge ≡ guided.now.most }
    ensures most { result.most ≡ guided.now.most }
{
    HeadBounds {
        ahead: &guided.ranks,
        edge: guided.most,
        most: guided.most,
    }
}

/// Goes on with the search from the tail-end while only a few routers wait in it, for at most
/// `MOST_BACK_TURNS` keys. Returns the least rank found of a way from the head-end to the tail-end,
/// or `NO_WAY`. `others` has for each router its rank in the search from the head-end.
fn look_back(
    query: LocatedRequest<'_>,
    others: &[u64],
    back: &mut Labels,
) -> Result<u64, AllocError>
    requires query { IsLocatedRequest query }
    requires others { length others.now ≡ MOST_ROUTERS }
    requires looked { AreLookedAt (LeadsBack query.table.now query.request.now) back.old NO_WAY }
    requires end { rank_at back.old.ranks.items query.to ≡ 0 }
    ensures small { IfOk result (λ most. most ≤ NO_WAY) }
    ensures looked { IfOk result (AreLookedAt
        (LeadsBack query.entry.table.now query.entry.request.now) back.new) }
    ensures end { OnOk result (rank_at back.new.ranks.items query.entry.to ≡ 0) }
{
    let mut most = NO_WAY;
    for _turn in 0..MOST_BACK_TURNS {
        if back.is_done() || back.waiting() > FEW {
            return Ok(most);
        }
        most = turn(query, Direction::Back, 0, most, others, back)?;
    }
    Ok(most)
}

/// The least route, if it follows from what the search that `bounds` guide and the search in the
/// corridor find. `back` has the labels of the search from the tail-end.
fn guided_route<B: LowerBounds>(
    alloc: Global,
    query: LocatedRequest<'_>,
    bounds: &B,
    guided: &Guided,
    back: Labels,
) -> Result<Option<Route>, AllocError>
    requires query { IsLocatedRequest query }
    requires bounds { IsRankBound query.table.now query.request.now (B.bound_of bounds.now) }
    requires guided { AreGuided query.table.now query.request.now (B.bound_of bounds.now) guided.now }
    requires back { AreLookedAt (LeadsBack query.table.now query.request.now) back guided.now.most }
    requires end { rank_at back.ranks.items query.to ≡ 0 }
    ensures { IfOk result (λ found. IfSome found
        (IsBestRoute query.entry.table.now query.entry.request.now)) }
{
    if guided.most == NO_WAY || !is_finished(guided) {
        return Ok(None);
    }
    let head = head_of(guided);
    let mut corridor = Corridor::begin(alloc, head, back)?;
    if !narrow(query, head, &mut corridor)? {
        return Ok(None);
    }
    let ranks = RankBounds {
        head,
        near: &corridor.near,
    };
    let bounds = GuidedBounds { bounds, ranks };
    follow(alloc, query, &bounds)
}

/// The best outcome, if it follows from the search from the tail-end, or from a search that `bounds`
/// guide.
fn answer<B: LowerBounds>(
    alloc: Global,
    query: LocatedRequest<'_>,
    bounds: &B,
) -> Result<Option<Outcome>, AllocError>
    requires query { IsLocatedRequest query }
    requires ends { HasEnds query.table.now query.request.now }
    requires bounds { IsRankBound query.table.now query.request.now (B.bound_of bounds.now) }
    ensures { IfOk result (λ found. IfSome found (λ outcome.
        IsBestAnswer query.entry.table.now query.entry.request.now (answer_of outcome))) }
{
    let mut guided = Guided::begin(alloc, query.from as u16, bounds.bound(query.from))?;
    let mut back = Labels::begin(alloc, query.to as u16)?;
    let most = look_back(query, &guided.ranks, &mut back)?;
    if is_cut_off(query, &back, most) {
        return Ok(Some(Outcome::NoRoute));
    }
    guided.meet(most);
    guide(query, bounds, &back.ranks, &mut guided)?;
    match guided_route(alloc, query, bounds, &guided, back)? {
        Some(route) => Ok(Some(Outcome::Route(route))),
        None => Ok(None),
    }
}

/// The answer of `best` of `cspf_search` to a request without hops in the table's database, found by
/// a search from the head-end that `bounds` guide. A search from the tail-end goes before it while
/// only a few routers wait. The result is `None` if the request has hops, or if the answer doesn't
/// follow from what the searches find. The search that `bounds` guide looks at no more than 512
/// routers.
pub fn best_by_bounds<B: LowerBounds>(
    alloc: Global,
    table: &Table,
    request: &Request,
    bounds: &B,
) -> Result<Option<Outcome>, AllocError>
    requires { IsRankBound table.now request.now (B.bound_of bounds.now) }
    ensures { IfOk result (λ found. IfSome found (λ outcome.
        IsBestAnswer table.now request.now (answer_of outcome))) }
{
    listed(table);
    if !request.hops.is_empty() {
        return Ok(None);
    }
    let (Some(from), Some(to)) = (table.place_of(request.from), table.place_of(request.to)) else {
        return Ok(None);
    };
    let query = LocatedRequest {
        table,
        request,
        from,
        to,
    };
    answer(alloc, query, bounds)
}
