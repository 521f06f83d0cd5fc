//! The steps of the search in the corridor.

ghost use Rattle.std.specs.Prelude.{◌≡◌, ◌≢◌, ◌+◌, ◌<◌, ◌≤◌, ℕ, true, IfOk, OnOk, length};
ghost use Rattle.cspf_columns.specs.declared.limits.TheConstants.{NO_LINK};
ghost use Rattle.cspf_db.specs.Index.{links_of, router_list};
ghost use Rattle.cspf_meet.specs.Corridors.{AreNarrowed, NoneNeedsLook, CorridorFalls, IsCorridor, IsLinkNarrowed};
ghost use Rattle.cspf_meet.specs.Labels.{rank_at};
ghost use Rattle.cspf_walk.specs.Ways.{IsLocatedRequest};

use crate::bounds::HeadBounds;
use crate::corridor::Corridor;
use crate::limits::MOST_TURNS;
use crate::look::may_reach;
use cspf_db::NO_LINK;
use cspf_graph::accepts;
use cspf_walk::{LocatedRequest, step};
use std::alloc::AllocError;

/// Offers the router at the index `place` the way over the link at the index `reverse` of the
/// table's links. The way from the end of this link on has the rank `base`. If the way has a lower
/// rank than the router, may be a part of a way of the least rank from the head-end, and the
/// request may use the link, the router gets this rank and waits. If `reverse` is `NO_LINK`,
/// nothing changes.
fn pass(
    query: LocatedRequest<'_>,
    head: HeadBounds<'_>,
    place: u16,
    reverse: u16,
    base: u64,
    corridor: &mut Corridor,
) -> Result<(), AllocError>
    requires query { IsLocatedRequest query }
    requires place { place < length (router_list query.table.now) }
    requires within { reverse ≢ NO_LINK → reverse < length (links_of query.table.now) }
    requires base { base ≤ head.most }
    ensures falls { OnOk result (CorridorFalls corridor.old corridor.new) }
    ensures passed { OnOk result (IsLinkNarrowed query.entry.table.now query.entry.request.now
        head.entry base query.entry.from place reverse corridor.new.near.items) }
{
    let from = usize::from(place);
    if corridor.near[from] <= base || reverse == NO_LINK {
        return Ok(());
    }
    let link = &query.table.links()[usize::from(reverse)];
    let rank = base + step(link);
    if corridor.near[from] <= rank || rank + head.bound(from) > head.most {
        return Ok(());
    }
    if !accepts(link, query.request) {
        return Ok(());
    }
    if !may_reach(query.table, query.from, from) {
        return Ok(());
    }
    corridor.lower(place, rank)?;
    Ok(())
}

/// Looks at the links to the router at the index `place`, whose rank is `base`, and finds these
/// links as the reverses of the links from this router.
fn look(
    query: LocatedRequest<'_>,
    head: HeadBounds<'_>,
    place: usize,
    base: u64,
    corridor: &mut Corridor,
) -> Result<(), AllocError>
    requires query { IsLocatedRequest query }
    requires within { place < length (router_list query.table.now) }
    requires base { base ≤ head.most }
    ensures falls { OnOk result (CorridorFalls corridor.old corridor.new) }
    ensures passed { OnOk result (AreNarrowed query.entry.table.now query.entry.request.now
        head.entry corridor.new.near.items base place) }
{
    let ends = query.table.ends_at(place);
    let reverses = query.table.reverses_at(place);
    for row in 0..ends.len() {
        pass(query, head, ends[row], reverses[row], base, corridor)?;
    }
    Ok(())
}

/// Looks at the first router that waits in the corridor. Returns whether no router waits.
fn turn(
    query: LocatedRequest<'_>,
    head: HeadBounds<'_>,
    corridor: &mut Corridor,
) -> Result<bool, AllocError>
    requires query { IsLocatedRequest query }
    requires corridor { IsCorridor query.table.now query.request.now head corridor.old }
    ensures corridor { OnOk result (IsCorridor query.entry.table.now query.entry.request.now
        head.entry corridor.new) }
    ensures past { IfOk result (λ done. done ≡ true
        → NoneNeedsLook query.entry.table.now query.entry.request.now head.entry corridor.new.near.items) }
    ensures lower { OnOk result ((v : ℕ)
        → rank_at corridor.new.near.items v ≤ rank_at corridor.old.near.items v) }
{
    let Some(place) = corridor.todo.pop_front() else {
        return Ok(true);
    };
    let place = usize::from(place);
    if place >= query.table.routers().len() || corridor.near[place] > head.most {
        return Ok(false);
    }
    let base = corridor.near[place];
    look(query, head, place, base, corridor)?;
    Ok(false)
}

/// Looks at routers of the corridor until no router waits, or `MOST_TURNS` times. Returns whether
/// no router waits.
pub(crate) fn narrow(
    query: LocatedRequest<'_>,
    head: HeadBounds<'_>,
    corridor: &mut Corridor,
) -> Result<bool, AllocError>
    requires query { IsLocatedRequest query }
    requires corridor { IsCorridor query.table.now query.request.now head corridor.old }
    ensures past { IfOk result (λ done. done ≡ true
        → NoneNeedsLook query.entry.table.now query.entry.request.now head.entry corridor.new.near.items) }
    ensures lower { OnOk result ((v : ℕ)
        → rank_at corridor.new.near.items v ≤ rank_at corridor.old.near.items v) }
{
    for _turn in 0..MOST_TURNS {
        if turn(query, head, corridor)? {
            return Ok(true);
        }
    }
    Ok(false)
}
