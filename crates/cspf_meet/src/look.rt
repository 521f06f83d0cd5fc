//! The steps of the two searches. A search looks at the links of a waiting router, and lowers the
//! ranks of the routers at the other ends of these links. The rank of a way packs its cost and its
//! number of links into one number.

ghost use Rattle.std.specs.Prelude.{◌≡◌, ◌≢◌, ◌+◌, ◌<◌, ◌≤◌, ◌^◌, ◌↔◌, ℕ, IsTrue, IfOk, OnOk, length};
ghost use Rattle.cspf_columns.specs.declared.limits.TheConstants.{NO_LINK};
ghost use Rattle.cspf_model.specs.declared.limits.TheConstants.{MOST_ROUTERS};
ghost use Rattle.cspf_meet.specs.declared.limits.TheConstants.{NO_WAY};
ghost use Rattle.cspf_db.specs.Index.{router_list};
ghost use Rattle.cspf_walk.specs.Ways.{IsLocatedRequest};
ghost use Rattle.cspf_meet.specs.Labels.{LabelsFall, rank_at};
ghost use Rattle.cspf_meet.specs.Looks.{AreLookedAt, AreStepsPassed, IsLinkOffered, MayReach, Steps, goal_of, link_index, links_read};

use crate::direction::Direction;
use crate::labels::Labels;
use crate::limits::FARTHEST;
use crate::turn::Turn;
use cspf_db::{NO_LINK, Table};
use cspf_graph::accepts;
use cspf_walk::{LocatedRequest, step};
use std::alloc::AllocError;

/// Whether a way may reach the router at the index `place`: it has transit, or its index is `goal`.
pub(crate) fn may_reach(table: &Table, goal: usize, place: usize) -> bool
    requires { place < length (router_list table.now) }
    ensures { IsTrue result ↔ MayReach table.now goal place }
{
    table.transit_at(place) || place == goal
}

/// Offers the router at the index `place` the way over the link at the index `at` of the turn's
/// links. If this way has a lower rank than the router, and the request may use the link, the
/// router gets this rank and waits. Nothing changes if `reverse` is `NO_LINK`, or if the way has a
/// higher rank than `most`. Returns the least rank found so far of a way from the head-end to the
/// tail-end: `most`, or the rank of the way over this link.
#[inline(always)]
fn pass(
    query: LocatedRequest<'_>,
    turn: Turn<'_>,
    at: usize,
    place: u16,
    reverse: u16,
    most: u64,
    labels: &mut Labels,
) -> Result<u64, AllocError>
    requires query { IsLocatedRequest query }
    requires within { reverse ≢ NO_LINK → at < length turn.links.now }
    requires place { place < length (router_list query.table.now) }
    requires small { most ≤ NO_WAY }
    ensures falls { OnOk result (LabelsFall labels.old labels.new) }
    ensures least { IfOk result (λ least. least ≤ most) }
    ensures passed { IfOk result (IsLinkOffered query.entry.table.now query.entry.request.now
        turn.entry.links.now turn.entry.rank turn.entry.goal at place reverse
        labels.new.ranks.items) }
{
    let end = usize::from(place);
    if labels.ranks[end] <= turn.rank || reverse == NO_LINK {
        return Ok(most);
    }
    let link = &turn.links[at];
    let rank = (turn.rank + step(link)).min(FARTHEST);
    if labels.ranks[end] <= rank || rank > most {
        return Ok(most);
    }
    if !accepts(link, query.request) || !may_reach(query.table, turn.goal, end) {
        return Ok(most);
    }
    let least = most.min(rank.saturating_add(turn.others[end]));
    labels.lower(place, rank, rank + turn.beyond < least)?;
    Ok(least)
}

/// The index of a link among the links that a search reads. `row` is the index of the link, or of
/// its reverse, among the links from a router, and `reverse` has the index of the reverse of the
/// link at `row` among all links.
#[inline(always)]
fn index_of(direction: Direction, row: usize, reverse: u16) -> usize
    ensures { result ≡ link_index direction row reverse }
{
    match direction {
        Direction::Ahead => row,
        Direction::Back => usize::from(reverse),
    }
}

/// Looks at the links over which a step leads on from the router at the index `place`. Against the
/// links, these are the reverses of the links from the router. Returns the least rank found so far
/// of a way from the head-end to the tail-end. Before the call it is `most`.
#[inline(always)]
fn look(
    query: LocatedRequest<'_>,
    place: usize,
    turn: Turn<'_>,
    most: u64,
    labels: &mut Labels,
) -> Result<u64, AllocError>
    requires query { IsLocatedRequest query }
    requires small { most ≤ NO_WAY }
    requires within { place < length (router_list query.table.now) }
    requires links { turn.links.now ≡ links_read turn.direction query.table.now place }
    requires goal { turn.goal ≡ goal_of turn.direction query }
    ensures falls { OnOk result (LabelsFall labels.old labels.new) }
    ensures least { IfOk result (λ least. least ≤ most) }
    ensures passed { IfOk result (λ least. AreStepsPassed
        (Steps turn.entry.direction query.entry.table.now query.entry.request.now)
        labels.new.ranks.items least turn.entry.rank place) }
{
    let ends = query.table.ends_at(place);
    let reverses = query.table.reverses_at(place);
    let mut least = most;
    for row in 0..ends.len() {
        let reverse = reverses[row];
        let at = index_of(turn.direction, row, reverse);
        least = pass(query, turn, at, ends[row], reverse, least, labels)?;
    }
    Ok(least)
}

/// The turn at the router at the index `place`, whose rank is `rank`.
#[inline(always)]
fn turn_at<'a>(
    query: LocatedRequest<'a>,
    direction: Direction,
    place: usize,
    rank: u64,
    beyond: u64,
    others: &'a [u64],
) -> Turn<'a>
    requires query { IsLocatedRequest query }
    requires many { length others.now ≡ MOST_ROUTERS }
    requires within { place < length (router_list query.table.now) }
    requires small { rank < 2 ^ 54 }
    requires low { beyond < 2 ^ 54 }
    ensures links { result.links.now ≡ links_read direction query.entry.table.now place }
    ensures goal { result.goal ≡ goal_of direction query.entry }
    ensures direction { result.direction ≡ direction }
    ensures rank { result.rank ≡ rank }
{
    let (links, goal) = match direction {
        Direction::Ahead => (query.table.out_at(place), query.to),
        Direction::Back => (query.table.links(), query.from),
    };
    Turn {
        direction,
        links,
        others,
        rank,
        beyond,
        goal,
    }
}

/// Looks at the waiting router of the least rank, in the search of this direction. Returns the
/// least rank found so far of a way from the head-end to the tail-end. Before the call it is
/// `most`. `beyond` is the least rank that waits in the other search, and `others` has for each
/// router its rank in that search.
#[inline(always)]
pub(crate) fn turn(
    query: LocatedRequest<'_>,
    direction: Direction,
    beyond: u64,
    most: u64,
    others: &[u64],
    labels: &mut Labels,
) -> Result<u64, AllocError>
    requires query { IsLocatedRequest query }
    requires many { length others.now ≡ MOST_ROUTERS }
    requires low { beyond < 2 ^ 54 }
    requires small { most ≤ NO_WAY }
    requires looked { AreLookedAt (Steps direction query.table.now query.request.now) labels.old most }
    ensures least { IfOk result (λ least. least ≤ most) }
    ensures looked { IfOk result (AreLookedAt
        (Steps direction query.entry.table.now query.entry.request.now) labels.new) }
    ensures lower { OnOk result ((v : ℕ)
        → rank_at labels.new.ranks.items v ≤ rank_at labels.old.ranks.items v) }
{
    let Some((place, rank)) = labels.next() else {
        return Ok(most);
    };
    let place = usize::from(place);
    if place >= query.table.routers().len() {
        return Ok(most);
    }
    let turn = turn_at(query, direction, place, rank, beyond, others);
    let least = look(query, place, turn, most, labels)?;
    Ok(least)
}
