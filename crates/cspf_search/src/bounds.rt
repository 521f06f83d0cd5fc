//! Lower bounds of the cost from each state (a router in a leg) to the tail-end. A backward search
//! computes the bounds, from the last leg to the first. It follows the links against their
//! direction.

ghost use Rattle.std.specs.Prelude.{◌≡◌, ◌≢◌, ◌+◌, ◌-◌, ◌*◌, ◌<◌, ◌≤◌, ◌⊎◌, ◌↔◌, ℕ, min, true, false, IsTrue, IfOk, IfSome, OnOk, length, slice_index, slice_index_or, All, Contains};
ghost use Rattle.cspf_search.specs.Query.{IsQuery};
ghost use Rattle.cspf_graph.specs.Lists.{IsIndexOf};
ghost use Rattle.cspf_graph.specs.Roles.{AreTargetsOf};
ghost use Rattle.cspf_search.specs.Trees.{IsTree, tree_bound};
ghost use Rattle.cspf_search.specs.Bounds.{ArePassed, AreReached, AreBounds, Falls, IsLegBound, IsLower, IsPassed, IsRing, IsDeadEnd, bound_at, is_done};
ghost use Rattle.cspf_db.specs.Index.{links_of, router_list};
ghost use Rattle.cspf_columns.specs.declared.limits.TheConstants.{NO_LINK};

use crate::limits::{FARTHEST, NO_WAY};
use crate::query::Query;
use crate::ring::Ring;
use crate::ring_edge::least_open;
use crate::strict::{first_broken, starts_of};
use crate::tree::Tree;
use cspf_db::NO_LINK;
use cspf_graph::{accepts, may_be_left};
use cspf_model::MOST_ROUTERS;
use std::alloc::{AllocError, Global};
use std::cmp::Reverse;

/// The greatest number of routers that the backward search settles in the last leg.
const RING: usize = 24;

/// The greatest number of routers that the backward search settles in a leg to a hop. This limit is
/// higher than `RING`, because the search from the head-end looks at more routers before such a leg
/// is closed.
const WIDE: usize = 64;

/// Lowers the bound of the router `from`, if the link at the index `reverse` gives this router a
/// shorter way to the tail-end. This link begins at `from` and ends at a router with the bound
/// `base`. If `reverse` is `NO_LINK`, there is no such link. The bound doesn't change if the
/// request doesn't admit the link, or if no walk may leave `from`.
fn pass(
    query: Query<'_>,
    from: u16,
    reverse: u16,
    base: u32,
    ring: &mut Ring,
) -> Result<(), AllocError>
    requires query { IsQuery query }
    requires from { from < length (router_list query.table.now) }
    requires within { reverse ≢ NO_LINK → reverse < length (links_of query.table.now) }
    ensures falls { OnOk result (Falls ring.old ring.new) }
    ensures passed { OnOk result
        (IsPassed query.entry.table.now query.entry.request.now base ring.new from reverse) }
{
    let near = ring.near[usize::from(from)];
    if reverse == NO_LINK || near <= base {
        return Ok(());
    }
    let link = &query.table.links()[usize::from(reverse)];
    let ahead = base.saturating_add(link.metric).min(FARTHEST);
    if near <= ahead || !accepts(link, query.request) {
        return Ok(());
    }
    if !may_be_left(query.table, usize::from(from), query.request) {
        return Ok(());
    }
    ring.lower(from, ahead)
}

/// For each router with a link to the router `to`, lowers the router's bound if the way over this
/// link costs less. The bound of `to` is `base`. The function finds these links as the reverses of
/// the links from `to`.
fn walk(query: Query<'_>, to: usize, base: u32, ring: &mut Ring) -> Result<(), AllocError>
    requires query { IsQuery query }
    ensures falls { OnOk result (Falls ring.old ring.new) }
    ensures passed { OnOk result
        (ArePassed query.entry.table.now query.entry.request.now base ring.new to) }
{
    if to >= query.table.routers().len() {
        return Ok(());
    }
    let ends = query.table.ends_at(to);
    let reverses = query.table.reverses_at(to);
    for row in 0..ends.len() {
        pass(query, ends[row], reverses[row], base, ring)?;
    }
    Ok(())
}

/// Looks at all links that end at the router `to`. If such a link gives the router at its start a
/// shorter way, that router's bound is lowered. If a route may not enter `to` by a link in this
/// leg, the function looks at no link.
fn take(query: Query<'_>, leg_index: usize, to: usize, ring: &mut Ring) -> Result<(), AllocError>
    requires query { IsQuery query }
    requires leg { leg_index ≤ length query.request.now.hops }
    requires within { to < MOST_ROUTERS }
    requires ring { IsRing query.table.now query.request.now leg_index ring.old }
    ensures ring { OnOk result
        (IsRing query.entry.table.now query.entry.request.now leg_index ring.new) }
    ensures lower { OnOk result (IsLower ring.old ring.new) }
{
    if !query.roles[leg_index * MOST_ROUTERS + to].enter {
        ring.done[to] = true;
        return Ok(());
    }
    let base = ring.near[to];
    walk(query, to, base, ring)?;
    if ring.near[to] == base {
        ring.done[to] = true;
    }
    Ok(())
}

/// Settles waiting routers in a leg, in the order of their bounds. It settles at most `most`
/// routers, and only routers whose bounds are below `top`.
fn grow(
    query: Query<'_>,
    leg_index: usize,
    most: usize,
    top: u32,
    ring: &mut Ring,
) -> Result<(), AllocError>
    requires query { IsQuery query }
    requires leg { leg_index ≤ length query.request.now.hops }
    requires ring { IsRing query.table.now query.request.now leg_index ring.old }
    ensures ring { OnOk result
        (IsRing query.entry.table.now query.entry.request.now leg_index ring.new) }
    ensures lower { OnOk result (IsLower ring.old ring.new) }
{
    for _taken in 0..most {
        let Some(to) = ring.nearest() else {
            return Ok(());
        };
        if ring.near[to] >= top {
            return Ok(());
        }
        take(query, leg_index, to, ring)?;
    }
    Ok(())
}

/// The bound of the router at the index `place` in the next leg.
fn bound_ahead(ahead: &[u32], place: usize) -> u32
    ensures { result ≡ bound_at ahead.now place }
{
    match ahead.get(place) {
        Some(bound) => *bound,
        None => 0,
    }
}

/// Whether the leg to the hop at the index `leg_index` is a dead end: none of its targets at which
/// a route may go on to the next leg has a way to the tail-end from there. A leg's targets are the
/// routers where it may end.
fn is_dead_end(query: Query<'_>, leg_index: usize, ahead: &[u32]) -> bool
    requires query { IsQuery query }
    ensures { result ≡ true
        → IsDeadEnd query.entry.table.now query.entry.request.now leg_index ahead.now }
{
    if leg_index >= query.targets.len() {
        return false;
    }
    let first = leg_index * MOST_ROUTERS;
    for place in &query.targets[leg_index] {
        let at = usize::from(*place);
        if query.roles[first + at].target && bound_ahead(ahead, at) < NO_WAY {
            return false;
        }
    }
    true
}

/// The greater of `top` and `bound`, or `top` if `bound` is `NO_WAY`.
fn farther(top: u32, bound: u32) -> u32 {
    if bound < NO_WAY { bound.max(top) } else { top }
}

/// The bound at which the backward search of a leg may stop. `waiting` is the number of the leg's
/// targets (routers where it may end) that have a way to the tail-end, and `farthest` is the
/// greatest of their bounds. The result is `farthest` if there are more than `WIDE` such targets,
/// and otherwise `NO_WAY`.
fn far_enough(waiting: usize, farthest: u32) -> u32 {
    if waiting > WIDE { farthest } else { NO_WAY }
}

/// Begins the backward search in the leg to the hop at the index `leg_index`, with no router done
/// yet. Each target at which a route may go on to the next leg gets its bound in the next leg. If
/// this target has a way to the tail-end, it waits to be settled. Returns the bound at which the
/// backward search may stop. A leg's targets are the routers where it may end.
fn begin(
    query: Query<'_>,
    leg_index: usize,
    ahead: &[u32],
    ring: &mut Ring,
) -> Result<u32, AllocError>
    requires query { IsQuery query }
    requires leg { leg_index < length query.request.now.hops }
    ensures none { OnOk result ((w : ℕ) → is_done ring.new w ≡ false) }
    ensures targets { OnOk result
        (AreReached query.entry.table.now query.entry.request.now leg_index ring.new ahead.now) }
{
    ring.clear();
    let first = leg_index * MOST_ROUTERS;
    let mut top = 0;
    for place in &query.targets[leg_index] {
        let at = usize::from(*place);
        if query.roles[first + at].target {
            let least = bound_ahead(ahead, at);
            ring.begin_at(*place, least)?;
            top = farther(top, least);
        }
    }
    Ok(far_enough(ring.heap.len(), top))
}

/// Begins the backward search in the leg after the last hop, with no router done yet. Only the
/// tail-end, whose index is `to`, waits to be settled, and its bound is 0.
fn begin_last(to: usize, ring: &mut Ring) -> Result<(), AllocError>
    requires { to < MOST_ROUTERS }
    ensures none { OnOk result ((w : ℕ) → is_done ring.new w ≡ false) }
    ensures target { OnOk result (bound_at ring.new.near.items to ≡ 0) }
{
    ring.clear();
    ring.near[to] = 0;
    ring.heap.push(Reverse((0, to as u16)))?;
    Ok(())
}

/// Searches for lower bounds of the cost to the tail-end in a leg. The search begins at the leg's
/// targets (the routers where it may end), and follows the links against their direction. `ahead`
/// has the bounds of the next leg, and is empty in the last leg. `to` is the index of the tail-end.
fn search_back(
    query: Query<'_>,
    to: usize,
    leg_index: usize,
    ahead: &[u32],
    ring: &mut Ring,
) -> Result<(), AllocError>
    requires query { IsQuery query }
    requires to { IsIndexOf query.table.now query.request.now.to to }
    requires leg { leg_index ≤ length query.request.now.hops }
    ensures ring { OnOk result (IsRing query.entry.table.now query.entry.request.now leg_index ring.new) }
    ensures targets { OnOk result
        (AreReached query.entry.table.now query.entry.request.now leg_index ring.new ahead.now) }
{
    if leg_index == query.request.hops.len() {
        begin_last(to, ring)?;
        return grow(query, leg_index, RING, NO_WAY, ring);
    }
    let top = begin(query, leg_index, ahead, ring)?;
    grow(query, leg_index, WIDE, top, ring)
}

/// Computes the bound of each router in a leg from the bounds of the next leg. Returns the edge:
/// the least bound of the routers that the search hasn't settled. A router's bound is the lesser of
/// its entry in `ring.near` and the edge. `to` is the index of the tail-end.
fn leg_edge(
    query: Query<'_>,
    to: usize,
    leg_index: usize,
    ahead: &[u32],
    ring: &mut Ring,
) -> Result<u32, AllocError>
    requires query { IsQuery query }
    requires to { IsIndexOf query.table.now query.request.now.to to }
    requires leg { leg_index ≤ length query.request.now.hops }
    ensures { IfOk result (λ edge.
        IsLegBound query.entry.table.now query.entry.request.now leg_index ring.new.near.items edge ahead.now) }
{
    search_back(query, to, leg_index, ahead, ring)?;
    Ok(least_open(&ring.near, &ring.done, query.table.routers().len()))
}

/// Sets the bound of each router in a leg to the lesser of its entry in `near` and `edge`, the
/// least bound of the routers that the search hasn't settled. `first` is the index of the leg's
/// first state, and `count` is the number of routers. A state is a router in a leg.
fn set_leg(bounds: &mut [u32], first: usize, count: usize, near: &[u32], edge: u32)
    requires within { first + count ≤ length bounds.old }
    requires near { count ≤ length near.now }
    ensures leg { (p : ℕ) → p < count
        → bound_at bounds.new (first + p) ≡ min (bound_at near.now p) edge }
    ensures others { (i : ℕ) → (i < first) ⊎ (first + count ≤ i)
        → bound_at bounds.new i ≡ bound_at bounds.old i }
{
    for place in 0..count {
        bounds[first + place] = near[place].min(edge);
    }
}

/// Sets the bounds of all states (routers in legs) at indexes below `end` to `NO_WAY`.
fn shut(bounds: &mut [u32], end: usize)
    requires within { end ≤ length bounds.old }
    ensures before { (i : ℕ) → i < end → bound_at bounds.new i ≡ NO_WAY }
    ensures others { (i : ℕ) → end ≤ i → bound_at bounds.new i ≡ bound_at bounds.old i }
{
    for at in 0..end {
        bounds[at] = NO_WAY;
    }
}

/// Sets the bound of each router in the first `legs` legs, from the last of these legs to the
/// first. If a leg is a dead end, the function sets the bounds of this leg and of all earlier legs
/// to `NO_WAY`, and stops. `to` is the index of the tail-end.
fn set_legs(
    query: Query<'_>,
    to: usize,
    legs: usize,
    ring: &mut Ring,
    bounds: &mut [u32],
) -> Result<(), AllocError>
    requires query { IsQuery query }
    requires to { IsIndexOf query.table.now query.request.now.to to }
    requires legs { legs ≤ query.legs }
    requires bounds { AreBounds query.table.now query.request.now bounds.old }
    requires zeros { (i : ℕ) → i < legs * MOST_ROUTERS → bound_at bounds.old i ≡ 0 }
    ensures { OnOk result (AreBounds query.entry.table.now query.entry.request.now bounds.new) }
{
    let count = query.table.routers().len();
    let mut leg_index = legs;
    while leg_index > 0 {
        leg_index -= 1;
        let ahead = &bounds[leg_index * MOST_ROUTERS + MOST_ROUTERS..];
        if is_dead_end(query, leg_index, ahead) {
            shut(bounds, leg_index * MOST_ROUTERS + MOST_ROUTERS);
            return Ok(());
        }
        let edge = leg_edge(query, to, leg_index, ahead, ring)?;
        set_leg(bounds, leg_index * MOST_ROUTERS, count, &ring.near, edge);
    }
    Ok(())
}

/// Sets the bound of each router in a leg to the one that a tree gives. `first` is the index of the
/// leg's first state, and `count` is the number of routers. A state is a router in a leg.
fn set_leg_by(bounds: &mut [u32], first: usize, count: usize, tree: &Tree)
    requires within { first + count ≤ length bounds.old }
    requires count { count ≤ MOST_ROUTERS }
    ensures leg { (p : ℕ) → p < count → bound_at bounds.new (first + p) ≡ tree_bound tree.now p }
    ensures others { (i : ℕ) → (i < first) ⊎ (first + count ≤ i)
        → bound_at bounds.new i ≡ bound_at bounds.old i }
{
    for place in 0..count {
        bounds[first + place] = tree.least_cost(place);
    }
}

/// Sets the bounds of all routers in the last leg to those that a tree gives.
fn set_last_leg(query: Query<'_>, tree: &Tree, bounds: &mut [u32])
    requires query { IsQuery query }
    requires tree { IsTree query.table.now query.request.now tree.now }
    requires bounds { AreBounds query.table.now query.request.now bounds.old }
    requires zeros { (i : ℕ) → bound_at bounds.old i ≡ 0 }
    ensures bounds { AreBounds query.entry.table.now query.entry.request.now bounds.new }
    ensures zeros { (i : ℕ) → i < (query.entry.legs - 1) * MOST_ROUTERS → bound_at bounds.new i ≡ 0 }
{
    let count = query.table.routers().len();
    set_leg_by(bounds, (query.legs - 1) * MOST_ROUTERS, count, tree);
}

/// Sets the bound of each router in each leg. If a tree is given, the bounds in the last leg come
/// from this tree. `to` is the index of the tail-end.
fn set_all(
    alloc: Global,
    query: Query<'_>,
    to: usize,
    tree: Option<&Tree>,
    bounds: &mut [u32],
) -> Result<(), AllocError>
    requires query { IsQuery query }
    requires to { IsIndexOf query.table.now query.request.now.to to }
    requires tree { IfSome tree (λ tree. IsTree query.table.now query.request.now tree.now) }
    requires bounds { AreBounds query.table.now query.request.now bounds.old }
    requires zeros { (i : ℕ) → bound_at bounds.old i ≡ 0 }
    ensures { OnOk result (AreBounds query.entry.table.now query.entry.request.now bounds.new) }
{
    let Some(tree) = tree else {
        let mut ring = Ring::new(alloc)?;
        return set_legs(query, to, query.legs, &mut ring, bounds);
    };
    set_last_leg(query, tree, bounds);
    if query.legs == 1 {
        return Ok(());
    }
    let mut ring = Ring::new(alloc)?;
    set_legs(query, to, query.legs - 1, &mut ring, bounds)
}

/// Sets the bounds of the routers at the indexes `places` in a leg to `NO_WAY`. `first` is the
/// index of the leg's first state (a router in a leg).
fn shut_at(bounds: &mut [u32], first: usize, places: &[u16])
    requires within { All (λ place. first + place < length bounds.old) places.now }
    ensures shut { (p : ℕ) → Contains places.now p → bound_at bounds.new (first + p) ≡ NO_WAY }
    ensures others { (i : ℕ) → (bound_at bounds.new i ≡ bound_at bounds.old i)
        ⊎ ((p : ℕ) × Contains places.now p × (i ≡ first + p)) }
{
    for place in places {
        bounds[first + usize::from(*place)] = NO_WAY;
    }
}

/// Looks for a strict leg that no route can pass, and returns whether there is such a leg. If so,
/// it sets two kinds of bounds to `NO_WAY`: those of the routers where this leg begins, and all
/// bounds of earlier legs. `from` is the index of the head-end.
fn shut_broken(query: Query<'_>, from: usize, bounds: &mut [u32]) -> bool
    requires query { IsQuery query }
    requires from { IsIndexOf query.table.now query.request.now.from from }
    requires many { length bounds.old ≡ (length query.request.now.hops + 1) * MOST_ROUTERS }
    requires zeros { (i : ℕ) → bound_at bounds.old i ≡ 0 }
    ensures found { result ≡ true → AreBounds query.entry.table.now query.entry.request.now bounds.new }
    ensures none { result ≡ false → bounds.new ≡ bounds.old }
{
    let head = [from as u16];
    let Some(leg_index) = first_broken(query, &head) else {
        return false;
    };
    let first = leg_index * MOST_ROUTERS;
    shut(bounds, first);
    shut_at(bounds, first, starts_of(query, &head, leg_index));
    true
}

/// For each state (a router in a leg), a lower bound of the cost from this state to the tail-end.
/// The bound is close to the cost near the targets of a leg, the routers where it may end. With a
/// tree, it is close to the cost everywhere in the last leg. `from` and `to` are the indexes of the
/// head-end and the tail-end.
pub(crate) fn bounds(
    alloc: Global,
    query: Query<'_>,
    from: usize,
    to: usize,
    tree: Option<&Tree>,
) -> Result<Vec<u32>, AllocError>
    requires query { IsQuery query }
    requires from { IsIndexOf query.table.now query.request.now.from from }
    requires to { IsIndexOf query.table.now query.request.now.to to }
    requires tree { IfSome tree (λ tree. IsTree query.table.now query.request.now tree.now) }
    ensures { IfOk result (λ bounds. AreBounds query.entry.table.now query.entry.request.now bounds.items) }
{
    let mut bounds = Vec::from_elem(alloc, 0u32, query.legs * MOST_ROUTERS)?;
    if shut_broken(query, from, &mut bounds) {
        return Ok(bounds);
    }
    set_all(alloc, query, to, tree, &mut bounds)?;
    Ok(bounds)
}
