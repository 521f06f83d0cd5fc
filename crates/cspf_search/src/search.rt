//! The two searches: `settled` searches round by round, and `reached` searches with a heap. This
//! module also makes the outcome of a request from the walks that a search has settled.

ghost use Rattle.cspf_search.specs.Bounds.{bound_at};
ghost use Rattle.cspf_model.specs.declared.limits.TheConstants.{MOST_ROUTE_LINKS};
ghost use Rattle.cspf_search.specs.declared.limits.TheConstants.{NO_WAY};
ghost use Rattle.std.specs.Prelude.{◌≡◌, ◌+◌, ◌*◌, ◌<◌, ◌≤◌, ◌⊎◌, None, ◌∷◌, [], IfOk, IfSome, IfNone, OnOk, length, true};
ghost use Rattle.cspf_model.specs.Best.{HasEnds, IsBestAnswer};
ghost use Rattle.cspf_model.specs.Database.{IsRouterOf};
ghost use Rattle.cspf_model.specs.Outcome.{answer_of};
ghost use Rattle.cspf_search.specs.States.{end_state};
ghost use Rattle.cspf_search.specs.Arena.{AreNodes, labels_of, root_of, walk_at, walks};
ghost use Rattle.cspf_graph.specs.Lists.{IsIndexOf};
ghost use Rattle.cspf_search.specs.Frontier.{IsOpenOf, IsRaised, heap_key_cmp};
ghost use Rattle.std.specs.BinaryHeap.{IsHeap, heap_items, heap_len};
ghost use Rattle.cspf_search.specs.Query.{IsQuery, CrossesBefore};
ghost use Rattle.cspf_model.specs.RouteLinks.{AreLinked};
ghost use Rattle.cspf_search.specs.Rounds.{IsFirst, IsFirstOf};
ghost use Rattle.cspf_search.specs.RoundSteps.{AreLows, IsRound};
ghost use Rattle.cspf_search.specs.Searched.{IsSearched};
ghost use Rattle.cspf_search.specs.Trees.{IsTree};

use crate::arena::{Node, cost_at, index_of, links_to};
use crate::bounds::bounds;
use crate::floor::raised;
use crate::forward_star::star_of;
use crate::frontier::expand;
use crate::goal::Goal;
use crate::labels::{Label, OPEN, SETTLED, Waiting, drop_closed, least, node_of};
use crate::limits::{NO_WAY, ROOM_FOR_NODES, ROOM_FOR_WAITING};
use crate::query::Query;
use crate::rounds::{Round, first};
use crate::tree::Tree;
use cspf_db::Table;
use cspf_graph::{find_roles, listed};
use cspf_model::{MOST_ROUTERS, Outcome, Request, Route};
use cspf_walk::{Last, LocatedRequest, follow};
use std::alloc::{AllocError, Global};
use std::collections::BinaryHeap;

/// The list of nodes at the start of a search. It has one node: the head-end in the first leg, with
/// a walk without links.
fn rooted<'a>(alloc: Global, request: &'a Request) -> Result<Vec<Node<'a>>, AllocError>
    ensures { IfOk result (λ nodes. nodes.items ≡ root_of request.now ∷ []) }
{
    let root = Node {
        rank: 1,
        by: Last { link: None },
        router: request.from,
        parent: 0,
        leg: 1,
    };
    let mut nodes = Vec::with_capacity(alloc, ROOM_FOR_NODES)?;
    nodes.push(root)?;
    Ok(nodes)
}

/// The node (the record of a walk) to settle next. The result is `None` if the search is finished:
/// the tail-end is settled in the last leg, or no link and no step to the next leg leads from a
/// settled state to a state that isn't settled. A state is a router in a leg.
fn next<'b>(round: Round<'_, 'b>, lows: &mut Vec<u64>) -> Option<Node<'b>>
    requires round { IsRound round }
    requires lows { AreLows round.query.table.now round.query.request.now round.nodes.now lows.old.items }
    ensures some { IfSome result
        (IsFirstOf round.entry.nodes.now (CrossesBefore round.entry.query round.entry.nodes.now (length round.entry.nodes.now))) }
    ensures none { IfNone result (labels_of round.entry.nodes.now (end_state round.entry.query.request.now) ≡ None
        → IsFirst round.entry.nodes.now (CrossesBefore round.entry.query round.entry.nodes.now (length round.entry.nodes.now)) None) }
    ensures lows { AreLows round.entry.query.table.now round.entry.query.request.now
        round.entry.nodes.now lows.new.items }
{
    if index_of(round.nodes, round.query.legs, round.query.request.to).is_some() {
        return None;
    }
    first(round, lows)
}

/// All nodes that the search by rounds settles. The search ends when the tail-end is settled in the
/// last leg, or when no further state can be reached. A state is a router in a leg, and a node is
/// the record of a walk.
fn settled<'a>(alloc: Global, query: Query<'a>) -> Result<Vec<Node<'a>>, AllocError>
    requires query { IsQuery query }
    requires known { IsRouterOf query.table.now query.request.now.from }
    ensures { IfOk result (λ nodes. IsSearched query.entry.table.now query.entry.request.now nodes.items) }
{
    let mut nodes = rooted(alloc, query.request)?;
    let root = star_of(query.table, &nodes[0]);
    let mut stars = Vec::from_slice(alloc, &[root])?;
    let mut lows = Vec::from_elem(alloc, 0u64, 1)?;
    let mut marks = Vec::from_elem(alloc, false, query.legs * MOST_ROUTERS)?;
    marks[root.state] = true;
    while let Some(node) = next(
        Round {
            query,
            nodes: &nodes,
            stars: &stars,
            marks: &marks,
        },
        &mut lows,
    ) {
        let star = star_of(query.table, &node);
        nodes.push(node)?;
        stars.extend_from_slice(&[star])?;
        lows.push(0)?;
        marks[star.state] = true;
    }
    Ok(nodes)
}

/// The route along the walk of the node at the index `at` (the record of a walk).
fn route_to(alloc: Global, nodes: &[Node<'_>], at: usize) -> Result<Route, AllocError>
    requires arena { AreNodes nodes.now }
    requires within { at < length nodes.now }
    requires some { 0 < length (walk_at (walks nodes.now) at) }
    requires most { length (walk_at (walks nodes.now) at) ≤ MOST_ROUTE_LINKS }
    requires linked { AreLinked (walk_at (walks nodes.now) at) }
    ensures { IfOk result (λ route. route ≡ walk_at (walks nodes.now) at) }
{
    let links = links_to(alloc, nodes, at)?;
    Ok(Route::new(links, cost_at(nodes, at)))
}

/// Whether the bound of the state at the index `at` (a router in a leg) says that the tail-end
/// can't be reached from there.
fn is_shut(goal: Goal<'_>, at: usize) -> bool
    requires { at < length goal.bounds.now }
    ensures { result ≡ true → bound_at goal.entry.bounds.now at ≡ NO_WAY }
{
    goal.bounds[at] == NO_WAY
}

/// The floor after the state at the index `at` (a router in a leg) is settled. All states at
/// indexes below the floor are in closed legs. If the floor rises, the function drops the keys of
/// these states from the heap.
fn close(
    alloc: Global,
    query: Query<'_>,
    labels: &[Label],
    floor: usize,
    at: usize,
    heap: &mut BinaryHeap<Waiting, Global>,
) -> Result<usize, AllocError>
    requires query { IsQuery query }
    requires within { at < length query.roles.now }
    requires many { length labels.now ≡ length query.roles.now }
    requires ordered { IsHeap heap_key_cmp (heap_items heap.old) }
    ensures floor { IfOk result (λ next. (next ≡ floor)
        ⊎ IsRaised query.entry.table.now query.entry.roles.now labels.now at next) }
    ensures left { IfOk result (λ next. IsOpenOf next (heap_items heap.old) (heap_items heap.new)) }
    ensures fewer { OnOk result (heap_len heap.new ≤ heap_len heap.old) }
{
    let next = raised(query, labels, floor, at);
    if next > floor {
        drop_closed(alloc, heap, next)?;
    }
    Ok(next)
}

/// All nodes (records of walks) that the search with a heap settles. If the bound of the head-end
/// says that the tail-end can't be reached, only the head-end is settled. `from` and `to` are the
/// indexes of the head-end and the tail-end in the list of routers. If a tree is given, the bounds
/// in the last leg come from this tree.
fn reached<'a>(
    alloc: Global,
    query: Query<'a>,
    from: usize,
    to: usize,
    tree: Option<&Tree>,
) -> Result<Vec<Node<'a>>, AllocError>
    requires query { IsQuery query }
    requires from { IsIndexOf query.table.now query.request.now.from from }
    requires to { IsIndexOf query.table.now query.request.now.to to }
    requires tree { IfSome tree (λ tree. IsTree query.table.now query.request.now tree.now) }
    ensures { IfOk result (λ nodes. IsSearched query.entry.table.now query.entry.request.now nodes.items) }
{
    let bounds = bounds(alloc, query, from, to, tree)?;
    let mut goal = Goal {
        at: (query.legs - 1) * MOST_ROUTERS + to,
        floor: 0,
        bounds: &bounds,
    };
    let mut nodes = rooted(alloc, query.request)?;
    if is_shut(goal, from) {
        return Ok(nodes);
    }
    let mut labels = Vec::from_elem(alloc, OPEN, query.legs * MOST_ROUTERS)?;
    labels[from] = SETTLED;
    let mut heap = BinaryHeap::with_capacity(alloc, ROOM_FOR_WAITING)?;
    expand(query, &nodes, &mut labels, &mut heap, goal, 0, from)?;
    while let Some(at) = least(query.table, query.request, goal, &labels, &mut heap) {
        let node = node_of(query.table, &nodes, &labels[at]);
        let index = nodes.len();
        nodes.push(node)?;
        if at == goal.at {
            return Ok(nodes);
        }
        labels[at] = SETTLED;
        expand(query, &nodes, &mut labels, &mut heap, goal, index, at)?;
        goal.floor = close(alloc, query, &labels, goal.floor, at, &mut heap)?;
    }
    Ok(nodes)
}

/// The outcome of the request, from the nodes (records of walks) that a search has settled.
fn answer(alloc: Global, query: Query<'_>, nodes: &[Node<'_>]) -> Result<Outcome, AllocError>
    requires query { IsQuery query }
    requires ends { HasEnds query.table.now query.request.now }
    requires searched { IsSearched query.table.now query.request.now nodes.now }
    ensures { IfOk result (λ outcome.
        IsBestAnswer query.entry.table.now query.entry.request.now (answer_of outcome)) }
{
    let Some(at) = index_of(nodes, query.legs, query.request.to) else {
        return Ok(Outcome::NoRoute);
    };
    Ok(Outcome::Route(route_to(alloc, nodes, at)?))
}

/// All nodes (records of walks) that a search settles. If `by_rounds` is true, the nodes come from
/// the search by rounds. Otherwise they come from the search with a heap, which uses the tree if
/// one is given.
fn searched<'a>(
    alloc: Global,
    query: Query<'a>,
    from: usize,
    to: usize,
    by_rounds: bool,
    tree: Option<&Tree>,
) -> Result<Vec<Node<'a>>, AllocError>
    requires query { IsQuery query }
    requires known { IsRouterOf query.table.now query.request.now.from }
    requires from { IsIndexOf query.table.now query.request.now.from from }
    requires to { IsIndexOf query.table.now query.request.now.to to }
    requires tree { IfSome tree (λ tree. IsTree query.table.now query.request.now tree.now) }
    ensures { IfOk result (λ nodes. IsSearched query.entry.table.now query.entry.request.now nodes.items) }
{
    if by_rounds {
        settled(alloc, query)
    } else {
        reached(alloc, query, from, to, tree)
    }
}

/// The best answer to a request in the table's database. The answer comes from the search by rounds
/// if `by_rounds` is true, and else from the search with a heap, which uses the tree if one is
/// given.
fn best_by(
    alloc: Global,
    table: &Table,
    request: &Request,
    by_rounds: bool,
    tree: Option<&Tree>,
) -> Result<Outcome, AllocError>
    requires { IfSome tree (λ tree. IsTree table.now request.now tree.now) }
    ensures { IfOk result (λ outcome.
        IsBestAnswer table.now request.now (answer_of outcome)) }
{
    listed(table);
    let Some(from) = table.place_of(request.from) else {
        return Ok(Outcome::UnknownFrom);
    };
    let Some(to) = table.place_of(request.to) else {
        return Ok(Outcome::UnknownTo);
    };
    let roles = find_roles(alloc, table, request, from, to)?;
    let query = Query {
        table,
        request,
        legs: request.hops.len() + 1,
        roles: &roles.states,
        targets: &roles.targets,
    };
    let nodes = searched(alloc, query, from, to, by_rounds, tree)?;
    answer(alloc, query, &nodes)
}

/// The best answer to a request in the table's database (RFC 2702 7). The answer is `UnknownFrom`
/// if the head-end isn't in the database, and else `UnknownTo` if the tail-end isn't. Otherwise it
/// is the least route, or `NoRoute` if there is no route.
///
/// A route is a walk of admissible links that passes through no router without transit (RFC 6987).
/// The hops of the request cut the route into legs (RFC 3209 4.3.3). A state is a router in a leg,
/// and the search settles states with a heap.
pub fn best(alloc: Global, table: &Table, request: &Request) -> Result<Outcome, AllocError>
    ensures { IfOk result (λ outcome.
        IsBestAnswer table.now request.now (answer_of outcome)) }
{
    best_by(alloc, table, request, false, None)
}

/// The answer of `best`, if it follows from a tree without a search. `Tree::grow` makes the tree for
/// the request's tail-end and affinities in the same database. The result is `None` if the answer
/// doesn't follow from the tree, as where the request has hops, or where a link of the tree lacks
/// the request's bandwidth.
pub fn best_by_walk(
    alloc: Global,
    table: &Table,
    request: &Request,
    tree: &Tree,
) -> Result<Option<Outcome>, AllocError>
    requires { IsTree table.now request.now tree.now }
    ensures { IfOk result (λ found. IfSome found (λ outcome.
        IsBestAnswer table.now request.now (answer_of outcome))) }
{
    listed(table);
    let Some(head_end) = table.place_of(request.from) else {
        return Ok(Some(Outcome::UnknownFrom));
    };
    let Some(tail_end) = table.place_of(request.to) else {
        return Ok(Some(Outcome::UnknownTo));
    };
    if !request.hops.is_empty() {
        return Ok(None);
    }
    let query = LocatedRequest {
        table,
        request,
        from: head_end,
        to: tail_end,
    };
    let Some(route) = follow(alloc, query, tree)? else {
        return Ok(None);
    };
    Ok(Some(Outcome::Route(route)))
}

/// The answer of `best`, computed with a tree. `Tree::grow` makes the tree for the request's
/// tail-end and affinities in the same database. If the request has no hops, the least route may
/// follow from the tree alone, and then nothing is searched. Otherwise the search uses the tree's
/// bounds in the last leg, so it settles fewer routers.
pub fn best_by_tree(
    alloc: Global,
    table: &Table,
    request: &Request,
    tree: &Tree,
) -> Result<Outcome, AllocError>
    requires { IsTree table.now request.now tree.now }
    ensures { IfOk result (λ outcome.
        IsBestAnswer table.now request.now (answer_of outcome)) }
{
    match best_by_walk(alloc, table, request, tree)? {
        Some(outcome) => Ok(outcome),
        None => best_by(alloc, table, request, false, Some(tree)),
    }
}

/// The answer of `best`, computed by a slower and simpler search. Each round settles one state: the
/// first of all states that a link, or a step to the next leg, leads to from a settled state. A
/// state is a router in a leg.
pub fn best_by_rounds(
    alloc: Global,
    table: &Table,
    request: &Request,
) -> Result<Outcome, AllocError>
    ensures { IfOk result (λ outcome.
        IsBestAnswer table.now request.now (answer_of outcome)) }
{
    best_by(alloc, table, request, true, None)
}
