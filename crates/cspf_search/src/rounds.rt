//! One round of the search by rounds. The settled nodes (records of walks) lead to other nodes, by
//! links and by steps to the next leg. A round finds the first of these other nodes. It skips a
//! settled node if a lower bound shows that all nodes that this one leads to come after the best
//! node found so far.

ghost use Rattle.std.specs.Prelude.{◌≡◌, ◌⊎◌, ◌+◌, ◌-◌, ◌%◌, ◌<◌, ◌↔◌, true, Some, None, IsTrue, length};
ghost use Rattle.std.specs.Option.{ForSome, IsSomeAnd};
ghost use Rattle.cspf_db.specs.Index.{links_of, links_from_index};
ghost use Rattle.cspf_search.specs.Settled.{state_cmp};
ghost use Rattle.cspf_search.specs.Arena.{AreNodes, IsNext, index_of, walk_of};
ghost use Rattle.cspf_search.specs.Rounds.{CrossesFrom, IsFirst, earlier_of};
ghost use Rattle.cspf_search.specs.Frontier.{NodeMayLeave, no_rank, state_at};
ghost use Rattle.cspf_search.specs.Query.{CrossesBefore};
ghost use Rattle.cspf_search.specs.RoundSteps.{AreLows, IsLook, IsRound, LeadsToRow, low_of};
ghost use Rattle.cspf_walk.specs.Edges.{IsEdge};

use crate::arena::{Node, links_at, locals, weight};
use crate::forward_star::ForwardStar;
use crate::query::Query;
use cspf_db::{NO_LINK, Table};
use cspf_graph::{accepts, may_leave_at};
use cspf_model::{Link, MOST_ROUTERS, Request};
use cspf_walk::{Edge, Last};
use std::cmp::Ordering;

/// Compares two nodes by the cost of their walks, then by the number of links, then by the leg, and
/// then by the local addresses, beginning at the first links. The rank of a node packs the cost and
/// the number of links into one number. A node is the record of a walk.
fn compare<'a>(nodes: &[Node<'a>], a: &Node<'a>, b: &Node<'a>) -> Ordering
    requires arena { AreNodes nodes.now }
    requires first { IsNext nodes.now a.now }
    requires second { IsNext nodes.now b.now }
    ensures { result ≡ state_cmp (a.now.leg, walk_of nodes.now a.now)
        (b.now.leg, walk_of nodes.now b.now) }
{
    let order = a.rank.cmp(&b.rank).then(a.leg.cmp(&b.leg));
    if order.is_ne() {
        return order;
    }
    locals(nodes, a, b)
}

/// Whether the best node so far, if there is one, has a lower rank than `rank`. A node is the
/// record of a walk, and a walk's rank packs its cost and its number of links into one number.
fn is_late(best: &Option<Node<'_>>, rank: u64) -> bool
    ensures { IsTrue result ↔ IsSomeAnd best.now (λ kept. kept.rank < rank) }
{
    match best {
        Some(kept) => kept.rank < rank,
        None => false,
    }
}

/// If the node (the record of a walk) precedes the best node so far, keeps it as the best node.
fn keep<'a>(nodes: &[Node<'a>], best: &mut Option<Node<'a>>, node: Node<'a>)
    requires arena { AreNodes nodes.now }
    requires first { ForSome best.old (IsNext nodes.now) }
    requires second { IsNext nodes.now node }
    ensures { best.new ≡ earlier_of nodes.now best.old (Some node.entry) }
{
    if let Some(kept) = best {
        if !compare(nodes, kept, &node).is_gt() {
            return;
        }
    }
    *best = Some(node);
}

/// What a round starts from: the query and the settled nodes (records of walks).
#[derive(Clone, Copy)]
pub(crate) struct Round<'a, 'b> {
    pub(crate) query: Query<'b>,
    /// The settled nodes (records of walks).
    pub(crate) nodes: &'a [Node<'b>],
    /// The forward star of each settled node. A forward star has the links from the node's router,
    /// and a node is the record of a walk.
    pub(crate) stars: &'a [ForwardStar<'b>],
    /// For each state (a router in a leg), whether the search has settled it.
    pub(crate) marks: &'a [bool],
}

/// A settled node (the record of a walk) from which a round looks for the next node.
#[derive(Clone, Copy)]
struct Look<'a, 'b> {
    query: Query<'b>,
    /// The settled nodes (records of walks).
    nodes: &'a [Node<'b>],
    /// For each state (a router in a leg), whether the search has settled it.
    marks: &'a [bool],
    /// The index, among the settled nodes, of the node from which the round looks. A node is the
    /// record of a walk.
    at: usize,
    /// The forward star of the node (the record of a walk) from which the round looks.
    star: ForwardStar<'b>,
}

/// The node that the node of `look` leads to by the step to the next leg at the same router. The
/// result is `None` in the last leg, or if a route may not go on to the next leg at this router. It
/// is also `None` if the state of this router in the next leg is settled already. A state is a
/// router in a leg, and a node is the record of a walk.
fn look_at_turn<'b>(look: Look<'_, 'b>) -> Option<Node<'b>>
    requires look { IsLook look }
    ensures { IsFirst look.entry.nodes.now (LeadsToRow look.entry 0) result }
{
    let (marks, nodes, state) = (look.marks, look.nodes, look.star.state);
    if state / MOST_ROUTERS >= look.query.request.hops.len() {
        return None;
    }
    if marks[state + MOST_ROUTERS] {
        return None;
    }
    let role = look.query.roles[state];
    if !role.target {
        return None;
    }
    let from = &nodes[look.at];
    Some(Node {
        rank: from.rank,
        by: from.by.same(),
        router: from.router,
        parent: from.parent,
        leg: from.leg + 1,
    })
}

/// Keeps the node at the link's end as the best one, if it precedes the best node so far. The node
/// counts only if the request admits the link, the link has a reverse, and a route may enter the
/// router at the link's end. The function requires that the walk of the node of `look` may leave
/// its router, and that the state at the link's end isn't settled. A state is a router in a leg,
/// and a node is the record of a walk.
fn look_at_link<'b>(look: Look<'_, 'b>, edge: Edge<'b>, best: &mut Option<Node<'b>>)
    requires look { IsLook look }
    requires leaves { NodeMayLeave look.query.table.now look.nodes.now look.at look.star.state }
    requires edge { IsEdge look.query.table.now (look.star.state % MOST_ROUTERS) edge }
    requires left { index_of look.nodes.now
        (state_at look.query.table.now (look.star.state - look.star.state % MOST_ROUTERS + edge.end)) ≡ None }
    requires before { IsFirst look.nodes.now (LeadsToRow look edge.row) best.old }
    ensures after { IsFirst look.entry.nodes.now
        (LeadsToRow look.entry (edge.entry.row + 1)) best.new }
{
    let (nodes, state) = (look.nodes, look.star.state);
    let from = &nodes[look.at];
    let rank = from.rank + weight(edge.link) + 1;
    if is_late(best, rank) {
        return;
    }
    let role = look.query.roles[state - state % MOST_ROUTERS + edge.end];
    if !role.enter {
        return;
    }
    if edge.reverse == NO_LINK || !accepts(edge.link, look.query.request) {
        return;
    }
    let node = Node {
        rank,
        by: Last {
            link: Some(edge.link),
        },
        router: edge.link.to,
        parent: look.at as u16,
        leg: from.leg,
    };
    keep(nodes, best, node);
}

/// Keeps the node at the end of the link at the index `row` as the best one, if it precedes the
/// best node so far. The node counts only if its state isn't settled, the request may use the link,
/// and a route may enter the router at the link's end. The function requires that the walk of the
/// node of `look` may leave its router. A state is a router in a leg, and a node is the record of a
/// walk.
fn look_at_row<'b>(look: Look<'_, 'b>, row: usize, best: &mut Option<Node<'b>>)
    requires look { IsLook look }
    requires leaves { NodeMayLeave look.query.table.now look.nodes.now look.at look.star.state }
    requires row { row < length (links_from_index look.query.table.now (look.star.state % MOST_ROUTERS)) }
    requires before { IsFirst look.nodes.now (LeadsToRow look row) best.old }
    ensures after { IsFirst look.entry.nodes.now (LeadsToRow look.entry (row + 1)) best.new }
{
    let (marks, star) = (look.marks, look.star);
    let end = usize::from(star.ends[row]);
    if marks[star.state - star.state % MOST_ROUTERS + end] {
        return;
    }
    let link = &star.links[row];
    let reverse = star.reverses[row];
    let edge = Edge {
        row,
        link,
        metric: link.metric,
        end,
        reverse,
    };
    look_at_link(look, edge, best);
}

/// The first of the nodes that the node of `look` leads to, by the step to the next leg at the same
/// router or by a link. Links count only if the node's walk may leave its router. A node is the
/// record of a walk.
fn look_from<'b>(look: Look<'_, 'b>) -> Option<Node<'b>>
    requires look { IsLook look }
    ensures { IsFirst look.entry.nodes.now
        (CrossesFrom look.entry.query.table.now look.entry.query.request.now look.entry.nodes.now
        (links_of look.entry.query.table.now) look.entry.at) result }
{
    let mut best = look_at_turn(look);
    let place = look.star.state % MOST_ROUTERS;
    let count = links_at(look.nodes, look.at);
    if !may_leave_at(look.query.table, place, count as u32) {
        return best;
    }
    for row in 0..look.star.links.len() {
        look_at_row(look, row, &mut best);
    }
    best
}

/// The rank of the node, or a number above all ranks if no node is given. A node is the record of a
/// walk, and a walk's rank packs its cost and its number of links into one number.
fn low_of(found: &Option<Node<'_>>) -> u64
    ensures { result ≡ low_of found.now }
{
    match found {
        Some(node) => node.rank,
        None => u64::MAX,
    }
}

/// Whether a round can skip a settled node, because this node leads to no other node, or only to
/// nodes that come after the best node so far. `low` is a lower bound of the ranks of the nodes
/// that the settled node leads to. A node is the record of a walk, and a walk's rank packs its cost
/// and its number of links into one number.
fn is_passed(best: &Option<Node<'_>>, low: u64) -> bool
    ensures { result ≡ true → (low ≡ no_rank) ⊎ (low_of best.now < low) }
{
    low == u64::MAX || low_of(best) < low
}

/// If there is a node `found` (the record of a walk), and it precedes the best node so far, keeps
/// it as the best node.
fn keep_found<'a>(nodes: &[Node<'a>], best: &mut Option<Node<'a>>, found: Option<Node<'a>>)
    requires arena { AreNodes nodes.now }
    requires first { ForSome best.old (IsNext nodes.now) }
    requires second { ForSome found (IsNext nodes.now) }
    ensures { best.new ≡ earlier_of nodes.now best.old found.entry }
{
    if let Some(node) = found {
        keep(nodes, best, node);
    }
}

/// The first of all nodes that the settled nodes lead to, by a link or by the step to the next leg.
/// `lows` has, for each settled node, a lower bound of the ranks of the nodes that this node leads
/// to. The call updates these bounds. A node is the record of a walk, and a walk's rank packs its
/// cost and its number of links into one number.
pub(crate) fn first<'b>(round: Round<'_, 'b>, lows: &mut Vec<u64>) -> Option<Node<'b>>
    requires round { IsRound round }
    requires lows { AreLows round.query.table.now round.query.request.now round.nodes.now lows.old.items }
    ensures first { IsFirst round.entry.nodes.now
        (CrossesBefore round.entry.query round.entry.nodes.now (length round.entry.nodes.now))
        result }
    ensures lows { AreLows round.entry.query.table.now round.entry.query.request.now
        round.entry.nodes.now lows.new.items }
{
    let mut best = None;
    for at in 0..round.nodes.len() {
        if is_passed(&best, lows[at]) {
            continue;
        }
        let look = Look {
            query: round.query,
            nodes: round.nodes,
            marks: round.marks,
            at,
            star: round.stars[at],
        };
        let found = look_from(look);
        lows[at] = low_of(&found);
        keep_found(round.nodes, &mut best, found);
    }
    best
}
