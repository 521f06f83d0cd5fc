//! One step of the search with a heap. A settled node leads to a state by a link or by the step to
//! the next leg. This state is offered a label, which holds the walk over this node. A state is a
//! router in a leg, and a node is the record of a walk.

ghost use Rattle.cspf_model.specs.declared.limits.TheConstants.{MOST_LINKS};
ghost use Rattle.std.specs.Prelude.{◌≡◌, ◌+◌, ◌*◌, ◌%◌, ◌<◌, ◌≤◌, ◌⊎◌, Some, length, OnOk};
ghost use Rattle.std.specs.BinaryHeap.{heap_items, heap_len};
ghost use Rattle.cspf_search.specs.Arena.{AreNodes, walk_of};
ghost use Rattle.cspf_search.specs.Frontier.{AreLabels, AreTied, GoesTo, IsNodeAt, IsOffer, NodeMayLeave, StaysAt, label_at, node_of};
ghost use Rattle.cspf_search.specs.Settled.{locals_cmp};
ghost use Rattle.cspf_graph.specs.Roles.{IsStateIndex};
ghost use Rattle.cspf_search.specs.Source.{AreBefore, AreUpToRow, IsSource};
ghost use Rattle.cspf_walk.specs.Edges.{IsEdge};
ghost use Rattle.cspf_search.specs.Query.{IsQuery, CrossesBefore};

use crate::arena::{Node, links_at, locals};
use crate::goal::{Goal, lift};
use crate::labels::{Label, Waiting, link_of, node_of, put};
use crate::limits::COST_WEIGHT;
use crate::query::Query;
use cspf_db::{NO_LINK, Table};
use cspf_graph::{accepts, may_leave_at};
use cspf_model::MOST_ROUTERS;
use cspf_walk::Edge;
use std::alloc::{AllocError, Global};
use std::cmp::Ordering;
use std::collections::BinaryHeap;

/// The value of `row` in a label whose walk ends with the step to the next leg at the same router.
/// In other labels, `row` is the index of the walk's last link among the links from the parent's
/// router. A label holds the best walk found so far to a state.
const TURN: u16 = u16::MAX;

/// A settled node (the record of a walk) whose walk the search continues.
#[derive(Clone, Copy)]
struct Source<'a> {
    query: Query<'a>,
    goal: Goal<'a>,
    /// The settled nodes (records of walks).
    nodes: &'a [Node<'a>],
    /// The index of the source among the settled nodes (records of walks).
    at: usize,
    /// The index of the source's state, which is a router in a leg.
    state: usize,
    /// The rank of the source's walk, which packs the walk's cost and its number of links into one
    /// number.
    rank: u64,
}

/// Compares the local addresses of the walks of two labels of the same rank, beginning at the first
/// links. If both walks continue the same node by a link, only these two links are compared. The
/// function builds the nodes of the labels only if one of the walks ends with a step to the next
/// leg. A node is the record of a walk, and a label holds the best walk found so far to a state. A
/// walk's rank packs its cost and its number of links into one number.
fn compare_tied<'a>(table: &'a Table, nodes: &[Node<'a>], a: &Label, b: &Label) -> Ordering
    requires arena { AreNodes nodes.now }
    requires offered { IsOffer table.now nodes.now b.now }
    requires tied { AreTied table.now nodes.now a.now b.now }
    ensures { result ≡ locals_cmp (walk_of nodes.now (node_of table.now nodes.now a.now))
        (walk_of nodes.now (node_of table.now nodes.now b.now)) }
{
    let (Some(l), Some(m)) = (link_of(table, a), link_of(table, b)) else {
        return locals(nodes, &node_of(table, nodes, a), &node_of(table, nodes, b));
    };
    if a.parent == b.parent {
        return l.local.cmp(&m.local);
    }
    let (x, y) = (&nodes[usize::from(a.parent)], &nodes[usize::from(b.parent)]);
    locals(nodes, x, y).then(l.local.cmp(&m.local))
}

/// Offers a label to the state at the index `index`. If the offered label has a lower rank than the
/// old label, the offered label replaces the old one, and the state's new key goes into the heap.
/// If both labels have the same rank, the label whose walk precedes the other by local addresses is
/// kept, and the heap has the state's key already. A state is a router in a leg, and a label holds
/// the best walk found so far to a state. A walk's rank packs its cost and its number of links into
/// one number.
fn offer<'a>(
    table: &'a Table,
    nodes: &[Node<'a>],
    labels: &mut [Label],
    heap: &mut BinaryHeap<Waiting, Global>,
    index: usize,
    label: Label,
    key: u64,
) -> Result<(), AllocError>
    requires arena { AreNodes nodes.now }
    requires within { index < length labels.old }
    requires offered { IsOffer table.now nodes.now label }
    requires tied { label.rank ≡ (label_at labels.old index).rank
        → AreTied table.now nodes.now (label_at labels.old index) label }
    ensures first { OnOk result (
        StaysAt table.now nodes.now index label
        labels.old labels.new (heap_items heap.old) (heap_items heap.new)
        ⊎ GoesTo table.now nodes.now index label key
        labels.old labels.new (heap_items heap.old) (heap_items heap.new)) }
    ensures few { OnOk result (heap_len heap.new ≤ heap_len heap.old + 1) }
{
    let old = labels[index];
    if label.rank == old.rank {
        if compare_tied(table, nodes, &old, &label).is_gt() {
            // The heap already has the key of this state and this rank.
            labels[index] = label;
        }
        return Ok(());
    }
    put(labels, heap, index, label, key)
}

/// Offers a label to the state that the source leads to by the step to the next leg: the source's
/// router in the next leg. The source is the settled node whose walk the search continues. A node
/// is the record of a walk, and a label holds the best walk found so far to a state (a router in a
/// leg).
fn offer_turn(
    source: Source<'_>,
    labels: &mut [Label],
    heap: &mut BinaryHeap<Waiting, Global>,
) -> Result<(), AllocError>
    requires source { IsSource source }
    requires before { AreBefore source labels.old (heap_items heap.old) }
    ensures after { OnOk result (AreUpToRow source.entry 0 labels.new (heap_items heap.new)) }
    ensures few { OnOk result (heap_len heap.new ≤ heap_len heap.old + 1) }
{
    let (query, goal) = (source.query, source.goal);
    let (state, rank) = (source.state, source.rank);
    if state / MOST_ROUTERS >= query.request.hops.len() {
        return Ok(());
    }
    let role = query.roles[state];
    if !role.target {
        return Ok(());
    }
    let index = state + MOST_ROUTERS;
    let kept = labels[index];
    if rank > kept.rank {
        return Ok(());
    }
    let key = rank + lift(goal, index);
    let last = labels[goal.at];
    if last.rank < key {
        return Ok(());
    }
    let label = Label {
        rank,
        parent: source.at as u16,
        place: (state % MOST_ROUTERS) as u16,
        row: TURN,
    };
    offer(query.table, source.nodes, labels, heap, index, label, key)
}

/// Offers a label to the state that a link from the source leads to. The function requires that the
/// source's walk may leave its router. The source is the settled node whose walk the search
/// continues. A node is the record of a walk, and a label holds the best walk found so far to a
/// state (a router in a leg).
fn offer_link(
    source: Source<'_>,
    edge: Edge<'_>,
    labels: &mut [Label],
    heap: &mut BinaryHeap<Waiting, Global>,
) -> Result<(), AllocError>
    requires source { IsSource source }
    requires leaves { NodeMayLeave source.query.table.now source.nodes.now source.at source.state }
    requires edge { IsEdge source.query.table.now (source.state % MOST_ROUTERS) edge }
    requires before { AreUpToRow source edge.row labels.old (heap_items heap.old) }
    ensures after { OnOk result (AreUpToRow source.entry (edge.entry.row + 1) labels.new (heap_items heap.new)) }
    ensures few { OnOk result (heap_len heap.new ≤ heap_len heap.old + 1) }
{
    let (query, goal) = (source.query, source.goal);
    let (state, rank) = (source.state, source.rank);
    let place = state % MOST_ROUTERS;
    let index = state - place + edge.end;
    let new = rank + u64::from(edge.metric) * COST_WEIGHT + 1;
    let kept = labels[index];
    if new > kept.rank {
        return Ok(());
    }
    let key = new + lift(goal, index);
    let last = labels[goal.at];
    if key > last.rank {
        return Ok(());
    }
    let role = query.roles[index];
    if !role.enter {
        return Ok(());
    }
    if edge.reverse == NO_LINK || !accepts(edge.link, query.request) {
        return Ok(());
    }
    let label = Label {
        rank: new,
        parent: source.at as u16,
        place: place as u16,
        row: edge.row as u16,
    };
    offer(query.table, source.nodes, labels, heap, index, label, key)
}

/// Offers a label to each state that the node at the index `at` leads to. The first of these states
/// is the node's router in the next leg. The others are the states at the ends of the router's
/// links, if the node's walk may leave its router. `state` is the index of the node's state. A
/// state is a router in a leg, and a node is the record of a walk.
pub(crate) fn expand(
    query: Query<'_>,
    nodes: &[Node<'_>],
    labels: &mut [Label],
    heap: &mut BinaryHeap<Waiting, Global>,
    goal: Goal<'_>,
    at: usize,
    state: usize,
) -> Result<(), AllocError>
    requires query { IsQuery query }
    requires arena { AreNodes nodes.now }
    requires goal { IsStateIndex query.table.now query.request.now goal.at }
    requires behind { goal.floor ≤ state }
    requires from { IsNodeAt query.table.now query.request.now nodes.now at state }
    requires before { AreLabels query.table.now query.request.now nodes.now
        (CrossesBefore query nodes.now at)
        goal labels.old (heap_items heap.old) }
    ensures after { OnOk result (AreLabels query.entry.table.now query.entry.request.now nodes.now
        (CrossesBefore query.entry nodes.now (at + 1))
        goal.entry labels.new (heap_items heap.new)) }
    ensures few { OnOk result (heap_len heap.new ≤ heap_len heap.old + 1 + MOST_LINKS) }
{
    let count = links_at(nodes, at);
    let rank = nodes[at].rank;
    let source = Source {
        query,
        goal,
        nodes,
        at,
        state,
        rank,
    };
    offer_turn(source, labels, heap)?;
    let place = state % MOST_ROUTERS;
    if !may_leave_at(query.table, place, count as u32) {
        return Ok(());
    }
    let links = query.table.out_at(place);
    let ends = query.table.ends_at(place);
    let reverses = query.table.reverses_at(place);
    for row in 0..links.len() {
        let link = &links[row];
        let end = ends[row];
        let reverse = reverses[row];
        let edge = Edge {
            row,
            link,
            metric: link.metric,
            end: usize::from(end),
            reverse,
        };
        offer_link(source, edge, labels, heap)?;
    }
    Ok(())
}
