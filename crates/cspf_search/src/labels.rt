//! The labels of states, the heap of waiting states, and the choice of the next state to settle. A
//! state is a router in a leg, and a label holds the best walk found so far to a state.

ghost use Rattle.cspf_model.specs.declared.limits.TheConstants.{MOST_ROUTERS};
ghost use Rattle.std.specs.Prelude.{◌≡◌, ◌+◌, ◌*◌, ◌<◌, ◌≤◌, ◌↔◌, IsTrue, All, Contains, length, set, slice_get, option_map, IfSome, IfNone, OnOk};
ghost use Rattle.std.specs.BinaryHeap.{IsHeap, heap_items, heap_len};
ghost use Rattle.cspf_db.specs.Index.{router_list, links_from_index};
ghost use Rattle.cspf_search.specs.Arena.{AreNodes};
ghost use Rattle.cspf_search.specs.Frontier.{lift, node_of, key_at, heap_key_cmp, Gains, IsKey, IsLeast, IsLive, IsOpenOf, HeapKey};

use crate::arena::{Node, weight};
use crate::goal::{Goal, lift};
use crate::limits::ROOM_FOR_WAITING;
use cspf_db::Table;
use cspf_model::{Link, Request};
use cspf_walk::Last;
use std::alloc::{AllocError, Global};
use std::cmp::Reverse;
use std::collections::BinaryHeap;

/// The best walk that the search has found so far to a state (a router in a leg).
#[derive(Clone, Copy, Debug)]
pub(crate) struct Label {
    /// The rank of the walk, as in `Node`: its cost and its number of links, packed into one number
    /// above 0. The rank 0 means that the state (a router in a leg) is settled.
    pub(crate) rank: u64,
    /// The index of the settled node (the record of a walk) whose walk this walk continues.
    pub(crate) parent: u16,
    /// The index of the parent's router in the list of routers.
    pub(crate) place: u16,
    /// The index of the walk's last link among the links from the parent's router. If it is greater
    /// than all indexes of these links, the walk ends with the step to the next leg at the same
    /// router.
    pub(crate) row: u16,
}

/// The label of a state (a router in a leg) to which no walk is known yet.
pub(crate) const OPEN: Label = Label {
    rank: u64::MAX,
    parent: 0,
    place: 0,
    row: 0,
};

/// The label of a state (a router in a leg) that is settled.
pub(crate) const SETTLED: Label = Label {
    rank: 0,
    parent: 0,
    place: 0,
    row: 0,
};

/// The key of a waiting state: the rank in its label plus the state's lift, and then the index of
/// the state. The lift is the state's bound times `COST_WEIGHT`. A state is a router in a leg, and
/// a label holds the best walk found so far to a state. A walk's rank packs its cost and its number
/// of links into one number.
pub(crate) type Waiting = Reverse<(u64, u64)>;

/// The last link of a label's walk, or none if the walk ends with a step to the next leg at the
/// same router.
pub(crate) fn link_of<'a>(table: &'a Table, label: &Label) -> Option<&'a Link>
    requires { label.now.place < length (router_list table.now) }
    ensures { option_map (λ link. link.now) result ≡ slice_get (links_from_index table.now label.now.place) label.now.row }
{
    table
        .out_at(usize::from(label.place))
        .get(usize::from(label.row))
}

/// The node (the record of a walk) for the walk that a label holds. This walk continues the walk of
/// the settled node `label.parent`, either by one link or by the step to the next leg at the same
/// router. A label holds the best walk found so far to a state, which is a router in a leg.
pub(crate) fn node_of<'a>(table: &'a Table, nodes: &[Node<'a>], label: &Label) -> Node<'a>
    requires arena { AreNodes nodes.now }
    requires parent { label.now.parent < length nodes.now }
    requires place { label.now.place < length (router_list table.now) }
    ensures { result ≡ node_of table.now nodes.now label.now }
{
    let from = &nodes[usize::from(label.parent)];
    match link_of(table, label) {
        Some(link) => Node {
            rank: from.rank + weight(link) + 1,
            by: Last { link: Some(link) },
            router: link.to,
            parent: label.parent,
            leg: from.leg,
        },
        None => Node {
            rank: from.rank,
            by: from.by.same(),
            router: from.router,
            parent: from.parent,
            leg: from.leg + 1,
        },
    }
}

/// Sets the label of the state at the index `at`, and puts the state's key into the heap. A state
/// is a router in a leg, and a label holds the best walk found so far to a state.
pub(crate) fn put(
    labels: &mut [Label],
    heap: &mut BinaryHeap<Waiting, Global>,
    at: usize,
    label: Label,
    key: u64,
) -> Result<(), AllocError>
    requires within { at < length labels.old }
    ensures labels { OnOk result (labels.new ≡ set labels.old at label) }
    ensures keys { OnOk result
        (Gains (key_at key at) (heap_items heap.old) (heap_items heap.new)) }
    ensures one { OnOk result (heap_len heap.new ≡ heap_len heap.old + 1) }
{
    labels[at] = label;
    heap.push(Reverse((key, at as u64)))?;
    Ok(())
}

/// Whether a key of the state at the index `at` still counts: it is the key that the present label
/// of the state gives, and the state isn't in a closed leg. A leg is closed once all its targets at
/// which a route may go on to the next leg are settled. A state is a router in a leg, and a label
/// holds the best walk found so far to a state. A leg's targets are the routers where it may end.
fn is_live(goal: Goal<'_>, labels: &[Label], key: u64, at: usize) -> bool
    requires within { at < length labels.now }
    requires bounds { length goal.bounds.now ≡ length labels.now }
    requires some { lift goal at ≤ key }
    ensures { IsTrue result ↔ IsLive goal.entry labels.now (key_at key at) }
{
    at >= goal.floor && labels[at].rank == key - lift(goal, at)
}

/// Pops keys from the heap up to the first key that still counts, and returns the index of this
/// key's state. It is the waiting state with the least key. A key no longer counts if its state has
/// another label now, or if its state is in a closed leg, below the floor. A state is a router in a
/// leg, and a label holds the best walk found so far to a state. The floor is the first index after
/// the states of the closed legs.
pub(crate) fn least(
    table: &Table,
    request: &Request,
    goal: Goal<'_>,
    labels: &[Label],
    heap: &mut BinaryHeap<Waiting, Global>,
) -> Option<usize>
    requires many { length labels.now ≡ (length request.now.hops + 1) * MOST_ROUTERS }
    requires bounds { length goal.bounds.now ≡ (length request.now.hops + 1) * MOST_ROUTERS }
    requires ordered { IsHeap heap_key_cmp (heap_items heap.old) }
    requires keyed { All (IsKey table.now request.now goal) (heap_items heap.old) }
    ensures some { IfSome result (λ at. IsLeast table.now request.now goal.entry labels.now
        (heap_items heap.old) at (heap_items heap.new)) }
    ensures fewer { IfSome result (λ _. heap_len heap.new < heap_len heap.old) }
    ensures none { IfNone result ((key : HeapKey) → Contains (heap_items heap.old) key
        → ¬ IsLive goal.entry labels.now key) }
{
    while let Some(Reverse((key, at))) = heap.pop() {
        let at = at as usize;
        if is_live(goal, labels, key, at) {
            return Some(at);
        }
    }
    None
}

/// Removes from the heap the keys of states in closed legs: the states at indexes below `floor`. A
/// state is a router in a leg.
pub(crate) fn drop_closed(
    alloc: Global,
    heap: &mut BinaryHeap<Waiting, Global>,
    floor: usize,
) -> Result<(), AllocError>
    ensures left { OnOk result (IsOpenOf floor (heap_items heap.old) (heap_items heap.new)) }
    ensures fewer { OnOk result (heap_len heap.new ≤ heap_len heap.old) }
{
    let mut left = BinaryHeap::with_capacity(alloc, ROOM_FOR_WAITING)?;
    for key in heap.as_slice() {
        if key.0.1 >= floor as u64 {
            left.push(*key)?;
        }
    }
    *heap = left;
    Ok(())
}
