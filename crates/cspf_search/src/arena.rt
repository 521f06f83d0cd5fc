//! The settled walks of a search. A node stands for one walk, and keeps only the last link of this
//! walk, and the index of the node for the walk before this link. So no walk is copied.

ghost use Rattle.cspf_search.specs.declared.limits.TheConstants.{COST_WEIGHT};
ghost use Rattle.std.specs.Prelude.{◌≡◌, ◌-◌, ◌*◌, ◌/◌, ◌%◌, ◌^◌, ◌<◌, IfOk, length};
ghost use Rattle.cspf_model.specs.Walks.{cost_of};
ghost use Rattle.cspf_search.specs.Settled.{locals_cmp};
ghost use Rattle.cspf_search.specs.Arena.{AreNodes, IsNext, index_of, walk_at, walk_of, walks};

use crate::limits::COST_WEIGHT;
use cspf_addr::Addr;
use cspf_model::Link;
use cspf_walk::Last;
use std::alloc::{AllocError, Global};
use std::cmp::Ordering;

/// A walk that the search has settled at its state (a router in a leg). The node keeps the walk's
/// last link, and the index of the node for the walk without this link. A node has 24 bytes.
#[derive(Drop)]
pub(crate) struct Node<'a> {
    /// The rank of the walk: its cost times `COST_WEIGHT`, plus its number of links, plus 1.
    pub(crate) rank: u64,
    /// The last link of the walk. A walk without links has none.
    pub(crate) by: Last<'a>,
    /// The router that the walk has reached.
    pub(crate) router: Addr,
    /// The index of the node (the record of a walk) for this walk without its last link. The first
    /// node has its own index, 0.
    pub(crate) parent: u16,
    /// The leg of the request that the walk has reached. The first leg is leg 1.
    pub(crate) leg: u16,
}

/// How much a link's metric adds to the rank of a walk, which packs the walk's cost and its number
/// of links into one number.
pub(crate) fn weight(link: &Link) -> u64
    ensures value { result ≡ link.now.metric * COST_WEIGHT }
    ensures small { result < 2 ^ 46 }
{
    u64::from(link.metric) * COST_WEIGHT
}

/// The number of links of a walk with the rank `rank`, which packs the walk's cost and its number
/// of links into one number.
fn links_in(rank: u64) -> usize
    requires { 0 < rank }
    ensures { result ≡ (rank - 1) % COST_WEIGHT }
{
    ((rank - 1) % COST_WEIGHT) as usize
}

/// The number of links of the walk of the node at the index `at` (the record of a walk).
pub(crate) fn links_at(nodes: &[Node<'_>], at: usize) -> usize
    requires arena { AreNodes nodes.now }
    requires within { at < length nodes.now }
    ensures { result ≡ length (walk_at (walks nodes.now) at) }
{
    links_in(nodes[at].rank)
}

/// The cost of the walk of the node at the index `at` (the record of a walk).
pub(crate) fn cost_at(nodes: &[Node<'_>], at: usize) -> u64
    requires arena { AreNodes nodes.now }
    requires within { at < length nodes.now }
    ensures { result ≡ cost_of (walk_at (walks nodes.now) at) }
{
    (nodes[at].rank - 1) / COST_WEIGHT
}

/// The index of the node (the record of a walk) that has reached the router `router` in the leg
/// `leg`, if there is such a node.
pub(crate) fn index_of(nodes: &[Node<'_>], leg: usize, router: Addr) -> Option<usize>
    ensures { result ≡ index_of nodes.now (record { leg = leg; router = router }) }
{
    nodes.iter().position(|node| usize::from(node.leg) == leg && node.router == router)
}

/// The links of the walk of the node at the index `at` (the record of a walk), in order.
pub(crate) fn links_to(
    alloc: Global,
    nodes: &[Node<'_>],
    at: usize,
) -> Result<Vec<Link>, AllocError>
    requires arena { AreNodes nodes.now }
    requires within { at < length nodes.now }
    ensures { IfOk result (λ links. links.items ≡ walk_at (walks nodes.now) at) }
{
    let mut links = Vec::with_capacity(alloc, links_at(nodes, at))?;
    let mut index = at;
    while let Some(link) = nodes[index].by.get() {
        links.push(*link)?;
        index = usize::from(nodes[index].parent);
    }
    links.reverse();
    Ok(links)
}

/// Compares the local addresses of two walks with the same number of links, beginning at their
/// first links. The function follows both walks back from their last links, and stops when both
/// continue the same node (the record of a walk).
pub(crate) fn locals<'a>(nodes: &[Node<'a>], a: &Node<'a>, b: &Node<'a>) -> Ordering
    requires arena { AreNodes nodes.now }
    requires first { IsNext nodes.now a.now }
    requires second { IsNext nodes.now b.now }
    requires as_many { length (walk_of nodes.now a.now) ≡ length (walk_of nodes.now b.now) }
    ensures { result ≡ locals_cmp (walk_of nodes.now a.now) (walk_of nodes.now b.now) }
{
    let count = links_in(a.rank);
    let mut found = Ordering::Equal;
    let mut x = a;
    let mut y = b;
    for _step in 0..count {
        let (Some(l), Some(m)) = (x.by.get(), y.by.get()) else {
            unreachable!();
        };
        found = l.local.cmp(&m.local).then(found);
        if x.parent == y.parent {
            return found;
        }
        x = &nodes[usize::from(x.parent)];
        y = &nodes[usize::from(y.parent)];
    }
    found
}
