//! The state of the backward search that grows a tree. The waiting routers are ordered by cost, and
//! then by their number of links.

ghost use Rattle.std.specs.Prelude.{◌≡◌, ◌<◌, ◌≤◌, ℕ, true, false, IfOk, IfSome, OnOk, length};
ghost use Rattle.cspf_model.specs.declared.limits.TheConstants.{MOST_ROUTERS};

use crate::limits::{NO_WAY, ROOM_FOR_WAITING};
use cspf_model::MOST_ROUTERS;
use std::alloc::{AllocError, Global};
use std::cmp::Reverse;
use std::collections::BinaryHeap;

/// The key of a router that waits to be settled: its cost, its number of links, and its index in
/// the list of routers.
type RankedRouter = Reverse<(u32, u16, u16)>;

/// The state of a backward search that grows a tree.
#[derive(Drop)]
pub(crate) struct TreeRing {
    /// For each router, the least cost to the tail-end found so far, or `NO_WAY`.
    pub(crate) near: Vec<u32>,
    /// For each router, the least number of links found so far for a way with the cost in `near`.
    pub(crate) links: Vec<u16>,
    /// For each router, whether the search has looked at all links that end at this router.
    pub(crate) done: Vec<bool>,
    /// The keys of the routers that wait to be settled.
    heap: BinaryHeap<RankedRouter, Global>,
    ghost bounds: { length near.items ≡ MOST_ROUTERS },
    ghost counts: { length links.items ≡ MOST_ROUTERS },
    ghost marks: { length done.items ≡ MOST_ROUTERS },
}

impl TreeRing {
    ghost use Rattle.cspf_search.specs.Bounds.{bound_at};
    ghost use Rattle.cspf_search.specs.TreeSteps.{IsAsNear, TreeFalls, is_settled_there};

    /// The state of a search before it looks at any link. Only the tail-end, whose index is `to`,
    /// waits to be settled, with the cost 0 and no links. All other routers have the cost `NO_WAY`.
    pub(crate) fn begin(alloc: Global, to: usize) -> Result<Self, AllocError>
        requires { to < MOST_ROUTERS }
        ensures none { IfOk result (λ ring. (w : ℕ) → is_settled_there ring w ≡ false) }
        ensures cost { IfOk result (λ ring. bound_at ring.near.items to ≡ 0) }
        ensures count { IfOk result (λ ring. bound_at ring.links.items to ≡ 0) }
    {
        let mut ring = TreeRing {
            near: Vec::from_elem(alloc, NO_WAY, MOST_ROUTERS)?,
            links: Vec::from_elem(alloc, 0u16, MOST_ROUTERS)?,
            done: Vec::from_elem(alloc, false, MOST_ROUTERS)?,
            heap: BinaryHeap::with_capacity(alloc, ROOM_FOR_WAITING)?,
        };
        ring.near[to] = 0;
        ring.heap.push(Reverse((0, 0, to as u16)))?;
        Ok(ring)
    }

    /// Whether the router at the index `at` has a way to the tail-end that costs less than `ahead`,
    /// or a way that costs `ahead` and has at most `count` links.
    pub(crate) fn is_as_near(&self, at: usize, ahead: u32, count: u16) -> bool
        requires { at < MOST_ROUTERS }
        ensures near { result ≡ true → IsAsNear self.now at ahead count }
        ensures farther { result ≡ false → (ahead ≤ bound_at self.now.near.items at)
            × (ahead ≡ bound_at self.now.near.items at → count ≤ bound_at self.now.links.items at) }
    {
        let near = self.near[at];
        near < ahead || (near == ahead && self.links[at] <= count)
    }

    /// Offers the router `from` a way of `count` links with the cost `ahead`. If this way is better
    /// than the router's present way, the router gets it, and then waits to be settled. It is
    /// better if it costs less, or if it costs the same and has fewer links.
    pub(crate) fn lower(&mut self, from: u16, ahead: u32, count: u16) -> Result<(), AllocError>
        requires within { from < MOST_ROUTERS }
        ensures falls { OnOk result (TreeFalls self.old self.new) }
        ensures near { OnOk result (IsAsNear self.new from ahead count) }
    {
        let at = usize::from(from);
        if self.is_as_near(at, ahead, count) {
            return Ok(());
        }
        self.near[at] = ahead;
        self.links[at] = count;
        self.done[at] = false;
        self.heap.push(Reverse((ahead, count, from)))?;
        Ok(())
    }

    /// Pops the first of the waiting routers from the heap, and returns its index.
    pub(crate) fn nearest(&mut self) -> Option<usize>
        ensures within { IfSome result (λ at. at < MOST_ROUTERS) }
        ensures bounds { self.new.near ≡ self.old.near }
        ensures counts { self.new.links ≡ self.old.links }
        ensures marks { self.new.done ≡ self.old.done }
    {
        while let Some(Reverse((_, _, at))) = self.heap.pop() {
            let at = usize::from(at);
            if at < MOST_ROUTERS && !self.done[at] {
                return Some(at);
            }
        }
        None
    }
}
