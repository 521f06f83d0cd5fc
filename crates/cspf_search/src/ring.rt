//! The state of the backward search in one leg, from which the bounds of the leg are read.

ghost use Rattle.std.specs.Prelude.{◌≡◌, ◌<◌, ◌≤◌, ℕ, false, IfSome, OnOk, length, set};
ghost use Rattle.cspf_model.specs.declared.limits.TheConstants.{MOST_ROUTERS};

use crate::limits::{NO_WAY, ROOM_FOR_WAITING};
use cspf_model::MOST_ROUTERS;
use std::alloc::{AllocError, Global};
use std::cmp::Reverse;
use std::collections::BinaryHeap;

/// The key of a router that waits to be settled: its bound, and its index in the list of routers.
type WaitingRouter = Reverse<(u32, u16)>;

/// The state of a backward search in one leg.
#[derive(Drop)]
pub(crate) struct Ring {
    /// For each router, the least bound found so far.
    pub(crate) near: Vec<u32>,
    /// For each router, whether the search has looked at all links that end at this router.
    pub(crate) done: Vec<bool>,
    /// The keys of the routers that wait to be settled.
    pub(crate) heap: BinaryHeap<WaitingRouter, Global>,
    ghost bounds: { length near.items ≡ MOST_ROUTERS },
    ghost marks: { length done.items ≡ MOST_ROUTERS },
}

impl Ring {
    ghost use Rattle.cspf_search.specs.Bounds.{Falls, bound_at, is_done};

    /// The state of a backward search before it begins. No router waits to be settled.
    pub(crate) fn new(alloc: Global) -> Result<Self, AllocError> {
        Ok(Ring {
            near: Vec::from_elem(alloc, 0u32, MOST_ROUTERS)?,
            done: Vec::from_elem(alloc, false, MOST_ROUTERS)?,
            heap: BinaryHeap::with_capacity(alloc, ROOM_FOR_WAITING)?,
        })
    }

    /// Resets this state for a new backward search: all bounds are `NO_WAY`, no router is done, and
    /// the heap is empty.
    pub(crate) fn clear(&mut self)
        ensures { (w : ℕ) → is_done self.new w ≡ false }
    {
        self.near.fill(NO_WAY);
        self.done.fill(false);
        self.heap.clear();
    }

    /// Sets the bound of the router `at` to `least`. The router then waits to be settled, unless
    /// this bound is `NO_WAY`.
    pub(crate) fn begin_at(&mut self, at: u16, least: u32) -> Result<(), AllocError>
        requires within { at < MOST_ROUTERS }
        ensures bounds { OnOk result (self.new.near.items ≡ set self.old.near.items at least) }
        ensures marks { OnOk result (self.new.done ≡ self.old.done) }
    {
        self.near[usize::from(at)] = least;
        if least < NO_WAY {
            self.heap.push(Reverse((least, at)))?;
        }
        Ok(())
    }

    /// Lowers the bound of the router `from` to `ahead`, if `ahead` is less than this bound. The
    /// router then waits to be settled.
    pub(crate) fn lower(&mut self, from: u16, ahead: u32) -> Result<(), AllocError>
        requires within { from < MOST_ROUTERS }
        ensures falls { OnOk result (Falls self.old self.new) }
        ensures low { OnOk result (bound_at self.new.near.items from ≤ ahead) }
    {
        let at = usize::from(from);
        if self.near[at] <= ahead {
            return Ok(());
        }
        self.near[at] = ahead;
        self.done[at] = false;
        self.heap.push(Reverse((ahead, from)))?;
        Ok(())
    }

    /// Pops the waiting router with the least bound from the heap, and returns its index.
    pub(crate) fn nearest(&mut self) -> Option<usize>
        ensures within { IfSome result (λ at. at < MOST_ROUTERS) }
        ensures bounds { self.new.near ≡ self.old.near }
        ensures marks { self.new.done ≡ self.old.done }
    {
        while let Some(Reverse((ahead, at))) = self.heap.pop() {
            let at = usize::from(at);
            if at < MOST_ROUTERS && !self.done[at] && self.near[at] == ahead {
                return Some(at);
            }
        }
        None
    }
}
