//! The labels of a search from the head-end that lower bounds guide. It looks first at the routers
//! over which a way to the tail-end may have the least rank. The rank of a way packs its cost and
//! its number of links into one number.

ghost use Rattle.std.specs.Prelude.{◌≡◌, ◌≢◌, ◌+◌, ◌*◌, ◌<◌, ◌≤◌, ◌^◌, ◌⊎◌, ℕ, IfOk, IfSome, IfNone, OnOk, length};
ghost use Rattle.cspf_model.specs.declared.limits.TheConstants.{MOST_ROUTERS};
ghost use Rattle.cspf_meet.specs.declared.limits.TheConstants.{NO_WAY};

use crate::labels::ROUTERS;
use crate::limits::{NO_KEY, NO_WAY, ROOM_FOR_WAITING};
use cspf_model::MOST_ROUTERS;
use std::alloc::{AllocError, Global};
use std::cmp::Reverse;
use std::collections::BinaryHeap;

/// The labels of a search that lower bounds guide, and the routers that wait to be looked at.
#[derive(Drop)]
pub(crate) struct Guided {
    /// For each router, the least rank found so far of a way from the head-end, or `NO_WAY`.
    pub(crate) ranks: Vec<u64>,
    /// The keys of waiting routers, except `next`. A key packs two numbers into one: the rank of
    /// the router plus the bound of a way from there to the tail-end, and the index of the router.
    /// A key no longer counts if the router's rank has changed.
    pub(crate) heap: BinaryHeap<Reverse<u64>, Global>,
    /// The least of the keys that were added last, or `NO_KEY`. Two of five routers are looked at
    /// right after their key is added, and this key is never put into the heap.
    pub(crate) next: u64,
    /// The least rank found of a way from the head-end to the tail-end, or `NO_WAY`.
    pub(crate) most: u64,
    ghost many: { length ranks.items ≡ MOST_ROUTERS },
    ghost small: { most ≤ NO_WAY },
}

impl Guided {
    ghost use Rattle.cspf_meet.specs.Guided.{GuidedFalls, IsGuidedWaiting, guided_key};
    ghost use Rattle.cspf_meet.specs.Labels.{rank_at};

    /// The labels before any link is looked at. Only the router at the index `place` waits, and its
    /// rank is 0. All other routers have the rank `NO_WAY`. A way from the router to the tail-end
    /// has at least the rank `bound`.
    pub(crate) fn begin(alloc: Global, place: u16, bound: u64) -> Result<Guided, AllocError>
        requires within { place < MOST_ROUTERS }
        requires small { bound < 2 ^ 54 }
        ensures waits { IfOk result (λ guided. (bounds : ℕ → ℕ) → bounds place ≡ bound
            → IsGuidedWaiting bounds guided place) }
        ensures others { IfOk result (λ guided. (v : ℕ) → v < MOST_ROUTERS → v ≢ place
            → rank_at guided.ranks.items v ≡ NO_WAY) }
        ensures small { IfOk result (λ guided. (v : ℕ) → rank_at guided.ranks.items v ≤ NO_WAY) }
    {
        let mut guided = Guided {
            ranks: Vec::from_elem(alloc, NO_WAY, MOST_ROUTERS)?,
            heap: BinaryHeap::with_capacity(alloc, ROOM_FOR_WAITING)?,
            next: NO_KEY,
            most: NO_WAY,
        };
        guided.ranks[usize::from(place)] = 0;
        guided
            .heap
            .push(Reverse(bound * ROUTERS + u64::from(place)))?;
        Ok(guided)
    }

    /// Takes the least key.
    pub(crate) fn take(&mut self) -> Option<u64>
        ensures ranks { self.new.ranks ≡ self.old.ranks }
        ensures most { self.new.most ≡ self.old.most }
        ensures left { IfSome result (λ key. (bounds : ℕ → ℕ) (v : ℕ) → IsGuidedWaiting bounds self.old v
            → (key ≡ guided_key bounds self.old v) ⊎ IsGuidedWaiting bounds self.new v) }
        ensures none { IfNone result ((bounds : ℕ → ℕ) (v : ℕ)
            → IsGuidedWaiting bounds self.old v → IsGuidedWaiting bounds self.new v) }
    {
        let first = match self.heap.peek() {
            Some(key) => key.0,
            None => NO_KEY,
        };
        if self.next < first {
            let key = self.next;
            self.next = NO_KEY;
            return Some(key);
        }
        match self.heap.pop() {
            Some(key) => Some(key.0),
            None => None,
        }
    }

    /// Lowers the rank of the router at the index `place`, which then waits. A way from the head-end
    /// to the tail-end over this router has at least the rank `over`, by the rank `rank` and the
    /// bound of the router.
    pub(crate) fn lower(&mut self, place: u16, rank: u64, over: u64) -> Result<(), AllocError>
        requires within { place < MOST_ROUTERS }
        requires small { over ≤ NO_WAY }
        requires less { rank ≤ rank_at self.old.ranks.items place }
        ensures falls { OnOk result ((bounds : ℕ → ℕ) → over ≡ rank + bounds place
            → GuidedFalls bounds self.old self.new) }
        ensures rank { OnOk result (rank_at self.new.ranks.items place ≡ rank) }
        ensures most { self.new.most ≡ self.old.most }
    {
        self.ranks[usize::from(place)] = rank;
        let key = over * ROUTERS + u64::from(place);
        let later = key.max(self.next);
        self.next = key.min(self.next);
        if later != NO_KEY {
            self.heap.push(Reverse(later))?;
        }
        Ok(())
    }

    /// Notes that a way from the head-end to the tail-end has the rank `rank`.
    pub(crate) fn meet(&mut self, rank: u64)
        ensures ranks { self.new.ranks ≡ self.old.ranks }
        ensures rank { self.new.most ≤ rank }
        ensures falls { (bounds : ℕ → ℕ) → GuidedFalls bounds self.old self.new }
    {
        self.most = self.most.min(rank);
    }
}
