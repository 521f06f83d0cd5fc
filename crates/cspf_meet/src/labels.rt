//! The labels of one of the two searches. Waiting routers are ordered by rank.

ghost use Rattle.std.specs.Prelude.{◌≡◌, ◌+◌, ◌*◌, ◌<◌, ◌≤◌, ◌^◌, ◌/◌, ◌%◌, ◌≢◌, ℕ, true, IfOk, IfSome, IfNone, OnOk, length, slice_index_or};
ghost use Rattle.cspf_model.specs.declared.limits.TheConstants.{MOST_ROUTERS};
ghost use Rattle.cspf_meet.specs.declared.limits.TheConstants.{NO_WAY};

use crate::limits::{NO_WAY, ROOM_FOR_PLACES, ROOM_FOR_WAITING};
use cspf_model::MOST_ROUTERS;
use std::alloc::{AllocError, Global};
use std::cmp::Reverse;
use std::collections::BinaryHeap;

/// The number of routers in the type of keys.
pub(crate) const ROUTERS: u64 = 1024;

/// The rank in a key of the heap, which packs the rank of a router's label and the router's index
/// into one number.
pub(crate) fn rank_in(key: u64) -> u64
    ensures value { result ≡ key / MOST_ROUTERS }
    ensures small { result < 2 ^ 54 }
{
    key / ROUTERS
}

/// The index of the router in a key of the heap.
pub(crate) fn place_in(key: u64) -> u16
    ensures value { result ≡ key % MOST_ROUTERS }
    ensures small { result < MOST_ROUTERS }
{
    (key % ROUTERS) as u16
}

/// The rank of the router at the index `place`, or 0 if there are fewer ranks.
pub(crate) fn rank_of(ranks: &[u64], place: u16) -> u64
    ensures { result ≡ slice_index_or ranks.now place 0 }
{
    match ranks.get(usize::from(place)) {
        Some(rank) => *rank,
        None => 0,
    }
}

/// The labels of one of the two searches, and the routers that wait to be looked at.
#[derive(Drop)]
pub(crate) struct Labels {
    /// For each router, the least rank found so far of a way between this router and the router
    /// where the search begins, or `NO_WAY`.
    pub(crate) ranks: Vec<u64>,
    /// The keys of waiting routers. A key packs a rank and the index of a router. A key whose rank
    /// isn't the router's present rank no longer counts.
    pub(crate) heap: BinaryHeap<Reverse<u64>, Global>,
    /// The indexes of further waiting routers. The search needn't look at these routers.
    pub(crate) skipped: Vec<u16>,
    ghost many: { length ranks.items ≡ MOST_ROUTERS },
}

impl Labels {
    ghost use Rattle.cspf_meet.specs.Looks.{HasNoneWaiting};
    ghost use Rattle.cspf_meet.specs.Labels.{IsNextWaiting, IsWaiting, LabelsFall, rank_at};

    /// The labels of a search that begins at the router with the index `place`. This router waits,
    /// and its rank is 0. All other routers have the rank `NO_WAY`.
    pub(crate) fn begin(alloc: Global, place: u16) -> Result<Labels, AllocError>
        requires { place < MOST_ROUTERS }
        ensures start { IfOk result (λ labels. rank_at labels.ranks.items place ≡ 0) }
        ensures waits { IfOk result (λ labels. IsWaiting labels place) }
        ensures others { IfOk result (λ labels. (v : ℕ) → v < MOST_ROUTERS → v ≢ place
            → rank_at labels.ranks.items v ≡ NO_WAY) }
        ensures small { IfOk result (λ labels. (v : ℕ)
            → rank_at labels.ranks.items v ≤ NO_WAY) }
    {
        let mut labels = Labels {
            ranks: Vec::from_elem(alloc, NO_WAY, MOST_ROUTERS)?,
            heap: BinaryHeap::with_capacity(alloc, ROOM_FOR_WAITING)?,
            skipped: Vec::with_capacity(alloc, ROOM_FOR_PLACES)?,
        };
        labels.ranks[usize::from(place)] = 0;
        labels.heap.push(Reverse(u64::from(place)))?;
        Ok(labels)
    }

    /// The rank in the first key of the heap.
    pub(crate) fn least(&self) -> Option<u64>
        ensures { IfSome result (λ rank. rank < 2 ^ 54) }
    {
        self.heap.peek().map(|key| rank_in(key.0))
    }

    /// Whether no router waits.
    pub(crate) fn is_done(&self) -> bool
        ensures { result ≡ true → HasNoneWaiting self.now }
    {
        self.heap.is_empty() && self.skipped.is_empty()
    }

    /// The number of keys in the heap.
    pub(crate) fn waiting(&self) -> usize {
        self.heap.len()
    }

    /// Takes the first key from the heap that still counts. Returns the index of its router, and
    /// the router's rank.
    pub(crate) fn next(&mut self) -> Option<(u16, u64)>
        ensures ranks { self.new.ranks ≡ self.old.ranks }
        ensures next { IfSome result (λ next. IsNextWaiting self.old self.new next.0 next.1) }
        ensures none { IfNone result ((v : ℕ) → v < MOST_ROUTERS
            → IsWaiting self.old v → IsWaiting self.new v) }
    {
        while let Some(Reverse(key)) = self.heap.pop() {
            let place = place_in(key);
            let rank = rank_in(key);
            if self.ranks[usize::from(place)] == rank {
                return Some((place, rank));
            }
        }
        None
    }

    /// Lowers the rank of the router at the index `place`, which then waits. If `soon` is false,
    /// the search needn't look at the router.
    pub(crate) fn lower(&mut self, place: u16, rank: u64, soon: bool) -> Result<(), AllocError>
        requires within { place < MOST_ROUTERS }
        requires small { rank ≤ NO_WAY }
        requires less { rank ≤ rank_at self.old.ranks.items place }
        ensures falls { OnOk result (LabelsFall self.old self.new) }
        ensures rank { OnOk result (rank_at self.new.ranks.items place ≡ rank) }
    {
        self.ranks[usize::from(place)] = rank;
        if soon {
            self.heap.push(Reverse(rank * ROUTERS + u64::from(place)))?;
        } else {
            self.skipped.push(place)?;
        }
        Ok(())
    }
}
