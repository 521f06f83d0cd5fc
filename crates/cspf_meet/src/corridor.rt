//! The corridor: the routers that may lie on a way of the least rank from the head-end to the
//! tail-end. The search from the tail-end goes on in the corridor until all its routers are looked
//! at. The rank of a way packs its cost and its number of links into one number.

ghost use Rattle.std.specs.Prelude.{◌≡◌, length};
ghost use Rattle.cspf_model.specs.declared.limits.TheConstants.{MOST_ROUTERS};

use crate::bounds::HeadBounds;
use crate::labels::{Labels, place_in, rank_in, rank_of};
use crate::limits::ROOM_FOR_PLACES;
use std::alloc::{AllocError, Global};
use std::cmp::Reverse;
use std::collections::VecDeque;

/// The state of the search in the corridor.
#[derive(Drop)]
pub(crate) struct Corridor {
    /// For each router, the least rank found so far of a way to the tail-end, or `NO_WAY`.
    pub(crate) near: Vec<u64>,
    /// The indexes of routers that wait to be looked at.
    pub(crate) todo: VecDeque<u16>,
    ghost many: { length near.items ≡ MOST_ROUTERS },
}

impl Corridor {
    ghost use Rattle.std.specs.Prelude.{◌+◌, ◌<◌, ◌≤◌, ◌/◌, ◌%◌, ◌⊎◌, ℕ, IfOk, OnOk, All};
    ghost use Rattle.cspf_model.specs.declared.request.Request.{Request as Asked};
    ghost use Rattle.cspf_model.specs.Database.{Database};
    ghost use Rattle.cspf_meet.specs.Bounds.{head_bound};
    ghost use Rattle.cspf_meet.specs.Corridors.{CorridorFalls, IsCorridor, IsToDo};
    ghost use Rattle.cspf_meet.specs.Labels.{rank_at};
    ghost use Rattle.cspf_meet.specs.Looks.{AreLookedAt, LeadsBack};

    /// Lets the router at the index `place` wait, if a way over this router may have the least
    /// rank. The way from this router to the tail-end has the rank `rank`.
    fn add(&mut self, head: HeadBounds<'_>, place: u16, rank: u64) -> Result<(), AllocError>
        ensures near { self.new.near ≡ self.old.near }
        ensures kept { OnOk result ((v : ℕ) → IsToDo self.old v → IsToDo self.new v) }
        ensures added { OnOk result ((head.entry.most < rank + head_bound head.entry place)
            ⊎ IsToDo self.new place) }
    {
        let from_head = rank_of(head.ahead, place).min(head.edge);
        if rank.saturating_add(from_head) > head.most {
            return Ok(());
        }
        self.todo.push_back(place)?;
        Ok(())
    }

    /// Lets the routers of these keys wait, if a way over the router may have the least rank.
    fn add_keys(&mut self, head: HeadBounds<'_>, keys: &[Reverse<u64>]) -> Result<(), AllocError>
        ensures near { self.new.near ≡ self.old.near }
        ensures kept { OnOk result ((v : ℕ) → IsToDo self.old v → IsToDo self.new v) }
        ensures added { OnOk result (All (λ key.
            (head.entry.most < key.0 / MOST_ROUTERS + head_bound head.entry (key.0 % MOST_ROUTERS))
            ⊎ IsToDo self.new (key.0 % MOST_ROUTERS)) keys.now) }
    {
        for key in keys {
            self.add(head, place_in(key.0), rank_in(key.0))?;
        }
        Ok(())
    }

    /// Lets these routers wait, if a way over the router may have the least rank.
    fn add_places(&mut self, head: HeadBounds<'_>, places: &[u16]) -> Result<(), AllocError>
        ensures near { self.new.near ≡ self.old.near }
        ensures kept { OnOk result ((v : ℕ) → IsToDo self.old v → IsToDo self.new v) }
        ensures added { OnOk result (All (λ place.
            (head.entry.most < rank_at self.old.near.items place + head_bound head.entry place)
            ⊎ IsToDo self.new place) places.now) }
    {
        for place in places {
            let rank = rank_of(&self.near, *place);
            self.add(head, *place, rank)?;
        }
        Ok(())
    }

    /// The state at the end of the search from the tail-end, whose labels are `back`.
    pub(crate) fn begin(
        alloc: Global,
        head: HeadBounds<'_>,
        back: Labels,
    ) -> Result<Corridor, AllocError>
        ensures near { IfOk result (λ corridor. corridor.near ≡ back.ranks) }
        ensures waits { IfOk result (λ corridor. (d : Database) (q : Asked)
            → AreLookedAt (LeadsBack d q) back head.entry.most → IsCorridor d q head.entry corridor) }
    {
        let Labels {
            ranks,
            heap,
            skipped,
        } = back;
        let mut corridor = Corridor {
            near: ranks,
            todo: VecDeque::with_capacity(alloc, ROOM_FOR_PLACES)?,
        };
        corridor.add_keys(head, heap.as_slice())?;
        corridor.add_places(head, &skipped)?;
        Ok(corridor)
    }

    /// Lowers the rank of the router at the index `place`, which then waits.
    pub(crate) fn lower(&mut self, place: u16, rank: u64) -> Result<(), AllocError>
        requires within { place < MOST_ROUTERS }
        requires less { rank ≤ rank_at self.old.near.items place }
        ensures falls { OnOk result (CorridorFalls self.old self.new) }
        ensures rank { OnOk result (rank_at self.new.near.items place ≡ rank) }
    {
        self.near[usize::from(place)] = rank;
        self.todo.push_back(place)?;
        Ok(())
    }
}
