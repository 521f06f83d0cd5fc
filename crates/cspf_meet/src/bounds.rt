//! Lower bounds of the rank of a way from the head-end, and of a way to the tail-end. The rank of a
//! way packs its cost and its number of links into one number.

ghost use Rattle.std.specs.Prelude.{◌≡◌, ◌≤◌, length};
ghost use Rattle.cspf_model.specs.declared.limits.TheConstants.{MOST_ROUTERS};
ghost use Rattle.cspf_meet.specs.declared.limits.TheConstants.{NO_WAY};

use cspf_walk::LowerBounds;

/// For each router, a lower bound of the rank of a way from the head-end to this router.
#[derive(Clone, Copy)]
pub(crate) struct HeadBounds<'a> {
    /// For each router, its rank in the search from the head-end.
    pub(crate) ahead: &'a [u64],
    /// The edge: one more than the least rank of a router that the search hasn't looked at, but at
    /// most `most`. No bound exceeds it.
    pub(crate) edge: u64,
    /// The least rank found of a way from the head-end to the tail-end, or `NO_WAY`.
    pub(crate) most: u64,
    ghost many: { length ahead.now ≡ MOST_ROUTERS },
    ghost below: { edge ≤ most },
    ghost small: { most ≤ NO_WAY },
}

impl HeadBounds<'_> {
    ghost use Rattle.std.specs.Prelude.{◌<◌};
    ghost use Rattle.cspf_meet.specs.Bounds.{head_bound};

    /// The bound of the router at the index `place`.
    pub(crate) fn bound(&self, place: usize) -> u64
        requires { place < MOST_ROUTERS }
        ensures { result ≡ head_bound self.now place }
    {
        self.ahead[place].min(self.edge)
    }
}

/// For each router, a lower bound of the rank of a way from this router to the tail-end.
#[derive(Clone, Copy)]
pub(crate) struct RankBounds<'a> {
    /// The bounds from the head-end.
    pub(crate) head: HeadBounds<'a>,
    /// For each router, its rank in the search from the tail-end.
    pub(crate) near: &'a [u64],
    ghost many: { length near.now ≡ MOST_ROUTERS },
}

impl LowerBounds for RankBounds<'_> {
    ghost use Rattle.cspf_meet.specs.Bounds.{rank_bound};

    ghost bound_of = { rank_bound };

    fn bound(&self, place: usize) -> u64 {
        self.near[place].min((self.head.most + 1).saturating_sub(self.head.bound(place)))
    }
}
