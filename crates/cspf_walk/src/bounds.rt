//! Lower bounds of the rank of a way to the tail-end. The rank of a way packs its cost and its
//! number of links into one number.

ghost use Rattle.std.specs.Prelude.{◌≡◌, ◌<◌, ◌^◌};
ghost use Rattle.cspf_model.specs.declared.limits.TheConstants.{MOST_ROUTERS};
ghost use Rattle.cspf_walk.specs.Ways.{link_step};

use crate::limits::COST_WEIGHT;
use cspf_model::Link;

/// For each router, a lower bound of the rank of a way from this router to the tail-end.
pub trait LowerBounds {
    ghost use Rattle.std.specs.Prelude.{ℕ};

    /// The bound of the router with an index in the list of routers.
    ghost bound_of: { Self → ℕ → ℕ };

    /// The bound of the router at the index `place` in the list of routers.
    fn bound(&self, place: usize) -> u64
        requires { place < MOST_ROUTERS }
        ensures value { result ≡ bound_of self.now place }
        ensures small { result < 2 ^ 54 };
}

/// How much a link adds to the rank of a way.
#[inline(always)]
pub fn step(link: &Link) -> u64
    ensures value { result ≡ link_step link.now }
    ensures small { result < 2 ^ 43 }
{
    u64::from(link.metric) * COST_WEIGHT + 1
}
