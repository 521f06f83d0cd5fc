//! The bounds that follow from the search from the head-end.

ghost use Rattle.std.specs.Prelude.{◌≡◌, ◌+◌, ◌/◌, ◌<◌, ◌≤◌, All};
ghost use Rattle.cspf_model.specs.declared.limits.TheConstants.{MOST_ROUTERS};
ghost use Rattle.cspf_model.specs.declared.request.Request.{Request as Asked};
ghost use Rattle.cspf_model.specs.Database.{Database};
ghost use Rattle.cspf_meet.specs.declared.limits.TheConstants.{NO_WAY};
ghost use Rattle.cspf_meet.specs.Bounds.{AreHeadBounds};
ghost use Rattle.cspf_meet.specs.Labels.{rank_at};
ghost use Rattle.cspf_meet.specs.Looks.{AreLookedAt};
ghost use Rattle.cspf_walk.specs.Ways.{Leads};
ghost use Rattle.cspf_graph.specs.Lists.{AreListed};

use crate::bounds::HeadBounds;
use crate::labels::{Labels, rank_in, rank_of};
use crate::limits::NO_WAY;
use std::cmp::Reverse;

/// The least rank in these keys, or `NO_WAY` if there are no keys.
pub(crate) fn least_of_keys(keys: &[Reverse<u64>]) -> u64
    ensures least { All (λ key. result ≤ key.0 / MOST_ROUTERS) keys.now }
    ensures small { result ≤ NO_WAY }
{
    let mut least = NO_WAY;
    for key in keys {
        least = least.min(rank_in(key.0));
    }
    least
}

/// The least rank of these routers, or `NO_WAY` if there are no routers.
fn least_of_places(ranks: &[u64], places: &[u16]) -> u64
    ensures least { All (λ place. result ≤ rank_at ranks.now place) places.now }
    ensures small { result ≤ NO_WAY }
{
    let mut least = NO_WAY;
    for place in places {
        least = least.min(rank_of(ranks, *place));
    }
    least
}

/// The bounds that follow from the labels of the search from the head-end. `most` is the least rank
/// found of a way from the head-end to the tail-end, or `NO_WAY`.
pub(crate) fn head_bounds(ahead: &Labels, most: u64) -> HeadBounds<'_>
    requires { most ≤ NO_WAY }
    ensures most { result.most ≡ most }
    ensures bounds { (d : Database) (q : Asked) → AreListed d
        → AreLookedAt (Leads d q) ahead.now most → AreHeadBounds d q result }
{
    let waiting = least_of_keys(ahead.heap.as_slice());
    let skipped = least_of_places(&ahead.ranks, &ahead.skipped);
    HeadBounds {
        ahead: &ahead.ranks,
        edge: (waiting.min(skipped) + 1).min(most),
        most,
    }
}
