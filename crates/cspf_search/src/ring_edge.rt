//! The edge of a backward search: the least bound of the routers that the search hasn't settled.

ghost use Rattle.std.specs.Prelude.{◌≡◌, ◌<◌, ◌≤◌, ℕ, false, length, slice_index_or};
ghost use Rattle.cspf_search.specs.Bounds.{bound_at};

use crate::limits::NO_WAY;

/// The least bound of those among the first `count` routers that aren't done, or `NO_WAY` if all
/// are done. `near` has the bound of each router. `done` says of each router whether the search has
/// looked at all links that end there.
pub(crate) fn least_open(near: &[u32], done: &[bool], count: usize) -> u32
    requires bounds { count ≤ length near.now }
    requires marks { count ≤ length done.now }
    ensures { (w : ℕ) → w < count → slice_index_or done.now w false ≡ false
        → result ≤ bound_at near.now w }
{
    let mut least = NO_WAY;
    for place in 0..count {
        let bound = near[place];
        let open = if done[place] { NO_WAY } else { bound };
        least = least.min(open);
    }
    least
}
