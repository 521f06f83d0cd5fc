//! The ranks by which a tree has costs and numbers of links. The rank of a way packs its cost and its
//! number of links into one number.

ghost use Rattle.std.specs.Prelude.{◌≡◌, ◌<◌, ◌^◌, ℕ, All, IfOk, length};
ghost use Rattle.cspf_model.specs.declared.limits.TheConstants.{MOST_ROUTERS};
ghost use Rattle.cspf_search.specs.Bounds.{bound_at};
ghost use Rattle.cspf_search.specs.Packing.{packed_rank};

use crate::limits::MOST_COUNTED_LINKS;
use cspf_model::MOST_ROUTERS;
use cspf_walk::COST_WEIGHT;
use std::alloc::{AllocError, Global};

/// The rank of a way that costs `near` and has `links` links. If `near` isn't below the edge, the
/// result is the rank of a way that costs the edge and has no links. The edge is the least cost of
/// the routers that a search hasn't settled.
fn rank_by(near: u32, links: u16, edge: u32) -> u64
    ensures value { result ≡ packed_rank near links edge }
    ensures small { result < 2 ^ 42 }
{
    let count = if near < edge {
        links.min(MOST_COUNTED_LINKS)
    } else {
        0
    };
    u64::from(near.min(edge)) * COST_WEIGHT + u64::from(count)
}

/// For each router, a lower bound of the rank of a way to the tail-end, by the costs and the numbers
/// of links that a search has found. The edge is the least cost of the routers that the search
/// hasn't settled.
pub(crate) fn pack(
    alloc: Global,
    near: &[u32],
    links: &[u16],
    edge: u32,
) -> Result<Vec<u64>, AllocError>
    requires near { length near.now ≡ MOST_ROUTERS }
    requires links { length links.now ≡ MOST_ROUTERS }
    ensures many { IfOk result (λ ranks. length ranks.items ≡ MOST_ROUTERS) }
    ensures small { IfOk result (λ ranks. All (λ rank. rank < 2 ^ 42) ranks.items) }
    ensures each { IfOk result (λ ranks. (place : ℕ) → place < MOST_ROUTERS
        → bound_at ranks.items place ≡ packed_rank (bound_at near.now place) (bound_at links.now place) edge) }
{
    let mut ranks = Vec::with_capacity(alloc, MOST_ROUTERS)?;
    for place in 0..MOST_ROUTERS {
        ranks.push(rank_by(near[place], links[place], edge))?;
    }
    Ok(ranks)
}
