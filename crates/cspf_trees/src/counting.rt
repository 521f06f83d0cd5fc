//! How often a list of requests asks for each class, and when its trees pay.

use crate::class::{class_of, hash_of};
use crate::growth::Growth;
use crate::legs::has_loose_hops;
use crate::limits::{SEARCH_COST, TREE_COST, WALK_COST};
use cspf_addr::Addr;
use cspf_model::Request;
use std::alloc::{AllocError, Global};

/// The numbers of requests of a class at which its tree may be grown. At 1, classes that have to
/// share a row would each grow a tree when they take the row over.
const DUES: [u32; 6] = [2, 4, 8, 16, 32, 64];

/// A hash for the class of a leg of the request that ends at the router `to`. A class is all
/// requests with one tail-end and the same affinities.
fn leg_hash(request: &Request, to: Addr) -> u64 {
    let mut class = class_of(request);
    class.to = to;
    hash_of(&class)
}

/// Appends a hash for the class of each leg that a tree may answer. A leg to a hop is taken to end
/// at the address of the hop's prefix. A class is all requests with one tail-end and the same
/// affinities.
fn push_hashes(hashes: &mut Vec<u64>, request: &Request) -> Result<(), AllocError> {
    if !request.hops.is_empty() && !has_loose_hops(request) {
        return Ok(());
    }
    for hop in request.hops.as_slice() {
        let hash = leg_hash(request, hop.prefix.address());
        hashes.push(hash)?;
    }
    hashes.push(leg_hash(request, request.to))?;
    Ok(())
}

/// The hashes of the classes of all legs that a tree may answer, in ascending order. A class is all
/// requests with one tail-end and the same affinities.
fn hashes_of(alloc: Global, requests: &[Request]) -> Result<Vec<u64>, AllocError> {
    let mut hashes = Vec::with_capacity(alloc, requests.len())?;
    for request in requests {
        push_hashes(&mut hashes, request)?;
    }
    hashes.sort_unstable();
    Ok(hashes)
}

/// What trees save in each of `askers` askers, in hundredths of a search, if each tree is grown at
/// the `due`-th request of its class. The classes are those of the ascending list `hashes`, and each
/// asker gets an equal part of the requests of each class. If the trees cost as much as they save,
/// or more, the result is 0. A class is all requests with one tail-end and the same affinities.
fn saving(hashes: &[u64], askers: usize, due: u64) -> u64 {
    let (mut saved, mut spent) = (0u64, 0u64);
    let mut count = 0usize;
    for at in 0..hashes.len() {
        count = count.saturating_add(1);
        if at + 1 < hashes.len() && hashes[at + 1] == hashes[at] {
            continue;
        }
        let asks = (count / askers.max(1)) as u64;
        if asks >= due {
            let walks = (asks - due).saturating_add(1);
            saved = saved.saturating_add(walks.saturating_mul(SEARCH_COST - WALK_COST));
            spent = spent.saturating_add(TREE_COST);
        }
        count = 0;
    }
    saved.saturating_sub(spent)
}

/// The growth of trees by which `askers` askers answer these requests soonest, if each of them gets
/// an equal part of the requests of each class, and the network doesn't change. If no class is asked
/// for often enough, the result is `Never`. If memory is refused, it is `AsPaid`. A class is all
/// requests with one tail-end and the same affinities.
pub fn growth_for(alloc: Global, requests: &[Request], askers: usize) -> Growth {
    let Ok(hashes) = hashes_of(alloc, requests) else {
        return Growth::AsPaid;
    };
    let (mut growth, mut most) = (Growth::Never, 0);
    for due in DUES {
        let saved = saving(&hashes, askers, u64::from(due));
        if saved > most {
            (growth, most) = (Growth::FromAsk(due), saved);
        }
    }
    growth
}
