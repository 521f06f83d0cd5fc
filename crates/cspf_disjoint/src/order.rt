//! The order of walks.

ghost use Rattle.std.specs.Prelude.{◌≡◌, IfOk};
ghost use Rattle.cspf_model.specs.Walks.{locals_of, walk_cmp};

use cspf_addr::Addr;
use cspf_model::{Link, Route};
use std::alloc::{AllocError, Global};
use std::cmp::Ordering;

/// The local addresses of the links, in order.
fn list_locals(alloc: Global, links: &[Link]) -> Result<Vec<Addr>, AllocError>
    ensures { IfOk result (λ locals. locals.items ≡ locals_of links.now) }
{
    let mut locals = Vec::with_capacity(alloc, links.len())?;
    for link in links {
        locals.push(link.local)?;
    }
    Ok(locals)
}

/// How the two routes compare in the order of walks.
pub(crate) fn compare_routes(
    alloc: Global,
    one: &Route,
    other: &Route,
) -> Result<Ordering, AllocError>
    ensures { IfOk result (λ order. order ≡ walk_cmp one.now other.now) }
{
    let first = list_locals(alloc, one.links())?;
    let second = list_locals(alloc, other.links())?;
    let by_cost = one.cost().cmp(&other.cost());
    let by_links = one.links().len().cmp(&other.links().len());
    let by_locals = first.as_slice().cmp(second.as_slice());
    Ok(by_cost.then(by_links.then(by_locals)))
}
