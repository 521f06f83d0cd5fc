//! Whether two ways share a circuit or a router.

ghost use Rattle.std.specs.Prelude.{◌≡◌, ◌↔◌, IsTrue, IfOk, OnOk, true, ◌++◌, All, AllPairs};
ghost use Rattle.cspf_model.specs.Database.{IsReverse, key_of};
ghost use Rattle.cspf_model.specs.Walks.{routers_passed};
ghost use Rattle.cspf_pair.specs.Pairs.{AreDifferent, AreOfTwoCircuits, ShareNoRouter, routers_used};

use cspf_addr::Addr;
use cspf_model::{Link, Request};
use cspf_pair::Kind;
use std::alloc::{AllocError, Global};

/// Whether the two links begin at the same interface.
fn have_same_key(one: &Link, other: &Link) -> bool
    ensures { IsTrue result ↔ (key_of one.now ≡ key_of other.now) }
{
    one.from == other.from && one.local == other.local
}

/// Whether the second link is the reverse of the first.
fn is_reverse(one: &Link, other: &Link) -> bool
    ensures { IsTrue result ↔ IsReverse one.now other.now }
{
    other.from == one.to
        && other.local == one.remote
        && other.to == one.from
        && other.remote == one.local
}

/// Whether the two links belong to different circuits.
fn are_of_two_circuits(one: &Link, other: &Link) -> bool
    ensures { IsTrue result ↔ AreOfTwoCircuits one.now other.now }
{
    !have_same_key(one, other) && !is_reverse(one, other)
}

/// Whether the link belongs to another circuit than each of the others.
fn is_of_other_circuit(link: &Link, others: &[Link]) -> bool
    ensures { IsTrue result ↔ All (AreOfTwoCircuits link.now) others.now }
{
    others.iter().all(|other| are_of_two_circuits(link, other))
}

/// Whether all these links belong to different circuits.
fn have_own_circuits(links: &[Link]) -> bool
    ensures { result ≡ true → AllPairs AreOfTwoCircuits links.now }
{
    for (at, link) in links.iter().enumerate() {
        if !is_of_other_circuit(link, &links[at + 1..]) {
            return false;
        }
    }
    true
}

/// Whether the router differs from each of the others.
fn is_other_router(router: Addr, others: &[Addr]) -> bool
    ensures { IsTrue result ↔ All (AreDifferent router) others.now }
{
    others.iter().all(|other| router != *other)
}

/// Whether all these routers differ.
fn are_different(routers: &[Addr]) -> bool
    ensures { result ≡ true → AllPairs AreDifferent routers.now }
{
    for (at, router) in routers.iter().enumerate() {
        if !is_other_router(*router, &routers[at + 1..]) {
            return false;
        }
    }
    true
}

/// Appends the routers that the way passes through.
fn push_passed(routers: &mut Vec<Addr>, way: &[Link]) -> Result<(), AllocError>
    ensures { OnOk result (routers.new.items ≡ routers.old.items ++ routers_passed way.now) }
{
    let Some((_first, rest)) = way.split_first() else {
        return Ok(());
    };
    for link in rest {
        routers.push(link.from)?;
    }
    Ok(())
}

/// The head-end, the tail-end, and the routers that the two ways pass through.
fn list_routers(
    alloc: Global,
    request: &Request,
    one: &[Link],
    other: &[Link],
) -> Result<Vec<Addr>, AllocError>
    ensures { IfOk result (λ v. v.items ≡ routers_used request.now one.now other.now) }
{
    let mut routers = Vec::from_slice(alloc, &[request.from, request.to])?;
    push_passed(&mut routers, one)?;
    push_passed(&mut routers, other)?;
    Ok(routers)
}

/// The links of both ways.
fn list_links(alloc: Global, one: &[Link], other: &[Link]) -> Result<Vec<Link>, AllocError>
    ensures { IfOk result (λ v. v.items ≡ one.now ++ other.now) }
{
    let mut links = Vec::from_slice(alloc, one)?;
    links.extend_from_slice(other)?;
    Ok(links)
}

/// Whether the two ways share no router, if this kind of pair must not share one.
fn share_no_router(
    alloc: Global,
    request: &Request,
    kind: Kind,
    one: &[Link],
    other: &[Link],
) -> Result<bool, AllocError>
    ensures { IfOk result (λ yes. yes ≡ true
        → ShareNoRouter kind request.now one.now other.now) }
{
    match kind {
        Kind::Circuits => Ok(true),
        Kind::Routers => {
            let routers = list_routers(alloc, request, one, other)?;
            Ok(are_different(&routers))
        }
    }
}

/// Whether the two ways use no circuit twice, and share no router if this kind of pair must not
/// share one.
pub(crate) fn share_nothing(
    alloc: Global,
    request: &Request,
    kind: Kind,
    one: &[Link],
    other: &[Link],
) -> Result<bool, AllocError>
    ensures circuits { IfOk result (λ yes. yes ≡ true
        → AllPairs AreOfTwoCircuits (one.now ++ other.now)) }
    ensures routers { IfOk result (λ yes. yes ≡ true
        → ShareNoRouter kind request.now one.now other.now) }
{
    let links = list_links(alloc, one, other)?;
    if !have_own_circuits(&links) {
        return Ok(false);
    }
    share_no_router(alloc, request, kind, one, other)
}
