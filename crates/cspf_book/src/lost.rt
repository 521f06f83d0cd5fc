//! Finds the placements that lose their routes when the base changes: the base admits the route
//! before the changes, but not after them.

ghost use Rattle.std.specs.Prelude.{◌≡◌, ◌↔◌, [], map, true, IsTrue, IfOk};
ghost use Rattle.cspf_model.specs.Changes.{after_changes};
ghost use Rattle.cspf_book.specs.LostRoutes.{without_bandwidth, AdmitsRoute, IsLost, AreLost};
ghost use Rattle.cspf_book.specs.Following.{HasItsLink, HasAdmittedLink, MayGoOn, HaveOtherIds, AreRanksOfLost};
ghost use Rattle.cspf_book.specs.RouterBits.{bits_of};
ghost use Rattle.cspf_book.specs.Touched.{AreTouched, IsFor, HasNoAffinities};

use crate::after::{find_after, has_reverse_after, has_transit_after};
use crate::changed::Changed;
use crate::effective_links::within_limits;
use crate::path::Passed;
use crate::placement::Placement;
use crate::touched::Touched;
use cspf_addr::Addr;
use cspf_db::Table;
use cspf_graph::accepts;
use cspf_model::{Change, Request};
use std::alloc::{AllocError, Global};

/// Whether the base, after the changes, has an admissible link with the same key as this link, and
/// both links run to the same router.
fn has_its_link(base: &Table, changes: &Changed, request: &Request, link: &Passed) -> bool
    ensures { IsTrue result
        ↔ HasItsLink (after_changes base.now changes.now) request.now link.now }
{
    match find_after(base, changes, link.from, link.local) {
        Some(found) => {
            found.to == link.to
                && accepts(&found, request)
                && has_reverse_after(base, changes, &found)
        }
        None => false,
    }
}

/// A walk has reached `router` over `links` links. Returns whether it may continue along the link
/// at the key of `link`, in the base after the changes.
fn may_go_on(
    base: &Table,
    changes: &Changed,
    request: &Request,
    links: usize,
    router: Addr,
    link: &Passed,
) -> bool
    ensures { IsTrue result
        ↔ MayGoOn (after_changes base.now changes.now) request.now links router link.now }
{
    link.from == router
        && (links == 0 || has_transit_after(base, changes, router))
        && has_its_link(base, changes, request, link)
}

/// The same request with bandwidth 0.
fn without_bandwidth(request: &Request) -> Request
    ensures { result ≡ without_bandwidth request.now }
{
    let mut bare = *request;
    bare.bandwidth = 0;
    bare
}

/// Whether the base admits the placement's route after the changes.
fn admits(base: &Table, changes: &Changed, placement: &Placement) -> bool
    ensures { IsTrue result ↔ AdmitsRoute (after_changes base.now changes.now) placement.now }
{
    let request = without_bandwidth(&placement.request);
    let mut router = placement.request.from;
    for (i, link) in placement.route.links().iter().enumerate() {
        if !may_go_on(base, changes, &request, i, router, link) {
            return false;
        }
        router = link.to;
    }
    true
}

/// Whether the request has no affinities.
fn has_no_affinities(request: &Request) -> bool
    ensures { result ≡ true → HasNoAffinities request.now }
{
    request.exclude_any.bits() == 0
        && request.include_any.bits() == 0
        && request.include_all.bits() == 0
}

/// Whether the base, after the changes, has a link with the same key as this link, and the request
/// admits that link.
fn has_admitted_link(base: &Table, changes: &Changed, request: &Request, link: &Passed) -> bool
    ensures { IsTrue result ↔ HasAdmittedLink (after_changes base.now changes.now) request.now link.now }
{
    match find_after(base, changes, link.from, link.local) {
        Some(found) => accepts(&found, request),
        None => false,
    }
}

/// A walk has reached `router` over `links` links, and may continue along the link at the key of
/// `link`, in the base. Returns whether it may continue along the link at this key after the
/// changes. If the changes don't move the link, only its groups can have changed.
fn may_still_go_on(
    base: &Table,
    changes: &Changed,
    moved: &Touched,
    request: &Request,
    links: usize,
    router: Addr,
    link: &Passed,
) -> bool
    requires { AreTouched base.now changes.now moved.now }
    ensures { MayGoOn base.now request.now links router link.now
        → IsTrue result ↔ MayGoOn (after_changes base.now changes.now) request.now links router link.now }
{
    within_limits(base);
    if moved.may_touch(link) {
        may_go_on(base, changes, request, links, router, link)
    } else {
        has_admitted_link(base, changes, request, link)
    }
}

/// Whether the base still admits the placement's route after the changes. The base has to admit the
/// route now. A link of the route is looked up only if the changes may touch it.
fn still_admits(
    base: &Table,
    changes: &Changed,
    touched: &Touched,
    moved: &Touched,
    placement: &Placement,
) -> bool
    requires groups { IsFor touched.now placement.now.request }
    requires touched { AreTouched base.now changes.now touched.now }
    requires moved { AreTouched base.now changes.now moved.now }
    ensures { AdmitsRoute base.now placement.now
        → IsTrue result ↔ AdmitsRoute (after_changes base.now changes.now) placement.now }
{
    within_limits(base);
    let request = without_bandwidth(&placement.request);
    let mut router = placement.request.from;
    for (i, link) in placement.route.links().iter().enumerate() {
        if touched.may_touch(link)
            && !may_still_go_on(base, changes, moved, &request, i, router, link)
        {
            return false;
        }
        router = link.to;
    }
    true
}

/// Whether the base admits the placement's route now, but not after the changes. `touched` has the
/// keys that are touched where groups matter, and `moved` has those that are touched where they
/// don't. `bits` has the bits of the routers on the route. The placement is read only if one of
/// these keys may be a key of one of these routers.
fn is_lost(
    base: &Table,
    none: &Changed,
    changes: &Changed,
    touched: &Touched,
    moved: &Touched,
    placement: &Placement,
    bits: u128,
) -> bool
    requires none { none.now ≡ [] }
    requires touched { AreTouched base.now changes.now touched.now }
    requires moved { AreTouched base.now changes.now moved.now }
    requires groups { touched.now.groups ≡ true }
    requires bits { bits ≡ bits_of placement.now }
    ensures { IsTrue result
        ↔ IsLost base.now (after_changes base.now changes.now) placement.now }
{
    within_limits(base);
    if !touched.may_affect(bits) {
        return false;
    }
    let is_kept = if has_no_affinities(&placement.request) {
        !moved.may_affect(bits) || still_admits(base, changes, moved, moved, placement)
    } else {
        still_admits(base, changes, touched, moved, placement)
    };
    !is_kept && admits(base, none, placement)
}

/// Lists the rank of each placement that loses its route. A rank is 7 minus the holding priority of
/// a placement, together with the id of the placement.
fn list_ranks(
    alloc: Global,
    base: &Table,
    placements: &[Placement],
    bits: &[u128],
    none: &Changed,
    changes: &Changed,
    touched: &Touched,
    moved: &Touched,
) -> Result<Vec<(u8, u64)>, AllocError>
    requires ids { HaveOtherIds placements.now }
    requires bits { bits.now ≡ map bits_of placements.now }
    requires none { none.now ≡ [] }
    requires touched { AreTouched base.now changes.now touched.now }
    requires moved { AreTouched base.now changes.now moved.now }
    requires groups { touched.now.groups ≡ true }
    ensures { IfOk result (λ ranks. AreRanksOfLost base.now (after_changes base.now changes.now)
        placements.now ranks.items) }
{
    let mut ranks = Vec::new(alloc);
    for (i, placement) in placements.iter().enumerate() {
        if is_lost(base, none, changes, touched, moved, placement, bits[i]) {
            ranks.push((7 - placement.hold, placement.request.id))?;
        }
    }
    Ok(ranks)
}

/// The ids of these ranks, in the same order.
fn ids_of(alloc: Global, ranks: &[(u8, u64)]) -> Result<Vec<u64>, AllocError>
    ensures { IfOk result (λ ids. ids.items ≡ map (λ rank. rank.1) ranks.now) }
{
    ranks.iter().map(|rank| rank.1).collect(alloc)
}

/// The ids of the placements that lose their routes by the changes. The least important placement
/// comes first.
pub(crate) fn lost(
    alloc: Global,
    base: &Table,
    placements: &[Placement],
    bits: &[u128],
    changes: &[Change],
) -> Result<Vec<u64>, AllocError>
    requires ids { HaveOtherIds placements.now }
    requires bits { bits.now ≡ map bits_of placements.now }
    ensures { IfOk result (λ ids. AreLost base.now (after_changes base.now changes.now)
        placements.now ids.items) }
{
    let none = Changed::none(alloc);
    let changed = Changed::new(alloc, changes)?;
    let touched = Touched::new(alloc, base, &changed, changes, true)?;
    let moved = Touched::new(alloc, base, &changed, changes, false)?;
    let mut ranks = list_ranks(
        alloc, base, placements, bits, &none, &changed, &touched, &moved,
    )?;
    ranks.sort_unstable();
    ids_of(alloc, &ranks)
}
