//! The numbers of placements and of batches are in the ranges of their types. The functions of this file only read
//! these numbers, and a contract says in which ranges they are.

ghost use Rattle.std.specs.Prelude.{◌^◌, ◌<◌};
ghost use Rattle.std.specs.List.{AllByRecursion};
ghost use Rattle.cspf_addr.specs.PrefixParts.{IsPrefix};
ghost use Rattle.cspf_rows.specs.JournalLaws.{AreInRange, IsChangeInRange};
ghost use Rattle.cspf_rows.specs.Written.{IsLinkInRange, IsRequestInRange};
ghost use Rattle.cspf_book_run.specs.HeldRows.{AreMasksInRange, IsPlacementInRange};
ghost use Rattle.cspf_book_run.specs.RouteText.{IsPassedInRange};

use cspf_addr::{Addr, Hop, Mask};
use cspf_book::{Passed, Placement};
use cspf_model::{Batch, Change, Link, Request};

/// The numbers of each placement are in range.
pub(crate) fn placements_in_range(placements: &[Placement])
    ensures { AllByRecursion IsPlacementInRange placements.now }
{
    for placement in placements {
        placement_in_range(placement);
    }
}

/// The numbers of the placement are in range.
pub(crate) fn placement_in_range(placement: &Placement)
    ensures { IsPlacementInRange placement.now }
{
    request_in_range(&placement.request);
    masks_in_range(&placement.request);
    path_in_range(placement.route.links());
}

/// The numbers of the request are in range.
fn request_in_range(request: &Request)
    ensures { IsRequestInRange request.now }
{
    let (_id, _bandwidth) = (request.id, request.bandwidth);
    address_in_range(request.from);
    address_in_range(request.to);
    let _few = request.hops.len();
    hops_in_range(request.hops.as_slice());
}

/// The masks of the request are below 2^32.
fn masks_in_range(request: &Request)
    ensures { AreMasksInRange request.now }
{
    mask_in_range(request.exclude_any);
    mask_in_range(request.include_any);
    mask_in_range(request.include_all);
}

/// The addresses of the links are below 2^32.
fn path_in_range(links: &[Passed])
    ensures { AllByRecursion IsPassedInRange links.now }
{
    for link in links {
        passed_in_range(link);
    }
}

/// The addresses of a link are below 2^32.
fn passed_in_range(link: &Passed)
    ensures { IsPassedInRange link.now }
{
    address_in_range(link.from);
    address_in_range(link.local);
    address_in_range(link.to);
}

/// The hops are prefixes.
fn hops_in_range(hops: &[Hop])
    ensures { AllByRecursion (λ hop. IsPrefix hop.prefix) hops.now }
{
    for hop in hops {
        hop_in_range(hop);
    }
}

/// The hop is a prefix.
fn hop_in_range(hop: &Hop)
    ensures { IsPrefix hop.now.prefix }
{
    let _bits = hop.prefix.length();
}

/// An address is below 2^32.
fn address_in_range(address: Addr)
    ensures { address < 2 ^ 32 }
{
    let _number = address.number();
}

/// A mask is below 2^32.
fn mask_in_range(mask: Mask)
    ensures { mask < 2 ^ 32 }
{
    let _bits = mask.bits();
}

/// The numbers of the changes of each batch are in range.
pub(crate) fn batches_in_range(batches: &[Batch])
    ensures { AreInRange batches.now }
{
    for batch in batches {
        changes_in_range(&batch.changes);
    }
}

/// The numbers of each change are in range.
fn changes_in_range(changes: &[Change])
    ensures { AllByRecursion IsChangeInRange changes.now }
{
    for change in changes {
        change_in_range(change);
    }
}

/// The numbers of a change are in range.
fn change_in_range(change: &Change)
    ensures { IsChangeInRange change.now }
{
    match change {
        Change::Put(link) => link_in_range(link),
        Change::Remove { from, local } => {
            address_in_range(*from);
            address_in_range(*local);
        }
        Change::Node { router, transit: _ } => address_in_range(*router),
    }
}

/// The numbers of a link are in range.
fn link_in_range(link: &Link)
    ensures numbers { IsLinkInRange link.now }
    ensures group { link.now.group < 2 ^ 32 }
{
    address_in_range(link.from);
    address_in_range(link.local);
    address_in_range(link.to);
    address_in_range(link.remote);
    mask_in_range(link.group);
    let _metric = link.metric;
    let [_a, _b, _c, _d, _e, _f, _g, _h] = link.free;
}
