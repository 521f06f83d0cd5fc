//! Makes the batches of a book's versions. Each batch makes the effective database of the next
//! version.

ghost use Rattle.std.specs.Prelude.{◌≡◌, ◌++◌, [], List, filter, map, not, IfOk, OnOk};
ghost use Rattle.std.specs.List.{flat_map, slice_get};
ghost use Rattle.std.specs.Option.{option_map};
ghost use Rattle.cspf_book.specs.declared.placement.Placement.{Placement as Placed};
ghost use Rattle.cspf_book.specs.Placements.{key_passed, has_key};
ghost use Rattle.cspf_book.specs.Leading.{effective_change, put_at, moved_batch, base_batch, route_in};
ghost use Rattle.cspf_book.specs.Kept.{IsCountOf};

use crate::counting::has_key;
use crate::counts::Counts;
use crate::effective_links::effective_link;
use crate::path::Passed;
use crate::placement::Placement;
use cspf_addr::Addr;
use cspf_db::Table;
use cspf_model::{Batch, Change};
use std::alloc::{AllocError, Global};

/// A change of the base, as the effective database has it. A link that is put has the bandwidth
/// that is left on it.
fn effective_change(counts: &Counts, change: &Change) -> Change
    ensures { (placements : List Placed) → IsCountOf counts.now placements
        → result ≡ effective_change placements change.now }
{
    match change {
        Change::Put(link) => Change::Put(effective_link(counts, link)),
        Change::Remove { from, local } => Change::Remove {
            from: *from,
            local: *local,
        },
        Change::Node { router, transit } => Change::Node {
            router: *router,
            transit: *transit,
        },
    }
}

/// The batch with this number for changes of the base: the same changes of the effective database.
pub(crate) fn base_batch(
    alloc: Global,
    counts: &Counts,
    number: u32,
    changes: &[Change],
) -> Result<Batch, AllocError>
    ensures { IfOk result (λ batch. (placements : List Placed) → IsCountOf counts.now placements
        → batch ≡ base_batch placements number changes.now) }
{
    let mut made = Vec::with_capacity(alloc, changes.len())?;
    for change in changes {
        made.push(effective_change(counts, change))?;
    }
    Ok(Batch {
        number,
        changes: made,
    })
}

/// Appends the put of the base's link with this key, as the effective database has it. If the base
/// has no such link, nothing is appended.
fn list_put(
    list: &mut Vec<Change>,
    base: &Table,
    counts: &Counts,
    from: Addr,
    local: Addr,
) -> Result<(), AllocError>
    ensures { OnOk result ((placements : List Placed) → IsCountOf counts.now placements
        → list.new.items ≡ list.old.items ++ put_at base.now placements (from, local)) }
{
    if let Some(link) = base.find(from, local) {
        list.push(Change::Put(effective_link(counts, &link)))?;
    }
    Ok(())
}

/// Appends the puts of the base's links with the keys of `links`, as the effective database has
/// them. Keys that `listed` has are left out.
fn list_puts(
    list: &mut Vec<Change>,
    base: &Table,
    counts: &Counts,
    listed: &[Passed],
    links: &[Passed],
) -> Result<(), AllocError>
    ensures { OnOk result ((placements : List Placed) → IsCountOf counts.now placements
        → list.new.items ≡ list.old.items ++ flat_map (put_at base.now placements)
        (filter (λ k. not (has_key listed.now k)) (map key_passed links.now))) }
{
    for link in links {
        if !has_key(listed, link.from, link.local) {
            list_put(list, base, counts, link.from, link.local)?;
        }
    }
    Ok(())
}

/// The batch with this number for a placement that moves from an old to a new route. It puts each
/// link of these routes that the base has, with the bandwidth that is left on it after the move.
pub(crate) fn moved_batch(
    alloc: Global,
    base: &Table,
    counts: &Counts,
    number: u32,
    old: &[Passed],
    new: &[Passed],
) -> Result<Batch, AllocError>
    ensures { IfOk result (λ batch. (placements : List Placed) → IsCountOf counts.now placements
        → batch ≡ moved_batch base.now placements number old.now new.now) }
{
    let mut changes = Vec::new(alloc);
    list_puts(&mut changes, base, counts, &[], old)?;
    list_puts(&mut changes, base, counts, old, new)?;
    Ok(Batch { number, changes })
}

/// The placement at index `at`, if there is one.
pub(crate) fn placement_at(placements: &[Placement], at: usize) -> Option<&Placement>
    ensures { option_map (λ p. p.now) result ≡ slice_get placements.now at }
{
    placements.get(at)
}

/// The route of the placement at index `at`. There are no links if there is no such placement.
pub(crate) fn route_at(placements: &[Placement], at: usize) -> &[Passed]
    ensures { result.now ≡ route_in (slice_get placements.now at) }
{
    match placements.get(at) {
        Some(placement) => placement.route.links(),
        None => &[],
    }
}
