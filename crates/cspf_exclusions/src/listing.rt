//! Lists the excluded links of a table, as changes that remove them.

ghost use Rattle.std.specs.Prelude.{◌≡◌, ◌↔◌, ◌⊎◌, ◌<◌, ℕ, All, Contains, IfOk, OnOk, IsTrue, length, true, false, cond, [], ◌∷◌, ◌++◌};
ghost use Rattle.std.specs.List.{HoldsAt};
ghost use Rattle.cspf_exclusions.specs.Exclusions.{IsExcludedInterface, IsExcludedRouter, NamesInterface, NamesRouter};
ghost use Rattle.cspf_exclusions.specs.Removals.{AreRemovals, IsExcludedAmong, removal_of};

use crate::exclusion::{Exclusion, ExclusionKind};
use cspf_addr::Addr;
use cspf_db::Table;
use cspf_model::{Change, Link};
use std::alloc::{AllocError, Global};

/// Whether the exclusion names the address of an interface.
fn names_interface(part: &Exclusion, address: Addr) -> bool
    ensures { IsTrue result ↔ NamesInterface part.now address }
{
    match part.kind {
        ExclusionKind::Interface => part.prefix.covers(address),
        ExclusionKind::Router => false,
    }
}

/// Whether one of the exclusions names the address of an interface.
fn any_names_interface(parts: &[Exclusion], address: Addr) -> bool
    ensures yes { result ≡ true → (at : ℕ) × (at < length parts.now)
        × HoldsAt (λ part. NamesInterface part address) parts.now at }
    ensures no { result ≡ false → All (λ part. ¬ NamesInterface part address) parts.now }
{
    parts.iter().any(|part| names_interface(part, address))
}

/// Whether the address of an interface is excluded.
fn is_excluded_interface(parts: &[Exclusion], address: Addr) -> bool
    ensures { IsTrue result ↔ IsExcludedInterface parts.now address }
{
    any_names_interface(parts, address)
}

/// Whether the exclusion names a router of the table.
fn names_router(table: &Table, part: &Exclusion, router: Addr) -> bool
    ensures { IsTrue result ↔ NamesRouter table.now part.now router }
{
    match part.kind {
        ExclusionKind::Interface => false,
        ExclusionKind::Router => table.owns(router, part.prefix),
    }
}

/// Whether a router of the table is excluded.
fn is_excluded_router(table: &Table, parts: &[Exclusion], router: Addr) -> bool
    ensures { IsTrue result ↔ IsExcludedRouter table.now parts.now router }
{
    for part in parts {
        if names_router(table, part, router) {
            return true;
        }
    }
    false
}

/// Appends the item if it is wanted.
fn add_if<T>(list: &mut Vec<T>, item: T, is_wanted: bool) -> Result<(), AllocError>
where
    T: Copy,
    ensures { OnOk result (list.new.items ≡ cond is_wanted (list.old.items ++ item ∷ []) list.old.items) }
{
    if is_wanted {
        list.push(item)?;
    }
    Ok(())
}

/// The excluded routers of the table.
fn excluded_routers(
    alloc: Global,
    table: &Table,
    parts: &[Exclusion],
) -> Result<Vec<Addr>, AllocError>
    ensures { IfOk result (λ routers. (router : ℕ)
        → Contains routers.items router ↔ IsExcludedRouter table.now parts.now router) }
{
    let mut routers = Vec::new(alloc);
    let all = table.routers();
    for router in all {
        let is_excluded = is_excluded_router(table, parts, *router);
        add_if(&mut routers, *router, is_excluded)?;
    }
    Ok(routers)
}

/// Whether the link begins or ends at one of the routers.
fn ends_among(routers: &[Addr], link: &Link) -> bool
    ensures { IsTrue result
        ↔ (Contains routers.now link.now.from ⊎ Contains routers.now link.now.to) }
{
    routers.contains(&link.from) || routers.contains(&link.to)
}

/// Whether one of the link's two interfaces is excluded.
fn has_excluded_interface(parts: &[Exclusion], link: &Link) -> bool
    ensures { IsTrue result ↔ (IsExcludedInterface parts.now link.now.local
        ⊎ IsExcludedInterface parts.now link.now.remote) }
{
    is_excluded_interface(parts, link.local) || is_excluded_interface(parts, link.remote)
}

/// Whether the link is excluded. `routers` are the excluded routers.
fn is_excluded(parts: &[Exclusion], routers: &[Addr], link: &Link) -> bool
    ensures { IsTrue result ↔ IsExcludedAmong parts.now routers.now link.now }
{
    ends_among(routers, link) || has_excluded_interface(parts, link)
}

/// The change that removes the link.
fn removal_of(link: &Link) -> Change
    ensures { result ≡ removal_of link.now }
{
    Change::Remove {
        from: link.from,
        local: link.local,
    }
}

/// The changes that remove the excluded links of the table.
pub(crate) fn removals(
    alloc: Global,
    table: &Table,
    parts: &[Exclusion],
) -> Result<Vec<Change>, AllocError>
    ensures { IfOk result (λ changes. AreRemovals table.now parts.now changes.items) }
{
    let routers = excluded_routers(alloc, table, parts)?;
    let mut changes = Vec::new(alloc);
    let links = table.links();
    for link in links {
        let is_excluded = is_excluded(parts, &routers, link);
        add_if(&mut changes, removal_of(link), is_excluded)?;
    }
    Ok(changes)
}
