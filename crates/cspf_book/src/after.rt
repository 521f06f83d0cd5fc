//! Lookups in the base as it would be after changes. The base itself isn't changed.

ghost use Rattle.std.specs.Prelude.{◌≡◌, ◌↔◌, IsTrue, IfSome};
ghost use Rattle.cspf_model.specs.Database.{key_of, link_at, HasReverse, HasTransit};
ghost use Rattle.cspf_model.specs.Changes.{link_left, mark_left, after_changes};
ghost use Rattle.cspf_book.specs.Touched.{has_moved, has_other_groups};

use crate::changed::Changed;
use crate::effective_links::within_limits;
use cspf_addr::Addr;
use cspf_db::Table;
use cspf_model::{Change, Link};

/// The link that a change leaves at its key. A removal leaves no link.
fn link_left(change: &Change) -> Option<Link>
    ensures { result ≡ link_left change.now }
{
    match change {
        Change::Put(link) => Some(*link),
        _ => None,
    }
}

/// Whether the change marks its router. A marked router carries no transit.
fn mark_left(change: &Change) -> bool
    ensures { result ≡ mark_left change.now }
{
    match change {
        Change::Node { transit, .. } => !*transit,
        _ => false,
    }
}

/// The link with this key after the changes, if there is one.
pub(crate) fn find_after(base: &Table, changes: &Changed, from: Addr, local: Addr) -> Option<Link>
    ensures found { result ≡ link_at (after_changes base.now changes.now) (from, local) }
    ensures keyed { IfSome result (λ link. key_of link ≡ (from, local)) }
{
    within_limits(base);
    match changes.last_on((from, Some(local))) {
        Some(change) => link_left(change),
        None => base.find(from, local),
    }
}

/// Whether the base has the reverse of the link after the changes.
pub(crate) fn has_reverse_after(base: &Table, changes: &Changed, link: &Link) -> bool
    ensures { IsTrue result ↔ HasReverse (after_changes base.now changes.now) link.now }
{
    match find_after(base, changes, link.to, link.remote) {
        Some(back) => back.to == link.from && back.remote == link.local,
        None => false,
    }
}

/// Whether routes may pass through the router after the changes.
pub(crate) fn has_transit_after(base: &Table, changes: &Changed, router: Addr) -> bool
    ensures { IsTrue result ↔ HasTransit (after_changes base.now changes.now) router }
{
    match changes.last_on((router, None)) {
        Some(change) => !mark_left(change),
        None => base.transit(router),
    }
}

/// Whether the link is missing after the changes, or runs to another interface.
pub(crate) fn has_moved(link: &Link, after: &Option<Link>) -> bool
    ensures { result ≡ has_moved link.now after.now }
{
    match after {
        Some(other) => link.to != other.to || link.remote != other.remote,
        None => true,
    }
}

/// Whether the link is missing after the changes, or is in other groups.
pub(crate) fn has_other_groups(link: &Link, after: &Option<Link>) -> bool
    ensures { result ≡ has_other_groups link.now after.now }
{
    match after {
        Some(other) => link.group.bits() != other.group.bits(),
        None => true,
    }
}
