//! Sorted lists of routers, and the index of a router in such a list.
ghost use Rattle.std.specs.Prelude.{◌≡◌, ◌+◌, ◌*◌, ◌<◌, ◌≤◌, true, All, Contains, length, vec_len, IfOk, IfErr};
ghost use Rattle.std.specs.Vec.{vec_capacity};
ghost use Rattle.std.specs.List.{HoldsAt};
ghost use Rattle.std.specs.List.Sorted.{IsPartitionPoint};
ghost use Rattle.std.specs.Ordering.{nat_cmp};
ghost use Rattle.cspf_model.specs.Lemmas.CountedEnds.{HasListedEnds};
ghost use Rattle.cspf_columns.specs.Rows.{AreRising, IsPlaceOf};
ghost use Rattle.cspf_columns.specs.declared.limits.TheConstants.{ROOM_FOR_ROUTERS};

use crate::insertion::insert_within;
use cspf_addr::Addr;
use cspf_model::Change;
use std::cmp::Ordering;

/// The index of the router in the list. If the list doesn't have the router, the error is the index
/// at which the router would be inserted.
pub fn search(routers: &[Addr], router: Addr) -> Result<usize, usize>
    requires { AreRising routers.now }
    ensures within { IfOk result (λ at. at < length routers.now) }
    ensures found { IfOk result (HoldsAt (λ y. y ≡ router) routers.now) }
    ensures upto { IfErr result (λ at. at ≤ length routers.now) }
    ensures gap { IfErr result (IsPartitionPoint
        (λ y. nat_cmp y router ≡ Ordering.Less)
        (λ y. nat_cmp y router ≡ Ordering.Greater)
        routers.now) }
{
    routers.binary_search(&router)
}

/// Whether the router is in the list.
pub fn is_among(routers: &[Addr], router: Addr) -> bool
    requires { AreRising routers.now }
    ensures { result ≡ true → Contains routers.now router }
{
    search(routers, router).is_ok()
}

/// Adds the router to the list, unless the list already has it.
fn add(routers: &mut Vec<Addr>, router: Addr)
    requires rising { AreRising routers.old.items }
    requires room { vec_len routers.old < vec_capacity routers.old }
    ensures kept { All (Contains routers.new.items) routers.old.items }
    ensures there { Contains routers.new.items router }
    ensures rising { AreRising routers.new.items }
    ensures longer { vec_len routers.new ≤ vec_len routers.old + 1 }
    ensures capacity { vec_capacity routers.old ≤ vec_capacity routers.new }
{
    if let Err(at) = search(routers, router) {
        insert_within(routers, at, router);
    }
}

/// If the change puts a link, adds the two routers of this link to the list.
fn add_ends_of(routers: &mut Vec<Addr>, change: &Change)
    requires rising { AreRising routers.old.items }
    requires room { vec_len routers.old + 1 < vec_capacity routers.old }
    ensures kept { All (Contains routers.new.items) routers.old.items }
    ensures there { HasListedEnds routers.new.items change.now }
    ensures rising { AreRising routers.new.items }
    ensures longer { vec_len routers.new ≤ vec_len routers.old + 2 }
    ensures capacity { vec_capacity routers.old ≤ vec_capacity routers.new }
{
    if let Change::Put(link) = change {
        add(routers, link.from);
        add(routers, link.to);
    }
}

/// Adds to the list the two routers of each link that the changes put.
pub(crate) fn add_ends(routers: &mut Vec<Addr>, changes: &[Change])
    requires rising { AreRising routers.old.items }
    requires room { vec_len routers.old + 2 * length changes.now ≤ vec_capacity routers.old }
    ensures kept { All (Contains routers.new.items) routers.old.items }
    ensures listed { All (HasListedEnds routers.new.items) changes.now }
    ensures rising { AreRising routers.new.items }
    ensures longer { vec_len routers.new ≤ vec_len routers.old + 2 * length changes.now }
    ensures capacity { vec_capacity routers.old ≤ vec_capacity routers.new }
{
    for change in changes {
        add_ends_of(routers, change);
    }
}

/// The index in `routers` of a router that is in this list.
pub(crate) fn index_among(routers: &[Addr], router: Addr) -> u16
    requires rising { AreRising routers.now }
    requires few { length routers.now ≤ ROOM_FOR_ROUTERS }
    requires among { Contains routers.now router }
    ensures { IsPlaceOf routers.now router result }
{
    match search(routers, router) {
        Ok(at) => at as u16,
        Err(_) => unreachable!(),
    }
}

/// The index in `routers` of a router that is in this list. If the router isn't at the index
/// `near`, the list is searched.
pub(crate) fn index_near(routers: &[Addr], near: usize, router: Addr) -> u16
    requires rising { AreRising routers.now }
    requires few { length routers.now ≤ ROOM_FOR_ROUTERS }
    requires among { Contains routers.now router }
    ensures { IsPlaceOf routers.now router result }
{
    if near < routers.len() && routers[near] == router {
        near as u16
    } else {
        index_among(routers, router)
    }
}
