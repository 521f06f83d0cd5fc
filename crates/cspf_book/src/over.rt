//! Finds the links on which, after changes of the base or with one more placement, the placements
//! hold more bandwidth than the links have.

ghost use Rattle.std.specs.Prelude.{◌≡◌, ◌+◌, ◌<◌, ◌≤◌, ◌↔◌, ◌++◌, cond, nat_le, List, Some, IfOk, OnOk, IsTrue};
ghost use Rattle.cspf_model.specs.Database.{key_of};
ghost use Rattle.cspf_book.specs.Placements.{has_key};
ghost use Rattle.cspf_book.specs.OverLinks.{over_on, over, made_over_on, made_over};
ghost use Rattle.cspf_book.specs.declared.placement.Placement.{Placement as Placed};
ghost use Rattle.cspf_book.specs.Kept.{IsCountOf};

use crate::counts::Counts;
use crate::effective_links::within_limits;
use crate::placement::Placement;
use cspf_addr::Addr;
use cspf_db::Table;
use cspf_model::{Change, Link};
use std::alloc::{AllocError, Global};

/// A link and a priority at which the placements count more bandwidth than the link has.
#[derive(Clone, Copy, Debug, PartialEq, Eq)]
pub struct Over {
    /// The router from which the link runs.
    pub from: Addr,
    /// The address of the link's interface at that router.
    pub local: Addr,
    /// The priority, from 0 (the most important) to 7.
    pub priority: u8,
}

/// Appends an entry for each priority at which the link has less unreserved bandwidth than is
/// counted on its key.
fn list_over(list: &mut Vec<Over>, counts: &Counts, link: &Link) -> Result<(), AllocError>
    ensures { OnOk result ((placements : List Placed) → IsCountOf counts.now placements
        → list.new.items ≡ list.old.items ++ over_on placements link.now) }
{
    for priority in 0..8u8 {
        let held = counts.sum(link.from, link.local, priority);
        if u128::from(link.free[usize::from(priority)]) < held {
            list.push(Over {
                from: link.from,
                local: link.local,
                priority,
            })?;
        }
    }
    Ok(())
}

/// For each link that the changes set (`Put`), lists the priorities at which the placements count
/// more bandwidth than the link has.
pub(crate) fn find_over(
    alloc: Global,
    counts: &Counts,
    changes: &[Change],
) -> Result<Vec<Over>, AllocError>
    ensures { IfOk result (λ list. (placements : List Placed) → IsCountOf counts.now placements
        → list.items ≡ over placements changes.now) }
{
    let mut list = Vec::new(alloc);
    for change in changes {
        if let Change::Put(link) = change {
            list_over(&mut list, counts, link)?;
        }
    }
    Ok(list)
}

/// The bandwidth that the placement counts at a priority on each link of its route.
fn bandwidth_at(placement: &Placement, priority: u8) -> u64
    ensures { result ≡ cond (nat_le placement.now.hold priority) placement.now.request.bandwidth 0 }
{
    if priority < placement.hold {
        0
    } else {
        placement.request.bandwidth
    }
}

/// Whether `free` is enough for `held`, but isn't for `held` and `more` together.
fn is_passed(free: u64, held: u128, more: u64) -> bool
    ensures { IsTrue result ↔ ((held ≤ free) × (free < held + more)) }
{
    let free = u128::from(free);
    held <= free && free - held < u128::from(more)
}

/// Appends an entry for each priority at which the link has enough unreserved bandwidth for what is
/// counted on its key, but not for this placement too. The link has to be on the placement's route.
fn list_made_over(
    list: &mut Vec<Over>,
    counts: &Counts,
    placement: &Placement,
    link: &Link,
) -> Result<(), AllocError>
    requires { IsTrue (has_key placement.now.route (key_of link.now)) }
    ensures { OnOk result ((placements : List Placed) → IsCountOf counts.now placements
        → list.new.items ≡ list.old.items ++ made_over_on placements placement.now (Some link.now)) }
{
    for priority in 0..8u8 {
        let before = counts.sum(link.from, link.local, priority);
        let more = bandwidth_at(placement, priority);
        if is_passed(link.free[usize::from(priority)], before, more) {
            list.push(Over {
                from: link.from,
                local: link.local,
                priority,
            })?;
        }
    }
    Ok(())
}

/// Lists the base's links on the placement's route, each with the priorities at which this placement
/// makes the placements count more bandwidth than the link has.
pub(crate) fn find_made_over(
    alloc: Global,
    base: &Table,
    counts: &Counts,
    placement: &Placement,
) -> Result<Vec<Over>, AllocError>
    ensures { IfOk result (λ list. (placements : List Placed) → IsCountOf counts.now placements
        → list.items ≡ made_over base.now placements placement.now) }
{
    within_limits(base);
    let mut list = Vec::new(alloc);
    for link in placement.route.links() {
        match base.find(link.from, link.local) {
            Some(found) => {
                list_made_over(&mut list, counts, placement, &found)?;
            }
            None => {}
        }
    }
    Ok(list)
}
