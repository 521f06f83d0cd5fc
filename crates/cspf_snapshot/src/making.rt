ghost use Rattle.std.specs.Prelude.{◌≡◌, IfOk};
ghost use Rattle.cspf_snapshot.specs.Snapshots.{IsSnapshot, changes_making};

use crate::cutting::cut_into_batches;
use cspf_addr::Addr;
use cspf_db::Table;
use cspf_model::{Batch, Change, Link, counted_routers};
use std::alloc::{AllocError, Global};

/// The batches, numbered from 1, that make the table's database from the empty database. First they
/// put the links. The links are ordered by the router that the link runs from, and then by the
/// local address. After the links, the batches mark each router that has no transit, in increasing
/// order of Router ID. Each batch except the last one has `MOST_CHANGES` changes. The snapshot of
/// an empty table has no batches.
pub fn snapshot(alloc: Global, table: &Table) -> Result<Vec<Batch>, AllocError>
    ensures { IfOk result (λ batches. IsSnapshot table.now batches.items) }
{
    // Law: `router_count` counts exactly the routers of the database.
    counted_routers();
    let changes = list_changes(alloc, table.links(), table.marks())?;
    cut_into_batches(alloc, &changes)
}

/// The changes that put each link of `links`, and then mark each router of `marks` as without
/// transit.
fn list_changes(alloc: Global, links: &[Link], marks: &[Addr]) -> Result<Vec<Change>, AllocError>
    ensures { IfOk result (λ changes. changes.items ≡ changes_making links.now marks.now) }
{
    let mut changes = Vec::with_capacity(alloc, links.len() + marks.len())?;
    for link in links {
        changes.push(Change::Put(*link))?;
    }
    for mark in marks {
        let (router, transit) = (*mark, false);
        changes.push(Change::Node { router, transit })?;
    }
    Ok(changes)
}
