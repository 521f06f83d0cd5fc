//! Which batches change more of a table's database than unreserved bandwidths.
use super::edits::Edit::{self, Node, Put, Remove};
use super::edits::{assert_case, batch_of, put};
use cspf_addr::{Addr, Mask};
use cspf_db::Table;
use cspf_model::{Batch, Change, Link, LinkError};
use std::alloc::Global;
use std::test::Fail;

// A link and its reverse. One router, and one address without links, are marked as without transit.
const START: [Edit; 4] = [
    Put(1, 10, 2, 20),
    Put(2, 20, 1, 10),
    Node(1, false),
    Node(9, false),
];

// Batches that don't change the shape of the database: they change at most unreserved bandwidths.
const KEPT: [&[Edit]; 5] = [
    // this batch has no changes
    &[],
    // this batch puts links that the table already has
    &[Put(1, 10, 2, 20), Put(2, 20, 1, 10)],
    // this batch marks addresses as without transit that are marked already
    &[Node(1, false), Node(9, false)],
    // this batch gives transit to addresses that already have transit
    &[Node(2, true), Node(8, true)],
    // this batch gives transit, puts a link and marks an address as without transit, and none of
    // these changes has an effect
    &[Node(2, true), Put(1, 10, 2, 20), Node(9, false)],
];

// Batches that change more of the database than unreserved bandwidths.
const CHANGED: [&[Edit]; 11] = [
    // each of these batches puts a link with another key
    &[Put(3, 10, 2, 20)],
    &[Put(1, 11, 2, 20)],
    // each of these batches makes a link end at another router or interface
    &[Put(1, 10, 3, 20)],
    &[Put(1, 10, 2, 21)],
    // this batch removes a link
    &[Remove(1, 10)],
    // each of these batches gives transit to an address that is marked as without transit
    &[Node(1, true)],
    &[Node(9, true)],
    // each of these batches marks an address as without transit that isn't marked yet
    &[Node(2, false)],
    &[Node(8, false)],
    // in each of these batches, only the first change or only the last one changes more than
    // unreserved bandwidths
    &[Remove(1, 10), Put(2, 20, 1, 10), Node(1, false)],
    &[Node(1, false), Put(2, 20, 1, 10), Put(1, 10, 3, 20)],
];

// A table with the links and the marks of `START`. A marked address is without transit.
fn started(alloc: Global) -> Result<Table, Fail> {
    let mut table = Table::new(alloc)?;
    table.absorb(&batch_of(alloc, &START)?);
    Ok(table)
}

// The number of batches before the first one for which `changes_shape` doesn't return `wanted`. If
// there is no such batch, the result is the number of all batches. `changes_shape` says whether a
// batch changes more than unreserved bandwidths.
fn right(alloc: Global, batches: &[&[Edit]], wanted: bool) -> Result<usize, Fail> {
    let table = started(alloc)?;
    for (at, edits) in batches.iter().enumerate() {
        if table.changes_shape(&batch_of(alloc, edits)?) != wanted {
            return Ok(at);
        }
    }
    Ok(batches.len())
}

// The first link of `START`, but with this metric, group and unreserved bandwidths.
fn valued(metric: u32, group: u32, free: [u64; 8]) -> Result<Link, LinkError> {
    let (from, local, to, remote) = (Addr::new(1), Addr::new(10), Addr::new(2), Addr::new(20));
    Link::new(from, local, to, remote, metric, Mask::new(group), free)
}

// The result of `changes_shape` for a batch that puts both links of `START`, the first one with
// this metric, group and unreserved bandwidths.
fn changes(alloc: Global, metric: u32, group: u32, free: [u64; 8]) -> Result<bool, Fail> {
    let first = Change::Put(valued(metric, group, free)?);
    let changes = vec![in alloc; put(2, 20, 1, 10)?, first]?;
    Ok(started(alloc)?.changes_shape(&Batch { number: 1, changes }))
}

// Whether `changes_shape` is false for each batch that changes one unreserved bandwidth, and for a
// batch that changes all of them.
fn bandwidth_keeps(alloc: Global) -> Result<bool, Fail> {
    for at in 0..8 {
        let mut free = [1000; 8];
        free[at] = 999;
        if changes(alloc, 10, 1, free)? {
            return Ok(false);
        }
    }
    Ok(!changes(alloc, 10, 1, [0, 1, 2, 3, 4, 5, 6, 7])?)
}

#[test]
fn kept(rt: HostRuntime) -> Result<(), Fail> {
    let first = right(rt.alloc(), &KEPT, false)?;
    assert_case(&rt, "kept up to", first, first == KEPT.len());
    Ok(())
}

#[test]
fn changed(rt: HostRuntime) -> Result<(), Fail> {
    let first = right(rt.alloc(), &CHANGED, true)?;
    assert_case(&rt, "changed up to", first, first == CHANGED.len());
    Ok(())
}

#[test]
fn values(rt: HostRuntime) -> Result<(), Fail> {
    let alloc = rt.alloc();
    let metric = changes(alloc, 11, 1, [1000; 8])?;
    let group = changes(alloc, 10, 3, [1000; 8])?;
    let holds = metric && group && bandwidth_keeps(alloc)?;
    assert_case(&rt, "values", 0, holds);
    Ok(())
}
