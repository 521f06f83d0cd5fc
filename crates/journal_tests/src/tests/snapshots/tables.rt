//! Helpers for the tests of snapshots: changes, batches, and tables that are made from changes.

use crate::tests::assert_case;
use cspf_addr::{Addr, Mask};
use cspf_db::Table;
use cspf_model::{Batch, Change, Link, MOST_CHANGES};
use std::alloc::{AllocError, Global};
use std::process::Abort;

/// A change that puts the link from router `from` to router `to`. The local address of the link is
/// `local`.
pub(crate) fn put(rt: &impl Abort, from: u32, local: u32, to: u32) -> Change {
    let (from, to, address) = (Addr::new(from), Addr::new(to), Addr::new(local));
    match Link::new(from, address, to, address, 10, Mask::new(1), [1000; 8]) {
        Ok(link) => Change::Put(link),
        Err(_) => panic!(rt; "no link"),
    }
}

/// A change that says whether a router has transit.
pub(crate) fn node(router: u32, transit: bool) -> Change {
    Change::Node {
        router: Addr::new(router),
        transit,
    }
}

/// A batch with this number and these changes.
fn batch(alloc: Global, number: u32, changes: &[Change]) -> Result<Batch, AllocError> {
    Ok(Batch {
        number,
        changes: Vec::from_slice(alloc, changes)?,
    })
}

/// Batches with these numbers and changes.
pub(crate) fn batches(alloc: Global, given: &[(u32, &[Change])]) -> Result<Vec<Batch>, AllocError> {
    let mut made = Vec::new(alloc);
    for (number, changes) in given {
        made.push(batch(alloc, *number, changes)?)?;
    }
    Ok(made)
}

/// The table that these changes make from the empty table, batch by batch. Asserts that each batch
/// fits the table before it.
pub(crate) fn table_of(
    rt: &impl Abort,
    alloc: Global,
    changes: &[Change],
) -> Result<Table, AllocError> {
    let mut table = Table::new(alloc)?;
    for part in changes.chunks(MOST_CHANGES) {
        let batch = batch(alloc, 7, part)?;
        assert_case(rt, b"changes that fit", table.check(&batch) == Ok(()));
        table.absorb(&batch);
    }
    Ok(table)
}
