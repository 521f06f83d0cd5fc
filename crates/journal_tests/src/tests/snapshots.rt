//! Tests snapshots of tables, and tables that are made from snapshots.

mod replays;
mod tables;

use super::assert_case;
use cspf_db::Table;
use cspf_judge::{replay, snapshot};
use cspf_model::{Batch, Change};
use std::alloc::{AllocError, Global};
use std::process::Abort;
use std::test::Fail;
use tables::{node, put, table_of};

/// Whether the batches are numbered 1, 2 and so on, and their numbers of changes are `sizes`.
fn have_sizes(batches: &[Batch], sizes: &[usize]) -> bool {
    let mut number = 0u32;
    for (batch, size) in batches.iter().zip(sizes) {
        number = number.saturating_add(1);
        if batch.number != number || batch.changes.len() != *size {
            return false;
        }
    }
    batches.len() == sizes.len()
}

/// The changes of all batches in one list, in order.
fn changes_of(alloc: Global, batches: &[Batch]) -> Result<Vec<Change>, AllocError> {
    let mut changes = Vec::new(alloc);
    for batch in batches {
        changes.extend_from_slice(&batch.changes)?;
    }
    Ok(changes)
}

/// Whether the batches make a table that has the same links as `table`, and that marks the same
/// routers as without transit.
fn make_again(alloc: Global, batches: &[Batch], table: &Table) -> bool {
    match replay(alloc, batches) {
        Ok(again) => again.links() == table.links() && again.marks() == table.marks(),
        Err(_) => false,
    }
}

/// Whether the batches of a table's snapshot have these sizes and these changes. The batches also
/// have to make a table with the same links, and with the same routers marked as without transit.
fn has_snapshot(
    alloc: Global,
    table: &Table,
    changes: &[Change],
    sizes: &[usize],
) -> Result<bool, Fail> {
    let batches = snapshot(alloc, table)?;
    let found = changes_of(alloc, &batches)?;
    Ok(
        found.as_slice() == changes
            && have_sizes(&batches, sizes)
            && make_again(alloc, &batches, table),
    )
}

#[test]
fn an_empty_table(rt: HostRuntime) -> Result<(), Fail> {
    let table = Table::new(rt.alloc())?;
    let holds = has_snapshot(rt.alloc(), &table, &[], &[])?;
    assert_case(&rt, b"an empty table", holds);
    Ok(())
}

#[test]
fn links_and_marks(rt: HostRuntime) -> Result<(), Fail> {
    let given = [
        node(9, false),
        put(&rt, 2, 7, 1),
        put(&rt, 1, 300, 2),
        node(8, true),
        put(&rt, 1, 5, 3),
        node(1, false),
    ];
    let wanted = [
        put(&rt, 1, 5, 3),
        put(&rt, 1, 300, 2),
        put(&rt, 2, 7, 1),
        node(1, false),
        node(9, false),
    ];
    let table = table_of(&rt, rt.alloc(), &given)?;
    let holds = has_snapshot(rt.alloc(), &table, &wanted, &[5])?;
    assert_case(&rt, b"links and marks", holds);
    Ok(())
}

/// A list of changes: first the changes that put `links` links between 1,024 routers, and then the
/// changes that mark `marks` routers as without transit.
fn full_changes(
    rt: &impl Abort,
    alloc: Global,
    links: u32,
    marks: u32,
) -> Result<Vec<Change>, AllocError> {
    let mut changes = Vec::new(alloc);
    for local in 0..links {
        let from = local / 16;
        changes.push(put(rt, from, local, (from + 1 + local % 16) % 1024))?;
    }
    for router in 0..marks {
        changes.push(node(router, false))?;
    }
    Ok(changes)
}

fn reversed(alloc: Global, changes: &[Change]) -> Result<Vec<Change>, AllocError> {
    let mut reversed = Vec::new(alloc);
    for change in changes.iter().rev() {
        reversed.push(*change)?;
    }
    Ok(reversed)
}

/// The table that these changes make from the empty table when they are applied in reverse order.
fn table_of_reversed(
    rt: &impl Abort,
    alloc: Global,
    changes: &[Change],
) -> Result<Table, AllocError> {
    let reversed = reversed(alloc, changes)?;
    table_of(rt, alloc, &reversed)
}

/// Whether the snapshot of a table with `links` links, and with `marks` routers marked as without
/// transit, has batches of these sizes.
fn has_sizes(
    rt: &impl Abort,
    alloc: Global,
    links: u32,
    marks: u32,
    sizes: &[usize],
) -> Result<bool, Fail> {
    let changes = full_changes(rt, alloc, links, marks)?;
    let table = table_of_reversed(rt, alloc, &changes)?;
    has_snapshot(alloc, &table, &changes, sizes)
}

#[test]
fn a_full_batch_and_one_change_more(rt: HostRuntime) -> Result<(), Fail> {
    let is_full = has_sizes(&rt, rt.alloc(), 4096, 0, &[4096])?;
    let is_one_more = has_sizes(&rt, rt.alloc(), 4096, 1, &[4096, 1])?;
    assert_case(&rt, b"a full batch", is_full && is_one_more);
    Ok(())
}

#[test]
fn a_full_table(rt: HostRuntime) -> Result<(), Fail> {
    let sizes = [4096, 4096, 4096, 4096, 1024];
    let holds = has_sizes(&rt, rt.alloc(), 16384, 1024, &sizes)?;
    assert_case(&rt, b"a full table", holds);
    Ok(())
}
