//! Two tests make the same batches, but only one of them uses its table. `tests/scarce` counts the
//! allocations of each test. The counts are equal, because checking a batch, absorbing it and
//! reading the table allocate no memory.
use super::edits::Edit::{self, Node, Put, Remove};
use super::edits::{assert_case, batch_of, put};
use cspf_addr::{Addr, Prefix};
use cspf_db::Table;
use cspf_model::{Batch, MOST_ROUTERS};
use std::alloc::Global;
use std::test::Fail;

// Batches of few changes. The last five batches don't fit.
const FEW: [&[Edit]; 10] = [
    // this batch has no changes
    &[],
    // this batch puts a link and its reverse, and marks a router as without transit
    &[Put(1, 10, 2, 20), Put(2, 20, 1, 10), Node(1, false)],
    // this batch puts links that the table already has
    &[Put(1, 10, 2, 20), Put(2, 20, 1, 10)],
    // this batch makes a link lead to a new router
    &[Put(1, 10, 3, 30)],
    // this batch removes the link from router 1, and the mark of router 1 as without transit
    &[Remove(1, 10), Node(1, true)],
    // each of these batches has two changes with the same key
    &[Put(1, 10, 2, 20), Remove(1, 10)],
    &[Node(5, false), Node(5, true)],
    // each of these batches removes a link that the table doesn't have
    &[Remove(9, 9)],
    &[Put(1, 10, 2, 20), Remove(9, 9)],
    &[Remove(9, 9), Remove(9, 9)],
];

// A batch that puts links from the router 0 to `routers` other routers. The links' local addresses
// are the numbers from `first` to `end` - 1.
fn many(alloc: Global, first: u32, end: u32, routers: u32) -> Result<Batch, Fail> {
    let mut changes = Vec::new(alloc);
    for local in first..end {
        let to = local.checked_rem(routers).unwrap_or(0).wrapping_add(1);
        changes.push(put(0, local, to, local ^ 1)?)?;
    }
    Ok(Batch { number: 1, changes })
}

// Batches of links from the router 0, each given by three numbers: the first local address, the
// last local address plus 1, and the number of other routers. Four batches fill the table. The next
// two batches put the same links again, the second of them to other routers. Of the last three
// batches, the first has too many routers, the second too many links, and the third too many
// changes.
const MANY: [(u32, u32, u32); 9] = [
    (0, 4096, 1000),
    (4096, 8192, 1000),
    (8192, 12288, 1000),
    (12288, 16384, 1000),
    (0, 4096, 1000),
    (0, 4096, 1001),
    (0, 4096, 1100),
    (16384, 16385, 1000),
    (0, 4097, 1000),
];

// All batches of `FEW` and `MANY`.
fn batches(alloc: Global) -> Result<Vec<Batch>, Fail> {
    let mut all = Vec::new(alloc);
    for edits in &FEW {
        all.push(batch_of(alloc, edits)?)?;
    }
    for (first, end, routers) in &MANY {
        all.push(many(alloc, *first, *end, *routers)?)?;
    }
    Ok(all)
}

// The number of elements that all calls for reading a table find.
fn reads(table: &Table, prefix: Prefix) -> usize {
    let mut found = table.ends().len().wrapping_add(table.marks().len());
    for (at, router) in table.routers().iter().enumerate() {
        let (out, ends) = (table.out(*router).len(), table.ends_at(at).len());
        let (index, back) = (table.out_at(at).len(), table.reverses_at(at).len());
        found = found.wrapping_add(out).wrapping_add(ends);
        found = found.wrapping_add(index).wrapping_add(back);
        let place = table.place_of(*router).is_some();
        let (transit, known) = (table.transit(*router), table.has_router(*router));
        found = found.wrapping_add(usize::from(place && transit == table.transit_at(at)));
        found = found.wrapping_add(usize::from(known && table.owns(*router, prefix)));
    }
    found.wrapping_add(reads_of_links(table))
}

// The number of links of the table that `find` finds and that have a reverse by `has_reverse`.
fn reads_of_links(table: &Table) -> usize {
    let mut found = 0usize;
    for link in table.links() {
        let has = table.find(link.from, link.local).is_some();
        found = found.wrapping_add(usize::from(has && table.has_reverse(link)));
    }
    found
}

// Checks each batch, absorbs it by `try_absorb` and again by `absorb`, and then reads the table.
// The result is the number of elements that these reads find, plus the number of batches for which
// `check` and `try_absorb` agree and `changes_shape` is true.
fn work(table: &mut Table, batches: &[Batch], prefix: Prefix) -> usize {
    let mut found = 0usize;
    for batch in batches {
        let (fits, reshapes) = (table.check(batch).is_ok(), table.changes_shape(batch));
        let taken = table.try_absorb(batch).is_ok();
        table.absorb(batch);
        found = found.wrapping_add(usize::from(fits == taken && reshapes));
        found = found.wrapping_add(reads(table, prefix));
    }
    found
}

#[test]
fn at_work(rt: HostRuntime) -> Result<(), Fail> {
    let alloc = rt.alloc();
    let (mut table, batches) = (Table::new(alloc)?, batches(alloc)?);
    let mut owners = Vec::with_capacity(alloc, MOST_ROUTERS)?;
    let prefix = Prefix::new(Addr::new(0), 8)?;
    let found = work(&mut table, batches.as_slice(), prefix);
    table.list_owners(&mut owners, prefix);
    let holds = found > 100_000 && owners.len() > 100;
    assert_case(&rt, "reads", found, holds);
    Ok(())
}

#[test]
fn at_rest(rt: HostRuntime) -> Result<(), Fail> {
    let alloc = rt.alloc();
    let (table, batches) = (Table::new(alloc)?, batches(alloc)?);
    let owners: Vec<u16> = Vec::with_capacity(alloc, MOST_ROUTERS)?;
    let found = reads(&table, Prefix::new(Addr::new(0), 8)?);
    let holds = found == 0 && owners.is_empty() && batches.len() == 19;
    assert_case(&rt, "reads", found, holds);
    Ok(())
}
