//! Tests the greatest number of addresses that a table can mark as without transit, and batches that
//! change hundreds of marks.

use crate::tests::edits::Edit::{self, Node, Put, Remove};
use crate::tests::edits::{answer, answers, assert_case, node, put};
use cspf_addr::Addr;
use cspf_db::Table;
use cspf_model::{Batch, Change, MOST_CHANGES, MOST_MARKS, Refusal};
use std::alloc::{AllocError, Global};
use std::process::Abort;
use std::test::Fail;

// Changes that mark the routers from `first` to `end` - 1 as without transit, or remove their
// marks.
fn nodes(alloc: Global, first: u32, end: u32, transit: bool) -> Result<Vec<Change>, AllocError> {
    let mut changes = Vec::new(alloc);
    for router in first..end {
        changes.push(node(router, transit))?;
    }
    Ok(changes)
}

// The numbers of addresses below 4,096 that are marked as without transit, of marks that the table
// lists, and of the table's routers.
fn counts(table: &Table) -> [usize; 3] {
    let mut marked = 0usize;
    for number in 0..4096 {
        if !table.transit(Addr::new(number)) {
            marked = marked.saturating_add(1);
        }
    }
    [marked, table.marks().len(), table.routers().len()]
}

// Marks the addresses 0 to 1,023 as without transit. Returns whether the table accepts this batch,
// then has exactly these marks, and would accept the same batch again.
fn fill(alloc: Global, table: &mut Table) -> Result<bool, AllocError> {
    let changes = nodes(alloc, 0, 1024, false)?;
    let all = Batch { number: 1, changes };
    let fits = answer(table, &all, false) == Ok(());
    Ok(fits && counts(table) == [1024, 1024, 0] && table.check(&all) == Ok(()))
}

// Whether the address `first` has transit, and whether the address `second` has transit.
fn transit_of(table: &Table, first: u32, second: u32) -> (bool, bool) {
    let first = table.transit(Addr::new(first));
    (first, table.transit(Addr::new(second)))
}

const TOO_MANY: Result<(), Refusal> = Err(Refusal::TooManyMarks);

// Changes to a table in which the addresses 0 to 1,023 are marked as without transit. With each
// batch come the table's answer, and whether the addresses 0 and 1,024 then have transit.
const MORE: &[(&[Edit], Result<(), Refusal>, (bool, bool))] = &[
    // Each of these batches marks the address 1,024, which is one mark too many. Each of them also
    // gives transit to an address that has transit, marks a marked address again, or puts a link.
    (
        &[Node(1024, false), Node(1025, true)],
        TOO_MANY,
        (false, true),
    ),
    (
        &[Node(1024, false), Node(1023, false)],
        TOO_MANY,
        (false, true),
    ),
    (
        &[Node(1024, false), Put(0, 0, 1, 0)],
        TOO_MANY,
        (false, true),
    ),
    // address 1,024 is marked as without transit instead of address 0; the next batch marks address
    // 0 instead of address 1,024
    (&[Node(1024, false), Node(0, true)], Ok(()), (true, false)),
    (&[Node(0, false), Node(1024, true)], Ok(()), (false, true)),
];

// Whether a table has no routers and 1,024 marks of addresses without transit, and the two
// addresses have transit as `transit` says.
fn is_full(table: &Table, (first, second): (u32, u32), transit: (bool, bool)) -> bool {
    counts(table) == [1024, 1024, 0] && transit_of(table, first, second) == transit
}

// Marks the addresses 0 to 1,023 as without transit, and then makes the changes of `MORE`.
fn change_full(rt: &impl Abort, alloc: Global, table: &mut Table) -> Result<(), Fail> {
    assert_case(rt, "marks", 1024, fill(alloc, table)?);
    for (at, (edits, wanted, transit)) in MORE.iter().enumerate() {
        let answers = answers(alloc, table, edits, *wanted)?;
        let holds = answers && is_full(table, (0, 1024), *transit);
        assert_case(rt, "more marks", at, holds);
    }
    Ok(())
}

#[test]
fn one_mark_more_than_are_kept(rt: HostRuntime) -> Result<(), Fail> {
    change_full(&rt, rt.alloc(), &mut Table::new(rt.alloc())?)
}

// A batch that marks the addresses 1,024 to 2,047 as without transit, and removes the marks of 0 to
// 1,023.
fn all_others(alloc: Global) -> Result<Batch, AllocError> {
    let mut changes = nodes(alloc, 1024, 2048, false)?;
    for router in 0..1024 {
        changes.push(node(router, true))?;
    }
    Ok(Batch { number: 1, changes })
}

// Marks the addresses 0 to 1,023 as without transit, and then the addresses 1,024 to 2,047 instead.
// Returns whether 1,024 addresses are then marked, including 1,024 but not 1,023.
fn takes_others(alloc: Global, table: &mut Table) -> Result<bool, AllocError> {
    let is_filled = fill(alloc, table)?;
    table.absorb(&all_others(alloc)?);
    Ok(is_filled && is_full(table, (1023, 1024), (true, false)))
}

#[test]
fn all_marks_in_place_of_others(rt: HostRuntime) -> Result<(), Fail> {
    let takes_others = takes_others(rt.alloc(), &mut Table::new(rt.alloc())?)?;
    assert_case(&rt, "all marks", 1024, takes_others);
    Ok(())
}

// Changes that put links from router 0 to the routers 1 to `count`.
fn star(alloc: Global, count: u32) -> Result<Vec<Change>, Fail> {
    let mut changes = Vec::new(alloc);
    for to in 0..count {
        let local = to.wrapping_add(1);
        changes.push(put(0, local, local, local)?)?;
    }
    Ok(changes)
}

// A batch that puts `links` links from router 0, marks the routers 0 to `marks` - 1 as without
// transit, and makes the further changes `more`.
fn star_with_marks(alloc: Global, links: u32, marks: u32, more: &[Edit]) -> Result<Batch, Fail> {
    let mut changes = star(alloc, links)?;
    for router in 0..marks {
        changes.push(node(router, false))?;
    }
    for edit in more {
        changes.push(edit.change()?)?;
    }
    Ok(Batch { number: 1, changes })
}

// A batch, and the answer of an empty table to it. The first two numbers are the number of links
// from router 0 that the batch puts, and the number of routers that it marks as without transit.
// The further changes of the batch follow. The last number is both the number of marks and the
// number of routers that the table then has.
type Star = (u32, u32, &'static [Edit], Result<(), Refusal>, usize);

const STARS: &[Star] = &[
    (0, 1025, &[], TOO_MANY, 0),
    (1024, 1025, &[], Err(Refusal::TooManyRouters), 0),
    (1023, 1025, &[], TOO_MANY, 0),
    (
        0,
        1025,
        &[Remove(0, 1)],
        Err(Refusal::Absent { at: 1026 }),
        0,
    ),
    (
        0,
        1025,
        &[Remove(0, 1), Node(0, true)],
        Err(Refusal::Duplicate { at: 1027 }),
        0,
    ),
    (0, 4096, &[], TOO_MANY, 0),
    (0, 4096, &[Node(0, true)], Err(Refusal::TooLong), 0),
    // this batch makes the greatest allowed numbers of routers and of addresses without transit
    (1023, 1024, &[], Ok(()), 1024),
];

// Whether the table gives the wanted answer to the batch, and then has `left` routers and `left`
// marks of routers without transit.
fn takes(
    alloc: Global,
    table: &mut Table,
    (links, marks, more, wanted, left): &Star,
) -> Result<bool, Fail> {
    let batch = star_with_marks(alloc, *links, *marks, more)?;
    let takes = answer(table, &batch, false) == *wanted;
    Ok(takes && counts(table) == [*left; 3])
}

fn take_stars(rt: &impl Abort, alloc: Global, table: &mut Table) -> Result<(), Fail> {
    for (at, star) in STARS.iter().enumerate() {
        assert_case(rt, "a star with marks", at, takes(alloc, table, star)?);
    }
    Ok(())
}

// If a batch marks too many routers as without transit, but breaks another rule too, the refusal
// names the other rule.
#[test]
fn marks_behind_other_refusals(rt: HostRuntime) -> Result<(), Fail> {
    let limits = MOST_MARKS == 1024 && MOST_CHANGES == 4096;
    assert_case(&rt, "the limits", 0, limits);
    take_stars(&rt, rt.alloc(), &mut Table::new(rt.alloc())?)
}

// A batch that puts `links` links from router 0, and sets the transit of the routers 0 to 1,023.
// Every second router, beginning with `first`, is marked as without transit, and the others get
// transit.
fn each_second(alloc: Global, links: u32, first: u32) -> Result<Batch, Fail> {
    let mut changes = star(alloc, links)?;
    for router in 0..1024 {
        changes.push(node(router, router % 2 != first))?;
    }
    Ok(Batch { number: 1, changes })
}

// Whether the table gives for each router the same answer about its transit by index and by Router
// ID.
fn are_alike(table: &Table) -> bool {
    for (at, router) in table.routers().iter().enumerate() {
        if table.transit_at(at) != table.transit(*router) {
            return false;
        }
    }
    true
}

// Absorbs a batch with `links` links. Returns whether every second one of 1,024 routers, beginning
// with `first`, is then marked as without transit.
fn marks_each_second(
    alloc: Global,
    table: &mut Table,
    links: u32,
    first: u32,
) -> Result<bool, Fail> {
    table.absorb(&each_second(alloc, links, first)?);
    let transit = transit_of(table, 0, 1023) == (first == 1, first == 0);
    Ok(transit && counts(table) == [512, 512, 1024] && are_alike(table))
}

// A first batch marks the even ones of the routers 0 to 1,023 as without transit. A second batch
// marks the odd ones, and gives transit to the even ones.
fn mark_each_second(rt: &impl Abort, alloc: Global, table: &mut Table) -> Result<(), Fail> {
    let marks_even = marks_each_second(alloc, table, 1023, 0)?;
    assert_case(rt, "each second router from", 0, marks_even);
    let marks_odd = marks_each_second(alloc, table, 0, 1)?;
    assert_case(rt, "each second router from", 1, marks_odd);
    Ok(())
}

#[test]
fn each_second_router_marked(rt: HostRuntime) -> Result<(), Fail> {
    mark_each_second(&rt, rt.alloc(), &mut Table::new(rt.alloc())?)
}
