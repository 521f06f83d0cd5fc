//! Copies of a table: a copy has the same links, routers and marks, and batches that it absorbs
//! don't change the table.
use super::edits::Edit::{self, Node, Put, Remove};
use super::edits::{assert_case, batch_of};
use cspf_addr::Addr;
use cspf_db::Table;
use std::test::Fail;

// A circuit between the routers 1 and 2, a link from router 2 to router 3, and marks of the router 3
// and of an address that is no router.
const FIRST: &[Edit] = &[
    Put(1, 11, 2, 22),
    Put(2, 22, 1, 11),
    Put(2, 23, 3, 33),
    Node(3, false),
    Node(9, false),
];

// Removes a link, puts another one, and takes a mark away.
const NEXT: &[Edit] = &[Remove(2, 23), Put(1, 14, 4, 44), Node(3, true)];

// Whether these are the routers with these numbers.
fn have_numbers(routers: &[Addr], numbers: &[u32]) -> bool {
    if routers.len() != numbers.len() {
        return false;
    }
    for at in 0..numbers.len() {
        if routers[at].number() != numbers[at] {
            return false;
        }
    }
    true
}

// Whether the table has these routers, these marks, and this number of links.
fn has(table: &Table, routers: &[u32], marks: &[u32], links: usize) -> bool {
    let same = have_numbers(table.routers(), routers);
    same && have_numbers(table.marks(), marks) && table.links().len() == links
}

#[test]
fn copies_of_a_table(rt: HostRuntime) -> Result<(), Fail> {
    let alloc = rt.alloc();
    let mut table = Table::new(alloc)?;
    assert_case(
        &rt,
        "no links",
        0,
        has(&table.try_clone(alloc)?, &[], &[], 0),
    );
    table.try_absorb(&batch_of(alloc, FIRST)?)?;
    let mut copy = table.try_clone(alloc)?;
    assert_case(&rt, "a copy", 1, has(&copy, &[1, 2, 3], &[3, 9], 3));
    copy.try_absorb(&batch_of(alloc, NEXT)?)?;
    assert_case(&rt, "a changed copy", 2, has(&copy, &[1, 2, 4], &[9], 3));
    assert_case(&rt, "the table", 3, has(&table, &[1, 2, 3], &[3, 9], 3));
    let reversed = match copy.links().first() {
        Some(link) => copy.has_reverse(link) && copy.transit(Addr::new(3)),
        None => false,
    };
    assert_case(&rt, "reverses and transit of a copy", 4, reversed);
    Ok(())
}
