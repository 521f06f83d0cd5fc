//! Which routers have transit according to the table, after batches that mark routers as without
//! transit or remove such marks.

mod drawn;
mod limits;

use super::edits::Edit::{self, Node, Put, Remove};
use super::edits::{answers, assert_case, node};
use cspf_addr::Addr;
use cspf_db::Table;
use cspf_model::Refusal;
use std::alloc::Global;
use std::process::Abort;
use std::test::Fail;

// Whether the table finds each of its routers by its Router ID, and says at the router's index that
// the router is without transit exactly if its Router ID is in `marks`.
fn are_routers_marked(table: &Table, marks: &[u32]) -> bool {
    for (at, router) in table.routers().iter().enumerate() {
        let marked = marks.contains(&router.number());
        if !table.has_router(*router) || table.transit_at(at) == marked {
            return false;
        }
    }
    true
}

// The number of addresses below 2,048 that are routers of the table. The result is `None` if the
// marked addresses below 2,048 aren't exactly `marks`. A marked address is without transit.
fn count_routers(table: &Table, marks: &[u32]) -> Option<usize> {
    let mut known = 0usize;
    for number in 0..2048 {
        let router = Addr::new(number);
        if table.transit(router) == marks.contains(&number) {
            return None;
        }
        known = known.saturating_add(usize::from(table.has_router(router)));
    }
    Some(known)
}

// Whether the table's list of marked addresses is exactly `marks`. A marked address is without
// transit.
fn are_listed(table: &Table, marks: &[u32]) -> bool {
    for router in table.marks() {
        if !marks.contains(&router.number()) {
            return false;
        }
    }
    table.marks().len() == marks.len()
}

// Whether all calls agree that exactly the addresses `marks` are marked as without transit, and the
// table has `routers` routers. All addresses are below 2,048.
fn are_marks(table: &Table, marks: &[u32], routers: usize) -> bool {
    let known = count_routers(table, marks) == Some(routers) && table.routers().len() == routers;
    known && are_listed(table, marks) && are_routers_marked(table, marks)
}

// A batch, the table's answer to it, and the state of the table after it: the addresses that are
// marked as without transit, and the number of routers.
type Step = (&'static [Edit], Result<(), Refusal>, &'static [u32], usize);

const MARKS_THAT_COME: &[Step] = &[
    (&[], Ok(()), &[], 0),
    // an address without links that is marked as without transit is no router of the table, and may
    // be marked again
    (&[Node(1, false)], Ok(()), &[1], 0),
    (&[Node(1, false)], Ok(()), &[1], 0),
    // giving transit to an address that already has transit changes nothing
    (&[Node(2, true)], Ok(()), &[1], 0),
    // links are put at router 1, which is marked as without transit; router 3 is new, and is marked
    // in the same batch that puts its link
    (
        &[Put(1, 7, 2, 7), Node(3, false), Put(3, 8, 1, 8)],
        Ok(()),
        &[1, 3],
        3,
    ),
];

const MARKS_THAT_GO: &[Step] = &[
    (
        &[
            Put(1, 7, 2, 7),
            Node(3, false),
            Put(3, 8, 1, 8),
            Node(1, false),
        ],
        Ok(()),
        &[1, 3],
        3,
    ),
    (&[Node(1, true), Node(2, false)], Ok(()), &[2, 3], 3),
    // when all links are removed, there are no routers any more, but the addresses are still marked
    // as without transit
    (&[Remove(1, 7), Remove(3, 8)], Ok(()), &[2, 3], 0),
    (&[Node(3, true), Node(2, true)], Ok(()), &[], 0),
];

// The key of a router's mark as without transit differs from the keys of the router's links,
// whatever their local addresses are.
const KEYS_OF_MARKS: &[Step] = &[
    (
        &[Put(5, 0, 6, 0), Put(5, 5, 6, 5), Node(5, false)],
        Ok(()),
        &[5],
        2,
    ),
    (
        &[Node(5, true), Remove(5, 0), Put(5, 5, 7, 5)],
        Ok(()),
        &[],
        2,
    ),
];

// The first batch marks router 9 as without transit. Each of the next four sets the transit of
// router 5 twice, to the same value or to another. The last batch is refused because it removes a
// link that the table doesn't have.
const REFUSED: &[Step] = &[
    (&[Node(9, false)], Ok(()), &[9], 0),
    (
        &[
            Node(5, false),
            Put(5, 1, 6, 1),
            Node(9, true),
            Node(5, false),
        ],
        Err(Refusal::Duplicate { at: 4 }),
        &[9],
        0,
    ),
    (
        &[
            Node(5, false),
            Put(5, 1, 6, 1),
            Node(9, true),
            Node(5, true),
        ],
        Err(Refusal::Duplicate { at: 4 }),
        &[9],
        0,
    ),
    (
        &[
            Node(5, true),
            Put(5, 1, 6, 1),
            Node(9, true),
            Node(5, false),
        ],
        Err(Refusal::Duplicate { at: 4 }),
        &[9],
        0,
    ),
    (
        &[Node(5, true), Put(5, 1, 6, 1), Node(9, true), Node(5, true)],
        Err(Refusal::Duplicate { at: 4 }),
        &[9],
        0,
    ),
    (
        &[Node(5, false), Node(9, true), Remove(5, 1)],
        Err(Refusal::Absent { at: 3 }),
        &[9],
        0,
    ),
];

const ROUTERS_AND_MARKS: &[Step] = &[
    // two batches mark addresses as without transit: some below, between and above those of the
    // routers 3 and 6, and router 6
    (
        &[Put(3, 1, 6, 1), Node(1, false), Node(4, false)],
        Ok(()),
        &[1, 4],
        2,
    ),
    (&[Node(6, false), Node(9, false)], Ok(()), &[1, 4, 6, 9], 2),
    // routers with and without transit are added, with addresses below, between and above those of
    // the other routers
    (
        &[Put(1, 1, 4, 1), Put(9, 1, 2, 1)],
        Ok(()),
        &[1, 4, 6, 9],
        6,
    ),
    // each batch removes two routers and marks one as without transit; the first batch also gives
    // transit to a router, and the second adds a router
    (
        &[Remove(1, 1), Node(6, true), Node(2, false)],
        Ok(()),
        &[1, 2, 4, 9],
        4,
    ),
    (
        &[Remove(3, 1), Put(9, 2, 8, 2), Node(8, false)],
        Ok(()),
        &[1, 2, 4, 8, 9],
        3,
    ),
    // router 2 is removed, but the routers 8 and 9 are not; router 8 gets transit again
    (&[Remove(9, 1), Node(8, true)], Ok(()), &[1, 2, 4, 9], 2),
];

// Absorbs the batches of the steps into the table, one after the other. After each batch, the table
// must be in the state of the step.
fn make(
    rt: &impl Abort,
    name: &str,
    steps: &[Step],
    alloc: Global,
    table: &mut Table,
) -> Result<(), Fail> {
    for (at, (edits, wanted, marks, routers)) in steps.iter().enumerate() {
        let holds = answers(alloc, table, edits, *wanted)? && are_marks(table, marks, *routers);
        assert_case(rt, name, at, holds);
    }
    Ok(())
}

// Absorbs the batches of the steps into an empty table, one after the other. After each batch, the
// table must be in the state of the step.
fn make_all(rt: &impl Abort, name: &str, steps: &[Step], alloc: Global) -> Result<(), Fail> {
    make(rt, name, steps, alloc, &mut Table::new(alloc)?)
}

const STEPS: &[(&str, &[Step])] = &[
    ("marks that come", MARKS_THAT_COME),
    ("marks that go", MARKS_THAT_GO),
    ("keys of marks", KEYS_OF_MARKS),
    ("refused marks", REFUSED),
    ("routers and marks", ROUTERS_AND_MARKS),
];

#[test]
fn marks_after_batches(rt: HostRuntime) -> Result<(), Fail> {
    for (name, steps) in STEPS {
        make_all(&rt, name, steps, rt.alloc())?;
    }
    Ok(())
}

#[test]
fn keys_of_marks(rt: HostRuntime) {
    let key = (Addr::new(5), None);
    let holds = node(5, false).key() == key && node(5, true).key() == key;
    assert_case(&rt, "the key of a mark", 5, holds);
}
