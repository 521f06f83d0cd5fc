//! What the tests share: links that differ only in their routers and interfaces, changes whose
//! addresses are given as numbers, and the answer of a table to a batch. `assert_case` has the only
//! assertion of these tests.
use cspf_addr::{Addr, Mask};
use cspf_db::Table;
use cspf_model::{Batch, Change, Link, LinkError, Refusal};
use std::alloc::Global;
use std::process::Abort;
use std::test::Fail;

// Fails with the name and the number of a case if `holds` is false.
pub(super) fn assert_case(rt: &impl Abort, name: &str, number: usize, holds: bool) {
    assert!(rt; holds, "{name} {number}");
}

// A change, with its addresses as numbers.
#[derive(Clone, Copy)]
pub(super) enum Edit {
    // Puts a link. The numbers are the router and the interface at its start, and the router and
    // the interface at its end.
    Put(u32, u32, u32, u32),
    // Removes a link. The numbers are the router and the interface at its start.
    Remove(u32, u32),
    // Sets whether a router has transit.
    Node(u32, bool),
}

impl Edit {
    pub(super) fn change(&self) -> Result<Change, LinkError> {
        match *self {
            Edit::Put(from, local, to, remote) => put(from, local, to, remote),
            Edit::Remove(from, local) => Ok(drop_of(from, local)),
            Edit::Node(router, transit) => Ok(node(router, transit)),
        }
    }
}

// The link from the router `from` with its interface `local` to the router `to` with its interface
// `remote`.
pub(super) fn link(from: u32, local: u32, to: u32, remote: u32) -> Result<Link, LinkError> {
    Link::new(
        Addr::new(from),
        Addr::new(local),
        Addr::new(to),
        Addr::new(remote),
        10,
        Mask::new(1),
        [1000; 8],
    )
}

pub(super) fn put(from: u32, local: u32, to: u32, remote: u32) -> Result<Change, LinkError> {
    Ok(Change::Put(link(from, local, to, remote)?))
}

pub(super) fn drop_of(from: u32, local: u32) -> Change {
    Change::Remove {
        from: Addr::new(from),
        local: Addr::new(local),
    }
}

pub(super) fn node(router: u32, transit: bool) -> Change {
    Change::Node {
        router: Addr::new(router),
        transit,
    }
}

// A batch of these changes.
pub(super) fn batch_of(alloc: Global, edits: &[Edit]) -> Result<Batch, Fail> {
    let mut changes = Vec::new(alloc);
    for edit in edits {
        changes.push(edit.change()?)?;
    }
    Ok(Batch { number: 1, changes })
}

// The answer of a table to a batch. If the batch fits, the table absorbs it: by `try_absorb` if
// `at_once` is true, and otherwise by `absorb` after `check`.
pub(super) fn answer(table: &mut Table, batch: &Batch, at_once: bool) -> Result<(), Refusal> {
    if at_once {
        return table.try_absorb(batch);
    }
    let answer = table.check(batch);
    table.absorb(batch);
    answer
}

// Whether a table gives the answer `wanted` to a batch of these changes. The batch is checked by
// one call, and absorbed by another.
pub(super) fn answers(
    alloc: Global,
    table: &mut Table,
    edits: &[Edit],
    wanted: Result<(), Refusal>,
) -> Result<bool, Fail> {
    let batch = batch_of(alloc, edits)?;
    Ok(answer(table, &batch, false) == wanted)
}
