//! Tests tables that are made from the batches of journals.

use super::tables::{batches, node, put};
use crate::tests::assert_case;
use cspf_addr::Addr;
use cspf_db::Table;
use cspf_judge::{ReplayError, replay};
use cspf_model::{Batch, Change, Refusal};
use std::alloc::{AllocError, Global};
use std::process::Abort;
use std::test::Fail;

/// A change that removes a link of router 1: the link with this local address.
fn remove(local: u32) -> Change {
    Change::Remove {
        from: Addr::new(1),
        local: Addr::new(local),
    }
}

/// Three batches. The second and third batches undo some changes of the first batch.
fn three_batches(rt: &impl Abort, alloc: Global) -> Result<Vec<Batch>, AllocError> {
    let first = [put(rt, 1, 5, 2), put(rt, 1, 6, 2), node(2, false)];
    let second = [remove(5), node(4, false)];
    let third = [put(rt, 1, 5, 3), node(2, true)];
    batches(alloc, &[(3, &first), (3, &second), (1, &third)])
}

/// Whether a table has exactly the links that these two changes put, and marks exactly the router
/// `mark` as without transit.
fn has(table: &Table, links: [Change; 2], mark: Addr) -> bool {
    match (table.links(), table.marks()) {
        ([first, second], [marked]) => {
            Change::Put(*first) == links[0] && Change::Put(*second) == links[1] && *marked == mark
        }
        _ => false,
    }
}

#[test]
fn batches_in_order(rt: HostRuntime) -> Result<(), Fail> {
    let batches = three_batches(&rt, rt.alloc())?;
    let table = replay(rt.alloc(), &batches)?;
    let links = [put(&rt, 1, 5, 3), put(&rt, 1, 6, 2)];
    assert_case(&rt, b"batches", has(&table, links, Addr::new(4)));
    Ok(())
}

/// Three batches. The second batch removes a link that doesn't exist.
fn batches_that_do_not_fit(rt: &impl Abort, alloc: Global) -> Result<Vec<Batch>, AllocError> {
    let first = [put(rt, 1, 5, 2)];
    let second = [put(rt, 1, 7, 2), remove(6)];
    let third = [put(rt, 1, 8, 2), put(rt, 1, 8, 3)];
    batches(alloc, &[(1, &first), (9, &second), (3, &third)])
}

#[test]
fn a_batch_that_does_not_fit(rt: HostRuntime) -> Result<(), AllocError> {
    let batches = batches_that_do_not_fit(&rt, rt.alloc())?;
    let why = ReplayError::Refused {
        number: 9,
        refusal: Refusal::Absent { at: 2 },
    };
    let is_refused = replay(rt.alloc(), &batches).err() == Some(why);
    assert_case(&rt, b"a batch", is_refused);
    Ok(())
}
