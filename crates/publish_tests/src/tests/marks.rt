//! Tests routers that are marked as carrying no transit traffic. The marks remain at later
//! versions.

use super::fixtures::{
    ONE, Said, TWO, assert_case, back, batch, check_versions, empty_batch, is_answered, only_link,
    opened, request,
};
use cspf_addr::{Addr, Mask};
use cspf_model::{Batch, Change, Link, LinkError};
use std::alloc::{AllocError, Global};
use std::test::Fail;

const THREE: u32 = 0x03030303; // 3.3.3.3

/// The changes that set the link from 1.1.1.1 to 2.2.2.2, a link from 2.2.2.2 to 3.3.3.3, and the
/// reverses of both links.
fn two_links() -> Result<[Change; 4], LinkError> {
    let (link, back) = (only_link()?, back()?);
    let (two, local) = (Addr::new(TWO), Addr::new(0x0a001702));
    let (three, remote) = (Addr::new(THREE), Addr::new(0x0a001703));
    let group = Mask::new(1);
    let next = Link::new(two, local, three, remote, 10, group, [1000; 8])?;
    let last = Link::new(three, remote, two, local, 10, group, [0; 8])?;
    Ok([
        Change::Put(link),
        Change::Put(back),
        Change::Put(next),
        Change::Put(last),
    ])
}

/// The batch that says whether 2.2.2.2 has transit.
fn node_batch(alloc: Global, number: u32, transit: bool) -> Result<Batch, AllocError> {
    let router = Addr::new(TWO);
    batch(alloc, number, &[Change::Node { router, transit }])
}

/// The batch with this number. Batch 1 adds two links, and batch 2 marks the router between them. A
/// marked router carries no transit traffic. Batch 5 removes the mark, and the batches 3, 4 and 6
/// are empty.
fn batch_at(alloc: Global, number: u32) -> Result<Batch, Fail> {
    match number {
        1 => Ok(batch(alloc, 1, &two_links()?)?),
        2 => Ok(node_batch(alloc, 2, false)?),
        5 => Ok(node_batch(alloc, 5, true)?),
        _ => Ok(empty_batch(alloc, number)),
    }
}

/// The text at the end of the journal after these batches.
const LAST: &[u8] = b"end,1,4\nnode,2.2.2.2,0\nend,2,1\nend,3,0\nend,4,0\n\
node,2.2.2.2,1\nend,5,1\nend,6,0\n";

/// The outcome at a version: no route while 2.2.2.2 is marked as without transit, and a route
/// through 2.2.2.2 otherwise.
fn said_at(version: u32) -> Said {
    match version {
        2..=4 => Said::NoRoute,
        _ => Said::Route(20, 2),
    }
}

/// An asker (which computes the answers) answers the request after each of the six batches. The
/// publisher writes to its two copies of the database alternately.
#[test]
fn marks_at_each_version(rt: HostRuntime) -> Result<(), Fail> {
    let request = request(7, ONE, THREE, 1000)?;
    let (mut publisher, mut asker) = opened(&rt, rt.alloc(), Vec::<u8>::new(rt.alloc()));
    let asked = check_versions(&rt, 6, |number| {
        let applied = publisher.apply(&rt, rt.alloc(), &batch_at(rt.alloc(), number)?);
        let wanted = said_at(number);
        let is_answered = is_answered(rt.alloc(), &mut asker, &request, number, wanted);
        Ok(applied == Ok(number) && is_answered)
    });
    let ends = publisher.close(&rt).ends_with(LAST);
    assert_case(&rt, "the journal", 0, ends);
    asked
}
