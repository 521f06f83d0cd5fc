//! Defines helpers for the tests of workers: a link, batches, requests and publishers.
ghost use Rattle.std.specs.Prelude.{◌≡◌, ◌≤◌, All, IfOk, vec_len};
ghost use Rattle.cspf_work.specs.declared.limits.TheConstants.{MOST_REQUESTS};

use cspf_addr::{Addr, Hops, Mask};
use cspf_model::{Batch, Change, Link, LinkError, Outcome, Request, RequestError};
use cspf_publish::{Asker, Publisher, open};
use std::alloc::Global;
use std::io::Write;
use std::process::Abort;
use std::sync::Wait;
use std::test::Fail;

/// A link of this metric from 1.1.1.1 to 2.2.2.2, with 1,000 bytes per second unreserved. Its local
/// address is 10.0.12.1.
fn link(metric: u32) -> Result<Link, LinkError> {
    let (from, local) = (Addr::new(0x01010101), Addr::new(0x0a000c01));
    let (to, remote) = (Addr::new(0x02020202), Addr::new(0x0a000c02));
    Link::new(from, local, to, remote, metric, Mask::new(1), [1000; 8])
}

/// Two changes that set a link of this metric and the link's reverse. The reverse has no bandwidth.
pub(crate) fn both_ways(metric: u32) -> Result<[Change; 2], LinkError> {
    let link = link(metric)?;
    let (from, local) = (link.to, link.remote);
    let (to, remote) = (link.from, link.local);
    let back = Link::new(from, local, to, remote, metric, link.group, [0; 8])?;
    Ok([Change::Put(link), Change::Put(back)])
}

/// A batch with this number, which sets the link of metric 10 and the link's reverse.
pub(crate) fn link_batch(alloc: Global, number: u32) -> Result<Batch, Fail> {
    Ok(Batch {
        number,
        changes: Vec::from_slice(alloc, &both_ways(10)?)?,
    })
}

/// A request from the router `from` to 2.2.2.2, for this bandwidth.
pub(crate) fn request(id: u64, from: u32, bandwidth: u64) -> Result<Request, RequestError> {
    let any = Mask::new(0);
    Request::new(
        id,
        Addr::new(from),
        Addr::new(0x02020202),
        0,
        bandwidth,
        any,
        any,
        any,
        Hops::none(),
    )
}

/// A list with the same request `count` times.
pub(crate) fn requests(alloc: Global, count: usize) -> Result<Vec<Request>, Fail>
    requires { count ≤ MOST_REQUESTS }
    ensures { IfOk result (λ all. vec_len all ≡ count) }
{
    let one = request(7, 0x01010101, 1000)?;
    Ok(Vec::from_elem(alloc, one, count)?)
}

pub(crate) fn cost(outcome: &Outcome) -> u64 {
    match outcome {
        Outcome::Route(route) => route.cost(),
        _ => 0,
    }
}

/// A publisher that has published no batch, and some of its askers (which compute the workers'
/// answers).
pub(crate) fn opened<W: Write + Drop, R: Wait + Abort>(
    rt: &R,
    alloc: Global,
    journal: W,
    askers: usize,
) -> (Publisher<W>, Vec<Asker>)
    ensures count { vec_len result.1 ≡ askers }
    ensures source { All (λ a. a.source ≡ result.0.source) result.1.items }
{
    match open(rt, alloc, journal, askers) {
        Ok(opened) => opened,
        Err(_) => panic!(rt; "no publisher"),
    }
}

pub(crate) fn are_at_version_1(askers: &[Asker]) -> bool {
    for asker in askers {
        if asker.seen() != 1 {
            return false;
        }
    }
    true
}
