//! Tests the objects of routes, and reply lines.

ghost use Rattle.std.specs.Prelude.{◌≡◌, [], IfOk};

use super::assert_case;
use cspf_addr::{Addr, Hops, Mask};
use cspf_db::Table;
use cspf_ero::{reply_line, write_ero};
use cspf_model::{Batch, Change, Link, Outcome, Request};
use cspf_search::best;
use std::alloc::Global;
use std::test::Fail;

/// A link of metric 10 with 1,000 bytes per second unreserved at each priority.
fn link(from: u32, local: u32, to: u32, remote: u32) -> Result<Link, Fail> {
    let (from, local) = (Addr::new(from), Addr::new(local));
    let (to, remote) = (Addr::new(to), Addr::new(remote));
    Ok(Link::new(from, local, to, remote, 10, Mask::new(1), [1000; 8])?)
}

/// Two changes that put a link and its reverse, which has no unreserved bandwidth.
fn both_ways(link: Link) -> Result<[Change; 2], Fail> {
    let (from, local) = (link.to, link.remote);
    let (to, remote) = (link.from, link.local);
    let back = Link::new(from, local, to, remote, link.metric, link.group, [0; 8])?;
    Ok([Change::Put(link), Change::Put(back)])
}

/// The answer to a request from 1.1.1.1 to `to`. If `with_links` is true, the table has links from
/// 1.1.1.1 to 2.2.2.2 and from 2.2.2.2 to 3.3.3.3, and their reverses. If it is false, the table
/// has no link.
fn answered(alloc: Global, with_links: bool, to: u32, bandwidth: u64) -> Result<Outcome, Fail> {
    let mut changes = Vec::new(alloc);
    if with_links {
        let first = link(0x0101_0101, 0x0a00_0c01, 0x0202_0202, 0x0a00_0c02)?;
        let second = link(0x0202_0202, 0x0a00_1702, 0x0303_0303, 0x0a00_1703)?;
        changes.extend_from_slice(&both_ways(first)?)?;
        changes.extend_from_slice(&both_ways(second)?)?;
    }
    let mut table = Table::new(alloc)?;
    table.absorb(&Batch { number: 1, changes });
    Ok(best(alloc, &table, &request(to, bandwidth)?)?)
}

fn request(to: u32, bandwidth: u64) -> Result<Request, Fail>
    ensures { IfOk result (λ request. request.hops ≡ []) }
{
    let (from, to) = (Addr::new(0x0101_0101), Addr::new(to));
    let any = Mask::new(0);
    Ok(Request::new(7, from, to, 0, bandwidth, any, any, any, Hops::none())?)
}

/// Whether the answer is a route whose object is written with these hexadecimal digits.
fn has_object(alloc: Global, to: u32, digits: &str) -> Result<bool, Fail> {
    match answered(alloc, true, to, 1000)? {
        Outcome::Route(route) => {
            let object = write_ero(alloc, &route)?;
            Ok(hex::encode(alloc, object)?.as_str() == digits)
        }
        _ => Ok(false),
    }
}

#[test]
fn object_of_a_route(rt: HostRuntime) -> Result<(), Fail> {
    let first = has_object(rt.alloc(), 0x0202_0202, "000c140101080a000c022000")?;
    let second = has_object(
        rt.alloc(),
        0x0303_0303,
        "0014140101080a000c02200001080a0017032000",
    )?;
    assert_case(&rt, "objects", 2, first && second);
    Ok(())
}

/// A case: whether the table has links, the tail-end and the bandwidth of the request, the id and
/// the version of the reply, and the wanted line.
type Case = (bool, u32, u64, (u64, u32), &'static [u8]);

const LINES: &[Case] = &[
    (
        true,
        0x0202_0202,
        1000,
        (7, 1),
        b"ask 7 v1 route cost=10 hops=1 again=no ero=000c140101080a000c022000\n",
    ),
    (
        true,
        0x0303_0303,
        1000,
        (7, 1),
        b"ask 7 v1 route cost=20 hops=2 again=no ero=0014140101080a000c02200001080a0017032000\n",
    ),
    (true, 0x0202_0202, 1001, (7, 1), b"ask 7 v1 none\n"),
    (true, 0x0909_0909, 1000, (7, 1), b"ask 7 v1 unknown-to\n"),
    (false, 0x0202_0202, 0, (7, 1), b"ask 7 v1 unknown-from\n"),
    (
        false,
        0x0202_0202,
        0,
        (u64::MAX, 1_000_000),
        b"ask 18446744073709551615 v1000000 unknown-from\n",
    ),
];

/// Whether the answer to the request of a case is written as the line of the case.
fn has_line(alloc: Global, case: &Case) -> Result<bool, Fail> {
    let (with_links, to, bandwidth, (id, version), line) = case;
    let outcome = answered(alloc, *with_links, *to, *bandwidth)?;
    Ok(reply_line(alloc, *id, *version, &outcome)?.as_slice() == *line)
}

#[test]
fn reply_lines(rt: HostRuntime) -> Result<(), Fail> {
    for (at, case) in LINES.iter().enumerate() {
        let holds = has_line(rt.alloc(), case)?;
        assert_case(&rt, "a reply line", at, holds);
    }
    Ok(())
}
