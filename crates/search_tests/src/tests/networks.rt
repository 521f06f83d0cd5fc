//! Answers in small networks: ties, reverses, unknown head-ends and tail-ends, priorities,
//! affinities and hops.

use super::Wanted::{Again, NoRoute, Route, UnknownFrom, UnknownTo};
use super::{
    FOUR, Network, ONE, Row, THREE, TWO, answered, assert_networks, is_wanted, link, request,
    reverse, table_of,
};
use cspf_addr::Mask;
use cspf_db::Table;
use cspf_model::Change;
use std::alloc::Global;
use std::test::Fail;

// A link from ONE to TWO.
const LINK: Row = (ONE, 0x0a00_0c01, TWO, 0x0a00_0c02, 10, 1000);

// Routes of equal cost. The route with fewer links is preferred. Between routes with the same
// number of links, the first pair of local addresses that differ decides, not the last one.
// Addresses compare as numbers.
const TIES: [Network; 3] = [
    (
        &[
            (ONE, 0x0a00_000a, TWO, 0x0a00_010a, 5, 1000),
            (ONE, 0x0a00_0009, TWO, 0x0a00_0109, 5, 1000),
        ],
        true,
        &[(&[], (ONE, TWO), b"", Route(5, &[0x0a00_0109]))],
    ),
    (
        &[
            (ONE, 0x0a00_6301, TWO, 0x0a00_6302, 20, 1000),
            (ONE, 0x0a00_0d01, THREE, 0x0a00_0d03, 10, 1000),
            (THREE, 0x0a00_1703, TWO, 0x0a00_1702, 10, 1000),
        ],
        true,
        &[(&[], (ONE, TWO), b"", Route(20, &[0x0a00_6302]))],
    ),
    (
        &[
            (ONE, 0x0a00_0301, THREE, 1, 1, 1000),
            (THREE, 0x0a00_0001, FOUR, 2, 1, 1000),
            (ONE, 0x0a00_0201, TWO, 3, 1, 1000),
            (TWO, 0x0a09_0909, FOUR, 4, 1, 1000),
        ],
        true,
        &[(&[], (ONE, FOUR), b"", Route(2, &[3, 4]))],
    ),
];

#[test]
fn ties(rt: HostRuntime) -> Result<(), Fail> {
    assert_networks(&rt, rt.alloc(), &TIES)
}

const SEVEN: &[u8] =
    b"0.0.0.0/0l 0.0.0.0/0l 0.0.0.0/0l 0.0.0.0/0l 0.0.0.0/0l 0.0.0.0/0l 0.0.0.0/0l";

const LINKS: [Network; 9] = [
    // some links have the metric 0
    (
        &[
            (ONE, 0x0a00_0c01, TWO, 0x0a00_0c02, 0, 1000),
            (TWO, 0x0a00_0c02, ONE, 0x0a00_0c01, 0, 1000),
            (TWO, 0x0a00_1702, THREE, 0x0a00_1703, 0, 1000),
        ],
        true,
        &[(
            &[],
            (ONE, THREE),
            b"",
            Route(0, &[0x0a00_0c02, 0x0a00_1703]),
        )],
    ),
    (
        &[LINK],
        true,
        &[
            // seven hops whose prefix every router owns don't change the route
            (&[], (ONE, TWO), SEVEN, Route(10, &[0x0a00_0c02])),
            // the reverse has no unreserved bandwidth
            (&[], (TWO, ONE), b"", NoRoute),
            // an unknown head-end is reported before an unknown tail-end
            (&[], (THREE, FOUR), b"", UnknownFrom),
            (&[], (ONE, FOUR), b"", UnknownTo),
        ],
    ),
    // the only link has no reverse
    (&[LINK], false, &[(&[], (ONE, TWO), b"", NoRoute)]),
    // A link back isn't the reverse if it has another interface at one of its ends or at both, or
    // if it leads to another router.
    (
        &[LINK, (TWO, 0x0a00_0d02, ONE, 0x0a00_0d01, 10, 1000)],
        false,
        &[(&[], (ONE, TWO), b"", NoRoute)],
    ),
    (
        &[LINK, (TWO, 0x0a00_0d02, ONE, 0x0a00_0c01, 10, 1000)],
        false,
        &[(&[], (ONE, TWO), b"", NoRoute)],
    ),
    (
        &[LINK, (TWO, 0x0a00_0c02, ONE, 0x0a00_0d01, 10, 1000)],
        false,
        &[(&[], (ONE, TWO), b"", NoRoute)],
    ),
    (
        &[LINK, (TWO, 0x0a00_0c02, THREE, 0x0a00_0c01, 10, 1000)],
        false,
        &[(&[], (ONE, TWO), b"", NoRoute)],
    ),
    // a link back is the reverse, whatever its metric and bandwidth are
    (
        &[LINK, (TWO, 0x0a00_0c02, ONE, 0x0a00_0c01, 10, 1000)],
        false,
        &[(&[], (ONE, TWO), b"", Route(10, &[0x0a00_0c02]))],
    ),
    (
        &[LINK, (TWO, 0x0a00_0c02, ONE, 0x0a00_0c01, 7, 0)],
        false,
        &[(&[], (ONE, TWO), b"", Route(10, &[0x0a00_0c02]))],
    ),
];

#[test]
fn links_and_reverses(rt: HostRuntime) -> Result<(), Fail> {
    assert_networks(&rt, rt.alloc(), &LINKS)
}

// The route over the strict hop 10.9.0.0/16. The leg to this hop (the part of the route up to it)
// may visit both routers that own the prefix, and no others.
const STRICT: &[u32] = &[0x0a00_0302, 0x0a00_0601, 0x0a00_0504];

const HOPS: [Network; 3] = [
    (
        &[
            (ONE, 0x0a00_0101, THREE, 0x0a00_0103, 1, 1000),
            (ONE, 0x0a00_0201, 0x0a09_0001, 0x0a00_0202, 10, 1000),
            (ONE, 0x0a00_0301, 0x0a09_0002, 0x0a00_0302, 2, 1000),
            (THREE, 0x0a00_0403, 0x0a09_0001, 0x0a00_0401, 1, 1000),
            (0x0a09_0001, 0x0a00_0501, FOUR, 0x0a00_0504, 1, 1000),
            (0x0a09_0002, 0x0a00_0602, 0x0a09_0001, 0x0a00_0601, 3, 1000),
        ],
        true,
        &[
            (&[], (ONE, FOUR), b"10.9.0.0/16s", Route(6, STRICT)),
            (
                &[],
                (ONE, FOUR),
                b"10.9.0.0/16l",
                Route(3, &[0x0a00_0103, 0x0a00_0401, 0x0a00_0504]),
            ),
            // the leg to the first hop (the part of the route up to it) has no links
            (
                &[],
                (ONE, FOUR),
                b"1.1.1.1/32s 10.9.0.0/16s",
                Route(6, STRICT),
            ),
        ],
    ),
    // the route passes through the tail-end on the way to the hop, and ends at the tail-end
    (
        &[
            LINK,
            (TWO, 0x0a00_1702, THREE, 0x0a00_1703, 10, 1000),
            (THREE, 0x0a00_1703, TWO, 0x0a00_1702, 10, 1000),
        ],
        true,
        &[(
            &[],
            (ONE, TWO),
            b"3.3.3.3/32l",
            Again(30, &[0x0a00_0c02, 0x0a00_1703, 0x0a00_1702]),
        )],
    ),
    // TWO owns the address of its interface to FOUR, although the request can't use the link to
    // FOUR
    (
        &[
            LINK,
            (TWO, 0x0a00_1702, THREE, 0x0a00_1703, 10, 1000),
            (TWO, 0xac10_0002, FOUR, 0xac10_0004, 10, 0),
        ],
        true,
        &[(
            &[],
            (ONE, THREE),
            b"172.16.0.0/12s",
            Route(20, &[0x0a00_0c02, 0x0a00_1703]),
        )],
    ),
];

#[test]
fn hops(rt: HostRuntime) -> Result<(), Fail> {
    assert_networks(&rt, rt.alloc(), &HOPS)
}

// A table of `LINK` and its reverse. The reverse has these groups.
fn with_reverse(alloc: Global, groups: u32) -> Result<Table, Fail> {
    let (there, mut back) = (link(&LINK)?, link(&reverse(&LINK))?);
    back.group = Mask::new(groups);
    Ok(table_of(alloc, &[Change::Put(there), Change::Put(back)])?)
}

// The groups of the reverse, the setup priority, the three affinity masks, and whether there is a
// route.
const AFFINITIES: [(u32, u8, (u32, u32, u32), bool); 8] = [
    (0x6, 0, (0, 0, 0), true),
    // no bandwidth is unreserved at priority 7
    (0x6, 7, (0, 0, 0), false),
    (0x6, 0, (0x1, 0x2, 0x6), true),
    (0x6, 0, (0x0, 0x0, 0x7), false),
    (0x6, 0, (0x4, 0x0, 0x0), false),
    // the groups of the reverse don't count for the link
    (0x8, 0, (0x8, 0, 0), true),
    (0x8, 0, (0, 0x2, 0), true),
    (0x8, 0, (0, 0, 0x6), true),
];

#[test]
fn priorities_and_affinities(rt: HostRuntime) -> Result<(), Fail> {
    let alloc = rt.alloc();
    for (groups, setup, masks, is_usable) in AFFINITIES {
        let request = request((ONE, TWO), setup, masks, b"")?;
        let found = answered(alloc, &with_reverse(alloc, groups)?, &request)?;
        let wanted = if is_usable {
            Route(10, &[0x0a00_0c02])
        } else {
            NoRoute
        };
        assert!(rt; is_wanted(&found, wanted), "{setup} {masks:?}: {found:?}");
    }
    Ok(())
}
