//! Routes in networks in which some routers are marked as without transit.

use super::Wanted::{Again, NoRoute, Route, UnknownFrom, UnknownTo};
use super::{
    BY_THREE, BY_TWO, Case, FOUR, Network, ONE, Row, THREE, TWO, answered, assert_networks, change,
    is_wanted, mark, node, request, table,
};
use std::test::Fail;

// Four routers in a ring. ONE reaches FOUR over TWO at a cost of 2, and over THREE at a cost of
// 4.
const RING: &[Row] = &[
    (ONE, 0x0a00_0c01, TWO, 0x0a00_0c02, 1, 1000),
    (TWO, 0x0a00_1802, FOUR, 0x0a00_1804, 1, 1000),
    (ONE, 0x0a00_0d01, THREE, 0x0a00_0d03, 2, 1000),
    (THREE, 0x0a00_2203, FOUR, 0x0a00_2204, 2, 1000),
];

// An address that belongs to no router.
const NINE: u32 = 0x0909_0909;

// Hops for which all legs (parts of the route between hops) except one have no links: they stay at
// the head-end or at the tail-end.
const ENDS: &[u8] = b"1.1.1.1/32l 0.0.0.0/0s 1.1.1.1/32s 4.4.4.4/32l 0.0.0.0/0s";

const ROUND: &[Case] = &[
    (&[], (ONE, FOUR), b"", Route(2, BY_TWO)),
    (&[TWO], (ONE, FOUR), b"", Route(4, BY_THREE)),
    (&[THREE], (ONE, FOUR), b"", Route(2, BY_TWO)),
    // routes begin and end at routers that are marked as without transit, but don't pass through
    // them
    (&[ONE], (ONE, FOUR), b"", Route(2, BY_TWO)),
    (&[FOUR], (ONE, FOUR), b"", Route(2, BY_TWO)),
    (&[ONE, FOUR], (ONE, FOUR), b"", Route(2, BY_TWO)),
    (&[ONE, TWO, FOUR], (ONE, FOUR), b"", Route(4, BY_THREE)),
    (&[TWO, THREE], (ONE, FOUR), b"", NoRoute),
    (&[ONE, TWO, THREE, FOUR], (ONE, FOUR), b"", NoRoute),
    // a link leads from the head-end to the tail-end, and both are marked as without transit
    (
        &[ONE, TWO, THREE, FOUR],
        (ONE, TWO),
        b"",
        Route(1, &[0x0a00_0c02]),
    ),
    // the hop's prefix is owned only by a router that is marked as without transit, or by a router
    // with transit
    (&[TWO], (ONE, FOUR), b"2.2.2.2/32l", NoRoute),
    (&[THREE], (ONE, FOUR), b"2.2.2.2/32l", Route(2, BY_TWO)),
    (&[ONE, FOUR], (ONE, FOUR), b"2.2.2.2/32l", Route(2, BY_TWO)),
    (&[TWO], (ONE, FOUR), b"2.0.0.0/7l", Route(4, BY_THREE)),
    (&[ONE, FOUR], (ONE, FOUR), ENDS, Route(2, BY_TWO)),
    (&[ONE, TWO, FOUR], (ONE, FOUR), ENDS, Route(4, BY_THREE)),
    // an address without links that is marked as without transit is no router of the table
    (&[TWO, NINE], (NINE, ONE), b"", UnknownFrom),
    (&[TWO, NINE], (ONE, NINE), b"", UnknownTo),
];

// ONE reaches FOUR over TWO and over THREE at the same cost, but the link to THREE has no
// unreserved bandwidth. The links over TWO are tight in the bounds of a tree, even if TWO is marked
// as without transit: over each of them, the bound falls by exactly the metric.
const EQUAL: &[Row] = &[
    (ONE, 0x0a00_0c01, TWO, 0x0a00_0c02, 1, 1000),
    (TWO, 0x0a00_1802, FOUR, 0x0a00_1804, 1, 1000),
    (ONE, 0x0a00_0d01, THREE, 0x0a00_0d03, 1, 0),
    (THREE, 0x0a00_2203, FOUR, 0x0a00_2204, 1, 1000),
];

const BY_ONE_WAY: &[Case] = &[
    (&[], (ONE, FOUR), b"", Route(2, BY_TWO)),
    (&[TWO], (ONE, FOUR), b"", NoRoute),
];

#[test]
fn routes_round_marked_routers(rt: HostRuntime) -> Result<(), Fail> {
    let networks = [(RING, true, ROUND), (EQUAL, true, BY_ONE_WAY)];
    assert_networks(&rt, rt.alloc(), &networks)
}

const BY_HOP: &[u8] = b"2.2.2.2/32l";

// The least route over the hop comes back through the head-end, whether or not the tail-end is
// marked as without transit.
const BACK: &[u32] = &[0x0a00_0c02, 0x0a00_0c01, 0x0a00_0d03];

// Links from ONE to TWO and back, and from both of them to THREE, with two choices of metrics. In
// the last network, the only way over the hop goes through the tail-end and comes back to it.
const WAYS_BACK: [Network; 5] = [
    (
        &[
            (ONE, 0x0a00_0c01, TWO, 0x0a00_0c02, 0, 1000),
            (TWO, 0x0a00_0c02, ONE, 0x0a00_0c01, 0, 1000),
            (ONE, 0x0a00_0d01, THREE, 0x0a00_0d03, 0, 1000),
            (TWO, 0x0a00_1702, THREE, 0x0a00_1703, 9, 1000),
        ],
        true,
        &[
            (&[], (ONE, THREE), BY_HOP, Again(0, BACK)),
            (&[THREE], (ONE, THREE), BY_HOP, Again(0, BACK)),
            (
                &[ONE],
                (ONE, THREE),
                BY_HOP,
                Route(9, &[0x0a00_0c02, 0x0a00_1703]),
            ),
            (&[TWO], (ONE, THREE), BY_HOP, NoRoute),
        ],
    ),
    // this network is the previous one without the link from TWO to THREE, so there is no route
    (
        &[
            (ONE, 0x0a00_0c01, TWO, 0x0a00_0c02, 0, 1000),
            (TWO, 0x0a00_0c02, ONE, 0x0a00_0c01, 0, 1000),
            (ONE, 0x0a00_0d01, THREE, 0x0a00_0d03, 0, 1000),
        ],
        true,
        &[
            (&[ONE], (ONE, THREE), BY_HOP, NoRoute),
            (&[ONE, THREE], (ONE, THREE), BY_HOP, NoRoute),
        ],
    ),
    (
        &[
            (ONE, 0x0a00_0c01, TWO, 0x0a00_0c02, 1, 1000),
            (TWO, 0x0a00_0c02, ONE, 0x0a00_0c01, 1, 1000),
            (ONE, 0x0a00_0d01, THREE, 0x0a00_0d03, 1, 1000),
            (TWO, 0x0a00_1702, THREE, 0x0a00_1703, 9, 1000),
        ],
        true,
        &[
            (&[], (ONE, THREE), BY_HOP, Again(3, BACK)),
            (&[THREE], (ONE, THREE), BY_HOP, Again(3, BACK)),
            (
                &[ONE],
                (ONE, THREE),
                BY_HOP,
                Route(10, &[0x0a00_0c02, 0x0a00_1703]),
            ),
            (&[TWO], (ONE, THREE), BY_HOP, NoRoute),
        ],
    ),
    // this network is the previous one without the link from TWO to THREE, so there is no route
    (
        &[
            (ONE, 0x0a00_0c01, TWO, 0x0a00_0c02, 1, 1000),
            (TWO, 0x0a00_0c02, ONE, 0x0a00_0c01, 1, 1000),
            (ONE, 0x0a00_0d01, THREE, 0x0a00_0d03, 1, 1000),
        ],
        true,
        &[
            (&[ONE], (ONE, THREE), BY_HOP, NoRoute),
            (&[ONE, THREE], (ONE, THREE), BY_HOP, NoRoute),
        ],
    ),
    (
        &[
            (ONE, 0x0a00_0c01, TWO, 0x0a00_0c02, 10, 1000),
            (TWO, 0x0a00_1702, THREE, 0x0a00_1703, 10, 1000),
            (THREE, 0x0a00_1703, TWO, 0x0a00_1702, 10, 1000),
        ],
        true,
        &[
            (
                &[ONE],
                (ONE, TWO),
                b"3.3.3.3/32l",
                Again(30, &[0x0a00_0c02, 0x0a00_1703, 0x0a00_1702]),
            ),
            (&[TWO], (ONE, TWO), b"3.3.3.3/32l", NoRoute),
            (&[THREE], (ONE, TWO), b"3.3.3.3/32l", NoRoute),
        ],
    ),
];

#[test]
fn ways_back_to_the_ends(rt: HostRuntime) -> Result<(), Fail> {
    assert_networks(&rt, rt.alloc(), &WAYS_BACK)
}

// A router that is marked as without transit has transit again after the mark is removed.
#[test]
fn marks_that_go(rt: HostRuntime) -> Result<(), Fail> {
    let alloc = rt.alloc();
    let mut table = table(alloc, RING)?;
    mark(alloc, &mut table, &[TWO, NINE])?;
    let request = request((ONE, FOUR), 0, (0, 0, 0), b"")?;
    let round = answered(alloc, &table, &request)?;
    assert!(rt; is_wanted(&round, Route(4, BY_THREE)), "{round:?}");
    change(alloc, &mut table, &[node(TWO, true)])?;
    let through = answered(alloc, &table, &request)?;
    assert!(rt; is_wanted(&through, Route(2, BY_TWO)), "{through:?}");
    Ok(())
}
