//! Strict hops: some can be reached over a usable link, and others can't.

use super::Wanted::{NoRoute, Route};
use super::{BY_THREE, BY_TWO, Case, FOUR, ONE, SQUARE, assert_networks};
use std::test::Fail;

const CASES: &[Case] = &[
    (&[], (ONE, FOUR), b"2.2.2.2/32s", Route(2, BY_TWO)),
    (
        &[],
        (ONE, FOUR),
        b"3.3.3.3/32s 4.4.4.4/32s",
        Route(4, BY_THREE),
    ),
    // a leg to a strict hop (the part of the route up to this hop) has no links if it begins at an
    // owner of the hop's prefix
    (
        &[],
        (ONE, FOUR),
        b"2.2.2.2/32s 2.2.2.2/32s",
        Route(2, BY_TWO),
    ),
    (&[], (ONE, FOUR), b"1.1.1.1/32s", Route(2, BY_TWO)),
    (
        &[],
        (ONE, FOUR),
        b"0.0.0.0/0s 1.1.1.1/32s",
        Route(2, BY_TWO),
    ),
    // TWO and THREE own the prefix of the first hop, but only THREE owns the prefix of the second
    // hop
    (
        &[],
        (ONE, FOUR),
        b"2.0.0.0/7s 10.0.13.0/24s",
        Route(4, BY_THREE),
    ),
    // no link leads to the strict hop from the router where the leg to this hop begins
    (&[], (ONE, FOUR), b"4.4.4.4/32s", NoRoute),
    (
        &[],
        (ONE, FOUR),
        b"2.2.2.2/32l 1.1.1.1/32l 4.4.4.4/32s",
        NoRoute,
    ),
    (&[], (ONE, FOUR), b"4.4.4.4/32l 1.1.1.1/32s", NoRoute),
    // the link to the strict hop has no unreserved bandwidth
    (&[], (ONE, FOUR), b"2.2.2.2/32s 3.3.3.3/32s", NoRoute),
    (&[], (ONE, FOUR), b"3.3.3.3/32l 2.2.2.2/32s", NoRoute),
];

#[test]
fn strict_hops(rt: HostRuntime) -> Result<(), Fail> {
    assert_networks(&rt, rt.alloc(), &[(SQUARE, true, CASES)])
}
