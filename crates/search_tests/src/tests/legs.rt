//! Requests whose legs (parts of the route between hops) are answered one after the other, each
//! with a tree for the router at the leg's end. Some tests use small networks with known routes.
//! Other tests draw networks at random, and check that the search by rounds gives the same answers.

ghost use Rattle.std.specs.Prelude.{◌+◌, ◌<◌};

use super::Wanted::{Again, NoRoute, Route};
use super::{
    BY_THREE, BY_TWO, Case, FOUR, ONE, Row, SQUARE, THREE, TWO, check_same, is_wanted, link, node,
    request,
};
use cspf_addr::{Addr, Hop, Hops, MOST_HOPS, Mask, Prefix};
use cspf_model::{Batch, Change, Outcome, Request};
use cspf_search::best_by_rounds;
use cspf_trees::{Growth, MOST_TREES, TreeTable};
use std::alloc::Global;
use std::test::Fail;

// The route from ONE over TWO to FOUR, on to THREE, and back to FOUR.
const ROUND: &[u32] = &[0x0a00_0c02, 0x0a00_1804, 0x0a00_2203, 0x0a00_2204];

// The route from ONE to TWO, back to ONE, and over THREE to FOUR.
const BACK: &[u32] = &[0x0a00_0c02, 0x0a00_0c01, 0x0a00_0d03, 0x0a00_2204];

const SEVEN: &[u8] =
    b"1.1.1.1/32l 1.1.1.1/32l 2.2.2.2/32l 2.2.2.2/32l 10.0.12.2/32l 4.4.4.4/32l 4.4.4.4/32l";

const CASES: [Case; 22] = [
    (&[], (ONE, FOUR), b"2.2.2.2/32l", Route(2, BY_TWO)),
    (&[], (ONE, FOUR), b"3.3.3.3/32l", Route(4, BY_THREE)),
    (&[], (ONE, FOUR), b"10.0.13.3/32l", Route(4, BY_THREE)),
    // the two ways from TWO to THREE both cost 3, so the first local address decides which one the
    // route takes
    (&[], (ONE, FOUR), b"2.2.2.2/32l 3.3.3.3/32l", Again(6, BACK)),
    (
        &[ONE],
        (ONE, FOUR),
        b"2.2.2.2/32l 3.3.3.3/32l",
        Again(6, ROUND),
    ),
    // each of the next requests has two consecutive hops whose prefixes the same router owns, or a
    // hop whose prefix the head-end or the tail-end owns
    (
        &[],
        (ONE, FOUR),
        b"2.2.2.2/32l 10.0.24.2/32l",
        Route(2, BY_TWO),
    ),
    (
        &[],
        (ONE, FOUR),
        b"1.1.1.1/32l 3.3.3.3/32l",
        Route(4, BY_THREE),
    ),
    (&[], (ONE, FOUR), b"4.4.4.4/32l", Route(2, BY_TWO)),
    (
        &[],
        (ONE, FOUR),
        b"4.4.4.4/32l 3.3.3.3/32l",
        Again(6, ROUND),
    ),
    (&[], (ONE, FOUR), SEVEN, Route(2, BY_TWO)),
    // the route goes back to the head-end
    (
        &[],
        (ONE, FOUR),
        b"2.2.2.2/32l 1.1.1.1/32l",
        Again(4, &[0x0a00_0c02, 0x0a00_0c01, 0x0a00_0c02, 0x0a00_1804]),
    ),
    // two legs (parts of the route between hops) meet at a router that is marked as without transit
    (&[TWO], (ONE, FOUR), b"2.2.2.2/32l", NoRoute),
    (&[ONE], (ONE, FOUR), b"2.2.2.2/32l 1.1.1.1/32l", NoRoute),
    (&[FOUR], (ONE, FOUR), b"4.4.4.4/32l 3.3.3.3/32l", NoRoute),
    // the head-end or the tail-end is marked as without transit
    (
        &[ONE],
        (ONE, FOUR),
        b"1.1.1.1/32l 2.2.2.2/32l",
        Route(2, BY_TWO),
    ),
    (&[FOUR], (ONE, FOUR), b"4.4.4.4/32l", Route(2, BY_TWO)),
    (
        &[FOUR],
        (ONE, FOUR),
        b"3.3.3.3/32l 4.4.4.4/32l 10.0.34.4/32l",
        Route(4, BY_THREE),
    ),
    // in the first request, a usable link leads to the strict hop; in the second request, no usable
    // link leads to it
    (&[], (ONE, FOUR), b"3.3.3.3/32s", Route(4, BY_THREE)),
    (&[], (ONE, FOUR), b"2.2.2.2/32l 3.3.3.3/32s", NoRoute),
    // the prefix of the hop is owned by two routers, or by no router
    (&[], (ONE, FOUR), b"2.0.0.0/7l", Route(2, BY_TWO)),
    (&[TWO], (ONE, FOUR), b"2.0.0.0/7l", Route(4, BY_THREE)),
    (&[], (ONE, FOUR), b"9.9.9.9/32l", NoRoute),
];

// The link in the opposite direction, with the same metric and unreserved bandwidth.
fn back(row: &Row) -> Row {
    let (from, local, to, remote, metric, free) = *row;
    (to, remote, from, local, metric, free)
}

// A table with trees that has absorbed these changes, which must fit.
fn table_after(alloc: Global, changes: Vec<Change>) -> Result<TreeTable, Fail> {
    let mut table = TreeTable::with_growth(alloc, MOST_TREES, Growth::FromAsk(6))?;
    table.try_absorb(&Batch { number: 1, changes })?;
    Ok(table)
}

// A table of the links of `SQUARE`, in which the routers `marks` are marked as without transit.
fn square(alloc: Global, marks: &[u32]) -> Result<TreeTable, Fail> {
    let mut changes = Vec::new(alloc);
    for row in SQUARE {
        changes.push(Change::Put(link(row)?))?;
        changes.push(Change::Put(link(&back(row))?))?;
    }
    for router in marks {
        changes.push(node(*router, false))?;
    }
    table_after(alloc, changes)
}

// Whether the request of a case gets the wanted answer nine times in a row. The sixth request grows
// a tree.
fn holds(alloc: Global, case: &Case) -> Result<bool, Fail> {
    let (marks, ends, hops, wanted) = *case;
    let mut table = square(alloc, marks)?;
    let asked = request(ends, 0, (0, 0, 0), hops)?;
    let mut all = true;
    for _ask in 0..9 {
        let found = table.best(alloc, &asked)?;
        all = all && is_wanted(&found, wanted);
    }
    Ok(all)
}

#[test]
fn legs_in_a_square(rt: HostRuntime) -> Result<(), Fail> {
    for case in &CASES {
        let as_wanted = holds(rt.alloc(), case)?;
        assert!(rt; as_wanted, "{case:?}");
    }
    Ok(())
}

// A change that puts a link from the router to FOUR. The request can't use this link, but the local
// address of the link is the address of a hop, so the router owns the hop's prefix.
fn put(router: u32, free: u64) -> Result<Change, Fail> {
    let row = (router, 0x0a00_6301, FOUR, 0x0a00_6302, 1, free);
    Ok(Change::Put(link(&row)?))
}

// A change that removes the link of `put`.
fn out(router: u32) -> Change {
    Change::Remove {
        from: Addr::new(router),
        local: Addr::new(0x0a00_6301),
    }
}

// One table answers the same request again and again, while the address of its hop moves: from TWO
// alone to TWO and THREE, to THREE alone, to TWO and THREE again, to TWO alone, and at last to no
// router.
#[test]
fn hop_that_moves(rt: HostRuntime) -> Result<(), Fail> {
    let alloc = rt.alloc();
    let mut table = square(alloc, &[])?;
    let asked = request((ONE, FOUR), 0, (0, 0, 0), b"10.0.99.1/32l 10.0.99.1/32l")?;
    let moves = [
        (put(TWO, 0)?, Route(2, BY_TWO)),
        (put(TWO, 1)?, Route(2, BY_TWO)),
        (put(THREE, 0)?, Route(2, BY_TWO)),
        (out(TWO), Route(4, BY_THREE)),
        (put(TWO, 0)?, Route(2, BY_TWO)),
        (out(THREE), Route(2, BY_TWO)),
        (out(TWO), NoRoute),
    ];
    for (change, wanted) in &moves {
        let changes = Vec::from_slice(alloc, &[*change])?;
        table.try_absorb(&Batch { number: 2, changes })?;
        let found = answered_alike(alloc, &mut table, &asked)?;
        let as_wanted = is_wanted(&found, *wanted);
        assert!(rt; as_wanted, "{change:?}");
    }
    Ok(())
}

// The next pseudo-random number, which is less than `below`.
fn draw(seed: &mut u32, below: u32) -> u32
    requires { 0 < below }
    ensures { result < below }
{
    *seed = seed.wrapping_mul(1_664_525).wrapping_add(1_013_904_223);
    (*seed >> 8) % below
}

// The address of a random router out of ten.
fn drawn_router(seed: &mut u32) -> u32 {
    0x0a00_0001 + draw(seed, 10)
}

// A link between two random routers, with a metric from 0 to 2. Some such links have no unreserved
// bandwidth. Links with different numbers have different interfaces.
fn drawn_row(seed: &mut u32, number: u32) -> Row
    requires { number < 100 }
{
    let from = draw(seed, 10);
    let to = (from + 1 + draw(seed, 9)) % 10;
    let local = 0x0a01_0000 + 2 * number;
    let metric = draw(seed, 3);
    let free = if draw(seed, 8) == 0 { 0 } else { 1000 };
    (
        0x0a00_0001 + from,
        local,
        0x0a00_0001 + to,
        local + 1,
        metric,
        free,
    )
}

// A table of 20 random links and most of their reverses. At most two routers are marked as without
// transit.
fn drawn_table(alloc: Global, seed: &mut u32) -> Result<TreeTable, Fail> {
    let mut changes = Vec::new(alloc);
    for number in 0..20 {
        let row = drawn_row(seed, number);
        changes.push(Change::Put(link(&row)?))?;
        if draw(seed, 10) > 0 {
            changes.push(Change::Put(link(&back(&row))?))?;
        }
    }
    let first = 0x0a00_0001 + draw(seed, 10);
    for more in 0..draw(seed, 3) {
        changes.push(node(first + more, false))?;
    }
    table_after(alloc, changes)
}

// A random address for a hop: that of an interface, of the head-end, of the tail-end, of the
// previous hop, or of a router.
fn drawn_address(seed: &mut u32, ends: (u32, u32), before: u32) -> u32 {
    match draw(seed, 8) {
        0 => 0x0a01_0000 + draw(seed, 40),
        1 => ends.0,
        2 => ends.1,
        3 => before,
        _ => drawn_router(seed),
    }
}

// One to seven random hops. One hop in twenty is strict. One hop in twenty has a prefix of 30 bits,
// so that up to four routers own this prefix.
fn drawn_hops(seed: &mut u32, ends: (u32, u32)) -> Result<Hops, Fail> {
    let mut hops = Hops::none();
    let mut address = ends.0;
    for _hop in 0..1 + draw(seed, 7) {
        address = drawn_address(seed, ends, address);
        let length = if draw(seed, 20) == 0 { 30 } else { 32 };
        let prefix = Prefix::new(Addr::new(address), length)?;
        let loose = draw(seed, 20) > 0;
        if hops.len() < MOST_HOPS {
            hops.push(Hop { prefix, loose });
        }
    }
    Ok(hops)
}

// A random request with hops. Its include-any mask is 0 or 0x2, so the requests with the same
// tail-end form two classes. The requests of a class have the same tail-end and the same
// affinities, and share a tree.
fn drawn_request(seed: &mut u32) -> Result<Request, Fail> {
    let from = draw(seed, 10);
    let to = (from + 1 + draw(seed, 9)) % 10;
    let ends = (0x0a00_0001 + from, 0x0a00_0001 + to);
    let hops = drawn_hops(seed, ends)?;
    let (from, to) = (Addr::new(ends.0), Addr::new(ends.1));
    let (none, any) = (Mask::new(0), Mask::new(2 * draw(seed, 2)));
    Ok(Request::new(1, from, to, 0, 1000, none, any, none, hops)?)
}

// The answer of the search by rounds. The trees are asked three times. The test fails unless each
// of their answers is the answer of the search by rounds.
fn answered_alike(
    alloc: Global,
    table: &mut TreeTable,
    request: &Request,
) -> Result<Outcome, Fail> {
    let outcome = best_by_rounds(alloc, table.table(), request)?;
    for _ask in 0..3 {
        let found = table.best(alloc, request)?;
        check_same(&outcome, &found)?;
    }
    Ok(outcome)
}

// The number of those among 40 requests in a random network that have a route.
fn routes_by_legs(alloc: Global, seed: &mut u32) -> Result<u32, Fail> {
    let mut table = drawn_table(alloc, seed)?;
    let mut routes = 0u32;
    for _request in 0..40 {
        let request = drawn_request(seed)?;
        let outcome = answered_alike(alloc, &mut table, &request)?;
        routes = routes.saturating_add(u32::from(matches!(outcome, Outcome::Route(_))));
    }
    Ok(routes)
}

// In 50 networks, the search by rounds and the trees give the same answers to 2,000 requests.
#[test]
fn legs_in_drawn_networks(rt: HostRuntime) -> Result<(), Fail> {
    let mut seed = 2463534242;
    let mut routes = 0u32;
    for _network in 0..50 {
        routes = routes.saturating_add(routes_by_legs(rt.alloc(), &mut seed)?);
    }
    assert!(rt; routes > 500, "{routes}");
    Ok(())
}
