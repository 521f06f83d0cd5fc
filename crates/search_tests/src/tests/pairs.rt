//! Answers to requests for pairs of ways that share no circuit, or no router either.

use super::drawn::{drawn_network, drawn_request};
use super::{FOUR, ONE, Row, SQUARE, THREE, TWO, is_along, mark, one_way, request, table};
use cspf_db::Table;
use cspf_disjoint::{PairError, best_pair};
use cspf_model::Request;
use cspf_pair::{Kind, PairOutcome, PairRequest};
use std::alloc::Global;
use std::test::Fail;

// ONE reaches FOUR over TWO and THREE at a cost of 3. No second way is left beside this route. The
// ways over TWO alone and over THREE alone cost 5 each.
const TRAP: &[Row] = &[
    (ONE, 0x0a00_0c01, TWO, 0x0a00_0c02, 1, 1000),
    (TWO, 0x0a00_1702, THREE, 0x0a00_1703, 1, 1000),
    (THREE, 0x0a00_2203, FOUR, 0x0a00_2204, 1, 1000),
    (ONE, 0x0a00_0d01, THREE, 0x0a00_0d03, 4, 1000),
    (TWO, 0x0a00_1802, FOUR, 0x0a00_1804, 4, 1000),
];

// One circuit from ONE to TWO, and two circuits from TWO to FOUR.
const ONE_CIRCUIT: &[Row] = &[
    (ONE, 0x0a00_0c01, TWO, 0x0a00_0c02, 1, 1000),
    (TWO, 0x0a00_1802, FOUR, 0x0a00_1804, 1, 1000),
    (TWO, 0x0a00_1902, FOUR, 0x0a00_1904, 3, 1000),
];

// Two circuits from ONE to TWO, and two circuits from TWO to FOUR.
const ONE_ROUTER: &[Row] = &[
    (ONE, 0x0a00_0c01, TWO, 0x0a00_0c02, 1, 1000),
    (ONE, 0x0a00_0e01, TWO, 0x0a00_0e02, 2, 1000),
    (TWO, 0x0a00_1802, FOUR, 0x0a00_1804, 1, 1000),
    (TWO, 0x0a00_1902, FOUR, 0x0a00_1904, 3, 1000),
];

// Two circuits from ONE to TWO of the greatest metric, and one of metric 0.
const GREATEST: &[Row] = &[
    (ONE, 0x0a00_0c01, TWO, 0x0a00_0c02, 4_294_967_295, 1000),
    (ONE, 0x0a00_0d01, TWO, 0x0a00_0d02, 4_294_967_295, 1000),
    (ONE, 0x0a00_0e01, TWO, 0x0a00_0e02, 0, 1000),
];

// A way: its cost, and the remote addresses of its links.
type Way = (u64, &'static [u32]);

// The answer that a request for a pair must get.
#[derive(Clone, Copy, Debug)]
enum Wanted {
    Pair(Way, Way),
    // The link that each way has begins at this interface.
    EachBy(u32),
    // The router that each way passes through.
    EachThrough(u32),
    NoRoute,
    UnknownFrom,
    UnknownTo,
}

// Whether the outcome is the wanted answer.
fn is_wanted(outcome: &PairOutcome, wanted: Wanted) -> bool {
    match (outcome, wanted) {
        (PairOutcome::Pair(one, other), Wanted::Pair(first, second)) => {
            is_along(one, first.0, first.1) && is_along(other, second.0, second.1)
        }
        (PairOutcome::EachBy(link), Wanted::EachBy(local)) => link.local.number() == local,
        (PairOutcome::EachThrough(router), Wanted::EachThrough(number)) => {
            router.number() == number
        }
        (PairOutcome::NoRoute, Wanted::NoRoute) => true,
        (PairOutcome::UnknownFrom, Wanted::UnknownFrom) => true,
        (PairOutcome::UnknownTo, Wanted::UnknownTo) => true,
        _ => false,
    }
}

// A case: the links, the routers that are marked as without transit, the head-end and the tail-end,
// and the answers for a pair that shares no circuit and for a pair that shares no router.
type Case = (&'static [Row], &'static [u32], (u32, u32), Wanted, Wanted);

// The two ways over TWO and over THREE in `TRAP`.
const TRAP_PAIR: Wanted = Wanted::Pair(
    (5, &[0x0a00_0c02, 0x0a00_1804]),
    (5, &[0x0a00_0d03, 0x0a00_2204]),
);

const SQUARE_PAIR: Wanted = Wanted::Pair(
    (2, &[0x0a00_0c02, 0x0a00_1804]),
    (4, &[0x0a00_0d03, 0x0a00_2204]),
);

const GREATEST_PAIR: Wanted = Wanted::Pair((0, &[0x0a00_0e02]), (4_294_967_295, &[0x0a00_0c02]));

const ROUTER_PAIR: Wanted = Wanted::Pair(
    (2, &[0x0a00_0c02, 0x0a00_1804]),
    (5, &[0x0a00_0e02, 0x0a00_1904]),
);

const CASES: &[Case] = &[
    (TRAP, &[], (ONE, FOUR), TRAP_PAIR, TRAP_PAIR),
    (TRAP, &[ONE, FOUR], (ONE, FOUR), TRAP_PAIR, TRAP_PAIR),
    (
        TRAP,
        &[TWO],
        (ONE, FOUR),
        Wanted::EachBy(0x0a00_0d01),
        Wanted::EachBy(0x0a00_0d01),
    ),
    (
        TRAP,
        &[TWO, THREE],
        (ONE, FOUR),
        Wanted::NoRoute,
        Wanted::NoRoute,
    ),
    (TRAP, &[], (FOUR, ONE), Wanted::NoRoute, Wanted::NoRoute),
    (
        TRAP,
        &[],
        (9, ONE),
        Wanted::UnknownFrom,
        Wanted::UnknownFrom,
    ),
    (TRAP, &[], (ONE, 9), Wanted::UnknownTo, Wanted::UnknownTo),
    (TRAP, &[], (8, 9), Wanted::UnknownFrom, Wanted::UnknownFrom),
    (SQUARE, &[], (ONE, FOUR), SQUARE_PAIR, SQUARE_PAIR),
    (
        ONE_CIRCUIT,
        &[],
        (ONE, FOUR),
        Wanted::EachBy(0x0a00_0c01),
        Wanted::EachBy(0x0a00_0c01),
    ),
    (
        ONE_ROUTER,
        &[],
        (ONE, FOUR),
        ROUTER_PAIR,
        Wanted::EachThrough(TWO),
    ),
    (GREATEST, &[], (ONE, TWO), GREATEST_PAIR, GREATEST_PAIR),
];

fn asked(request: Request, kind: Kind) -> PairRequest {
    PairRequest { request, kind }
}

// Fails if the request for a pair doesn't get the wanted answer.
fn check_pair(
    alloc: Global,
    table: &Table,
    asked: &PairRequest,
    wanted: Wanted,
) -> Result<(), Fail> {
    let found = best_pair(alloc, table, asked)?;
    if is_wanted(&found, wanted) {
        Ok(())
    } else {
        Err(Fail::new(format_args!("{wanted:?}: {found:?}")))
    }
}

// Fails if one of the two requests for a pair, that by circuits and that by routers, doesn't get the
// wanted answer.
fn check_both(
    alloc: Global,
    table: &Table,
    request: Request,
    circuits: Wanted,
    routers: Wanted,
) -> Result<(), Fail> {
    let mut asked = PairRequest {
        request,
        kind: Kind::Circuits,
    };
    check_pair(alloc, table, &asked, circuits)?;
    asked.kind = Kind::Routers;
    check_pair(alloc, table, &asked, routers)
}

#[test]
fn pairs_of_small_networks(rt: HostRuntime) -> Result<(), Fail> {
    let alloc = rt.alloc();
    for (rows, marks, ends, circuits, routers) in CASES {
        let mut table = table(alloc, rows)?;
        mark(alloc, &mut table, marks)?;
        let request = request(*ends, 0, (0, 0, 0), b"")?;
        check_both(alloc, &table, request, *circuits, *routers)?;
    }
    Ok(())
}

// Links without reverses are no ways.
#[test]
fn pairs_need_reverses(rt: HostRuntime) -> Result<(), Fail> {
    let alloc = rt.alloc();
    let table = one_way(alloc, TRAP)?;
    let request = request((ONE, FOUR), 0, (0, 0, 0), b"")?;
    check_both(alloc, &table, request, Wanted::NoRoute, Wanted::NoRoute)
}

// The hops of a request don't matter.
#[test]
fn hops_of_pairs_do_not_matter(rt: HostRuntime) -> Result<(), Fail> {
    let alloc = rt.alloc();
    let table = table(alloc, TRAP)?;
    let request = request((ONE, FOUR), 0, (0, 0, 0), b"3.3.3.3/32s")?;
    check_both(alloc, &table, request, TRAP_PAIR, TRAP_PAIR)
}

// The total cost of a pair, if the outcome is a pair.
fn total_cost(outcome: &PairOutcome) -> Option<u64> {
    match outcome {
        PairOutcome::Pair(one, other) => Some(one.cost() + other.cost()),
        _ => None,
    }
}

// Whether there is a pair for the request that shares no circuit. Fails if a request has no answer,
// or if a pair that shares no router is cheaper.
fn has_pair(alloc: Global, table: &Table, request: Request) -> Result<bool, Fail> {
    let circuits = total_cost(&best_pair(alloc, table, &asked(request, Kind::Circuits))?);
    let routers = total_cost(&best_pair(alloc, table, &asked(request, Kind::Routers))?);
    match (circuits, routers) {
        (None, Some(cost)) => Err(Fail::new(format_args!("only without routers: {cost}"))),
        (Some(less), Some(more)) if more < less => {
            Err(Fail::new(format_args!("{more} and {less}")))
        }
        (found, _) => Ok(found.is_some()),
    }
}

// In 100 networks, some of them with routers marked as without transit, 1,600 requests for pairs of
// each kind have an answer.
#[test]
fn drawn_pairs(rt: HostRuntime) -> Result<(), Fail> {
    let alloc = rt.alloc();
    let mut seed = 1234567;
    let mut pairs = 0u32;
    for _network in 0..100 {
        let network = drawn_network(alloc, &mut seed)?;
        for _ask in 0..16 {
            let request = drawn_request(&mut seed, b"")?;
            if has_pair(alloc, &network.marked, request)? {
                pairs = pairs.saturating_add(1);
            }
        }
    }
    assert!(rt; pairs > 300, "{pairs}");
    Ok(())
}
