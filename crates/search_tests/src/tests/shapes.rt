//! Networks of nine shapes, drawn at random. Requests are answered with trees of lower bounds, which
//! are grown at the first request, by `best`, by the search from both ends, and by the search that a
//! tree guides. They must get the answers of the search by rounds.

ghost use Rattle.cspf_trees.specs.Trees.{AreTreesOf};

use super::{draw, is_same, request, table_of, without_hops};
use cspf_addr::{Addr, Mask};
use cspf_db::Table;
use cspf_meet::{best_by_bounds, best_from_both_ends};
use cspf_model::{Change, Link, Outcome, Request};
use cspf_search::{Tree, best, best_by_rounds};
use cspf_trees::{MOST_TREES, Trees};
use std::alloc::{AllocError, Global};
use std::test::Fail;

// The number of routers of a network.
const ROUTERS: u32 = 36;

// The greatest number of circuits of a network.
const CIRCUITS: u32 = 140;

// The two routers that the circuit `number` joins in a network of this shape. If both are the same,
// there is no such circuit.
fn circuit(seed: &mut u32, shape: u32, number: u32) -> (u32, u32) {
    match shape {
        // all routers form a cycle, and further circuits join random pairs of routers
        0 if number < 36 => (number, (number + 1) % 36),
        0 if number < 72 => (draw(seed) % 36, draw(seed) % 36),
        // Six routers form a cycle with three chords. Each of 12 more routers has two circuits to
        // this cycle, and each of the other 18 routers has two circuits to these 12.
        1 if number < 6 => (number, (number + 1) % 6),
        1 if number < 9 => (number - 6, number - 3),
        1 if number < 33 => (6 + (number - 9) / 2, draw(seed) % 6),
        1 if number < 69 => (18 + (number - 33) / 2, 6 + draw(seed) % 12),
        // the routers form a grid
        2 if number < 30 => (number + number / 5, number + number / 5 + 1),
        2 if number < 60 => (number - 30, number - 24),
        // the routers form a ladder
        3 if number < 34 => (number, number + 2),
        3 if number < 52 => (2 * (number - 34), 2 * (number - 34) + 1),
        // each of 30 leaves has three circuits to the six spines
        4 if number < 90 => (6 + number / 3, draw(seed) % 6),
        // the routers form a cycle
        5 if number < 36 => (number, (number + 1) % 36),
        // four circuits join each router to the next one
        6 => (number / 4, number / 4 + 1),
        // each half of the routers forms a cycle, and four circuits join the halves
        7 if number < 18 => (number, (number + 1) % 18),
        7 if number < 36 => (number, 18 + (number - 17) % 18),
        7 if number < 40 => (draw(seed) % 18, 18 + draw(seed) % 18),
        // circuits join random pairs of routers, so that some routers may have no circuit
        8 if number < 64 => (draw(seed) % 36, draw(seed) % 36),
        _ => (0, 0),
    }
}

// The address of a router, from 10.0.0.0 to 10.0.0.35.
fn router(number: u32) -> Addr {
    Addr::new(0x0a00_0000 + number % ROUTERS)
}

// A random metric: always 1 for kind 0, from 0 to 3 for kind 1, and otherwise from 1 to 1,000.
fn metric(seed: &mut u32, kind: u32) -> u32 {
    match kind {
        0 => 1,
        1 => draw(seed) % 4,
        _ => 1 + draw(seed) % 1000,
    }
}

// A link that is in one or two of three groups. One in 32 such links has no unreserved bandwidth.
fn shaped_link(seed: &mut u32, kind: u32, from: (u32, u32), to: (u32, u32)) -> Result<Link, Fail> {
    let room = if draw(seed) % 32 == 0 { 0 } else { 1000 };
    let group = Mask::new(1 + draw(seed) % 3 * 2);
    let metric = metric(seed, kind);
    let (local, remote) = (Addr::new(from.1), Addr::new(to.1));
    let link = Link::new(
        router(from.0),
        local,
        router(to.0),
        remote,
        metric,
        group,
        [room; 8],
    );
    Ok(link?)
}

// A table of a network of this shape, with metrics of this kind. One in 32 circuits has a link in
// one direction only. One in three such networks has a router that is marked as without transit.
fn shaped_table(alloc: Global, seed: &mut u32, shape: u32, kind: u32) -> Result<Table, Fail> {
    let mut changes = Vec::new(alloc);
    for number in 0..CIRCUITS {
        let (from, to) = circuit(seed, shape, number);
        if from == to {
            continue;
        }
        let from = (from, draw(seed) % 4 * 4096 + 2 * number);
        let to = (to, draw(seed) % 4 * 4096 + 2 * number + 1);
        changes.push(Change::Put(shaped_link(seed, kind, from, to)?))?;
        if draw(seed) % 32 > 0 {
            changes.push(Change::Put(shaped_link(seed, kind, to, from)?))?;
        }
    }
    if draw(seed) % 3 == 0 {
        changes.push(Change::Node {
            router: router(draw(seed)),
            transit: false,
        })?;
    }
    Ok(table_of(alloc, &changes)?)
}

// Lists of hops. In the first three lists, the prefix of each hop has only one owner. In the other
// two, the prefix of a hop has several owners.
const HOPS: [&[u8]; 5] = [
    b"10.0.0.7/32l",
    b"10.0.0.7/32l 10.0.0.7/32l 10.0.0.30/32l",
    b"10.0.0.21/32l 10.0.0.3/32l 10.0.0.12/32l 10.0.0.33/32l",
    b"10.0.0.4/30l 10.0.0.16/32s",
    b"10.0.0.0/27s",
];

// The affinity masks of requests: exclude-any, include-any and include-all.
const MASKS: [(u32, u32, u32); 4] = [(0, 0, 0), (0, 0, 0), (4, 0, 0), (0, 6, 1)];

// A request between two random routers. One in eight such requests has hops.
fn shaped_request(seed: &mut u32) -> Result<Request, Fail> {
    let from = draw(seed) % ROUTERS;
    let to = from + 1 + draw(seed) % (ROUTERS - 1);
    let hops = match draw(seed) % 40 {
        row @ 0..5 => HOPS[row as usize],
        _ => b"",
    };
    let masks = MASKS[(draw(seed) % 4) as usize];
    let ends = (router(from).number(), router(to).number());
    request(ends, 0, masks, hops)
}

// Whether the search that a tree of the request guides gives this answer. It must leave a request
// without hops open only if there is no route.
fn is_guided(
    alloc: Global,
    table: &Table,
    request: &Request,
    wanted: &Outcome,
) -> Result<bool, AllocError> {
    let Some(tree) = Tree::grow(alloc, table, request)? else {
        return Ok(true);
    };
    match best_by_bounds(alloc, table, request, &tree)? {
        Some(outcome) => Ok(is_same(&outcome, wanted)),
        None => Ok(!request.hops.is_empty() || !matches!(wanted, Outcome::Route(_))),
    }
}

// Whether the trees and `best` give the same answer to a request as the search by rounds. If the
// request has no hops, the search from both ends must find this answer, too, and leave no request
// open. So must the search that a tree guides, if there is a route. If the request has hops, it is
// first answered without its hops, so that there is a tree for its tail-end and affinities.
fn agree(alloc: Global, table: &Table, request: &Request, trees: &mut Trees) -> Result<bool, Fail>
    requires { AreTreesOf table.now trees.old }
    ensures { AreTreesOf table.now trees.new }
{
    if !request.hops.is_empty() {
        trees.best(alloc, table, &without_hops(request))?;
    }
    let found = trees.best(alloc, table, request)?;
    let wanted = best_by_rounds(alloc, table, request)?;
    let plain = best(alloc, table, request)?;
    let met = match best_from_both_ends(alloc, table, request)? {
        Some(outcome) => is_same(&outcome, &wanted),
        None => !request.hops.is_empty(),
    };
    let guided = is_guided(alloc, table, request, &wanted)?;
    Ok(met && guided && is_same(&found, &wanted) && is_same(&plain, &wanted))
}

// The number of those among 200 requests to which all searches give the same answer.
fn count_agreed(
    alloc: Global,
    seed: &mut u32,
    table: &Table,
    trees: &mut Trees,
) -> Result<u32, Fail>
    requires { AreTreesOf table.now trees.old }
    ensures { AreTreesOf table.now trees.new }
{
    let mut count = 0u32;
    for _request in 0..200 {
        let request = shaped_request(seed)?;
        if agree(alloc, table, &request, trees)? {
            count = count.saturating_add(1);
        }
    }
    Ok(count)
}

// The number of those among 200 requests in a new network to which all searches give the same
// answer. The network has this shape and metrics of this kind. `trees` is cleared first.
fn agreed(
    alloc: Global,
    seed: &mut u32,
    shape: u32,
    kind: u32,
    trees: &mut Trees,
) -> Result<u32, Fail> {
    let table = shaped_table(alloc, seed, shape, kind)?;
    trees.clear();
    count_agreed(alloc, seed, &table, trees)
}

// Requests that are answered with trees of lower bounds, grown at the first request, get the
// answers of the search by rounds. So do they by `best`, and requests without hops by the search from
// both ends, which leaves no request open, and by the search that a tree guides, which leaves none
// with a route open. The test checks 201,600 requests in 1,008 networks.
#[test]
fn shapes(rt: HostRuntime) -> Result<(), Fail> {
    let mut seed = 2463534242;
    let mut count = 0u32;
    let mut trees = Trees::from_ask(rt.alloc(), MOST_TREES, 1);
    for network in 0..1008 {
        count = count.saturating_add(agreed(
            rt.alloc(),
            &mut seed,
            network % 9,
            network / 9 % 3,
            &mut trees,
        )?);
    }
    assert!(rt; count == 1008 * 200, "{count}");
    Ok(())
}
