//! Networks that are drawn at random, in which both searches and the trees must agree. In some
//! networks, routers are marked as without transit. Such a network must give the same answers as
//! another network without marked routers, in which the links from those routers have no unreserved
//! bandwidth.

ghost use Rattle.cspf_trees.specs.Trees.{AreTreesOf};

use super::{Row, answered, check_same, draw, is_same, mark, one_way, request, without_hops};
use cspf_db::Table;
use cspf_model::{Outcome, Request};
use cspf_search::best;
use cspf_trees::{MOST_TREES, Trees};
use std::alloc::{AllocError, Global};
use std::test::Fail;

// A random metric that depends on the kind of the network: from 0 to 3 for kind 0, so that routes
// tie; always 1 for kind 1; or from 1 to 1,000.
fn drawn_metric(seed: &mut u32, kind: u32) -> u32 {
    match kind {
        0 => draw(seed) % 4,
        1 => 1,
        _ => 1 + draw(seed) % 1000,
    }
}

// A link between two interfaces. One in eight such links has no unreserved bandwidth.
fn drawn_link(seed: &mut u32, kind: u32, from: (u32, u32), to: (u32, u32)) -> Row {
    let metric = drawn_metric(seed, kind);
    let free = if draw(seed) % 8 == 0 { 0 } else { 1000 };
    (router(from.0), from.1, router(to.0), to.1, metric, free)
}

// The links of a network of 12 routers: 24 links, and the reverses of most of them.
fn drawn(alloc: Global, seed: &mut u32) -> Result<Vec<Row>, Fail> {
    let kind = draw(seed) % 3;
    let mut rows = Vec::new(alloc);
    for number in 0..24 {
        let from = draw(seed) % 12;
        let to = (from + 1 + draw(seed) % 11) % 12;
        let local = (draw(seed) % 4) * 256 + number;
        let remote = (draw(seed) % 4) * 256 + 128 + number;
        rows.push(drawn_link(seed, kind, (from, local), (to, remote)))?;
        if draw(seed) % 10 > 0 {
            rows.push(drawn_link(seed, kind, (to, remote), (from, local)))?;
        }
    }
    Ok(rows)
}

// The routers of a network that are marked as without transit. A third of the networks have one to
// three such routers, and the other networks have none.
fn drawn_marks(alloc: Global, seed: &mut u32) -> Result<Vec<u32>, AllocError> {
    let mut marks = Vec::new(alloc);
    let most = if draw(seed) % 3 == 0 {
        1 + draw(seed) % 3
    } else {
        0
    };
    for _ in 0..most {
        let marked = router(draw(seed));
        if !marks.contains(&marked) {
            marks.push(marked)?;
        }
    }
    Ok(marks)
}

// A table without marked routers that gives the requests from `from` the same answers as the
// network in which the routers `marks` are without transit. Two kinds of links have no unreserved
// bandwidth in this table: the links from the routers `marks` other than `from`, and the links to
// `from`. If `from` is 0, the table fits the requests from all routers that aren't in `marks`.
fn unmarked(alloc: Global, rows: &[Row], marks: &[u32], from: u32) -> Result<Table, Fail> {
    let mut open = Vec::new(alloc);
    for row in rows {
        let mut row = *row;
        if row.2 == from || (row.0 != from && marks.contains(&row.0)) {
            row.5 = 0;
        }
        open.push(row)?;
    }
    one_way(alloc, &open)
}

// The address of a router. The routers 0 to 3 have addresses in 10.0.0.0/30, and the routers 4 to
// 11 have other addresses in 10.0.0.0/28.
fn router(number: u32) -> u32 {
    0x0a00_0000 + number % 12
}

const HOPS: [&[u8]; 6] = [
    b"",
    b"10.0.0.0/30l",
    b"10.0.0.0/30s",
    b"10.0.0.4/30s 10.0.0.0/29s",
    b"10.0.0.0/28s 10.0.0.8/30l 10.0.0.0/30s",
    b"0.0.1.0/24l 10.0.0.1/32l 10.0.0.0/28s",
];

// A request with these hops between two random routers.
pub(super) fn drawn_request(seed: &mut u32, hops: &[u8]) -> Result<Request, Fail> {
    let from = draw(seed) % 12;
    let to = from + 1 + draw(seed) % 11;
    request((router(from), router(to)), 0, (0, 0, 0), hops)
}

// A network and its routers that are marked as without transit, with two tables: `marked`, in which
// these routers are marked, and `open`, which comes from `unmarked` and has no marked router.
#[derive(Drop)]
pub(super) struct DrawnNetwork {
    rows: Vec<Row>,
    marks: Vec<u32>,
    pub(super) marked: Table,
    open: Table,
}

pub(super) fn drawn_network(alloc: Global, seed: &mut u32) -> Result<DrawnNetwork, Fail> {
    let (rows, marks) = (drawn(alloc, seed)?, drawn_marks(alloc, seed)?);
    let mut marked = one_way(alloc, &rows)?;
    mark(alloc, &mut marked, &marks)?;
    let open = unmarked(alloc, &rows, &marks, 0)?;
    Ok(DrawnNetwork {
        rows,
        marks,
        marked,
        open,
    })
}

// The answer of a table without marked routers, which must be the same as that of the network with
// its marked routers. A marked router is without transit.
fn without_marks(
    alloc: Global,
    network: &DrawnNetwork,
    request: &Request,
) -> Result<Outcome, Fail> {
    let from = request.from.number();
    if network.marks.contains(&from) {
        let open = unmarked(alloc, &network.rows, &network.marks, from)?;
        Ok(best(alloc, &open, request)?)
    } else {
        Ok(best(alloc, &network.open, request)?)
    }
}

// Fails if the trees don't give this outcome for the request this number of times.
fn check_asks(
    alloc: Global,
    table: &Table,
    request: &Request,
    outcome: &Outcome,
    times: u32,
    trees: &mut Trees,
) -> Result<(), Fail>
    requires { AreTreesOf table.now trees.old }
    ensures { AreTreesOf table.now trees.new }
{
    for _ask in 0..times {
        let found = trees.best(alloc, table, request)?;
        check_same(outcome, &found)?;
    }
    Ok(())
}

// Whether a request has a route. Fails if the trees give another answer than the searches, before
// or after they have a tree for the request's tail-end and affinities. They make this tree while
// they answer the request without its hops six times. If the network has routers that are marked as
// without transit, the function also fails if the table without marked routers gives another answer.
fn has_route(
    alloc: Global,
    network: &DrawnNetwork,
    request: &Request,
    trees: &mut Trees,
) -> Result<bool, Fail>
    requires { AreTreesOf network.now.marked trees.old }
    ensures { AreTreesOf network.now.marked trees.new }
{
    let outcome = answered(alloc, &network.marked, request)?;
    let direct = without_hops(request);
    let found = answered(alloc, &network.marked, &direct)?;
    check_asks(alloc, &network.marked, request, &outcome, 3, trees)?;
    check_asks(alloc, &network.marked, &direct, &found, 6, trees)?;
    check_asks(alloc, &network.marked, request, &outcome, 3, trees)?;
    if !network.marks.is_empty() {
        let wanted = without_marks(alloc, network, request)?;
        if !is_same(&outcome, &wanted) {
            return Err(Fail::new(format_args!("{outcome:?} and {wanted:?}")));
        }
    }
    Ok(matches!(outcome, Outcome::Route(_)))
}

// The number of those among 16 requests in a random network that have a route. `trees` is cleared
// first.
fn drawn_routes(alloc: Global, seed: &mut u32, trees: &mut Trees) -> Result<u32, Fail> {
    let network = drawn_network(alloc, seed)?;
    trees.clear();
    let mut routes = 0u32;
    for i in 0..16 {
        let request = drawn_request(seed, HOPS[i % 6])?;
        if has_route(alloc, &network, &request, trees)? {
            routes = routes.saturating_add(1);
        }
    }
    Ok(routes)
}

// In 125 networks, some of them with routers marked as without transit, both searches and the trees
// give the same answers to 2,000 requests.
#[test]
fn drawn_networks(rt: HostRuntime) -> Result<(), Fail> {
    let mut seed = 2463534242;
    let mut routes = 0u32;
    let mut trees = Trees::from_ask(rt.alloc(), MOST_TREES, 6);
    for _network in 0..125 {
        routes = routes.saturating_add(drawn_routes(rt.alloc(), &mut seed, &mut trees)?);
    }
    assert!(rt; routes > 1000, "{routes}");
    Ok(())
}
