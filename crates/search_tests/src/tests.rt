//! Answers of both searches and of trees: ties, reverses, unknown head-ends and tail-ends, and
//! hops. Also answers to requests for pairs of ways. Some networks are small and have known answers,
//! and others are drawn at random.

mod drawn;
mod excepts;
mod growth;
mod legs;
mod marks;
mod memory;
mod networks;
mod pairs;
mod shapes;
mod strict;

use cspf_addr::{Addr, Hops, Mask, parse_hops};
use cspf_db::Table;
use cspf_meet::best_from_both_ends;
use cspf_model::{Batch, Change, Link, Outcome, Request, Route};
use cspf_search::{Tree, best, best_by_rounds, best_by_tree};
use std::alloc::{AllocError, Global};
use std::process::Abort;
use std::test::Fail;

// The four routers 1.1.1.1 to 4.4.4.4.
const ONE: u32 = 0x0101_0101;

const TWO: u32 = 0x0202_0202;

const THREE: u32 = 0x0303_0303;

const FOUR: u32 = 0x0404_0404;

// A link: its router and interface at the start, its router and interface at the end, the metric,
// and the unreserved bandwidth at the priorities 0 to 6. At priority 7 no bandwidth is unreserved.
// The groups are 0x6.
type Row = (u32, u32, u32, u32, u32, u64);

// Four routers in a square. ONE reaches FOUR over TWO at a cost of 2, and over THREE at a cost of
// 4. The link between TWO and THREE has no unreserved bandwidth.
const SQUARE: &[Row] = &[
    (ONE, 0x0a00_0c01, TWO, 0x0a00_0c02, 1, 1000),
    (TWO, 0x0a00_1802, FOUR, 0x0a00_1804, 1, 1000),
    (ONE, 0x0a00_0d01, THREE, 0x0a00_0d03, 2, 1000),
    (THREE, 0x0a00_2203, FOUR, 0x0a00_2204, 2, 1000),
    (TWO, 0x0a00_1702, THREE, 0x0a00_1703, 1, 0),
];

// The routes over TWO and over THREE.
const BY_TWO: &[u32] = &[0x0a00_0c02, 0x0a00_1804];

const BY_THREE: &[u32] = &[0x0a00_0d03, 0x0a00_2204];

fn link(row: &Row) -> Result<Link, Fail> {
    let (from, local, to, remote, metric, free) = *row;
    let (from, local) = (Addr::new(from), Addr::new(local));
    let (to, remote) = (Addr::new(to), Addr::new(remote));
    let free = [free, free, free, free, free, free, free, 0];
    Ok(Link::new(from, local, to, remote, metric, Mask::new(0x6), free)?)
}

// A table that has absorbed these changes.
fn table_of(alloc: Global, changes: &[Change]) -> Result<Table, AllocError> {
    let mut table = Table::new(alloc)?;
    change(alloc, &mut table, changes)?;
    Ok(table)
}

// Applies the changes, which must fit, as one batch.
fn change(alloc: Global, table: &mut Table, changes: &[Change]) -> Result<(), AllocError> {
    let changes = Vec::from_slice(alloc, changes)?;
    table.absorb(&Batch { number: 1, changes });
    Ok(())
}

// A table of these links, without their reverses.
fn one_way(alloc: Global, rows: &[Row]) -> Result<Table, Fail> {
    let mut changes = Vec::new(alloc);
    for row in rows {
        changes.push(Change::Put(link(row)?))?;
    }
    Ok(table_of(alloc, &changes)?)
}

// The reverse of a link, without unreserved bandwidth.
fn reverse(row: &Row) -> Row {
    let (from, local, to, remote, metric, _free) = *row;
    (to, remote, from, local, metric, 0)
}

// Whether `rows` has a link that begins and ends at the same routers and interfaces as `other`.
fn runs(rows: &[Row], other: &Row) -> bool {
    let mut found = false;
    for row in rows {
        let ends = row.0 == other.0 && row.2 == other.2;
        found = found || (ends && row.1 == other.1 && row.3 == other.3);
    }
    found
}

// A table of these links, and of a reverse for each link whose reverse isn't among them.
fn table(alloc: Global, rows: &[Row]) -> Result<Table, Fail> {
    let mut both = Vec::new(alloc);
    for row in rows {
        both.push(*row)?;
        let back = reverse(row);
        if !runs(rows, &back) {
            both.push(back)?;
        }
    }
    one_way(alloc, &both)
}

// A change that marks a router as without transit, or gives it transit again.
fn node(router: u32, transit: bool) -> Change {
    Change::Node {
        router: Addr::new(router),
        transit,
    }
}

// Marks the routers as without transit.
fn mark(alloc: Global, table: &mut Table, routers: &[u32]) -> Result<(), AllocError> {
    let mut changes = Vec::new(alloc);
    for router in routers {
        changes.push(node(*router, false))?;
    }
    change(alloc, table, &changes)
}

// A request for 1,000 bytes per second with this setup priority, these three affinity masks and
// these hops.
fn request(
    ends: (u32, u32),
    setup: u8,
    masks: (u32, u32, u32),
    hops: &[u8],
) -> Result<Request, Fail> {
    let (from, to) = (Addr::new(ends.0), Addr::new(ends.1));
    let (exclude, any, all) = (Mask::new(masks.0), Mask::new(masks.1), Mask::new(masks.2));
    let hops = parse_hops(hops)?;
    Ok(Request::new(1, from, to, setup, 1000, exclude, any, all, hops)?)
}

// The request, but without hops.
fn without_hops(request: &Request) -> Request {
    let mut direct = *request;
    direct.hops = Hops::none();
    direct
}

// The next pseudo-random number.
fn draw(seed: &mut u32) -> u32 {
    let mut x = *seed;
    x ^= (x & 0x7_ffff) << 13;
    x ^= x >> 17;
    x ^= (x & 0x7ff_ffff) << 5;
    *seed = x;
    x
}

// Fails if the two outcomes differ, and then shows both.
fn check_same(outcome: &Outcome, other: &Outcome) -> Result<(), Fail> {
    if is_same(outcome, other) {
        Ok(())
    } else {
        Err(Fail::new(format_args!("{outcome:?} and {other:?}")))
    }
}

// The answer that is found with a tree, or `None` if no link begins or ends at the tail-end.
fn by_tree(alloc: Global, table: &Table, request: &Request) -> Result<Option<Outcome>, Fail> {
    match Tree::grow(alloc, table, request)? {
        Some(tree) => Ok(Some(best_by_tree(alloc, table, request, &tree)?)),
        None => Ok(None),
    }
}

// The answer of `best`. Fails if the search by rounds, the search with a tree, or for a request
// without hops the search from both ends gives another answer.
fn answered(alloc: Global, table: &Table, request: &Request) -> Result<Outcome, Fail> {
    let outcome = best(alloc, table, request)?;
    check_same(&outcome, &best_by_rounds(alloc, table, request)?)?;
    if let Some(other) = by_tree(alloc, table, request)? {
        check_same(&outcome, &other)?;
    }
    if request.hops.is_empty() {
        let other = best_from_both_ends(alloc, table, request)?;
        check_same(&outcome, &other.ok_or("left open")?)?;
    }
    Ok(outcome)
}

// Whether two outcomes are the same.
fn is_same(a: &Outcome, b: &Outcome) -> bool {
    match (a, b) {
        (Outcome::Route(x), Outcome::Route(y)) => {
            x.links() == y.links() && x.cost() == y.cost() && x.again() == y.again()
        }
        (Outcome::NoRoute, Outcome::NoRoute) => true,
        (Outcome::UnknownFrom, Outcome::UnknownFrom) => true,
        (Outcome::UnknownTo, Outcome::UnknownTo) => true,
        _ => false,
    }
}

// The answer that a request must get.
#[derive(Clone, Copy, Debug)]
enum Wanted {
    // A route of this cost. Its links have these remote addresses.
    Route(u64, &'static [u32]),
    // A route of this cost that visits a router twice. Its links have these remote addresses.
    Again(u64, &'static [u32]),
    NoRoute,
    UnknownFrom,
    UnknownTo,
}

// Whether the route has this cost and links with these remote addresses.
fn is_along(route: &Route, cost: u64, remotes: &[u32]) -> bool {
    let mut same = route.links().len() == remotes.len();
    for (link, remote) in route.links().iter().zip(remotes) {
        same = same && link.remote.number() == *remote;
    }
    same && route.cost() == cost
}

// Whether the outcome is a route of this cost whose links have these remote addresses. `again` says
// whether the route must visit a router twice.
fn is_route(outcome: &Outcome, cost: u64, again: bool, remotes: &[u32]) -> bool {
    let Outcome::Route(route) = outcome else {
        return false;
    };
    is_along(route, cost, remotes) && route.again() == again
}

// Whether the outcome is the wanted answer.
fn is_wanted(outcome: &Outcome, wanted: Wanted) -> bool {
    match wanted {
        Wanted::Route(cost, remotes) => is_route(outcome, cost, false, remotes),
        Wanted::Again(cost, remotes) => is_route(outcome, cost, true, remotes),
        Wanted::NoRoute => matches!(outcome, Outcome::NoRoute),
        Wanted::UnknownFrom => matches!(outcome, Outcome::UnknownFrom),
        Wanted::UnknownTo => matches!(outcome, Outcome::UnknownTo),
    }
}

// A case: the routers that are marked as without transit, the head-end and the tail-end, the hops,
// and the wanted answer.
type Case = (&'static [u32], (u32, u32), &'static [u8], Wanted);

// A network: its links, whether the table also gets the reverses of the links, and the cases.
type Network = (&'static [Row], bool, &'static [Case]);

// The answer to the request of a case in a network of these links. If `both` is true, the table
// also has the reverses of the links.
fn answer_of(alloc: Global, rows: &[Row], both: bool, case: &Case) -> Result<Outcome, Fail> {
    let (marks, ends, hops, _) = *case;
    let mut table = if both {
        table(alloc, rows)?
    } else {
        one_way(alloc, rows)?
    };
    mark(alloc, &mut table, marks)?;
    answered(alloc, &table, &request(ends, 0, (0, 0, 0), hops)?)
}

// Fails if a case of one of the networks doesn't get its wanted answer.
fn assert_networks(rt: &impl Abort, alloc: Global, networks: &[Network]) -> Result<(), Fail> {
    for (rows, both, cases) in networks {
        for case in *cases {
            let found = answer_of(alloc, rows, *both, case)?;
            assert!(rt; is_wanted(&found, case.3), "{rows:?} {case:?}: {found:?}");
        }
    }
    Ok(())
}
