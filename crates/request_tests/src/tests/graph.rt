//! Tests cases that were worked out by hand on small tables. They check which links a request may
//! use, and which routers a walk may leave. They also check where the legs of a route may end, and
//! through which routers the legs may pass.

ghost use Rattle.std.specs.Prelude.{◌≡◌, IfOk, length};

use super::assert_case;
use cspf_addr::{Addr, Hop, Hops, Mask, Prefix};
use cspf_db::Table;
use cspf_graph::{Roles, accepts, admissible, find_roles, inside, may_leave, may_leave_at, member};
use cspf_model::{Batch, Change, Link, Request};
use std::alloc::{AllocError, Global};
use std::process::Abort;
use std::test::Fail;

// A link in the groups 1 and 2 (mask 0x6), with 1,000 bytes per second unreserved at all priorities
// except 7.
fn link(from: u32, local: u32, to: u32) -> Result<Link, Fail> {
    let (from, local, to, remote) = (
        Addr::new(from),
        Addr::new(local),
        Addr::new(to),
        Addr::new(7),
    );
    let free = [1000, 1000, 1000, 1000, 1000, 1000, 1000, 0];
    Ok(Link::new(from, local, to, remote, 1, Mask::new(0x6), free)?)
}

// A link in the other direction: from the router and interface where `link` ends to the router
// where `link` begins. It is in another group and has no bandwidth. If `remote` is the local
// address of `link`, it is the reverse of `link`.
fn back(link: &Link, remote: Addr) -> Result<Link, Fail> {
    let group = Mask::new(0x8);
    Ok(Link::new(link.to, link.remote, link.from, remote, 9, group, [0; 8])?)
}

// A request from router 1 to router 3 through the hop 11.0.0.0/8.
fn request(setup: u8, masks: (u32, u32, u32), loose: bool) -> Result<Request, Fail>
    ensures { IfOk result (λ q. length q.hops ≡ 1) }
{
    let prefix = Prefix::new(Addr::new(0x0b00_0000), 8)?;
    let mut hops = Hops::none();
    hops.push(Hop { prefix, loose });
    let (from, to) = (Addr::new(1), Addr::new(3));
    let (exclude, any, all) = (Mask::new(masks.0), Mask::new(masks.1), Mask::new(masks.2));
    Ok(Request::new(5, from, to, setup, 1000, exclude, any, all, hops)?)
}

// A setup priority, the three affinity masks, and whether a request with these values accepts the
// link of the test `accepted_links`.
const ACCEPTED: &[(u8, (u32, u32, u32), bool)] = &[
    (0, (0, 0, 0), true),
    (7, (0, 0, 0), false),
    (6, (0x1, 0x2, 0x6), true),
    (0, (0x4, 0, 0), false),
    (0, (0, 0x9, 0), false),
    (0, (0, 0, 0x7), false),
];

#[test]
fn accepted_links(rt: HostRuntime) -> Result<(), Fail> {
    let link = link(1, 2, 3)?;
    for (at, (setup, masks, wanted)) in ACCEPTED.iter().enumerate() {
        let asked = request(*setup, *masks, false)?;
        let found = accepts(&link, &asked);
        assert_case(&rt, "an accepted link", at, found == *wanted);
    }
    Ok(())
}

// Applies a batch of these changes to the table.
fn change(alloc: Global, table: &mut Table, changes: &[Change]) -> Result<(), AllocError> {
    let changes = Vec::from_slice(alloc, changes)?;
    table.absorb(&Batch { number: 1, changes });
    Ok(())
}

// Whether `link` and `reverse` are admissible for exactly the right requests. For a request without
// affinities, `link` has to be admissible exactly if `wanted` is true, and `reverse` must not be
// admissible. For a request that excludes a group of `link`, `link` must not be admissible.
fn is_usable(table: &Table, link: &Link, reverse: &Link, wanted: bool) -> Result<bool, Fail> {
    let accepting = request(0, (0, 0, 0), false)?;
    let refusing = request(0, (0x4, 0, 0), false)?;
    let found = admissible(table, link, &accepting);
    let others = admissible(table, link, &refusing) || admissible(table, reverse, &accepting);
    Ok(found == wanted && !others)
}

// Puts a link, puts its reverse, removes the reverse, and puts another link in the reverse's
// direction. Checks after each change whether the first link is admissible.
fn change_back(rt: &impl Abort, alloc: Global, table: &mut Table) -> Result<(), Fail> {
    let link = link(1, 2, 3)?;
    let (reverse, other) = (back(&link, link.local)?, back(&link, Addr::new(8))?);
    let (from, local) = (reverse.from, reverse.local);
    let steps = [
        (Change::Put(link), false),
        // The link is admissible, although its reverse is in another group and has no bandwidth.
        // The reverse itself isn't admissible, since it has no bandwidth.
        (Change::Put(reverse), true),
        (Change::Remove { from, local }, false),
        // a link back that ends at another interface address of router 1 isn't the reverse of the
        // link
        (Change::Put(other), false),
    ];
    for (at, (step, wanted)) in steps.iter().enumerate() {
        change(alloc, table, &[*step])?;
        let is_usable = is_usable(table, &link, &reverse, *wanted)?;
        assert_case(rt, "an admissible link", at, is_usable);
    }
    Ok(())
}

#[test]
fn admissible_links(rt: HostRuntime) -> Result<(), Fail> {
    change_back(&rt, rt.alloc(), &mut Table::new(rt.alloc())?)
}

// Two changes that put one link each: from router 1 to router 2, and from router 2 to router 3. The
// local address of the second link is in the prefix of the request's hop.
fn two_links() -> Result<[Change; 2], Fail> {
    let first = link(1, 0x0a00_0001, 2)?;
    Ok([Change::Put(first), Change::Put(link(2, 0x0b00_0002, 3)?)])
}

// Routers. Each has flags: whether the legs 0, 1 and 2 may end at the router, and whether leg 1 may
// pass through it if leg 1 is strict.
const TARGETS: &[(u32, [bool; 3], bool)] = &[
    (1, [true, false, false], true),
    (2, [false, true, false], true),
    (3, [false, false, true], false),
    (9, [false, false, false], false),
];

// Whether `targets` is right for this router. It says of the legs 0, 1 and 2 (parts of the route
// between hops) whether the leg may end at the router.
fn is_target(table: &Table, router: Addr, targets: [bool; 3]) -> Result<bool, Fail> {
    let strict = request(7, (0, 0, 0), false)?;
    let first = member(table, router, 0, &strict) == targets[0];
    let second = member(table, router, 1, &strict) == targets[1];
    Ok(first && second && member(table, router, 2, &strict) == targets[2])
}

// Whether `inside` is right about the legs in which a route may visit the router. In a strict leg 1
// this has to be allowed exactly if `wanted` is true. In a loose leg 1 and in leg 2 it always has
// to be allowed.
fn is_inside(table: &Table, router: Addr, wanted: bool) -> Result<bool, Fail> {
    let strict = request(7, (0, 0, 0), false)?;
    let loose = request(7, (0, 0, 0), true)?;
    let first = inside(table, router, 1, &strict) == wanted;
    Ok(first && inside(table, router, 1, &loose) && inside(table, router, 2, &strict))
}

fn assert_targets(rt: &impl Abort, table: &Table) -> Result<(), Fail> {
    for (number, targets, within) in TARGETS {
        let router = Addr::new(*number);
        let is_target = is_target(table, router, *targets)?;
        let is_inside = is_inside(table, router, *within)?;
        assert_case(rt, "a target", *number as usize, is_target && is_inside);
    }
    Ok(())
}

// The prefix of the hop covers an address of router 2, and of no other router. This is the address
// of router 2's interface on a link that the request can't use.
#[test]
fn targets_of_legs(rt: HostRuntime) -> Result<(), Fail> {
    let (there, third) = (two_links()?, Change::Put(link(3, 0x0a00_0003, 1)?));
    let mut table = Table::new(rt.alloc())?;
    change(rt.alloc(), &mut table, &[there[0], there[1], third])?;
    assert_targets(&rt, &table)
}

// A change that marks a router as without transit.
fn stub(number: u32) -> Change {
    let router = Addr::new(number);
    let transit = false;
    Change::Node { router, transit }
}

// A router, and whether a walk may leave it after no link, after one link, and after 2^32 - 1
// links, the greatest number that `may_leave` accepts.
const MAY_LEAVE: &[(u32, [bool; 3])] = &[
    (1, [true, true, true]),
    (2, [true, true, true]),
    (3, [true, false, false]),
    (9, [true, false, false]),
];

// Whether `may_leave` returns `wanted` for a walk of `links` links that ends at the router. If the
// table has the router, `may_leave_at` has to return the same for the router's index.
fn goes_on(table: &Table, router: Addr, links: u32, wanted: bool) -> bool {
    let by_place = match table.place_of(router) {
        Some(place) => may_leave_at(table, place, links) == wanted,
        None => true,
    };
    by_place && may_leave(table, router, links) == wanted
}

fn assert_may_leave(rt: &impl Abort, table: &Table) {
    for (number, may) in MAY_LEAVE {
        let router = Addr::new(*number);
        let at_first = goes_on(table, router, 0, may[0]);
        let later = goes_on(table, router, 1, may[1]) && goes_on(table, router, u32::MAX, may[2]);
        assert_case(rt, "goes on from", *number as usize, at_first && later);
    }
    assert_case(rt, "routers", 2, table.routers().len() == 2);
}

#[test]
fn routers_that_walks_go_on_from(rt: HostRuntime) -> Result<(), Fail> {
    let changes = [Change::Put(link(1, 2, 3)?), stub(3), stub(9)];
    let mut table = Table::new(rt.alloc())?;
    change(rt.alloc(), &mut table, &changes)?;
    assert_may_leave(&rt, &table);
    Ok(())
}

// A role says how a route may visit one router in one leg (the part of a route from hop to hop).
// Each entry has the role's index in `Roles::states`, whether a link may lead a route to the router
// in this leg, and whether the leg may end there.
const ROLES: &[(usize, bool, bool)] = &[
    (0, false, false),
    (1, true, true),
    (2, false, false),
    (1024, false, false),
    (1025, true, false),
    (1026, true, true),
];

// Whether `roles` has a role with these values of `enter` and `target` at this index.
fn has_role(roles: &Roles, at: usize, enter: bool, target: bool) -> bool {
    match roles.states.get(at) {
        Some(role) => role.enter == enter && role.target == target,
        None => false,
    }
}

// Whether the leg to the only hop may end at the router with the index 1, and at no other router.
fn ends_at_1(roles: &Roles) -> bool {
    match roles.targets.as_slice() {
        [targets] => targets.as_slice() == [1].as_slice(),
        _ => false,
    }
}

fn assert_roles(rt: &impl Abort, roles: &Roles) {
    for (at, enter, target) in ROLES {
        assert_case(rt, "a role", *at, has_role(roles, *at, *enter, *target));
    }
    assert_case(rt, "targets", 1, ends_at_1(roles));
}

// The roles of each router in each leg of a route for this request. The result is `None` if the
// table doesn't have the head-end or the tail-end.
fn roles_of(alloc: Global, table: &Table, asked: &Request) -> Result<Option<Roles>, AllocError> {
    match (table.place_of(asked.from), table.place_of(asked.to)) {
        (Some(from), Some(to)) => Ok(Some(find_roles(alloc, table, asked, from, to)?)),
        _ => Ok(None),
    }
}

// The prefix of the strict hop covers an address of router 2, and of no other router. The head-end
// 1 and the tail-end 3 are marked as without transit.
#[test]
fn roles_in_legs(rt: HostRuntime) -> Result<(), Fail> {
    let (links, asked) = (two_links()?, request(0, (0, 0, 0), false)?);
    let changes = [links[0], links[1], stub(1), stub(3)];
    let mut table = Table::new(rt.alloc())?;
    change(rt.alloc(), &mut table, &changes)?;
    let roles = roles_of(rt.alloc(), &table, &asked)?;
    assert_roles(&rt, &roles.ok_or("no router 1 or 3")?);
    Ok(())
}
