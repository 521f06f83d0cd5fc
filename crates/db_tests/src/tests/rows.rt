//! The rows of a table, which are its links, and the routers that the links join. Batches put and
//! remove the links in any order.
use super::edits::Edit::{Put, Remove};
use super::edits::{assert_case, batch_of, link};
use cspf_addr::Addr;
use cspf_db::Table;
use cspf_model::{Batch, Change, Link, LinkError};
use std::alloc::Global;
use std::process::Abort;
use std::test::Fail;

// The link at the index `n` of a full table. The links are in the order of their keys, and each of
// 1,024 routers has 16 links.
fn numbered(n: u32) -> Result<Link, LinkError> {
    let from = n / 16;
    let local = n % 16;
    link(from, local, (from + 1 + local * 64) % 1024, local)
}

// The index of the link that change `i` puts or removes. The indexes ascend if `order` is 0,
// descend if it is 1, and are mixed if it is 2.
fn nth(order: u32, i: u32) -> u32 {
    match order {
        0 => i % 16384,
        1 => 16383 - i % 16384,
        _ => i % 16384 * 4005 % 16384,
    }
}

// Puts all links, or removes every third link of each router, in the given order.
fn change_all(alloc: Global, table: &mut Table, order: u32, put: bool) -> Result<(), Fail> {
    for part in 0..4 {
        let first = part * 4096;
        let mut changes = Vec::new(alloc);
        for i in first..first + 4096 {
            let link = numbered(nth(order, i))?;
            let (from, local) = (link.from, link.local);
            if put {
                changes.push(Change::Put(link))?;
            } else if local.number() % 3 == 0 {
                changes.push(Change::Remove { from, local })?;
            }
        }
        table.absorb(&Batch { number: 1, changes });
    }
    Ok(())
}

// Whether a row of the table (a link) has the same routers and the same local address as the link
// at the index `n` of a full table.
fn is_numbered(row: Option<&Link>, n: u32) -> Result<bool, LinkError> {
    let link = numbered(n)?;
    Ok(match row {
        Some(row) => row.from == link.from && row.local == link.local && row.to == link.to,
        None => false,
    })
}

// Whether the table has exactly the links of a full table, in the order of their keys. If `dropped`
// is true, every third link of each router must be missing.
fn are_links(table: &Table, dropped: bool) -> Result<bool, LinkError> {
    let mut rows = table.links().iter();
    for n in 0..16384 {
        if dropped && n % 16 % 3 == 0 {
            continue;
        }
        if !is_numbered(rows.next(), n)? {
            return Ok(false);
        }
    }
    Ok(rows.next().is_none())
}

// Whether each of the links begins at the router `from`, and `ends` has for each link the index of
// the router where it ends.
fn are_ends(routers: &[Addr], from: Addr, out: &[Link], ends: &[u16]) -> bool {
    for (link, end) in out.iter().zip(ends) {
        if link.from != from || routers.get(*end as usize) != Some(&link.to) {
            return false;
        }
    }
    out.len() == ends.len()
}

// Whether the router has the index `at` and the links `out`, and `ends` has for each link the index
// of the router where it ends.
fn has_links(table: &Table, at: usize, router: Addr, out: &[Link], ends: &[u16]) -> bool {
    let is_one = table.place_of(router) == Some(at) && table.out(router).len() == out.len();
    is_one && are_ends(table.routers(), router, out, ends)
}

// Whether there are 1,024 routers, each with `count` links.
fn are_routers(table: &Table, count: usize) -> bool {
    for (at, router) in table.routers().iter().enumerate() {
        let (out, ends) = (table.out_at(at), table.ends_at(at));
        if out.len() != count || !has_links(table, at, *router, out, ends) {
            return false;
        }
    }
    table.routers().len() == 1024
}

// Puts all links, or removes every third link of each router. Afterwards, the rows of the table
// must be the remaining links.
fn assert_rows(
    rt: &impl Abort,
    alloc: Global,
    table: &mut Table,
    order: u32,
    put: bool,
) -> Result<(), Fail> {
    change_all(alloc, table, order, put)?;
    let holds = are_links(table, !put)? && are_routers(table, if put { 16 } else { 10 });
    assert_case(rt, "rows in order", order as usize, holds);
    Ok(())
}

// Puts all links in one order, and removes some of them in another order.
fn put_and_drop(rt: &impl Abort, alloc: Global, table: &mut Table, order: u32) -> Result<(), Fail> {
    assert_rows(rt, alloc, table, order, true)?;
    assert_rows(rt, alloc, table, 2u32.saturating_sub(order), false)
}

// Puts links into an empty table and removes some of them, as `put_and_drop` does.
fn put_and_drop_all(rt: &impl Abort, alloc: Global, order: u32) -> Result<(), Fail> {
    put_and_drop(rt, alloc, &mut Table::new(alloc)?, order)
}

#[test]
fn rows_in_any_order(rt: HostRuntime) -> Result<(), Fail> {
    for order in 0..3 {
        put_and_drop_all(&rt, rt.alloc(), order)?;
    }
    Ok(())
}

// Whether the router 1 has the index `one` and the router 2 has the index `two`. No link may begin
// at these two routers, and the table must have `routers` routers.
fn has_places(table: &Table, one: Option<usize>, two: Option<usize>, routers: usize) -> bool {
    let (first, second) = (Addr::new(1), Addr::new(2));
    let places = table.place_of(first) == one && table.place_of(second) == two;
    let no_links = table.out(first).is_empty() && table.out(second).is_empty();
    places && no_links && table.routers().len() == routers
}

// Puts a link to the router 1, and then removes this link.
fn come_and_go(rt: &impl Abort, alloc: Global, table: &mut Table) -> Result<(), Fail> {
    table.absorb(&batch_of(alloc, &[Put(0, 0, 1, 0)])?);
    assert_case(
        rt,
        "a router that comes",
        1,
        has_places(table, Some(1), None, 2),
    );
    table.absorb(&batch_of(alloc, &[Remove(0, 0)])?);
    assert_case(
        rt,
        "a router that goes",
        1,
        has_places(table, None, None, 0),
    );
    Ok(())
}

#[test]
fn routers_that_come_and_go(rt: HostRuntime) -> Result<(), Fail> {
    come_and_go(&rt, rt.alloc(), &mut Table::new(rt.alloc())?)
}

// Puts or removes the links between these pairs of routers in one batch.
fn change_pairs(
    alloc: Global,
    table: &mut Table,
    pairs: &[(u32, u32)],
    put: bool,
) -> Result<(), Fail> {
    let mut edits = Vec::new(alloc);
    for (from, to) in pairs {
        edits.push(if put {
            Put(*from, *to, *to, *from)
        } else {
            Remove(*from, *to)
        })?;
    }
    table.absorb(&batch_of(alloc, &edits)?);
    Ok(())
}

// Whether the routers have the addresses `names`, and `ends` has for each link the index of the
// router where it ends.
fn are_listed(table: &Table, names: &[u32]) -> bool {
    for (at, router) in table.routers().iter().enumerate() {
        let (out, ends) = (table.out_at(at), table.ends_at(at));
        let is_named = names.get(at) == Some(&router.number());
        if !is_named || !has_links(table, at, *router, out, ends) {
            return false;
        }
    }
    table.routers().len() == names.len()
}

const MANY: &[(u32, u32)] = &[
    (1, 2),
    (2, 3),
    (3, 4),
    (4, 5),
    (5, 6),
    (6, 7),
    (7, 8),
    (8, 9),
    (11, 12),
    (12, 13),
    (13, 14),
    (14, 21),
    (21, 22),
    (22, 31),
    (31, 32),
    (32, 33),
    (33, 34),
    (34, 1),
];

const ALL: &[u32] = &[
    1, 2, 3, 4, 5, 6, 7, 8, 9, 10, 11, 12, 13, 14, 20, 21, 22, 30, 31, 32, 33, 34,
];

// Pairs of routers, whether the links between them are put or removed, and the addresses of all
// routers after this step.
const STEPS: &[(&[(u32, u32)], bool, &[u32])] = &[
    (&[(10, 30), (30, 20), (20, 10)], true, &[10, 20, 30]),
    (
        &[(30, 5), (15, 40), (10, 25)],
        true,
        &[5, 10, 15, 20, 25, 30, 40],
    ),
    (&[(30, 5)], false, &[10, 15, 20, 25, 30, 40]),
    (&[(15, 40), (10, 25)], false, &[10, 20, 30]),
    (MANY, true, ALL),
    (MANY, false, &[10, 20, 30]),
];

fn join_and_part(rt: &impl Abort, alloc: Global, table: &mut Table) -> Result<(), Fail> {
    for (at, (pairs, put, names)) in STEPS.iter().enumerate() {
        change_pairs(alloc, table, pairs, *put)?;
        assert_case(rt, "pairs of routers", at, are_listed(table, names));
    }
    Ok(())
}

#[test]
fn routers_between_others(rt: HostRuntime) -> Result<(), Fail> {
    join_and_part(&rt, rt.alloc(), &mut Table::new(rt.alloc())?)
}
