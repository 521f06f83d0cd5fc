//! What a table does with batches: it replaces links, refuses changes, and accepts batches that fit
//! when it is full. Also which fields and keys links and requests have.
use super::edits::Edit::{self, Node, Put, Remove};
use super::edits::{answer, answers, assert_case, batch_of, link};
use cspf_addr::{Addr, Hop, Hops, Mask, Prefix};
use cspf_db::Table;
use cspf_model::{Batch, Change, Link, LinkError, Refusal, Request, RequestError};
use std::alloc::Global;
use std::process::Abort;
use std::test::Fail;

const ONE: u32 = 16843009; // 1.1.1.1

const TWO: u32 = 33686018; // 2.2.2.2

const THREE: u32 = 50529027; // 3.3.3.3

const INTERFACE: u32 = 167775233; // 10.0.12.1

// Changes that put links from 1.1.1.1 to 2.2.2.2 with different local addresses. The addresses of a
// link's two interfaces differ in their last bit.
const FIRST: Edit = Put(ONE, 0, TWO, 1);

const FIVE: Edit = Put(ONE, 5, TWO, 4);

const SEVEN: Edit = Put(ONE, 7, TWO, 6);

const LAST: Edit = Put(ONE, 16384, TWO, 16385);

// The link from 1.1.1.1 to 2.2.2.2 with the local address `local`. Its remote address differs from
// `local` in the last bit.
fn one_to_two(local: u32) -> Result<Link, LinkError> {
    link(ONE, local, TWO, local ^ 1)
}

// A batch that puts links from 1.1.1.1 to 2.2.2.2. The links' local addresses are the numbers from
// `first` to `end` - 1.
fn puts(alloc: Global, first: u32, end: u32) -> Result<Batch, Fail> {
    let mut changes = Vec::new(alloc);
    for local in first..end {
        changes.push(Change::Put(one_to_two(local)?))?;
    }
    Ok(Batch { number: 1, changes })
}

// The link from 1.1.1.1 to 3.3.3.3 with the local address 5. Its other attributes differ from those
// of `one_to_two`.
fn other_link() -> Result<Link, LinkError> {
    Link::new(
        Addr::new(ONE),
        Addr::new(5),
        Addr::new(THREE),
        Addr::new(9),
        20,
        Mask::new(2),
        [0, 1, 2, 3, 4, 5, 6, 7],
    )
}

// Whether a link leads from 1.1.1.1, with the local address 5, to the router and the interface in
// `to`. The link must also have the metric and the group in `of_links`, and the unreserved
// bandwidths `free`.
fn has_fields(link: &Link, to: (u32, u32), of_links: (u32, u32), free: [u64; 8]) -> bool {
    let from = (link.from.number(), link.local.number());
    let ends = from == (ONE, 5) && (link.to.number(), link.remote.number()) == to;
    ends && (link.metric, link.group.bits()) == of_links && link.free == free
}

// Whether a change has the key of the link from 1.1.1.1 with this local address.
fn is_on_key(edit: Edit, local: u32) -> Result<bool, LinkError> {
    let (from, interface) = edit.change()?.key();
    Ok(from.number() == ONE && interface == Some(Addr::new(local)))
}

#[test]
fn links(rt: HostRuntime) -> Result<(), Fail> {
    let own = link(ONE, 5, ONE, 4) == Err(LinkError::SelfLink);
    assert_case(&rt, "a link to its own router", 0, own);
    let (five, other) = (one_to_two(5)?, other_link()?);
    let fields = has_fields(&five, (TWO, 4), (10, 1), [1000; 8]);
    assert_case(&rt, "fields", 0, fields);
    let fields = has_fields(&other, (THREE, 9), (20, 2), [0, 1, 2, 3, 4, 5, 6, 7]);
    assert_case(&rt, "fields", 1, fields);
    assert_case(&rt, "the key of a put", 0, is_on_key(FIVE, 5)?);
    assert_case(
        &rt,
        "the key of a removal",
        0,
        is_on_key(Remove(ONE, 6), 6)?,
    );
    Ok(())
}

// The reason for which a request with this setup priority and with the same head-end and tail-end
// is refused.
fn refusal(setup: u8) -> Option<RequestError> {
    let (one, none) = (Addr::new(ONE), Mask::new(0));
    Request::new(7, one, one, setup, 1, none, none, none, Hops::none()).err()
}

// A request with this id from 1.1.1.1 to 2.2.2.2.
fn request(id: u64, hops: Hops) -> Result<Request, RequestError> {
    let (one, two) = (Addr::new(ONE), Addr::new(TWO));
    let (low, middle, high) = (Mask::new(1), Mask::new(2), Mask::new(4));
    Request::new(id, one, two, 7, 9, low, middle, high, hops)
}

// Whether a request has the same fields as one that the function `request` makes.
fn is_request(request: &Request, id: u64, hops: Hops) -> bool {
    let numbers = request.id == id && request.setup == 7 && request.bandwidth == 9;
    let ends = request.from.number() == ONE && request.to.number() == TWO;
    let (exclude_any, include_any) = (request.exclude_any.bits(), request.include_any.bits());
    let of_links = exclude_any == 1 && include_any == 2 && request.include_all.bits() == 4;
    numbers && ends && of_links && request.hops == hops
}

#[test]
fn requests(rt: HostRuntime) -> Result<(), Fail> {
    let high = refusal(8) == Some(RequestError::Priority);
    assert_case(&rt, "a setup priority", 8, high);
    let same = refusal(7) == Some(RequestError::SameEnds);
    assert_case(&rt, "the same ends", 7, same);
    let (prefix, mut hops) = (Prefix::new(Addr::new(TWO), 32)?, Hops::none());
    let loose = true;
    hops.push(Hop { prefix, loose });
    assert_case(&rt, "fields", 0, is_request(&request(8, hops)?, 8, hops));
    Ok(())
}

// Whether a batch has this number and these changes.
fn is_batch(batch: &Batch, number: u32, changes: &[Change]) -> bool {
    batch.number == number && batch.changes.as_slice() == changes
}

// Whether the copy of a batch doesn't change when a change is removed from the batch.
fn is_copied(alloc: Global, batch: &mut Batch, changes: &[Change]) -> Result<bool, Fail> {
    let copy = batch.copy(alloc)?;
    let _ = batch.changes.pop();
    Ok(is_batch(&copy, 1, changes))
}

#[test]
fn a_copied_batch(rt: HostRuntime) -> Result<(), Fail> {
    let edits = [FIVE, Remove(ONE, 6)];
    let wanted = [edits[0].change()?, edits[1].change()?];
    let is_copied = is_copied(rt.alloc(), &mut batch_of(rt.alloc(), &edits)?, &wanted)?;
    assert_case(&rt, "a copy", 0, is_copied);
    Ok(())
}

// Whether the table accepts the changes: by one call if `at_once` is true, and otherwise by two.
// After the changes, the table must have exactly these links, and must find them by their keys.
fn leaves(
    alloc: Global,
    table: &mut Table,
    at_once: bool,
    changes: &[Change],
    links: &[Link],
) -> Result<bool, Fail> {
    let changes = Vec::from_slice(alloc, changes)?;
    let fits = answer(table, &Batch { number: 1, changes }, at_once) == Ok(());
    Ok(fits && table.links() == links && are_found(table, links))
}

// Whether the table finds each of the links by its key.
fn are_found(table: &Table, links: &[Link]) -> bool {
    for link in links {
        if table.find(link.from, link.local) != Some(*link) {
            return false;
        }
    }
    true
}

// Replaces one of two links by another link with the same key.
fn replace(rt: &impl Abort, alloc: Global, table: &mut Table) -> Result<(), Fail> {
    let (old, beside, new) = (one_to_two(5)?, one_to_two(7)?, other_link()?);
    let both = [Change::Put(old), Change::Put(beside)];
    let before = leaves(alloc, table, false, &both, &[old, beside])?;
    assert_case(rt, "two links", 0, before);
    let after = leaves(alloc, table, false, &[Change::Put(new)], &[new, beside])?;
    assert_case(rt, "a replaced link", 0, after);
    Ok(())
}

#[test]
fn a_replaced_link(rt: HostRuntime) -> Result<(), Fail> {
    replace(&rt, rt.alloc(), &mut Table::new(rt.alloc())?)
}

// Puts a link and its reverse. Then gives the link another metric, and the reverse no unreserved
// bandwidth. Then puts the first version of the link again, and marks the router where the link
// begins as without transit.
fn change_attributes(rt: &impl Abort, alloc: Global, table: &mut Table) -> Result<(), Fail> {
    let (old, mut full) = (link(ONE, 4, TWO, 5)?, link(TWO, 5, ONE, 4)?);
    let mut dear = old;
    dear.metric = 11;
    let both = [Change::Put(old), Change::Put(full)];
    assert_case(
        rt,
        "both",
        0,
        leaves(alloc, table, true, &both, &[old, full])?,
    );
    full.free = [0; 8];
    let both = [Change::Put(full), Change::Put(dear)];
    let leaves_dear = leaves(alloc, table, true, &both, &[dear, full])?;
    assert_case(rt, "a metric", 11, leaves_dear && table.has_reverse(&dear));
    let marked = [Change::Put(old), Node(ONE, false).change()?];
    let leaves_old = leaves(alloc, table, true, &marked, &[old, full])?;
    assert_case(
        rt,
        "a mark",
        0,
        leaves_old && !table.transit(Addr::new(ONE)),
    );
    Ok(())
}

#[test]
fn new_attributes(rt: HostRuntime) -> Result<(), Fail> {
    change_attributes(&rt, rt.alloc(), &mut Table::new(rt.alloc())?)
}

// Whether an empty table refuses the batch for this reason, and is still empty afterwards.
fn refuses(alloc: Global, batch: &Batch, refusal: Refusal) -> Result<bool, Fail> {
    let mut table = Table::new(alloc)?;
    let refuses = answer(&mut table, batch, false) == Err(refusal);
    Ok(refuses && table.links().is_empty() && !table.has_router(Addr::new(ONE)))
}

// Two changes with the same key, and the removal of a link from an empty table.
const REFUSED: &[(&[Edit], Refusal)] = &[
    (&[FIVE, FIVE], Refusal::Duplicate { at: 2 }),
    (&[Remove(ONE, 1), SEVEN], Refusal::Absent { at: 1 }),
];

#[test]
fn refused_changes(rt: HostRuntime) -> Result<(), Fail> {
    let alloc = rt.alloc();
    for (at, (edits, refusal)) in REFUSED.iter().enumerate() {
        let refuses = refuses(alloc, &batch_of(alloc, edits)?, *refusal)?;
        assert_case(&rt, "refused", at, refuses);
    }
    let is_too_long = refuses(alloc, &puts(alloc, 0, 4097)?, Refusal::TooLong)?;
    assert_case(&rt, "too many changes", 4097, is_too_long);
    Ok(())
}

// A full table: the local addresses of its links are 0 to 16,383.
fn full_table(alloc: Global) -> Result<Table, Fail> {
    let mut table = Table::new(alloc)?;
    for first in 0..4 {
        let first = first * 4096;
        table.absorb(&puts(alloc, first, first + 4096)?);
    }
    Ok(table)
}

// Changes to a full table, the table's answer, and whether the table then has the links with the
// local addresses 0 and 16,384. A full table accepts a batch that puts one link and removes
// another, in either order.
const FULL: &[(&[Edit], Result<(), Refusal>, bool, bool)] = &[
    (&[], Ok(()), true, false),
    (&[LAST], Err(Refusal::Full), true, false),
    (&[Remove(ONE, 0), LAST], Ok(()), false, true),
    (&[FIRST, Remove(ONE, 16384)], Ok(()), true, false),
];

// Whether the table has a link from 1.1.1.1 with this local address.
fn has_link(table: &Table, local: u32) -> bool {
    table.find(Addr::new(ONE), Addr::new(local)).is_some()
}

// Makes the changes of `FULL` to a full table, one after the other.
fn change_full(rt: &impl Abort, alloc: Global, table: &mut Table) -> Result<(), Fail> {
    for (at, (edits, wanted, first, last)) in FULL.iter().enumerate() {
        let answers = answers(alloc, table, edits, *wanted)?;
        let ends = has_link(table, 0) == *first && has_link(table, 16384) == *last;
        let count = table.links().len();
        assert_case(rt, "a full table", at, answers && ends && count == 16384);
    }
    Ok(())
}

#[test]
fn a_full_table(rt: HostRuntime) -> Result<(), Fail> {
    change_full(&rt, rt.alloc(), &mut full_table(rt.alloc())?)
}

// A batch that puts one link from the router 0 to each router from 1 to `end` - 1.
fn star(alloc: Global, end: u32) -> Result<Batch, Fail> {
    let mut changes = Vec::new(alloc);
    for to in 1..end {
        changes.push(Change::Put(link(0, to, to, to ^ 1)?))?;
    }
    Ok(Batch { number: 1, changes })
}

// Whether an empty table refuses the batch, but accepts it without its last change.
fn takes_one_less(table: &mut Table, batch: &mut Batch) -> bool {
    let more = table.check(batch);
    let _ = batch.changes.pop();
    let less = answer(table, batch, false);
    more == TOO_MANY && less == Ok(()) && table.has_router(Addr::new(1023))
}

#[test]
fn as_many_routers_as_are_kept(rt: HostRuntime) -> Result<(), Fail> {
    let mut star = star(rt.alloc(), 1025)?;
    let takes = takes_one_less(&mut Table::new(rt.alloc())?, &mut star);
    assert_case(&rt, "routers", 1024, takes);
    Ok(())
}

// Whether the table has 1,024 routers, including each router of the list whose flag is `true`, and
// none of the others in the list.
fn has_routers(table: &Table, routers: &[(u32, bool)]) -> bool {
    for (router, known) in routers {
        if table.has_router(Addr::new(*router)) != *known {
            return false;
        }
    }
    table.routers().len() == 1024
}

const TOO_MANY: Result<(), Refusal> = Err(Refusal::TooManyRouters);

// Changes to a table that has one link from the router 0 to each of the routers 1 to 1,023, and the
// table's answer. The last element lists routers, and says of each whether the table has it after
// the changes.
const STAR: &[(&[Edit], Result<(), Refusal>, &[(u32, bool)])] = &[
    // a link to a new router is refused alone, but accepted together with the removal of the only
    // link to another router
    (&[Put(0, 1024, 1024, 1025)], TOO_MANY, &[(1024, false)]),
    (
        &[Put(0, 1024, 1024, 1025), Remove(0, 1023)],
        Ok(()),
        &[(1024, true), (1023, false)],
    ),
    // a link is replaced by a link to a new router; the second batch also puts a link from the new
    // router
    (&[Put(0, 5, 2000, 4)], Ok(()), &[(2000, true), (5, false)]),
    (
        &[Put(0, 6, 3000, 7), Put(3000, 3001, 0, 3000)],
        Ok(()),
        &[(3000, true), (6, false)],
    ),
    // a link from router 7 to a new router would make one router too many
    (&[Put(7, 7, 4000, 6)], TOO_MANY, &[(4000, false)]),
    // two links are replaced by links to two new routers
    (
        &[Put(0, 8, 5000, 9), Put(0, 9, 6000, 8)],
        Ok(()),
        &[(5000, true), (6000, true), (8, false), (9, false)],
    ),
];

// The answer of a table with the links of `star` to the batch, by one call if `at_once` is true,
// and otherwise by two. The second result is whether the table then has 1,024 routers, including
// exactly those routers of the list whose flags are `true`.
fn change_star(
    alloc: Global,
    star: &Batch,
    batch: &Batch,
    at_once: bool,
    routers: &[(u32, bool)],
) -> Result<(Result<(), Refusal>, bool), Fail> {
    let mut table = Table::new(alloc)?;
    table.absorb(star);
    let answer = answer(&mut table, batch, at_once);
    Ok((answer, has_routers(&table, routers)))
}

// Absorbs each batch of `STAR` in two ways: by the calls `check` and `absorb`, and by the call
// `try_absorb`. Both must give the results in `STAR`.
fn change_stars(rt: &impl Abort, alloc: Global, star: &Batch) -> Result<(), Fail> {
    for (at, (edits, wanted, routers)) in STAR.iter().enumerate() {
        let batch = batch_of(alloc, edits)?;
        let by_two = change_star(alloc, star, &batch, false, routers)?;
        let by_one = change_star(alloc, star, &batch, true, routers)?;
        let holds = by_two == (*wanted, true) && by_one == by_two;
        assert_case(rt, "routers", at, holds);
    }
    Ok(())
}

#[test]
fn routers_that_come_as_others_go(rt: HostRuntime) -> Result<(), Fail> {
    change_stars(&rt, rt.alloc(), &star(rt.alloc(), 1024)?)
}

// A router, the address and the length of a prefix, and whether the router owns the prefix. The
// table has only the link from 1.1.1.1 to 2.2.2.2 with the local address 10.0.12.1.
const OWNERS: &[(u32, u32, u8, bool)] = &[
    (ONE, INTERFACE, 24, true),
    (TWO, INTERFACE, 24, false),
    (TWO, TWO, 8, true),
    (ONE, TWO, 8, false),
    (THREE, THREE, 8, false),
];

fn assert_owners(rt: &impl Abort, table: &Table) -> Result<(), Fail> {
    for (at, (router, address, length, owns)) in OWNERS.iter().enumerate() {
        let prefix = Prefix::new(Addr::new(*address), *length)?;
        let found = table.owns(Addr::new(*router), prefix);
        assert_case(rt, "an owner", at, found == *owns);
    }
    Ok(())
}

// Which routers own a prefix that covers an interface or another address.
#[test]
fn owners_of_prefixes(rt: HostRuntime) -> Result<(), Fail> {
    let one_link = [Put(ONE, INTERFACE, TWO, INTERFACE ^ 1)];
    let mut table = Table::new(rt.alloc())?;
    table.absorb(&batch_of(rt.alloc(), &one_link)?);
    assert_owners(&rt, &table)
}
