//! Which routers own a prefix, and which indexes the links of a router have, according to the
//! table. Batches put and remove links, so that other links move to other indexes.
use super::edits::Edit::{self, Put, Remove};
use super::edits::{answer, assert_case, batch_of};
use super::reverses::Draw;
use cspf_addr::{Addr, Prefix};
use cspf_db::Table;
use cspf_model::{Link, MOST_ROUTERS};
use std::alloc::{AllocError, Global};
use std::process::Abort;
use std::test::Fail;

// Three routers: 10.0.0.1, 10.0.0.2 and 10.0.0.3.
const FIRST: u32 = 0x0a00_0001;

const SECOND: u32 = 0x0a00_0002;

const THIRD: u32 = 0x0a00_0003;

// The local addresses of links: 192.168.0.1, 192.168.1.1 and so on. Each link has the remote
// address 172.16.0.1.
const ZERO_1: u32 = 0xc0a8_0001;

const ONE_1: u32 = 0xc0a8_0101;

const ONE_5: u32 = 0xc0a8_0105;

const ONE_9: u32 = 0xc0a8_0109;

const TWO_1: u32 = 0xc0a8_0201;

const SEVEN_1: u32 = 0xc0a8_0701;

const REMOTE: u32 = 0xac10_0001;

// The indexes of the routers that own the prefix, as the table lists them.
fn listed(alloc: Global, table: &Table, prefix: Prefix) -> Result<Vec<u16>, AllocError> {
    let mut owners = Vec::with_capacity(alloc, MOST_ROUTERS)?;
    table.list_owners(&mut owners, prefix);
    Ok(owners)
}

// Checks each router, and returns whether exactly the routers at the indexes `owners` own the
// prefix.
fn are_owners(table: &Table, owners: &[u16], prefix: Prefix) -> bool {
    let mut count = 0usize;
    for (at, router) in table.routers().iter().enumerate() {
        if table.owns(*router, prefix) {
            if owners.get(count) != Some(&(at as u16)) {
                return false;
            }
            count = count.saturating_add(1);
        }
    }
    count == owners.len()
}

// The address and the length of a prefix, and the indexes of the routers that own it.
type Case = (u32, u8, &'static [u16]);

// Whether the table lists exactly the owners of a case, and checking each router finds the same
// owners.
fn is_owned(alloc: Global, table: &Table, (address, length, wanted): &Case) -> Result<bool, Fail> {
    let prefix = Prefix::new(Addr::new(*address), *length)?;
    let owners = listed(alloc, table, prefix)?;
    Ok(owners.as_slice() == *wanted && are_owners(table, &owners, prefix))
}

// Four links from the first router, one link from the second router, and no link from the third.
const LINKS: &[Edit] = &[
    Put(FIRST, ONE_5, SECOND, REMOTE),
    Put(FIRST, ONE_1, SECOND, REMOTE),
    Put(FIRST, ONE_9, THIRD, REMOTE),
    Put(FIRST, SEVEN_1, THIRD, REMOTE),
    Put(SECOND, TWO_1, THIRD, REMOTE),
];

// First come prefixes that routers own by their Router IDs. Then come prefixes that routers own by
// the local address of their first, last or middle link. Last come prefixes without an owner, which
// cover no interface or only a remote interface.
const OWNERS: &[Case] = &[
    (FIRST, 32, &[0]),
    (SECOND, 32, &[1]),
    (THIRD, 32, &[2]),
    (FIRST, 24, &[0, 1, 2]),
    (SECOND, 31, &[1, 2]),
    (0, 0, &[0, 1, 2]),
    (ONE_1, 32, &[0]),
    (SEVEN_1, 32, &[0]),
    (ONE_5, 32, &[0]),
    (0xc0a8_0108, 30, &[0]), // 192.168.1.8
    (0xc0a8_0200, 24, &[1]), // 192.168.2.0
    (0xc0a8_0000, 16, &[0, 1]), // 192.168.0.0
    (0xc0a8_0106, 32, &[]), // 192.168.1.6
    (0xc0a8_0100, 32, &[]), // 192.168.1.0
    (0xc0a8_0702, 32, &[]), // 192.168.7.2
    (REMOTE, 32, &[]),
];

// The router's link with the highest local address is removed, and a link with a lower local
// address is put.
const MOVE: &[Edit] = &[Remove(FIRST, SEVEN_1), Put(FIRST, ZERO_1, THIRD, REMOTE)];

const OWNERS_AFTER_MOVE: &[Case] = &[
    (SEVEN_1, 32, &[]),
    (ZERO_1, 32, &[0]),
    (ONE_9, 32, &[0]),
    (TWO_1, 32, &[1]),
];

// All links of a router are removed, and so is the router.
const GO: &[Edit] = &[
    Remove(FIRST, ONE_1),
    Remove(FIRST, ONE_5),
    Remove(FIRST, ONE_9),
    Remove(FIRST, SEVEN_1),
];

const OWNERS_AFTER_GO: &[Case] = &[
    (FIRST, 32, &[]),
    (ONE_1, 32, &[]),
    (TWO_1, 32, &[0]),
    (THIRD, 32, &[1]),
    (0, 0, &[0, 1]),
];

// The name of a case, a batch that follows `LINKS`, and the owners after this batch.
const STEPS: &[(&str, &[Edit], &[Case])] = &[
    ("owners", &[], OWNERS),
    ("owners after a move", MOVE, OWNERS_AFTER_MOVE),
    ("owners after a router goes", GO, OWNERS_AFTER_GO),
];

// Whether the table accepts a batch of these changes in the call `try_absorb`.
fn takes(alloc: Global, table: &mut Table, edits: &[Edit]) -> Result<bool, Fail> {
    Ok(answer(table, &batch_of(alloc, edits)?, true) == Ok(()))
}

// Absorbs `LINKS` and then the batch of a step. Afterwards, the owners must be those of the step.
fn make(
    rt: &impl Abort,
    alloc: Global,
    table: &mut Table,
    (name, edits, cases): &(&str, &[Edit], &[Case]),
) -> Result<(), Fail> {
    let fits = takes(alloc, table, LINKS)? && takes(alloc, table, edits)?;
    for (at, case) in cases.iter().enumerate() {
        let is_owned = is_owned(alloc, table, case)?;
        assert_case(rt, name, at, fits && is_owned);
    }
    Ok(())
}

// Absorbs `LINKS` and then the batch of a step into an empty table. Afterwards, the owners must be
// those of the step.
fn make_all(rt: &impl Abort, alloc: Global, step: &(&str, &[Edit], &[Case])) -> Result<(), Fail> {
    make(rt, alloc, &mut Table::new(alloc)?, step)
}

#[test]
fn owners_after_batches(rt: HostRuntime) -> Result<(), Fail> {
    for step in STEPS {
        make_all(&rt, rt.alloc(), step)?;
    }
    Ok(())
}

// Whether `out` has exactly the links that begin at the router.
fn are_links_from(table: &Table, router: Addr, out: &[Link]) -> bool {
    let mut count = 0usize;
    for link in table.links() {
        if link.from == router {
            if out.get(count) != Some(link) {
                return false;
            }
            count = count.saturating_add(1);
        }
    }
    count == out.len()
}

// Whether the table gives for each router exactly the links that are found by checking all links.
fn are_spans(table: &Table) -> bool {
    for (at, router) in table.routers().iter().enumerate() {
        if !are_links_from(table, *router, table.out_at(at)) {
            return false;
        }
    }
    true
}

// The number of routers that own a prefix. The result is `None` if the table's list of owners
// differs from what checking each router finds.
fn count_owners(
    alloc: Global,
    table: &Table,
    address: u32,
    length: u8,
) -> Result<Option<usize>, Fail> {
    let prefix = Prefix::new(Addr::new(address), length)?;
    let owners = listed(alloc, table, prefix)?;
    if are_owners(table, &owners, prefix) {
        Ok(Some(owners.len()))
    } else {
        Ok(None)
    }
}

// The lengths of the random prefixes.
const LENGTHS: &[u8] = &[0, 27, 29, 30, 31, 32];

// Draws a random prefix of each length. The result is the greatest number of owners of such a
// prefix, or `None` if the owners of a prefix are wrong.
fn most_owners(alloc: Global, table: &Table, draw: &mut Draw) -> Result<Option<usize>, Fail> {
    let mut most = 0;
    for length in LENGTHS {
        match count_owners(alloc, table, draw.below(64), *length)? {
            Some(count) => most = most.max(count),
            None => return Ok(None),
        }
    }
    Ok(Some(most))
}

// Absorbs random batches of a few changes. The result is the greatest number of owners of a random
// prefix.
fn absorb_drawn(rt: &impl Abort, alloc: Global, table: &mut Table) -> Result<usize, Fail> {
    let mut draw = Draw { state: 11 };
    let mut owners = 0;
    for number in 0..150 {
        let count = draw.below(6) as usize + 1;
        let fits = table.try_absorb(&draw.batch(alloc, table, count, 40)?) == Ok(());
        let most = most_owners(alloc, table, &mut draw)?;
        let holds = fits && are_spans(table) && most.is_some();
        assert_case(rt, "a drawn batch", number, holds);
        owners = most.unwrap_or(0).max(owners);
    }
    Ok(owners)
}

#[test]
fn owners_after_drawn_batches(rt: HostRuntime) -> Result<(), Fail> {
    let owners = absorb_drawn(&rt, rt.alloc(), &mut Table::new(rt.alloc())?)?;
    assert_case(&rt, "owners", owners, owners > 5);
    Ok(())
}
