//! Tests an asker, the object that computes the answers. At each version it answers enough requests
//! to make a tree of lower bounds for its search. Some batches change only unreserved bandwidths,
//! and each other batch makes a cheaper route.

use super::fixtures::{ONE, Said, TWO, batch, check_versions, is_same, opened, said_by};
use cspf_addr::{Addr, Hops, Mask};
use cspf_db::Table;
use cspf_model::{Batch, Change, Link, LinkError, Outcome, Request, RequestError};
use cspf_publish::{Answer, ApplyError, AskError, Asker, Growth, Publisher};
use cspf_search::best_by_rounds;
use std::alloc::{AllocError, Global};
use std::io::Write;
use std::sync::Wait;
use std::test::Fail;

const THREE: u32 = 0x03030303; // 3.3.3.3

const FOUR: u32 = 0x04040404; // 4.4.4.4

/// The number of answers that an asker (the object that computes them) gives at each version. It is
/// large enough that the asker makes a tree of lower bounds and uses it.
const ASKS: usize = 9;

/// The two routers of a circuit, and the address of the first router's interface. The address of
/// the second router's interface is higher by one.
type Circuit = (u32, u32, u32);

const ONE_FOUR: Circuit = (ONE, FOUR, 0x0a000e00);

const FOUR_THREE: Circuit = (FOUR, THREE, 0x0a002b00);

const ONE_TWO: Circuit = (ONE, TWO, 0x0a000c00);

const TWO_THREE: Circuit = (TWO, THREE, 0x0a001700);

const ONE_THREE: Circuit = (ONE, THREE, 0x0a000d00);

const SECOND: Circuit = (ONE, THREE, 0x0a000d02);

/// The two changes that set the links of a circuit.
fn puts(circuit: Circuit, metric: u32, group: u32, free: u64) -> Result<[Change; 2], LinkError> {
    let (from, local) = (Addr::new(circuit.0), Addr::new(circuit.2));
    let (to, remote) = (Addr::new(circuit.1), Addr::new(circuit.2 ^ 1));
    let group = Mask::new(group);
    Ok([
        Change::Put(Link::new(from, local, to, remote, metric, group, [free; 8])?),
        Change::Put(Link::new(to, remote, from, local, metric, group, [free; 8])?),
    ])
}

/// The change that says whether 2.2.2.2 has transit.
fn transit(transit: bool) -> [Change; 1] {
    let router = Addr::new(TWO);
    [Change::Node { router, transit }]
}

/// A network of five circuits. One circuit is in a group that the request excludes, and the router
/// 2.2.2.2 has no transit.
fn network(alloc: Global) -> Result<Vec<Change>, Fail> {
    let mut all = Vec::from_slice(alloc, &puts(ONE_FOUR, 50, 1, 1000)?)?;
    all.extend_from_slice(&puts(FOUR_THREE, 50, 1, 1000)?)?;
    all.extend_from_slice(&puts(ONE_TWO, 10, 1, 1000)?)?;
    all.extend_from_slice(&puts(TWO_THREE, 40, 1, 1000)?)?;
    all.extend_from_slice(&puts(ONE_THREE, 30, 2, 1000)?)?;
    all.extend_from_slice(&transit(false))?;
    Ok(all)
}

/// The batch with this number. Batch 1 adds the network, batch 2 takes all bandwidth from a
/// circuit, and batch 3 restores it. Batch 4 gives transit to 2.2.2.2, batch 5 changes a circuit's
/// group, and batch 6 lowers a metric. Batch 7 adds a new circuit, batch 8 takes all bandwidth from
/// this circuit, and batch 9 restores it.
fn batch_at(alloc: Global, number: u32) -> Result<Batch, Fail> {
    match number {
        1 => Ok(Batch {
            number,
            changes: network(alloc)?,
        }),
        2 => Ok(batch(alloc, 2, &puts(ONE_FOUR, 50, 1, 0)?)?),
        3 => Ok(batch(alloc, 3, &puts(ONE_FOUR, 50, 1, 1000)?)?),
        4 => Ok(batch(alloc, 4, &transit(true))?),
        5 => Ok(batch(alloc, 5, &puts(ONE_THREE, 30, 1, 1000)?)?),
        6 => Ok(batch(alloc, 6, &puts(TWO_THREE, 10, 1, 1000)?)?),
        8 => Ok(batch(alloc, 8, &puts(SECOND, 5, 1, 0)?)?),
        _ => Ok(batch(alloc, number, &puts(SECOND, 5, 1, 1000)?)?),
    }
}

/// The right outcome at a version.
fn said_at(version: u32) -> Said {
    match version {
        2 => Said::NoRoute,
        1 | 3 => Said::Route(100, 2),
        4 => Said::Route(50, 2),
        5 => Said::Route(30, 1),
        6 | 8 => Said::Route(20, 2),
        _ => Said::Route(5, 1),
    }
}

/// A batch that would make the cheapest route, but also removes a link that doesn't exist.
fn unfit_batch(alloc: Global, number: u32) -> Result<Batch, Fail> {
    let mut changes = Vec::from_slice(alloc, &puts(ONE_THREE, 1, 1, 1000)?)?;
    changes.extend_from_slice(&[Change::Remove {
        from: Addr::new(ONE),
        local: Addr::new(1),
    }])?;
    Ok(Batch { number, changes })
}

/// Request 7, from 1.1.1.1 to 3.3.3.3, over links that aren't in group 0x2.
fn request() -> Result<Request, RequestError> {
    let (from, to) = (Addr::new(ONE), Addr::new(THREE));
    let (excluded, any) = (Mask::new(2), Mask::new(0));
    Request::new(7, from, to, 0, 1000, excluded, any, any, Hops::none())
}

/// Whether the answer has this version and outcome.
fn is_right(answer: &Result<Answer, AskError>, version: u32, outcome: &Outcome) -> bool {
    match answer {
        Ok(answer) => answer.version == version && is_same(&answer.outcome, outcome),
        Err(_) => false,
    }
}

/// Whether the search by rounds finds the right outcome in the table, and the asker (which computes
/// the answers) returns the same outcome each time.
fn answers_alike(
    alloc: Global,
    asker: &mut Asker,
    table: &Table,
    request: &Request,
    version: u32,
) -> Result<bool, AllocError> {
    let outcome = best_by_rounds(alloc, table, request)?;
    let mut is_alike = said_by(&outcome) == said_at(version);
    for _ in 0..ASKS {
        is_alike = is_alike && is_right(&asker.ask(alloc, request), version, &outcome);
    }
    Ok(is_alike)
}

/// Whether the answers of the asker (the object that computes them) are right after a batch, and
/// are still right after the next batch is refused.
fn is_right_after<W: Write, R: Wait>(
    rt: &R,
    alloc: Global,
    (publisher, table): (&mut Publisher<W>, &mut Table),
    (asker, request): (&mut Asker, &Request),
    number: u32,
) -> Result<bool, Fail> {
    let next = batch_at(alloc, number)?;
    let is_applied = publisher.apply(rt, alloc, &next) == Ok(number);
    table.absorb(&next);
    let is_alike = answers_alike(alloc, asker, table, request, number)?;
    let unfit = unfit_batch(alloc, number.saturating_add(1))?;
    let refused = publisher.apply(rt, alloc, &unfit);
    let is_refused = matches!(refused, Err(ApplyError::Refused(_)));
    let is_still_alike = answers_alike(alloc, asker, table, request, number)?;
    Ok(is_applied && is_alike && is_refused && is_still_alike)
}

/// Checks the answers that the asker computes after each of the nine batches.
#[test]
fn asked_with_trees_at_each_version(rt: HostRuntime) -> Result<(), Fail> {
    let (request, mut table) = (request()?, Table::new(rt.alloc())?);
    let (mut publisher, mut asker) = opened(&rt, rt.alloc(), Vec::<u8>::new(rt.alloc()));
    asker.set_growth(Growth::FromAsk(6));
    let asked = check_versions(&rt, 9, |number| {
        let published = (&mut publisher, &mut table);
        is_right_after(&rt, rt.alloc(), published, (&mut asker, &request), number)
    });
    publisher.close(&rt);
    asked
}
