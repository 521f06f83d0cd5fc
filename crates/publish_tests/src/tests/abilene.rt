//! Tests a publisher and eight askers over the Abilene network. An asker is the object that
//! computes the answers to requests, and each asker is on its own thread. The network's circuits
//! and metrics are those of `examples/abilene.rows`. Circuits fail and are restored while the
//! askers answer requests. Read `publish_and_ask` first, which starts the threads. `publish_all` is
//! the work of the publisher's thread, and `ask_all` that of an asker's thread.
//!
//! The threads wait for each other. So the askers answer requests at each version while the
//! publisher makes the next one. Each wait ends after a bounded number of iterations of a loop. No
//! assertion depends on the waiting: an asker may end before the first batch is published.

use super::fixtures::{assert_case, batch, is_same, request};
use cspf_addr::{Addr, Mask};
use cspf_db::Table;
use cspf_model::{Batch, Change, Link, LinkError, Outcome, Request};
use cspf_publish::{AskError, Asker, Publisher, open};
use cspf_search::best;
use std::alloc::{AllocError, Global};
use std::io::Write;
use std::process::Abort;
use std::sync::Wait;
use std::sync::atomic::{AtomicU64, Ordering};
use std::test::Fail;
use std::thread;
use std::thread::Threads;

/// The circuits. Each circuit has two routers, and one metric for its links in both directions. The
/// routers are Seattle 1, Sunnyvale 2, Los Angeles 3, Denver 4, Kansas City 5, Houston 6, Chicago
/// 7, Indianapolis 8, Atlanta 9, Washington 10 and New York 11.
const CIRCUITS: [(u32, u32, u32); 14] = [
    (6, 9, 1176),
    (8, 9, 587),
    (9, 10, 846),
    (7, 8, 260),
    (7, 11, 700),
    (4, 5, 639),
    (2, 4, 1295),
    (1, 4, 2095),
    (5, 6, 902),
    (3, 6, 1893),
    (5, 8, 548),
    (2, 3, 366),
    (10, 11, 233),
    (1, 2, 861),
];

/// The last version. Version 1 has the whole network. After that a circuit fails at each even
/// version, and is restored at the next version.
const VERSIONS: u32 = 201;

const ASKERS: usize = 8;

/// The number of requests that each asker (which computes the answers) answers.
const ASKS: u64 = 12_500;

/// The number of requests between two batches. Before each next batch, the publisher waits until
/// all askers together have answered this many more requests.
const ASKS_A_BATCH: u64 = 400;

/// The number of requests that an asker (which computes the answers) answers before it waits for
/// another batch.
const ASKS_IN_A_ROW: u64 = 64;

const SEATTLE: u32 = 0xc6336401; // 198.51.100.1

const NEW_YORK: u32 = 0xc633640b; // 198.51.100.11

/// The least costs from Seattle to New York at some versions, as another program found them. While
/// some circuits are down, the cost is 706 or 1,133 higher.
const COSTS: &[(usize, u64)] = &[
    (1, 4242),
    (6, 4948),
    (7, 4242),
    (8, 4948),
    (10, 5375),
    (12, 4242),
];

/// The address 198.51.100.`number` of a router.
fn router(number: u32) -> Addr {
    Addr::new(0xc6336400u32.wrapping_add(number))
}

/// The address 10.from.to.1: the interface of the router `from` on its circuit to the router `to`.
fn interface(from: u32, to: u32) -> Addr {
    Addr::new((from % 256) * 65536 + (to % 256) * 256 + 0x0a000001)
}

/// The link of a circuit from the first router to the second.
fn link_of(from: u32, to: u32, metric: u32) -> Result<Link, LinkError> {
    let (local, remote) = (interface(from, to), interface(to, from));
    let group = Mask::new(1);
    Link::new(
        router(from),
        local,
        router(to),
        remote,
        metric,
        group,
        [1_000_000; 8],
    )
}

/// The batch that adds all links of the network.
fn whole_network(alloc: Global) -> Result<Batch, Fail> {
    let mut changes = Vec::new(alloc);
    for (a, b, metric) in &CIRCUITS {
        changes.push(Change::Put(link_of(*a, *b, *metric)?))?;
        changes.push(Change::Put(link_of(*b, *a, *metric)?))?;
    }
    Ok(Batch { number: 1, changes })
}

/// The change by which a link fails, or is restored.
fn change_of(link: Link, fails: bool) -> Change {
    if fails {
        Change::Remove {
            from: link.from,
            local: link.local,
        }
    } else {
        Change::Put(link)
    }
}

/// The batch with this number. If the number is even, a circuit fails. If it is odd, the circuit is
/// restored.
fn circuit_batch(alloc: Global, number: u32) -> Result<Batch, Fail> {
    let (a, b, metric) = CIRCUITS[(number / 2) as usize % CIRCUITS.len()];
    let fails = number % 2 == 0;
    let there = change_of(link_of(a, b, metric)?, fails);
    let back = change_of(link_of(b, a, metric)?, fails);
    Ok(batch(alloc, number, &[there, back])?)
}

/// All batches: the whole network, and then the batches in which circuits fail and are restored.
fn all_batches(alloc: Global) -> Result<Vec<Batch>, Fail> {
    let mut all = Vec::new(alloc);
    all.push(whole_network(alloc)?)?;
    for number in 2..VERSIONS + 1 {
        all.push(circuit_batch(alloc, number)?)?;
    }
    Ok(all)
}

/// Adds to the list the outcomes that the search finds in a table: first without batches, and then
/// after each batch.
fn add_outcomes(
    alloc: Global,
    table: &mut Table,
    batches: &[Batch],
    request: &Request,
    all: &mut Vec<Outcome>,
) -> Result<(), AllocError> {
    all.push(best(alloc, table, request)?)?;
    for batch in batches {
        table.absorb(batch);
        all.push(best(alloc, table, request)?)?;
    }
    Ok(())
}

/// The outcomes that the search finds in a table: first without batches, and then after each batch.
fn outcomes_in_order(
    alloc: Global,
    batches: &[Batch],
    request: &Request,
) -> Result<Vec<Outcome>, AllocError> {
    let mut all = Vec::new(alloc);
    add_outcomes(alloc, &mut Table::new(alloc)?, batches, request, &mut all)?;
    Ok(all)
}

/// The cost of the route at this version, if there is a route.
fn cost_at(outcomes: &[Outcome], version: usize) -> Option<u64> {
    match outcomes.get(version) {
        Some(Outcome::Route(route)) => Some(route.cost()),
        _ => None,
    }
}

/// Why an answer is wrong.
#[derive(Clone, Copy, Debug)]
enum Fault {
    NoEntry,
    Memory,
    OlderVersion { before: u32, after: u32 },
    WrongRoute { version: u32 },
}

/// The values that the threads of the publisher and of all askers share. An asker computes the
/// answers to requests.
#[derive(Clone, Copy)]
struct Shared<'a> {
    batches: &'a [Batch],
    request: &'a Request,
    /// The right outcome at each version.
    outcomes: &'a [Outcome],
    /// The number of requests that the askers (which compute the answers) have answered, or tried
    /// to answer.
    asked: &'a AtomicU64,
    /// The number of batches that the publisher has published.
    published: &'a AtomicU64,
}

/// An asker (which computes the answers to requests), the version of its last answer, the number of
/// its right answers, and its first fault.
#[derive(Drop)]
struct Client {
    asker: Asker,
    version: u32,
    right: u64,
    fault: Option<Fault>,
}

/// Waits until the count is at least `least`, but only for a bounded number of iterations.
fn wait_for(count: &AtomicU64, least: u64) {
    for _ in 0..20_000 {
        if count.load(Ordering::SeqCst) >= least {
            return;
        }
        thread::yield_now();
    }
}

/// Lets the client's asker (which computes the answers) answer the request once, and returns the
/// version of the answer. A right answer has at least the version of the answer before. Its outcome
/// is the one that the search finds in a table at its version.
fn ask_once(alloc: Global, shared: &Shared<'_>, client: &mut Client) -> Result<u32, Fault> {
    let before = client.version;
    match client.asker.ask(alloc, shared.request) {
        Err(AskError::NoEntry) => Err(Fault::NoEntry),
        Err(AskError::Memory) => Err(Fault::Memory),
        Ok(answer) => {
            let after = answer.version;
            if after < before {
                return Err(Fault::OlderVersion { before, after });
            }
            match shared.outcomes.get(after as usize) {
                Some(right) if is_same(right, &answer.outcome) => Ok(after),
                _ => Err(Fault::WrongRoute { version: after }),
            }
        }
    }
}

/// Tries to answer the request until memory isn't refused, at most a thousand times.
fn ask_again(alloc: Global, shared: &Shared<'_>, client: &mut Client) -> Result<u32, Fault> {
    for _ in 0..1000 {
        let answered = ask_once(alloc, shared, client);
        if !matches!(answered, Err(Fault::Memory)) {
            return answered;
        }
        thread::yield_now();
    }
    Err(Fault::Memory)
}

/// The work of an asker's thread. The asker computes the answers to requests.
fn ask_all(alloc: Global, shared: &Shared<'_>, client: &mut Client) {
    for number in 0..ASKS {
        wait_for(shared.published, number / ASKS_IN_A_ROW);
        match ask_again(alloc, shared, client) {
            Ok(version) => {
                client.version = version;
                client.right = client.right.saturating_add(1);
            }
            Err(fault) => client.fault = client.fault.or(Some(fault)),
        }
        shared.asked.fetch_add(1, Ordering::SeqCst);
    }
}

/// The work of the publisher's thread. Returns the number of the last batch that was published.
fn publish_all<W: Write, R: Wait>(
    rt: &R,
    alloc: Global,
    shared: &Shared<'_>,
    publisher: &mut Publisher<W>,
) -> u32 {
    let mut last = 0;
    for batch in shared.batches {
        wait_for(shared.asked, last as u64 * ASKS_A_BATCH);
        if publisher.apply(rt, alloc, batch) == Ok(batch.number) {
            last = batch.number;
        }
        shared.published.store(last as u64, Ordering::SeqCst);
    }
    last
}

/// Publishes batches on the calling thread while the askers (which compute the answers) answer
/// requests on other threads.
fn publish_and_ask<W: Write, R: Threads + Wait + Sync>(
    rt: &R,
    alloc: Global,
    shared: &Shared<'_>,
    clients: &mut [Client],
    publisher: &mut Publisher<W>,
) -> u32 {
    let mut asking = || {
        thread::for_each_mut(
            rt,
            clients,
            ASKERS,
            &|_number, client: &mut Client| ask_all(alloc, shared, client),
        )
    };
    let mut publishing = || -> u32 { publish_all(rt, alloc, shared, publisher) };
    thread::join_mut(rt, &mut asking, &mut publishing).1
}

/// A client for each asker. The asker computes the client's answers.
fn clients_of(alloc: Global, askers: Vec<Asker>) -> Result<Vec<Client>, AllocError> {
    let mut clients = Vec::new(alloc);
    for asker in askers {
        clients.push(Client {
            asker,
            version: 0,
            right: 0,
            fault: None,
        })?;
    }
    Ok(clients)
}

/// Checks that all answers of a client's asker (which computes its answers) were right, and that
/// the last answer had the last version.
fn assert_right<R: Abort>(rt: &R, number: usize, client: &Client) {
    if let Some(fault) = client.fault {
        panic!(rt; "asker {number}: {fault:?}")
    }
    let is_last = client.right == ASKS && client.version == VERSIONS;
    assert_case(rt, "asker", number, is_last);
}

/// Checks each client's asker (which computes its answers) as `assert_right` does.
fn assert_all_right<R: Abort>(rt: &R, clients: &[Client]) {
    for (number, client) in clients.iter().enumerate() {
        assert_right(rt, number, client);
    }
}

/// A publisher that has published no batch, and a client for each of its askers (which compute the
/// answers).
fn opened<R: Wait + Abort>(rt: &R, alloc: Global) -> (Publisher<Vec<u8>>, Vec<Client>) {
    match open(rt, alloc, Vec::<u8>::new(alloc), ASKERS) {
        Ok((publisher, askers)) => match clients_of(alloc, askers) {
            Ok(clients) => (publisher, clients),
            Err(_) => panic!(rt; "no clients"),
        },
        Err(_) => panic!(rt; "no publisher"),
    }
}

/// Each client's asker (which computes its answers) answers the request once more.
fn ask_last(alloc: Global, shared: &Shared<'_>, clients: &mut [Client]) {
    for client in clients.iter_mut() {
        client.version = ask_again(alloc, shared, client).unwrap_or(0);
    }
}

/// Publishes batches while the askers (which compute the answers) answer requests. Afterwards each
/// asker answers once more, at the last version.
fn run<R: Threads + Wait + Abort + Sync>(rt: &R, alloc: Global, shared: &Shared<'_>) {
    let (mut publisher, mut clients) = opened(rt, alloc);
    let last = publish_and_ask(rt, alloc, shared, &mut clients, &mut publisher);
    ask_last(alloc, shared, &mut clients);
    publisher.close(rt);
    let is_last = last == VERSIONS && clients.len() == ASKERS;
    assert_case(rt, "the last version", last as usize, is_last);
    assert_all_right(rt, &clients);
}

/// Checks the costs of the outcomes against `COSTS`.
fn assert_costs<R: Abort>(rt: &R, outcomes: &[Outcome]) {
    for (version, cost) in COSTS {
        let is_best = cost_at(outcomes, *version) == Some(*cost);
        assert_case(rt, "the cost at version", *version, is_best);
    }
}

/// Runs a publisher and its askers (which compute the answers). The publisher publishes these
/// batches, the askers answer this request, and their answers are compared with these outcomes.
fn ask_of<R: Threads + Wait + Abort + Sync>(
    rt: &R,
    alloc: Global,
    batches: &[Batch],
    request: &Request,
    outcomes: &[Outcome],
) {
    let (asked, published) = (AtomicU64::new(0), AtomicU64::new(0));
    let shared = Shared {
        batches,
        request,
        outcomes,
        asked: &asked,
        published: &published,
    };
    run(rt, alloc, &shared);
}

#[test]
fn asked_while_circuits_fail(rt: HostRuntime) -> Result<(), Fail> {
    let request = request(1, SEATTLE, NEW_YORK, 1000)?;
    let batches = all_batches(rt.alloc())?;
    let outcomes = outcomes_in_order(rt.alloc(), &batches, &request)?;
    assert_costs(&rt, &outcomes);
    ask_of(&rt, rt.alloc(), &batches, &request, &outcomes);
    Ok(())
}
