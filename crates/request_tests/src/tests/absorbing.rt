//! Tests the effect of a batch of changes on four placements on the triangle of routers. The routes
//! of the placements 9, 2 and 7 use the link from 1.1.1.1 to 3.3.3.3. The route of placement 3 goes
//! through 2.2.2.2.

use super::assert_case;
use super::networks::Edit::{self, Drop, Node, Put, Turn};
use super::networks::{ONE, THREE, TWO, batch, book, interface, is_absorbed, placed};
use cspf_addr::Addr;
use cspf_book::{Book, Over};
use cspf_model::Batch;
use std::alloc::Global;

/// The ids, bandwidths and holding priorities of the four placements.
const PLACEMENTS: &[(u64, u64, u8)] = &[(9, 300, 5), (3, 800, 0), (2, 300, 5), (7, 300, 6)];

/// A batch, and the ids of the placements that lose their routes by this batch, in the order in
/// which they are reported.
type Loss = (&'static [Edit], &'static [u64]);

const LOSSES: &[Loss] = &[
    // the link from 1.1.1.1 to 3.3.3.3 or its reverse is removed; or the link is put into the group
    // 0, which the requests exclude; or it is made to end at another router or interface
    (&[Drop(ONE, THREE)], &[7, 2, 9]),
    (&[Drop(THREE, ONE)], &[7, 2, 9]),
    (&[Put(ONE, THREE, 1, [1000; 8])], &[7, 2, 9]),
    (&[Turn(TWO, ONE)], &[7, 2, 9]),
    (&[Turn(THREE, TWO)], &[7, 2, 9]),
    // 2.2.2.2, through which placement 3 goes, loses its transit; or a link from or to 2.2.2.2 is
    // removed
    (&[Node(TWO, false)], &[3]),
    (&[Drop(TWO, ONE)], &[3]),
    (&[Drop(TWO, THREE)], &[3]),
    (&[Drop(THREE, TWO)], &[3]),
    // In these two cases no placement loses its route. First, the link from 1.1.1.1 to 3.3.3.3 is
    // put into the group 1, which the requests don't exclude, and gets no bandwidth. Second, both
    // of these routers are marked as without transit.
    (&[Put(ONE, THREE, 2, [0; 8])], &[]),
    (&[Node(ONE, false), Node(THREE, false)], &[]),
    // if a batch has several changes of one link or one router, only the last of them counts
    (&[Drop(ONE, THREE), Put(ONE, THREE, 0, [0; 8])], &[]),
    (&[Put(ONE, THREE, 0, [0; 8]), Drop(ONE, THREE)], &[7, 2, 9]),
    (&[Drop(ONE, THREE), Node(TWO, false)], &[7, 2, 9, 3]),
    (&[Node(TWO, false), Node(TWO, true)], &[]),
];

/// A batch, and the places where it leaves too little bandwidth. Each pair is a link from 1.1.1.1,
/// given by the router at its other end, and a priority. At this priority, the placements use more
/// bandwidth than the link has after the batch.
type Shortage = (&'static [Edit], &'static [(u32, u8)]);

/// On the link to 3.3.3.3 the placements use 600 bytes per second at priority 5, and 900 at
/// priorities 6 and 7. On the link to 2.2.2.2 they use 800 bytes per second at each priority, and
/// on its reverse they use nothing.
const SHORTAGES: &[Shortage] = &[
    (
        &[Put(ONE, THREE, 0, [0, 0, 0, 0, 0, 599, 900, 899])],
        &[(THREE, 5), (THREE, 7)],
    ),
    (&[Put(ONE, THREE, 0, [0, 0, 0, 0, 0, 600, 900, 900])], &[]),
    (
        &[
            Put(TWO, ONE, 0, [0; 8]),
            Put(ONE, TWO, 0, [800, 799, 800, 0, 800, 800, 800, 800]),
            Put(ONE, THREE, 0, [0, 0, 0, 0, 0, 600, 899, 900]),
            Drop(TWO, THREE),
        ],
        &[(TWO, 1), (TWO, 3), (THREE, 6)],
    ),
];

/// Places these requests in the book, and returns whether all of them are placed.
fn are_placed(alloc: Global, book: &mut Book, placements: &[(u64, u64, u8)]) -> bool {
    for (id, bandwidth, hold) in placements {
        match placed(alloc, book, *id, *bandwidth, b"", *hold) {
            Some(Ok(_)) => (),
            _ => return false,
        }
    }
    true
}

/// A book on the triangle with the four placements of `PLACEMENTS`.
fn full_book(alloc: Global) -> Option<Book> {
    let mut book = book(alloc)?;
    if are_placed(alloc, &mut book, PLACEMENTS) {
        Some(book)
    } else {
        None
    }
}

/// Whether exactly the placements with the ids `ids` lose their routes by the batch, in this order.
fn loses(alloc: Global, book: &Book, batch: &Batch, ids: &[u64]) -> bool {
    match book.lost(alloc, batch) {
        Ok(lost) => lost.as_slice() == ids,
        Err(_) => false,
    }
}

/// Whether exactly the listed placements lose their routes by each batch.
fn are_losses(alloc: Global, book: &Book, losses: &[Loss]) -> bool {
    for (edits, ids) in losses {
        match batch(alloc, edits) {
            Some(batch) if loses(alloc, book, &batch, ids) => (),
            _ => return false,
        }
    }
    true
}

/// Whether `overs` has exactly the links from 1.1.1.1 to the expected routers, each at its expected
/// priority, in this order.
fn are_overs(overs: &[Over], expected: &[(u32, u8)]) -> bool {
    let mut at = 0usize;
    for over in overs {
        match expected.get(at) {
            Some((to, priority)) => {
                let is_key = over.from == Addr::new(ONE) && over.local == interface(ONE, *to);
                if !is_key || over.priority != *priority {
                    return false;
                }
            }
            None => return false,
        }
        at = at.saturating_add(1);
    }
    at == expected.len()
}

/// Whether the batch leaves too little bandwidth on exactly the expected links, at exactly the
/// expected priorities.
fn is_short(alloc: Global, book: &Book, batch: &Batch, expected: &[(u32, u8)]) -> bool {
    match book.over(alloc, batch) {
        Ok(overs) => are_overs(overs.as_slice(), expected),
        Err(_) => false,
    }
}

/// Whether each batch leaves too little bandwidth on exactly the listed links, at exactly the
/// listed priorities.
fn are_shortages(alloc: Global, book: &Book, shortages: &[Shortage]) -> bool {
    for (edits, expected) in shortages {
        match batch(alloc, edits) {
            Some(batch) if is_short(alloc, book, &batch, expected) => (),
            _ => return false,
        }
    }
    true
}

#[test]
fn lost_by_batches(rt: HostRuntime) {
    let alloc = rt.alloc();
    let is = match full_book(alloc) {
        Some(book) => are_losses(alloc, &book, LOSSES),
        None => false,
    };
    assert_case(&rt, "lost by batches", 0, is);
}

#[test]
fn over_by_batches(rt: HostRuntime) {
    let alloc = rt.alloc();
    let is = match full_book(alloc) {
        Some(book) => are_shortages(alloc, &book, SHORTAGES),
        None => false,
    };
    assert_case(&rt, "over by batches", 0, is);
}

/// Whether a placement that has lost its route remains in the book, and isn't reported as lost
/// again.
fn is_lost_once(alloc: Global, book: &mut Book) -> bool {
    match batch(alloc, &[Drop(THREE, ONE)]) {
        Some(batch) => {
            let is_absorbed = is_absorbed(alloc, book, &batch);
            is_absorbed
                && book.placements().len() == 4
                && are_losses(alloc, book, &[(&[Drop(ONE, THREE)], &[])])
        }
        None => false,
    }
}

#[test]
fn lost_once(rt: HostRuntime) {
    let alloc = rt.alloc();
    let is = match full_book(alloc) {
        Some(mut book) => is_lost_once(alloc, &mut book),
        None => false,
    };
    assert_case(&rt, "lost once", 0, is);
}
