//! Tests placements on the triangle: the bandwidth that they use, the bandwidth that is left, and
//! the bandwidth that a release returns.

use super::assert_case;
use super::networks::{ONE, THREE, TWO, book, interface, is_released, left, placed};
use cspf_addr::Addr;
use cspf_book::{Book, PlaceError};
use std::alloc::Global;

/// A step of a test, with the expected answer of the book.
#[derive(Clone, Copy)]
enum Step {
    /// Places a request with this id, this bandwidth and this holding priority. The last number is
    /// the number of links in the route, or 0 if there is no route.
    Place(u64, u64, u8, usize),
    /// Releases the placement with this id. The flag says whether the book has such a placement.
    Release(u64, bool),
}

use Step::{Place, Release};

/// A step, and the bandwidth that is then left on the link from 1.1.1.1 to 3.3.3.3 at each
/// priority, in hundreds of bytes per second.
type Case = (Step, [u64; 8]);

const THIRD_TAKES_LONGER_WAY: &[Case] = &[
    (Place(1, 600, 5, 1), [10, 10, 10, 10, 10, 4, 4, 4]),
    (Place(2, 400, 6, 1), [10, 10, 10, 10, 10, 4, 0, 0]),
    (Place(3, 700, 0, 2), [10, 10, 10, 10, 10, 4, 0, 0]),
    (Place(4, 700, 7, 0), [10, 10, 10, 10, 10, 4, 0, 0]),
];

/// A request that is placed again may use the bandwidth of its earlier placement. If there is too
/// little bandwidth for the new placement, the earlier placement remains.
const MOVES_AND_RELEASES: &[Case] = &[
    (Place(1, 600, 5, 1), [10, 10, 10, 10, 10, 4, 4, 4]),
    (Place(1, 900, 3, 1), [10, 10, 10, 1, 1, 1, 1, 1]),
    (Place(1, 1001, 7, 0), [10, 10, 10, 1, 1, 1, 1, 1]),
    (Release(2, false), [10, 10, 10, 1, 1, 1, 1, 1]),
    (Place(2, 100, 7, 1), [10, 10, 10, 1, 1, 1, 1, 0]),
    (Release(1, true), [10, 10, 10, 10, 10, 10, 10, 9]),
    (Release(2, true), [10; 8]),
    (Release(1, false), [10; 8]),
];

/// Whether the book gives the expected answer of this step.
fn is_answer(alloc: Global, book: &mut Book, step: Step) -> bool {
    match step {
        Place(id, bandwidth, hold, links) => {
            placed(alloc, book, id, bandwidth, b"", hold) == Some(Ok(links))
        }
        Release(id, is) => is_released(alloc, book, id) == is,
    }
}

/// Whether these bandwidths are as many hundreds of bytes per second.
fn are_hundreds(free: &[u64; 8], hundreds: &[u64; 8]) -> bool {
    let mut same = true;
    for (bytes, hundred) in free.iter().zip(hundreds) {
        same = same && *bytes == hundred.wrapping_mul(100);
    }
    same
}

/// Whether the book gives the expected answer to each step. After each step, the link from 1.1.1.1
/// to 3.3.3.3 has to have the bandwidths left that are listed with this step.
fn are_answers(alloc: Global, book: &mut Book, cases: &[Case]) -> bool {
    for (step, free) in cases {
        if !is_answer(alloc, book, *step) || !are_hundreds(&left(book, ONE, THREE), free) {
            return false;
        }
    }
    true
}

/// Whether a book on the triangle gives the expected answer to each step, and after the last step
/// has this many placements and this version.
fn is_book_of(alloc: Global, cases: &[Case], placements: usize, version: u32) -> bool {
    match book(alloc) {
        Some(mut book) => {
            let answers = are_answers(alloc, &mut book, cases);
            answers && book.placements().len() == placements && book.version() == version
        }
        None => false,
    }
}

#[test]
fn third_takes_longer_way(rt: HostRuntime) {
    let is = is_book_of(rt.alloc(), THIRD_TAKES_LONGER_WAY, 3, 4);
    assert_case(&rt, "third takes longer way", 0, is);
}

#[test]
fn moves_and_releases(rt: HostRuntime) {
    let is = is_book_of(rt.alloc(), MOVES_AND_RELEASES, 0, 6);
    assert_case(&rt, "moves and releases", 0, is);
}

/// Places 700 bytes per second through 2.2.2.2 at holding priority 4. Returns whether the book
/// counts the right bandwidths. The counts on the first link are 700 at priority 4 and 0 at
/// priority 3. The count on the second link is 700 at priority 255, which the book treats as
/// priority 7. The count on the reverse of the first link is 0.
fn is_counted(alloc: Global, book: &mut Book) -> bool {
    let is_placed = placed(alloc, book, 1, 700, b"2.2.2.2/32s", 4) == Some(Ok(2));
    let first = Addr::new(ONE);
    let second = Addr::new(TWO);
    is_placed
        && book.counted(first, interface(ONE, TWO), 3) == 0
        && book.counted(first, interface(ONE, TWO), 4) == 700
        && book.counted(second, interface(TWO, THREE), 255) == 700
        && book.counted(second, interface(TWO, ONE), 7) == 0
}

#[test]
fn counted_along_route(rt: HostRuntime) {
    let alloc = rt.alloc();
    let is = match book(alloc) {
        Some(mut book) => is_counted(alloc, &mut book),
        None => false,
    };
    assert_case(&rt, "counted", 0, is);
}

/// Whether a route that goes to 3.3.3.3, back to 1.1.1.1, and to 3.3.3.3 again is refused.
fn is_refused(alloc: Global, book: &mut Book) -> bool {
    let why = placed(alloc, book, 1, 600, b"3.3.3.3/32s 1.1.1.1/32s", 7);
    why == Some(Err(PlaceError::Twice))
        && book.placements().is_empty()
        && left(book, ONE, THREE) == [1000; 8]
}

#[test]
fn route_twice_through_link(rt: HostRuntime) {
    let alloc = rt.alloc();
    let is = match book(alloc) {
        Some(mut book) => is_refused(alloc, &mut book),
        None => false,
    };
    assert_case(&rt, "twice through a link", 0, is);
}
