//! Tests placements that are restored with their routes on the triangle, and what a book tells of
//! them: the placement with an id, the figures of a link, and the answer that a request would get.

use super::assert_case;
use super::networks::{
    ONE, THREE, TWO, book, interface, left, offered, placed, placement, restored,
};
use cspf_addr::Addr;
use cspf_book::{Book, MOST_PLACED_LINKS, Over, PlaceError, RestoreError};
use std::alloc::Global;

/// The id, the bandwidth and the holding priority of a placement, the routers through which its
/// route goes, and why it isn't restored.
type Case = (u64, u64, u8, &'static [u32], Option<RestoreError>);

/// A router without links.
const FAR: u32 = 0x0404_0404;

const CASES: &[Case] = &[
    (1, 600, 5, &[THREE], None),
    (1, 600, 5, &[TWO, THREE], Some(RestoreError::SameId)),
    (2, 700, 4, &[THREE], None),
    // links that the base doesn't have
    (3, 100, 0, &[FAR, THREE], None),
    (4, 100, 0, &[THREE, ONE, THREE], Some(RestoreError::Twice)),
    (5, 0, 7, &[TWO, ONE, THREE], None),
];

/// Whether each placement of the cases is restored or refused as the case says.
fn are_restored(alloc: Global, book: &mut Book) -> bool {
    for (id, bandwidth, hold, routers, why) in CASES {
        let placement = match placement(alloc, *id, *bandwidth, *hold, routers) {
            Some(placement) => placement,
            None => return false,
        };
        let wanted = match why {
            Some(why) => Err(*why),
            None => Ok(()),
        };
        if restored(alloc, book, placement) != Some(wanted) {
            return false;
        }
    }
    true
}

/// Whether the book has the placements 1, 2, 3 and 5 in this order, and counts them.
fn are_counted(book: &Book) -> bool {
    let ids = &[1, 2, 3, 5];
    let mut same = book.placements().len() == ids.len() && book.version() == 5;
    for (placement, id) in book.placements().iter().zip(ids) {
        same = same && placement.request.id == *id;
    }
    same && left(book, ONE, THREE) == [1000, 1000, 1000, 1000, 300, 0, 0, 0]
        && left(book, ONE, TWO) == [1000; 8]
        && book.counted(Addr::new(FAR), interface(FAR, THREE), 0) == 100
}

/// Whether the book has the placement 2 with its route and its holding priority, and none with the
/// id 4.
fn are_found(book: &Book) -> bool {
    let is_second = match book.placement(2) {
        Some(found) => {
            let links = found.route.links();
            found.hold == 4
                && links.len() == 1
                && links[0].local == interface(ONE, THREE)
                && links[0].to == Addr::new(THREE)
        }
        None => false,
    };
    is_second && book.placement(4).is_none()
}

/// Whether the figures of the link from 1.1.1.1 to 3.3.3.3 are right, and a link that the base
/// doesn't have has none.
fn are_figures(book: &Book) -> bool {
    let is_link = match book.left(Addr::new(ONE), interface(ONE, THREE)) {
        Some(figures) => {
            figures.base == [1000; 8]
                && figures.counted == [0, 0, 0, 0, 700, 1300, 1300, 1300]
                && figures.left == [1000, 1000, 1000, 1000, 300, 0, 0, 0]
        }
        None => false,
    };
    is_link && book.left(Addr::new(FAR), interface(FAR, THREE)).is_none()
}

#[test]
fn restored_with_their_routes(rt: HostRuntime) {
    let alloc = rt.alloc();
    let is = match book(alloc) {
        Some(mut book) => {
            are_restored(alloc, &mut book)
                && are_counted(&book)
                && are_found(&book)
                && are_figures(&book)
        }
        None => false,
    };
    assert_case(&rt, "restored", 0, is);
}

/// The bandwidth and the holding priority of a placement that isn't restored yet, the routers
/// through which its route goes, and where it makes the placements use more bandwidth than the links
/// have. Each link is given by its two routers.
type Shortage = (u64, u8, &'static [u32], &'static [(u32, u32, u8)]);

/// The placement 1 uses 600 bytes per second at the priorities 5 to 7, and the placement 2 uses 700
/// at the priorities 4 to 7. Where the placements use more than 1,000 already, no placement makes
/// them do so.
const SHORTAGES: &[Shortage] = &[
    (300, 0, &[THREE], &[]),
    (301, 3, &[THREE], &[(ONE, THREE, 4)]),
    (1000, 5, &[TWO, THREE], &[]),
    (
        1001,
        6,
        &[TWO, THREE],
        &[
            (ONE, TWO, 6),
            (ONE, TWO, 7),
            (TWO, THREE, 6),
            (TWO, THREE, 7),
        ],
    ),
    (1001, 7, &[FAR, TWO, THREE], &[(TWO, THREE, 7)]),
];

/// Whether the list has exactly these links and priorities.
fn is_list(list: &[Over], wanted: &[(u32, u32, u8)]) -> bool {
    let mut same = list.len() == wanted.len();
    for (over, (from, to, priority)) in list.iter().zip(wanted) {
        same = same
            && over.from == Addr::new(*from)
            && over.local == interface(*from, *to)
            && over.priority == *priority;
    }
    same
}

/// Whether the book tells for each case which links get too little bandwidth.
fn are_told(alloc: Global, book: &Book) -> bool {
    for (bandwidth, hold, routers, wanted) in SHORTAGES {
        let is = match placement(alloc, 9, *bandwidth, *hold, routers) {
            Some(placement) => match book.made_over(alloc, &placement) {
                Ok(list) => is_list(&list, wanted),
                Err(_) => false,
            },
            None => false,
        };
        if !is {
            return false;
        }
    }
    true
}

#[test]
fn made_over_by_a_placement(rt: HostRuntime) {
    let alloc = rt.alloc();
    let is = match book(alloc) {
        Some(mut book) => are_restored(alloc, &mut book) && are_told(alloc, &book),
        None => false,
    };
    assert_case(&rt, "made over", 0, is);
}

/// The most links that a route may have.
const LONGEST: u32 = MOST_PLACED_LINKS as u32;

/// Whether a route of as many links is restored. If it isn't, it has to be too long.
fn is_restored_of(alloc: Global, book: &mut Book, links: u32) -> Option<bool> {
    let mut routers = Vec::new(alloc);
    for router in 1..links {
        routers.push(router).ok()?;
    }
    routers.push(THREE).ok()?;
    let placement = placement(alloc, 1, 1, 7, routers.as_slice())?;
    match restored(alloc, book, placement)? {
        Ok(()) => Some(true),
        Err(RestoreError::TooLong) => Some(false),
        Err(_) => None,
    }
}

#[test]
fn longest_route(rt: HostRuntime) {
    let alloc = rt.alloc();
    let is = match book(alloc) {
        Some(mut book) => {
            is_restored_of(alloc, &mut book, LONGEST + 1) == Some(false)
                && is_restored_of(alloc, &mut book, LONGEST) == Some(true)
        }
        None => false,
    };
    assert_case(&rt, "longest route", 0, is);
}

/// A request's id, its bandwidth and the text of its hops.
type Asked = (u64, u64, &'static [u8]);

const ASKED: &[Asked] = &[
    (4, 600, b"3.3.3.3/32s 1.1.1.1/32s"),
    (1, 600, b""),
    (2, 600, b""),
    (3, 500, b""),
    (2, 1001, b""),
    (1, 1000, b""),
    (2, 400, b"2.2.2.2/32s"),
];

/// Whether each request gets the answer from `offer` that `place` then gives it. `offer` has to leave
/// the book as it was.
fn are_offered(alloc: Global, book: &mut Book) -> bool {
    for (id, bandwidth, hops) in ASKED {
        let before = (book.version(), left(book, ONE, THREE), left(book, ONE, TWO));
        let offer = offered(alloc, book, *id, *bandwidth, hops);
        let after = (book.version(), left(book, ONE, THREE), left(book, ONE, TWO));
        let is_same = before.0 == after.0 && before.1 == after.1 && before.2 == after.2;
        if !is_same || offer.is_none() || placed(alloc, book, *id, *bandwidth, hops, 0) != offer {
            return false;
        }
    }
    let twice = offered(alloc, book, 1, 600, b"3.3.3.3/32s 1.1.1.1/32s");
    twice == Some(Err(PlaceError::Twice)) && left(book, ONE, THREE) == [0; 8]
}

#[test]
fn offered_as_placed(rt: HostRuntime) {
    let alloc = rt.alloc();
    let is = match book(alloc) {
        Some(mut book) => are_offered(alloc, &mut book),
        None => false,
    };
    assert_case(&rt, "offered", 0, is);
}

/// Restores each placement of a book in another book. Returns whether both have the same placements
/// and the same effective database.
fn is_made_again(alloc: Global, book: &Book, again: &mut Book) -> Option<bool> {
    for known in book.placements() {
        let mut steps = Vec::new(alloc);
        for link in known.route.links() {
            steps.push((link.local, link.to)).ok()?;
        }
        let route = cspf_book::Path::along(alloc, known.request.from, steps.as_slice()).ok()?;
        let (request, hold) = (known.request, known.hold);
        let placement = cspf_book::Placement {
            request,
            hold,
            route,
        };
        restored(alloc, again, placement)?.ok()?;
    }
    let mut same = book.placements().len() == again.placements().len();
    for (one, other) in book.placements().iter().zip(again.placements()) {
        same = same
            && one.request == other.request
            && one.hold == other.hold
            && one.route.links() == other.route.links();
    }
    Some(same && book.effective().links() == again.effective().links())
}

#[test]
fn made_again_by_its_placements(rt: HostRuntime) {
    let alloc = rt.alloc();
    let is = match (book(alloc), book(alloc)) {
        (Some(mut first), Some(mut again)) => {
            are_offered(alloc, &mut first) && is_made_again(alloc, &first, &mut again) == Some(true)
        }
        _ => false,
    };
    assert_case(&rt, "made again", 0, is);
}
