//! Helpers for the tests: a triangle of routers, and batches and requests for it.

ghost use Rattle.std.specs.Prelude.{◌↔◌, IsTrue};
ghost use Rattle.cspf_book.specs.PlacedRoutes.{ConnectsItsEnds};

use cspf_addr::{Addr, Mask, parse_hops};
use cspf_book::{Book, Path, PlaceError, Placement, RestoreError, TakesAll, VersionError};
use cspf_model::{Batch, Change, Link, MOST_VERSIONS, Outcome, Request};
use std::alloc::Global;

pub(super) const ONE: u32 = 0x0101_0101;

pub(super) const TWO: u32 = 0x0202_0202;

pub(super) const THREE: u32 = 0x0303_0303;

/// A change of a link or a router of the triangle.
#[derive(Clone, Copy)]
pub(super) enum Edit {
    /// Puts the link from the first router to the second, in the groups of this mask, with this
    /// unreserved bandwidth at each priority.
    Put(u32, u32, u32, [u64; 8]),
    /// Puts the link from 1.1.1.1 to 3.3.3.3, but makes it end at the first router given here. Its
    /// remote address is the address of the interface of 3.3.3.3 that leads to the second router
    /// given here.
    Turn(u32, u32),
    /// Removes the link from the first router to the second.
    Drop(u32, u32),
    /// Sets whether the router has transit.
    Node(u32, bool),
}

use Edit::Put;

const FREE: [u64; 8] = [1000; 8];

/// The links between every two of three routers, in both directions, with 1,000 bytes per second at
/// each priority.
const TRIANGLE: &[Edit] = &[
    Put(ONE, TWO, 0, FREE),
    Put(TWO, ONE, 0, FREE),
    Put(TWO, THREE, 0, FREE),
    Put(THREE, TWO, 0, FREE),
    Put(ONE, THREE, 0, FREE),
    Put(THREE, ONE, 0, FREE),
];

/// The address of the interface at the router `from` that leads to the router `to`.
pub(super) fn interface(from: u32, to: u32) -> Addr {
    Addr::new(from.wrapping_add(to.wrapping_mul(16)))
}

/// A link of metric 10.
fn link(
    from: u32,
    local: Addr,
    to: u32,
    remote: Addr,
    groups: u32,
    free: [u64; 8],
) -> Option<Link> {
    let groups = Mask::new(groups);
    Link::new(
        Addr::new(from),
        local,
        Addr::new(to),
        remote,
        10,
        groups,
        free,
    )
    .ok()
}

/// The edit as a change of the database.
fn change(edit: &Edit) -> Option<Change> {
    match *edit {
        Edit::Put(from, to, groups, free) => {
            let put = link(
                from,
                interface(from, to),
                to,
                interface(to, from),
                groups,
                free,
            )?;
            Some(Change::Put(put))
        }
        Edit::Turn(to, of) => {
            let put = link(
                ONE,
                interface(ONE, THREE),
                to,
                interface(THREE, of),
                0,
                FREE,
            )?;
            Some(Change::Put(put))
        }
        Edit::Drop(from, to) => Some(Change::Remove {
            from: Addr::new(from),
            local: interface(from, to),
        }),
        Edit::Node(router, transit) => Some(Change::Node {
            router: Addr::new(router),
            transit,
        }),
    }
}

/// A batch of these edits, or `None` if memory is refused.
pub(super) fn batch(alloc: Global, edits: &[Edit]) -> Option<Batch> {
    let mut changes = Vec::new(alloc);
    for edit in edits {
        changes.push(change(edit)?).ok()?;
    }
    Some(Batch { number: 1, changes })
}

/// Whether the book accepts the batch and applies it to the book's base, which is the database
/// without placements.
pub(super) fn is_absorbed(alloc: Global, book: &mut Book, batch: &Batch) -> bool {
    book.version() < MOST_VERSIONS && book.try_absorb(&mut TakesAll, &(), alloc, batch).is_ok()
}

/// The batch of the links of the triangle, or `None` if memory is refused.
pub(super) fn triangle(alloc: Global) -> Option<Batch> {
    batch(alloc, TRIANGLE)
}

/// A book of placements on the database of the triangle, or `None` if memory is refused.
pub(super) fn book(alloc: Global) -> Option<Book> {
    let batch = triangle(alloc)?;
    let mut book = Book::new(alloc).ok()?;
    if is_absorbed(alloc, &mut book, &batch) {
        Some(book)
    } else {
        None
    }
}

/// A request from 1.1.1.1 to 3.3.3.3 at setup priority 7, over links that aren't in group 0.
pub(super) fn request(id: u64, bandwidth: u64, hops: &[u8]) -> Option<Request> {
    let none = Mask::new(0);
    let (from, to) = (Addr::new(ONE), Addr::new(THREE));
    let hops = parse_hops(hops).ok()?;
    Request::new(id, from, to, 7, bandwidth, Mask::new(1), none, none, hops).ok()
}

/// Places a request that `request` makes. Returns the number of links in its route, 0 if there is
/// no route, or why the request isn't placed.
pub(super) fn placed(
    alloc: Global,
    book: &mut Book,
    id: u64,
    bandwidth: u64,
    hops: &[u8],
    hold: u8,
) -> Option<Result<usize, PlaceError>> {
    let request = request(id, bandwidth, hops)?;
    if request.setup != 7 || hold > 7 || book.version() >= MOST_VERSIONS {
        return None;
    }
    match book.place(&mut TakesAll, &(), alloc, &request, hold) {
        Ok(Outcome::Route(route)) => Some(Ok(route.links().len())),
        Ok(_) => Some(Ok(0)),
        Err(VersionError::Book(why)) => Some(Err(why)),
        Err(VersionError::Taker(())) => None,
    }
}

/// Releases the placement with this id, and returns whether it was released.
pub(super) fn is_released(alloc: Global, book: &mut Book, id: u64) -> bool {
    book.version() < MOST_VERSIONS && book.release(&mut TakesAll, &(), alloc, id).is_ok()
}

/// The bandwidth that the placements leave, at each priority, on the link from the first router to
/// the second. It is the link's unreserved bandwidth in the book's effective database.
pub(super) fn left(book: &Book, from: u32, to: u32) -> [u64; 8] {
    match book.effective().find(Addr::new(from), interface(from, to)) {
        Some(link) => link.free,
        None => [0; 8],
    }
}

/// A placement of a request that `request` makes. Its route goes from 1.1.1.1 through these routers.
pub(super) fn placement(
    alloc: Global,
    id: u64,
    bandwidth: u64,
    hold: u8,
    routers: &[u32],
) -> Option<Placement> {
    if hold > 7 {
        return None;
    }
    let mut steps = Vec::new(alloc);
    let mut from = ONE;
    for to in routers {
        steps.push((interface(from, *to), Addr::new(*to))).ok()?;
        from = *to;
    }
    let route = Path::along(alloc, Addr::new(ONE), steps.as_slice()).ok()?;
    let request = request(id, bandwidth, b"")?;
    Some(Placement {
        request,
        hold,
        route,
    })
}

/// Whether the placement's route leads to the tail-end of its request.
fn connects_its_ends(placement: &Placement) -> bool
    ensures { IsTrue result ↔ ConnectsItsEnds placement.now }
{
    let (from, to) = (placement.request.from, placement.request.to);
    placement.route.leads(from, to)
}

/// Restores the placement. Returns why it isn't restored. `None` if its route doesn't lead to the
/// tail-end of its request.
pub(super) fn restored(
    alloc: Global,
    book: &mut Book,
    placement: Placement,
) -> Option<Result<(), RestoreError>> {
    if !connects_its_ends(&placement) || book.version() >= MOST_VERSIONS {
        return None;
    }
    match book.restore(&mut TakesAll, &(), alloc, placement) {
        Ok(()) => Some(Ok(())),
        Err(VersionError::Book(why)) => Some(Err(why)),
        Err(VersionError::Taker(())) => None,
    }
}

/// The answer to a request that `request` makes, if it were placed: the number of links in its
/// route, 0 if there is no route, or why it wouldn't be placed.
pub(super) fn offered(
    alloc: Global,
    book: &mut Book,
    id: u64,
    bandwidth: u64,
    hops: &[u8],
) -> Option<Result<usize, PlaceError>> {
    let request = request(id, bandwidth, hops)?;
    if book.version() >= MOST_VERSIONS {
        return None;
    }
    match book.offer(alloc, &request, 0) {
        Ok(Outcome::Route(route)) => Some(Ok(route.links().len())),
        Ok(_) => Some(Ok(0)),
        Err(why) => Some(Err(why)),
    }
}
